// SPDX-License-Identifier: ISC
//! Values and keys of a source's bytes: which bytes are taken, and that a refusal takes none.

ghost use Rattle.std.specs.Prelude.{nat_le, min, length};
ghost use Rattle.std.proofs.Common.{leb-true};
ghost use Rattle.std.proofs.Math.Nat.{le_trans, min-le_right};

use crate::algorithms::KEYED_ROWS;
use crate::messages::counting_bytes;
use ring::error::Unspecified;
use ring::hmac::{Algorithm, HMAC_SHA256, Key, sign, verify};
use ring::rand::{SecureRandom, generate};

// A source over a list, which is ready for at most `most` bytes at once.
#[derive(Drop)]
struct Listed<'a> {
    bytes: &'a [u8],
    most: usize,
}

impl SecureRandom for Listed<'_> {
    ghost left = { λ s. s.bytes.now };

    ghost ready = { λ s n. nat_le n (min s.most (length s.bytes.now)) };

    fn is_ready(&self, len: usize) -> bool {
        len <= self.most.min(self.bytes.len())
    }

    fn fill(&mut self, dest: &mut [u8]) -> Result<(), Unspecified> {
        if !self.is_ready(dest.len()) {
            return Err(Unspecified);
        }
        let (taken, left) = self.bytes.split_at(dest.len());
        dest.copy_from_slice(taken);
        self.bytes = left;
        Ok(())
    }

    ghost enough = { λ s n ready. le_trans (leb-true n (min s.most (length s.bytes.now)) ready)
        (min-le_right s.most (length s.bytes.now)) };
}

// A source that is ready for all of its bytes.
fn ready_for_all(bytes: &[u8]) -> Listed<'_> {
    Listed {
        bytes,
        most: usize::MAX,
    }
}

#[test]
fn the_next_bytes(rt: HostRuntime) -> Result<(), Unspecified> {
    let mut five = ready_for_all(&[1, 2, 3, 4, 5]);
    let made = generate::<[u8; 4]>(&mut five)?.expose();
    assert!(rt; made == [1, 2, 3, 4] && five.bytes == [5].as_slice());
    Ok(())
}

#[test]
fn no_byte(rt: HostRuntime) {
    assert!(rt; generate::<[u8; 0]>(&mut ready_for_all(&[])).is_ok());
}

// Whether a source that is ready for three bytes gives none of four, and keeps its bytes.
fn takes_nothing(bytes: &[u8]) -> bool {
    let mut slow = Listed { bytes, most: 3 };
    generate::<[u8; 4]>(&mut slow).is_err() && slow.bytes == bytes
}

#[test]
fn a_source_that_is_not_ready(rt: HostRuntime) {
    assert!(rt; takes_nothing(&[7; 10]));
}

// Whether the key of the source's next bytes signs as the key of `value`, and not another message.
fn is_key_of(
    algorithm: Algorithm,
    source: &mut Listed<'_>,
    value: &[u8],
) -> Result<bool, Unspecified> {
    let made = Key::generate(algorithm, source)?;
    let tag = sign(&Key::new(algorithm, value)?, b"hello, world")?;
    Ok(
        made.algorithm() == algorithm
            && verify(&made, b"hello, world", tag.as_ref()).is_ok()
            && verify(&made, b"hello, worle", tag.as_ref()).is_err(),
    )
}

// Whether two keys are made of the first bytes and then of the second, and no third one.
fn makes_two_keys(algorithm: Algorithm, both: &[u8], first: &[u8], second: &[u8]) -> bool {
    let mut source = ready_for_all(both);
    is_key_of(algorithm, &mut source, first) == Ok(true)
        && is_key_of(algorithm, &mut source, second) == Ok(true)
        && source.bytes.is_empty()
        && Key::generate(algorithm, &mut source).is_err()
}

// Whether a source that is ready for `most` bytes makes no key, and keeps its bytes.
fn makes_no_key(algorithm: Algorithm, bytes: &[u8], most: usize) -> bool {
    let mut slow = Listed { bytes, most };
    Key::generate(algorithm, &mut slow).is_err() && slow.bytes == bytes
}

// Three keys in turn from the bytes of two, and one from a source that is ready for a byte less.
#[test]
fn keys_in_turn(rt: HostRuntime) {
    let bytes = counting_bytes::<128>();
    for row in KEYED_ROWS {
        let len = row.digest.output_len.clamp(1, 64);
        let both = &bytes[..2 * len];
        let (first, second) = both.split_at(len);
        assert!(rt; makes_two_keys(row.hmac, both, first, second));
        assert!(rt; makes_no_key(row.hmac, both, len - 1));
    }
}

#[test]
fn bytes_past_the_key_are_left(rt: HostRuntime) {
    let bytes = counting_bytes::<128>();
    let mut source = ready_for_all(&bytes[..34]);
    assert!(rt; is_key_of(HMAC_SHA256, &mut source, &bytes[..32]) == Ok(true));
    assert!(rt; source.bytes == [32, 33].as_slice());
}
