// SPDX-License-Identifier: ISC
//! Tags: messages in whatever pieces, what keys cost, and the texts of Debug.

use crate::algorithms::{KEYED_ROWS, piece_lens};
use crate::messages::{counting_bytes, padded_blocks, takes_all};
use crate::texts::prints;
use ring::cost::Meter;
use ring::error::Unspecified;
use ring::hmac::{Context, HMAC_SHA256, Key, Tag, sign, sign_counted, verify_counted};
use std::test::Fail;

// Whether the context and a copy of it give the tag, when `blocks` have run.
fn signs(
    context: Context,
    expected: &[u8],
    meter: &mut Meter,
    blocks: u128,
) -> Result<bool, Unspecified> {
    let copy = context.clone().sign()?;
    let made = context.sign_counted(meter)?;
    Ok(made.as_ref() == expected && copy.as_ref() == expected && meter.blocks() == blocks)
}

// Whether the message in pieces has the tag of the whole, for the blocks of its padded bytes and
// the one of the outer digest.
fn agrees(key: &Key, message: &[u8], piece_len: usize) -> Result<bool, Unspecified> {
    let algorithm = key.algorithm().digest_algorithm();
    let expected = sign(key, message)?;
    let blocks = padded_blocks(&algorithm, message.len()).saturating_add(1);
    let mut meter = Meter::new();
    let mut context = Context::with_key(key);
    let mut in_one_piece = Context::with_key(key);
    in_one_piece.update(message);
    Ok(
        takes_all(&mut context, &algorithm, message, piece_len, &mut meter)
            && signs(context, expected.as_ref(), &mut meter, blocks)?
            && in_one_piece.sign()?.as_ref() == expected.as_ref(),
    )
}

#[test]
fn agreement_in_pieces(rt: HostRuntime) -> Result<(), Unspecified> {
    let bytes = counting_bytes::<257>();
    for row in KEYED_ROWS {
        let key = Key::new(row.hmac, &[0x0b; 20])?;
        for piece_len in piece_lens(&row.digest) {
            for len in 0..258 {
                assert!(rt; agrees(&key, &bytes[..len], piece_len)?);
            }
        }
    }
    Ok(())
}

// The blocks that the meter has after a signing, where that gives the tag that is expected.
fn blocks_after(key: &Key, meter: &mut Meter, expected: &Tag) -> Result<u128, Unspecified> {
    let tag = sign_counted(key, b"Hi There", meter)?;
    if tag.as_ref() != expected.as_ref() {
        return Err(Unspecified);
    }
    Ok(meter.blocks())
}

// The blocks of a key by itself, and after each of three signings.
fn blocks_of_key(value: &[u8]) -> Result<[u128; 4], Unspecified> {
    let mut meter = Meter::new();
    let key = Key::new_counted(HMAC_SHA256, value, &mut meter)?;
    let own = meter.blocks();
    let expected = sign(&key.clone(), b"Hi There")?;
    let first = blocks_after(&key, &mut meter, &expected)?;
    let second = blocks_after(&key, &mut meter, &expected)?;
    Ok([
        own,
        first,
        second,
        blocks_after(&key, &mut meter, &expected)?,
    ])
}

// A key's blocks are run once, and not again by a signing. One that is longer than a block is
// hashed (RFC 2104, section 2).
#[test]
fn three_signings(rt: HostRuntime) {
    let bytes = [0x0b; 131];
    for (len, blocks) in [
        (0, [2, 4, 6, 8]),
        (20, [2, 4, 6, 8]),
        (63, [2, 4, 6, 8]),
        (64, [2, 4, 6, 8]),
        (65, [4, 6, 8, 10]),
        (131, [5, 7, 9, 11]),
    ] {
        assert!(rt; blocks_of_key(&bytes[..len]) == Ok(blocks));
    }
}

// Whether the tag is the message's, and the byte pairs that were compared for two blocks.
fn verifies(key: &Key, tag: &[u8]) -> (bool, u128, u128) {
    let mut meter = Meter::new();
    let answer = verify_counted(key, b"Hi There", tag, &mut meter);
    (answer.is_ok(), meter.blocks(), meter.byte_pairs())
}

// A tag of another length is not compared.
#[test]
fn pairs_of_a_verification(rt: HostRuntime) -> Result<(), Unspecified> {
    let key = Key::new(HMAC_SHA256, &[0x0b; 20])?;
    let tag = sign(&key, b"Hi There")?;
    assert!(rt;
        verifies(&key, tag.as_ref()) == (true, 2, 32)
            && verifies(&key, &[0; 32]) == (false, 2, 32)
            && verifies(&key, &[0; 31]) == (false, 2, 0)
    );
    Ok(())
}

// The texts are those of the original.
#[test]
fn debug_texts(rt: HostRuntime) -> Result<(), Fail> {
    let key = Key::new(HMAC_SHA256, b"Jefe")?;
    let context = Context::with_key(&key);
    assert!(rt;
        prints(rt.alloc(), &HMAC_SHA256, "Algorithm(SHA256)")?
            && prints(rt.alloc(), &key, "Key { algorithm: SHA256 }")?
            && prints(rt.alloc(), &context, "Context { algorithm: SHA256 }")?
    );
    Ok(())
}
