// SPDX-License-Identifier: ISC
//! Outputs of HKDF: lengths, refusals that leave buffers and meters, and what is made of an output.

use crate::algorithms::KEYED_ROWS;
use crate::texts::{is_hex_of, prints};
use ring::cost::Meter;
use ring::digest::{MAX_OUTPUT_LEN, SHA256, digest_counted};
use ring::error::Unspecified;
use ring::hkdf::{Algorithm, HKDF_SHA1_FOR_LEGACY_USE_ONLY, HKDF_SHA256, KeyType, Prk, Salt};
use ring::hmac;
use std::test::Fail;

// A length of the caller's own.
#[derive(Debug, Drop)]
struct Length(usize);

impl KeyType for Length {
    ghost key_len = { λ length. length.0 };

    fn len(&self) -> usize {
        self.0
    }
}

// Whether as many bytes may be asked for.
fn is_expanded(algorithm: Algorithm, len: usize) -> Result<bool, Unspecified> {
    let prk = Prk::new_less_safe(algorithm, &[1])?;
    Ok(
        prk.expand(&[], Length(len))
            .is_ok_and(|output| output.len().0 == len),
    )
}

// RFC 5869, section 2.3: an output has at most 255 digests' bytes.
#[test]
fn lengths_asked_for(rt: HostRuntime) {
    for row in KEYED_ROWS {
        let most = row.digest.output_len.saturating_mul(255);
        assert!(rt;
            is_expanded(row.hkdf, most) == Ok(true)
                && is_expanded(row.hkdf, most.saturating_add(1)) == Ok(false)
                && is_expanded(row.hkdf, usize::MAX) == Ok(false)
        );
    }
}

// A meter that has counted the padded blocks of the message.
fn meter_after(message: &[u8]) -> Result<Meter, Unspecified> {
    let mut meter = Meter::new();
    let _ = digest_counted(&SHA256, message, &mut meter)?;
    Ok(meter)
}

// Where two bytes were asked for and the meter is at seven blocks: whether a buffer of another
// length is refused, and the blocks afterwards.
fn refused(out: &mut [u8]) -> Result<(bool, u128), Unspecified> {
    let mut meter = meter_after(&[0; 384])?;
    let prk = Prk::new_less_safe(HKDF_SHA256, &[1])?;
    let plain = prk.expand(&[], Length(2))?.fill(out);
    let counted = prk.expand(&[], Length(2))?.fill_counted(out, &mut meter);
    Ok((plain.is_err() && counted.is_err(), meter.blocks()))
}

#[test]
fn buffers_of_another_length_stay(rt: HostRuntime) -> Result<(), Unspecified> {
    let (mut one, mut three) = ([0xee; 1], [0xee; 3]);
    assert!(rt;
        refused(&mut [])? == (true, 7)
            && refused(&mut one)? == (true, 7)
            && refused(&mut three)? == (true, 7)
    );
    assert!(rt; one == [0xee; 1] && three == [0xee; 3]);
    let prk = Prk::new_less_safe(HKDF_SHA256, &[1])?;
    prk.expand(&[], Length(2))?.fill(&mut [0xee; 2])
}

// 64 bytes of output, and a tag under the key that is made of them.
fn value_and_tag(prk: &Prk) -> Result<([u8; 64], hmac::Tag), Unspecified> {
    let mut value = [0; 64];
    prk.expand(&[b"info"], Length(64))?.fill(&mut value)?;
    let key = hmac::Key::try_from(prk.expand(&[b"info"], hmac::HMAC_SHA512)?)?;
    Ok((value, hmac::sign(&key, b"hello, world")?))
}

// Four rounds of HMAC-SHA-1 give these bytes.
const VALUE: &str = "4df2d8c5472bce8c8fdedfc270d2165b8ad10f5c06f227edf4f578c6d7530fa5\
    308ed48ef7508f215a4b853f869bdd27511ef05ebc80eae55037aff347fa38e3";

const TAG_UNDER_VALUE: &str = "e310f4dd2499ed7a6940f8174b491e4dd28a85c2609034187465bfabb245c89e\
    3c22ca4d189dc66f31847070b1dd82fa2b39a34cdb8180015bc2a2786bc2406e";

// The bytes and the tag are those of Python's `hmac`.
#[test]
fn a_key_of_another_algorithm(rt: HostRuntime) -> Result<(), Unspecified> {
    let prk = Salt::new(HKDF_SHA1_FOR_LEGACY_USE_ONLY, &[])?.extract(&[0])?;
    let (value, tag) = value_and_tag(&prk)?;
    assert!(rt; is_hex_of(VALUE, &value) && is_hex_of(TAG_UNDER_VALUE, tag.as_ref()));
    Ok(())
}

// The first bytes that a PRK expands to.
fn front_of(prk: &Prk) -> Result<[u8; 8], Unspecified> {
    let mut out = [0; 8];
    prk.expand(&[b"front"], Length(8))?.fill(&mut out)?;
    Ok(out)
}

// What a salt extracts, by the first bytes that it expands to.
fn front_of_extracted(salt: &Salt) -> Result<[u8; 8], Unspecified> {
    front_of(&salt.extract(b"secret")?)
}

// Whether the output as a key signs as its bytes do.
fn is_key_of(prk: &Prk, algorithm: hmac::Algorithm, value: &[u8]) -> Result<bool, Unspecified> {
    let made = hmac::Key::try_from(prk.expand(&[b"info"], algorithm)?)?;
    let tag = hmac::sign(&hmac::Key::new(algorithm, value)?, b"hello, world")?;
    let answer = hmac::verify(&made, b"hello, world", tag.as_ref());
    Ok(made.algorithm() == algorithm && answer.is_ok())
}

// Whether the output as a salt extracts what its bytes do.
fn is_salt_of(prk: &Prk, algorithm: Algorithm, value: &[u8]) -> Result<bool, Unspecified> {
    let made = Salt::try_from(prk.expand(&[b"info"], algorithm)?)?;
    let expected = front_of_extracted(&Salt::new(algorithm, value)?);
    Ok(made.algorithm() == algorithm && front_of_extracted(&made)? == expected?)
}

// Whether the output as a PRK, and a copy of that, expand to what its bytes do.
fn is_prk_of(prk: &Prk, algorithm: Algorithm, value: &[u8]) -> Result<bool, Unspecified> {
    let made = Prk::try_from(prk.expand(&[b"info"], algorithm)?)?;
    let expected = Ok(front_of(&Prk::new_less_safe(algorithm, value)?)?);
    Ok(front_of(&made) == expected && front_of(&made.clone()) == expected)
}

// Whether a key, a salt and a PRK that are made of an output are those that its bytes make.
fn makes_what_its_bytes_make(
    prk: &Prk,
    algorithm: Algorithm,
    value: &mut [u8],
) -> Result<bool, Unspecified> {
    prk.expand(&[b"info"], Length(value.len()))?.fill(value)?;
    Ok(
        is_key_of(prk, algorithm.hmac_algorithm(), value) == Ok(true)
            && is_salt_of(prk, algorithm, value) == Ok(true)
            && is_prk_of(prk, algorithm, value) == Ok(true),
    )
}

#[test]
fn keys_salts_and_prks_of_all_algorithms(rt: HostRuntime) -> Result<(), Unspecified> {
    let mut value = [0; MAX_OUTPUT_LEN];
    for own in KEYED_ROWS {
        let prk = Prk::new_less_safe(own.hkdf, b"a pseudorandom key")?;
        for row in KEYED_ROWS {
            let (value, _) = value.split_at_mut(row.digest.output_len.min(MAX_OUTPUT_LEN));
            assert!(rt; makes_what_its_bytes_make(&prk, row.hkdf, value) == Ok(true));
        }
    }
    Ok(())
}

// The texts tell none of the bytes.
#[test]
fn debug_texts(rt: HostRuntime) -> Result<(), Fail> {
    let salt = Salt::new(HKDF_SHA256, &[1])?;
    let prk = salt.extract(&[2])?;
    let output = prk.expand(&[], Length(7))?;
    let text =
        "Okm { prk: Prk(Key { algorithm: SHA256 }), info: [], len: Length(7), len_cached: 7 }";
    assert!(rt;
        prints(rt.alloc(), &salt, "Salt(Key { algorithm: SHA256 })")?
            && prints(rt.alloc(), &output, text)?
            && prints(rt.alloc(), &HKDF_SHA256, "Algorithm(Algorithm(SHA256))")?
    );
    Ok(())
}
