// SPDX-License-Identifier: ISC
//! Keys derived from several secrets at once: the values of other implementations, in every place.

ghost use Rattle.std.specs.Prelude.{◌<◌};

use crate::algorithms::KEYED_ROWS;
use crate::messages::counting_bytes;
use crate::texts::is_hex_of;
use ring::cost::Meter;
use ring::digest::{Context, Digest, SHA256};
use ring::error::Unspecified;
use ring::pbkdf2::{
    Algorithm, PBKDF2_HMAC_SHA1, derive_each_counted, derive_each_in, verify_each_counted,
    verify_each_in,
};
use ring::width::AVX2;
use std::num::NonZeroU32;

// The most keys at once.
const MOST: usize = 13;

// Lengths of secrets of no byte, of a block and of more.
const SECRET_LENS: [usize; MOST] = [0, 200, 64, 3, 65, 128, 129, 17, 257, 1, 63, 127, 66];

// Lengths of salts whose first iterates differ in their blocks.
const SALT_LENS: [usize; MOST] = [8, 0, 51, 52, 60, 111, 8, 130, 257, 16, 55, 119, 4];

// The fronts of the bytes that have these lengths.
fn fronts(bytes: &[u8; 257], lens: [usize; MOST]) -> [&[u8]; MOST] {
    lens.map(|len| &bytes[..len.min(257)])
}

// The keys of the first secrets and salts by three iterations, and zeros after them, over vectors
// of both widths.
fn keys_of<const N: usize>(
    algorithm: Algorithm,
    count: usize,
) -> Result<[[u8; N]; MOST], Unspecified> {
    let bytes = counting_bytes::<257>();
    let secrets = fronts(&bytes, SECRET_LENS);
    let salts = fronts(&bytes, SALT_LENS);
    let three = NonZeroU32::new(3).ok_or(Unspecified)?;
    let count = count.min(MOST);
    let (salts, secrets) = (&salts[..count], &secrets[..count]);
    let mut keys = [[0; N]; MOST];
    let mut meter = Meter::new();
    derive_each_counted(
        algorithm,
        three,
        salts,
        secrets,
        &mut keys[..count],
        &mut meter,
    )?;
    let mut wide = [[0; N]; MOST];
    derive_each_in::<AVX2, N>(
        algorithm,
        three,
        salts,
        secrets,
        &mut wide[..count],
        &mut meter,
    )?;
    if keys == wide {
        Ok(keys)
    } else {
        Err(Unspecified)
    }
}

// The digest of the keys one after another.
fn digest_of<const N: usize>(keys: &[[u8; N]]) -> Result<Digest, Unspecified> {
    let mut context = Context::new(&SHA256);
    for key in keys {
        context.update(key);
    }
    context.finish()
}

// Whether the first keys are the same where no others are derived beside them, and the places after
// them stay.
fn agrees_on_first<const N: usize>(
    algorithm: Algorithm,
    all: &[[u8; N]; MOST],
    count: usize,
) -> Result<bool, Unspecified> {
    let keys = keys_of::<N>(algorithm, count)?;
    for (i, key) in keys.iter().enumerate() {
        let expected = if i < count { all[i] } else { [0; N] };
        if *key != expected {
            return Ok(false);
        }
    }
    Ok(true)
}

// Whether the keys are those of others, in any number.
fn are_of_others<const N: usize>(algorithm: Algorithm, expected: &str) -> Result<bool, Unspecified>
    requires { N < 1000 }
{
    let all = keys_of::<N>(algorithm, MOST)?;
    if !is_hex_of(expected, digest_of(&all)?.as_ref()) {
        return Ok(false);
    }
    for count in [0, 1, 3, 4, 5, 8, 9, 12] {
        if !agrees_on_first(algorithm, &all, count)? {
            return Ok(false);
        }
    }
    Ok(true)
}

#[test]
fn keys_of_any_number(rt: HostRuntime) {
    for row in KEYED_ROWS {
        assert!(rt;
            are_of_others::<20>(row.pbkdf2, row.of_20_bytes) == Ok(true)
                && are_of_others::<32>(row.pbkdf2, row.of_32_bytes) == Ok(true)
                && are_of_others::<64>(row.pbkdf2, row.of_64_bytes) == Ok(true)
                && are_of_others::<100>(row.pbkdf2, row.of_100_bytes) == Ok(true)
        );
    }
}

// RFC 6070, its third, fifth and sixth vectors, of 20, 25 and 16 bytes, and the third again.
const RFC_6070_SECRETS: [&[u8]; 4] = [
    b"password",
    b"passwordPASSWORDpassword",
    b"pass\0word",
    b"password",
];

const RFC_6070_SALTS: [&[u8]; 4] = [
    b"salt",
    b"saltSALTsaltSALTsaltSALTsaltSALTsalt",
    b"sa\0lt",
    b"salt",
];

const RFC_6070_KEYS: [&str; 4] = [
    "4b007901b765489abead49d926f721d065a429c1",
    "3d2eec4fe41c849b80c8d83662c0e44a8b291a964cf2f07038",
    "56fa6aa75548099dcc37d7f03425e0c3",
    "4b007901b765489abead49d926f721d065a429c1",
];

#[test]
fn rfc_6070_side_by_side(rt: HostRuntime) -> Result<(), Unspecified> {
    let iterations = NonZeroU32::new(4096).ok_or(Unspecified)?;
    let mut keys = [[0; 25]; 4];
    derive_each_counted(
        PBKDF2_HMAC_SHA1,
        iterations,
        &RFC_6070_SALTS,
        &RFC_6070_SECRETS,
        &mut keys,
        &mut Meter::new(),
    )?;
    for ((key, expected), len) in keys.iter().zip(&RFC_6070_KEYS).zip(&[20, 25, 16, 20]) {
        assert!(rt;
            key.get(..*len)
                .is_some_and(|front| is_hex_of(expected, front))
        );
    }
    Ok(())
}

// The answers for the first of these values, over vectors of both widths, false after them, and
// what they cost.
fn answers_for<const N: usize>(
    algorithm: Algorithm,
    values: &[[u8; N]; MOST],
    count: usize,
) -> Result<([bool; MOST], u128, u128), Unspecified> {
    let bytes = counting_bytes::<257>();
    let secrets = fronts(&bytes, SECRET_LENS);
    let salts = fronts(&bytes, SALT_LENS);
    let three = NonZeroU32::new(3).ok_or(Unspecified)?;
    let count = count.min(MOST);
    let mut matches = [false; MOST];
    let mut meter = Meter::new();
    verify_each_counted(
        algorithm,
        three,
        &salts[..count],
        &secrets[..count],
        &values[..count],
        &mut matches[..count],
        &mut meter,
    )?;
    let mut wide_matches = [false; MOST];
    let mut wide_meter = Meter::new();
    verify_each_in::<AVX2, N>(
        algorithm,
        three,
        &salts[..count],
        &secrets[..count],
        &values[..count],
        &mut wide_matches[..count],
        &mut wide_meter,
    )?;
    let is_same_cost = meter.blocks() == wide_meter.blocks();
    if matches == wide_matches && is_same_cost && meter.byte_pairs() == wide_meter.byte_pairs() {
        Ok((matches, meter.blocks(), meter.byte_pairs()))
    } else {
        Err(Unspecified)
    }
}

// Whether exactly the answers at the other places before `count` are true where one value differs
// in its first or in its last byte, at the cost of no difference.
fn tells_one_apart<const N: usize>(
    algorithm: Algorithm,
    values: &[[u8; N]; MOST],
    wrong: usize,
    count: usize,
) -> Result<bool, Unspecified> {
    let (_, blocks, pairs) = answers_for(algorithm, values, count)?;
    let mut matches = [false; MOST];
    matches[..count.min(MOST)].fill(true);
    if let Some(matched) = matches.get_mut(wrong) {
        *matched = false;
    }
    for place in [0, N.saturating_sub(1)] {
        let mut others = *values;
        if let Some(value) = others.get_mut(wrong) {
            if let Some(byte) = value.get_mut(place) {
                *byte ^= 0x80;
            }
        }
        if answers_for(algorithm, &others, count)? != (matches, blocks, pairs) {
            return Ok(false);
        }
    }
    Ok(true)
}

// The values are those that `keys_of_any_number` compares with others'.
fn tells_each_apart<const N: usize>(algorithm: Algorithm) -> Result<bool, Unspecified>
    requires { N < 1000 }
{
    let values = keys_of::<N>(algorithm, MOST)?;
    for wrong in 0..MOST {
        if !tells_one_apart(algorithm, &values, wrong, MOST)? {
            return Ok(false);
        }
    }
    for count in [0, 1, 3, 4, 5, 8, 9, 12] {
        if !tells_one_apart(algorithm, &values, 2, count)? {
            return Ok(false);
        }
    }
    Ok(true)
}

#[test]
fn values_that_differ(rt: HostRuntime) {
    for row in KEYED_ROWS {
        assert!(rt;
            tells_each_apart::<20>(row.pbkdf2) == Ok(true)
                && tells_each_apart::<32>(row.pbkdf2) == Ok(true)
                && tells_each_apart::<100>(row.pbkdf2) == Ok(true)
        );
    }
}
