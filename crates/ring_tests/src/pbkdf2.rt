// SPDX-License-Identifier: ISC
//! Keys derived from passwords: values that are verified, and what that costs.

use crate::algorithms::KEYED_ROWS;
use crate::texts::is_hex_of;
use ring::cost::Meter;
use ring::digest::{SHA256, digest};
use ring::error::Unspecified;
use ring::pbkdf2::{
    Algorithm, PBKDF2_HMAC_SHA1, derive, derive_counted, derive_in, verify_counted, verify_in,
};
use ring::width::AVX2;
use std::num::NonZeroU32;

const SECRET: &[u8] = b"password";

const SALT: &[u8] = b"salt";

// The blocks and the byte pairs that a verification cost, and whether the value matched.
fn verifies(value: &[u8], iterations: NonZeroU32) -> (bool, u128, u128) {
    let mut meter = Meter::new();
    let algorithm = PBKDF2_HMAC_SHA1;
    let answer = verify_counted(algorithm, iterations, SALT, SECRET, value, &mut meter);
    (answer.is_ok(), meter.blocks(), meter.byte_pairs())
}

// What a value costs that differs in one byte.
fn verifies_but_for(value: &[u8; 40], place: usize, iterations: NonZeroU32) -> (bool, u128, u128) {
    let mut wrong = *value;
    if let Some(byte) = wrong.get_mut(place) {
        *byte ^= 0x80;
    }
    verifies(&wrong, iterations)
}

// The value of 40 bytes, and what it costs.
fn derived(iterations: NonZeroU32) -> Result<([u8; 40], u128, u128), Unspecified> {
    let mut value = [0; 40];
    let mut meter = Meter::new();
    let algorithm = PBKDF2_HMAC_SHA1;
    derive_counted(algorithm, iterations, SALT, SECRET, &mut value, &mut meter)?;
    Ok((value, meter.blocks(), meter.byte_pairs()))
}

// The value of 40 bytes takes two rounds of 20: wherever it differs, both are made and compared.
#[test]
fn mismatches_cost_what_matches_do(rt: HostRuntime) -> Result<(), Unspecified> {
    let one = NonZeroU32::MIN;
    let (value, blocks, pairs) = derived(one)?;
    assert!(rt; blocks == 6 && pairs == 0 && verifies(&value, one) == (true, 6, 40));
    for place in [0, 19, 20, 39] {
        assert!(rt;
            verifies_but_for(&value, place, one) == (false, 6, 40),
            "at {place}"
        );
    }
    assert!(rt;
        verifies(&[0; 40], one) == (false, 6, 40)
            && verifies(&[0; 5], one) == (false, 4, 5)
            && verifies(&[], one) == (false, 0, 0)
    );
    Ok(())
}

// The bytes of a value that has rounds for eight lanes, four and one, and a last one that is cut.
const LONG: usize = 700;

// Whether a long value is verified over wide vectors.
fn is_verified_wide(algorithm: Algorithm, iterations: NonZeroU32, value: &[u8; LONG]) -> bool {
    let mut meter = Meter::new();
    verify_in::<AVX2>(algorithm, iterations, SALT, SECRET, value, &mut meter).is_ok()
}

// Whether that is so, and it is refused where a byte of it differs.
fn is_told_apart(algorithm: Algorithm, iterations: NonZeroU32, value: &[u8; LONG]) -> bool {
    for place in [0, 159, 160, 256, 511, 512, 640, 699] {
        let mut wrong = *value;
        wrong[place] ^= 1;
        if is_verified_wide(algorithm, iterations, &wrong) {
            return false;
        }
    }
    is_verified_wide(algorithm, iterations, value)
}

#[test]
fn long_values_over_vectors_of_both_widths(rt: HostRuntime) -> Result<(), Unspecified> {
    let three = NonZeroU32::new(3).ok_or(Unspecified)?;
    for row in KEYED_ROWS {
        let algorithm = row.pbkdf2;
        let mut value = [0; LONG];
        derive(algorithm, three, SALT, SECRET, &mut value)?;
        let mut wide_value = [0; LONG];
        let mut meter = Meter::new();
        derive_in::<AVX2>(algorithm, three, SALT, SECRET, &mut wide_value, &mut meter)?;
        assert!(rt;
            is_hex_of(row.of_700_bytes, digest(&SHA256, &value)?.as_ref())
                && value == wide_value
                && is_told_apart(algorithm, three, &value)
        );
    }
    Ok(())
}
