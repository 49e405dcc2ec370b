// SPDX-License-Identifier: ISC
//! Keys derived from passwords: PBKDF2 (RFC 2898, section 5.2).

ghost use Rattle.std.specs.Prelude.{◌≡◌};
ghost use Rattle.ring_c.specs.Gives.{WritesKey, verify_status};

use crate::number::pbkdf2_of_number;
use crate::status::{NO_ITERATIONS, OK, UNKNOWN_ALGORITHM, UNSPECIFIED, WRONG_LENGTH};
use ring::cost::Meter;
use ring::pbkdf2::{self, max_dk_len};
use ring::width::{AVX2, SSE};
use std::num::NonZeroU32;

// A secret and its salt.
struct Salted<'a> {
    salt: &'a [u8],
    secret: &'a [u8],
}

// What `yz_pbkdf2_derive` and `yz_pbkdf2_derive_wide` promise, with vectors of `VECTOR_BITS` bits.
fn derive<const VECTOR_BITS: usize>(
    algorithm: u32,
    iterations: u32,
    salted: Salted,
    out: &mut [u8],
) -> i32
    ensures { WritesKey algorithm salted.entry.secret.now salted.entry.salt.now iterations
        out.old out.new result }
{
    let Salted { salt, secret } = salted;
    let Some(algorithm) = pbkdf2_of_number(algorithm) else {
        return UNKNOWN_ALGORITHM;
    };
    let Some(iterations) = NonZeroU32::new(iterations) else {
        return NO_ITERATIONS;
    };
    if out.len() as u128 > max_dk_len(&algorithm) {
        return WRONG_LENGTH;
    }
    let mut meter = Meter::new();
    match pbkdf2::derive_in::<VECTOR_BITS>(algorithm, iterations, salt, secret, out, &mut meter) {
        Ok(()) => OK,
        Err(_) => UNSPECIFIED,
    }
}

/// Fills `out` with the key that is derived from `secret` and `salt` in so many `iterations`, by
/// the PBKDF2 algorithm of the number `algorithm` (RFC 2898, section 5.2).
///
/// Refused as `UNKNOWN_ALGORITHM`, as `NO_ITERATIONS`, as `WRONG_LENGTH` where `out` is longer than
/// `2^32 - 1` digests, and as `UNSPECIFIED` where the secret or the salt is too long. `out` is then
/// unchanged.
#[unsafe(no_mangle)]
pub extern "C" fn yz_pbkdf2_derive(
    algorithm: u32,
    iterations: u32,
    salt: &[u8],
    secret: &[u8],
    out: &mut [u8],
) -> i32
    ensures { WritesKey algorithm secret.now salt.now iterations out.old out.new result }
{
    derive::<SSE>(algorithm, iterations, Salted { salt, secret }, out)
}

/// Fills `out` as [`yz_pbkdf2_derive`] does from the same `algorithm`, `iterations`, `salt` and
/// `secret` (RFC 2898, section 5.2), more rounds of it side by side: for the build for x86-64-v3.
///
/// Refused as that call is, with `out` unchanged.
#[unsafe(no_mangle)]
pub extern "C" fn yz_pbkdf2_derive_wide(
    algorithm: u32,
    iterations: u32,
    salt: &[u8],
    secret: &[u8],
    out: &mut [u8],
) -> i32
    ensures { WritesKey algorithm secret.now salt.now iterations out.old out.new result }
{
    derive::<AVX2>(algorithm, iterations, Salted { salt, secret }, out)
}

// What `yz_pbkdf2_verify` and `yz_pbkdf2_verify_wide` promise, with vectors of `VECTOR_BITS` bits.
fn verify<const VECTOR_BITS: usize>(
    algorithm: u32,
    iterations: u32,
    salted: Salted,
    derived: &[u8],
) -> i32
    ensures { result ≡ verify_status algorithm salted.entry.secret.now salted.entry.salt.now
        iterations derived.now }
{
    let Salted { salt, secret } = salted;
    let Some(algorithm) = pbkdf2_of_number(algorithm) else {
        return UNKNOWN_ALGORITHM;
    };
    let Some(iterations) = NonZeroU32::new(iterations) else {
        return NO_ITERATIONS;
    };
    let mut meter = Meter::new();
    match pbkdf2::verify_in::<VECTOR_BITS>(
        algorithm, iterations, salt, secret, derived, &mut meter,
    ) {
        Ok(()) => OK,
        Err(_) => UNSPECIFIED,
    }
}

/// Returns 0 exactly if `derived` is not empty and is the key of its length that
/// [`yz_pbkdf2_derive`] derives from the same `algorithm`, `iterations`, `salt` and `secret` (RFC
/// 2898, section 5.2).
///
/// Refused as `UNKNOWN_ALGORITHM` and `NO_ITERATIONS` as that call is, and else as `UNSPECIFIED`: a
/// mismatch, an empty value, or a value, secret or salt that is too long.
#[unsafe(no_mangle)]
pub extern "C" fn yz_pbkdf2_verify(
    algorithm: u32,
    iterations: u32,
    salt: &[u8],
    secret: &[u8],
    derived: &[u8],
) -> i32
    ensures { result ≡ verify_status algorithm secret.now salt.now iterations derived.now }
{
    verify::<SSE>(algorithm, iterations, Salted { salt, secret }, derived)
}

/// Tests `derived` as [`yz_pbkdf2_verify`] does by the same `algorithm`, `iterations`, `salt` and
/// `secret` (RFC 2898, section 5.2), more rounds of it side by side: for the build for x86-64-v3.
///
/// Refused as that call is.
#[unsafe(no_mangle)]
pub extern "C" fn yz_pbkdf2_verify_wide(
    algorithm: u32,
    iterations: u32,
    salt: &[u8],
    secret: &[u8],
    derived: &[u8],
) -> i32
    ensures { result ≡ verify_status algorithm secret.now salt.now iterations derived.now }
{
    verify::<AVX2>(algorithm, iterations, Salted { salt, secret }, derived)
}
