// SPDX-License-Identifier: ISC
//! Callers whose proofs use a law: the call of a law gives them its clause.

ghost use Rattle.std.specs.Prelude.{◌≡◌, ◌↔◌, ◌+◌, ◌<◌, ◌≤◌, ℕ, List, length, replicate, take};
ghost use Rattle.std.specs.Prelude.{IfOk, IsErr, IsOk, IsTrue};
ghost use Rattle.std.specs.Int.NonZero.{non_zero_u32_get};
ghost use Rattle.ring.specs.Prelude.{CanDerive, IsInfoWithin, IsOutputWithin, PrkStandsFor};
ghost use Rattle.ring.specs.Prelude.{compared_pairs, digest_of, dk, hmac_of, joined};
ghost use Rattle.ring.specs.Prelude.{max_input_len, okm, prk_algorithm};
ghost use Rattle.ring.specs.declared.digest.algorithm.Algorithm.{Algorithm};

use crate::basics::pairs_of_comparison;
use crate::hkdf::Length;
use ring::digest::{SHA256, SHA256_OUTPUT_LEN};
use ring::error::Unspecified;
use ring::hkdf::{HKDF_SHA256, Prk, Salt};
use ring::laws::{
    comparison_is_symmetric, digest_has_output_len, empty_salt_extracts_as_zeros, limits_in_bytes,
    shorter_derivation_is_a_front, shorter_output_is_a_front,
};
use ring::pbkdf2::{PBKDF2_HMAC_SHA256, derive};
use std::num::NonZeroU32;

/// Whether so many bytes of output can be asked for under each algorithm: the limit of SHA-1 is the
/// lowest.
pub fn can_ask_all(len: usize) -> bool
    ensures { IsTrue result ↔ ((a : Algorithm) → IsOutputWithin a len) }
{
    limits_in_bytes();
    len <= 5_100
}

/// Whether `len` bytes have room for the digest of `message`, which need not be computed for that.
pub fn has_room_for_digest(message: &[u8], len: usize) -> bool
    ensures { IsTrue result ↔ (length (digest_of SHA256 message.now) ≤ len) }
{
    digest_has_output_len();
    SHA256_OUTPUT_LEN <= len
}

/// The pseudorandom key of a secret without a salt: that of a salt of 32 zeros. Refused where one
/// block and the secret are longer than the digest algorithm's `max_input_len` bytes.
pub fn extract_without_salt(secret: &[u8]) -> Result<Prk, Unspecified>
    ensures ok { IfOk result (λ prk.
        PrkStandsFor prk (hmac_of SHA256 (replicate 32 0) secret.now)) }
    ensures algorithm { IfOk result (λ prk. prk_algorithm prk ≡ SHA256) }
    ensures refused { IsErr result ↔ (max_input_len SHA256 < 64 + length secret.now) }
{
    empty_salt_extracts_as_zeros();
    Salt::new(HKDF_SHA256, &[])?.extract(secret)
}

/// An output of 64 bytes and one of 32 for the same info: the second is the front of the first, so
/// they are no two keys.
pub fn long_and_short_output(prk: &Prk, info: &[&[u8]]) -> Result<([u8; 64], [u8; 32]), Unspecified>
    ensures long { (k : List ℕ) → PrkStandsFor prk.now k → IfOk result (λ both.
        both.0 ≡ okm (prk_algorithm prk.now) k (joined info.now) 64) }
    ensures front { (k : List ℕ) → PrkStandsFor prk.now k
        → IfOk result (λ both. both.1 ≡ take 32 both.0) }
    ensures refused { IsOk result
        ↔ IsInfoWithin (prk_algorithm prk.now) (length (joined info.now)) 64 }
{
    shorter_output_is_a_front();
    let mut long = [0; 64];
    prk.expand(info, Length(64))?.fill(&mut long)?;
    let mut short = [0; 32];
    prk.expand(info, Length(32))?.fill(&mut short)?;
    Ok((long, short))
}

/// A key of 64 bytes and one of 32 of the same password: the second is the front of the first.
/// Refused where 64 bytes can't be derived.
pub fn long_and_short_key(
    iterations: NonZeroU32,
    salt: &[u8],
    password: &[u8],
) -> Result<([u8; 64], [u8; 32]), Unspecified>
    ensures long { IfOk result (λ both.
        both.0 ≡ dk SHA256 password.now salt.now (non_zero_u32_get iterations) 64) }
    ensures front { IfOk result (λ both. both.1 ≡ take 32 both.0) }
    ensures refused { IsOk result ↔ CanDerive SHA256 (length password.now) (length salt.now) 64 }
{
    shorter_derivation_is_a_front();
    let mut long = [0; 64];
    derive(PBKDF2_HMAC_SHA256, iterations, salt, password, &mut long)?;
    let mut short = [0; 32];
    derive(PBKDF2_HMAC_SHA256, iterations, salt, password, &mut short)?;
    Ok((long, short))
}

/// How many pairs of bytes are read where two tokens are compared, and where they change places: as
/// many.
pub fn pairs_both_ways(first: &[u8], second: &[u8]) -> (u128, u128)
    ensures pairs { result.0 ≡ compared_pairs (length first.now) (length second.now) }
    ensures same { result.0 ≡ result.1 }
{
    comparison_is_symmetric();
    (
        pairs_of_comparison(first, second),
        pairs_of_comparison(second, first),
    )
}
