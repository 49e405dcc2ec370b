// SPDX-License-Identifier: ISC
//! The limits of lengths, and the tests of them. `hmac`, `hkdf` and `pbkdf2` export those that
//! their callers need.
//!
//! The lengths are `u128`, so that no sum wraps before its test.

ghost use Rattle.std.specs.Prelude.{◌≡◌, ◌↔◌, IsTrue, length};
ghost use Rattle.ring.specs.Prelude.{CanDerive, CanVerify, IsInfoWithin, IsOutputWithin};
ghost use Rattle.ring.specs.Prelude.{IsTagWithin, hkdf_digest, hmac_digest, joined, max_dk_len};
ghost use Rattle.ring.specs.Prelude.{max_okm_len, pbkdf2_digest};

use crate::digest::algorithm::Algorithm;
use crate::hkdf::algorithm as hkdf;
use crate::hmac::key as hmac;
use crate::limits::message::is_message_within;
use crate::pbkdf2::algorithm as pbkdf2;

pub(crate) mod message;
#[cfg(test)]
mod tests;

// The largest number of rounds of an output: a round's number is one byte (RFC 5869, section 2.3).
const MAX_ROUNDS: u128 = 255;

// The bytes of a round's number.
const ROUND_NUMBER_LEN: u128 = 1;

// The bytes of INT (i), the number of a round, which follow the salt (RFC 2898, section 5.2).
const INT_LEN: u128 = 4;

/// The length in bytes of the longest output of HKDF by `algorithm`: 255 digests (RFC 5869, section
/// 2.3).
pub fn max_okm_len(algorithm: &hkdf::Algorithm) -> u128
    ensures { result ≡ max_okm_len (hkdf_digest algorithm.now) }
{
    let digest = algorithm.hmac_algorithm().digest_algorithm();
    MAX_ROUNDS * digest.output_len() as u128
}

/// The length in bytes of the longest key that PBKDF2 derives by `algorithm`: `2^32 - 1` digests
/// (RFC 2898, section 5.2).
pub fn max_dk_len(algorithm: &pbkdf2::Algorithm) -> u128
    ensures { result ≡ max_dk_len (pbkdf2_digest algorithm.now) }
{
    longest_derivation(&algorithm.hmac_algorithm().digest_algorithm())
}

// The length of the longest derivation over a digest algorithm: more rounds have no number.
fn longest_derivation(algorithm: &Algorithm) -> u128
    ensures { result ≡ max_dk_len algorithm.now }
{
    u32::MAX as u128 * algorithm.output_len() as u128
}

// The number of bytes in all pieces: a slice has fewer than 2^64 pieces of fewer than 2^64 bytes.
pub(crate) fn joined_len(pieces: &[&[u8]]) -> u128
    ensures { result ≡ length (joined pieces.now) }
{
    let mut len = 0;
    for piece in pieces {
        len += piece.len() as u128;
    }
    len
}

/// Whether HMAC by `algorithm` signs a message of `len` bytes, before which it hashes one block:
/// exactly then [`sign`](crate::hmac::sign) is not refused (RFC 2104, section 2; FIPS 180-4,
/// section 1).
pub fn is_tag_within(algorithm: &hmac::Algorithm, len: u128) -> bool
    ensures { IsTrue result ↔ IsTagWithin (hmac_digest algorithm.now) len }
{
    let digest = algorithm.digest_algorithm();
    let room = digest.max_input_len() - digest.block_len() as u128;
    len <= room
}

/// Whether HKDF by `algorithm` expands a key to `len` bytes of output: exactly then
/// [`Prk::expand`](crate::hkdf::Prk::expand) is not refused (RFC 5869, section 2.3).
pub fn is_output_within(algorithm: &hkdf::Algorithm, len: u128) -> bool
    ensures { IsTrue result ↔ IsOutputWithin (hkdf_digest algorithm.now) len }
{
    len <= max_okm_len(algorithm)
}

// Whether no round of an output of `len` bytes signs too long a message: the tag of the round
// before, but in the first, the info of `info_len` bytes, and the round's number.
pub(crate) fn is_info_within(algorithm: &Algorithm, info_len: u128, len: u128) -> bool
    ensures { IsTrue result ↔ IsInfoWithin algorithm.now info_len len }
{
    let output_len = algorithm.output_len() as u128;
    let room = algorithm.max_input_len() - algorithm.block_len() as u128 - ROUND_NUMBER_LEN;
    if len <= output_len {
        info_len <= room
    } else {
        info_len <= room - output_len
    }
}

/// Whether PBKDF2 by `algorithm` derives a key of `dk_len` bytes from a secret of `secret_len` and
/// a salt of `salt_len` bytes: exactly then [`derive`](crate::pbkdf2::derive) is not refused (RFC
/// 2898, section 5.2; FIPS 180-4, section 1).
pub fn can_derive(
    algorithm: &pbkdf2::Algorithm,
    secret_len: u128,
    salt_len: u128,
    dk_len: u128,
) -> bool
    ensures { IsTrue result
        ↔ CanDerive (pbkdf2_digest algorithm.now) secret_len salt_len dk_len }
{
    let digest = algorithm.hmac_algorithm().digest_algorithm();
    can_derive_by(&digest, secret_len, salt_len, dk_len)
}

// Whether `out_len` bytes can be derived from a secret and a salt of these lengths.
pub(crate) fn can_derive_by(
    algorithm: &Algorithm,
    secret_len: u128,
    salt_len: u128,
    out_len: u128,
) -> bool
    ensures { IsTrue result ↔ CanDerive algorithm.now secret_len salt_len out_len }
{
    let beside_salt = algorithm.block_len() as u128 + INT_LEN;
    let most_salt = algorithm.max_input_len() - beside_salt;
    is_message_within(algorithm, secret_len)
        && (out_len == 0 || salt_len <= most_salt)
        && out_len <= longest_derivation(algorithm)
}

// Whether a derived value of `value_len` bytes can be verified. An empty one never can.
pub(crate) fn can_verify(
    algorithm: &Algorithm,
    secret_len: u128,
    salt_len: u128,
    value_len: u128,
) -> bool
    ensures { IsTrue result ↔ CanVerify algorithm.now secret_len salt_len value_len }
{
    value_len != 0 && can_derive_by(algorithm, secret_len, salt_len, value_len)
}
