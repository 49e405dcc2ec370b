// SPDX-License-Identifier: ISC
//! Keys derived from passwords: PBKDF2 (RFC 2898, section 5.2).
//!
//! [`derive`] computes a key, or the value that a login stores in place of a password, from a
//! secret, a salt and a number of iterations. [`verify`] tests a secret against such a value:
//!
//! ```
//! pub fn stored_of(
//!     iterations: NonZeroU32,
//!     salt: &[u8],
//!     password: &[u8],
//! ) -> Result<[u8; SHA256_OUTPUT_LEN], Unspecified>
//!     ensures ok { IfOk result (λ stored.
//!         stored ≡ dk SHA256 password.now salt.now (non_zero_u32_get iterations) 32) }
//!     ensures refused { IsOk result
//!         ↔ CanDerive SHA256 (length password.now) (length salt.now) 32 }
//! {
//!     let mut stored = [0; SHA256_OUTPUT_LEN];
//!     derive(PBKDF2_HMAC_SHA256, iterations, salt, password, &mut stored)?;
//!     Ok(stored)
//! }
//!
//! /// Ok exactly where `stored` isn't empty, and is what is derived from this password.
//! pub fn verify_stored(
//!     iterations: NonZeroU32,
//!     salt: &[u8],
//!     password: &[u8],
//!     stored: &[u8],
//! ) -> Result<(), Unspecified>
//!     ensures ok { IsOk result
//!         ↔ IsDerived SHA256 password.now salt.now (non_zero_u32_get iterations) stored.now }
//! {
//!     verify(PBKDF2_HMAC_SHA256, iterations, salt, password, stored)
//! }
//! ```
//!
//! Each iteration past the first costs the caller, and anyone who guesses secrets, two blocks for
//! each round of output. Each secret should have a salt of its own.
//!
//! [`derive_each_counted`] derives keys of one length from several secrets, each with its salt. It
//! is faster than one call for each where they have four rounds of output or more under SHA-1 or
//! SHA-256:
//!
//! ```
//! pub fn stored_of_four(
//!     iterations: NonZeroU32,
//!     salts: &[&[u8]; 4],
//!     passwords: &[&[u8]; 4],
//! ) -> Result<[[u8; SHA256_OUTPUT_LEN]; 4], Unspecified>
//!     ensures ok { IfOk result (λ stored. AreDerived stored SHA256
//!         salts.now passwords.now (non_zero_u32_get iterations) 32) }
//!     ensures refused { IsOk result ↔ CanDeriveEach SHA256 salts.now passwords.now 4 32 }
//! {
//!     let mut stored = [[0; SHA256_OUTPUT_LEN]; 4];
//!     derive_each_counted(
//!         PBKDF2_HMAC_SHA256,
//!         iterations,
//!         salts,
//!         passwords,
//!         &mut stored,
//!         &mut Meter::new(),
//!     )?;
//!     Ok(stored)
//! }
//! ```
//!
//! The imports of these examples stand in `pbkdf2.rt` and `several.rt` of
//! `crates/ring_examples/src`.

ghost use Rattle.std.specs.Prelude.{◌≡◌, ◌↔◌, length, IsOk, OnOk, OnErr};
ghost use Rattle.std.specs.Int.NonZero.{non_zero_u32_get};
ghost use Rattle.ring.specs.Prelude.{CanDerive, CanVerify, DerivesKey, IsDerived, VerifiesKey};
ghost use Rattle.ring.specs.Prelude.{dk, pbkdf2_digest};

use crate::limits::{can_derive_by, can_verify};
use crate::pbkdf2::each::key_within;
use crate::pbkdf2::receiver::{Compared, Written};
use crate::pbkdf2::rounds::{Derivation, derive_under};
use crate::width::SSE;
use ring_core::cost::Meter;
use ring_core::error::Unspecified;
use std::num::NonZeroU32;

pub(crate) mod algorithm;
pub(crate) mod each;
pub(crate) mod receiver;
pub(crate) mod rounds;

pub use crate::limits::{can_derive, max_dk_len};
pub use crate::pbkdf2::algorithm::{
    Algorithm, PBKDF2_HMAC_SHA1, PBKDF2_HMAC_SHA256, PBKDF2_HMAC_SHA384, PBKDF2_HMAC_SHA512,
    constants_are_based_on_their_digests,
};
pub use crate::pbkdf2::each::{
    derive_each_counted, derive_each_in, verify_each_counted, verify_each_in,
};

/// As [`derive`], but over vectors of `VECTOR_BITS` bits. `meter` counts the blocks. A refusal
/// leaves it as it was.
pub fn derive_in<const VECTOR_BITS: usize>(
    algorithm: Algorithm,
    iterations: NonZeroU32,
    salt: &[u8],
    secret: &[u8],
    out: &mut [u8],
    meter: &mut Meter,
) -> Result<(), Unspecified>
    ensures { DerivesKey (pbkdf2_digest algorithm) secret.now salt.now
        (non_zero_u32_get iterations) out.old out.new meter.old meter.new result }
{
    let hmac_algorithm = algorithm.hmac_algorithm();
    let digest = hmac_algorithm.digest_algorithm();
    if !can_derive_by(
        &digest,
        secret.len() as u128,
        salt.len() as u128,
        out.len() as u128,
    ) {
        return Err(Unspecified);
    }
    let keys = [key_within(hmac_algorithm, secret, meter)];
    let derivation = Derivation {
        algorithm: digest,
        keys: &keys,
        salts: &[salt],
        iterations,
        len: out.len(),
    };
    let mut written = Written { out };
    derive_under::<VECTOR_BITS, Written>(&derivation, 0, &mut written, meter);
    Ok(())
}

/// As [`derive`]. `meter` counts the blocks: those of the HMAC key, and for each round of output
/// those of the first iterate and two for each further one. A refusal leaves it as it was.
pub fn derive_counted(
    algorithm: Algorithm,
    iterations: NonZeroU32,
    salt: &[u8],
    secret: &[u8],
    out: &mut [u8],
    meter: &mut Meter,
) -> Result<(), Unspecified>
    ensures { DerivesKey (pbkdf2_digest algorithm) secret.now salt.now
        (non_zero_u32_get iterations) out.old out.new meter.old meter.new result }
{
    derive_in::<SSE>(algorithm, iterations, salt, secret, out, meter)
}

/// Derives a key from `secret` and `salt`, and writes it to the whole of `out` (RFC 2898, section
/// 5.2).
///
/// | Parameter | In the RFC |
/// |---|---|
/// | `algorithm` | PRF, the underlying pseudorandom function |
/// | `iterations` | c, the iteration count |
/// | `salt` | S, the salt |
/// | `secret` | P, the password |
/// | `out` | DK, the derived key |
/// | `out.len()` | dkLen, its intended length in bytes |
///
/// Refused where `secret` is longer than the digest algorithm's `max_input_len` bytes, where one
/// block, `salt` and 4 bytes together are, and where `out` has more than `2^32 - 1` times the bytes
/// of a digest. An empty `out` takes any salt. After a refusal `out` is unchanged.
pub fn derive(
    algorithm: Algorithm,
    iterations: NonZeroU32,
    salt: &[u8],
    secret: &[u8],
    out: &mut [u8],
) -> Result<(), Unspecified>
    ensures ok { OnOk result (out.new ≡ dk (pbkdf2_digest algorithm)
        secret.now salt.now (non_zero_u32_get iterations) (length out.old)) }
    ensures refused { IsOk result ↔ CanDerive (pbkdf2_digest algorithm)
        (length secret.now) (length salt.now) (length out.old) }
    ensures unchanged { OnErr result (out.new ≡ out.old) }
{
    derive_counted(algorithm, iterations, salt, secret, out, &mut Meter::new())
}

/// As [`verify`], but over vectors of `VECTOR_BITS` bits. `meter` counts the blocks and the
/// compared pairs of bytes. Where a length is refused, it is as it was.
pub fn verify_in<const VECTOR_BITS: usize>(
    algorithm: Algorithm,
    iterations: NonZeroU32,
    salt: &[u8],
    secret: &[u8],
    previously_derived: &[u8],
    meter: &mut Meter,
) -> Result<(), Unspecified>
    ensures { VerifiesKey (pbkdf2_digest algorithm) secret.now salt.now
        (non_zero_u32_get iterations) previously_derived.now meter.old meter.new result }
{
    let hmac_algorithm = algorithm.hmac_algorithm();
    let digest = hmac_algorithm.digest_algorithm();
    if !can_verify(
        &digest,
        secret.len() as u128,
        salt.len() as u128,
        previously_derived.len() as u128,
    ) {
        return Err(Unspecified);
    }
    let keys = [key_within(hmac_algorithm, secret, meter)];
    let derivation = Derivation {
        algorithm: digest,
        keys: &keys,
        salts: &[salt],
        iterations,
        len: previously_derived.len(),
    };
    let mut compared = Compared {
        value: previously_derived,
        matches: true,
    };
    derive_under::<VECTOR_BITS, Compared>(&derivation, 0, &mut compared, meter);
    compared.matches.then_some(()).ok_or(Unspecified)
}

/// As [`verify`]. `meter` counts the blocks and the compared pairs of bytes. A value that differs
/// costs as much as one that matches, wherever it differs. Where a length is refused, `meter` is as
/// it was.
pub fn verify_counted(
    algorithm: Algorithm,
    iterations: NonZeroU32,
    salt: &[u8],
    secret: &[u8],
    previously_derived: &[u8],
    meter: &mut Meter,
) -> Result<(), Unspecified>
    ensures { VerifiesKey (pbkdf2_digest algorithm) secret.now salt.now
        (non_zero_u32_get iterations) previously_derived.now meter.old meter.new result }
{
    verify_in::<SSE>(
        algorithm,
        iterations,
        salt,
        secret,
        previously_derived,
        meter,
    )
}

/// Returns Ok exactly if `previously_derived` is not empty and is what [`derive`] writes for its
/// length, with the same `algorithm`, `iterations`, `salt` and `secret` (RFC 2898, section 5.2).
///
/// Refused where `previously_derived` is empty or differs, and where [`derive`] refuses these
/// lengths.
pub fn verify(
    algorithm: Algorithm,
    iterations: NonZeroU32,
    salt: &[u8],
    secret: &[u8],
    previously_derived: &[u8],
) -> Result<(), Unspecified>
    ensures ok { IsOk result ↔ IsDerived (pbkdf2_digest algorithm)
        secret.now salt.now (non_zero_u32_get iterations) previously_derived.now }
{
    verify_counted(
        algorithm,
        iterations,
        salt,
        secret,
        previously_derived,
        &mut Meter::new(),
    )
}
