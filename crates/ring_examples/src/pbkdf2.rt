// SPDX-License-Identifier: ISC
//! Keys from passwords.

ghost use Rattle.std.specs.Prelude.{◌≡◌, ◌↔◌, ◌≤◌, length, IfOk, IsOk, IsTrue};
ghost use Rattle.std.specs.Int.NonZero.{non_zero_u32_get};
ghost use Rattle.ring.specs.Prelude.{CanDerive, IsDerived, dk, max_dk_len};

use ring::digest::{SHA256, SHA256_OUTPUT_LEN};
use ring::error::Unspecified;
use ring::pbkdf2::{PBKDF2_HMAC_SHA256, can_derive, derive, max_dk_len, verify};
use std::num::NonZeroU32;

/// What a login stores in place of a password.
pub fn stored_of(
    iterations: NonZeroU32,
    salt: &[u8],
    password: &[u8],
) -> Result<[u8; SHA256_OUTPUT_LEN], Unspecified>
    ensures ok { IfOk result (λ stored.
        stored ≡ dk SHA256 password.now salt.now (non_zero_u32_get iterations) 32) }
    ensures refused { IsOk result
        ↔ CanDerive SHA256 (length password.now) (length salt.now) 32 }
{
    let mut stored = [0; SHA256_OUTPUT_LEN];
    derive(PBKDF2_HMAC_SHA256, iterations, salt, password, &mut stored)?;
    Ok(stored)
}

/// Ok exactly where `stored` isn't empty, and is what is derived from this password.
pub fn verify_stored(
    iterations: NonZeroU32,
    salt: &[u8],
    password: &[u8],
    stored: &[u8],
) -> Result<(), Unspecified>
    ensures ok { IsOk result
        ↔ IsDerived SHA256 password.now salt.now (non_zero_u32_get iterations) stored.now }
{
    verify(PBKDF2_HMAC_SHA256, iterations, salt, password, stored)
}

/// Derives and then verifies. Whether that succeeds, it asks before: exactly where the lengths are
/// within the limits.
pub fn derive_and_verify(
    iterations: NonZeroU32,
    salt: &[u8],
    password: &[u8],
) -> Result<(), Unspecified>
    ensures refused { IsOk result
        ↔ CanDerive SHA256 (length password.now) (length salt.now) 32 }
{
    let dk_len = SHA256_OUTPUT_LEN as u128;
    if !can_derive(
        &PBKDF2_HMAC_SHA256,
        password.len() as u128,
        salt.len() as u128,
        dk_len,
    ) {
        return Err(Unspecified);
    }
    let stored = stored_of(iterations, salt, password).unwrap();
    verify_stored(iterations, salt, password, &stored).unwrap();
    Ok(())
}

/// Whether a key of `len` bytes can be derived from a password and a salt that are short enough.
pub fn can_derive_len(len: usize) -> bool
    ensures { IsTrue result ↔ (len ≤ max_dk_len SHA256) }
{
    len as u128 <= max_dk_len(&PBKDF2_HMAC_SHA256)
}
