// SPDX-License-Identifier: ISC
//! Several digests and keys at once, over vectors of 256 bits.

ghost use Rattle.std.specs.Prelude.{◌≡◌, ◌↔◌, ◌*◌, IfOk, IsErr, IsOk, IsTrue, OnErr, OnOk, length};
ghost use Rattle.std.specs.Int.NonZero.{non_zero_u32_get};
ghost use Rattle.ring.specs.Prelude.{AreDerived, AreDigests, AreUpdated, AreVerified, CanDerive};
ghost use Rattle.ring.specs.Prelude.{CanDeriveEach, CanDigestEach, CanVerifyEach, CanWriteEach};
ghost use Rattle.ring.specs.Prelude.{IsDerived, digests_of, dk};

use ring::cost::Meter;
use ring::digest::{
    Algorithm, Context, Digest, SHA256, SHA256_OUTPUT_LEN, digest, digest_each_bytes_in,
    digest_each_in, is_len_of_digests, update_each_in,
};
use ring::error::Unspecified;
use ring::pbkdf2::{PBKDF2_HMAC_SHA256, derive_each_in, derive_in, verify_each_in, verify_in};
use ring::width::AVX2;
use std::num::NonZeroU32;

/// The digests of eight messages, computed side by side.
pub fn digests_of_eight(
    algorithm: &Algorithm,
    messages: &[&[u8]; 8],
) -> Result<[Digest; 8], Unspecified>
    ensures ok { IfOk result (λ digests. AreDigests digests algorithm.now messages.now) }
    ensures refused { IsOk result ↔ CanDigestEach algorithm.now messages.now 8 }
{
    let mut digests = [digest(algorithm, &[])?; 8];
    digest_each_in::<AVX2>(algorithm, messages, &mut digests, &mut Meter::new())?;
    Ok(digests)
}

/// Whether a list of `len` bytes has a digest of SHA-256 for each of `count` files.
pub fn has_a_digest_each(count: usize, len: usize) -> bool
    ensures { IsTrue result ↔ (len ≡ count * 32) }
{
    is_len_of_digests(&SHA256, count, len)
}

/// Writes the digests of some files to such a list, one after another.
pub fn write_list(files: &[&[u8]], list: &mut [u8]) -> Result<(), Unspecified>
    ensures ok { OnOk result (list.new ≡ digests_of SHA256 files.now) }
    ensures refused { IsOk result ↔ CanWriteEach SHA256 files.now (length list.old) }
    ensures unchanged { OnErr result (list.new ≡ list.old) }
{
    digest_each_bytes_in::<AVX2>(&SHA256, files, list, &mut Meter::new())
}

/// Adds a piece to each of eight messages, side by side where they are of one algorithm.
pub fn update_eight(contexts: &mut [Context; 8], pieces: &[&[u8]; 8])
    ensures { AreUpdated contexts.old contexts.new pieces.now }
{
    match update_each_in::<AVX2>(contexts, pieces, &mut Meter::new()) {
        Ok(()) => {}
        // There are as many pieces as contexts.
        Err(_) => unreachable!(),
    }
}

/// The bytes of eight digests of SHA-256.
pub const LONG_KEY_LEN: usize = 256;

/// A key of eight rounds, which are computed side by side.
pub fn long_key_of(
    iterations: NonZeroU32,
    salt: &[u8],
    password: &[u8],
) -> Result<[u8; LONG_KEY_LEN], Unspecified>
    ensures ok { IfOk result (λ key.
        key ≡ dk SHA256 password.now salt.now (non_zero_u32_get iterations) 256) }
    ensures refused { IsOk result
        ↔ CanDerive SHA256 (length password.now) (length salt.now) 256 }
{
    let mut key = [0; LONG_KEY_LEN];
    derive_in::<AVX2>(
        PBKDF2_HMAC_SHA256,
        iterations,
        salt,
        password,
        &mut key,
        &mut Meter::new(),
    )?;
    Ok(key)
}

/// Ok exactly where `key` isn't empty, and is what is derived from this password.
pub fn verify_long_key(
    iterations: NonZeroU32,
    salt: &[u8],
    password: &[u8],
    key: &[u8],
) -> Result<(), Unspecified>
    ensures ok { IsOk result
        ↔ IsDerived SHA256 password.now salt.now (non_zero_u32_get iterations) key.now }
{
    verify_in::<AVX2>(
        PBKDF2_HMAC_SHA256,
        iterations,
        salt,
        password,
        key,
        &mut Meter::new(),
    )
}

/// Fills `stored` with what a login stores of as many passwords, derived side by side.
pub fn store_each(
    iterations: NonZeroU32,
    salts: &[&[u8]],
    passwords: &[&[u8]],
    stored: &mut [[u8; SHA256_OUTPUT_LEN]],
) -> Result<(), Unspecified>
    ensures ok { OnOk result (AreDerived stored.new SHA256
        salts.now passwords.now (non_zero_u32_get iterations) 32) }
    ensures refused { IsOk result
        ↔ CanDeriveEach SHA256 salts.now passwords.now (length stored.old) 32 }
    ensures unchanged { OnErr result (stored.new ≡ stored.old) }
{
    derive_each_in::<AVX2, SHA256_OUTPUT_LEN>(
        PBKDF2_HMAC_SHA256,
        iterations,
        salts,
        passwords,
        stored,
        &mut Meter::new(),
    )
}

/// Sets each of `matches` to whether the password at its index is the one of what was stored there.
pub fn match_each(
    iterations: NonZeroU32,
    salts: &[&[u8]],
    passwords: &[&[u8]],
    stored: &[[u8; SHA256_OUTPUT_LEN]],
    matches: &mut [bool],
) -> Result<(), Unspecified>
    ensures ok { OnOk result (AreVerified matches.new SHA256
        salts.now passwords.now (non_zero_u32_get iterations) stored.now) }
    ensures refused { IsOk result
        ↔ CanVerifyEach SHA256 salts.now passwords.now stored.now (length matches.old) 32 }
    ensures unchanged { OnErr result (matches.new ≡ matches.old) }
{
    verify_each_in::<AVX2, SHA256_OUTPUT_LEN>(
        PBKDF2_HMAC_SHA256,
        iterations,
        salts,
        passwords,
        stored,
        matches,
        &mut Meter::new(),
    )
}
