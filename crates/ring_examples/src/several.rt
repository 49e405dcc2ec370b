// SPDX-License-Identifier: ISC
//! Digests of several messages, whole and in pieces, and keys from several passwords, at once.

ghost use Rattle.std.specs.Prelude.{◌≡◌, ◌↔◌, ◌<◌, ◌≤◌, ◌++◌, ◌⊎◌, IfOk, IsErr, IsOk, length};
ghost use Rattle.std.specs.Int.NonZero.{non_zero_u32_get};
ghost use Rattle.ring.specs.Prelude.{AreDerived, AreDigests, AreUpdated, AreVerified, CanDerive};
ghost use Rattle.ring.specs.Prelude.{CanDeriveEach, CanDigestEach, CanVerifyEach, IsDigest, dk};
ghost use Rattle.ring.specs.Prelude.{max_input_len, message_at};

use ring::cost::Meter;
use ring::digest::{
    Algorithm, Context, Digest, SHA256, SHA256_OUTPUT_LEN, digest, digest_each_counted,
    update_each_counted,
};
use ring::error::Unspecified;
use ring::pbkdf2::{PBKDF2_HMAC_SHA256, derive_each_counted, verify_each_counted};
use std::num::NonZeroU32;

/// The digests of four messages, made side by side.
pub fn digests_of_four(
    algorithm: &Algorithm,
    messages: &[&[u8]; 4],
) -> Result<[Digest; 4], Unspecified>
    ensures ok { IfOk result (λ digests. AreDigests digests algorithm.now messages.now) }
    ensures refused { IsOk result ↔ CanDigestEach algorithm.now messages.now 4 }
{
    let mut digests = [digest(algorithm, &[])?; 4];
    digest_each_counted(algorithm, messages, &mut digests, &mut Meter::new())?;
    Ok(digests)
}

/// The digests of two messages, each by itself.
pub fn digests_of_both(first: &[u8], second: &[u8]) -> Result<(Digest, Digest), Unspecified>
    ensures first { IfOk result (λ digests. IsDigest digests.0 SHA256 first.now) }
    ensures second { IfOk result (λ digests. IsDigest digests.1 SHA256 second.now) }
    ensures refused { IsOk result ↔ ((length first.now ≤ max_input_len SHA256)
        × (length second.now ≤ max_input_len SHA256)) }
{
    let mut digests = [digest(&SHA256, &[])?; 2];
    digest_each_counted(&SHA256, &[first, second], &mut digests, &mut Meter::new())?;
    Ok((digests[0], digests[1]))
}

/// Adds a piece to each of four messages whose digests are being made.
pub fn update_four(contexts: &mut [Context; 4], pieces: &[&[u8]; 4])
    ensures { AreUpdated contexts.old contexts.new pieces.now }
{
    match update_each_counted(contexts, pieces, &mut Meter::new()) {
        Ok(()) => {}
        // There are as many pieces as contexts.
        Err(_) => unreachable!(),
    }
}

/// The digests of two messages that arrive in two pieces each, under different algorithms.
pub fn digests_in_pieces(
    algorithm: &Algorithm,
    other_algorithm: &Algorithm,
    fronts: &[&[u8]; 2],
    rests: &[&[u8]; 2],
) -> Result<(Digest, Digest), Unspecified>
    ensures first { IfOk result (λ digests.
        IsDigest digests.0 algorithm.now (message_at fronts.now 0 ++ message_at rests.now 0)) }
    ensures second { IfOk result (λ digests. IsDigest digests.1 other_algorithm.now
        (message_at fronts.now 1 ++ message_at rests.now 1)) }
    ensures refused { IsErr result ↔ ((max_input_len algorithm.now
        < length (message_at fronts.now 0 ++ message_at rests.now 0))
        ⊎ (max_input_len other_algorithm.now
        < length (message_at fronts.now 1 ++ message_at rests.now 1))) }
{
    let mut contexts = [Context::new(algorithm), Context::new(other_algorithm)];
    let mut meter = Meter::new();
    update_each_counted(&mut contexts, fronts, &mut meter)?;
    update_each_counted(&mut contexts, rests, &mut meter)?;
    let [first, second] = contexts;
    Ok((first.finish()?, second.finish()?))
}

/// What a login stores of four passwords, derived side by side.
pub fn stored_of_four(
    iterations: NonZeroU32,
    salts: &[&[u8]; 4],
    passwords: &[&[u8]; 4],
) -> Result<[[u8; SHA256_OUTPUT_LEN]; 4], Unspecified>
    ensures ok { IfOk result (λ stored. AreDerived stored SHA256
        salts.now passwords.now (non_zero_u32_get iterations) 32) }
    ensures refused { IsOk result ↔ CanDeriveEach SHA256 salts.now passwords.now 4 32 }
{
    let mut stored = [[0; SHA256_OUTPUT_LEN]; 4];
    derive_each_counted(
        PBKDF2_HMAC_SHA256,
        iterations,
        salts,
        passwords,
        &mut stored,
        &mut Meter::new(),
    )?;
    Ok(stored)
}

/// What a login stores of two passwords, each by itself.
pub fn stored_of_both(
    iterations: NonZeroU32,
    salt: &[u8],
    password: &[u8],
    other_salt: &[u8],
    other_password: &[u8],
) -> Result<([u8; SHA256_OUTPUT_LEN], [u8; SHA256_OUTPUT_LEN]), Unspecified>
    ensures first { IfOk result (λ stored. stored.0
        ≡ dk SHA256 password.now salt.now (non_zero_u32_get iterations) 32) }
    ensures second { IfOk result (λ stored. stored.1
        ≡ dk SHA256 other_password.now other_salt.now (non_zero_u32_get iterations) 32) }
    ensures refused { IsOk result ↔ (CanDerive SHA256 (length password.now) (length salt.now) 32
        × CanDerive SHA256 (length other_password.now) (length other_salt.now) 32) }
{
    let mut stored = [[0; SHA256_OUTPUT_LEN]; 2];
    let salts = [salt, other_salt];
    let passwords = [password, other_password];
    derive_each_counted(
        PBKDF2_HMAC_SHA256,
        iterations,
        &salts,
        &passwords,
        &mut stored,
        &mut Meter::new(),
    )?;
    Ok((stored[0], stored[1]))
}

/// Whether each of four passwords is the one that was stored.
pub fn verify_four(
    iterations: NonZeroU32,
    salts: &[&[u8]; 4],
    passwords: &[&[u8]; 4],
    stored: &[[u8; SHA256_OUTPUT_LEN]; 4],
) -> Result<[bool; 4], Unspecified>
    ensures ok { IfOk result (λ matches. AreVerified matches SHA256
        salts.now passwords.now (non_zero_u32_get iterations) stored.now) }
    ensures refused { IsOk result
        ↔ CanVerifyEach SHA256 salts.now passwords.now stored.now 4 32 }
{
    let mut matches = [false; 4];
    verify_each_counted(
        PBKDF2_HMAC_SHA256,
        iterations,
        salts,
        passwords,
        stored,
        &mut matches,
        &mut Meter::new(),
    )?;
    Ok(matches)
}
