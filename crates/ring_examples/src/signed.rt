// SPDX-License-Identifier: ISC
//! Callers of signed tokens and one-time passwords.

ghost use Rattle.std.specs.Prelude.{◌≡◌, ◌⊎◌, ℕ, ◌<◌, ◌^◌, List, IfErr, IfOk, IsErrOf, IsTrue};
ghost use Rattle.std.specs.Int.NonZero.{non_zero_u32_get};
ghost use Rattle.ring_tokens.specs.Claims.{IsCurrent};
ghost use Rattle.ring_tokens.specs.Jws.{IsJws, IsKey, alg_of};
ghost use Rattle.ring_tokens.specs.Otp.{IsFound, first_step, past_step};
ghost use Rattle.ring_tokens.specs.Parts.{IsUnsigned};
ghost use Rattle.ring_tokens.specs.Secret.{IsSecret, secret_algorithm};

use ring_tokens::claims::is_current;
use ring_tokens::jws::verify;
use ring_tokens::laws::one_token_is_of_one_algorithm;
use ring_tokens::otp::{Digits, find_totp};
use ring_tokens::{Key, SharedSecret, TokenError};
use std::alloc::Allocator;
use std::num::NonZeroU32;

// For clocks that differ, in seconds.
const LEEWAY: u64 = 60;

/// The claims of a token that is the key's and current at `now`, in seconds since 1970.
///
/// Refused as `Invalid` only if there are none, and always if the key did not sign the token; else
/// as `Memory`.
pub fn claims_of<A: Allocator + Copy>(
    alloc: A,
    token: &[u8],
    key: &Key,
    now: u64,
) -> Result<Vec<u8, A>, TokenError>
    ensures ok { (k : List ℕ) → IsKey key.now k → IfOk result (λ claims.
        IsJws (alg_of key.now) k token.now claims.items × IsCurrent claims.items now 60) }
    ensures refused { IfErr result (λ e. (e ≡ TokenError.Invalid) ⊎ (e ≡ TokenError.Memory)) }
    ensures invalid { (k claims : List ℕ) → IsKey key.now k → IsErrOf result TokenError.Invalid
        → IsJws (alg_of key.now) k token.now claims → ¬ (IsCurrent claims now 60) }
    ensures unsigned { (k : List ℕ) → IsKey key.now k → IsUnsigned (alg_of key.now) k token.now
        → IsErrOf result TokenError.Invalid }
{
    one_token_is_of_one_algorithm();
    let claims = verify(alloc, token, key)?;
    if !is_current(alloc, &claims, now, LEEWAY)? {
        return Err(TokenError::Invalid);
    }
    Ok(claims)
}

/// Whether `typed` is a one-time password of six digits of the time's step, or of one beside it,
/// that was not used before. `last` is the last step whose password was.
pub fn log_in(
    secret: &SharedSecret,
    time: u64,
    step: NonZeroU32,
    typed: &[u8],
    last: &mut u64,
) -> bool
    ensures accepted { (k : List ℕ) → IsSecret secret.now k → IsTrue result
        → IsFound (secret_algorithm secret.now) k (first_step time (non_zero_u32_get step) 1)
        (past_step time (non_zero_u32_get step) 1) Digits.Six typed.now last.new
        × (last.old < last.new) }
    ensures right { (k : List ℕ) (found : ℕ) → IsSecret secret.now k → found < 2 ^ 64
        → IsFound (secret_algorithm secret.now) k (first_step time (non_zero_u32_get step) 1)
        (past_step time (non_zero_u32_get step) 1) Digits.Six typed.now found
        → last.old < found → IsTrue result }
    ensures unchanged { ¬ (IsTrue result) → last.new ≡ last.old }
{
    let Some(found) = find_totp(secret, time, step, 1, 1, Digits::Six, typed) else {
        return false;
    };
    if found <= *last {
        return false;
    }
    *last = found;
    true
}
