// SPDX-License-Identifier: ISC
//! Tokens: two makers during a change of keys, and what a token costs.
#![tactic(auto, unfolding(ring::specs::Cost::raised))]

ghost use Rattle.std.specs.Prelude.{◌≡◌, ◌≢◌, ◌↔◌, ◌⊎◌, ℕ, ◌<◌, ◌≤◌, List, length, Ok, Err};
ghost use Rattle.std.specs.Prelude.{IfOk, IsErr, IsOk, IsOkUnless, IsTrue};
ghost use Rattle.ring.specs.Algorithm.{max_input_len};
ghost use Rattle.ring.specs.Cost.{raised};
ghost use Rattle.ring.specs.declared.digest.algorithm.TheConstants.{SHA256};
ghost use Rattle.ring_store.specs.Token.{MakerStandsFor, checked, token_blocks, token_input_len};
ghost use Rattle.ring_store.specs.Token.{token_of};

use ring::cost::Meter;
use ring_store::{TOKEN_LEN, TokenError, TokenMaker};

/// Checks a token under a new maker, and under the old one if the new one did not issue it.
pub fn check_under_both(
    new: &TokenMaker,
    old: &TokenMaker,
    user: &[u8],
    expiry: u64,
    now: u64,
    token: &[u8],
) -> Result<(), TokenError>
    ensures ok { (k l : List ℕ) → MakerStandsFor new.now k → MakerStandsFor old.now l
        → IsOk result ↔ ((checked k user.now expiry now token.now ≡ Ok tt)
        ⊎ (checked l user.now expiry now token.now ≡ Ok tt)) }
    ensures by_new { (k : List ℕ) → MakerStandsFor new.now k
        → checked k user.now expiry now token.now ≢ Err TokenError.BadToken
        → result ≡ checked k user.now expiry now token.now }
    ensures by_old { (k l : List ℕ) → MakerStandsFor new.now k → MakerStandsFor old.now l
        → checked k user.now expiry now token.now ≡ Err TokenError.BadToken
        → result ≡ checked l user.now expiry now token.now }
{
    match new.check(user, expiry, now, token) {
        Err(TokenError::BadToken) => old.check(user, expiry, now, token),
        checked => checked,
    }
}

/// A token, and the number of blocks that it took.
pub fn token_and_blocks(
    maker: &TokenMaker,
    user: &[u8],
    expiry: u64,
) -> Result<([u8; TOKEN_LEN], u128), TokenError>
    ensures ok { (k : List ℕ) → MakerStandsFor maker.now k
        → IfOk result (λ made. made.0 ≡ token_of k user.now expiry) }
    ensures refused { IsErr result ↔ (max_input_len SHA256 < token_input_len (length user.now)) }
    ensures too_long { IsOkUnless result TokenError.TooLong }
    ensures cost { IfOk result (λ made. made.1 ≡ token_blocks (length user.now)) }
{
    let mut meter = Meter::new();
    let token = maker.issue_counted(user, expiry, &mut meter)?;
    Ok((token, meter.blocks()))
}

/// Whether a token is valid now, with the work added to the meter of a request: each pair of bytes,
/// also where the first differ.
pub fn check_in_request(
    maker: &TokenMaker,
    user: &[u8],
    expiry: u64,
    now: u64,
    token: &[u8; TOKEN_LEN],
    meter: &mut Meter,
) -> bool
    ensures ok { (k : List ℕ) → MakerStandsFor maker.now k
        → IsTrue result ↔ (checked k user.now expiry now token.now ≡ Ok tt) }
    ensures cost { token_input_len (length user.now) ≤ max_input_len SHA256 → meter.new
        ≡ raised meter.old (token_blocks (length user.now)) TOKEN_LEN }
    ensures unchanged { max_input_len SHA256 < token_input_len (length user.now)
        → meter.new ≡ meter.old }
{
    maker.check_counted(user, expiry, now, token, meter).is_ok()
}
