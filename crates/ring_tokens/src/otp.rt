// SPDX-License-Identifier: ISC
//! One-time passwords: HOTP (RFC 4226) and TOTP (RFC 6238).
//!
//! A server that shares a secret with a user's device looks for the password that the user typed
//! among those of the time, of the step before it and of the step after it:
//!
//! ```
//! find_totp(&secret, time, step, 1, 1, Digits::Six, typed)
//! ```
//!
//! A password is for one use: refuse a counter or a step that is not above the last accepted one.
//! An empty secret is refused where a [`SharedSecret`] is made, so no password is found under it.

ghost use Rattle.std.specs.Prelude.{◌≡◌, ◌↔◌, ℕ, ◌+◌, ◌-◌, ◌/◌, ◌%◌, ◌^◌, ◌<◌, ◌≤◌, List, length};
ghost use Rattle.std.specs.Prelude.{IfSome, IsNone, IsTrue, min};
ghost use Rattle.std.specs.Int.NonZero.{non_zero_u32_get};
ghost use Rattle.ring.specs.Prelude.{compared_pairs, raised};
ghost use Rattle.ring_tokens.specs.Cost.{otp_blocks, raised_by_tests};
ghost use Rattle.ring_tokens.specs.Gives.{FindsCounter};
ghost use Rattle.ring_tokens.specs.Otp.{digits_of, dynamic_truncation, eight_digits, first_step};
ghost use Rattle.ring_tokens.specs.Otp.{hotp_of, hotp_text, past_step, step_of};
ghost use Rattle.ring_tokens.specs.Secret.{IsSecret, secret_algorithm};

use crate::secret::SharedSecret;
use ring::bb::verify_slices_are_equal_counted;
use ring::cost::Meter;
use ring::hmac;
use std::num::NonZeroU32;

/// How many digits a one-time password has.
#[derive(Clone, Copy, Debug, PartialEq, Eq)]
pub enum Digits {
    /// Six, as in most systems.
    Six,
    /// Seven.
    Seven,
    /// Eight.
    Eight,
}

impl Digits {
    // Their number.
    fn count(self) -> usize
        ensures { result ≡ digits_of self }
    {
        match self {
            Digits::Six => 6,
            Digits::Seven => 7,
            Digits::Eight => 8,
        }
    }

    // One more than the greatest number that they write.
    fn bound(self) -> u32
        ensures { result ≡ 10 ^ digits_of self }
    {
        match self {
            Digits::Six => 1_000_000,
            Digits::Seven => 10_000_000,
            Digits::Eight => 100_000_000,
        }
    }
}

// The 31 bits to which a tag is truncated (RFC 4226, section 5.3).
fn truncate(tag: &[u8]) -> u32
    requires { 20 ≤ length tag.now }
    ensures { result ≡ dynamic_truncation tag.now }
{
    let offset = (tag[tag.len() - 1] & 0x0f) as usize;
    let mut word = [0; 4];
    word.copy_from_slice(&tag[offset..offset + 4]);
    u32::from_be_bytes(word) & 0x7fff_ffff
}

/// Computes the one-time password of a counter, of as many `digits`, as [`hotp`] does, and counts
/// its two blocks on `meter`.
pub fn hotp_counted(secret: &SharedSecret, counter: u64, digits: Digits, meter: &mut Meter) -> u32
    ensures ok { (k : List ℕ) → IsSecret secret.now k
        → result ≡ hotp_of (secret_algorithm secret.now) k counter (digits_of digits) }
    ensures cost { meter.new ≡ raised meter.old (otp_blocks (secret_algorithm secret.now)) 0 }
{
    let Ok(tag) = hmac::sign_counted(&secret.key, &counter.to_be_bytes(), meter) else {
        unreachable!() // Eight bytes are within each limit.
    };
    truncate(tag.as_ref()) % digits.bound()
}

/// The one-time password of a counter under `secret`, as a number below 10 to the power of `digits`
/// (RFC 4226, section 5.3). The secret may be of any of the algorithms (RFC 6238, section 1.2).
pub fn hotp(secret: &SharedSecret, counter: u64, digits: Digits) -> u32
    ensures ok { (k : List ℕ) → IsSecret secret.now k
        → result ≡ hotp_of (secret_algorithm secret.now) k counter (digits_of digits) }
{
    hotp_counted(secret, counter, digits, &mut Meter::new())
}

// The digit at a place.
fn digit(number: u32, place: u32) -> u8
    requires { 0 < place }
    ensures { result ≡ 48 + number / place % 10 }
{
    b'0' + (number / place % 10) as u8
}

/// A number below 10^8 as eight decimal digits in ASCII, leading zeros among them. The last of
/// them, as many as the password has, are the text of what [`hotp`] and [`totp`] return.
pub fn eight_digits(number: u32) -> [u8; 8]
    ensures { result ≡ eight_digits number }
{
    [
        digit(number, 10_000_000),
        digit(number, 1_000_000),
        digit(number, 100_000),
        digit(number, 10_000),
        digit(number, 1_000),
        digit(number, 100),
        digit(number, 10),
        digit(number, 1),
    ]
}

// Whether the text is the one-time password of a counter, with each of its digits.
#[tactic(auto, using(crate::proofs::Rises::rise_compared))]
fn is_password(
    secret: &SharedSecret,
    counter: u64,
    digits: Digits,
    text: &[u8],
    meter: &mut Meter,
) -> bool
    ensures ok { (k : List ℕ) → IsSecret secret.now k → IsTrue result
        ↔ (text.now ≡ hotp_text (secret_algorithm secret.now) k counter digits) }
    ensures cost { meter.new ≡ raised meter.old (otp_blocks (secret_algorithm secret.now))
        (compared_pairs (digits_of digits) (length text.now)) }
{
    let written = eight_digits(hotp_counted(secret, counter, digits, meter));
    verify_slices_are_equal_counted(&written[8 - digits.count()..], text, meter).is_ok()
}

/// Looks for a one-time password under `secret` as [`find_hotp`] does, and counts on `meter` two
/// blocks and the compared pairs of bytes for each counter that was tried.
pub fn find_hotp_counted(
    secret: &SharedSecret,
    first: u64,
    count: u64,
    digits: Digits,
    text: &[u8],
    meter: &mut Meter,
) -> Option<u64>
    ensures plain { FindsCounter secret.now first (first + count) digits text.now result }
    ensures cost { IfSome result (λ found. meter.new ≡ raised_by_tests meter.old
        (secret_algorithm secret.now) digits (length text.now) (found - first + 1)) }
    ensures cost_refused { IsNone result → meter.new ≡ raised_by_tests meter.old
        (secret_algorithm secret.now) digits (length text.now) (min count (2 ^ 64 - first)) }
{
    'counters: for i in 0..count {
        let Some(counter) = first.checked_add(i) else {
            return None;
        };
        if is_password(secret, counter, digits, text, meter) {
            return Some(counter);
        }
    }
    None
}

/// The first of `count` counters, from `first` on, whose one-time password under `secret` is `text`
/// (RFC 4226, section 7.4). The text has all `digits` of the password, leading zeros among them.
/// The next counter to expect is one above it.
///
/// `None` exactly if no such counter has this password. A counter has 64 bits: none is tried above
/// the greatest.
pub fn find_hotp(
    secret: &SharedSecret,
    first: u64,
    count: u64,
    digits: Digits,
    text: &[u8],
) -> Option<u64>
    ensures { FindsCounter secret.now first (first + count) digits text.now result }
{
    find_hotp_counted(secret, first, count, digits, text, &mut Meter::new())
}

/// Computes the one-time password of a time under `secret`, of as many `digits`, as [`totp`] does,
/// and counts its two blocks on `meter`.
pub fn totp_counted(
    secret: &SharedSecret,
    time: u64,
    step: NonZeroU32,
    digits: Digits,
    meter: &mut Meter,
) -> u32
    ensures ok { (k : List ℕ) → IsSecret secret.now k → result
        ≡ hotp_of (secret_algorithm secret.now) k (step_of time (non_zero_u32_get step))
        (digits_of digits) }
    ensures cost { meter.new ≡ raised meter.old (otp_blocks (secret_algorithm secret.now)) 0 }
{
    hotp_counted(secret, time / step.get() as u64, digits, meter)
}

/// The one-time password of a time, in seconds since 1970, under `secret`: a number below 10 to the
/// power of `digits` (RFC 6238, section 4.2). The usual `step` is 30 seconds.
pub fn totp(secret: &SharedSecret, time: u64, step: NonZeroU32, digits: Digits) -> u32
    ensures ok { (k : List ℕ) → IsSecret secret.now k → result
        ≡ hotp_of (secret_algorithm secret.now) k (step_of time (non_zero_u32_get step))
        (digits_of digits) }
{
    totp_counted(secret, time, step, digits, &mut Meter::new())
}

/// Looks for a one-time password under `secret`, of as many `digits`, as [`find_totp`] does, and
/// counts on `meter` two blocks and the compared pairs of bytes for each step that was tried.
pub fn find_totp_counted(
    secret: &SharedSecret,
    time: u64,
    step: NonZeroU32,
    back: u32,
    ahead: u32,
    digits: Digits,
    text: &[u8],
    meter: &mut Meter,
) -> Option<u64>
    ensures plain { FindsCounter secret.now (first_step time (non_zero_u32_get step) back)
        (past_step time (non_zero_u32_get step) ahead) digits text.now result }
    ensures cost { IfSome result (λ found. meter.new ≡ raised_by_tests meter.old
        (secret_algorithm secret.now) digits (length text.now)
        (found - first_step time (non_zero_u32_get step) back + 1)) }
    ensures cost_refused { IsNone result → meter.new ≡ raised_by_tests meter.old
        (secret_algorithm secret.now) digits (length text.now)
        (min (past_step time (non_zero_u32_get step) ahead) (2 ^ 64)
        - first_step time (non_zero_u32_get step) back) }
{
    let now = time / step.get() as u64;
    let first = now.saturating_sub(back as u64);
    let count = now - first + ahead as u64 + 1;
    find_hotp_counted(secret, first, count, digits, text, meter)
}

/// The first step whose one-time password under `secret` is `text`, of that of a time, `back` steps
/// before it and `ahead` after it (RFC 6238, section 5.2). The text has all `digits` of the
/// password, leading zeros among them. The time is in seconds since 1970.
///
/// `None` exactly if no such step has this password.
pub fn find_totp(
    secret: &SharedSecret,
    time: u64,
    step: NonZeroU32,
    back: u32,
    ahead: u32,
    digits: Digits,
    text: &[u8],
) -> Option<u64>
    ensures { FindsCounter secret.now (first_step time (non_zero_u32_get step) back)
        (past_step time (non_zero_u32_get step) ahead) digits text.now result }
{
    find_totp_counted(
        secret,
        time,
        step,
        back,
        ahead,
        digits,
        text,
        &mut Meter::new(),
    )
}
