// SPDX-License-Identifier: ISC
//! One-time passwords: HOTP (RFC 4226) and TOTP (RFC 6238).

ghost use Rattle.std.specs.Prelude.{◌≡◌, ◌==◌, ◌+◌, List, Some, length, not, true, ℕ};
ghost use Rattle.ring_tokens.specs.Otp.{digits_of, first_step, hotp_text, past_step};
ghost use Rattle.ring_tokens.specs.Secret.{IsSecret, secret_algorithm};
ghost use Rattle.ring_c.specs.Otp.{FindsPassword, WritesPassword, counter_at};

use crate::number::{digits_of_number, hmac_of_number};
use crate::status::{OK, UNKNOWN_ALGORITHM, UNSPECIFIED, WRONG_LENGTH};
use ring_tokens::SharedSecret;
use ring_tokens::otp::{Digits, eight_digits, find_hotp, find_totp, hotp};
use std::num::NonZeroU32;

// Writes the password of a counter to `text`.
fn write_password(secret: &SharedSecret, counter: u64, digits: Digits, text: &mut [u8])
    requires { length text.old ≡ digits_of digits }
    ensures { (k : List ℕ) → IsSecret secret.now k
        → text.new ≡ hotp_text (secret_algorithm secret.now) k counter digits }
{
    let written = eight_digits(hotp(secret, counter, digits));
    text.copy_from_slice(&written[8 - text.len()..]);
}

// Writes the password of the counter, if there is one, as `yz_hotp` does.
fn write(algorithm: u32, key: &[u8], counter: Option<u64>, text: &mut [u8]) -> i32
    ensures { WritesPassword algorithm key.now counter text.old text.new result }
{
    let Some(algorithm) = hmac_of_number(algorithm) else {
        return UNKNOWN_ALGORITHM;
    };
    let Some(digits) = digits_of_number(text.len()) else {
        return WRONG_LENGTH;
    };
    let Some(counter) = counter else {
        return UNSPECIFIED;
    };
    let Ok(secret) = SharedSecret::new(algorithm, key) else {
        return UNSPECIFIED;
    };
    write_password(&secret, counter, digits, text);
    OK
}

/// Writes to `text` the one-time password of `counter` under the key bytes `key`, by the HMAC
/// algorithm of the number `algorithm`, in as many decimal digits as `text` has bytes, with leading
/// zeros (RFC 4226, section 5.3).
///
/// Refused as `UNKNOWN_ALGORITHM` exactly if the number names none; else as `WRONG_LENGTH` exactly
/// if `text` has not 6, 7 or 8 bytes; else as `UNSPECIFIED` exactly if the key is empty or too
/// long. `text` is then unchanged.
#[unsafe(no_mangle)]
pub extern "C" fn yz_hotp(algorithm: u32, key: &[u8], counter: u64, text: &mut [u8]) -> i32
    ensures { WritesPassword algorithm key.now (Some counter) text.old text.new result }
{
    write(algorithm, key, Some(counter), text)
}

/// Writes to `text` the one-time password of the step of `time`, in seconds since 1970, as
/// `yz_hotp` does that of a counter. A step has `step` seconds (RFC 6238, section 4.2).
///
/// Refused as `UNKNOWN_ALGORITHM` exactly if the number names none; else as `WRONG_LENGTH` exactly
/// if `text` has not 6, 7 or 8 bytes; else as `UNSPECIFIED` exactly if `step` is 0, or the key is
/// empty or too long. `text` is then unchanged.
#[unsafe(no_mangle)]
pub extern "C" fn yz_totp(algorithm: u32, key: &[u8], time: u64, step: u32, text: &mut [u8]) -> i32
    ensures { WritesPassword algorithm key.now (counter_at time step) text.old text.new result }
{
    let counter = if step == 0 {
        None
    } else {
        Some(time / step as u64)
    };
    write(algorithm, key, counter, text)
}

/// Writes to `counter` the first of `count` counters from `first` on whose one-time password of
/// `digits` decimal digits `text` is, under the key bytes `key`, by the HMAC algorithm of the
/// number `algorithm` (RFC 4226, section 7.4). No counter above 2^64 - 1 is tried.
///
/// Refused as `UNKNOWN_ALGORITHM` exactly if the number names none; else as `WRONG_LENGTH` exactly
/// if `digits` is not 6, 7 or 8; else as `UNSPECIFIED` exactly if the text is the password of no
/// such counter, or the key is empty or too long. `counter` is then unchanged.
#[unsafe(no_mangle)]
pub extern "C" fn yz_hotp_find(
    algorithm: u32,
    key: &[u8],
    first: u64,
    count: u64,
    digits: usize,
    text: &[u8],
    counter: &mut u64,
) -> i32
    ensures { FindsPassword algorithm key.now true first (first + count) digits text.now
        counter.old counter.new result }
{
    let Some(algorithm) = hmac_of_number(algorithm) else {
        return UNKNOWN_ALGORITHM;
    };
    let Some(digits) = digits_of_number(digits) else {
        return WRONG_LENGTH;
    };
    let Ok(secret) = SharedSecret::new(algorithm, key) else {
        return UNSPECIFIED;
    };
    let Some(found) = find_hotp(&secret, first, count, digits, text) else {
        return UNSPECIFIED;
    };
    *counter = found;
    OK
}

/// Writes to `counter` the first step whose one-time password `text` is, as `yz_hotp_find` does,
/// among the step of `time`, in seconds since 1970, `back` steps before it and `ahead` after it. A
/// step has `step` seconds (RFC 6238, section 5.2).
///
/// Refused as `UNKNOWN_ALGORITHM` exactly if the number names none; else as `WRONG_LENGTH` exactly
/// if `digits` is not 6, 7 or 8; else as `UNSPECIFIED` exactly if `step` is 0, the text is the
/// password of no such step, or the key is empty or too long. `counter` is then unchanged.
#[unsafe(no_mangle)]
pub extern "C" fn yz_totp_find(
    algorithm: u32,
    key: &[u8],
    time: u64,
    step: u32,
    back: u32,
    ahead: u32,
    digits: usize,
    text: &[u8],
    counter: &mut u64,
) -> i32
    ensures { FindsPassword algorithm key.now (not (step == 0)) (first_step time step back)
        (past_step time step ahead) digits text.now counter.old counter.new result }
{
    let Some(algorithm) = hmac_of_number(algorithm) else {
        return UNKNOWN_ALGORITHM;
    };
    let Some(digits) = digits_of_number(digits) else {
        return WRONG_LENGTH;
    };
    let Some(step) = NonZeroU32::new(step) else {
        return UNSPECIFIED;
    };
    let Ok(secret) = SharedSecret::new(algorithm, key) else {
        return UNSPECIFIED;
    };
    let Some(found) = find_totp(&secret, time, step, back, ahead, digits, text) else {
        return UNSPECIFIED;
    };
    *counter = found;
    OK
}
