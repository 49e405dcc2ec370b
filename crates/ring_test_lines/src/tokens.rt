// SPDX-License-Identifier: ISC
//! What is asked of signed tokens, one-time passwords and webhooks.

use crate::fault::Fault;
use crate::words::{
    alg_in, bytes_in, count_in, digits_in, digits_of, hmac_in, line_of, number_in, short_in,
    text_in,
};
use ring::hmac::HMAC_SHA256;
use ring_tokens::claims::is_current;
use ring_tokens::jws::{sign, sign_in_place, token_len, verify, verify_in_place};
use ring_tokens::otp::{find_hotp, find_totp, hotp, totp};
use ring_tokens::webhook::{verify_github, verify_stripe};
use ring_tokens::{Key, SharedSecret, TokenError};
use std::alloc::Global;

/// The answer to a line on tokens by its words.
pub fn token_answer(alloc: Global, words: &[&str]) -> Result<String, Fault> {
    match *words {
        ["jws", "verify", alg, key, token] => verified(alloc, alg, key, token),
        ["jws", "verify-in-place", alg, key, token] => verified_in_place(alloc, alg, key, token),
        ["jws", "sign", alg, key, payload] => signed(alloc, alg, key, payload),
        ["jws", "sign-in-place", alg, key, payload] => signed_in_place(alloc, alg, key, payload),
        ["jws", "current", payload, now, leeway] => current(alloc, payload, now, leeway),
        ["github", key, body, header] => github(alloc, key, body, header),
        ["stripe", key, body, header, now, tolerance] => {
            stripe(alloc, [key, body, header], now, tolerance)
        }
        _ => password_answer(alloc, words),
    }
}

/// The answer to a line on one-time passwords.
fn password_answer(alloc: Global, words: &[&str]) -> Result<String, Fault> {
    match words {
        ["hotp", "find", words @ ..] => found(alloc, words),
        ["totp", "find", words @ ..] => found_at(alloc, words),
        ["hotp", hash, key, counter, digits] => made(alloc, [hash, key, counter, digits]),
        ["totp", hash, key, time, step, digits] => made_at(alloc, [hash, key, time, step, digits]),
        _ => Err(Fault::BadLine),
    }
}

/// A key for tokens.
fn key_of(alloc: Global, alg: &str, key: &str) -> Result<Key, Fault> {
    Ok(Key::new(alg_in(alg)?, &bytes_in(alloc, key)?)?)
}

/// A secret for one-time passwords.
fn secret_of(alloc: Global, hash: &str, key: &str) -> Result<SharedSecret, Fault> {
    Ok(SharedSecret::new(hmac_in(hash)?, &bytes_in(alloc, key)?)?)
}

/// The payload of a token.
fn verified(alloc: Global, alg: &str, key: &str, token: &str) -> Result<String, Fault> {
    let key = key_of(alloc, alg, key)?;
    let payload = verify(alloc, &text_in(alloc, token)?, &key)?;
    digits_of(alloc, &payload)
}

/// The same, read to a buffer of the token's length.
fn verified_in_place(alloc: Global, alg: &str, key: &str, token: &str) -> Result<String, Fault> {
    let key = key_of(alloc, alg, key)?;
    let token = text_in(alloc, token)?;
    let mut payload = vec![in alloc; 0; token.as_slice().len()]?;
    let len = verify_in_place(&token, &key, payload.as_mut_slice())?;
    digits_of(alloc, &payload[..len])
}

/// A token.
fn signed(alloc: Global, alg: &str, key: &str, payload: &str) -> Result<String, Fault> {
    let key = key_of(alloc, alg, key)?;
    let token = sign(alloc, &bytes_in(alloc, payload)?, &key)?;
    line_of(alloc, &token)
}

/// The same, written to a buffer of its length.
fn signed_in_place(alloc: Global, alg: &str, key: &str, payload: &str) -> Result<String, Fault> {
    let key = key_of(alloc, alg, key)?;
    let payload = bytes_in(alloc, payload)?;
    let Some(len) = token_len(key.alg(), payload.as_slice().len()) else {
        return Err(Fault::Token(TokenError::NoRoom));
    };
    let mut token = vec![in alloc; 0; len]?;
    let len = sign_in_place(&payload, &key, token.as_mut_slice())?;
    line_of(alloc, &token[..len])
}

/// Whether claims are current.
fn current(alloc: Global, payload: &str, now: &str, leeway: &str) -> Result<String, Fault> {
    let payload = bytes_in(alloc, payload)?;
    let current = is_current(alloc, &payload, number_in(now)?, number_in(leeway)?)?;
    Ok(format!(in alloc; "{current}")?)
}

/// A one-time password.
fn made(alloc: Global, words: [&str; 4]) -> Result<String, Fault> {
    let secret = secret_of(alloc, words[0], words[1])?;
    let password = hotp(&secret, number_in(words[2])?, digits_in(words[3])?);
    Ok(format!(in alloc; "{password}")?)
}

/// A one-time password of a time.
fn made_at(alloc: Global, words: [&str; 5]) -> Result<String, Fault> {
    let secret = secret_of(alloc, words[0], words[1])?;
    let step = count_in(words[3])?;
    let password = totp(&secret, number_in(words[2])?, step, digits_in(words[4])?);
    Ok(format!(in alloc; "{password}")?)
}

/// A counter or a step, or that there is none.
fn place_of(alloc: Global, found: Option<u64>) -> Result<String, Fault> {
    match found {
        Some(place) => Ok(format!(in alloc; "{place}")?),
        None => Ok(String::from_str(alloc, "none")?),
    }
}

/// The counter of a one-time password.
fn found(alloc: Global, words: &[&str]) -> Result<String, Fault> {
    let [hash, key, first, count, digits, text] = words else {
        return Err(Fault::BadLine);
    };
    let secret = secret_of(alloc, hash, key)?;
    let first = number_in(first)?;
    let count = short_in(count)?;
    let digits = digits_in(digits)?;
    let text = text_in(alloc, text)?;
    place_of(
        alloc,
        find_hotp(&secret, first, count as u64, digits, &text),
    )
}

/// The step of a one-time password.
fn found_at(alloc: Global, words: &[&str]) -> Result<String, Fault> {
    let [hash, key, time, step, back, ahead, digits, text] = words else {
        return Err(Fault::BadLine);
    };
    let secret = secret_of(alloc, hash, key)?;
    let time = number_in(time)?;
    let step = count_in(step)?;
    let back = short_in(back)?;
    let ahead = short_in(ahead)?;
    let digits = digits_in(digits)?;
    let text = text_in(alloc, text)?;
    place_of(
        alloc,
        find_totp(&secret, time, step, back, ahead, digits, &text),
    )
}

/// Whether a header is GitHub's.
fn github(alloc: Global, key: &str, body: &str, header: &str) -> Result<String, Fault> {
    let secret = SharedSecret::new(HMAC_SHA256, &bytes_in(alloc, key)?)?;
    verify_github(&secret, &bytes_in(alloc, body)?, &text_in(alloc, header)?)?;
    Ok(String::from_str(alloc, "ok")?)
}

/// Whether a header is Stripe's.
fn stripe(alloc: Global, words: [&str; 3], now: &str, tolerance: &str) -> Result<String, Fault> {
    let secret = SharedSecret::new(HMAC_SHA256, &bytes_in(alloc, words[0])?)?;
    let body = bytes_in(alloc, words[1])?;
    let header = text_in(alloc, words[2])?;
    verify_stripe(
        &secret,
        &body,
        &header,
        number_in(now)?,
        number_in(tolerance)?,
    )?;
    Ok(String::from_str(alloc, "ok")?)
}
