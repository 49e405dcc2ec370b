// SPDX-License-Identifier: ISC
//! Passwords, tested against hashes as other systems keep them, and new hashes.

ghost use Rattle.std.specs.Prelude.{◌≡◌, ◌≢◌, ◌==◌, ◌↔◌, ◌<◌, ◌≤◌, ◌++◌, drop, length, nat_lt, not};
ghost use Rattle.std.specs.Prelude.{Some, true};
ghost use Rattle.std.specs.Int.NonZero.{non_zero_u32_get};
ghost use Rattle.std.specs.declared.num.NonZeroU32.{NonZeroU32};
ghost use Rattle.ring_password_hash.specs.Stored.{IsReadWhere, IsTextOf, Parts, is_salt};
ghost use Rattle.ring_password_hash.specs.Stored.{meter_of};
ghost use Rattle.ring_password_hash.specs.declared.scheme.Scheme.{Scheme};
ghost use Rattle.ring_c.specs.Number.{count_named, scheme_named};
ghost use Rattle.ring_c.specs.Gives.{WritesHash};
ghost use Rattle.ring_c.specs.PasswordHashes.{max_text_len, new_cost, new_salt, new_salt_len};
ghost use Rattle.ring_c.specs.PasswordHashes.{salt_random_len, test_causes};
ghost use Rattle.ring_c.specs.Status.{YZ_BAD_FORMAT, YZ_OK, YZ_UNKNOWN_ALGORITHM};
ghost use Rattle.ring_c.specs.Status.{YZ_WRONG_LENGTH, no_cause, status_from, status_of};
ghost use Rattle.ring_c.specs.Status.{status_of_error};

use crate::number::{count_of_number, number_of_scheme, scheme_of_number};
use crate::status::{
    BAD_FORMAT, BAD_SALT, NO_ITERATIONS, OK, TOO_MANY_ITERATIONS, UNKNOWN_ALGORITHM, UNSPECIFIED,
    WRONG_LENGTH,
};
use ring::cost::Meter;
use ring_password_hash::laws::one_text_is_of_one_value;
use ring_password_hash::salt::{RANDOM_LEN, Salt, TEXT_SALT_LEN};
use ring_password_hash::{Encoding, HashError, MAX_TEXT_LEN, Scheme, Stored, verify_counted};
use std::num::NonZeroU32;

// The status for why a call is refused.
fn status_of_error(error: HashError) -> i32
    ensures { result ≡ status_of_error error }
{
    match error {
        HashError::NoRoom => WRONG_LENGTH,
        HashError::BadFormat => BAD_FORMAT,
        HashError::TooManyIterations => TOO_MANY_ITERATIONS,
        HashError::BadSalt => BAD_SALT,
        HashError::WrongPassword => UNSPECIFIED,
        HashError::TooLong => UNSPECIFIED,
    }
}

// The same where it may succeed.
fn status_from(answer: Result<(), HashError>) -> i32
    ensures { result ≡ status_from answer }
{
    match answer {
        Ok(()) => OK,
        Err(error) => status_of_error(error),
    }
}

// Tests a password as `yz_password_hash_verify` does. `meter` counts the blocks and the compared
// pairs of bytes.
fn yz_password_hash_verify_counted(
    text: &[u8],
    password: &[u8],
    max_iterations: u32,
    meter: &mut Meter,
) -> i32
    ensures wrong_length { result ≡ YZ_WRONG_LENGTH ↔ max_text_len < length text.now }
    ensures status { length text.now ≤ max_text_len → IsReadWhere text.now (λ found.
        result ≡ status_of YZ_BAD_FORMAT found (test_causes password.now max_iterations)) }
    ensures cost { IsReadWhere text.now (λ found.
        meter.new ≡ meter_of found password.now max_iterations meter.old) }
{
    if text.len() > MAX_TEXT_LEN {
        return WRONG_LENGTH;
    }
    status_from(verify_counted(text, password, max_iterations, meter))
}

/// Returns 0 exactly if `text` is a password hash of Django, Werkzeug, RustCrypto, Mosquitto,
/// passlib or PostgreSQL with at most `max_iterations` iterations, and the hash is that of
/// `password`. For PostgreSQL a password that is not ASCII is to be prepared first (SASLprep, RFC
/// 4013).
///
/// Refused as `WRONG_LENGTH` exactly if `text` has more than 1024 bytes; else as `BAD_FORMAT`
/// exactly if no hash has this text; else as `TOO_MANY_ITERATIONS` exactly if its count is above
/// `max_iterations`, before a block is run; else as `UNSPECIFIED`: a mismatch, or a password that
/// is too long.
#[unsafe(no_mangle)]
pub extern "C" fn yz_password_hash_verify(text: &[u8], password: &[u8], max_iterations: u32) -> i32
    ensures wrong_length { result ≡ YZ_WRONG_LENGTH ↔ max_text_len < length text.now }
    ensures status { length text.now ≤ max_text_len → IsReadWhere text.now (λ found.
        result ≡ status_of YZ_BAD_FORMAT found (test_causes password.now max_iterations)) }
{
    yz_password_hash_verify_counted(text, password, max_iterations, &mut Meter::new())
}

/// Writes to `scheme` the number of the scheme of `text`, and to `iterations` its iteration count.
/// No block is run.
///
/// Refused as `WRONG_LENGTH` exactly if `text` has more than 1024 bytes; else as `BAD_FORMAT`
/// exactly if no hash has this text. `scheme` and `iterations` are then unchanged.
#[unsafe(no_mangle)]
pub extern "C" fn yz_password_hash_info(text: &[u8], scheme: &mut u32, iterations: &mut u32) -> i32
    ensures ok { (h : Parts) → IsTextOf h text.now → (result ≡ YZ_OK)
        × (scheme_named scheme.new ≡ Some h.scheme)
        × (iterations.new ≡ non_zero_u32_get h.iterations) }
    ensures wrong_length { result ≡ YZ_WRONG_LENGTH ↔ max_text_len < length text.now }
    ensures status { length text.now ≤ max_text_len → IsReadWhere text.now (λ found.
        result ≡ status_of YZ_BAD_FORMAT found (λ h. no_cause)) }
    ensures unchanged { result ≢ YZ_OK
        → (scheme.new ≡ scheme.old) × (iterations.new ≡ iterations.old) }
{
    one_text_is_of_one_value();
    match Stored::parse(text) {
        Ok(stored) => {
            *scheme = number_of_scheme(stored.scheme());
            *iterations = stored.iterations().get();
            OK
        }
        Err(_) if text.len() > MAX_TEXT_LEN => WRONG_LENGTH,
        Err(error) => status_of_error(error),
    }
}

// The bytes of a new salt of the scheme.
fn new_salt_len(scheme: Scheme) -> usize
    ensures { result ≡ new_salt_len scheme }
{
    if scheme.row().salt == Encoding::Plain {
        TEXT_SALT_LEN
    } else {
        RANDOM_LEN
    }
}

/// Writes to the start of `salt` a salt for a new hash of the scheme of the number `scheme`, made
/// of `random`, and to `salt_len` how many bytes it has: 22 letters and digits for Django and
/// Werkzeug, and else the 16 bytes themselves. The rest of `salt` is unchanged.
///
/// Refused as `UNKNOWN_ALGORITHM` exactly if the number names no scheme; else as `WRONG_LENGTH`
/// exactly if the salt is longer than `salt`; else as `UNSPECIFIED` exactly if `random` has not 16
/// bytes. `salt` and `salt_len` are then unchanged.
#[unsafe(no_mangle)]
#[tactic(auto, using(crate::proofs::Salts::salt_lengths))]
pub extern "C" fn yz_password_hash_salt(
    scheme: u32,
    random: &[u8],
    salt: &mut [u8],
    salt_len: &mut usize,
) -> i32
    ensures ok { (k : Scheme) → scheme_named scheme ≡ Some k → result ≡ YZ_OK
        → (salt.new ≡ new_salt k random.now ++ drop (new_salt_len k) salt.old)
        × (salt_len.new ≡ new_salt_len k) }
    ensures usable { (k : Scheme) → scheme_named scheme ≡ Some k → result ≡ YZ_OK
        → is_salt k (new_salt k random.now) ≡ true }
    ensures status { result ≡ status_of YZ_UNKNOWN_ALGORITHM (scheme_named scheme) (λ k.
        record no_cause {
          wrong_length = nat_lt (length salt.old) (new_salt_len k);
          unspecified = not (length random.now == salt_random_len);
        }) }
    ensures unchanged { result ≢ YZ_OK → (salt.new ≡ salt.old) × (salt_len.new ≡ salt_len.old) }
{
    let Some(scheme) = scheme_of_number(scheme) else {
        return UNKNOWN_ALGORITHM;
    };
    let len = new_salt_len(scheme);
    if salt.len() < len {
        return WRONG_LENGTH;
    }
    if random.len() != RANDOM_LEN {
        return UNSPECIFIED;
    }
    let mut own = [0; RANDOM_LEN];
    own.copy_from_slice(random);
    let made = Salt::of(scheme, own);
    salt[..len].copy_from_slice(made.as_ref());
    *salt_len = len;
    OK
}

// Writes a new hash as `yz_password_hash_new` does. `meter` counts the blocks: none where it is
// refused.
fn yz_password_hash_new_counted(
    scheme: u32,
    iterations: u32,
    salt: &[u8],
    password: &[u8],
    text: &mut [u8],
    text_len: &mut usize,
    meter: &mut Meter,
) -> i32
    ensures plain { WritesHash scheme password.now salt.now iterations
        text.old text.new text_len.old text_len.new result }
    ensures cost { (k : Scheme) (c : NonZeroU32) → scheme_named scheme ≡ Some k
        → count_named iterations ≡ Some c → result ≡ YZ_OK
        → meter.new ≡ new_cost k password.now salt.now c meter.old }
    ensures cost_refused { result ≢ YZ_OK → meter.new ≡ meter.old }
{
    let Some(scheme) = scheme_of_number(scheme) else {
        return UNKNOWN_ALGORITHM;
    };
    let Some(iterations) = count_of_number(iterations) else {
        return NO_ITERATIONS;
    };
    match Stored::new_counted(scheme, password, salt, iterations, text.len(), meter) {
        Ok(stored) => {
            *text_len = stored.write_to(text).unwrap(); // There is room.
            OK
        }
        Err(error) => status_of_error(error),
    }
}

/// Writes to the start of `text` the hash of `password` under `salt` and `iterations`, of the
/// scheme of the number `scheme`, and to `text_len` how many bytes it has. The rest of `text` is
/// unchanged. For PostgreSQL a password that is not ASCII is to be prepared first (SASLprep, RFC
/// 4013).
///
/// Refused as `UNKNOWN_ALGORITHM` exactly if the number names no scheme; else as `NO_ITERATIONS`
/// exactly if there is none; else as `WRONG_LENGTH` exactly if the hash is longer than `text` or
/// than 1024 bytes; else as `BAD_SALT` exactly if `salt` is empty, or has a dollar sign where the
/// scheme writes it as it is; else as `UNSPECIFIED` exactly if `password` or `salt` is longer than
/// PBKDF2 admits (RFC 2898, section 5.2). No block is then run, and `text` and `text_len` are
/// unchanged.
#[unsafe(no_mangle)]
pub extern "C" fn yz_password_hash_new(
    scheme: u32,
    iterations: u32,
    salt: &[u8],
    password: &[u8],
    text: &mut [u8],
    text_len: &mut usize,
) -> i32
    ensures { WritesHash scheme password.now salt.now iterations
        text.old text.new text_len.old text_len.new result }
{
    yz_password_hash_new_counted(
        scheme,
        iterations,
        salt,
        password,
        text,
        text_len,
        &mut Meter::new(),
    )
}
