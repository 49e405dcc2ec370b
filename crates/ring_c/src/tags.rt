// SPDX-License-Identifier: ISC
//! Tags: HMAC (RFC 2104).

ghost use Rattle.std.specs.Prelude.{◌≡◌, ◌≢◌, ◌↔◌, ◌++◌, [], ℕ, List, Some, length, ◌==◌, not};
ghost use Rattle.std.specs.Prelude.{replicate};
ghost use Rattle.ring.specs.Algorithm.{output_len};
ghost use Rattle.ring.specs.Hmac.{KeyStandsFor, hmac_digest, hmac_of, key_algorithm, tag_under};
ghost use Rattle.ring.specs.Limits.{IsTagWithin, fits};
ghost use Rattle.ring.specs.Raw.{AreWords, HasBegun, RawKeyStandsFor};
ghost use Rattle.ring.specs.Raw.{RawTagStandsFor, TagHasAdded, digest_named, raw_message_len};
ghost use Rattle.ring.specs.Raw.{raw_tag_under, raw_tag_with};
ghost use Rattle.ring.specs.declared.digest.algorithm.Algorithm as digest;
ghost use Rattle.ring.specs.declared.hmac.key.Algorithm.{Algorithm};
ghost use Rattle.ring_c.specs.Gives.{WritesBytes};
ghost use Rattle.ring_c.specs.Limits.{can_sign, can_tag, is_no_tag_context};
ghost use Rattle.ring_c.specs.Number.{hmac_named};
ghost use Rattle.ring_c.specs.Status.{YZ_OK, YZ_UNKNOWN_ALGORITHM, YZ_UNKNOWN_CONTEXT};
ghost use Rattle.ring_c.specs.Status.{YZ_UNSPECIFIED, first_of, no_cause, status_of};
ghost use Rattle.ring_c.specs.Verified.{is_raw_tag, is_tag};

use crate::number::hmac_of_number;
use crate::status::{OK, UNKNOWN_ALGORITHM, UNKNOWN_CONTEXT, UNSPECIFIED, WRONG_LENGTH};
use ring::cost::Meter;
use ring::hmac::{self, Context, Key};
use ring::raw::{RawKey, RawTagContext};

// Writes the tag of a message to `out`.
pub(crate) fn write_tag(key: &Key, message: &[u8], out: &mut [u8]) -> i32
    requires { length out.old ≡ output_len (key_algorithm key.now) }
    ensures ok { (k : List ℕ) → KeyStandsFor key.now k → result ≡ YZ_OK
        → out.new ≡ hmac_of (key_algorithm key.now) k message.now }
    ensures any { result ≡ YZ_OK → out.new ≡ tag_under key.now message.now }
    ensures status { result ≡ first_of record no_cause {
      unspecified = not (can_tag (key_algorithm key.now) (length message.now));
    } }
    ensures unchanged { result ≢ YZ_OK → out.new ≡ out.old }
{
    match &hmac::sign(key, message) {
        Ok(tag) => {
            out.copy_from_slice(tag.as_ref());
            OK
        }
        Err(_) => UNSPECIFIED,
    }
}

// Verifies the tag of a message.
fn verify_tag(key: &Key, message: &[u8], tag: &[u8]) -> i32
    ensures ok { (k : List ℕ) → KeyStandsFor key.now k
        → (result ≡ YZ_OK ↔ (IsTagWithin (key_algorithm key.now) (length message.now)
        × (tag.now ≡ hmac_of (key_algorithm key.now) k message.now))) }
    ensures any { result ≡ YZ_OK ↔ (IsTagWithin (key_algorithm key.now) (length message.now)
        × (tag.now ≡ tag_under key.now message.now)) }
    ensures status { result ≢ YZ_OK → result ≡ YZ_UNSPECIFIED }
{
    match hmac::verify(key, message, tag) {
        Ok(()) => OK,
        Err(_) => UNSPECIFIED,
    }
}

/// Writes the tag of `message` under the key bytes `key` to `out`, by the HMAC algorithm of the
/// number `algorithm` (RFC 2104, section 2).
///
/// Refused as `UNKNOWN_ALGORITHM`, as `WRONG_LENGTH` where `out` has not the length of a tag, and
/// as `UNSPECIFIED` where the key or the message is too long. `out` is then unchanged.
#[unsafe(no_mangle)]
pub extern "C" fn yz_hmac_sign(algorithm: u32, key: &[u8], message: &[u8], out: &mut [u8]) -> i32
    ensures ok { (a : Algorithm) → hmac_named algorithm ≡ Some a → result ≡ YZ_OK
        → out.new ≡ hmac_of (hmac_digest a) key.now message.now }
    ensures status { result ≡ status_of YZ_UNKNOWN_ALGORITHM (hmac_named algorithm) (λ a.
        record no_cause {
          wrong_length = not (length out.old == output_len (hmac_digest a));
          unspecified = not (can_sign (hmac_digest a) (length key.now) (length message.now));
        }) }
    ensures unchanged { result ≢ YZ_OK → out.new ≡ out.old }
{
    let Some(algorithm) = hmac_of_number(algorithm) else {
        return UNKNOWN_ALGORITHM;
    };
    if out.len() != algorithm.digest_algorithm().output_len() {
        return WRONG_LENGTH;
    }
    let Ok(signing_key) = Key::new(algorithm, key) else {
        return UNSPECIFIED;
    };
    write_tag(&signing_key, message, out)
}

/// Returns 0 exactly if `tag` is the whole tag of `message` under the key bytes `key`, by the HMAC
/// algorithm of the number `algorithm` (RFC 2104, section 2).
///
/// Refused as `UNKNOWN_ALGORITHM`, and else as `UNSPECIFIED`: a mismatch, or a key or message that
/// is too long.
#[unsafe(no_mangle)]
pub extern "C" fn yz_hmac_verify(algorithm: u32, key: &[u8], message: &[u8], tag: &[u8]) -> i32
    ensures { result ≡ status_of YZ_UNKNOWN_ALGORITHM (hmac_named algorithm) (λ a.
        record no_cause {
          unspecified = not (is_tag (hmac_digest a) key.now message.now tag.now);
        }) }
{
    let Some(algorithm) = hmac_of_number(algorithm) else {
        return UNKNOWN_ALGORITHM;
    };
    let Ok(verifying_key) = Key::new(algorithm, key) else {
        return UNSPECIFIED;
    };
    verify_tag(&verifying_key, message, tag)
}

/// Makes in `key` the key of the bytes `value`, to be used for any number of tags, for the HMAC
/// algorithm of the number `algorithm` (RFC 2104, section 2).
///
/// Refused as `UNKNOWN_ALGORITHM`, and as `UNSPECIFIED` where the value is too long. `key` is then
/// unchanged.
#[unsafe(no_mangle)]
pub extern "C" fn yz_hmac_key_init(algorithm: u32, value: &[u8], key: &mut RawKey) -> i32
    ensures ok { (a : Algorithm) → hmac_named algorithm ≡ Some a → result ≡ YZ_OK
        → RawKeyStandsFor key.new (hmac_digest a) value.now }
    ensures sized { (a : Algorithm) → hmac_named algorithm ≡ Some a → result ≡ YZ_OK
        → AreWords (hmac_digest a) key.new.inner × AreWords (hmac_digest a) key.new.outer }
    ensures reserved { result ≡ YZ_OK → key.new.reserved ≡ 0 }
    ensures status { result ≡ status_of YZ_UNKNOWN_ALGORITHM (hmac_named algorithm) (λ a.
        record no_cause { unspecified = not (fits (hmac_digest a) (length value.now)) }) }
    ensures unchanged { result ≢ YZ_OK → key.new ≡ key.old }
{
    let Some(algorithm) = hmac_of_number(algorithm) else {
        return UNKNOWN_ALGORITHM;
    };
    let Ok(made) = Key::new(algorithm, value) else {
        return UNSPECIFIED;
    };
    *key = RawKey::new(&made);
    OK
}

/// Writes the tag of `message` under `key` to `out` (RFC 2104, section 2).
///
/// Refused as `UNKNOWN_CONTEXT` where the numbers are no key's, as `WRONG_LENGTH` where `out` has
/// not the length of a tag, and as `UNSPECIFIED` where the message is too long. `out` is then
/// unchanged.
#[unsafe(no_mangle)]
pub extern "C" fn yz_hmac_key_sign(key: &RawKey, message: &[u8], out: &mut [u8]) -> i32
    ensures ok { (a : digest.Algorithm) (k : List ℕ) → RawKeyStandsFor key.now a k → result ≡ YZ_OK
        → out.new ≡ hmac_of a k message.now }
    ensures any { WritesBytes YZ_UNKNOWN_CONTEXT (digest_named key.now.algorithm)
        (λ a. raw_tag_under a key.now message.now) (λ a. record no_cause {
          wrong_length = not (length out.old == output_len a);
          unspecified = not (can_tag a (length message.now));
        }) out.old out.new result }
{
    let Some(key) = key.key() else {
        return UNKNOWN_CONTEXT;
    };
    if out.len() != key.algorithm().digest_algorithm().output_len() {
        return WRONG_LENGTH;
    }
    write_tag(&key, message, out)
}

/// Returns 0 exactly if `tag` is the whole tag of `message` under `key` (RFC 2104, section 2).
///
/// Refused as `UNKNOWN_CONTEXT` where the numbers are no key's, and else as `UNSPECIFIED`: a
/// mismatch, or a message that is too long.
#[unsafe(no_mangle)]
pub extern "C" fn yz_hmac_key_verify(key: &RawKey, message: &[u8], tag: &[u8]) -> i32
    ensures ok { (a : digest.Algorithm) (k : List ℕ) → RawKeyStandsFor key.now a k
        → (result ≡ YZ_OK ↔ (IsTagWithin a (length message.now)
        × (tag.now ≡ hmac_of a k message.now))) }
    ensures status { result ≡ status_of YZ_UNKNOWN_CONTEXT (digest_named key.now.algorithm) (λ a.
        record no_cause { unspecified = not (is_raw_tag a key.now message.now tag.now) }) }
{
    match key.key() {
        Some(key) => verify_tag(&key, message, tag),
        None => UNKNOWN_CONTEXT,
    }
}

/// Starts in `context` the tag under `key` of a message that arrives in pieces (RFC 2104, section
/// 2).
///
/// Refused as `UNKNOWN_CONTEXT` where the numbers are no key's. `context` is then unchanged.
#[unsafe(no_mangle)]
#[tactic(auto, using(ring::proofs::lemmas::raw::Numbers::has_begun))]
pub extern "C" fn yz_hmac_init(key: &RawKey, context: &mut RawTagContext) -> i32
    ensures ok { (a : digest.Algorithm) (k : List ℕ) → RawKeyStandsFor key.now a k
        → result ≡ YZ_OK × RawTagStandsFor context.new a k [] }
    ensures any { result ≡ YZ_OK → HasBegun key.now context.new }
    ensures sized { (a : digest.Algorithm) → digest_named key.now.algorithm ≡ Some a
        → result ≡ YZ_OK → AreWords a context.new.inner.words × AreWords a context.new.outer }
    ensures clear { result ≡ YZ_OK → context.new.inner.pending ≡ replicate 128 0 }
    ensures status { result
        ≡ status_of YZ_UNKNOWN_CONTEXT (digest_named key.now.algorithm) (λ a. no_cause) }
    ensures unchanged { result ≢ YZ_OK → context.new ≡ context.old }
{
    let Some(signing_key) = key.key() else {
        return UNKNOWN_CONTEXT;
    };
    *context = RawTagContext::new(&Context::with_key(&signing_key));
    OK
}

/// Adds `input` to the message of `context` (RFC 2104, section 2).
///
/// Refused as `UNKNOWN_CONTEXT` where the numbers are no context's, which are then unchanged. Where
/// the message is too long, [`yz_hmac_final`] is refused.
#[unsafe(no_mangle)]
#[tactic(auto, unfolding(ring::specs::Raw::named_block_len))]
pub extern "C" fn yz_hmac_update(context: &mut RawTagContext, input: &[u8]) -> i32
    ensures ok { (a : digest.Algorithm) (k m : List ℕ) → RawTagStandsFor context.old a k m
        → result ≡ YZ_OK × RawTagStandsFor context.new a k (m ++ input.now) }
    ensures any { result ≡ YZ_OK → TagHasAdded context.old context.new input.now }
    ensures status { result
        ≡ status_of YZ_UNKNOWN_CONTEXT (digest_named context.old.inner.algorithm) (λ a.
        record no_cause { unknown_context = is_no_tag_context context.old }) }
    ensures unchanged { result ≢ YZ_OK → context.new ≡ context.old }
{
    if !context.update_counted(input, &mut Meter::new()) {
        return UNKNOWN_CONTEXT;
    }
    OK
}

/// Writes the tag of the message of `context` to `out` (RFC 2104, section 2). The context is
/// unchanged, and more input may follow.
///
/// Refused as `UNKNOWN_CONTEXT`, as `WRONG_LENGTH` where `out` has not the length of a tag, and as
/// `UNSPECIFIED` where the message is too long. `out` is then unchanged.
#[unsafe(no_mangle)]
pub extern "C" fn yz_hmac_final(context: &RawTagContext, out: &mut [u8]) -> i32
    ensures ok { (a : digest.Algorithm) (k m : List ℕ) → RawTagStandsFor context.now a k m
        → result ≡ YZ_OK → out.new ≡ hmac_of a k m }
    ensures any { WritesBytes YZ_UNKNOWN_CONTEXT (digest_named context.now.inner.algorithm)
        (λ a. raw_tag_with a context.now [] (raw_message_len context.now.inner))
        (λ a. record no_cause {
          unknown_context = is_no_tag_context context.now;
          wrong_length = not (length out.old == output_len a);
          unspecified = not (fits a (raw_message_len context.now.inner));
        }) out.old out.new result }
    ensures refused_of { (a : digest.Algorithm) (k m : List ℕ)
        → RawTagStandsFor context.now a k m → length out.old ≡ output_len a
        → (result ≡ YZ_OK ↔ IsTagWithin a (length m)) }
{
    let Some(named) = context.algorithm() else {
        return UNKNOWN_CONTEXT;
    };
    if out.len() != named.output_len() {
        return WRONG_LENGTH;
    }
    match &context.finish_counted(&mut Meter::new()) {
        Some(Ok(tag)) => {
            out.copy_from_slice(tag.as_ref());
            OK
        }
        _ => UNSPECIFIED,
    }
}
