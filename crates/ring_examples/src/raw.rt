// SPDX-License-Identifier: ISC
//! Contexts and keys that are kept as plain numbers between two calls.

ghost use Rattle.std.specs.Prelude.{◌≡◌, ◌↔◌, ◌<◌, ℕ, List, ◌++◌, length, None, Some};
ghost use Rattle.std.specs.Prelude.{IfOk, IfSome, IsErr, IsFalse, IsNone, IsOk, IsSomeAnd, IsTrue};
ghost use Rattle.ring.specs.Prelude.{IsDigest, IsNoContext, IsNoKey, IsNoTagContext, IsTag};
ghost use Rattle.ring.specs.Prelude.{IsTagWithin, KeyStandsFor, RawKeyStandsFor, RawStandsFor};
ghost use Rattle.ring.specs.Prelude.{RawTagStandsFor, digest_named, hmac_digest, key_algorithm};
ghost use Rattle.ring.specs.Prelude.{max_input_len, raw_tag_under};
ghost use Rattle.ring.specs.declared.digest.algorithm.Algorithm as digest;

use ring::digest::{Algorithm, Context, Digest, digest};
use ring::error::Unspecified;
use ring::hmac::{self, Key, Tag, sign, verify};
use ring::raw::{RawContext, RawKey, RawTagContext, digest_of_number, number_of_digest};

/// The numbers of a context that has taken `input`.
pub fn begin_raw(algorithm: &Algorithm, input: &[u8]) -> RawContext
    ensures stands { RawStandsFor result algorithm.now input.now }
{
    let mut context = Context::new(algorithm);
    context.update(input);
    RawContext::new(&context)
}

/// The digest of what the numbers of a context stand for and then `rest`: `None` where they are no
/// context's.
pub fn finish_raw(numbers: &RawContext, rest: &[u8]) -> Option<Result<Digest, Unspecified>>
    ensures ok { (a : digest.Algorithm) (m : List ℕ) → RawStandsFor numbers.now a m
        → IsSomeAnd result (λ made. IfOk made (λ digest. IsDigest digest a (m ++ rest.now))) }
    ensures refused { (a : digest.Algorithm) (m : List ℕ) → RawStandsFor numbers.now a m
        → IsSomeAnd result (λ made. IsErr made ↔ (max_input_len a < length (m ++ rest.now))) }
    ensures none { IsNone result ↔ IsNoContext numbers.now }
{
    let mut context = numbers.context()?;
    context.update(rest);
    Some(context.finish())
}

/// Adds `input` to the message that the numbers of a context stand for. False, and the numbers as
/// they were, where they are no context's.
pub fn add_raw(numbers: &mut RawContext, input: &[u8]) -> bool
    ensures stands { (a : digest.Algorithm) (m : List ℕ) → RawStandsFor numbers.old a m
        → RawStandsFor numbers.new a (m ++ input.now) }
    ensures none { IsFalse result ↔ IsNoContext numbers.old }
    ensures unchanged { IsFalse result → numbers.new ≡ numbers.old }
{
    if numbers.keep(input) {
        return true;
    }
    let Some(mut context) = numbers.context() else {
        return false;
    };
    context.update(input);
    *numbers = RawContext::new(&context);
    true
}

/// The numbers of the key that is made of `value`.
pub fn raw_key_of(algorithm: hmac::Algorithm, value: &[u8]) -> Result<RawKey, Unspecified>
    ensures ok { IfOk result (λ numbers.
        RawKeyStandsFor numbers (hmac_digest algorithm) value.now) }
    ensures refused { IsErr result ↔ (max_input_len (hmac_digest algorithm) < length value.now) }
{
    Ok(RawKey::new(&Key::new(algorithm, value)?))
}

/// The tag of a message under the key that the numbers stand for: `None` where they are no key's.
pub fn tag_under_raw(numbers: &RawKey, message: &[u8]) -> Option<Result<Tag, Unspecified>>
    ensures ok { (a : digest.Algorithm) (k : List ℕ) → RawKeyStandsFor numbers.now a k
        → IsSomeAnd result (λ made. IfOk made (λ tag. IsTag tag a k message.now)) }
    ensures refused { (a : digest.Algorithm) (k : List ℕ) → RawKeyStandsFor numbers.now a k
        → IsSomeAnd result (λ made. IsOk made ↔ IsTagWithin a (length message.now)) }
    ensures none { IsNone result ↔ IsNoKey numbers.now }
{
    let key = numbers.key()?;
    Some(sign(&key, message))
}

/// Whether `tag` is the tag of a message under the numbers of any key, also of one that no call
/// made: `None` where they are no key's.
pub fn verify_under_raw(
    numbers: &RawKey,
    message: &[u8],
    tag: &[u8],
) -> Option<Result<(), Unspecified>>
    ensures any { (a : digest.Algorithm) → digest_named numbers.now.algorithm ≡ Some a
        → IsSomeAnd result (λ verified. IsOk verified ↔ (IsTagWithin a (length message.now)
        × (tag.now ≡ raw_tag_under a numbers.now message.now))) }
    ensures none { IsNone result ↔ IsNoKey numbers.now }
{
    let key = numbers.key()?;
    Some(verify(&key, message, tag))
}

/// The numbers of a tag's context that has taken `input`.
pub fn begin_raw_tag(key: &Key, input: &[u8]) -> RawTagContext
    ensures stands { (k : List ℕ) → KeyStandsFor key.now k
        → RawTagStandsFor result (key_algorithm key.now) k input.now }
{
    let mut context = hmac::Context::with_key(key);
    context.update(input);
    RawTagContext::new(&context)
}

/// Adds `input` to the message that the numbers of a tag's context stand for. False, and the
/// numbers as they were, where they are no context's.
pub fn add_raw_tag(numbers: &mut RawTagContext, input: &[u8]) -> bool
    ensures stands { (a : digest.Algorithm) (k m : List ℕ) → RawTagStandsFor numbers.old a k m
        → RawTagStandsFor numbers.new a k (m ++ input.now) }
    ensures none { IsFalse result ↔ IsNoTagContext numbers.old }
    ensures unchanged { IsFalse result → numbers.new ≡ numbers.old }
{
    if numbers.keep(input) {
        return true;
    }
    let Some(mut tag_context) = numbers.context() else {
        return false;
    };
    tag_context.update(input);
    *numbers = RawTagContext::new(&tag_context);
    true
}

/// The tag of what the numbers of a context stand for: `None` where they are no context's.
pub fn finish_raw_tag(numbers: &RawTagContext) -> Option<Result<Tag, Unspecified>>
    ensures ok { (a : digest.Algorithm) (k m : List ℕ) → RawTagStandsFor numbers.now a k m
        → IsSomeAnd result (λ made. IfOk made (λ tag. IsTag tag a k m)) }
    ensures refused { (a : digest.Algorithm) (k m : List ℕ) → RawTagStandsFor numbers.now a k m
        → IsSomeAnd result (λ made. IsOk made ↔ IsTagWithin a (length m)) }
    ensures none { IsNone result ↔ IsNoTagContext numbers.now }
{
    let context = numbers.context()?;
    Some(context.sign())
}

/// The digest of a message by the algorithm of a number: `None` where it names none.
pub fn digest_by_number(number: u32, message: &[u8]) -> Option<Result<Digest, Unspecified>>
    ensures ok { (a : digest.Algorithm) → digest_named number ≡ Some a
        → IsSomeAnd result (λ made. IfOk made (λ digest. IsDigest digest a message.now)) }
    ensures refused { (a : digest.Algorithm) → digest_named number ≡ Some a
        → IsSomeAnd result (λ made. IsErr made ↔ (max_input_len a < length message.now)) }
    ensures none { IsNone result ↔ (digest_named number ≡ None) }
{
    let algorithm = digest_of_number(number)?;
    Some(digest(&algorithm, message))
}

/// The number of the algorithm of a digest, to be kept beside its bytes.
pub fn number_beside(stored: &Digest) -> u32
    ensures { (a : digest.Algorithm) (m : List ℕ) → IsDigest stored.now a m
        → digest_named result ≡ Some a }
{
    number_of_digest(&stored.algorithm())
}
