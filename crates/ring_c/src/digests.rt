// SPDX-License-Identifier: ISC
//! Digests (FIPS 180-4).

ghost use Rattle.std.specs.Prelude.{◌≡◌, ◌≢◌, ◌↔◌, ◌++◌, [], ℕ, List, Some, length, ◌==◌, not};
ghost use Rattle.std.specs.Prelude.{replicate};
ghost use Rattle.ring.specs.Algorithm.{output_len};
ghost use Rattle.ring.specs.Digest.{digest_of};
ghost use Rattle.ring.specs.Limits.{IsMessageWithin, fits};
ghost use Rattle.ring.specs.Raw.{AreWords, HasAdded, RawStandsFor, digest_named};
ghost use Rattle.ring.specs.Raw.{raw_digest_with, raw_message_len};
ghost use Rattle.ring.specs.declared.digest.algorithm.Algorithm.{Algorithm};
ghost use Rattle.ring_c.specs.Gives.{WritesBytes};
ghost use Rattle.ring_c.specs.Limits.{is_no_context};
ghost use Rattle.ring_c.specs.Status.{YZ_OK, YZ_UNKNOWN_ALGORITHM, YZ_UNKNOWN_CONTEXT, no_cause};
ghost use Rattle.ring_c.specs.Status.{status_of};

use crate::status::{OK, UNKNOWN_ALGORITHM, UNKNOWN_CONTEXT, UNSPECIFIED, WRONG_LENGTH};
use ring::cost::Meter;
use ring::digest::{self, Context};
use ring::raw::{RawContext, digest_of_number};

/// Writes the digest of `message` to `out`, by the digest algorithm of the number `algorithm` (FIPS
/// 180-4, section 6).
///
/// Refused as `UNKNOWN_ALGORITHM`, as `WRONG_LENGTH` where `out` has not the length of a digest,
/// and as `UNSPECIFIED` where the message is too long. `out` is then unchanged.
#[unsafe(no_mangle)]
pub extern "C" fn yz_digest(algorithm: u32, message: &[u8], out: &mut [u8]) -> i32
    ensures { WritesBytes YZ_UNKNOWN_ALGORITHM (digest_named algorithm)
        (λ a. digest_of a message.now) (λ a. record no_cause {
          wrong_length = not (length out.old == output_len a);
          unspecified = not (fits a (length message.now));
        }) out.old out.new result }
{
    let Some(algorithm) = digest_of_number(algorithm) else {
        return UNKNOWN_ALGORITHM;
    };
    if out.len() != algorithm.output_len() {
        return WRONG_LENGTH;
    }
    // It is read where it stands, since a binding of it would be a copy.
    match &digest::digest(&algorithm, message) {
        Ok(made) => {
            out.copy_from_slice(made.as_ref());
            OK
        }
        Err(_) => UNSPECIFIED,
    }
}

/// Starts in `context` the digest of a message that arrives in pieces, by the digest algorithm of
/// the number `algorithm` (FIPS 180-4, section 5.3).
///
/// Refused as `UNKNOWN_ALGORITHM`. `context` is then unchanged.
#[unsafe(no_mangle)]
pub extern "C" fn yz_digest_init(algorithm: u32, context: &mut RawContext) -> i32
    ensures ok { (a : Algorithm) → digest_named algorithm ≡ Some a
        → RawStandsFor context.new a [] }
    ensures sized { (a : Algorithm) → digest_named algorithm ≡ Some a → result ≡ YZ_OK
        → AreWords a context.new.words }
    ensures clear { result ≡ YZ_OK → context.new.pending ≡ replicate 128 0 }
    ensures status { result
        ≡ status_of YZ_UNKNOWN_ALGORITHM (digest_named algorithm) (λ a. no_cause) }
    ensures unchanged { result ≢ YZ_OK → context.new ≡ context.old }
{
    let Some(algorithm) = digest_of_number(algorithm) else {
        return UNKNOWN_ALGORITHM;
    };
    *context = RawContext::new(&Context::new(&algorithm));
    OK
}

/// Adds `input` to the message of `context` (FIPS 180-4, section 6).
///
/// Refused as `UNKNOWN_CONTEXT` where the numbers are no context's, which are then unchanged. Where
/// the message is too long, [`yz_digest_final`] is refused.
#[unsafe(no_mangle)]
#[tactic(auto, unfolding(ring::specs::Raw::named_block_len))]
pub extern "C" fn yz_digest_update(context: &mut RawContext, input: &[u8]) -> i32
    ensures ok { (a : Algorithm) (m : List ℕ) → RawStandsFor context.old a m
        → result ≡ YZ_OK × RawStandsFor context.new a (m ++ input.now) }
    ensures any { result ≡ YZ_OK → HasAdded context.old context.new input.now }
    ensures status { result
        ≡ status_of YZ_UNKNOWN_CONTEXT (digest_named context.old.algorithm) (λ a.
        record no_cause { unknown_context = is_no_context context.old }) }
    ensures unchanged { result ≢ YZ_OK → context.new ≡ context.old }
{
    if !context.update_counted(input, &mut Meter::new()) {
        return UNKNOWN_CONTEXT;
    }
    OK
}

/// Writes the digest of the message of `context` to `out` (FIPS 180-4, section 6). The context is
/// unchanged, and more input may follow.
///
/// Refused as `UNKNOWN_CONTEXT`, as `WRONG_LENGTH` where `out` has not the length of a digest, and
/// as `UNSPECIFIED` where the message is too long. `out` is then unchanged.
#[unsafe(no_mangle)]
pub extern "C" fn yz_digest_final(context: &RawContext, out: &mut [u8]) -> i32
    ensures ok { (a : Algorithm) (m : List ℕ) → RawStandsFor context.now a m → result ≡ YZ_OK
        → out.new ≡ digest_of a m }
    ensures any { WritesBytes YZ_UNKNOWN_CONTEXT (digest_named context.now.algorithm)
        (λ a. raw_digest_with a context.now [] (raw_message_len context.now))
        (λ a. record no_cause {
          unknown_context = is_no_context context.now;
          wrong_length = not (length out.old == output_len a);
          unspecified = not (fits a (raw_message_len context.now));
        }) out.old out.new result }
    ensures refused_of { (a : Algorithm) (m : List ℕ) → RawStandsFor context.now a m
        → length out.old ≡ output_len a → (result ≡ YZ_OK ↔ IsMessageWithin a (length m)) }
{
    let Some(named) = context.algorithm() else {
        return UNKNOWN_CONTEXT;
    };
    if out.len() != named.output_len() {
        return WRONG_LENGTH;
    }
    match &context.finish_counted(&mut Meter::new()) {
        Some(Ok(made)) => {
            out.copy_from_slice(made.as_ref());
            OK
        }
        _ => UNSPECIFIED,
    }
}
