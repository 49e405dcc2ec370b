// SPDX-License-Identifier: ISC
//! The text of a new password in the form of another system: made and written.

ghost use Rattle.std.specs.Prelude.{◌≡◌, ◌↔◌, ◌⊎◌, ◌++◌, ℕ, List, [], ◌∷◌, false, length};
ghost use Rattle.std.specs.Prelude.{IfErr, IfOk, IfSome, IsErrOf, IsNone, IsTrue, OnErr, OnOk};
ghost use Rattle.std.specs.Int.NonZero.{non_zero_u32_get};
ghost use Rattle.std.specs.Io.KnownBytes.{Appends};
ghost use Rattle.ring_password_hash.specs.Scheme.{kept_len_of};
ghost use Rattle.ring_password_hash.specs.Stored.{IsStored, can_keep, new_parts, parts_of, text_of};
ghost use Rattle.ring_passwords.specs.Encode.{IsNotWritten, IsPrepared, advised, salt_of};
ghost use Rattle.ring_passwords.specs.Failure.{IsOfSystem, status_of};
ghost use Rattle.ring_passwords.specs.Output.{AppendsFront};
ghost use Rattle.ring_passwords.specs.Salt.{IsDrawn};
ghost use Rattle.ring_passwords.specs.declared.failure.Step.TheVariants.{WriteText};

use crate::failure::{Failure, Step};
use crate::output::write_whole;
use crate::password::LINE_FEED;
use crate::salt::salt;
use crate::steps::Steps;
use ring_password_hash::salt::{RANDOM_LEN, Salt};
use ring_password_hash::{MAX_TEXT_LEN, Scheme, Stored, needs_preparation};
use std::io::Write;
use std::num::NonZeroU32;

/// The iterations where none are given, as OWASP advises them for PBKDF2 with HMAC (Password
/// Storage Cheat Sheet, 2023): under SHA-1, under SHA-256, and under SHA-512.
const ADVISED_SHA1: u32 = 1_300_000;

const ADVISED_SHA256: u32 = 600_000;

const ADVISED_SHA512: u32 = 210_000;

/// The iterations that are advised for a scheme, by its digest.
fn advised(scheme: Scheme) -> NonZeroU32
    ensures { non_zero_u32_get result ≡ advised scheme }
{
    let iterations = match scheme {
        Scheme::DjangoSha1 | Scheme::PasslibSha1 | Scheme::WerkzeugSha1 => ADVISED_SHA1,
        Scheme::WerkzeugSha512 | Scheme::PhcSha512 => ADVISED_SHA512,
        Scheme::Mosquitto | Scheme::PasslibSha512 => ADVISED_SHA512,
        _ => ADVISED_SHA256,
    };
    NonZeroU32::new(iterations).unwrap()
}

/// The iterations of a new text: those that are given, or else those that are advised.
pub fn iterations_of_text(scheme: Scheme, given: Option<NonZeroU32>) -> NonZeroU32
    ensures given { IfSome given (λ iterations. result ≡ iterations) }
    ensures advised { IsNone given → non_zero_u32_get result ≡ advised scheme }
{
    given.unwrap_or(advised(scheme))
}

/// Whether a password is its own preparation, where the scheme's system prepares it.
pub fn is_prepared(scheme: Scheme, password: &[u8]) -> bool
    ensures { IsTrue result ↔ IsPrepared scheme password.now }
{
    match scheme {
        Scheme::Postgresql => !needs_preparation(password),
        _ => true,
    }
}

/// What the scheme's system keeps of a password, under the salt that `random` makes.
fn new_value(
    scheme: Scheme,
    password: &[u8],
    iterations: NonZeroU32,
    random: [u8; RANDOM_LEN],
) -> Result<Stored, Failure>
    ensures ok { IfOk result (λ stored. IsStored stored
        × (parts_of stored ≡ new_parts scheme password.now (salt_of scheme random) iterations)) }
    ensures unprepared { IsErrOf result Failure.NeedsPreparation
        ↔ ¬ (IsPrepared scheme password.now) }
    ensures too_long { IsErrOf result Failure.TooLong → can_keep scheme (length password.now)
        (length (salt_of scheme random)) (kept_len_of scheme) ≡ false }
    ensures failure { IfErr result (λ failure.
        (failure ≡ Failure.NeedsPreparation) ⊎ (failure ≡ Failure.TooLong)) }
{
    if !is_prepared(scheme, password) {
        return Err(Failure::NeedsPreparation);
    }
    let salt = Salt::of(scheme, random);
    match Stored::new(scheme, password, salt.as_ref(), iterations, MAX_TEXT_LEN) {
        Ok(stored) => Ok(stored),
        // The salt is one of the scheme's, and the text of each scheme has room with it.
        Err(_) => Err(Failure::TooLong),
    }
}

/// Writes the text of a value, and a line feed.
fn write_text<W: Write>(stored: &Stored, writer: &mut W) -> Result<(), Failure>
    requires { IsStored stored.now }
    ensures written { OnOk result (Appends (W.contents writer.old) (W.contents writer.new)
        (text_of (parts_of stored.now) ++ 10 ∷ [])) }
    ensures cut { OnErr result (AppendsFront (W.contents writer.old) (W.contents writer.new)
        (text_of (parts_of stored.now) ++ 10 ∷ [])) }
    ensures failure { IfErr result (λ failure. IsOfSystem WriteText failure) }
{
    let mut line = [LINE_FEED; MAX_TEXT_LEN + 1];
    let Ok(len) = stored.write_to(&mut line) else {
        unreachable!() // A text has at most MAX_TEXT_LEN bytes.
    };
    match write_whole(writer, &line[..len + 1]) {
        Ok(()) => Ok(()),
        Err(error) => Err(Failure::System(Step::WriteText, error)),
    }
}

/// Writes the text of a new value for the scheme's system, and a line feed. The value is of the
/// password under the salt that `random` makes, which should be random.
pub fn encode<W: Write>(
    scheme: Scheme,
    password: &[u8],
    iterations: NonZeroU32,
    random: [u8; RANDOM_LEN],
    writer: &mut W,
) -> Result<(), Failure>
    ensures ok { OnOk result (Appends (W.contents writer.old) (W.contents writer.new)
        (text_of (new_parts scheme password.now (salt_of scheme random) iterations) ++ 10 ∷ [])) }
    ensures unprepared { IsErrOf result Failure.NeedsPreparation
        ↔ ¬ (IsPrepared scheme password.now) }
    ensures too_long { IsErrOf result Failure.TooLong → can_keep scheme (length password.now)
        (length (salt_of scheme random)) (kept_len_of scheme) ≡ false }
    ensures failure { IfErr result (λ failure. (failure ≡ Failure.NeedsPreparation)
        ⊎ (failure ≡ Failure.TooLong) ⊎ IsOfSystem WriteText failure) }
    ensures unchanged { IfErr result (λ failure. ¬ (IsOfSystem WriteText failure)
        → W.contents writer.new ≡ W.contents writer.old) }
    ensures cut { IfErr result (λ failure. IsOfSystem WriteText failure
        → AppendsFront (W.contents writer.old) (W.contents writer.new)
        (text_of (new_parts scheme password.now (salt_of scheme random) iterations) ++ 10 ∷ [])) }
{
    let stored = new_value(scheme, password, iterations, random)?;
    write_text(&stored, writer)
}

/// Writes the text as [`encode`] does, under a random salt.
pub fn encode_salted<S: Steps, W: Write>(
    steps: &mut S,
    scheme: Scheme,
    password: &[u8],
    iterations: NonZeroU32,
    writer: &mut W,
) -> Result<(), Failure>
    ensures ok { OnOk result ((salt : List ℕ)
        × IsDrawn (S.events steps.old) (S.events steps.new) salt
        × Appends (W.contents writer.old) (W.contents writer.new)
        (text_of (new_parts scheme password.now (salt_of scheme salt) iterations) ++ 10 ∷ [])) }
    ensures refused { IfErr result (λ failure. IsNotWritten (S.events steps.old)
        (S.events steps.new) scheme password.now failure) }
    ensures unchanged { IfErr result (λ failure. ¬ (IsOfSystem WriteText failure)
        → W.contents writer.new ≡ W.contents writer.old) }
    ensures cut { IfErr result (λ failure. IsOfSystem WriteText failure → (salt : List ℕ)
        × IsDrawn (S.events steps.old) (S.events steps.new) salt
        × AppendsFront (W.contents writer.old) (W.contents writer.new)
        (text_of (new_parts scheme password.now (salt_of scheme salt) iterations) ++ 10 ∷ [])) }
    ensures status { IfErr result (λ failure. status_of failure ≡ 2) }
{
    let random = salt(steps)?;
    encode(scheme, password, iterations, random, writer)
}
