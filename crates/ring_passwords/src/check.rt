// SPDX-License-Identifier: ISC
//! A password is tested against a text: both are lines of standard input.

ghost use Rattle.std.specs.Prelude.{◌≡◌, ◌≢◌, ◌⊎◌, []};
ghost use Rattle.std.specs.Prelude.{IfErr, IfOk, IfSome, IsErrOf, IsOk, OnOk};
ghost use Rattle.std.specs.Io.BufRead.{DropsThrough, drop_through, first_piece};
ghost use Rattle.ring_password_hash.specs.Stored.{IsStored, IsTextOf, Parts, parts_of};
ghost use Rattle.ring_passwords.specs.Check.{HasTextAndPassword, IsTest, IsTextWhere, IsWithin};
ghost use Rattle.ring_passwords.specs.Failure.{IsNoPassword, IsNoStored, IsNoText, IsNotRight};

use crate::encode::is_prepared;
use crate::failure::Failure;
use crate::password::{read_password, read_text};
use ring::cost::Meter;
use ring_password_hash::Stored;
use std::alloc::Global;
use std::io::BufRead;
use std::num::NonZeroU32;

/// Refuses more iterations than `most`.
fn require_iterations(stored: &Stored, most: NonZeroU32) -> Result<(), Failure>
    ensures ok { OnOk result (IsWithin (parts_of stored.now) most) }
    ensures refused { IfErr result (λ failure. (failure ≡ Failure.TooManyIterations)
        × ¬ (IsWithin (parts_of stored.now) most)) }
{
    if stored.iterations().get() > most.get() {
        return Err(Failure::TooManyIterations);
    }
    Ok(())
}

/// Reads the text, and what it is of. Its iterations are at most `most`.
fn read_stored<R: BufRead>(
    alloc: Global,
    reader: &mut R,
    most: NonZeroU32,
) -> Result<Stored, Failure>
    ensures ok { IfOk result (λ stored. IsStored stored × IsWithin (parts_of stored) most) }
    ensures text { IfOk result (λ stored. IfSome (R.remaining reader.old)
        (λ bytes. IsTextOf (parts_of stored) (first_piece 10 bytes))) }
    ensures some { OnOk result (IfSome (R.remaining reader.old) (λ bytes. bytes ≢ [])) }
    ensures rest { OnOk result
        (DropsThrough (R.remaining reader.old) (R.remaining reader.new) 10) }
    ensures no_text { IsErrOf result Failure.NoText
        → IfSome (R.remaining reader.old) (λ bytes. bytes ≡ []) }
    ensures not_a_text { IsErrOf result Failure.NotAText → IfSome (R.remaining reader.old)
        (λ bytes. (h : Parts) → ¬ (IsTextOf h (first_piece 10 bytes))) }
    ensures too_many { IsErrOf result Failure.TooManyIterations
        → IfSome (R.remaining reader.old) (λ bytes. IsTextWhere (first_piece 10 bytes)
        (λ h. ¬ (IsWithin h most))) }
    ensures failure { IfErr result (λ failure. IsNoText failure ⊎ IsNoStored failure) }
{
    let text = read_text(alloc, reader)?;
    let Ok(stored) = Stored::parse(&text) else {
        return Err(Failure::NotAText);
    };
    require_iterations(&stored, most)?;
    Ok(stored)
}

/// Tests a password against what a text keeps, whose iterations are at most `most`. `meter` counts
/// the blocks and the compared pairs of bytes: none where the password has to be prepared.
fn test(
    stored: &Stored,
    password: &[u8],
    most: NonZeroU32,
    meter: &mut Meter,
) -> Result<(), Failure>
    requires stored { IsStored stored.now }
    requires within { IsWithin (parts_of stored.now) most }
    ensures tested { IsTest (parts_of stored.now) password.now most meter.old meter.new result }
    ensures failure { IfErr result IsNotRight }
{
    if !is_prepared(stored.scheme(), password) {
        return Err(Failure::NeedsPreparation);
    }
    match stored.verify_counted(password, most.get(), meter) {
        Ok(()) => Ok(()),
        Err(_) => Err(Failure::WrongPassword),
    }
}

/// Tests the password of the second line against the text of the first one, whose iterations are at
/// most `most`. Before the second line is read, the text is found to be one. `meter` counts the
/// blocks and the compared pairs of bytes: none where the password isn't tested.
pub fn check<R: BufRead>(
    alloc: Global,
    reader: &mut R,
    most: NonZeroU32,
    meter: &mut Meter,
) -> Result<(), Failure>
    ensures tested { (IsOk result ⊎ IsErrOf result Failure.WrongPassword
        ⊎ IsErrOf result Failure.NeedsPreparation)
        → HasTextAndPassword (R.remaining reader.old) most
        (λ h password. IsTest h password most meter.old meter.new result) }
    ensures no_password { IsErrOf result Failure.NoPassword → IfSome (R.remaining reader.old)
        (λ bytes. (bytes ≢ []) × (drop_through 10 bytes ≡ [])) }
    ensures no_text { IsErrOf result Failure.NoText
        → IfSome (R.remaining reader.old) (λ bytes. bytes ≡ []) }
    ensures not_a_text { IsErrOf result Failure.NotAText → IfSome (R.remaining reader.old)
        (λ bytes. (h : Parts) → ¬ (IsTextOf h (first_piece 10 bytes))) }
    ensures too_many { IsErrOf result Failure.TooManyIterations
        → IfSome (R.remaining reader.old) (λ bytes. IsTextWhere (first_piece 10 bytes)
        (λ h. ¬ (IsWithin h most))) }
    ensures failure { IfErr result (λ failure. IsNoText failure ⊎ IsNoStored failure
        ⊎ IsNoPassword failure ⊎ IsNotRight failure) }
    ensures cost_untested { IfErr result (λ failure. failure ≢ Failure.WrongPassword
        → meter.new ≡ meter.old) }
{
    let stored = read_stored(alloc, reader, most)?;
    let password = read_password(alloc, reader)?;
    test(&stored, &password, most, meter)
}
