// SPDX-License-Identifier: ISC
//! How many bytes of a run are read and are to come, and the text that shows it.

ghost use Rattle.std.specs.Prelude.{◌≡◌, ◌+◌, ◌-◌, ◌^◌, ◌<◌, ◌++◌, IfSome, IsFalse, IsNone, IsSome};
ghost use Rattle.std.specs.Prelude.{IsTrue, OnOk, decimal};
ghost use Rattle.ring_sums.specs.Amounts.{amount, clock, in_tenths, left_text, rate_of, read_text};
ghost use Rattle.ring_sums.specs.Amounts.{shown, time_left, two_digits};

use itoa::Buffer;
use std::alloc::AllocError;

/// How many bytes are read, and how many are to come by the lengths that files had.
#[derive(Clone, Copy)]
pub(crate) struct Amounts {
    pub(crate) done: u64,
    pub(crate) left: u64,
    /// Whether a file's length is not known before it is read.
    pub(crate) is_open: bool,
}

impl Amounts {
    /// Those of a run without files.
    pub(crate) fn none() -> Amounts
        ensures done { result.done ≡ 0 }
        ensures left { result.left ≡ 0 }
        ensures open { IsFalse result.is_open }
    {
        Amounts {
            done: 0,
            left: 0,
            is_open: false,
        }
    }

    /// A file of this length will be read; of `None`, one whose length is not known.
    pub(crate) fn expect(&mut self, len: Option<u64>)
        ensures done { self.new.done ≡ self.old.done }
        ensures left { IfSome len (λ count. self.old.left + count < 2 ^ 64
            → self.new.left ≡ self.old.left + count) }
        ensures known { IsSome len → self.new.is_open ≡ self.old.is_open }
        ensures unknown { IsNone len → IsTrue self.new.is_open × (self.new.left ≡ self.old.left) }
    {
        match len {
            Some(len) => self.left = self.left.saturating_add(len),
            None => self.is_open = true,
        }
    }

    /// `count` bytes were read of a file that was to give `rest`.
    pub(crate) fn add(&mut self, rest: &mut u64, count: u64)
        ensures done { self.old.done + count < 2 ^ 64 → self.new.done ≡ self.old.done + count }
        ensures rest { rest.new ≡ rest.old - count }
        ensures left { self.new.left ≡ self.old.left - (rest.old - rest.new) }
        ensures open { self.new.is_open ≡ self.old.is_open }
    {
        let expected = count.min(*rest);
        self.done = self.done.saturating_add(count);
        self.left = self.left.saturating_sub(expected);
        *rest -= expected;
    }

    /// A file that was to give `rest` gives no more.
    pub(crate) fn end(&mut self, rest: &mut u64)
        ensures done { self.new.done ≡ self.old.done }
        ensures rest { rest.new ≡ 0 }
        ensures left { self.new.left ≡ self.old.left - rest.old }
        ensures open { self.new.is_open ≡ self.old.is_open }
    {
        self.left = self.left.saturating_sub(*rest);
        *rest = 0;
    }
}

/// The tenths of a unit, in bytes.
const TENTH_OF_KILO: u128 = 100;

const TENTH_OF_MEGA: u128 = 100_000;

const TENTH_OF_GIGA: u128 = 100_000_000;

const TENTH_OF_TERA: u128 = 100_000_000_000;

const SECONDS_IN_A_MINUTE: u128 = 60;

const SECONDS_IN_AN_HOUR: u128 = 3_600;

const MILLIS_IN_A_SECOND: u128 = 1_000;

/// Appends a number in decimal.
fn append_decimal(out: &mut Vec<u8>, number: u128) -> Result<(), AllocError>
    ensures { OnOk result (out.new.items ≡ out.old.items ++ decimal number) }
{
    out.extend_from_slice(Buffer::new().format(number).as_bytes())
}

/// Appends a number of tenths of a unit, and the unit.
fn append_tenths(out: &mut Vec<u8>, number: u128, unit: &[u8]) -> Result<(), AllocError>
    ensures { OnOk result (out.new.items ≡ out.old.items ++ in_tenths number unit.now) }
{
    append_decimal(out, number / 10)?;
    out.push(b'.')?;
    append_decimal(out, number % 10)?;
    out.extend_from_slice(unit)
}

/// Appends a number of bytes with its unit.
fn append_amount(out: &mut Vec<u8>, bytes: u128) -> Result<(), AllocError>
    ensures { OnOk result (out.new.items ≡ out.old.items ++ amount bytes) }
{
    if bytes < 10 * TENTH_OF_KILO {
        append_decimal(out, bytes)?;
        out.extend_from_slice(b" B")
    } else if bytes < 10 * TENTH_OF_MEGA {
        append_tenths(out, bytes / TENTH_OF_KILO, b" kB")
    } else if bytes < 10 * TENTH_OF_GIGA {
        append_tenths(out, bytes / TENTH_OF_MEGA, b" MB")
    } else if bytes < 10 * TENTH_OF_TERA {
        append_tenths(out, bytes / TENTH_OF_GIGA, b" GB")
    } else {
        append_tenths(out, bytes / TENTH_OF_TERA, b" TB")
    }
}

/// Appends a number of two digits.
fn append_two_digits(out: &mut Vec<u8>, number: u8) -> Result<(), AllocError>
    requires { number < 100 }
    ensures { OnOk result (out.new.items ≡ out.old.items ++ two_digits number) }
{
    out.push(b'0' + number / 10)?;
    out.push(b'0' + number % 10)?;
    Ok(())
}

/// Appends hours, minutes and seconds.
fn append_clock(out: &mut Vec<u8>, seconds: u128) -> Result<(), AllocError>
    ensures { OnOk result (out.new.items ≡ out.old.items ++ clock seconds) }
{
    append_decimal(out, seconds / SECONDS_IN_AN_HOUR)?;
    out.push(b':')?;
    append_two_digits(
        out,
        (seconds / SECONDS_IN_A_MINUTE % SECONDS_IN_A_MINUTE) as u8,
    )?;
    out.push(b':')?;
    append_two_digits(out, (seconds % SECONDS_IN_A_MINUTE) as u8)
}

/// Bytes a second, of so many in so many milliseconds.
fn rate_of(done: u64, millis: u64) -> u128
    requires { 0 < millis }
    ensures { result ≡ rate_of done millis }
{
    u128::from(done) * MILLIS_IN_A_SECOND / u128::from(millis)
}

/// The seconds in which the rest is read, as fast as what is read.
fn time_left(done: u64, left: u64, millis: u64) -> u128
    requires { 0 < done }
    ensures { result ≡ time_left done left millis }
{
    u128::from(left) * u128::from(millis) / (u128::from(done) * MILLIS_IN_A_SECOND)
}

/// Appends how much is read of how much, as far as that is known.
fn append_read(out: &mut Vec<u8>, amounts: &Amounts) -> Result<(), AllocError>
    ensures { OnOk result (out.new.items ≡ out.old.items ++ read_text amounts.now) }
{
    append_amount(out, u128::from(amounts.done))?;
    if !amounts.is_open {
        out.extend_from_slice(b" of ")?;
        append_amount(out, u128::from(amounts.done) + u128::from(amounts.left))?;
    }
    Ok(())
}

/// Appends how long it still takes, as far as that is known.
fn append_left(out: &mut Vec<u8>, amounts: &Amounts, millis: u64) -> Result<(), AllocError>
    ensures { OnOk result (out.new.items ≡ out.old.items ++ left_text amounts.now millis) }
{
    if amounts.is_open || amounts.done == 0 {
        return Ok(());
    }
    out.extend_from_slice(b", ")?;
    append_clock(out, time_left(amounts.done, amounts.left, millis))?;
    out.extend_from_slice(b" left")
}

/// Appends how far a run is after so many milliseconds.
pub(crate) fn append_shown(
    out: &mut Vec<u8>,
    amounts: &Amounts,
    millis: u64,
) -> Result<(), AllocError>
    requires { 0 < millis }
    ensures { OnOk result (out.new.items ≡ out.old.items ++ shown amounts.now millis) }
{
    append_read(out, amounts)?;
    out.extend_from_slice(b", ")?;
    append_amount(out, rate_of(amounts.done, millis))?;
    out.extend_from_slice(b"/s")?;
    append_left(out, amounts, millis)
}
