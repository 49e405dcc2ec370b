// SPDX-License-Identifier: ISC
//! Numbers of 64 bits in decimal.

ghost use Rattle.std.specs.Prelude.{◌≡◌, ◌≢◌, ℕ, ◌<◌, ◌^◌, IfSome, IsNone};
ghost use Rattle.std.specs.Fmt.{decimal};
ghost use Rattle.std.specs.Str.Parse.{AllDigits, digits_value};

use crate::same::is_same;
use itoa::Buffer;

// The number that digits write, if it is below 2^64. Other bytes give any number.
fn value_of(digits: &[u8]) -> u64
    ensures { AllDigits 10 digits.now → digits_value 10 digits.now < 2 ^ 64
        → result ≡ digits_value 10 digits.now }
{
    let mut value = 0_u64;
    for at in 0..digits.len() {
        let digit = digits[at].saturating_sub(b'0');
        value = value.wrapping_mul(10).wrapping_add(u64::from(digit));
    }
    value
}

/// The number below 2^64 that `digits` write in decimal, without a sign or a leading zero. `None`
/// if they write none.
pub fn number_in(digits: &[u8]) -> Option<u64>
    ensures ok { IfSome result (λ n. (digits.now ≡ decimal n) × (n < 2 ^ 64)) }
    ensures refused { IsNone result → (n : ℕ) → n < 2 ^ 64 → digits.now ≢ decimal n }
{
    let value = value_of(digits);
    if !is_same(Buffer::new().format(value).as_bytes(), digits) {
        return None;
    }
    Some(value)
}
