// SPDX-License-Identifier: ISC
//! New salts, from a source of random bytes.

ghost use Rattle.std.specs.Prelude.{◌≡◌, ◌↔◌, ◌/◌, ◌%◌, true, false, IfOk, IsErr, OnErr};
ghost use Rattle.ring_password_hash.specs.Salt.{IsNext, letters, salt_bytes, salt_from};
ghost use Rattle.ring_password_hash.specs.Scheme.{salt_encoding_of};
ghost use Rattle.ring_password_hash.specs.Stored.{is_salt, is_text};

use crate::scheme::Scheme;
use crate::stored::is_text;
use ring::error::Unspecified;
use ring::rand::{SecureRandom, generate};

/// The bytes that a salt takes from its source.
pub const RANDOM_LEN: usize = 16;

/// The letters and digits of a salt that is written as it is: as many as 16 bytes need.
pub const TEXT_SALT_LEN: usize = 22;

// The letters and digits of such a salt.
const SYMBOLS: &[u8; 62] = b"abcdefghijklmnopqrstuvwxyzABCDEFGHIJKLMNOPQRSTUVWXYZ0123456789";

/// A salt. [`Salt::as_ref`] has its bytes.
#[derive(Drop)]
pub enum Salt {
    /// Letters and digits, for a scheme that writes a salt as it is: Django's and Werkzeug's.
    Text([u8; TEXT_SALT_LEN]),
    /// Bytes, for any other scheme.
    Bytes([u8; RANDOM_LEN]),
}

impl Salt {
    /// The salt for a new password of the `scheme` that `bytes` make, which should be random: 22
    /// letters and digits for Django and Werkzeug, the bytes themselves for the other schemes.
    pub fn of(scheme: Scheme, bytes: [u8; RANDOM_LEN]) -> Salt
        ensures ok { salt_bytes result ≡ salt_from (is_text (salt_encoding_of scheme)) bytes }
        ensures usable { is_salt scheme (salt_bytes result) ≡ true }
    {
        if is_text(scheme.row().salt) {
            return Salt::Text(letters(u128::from_be_bytes(bytes)));
        }
        Salt::Bytes(bytes)
    }

    /// The bytes of the salt.
    pub fn as_ref(&self) -> &[u8]
        ensures { result.now ≡ salt_bytes self.now }
    {
        match self {
            Salt::Text(symbols) => &symbols[..],
            Salt::Bytes(bytes) => &bytes[..],
        }
    }
}

// How often 62 is in 2^64, of which 16 are left.
const SIXTY_TWOS: u64 = 297_528_130_221_121_800;

// The number divided by 62, and the rest. LLVM would call a function of the compiler's library for
// a division of 128 bits, and the library for C calls none.
fn divided(number: u128) -> (u128, usize)
    ensures quotient { result.0 ≡ number / 62 }
    ensures rest { result.1 ≡ number % 62 }
{
    let high = (number >> 64) as u64;
    let low = (number % (1 << 64)) as u64;
    let carried = high % 62;
    let rest = 16 * carried + low % 62;
    let front = ((high / 62) as u128) << 64;
    let back = SIXTY_TWOS * carried + low / 62 + rest / 62;
    (front + back as u128, (rest % 62) as usize)
}

// The lowest digits of the number to the base 62, the lowest first.
fn letters(number: u128) -> [u8; TEXT_SALT_LEN]
    ensures { result ≡ letters TEXT_SALT_LEN number }
{
    let mut salt = [0; TEXT_SALT_LEN];
    let mut rest = number;
    'places: for i in 0..TEXT_SALT_LEN {
        let (quotient, digit) = divided(rest);
        salt[i] = SYMBOLS[digit];
        rest = quotient;
    }
    salt
}

/// A salt for a new password of the `scheme`: [`Salt::of`] makes it of the next 16 bytes of `rng`.
///
/// Refused exactly if `rng` is not ready for 16 bytes. It then keeps all of its bytes.
pub fn new_salt(scheme: Scheme, rng: &mut dyn SecureRandom) -> Result<Salt, Unspecified>
    ensures ok { IfOk result (λ salt.
        IsNext scheme (left rng.old) (left rng.new) (salt_bytes salt)) }
    ensures usable { IfOk result (λ salt. is_salt scheme (salt_bytes salt) ≡ true) }
    ensures refused { IsErr result ↔ (ready rng.old RANDOM_LEN ≡ false) }
    ensures unchanged { OnErr result (left rng.new ≡ left rng.old) }
{
    let bytes = generate::<[u8; RANDOM_LEN]>(rng)?.expose();
    Ok(Salt::of(scheme, bytes))
}
