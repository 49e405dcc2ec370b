// SPDX-License-Identifier: ISC
//! Lengths in bits, made from lengths in bytes.
//!
//! ```
//! pub fn bit_length_field(message: &[u8]) -> Result<[u8; 8], InputTooLongError>
//!     ensures ok { IfOk result (λ field. field ≡ to_be_bytes w64 (8 * length message.now)) }
//!     ensures refused { IsErr result ↔ (2 ^ 64 ≤ 8 * length message.now) }
//! {
//!     let length: BitLength<u64> = BitLength::from_byte_len(message.len())?;
//!     Ok(length.to_be_bytes())
//! }
//! ```
//!
//! The imports of this example stand in `crates/ring_examples/src/basics.rt`.

ghost use Rattle.std.specs.Prelude.{◌≡◌, Result};
ghost use Rattle.std.specs.Int.{div_ceil, to_be_bytes, w128, w64};
ghost use Rattle.ring_core.specs.declared.error.InputTooLongError.{InputTooLongError};
ghost use Rattle.ring_core.specs.Prelude.{GivesBits, GivesNonZero, bit_count};

use crate::error::{InputTooLongError, Unspecified};
use std::num::NonZeroU64;

const BITS_PER_BYTE: usize = 8;

/// A length in bits.
#[derive(Clone, Copy, Debug, PartialEq, Eq, PartialOrd)]
pub struct BitLength<T = usize>(T);

impl<T> BitLength<T> {
    /// The length of `bits` bits.
    pub fn from_bits(bits: T) -> Self
        ensures { bit_count result ≡ bits }
    {
        BitLength(bits)
    }
}

impl<T: Copy> BitLength<T> {
    /// The number of bits.
    pub fn as_bits(self) -> T
        ensures { result ≡ bit_count self }
    {
        self.0
    }
}

impl BitLength<usize> {
    /// The number of bytes that hold the bits: an eighth of their number, rounded up.
    pub fn as_usize_bytes_rounded_up(&self) -> usize
        ensures { result ≡ div_ceil (bit_count self.now) 8 }
    {
        self.0.div_ceil(BITS_PER_BYTE)
    }
}

impl BitLength<u64> {
    /// The number of bits as eight bytes, high byte first.
    pub fn to_be_bytes(self) -> [u8; 8]
        ensures { result ≡ to_be_bytes w64 (bit_count self) }
    {
        self.0.to_be_bytes()
    }
}

impl BitLength<u128> {
    /// The number of bits as sixteen bytes, high byte first.
    pub fn to_be_bytes(self) -> [u8; 16]
        ensures { result ≡ to_be_bytes w128 (bit_count self) }
    {
        let bits = self.0;
        bits.to_be_bytes()
    }
}

/// A length that is made from a number of bytes.
pub trait FromByteLen<T>: Sized {
    // holds of a number of bytes and each answer that `from_byte_len` may give for it
    ghost from_byte_len_gives: { T → Result Self (InputTooLongError T) → Type 0 };

    /// Returns the length of `bytes` bytes.
    ///
    /// Refused where the type does not hold eight times `bytes`, in the implementations here. The
    /// error then holds `bytes`.
    fn from_byte_len(bytes: T) -> Result<Self, InputTooLongError<T>>
        ensures { from_byte_len_gives bytes result };
}

/// Refused where `8 * bytes` is 2^64 or more.
impl FromByteLen<usize> for BitLength<usize> {
    ghost from_byte_len_gives = { λ bytes result. GivesBits 64 bytes result };

    fn from_byte_len(bytes: usize) -> Result<Self, InputTooLongError<usize>> {
        match bytes.checked_mul(BITS_PER_BYTE) {
            Some(bits) => Ok(BitLength(bits)),
            None => Err(InputTooLongError::new(bytes)),
        }
    }
}

/// Refused where `8 * bytes` is 2^64 or more.
impl FromByteLen<u64> for BitLength<u64> {
    ghost from_byte_len_gives = { λ bytes result. GivesBits 64 bytes result };

    fn from_byte_len(bytes: u64) -> Result<Self, InputTooLongError<u64>> {
        match bytes.checked_mul(BITS_PER_BYTE as u64) {
            Some(bits) => Ok(BitLength(bits)),
            None => Err(InputTooLongError::new(bytes)),
        }
    }
}

/// Refused where `8 * bytes` is 2^128 or more.
impl FromByteLen<u128> for BitLength<u128> {
    ghost from_byte_len_gives = { λ bytes result. GivesBits 128 bytes result };

    fn from_byte_len(bytes: u128) -> Result<Self, InputTooLongError<u128>> {
        match bytes.checked_mul(BITS_PER_BYTE as u128) {
            Some(bits) => Ok(BitLength(bits)),
            None => Err(InputTooLongError::new(bytes)),
        }
    }
}

/// Refused where `8 * bytes` is 2^64 or more.
impl FromByteLen<usize> for BitLength<u64> {
    ghost from_byte_len_gives = { λ bytes result. GivesBits 64 bytes result };

    fn from_byte_len(bytes: usize) -> Result<Self, InputTooLongError<usize>> {
        Ok(BitLength::<usize>::from_byte_len(bytes)?.into())
    }
}

/// The same number of bits.
impl From<BitLength<usize>> for BitLength<u64> {
    ghost from_gives = { λ length result. bit_count result ≡ bit_count length };

    fn from(length: BitLength<usize>) -> Self {
        BitLength(length.0 as u64)
    }
}

/// The same number of bits. Refused where it is 0.
impl TryFrom<BitLength<u64>> for BitLength<NonZeroU64> {
    type Error = Unspecified;

    ghost try_from_gives = { λ length result. GivesNonZero length result };

    fn try_from(length: BitLength<u64>) -> Result<Self, Unspecified> {
        match NonZeroU64::new(length.0) {
            Some(bits) => Ok(BitLength(bits)),
            None => Err(Unspecified),
        }
    }
}
