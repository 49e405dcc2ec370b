// SPDX-License-Identifier: ISC
//! What stands below digests: comparison, exclusive or, lengths in bits, the meter, chunks.
#![tactic(auto, unfolding(ring::specs::Cost::raised))]

ghost use Rattle.std.specs.Prelude.{◌≡◌, ◌↔◌, ◌*◌, ◌/◌, ◌%◌, ◌^◌, ◌<◌, ◌≤◌};
ghost use Rattle.std.specs.Prelude.{length, map, IfOk, IsErr, IsTrue};
ghost use Rattle.std.specs.Int.{div_ceil, to_be_bytes, w128, w64};
ghost use Rattle.std.specs.Int.NonZero.{non_zero_u64_get};
ghost use Rattle.ring_core.specs.Prelude.{◌⊕◌, xor_lists};
ghost use Rattle.ring.specs.Prelude.{compared_pairs, max_input_len, padded_blocks};

use ring::bits::{BitLength, FromByteLen};
use ring::constant_time::{
    verify_slices_are_equal, verify_slices_are_equal_counted, xor_assign, xor_assign_at_start,
};
use ring::cost::Meter;
use ring::digest::{SHA256, digest_counted};
use ring::error::{InputTooLongError, Unspecified};
use ring::polyfill::slice::as_chunks;
use std::num::NonZeroU64;

/// Whether both tokens are the same. All pairs of bytes are read where the lengths agree.
pub fn is_same_token(given: &[u8], stored: &[u8]) -> bool
    ensures { IsTrue result ↔ (given.now ≡ stored.now) }
{
    verify_slices_are_equal(given, stored).is_ok()
}

/// How many pairs of bytes the comparison of two tokens reads.
pub fn pairs_of_comparison(given: &[u8], stored: &[u8]) -> u128
    ensures { result ≡ compared_pairs (length given.now) (length stored.now) }
{
    let mut meter = Meter::new();
    let _ = verify_slices_are_equal_counted(given, stored, &mut meter);
    meter.byte_pairs()
}

/// A block of 64 bytes with `mask` xored into each byte, as HMAC masks its key.
pub fn masked_block(block: &[u8; 64], mask: u8) -> [u8; 64]
    ensures { result ≡ map (λ x. x ⊕ mask) block.now }
{
    let mut masked = *block;
    xor_assign(&mut masked, mask);
    masked
}

/// The exclusive or of two digests of 32 bytes, as PBKDF2 sums its iterates.
pub fn xored(first: &[u8; 32], second: &[u8; 32]) -> [u8; 32]
    ensures { result ≡ xor_lists first.now second.now }
{
    let mut sum = *first;
    xor_assign_at_start(&mut sum, second);
    sum
}

/// A message's length in bits as eight bytes, the highest first.
pub fn bit_length_field(message: &[u8]) -> Result<[u8; 8], InputTooLongError>
    ensures ok { IfOk result (λ field. field ≡ to_be_bytes w64 (8 * length message.now)) }
    ensures refused { IsErr result ↔ (2 ^ 64 ≤ 8 * length message.now) }
{
    let length: BitLength<u64> = BitLength::from_byte_len(message.len())?;
    Ok(length.to_be_bytes())
}

/// A length in bits as sixteen bytes, the highest first, made from any number of bytes.
pub fn long_bit_length_field(bytes: u128) -> Result<[u8; 16], InputTooLongError<u128>>
    ensures ok { IfOk result (λ field. field ≡ to_be_bytes w128 (8 * bytes)) }
    ensures refused { IsErr result ↔ (2 ^ 128 ≤ 8 * bytes) }
{
    let length: BitLength<u128> = BitLength::from_byte_len(bytes)?;
    Ok(length.to_be_bytes())
}

/// How many bytes hold so many bits.
pub fn bytes_for_bits(bits: usize) -> usize
    ensures { result ≡ div_ceil bits 8 }
{
    BitLength::from_bits(bits).as_usize_bytes_rounded_up()
}

/// The length of a key in bits, which must not be 0.
pub fn key_bits(bits: u64) -> Result<NonZeroU64, Unspecified>
    ensures ok { IfOk result (λ same. non_zero_u64_get same ≡ bits) }
    ensures refused { IsErr result ↔ (bits ≡ 0) }
{
    let length: BitLength<NonZeroU64> = BitLength::from_bits(bits).try_into()?;
    Ok(length.as_bits())
}

/// How many blocks the digest of a message runs.
pub fn blocks_of_digest(message: &[u8]) -> Result<u128, Unspecified>
    ensures ok { IfOk result (λ blocks. blocks ≡ padded_blocks SHA256 (length message.now)) }
    ensures refused { IsErr result ↔ (max_input_len SHA256 < length message.now) }
{
    let mut meter = Meter::new();
    let _ = digest_counted(&SHA256, message, &mut meter)?;
    Ok(meter.blocks())
}

/// How many whole blocks of 64 bytes a message has, and how many bytes are left of it.
pub fn whole_and_left(message: &[u8]) -> (usize, usize)
    ensures { result ≡ (length message.now / 64, length message.now % 64) }
{
    let (blocks, rest) = as_chunks::<u8, 64>(message);
    (blocks.len(), rest.len())
}
