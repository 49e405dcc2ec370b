// SPDX-License-Identifier: ISC
//! Lengths of 128 bits, at the limit and past it. No message of a test reaches these counts, so
//! that they are written as a context's numbers.

use ring::digest::{Algorithm, Context, SHA256, SHA512};
use ring::raw::RawContext;
use ring_core::bits::{BitLength, FromByteLen};
use ring_core::cost::Meter;
use ring_core::digest::sha2::block_data_order_64;
use ring_core::error::InputTooLongError;
use ring_core::polyfill::slice::as_chunks;
use std::num::Wrapping;

// 2^125, the first number of bytes whose bits 128 bits don't hold
const TOO_LONG: u128 = 42_535_295_865_117_307_932_921_825_928_971_026_432;

#[test]
fn bits_of_bytes_up_to_128_bits(rt: HostRuntime) {
    let longest = BitLength::<u128>::from_byte_len(TOO_LONG - 1);
    assert!(rt; longest == Ok(BitLength::from_bits(u128::MAX - 7)));
    let refused = BitLength::<u128>::from_byte_len(TOO_LONG);
    assert!(rt; refused == Err(InputTooLongError::new(TOO_LONG)));
}

#[test]
fn sixteen_bytes_highest_first(rt: HostRuntime) {
    let length: BitLength<u128> = BitLength::from_bits(0x0102_0304_0506_0708_090a_0b0c_0d0e_0f10);
    assert!(rt; length.to_be_bytes() == [1, 2, 3, 4, 5, 6, 7, 8, 9, 10, 11, 12, 13, 14, 15, 16]);
}

// A context that has counted `completed` bytes and run none of their blocks, with so many bytes of
// `pending` behind them.
fn counted(
    algorithm: &Algorithm,
    completed: u128,
    pending: [u8; 128],
    num_pending: u32,
) -> Option<Context> {
    let mut raw = RawContext::new(&Context::new(algorithm));
    raw.completed_low = (completed % (1 << 64)) as u64;
    raw.completed_high = (completed >> 64) as u64;
    raw.pending = pending;
    raw.num_pending = num_pending;
    raw.context()
}

// Whether a context of zeros that has counted so much finishes, and the blocks that this runs.
fn finished(algorithm: &Algorithm, completed: u128, num_pending: u32) -> Option<(bool, u128)> {
    let context = counted(algorithm, completed, [0; 128], num_pending)?;
    let mut meter = Meter::new();
    let is_ok = context.finish_counted(&mut meter).is_ok();
    Some((is_ok, meter.blocks()))
}

// The greatest message has 2^61 - 1 bytes where blocks have 64, and 2^125 - 1 where they have 128.
// A count that was cut off is past both.
#[test]
fn refused_by_count_and_pending(rt: HostRuntime) {
    let at_most = 2_305_843_009_213_693_951 - 63;
    let rows = [
        (SHA256, at_most, 63, true, 2),
        (SHA256, at_most + 64, 0, false, 0),
        (SHA256, u64::MAX as u128, 0, false, 0),
        (SHA256, u64::MAX as u128, 1, false, 0),
        (SHA256, u128::MAX, 0, false, 0),
        (SHA256, u128::MAX, 1, false, 0),
        (SHA512, 1 << 61, 0, true, 1),
        (SHA512, TOO_LONG - 128, 127, true, 2),
        (SHA512, TOO_LONG, 0, false, 0),
        (SHA512, u128::MAX, 0, false, 0),
        (SHA512, u128::MAX, 1, false, 0),
    ];
    for (algorithm, completed, num_pending, is_ok, blocks) in rows {
        assert!(rt; finished(&algorithm, completed, num_pending) == Some((is_ok, blocks)));
    }
}

// Whether SHA-512 gives for such a context what it gives for these blocks alone, and the blocks
// that this runs.
fn ends_in_blocks(
    completed: u128,
    pending: [u8; 128],
    num_pending: u32,
    blocks: &[u8],
) -> Option<(bool, u128)> {
    let context = counted(&SHA512, completed, pending, num_pending)?;
    let mut meter = Meter::new();
    let digest = context.finish_counted(&mut meter).ok()?;
    let is_same = digest.as_ref() == sha512_of_blocks(blocks).as_slice();
    Some((is_same, meter.blocks()))
}

// 2^61 bytes are 2^64 bits: the lowest bit of the upper eight length bytes.
#[test]
fn length_of_two_to_the_64_bits(rt: HostRuntime) {
    let mut tail = [0; 128];
    tail[0] = 0x80;
    tail[119] = 1;
    assert!(rt; ends_in_blocks(1 << 61, [0; 128], 0, &tail) == Some((true, 1)));
}

// 2^125 - 1 bytes are 2^128 - 8 bits: fifteen bytes 0xff and the byte 0xf8.
#[test]
fn length_of_the_longest_message(rt: HostRuntime) {
    let mut tail = [0x61; 256];
    tail[127] = 0x80;
    tail[128..240].fill(0);
    tail[240..255].fill(0xff);
    tail[255] = 0xf8;
    assert!(rt; ends_in_blocks(TOO_LONG - 128, [0x61; 128], 127, &tail) == Some((true, 2)));
}

// The words after whole blocks, from SHA-512's initial words, high byte first.
fn sha512_of_blocks(blocks: &[u8]) -> [u8; 64] {
    let mut words = RawContext::new(&Context::new(&SHA512)).words.map(Wrapping);
    block_data_order_64(&mut words, as_chunks::<u8, 128>(blocks).0);
    let mut bytes = [0; 64];
    for i in 0..8 {
        bytes[8 * i..8 * i + 8].copy_from_slice(&words[i].0.to_be_bytes());
    }
    bytes
}
