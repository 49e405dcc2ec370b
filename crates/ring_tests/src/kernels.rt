// SPDX-License-Identifier: ISC
//! The kernel over a window of sixteen words, which the plain block functions run, and the fastest
//! kernel, by which `ring` runs one message: both against other implementations, over messages of 0
//! to 257 bytes and over a block of words.

ghost use Rattle.std.specs.Prelude.{◌≤◌, length};

use crate::algorithms::is_of_others;
use crate::messages::counting_bytes;
use crate::ring_core_calls::{SHA1_WORDS, SHA256_WORDS, SHA512_WORDS};
use crate::texts::is_hex_of;
use ring::cost::Meter;
use ring::digest::dynstate::DynState;
use ring::digest::sha1::{
    sha1_block_data_order_counted, sha1_block_data_order_fastest_counted,
    sha1_block_of_words_counted, sha1_block_of_words_fastest_counted,
};
use ring::digest::sha2::{
    block_data_order_32_counted, block_data_order_32_fastest_counted, block_data_order_64_counted,
    block_data_order_64_fastest_counted, block_of_words_32_counted,
    block_of_words_32_fastest_counted, block_of_words_64_counted,
    block_of_words_64_fastest_counted,
};
use ring::digest::{SHA1_FOR_LEGACY_USE_ONLY, SHA256, SHA512};
use ring::polyfill::slice::as_chunks;
use std::num::Wrapping;

// A message and its padding in whole blocks of 64 bytes, which end with 8 that tell the length, or
// of 128, which end with 16 (FIPS 180-4, section 5.1), and how many bytes these are.
fn padded(message: &[u8], block_len: usize) -> ([u8; 384], usize)
    requires { length message.now ≤ 257 }
    ensures { result.1 ≤ 384 }
{
    let len = message.len();
    let end = if block_len == 64 {
        (len + 8) / 64 * 64 + 64
    } else {
        (len + 16) / 128 * 128 + 128
    };
    let mut room = [0; 384];
    room[..len].copy_from_slice(message);
    room[len] = 0x80;
    room[end - 8..end].copy_from_slice(&(8 * len as u64).to_be_bytes());
    (room, end)
}

// Runs both kernels from the first words over the blocks of each message.
macro_rules! over_messages {
    ($rt:ident, $algorithm:ident, $output_len:literal, $words:ident as $state:ident
        by $block_len:literal; $plain:ident, $fastest:ident) => {
        let bytes = counting_bytes::<257>();
        for len in 0..258 {
            let message = &bytes[..len];
            let (room, end) = padded(message, $block_len);
            let (blocks, _) = as_chunks::<u8, $block_len>(&room[..end]);
            let mut state = $words;
            let mut meter = Meter::new();
            $plain(&mut state, blocks, &mut meter);
            let made = DynState::$state(state).format_output();
            assert!($rt; is_of_others($algorithm, message, &made.0[..$output_len]));
            let mut other = $words;
            let mut other_meter = Meter::new();
            $fastest(&mut other, blocks, &mut other_meter);
            assert!($rt; state == other && meter.blocks() == other_meter.blocks());
        }
    };
}

#[test]
fn sha1_by_both_kernels(rt: HostRuntime) {
    over_messages!(rt, SHA1_FOR_LEGACY_USE_ONLY, 20, SHA1_WORDS as new32 by 64;
        sha1_block_data_order_counted, sha1_block_data_order_fastest_counted);
}

#[test]
fn sha256_by_both_kernels(rt: HostRuntime) {
    over_messages!(rt, SHA256, 32, SHA256_WORDS as new32 by 64;
        block_data_order_32_counted, block_data_order_32_fastest_counted);
}

#[test]
fn sha512_by_both_kernels(rt: HostRuntime) {
    over_messages!(rt, SHA512, 64, SHA512_WORDS as new64 by 128;
        block_data_order_64_counted, block_data_order_64_fastest_counted);
}

// From Python's `hashlib`: the digest of the digest of `abc`, which is a block of words.
const TWICE_BY_SHA1: &str = "0d3ced9bec10a777aec23ccc353a8c08a633045e";

const TWICE_BY_SHA256: &str = "4f8b42c22dd3729b519ba6f68d2da7cc5b2d606d05daed5ad5128cc03e6c6358";

const TWICE_BY_SHA512: &str = "373a9f3a902cf561003b513c94c5164ba4af135cbc4eb4d856b89ea5609523f1\
    30bbe5e453e6c645b2765a265aaeb1390c82c913130870636cd0c8ecf980d851";

// Runs both kernels over the digest of `abc` as a block: its `$word_count` words, `$bit` behind
// them, and the number of their bits.
macro_rules! over_words {
    ($rt:ident, $twice:ident, $output_len:literal, $words:ident as $state:ident
        by $block_len:literal; $word_count:literal, $bit:literal, $bits:literal;
        $kernel:ident; $plain:path, $fastest:path) => {
        let (room, end) = padded(b"abc", $block_len);
        let (blocks, _) = as_chunks::<u8, $block_len>(&room[..end]);
        let mut front = $words;
        let mut meter = Meter::new();
        $kernel(&mut front, blocks, &mut meter);
        let mut padding = [Wrapping(0); 16];
        padding[$word_count] = Wrapping($bit);
        padding[15] = Wrapping($bits);
        let mut state = $words;
        $plain(&mut state, &front, &padding, &mut meter);
        let made = DynState::$state(state).format_output();
        assert!($rt; is_hex_of($twice, &made.0[..$output_len]) && meter.blocks() == 2);
        let mut other = $words;
        $fastest(&mut other, &front, &padding, &mut meter);
        assert!($rt; state == other && meter.blocks() == 3);
    };
}

#[test]
fn sha1_of_words_by_both_kernels(rt: HostRuntime) {
    over_words!(rt, TWICE_BY_SHA1, 20, SHA1_WORDS as new32 by 64; 5, 0x80000000, 160;
        sha1_block_data_order_counted;
        sha1_block_of_words_counted, sha1_block_of_words_fastest_counted);
}

#[test]
fn sha256_of_words_by_both_kernels(rt: HostRuntime) {
    over_words!(rt, TWICE_BY_SHA256, 32, SHA256_WORDS as new32 by 64; 8, 0x80000000, 256;
        block_data_order_32_counted;
        block_of_words_32_counted, block_of_words_32_fastest_counted);
}

#[test]
fn sha512_of_words_by_both_kernels(rt: HostRuntime) {
    over_words!(rt, TWICE_BY_SHA512, 64, SHA512_WORDS as new64 by 128; 8, 0x8000000000000000, 512;
        block_data_order_64_counted;
        block_of_words_64_counted::<8>, block_of_words_64_fastest_counted::<8>);
}
