// SPDX-License-Identifier: ISC
//! The block functions in lanes, of each width of `std::simd` up to sixteen words: in each lane
//! what the kernel of one message gives for the block there.

use crate::messages::counting_bytes;
use crate::ring_core_calls::{SHA1_WORDS, SHA256_WORDS, SHA512_WORDS};
use ring::cost::Meter;
use ring::digest::sha1::{sha1_block_data_order_counted, sha1_block_data_order_lanes_counted};
use ring::digest::sha2::{
    block_data_order_32_counted, block_data_order_64_counted, block_data_order_lanes_counted,
};
use ring::digest::states::States;
use ring::polyfill::slice::as_chunks;
use std::simd::{u32x1, u32x2, u32x4, u32x8, u32x16, u64x1, u64x2, u64x4, u64x8, u64x16};

// Runs a block of its own in each lane, and then each of these blocks by itself.
macro_rules! in_lanes {
    ($rt:ident, $vector:ty, $count:literal; $words:ident, $block_len:literal;
        $lanes:ident, $one:ident) => {
        let mut blocks = [counting_bytes::<$block_len>(); $count];
        for i in 0..$count {
            blocks[i][0] = 255 - i as u8;
        }
        let mut states = States::<$vector>::splat(&$words);
        let mut meter = Meter::new();
        $lanes::<$vector, $block_len>(&mut states, &blocks, &mut meter);
        assert!($rt; meter.blocks() == $count);
        for i in 0..$count {
            let (block, _) = as_chunks::<u8, $block_len>(&blocks[i]);
            let mut state = $words;
            $one(&mut state, block, &mut meter);
            assert!($rt; states.state(i) == state, "{i}");
        }
    };
}

// The widths of 32-bit words.
macro_rules! in_lanes_of_32 {
    ($rt:ident; $words:ident, $lanes:ident, $one:ident) => {
        in_lanes!($rt, u32x1, 1; $words, 64; $lanes, $one);
        in_lanes!($rt, u32x2, 2; $words, 64; $lanes, $one);
        in_lanes!($rt, u32x4, 4; $words, 64; $lanes, $one);
        in_lanes!($rt, u32x8, 8; $words, 64; $lanes, $one);
        in_lanes!($rt, u32x16, 16; $words, 64; $lanes, $one);
    };
}

#[test]
fn sha1_in_lanes(rt: HostRuntime) {
    in_lanes_of_32!(rt; SHA1_WORDS, sha1_block_data_order_lanes_counted,
        sha1_block_data_order_counted);
}

#[test]
fn sha256_in_lanes(rt: HostRuntime) {
    in_lanes_of_32!(rt; SHA256_WORDS, block_data_order_lanes_counted,
        block_data_order_32_counted);
}

#[test]
fn sha512_in_lanes(rt: HostRuntime) {
    macro_rules! width {
        ($vector:ty, $count:literal) => {
            in_lanes!(rt, $vector, $count; SHA512_WORDS, 128;
                block_data_order_lanes_counted, block_data_order_64_counted);
        };
    }
    width!(u64x1, 1);
    width!(u64x2, 2);
    width!(u64x4, 4);
    width!(u64x8, 8);
    width!(u64x16, 16);
}
