// SPDX-License-Identifier: ISC
//! The block functions of SHA-2 over one message (FIPS 180-4, 6.2.2 and 6.4.2), by the kernel that
//! is the fastest in this build on this processor.
ghost use Rattle.std.specs.Prelude.{◌≤◌};
ghost use Rattle.ring_core.specs.Kernel.{RunsSha2, RunsSha2Words};
ghost use Rattle.ring_core.specs.Prelude.{chunk_items, chunk_total, family_256, family_512};
ghost use Rattle.ring_core.specs.Prelude.{words_32, words_64};

use crate::cost::Meter;
use crate::digest::kernel::{Kernel, fastest};
use crate::digest::sha2::arm::Arm;
use crate::digest::sha2::window::{
    block_data_order_32_counted, block_data_order_64_counted, block_of_words_32_counted,
    block_of_words_64_counted,
};
use crate::digest::sha2::x86::X86;
use crate::digest::sha2::{by_fours, by_instruction};
use crate::digest::states::{State32, State64};
use crate::polyfill::slice::AsChunks;
use std::num::Wrapping;
use std::simd::Simd;

/// Runs SHA-256's block function over each of `blocks`, of 64 bytes, in order, by the fastest
/// kernel of this build on this processor, and replaces the chaining words `state` (6.2.2). Each
/// block is counted on `meter`.
pub fn block_data_order_32_fastest_counted(
    state: &mut State32,
    blocks: AsChunks<'_, u8, 64>,
    meter: &mut Meter,
)
    ensures { RunsSha2 family_256 (words_32 state.old) (words_32 state.new)
        (chunk_items blocks.entry) (chunk_total blocks.entry) meter.old meter.new }
{
    match fastest(true) {
        Kernel::X86 => by_instruction::run_blocks::<X86>(state, blocks, meter),
        Kernel::Arm => by_instruction::run_blocks::<Arm>(state, blocks, meter),
        Kernel::Window => block_data_order_32_counted(state, blocks, meter),
        Kernel::Fours => by_fours::run_blocks(&mut [Simd::splat(0u32); 4], state, blocks, meter),
    }
}

/// Runs SHA-512's block function, which its truncations share, over each of `blocks`, of 128 bytes,
/// in order, by the fastest kernel of this build on this processor, and replaces the chaining words
/// `state` (6.4.2). Each block is counted on `meter`.
pub fn block_data_order_64_fastest_counted(
    state: &mut State64,
    blocks: AsChunks<'_, u8, 128>,
    meter: &mut Meter,
)
    ensures { RunsSha2 family_512 (words_64 state.old) (words_64 state.new)
        (chunk_items blocks.entry) (chunk_total blocks.entry) meter.old meter.new }
{
    match fastest(false) {
        Kernel::Window => block_data_order_64_counted(state, blocks, meter),
        _ => by_fours::run_blocks(&mut [Simd::splat(0u64); 4], state, blocks, meter),
    }
}

/// Runs SHA-256's block function over one block that is given as words, by the fastest kernel of
/// this build on this processor, and replaces the chaining words `state` (6.2.2). The block is the
/// eight words of `front` and then the last eight of `padding`. One block is counted on `meter`.
pub fn block_of_words_32_fastest_counted(
    state: &mut State32,
    front: &State32,
    padding: &[Wrapping<u32>; 16],
    meter: &mut Meter,
)
    ensures { RunsSha2Words family_256 8 (words_32 state.old) (words_32 state.new)
        (words_32 front.now) (words_32 padding.now) meter.old meter.new }
{
    match fastest(true) {
        Kernel::X86 => by_instruction::run_words::<X86>(state, front, padding, meter),
        Kernel::Arm => by_instruction::run_words::<Arm>(state, front, padding, meter),
        Kernel::Window => block_of_words_32_counted(state, front, padding, meter),
        Kernel::Fours => {
            let sums = &mut [Simd::splat(0u32); 4];
            by_fours::run_words::<Wrapping<u32>, 8>(sums, state, front, padding, meter)
        }
    }
}

/// Runs SHA-512's block function, which its truncations share, over one block that is given as
/// words, by the fastest kernel of this build on this processor, and replaces the chaining words
/// `state` (6.4.2). The block is the first `N` words of `front`, at most eight, and then those of
/// `padding` past them. One block is counted on `meter`.
pub fn block_of_words_64_fastest_counted<const N: usize>(
    state: &mut State64,
    front: &State64,
    padding: &[Wrapping<u64>; 16],
    meter: &mut Meter,
)
    requires { N ≤ 8 }
    ensures { RunsSha2Words family_512 N (words_64 state.old) (words_64 state.new)
        (words_64 front.now) (words_64 padding.now) meter.old meter.new }
{
    match fastest(false) {
        Kernel::Window => block_of_words_64_counted::<N>(state, front, padding, meter),
        _ => {
            let sums = &mut [Simd::splat(0u64); 4];
            by_fours::run_words::<Wrapping<u64>, N>(sums, state, front, padding, meter)
        }
    }
}
