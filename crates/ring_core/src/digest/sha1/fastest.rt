// SPDX-License-Identifier: ISC
//! The block function of SHA-1 over one message (FIPS 180-4, 6.1.2), by the kernel that is the
//! fastest in this build on this processor.
ghost use Rattle.ring_core.specs.Kernel.{RunsSha1, RunsSha1Words};
ghost use Rattle.ring_core.specs.Prelude.{chunk_items, chunk_total};

use crate::cost::Meter;
use crate::digest::kernel::{Kernel, fastest};
use crate::digest::sha1::arm::Arm;
use crate::digest::sha1::window::{sha1_block_data_order_counted, sha1_block_of_words_counted};
use crate::digest::sha1::x86::X86;
use crate::digest::sha1::{by_fours, by_instruction};
use crate::polyfill::slice::AsChunks;
use std::num::Wrapping;
use std::simd::Simd;

/// Runs SHA-1's block function over each of `blocks`, of 64 bytes, in order (6.1.2), by the fastest
/// kernel of this build on this processor.
///
/// The first five words of `state` are the chaining words, which are replaced. The last three stay.
/// Each block is counted on `meter`.
pub fn sha1_block_data_order_fastest_counted(
    state: &mut [Wrapping<u32>; 8],
    blocks: AsChunks<'_, u8, 64>,
    meter: &mut Meter,
)
    ensures { RunsSha1 state.old state.new
        (chunk_items blocks.entry) (chunk_total blocks.entry) meter.old meter.new }
{
    match fastest(true) {
        Kernel::X86 => by_instruction::run_blocks::<X86>(state, blocks, meter),
        Kernel::Arm => by_instruction::run_blocks::<Arm>(state, blocks, meter),
        Kernel::Window => sha1_block_data_order_counted(state, blocks, meter),
        Kernel::Fours => by_fours::run_blocks(&mut [Simd::splat(0u32); 4], state, blocks, meter),
    }
}

/// Runs SHA-1's block function over one block that is given as words (6.1.2), by the fastest kernel
/// of this build on this processor: the first five words of `front`, and then those of `padding`
/// from the sixth on.
///
/// The first five words of `state` are replaced, and the last three stay. One block is counted on
/// `meter`.
pub fn sha1_block_of_words_fastest_counted(
    state: &mut [Wrapping<u32>; 8],
    front: &[Wrapping<u32>; 8],
    padding: &[Wrapping<u32>; 16],
    meter: &mut Meter,
)
    ensures { RunsSha1Words state.old state.new front.now padding.now meter.old meter.new }
{
    match fastest(true) {
        Kernel::X86 => by_instruction::run_words::<X86>(state, front, padding, meter),
        Kernel::Arm => by_instruction::run_words::<Arm>(state, front, padding, meter),
        Kernel::Window => sha1_block_of_words_counted(state, front, padding, meter),
        Kernel::Fours => {
            by_fours::run_words(&mut [Simd::splat(0u32); 4], state, front, padding, meter)
        }
    }
}
