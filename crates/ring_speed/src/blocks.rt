// SPDX-License-Identifier: ISC
//! The block functions alone: two runs a step, over a block that holds the step's number.

ghost use Rattle.std.specs.Prelude.{◌≡◌, ◌%◌, ◌^◌, ◌≤◌, map, slice_index, take};
ghost use Rattle.ring_core.specs.Sha1 as sha1;
ghost use Rattle.ring_core.specs.Sha2.{block_step, family_256, family_512, words_32, words_64};
ghost use Rattle.ring_core.specs.Word.{word_32};
ghost use Rattle.ring_speed.specs.Repeats as repeats;
ghost use Rattle.ring_speed.specs.Repeats.{words_after_steps};
ghost use Rattle.ring_speed.specs.Work.{block_words};

use crate::hash::Hash;
use ring::polyfill::slice::AsChunks;
use ring_core::cost::Meter;
use ring_core::digest::sha1::sha1_block_data_order_fastest_counted;
use ring_core::digest::sha2::{
    State32, State64, block_data_order_32_fastest_counted, block_data_order_64_fastest_counted,
};
use std::num::Wrapping;

// The bytes of a block of SHA-1 and SHA-256.
pub(crate) const BLOCK_LEN_32: usize = 64;

// The bytes of a block of SHA-512.
pub(crate) const BLOCK_LEN_64: usize = 128;

// The block of this number. A block that stayed the same would let the compiler make its schedule
// once for all steps.
fn numbered<const N: usize>(number: u32) -> [u8; N]
    requires { 4 ≤ N }
    ensures { result ≡ repeats.numbered N number }
{
    let mut block = [0; N];
    block[..4].copy_from_slice(&number.to_be_bytes());
    block
}

// A parameter that is a number is known to fit its type, and one inside a struct isn't.
fn number_of(word: u64) -> u64
    ensures { result ≡ word % 2 ^ 64 }
{
    word
}

// So many steps of SHA-1.
#[tactic(auto, using(crate::proofs::Steps::words_first))]
fn run_sha1(state: &mut State32, steps: u32)
    ensures { take 5 (map word_32 state.new)
        ≡ words_after_steps sha1.block_step BLOCK_LEN_32 (take 5 (map word_32 state.old)) steps }
{
    let mut meter = Meter::new();
    'steps: for step in 0..steps {
        let block = numbered::<BLOCK_LEN_32>(step);
        sha1_block_data_order_fastest_counted(state, AsChunks::from_ref(&block), &mut meter);
        sha1_block_data_order_fastest_counted(state, AsChunks::from_ref(&block), &mut meter);
    }
}

// So many steps of SHA-256.
#[tactic(auto, using(crate::proofs::Steps::words_first))]
fn run_sha256(state: &mut State32, steps: u32)
    ensures { words_32 state.new
        ≡ words_after_steps (block_step family_256) BLOCK_LEN_32 (words_32 state.old) steps }
{
    let mut meter = Meter::new();
    'steps: for step in 0..steps {
        let block = numbered::<BLOCK_LEN_32>(step);
        block_data_order_32_fastest_counted(state, AsChunks::from_ref(&block), &mut meter);
        block_data_order_32_fastest_counted(state, AsChunks::from_ref(&block), &mut meter);
    }
}

// So many steps of SHA-512.
#[tactic(auto, using(crate::proofs::Steps::words_first))]
fn run_sha512(state: &mut State64, steps: u32)
    ensures { words_64 state.new
        ≡ words_after_steps (block_step family_512) BLOCK_LEN_64 (words_64 state.old) steps }
{
    let mut meter = Meter::new();
    'steps: for step in 0..steps {
        let block = numbered::<BLOCK_LEN_64>(step);
        block_data_order_64_fastest_counted(state, AsChunks::from_ref(&block), &mut meter);
        block_data_order_64_fastest_counted(state, AsChunks::from_ref(&block), &mut meter);
    }
}

// The first word after so many steps, from words of 0.
pub(crate) fn first_word(hash: Hash, steps: u32) -> u64
    ensures { result ≡ slice_index (block_words hash steps) 0 }
{
    let mut narrow = [Wrapping(0); 8];
    let mut wide = [Wrapping(0); 8];
    match hash {
        Hash::Sha1 => {
            run_sha1(&mut narrow, steps);
            narrow[0].0 as u64
        }
        Hash::Sha256 => {
            run_sha256(&mut narrow, steps);
            narrow[0].0 as u64
        }
        Hash::Sha512 => {
            run_sha512(&mut wide, steps);
            number_of(wide[0].0)
        }
    }
}
