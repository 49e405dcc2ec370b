// SPDX-License-Identifier: ISC
//! States and counts as plain numbers.

ghost use Rattle.std.specs.Prelude.{◌≡◌, ◌+◌, ◌*◌, ◌%◌, ◌^◌, ℕ, List, IsTrue, length, map};
ghost use Rattle.ring_core.specs.Prelude.{words_32, words_64};
ghost use Rattle.ring.specs.Prelude.{AreWords, HasNumbers, HasTaken, IsRawState, block_algorithm};
ghost use Rattle.ring.specs.Prelude.{block_words, is_state_of, joined_halves};
ghost use Rattle.ring.specs.Prelude.{raw_chaining, word_len, words};

use crate::digest::algorithm::Algorithm;
use crate::digest::block_context::BlockContext;
use crate::digest::dynstate::DynState;
use ring_core::digest::sha2::{State32, State64};
use std::num::Wrapping;

// A parameter that is a number is known to fit its type, and one inside a struct isn't.
fn wide(word: u32) -> u64
    ensures { result ≡ word % 2 ^ 32 }
{
    word as u64
}

fn whole(word: u64) -> u64
    ensures { result ≡ word % 2 ^ 64 }
{
    word
}

fn low(word: u64) -> u32
    ensures { result ≡ word % 2 ^ 32 }
{
    (word % (1 << 32)) as u32
}

// The numbers of words of 32 bits.
fn numbers_32(words: &State32) -> [u64; 8]
    ensures { result ≡ words_32 words.now }
{
    let mut numbers = [0; 8];
    'words: for i in 0..8 {
        numbers[i] = wide(words[i].0);
    }
    numbers
}

// The numbers of words of 64 bits.
fn numbers_64(words: &State64) -> [u64; 8]
    ensures { result ≡ words_64 words.now }
{
    let mut numbers = [0; 8];
    'words: for i in 0..8 {
        numbers[i] = whole(words[i].0);
    }
    numbers
}

// The words of 32 bits of these numbers.
fn words_of_32(numbers: &[u64; 8]) -> State32
    ensures { words_32 result ≡ map (λ n. n % 2 ^ 32) numbers.now }
{
    let mut words = [Wrapping(0); 8];
    'words: for i in 0..8 {
        words[i] = Wrapping(low(numbers[i]));
    }
    words
}

// The words of 64 bits of these numbers.
fn words_of_64(numbers: &[u64; 8]) -> State64
    ensures { words_64 result ≡ map (λ n. n % 2 ^ 64) numbers.now }
{
    let mut words = [Wrapping(0); 8];
    'words: for i in 0..8 {
        words[i] = Wrapping(whole(numbers[i]));
    }
    words
}

// The numbers of a state.
fn numbers_of(state: &DynState) -> [u64; 8]
    ensures { result ≡ words state.now }
{
    match state {
        DynState::As64(words) => numbers_64(words),
        DynState::As32(words) => numbers_32(words),
    }
}

// The numbers of the state after whole blocks.
#[tactic(auto, using(crate::proofs::lemmas::raw::Numbers::raw_laws))]
pub(crate) fn numbers_of_block(block: &BlockContext) -> [u64; 8]
    ensures stands { (p : List ℕ) → HasTaken block.now p
        → IsRawState (block_algorithm block.now) result p }
    ensures words { raw_chaining (block_algorithm block.now) result ≡ block_words block.now }
    ensures sized { AreWords (block_algorithm block.now) result }
{
    numbers_of(&block.state)
}

// The block context of numbers of 64 bits.
#[inline(always)]
pub(crate) fn long_block_of(
    algorithm: &Algorithm,
    numbers: &[u64; 8],
    completed_bytes: u128,
) -> BlockContext
    requires { word_len algorithm.now ≡ 8 }
    ensures { HasNumbers algorithm.now numbers.now completed_bytes result }
{
    BlockContext {
        state: DynState::As64(words_of_64(numbers)),
        completed_bytes,
        algorithm: *algorithm,
    }
}

// The block context of numbers of 32 bits.
#[inline(always)]
pub(crate) fn short_block_of(
    algorithm: &Algorithm,
    numbers: &[u64; 8],
    completed_bytes: u128,
) -> BlockContext
    requires { word_len algorithm.now ≡ 4 }
    ensures { HasNumbers algorithm.now numbers.now completed_bytes result }
{
    BlockContext {
        state: DynState::As32(words_of_32(numbers)),
        completed_bytes,
        algorithm: *algorithm,
    }
}

// The block context of these numbers.
pub(crate) fn block_of(
    algorithm: &Algorithm,
    numbers: &[u64; 8],
    completed_bytes: u128,
) -> BlockContext
    ensures { HasNumbers algorithm.now numbers.now completed_bytes result }
{
    match algorithm.initial_state() {
        DynState::As64(_) => long_block_of(algorithm, numbers, completed_bytes),
        DynState::As32(_) => short_block_of(algorithm, numbers, completed_bytes),
    }
}

// The lower and the upper 64 bits of a count.
pub(crate) fn halves(count: u128) -> (u64, u64)
    ensures { joined_halves result.0 result.1 ≡ count }
{
    ((count % (1 << 64)) as u64, (count >> 64) as u64)
}

// The count of these halves.
pub(crate) fn joined(low: u64, high: u64) -> u128
    ensures { result ≡ joined_halves low high }
{
    ((high as u128) << 64) + low as u128
}
