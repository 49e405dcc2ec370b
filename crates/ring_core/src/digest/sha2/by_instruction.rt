// SPDX-License-Identifier: ISC
//! The block function of SHA-256 over the blocks of one message, one after another (FIPS 180-4,
//! 6.2.2, steps 1 to 4), four rounds at a time, by a processor's instructions: written once for all
//! processors.
ghost use Rattle.std.specs.Prelude.{◌≡◌, ℕ, ◌+◌, ◌*◌, ◌<◌, ◌≤◌, List, [], ◌∷◌, length};
ghost use Rattle.ring_core.specs.Kernel.{RunsSha2, RunsSha2Words};
ghost use Rattle.ring_core.specs.Prelude.{IsBlockOf, W, add_state, block_step};
ghost use Rattle.ring_core.specs.Prelude.{chunk_items, chunk_total, family_256, four};
ghost use Rattle.ring_core.specs.Prelude.{ready_sum, rounds_from, sixteen, words_32};

use crate::cost::Meter;
use crate::digest::instructions::vector::{read_words, vector, words_of};
use crate::digest::word::Sha2;
use crate::polyfill::slice::AsChunks;
use std::num::Wrapping;
use std::simd::u32x4;

type Word32 = Wrapping<u32>;

// The steps of the block function as a processor's instructions take them, over the words of a
// state, or the working variables, in two vectors.
pub(crate) trait Sha256Instructions {
    // the words from a to h that two vectors hold
    ghost variables: { List ℕ × List ℕ → List ℕ };

    // The vectors of a state.
    fn pack(state: &[Word32; 8]) -> (u32x4, u32x4)
        ensures { variables result ≡ words_32 state.now };

    // The state of two vectors.
    fn unpack(state: (u32x4, u32x4)) -> [Word32; 8]
        ensures { words_32 result ≡ variables state };

    // Each word of `state` with its variable of `v` added (step 4).
    fn add_state(state: (u32x4, u32x4), v: (u32x4, u32x4)) -> (u32x4, u32x4)
        ensures { variables result ≡ add_state 32 (variables state) (variables v) };

    // Four rounds (step 3), from the sums of their constants and words.
    fn four_rounds(v: (u32x4, u32x4), sums: u32x4) -> (u32x4, u32x4)
        ensures { (h b : List ℕ) (g : ℕ) → sums ≡ four (ready_sum family_256 b) g
            → variables v ≡ rounds_from family_256 h b (4 * g)
            → variables result ≡ rounds_from family_256 h b (4 * (g + 1)) };

    // The four words of the schedule after sixteen (step 1).
    fn next_four(first: u32x4, second: u32x4, third: u32x4, fourth: u32x4) -> u32x4
        ensures { (b : List ℕ) (g : ℕ)
            → first ∷ second ∷ third ∷ fourth ∷ [] ≡ sixteen (W family_256 b) g
            → result ≡ four (W family_256 b) (g + 4) };
}

// Each function up to `run_block` is always inlined: the vectors then stay in registers, and the
// words after the last turn aren't computed.

// The sums of words `t` to `t + 3` and their constants.
#[inline(always)]
fn with_constants(words: u32x4, t: usize) -> u32x4
    requires { t + 4 ≤ 64 }
    ensures { (b : List ℕ) (g : ℕ) → t ≡ 4 * g → words ≡ four (W family_256 b) g
        → result ≡ four (ready_sum family_256 b) g }
{
    let constants = vector(
        Word32::k(t),
        Word32::k(t + 1),
        Word32::k(t + 2),
        Word32::k(t + 3),
    );
    constants + words
}

// Sixteen rounds from round `t` on, from their words, and between them the sixteen words after.
#[inline(always)]
fn turn_ahead<I: Sha256Instructions>(
    variables: &mut (u32x4, u32x4),
    words: [u32x4; 4],
    t: usize,
) -> [u32x4; 4]
    requires { t + 16 ≤ 64 }
    ensures { (h b : List ℕ) (g : ℕ) → t ≡ 4 * g → words ≡ sixteen (W family_256 b) g
        → I.variables variables.old ≡ rounds_from family_256 h b (4 * g)
        → (I.variables variables.new ≡ rounds_from family_256 h b (4 * (g + 4)))
        × (result ≡ sixteen (W family_256 b) (g + 4)) }
{
    let [first, second, third, fourth] = words;
    let v = I::four_rounds(*variables, with_constants(first, t));
    let fifth = I::next_four(first, second, third, fourth);
    let v = I::four_rounds(v, with_constants(second, t + 4));
    let sixth = I::next_four(second, third, fourth, fifth);
    let v = I::four_rounds(v, with_constants(third, t + 8));
    let seventh = I::next_four(third, fourth, fifth, sixth);
    *variables = I::four_rounds(v, with_constants(fourth, t + 12));
    let eighth = I::next_four(fourth, fifth, sixth, seventh);
    [fifth, sixth, seventh, eighth]
}

// The words of a block.
#[inline(always)]
fn read_block(block: &[u8]) -> [u32x4; 4]
    requires { length block.now ≡ 64 }
    ensures { result ≡ sixteen (W family_256 block.now) 0 }
{
    [
        read_words(block, 0),
        read_words(block, 1),
        read_words(block, 2),
        read_words(block, 3),
    ]
}

// The state after a block, from its words.
#[inline(always)]
fn run_block<I: Sha256Instructions>(state: (u32x4, u32x4), words: [u32x4; 4]) -> (u32x4, u32x4)
    ensures { (b : List ℕ) → words ≡ sixteen (W family_256 b) 0
        → I.variables result ≡ block_step family_256 (I.variables state) b }
{
    let mut variables = state; // step 2
    let second = turn_ahead::<I>(&mut variables, words, 0); // steps 1 and 3
    let third = turn_ahead::<I>(&mut variables, second, 16);
    let fourth = turn_ahead::<I>(&mut variables, third, 32);
    let _ = turn_ahead::<I>(&mut variables, fourth, 48);
    I::add_state(state, variables) // step 4
}

// The words of a block that is given as words.
#[inline(always)]
fn block_of_words(front: &[Word32; 8], padding: &[Word32; 16]) -> [u32x4; 4]
    ensures { (b : List ℕ) → IsBlockOf 32 8 (words_32 front.now) (words_32 padding.now) b
        → result ≡ sixteen (W family_256 b) 0 }
{
    [
        words_of::<8>(front, padding, 0),
        words_of::<8>(front, padding, 1),
        words_of::<8>(front, padding, 2),
        words_of::<8>(front, padding, 3),
    ]
}

// Runs the block function over each block in order. Were this inlined, each caller would have a
// copy.
#[inline(never)]
#[tactic(auto, using(crate::proofs::Costs::rises, crate::proofs::ChunkFolds::folds))]
pub(crate) fn run_blocks<I: Sha256Instructions>(
    state: &mut [Word32; 8],
    blocks: AsChunks<'_, u8, 64>,
    meter: &mut Meter,
)
    ensures { RunsSha2 family_256 (words_32 state.old) (words_32 state.new)
        (chunk_items blocks.entry) (chunk_total blocks.entry) meter.old meter.new }
{
    let mut vectors = I::pack(state);
    'each: for i in 0..blocks.len() {
        vectors = run_block::<I>(vectors, read_block(&blocks[i]));
        meter.add_block();
    }
    *state = I::unpack(vectors);
}

// Runs the block function over one block, whose first eight words are those of `front`, and whose
// other words are those of `padding`.
#[inline(never)]
pub(crate) fn run_words<I: Sha256Instructions>(
    state: &mut [Word32; 8],
    front: &[Word32; 8],
    padding: &[Word32; 16],
    meter: &mut Meter,
)
    ensures { RunsSha2Words family_256 8 (words_32 state.old) (words_32 state.new)
        (words_32 front.now) (words_32 padding.now) meter.old meter.new }
{
    let vectors = run_block::<I>(I::pack(state), block_of_words(front, padding));
    *state = I::unpack(vectors);
    meter.add_block();
}
