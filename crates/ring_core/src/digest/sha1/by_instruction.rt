// SPDX-License-Identifier: ISC
//! The block function of SHA-1 over the blocks of one message, one after another (FIPS 180-4,
//! 6.1.2, steps 1 to 4), four rounds at a time, by a processor's instructions: written once for all
//! processors.
ghost use Rattle.std.specs.Prelude.{◌≡◌, ℕ, ◌+◌, ◌*◌, ◌<◌, ◌≤◌, List, [], ◌∷◌, length, map, take};
ghost use Rattle.ring_core.specs.Prelude.{IsBlockOf, chunk_items, chunk_total, four};
ghost use Rattle.ring_core.specs.Prelude.{sixteen, word_32};
ghost use Rattle.ring_core.specs.Kernel.{RunsSha1, RunsSha1Words};
ghost use Rattle.ring_core.specs.Sha1.{W, add_state, block_step, rounds_from};

use crate::cost::Meter;
use crate::digest::instructions::vector::{read_words, words_of};
use crate::digest::sha1::round::CHAINING_WORDS;
use crate::polyfill::slice::AsChunks;
use std::num::Wrapping;
use std::simd::u32x4;

type Word32 = Wrapping<u32>;

// The steps of the block function as a processor's instructions take them.
pub(crate) trait Sha1Instructions {
    // the words of a state, or the working variables
    type State: Copy;

    // them, from a to e
    ghost variables: { Self.State → List ℕ };

    // the four words of the schedule in a vector, in order
    ghost in_order: { List ℕ → List ℕ };

    // The form of these words.
    fn pack(words: [Word32; 5]) -> Self::State
        ensures { variables result ≡ map word_32 words };

    // The words of a state.
    fn unpack(state: Self::State) -> [Word32; 5]
        ensures { map word_32 result ≡ variables state };

    // Each word of `state` with its variable of `v` added (step 4).
    fn add_state(state: Self::State, v: Self::State) -> Self::State
        ensures { variables result ≡ add_state (variables state) (variables v) };

    // The vector that holds these words.
    fn ordered(words: u32x4) -> u32x4
        ensures { in_order result ≡ words };

    // Four of the twenty rounds of part `part` (step 3), from their words.
    fn four_rounds(v: Self::State, words: u32x4, part: usize) -> Self::State
        requires { part < 4 }
        ensures { (h b : List ℕ) (g : ℕ) → 5 * part ≤ g → g < 5 * part + 5
            → in_order words ≡ four (W b) g → variables v ≡ rounds_from h b (4 * g)
            → variables result ≡ rounds_from h b (4 * (g + 1)) };

    // The four words of the schedule after sixteen (step 1).
    fn next_four(first: u32x4, second: u32x4, third: u32x4, fourth: u32x4) -> u32x4
        ensures { (b : List ℕ) (g : ℕ)
            → in_order first ∷ in_order second ∷ in_order third ∷ in_order fourth ∷ []
            ≡ sixteen (W b) g
            → in_order result ≡ four (W b) (g + 4) };
}

// Each function up to `run_block` is always inlined: the vectors then stay in registers, and the
// words after the last part aren't computed. Parts are then literals.

// The twenty rounds of part `part`, from the words of the first sixteen, and between them the next
// twenty words, of which the last sixteen are given.
#[inline(always)]
fn twenty_rounds<I: Sha1Instructions>(
    variables: &mut I::State,
    words: [u32x4; 4],
    part: usize,
) -> [u32x4; 4]
    requires { part < 4 }
    ensures { (h b : List ℕ) (g : ℕ) → g ≡ 5 * part → map I.in_order words ≡ sixteen (W b) g
        → I.variables variables.old ≡ rounds_from h b (4 * g)
        → (I.variables variables.new ≡ rounds_from h b (4 * (g + 5)))
        × (map I.in_order result ≡ sixteen (W b) (g + 5)) }
{
    let [first, second, third, fourth] = words;
    let v = I::four_rounds(*variables, first, part);
    let fifth = I::next_four(first, second, third, fourth);
    let v = I::four_rounds(v, second, part);
    let sixth = I::next_four(second, third, fourth, fifth);
    let v = I::four_rounds(v, third, part);
    let seventh = I::next_four(third, fourth, fifth, sixth);
    let v = I::four_rounds(v, fourth, part);
    let eighth = I::next_four(fourth, fifth, sixth, seventh);
    *variables = I::four_rounds(v, fifth, part);
    let ninth = I::next_four(fifth, sixth, seventh, eighth);
    [sixth, seventh, eighth, ninth]
}

// The words of a block.
#[inline(always)]
fn read_block<I: Sha1Instructions>(block: &[u8]) -> [u32x4; 4]
    requires { length block.now ≡ 64 }
    ensures { map I.in_order result ≡ sixteen (W block.now) 0 }
{
    [
        I::ordered(read_words(block, 0)),
        I::ordered(read_words(block, 1)),
        I::ordered(read_words(block, 2)),
        I::ordered(read_words(block, 3)),
    ]
}

// The state after a block, from its words.
#[inline(always)]
fn run_block<I: Sha1Instructions>(state: I::State, words: [u32x4; 4]) -> I::State
    ensures { (b : List ℕ) → map I.in_order words ≡ sixteen (W b) 0
        → I.variables result ≡ block_step (I.variables state) b }
{
    let mut variables = state; // step 2
    let second = twenty_rounds::<I>(&mut variables, words, 0); // steps 1 and 3
    let third = twenty_rounds::<I>(&mut variables, second, 1);
    let fourth = twenty_rounds::<I>(&mut variables, third, 2);
    let _ = twenty_rounds::<I>(&mut variables, fourth, 3);
    I::add_state(state, variables) // step 4
}

// The words of a block that is given as words.
#[inline(always)]
fn block_of_words<I: Sha1Instructions>(front: &[Word32; 8], padding: &[Word32; 16]) -> [u32x4; 4]
    ensures { (b : List ℕ) → IsBlockOf 32 5 (map word_32 front.now) (map word_32 padding.now) b
        → map I.in_order result ≡ sixteen (W b) 0 }
{
    [
        I::ordered(words_of::<CHAINING_WORDS>(front, padding, 0)),
        I::ordered(words_of::<CHAINING_WORDS>(front, padding, 1)),
        I::ordered(words_of::<CHAINING_WORDS>(front, padding, 2)),
        I::ordered(words_of::<CHAINING_WORDS>(front, padding, 3)),
    ]
}

// Runs the block function over each block in order. Were this inlined, each caller would have a
// copy.
#[inline(never)]
#[tactic(auto, using(crate::proofs::Costs::rises, crate::proofs::ChunkFolds::folds))]
pub(crate) fn run_blocks<I: Sha1Instructions>(
    state: &mut [Word32; 8],
    blocks: AsChunks<'_, u8, 64>,
    meter: &mut Meter,
)
    ensures { RunsSha1 state.old state.new
        (chunk_items blocks.entry) (chunk_total blocks.entry) meter.old meter.new }
{
    let [a, b, c, d, e, f, g, h] = *state;
    let mut words = I::pack([a, b, c, d, e]);
    'each: for i in 0..blocks.len() {
        words = run_block::<I>(words, read_block::<I>(&blocks[i]));
        meter.add_block();
    }
    let [a, b, c, d, e] = I::unpack(words);
    *state = [a, b, c, d, e, f, g, h];
}

// Runs the block function over one block, whose first five words are those of `front`, and whose
// other words are those of `padding`.
#[inline(never)]
pub(crate) fn run_words<I: Sha1Instructions>(
    state: &mut [Word32; 8],
    front: &[Word32; 8],
    padding: &[Word32; 16],
    meter: &mut Meter,
)
    ensures { RunsSha1Words state.old state.new front.now padding.now meter.old meter.new }
{
    let [a, b, c, d, e, f, g, h] = *state;
    let words = I::pack([a, b, c, d, e]);
    let [a, b, c, d, e] = I::unpack(run_block::<I>(words, block_of_words::<I>(front, padding)));
    *state = [a, b, c, d, e, f, g, h];
    meter.add_block();
}
