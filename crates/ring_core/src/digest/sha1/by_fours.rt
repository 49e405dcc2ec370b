// SPDX-License-Identifier: ISC
//! The block function of SHA-1 over the blocks of one message, one after another (FIPS 180-4,
//! 6.1.2, steps 1 to 4), by fours: the schedule is made four words at a time and is sixteen words
//! ahead of the rounds, which add ready sums of words and constants.
ghost use Rattle.std.specs.Prelude.{◌≡◌, ℕ, ◌+◌, ◌*◌, ◌<◌, ◌≤◌, List, [], ◌∷◌, drop, map, take};
ghost use Rattle.ring_core.specs.FourWords.{later_four, next_four};
ghost use Rattle.ring_core.specs.Prelude.{HoldsSums, IsAhead, IsReady, IsSummed, chunk_items};
ghost use Rattle.ring_core.specs.Prelude.{chunk_total, four, low_32, sixteen, word_32, word_at};
ghost use Rattle.ring_core.specs.Kernel.{RunsSha1, RunsSha1Words};
ghost use Rattle.ring_core.specs.Sha1.{HasWords, W, block_step, ready_sum};
ghost use Rattle.ring_core.specs.Sha1.{rounds_from};

use crate::cost::Meter;
use crate::digest::sha1::round::{CHAINING_WORDS, add_state, round, round_constant};
use crate::digest::word::lanes::{FourWords, four_of, read_four};
use crate::digest::word::w32::rotate_four;
use crate::polyfill::slice::AsChunks;
use std::num::Wrapping;
use std::simd::u32x4;

type Word32 = Wrapping<u32>;

// The four words after sixteen. The last of them needs the first, which is put in afterwards.
#[inline(always)]
fn next_four(first: u32x4, second: u32x4, third: u32x4, fourth: u32x4) -> u32x4
    ensures { result ≡ next_four first second third fourth }
{
    let zero = u32x4::splat(0);
    let three = fourth.shuffle(zero, [1, 2, 3, 4]);
    let fourteen = first.shuffle(second, [2, 3, 4, 5]);
    let part = rotate_four(three ^ third ^ fourteen ^ first, 31);
    part ^ rotate_four(zero.shuffle(part, [0, 0, 0, 4]), 31)
}

// The four words after thirty-two, each from those 6, 16, 28 and 32 before it, so that none of the
// four needs another.
#[inline(always)]
fn later_four(first: u32x4, second: u32x4, fifth: u32x4, seventh: u32x4, eighth: u32x4) -> u32x4
    ensures { result ≡ later_four first second fifth seventh eighth }
{
    let six = seventh.shuffle(eighth, [2, 3, 4, 5]);
    rotate_four(six ^ fifth ^ second ^ first, 30)
}

// Replaces the oldest four sums by those of words `t` to `t + 3`.
#[inline(always)]
fn put_sums(sums: &mut [u32x4; 4], words: u32x4, t: usize)
    requires { t + 4 ≤ 80 }
    ensures { (b : List ℕ) (g : ℕ) → t ≡ 4 * g → words ≡ four (W b) g
        → HoldsSums (ready_sum b) (map (map low_32) sums.old) g
        → HoldsSums (ready_sum b) (map (map low_32) sums.new) (g + 1) }
{
    let constants = Word32::four(
        round_constant(t),
        round_constant(t + 1),
        round_constant(t + 2),
        round_constant(t + 3),
    );
    sums[t / 4 % 4] = Word32::sums(constants, words);
}

// Fills the sums with those of a block's words, in fours.
#[inline(always)]
fn put_first_sums(sums: &mut [u32x4; 4], words: [u32x4; 4])
    ensures { (b : List ℕ) → words ≡ sixteen (W b) 0
        → HoldsSums (ready_sum b) (map (map low_32) sums.new) 4 }
{
    let [first, second, third, fourth] = words;
    put_sums(sums, first, 0);
    put_sums(sums, second, 4);
    put_sums(sums, third, 8);
    put_sums(sums, fourth, 12);
}

// Each function up to `run_ahead` is always inlined: places are then literals, and so are the round
// numbers, by which functions and constants are chosen.

// Rounds `t` to `t + 3`.
#[inline(always)]
fn four_rounds(sums: &[u32x4; 4], v: [Word32; 5], t: usize) -> [Word32; 5]
    requires { t + 4 ≤ 80 }
    ensures { (h b : List ℕ) (n g : ℕ) → t ≡ 4 * g
        → HoldsSums (ready_sum b) (map (map low_32) sums.now) n → g < n → n ≤ g + 4
        → map word_32 v ≡ rounds_from h b (4 * g)
        → map word_32 result ≡ rounds_from h b (4 * (g + 1)) }
{
    let four = &sums[t / 4 % 4];
    let v = round(v, t, Word32::word(four, 0));
    let v = round(v, t + 1, Word32::word(four, 1));
    let v = round(v, t + 2, Word32::word(four, 2));
    round(v, t + 3, Word32::word(four, 3))
}

// The same, and then their sums are replaced by those of the words sixteen after, which are given.
#[inline(always)]
fn four_rounds_ahead(sums: &mut [u32x4; 4], v: [Word32; 5], words: u32x4, t: usize) -> [Word32; 5]
    requires { t + 20 ≤ 80 }
    ensures { (h b : List ℕ) (g : ℕ) → t ≡ 4 * g → words ≡ four (W b) (g + 4)
        → IsSummed (ready_sum b) (rounds_from h b) (map (map low_32) sums.old) (map word_32 v) g
        → IsSummed (ready_sum b) (rounds_from h b)
        (map (map low_32) sums.new) (map word_32 result) (g + 1) }
{
    let v = four_rounds(sums, v, t);
    put_sums(sums, words, t + 16);
    v
}

// The first sixteen rounds, and between them the sixteen words after those that are given.
#[inline(always)]
fn first_turn(sums: &mut [u32x4; 4], variables: &mut [Word32; 5], words: [u32x4; 4]) -> [u32x4; 4]
    ensures { (h b : List ℕ)
        → IsAhead (W b) (ready_sum b) (rounds_from h b) words
        (map (map low_32) sums.old) (map word_32 variables.old) 0
        → IsAhead (W b) (ready_sum b) (rounds_from h b) result
        (map (map low_32) sums.new) (map word_32 variables.new) 4 }
{
    let [first, second, third, fourth] = words;
    let fifth = next_four(first, second, third, fourth);
    let v = four_rounds_ahead(sums, *variables, fifth, 0);
    let sixth = next_four(second, third, fourth, fifth);
    let v = four_rounds_ahead(sums, v, sixth, 4);
    let seventh = next_four(third, fourth, fifth, sixth);
    let v = four_rounds_ahead(sums, v, seventh, 8);
    let eighth = next_four(fourth, fifth, sixth, seventh);
    *variables = four_rounds_ahead(sums, v, eighth, 12);
    [fifth, sixth, seventh, eighth]
}

// The sixteen rounds of a later turn, whose words are `newer`, and between them the sixteen words
// after these, from those and the sixteen before, `older`. The turn is a const argument, so that
// round numbers are literals.
#[inline(always)]
fn later_turn<const TURN: usize>(
    sums: &mut [u32x4; 4],
    variables: &mut [Word32; 5],
    older: [u32x4; 4],
    newer: [u32x4; 4],
) -> [u32x4; 4]
    requires later { 1 ≤ TURN }
    requires turn { TURN < 4 }
    ensures { (h b : List ℕ) (g : ℕ) → g + 4 ≡ 4 * TURN → HasWords b → older ≡ sixteen (W b) g
        → IsAhead (W b) (ready_sum b) (rounds_from h b) newer
        (map (map low_32) sums.old) (map word_32 variables.old) (g + 4)
        → IsAhead (W b) (ready_sum b) (rounds_from h b) result
        (map (map low_32) sums.new) (map word_32 variables.new) (g + 8) }
{
    let t = 16 * TURN;
    let [first, second, third, fourth] = older;
    let [fifth, sixth, seventh, eighth] = newer;
    let ninth = later_four(first, second, fifth, seventh, eighth);
    let v = four_rounds_ahead(sums, *variables, ninth, t);
    let tenth = later_four(second, third, sixth, eighth, ninth);
    let v = four_rounds_ahead(sums, v, tenth, t + 4);
    let eleventh = later_four(third, fourth, seventh, ninth, tenth);
    let v = four_rounds_ahead(sums, v, eleventh, t + 8);
    let twelfth = later_four(fourth, fifth, eighth, tenth, eleventh);
    *variables = four_rounds_ahead(sums, v, twelfth, t + 12);
    [ninth, tenth, eleventh, twelfth]
}

// The last sixteen rounds.
#[inline(always)]
fn last_turn(sums: &[u32x4; 4], v: [Word32; 5]) -> [Word32; 5]
    ensures { (h b : List ℕ) → HoldsSums (ready_sum b) (map (map low_32) sums.now) 20
        → map word_32 v ≡ rounds_from h b 64 → map word_32 result ≡ rounds_from h b 80 }
{
    let v = four_rounds(sums, v, 64);
    let v = four_rounds(sums, v, 68);
    let v = four_rounds(sums, v, 72);
    four_rounds(sums, v, 76)
}

// Runs the block function over a block, from its words in fours, which stay in registers as
// parameters of their own, and from their sums. Were this inlined, `sums` would be no memory, and
// each sum would be taken out of its vector; with two callers the compiler would call the turns.
#[inline(never)]
fn run_ahead(
    sums: &mut [u32x4; 4],
    state: &mut [Word32; 8],
    first: u32x4,
    second: u32x4,
    third: u32x4,
    fourth: u32x4,
)
    ensures words { (b : List ℕ) → HasWords b
        → IsReady (W b) (ready_sum b) (first ∷ second ∷ third ∷ fourth ∷ [])
        (map (map low_32) sums.old) 0
        → take 5 (map word_32 state.new) ≡ block_step (take 5 (map word_32 state.old)) b }
    ensures rest { drop 5 state.new ≡ drop 5 state.old }
{
    let words = [first, second, third, fourth];
    let mut variables = [state[0], state[1], state[2], state[3], state[4]]; // step 2
    let next = first_turn(sums, &mut variables, words); // steps 1 and 3
    let newer = later_turn::<1>(sums, &mut variables, words, next);
    let newest = later_turn::<2>(sums, &mut variables, next, newer);
    let _ = later_turn::<3>(sums, &mut variables, newer, newest);
    let last = last_turn(sums, variables);
    *state = add_state(state, &last); // step 4
}

// Runs the block function over a block, from its words in fours. `sums` is room for sums. Storing
// the first ones here makes the compiler align the room: else a vector of it lies across two lines
// of the cache, and a block of SHA-1 takes 2 per cent longer.
#[inline(always)]
fn run_block(
    sums: &mut [u32x4; 4],
    state: &mut [Word32; 8],
    first: u32x4,
    second: u32x4,
    third: u32x4,
    fourth: u32x4,
)
    ensures words { (b : List ℕ) → let w = four (word_at 32 b) in
        map low_32 first ≡ w 0 → map low_32 second ≡ w 1 → map low_32 third ≡ w 2
        → map low_32 fourth ≡ w 3
        → take 5 (map word_32 state.new) ≡ block_step (take 5 (map word_32 state.old)) b }
    ensures rest { drop 5 state.new ≡ drop 5 state.old }
{
    put_first_sums(sums, [first, second, third, fourth]); // step 1, to W(15)
    run_ahead(sums, state, first, second, third, fourth);
}

// Runs the block function over each block in order.
#[inline(always)]
#[tactic(auto, using(crate::proofs::Costs::rises, crate::proofs::ChunkFolds::folds))]
pub(crate) fn run_blocks(
    sums: &mut [u32x4; 4],
    state: &mut [Word32; 8],
    blocks: AsChunks<'_, u8, 64>,
    meter: &mut Meter,
)
    ensures { RunsSha1 state.old state.new
        (chunk_items blocks.entry) (chunk_total blocks.entry) meter.old meter.new }
{
    'each: for i in 0..blocks.len() {
        let block = &blocks[i];
        let first = read_four::<Word32>(block, 0);
        let second = read_four::<Word32>(block, 1);
        let third = read_four::<Word32>(block, 2);
        let fourth = read_four::<Word32>(block, 3);
        run_block(sums, state, first, second, third, fourth);
        meter.add_block();
    }
}

// Runs the block function over one block, whose first five words are those of `front`, and whose
// other words are those of `padding`.
#[inline(always)]
pub(crate) fn run_words(
    sums: &mut [u32x4; 4],
    state: &mut [Word32; 8],
    front: &[Word32; 8],
    padding: &[Word32; 16],
    meter: &mut Meter,
)
    ensures { RunsSha1Words state.old state.new front.now padding.now meter.old meter.new }
{
    let first = four_of::<Word32, CHAINING_WORDS>(front, padding, 0);
    let second = four_of::<Word32, CHAINING_WORDS>(front, padding, 1);
    let third = four_of::<Word32, CHAINING_WORDS>(front, padding, 2);
    let fourth = four_of::<Word32, CHAINING_WORDS>(front, padding, 3);
    run_block(sums, state, first, second, third, fourth);
    meter.add_block();
}
