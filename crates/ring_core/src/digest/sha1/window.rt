// SPDX-License-Identifier: ISC
//! The block function of SHA-1 over a window of the schedule's last sixteen words, of which two are
//! replaced at a time (FIPS 180-4, 6.1.2, steps 1 to 4), of one block, or in lanes, each that of a
//! block of its own. Of one block each step computes both words at once, in the two lanes of a
//! vector.
ghost use Rattle.std.specs.Prelude.{◌≡◌, ℕ, ◌+◌, ◌*◌, ◌<◌, ◌≤◌, List, drop, length, map, take};
ghost use Rattle.ring_core.specs.Prelude.{IsBefore, IsBlockOf, IsWindow, chunk_items, chunk_total};
ghost use Rattle.ring_core.specs.Prelude.{raised, word_32, word_at};
ghost use Rattle.ring_core.specs.Kernel.{RunsSha1, RunsSha1Words};
ghost use Rattle.ring_core.specs.Sha1.{W, block_step, blocks_from, rounds_from, scheduled};

use crate::cost::Meter;
use crate::digest::sha1::round::{CHAINING_WORDS, add_state, round, round_constant};
use crate::digest::word::Word;
use crate::digest::word::lanes::{
    BlockWords, FitsWindow, FrontAndPadding, LaneWord, SameBlock, Vector, in_two_lanes, load, pair,
    set_pair,
};
use crate::polyfill::slice::AsChunks;
use std::num::Wrapping;
use std::simd::u32x2;

// The pairs of words that begin 16, 14, 8 and 3 words before the next pair.
#[derive(Drop)]
pub(crate) struct Before<T: Copy> {
    pub(crate) sixteen: (T, T),
    pub(crate) fourteen: (T, T),
    pub(crate) eight: (T, T),
    pub(crate) three: (T, T),
}

// Words of 32 bits, one in each lane, and the step of SHA-1's schedule to the next two.
pub(crate) trait Sha1ByTwo: LaneWord + FitsWindow {
    // The pair of words after those in `before`.
    fn next_two(before: &Before<Self>) -> (Self, Self)
        ensures first { (i : ℕ) → Self.lane i result.0 ≡ scheduled
            (Self.lane i before.now.three.0) (Self.lane i before.now.eight.0)
            (Self.lane i before.now.fourteen.0) (Self.lane i before.now.sixteen.0) }
        ensures second { (i : ℕ) → Self.lane i result.1 ≡ scheduled
            (Self.lane i before.now.three.1) (Self.lane i before.now.eight.1)
            (Self.lane i before.now.fourteen.1) (Self.lane i before.now.sixteen.1) };
}

// The next word of each lane, from the words 3, 8, 14 and 16 before it.
#[inline(always)]
pub(crate) fn next_word<S: LaneWord<One = Wrapping<u32>>>(
    three: S,
    eight: S,
    fourteen: S,
    sixteen: S,
) -> S
    ensures { (i : ℕ) → S.lane i result ≡ scheduled (S.lane i three) (S.lane i eight)
        (S.lane i fourteen) (S.lane i sixteen) }
{
    three
        .bit_xor(eight)
        .bit_xor(fourteen)
        .bit_xor(sixteen)
        .rotr(31)
}

// The next two words of one block: the first in lane 0 of a vector, the second in lane 1.
#[inline(always)]
fn next_in_two_lanes<V: Vector<One = Wrapping<u32>>>(
    before: &Before<Wrapping<u32>>,
) -> (Wrapping<u32>, Wrapping<u32>)
    requires { V.LANES ≡ 2 }
    ensures first { word_32 result.0 ≡ scheduled
        (word_32 before.now.three.0) (word_32 before.now.eight.0)
        (word_32 before.now.fourteen.0) (word_32 before.now.sixteen.0) }
    ensures second { word_32 result.1 ≡ scheduled
        (word_32 before.now.three.1) (word_32 before.now.eight.1)
        (word_32 before.now.fourteen.1) (word_32 before.now.sixteen.1) }
{
    let three = in_two_lanes::<V>(before.three);
    let eight = in_two_lanes::<V>(before.eight);
    let fourteen = in_two_lanes::<V>(before.fourteen);
    let sixteen = in_two_lanes::<V>(before.sixteen);
    let next = next_word(three, eight, fourteen, sixteen);
    (next.word(0), next.word(1))
}

impl Sha1ByTwo for Wrapping<u32> {
    #[inline(always)]
    fn next_two(before: &Before<Wrapping<u32>>) -> (Wrapping<u32>, Wrapping<u32>) {
        next_in_two_lanes::<u32x2>(before)
    }
}

// Fills the slots of words `t` and `t + 1`.
#[inline(always)]
fn extend<S: Sha1ByTwo<One = Wrapping<u32>>>(window: &mut [S; 16], t: usize)
    requires from { 16 ≤ t }
    requires below { t + 2 ≤ 80 }
    ensures { (i : ℕ) (b : List ℕ) → IsWindow (W b) (map (S.lane i) window.old) t
        → IsWindow (W b) (map (S.lane i) window.new) (t + 2) }
{
    let sixteen = pair(window, t % 16);
    let fourteen = pair(window, (t + 2) % 16);
    let eight = pair(window, (t + 8) % 16);
    let three = pair(window, (t + 13) % 16);
    let before = Before {
        sixteen,
        fourteen,
        eight,
        three,
    };
    set_pair(window, t % 16, S::next_two(&before));
}

// From here to `run_block` each function is inlined: slots are then literals, and so are the round
// numbers, by which functions and constants are chosen.

// Rounds `t` and `t + 1`.
#[inline(always)]
fn two_rounds<S: Sha1ByTwo<One = Wrapping<u32>>>(window: &[S; 16], v: [S; 5], t: usize) -> [S; 5]
    requires some { 0 < S.LANES }
    requires rounds { t + 2 ≤ 80 }
    ensures { (i : ℕ) (h b : List ℕ) (n : ℕ) → IsWindow (W b) (map (S.lane i) window.now) n
        → t + 2 ≤ n → n ≤ t + 16 → map (S.lane i) v ≡ rounds_from h b t
        → map (S.lane i) result ≡ rounds_from h b (t + 2) }
{
    let (word, next) = pair(window, t % 16);
    let first = S::splat(round_constant(t)).plus(word);
    let second = S::splat(round_constant(t + 1)).plus(next);
    round(round(v, t, first), t + 1, second)
}

// The same from round 16 on, where the words are computed first. It isn't always inlined: LLVM
// takes four minutes for eighty rounds that are inlined before any is simplified.
#[inline]
fn next_two_rounds<S: Sha1ByTwo<One = Wrapping<u32>>>(
    window: &mut [S; 16],
    v: [S; 5],
    t: usize,
) -> [S; 5]
    requires some { 0 < S.LANES }
    requires from { 16 ≤ t }
    requires below { t + 2 ≤ 80 }
    ensures { (i : ℕ) (h b : List ℕ)
        → IsBefore (W b) (rounds_from h b) (map (S.lane i) window.old) (map (S.lane i) v) t
        → IsBefore (W b) (rounds_from h b) (map (S.lane i) window.new) (map (S.lane i) result)
        (t + 2) }
{
    extend::<S>(window, t);
    two_rounds(window, v, t)
}

// Four rounds.
#[inline(always)]
fn next_four_rounds<S: Sha1ByTwo<One = Wrapping<u32>>>(
    window: &mut [S; 16],
    v: [S; 5],
    t: usize,
) -> [S; 5]
    requires some { 0 < S.LANES }
    requires from { 16 ≤ t }
    requires below { t + 4 ≤ 80 }
    ensures { (i : ℕ) (h b : List ℕ)
        → IsBefore (W b) (rounds_from h b) (map (S.lane i) window.old) (map (S.lane i) v) t
        → IsBefore (W b) (rounds_from h b) (map (S.lane i) window.new) (map (S.lane i) result)
        (t + 4) }
{
    let v = next_two_rounds(window, v, t);
    next_two_rounds(window, v, t + 2)
}

// Runs the block function in each lane, over the block there. Each call of rounds stands here, so
// that it is inlined for each kind of block. The compiler keeps as many words in registers as it
// can.
pub(crate) fn run_block<S: Sha1ByTwo<One = Wrapping<u32>>, B: BlockWords<S>>(
    state: &mut [S; 8],
    block: &B,
)
    requires some { 0 < S.LANES }
    requires whole { B.is_whole block.now }
    ensures words { (i : ℕ) (b : List ℕ) → B.is_block i block.now b
        → take 5 (map (S.lane i) state.new) ≡ block_step (take 5 (map (S.lane i) state.old)) b }
    ensures rest { drop 5 state.new ≡ drop 5 state.old }
{
    let mut words = [S::splat(S::One::ZERO); 16];
    load(&mut words, block); // step 1, to W(15)
    let v = [state[0], state[1], state[2], state[3], state[4]]; // step 2
    let v = two_rounds(&words, v, 0); // step 3
    let v = two_rounds(&words, v, 2);
    let v = two_rounds(&words, v, 4);
    let v = two_rounds(&words, v, 6);
    let v = two_rounds(&words, v, 8);
    let v = two_rounds(&words, v, 10);
    let v = two_rounds(&words, v, 12);
    let v = two_rounds(&words, v, 14);
    let v = next_four_rounds(&mut words, v, 16); // steps 1 and 3
    let v = next_four_rounds(&mut words, v, 20);
    let v = next_four_rounds(&mut words, v, 24);
    let v = next_four_rounds(&mut words, v, 28);
    let v = next_four_rounds(&mut words, v, 32);
    let v = next_four_rounds(&mut words, v, 36);
    let v = next_four_rounds(&mut words, v, 40);
    let v = next_four_rounds(&mut words, v, 44);
    let v = next_four_rounds(&mut words, v, 48);
    let v = next_four_rounds(&mut words, v, 52);
    let v = next_four_rounds(&mut words, v, 56);
    let v = next_four_rounds(&mut words, v, 60);
    let v = next_four_rounds(&mut words, v, 64);
    let v = next_four_rounds(&mut words, v, 68);
    let v = next_four_rounds(&mut words, v, 72);
    let last = next_four_rounds(&mut words, v, 76);
    *state = add_state(state, &last); // step 4
}

// Runs the block function over each block in order.
#[tactic(auto, using(crate::proofs::Costs::rises, crate::proofs::ChunkFolds::folds))]
fn run_blocks(state: &mut [Wrapping<u32>; 8], blocks: AsChunks<'_, u8, 64>, meter: &mut Meter)
    ensures { RunsSha1 state.old state.new
        (chunk_items blocks.entry) (chunk_total blocks.entry) meter.old meter.new }
{
    'each: for i in 0..blocks.len() {
        run_block(state, &SameBlock(&blocks[i]));
        meter.add_block();
    }
}

// Runs the block function in each lane, over a block whose first five words are those of the lane
// in `front`, and whose other words are those of `padding`, and counts these blocks.
pub(crate) fn run_words<S: Sha1ByTwo<One = Wrapping<u32>>>(
    state: &mut [S; 8],
    front: &[S; 8],
    padding: &[Wrapping<u32>; 16],
    meter: &mut Meter,
)
    requires { 0 < S.LANES }
    ensures words { (i : ℕ) (b : List ℕ)
        → IsBlockOf 32 5 (map (S.lane i) front.now) (map word_32 padding.now) b
        → take 5 (map (S.lane i) state.new) ≡ block_step (take 5 (map (S.lane i) state.old)) b }
    ensures rest { drop 5 state.new ≡ drop 5 state.old }
    ensures cost { meter.new ≡ raised meter.old S.LANES 0 }
    ensures eight { length front.now ≡ 8 }
{
    let block = FrontAndPadding::<S, Wrapping<u32>, CHAINING_WORDS> { front, padding };
    run_block(state, &block);
    meter.add_blocks(S::LANES);
}

/// Runs the block function as [`sha1_block_data_order`] does, and counts each block on `meter`.
pub fn sha1_block_data_order_counted(
    state: &mut [Wrapping<u32>; 8],
    blocks: AsChunks<'_, u8, 64>,
    meter: &mut Meter,
)
    ensures { RunsSha1 state.old state.new
        (chunk_items blocks.entry) (chunk_total blocks.entry) meter.old meter.new }
{
    run_blocks(state, blocks, meter)
}

/// Runs SHA-1's block function over each of `blocks`, of 64 bytes, in order (6.1.2).
///
/// The first five words of `state` are the chaining words, which are replaced. The last three stay.
pub fn sha1_block_data_order(state: &mut [Wrapping<u32>; 8], blocks: AsChunks<'_, u8, 64>)
    ensures words { take 5 (map word_32 state.new)
        ≡ blocks_from (take 5 (map word_32 state.old))
        (chunk_items blocks.entry) (chunk_total blocks.entry) }
    ensures rest { drop 5 state.new ≡ drop 5 state.old }
{
    sha1_block_data_order_counted(state, blocks, &mut Meter::new())
}

/// Runs SHA-1's block function over one block that is given as words (6.1.2): the first five words
/// of `front`, and then those of `padding` from the sixth on. So a digest is hashed again without
/// its bytes.
///
/// The first five words of `state` are replaced, and the last three stay. One block is counted on
/// `meter`.
pub fn sha1_block_of_words_counted(
    state: &mut [Wrapping<u32>; 8],
    front: &[Wrapping<u32>; 8],
    padding: &[Wrapping<u32>; 16],
    meter: &mut Meter,
)
    ensures { RunsSha1Words state.old state.new front.now padding.now meter.old meter.new }
{
    run_words::<Wrapping<u32>>(state, front, padding, meter)
}
