// SPDX-License-Identifier: ISC
//! The block function of SHA-2 over a window of the schedule's last sixteen words, of which two are
//! replaced at a time (FIPS 180-4, 6.2.2 and 6.4.2, steps 1 to 4). It is written once for both word
//! sizes, and for words in lanes, each of a block of its own. Of one block each step computes both
//! words at once, in the two lanes of a vector.
ghost use Rattle.std.specs.Prelude.{◌≡◌, ℕ, ◌+◌, ◌*◌, ◌%◌, ◌<◌, ◌≤◌, List, length, map};
ghost use Rattle.ring_core.specs.Kernel.{RunsSha2, RunsSha2Words};
ghost use Rattle.ring_core.specs.Prelude.{IsBefore, IsBlockOf, IsWindow, W, block_len, block_step};
ghost use Rattle.ring_core.specs.Prelude.{blocks_from, chunk_items, chunk_total, family_256};
ghost use Rattle.ring_core.specs.Prelude.{family_512, raised};
ghost use Rattle.ring_core.specs.Prelude.{rounds_from, scheduled, word_at, words_32, words_64};

use crate::cost::Meter;
use crate::digest::sha2::round::{add_state, round, small_sigma};
use crate::digest::states::{State32, State64};
use crate::digest::word::lanes::{
    BlockWords, FitsWindow, FrontAndPadding, LaneWord, SameBlock, Vector, in_two_lanes, load, pair,
    set_pair,
};
use crate::digest::word::{Sha2, Word};
use crate::polyfill::slice::AsChunks;
use std::num::Wrapping;
use std::simd::{u32x2, u64x2};

// The pairs of words that begin 16, 15, 7 and 2 words before the next pair.
#[derive(Drop)]
pub(crate) struct Before<T: Copy> {
    pub(crate) sixteen: (T, T),
    pub(crate) fifteen: (T, T),
    pub(crate) seven: (T, T),
    pub(crate) two: (T, T),
}

// Words of SHA-2, one in each lane, and the step of their schedule to the next two.
pub(crate) trait ExtendByTwo: LaneWord + FitsWindow {
    // The pair of words after those in `before`.
    fn next_two(before: &Before<Self>) -> (Self, Self)
        ensures first { (i : ℕ) → Self.lane i result.0 ≡ scheduled Self.One.family
            (Self.lane i before.now.two.0) (Self.lane i before.now.seven.0)
            (Self.lane i before.now.fifteen.0) (Self.lane i before.now.sixteen.0) }
        ensures second { (i : ℕ) → Self.lane i result.1 ≡ scheduled Self.One.family
            (Self.lane i before.now.two.1) (Self.lane i before.now.seven.1)
            (Self.lane i before.now.fifteen.1) (Self.lane i before.now.sixteen.1) };
}

// The next word of each lane, by those 2, 7, 15 and 16 words before it.
#[inline(always)]
pub(crate) fn next_word<V: Vector>(two: V, seven: V, fifteen: V, sixteen: V) -> V
    ensures { (i : ℕ) → V.lane i result ≡ scheduled V.One.family
        (V.lane i two) (V.lane i seven) (V.lane i fifteen) (V.lane i sixteen) }
{
    small_sigma(two, V::One::SMALL_SIGMA_1)
        .plus(seven)
        .plus(small_sigma(fifteen, V::One::SMALL_SIGMA_0))
        .plus(sixteen)
}

// The next two words of one block: the first in lane 0 of a vector, the second in lane 1.
#[inline(always)]
fn next_in_two_lanes<V: Vector>(before: &Before<V::One>) -> (V::One, V::One)
    requires { V.LANES ≡ 2 }
    ensures first { V.One.value result.0 ≡ scheduled V.One.family
        (V.One.value before.now.two.0) (V.One.value before.now.seven.0)
        (V.One.value before.now.fifteen.0) (V.One.value before.now.sixteen.0) }
    ensures second { V.One.value result.1 ≡ scheduled V.One.family
        (V.One.value before.now.two.1) (V.One.value before.now.seven.1)
        (V.One.value before.now.fifteen.1) (V.One.value before.now.sixteen.1) }
{
    let two = in_two_lanes::<V>(before.two);
    let seven = in_two_lanes::<V>(before.seven);
    let fifteen = in_two_lanes::<V>(before.fifteen);
    let sixteen = in_two_lanes::<V>(before.sixteen);
    let next = next_word(two, seven, fifteen, sixteen);
    (next.word(0), next.word(1))
}

impl ExtendByTwo for Wrapping<u32> {
    #[inline(always)]
    fn next_two(before: &Before<Wrapping<u32>>) -> (Wrapping<u32>, Wrapping<u32>) {
        next_in_two_lanes::<u32x2>(before)
    }
}

impl ExtendByTwo for Wrapping<u64> {
    #[inline(always)]
    fn next_two(before: &Before<Wrapping<u64>>) -> (Wrapping<u64>, Wrapping<u64>) {
        next_in_two_lanes::<u64x2>(before)
    }
}

// Replaces the words in slot `place` and the next by those sixteen later.
#[inline(always)]
fn extend<S: ExtendByTwo>(window: &mut [S; 16], place: usize)
    requires { place + 2 ≤ 16 }
    ensures { (i : ℕ) (b : List ℕ) (t : ℕ) → 16 ≤ t → place ≡ t % 16
        → IsWindow (W S.One.family b) (map (S.lane i) window.old) t
        → IsWindow (W S.One.family b) (map (S.lane i) window.new) (t + 2) }
{
    let sixteen = pair(window, place);
    let fifteen = pair(window, place + 1);
    let seven = pair(window, (place + 9) % 16);
    let two = pair(window, (place + 14) % 16);
    let before = Before {
        sixteen,
        fifteen,
        seven,
        two,
    };
    set_pair(window, place, S::next_two(&before));
}

// From here to `later_turn` each function is always inlined: slots are then literals, and no
// variable is copied from round to round.

// Rounds `16 * turn + place` and the next, from the words at `place`.
#[inline(always)]
fn two_rounds<S: ExtendByTwo>(window: &[S; 16], v: [S; 8], turn: usize, place: usize) -> [S; 8]
    requires some { 0 < S.LANES }
    requires place { place + 2 ≤ 16 }
    requires turn { 16 * turn + 16 ≤ S.One.family.rounds }
    ensures { (i : ℕ) (h b : List ℕ) (n t : ℕ)
        → IsWindow (W S.One.family b) (map (S.lane i) window.now) n
        → t ≡ 16 * turn + place → t + 2 ≤ n → n ≤ t + 16
        → map (S.lane i) v ≡ rounds_from S.One.family h b t
        → map (S.lane i) result ≡ rounds_from S.One.family h b (t + 2) }
{
    let t = 16 * turn + place;
    let (word, next) = pair(window, place);
    let first = S::splat(S::One::k(t)).plus(word);
    let second = S::splat(S::One::k(t + 1)).plus(next);
    round(round(v, first), second)
}

// The same after the first turn, where the words are computed first.
#[inline(always)]
fn next_two_rounds<S: ExtendByTwo>(
    window: &mut [S; 16],
    v: [S; 8],
    turn: usize,
    place: usize,
) -> [S; 8]
    requires some { 0 < S.LANES }
    requires place { place + 2 ≤ 16 }
    requires later { 1 ≤ turn }
    requires turn { 16 * turn + 16 ≤ S.One.family.rounds }
    ensures { (i : ℕ) (h b : List ℕ) (t : ℕ) → let f = S.One.family in t ≡ 16 * turn + place
        → IsBefore (W f b) (rounds_from f h b) (map (S.lane i) window.old) (map (S.lane i) v) t
        → IsBefore (W f b) (rounds_from f h b)
        (map (S.lane i) window.new) (map (S.lane i) result) (t + 2) }
{
    extend::<S>(window, place);
    two_rounds(window, v, turn, place)
}

// Runs the block function in each lane, over the block there. Each call of rounds stands here, so
// that it is inlined for each kind of block. The compiler keeps as many words in registers as it
// can.
pub(crate) fn run_block<S: ExtendByTwo, B: BlockWords<S>>(state: &mut [S; 8], block: &B)
    requires some { 0 < S.LANES }
    requires whole { B.is_whole block.now }
    ensures { (i : ℕ) (b : List ℕ) → B.is_block i block.now b
        → map (S.lane i) state.new ≡ block_step S.One.family (map (S.lane i) state.old) b }
{
    let mut words = [S::splat(S::One::ZERO); 16];
    load(&mut words, block); // step 1, to W(15)
    let v = *state; // step 2
    let v = two_rounds(&words, v, 0, 0); // step 3
    let v = two_rounds(&words, v, 0, 2);
    let v = two_rounds(&words, v, 0, 4);
    let v = two_rounds(&words, v, 0, 6);
    let v = two_rounds(&words, v, 0, 8);
    let v = two_rounds(&words, v, 0, 10);
    let v = two_rounds(&words, v, 0, 12);
    let mut variables = two_rounds(&words, v, 0, 14);
    let turns = S::One::ROUNDS / 16;
    'later: for turn in 1..turns {
        let v = next_two_rounds(&mut words, variables, turn, 0); // steps 1 and 3
        let v = next_two_rounds(&mut words, v, turn, 2);
        let v = next_two_rounds(&mut words, v, turn, 4);
        let v = next_two_rounds(&mut words, v, turn, 6);
        let v = next_two_rounds(&mut words, v, turn, 8);
        let v = next_two_rounds(&mut words, v, turn, 10);
        let v = next_two_rounds(&mut words, v, turn, 12);
        variables = next_two_rounds(&mut words, v, turn, 14);
    }
    *state = add_state(state, &variables); // step 4
}

// Runs the block function over each block in order. Every lane runs the same, so lane 0 stands for
// all in the contract.
#[tactic(auto, using(crate::proofs::Costs::rises, crate::proofs::ChunkFolds::folds))]
fn run_blocks<S: ExtendByTwo, const N: usize>(
    state: &mut [S; 8],
    blocks: AsChunks<'_, u8, N>,
    meter: &mut Meter,
)
    requires some { 0 < S.LANES }
    requires whole { N ≡ block_len S.One.family }
    ensures { RunsSha2 S.One.family (map (S.lane 0) state.old) (map (S.lane 0) state.new)
        (chunk_items blocks.entry) (chunk_total blocks.entry) meter.old meter.new }
{
    'each: for i in 0..blocks.len() {
        run_block(state, &SameBlock(&blocks[i]));
        meter.add_block();
    }
}

// Runs the block function in each lane, over a block whose first `N` words are those of the lane in
// `front`, and whose other words are those of `padding`, and counts these blocks.
pub(crate) fn run_words<S: ExtendByTwo, const N: usize>(
    state: &mut [S; 8],
    front: &[S; 8],
    padding: &[S::One; 16],
    meter: &mut Meter,
)
    requires some { 0 < S.LANES }
    requires front { N ≤ 8 }
    ensures words { (i : ℕ) (b : List ℕ)
        → IsBlockOf S.One.bits N (map (S.lane i) front.now) (map S.One.value padding.now) b
        → map (S.lane i) state.new ≡ block_step S.One.family (map (S.lane i) state.old) b }
    ensures cost { meter.new ≡ raised meter.old S.LANES 0 }
    ensures eight { (length state.old ≡ 8) × (length front.now ≡ 8) }
{
    let block = FrontAndPadding::<S, S::One, N> { front, padding };
    run_block(state, &block);
    meter.add_blocks(S::LANES);
}

/// Runs the block function as [`block_data_order_32`] does, and counts each block on `meter`.
pub fn block_data_order_32_counted(
    state: &mut State32,
    blocks: AsChunks<'_, u8, 64>,
    meter: &mut Meter,
)
    ensures { RunsSha2 family_256 (words_32 state.old) (words_32 state.new)
        (chunk_items blocks.entry) (chunk_total blocks.entry) meter.old meter.new }
{
    run_blocks::<Wrapping<u32>, 64>(state, blocks, meter)
}

/// Runs SHA-256's block function over each of `blocks`, of 64 bytes, in order, and replaces the
/// chaining words `state` (6.2.2).
pub fn block_data_order_32(state: &mut State32, blocks: AsChunks<'_, u8, 64>)
    ensures words { words_32 state.new
        ≡ blocks_from family_256 (words_32 state.old)
        (chunk_items blocks.entry) (chunk_total blocks.entry) }
{
    block_data_order_32_counted(state, blocks, &mut Meter::new())
}

/// Runs the block function as [`block_data_order_64`] does, and counts each block on `meter`.
pub fn block_data_order_64_counted(
    state: &mut State64,
    blocks: AsChunks<'_, u8, 128>,
    meter: &mut Meter,
)
    ensures { RunsSha2 family_512 (words_64 state.old) (words_64 state.new)
        (chunk_items blocks.entry) (chunk_total blocks.entry) meter.old meter.new }
{
    run_blocks::<Wrapping<u64>, 128>(state, blocks, meter)
}

/// Runs SHA-512's block function, which its truncations share, over each of `blocks`, of 128 bytes,
/// in order, and replaces the chaining words `state` (6.4.2).
pub fn block_data_order_64(state: &mut State64, blocks: AsChunks<'_, u8, 128>)
    ensures words { words_64 state.new
        ≡ blocks_from family_512 (words_64 state.old)
        (chunk_items blocks.entry) (chunk_total blocks.entry) }
{
    block_data_order_64_counted(state, blocks, &mut Meter::new())
}

/// Runs SHA-256's block function over one block that is given as words, and replaces the chaining
/// words `state` (6.2.2). The block is the eight words of `front` and then the last eight of
/// `padding`, so that a digest is hashed again without its bytes. One block is counted on `meter`.
pub fn block_of_words_32_counted(
    state: &mut State32,
    front: &State32,
    padding: &[Wrapping<u32>; 16],
    meter: &mut Meter,
)
    ensures { RunsSha2Words family_256 8 (words_32 state.old) (words_32 state.new)
        (words_32 front.now) (words_32 padding.now) meter.old meter.new }
{
    run_words::<Wrapping<u32>, 8>(state, front, padding, meter)
}

/// Runs SHA-512's block function, which its truncations share, over one block that is given as
/// words, and replaces the chaining words `state` (6.4.2). The block is the first `N` words of
/// `front`, at most eight, and then those of `padding` past them. One block is counted on `meter`.
pub fn block_of_words_64_counted<const N: usize>(
    state: &mut State64,
    front: &State64,
    padding: &[Wrapping<u64>; 16],
    meter: &mut Meter,
)
    requires { N ≤ 8 }
    ensures { RunsSha2Words family_512 N (words_64 state.old) (words_64 state.new)
        (words_64 front.now) (words_64 padding.now) meter.old meter.new }
{
    run_words::<Wrapping<u64>, N>(state, front, padding, meter)
}
