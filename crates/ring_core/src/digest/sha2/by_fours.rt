// SPDX-License-Identifier: ISC
//! The block function of SHA-2 over the blocks of one message, one after another (FIPS 180-4, 6.2.2
//! and 6.4.2, steps 1 to 4), by fours: the schedule is made four words at a time and is sixteen
//! words ahead of the rounds, which add ready sums of words and constants.
ghost use Rattle.std.specs.Prelude.{◌≡◌, ℕ, ◌+◌, ◌*◌, ◌%◌, ◌<◌, ◌≤◌, List, [], ◌∷◌, map};
ghost use Rattle.std.specs.Prelude.{slice_index};
ghost use Rattle.ring_core.specs.Kernel.{RunsSha2, RunsSha2Words};
ghost use Rattle.ring_core.specs.Prelude.{HoldsSums, IsAhead, IsReady, W, block_len, block_step};
ghost use Rattle.ring_core.specs.Prelude.{chunk_items, chunk_total, family_256, four, low_32};
ghost use Rattle.ring_core.specs.Prelude.{older_four, ready_sum, rounds_from, sixteen};
ghost use Rattle.ring_core.specs.Prelude.{two_rotations_and_shift, with_first_two, with_last_two};
ghost use Rattle.ring_core.specs.Prelude.{word_at, σ1};

use crate::cost::Meter;
use crate::digest::sha2::round::{add_state, round, small_sigma};
use crate::digest::word::Sha2;
use crate::digest::word::lanes::{FourWords, four_of, read_four};
use crate::digest::word::w32::{doubled, joined};
use crate::polyfill::slice::AsChunks;
use std::num::Wrapping;
use std::simd::{Simd, u32x4, u64x2, u64x4};

// Words of SHA-2, and the step of their schedule from sixteen words to the next four. It has three
// parts, so that it can be run between rounds: the last two of the four words wait for the first
// two.
pub(crate) trait ExtendByFour: FourWords {
    // What each of the four words takes from the words 16, 15 and 7 before it, by the sixteen words
    // before the four.
    fn older(
        first: Self::Four,
        second: Self::Four,
        third: Self::Four,
        fourth: Self::Four,
    ) -> Self::Four
        ensures { Self.words result ≡ older_four Self.One.family
            (Self.words first) (Self.words second) (Self.words third) (Self.words fourth) };

    // The first two words, from what `older` gave and the four words before them.
    fn with_first_two(older: Self::Four, fourth: Self::Four) -> Self::Four
        ensures { Self.words result
            ≡ with_first_two Self.One.family (Self.words older) (Self.words fourth) };

    // The last two words, from what `with_first_two` gave.
    fn with_last_two(half: Self::Four) -> Self::Four
        ensures { Self.words result ≡ with_last_two Self.One.family (Self.words half) };
}

// σ0 or σ1 of the word in the low half of each lane (4.1.2), by its counts, the rotations nested. A
// shift of both copies of a word is one operation, a rotation of the word alone three.
#[inline(always)]
fn small_sigma_of_halves(lanes: u64x2, counts: (u32, u32, usize)) -> u64x2
    requires first { 1 ≤ counts.0 }
    requires second { counts.0 < counts.1 }
    requires below { counts.1 < 32 }
    requires shift { counts.2 < 32 }
    ensures { map low_32 result ≡ map (two_rotations_and_shift 32 counts) (map low_32 lanes) }
{
    let (first, second, shift) = counts;
    let copies = doubled(lanes);
    let twice = joined(copies);
    let inner = twice ^ (twice >> Simd::splat((second - first) as u64));
    (inner >> Simd::splat(first as u64)) ^ joined(copies >> Simd::splat(shift as u32))
}

// σ1 of two words, each given and given back twice: one shift rotates both copies.
#[inline(always)]
fn small_sigma_1(copies: u32x4) -> u32x4
    ensures { let σ = λ (i : ℕ). σ1 family_256 (low_32 (slice_index copies i)) in
        result ≡ σ 0 ∷ σ 0 ∷ σ 2 ∷ σ 2 ∷ [] }
{
    doubled(small_sigma_of_halves(joined(copies), Wrapping::<u32>::SMALL_SIGMA_1))
}

impl ExtendByFour for Wrapping<u32> {
    #[inline(always)]
    fn older(first: u32x4, second: u32x4, third: u32x4, fourth: u32x4) -> u32x4 {
        let fifteen = first.shuffle(second, [1, 2, 3, 4]);
        let seven = third.shuffle(fourth, [1, 2, 3, 4]);
        first + small_sigma(fifteen, Self::SMALL_SIGMA_0) + seven
    }

    #[inline(always)]
    fn with_first_two(older: u32x4, fourth: u32x4) -> u32x4 {
        let sigma = small_sigma_1(fourth.swizzle([2, 2, 3, 3]));
        older + sigma.shuffle(u32x4::splat(0), [0, 2, 4, 4])
    }

    #[inline(always)]
    fn with_last_two(half: u32x4) -> u32x4 {
        let sigma = small_sigma_1(half.swizzle([0, 0, 1, 1]));
        half + sigma.shuffle(u32x4::splat(0), [4, 4, 0, 2])
    }
}

impl ExtendByFour for Wrapping<u64> {
    #[inline(always)]
    fn older(first: u64x4, second: u64x4, third: u64x4, fourth: u64x4) -> u64x4 {
        let fifteen = first.shuffle(second, [1, 2, 3, 4]);
        let seven = third.shuffle(fourth, [1, 2, 3, 4]);
        first + small_sigma(fifteen, Self::SMALL_SIGMA_0) + seven
    }

    #[inline(always)]
    fn with_first_two(older: u64x4, fourth: u64x4) -> u64x4 {
        let two: u64x2 = fourth.swizzle([2, 3]);
        older + small_sigma(two, Self::SMALL_SIGMA_1).shuffle(u64x2::splat(0), [0, 1, 2, 3])
    }

    #[inline(always)]
    fn with_last_two(half: u64x4) -> u64x4 {
        let two: u64x2 = half.swizzle([0, 1]);
        half + u64x2::splat(0).shuffle(small_sigma(two, Self::SMALL_SIGMA_1), [0, 1, 2, 3])
    }
}

// Replaces the oldest four sums by those of words `16 * turn + 4 * place` and the next three. They
// are stored as one vector: of four stores the compiler forwards each to its round.
#[inline(always)]
fn put_sums<S: FourWords>(sums: &mut [S::Four; 4], words: S::Four, turn: usize, place: usize)
    requires place { place < 4 }
    requires turn { 16 * turn + 16 ≤ S.One.family.rounds }
    ensures { (b : List ℕ) (g : ℕ) → g ≡ 4 * turn + place
        → S.words words ≡ four (W S.One.family b) g
        → HoldsSums (ready_sum S.One.family b) (map S.words sums.old) g
        → HoldsSums (ready_sum S.One.family b) (map S.words sums.new) (g + 1) }
{
    let t = 16 * turn + 4 * place;
    let constants = S::four(
        S::One::k(t),
        S::One::k(t + 1),
        S::One::k(t + 2),
        S::One::k(t + 3),
    );
    sums[place] = S::sums(constants, words);
}

// Fills the sums with those of a block's words, in fours.
#[inline(always)]
fn put_first_sums<S: FourWords>(sums: &mut [S::Four; 4], words: [S::Four; 4])
    requires { 16 ≤ S.One.family.rounds }
    ensures { (b : List ℕ) → let f = S.One.family in map S.words words ≡ sixteen (W f b) 0
        → HoldsSums (ready_sum f b) (map S.words sums.new) 4 }
{
    let [first, second, third, fourth] = words;
    put_sums::<S>(sums, first, 0, 0);
    put_sums::<S>(sums, second, 0, 1);
    put_sums::<S>(sums, third, 0, 2);
    put_sums::<S>(sums, fourth, 0, 3);
}

// Each function up to `run_ahead` is always inlined: places are then literals.

// Rounds `4 * g` to `4 * g + 3`, where `place` is g modulo 4.
#[inline(always)]
fn four_rounds<S: FourWords>(sums: &[S::Four; 4], v: [S; 8], place: usize) -> [S; 8]
    requires { place < 4 }
    ensures { (i : ℕ) (h b : List ℕ) (n g : ℕ)
        → HoldsSums (ready_sum S.One.family b) (map S.words sums.now) n
        → place ≡ g % 4 → g < n → n ≤ g + 4
        → map (S.lane i) v ≡ rounds_from S.One.family h b (4 * g)
        → map (S.lane i) result ≡ rounds_from S.One.family h b (4 * (g + 1)) }
{
    let v = round(v, S::word(&sums[place], 0));
    let v = round(v, S::word(&sums[place], 1));
    let v = round(v, S::word(&sums[place], 2));
    round(v, S::word(&sums[place], 3))
}

// The same, and between them the step of the schedule to words `16 * turn + 4 * place` and the next
// three.
#[inline(always)]
fn four_rounds_ahead<S: ExtendByFour>(
    sums: &mut [S::Four; 4],
    v: [S; 8],
    words: [S::Four; 4],
    turn: usize,
    place: usize,
) -> ([S; 8], [S::Four; 4])
    requires place { place < 4 }
    requires turn { 16 * turn + 16 ≤ S.One.family.rounds }
    ensures { (i : ℕ) (h b : List ℕ) (g : ℕ) → g + 4 ≡ 4 * turn + place
        → let f = S.One.family in
        IsAhead (W f b) (ready_sum f b) (rounds_from f h b) (map S.words words)
        (map S.words sums.old) (map (S.lane i) v) g
        → IsAhead (W f b) (ready_sum f b) (rounds_from f h b) (map S.words result.1)
        (map S.words sums.new) (map (S.lane i) result.0) (g + 1) }
{
    let [first, second, third, fourth] = words;
    let v = round(v, S::word(&sums[place], 0));
    let older = S::older(first, second, third, fourth);
    let v = round(v, S::word(&sums[place], 1));
    let half = S::with_first_two(older, fourth);
    let v = round(v, S::word(&sums[place], 2));
    let next = S::with_last_two(half);
    let v = round(v, S::word(&sums[place], 3));
    put_sums::<S>(sums, next, turn, place);
    (v, [second, third, fourth, next])
}

// Sixteen rounds, and between them the words of turn `turn`, which are those after.
#[inline(always)]
fn turn_ahead<S: ExtendByFour>(
    sums: &mut [S::Four; 4],
    v: [S; 8],
    words: [S::Four; 4],
    turn: usize,
) -> ([S; 8], [S::Four; 4])
    requires later { 1 ≤ turn }
    requires turn { 16 * turn + 16 ≤ S.One.family.rounds }
    ensures { (i : ℕ) (h b : List ℕ) (g : ℕ) → g + 4 ≡ 4 * turn
        → let f = S.One.family in
        IsAhead (W f b) (ready_sum f b) (rounds_from f h b) (map S.words words)
        (map S.words sums.old) (map (S.lane i) v) g
        → IsAhead (W f b) (ready_sum f b) (rounds_from f h b) (map S.words result.1)
        (map S.words sums.new) (map (S.lane i) result.0) (g + 4) }
{
    let (v, words) = four_rounds_ahead(sums, v, words, turn, 0);
    let (v, words) = four_rounds_ahead(sums, v, words, turn, 1);
    let (v, words) = four_rounds_ahead(sums, v, words, turn, 2);
    four_rounds_ahead(sums, v, words, turn, 3)
}

// The last sixteen rounds.
#[inline(always)]
fn last_turn<S: FourWords>(sums: &[S::Four; 4], v: [S; 8]) -> [S; 8]
    ensures { (i : ℕ) (h b : List ℕ) (g : ℕ) → g % 4 ≡ 0
        → HoldsSums (ready_sum S.One.family b) (map S.words sums.now) (g + 4)
        → map (S.lane i) v ≡ rounds_from S.One.family h b (4 * g)
        → map (S.lane i) result ≡ rounds_from S.One.family h b (4 * (g + 4)) }
{
    let v = four_rounds(sums, v, 0);
    let v = four_rounds(sums, v, 1);
    let v = four_rounds(sums, v, 2);
    four_rounds(sums, v, 3)
}

// Runs the block function over a block, from its words in fours, which stay in registers as
// parameters of their own, and from their sums. Were this inlined, `sums` would be no memory, and
// each sum would be taken out of its vector; with two callers the compiler would call the turns.
#[inline(never)]
fn run_ahead<S: ExtendByFour>(
    sums: &mut [S::Four; 4],
    state: &mut [S; 8],
    first: S::Four,
    second: S::Four,
    third: S::Four,
    fourth: S::Four,
)
    ensures { (i : ℕ) (b : List ℕ) → let f = S.One.family in
        IsReady (W f b) (ready_sum f b) (map S.words (first ∷ second ∷ third ∷ fourth ∷ []))
        (map S.words sums.old) 0
        → map (S.lane i) state.new ≡ block_step f (map (S.lane i) state.old) b }
{
    let mut words = [first, second, third, fourth];
    let mut variables = *state; // step 2
    let turns = S::One::ROUNDS / 16;
    'ahead: for turn in 1..turns {
        (variables, words) = turn_ahead(sums, variables, words, turn); // steps 1 and 3
    }
    let last = last_turn(sums, variables);
    *state = add_state(state, &last); // step 4
}

// Runs the block function over a block, from its words in fours. `sums` is room for sums. Storing
// the first ones here makes the compiler align the room: else a vector of it lies across two lines
// of the cache, and a block of SHA-1 takes 2 per cent longer.
#[inline(always)]
fn run_block<S: ExtendByFour>(
    sums: &mut [S::Four; 4],
    state: &mut [S; 8],
    first: S::Four,
    second: S::Four,
    third: S::Four,
    fourth: S::Four,
)
    ensures { (i : ℕ) (b : List ℕ) → let w = four (word_at S.One.bits b) in
        S.words first ≡ w 0 → S.words second ≡ w 1 → S.words third ≡ w 2 → S.words fourth ≡ w 3
        → map (S.lane i) state.new ≡ block_step S.One.family (map (S.lane i) state.old) b }
{
    put_first_sums::<S>(sums, [first, second, third, fourth]); // step 1, to W(15)
    run_ahead(sums, state, first, second, third, fourth);
}

// Runs the block function over each block in order.
#[inline(always)]
#[tactic(auto, using(crate::proofs::Costs::rises, crate::proofs::ChunkFolds::folds))]
pub(crate) fn run_blocks<S: ExtendByFour, const N: usize>(
    sums: &mut [S::Four; 4],
    state: &mut [S; 8],
    blocks: AsChunks<'_, u8, N>,
    meter: &mut Meter,
)
    requires { N ≡ block_len S.One.family }
    ensures { RunsSha2 S.One.family (map (S.lane 0) state.old) (map (S.lane 0) state.new)
        (chunk_items blocks.entry) (chunk_total blocks.entry) meter.old meter.new }
{
    'each: for i in 0..blocks.len() {
        let block = &blocks[i];
        let first = read_four::<S>(block, 0);
        let second = read_four::<S>(block, 1);
        let third = read_four::<S>(block, 2);
        let fourth = read_four::<S>(block, 3);
        run_block(sums, state, first, second, third, fourth);
        meter.add_block();
    }
}

// Runs the block function over one block, whose first `N` words are those of `front`, and whose
// other words are those of `padding`.
#[inline(always)]
pub(crate) fn run_words<S: ExtendByFour, const N: usize>(
    sums: &mut [S::Four; 4],
    state: &mut [S; 8],
    front: &[S::One; 8],
    padding: &[S::One; 16],
    meter: &mut Meter,
)
    requires { N ≤ 8 }
    ensures { RunsSha2Words S.One.family N (map (S.lane 0) state.old) (map (S.lane 0) state.new)
        (map S.One.value front.now) (map S.One.value padding.now) meter.old meter.new }
{
    let first = four_of::<S, N>(front, padding, 0);
    let second = four_of::<S, N>(front, padding, 1);
    let third = four_of::<S, N>(front, padding, 2);
    let fourth = four_of::<S, N>(front, padding, 3);
    run_block(sums, state, first, second, third, fourth);
    meter.add_block();
}
