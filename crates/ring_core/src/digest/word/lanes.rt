// SPDX-License-Identifier: ISC
//! Words of one size side by side, one in each lane: a word alone, or a vector of them (FIPS 180-4,
//! 3.2); Ch and Maj of them (4.1); four words in a row of one block; and the window of a schedule,
//! its last sixteen words, of which word `t` is in slot `t` modulo 16.
ghost use Rattle.std.specs.Mem.{type_size};
ghost use Rattle.std.specs.Prelude.{◌≡◌, ◌≢◌, ℕ, ◌+◌, ◌*◌, ◌/◌, ◌%◌, ◌^◌, ◌<◌, ◌≤◌, List, [], ◌∷◌};
ghost use Rattle.std.specs.Prelude.{◌++◌, bit_and, drop, length, map, slice_index, take};
ghost use Rattle.std.proofs.Common.{rules};
ghost use Rattle.ring_core.specs.Sizes.{sixteen-of_one};
ghost use Rattle.ring_core.specs.Prelude.{◌⊕◌, IsBlockOf, IsWindow, add_words, array_at, choose};
ghost use Rattle.ring_core.specs.Prelude.{four, majority, rotr, shr, word_at};

use crate::digest::word::traits::{Sha2, Word};
use std::num::Wrapping;

/// Words in lanes, with the operations of FIPS 180-4, 3.2, on the word of each lane. A clause names
/// a lane by its number. A single word is in every lane, whatever the number.
pub trait LaneWord: Copy {
    /// The word in a lane.
    type One: Sha2;

    /// The number of lanes.
    const LANES: usize;

    ghost LANES: { ℕ };

    // the number of the word in a lane; lane numbers wrap around
    ghost lane: { ℕ → Self → ℕ };

    /// The word `word` in each lane.
    fn splat(word: Self::One) -> Self
        requires { 0 < LANES }
        ensures { (i : ℕ) → lane i result ≡ Self.One.value word };

    /// The sums of these words and of those of `o`, modulo 2 to the power of the bits (FIPS 180-4,
    /// 3.2, item 2).
    fn plus(self, o: Self) -> Self
        ensures { (i : ℕ) → lane i result ≡ add_words Self.One.bits (lane i self) (lane i o) };

    /// The bits that both these words and those of `o` have (FIPS 180-4, 3.2, item 1).
    fn bit_and(self, o: Self) -> Self
        ensures { (i : ℕ) → lane i result ≡ bit_and (lane i self) (lane i o) };

    /// The bits that either these words or those of `o` have (FIPS 180-4, 3.2, item 1).
    fn bit_xor(self, o: Self) -> Self
        ensures { (i : ℕ) → lane i result ≡ lane i self ⊕ lane i o };

    /// The words rotated right by `count` bits (FIPS 180-4, 3.2, item 4).
    fn rotr(self, count: u32) -> Self
        requires positive { 1 ≤ count }
        requires below { count < Self.One.bits }
        ensures { (i : ℕ) → lane i result ≡ rotr Self.One.bits count (lane i self) };

    // each word is below 2 ^ bits
    ghost fits: { (i : ℕ) (x : Self) → lane i x < 2 ^ Self.One.bits };
}

/// A single word: the operations of FIPS 180-4, 3.2, on it.
impl<T: Copy> LaneWord for Wrapping<T>
where
    Wrapping<T>: Sha2,
{
    type One = Wrapping<T>;

    const LANES: usize = 1;

    ghost LANES = { 1 };

    ghost lane = { λ _ x. ⟦<Wrapping<T> as Word>⟧.value x };

    #[inline(always)]
    fn splat(word: Wrapping<T>) -> Wrapping<T> {
        word
    }

    #[inline(always)]
    fn plus(self, o: Wrapping<T>) -> Wrapping<T> {
        Word::plus(self, o)
    }

    #[inline(always)]
    fn bit_and(self, o: Wrapping<T>) -> Wrapping<T> {
        Word::bit_and(self, o)
    }

    #[inline(always)]
    fn bit_xor(self, o: Wrapping<T>) -> Wrapping<T> {
        Word::bit_xor(self, o)
    }

    #[inline(always)]
    fn rotr(self, count: u32) -> Wrapping<T> {
        Word::rotr(self, count)
    }

    ghost fits = { Prim.search rules };
}

/// A type of which sixteen values, a schedule's window, fit in memory. The checker can't show this
/// for a generic lane count, so each width of `std::simd` has an impl.
pub trait FitsWindow: Copy {
    // sixteen take less than half of all memory
    ghost small: { 16 * type_size Self.row < 2 ^ 63 };
}

impl<V: FitsWindow> FitsWindow for InLanes<V> {
    ghost small = { sixteen-of_one _ V.small };
}

/// A vector of words, of which each can be read and replaced.
pub trait Vector: LaneWord + FitsWindow {
    /// The word in lane `i`.
    fn word(self, i: usize) -> Self::One
        requires { i < Self.LANES }
        ensures { Self.One.value result ≡ Self.lane i self };

    /// The vector with the word `word` in lane `i`.
    fn with(self, i: usize, word: Self::One) -> Self
        requires { i < Self.LANES }
        ensures set { Self.lane i result ≡ Self.One.value word }
        ensures rest { (k : ℕ) → k < Self.LANES → k ≢ i → Self.lane k result ≡ Self.lane k self };

    /// The words shifted right by `count` bits (FIPS 180-4, 3.2, item 3).
    fn shift_right(self, count: u32) -> Self
        requires { count < Self.One.bits }
        ensures { (i : ℕ) → Self.lane i result ≡ shr count (Self.lane i self) };
}

/// A vector of words. The checker supports arrays of a struct, but not of a vector with a generic
/// lane count.
#[derive(Clone, Copy)]
pub struct InLanes<V: Copy>(pub(crate) V);

/// The operations of FIPS 180-4, 3.2, are those of the vector.
impl<V: Vector> LaneWord for InLanes<V> {
    type One = V::One;

    const LANES: usize = V::LANES;

    ghost LANES = { V.LANES };

    ghost lane = { λ i x. V.lane i x.0 };

    #[inline(always)]
    fn splat(word: V::One) -> InLanes<V> {
        InLanes(V::splat(word))
    }

    #[inline(always)]
    fn plus(self, o: InLanes<V>) -> InLanes<V> {
        InLanes(self.0.plus(o.0))
    }

    #[inline(always)]
    fn bit_and(self, o: InLanes<V>) -> InLanes<V> {
        InLanes(self.0.bit_and(o.0))
    }

    #[inline(always)]
    fn bit_xor(self, o: InLanes<V>) -> InLanes<V> {
        InLanes(self.0.bit_xor(o.0))
    }

    #[inline(always)]
    fn rotr(self, count: u32) -> InLanes<V> {
        InLanes(self.0.rotr(count))
    }

    ghost fits = { λ i x. V.fits i x.0 };
}

// A word of which four in a row stand in a vector.
pub(crate) trait FourWords: LaneWord {
    // four words in a row
    type Four: Copy;

    // their numbers, in order
    ghost words: { Self.Four → List ℕ };

    // These four words.
    fn four(a: Self::One, b: Self::One, c: Self::One, d: Self::One) -> Self::Four
        ensures { words result ≡ Self.One.value a ∷ Self.One.value b ∷ Self.One.value c
            ∷ Self.One.value d ∷ [] };

    // Word `i` of the four.
    fn word(four: &Self::Four, i: usize) -> Self
        requires { i < 4 }
        ensures { (lane : ℕ) → Self.lane lane result ≡ slice_index (words four.now) i };

    // Each word of `x` and the word of `y` at its place, added.
    fn sums(x: Self::Four, y: Self::Four) -> Self::Four
        ensures { let sum = λ (i : ℕ). add_words Self.One.bits
            (slice_index (words x) i) (slice_index (words y) i) in
            words result ≡ sum 0 ∷ sum 1 ∷ sum 2 ∷ sum 3 ∷ [] };
}

// Words `4 * j` to `4 * j + 3` of a block.
#[inline(always)]
pub(crate) fn read_four<S: FourWords>(block: &[u8], j: usize) -> S::Four
    requires place { j < 4 }
    requires whole { length block.now ≡ 16 * (S.One.bits / 8) }
    ensures { S.words result ≡ four (word_at S.One.bits block.now) j }
{
    let t = 4 * j;
    S::four(
        S::One::read_word(block, t),
        S::One::read_word(block, t + 1),
        S::One::read_word(block, t + 2),
        S::One::read_word(block, t + 3),
    )
}

// Word `t` of a block whose first `N` words are those of `front`, and whose other words are those
// of `padding`.
#[inline(always)]
pub(crate) fn word_of<T: Copy, const N: usize>(front: &[T; 8], padding: &[T; 16], t: usize) -> T
    requires front { N ≤ 8 }
    requires place { t < 16 }
    ensures { (value : T → ℕ) → value result
        ≡ slice_index (take N (map value front.now) ++ drop N (map value padding.now)) t }
{
    if t < N { front[t] } else { padding[t] }
}

// Words `4 * j` to `4 * j + 3` of such a block.
#[inline(always)]
pub(crate) fn four_of<S: FourWords, const N: usize>(
    front: &[S::One; 8],
    padding: &[S::One; 16],
    j: usize,
) -> S::Four
    requires front { N ≤ 8 }
    requires place { j < 4 }
    ensures { (b : List ℕ)
        → IsBlockOf S.One.bits N (map S.One.value front.now) (map S.One.value padding.now) b
        → S.words result ≡ four (word_at S.One.bits b) j }
{
    let at = 4 * j;
    S::four(
        word_of::<S::One, N>(front, padding, at),
        word_of::<S::One, N>(front, padding, at + 1),
        word_of::<S::One, N>(front, padding, at + 2),
        word_of::<S::One, N>(front, padding, at + 3),
    )
}

// Ch(x, y, z), in three operations instead of the standard's four
#[inline(always)]
pub(crate) fn choose_word<W: LaneWord>(x: W, y: W, z: W) -> W
    ensures { (i : ℕ) → W.lane i result
        ≡ choose W.One.bits (W.lane i x) (W.lane i y) (W.lane i z) }
{
    z.bit_xor(x.bit_and(y.bit_xor(z)))
}

// `sum` with Ch(x, y, z) added. No bit is set in both of its terms, so that they are added one by
// one. That of `z` is what `x` leaves of it.
#[inline(always)]
pub(crate) fn plus_choose<W: LaneWord>(sum: W, x: W, y: W, z: W) -> W
    ensures { (i : ℕ) → W.lane i result ≡ add_words W.One.bits (W.lane i sum)
        (choose W.One.bits (W.lane i x) (W.lane i y) (W.lane i z)) }
{
    let left = z.bit_xor(x.bit_and(z));
    sum.plus(left).plus(x.bit_and(y))
}

// `sum` with Maj(x, y, z) added, in the same way.
#[inline(always)]
#[tactic(auto, using(crate::proofs::ShortForms::short_forms))]
pub(crate) fn plus_majority<W: LaneWord>(sum: W, x: W, y: W, z: W) -> W
    ensures { (i : ℕ) → W.lane i result ≡ add_words W.One.bits (W.lane i sum)
        (majority (W.lane i x) (W.lane i y) (W.lane i z)) }
{
    let either = z.bit_and(x.bit_xor(y));
    sum.plus(either).plus(x.bit_and(y))
}

// Maj(x, y, z), in four operations instead of the standard's five: `x ⊕ y` of a round is `y ⊕ z` of
// the next
#[inline(always)]
#[tactic(auto, using(crate::proofs::ShortForms::short_forms))]
pub(crate) fn majority_word<W: LaneWord>(x: W, y: W, z: W) -> W
    ensures { (i : ℕ) → W.lane i result
        ≡ majority (W.lane i x) (W.lane i y) (W.lane i z) }
{
    y.bit_xor(x.bit_xor(y).bit_and(y.bit_xor(z)))
}

// Each function below is a few instructions of a block function and is always inlined: a slot is
// then a literal, and words stay in lanes from step to step.

// A block in each lane, as the sixteen words that its schedule begins with.
pub(crate) trait BlockWords<S: LaneWord> {
    // what reading it asks for
    ghost is_whole: { Self → Type 0 };

    // the bytes are those of the block in a lane
    ghost is_block: { ℕ → Self → List ℕ → Type 0 };

    // Word `t` of the block in each lane.
    fn word(&self, t: usize) -> S
        requires some { 0 < S.LANES }
        requires whole { is_whole self.now }
        requires place { t < 16 }
        ensures { (i : ℕ) (b : List ℕ) → is_block i self.now b
            → S.lane i result ≡ word_at S.One.bits b t };
}

// Fills the window with the words of the block in each lane.
#[inline(always)]
pub(crate) fn load<S: LaneWord, B: BlockWords<S>>(window: &mut [S; 16], block: &B)
    requires some { 0 < S.LANES }
    requires whole { B.is_whole block.now }
    ensures { (i : ℕ) (b : List ℕ) → B.is_block i block.now b
        → IsWindow (word_at S.One.bits b) (map (S.lane i) window.new) 16 }
{
    'words: for t in 0..16 {
        window[t] = block.word(t);
    }
}

// A block of bytes, the same in each lane.
#[derive(Drop)]
pub(crate) struct SameBlock<'a>(pub(crate) &'a [u8]);

impl<'a, S: LaneWord> BlockWords<S> for SameBlock<'a> {
    ghost is_whole = { λ block. length block.0.now ≡ 16 * (S.One.bits / 8) };

    ghost is_block = { λ _ block b. b ≡ block.0.now };

    #[inline(always)]
    fn word(&self, t: usize) -> S {
        S::splat(S::One::read_word(self.0, t))
    }
}

// Word `j` of each block, each in its block's lane.
#[inline(always)]
fn read_words<V: Vector, const N: usize>(blocks: &[[u8; N]], j: usize) -> V
    requires some { 0 < V.LANES }
    requires lanes { length blocks.now ≡ V.LANES }
    requires whole { N ≡ 16 * (V.One.bits / 8) }
    requires place { j < 16 }
    ensures { (i : ℕ) → i < V.LANES
        → V.lane i result ≡ word_at V.One.bits (array_at blocks.now i) j }
{
    let mut words = V::splat(V::One::ZERO);
    'each: for i in 0..V::LANES {
        words = words.with(i, V::One::read_word(&blocks[i], j));
    }
    words
}

// Blocks of bytes, each in its own lane.
#[derive(Drop)]
pub(crate) struct BlockInEach<'a, const N: usize>(pub(crate) &'a [[u8; N]]);

impl<'a, V: Vector, const N: usize> BlockWords<InLanes<V>> for BlockInEach<'a, N> {
    ghost is_whole = { λ blocks. (length blocks.0.now ≡ V.LANES) × (N ≡ 16 * (V.One.bits / 8)) };

    ghost is_block = { λ i blocks b. (i < V.LANES) × (b ≡ array_at blocks.0.now i) };

    #[inline(always)]
    fn word(&self, t: usize) -> InLanes<V> {
        InLanes(read_words::<V, N>(self.0, t))
    }
}

// A block whose first `N` words are those of `front`, and whose other words are those of `padding`,
// the same in each lane.
#[derive(Drop)]
pub(crate) struct FrontAndPadding<'a, S, W, const N: usize> {
    pub(crate) front: &'a [S],
    pub(crate) padding: &'a [W],
}

impl<'a, S: LaneWord, const N: usize> BlockWords<S> for FrontAndPadding<'a, S, S::One, N> {
    ghost is_whole = { λ block. (N ≤ 8) × (length block.front.now ≡ 8)
        × (length block.padding.now ≡ 16) };

    ghost is_block = { λ i block b. IsBlockOf S.One.bits N
        (map (S.lane i) block.front.now) (map S.One.value block.padding.now) b };

    #[inline(always)]
    fn word(&self, t: usize) -> S {
        if t < N {
            self.front[t]
        } else {
            S::splat(self.padding[t])
        }
    }
}

// The words in `slot` and in the slot after it.
#[inline(always)]
pub(crate) fn pair<T: Copy>(window: &[T; 16], slot: usize) -> (T, T)
    requires { slot < 16 }
    ensures { (value : T → ℕ) (w : ℕ → ℕ) (n t : ℕ) → IsWindow w (map value window.now) n
        → slot ≡ t % 16 → t + 2 ≤ n → n ≤ t + 16
        → (value result.0 ≡ w t) × (value result.1 ≡ w (t + 1)) }
{
    (window[slot], window[(slot + 1) % 16])
}

// Replaces the oldest two words, in `slot` and the slot after it, by the next two.
#[inline(always)]
pub(crate) fn set_pair<T: Copy>(window: &mut [T; 16], slot: usize, words: (T, T))
    requires { slot < 16 }
    ensures { (value : T → ℕ) (w : ℕ → ℕ) (t : ℕ) → IsWindow w (map value window.old) t
        → slot ≡ t % 16 → value words.0 ≡ w t → value words.1 ≡ w (t + 1)
        → IsWindow w (map value window.new) (t + 2) }
{
    window[slot] = words.0;
    window[(slot + 1) % 16] = words.1;
}

// Two words of one block as the lanes of a vector.
#[inline(always)]
pub(crate) fn in_two_lanes<V: Vector>(words: (V::One, V::One)) -> V
    requires { V.LANES ≡ 2 }
    ensures first { V.lane 0 result ≡ V.One.value words.0 }
    ensures second { V.lane 1 result ≡ V.One.value words.1 }
{
    V::splat(words.0).with(1, words.1)
}
