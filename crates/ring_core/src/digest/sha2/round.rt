// SPDX-License-Identifier: ISC
//! A round of SHA-2 (FIPS 180-4, 6.2.2 and 6.4.2, step 3), its functions (4.1.2, 4.1.3), and the
//! sum that ends a block (step 4): of one block, or in lanes.
ghost use Rattle.std.specs.Prelude.{◌≡◌, ℕ, ◌<◌, ◌≤◌, map};
ghost use Rattle.ring_core.specs.Prelude.{◌⊕◌, add_state, add_words, rotr, round};
ghost use Rattle.ring_core.specs.Prelude.{three_rotations, two_rotations_and_shift};

use crate::digest::form::has_rorx_and_andn;
use crate::digest::word::Sha2;
use crate::digest::word::lanes::{LaneWord, Vector, choose_word, majority_word, plus_choose};

// Two rotations of each word under exclusive or, one inside the other.
#[inline]
fn two_rotations_nested<S: LaneWord>(words: S, first: u32, second: u32) -> S
    requires first { 1 ≤ first }
    requires second { first < second }
    requires below { second < S.One.bits }
    ensures { (i : ℕ) → let x = S.lane i words in
        S.lane i result ≡ rotr S.One.bits first x ⊕ rotr S.One.bits second x }
{
    words.bit_xor(words.rotr(second - first)).rotr(first)
}

// The same in the form of this build.
#[inline(always)]
fn two_rotations<S: LaneWord>(words: S, first: u32, second: u32) -> S
    requires first { 1 ≤ first }
    requires second { first < second }
    requires below { second < S.One.bits }
    ensures { (i : ℕ) → let x = S.lane i words in
        S.lane i result ≡ rotr S.One.bits first x ⊕ rotr S.One.bits second x }
{
    if has_rorx_and_andn() {
        words.rotr(first).bit_xor(words.rotr(second))
    } else {
        two_rotations_nested(words, first, second)
    }
}

// σ0 or σ1 of each word (4.1.2, 4.1.3), by its counts.
#[inline(always)]
pub(crate) fn small_sigma<S: Vector>(words: S, counts: (u32, u32, usize)) -> S
    requires first { 1 ≤ counts.0 }
    requires second { counts.0 < counts.1 }
    requires below { counts.1 < S.One.bits }
    requires shift { counts.2 < S.One.bits }
    ensures { (i : ℕ) → S.lane i result
        ≡ two_rotations_and_shift S.One.bits counts (S.lane i words) }
{
    let (first, second, shift) = counts;
    two_rotations(words, first, second).bit_xor(words.shift_right(shift as u32))
}

// Σ0 or Σ1 (4.1.2, 4.1.3), by its counts. No rotation waits for another.
#[inline(always)]
fn big_sigma_apart<S: LaneWord>(x: S, counts: (u32, u32, u32)) -> S
    requires first { 1 ≤ counts.0 }
    requires second { counts.0 < counts.1 }
    requires third { counts.1 < counts.2 }
    requires below { counts.2 < S.One.bits }
    ensures { (i : ℕ) → S.lane i result ≡ three_rotations S.One.bits counts (S.lane i x) }
{
    let (first, second, third) = counts;
    x.rotr(first).bit_xor(x.rotr(second)).bit_xor(x.rotr(third))
}

// The same, the rotations nested: each waits for the one inside it, but three that are independent
// need two more copies of the word, which takes longer where a rotation is in place.
#[inline]
fn big_sigma_nested<S: LaneWord>(x: S, counts: (u32, u32, u32)) -> S
    requires first { 1 ≤ counts.0 }
    requires second { counts.0 < counts.1 }
    requires third { counts.1 < counts.2 }
    requires below { counts.2 < S.One.bits }
    ensures { (i : ℕ) → S.lane i result ≡ three_rotations S.One.bits counts (S.lane i x) }
{
    let (first, second, third) = counts;
    let inner = x.bit_xor(x.rotr(third - second));
    let outer = x.bit_xor(inner.rotr(second - first));
    outer.rotr(first)
}

// One round (step 3), from the sum of its constant and its word. The terms are added one by one,
// those last that are ready last.
#[inline(always)]
fn round_apart<S: LaneWord>(v: [S; 8], sum: S) -> [S; 8]
    ensures { (i k w : ℕ) → S.lane i sum ≡ add_words S.One.bits k w
        → map (S.lane i) result ≡ round S.One.family (map (S.lane i) v) k w }
{
    let [a, b, c, d, e, f, g, h] = v;
    let temp1 = plus_choose(h.plus(sum), e, f, g).plus(big_sigma_apart(e, S::One::BIG_SIGMA_1));
    let next_e = d.plus(temp1);
    let next_a = temp1
        .plus(majority_word(a, b, c))
        .plus(big_sigma_apart(a, S::One::BIG_SIGMA_0));
    [next_a, a, b, c, next_e, e, f, g]
}

// The same with nested rotations, and with Ch and T2 each as one word.
#[inline]
fn round_nested<S: LaneWord>(v: [S; 8], sum: S) -> [S; 8]
    ensures { (i k w : ℕ) → S.lane i sum ≡ add_words S.One.bits k w
        → map (S.lane i) result ≡ round S.One.family (map (S.lane i) v) k w }
{
    let [a, b, c, d, e, f, g, h] = v;
    let temp1 = h
        .plus(big_sigma_nested(e, S::One::BIG_SIGMA_1))
        .plus(choose_word(e, f, g))
        .plus(sum);
    let temp2 = big_sigma_nested(a, S::One::BIG_SIGMA_0).plus(majority_word(a, b, c));
    [temp1.plus(temp2), a, b, c, d.plus(temp1), e, f, g]
}

// The same in the form of this build.
#[inline(always)]
pub(crate) fn round<S: LaneWord>(v: [S; 8], sum: S) -> [S; 8]
    ensures { (i k w : ℕ) → S.lane i sum ≡ add_words S.One.bits k w
        → map (S.lane i) result ≡ round S.One.family (map (S.lane i) v) k w }
{
    if has_rorx_and_andn() {
        round_apart(v, sum)
    } else {
        round_nested(v, sum)
    }
}

// Each word of `state` with its variable of `v` added (step 4).
pub(crate) fn add_state<S: LaneWord>(state: &[S; 8], v: &[S; 8]) -> [S; 8]
    ensures { (i : ℕ) → map (S.lane i) result
        ≡ add_state S.One.bits (map (S.lane i) state.now) (map (S.lane i) v.now) }
{
    let [a, b, c, d, e, f, g, h] = *state;
    let [i, j, k, l, m, n, o, p] = *v;
    [
        a.plus(i),
        b.plus(j),
        c.plus(k),
        d.plus(l),
        e.plus(m),
        f.plus(n),
        g.plus(o),
        h.plus(p),
    ]
}
