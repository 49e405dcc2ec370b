// SPDX-License-Identifier: ISC
//! A round of SHA-1 (FIPS 180-4, 6.1.2, step 3), its functions and constants (4.1.1, 4.2.1), and
//! the sum that ends a block (step 4): of one block, or in lanes.
ghost use Rattle.std.specs.Prelude.{◌≡◌, ℕ, ◌<◌, ◌≤◌, map, drop, take};
ghost use Rattle.ring_core.specs.Prelude.{add_words, rotl, word_32};
ghost use Rattle.ring_core.specs.Sha1.{add_state, round, round_constant, round_function};

use crate::digest::form::has_rorx_and_andn;
use crate::digest::word::lanes::{
    LaneWord, choose_word, majority_word, plus_choose, plus_majority,
};
use std::num::Wrapping;

// The number of chaining words (6.1).
pub(crate) const CHAINING_WORDS: usize = 5;

// ROTL (3.2, item 5)
#[inline(always)]
fn rotate_left<S: LaneWord<One = Wrapping<u32>>>(x: S, count: u32) -> S
    requires positive { 1 ≤ count }
    requires below { count < 32 }
    ensures { (i : ℕ) → S.lane i result ≡ rotl 32 count (S.lane i x) }
{
    x.rotr(32 - count)
}

// f of round `t` (4.1.1)
#[inline(always)]
fn round_function<S: LaneWord<One = Wrapping<u32>>>(t: usize, x: S, y: S, z: S) -> S
    ensures { (i : ℕ) → S.lane i result
        ≡ round_function t (S.lane i x) (S.lane i y) (S.lane i z) }
{
    if t < 20 {
        choose_word(x, y, z)
    } else if t >= 40 && t < 60 {
        majority_word(x, y, z)
    } else {
        x.bit_xor(y).bit_xor(z)
    }
}

// `sum` with f of round `t` added (4.1.1).
#[inline(always)]
fn plus_function<S: LaneWord<One = Wrapping<u32>>>(sum: S, t: usize, x: S, y: S, z: S) -> S
    ensures { (i : ℕ) → S.lane i result ≡ add_words 32 (S.lane i sum)
        (round_function t (S.lane i x) (S.lane i y) (S.lane i z)) }
{
    if t < 20 {
        plus_choose(sum, x, y, z)
    } else if t >= 40 && t < 60 {
        plus_majority(sum, x, y, z)
    } else {
        sum.plus(x.bit_xor(y).bit_xor(z))
    }
}

// K of round `t` (4.2.1)
#[inline(always)]
pub(crate) fn round_constant(t: usize) -> Wrapping<u32>
    ensures { word_32 result ≡ round_constant t }
{
    if t < 20 {
        Wrapping(0x5a827999)
    } else if t < 40 {
        Wrapping(0x6ed9eba1)
    } else if t < 60 {
        Wrapping(0x8f1bbcdc)
    } else {
        Wrapping(0xca62c1d6)
    }
}

// T of round `t` (step 3), from `turned`, a rotated by 5.
#[inline]
fn sum_of_words<S: LaneWord<One = Wrapping<u32>>>(
    turned: S,
    t: usize,
    b: S,
    c: S,
    d: S,
    e: S,
    sum: S,
) -> S
    ensures { (i : ℕ) → let plus = add_words 32 in let x = S.lane i in x result
        ≡ plus (plus (plus (x turned) (round_function t (x b) (x c) (x d))) (x e)) (x sum) }
{
    turned.plus(round_function(t, b, c, d)).plus(e).plus(sum)
}

// Round `t` (step 3), from the sum of its constant and its word. In the first form the terms of f
// are added one by one, and last what waits for the round before.
#[inline(always)]
pub(crate) fn round<S: LaneWord<One = Wrapping<u32>>>(v: [S; 5], t: usize, sum: S) -> [S; 5]
    ensures { (i w : ℕ) → S.lane i sum ≡ add_words 32 (round_constant t) w
        → map (S.lane i) result ≡ round (map (S.lane i) v) t w }
{
    let [a, b, c, d, e] = v;
    let turned = rotate_left(a, 5);
    let temp = if has_rorx_and_andn() {
        plus_function(e.plus(sum), t, b, c, d).plus(turned)
    } else {
        sum_of_words(turned, t, b, c, d, e, sum)
    };
    [temp, a, rotate_left(b, 30), c, d]
}

// The first five words, each with its variable of `v` added (step 4), and the last three as they
// were.
#[inline(always)]
pub(crate) fn add_state<S: LaneWord<One = Wrapping<u32>>>(state: &[S; 8], v: &[S; 5]) -> [S; 8]
    ensures words { (i : ℕ) → take 5 (map (S.lane i) result)
        ≡ add_state (take 5 (map (S.lane i) state.now)) (map (S.lane i) v.now) }
    ensures rest { drop 5 result ≡ drop 5 state.now }
{
    [
        state[0].plus(v[0]),
        state[1].plus(v[1]),
        state[2].plus(v[2]),
        state[3].plus(v[3]),
        state[4].plus(v[4]),
        state[5],
        state[6],
        state[7],
    ]
}
