// SPDX-License-Identifier: ISC
//! The instructions of 64-bit ARM processors for SHA-1 and SHA-256.
ghost use Rattle.std.specs.Prelude.{◌≡◌, map};
ghost use Rattle.ring_core.specs.Instructions.{sha1c, sha1h, sha1hash, sha1hash_step, sha1m, sha1p};
ghost use Rattle.ring_core.specs.Instructions.{sha1su0, sha1su1};
ghost use Rattle.ring_core.specs.Instructions.{sha256h, sha256h2, sha256hash, sha256su0, sha256su1};
ghost use Rattle.ring_core.specs.Prelude.{word_32};
ghost use Rattle.ring_core.specs.Sha1.{round_function};

use crate::digest::instructions::sha256::{round_of_sum, with_sigma_1};
use crate::digest::instructions::vector::{to_words, vector};
use crate::digest::sha1::round::round;
use crate::digest::sha2::round::small_sigma;
use crate::digest::word::{Sha2, Word};
use std::num::Wrapping;
use std::simd::u32x4;

type Word32 = Wrapping<u32>;

/// Whether the functions below are instructions in this build. It has no contract, so that callers
/// are proved for each answer: a build that puts the instructions in their place may ask the
/// processor here.
#[inline(never)]
pub fn are_there() -> bool {
    false
}

// The variables a to h after four rounds, from a to d and e to h. The words of the rounds, each
// with its constant added, are those of `wk`.
#[inline(always)]
fn hash(abcd: u32x4, efgh: u32x4, wk: u32x4) -> [Word32; 8]
    ensures { map word_32 result ≡ sha256hash abcd efgh wk }
{
    let [a, b, c, d] = to_words(abcd);
    let [e, f, g, h] = to_words(efgh);
    let [first, second, third, fourth] = to_words(wk);
    let v = round_of_sum(round_of_sum([a, b, c, d, e, f, g, h], first), second);
    round_of_sum(round_of_sum(v, third), fourth)
}

/// SHA256H: a to d after four rounds of SHA-256 (FIPS 180-4, 6.2.2, step 3), from a to d, the
/// lowest word of `abcd` first, and e to h in `efgh`. The words of the rounds, each with its
/// constant added, are those of `wk`.
#[inline(never)]
pub fn sha256h(abcd: u32x4, efgh: u32x4, wk: u32x4) -> u32x4
    ensures { result ≡ sha256h abcd efgh wk }
{
    let [a, b, c, d, _, _, _, _] = hash(abcd, efgh, wk);
    vector(a, b, c, d)
}

/// SHA256H2: e to h after the same rounds (FIPS 180-4, 6.2.2, step 3), from e to h in `efgh`, a to
/// d in `abcd` and the sums in `wk`.
#[inline(never)]
pub fn sha256h2(efgh: u32x4, abcd: u32x4, wk: u32x4) -> u32x4
    ensures { result ≡ sha256h2 efgh abcd wk }
{
    let [_, _, _, _, e, f, g, h] = hash(abcd, efgh, wk);
    vector(e, f, g, h)
}

/// SHA256SU0: four words of SHA-256's schedule as far as the words 16 and 15 before each go (FIPS
/// 180-4, 6.2.2, step 1), from the four words `first` and the next, `second`.
#[inline(never)]
pub fn sha256su0(first: u32x4, second: u32x4) -> u32x4
    ensures { result ≡ sha256su0 first second }
{
    small_sigma(first.shuffle(second, [1, 2, 3, 4]), Word32::SMALL_SIGMA_0) + first
}

/// SHA256SU1: four words of SHA-256's schedule (FIPS 180-4, 6.2.2, step 1), from what they take of
/// the words 16 and 15 before each, `older`, and the eight words before them, `third` and `fourth`.
#[inline(never)]
pub fn sha256su1(older: u32x4, third: u32x4, fourth: u32x4) -> u32x4
    ensures { result ≡ sha256su1 older third fourth }
{
    with_sigma_1(older + third.shuffle(fourth, [1, 2, 3, 4]), fourth)
}

// The variables a to e after a round `T` of SHA-1, from its word and constant, added.
#[inline(always)]
fn step<const T: usize>(v: [Word32; 5], wk: Word32) -> [Word32; 5]
    ensures { map word_32 result ≡ sha1hash_step (round_function T) (map word_32 v) (word_32 wk) }
{
    round(v, T, wk)
}

// The variables a to d after four rounds with the function of round `T`, from a to d and e. The
// words of the rounds, each with its constant added, are those of `wk`.
#[inline(always)]
fn sha1hash<const T: usize>(abcd: u32x4, e: u32, wk: u32x4) -> u32x4
    ensures { result ≡ sha1hash (round_function T) abcd e wk }
{
    let [a, b, c, d] = to_words(abcd);
    let [first, second, third, fourth] = to_words(wk);
    let v = step::<T>([a, b, c, d, Wrapping(e)], first);
    let v = step::<T>(step::<T>(v, second), third);
    let [a, b, c, d, _] = step::<T>(v, fourth);
    vector(a, b, c, d)
}

/// SHA1C: a to d after four of the first twenty rounds of SHA-1 (FIPS 180-4, 6.1.2, step 3), from a
/// to d, the lowest word of `abcd` first, and `e`. The words of the rounds, each with its constant
/// added, are those of `wk`.
#[inline(never)]
pub fn sha1c(abcd: u32x4, e: u32, wk: u32x4) -> u32x4
    ensures { result ≡ sha1c abcd e wk }
{
    sha1hash::<0>(abcd, e, wk)
}

/// SHA1P: the same for the second or the last twenty rounds (FIPS 180-4, 6.1.2, step 3), from
/// `abcd`, `e` and `wk`.
#[inline(never)]
pub fn sha1p(abcd: u32x4, e: u32, wk: u32x4) -> u32x4
    ensures { result ≡ sha1p abcd e wk }
{
    sha1hash::<20>(abcd, e, wk)
}

/// SHA1M: the same for the third twenty rounds (FIPS 180-4, 6.1.2, step 3), from `abcd`, `e` and
/// `wk`.
#[inline(never)]
pub fn sha1m(abcd: u32x4, e: u32, wk: u32x4) -> u32x4
    ensures { result ≡ sha1m abcd e wk }
{
    sha1hash::<40>(abcd, e, wk)
}

/// SHA1H: e after four rounds of SHA-1, where `a` is a before them (FIPS 180-4, 6.1.2, step 3).
#[inline(never)]
pub fn sha1h(a: u32) -> u32
    ensures { result ≡ sha1h a }
{
    Word::rotr(Wrapping(a), 2).0
}

/// SHA1SU0: what four words of SHA-1's schedule take of the words 16, 14 and 8 before each (FIPS
/// 180-4, 6.1.2, step 1), which are in `first`, `second` and `third`.
#[inline(never)]
pub fn sha1su0(first: u32x4, second: u32x4, third: u32x4) -> u32x4
    ensures { result ≡ sha1su0 first second third }
{
    first.shuffle(second, [2, 3, 4, 5]) ^ first ^ third
}

/// SHA1SU1: four words of SHA-1's schedule (FIPS 180-4, 6.1.2, step 1), from what they take of
/// older words, `older`, and the four words before them, `fourth`.
#[inline(never)]
pub fn sha1su1(older: u32x4, fourth: u32x4) -> u32x4
    ensures { result ≡ sha1su1 older fourth }
{
    let [a, b, c, d] = to_words(older);
    let [_, w13, w14, w15] = to_words(fourth);
    let first = Word::bit_xor(a, w13);
    let last = Word::bit_xor(Word::rotr(d, 31), Word::rotr(first, 30));
    let w17 = Word::rotr(Word::bit_xor(b, w14), 31);
    vector(
        Word::rotr(first, 31),
        w17,
        Word::rotr(Word::bit_xor(c, w15), 31),
        last,
    )
}
