// SPDX-License-Identifier: ISC
//! The instructions of x86-64 processors for SHA-1 and SHA-256.
ghost use Rattle.std.specs.Prelude.{◌≡◌, ◌<◌};
ghost use Rattle.ring_core.specs.Instructions.{sha1msg1, sha1msg2, sha1nexte, sha1rnds4};
ghost use Rattle.ring_core.specs.Instructions.{sha256msg1, sha256msg2, sha256rnds2};

use crate::digest::instructions::sha256::{round_of_sum, with_sigma_1};
use crate::digest::instructions::vector::{to_words, vector};
use crate::digest::sha1::round::{round, round_constant};
use crate::digest::sha2::round::small_sigma;
use crate::digest::word::{Sha2, Word};
use std::num::Wrapping;
use std::simd::u32x4;

type Word32 = Wrapping<u32>;

/// Whether the functions below are instructions in this build. It has no contract, so that callers
/// are proved for each answer: a build that puts the instructions in their place may ask the
/// processor here.
#[inline(never)]
pub fn are_there() -> bool {
    false
}

/// SHA256RNDS2: two rounds of SHA-256 (FIPS 180-4, 6.2.2, step 3). From C, D, G and H, the highest
/// word of `cdgh` first, and A, B, E and F likewise in `abef`: A, B, E and F after them. The words
/// of the rounds, each with its constant added, are the lowest two of `wk`.
#[inline(never)]
pub fn sha256rnds2(cdgh: u32x4, abef: u32x4, wk: u32x4) -> u32x4
    ensures { result ≡ sha256rnds2 cdgh abef wk }
{
    let [h, g, d, c] = to_words(cdgh);
    let [f, e, b, a] = to_words(abef);
    let [first, second, _, _] = to_words(wk);
    let v = round_of_sum(round_of_sum([a, b, c, d, e, f, g, h], first), second);
    vector(v[5], v[4], v[1], v[0])
}

/// SHA256MSG1: four words of SHA-256's schedule as far as the words 16 and 15 before each go (FIPS
/// 180-4, 6.2.2, step 1), from the four words `first` and the next, `second`.
#[inline(never)]
pub fn sha256msg1(first: u32x4, second: u32x4) -> u32x4
    ensures { result ≡ sha256msg1 first second }
{
    first + small_sigma(first.shuffle(second, [1, 2, 3, 4]), Word32::SMALL_SIGMA_0)
}

/// SHA256MSG2: four words of SHA-256's schedule (FIPS 180-4, 6.2.2, step 1), from what they take of
/// older words, `older`, and the four words before them, `fourth`.
#[inline(never)]
pub fn sha256msg2(older: u32x4, fourth: u32x4) -> u32x4
    ensures { result ≡ sha256msg2 older fourth }
{
    with_sigma_1(older, fourth)
}

/// SHA1RNDS4: four rounds of SHA-1 (FIPS 180-4, 6.1.2, step 3), with the function and the constant
/// of the twenty rounds numbered `I`, from 0. From A to D, the highest word of `abcd` first: A to D
/// after them. The words of the rounds are in `words` in the same order, E added to the first.
#[inline(never)]
pub fn sha1rnds4<const I: usize>(abcd: u32x4, words: u32x4) -> u32x4
    requires { I < 4 }
    ensures { result ≡ sha1rnds4 I abcd words }
{
    let t = 20 * I;
    let k = round_constant(t);
    let [d, c, b, a] = to_words(abcd);
    let [fourth, third, second, first] = to_words(words);
    let v = round([a, b, c, d, Wrapping(0)], t, Word::plus(k, first));
    let v = round(v, t, Word::plus(k, second));
    let v = round(v, t, Word::plus(k, third));
    let v = round(v, t, Word::plus(k, fourth));
    vector(v[3], v[2], v[1], v[0])
}

/// SHA1NEXTE: `words` with E after four rounds added to the highest, where `abcd` has A to D before
/// these rounds (FIPS 180-4, 6.1.2, step 3).
#[inline(never)]
pub fn sha1nexte(abcd: u32x4, words: u32x4) -> u32x4
    ensures { result ≡ sha1nexte abcd words }
{
    let [_, _, _, a] = to_words(abcd);
    let [fourth, third, second, first] = to_words(words);
    vector(fourth, third, second, Word::plus(first, Word::rotr(a, 2)))
}

/// SHA1MSG1: what four words of SHA-1's schedule take of the words 16 and 14 before each (FIPS
/// 180-4, 6.1.2, step 1), which are in `first` and `second`, the highest word first.
#[inline(never)]
pub fn sha1msg1(first: u32x4, second: u32x4) -> u32x4
    ensures { result ≡ sha1msg1 first second }
{
    second.shuffle(first, [2, 3, 4, 5]) ^ first
}

/// SHA1MSG2: four words of SHA-1's schedule (FIPS 180-4, 6.1.2, step 1), from what they take of
/// older words, `older`, and the four words before them, `fourth`, the highest word first.
#[inline(never)]
pub fn sha1msg2(older: u32x4, fourth: u32x4) -> u32x4
    ensures { result ≡ sha1msg2 older fourth }
{
    let [d, c, b, a] = to_words(older);
    let [w15, w14, w13, _] = to_words(fourth);
    let w16 = Word::rotr(Word::bit_xor(a, w13), 31);
    let w17 = Word::rotr(Word::bit_xor(b, w14), 31);
    let w18 = Word::rotr(Word::bit_xor(c, w15), 31);
    vector(Word::rotr(Word::bit_xor(d, w16), 31), w18, w17, w16)
}
