// SPDX-License-Identifier: ISC
//! The steps of SHA-1's block function by the instructions of x86-64 processors: the words a to d
//! in one vector, from the highest place down, and in the highest place of the other a word that
//! is e once it is rotated left by 30 bits, which after four rounds is a before them.
ghost use Rattle.std.specs.Prelude.{◌≡◌, ◌<◌, ℕ, List, [], ◌∷◌, slice_index};
ghost use Rattle.ring_core.specs.Instructions.{sha1rnds4};
ghost use Rattle.ring_core.specs.Prelude.{add_words, rotl};

use crate::digest::instructions::vector::{to_words, vector};
use crate::digest::instructions::x86::{sha1msg1, sha1msg2, sha1nexte, sha1rnds4};
use crate::digest::sha1::by_instruction::Sha1Instructions;
use crate::digest::word::Word;
use crate::digest::word::w32::rotate_four;
use std::num::Wrapping;
use std::simd::u32x4;

type Word32 = Wrapping<u32>;

pub(crate) struct X86;

// The instruction with the immediate `part`.
#[inline(always)]
fn rounds(abcd: u32x4, words: u32x4, part: usize) -> u32x4
    requires { part < 4 }
    ensures { result ≡ sha1rnds4 part abcd words }
{
    if part == 0 {
        sha1rnds4::<0>(abcd, words)
    } else if part == 1 {
        sha1rnds4::<1>(abcd, words)
    } else if part == 2 {
        sha1rnds4::<2>(abcd, words)
    } else {
        sha1rnds4::<3>(abcd, words)
    }
}

// The sum of two e, in the same form.
#[inline(always)]
fn add_e(first: u32x4, second: u32x4) -> u32x4
    ensures { let e = λ (x : List ℕ). rotl 32 30 (slice_index x 3) in
        e result ≡ add_words 32 (e first) (e second) }
{
    rotate_four(sha1nexte(second, sha1nexte(first, u32x4::splat(0))), 30)
}

impl Sha1Instructions for X86 {
    type State = (u32x4, u32x4);

    ghost variables = { λ v. let x = slice_index v.0 in
        x 3 ∷ x 2 ∷ x 1 ∷ x 0 ∷ rotl 32 30 (slice_index v.1 3) ∷ [] };

    ghost in_order = { λ four. let x = slice_index four in x 3 ∷ x 2 ∷ x 1 ∷ x 0 ∷ [] };

    #[inline(always)]
    fn pack(words: [Word32; 5]) -> (u32x4, u32x4) {
        let [a, b, c, d, e] = words;
        let zero = Wrapping(0);
        (
            vector(d, c, b, a),
            vector(zero, zero, zero, Word::rotr(e, 30)),
        )
    }

    #[inline(always)]
    fn unpack(state: (u32x4, u32x4)) -> [Word32; 5] {
        let [d, c, b, a] = to_words(state.0);
        let [_, _, _, e] = to_words(state.1);
        [a, b, c, d, Word::rotr(e, 2)]
    }

    #[inline(always)]
    fn add_state(state: (u32x4, u32x4), v: (u32x4, u32x4)) -> (u32x4, u32x4) {
        (state.0 + v.0, add_e(state.1, v.1))
    }

    #[inline(always)]
    fn ordered(words: u32x4) -> u32x4 {
        words.swizzle([3, 2, 1, 0])
    }

    #[inline(always)]
    fn four_rounds(v: (u32x4, u32x4), words: u32x4, part: usize) -> (u32x4, u32x4) {
        let (abcd, e) = v;
        (rounds(abcd, sha1nexte(e, words), part), abcd)
    }

    #[inline(always)]
    fn next_four(first: u32x4, second: u32x4, third: u32x4, fourth: u32x4) -> u32x4 {
        sha1msg2(sha1msg1(first, second) ^ third, fourth)
    }
}
