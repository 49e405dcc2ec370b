// SPDX-License-Identifier: ISC
//! The steps of SHA-256's block function by the instructions of x86-64 processors: the words a, b,
//! e and f in one vector, c, d, g and h in the other, from the highest place down.
ghost use Rattle.std.specs.Prelude.{◌≡◌, ℕ, List, [], ◌∷◌, slice_index};

use crate::digest::instructions::vector::{to_words, vector};
use crate::digest::instructions::x86::{sha256msg1, sha256msg2, sha256rnds2};
use crate::digest::sha2::by_instruction::Sha256Instructions;
use std::num::Wrapping;
use std::simd::u32x4;

pub(crate) struct X86;

impl Sha256Instructions for X86 {
    ghost variables = { λ v. let x = slice_index v.0 in let y = slice_index v.1 in
        x 3 ∷ x 2 ∷ y 3 ∷ y 2 ∷ x 1 ∷ x 0 ∷ y 1 ∷ y 0 ∷ [] };

    #[inline(always)]
    fn pack(state: &[Wrapping<u32>; 8]) -> (u32x4, u32x4) {
        let [a, b, c, d, e, f, g, h] = *state;
        (vector(f, e, b, a), vector(h, g, d, c))
    }

    #[inline(always)]
    fn unpack(state: (u32x4, u32x4)) -> [Wrapping<u32>; 8] {
        let [f, e, b, a] = to_words(state.0);
        let [h, g, d, c] = to_words(state.1);
        [a, b, c, d, e, f, g, h]
    }

    #[inline(always)]
    fn add_state(state: (u32x4, u32x4), v: (u32x4, u32x4)) -> (u32x4, u32x4) {
        (state.0 + v.0, state.1 + v.1)
    }

    #[inline(always)]
    fn four_rounds(v: (u32x4, u32x4), sums: u32x4) -> (u32x4, u32x4) {
        let (abef, cdgh) = v;
        let middle = sha256rnds2(cdgh, abef, sums);
        (
            sha256rnds2(abef, middle, sums.swizzle([2, 3, 2, 3])),
            middle,
        )
    }

    #[inline(always)]
    fn next_four(first: u32x4, second: u32x4, third: u32x4, fourth: u32x4) -> u32x4 {
        let seven = third.shuffle(fourth, [1, 2, 3, 4]);
        sha256msg2(sha256msg1(first, second) + seven, fourth)
    }
}
