// SPDX-License-Identifier: ISC
//! The steps of SHA-256's block function by the instructions of 64-bit ARM processors: the words a
//! to d in one vector, e to h in the other, from the lowest place up.
ghost use Rattle.std.specs.Prelude.{◌≡◌, ℕ, List, [], ◌∷◌, slice_index};

use crate::digest::instructions::arm::{sha256h, sha256h2, sha256su0, sha256su1};
use crate::digest::instructions::vector::{to_words, vector};
use crate::digest::sha2::by_instruction::Sha256Instructions;
use std::num::Wrapping;
use std::simd::u32x4;

pub(crate) struct Arm;

impl Sha256Instructions for Arm {
    ghost variables = { λ v. let x = slice_index v.0 in let y = slice_index v.1 in
        x 0 ∷ x 1 ∷ x 2 ∷ x 3 ∷ y 0 ∷ y 1 ∷ y 2 ∷ y 3 ∷ [] };

    #[inline(always)]
    fn pack(state: &[Wrapping<u32>; 8]) -> (u32x4, u32x4) {
        let [a, b, c, d, e, f, g, h] = *state;
        (vector(a, b, c, d), vector(e, f, g, h))
    }

    #[inline(always)]
    fn unpack(state: (u32x4, u32x4)) -> [Wrapping<u32>; 8] {
        let [a, b, c, d] = to_words(state.0);
        let [e, f, g, h] = to_words(state.1);
        [a, b, c, d, e, f, g, h]
    }

    #[inline(always)]
    fn add_state(state: (u32x4, u32x4), v: (u32x4, u32x4)) -> (u32x4, u32x4) {
        (state.0 + v.0, state.1 + v.1)
    }

    #[inline(always)]
    fn four_rounds(v: (u32x4, u32x4), sums: u32x4) -> (u32x4, u32x4) {
        let (abcd, efgh) = v;
        (sha256h(abcd, efgh, sums), sha256h2(efgh, abcd, sums))
    }

    #[inline(always)]
    fn next_four(first: u32x4, second: u32x4, third: u32x4, fourth: u32x4) -> u32x4 {
        sha256su1(sha256su0(first, second), third, fourth)
    }
}
