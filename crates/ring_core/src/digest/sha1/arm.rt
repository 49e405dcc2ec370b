// SPDX-License-Identifier: ISC
//! The steps of SHA-1's block function by the instructions of 64-bit ARM processors: the words a to
//! d in a vector, from the lowest place up, and e alone.
ghost use Rattle.std.specs.Prelude.{◌≡◌, ℕ, List, [], ◌∷◌, slice_index, ◌<◌};
ghost use Rattle.ring_core.specs.Instructions.{sha1_function, sha1hash};

use crate::digest::instructions::arm::{sha1c, sha1h, sha1m, sha1p, sha1su0, sha1su1};
use crate::digest::instructions::vector::{number, to_words, vector};
use crate::digest::sha1::by_instruction::Sha1Instructions;
use crate::digest::sha1::round::round_constant;
use std::num::Wrapping;
use std::simd::u32x4;

type Word32 = Wrapping<u32>;

pub(crate) struct Arm;

// The variables a to d after four of the twenty rounds of part `part`.
#[inline(always)]
fn rounds(abcd: u32x4, e: u32, wk: u32x4, part: usize) -> u32x4
    requires { part < 4 }
    ensures { result ≡ sha1hash (sha1_function part) abcd e wk }
{
    if part == 0 {
        sha1c(abcd, e, wk)
    } else if part == 2 {
        sha1m(abcd, e, wk)
    } else {
        sha1p(abcd, e, wk)
    }
}

impl Sha1Instructions for Arm {
    type State = (u32x4, u32);

    ghost variables = { λ v. let x = slice_index v.0 in
        x 0 ∷ x 1 ∷ x 2 ∷ x 3 ∷ v.1 ∷ [] };

    ghost in_order = { λ four. four };

    #[inline(always)]
    fn pack(words: [Word32; 5]) -> (u32x4, u32) {
        let [a, b, c, d, e] = words;
        (vector(a, b, c, d), number(e))
    }

    #[inline(always)]
    fn unpack(state: (u32x4, u32)) -> [Word32; 5] {
        let [a, b, c, d] = to_words(state.0);
        [a, b, c, d, Wrapping(state.1)]
    }

    #[inline(always)]
    fn add_state(state: (u32x4, u32), v: (u32x4, u32)) -> (u32x4, u32) {
        (state.0 + v.0, state.1.wrapping_add(v.1))
    }

    #[inline(always)]
    fn ordered(words: u32x4) -> u32x4 {
        words
    }

    #[inline(always)]
    fn four_rounds(v: (u32x4, u32), words: u32x4, part: usize) -> (u32x4, u32) {
        let (abcd, e) = v;
        let k = round_constant(20 * part);
        let [a, _, _, _] = abcd.to_array();
        (rounds(abcd, e, vector(k, k, k, k) + words, part), sha1h(a))
    }

    #[inline(always)]
    fn next_four(first: u32x4, second: u32x4, third: u32x4, fourth: u32x4) -> u32x4 {
        sha1su1(sha1su0(first, second, third), fourth)
    }
}
