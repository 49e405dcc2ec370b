// SPDX-License-Identifier: ISC
//! The word of 32 bits, that of SHA-1 and SHA-256 (FIPS 180-4, 3.2), alone and in vectors, and the
//! numbers of SHA-256 (4.1.2 and 4.2.2).
ghost use Rattle.std.specs.Prelude.{◌≡◌, ℕ, ◌-◌, ◌+◌, ◌*◌, ◌%◌, ◌^◌, ◌<◌, ◌≤◌, [], ◌∷◌};
ghost use Rattle.std.specs.Prelude.{bit_and, bit_or, bit_xor, length, map, slice_index};
ghost use Rattle.std.proofs.Common.{lit<, refl, mod-lt, pow_pos, rules};
ghost use Rattle.ring_core.specs.Prelude.{constants_256, family_256, low_32, rotr, shr, word_at};

use crate::digest::word::constants::K_256;
use crate::digest::word::lanes::{FitsWindow, FourWords, LaneWord, Vector};
use crate::digest::word::traits::{Sha2, Word};
use std::num::Wrapping;
use std::simd::{Simd, u32x1, u32x2, u32x4, u32x8, u32x16, u32x32, u32x64, u64x2};

// These functions take plain numbers, since a proof knows of these that they fit their type, and
// not of numbers inside a struct.

// ROTR (3.2, item 4)
#[tactic(auto, using(crate::proofs::Rotation::rotations))]
fn rotate(word: u32, count: u32) -> u32
    requires positive { 1 ≤ count }
    requires below { count < 32 }
    ensures { result % 2 ^ 32 ≡ rotr 32 count (word % 2 ^ 32) }
{
    word.rotate_right(count)
}

// ROTR of each word of a vector (3.2, item 4)
#[inline(always)]
pub(crate) fn rotate_four(words: u32x4, count: u32) -> u32x4
    requires positive { 1 ≤ count }
    requires below { count < 32 }
    ensures { result ≡ map (rotr 32 count) words }
{
    (words >> Simd::splat(count)) | (words << Simd::splat(32 - count))
}

// The words in the low halves of two lanes, each twice.
#[inline(always)]
pub(crate) fn doubled(lanes: u64x2) -> u32x4
    ensures { (a b : ℕ) → map low_32 lanes ≡ a ∷ b ∷ [] → result ≡ a ∷ a ∷ b ∷ b ∷ [] }
{
    u32x4::from_le_bytes(lanes.to_le_bytes()).swizzle([0, 0, 2, 2])
}

// Two lanes as one, the first as its low half.
#[inline(always)]
pub(crate) fn joined(lanes: u32x4) -> u64x2
    ensures { let x = slice_index lanes in
        result ≡ (x 1 * 2 ^ 32 + x 0) ∷ (x 3 * 2 ^ 32 + x 2) ∷ [] }
{
    u64x2::from_le_bytes(lanes.to_le_bytes())
}

// K of round `t` (4.2.2)
#[tactic(auto, unfolding(crate::specs::Sha2::constants_256))]
fn round_constant(t: usize) -> u32
    requires { t < 64 }
    ensures { result ≡ slice_index constants_256 t }
{
    K_256[t]
}

// SHR (3.2, item 3)
fn shift(word: u32, count: usize) -> u32
    requires { count < 32 }
    ensures { result % 2 ^ 32 ≡ shr count (word % 2 ^ 32) }
{
    word >> count
}

// word `j` of a block (5.2)
fn read(block: &[u8], j: usize) -> u32
    requires place { j < 16 }
    requires whole { length block.now ≡ 16 * 4 }
    ensures { result ≡ word_at 32 block.now j }
{
    let at = 4 * j;
    u32::from_be_bytes(*block[at..at + 4].as_array::<4>().unwrap())
}

/// The words of SHA-1 and SHA-256: 32 bits.
impl Word for Wrapping<u32> {
    const ZERO: Wrapping<u32> = Wrapping(0);

    type InputBytes = [u8; 4];

    ghost bits = { 32 };

    ghost value = { λ x. x.0 % 2 ^ 32 };

    ghost bytes = { λ b. b };

    ghost ZERO = { record { 0 = 0 } };

    fn from_be_bytes(input: [u8; 4]) -> Wrapping<u32> {
        Wrapping(u32::from_be_bytes(input))
    }

    fn plus(self, o: Wrapping<u32>) -> Wrapping<u32> {
        Wrapping(self.0.wrapping_add(o.0))
    }

    fn bit_and(self, o: Wrapping<u32>) -> Wrapping<u32> {
        Wrapping(self.0 & o.0)
    }

    fn bit_or(self, o: Wrapping<u32>) -> Wrapping<u32> {
        Wrapping(self.0 | o.0)
    }

    fn bit_xor(self, o: Wrapping<u32>) -> Wrapping<u32> {
        Wrapping(self.0 ^ o.0)
    }

    fn bit_not(self) -> Wrapping<u32> {
        Wrapping(!self.0)
    }

    fn rotr(self, count: u32) -> Wrapping<u32> {
        Wrapping(rotate(self.0, count))
    }

    ghost fits = { λ x. mod-lt _ (pow_pos 32) };

    ghost zero_is = { refl };
}

/// The numbers of SHA-256 (FIPS 180-4, 4.1.2 and 4.2.2): 64 rounds.
impl Sha2 for Wrapping<u32> {
    const BIG_SIGMA_0: (u32, u32, u32) = (2, 13, 22);

    const BIG_SIGMA_1: (u32, u32, u32) = (6, 11, 25);

    const SMALL_SIGMA_0: (u32, u32, usize) = (7, 18, 3);

    const SMALL_SIGMA_1: (u32, u32, usize) = (17, 19, 10);

    const ROUNDS: usize = 64;

    ghost family = { family_256 };

    ghost BIG_SIGMA_0 = { (2, 13, 22) };

    ghost BIG_SIGMA_1 = { (6, 11, 25) };

    ghost SMALL_SIGMA_0 = { (7, 18, 3) };

    ghost SMALL_SIGMA_1 = { (17, 19, 10) };

    ghost ROUNDS = { 64 };

    fn shift_right(self, count: usize) -> Wrapping<u32> {
        Wrapping(shift(self.0, count))
    }

    fn k(t: usize) -> Wrapping<u32> {
        Wrapping(round_constant(t))
    }

    fn read_word(block: &[u8], j: usize) -> Wrapping<u32> {
        Wrapping(read(block, j))
    }

    ghost numbers = { Prim.search rules };
}

impl FitsWindow for Wrapping<u32> {
    ghost small = { lit< tt };
}

impl FitsWindow for u32x1 {
    ghost small = { lit< tt };
}

impl FitsWindow for u32x2 {
    ghost small = { lit< tt };
}

impl FitsWindow for u32x4 {
    ghost small = { lit< tt };
}

impl FitsWindow for u32x8 {
    ghost small = { lit< tt };
}

impl FitsWindow for u32x16 {
    ghost small = { lit< tt };
}

impl FitsWindow for u32x32 {
    ghost small = { lit< tt };
}

impl FitsWindow for u32x64 {
    ghost small = { lit< tt };
}

/// The operations of FIPS 180-4, 3.2, on `L` words of 32 bits.
#[tactic(auto, using(crate::proofs::Vectors::lanes))]
impl<const L: usize> LaneWord for Simd<u32, L> {
    ghost use Rattle.ring_core.specs.Prelude.{lane, lane-lt};

    type One = Wrapping<u32>;

    const LANES: usize = L;

    ghost LANES = { L };

    ghost lane = { λ i x. lane 32 (i % L) x };

    #[inline(always)]
    #[tactic(auto, unfolding(crate::specs::Lane::lane))]
    fn splat(word: Wrapping<u32>) -> Simd<u32, L> {
        Simd::splat(word.0)
    }

    #[inline(always)]
    #[tactic(auto, unfolding(crate::specs::Lane::lane))]
    fn plus(self, o: Simd<u32, L>) -> Simd<u32, L> {
        self + o
    }

    #[inline(always)]
    fn bit_and(self, o: Simd<u32, L>) -> Simd<u32, L> {
        self & o
    }

    #[inline(always)]
    fn bit_xor(self, o: Simd<u32, L>) -> Simd<u32, L> {
        self ^ o
    }

    #[inline(always)]
    fn rotr(self, count: u32) -> Simd<u32, L> {
        (self >> Simd::splat(count)) | (self << Simd::splat(32 - count))
    }

    ghost fits = { λ i x. lane-lt 32 (i % L) x };
}

/// Its numbers are the words of 32 bits.
#[tactic(auto, using(crate::proofs::Vectors::lanes))]
impl<const L: usize> Vector for Simd<u32, L>
where
    Simd<u32, L>: FitsWindow,
{
    ghost use Rattle.ring_core.specs.Prelude.{lane, lane-lt};

    #[inline(always)]
    fn word(self, i: usize) -> Wrapping<u32> {
        Wrapping(self.to_array()[i])
    }

    #[inline(always)]
    fn with(self, i: usize, word: Wrapping<u32>) -> Simd<u32, L> {
        let mut words = self.to_array();
        words[i] = word.0;
        Simd::from_array(words)
    }

    #[inline(always)]
    fn shift_right(self, count: u32) -> Simd<u32, L> {
        self >> Simd::splat(count)
    }
}

impl FourWords for Wrapping<u32> {
    type Four = u32x4;

    ghost words = { λ x. map low_32 x };

    #[inline(always)]
    fn four(a: Wrapping<u32>, b: Wrapping<u32>, c: Wrapping<u32>, d: Wrapping<u32>) -> u32x4 {
        Simd::from_array([a.0, b.0, c.0, d.0])
    }

    #[inline(always)]
    fn word(four: &u32x4, i: usize) -> Wrapping<u32> {
        Wrapping(four.as_array()[i])
    }

    #[inline(always)]
    fn sums(x: u32x4, y: u32x4) -> u32x4 {
        x + y
    }
}
