// SPDX-License-Identifier: ISC
//! The word of 64 bits, that of SHA-512 and its truncations (FIPS 180-4, 3.2), alone and in
//! vectors, and their numbers (4.1.3 and 4.2.3).
ghost use Rattle.std.specs.Prelude.{◌≡◌, ℕ, ◌-◌, ◌*◌, ◌%◌, ◌^◌, ◌<◌, ◌≤◌, length, map, bit_and};
ghost use Rattle.std.specs.Prelude.{bit_or, bit_xor, slice_index};
ghost use Rattle.std.proofs.Common.{lit<, refl, mod-lt, pow_pos, rules};
ghost use Rattle.ring_core.specs.Prelude.{constants_512, family_512, rotr, shr, word_at};

use crate::digest::word::constants::K_512;
use crate::digest::word::lanes::{FitsWindow, FourWords, LaneWord, Vector};
use crate::digest::word::traits::{Sha2, Word};
use std::num::Wrapping;
use std::simd::{Simd, u64x1, u64x2, u64x4, u64x8, u64x16, u64x32, u64x64};

// These functions take plain numbers, since a proof knows of these that they fit their type, and
// not of numbers inside a struct.

// ROTR (3.2, item 4)
#[tactic(auto, using(crate::proofs::Rotation::rotations))]
fn rotate(word: u64, count: u32) -> u64
    requires positive { 1 ≤ count }
    requires below { count < 64 }
    ensures { result % 2 ^ 64 ≡ rotr 64 count (word % 2 ^ 64) }
{
    word.rotate_right(count)
}

// K of round `t` (4.2.3)
#[tactic(auto, unfolding(crate::specs::Sha2::constants_512))]
fn round_constant(t: usize) -> u64
    requires { t < 80 }
    ensures { result ≡ slice_index constants_512 t }
{
    K_512[t]
}

// SHR (3.2, item 3)
fn shift(word: u64, count: usize) -> u64
    requires { count < 64 }
    ensures { result % 2 ^ 64 ≡ shr count (word % 2 ^ 64) }
{
    word >> count
}

// word `j` of a block (5.2)
fn read(block: &[u8], j: usize) -> u64
    requires place { j < 16 }
    requires whole { length block.now ≡ 16 * 8 }
    ensures { result ≡ word_at 64 block.now j }
{
    let at = 8 * j;
    u64::from_be_bytes(*block[at..at + 8].as_array::<8>().unwrap())
}

/// The words of SHA-512 and its truncations: 64 bits.
impl Word for Wrapping<u64> {
    const ZERO: Wrapping<u64> = Wrapping(0);

    type InputBytes = [u8; 8];

    ghost bits = { 64 };

    ghost value = { λ x. x.0 % 2 ^ 64 };

    ghost bytes = { λ b. b };

    ghost ZERO = { record { 0 = 0 } };

    fn from_be_bytes(input: [u8; 8]) -> Wrapping<u64> {
        Wrapping(u64::from_be_bytes(input))
    }

    fn plus(self, o: Wrapping<u64>) -> Wrapping<u64> {
        Wrapping(self.0.wrapping_add(o.0))
    }

    fn bit_and(self, o: Wrapping<u64>) -> Wrapping<u64> {
        Wrapping(self.0 & o.0)
    }

    fn bit_or(self, o: Wrapping<u64>) -> Wrapping<u64> {
        Wrapping(self.0 | o.0)
    }

    fn bit_xor(self, o: Wrapping<u64>) -> Wrapping<u64> {
        Wrapping(self.0 ^ o.0)
    }

    fn bit_not(self) -> Wrapping<u64> {
        Wrapping(!self.0)
    }

    fn rotr(self, count: u32) -> Wrapping<u64> {
        Wrapping(rotate(self.0, count))
    }

    ghost fits = { λ x. mod-lt _ (pow_pos 64) };

    ghost zero_is = { refl };
}

/// The numbers of SHA-512 and its truncations (FIPS 180-4, 4.1.3 and 4.2.3): 80 rounds.
impl Sha2 for Wrapping<u64> {
    const BIG_SIGMA_0: (u32, u32, u32) = (28, 34, 39);

    const BIG_SIGMA_1: (u32, u32, u32) = (14, 18, 41);

    const SMALL_SIGMA_0: (u32, u32, usize) = (1, 8, 7);

    const SMALL_SIGMA_1: (u32, u32, usize) = (19, 61, 6);

    const ROUNDS: usize = 80;

    ghost family = { family_512 };

    ghost BIG_SIGMA_0 = { (28, 34, 39) };

    ghost BIG_SIGMA_1 = { (14, 18, 41) };

    ghost SMALL_SIGMA_0 = { (1, 8, 7) };

    ghost SMALL_SIGMA_1 = { (19, 61, 6) };

    ghost ROUNDS = { 80 };

    fn shift_right(self, count: usize) -> Wrapping<u64> {
        Wrapping(shift(self.0, count))
    }

    fn k(t: usize) -> Wrapping<u64> {
        Wrapping(round_constant(t))
    }

    fn read_word(block: &[u8], j: usize) -> Wrapping<u64> {
        Wrapping(read(block, j))
    }

    ghost numbers = { Prim.search rules };
}

impl FitsWindow for Wrapping<u64> {
    ghost small = { lit< tt };
}

impl FitsWindow for u64x1 {
    ghost small = { lit< tt };
}

impl FitsWindow for u64x2 {
    ghost small = { lit< tt };
}

impl FitsWindow for u64x4 {
    ghost small = { lit< tt };
}

impl FitsWindow for u64x8 {
    ghost small = { lit< tt };
}

impl FitsWindow for u64x16 {
    ghost small = { lit< tt };
}

impl FitsWindow for u64x32 {
    ghost small = { lit< tt };
}

impl FitsWindow for u64x64 {
    ghost small = { lit< tt };
}

/// The operations of FIPS 180-4, 3.2, on `L` words of 64 bits.
#[tactic(auto, using(crate::proofs::Vectors::lanes))]
impl<const L: usize> LaneWord for Simd<u64, L> {
    ghost use Rattle.ring_core.specs.Prelude.{lane, lane-lt};

    type One = Wrapping<u64>;

    const LANES: usize = L;

    ghost LANES = { L };

    ghost lane = { λ i x. lane 64 (i % L) x };

    #[inline(always)]
    #[tactic(auto, unfolding(crate::specs::Lane::lane))]
    fn splat(word: Wrapping<u64>) -> Simd<u64, L> {
        Simd::splat(word.0)
    }

    #[inline(always)]
    #[tactic(auto, unfolding(crate::specs::Lane::lane))]
    fn plus(self, o: Simd<u64, L>) -> Simd<u64, L> {
        self + o
    }

    #[inline(always)]
    fn bit_and(self, o: Simd<u64, L>) -> Simd<u64, L> {
        self & o
    }

    #[inline(always)]
    fn bit_xor(self, o: Simd<u64, L>) -> Simd<u64, L> {
        self ^ o
    }

    #[inline(always)]
    fn rotr(self, count: u32) -> Simd<u64, L> {
        (self >> Simd::splat(count as u64)) | (self << Simd::splat((64 - count) as u64))
    }

    ghost fits = { λ i x. lane-lt 64 (i % L) x };
}

/// Its numbers are the words of 64 bits.
#[tactic(auto, using(crate::proofs::Vectors::lanes))]
impl<const L: usize> Vector for Simd<u64, L>
where
    Simd<u64, L>: FitsWindow,
{
    ghost use Rattle.ring_core.specs.Prelude.{lane, lane-lt};

    #[inline(always)]
    fn word(self, i: usize) -> Wrapping<u64> {
        Wrapping(self.to_array()[i])
    }

    #[inline(always)]
    fn with(self, i: usize, word: Wrapping<u64>) -> Simd<u64, L> {
        let mut words = self.to_array();
        words[i] = word.0;
        Simd::from_array(words)
    }

    #[inline(always)]
    fn shift_right(self, count: u32) -> Simd<u64, L> {
        self >> Simd::splat(count as u64)
    }
}

impl FourWords for Wrapping<u64> {
    type Four = u64x4;

    ghost words = { λ x. map (λ n. n % 2 ^ 64) x };

    #[inline(always)]
    fn four(a: Wrapping<u64>, b: Wrapping<u64>, c: Wrapping<u64>, d: Wrapping<u64>) -> u64x4 {
        Simd::from_array([a.0, b.0, c.0, d.0])
    }

    #[inline(always)]
    fn word(four: &u64x4, i: usize) -> Wrapping<u64> {
        Wrapping(four.as_array()[i])
    }

    #[inline(always)]
    fn sums(x: u64x4, y: u64x4) -> u64x4 {
        x + y
    }
}
