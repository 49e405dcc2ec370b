// SPDX-License-Identifier: ISC
//! The steps of SHA-256 that instructions of both processors share (FIPS 180-4, 6.2.2).
ghost use Rattle.std.specs.Prelude.{◌≡◌, map};
ghost use Rattle.ring_core.specs.Instructions.{sha256msg2};
ghost use Rattle.ring_core.specs.Prelude.{family_256, round, word_32};

use crate::digest::sha2::round::{round, small_sigma};
use crate::digest::word::Sha2;
use std::num::Wrapping;
use std::simd::u32x4;

type Word32 = Wrapping<u32>;

// One round (step 3), from its word and its constant, added. The standard's round adds the two.
#[inline(always)]
pub(crate) fn round_of_sum(v: [Word32; 8], wk: Word32) -> [Word32; 8]
    ensures { map word_32 result ≡ round family_256 (map word_32 v) (word_32 wk) 0 }
{
    round(v, wk)
}

// Four words of the schedule (step 1), from what they take of older words and from the four words
// before them. The last two need the first two.
#[inline(always)]
pub(crate) fn with_sigma_1(older: u32x4, fourth: u32x4) -> u32x4
    ensures { result ≡ sha256msg2 older fourth }
{
    let zero = u32x4::splat(0);
    let two = older + small_sigma(fourth.shuffle(zero, [2, 3, 4, 4]), Word32::SMALL_SIGMA_1);
    two + small_sigma(zero.shuffle(two, [0, 0, 4, 5]), Word32::SMALL_SIGMA_1)
}
