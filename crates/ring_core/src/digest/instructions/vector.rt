// SPDX-License-Identifier: ISC
//! Vectors of four words of 32 bits, as the instructions of both processors take them.
ghost use Rattle.std.specs.Prelude.{◌≡◌, ◌<◌, ◌≤◌, ℕ, List, [], ◌∷◌, length, map};
ghost use Rattle.ring_core.specs.Prelude.{IsBlockOf, four, word_32, word_at};

use crate::digest::word::lanes::word_of;
use std::num::Wrapping;
use std::simd::{Simd, u8x16, u32x4};

type Word32 = Wrapping<u32>;

// The words of a vector, the lowest first.
#[inline(always)]
pub(crate) fn to_words(vector: u32x4) -> [Word32; 4]
    ensures { map word_32 result ≡ vector }
{
    let [a, b, c, d] = vector.to_array();
    [Wrapping(a), Wrapping(b), Wrapping(c), Wrapping(d)]
}

// The number of a word.
#[inline(always)]
pub(crate) fn number(word: Word32) -> u32
    ensures { result ≡ word_32 word }
{
    word.0
}

// The vector of four words, the lowest first.
#[inline(always)]
pub(crate) fn vector(a: Word32, b: Word32, c: Word32, d: Word32) -> u32x4
    ensures { result ≡ word_32 a ∷ word_32 b ∷ word_32 c ∷ word_32 d ∷ [] }
{
    Simd::from_array([a.0, b.0, c.0, d.0])
}

// Words `4 * j` to `4 * j + 3` of a block (FIPS 180-4, 5.2), by one load and one swizzle: of four
// loads the compiler makes eight instructions for some vectors.
#[inline(always)]
pub(crate) fn read_words(block: &[u8], j: usize) -> u32x4
    requires place { j < 4 }
    requires whole { length block.now ≡ 64 }
    ensures { result ≡ four (word_at 32 block.now) j }
{
    let bytes = u8x16::from_slice(&block[16 * j..16 * j + 16]);
    u32x4::from_le_bytes(bytes.swizzle([3, 2, 1, 0, 7, 6, 5, 4, 11, 10, 9, 8, 15, 14, 13, 12]))
}

// Words `4 * j` to `4 * j + 3` of a block whose first `N` words are those of `front`, and whose
// other words are those of `padding`.
#[inline(always)]
pub(crate) fn words_of<const N: usize>(
    front: &[Word32; 8],
    padding: &[Word32; 16],
    j: usize,
) -> u32x4
    requires place { j < 4 }
    requires front { N ≤ 8 }
    ensures { (b : List ℕ) → IsBlockOf 32 N (map word_32 front.now) (map word_32 padding.now) b
        → result ≡ four (word_at 32 b) j }
{
    let t = 4 * j;
    vector(
        word_of::<Word32, N>(front, padding, t),
        word_of::<Word32, N>(front, padding, t + 1),
        word_of::<Word32, N>(front, padding, t + 2),
        word_of::<Word32, N>(front, padding, t + 3),
    )
}
