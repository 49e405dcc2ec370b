// SPDX-License-Identifier: ISC
//! The traits of words of 32 and of 64 bits (FIPS 180-4, 3.2 and 4.1).
ghost use Rattle.std.specs.Prelude.{◌≡◌, ℕ, ◌*◌, ◌/◌, ◌^◌, ◌<◌, ◌≤◌, List, length};
ghost use Rattle.std.specs.Prelude.{slice_index, bit_and, bit_or, bit_xor};
ghost use Rattle.ring_core.specs.Prelude.{◌⊕◌, AreNumbersOf, Family, add_words, big_endian};
ghost use Rattle.ring_core.specs.Prelude.{complement, rotr, shr, word_at};

/// A word of 32 or 64 bits, with the operations of FIPS 180-4, 2.2.2 and 3.2.
pub trait Word: Copy {
    /// The word whose bits are 0.
    const ZERO: Self;

    /// The bytes of a word: an array of four or of eight.
    type InputBytes: Copy;

    // the number of bits
    ghost bits: { ℕ };

    // the number that a word stands for
    ghost value: { Self → ℕ };

    // the bytes of an input
    ghost bytes: { Self.InputBytes → List ℕ };

    ghost ZERO: { Self };

    /// The word whose bytes are `input`, high byte first (3.1).
    fn from_be_bytes(input: Self::InputBytes) -> Self
        ensures { value result ≡ big_endian (bytes input) };

    /// The sum of the word and `o`, modulo 2 to the number of bits (3.2, item 2).
    fn plus(self, o: Self) -> Self
        ensures { value result ≡ add_words bits (value self) (value o) };

    /// The bits that are set in the word and in `o` (2.2.2).
    fn bit_and(self, o: Self) -> Self
        ensures { value result ≡ bit_and (value self) (value o) };

    /// The bits that are set in the word, in `o` or in both (2.2.2).
    fn bit_or(self, o: Self) -> Self
        ensures { value result ≡ bit_or (value self) (value o) };

    /// The bits that are set in one of the word and `o`, not in both (2.2.2).
    fn bit_xor(self, o: Self) -> Self
        ensures { value result ≡ value self ⊕ value o };

    /// The bits that are not set (2.2.2).
    fn bit_not(self) -> Self
        ensures { value result ≡ complement bits (value self) };

    /// The word rotated right by `count` bits, at least 1 and fewer than it has (3.2, item 4).
    fn rotr(self, count: u32) -> Self
        requires positive { 1 ≤ count }
        requires below { count < bits }
        ensures { value result ≡ rotr bits count (value self) };

    // each word is below 2 ^ bits
    ghost fits: { (x : Self) → value x < 2 ^ bits };

    ghost zero_is: { value ZERO ≡ 0 };
}

/// A word of SHA-2, with the numbers of its algorithms (FIPS 180-4, 4.1.2, 4.1.3, 4.2.2 and 4.2.3).
pub trait Sha2: Word {
    /// The counts of the rotations in Σ0.
    const BIG_SIGMA_0: (u32, u32, u32);

    /// The counts of the rotations in Σ1.
    const BIG_SIGMA_1: (u32, u32, u32);

    /// The counts of the two rotations and of the shift in σ0.
    const SMALL_SIGMA_0: (u32, u32, usize);

    /// The counts of the two rotations and of the shift in σ1.
    const SMALL_SIGMA_1: (u32, u32, usize);

    /// The number of rounds for a block.
    const ROUNDS: usize;

    // the standard's numbers
    ghost family: { Family };

    ghost BIG_SIGMA_0: { ℕ × ℕ × ℕ };

    ghost BIG_SIGMA_1: { ℕ × ℕ × ℕ };

    ghost SMALL_SIGMA_0: { ℕ × ℕ × ℕ };

    ghost SMALL_SIGMA_1: { ℕ × ℕ × ℕ };

    ghost ROUNDS: { ℕ };

    /// The word shifted right by `count` bits, at least 1 and fewer than it has (3.2, item 3).
    fn shift_right(self, count: usize) -> Self
        requires positive { 1 ≤ count }
        requires below { count < Self.bits }
        ensures { Self.value result ≡ shr count (Self.value self) };

    /// The constant K of round `t`, which must be below `ROUNDS` (4.2.2, 4.2.3).
    fn k(t: usize) -> Self
        requires { t < ROUNDS }
        ensures { Self.value result ≡ slice_index family.constants t };

    /// Word `j` of a `block` of 16 words, each high byte first (5.2). `j` must be below 16.
    fn read_word(block: &[u8], j: usize) -> Self
        requires place { j < 16 }
        requires whole { length block.now ≡ 16 * (Self.bits / 8) }
        ensures { Self.value result ≡ word_at Self.bits block.now j };

    // each number is that of one of the two families
    ghost numbers: { AreNumbersOf family Self.bits ROUNDS
        BIG_SIGMA_0 BIG_SIGMA_1 SMALL_SIGMA_0 SMALL_SIGMA_1 };
}
