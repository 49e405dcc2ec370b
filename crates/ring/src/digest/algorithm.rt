// SPDX-License-Identifier: ISC
//! The five algorithms, their lengths and their numbers.

ghost use Rattle.std.specs.Prelude.{◌≡◌, ◌↔◌, ◌≤◌, ◌-◌, IsTrue, Some, length, replicate};
ghost use Rattle.ring_core.specs.Sha1 as sha1;
ghost use Rattle.ring_core.specs.Prelude.{block_step, family_256, family_512};
ghost use Rattle.ring.specs.Prelude.{AreSquareRoots, algorithms, block_function, block_len};
ghost use Rattle.ring.specs.Prelude.{chaining_len, chaining_words, digest_named, digest_of_name};
ghost use Rattle.ring.specs.Prelude.{IsRowOf, initial_words, is_state_of};
ghost use Rattle.ring.specs.Prelude.{length_len, max_input_len, name_of, output_len, row};
ghost use Rattle.ring.specs.Prelude.{spare_words, word_count, words};
ghost use Rattle.ring.specs.Table.{sha1_row, sha256_row, sha384_row, sha512_256_row, sha512_row};

use crate::digest::dynstate::DynState;
use ring_core::digest::sha1::CHAINING_LEN;
use std::fmt;
use std::num::Wrapping;

/// A digest algorithm: one of the five constants of this module.
#[derive(Clone, Copy, PartialEq, Eq)]
pub struct Algorithm {
    pub(crate) id: AlgorithmId,
}

#[derive(Clone, Copy, PartialEq, Eq)]
pub(crate) enum AlgorithmId {
    Sha1,
    Sha256,
    Sha384,
    Sha512,
    Sha512_256,
}

/// SHA-1 (FIPS 180-4, section 6.1). Collisions are known: use it only for old data.
pub const SHA1_FOR_LEGACY_USE_ONLY: Algorithm = Algorithm {
    id: AlgorithmId::Sha1,
};

/// SHA-256 (FIPS 180-4, section 6.2).
pub const SHA256: Algorithm = Algorithm {
    id: AlgorithmId::Sha256,
};

/// SHA-384 (FIPS 180-4, section 6.5).
pub const SHA384: Algorithm = Algorithm {
    id: AlgorithmId::Sha384,
};

/// SHA-512 (FIPS 180-4, section 6.4).
pub const SHA512: Algorithm = Algorithm {
    id: AlgorithmId::Sha512,
};

/// SHA-512/256 (FIPS 180-4, section 6.7). It has initial words of its own (section 5.3.6.2).
pub const SHA512_256: Algorithm = Algorithm {
    id: AlgorithmId::Sha512_256,
};

/// All algorithms, in the order of their numbers.
pub const ALGORITHMS: [Algorithm; 5] = [
    SHA1_FOR_LEGACY_USE_ONLY,
    SHA256,
    SHA384,
    SHA512,
    SHA512_256,
];

/// The length in bytes of the longest block, that of SHA-384, SHA-512 and SHA-512/256.
pub const MAX_BLOCK_LEN: usize = 128;

/// The length in bytes of the longest digest, that of SHA-512.
pub const MAX_OUTPUT_LEN: usize = 64;

/// The length in bytes of the longest chaining words, those of SHA-384, SHA-512 and SHA-512/256.
pub const MAX_CHAINING_LEN: usize = 64;

/// The length in bytes of a SHA-1 digest.
pub const SHA1_OUTPUT_LEN: usize = 20;

/// The length in bytes of a SHA-256 digest.
pub const SHA256_OUTPUT_LEN: usize = 32;

/// The length in bytes of a SHA-384 digest.
pub const SHA384_OUTPUT_LEN: usize = 48;

/// The length in bytes of a SHA-512 digest.
pub const SHA512_OUTPUT_LEN: usize = 64;

/// The length in bytes of a SHA-512/256 digest.
pub const SHA512_256_OUTPUT_LEN: usize = 32;

// Words as plain numbers.
macro_rules! words {
    ($($word:expr),*) => {
        [$(Wrapping($word)),*]
    };
}

pub(crate) use words;

// An algorithm's name and number, its lengths in bytes, and the state before the first block.
#[derive(Clone, Copy)]
pub(crate) struct Row {
    name: &'static str,
    number: u32,
    word_len: usize,
    output_len: usize,
    chaining_len: usize,
    state: DynState,
}

// The rows, with the words before the first block (FIPS 180-4, sections 5.3.1, 5.3.3, 5.3.4, 5.3.5
// and 5.3.6.2). SHA-1 has five words, and the other three are 0.

const SHA1_ROW: Row = Row {
    name: "SHA1",
    number: 1,
    word_len: 4,
    output_len: SHA1_OUTPUT_LEN,
    chaining_len: CHAINING_LEN,
    state: DynState::As32(words! {
        0x67452301, 0xefcdab89, 0x98badcfe, 0x10325476,
        0xc3d2e1f0, 0, 0, 0
    }),
};

const SHA256_ROW: Row = Row {
    name: "SHA256",
    number: 2,
    word_len: 4,
    output_len: SHA256_OUTPUT_LEN,
    chaining_len: 32,
    state: DynState::As32(words! {
        0x6a09e667, 0xbb67ae85, 0x3c6ef372, 0xa54ff53a,
        0x510e527f, 0x9b05688c, 0x1f83d9ab, 0x5be0cd19
    }),
};

const SHA384_ROW: Row = Row {
    name: "SHA384",
    number: 3,
    word_len: 8,
    output_len: SHA384_OUTPUT_LEN,
    chaining_len: 64,
    state: DynState::As64(words! {
        0xcbbb9d5dc1059ed8, 0x629a292a367cd507, 0x9159015a3070dd17, 0x152fecd8f70e5939,
        0x67332667ffc00b31, 0x8eb44a8768581511, 0xdb0c2e0d64f98fa7, 0x47b5481dbefa4fa4
    }),
};

const SHA512_ROW: Row = Row {
    name: "SHA512",
    number: 4,
    word_len: 8,
    output_len: SHA512_OUTPUT_LEN,
    chaining_len: 64,
    state: DynState::As64(words! {
        0x6a09e667f3bcc908, 0xbb67ae8584caa73b, 0x3c6ef372fe94f82b, 0xa54ff53a5f1d36f1,
        0x510e527fade682d1, 0x9b05688c2b3e6c1f, 0x1f83d9abfb41bd6b, 0x5be0cd19137e2179
    }),
};

const SHA512_256_ROW: Row = Row {
    name: "SHA512_256",
    number: 5,
    word_len: 8,
    output_len: SHA512_256_OUTPUT_LEN,
    chaining_len: 64,
    state: DynState::As64(words! {
        0x22312194fc2bf72c, 0x9f555fa3c84c64c2, 0x2393b86b6f53b151, 0x963877195940eabd,
        0x96283ee2a88effe3, 0xbe5e1e2553863992, 0x2b0199fc2c85b8aa, 0x0eb72ddc81c52ca2
    }),
};

impl Algorithm {
    // Its row. Inlined, so that a call that asks for a length copies no state.
    #[inline(always)]
    fn row(&self) -> Row
        ensures { IsRowOf result self.now }
    {
        match self.id {
            AlgorithmId::Sha1 => SHA1_ROW,
            AlgorithmId::Sha256 => SHA256_ROW,
            AlgorithmId::Sha384 => SHA384_ROW,
            AlgorithmId::Sha512 => SHA512_ROW,
            AlgorithmId::Sha512_256 => SHA512_256_ROW,
        }
    }

    /// The length of a block in bytes: 64 for SHA-1 and SHA-256, 128 for the others.
    pub fn block_len(&self) -> usize
        ensures { result ≡ block_len self.now }
    {
        16 * self.row().word_len
    }

    /// The length in bytes of the chaining words: 20 for SHA-1, 32 for SHA-256, 64 for the others.
    pub fn chaining_len(&self) -> usize
        ensures { result ≡ chaining_len self.now }
    {
        self.row().chaining_len
    }

    /// The length of a digest in bytes.
    pub fn output_len(&self) -> usize
        ensures { result ≡ output_len self.now }
    {
        self.row().output_len
    }

    /// The length of the longest message in bytes: `2^61 - 1` for SHA-1 and SHA-256, `2^125 - 1`
    /// for the others. A message of more bits does not fit the length field of the padding, of 64
    /// or of 128 bits (FIPS 180-4, sections 1 and 5.1).
    pub fn max_input_len(&self) -> u128
        ensures { result ≡ max_input_len self.now }
    {
        if self.row().word_len == 4 {
            (1 << 61) - 1
        } else {
            (1 << 125) - 1
        }
    }

    // The length of the padding's length field in bytes.
    pub(crate) fn length_len(&self) -> usize
        ensures { result ≡ length_len self.now }
    {
        2 * self.row().word_len
    }

    // Whether the block function is that of SHA-1.
    pub(crate) fn is_sha1(&self) -> bool
        ensures { IsTrue result ↔ (self.now ≡ SHA1_FOR_LEGACY_USE_ONLY) }
    {
        *self == SHA1_FOR_LEGACY_USE_ONLY
    }

    // The state before the first block.
    pub(crate) fn initial_state(&self) -> DynState
        ensures words { chaining_words self.now result ≡ initial_words self.now }
        ensures spare { spare_words self.now result ≡ replicate (8 - word_count self.now) 0 }
        ensures sized { IsTrue (is_state_of self.now result) }
        ensures count { length (words result) ≡ 8 }
    {
        self.row().state
    }
}

/// States that each constant is its row of the standard's table (FIPS 180-4, section 1, figure 1),
/// with that row's block function and initial words, and that each length constant is the length in
/// a row. The call does nothing.
pub fn constants_are_their_rows()
    ensures sha1 { row SHA1_FOR_LEGACY_USE_ONLY ≡ sha1_row }
    ensures sha256 { row SHA256 ≡ sha256_row }
    ensures sha384 { row SHA384 ≡ sha384_row }
    ensures sha512 { row SHA512 ≡ sha512_row }
    ensures sha512_256 { row SHA512_256 ≡ sha512_256_row }
    ensures output_lens { (SHA1_OUTPUT_LEN ≡ sha1_row.output_len)
        × (SHA256_OUTPUT_LEN ≡ sha256_row.output_len)
        × (SHA384_OUTPUT_LEN ≡ sha384_row.output_len)
        × (SHA512_OUTPUT_LEN ≡ sha512_row.output_len)
        × (SHA512_256_OUTPUT_LEN ≡ sha512_256_row.output_len) }
    ensures sha1_chaining_len { CHAINING_LEN ≡ sha1_row.chaining_len }
    ensures greatest_lens { (a : Algorithm) → (block_len a ≤ MAX_BLOCK_LEN)
        × (output_len a ≤ MAX_OUTPUT_LEN) × (chaining_len a ≤ MAX_CHAINING_LEN) }
    ensures greatest_are_sha512s { (block_len SHA512 ≡ MAX_BLOCK_LEN)
        × (output_len SHA512 ≡ MAX_OUTPUT_LEN) × (chaining_len SHA512 ≡ MAX_CHAINING_LEN) }
    ensures sha1_blocks { block_function SHA1_FOR_LEGACY_USE_ONLY ≡ sha1.block_step }
    ensures short_blocks { block_function SHA256 ≡ block_step family_256 }
    ensures long_blocks { (block_function SHA384 ≡ block_step family_512)
        × (block_function SHA512 ≡ block_step family_512)
        × (block_function SHA512_256 ≡ block_step family_512) }
    ensures all { ALGORITHMS ≡ algorithms }
    ensures square_roots { AreSquareRoots 32 0 (initial_words SHA256)
        × AreSquareRoots 64 8 (initial_words SHA384)
        × AreSquareRoots 64 0 (initial_words SHA512) }
{}

/// The digest algorithm of `number`: 1 to 5, in the order of the constants, and else `None`.
pub fn digest_of_number(number: u32) -> Option<Algorithm>
    ensures { result ≡ digest_named number }
{
    match number {
        1 => Some(SHA1_FOR_LEGACY_USE_ONLY),
        2 => Some(SHA256),
        3 => Some(SHA384),
        4 => Some(SHA512),
        5 => Some(SHA512_256),
        _ => None,
    }
}

/// The digest algorithm of `name`, as Debug writes it: `SHA1`, `SHA256`, `SHA384`, `SHA512` or
/// `SHA512_256` (FIPS 180-4, section 1), and else `None`.
pub fn digest_of_name(name: &[u8]) -> Option<Algorithm>
    ensures { result ≡ digest_of_name name.now }
{
    if name == SHA1_ROW.name.as_bytes() {
        Some(SHA1_FOR_LEGACY_USE_ONLY)
    } else if name == SHA256_ROW.name.as_bytes() {
        Some(SHA256)
    } else if name == SHA384_ROW.name.as_bytes() {
        Some(SHA384)
    } else if name == SHA512_ROW.name.as_bytes() {
        Some(SHA512)
    } else if name == SHA512_256_ROW.name.as_bytes() {
        Some(SHA512_256)
    } else {
        None
    }
}

/// The number of `algorithm`.
pub fn number_of_digest(algorithm: &Algorithm) -> u32
    ensures { digest_named result ≡ Some algorithm.now }
{
    algorithm.row().number
}

/// Writes the name: `SHA1`, `SHA256`, `SHA384`, `SHA512` or `SHA512_256`.
impl fmt::Debug for Algorithm {
    ghost debug_output = { λ a. Some (name_of a) };

    fn fmt<W: fmt::Write>(&self, f: &mut fmt::Formatter<W>) -> fmt::Result {
        f.write_str(self.row().name)
    }
}
