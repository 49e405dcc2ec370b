// SPDX-License-Identifier: ISC
//! Chaining words, and the block function over them.

ghost use Rattle.std.specs.Prelude.{◌≡◌, ◌++◌, replicate};
ghost use Rattle.ring_core.specs.Prelude.{blocks_from, family_256, words_32, words_64};
ghost use Rattle.ring.specs.Prelude.{word_bytes};

use ring::digest::dynstate::DynState;
use ring::digest::sha2::{State32, State64, block_data_order_32};
use ring::polyfill::slice::AsChunks;

/// The bytes of eight words of 32 bits, each high byte first, and then zeros up to 64 bytes.
pub fn bytes_of_short(words: State32) -> [u8; 64]
    ensures { result ≡ word_bytes 4 (words_32 words) ++ replicate 32 0 }
{
    DynState::new32(words).format_output().0
}

/// The bytes of eight words of 64 bits, each high byte first.
pub fn bytes_of_long(words: State64) -> [u8; 64]
    ensures { result ≡ word_bytes 8 (words_64 words) }
{
    DynState::new64(words).format_output().0
}

/// The chaining words of SHA-256 after one more block.
pub fn words_after_block(words: &State32, block: &[u8; 64]) -> State32
    ensures { words_32 result ≡ blocks_from family_256 (words_32 words.now) block.now 1 }
{
    let mut words = *words;
    block_data_order_32(&mut words, AsChunks::from_ref(block));
    words
}
