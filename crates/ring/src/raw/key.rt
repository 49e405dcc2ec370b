// SPDX-License-Identifier: ISC
//! The numbers of a key.

#![tactic(auto, unfolding(crate::specs::Raw::RawKeyStandsFor))]

ghost use Rattle.std.specs.Prelude.{◌≡◌, ◌↔◌, ℕ, List, IfSome, IsNone, IsSomeAnd, Some};
ghost use Rattle.ring.specs.Prelude.{Algorithm, AreWords, IsNoKey, KeyStandsFor, RawKeyStandsFor};
ghost use Rattle.ring.specs.Prelude.{digest_named, inner_words, key_algorithm, outer_words};
ghost use Rattle.ring.specs.Prelude.{raw_chaining, raw_tag_under, tag_under};

use crate::digest::algorithm::{digest_of_number, number_of_digest};
use crate::hmac::key::Key;
use crate::raw::words::{block_of, numbers_of_block};

/// The numbers of a key: the chaining words after each of its two masked blocks.
#[repr(C)]
#[derive(Clone, Copy)]
pub struct RawKey {
    /// The number of the digest algorithm.
    pub algorithm: u32,
    /// Unused: it fills the gap before the words.
    pub reserved: u32,
    /// The words after the inner block, which the message follows.
    pub inner: [u64; 8],
    /// The words after the outer block, which the inner digest follows.
    pub outer: [u64; 8],
}

impl RawKey {
    /// The numbers of `key`.
    pub fn new(key: &Key) -> Self
        ensures stands { (k : List ℕ) → KeyStandsFor key.now k
            → RawKeyStandsFor result (key_algorithm key.now) k }
        ensures algorithm { digest_named result.algorithm ≡ Some (key_algorithm key.now) }
        ensures inner { raw_chaining (key_algorithm key.now) result.inner ≡ inner_words key.now }
        ensures outer { raw_chaining (key_algorithm key.now) result.outer ≡ outer_words key.now }
        ensures sized { AreWords (key_algorithm key.now) result.inner
            × AreWords (key_algorithm key.now) result.outer }
        ensures reserved { result.reserved ≡ 0 }
    {
        RawKey {
            algorithm: number_of_digest(&key.inner.algorithm),
            reserved: 0,
            inner: numbers_of_block(&key.inner),
            outer: numbers_of_block(&key.outer),
        }
    }

    /// The key of these numbers: `None` if they name no algorithm.
    #[tactic(auto, using(crate::proofs::Sets::laws), unfolding(crate::specs::Raw::RawKeyStandsFor))]
    pub fn key(&self) -> Option<Key>
        ensures none { IsNone result ↔ IsNoKey self.now }
        ensures stands { (a : Algorithm) (k : List ℕ) → RawKeyStandsFor self.now a k
            → IsSomeAnd result (λ key. KeyStandsFor key k × (key_algorithm key ≡ a)) }
        ensures algorithm { IfSome result (λ key.
            digest_named self.now.algorithm ≡ Some (key_algorithm key)) }
        ensures inner { IfSome result (λ key.
            inner_words key ≡ raw_chaining (key_algorithm key) self.now.inner) }
        ensures outer { IfSome result (λ key.
            outer_words key ≡ raw_chaining (key_algorithm key) self.now.outer) }
        ensures any { IfSome result (λ key. (m : List ℕ)
            → tag_under key m ≡ raw_tag_under (key_algorithm key) self.now m) }
    {
        let Some(algorithm) = digest_of_number(self.algorithm) else {
            return None;
        };
        let block_len = algorithm.block_len() as u128;
        Some(Key {
            inner: block_of(&algorithm, &self.inner, block_len),
            outer: block_of(&algorithm, &self.outer, block_len),
        })
    }
}
