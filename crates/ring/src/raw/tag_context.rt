// SPDX-License-Identifier: ISC
//! The numbers of a tag's context.

#![tactic(auto, using(crate::proofs::Sets::laws), unfolding(crate::specs::Raw::RawTagStandsFor))]

ghost use Rattle.std.specs.Prelude.{◌≡◌, ◌↔◌, ℕ, ◌+◌, ◌-◌, ◌<◌, ◌≤◌, List, [], ◌++◌, length, IfOk};
ghost use Rattle.std.specs.Prelude.{IfSome, IsErr, IsFalse, IsNone, IsSomeAnd, IsTrue, OnOk, Some};
ghost use Rattle.ring.specs.Prelude.{AreNumbersOfTag, AreWords, IsNoTagContext, IsTag};
ghost use Rattle.ring.specs.Prelude.{RawTagStandsFor, TagHasAdded, TagStandsFor, block_len};
ghost use Rattle.ring.specs.Prelude.{completed_len, digest_named, max_input_len, named_block_len};
ghost use Rattle.ring.specs.Prelude.{raw_message_len, raw_tag_with, signing_algorithm, signing_len};
ghost use Rattle.ring.specs.Prelude.{last_blocks, padded_blocks, raised, signing_pending};
ghost use Rattle.ring.specs.Prelude.{RawTagFinishes, RawTagUpdates, signing_room, whole_blocks};
ghost use Rattle.ring.specs.declared.digest.algorithm.Algorithm.{Algorithm};

use crate::digest::algorithm::{Algorithm, digest_of_number};
use crate::hmac::context::{Context, Tag};
use crate::raw::context::RawContext;
use crate::raw::words::{block_of, joined, numbers_of_block};
use ring_core::cost::Meter;
use ring_core::error::Unspecified;

/// The numbers of a tag's context.
#[repr(C)]
#[derive(Clone, Copy)]
pub struct RawTagContext {
    /// The context of the inner digest.
    pub inner: RawContext,
    /// The words after the key's outer block, which the inner digest follows.
    pub outer: [u64; 8],
}

impl RawTagContext {
    /// The numbers of `context`.
    pub fn new(context: &Context) -> Self
        ensures stands { (k m : List ℕ) → TagStandsFor context.now k m
            → RawTagStandsFor result (signing_algorithm context.now) k m }
        ensures any { AreNumbersOfTag result context.now }
        ensures sized { AreWords (signing_algorithm context.now) result.inner.words
            × AreWords (signing_algorithm context.now) result.outer }
        ensures room { result.inner.pending ≡ signing_room context.now }
    {
        RawTagContext {
            inner: RawContext::new(&context.inner),
            outer: numbers_of_block(&context.outer),
        }
    }

    // Whether the inner numbers count the key's block, which comes before the message.
    fn counts_key_block(&self) -> bool
        ensures { IsTrue result
            ↔ (named_block_len self.now.inner.algorithm ≤ completed_len self.now.inner) }
    {
        let Some(algorithm) = digest_of_number(self.inner.algorithm) else {
            return true;
        };
        let completed_bytes = joined(self.inner.completed_low, self.inner.completed_high);
        completed_bytes >= algorithm.block_len() as u128
    }

    /// Adds `input` to the message if that completes no block, as [`RawContext::keep`] does.
    /// Numbers that count less than the key's block are unchanged.
    pub fn keep(&mut self, input: &[u8]) -> bool
        ensures stands { IsTrue result → (a : Algorithm) (k m : List ℕ)
            → RawTagStandsFor self.old a k m → RawTagStandsFor self.new a k (m ++ input.now) }
        ensures any { IsTrue result → TagHasAdded self.old self.new input.now }
        ensures words { IsTrue result → (self.new.inner.words ≡ self.old.inner.words)
            × (self.new.outer ≡ self.old.outer) }
        ensures short { IsTrue result
            ↔ ((named_block_len self.old.inner.algorithm ≤ completed_len self.old.inner)
            × (self.old.inner.num_pending + length input.now
            < named_block_len self.old.inner.algorithm)) }
        ensures unchanged { IsFalse result → self.new ≡ self.old }
    {
        self.counts_key_block() && self.inner.keep(input)
    }

    /// The digest algorithm of these numbers, or `None` if no context has them: no digest's context
    /// has the inner ones, or they count less than the key's block.
    pub fn algorithm(&self) -> Option<Algorithm>
        ensures none { IsNone result ↔ IsNoTagContext self.now }
        ensures stands { (a : Algorithm) (k m : List ℕ) → RawTagStandsFor self.now a k m
            → result ≡ Some a }
        ensures algorithm { IfSome result (λ a. digest_named self.now.inner.algorithm ≡ Some a) }
    {
        if !self.counts_key_block() {
            return None;
        }
        self.inner.algorithm()
    }

    /// Adds `input` to the message, runs each block that is complete, and counts these blocks on
    /// `meter`. Returns whether the numbers are a context's. Otherwise nothing is changed.
    pub fn update_counted(&mut self, input: &[u8], meter: &mut Meter) -> bool
        ensures plain { RawTagUpdates self.old self.new input.now result }
        ensures unchanged { IsFalse result → meter.new ≡ meter.old }
        ensures cost { IsTrue result → (a : Algorithm)
            → digest_named self.old.inner.algorithm ≡ Some a → meter.new ≡ raised meter.old
            (whole_blocks a (self.old.inner.num_pending + length input.now)) 0 }
        ensures cost_of { (a : Algorithm) (k m : List ℕ) → RawTagStandsFor self.old a k m
            → meter.new ≡ raised meter.old (whole_blocks a (length m + length input.now)
            - whole_blocks a (length m)) 0 }
    {
        self.counts_key_block() && self.inner.update_counted(input, meter)
    }

    /// Returns the tag of the message so far, and counts the last blocks on `meter`, or returns
    /// `None` if the numbers are no context's. The message can go on.
    ///
    /// Refused where one block and the message together are longer than the digest algorithm's
    /// `max_input_len` bytes. A refusal leaves `meter` as it was, and so do numbers of no context.
    pub fn finish_counted(&self, meter: &mut Meter) -> Option<Result<Tag, Unspecified>>
        ensures plain { RawTagFinishes self.now result }
        ensures unchanged { IfSome result (λ made. IsErr made) → meter.new ≡ meter.old }
        ensures cost { IfSome result (λ made. OnOk made ((a : Algorithm)
            → digest_named self.now.inner.algorithm ≡ Some a → meter.new
            ≡ raised meter.old (padded_blocks a self.now.inner.num_pending + 1) 0)) }
        ensures cost_of { (a : Algorithm) (k m : List ℕ) → RawTagStandsFor self.now a k m
            → IsSomeAnd result (λ made. OnOk made (meter.new
            ≡ raised meter.old (last_blocks a (length m) + 1) 0)) }
    {
        let Some(algorithm) = self.algorithm() else {
            return None;
        };
        let Some(finished) = self.inner.finish_counted(meter) else {
            return None;
        };
        let Ok(digest) = finished else {
            return Some(Err(Unspecified));
        };
        let outer = block_of(&algorithm, &self.outer, algorithm.block_len() as u128);
        Some(Ok(Tag::of_inner(&digest, &outer, meter)))
    }

    /// The context of these numbers, or `None` where [`RawTagContext::algorithm`] is.
    pub fn context(&self) -> Option<Context>
        ensures none { IsNone result ↔ IsNoTagContext self.now }
        ensures stands { (a : Algorithm) (k m : List ℕ) → RawTagStandsFor self.now a k m
            → IsSomeAnd result (λ c. TagStandsFor c k m × (signing_algorithm c ≡ a)) }
        ensures any { IfSome result (λ c. AreNumbersOfTag self.now c) }
        ensures algorithm { IfSome result (λ c.
            digest_named self.now.inner.algorithm ≡ Some (signing_algorithm c)) }
        ensures counted { IfSome result (λ c. signing_len c ≡ raw_message_len self.now.inner) }
        ensures pending { IfSome result (λ c. signing_pending c ≡ self.now.inner.num_pending) }
    {
        if !self.counts_key_block() {
            return None;
        }
        let Some(inner) = self.inner.context() else {
            return None;
        };
        let algorithm = inner.algorithm();
        let block_len = algorithm.block_len() as u128;
        Some(Context {
            inner,
            outer: block_of(&algorithm, &self.outer, block_len),
        })
    }
}
