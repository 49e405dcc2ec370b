// SPDX-License-Identifier: ISC
//! The numbers of a digest's context.

#![tactic(auto, using(crate::proofs::Sets::laws), unfolding(crate::specs::Raw::RawStandsFor))]

ghost use Rattle.std.specs.Prelude.{◌≡◌, ◌↔◌, ℕ, ◌+◌, ◌-◌, ◌<◌, ◌≤◌, List, [], ◌++◌, length, IfOk};
ghost use Rattle.std.specs.Prelude.{IfSome, IsErr, IsFalse, IsNone, IsSomeAnd, IsTrue, OnOk, Some};
ghost use Rattle.ring.specs.Prelude.{AreNumbersOf, AreWords, HasAdded, HasNumbers, IsDigest};
ghost use Rattle.ring.specs.Prelude.{IsNoContext, IsRawState, RawStandsFor, StandsFor};
ghost use Rattle.ring.specs.Prelude.{block_algorithm, block_len, block_words, bytes_of};
ghost use Rattle.ring.specs.Prelude.{completed_len, context_algorithm, counted_bytes, cut_off};
ghost use Rattle.ring.specs.Prelude.{digest_algorithm, digest_named, max_input_len, message_len};
ghost use Rattle.ring.specs.Prelude.{last_blocks, named_block_len, padded_blocks, pending_len};
ghost use Rattle.ring.specs.Prelude.{raised, raw_chaining, raw_digest_with, raw_message_len};
ghost use Rattle.ring.specs.Prelude.{RawFinishes, RawUpdates, room_of, whole_blocks};
ghost use Rattle.ring.specs.declared.digest.algorithm.Algorithm.{Algorithm};

use crate::digest::algorithm::{Algorithm, MAX_BLOCK_LEN, digest_of_number, number_of_digest};
use crate::digest::block_context::{BlockContext, Digest};
use crate::digest::context::Context;
use crate::digest::dynstate::DynState;
use crate::raw::words::{
    block_of, halves, joined, long_block_of, numbers_of_block, short_block_of,
};
use ring_core::cost::Meter;
use ring_core::error::Unspecified;

/// The numbers of a digest's context.
#[repr(C)]
#[derive(Clone, Copy)]
pub struct RawContext {
    /// The algorithm's number.
    pub algorithm: u32,
    /// The number of pending bytes.
    pub num_pending: u32,
    /// The lower 64 bits of the number of bytes in the blocks that were run.
    pub completed_low: u64,
    /// The upper 64 bits of that number, which stops at `u128::MAX`.
    pub completed_high: u64,
    /// The chaining words.
    pub words: [u64; 8],
    /// The pending bytes, of a block that is not complete, and any bytes after them.
    pub pending: [u8; MAX_BLOCK_LEN],
}

impl RawContext {
    /// The numbers of `context`.
    pub fn new(context: &Context) -> Self
        ensures stands { (m : List ℕ) → StandsFor context.now m
            → RawStandsFor result (context_algorithm context.now) m }
        ensures any { AreNumbersOf result context.now }
        ensures sized { AreWords (context_algorithm context.now) result.words }
        ensures room { result.pending ≡ room_of context.now }
    {
        let (completed_low, completed_high) = halves(context.block.completed_bytes);
        RawContext {
            algorithm: number_of_digest(&context.block.algorithm),
            num_pending: context.num_pending as u32,
            completed_low,
            completed_high,
            words: numbers_of_block(&context.block),
            pending: context.pending,
        }
    }

    /// Adds `input` to the message if that completes no block, and returns whether it did. This is
    /// faster than making a context and its numbers again. Otherwise nothing is changed.
    pub fn keep(&mut self, input: &[u8]) -> bool
        ensures stands { IsTrue result → (a : Algorithm) (m : List ℕ)
            → RawStandsFor self.old a m → RawStandsFor self.new a (m ++ input.now) }
        ensures any { IsTrue result → HasAdded self.old self.new input.now }
        ensures words { IsTrue result → self.new.words ≡ self.old.words }
        ensures short { IsTrue result
            ↔ (self.old.num_pending + length input.now < named_block_len self.old.algorithm) }
        ensures unchanged { IsFalse result → self.new ≡ self.old }
    {
        let Some(algorithm) = digest_of_number(self.algorithm) else {
            return false;
        };
        let block_len = algorithm.block_len();
        let num_pending = self.num_pending as usize;
        if num_pending >= block_len || input.len() >= block_len - num_pending {
            return false;
        }
        let end = num_pending + input.len();
        self.pending[num_pending..end].copy_from_slice(input);
        self.num_pending = end as u32;
        true
    }

    /// The digest algorithm of these numbers, or `None` if no context has them: they name no
    /// algorithm, or count at least a block of pending bytes.
    pub fn algorithm(&self) -> Option<Algorithm>
        ensures none { IsNone result ↔ IsNoContext self.now }
        ensures stands { (a : Algorithm) (m : List ℕ) → RawStandsFor self.now a m
            → result ≡ Some a }
        ensures algorithm { IfSome result (λ a. digest_named self.now.algorithm ≡ Some a) }
        ensures pending { IfSome result (λ a. self.now.num_pending < block_len a) }
    {
        let Some(algorithm) = digest_of_number(self.algorithm) else {
            return None;
        };
        if self.num_pending as usize >= algorithm.block_len() {
            return None;
        }
        Some(algorithm)
    }

    // The state after the blocks that were run: `None` if the numbers are no context's.
    fn block(&self) -> Option<BlockContext>
        ensures none { IsNone result ↔ IsNoContext self.now }
        ensures numbers { IfSome result (λ block. HasNumbers
            (block_algorithm block) self.now.words (completed_len self.now) block) }
        ensures algorithm { IfSome result (λ block.
            digest_named self.now.algorithm ≡ Some (block_algorithm block)) }
        ensures pending { IfSome result (λ block.
            self.now.num_pending < block_len (block_algorithm block)) }
    {
        let Some(algorithm) = self.algorithm() else {
            return None;
        };
        let completed_bytes = joined(self.completed_low, self.completed_high);
        Some(block_of(&algorithm, &self.words, completed_bytes))
    }

    /// Adds `input` to the message, runs each block that is complete, and counts these blocks on
    /// `meter`. Returns whether the numbers are a context's. Otherwise nothing is changed.
    #[inline(always)]
    pub fn update_counted(&mut self, input: &[u8], meter: &mut Meter) -> bool
        ensures plain { RawUpdates self.old self.new input.now result }
        ensures unchanged { IsFalse result → meter.new ≡ meter.old }
        ensures cost { IsTrue result → (a : Algorithm) → digest_named self.old.algorithm ≡ Some a
            → meter.new ≡ raised meter.old
            (whole_blocks a (self.old.num_pending + length input.now)) 0 }
        ensures cost_of { (a : Algorithm) (m : List ℕ) → RawStandsFor self.old a m
            → meter.new ≡ raised meter.old (whole_blocks a (length m + length input.now)
            - whole_blocks a (length m)) 0 }
    {
        self.keep(input) || self.run(input, meter)
    }

    // Adds `input` to the message where that completes a block. It stands apart from the call that
    // keeps a short input, which is faster so.
    #[inline(never)]
    fn run(&mut self, input: &[u8], meter: &mut Meter) -> bool
        requires { named_block_len self.old.algorithm ≤ self.old.num_pending + length input.now }
        ensures plain { RawUpdates self.old self.new input.now result }
        ensures unchanged { IsFalse result → meter.new ≡ meter.old }
        ensures cost { IsTrue result → (a : Algorithm) → digest_named self.old.algorithm ≡ Some a
            → meter.new ≡ raised meter.old
            (whole_blocks a (self.old.num_pending + length input.now)) 0 }
    {
        let Some(algorithm) = self.algorithm() else {
            return false;
        };
        let completed_bytes = joined(self.completed_low, self.completed_high);
        // Each word size has its own branch to the end, as in `BlockContext::output_after`.
        match algorithm.initial_state() {
            DynState::As64(_) => {
                let block = long_block_of(&algorithm, &self.words, completed_bytes);
                self.run_from(block, input, meter);
            }
            DynState::As32(_) => {
                let block = short_block_of(&algorithm, &self.words, completed_bytes);
                self.run_from(block, input, meter);
            }
        }
        true
    }

    // The same where `block` is the state after the blocks that were run.
    #[inline(always)]
    fn run_from(&mut self, mut block: BlockContext, input: &[u8], meter: &mut Meter)
        requires numbers { HasNumbers
            (block_algorithm block) self.old.words (completed_len self.old) block }
        requires algorithm { digest_named self.old.algorithm ≡ Some (block_algorithm block) }
        requires pending { self.old.num_pending < block_len (block_algorithm block) }
        requires enough { block_len (block_algorithm block)
            ≤ self.old.num_pending + length input.now }
        ensures stands { (a : Algorithm) (m : List ℕ) → RawStandsFor self.old a m
            → RawStandsFor self.new a (m ++ input.now) }
        ensures any { HasAdded self.old self.new input.now }
        ensures cost { (a : Algorithm) → digest_named self.old.algorithm ≡ Some a
            → meter.new ≡ raised meter.old
            (whole_blocks a (self.old.num_pending + length input.now)) 0 }
    {
        let begun = self.num_pending as usize;
        let left = block.move_on(&mut self.pending, begun, input, meter);
        let (completed_low, completed_high) = halves(block.completed_bytes);
        self.num_pending = left as u32;
        self.completed_low = completed_low;
        self.completed_high = completed_high;
        self.words = numbers_of_block(&block);
    }

    /// Returns the digest of the message so far, and counts the last blocks on `meter`, or returns
    /// `None` if the numbers are no context's. The message can go on.
    ///
    /// Refused where the message is longer than the algorithm's `max_input_len` bytes. A refusal
    /// leaves `meter` as it was, and so do numbers of no context.
    #[inline(always)]
    pub fn finish_counted(&self, meter: &mut Meter) -> Option<Result<Digest, Unspecified>>
        ensures plain { RawFinishes self.now result }
        ensures unchanged { IfSome result (λ made. IsErr made) → meter.new ≡ meter.old }
        ensures cost { IfSome result (λ made. OnOk made ((a : Algorithm)
            → digest_named self.now.algorithm ≡ Some a
            → meter.new ≡ raised meter.old (padded_blocks a self.now.num_pending) 0)) }
        ensures cost_of { (a : Algorithm) (m : List ℕ) → RawStandsFor self.now a m
            → IsSomeAnd result (λ made. OnOk made (meter.new
            ≡ raised meter.old (last_blocks a (length m)) 0)) }
    {
        let Some(block) = self.block() else {
            return None;
        };
        Some(block.try_finish(&self.pending[..self.num_pending as usize], meter))
    }

    /// The context of these numbers, or `None` where [`RawContext::algorithm`] is.
    pub fn context(&self) -> Option<Context>
        ensures none { IsNone result ↔ IsNoContext self.now }
        ensures stands { (a : Algorithm) (m : List ℕ) → RawStandsFor self.now a m
            → IsSomeAnd result (λ c. StandsFor c m × (context_algorithm c ≡ a)) }
        ensures any { IfSome result (λ c. AreNumbersOf self.now c) }
        ensures algorithm { IfSome result (λ c.
            digest_named self.now.algorithm ≡ Some (context_algorithm c)) }
        ensures counted { IfSome result (λ c. message_len c ≡ raw_message_len self.now) }
        ensures pending { IfSome result (λ c. pending_len c ≡ self.now.num_pending) }
    {
        let Some(block) = self.block() else {
            return None;
        };
        Some(Context {
            block,
            pending: self.pending,
            num_pending: self.num_pending as usize,
        })
    }
}
