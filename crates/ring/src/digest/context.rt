// SPDX-License-Identifier: ISC
//! The digest of a message that arrives in pieces, and that of one which is there at once.

ghost use Rattle.std.specs.Prelude.{◌≡◌, ◌↔◌, ℕ, ◌+◌, ◌-◌, ◌%◌, ◌<◌, ◌≤◌, List, [], ◌++◌, length};
ghost use Rattle.std.specs.Prelude.{IfOk, IsErr, IsTrue, OnOk, OnErr, replicate};
ghost use Rattle.ring_core.specs.Cost.{raised};
ghost use Rattle.ring.specs.Algorithm.{block_len, max_input_len};
ghost use Rattle.ring.specs.Cost.{last_blocks, padded_blocks, whole_blocks};
ghost use Rattle.ring.specs.Digest.{IsDigest, bytes_of, digest_after, digest_algorithm, digest_of};
ghost use Rattle.ring.specs.Lanes.{digest_bytes};
ghost use Rattle.ring.specs.State.{is_state_of, words};

use crate::digest::algorithm::{Algorithm, MAX_BLOCK_LEN};
use crate::digest::block_context::{BlockContext, Digest};
use crate::digest::dynstate::DynState;
use crate::limits::message::is_message_within;
use ring_core::cost::Meter;
use ring_core::error::Unspecified;

/// The digest of a message that arrives in pieces. A context stands for an algorithm and for the
/// pieces so far, joined.
#[derive(Drop)]
pub struct Context {
    pub(crate) block: BlockContext,
    pub(crate) pending: [u8; MAX_BLOCK_LEN],
    pub(crate) num_pending: usize,
    ghost partial: { num_pending < block_len block.algorithm },
}

impl Context {
    ghost use Rattle.ring.specs.Context.{HasTaken, StandsFor, block_algorithm};
    ghost use Rattle.ring.specs.Context.{context_algorithm, counted_bytes, cut_off};
    ghost use Rattle.ring.specs.Context.{block_words, digest_with};
    ghost use Rattle.ring.specs.Context.{message_len, pending_bytes, pending_len, room_of};
    ghost use Rattle.ring.specs.Gives.{FinishesDigest};
    ghost use Rattle.ring.specs.Updates.{IsUpdated, update_blocks};

    /// Starts the digest of a message under `algorithm`, with the initial words of FIPS 180-4,
    /// section 5.3. The message is empty so far.
    pub fn new(algorithm: &Algorithm) -> Self
        ensures stands { StandsFor result [] }
        ensures algorithm { context_algorithm result ≡ algorithm.now }
        ensures counted { message_len result ≡ 0 }
        ensures pending { pending_len result ≡ 0 }
        ensures clear { room_of result ≡ replicate MAX_BLOCK_LEN 0 }
    {
        Context::resume(BlockContext::new(algorithm))
    }

    // A context after the whole blocks of `block`.
    #[tactic(auto, unfolding(crate::specs::Context::StandsFor))]
    pub(crate) fn resume(block: BlockContext) -> Self
        ensures stands { (p : List ℕ) → HasTaken block p → StandsFor result p }
        ensures any { (y : List ℕ) (n : ℕ) → digest_with result y n
            ≡ digest_after (block_algorithm block) (block_words block) y n }
        ensures algorithm { context_algorithm result ≡ block_algorithm block }
        ensures counted { message_len result ≡ counted_bytes block }
        ensures pending { pending_len result ≡ 0 }
        ensures clear { room_of result ≡ replicate MAX_BLOCK_LEN 0 }
    {
        Context {
            block,
            pending: [0; MAX_BLOCK_LEN],
            num_pending: 0,
        }
    }

    /// A copy, which goes on separately.
    pub fn clone(&self) -> Self
        ensures { result ≡ self.now }
    {
        Context {
            block: self.block.clone(),
            pending: self.pending,
            num_pending: self.num_pending,
        }
    }

    /// The algorithm of the digest.
    pub fn algorithm(&self) -> Algorithm
        ensures { result ≡ context_algorithm self.now }
    {
        self.block.algorithm
    }

    /// Adds `input` to the message as [`Context::update`] does, and counts on `meter` the blocks
    /// that it completes.
    #[tactic(auto, using(crate::proofs::lemmas::digest::Updating::update_rules))]
    pub fn update_counted(&mut self, input: &[u8], meter: &mut Meter)
        ensures plain { IsUpdated self.old self.new input.now }
        ensures cost { meter.new ≡ raised meter.old (whole_blocks
            (context_algorithm self.old) (pending_len self.old + length input.now)) 0 }
        ensures cost_of { (m : List ℕ) → StandsFor self.old m → meter.new ≡ raised meter.old
            (whole_blocks (context_algorithm self.old) (length m + length input.now)
            - whole_blocks (context_algorithm self.old) (length m)) 0 }
    {
        self.add(input, meter)
    }

    // Adds `input` to the message, and runs each block that is complete.
    #[inline(always)]
    pub(crate) fn add(&mut self, input: &[u8], meter: &mut Meter)
        ensures updated { IsUpdated self.old self.new input.now }
        ensures cost { meter.new
            ≡ raised meter.old (update_blocks self.old (length input.now)) 0 }
    {
        if input.len() < self.room() {
            self.keep(input);
            return;
        }
        let begun = self.num_pending;
        let left = self.block.move_on(&mut self.pending, begun, input, meter);
        self.num_pending = left;
    }

    // How many bytes the pending block has room for.
    fn room(&self) -> usize
        ensures { result ≡ block_len (context_algorithm self.now) - pending_len self.now }
    {
        self.algorithm().block_len() - self.num_pending
    }

    // Adds bytes that do not complete the pending block.
    fn keep(&mut self, bytes: &[u8])
        requires { pending_len self.old + length bytes.now
            < block_len (context_algorithm self.old) }
        ensures block { self.new.block ≡ self.old.block }
        ensures count { pending_len self.new ≡ pending_len self.old + length bytes.now }
        ensures pending { pending_bytes self.new ≡ pending_bytes self.old ++ bytes.now }
    {
        let end = self.num_pending + bytes.len();
        self.pending[self.num_pending..end].copy_from_slice(bytes);
        self.num_pending = end;
    }

    /// Adds `input` to the message, and runs each block that is complete (FIPS 180-4, section 6).
    ///
    /// This is never refused: where the message is too long, [`Context::finish`] is.
    pub fn update(&mut self, input: &[u8])
        ensures { IsUpdated self.old self.new input.now }
    {
        self.update_counted(input, &mut Meter::new());
    }

    /// Returns the digest as [`Context::finish`] does, and counts the last blocks on `meter`: those
    /// of the pending bytes and the padding. A refusal leaves `meter` as it was.
    #[tactic(auto, unfolding(crate::specs::Context::StandsFor))]
    pub fn finish_counted(self, meter: &mut Meter) -> Result<Digest, Unspecified>
        ensures plain { FinishesDigest self result }
        ensures unchanged { OnErr result (meter.new ≡ meter.old) }
        ensures cost { OnOk result (meter.new
            ≡ raised meter.old (padded_blocks (context_algorithm self) (pending_len self)) 0) }
        ensures cost_of { (m : List ℕ) → StandsFor self m → OnOk result (meter.new
            ≡ raised meter.old (last_blocks (context_algorithm self) (length m)) 0) }
    {
        self.block
            .try_finish(&self.pending[..self.num_pending], meter)
    }

    // The state after the message and its padding, whose words write the digest. The message is
    // within the limit.
    #[tactic(auto, unfolding(crate::specs::Context::StandsFor))]
    pub(crate) fn final_state(&self, meter: &mut Meter) -> DynState
        requires { message_len self.now ≤ max_input_len (context_algorithm self.now) }
        ensures ok { (m : List ℕ) → StandsFor self.now m
            → digest_bytes (context_algorithm self.now) (words result)
            ≡ digest_of (context_algorithm self.now) m }
        ensures cost { meter.new ≡ raised meter.old
            (padded_blocks (context_algorithm self.now) (pending_len self.now)) 0 }
        ensures sized { IsTrue (is_state_of (context_algorithm self.now) result) }
    {
        self.block
            .final_state(&self.pending[..self.num_pending], meter)
    }

    /// Returns the digest of the message (FIPS 180-4, section 6).
    ///
    /// Refused where the message is longer than the algorithm's `max_input_len` bytes.
    pub fn finish(self) -> Result<Digest, Unspecified>
        ensures { FinishesDigest self result }
    {
        self.finish_counted(&mut Meter::new())
    }
}

/// Computes the digest of `message` as [`digest`] does, and counts its blocks on `meter`. A refusal
/// leaves `meter` as it was.
pub fn digest_counted(
    algorithm: &Algorithm,
    message: &[u8],
    meter: &mut Meter,
) -> Result<Digest, Unspecified>
    ensures ok { IfOk result (λ digest. IsDigest digest algorithm.now message.now) }
    ensures refused { IsErr result ↔ (max_input_len algorithm.now < length message.now) }
    ensures unchanged { OnErr result (meter.new ≡ meter.old) }
    ensures cost { OnOk result (meter.new
        ≡ raised meter.old (padded_blocks algorithm.now (length message.now)) 0) }
{
    if !is_message_within(algorithm, message.len() as u128) {
        return Err(Unspecified);
    }
    // This needs no `Context`: the bytes past the whole blocks are padded straight from `message`.
    let mut blocks = BlockContext::new(algorithm);
    let rest = blocks.update(message, meter);
    Ok(blocks.finish_within(rest, meter))
}

/// Returns the digest of `message` under `algorithm` (FIPS 180-4, section 6).
///
/// Refused where the message is longer than the algorithm's `max_input_len` bytes.
pub fn digest(algorithm: &Algorithm, message: &[u8]) -> Result<Digest, Unspecified>
    ensures ok { IfOk result (λ digest. IsDigest digest algorithm.now message.now) }
    ensures refused { IsErr result ↔ (max_input_len algorithm.now < length message.now) }
{
    digest_counted(algorithm, message, &mut Meter::new())
}
