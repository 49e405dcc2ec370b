// SPDX-License-Identifier: ISC
//! Tags, and the tag of a message that arrives in pieces.

ghost use Rattle.std.specs.Prelude.{◌≡◌, ◌↔◌, ℕ, ◌+◌, ◌-◌, ◌%◌, ◌<◌, ◌≤◌, List, [], ◌++◌, Some};
ghost use Rattle.std.specs.Prelude.{codes, length, IfOk, IsErr, OnOk, OnErr, replicate};
ghost use Rattle.ring_core.specs.Cost.{raised};
ghost use Rattle.ring.specs.Algorithm.{block_len, max_input_len, name_of, output_len};
ghost use Rattle.ring.specs.Context.{block_algorithm, context_algorithm, counted_bytes, cut_off};
ghost use Rattle.ring.specs.Context.{message_len};
ghost use Rattle.ring.specs.Cost.{last_blocks, padded_blocks, whole_blocks};

use crate::digest;
use crate::digest::Digest;
use crate::digest::block_context::BlockContext;
use crate::hmac::key::Key;
use ring_core::cost::Meter;
use ring_core::error::Unspecified;
use std::fmt;

/// A tag, and the algorithm that computed it.
#[derive(Clone, Copy, Debug)]
pub struct Tag(Digest);

impl Tag {
    ghost use Rattle.ring.specs.Context.{HasTaken, block_words};
    ghost use Rattle.ring.specs.Digest.{IsDigest, bytes_of, digest_algorithm};
    ghost use Rattle.ring.specs.Hmac.{IsTag, tag_algorithm, tag_bytes, tag_of_inner};
    ghost use Rattle.ring.specs.KeyBlocks.{inner_block, outer_block};
    ghost use Rattle.ring.specs.declared.digest.algorithm.Algorithm.{Algorithm};

    // The tag of the inner digest `digest`, where `outer` is the state after the key's outer block
    // (RFC 2104, section 2).
    pub(crate) fn of_inner(digest: &Digest, outer: &BlockContext, meter: &mut Meter) -> Self
        requires same { digest_algorithm digest.now ≡ block_algorithm outer.now }
        requires counted { counted_bytes outer.now ≡ block_len (block_algorithm outer.now) }
        ensures ok { (a : Algorithm) (k m : List ℕ) → block_algorithm outer.now ≡ a
            → IsDigest digest.now a (inner_block a k ++ m) → HasTaken outer.now (outer_block a k)
            → IsTag result a k m }
        ensures any { tag_bytes result ≡ tag_of_inner (block_algorithm outer.now)
            (block_words outer.now) (bytes_of digest.now) }
        ensures cost { meter.new ≡ raised meter.old 1 0 }
        ensures algorithm { tag_algorithm result ≡ block_algorithm outer.now }
    {
        Tag(outer.finish_within(digest.as_ref(), meter))
    }

    /// The bytes of the tag, as many as a digest of its algorithm has.
    pub fn as_ref(&self) -> &[u8]
        ensures bytes { result.now ≡ tag_bytes self.now }
        ensures len { length result.now ≡ output_len (tag_algorithm self.now) }
    {
        self.0.as_ref()
    }
}

/// The tag of a message that arrives in pieces. A context stands for a key and for the pieces so
/// far, joined.
#[derive(Drop)]
pub struct Context {
    pub(crate) inner: digest::Context,
    pub(crate) outer: BlockContext,
    ghost same: { block_algorithm outer ≡ context_algorithm inner },
    ghost inner_block: { block_len (context_algorithm inner) ≤ message_len inner },
    ghost outer_block: { counted_bytes outer ≡ block_len (block_algorithm outer) },
}

impl Context {
    ghost use Rattle.ring.specs.Hmac.{IsTag, KeyStandsFor, TagStandsFor};
    ghost use Rattle.ring.specs.Hmac.{key_algorithm, signing_algorithm};
    ghost use Rattle.ring.specs.Hmac.{signing_len, signing_pending, signing_room, tag_algorithm};
    ghost use Rattle.ring.specs.Hmac.{tag_bytes};
    ghost use Rattle.ring.specs.Hmac.{inner_words, outer_words, tag_of_inner, tag_with};
    ghost use Rattle.ring.specs.Digest.{digest_after};
    ghost use Rattle.ring.specs.Gives.{FinishesTag, TagIsUpdated};

    /// Starts the tag of a message under `signing_key` (RFC 2104, section 2). The message is empty
    /// so far. No block is run: the context copies the key's two states.
    pub fn with_key(signing_key: &Key) -> Self
        ensures stands { (k : List ℕ) → KeyStandsFor signing_key.now k → TagStandsFor result k [] }
        ensures any { (y : List ℕ) (n : ℕ) → tag_with result y n
            ≡ tag_of_inner (key_algorithm signing_key.now) (outer_words signing_key.now)
            (digest_after (key_algorithm signing_key.now) (inner_words signing_key.now) y n) }
        ensures algorithm { signing_algorithm result ≡ key_algorithm signing_key.now }
        ensures counted { signing_len result ≡ block_len (key_algorithm signing_key.now) }
        ensures pending { signing_pending result ≡ 0 }
        ensures clear { signing_room result ≡ replicate 128 0 }
    {
        Context {
            inner: digest::Context::resume(signing_key.inner.clone()),
            outer: signing_key.outer.clone(),
        }
    }

    /// A copy, which goes on separately.
    pub fn clone(&self) -> Self
        ensures { result ≡ self.now }
    {
        Context {
            inner: self.inner.clone(),
            outer: self.outer.clone(),
        }
    }

    /// Adds `input` to the message as [`Context::update`] does, and counts on `meter` the blocks
    /// that it completes.
    pub fn update_counted(&mut self, input: &[u8], meter: &mut Meter)
        ensures plain { TagIsUpdated self.old self.new input.now }
        ensures cost { meter.new ≡ raised meter.old (whole_blocks
            (signing_algorithm self.old) (signing_pending self.old + length input.now)) 0 }
        ensures cost_of { (k m : List ℕ) → TagStandsFor self.old k m → meter.new ≡ raised meter.old
            (whole_blocks (signing_algorithm self.old) (length m + length input.now)
            - whole_blocks (signing_algorithm self.old) (length m)) 0 }
    {
        self.inner.update_counted(input, meter);
    }

    /// Adds `input` to the message, and runs each block that is complete (RFC 2104, section 2).
    ///
    /// This is never refused: where the message is too long, [`Context::sign`] is.
    pub fn update(&mut self, input: &[u8])
        ensures { TagIsUpdated self.old self.new input.now }
    {
        self.update_counted(input, &mut Meter::new());
    }

    /// Returns the tag as [`Context::sign`] does, and counts the last blocks on `meter`. A refusal
    /// leaves `meter` as it was.
    #[tactic(auto, using(crate::proofs::lemmas::hmac::Keys::key_rules))]
    pub fn sign_counted(self, meter: &mut Meter) -> Result<Tag, Unspecified>
        ensures plain { FinishesTag self result }
        ensures unchanged { OnErr result (meter.new ≡ meter.old) }
        ensures cost { OnOk result (meter.new ≡ raised meter.old
            (padded_blocks (signing_algorithm self) (signing_pending self) + 1) 0) }
        ensures cost_of { (k m : List ℕ) → TagStandsFor self k m → OnOk result (meter.new
            ≡ raised meter.old (last_blocks (signing_algorithm self) (length m) + 1) 0) }
    {
        let Context { inner, outer } = self;
        let digest = inner.finish_counted(meter)?;
        Ok(Tag::of_inner(&digest, &outer, meter))
    }

    /// Returns the tag of the message (RFC 2104, section 2).
    ///
    /// Refused where one block and the message together are longer than the digest algorithm's
    /// `max_input_len` bytes.
    pub fn sign(self) -> Result<Tag, Unspecified>
        ensures { FinishesTag self result }
    {
        self.sign_counted(&mut Meter::new())
    }
}

/// Writes the name of the digest algorithm alone, as in `Context { algorithm: SHA256 }`.
impl fmt::Debug for Context {
    ghost use Rattle.ring.specs.Hmac.{signing_algorithm};

    ghost debug_output = { λ c.
        Some (codes "Context { algorithm: " ++ name_of (signing_algorithm c) ++ codes " }") };

    fn fmt<W: fmt::Write>(&self, f: &mut fmt::Formatter<W>) -> fmt::Result {
        let algorithm = self.inner.algorithm();
        write!(f, "Context {{ algorithm: {algorithm:?} }}")
    }
}
