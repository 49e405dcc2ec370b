// SPDX-License-Identifier: ISC
//! Keys in lanes, prepared for messages that are as long as a digest: after the key's block such a
//! message is one block with its padding (RFC 2104, section 2), which is the same for all of them.

ghost use Rattle.std.proofs.Common.{refl};
ghost use Rattle.std.specs.Prelude.{◌≡◌, ◌≢◌, ℕ, ◌+◌, ◌*◌, ◌<◌, ◌≤◌, ◌++◌, IsTrue, List, length};
ghost use Rattle.std.specs.Prelude.{get_or, map, take};
ghost use Rattle.ring_core.specs.Prelude.{xor_lists};
ghost use Rattle.ring.specs.Prelude.{Algorithm, EachItem, HasKey, HasStart, IsSet, IsTagWithin};
ghost use Rattle.ring.specs.Prelude.{SHA1_FOR_LEGACY_USE_ONLY};
ghost use Rattle.ring.specs.Prelude.{block_function, digest_bytes, digest_at, digest_of, hmac_of};
ghost use Rattle.ring.specs.Prelude.{inner_block, is_state_of, key_algorithm, output_len};
ghost use Rattle.ring.specs.Prelude.{KeyStandsFor, padded_blocks, prepared_padding};
ghost use Rattle.ring.specs.Prelude.{raised, word_count, word_len, words};

use crate::digest;
use crate::digest::algorithm::words;
use crate::digest::dynstate::{DynState, Output, StateWord};
use crate::digest::lanes::algorithms::{
    DigestsOf, END_32, InVector, LaneStates, MAX_LANES, OneLane, Sha1, Suite, prepared_block,
};
use crate::hmac::key::Key;
use ring_core::cost::Meter;
use ring_core::digest::sha1::{
    sha1_block_of_words_fastest_counted, sha1_block_of_words_lanes_counted,
};
use ring_core::digest::sha2::{
    State32, State64, block_of_words_32_fastest_counted, block_of_words_64_fastest_counted,
    block_of_words_lanes_counted,
};
use ring_core::digest::states::States;
use ring_core::digest::word::lanes::Vector;
use std::num::Wrapping;

// A digest algorithm over states in lanes, and its prepared block: the last block of a message of
// one block and a digest, of which only the digest's words change.
pub(crate) trait DigestBlock: LaneStates {
    ghost algorithm: { Algorithm };

    // Advances `states` over the prepared block in each lane: the digest that the words of
    // `digests` write, and the padding.
    fn hash_digests(states: &mut Self::States, digests: &Self::States, meter: &mut Meter)
        requires some { 0 < Self.LANES }
        ensures ok { (i : ℕ) → take (word_count algorithm) (Self.lane i states.new)
            ≡ block_function algorithm (take (word_count algorithm) (Self.lane i states.old))
            (digest_bytes algorithm (Self.lane i digests.now) ++ prepared_padding algorithm) }
        ensures cost { meter.new ≡ raised meter.old Self.LANES 0 }
        ensures eight { (i : ℕ) → length (Self.lane i digests.now) ≡ 8 };

    // its words have this size
    ghost sized: { word_len algorithm ≡ Self.word_len };
}

// The prepared block of SHA-1.
const SHA1_PADDING: [Wrapping<u32>; 16] = prepared_block!(5, 32, END_32);

impl DigestBlock for OneLane<Wrapping<u32>, Sha1> {
    ghost algorithm = { SHA1_FOR_LEGACY_USE_ONLY };

    #[inline(always)]
    fn hash_digests(states: &mut State32, digests: &State32, meter: &mut Meter) {
        sha1_block_of_words_fastest_counted(states, digests, &SHA1_PADDING, meter)
    }

    ghost sized = { refl };
}

impl<A: Suite<Wrapping<u32>, 8>> DigestBlock for OneLane<Wrapping<u32>, DigestsOf<A, 8>> {
    ghost algorithm = { A.algorithm };

    #[inline(always)]
    fn hash_digests(states: &mut State32, digests: &State32, meter: &mut Meter) {
        block_of_words_32_fastest_counted(states, digests, A::padding(), meter)
    }

    ghost sized = { A.sha2.sized };
}

impl<A: Suite<Wrapping<u64>, N>, const N: usize> DigestBlock
    for OneLane<Wrapping<u64>, DigestsOf<A, N>> {
    ghost algorithm = { A.algorithm };

    #[inline(always)]
    fn hash_digests(states: &mut State64, digests: &State64, meter: &mut Meter) {
        block_of_words_64_fastest_counted::<N>(states, digests, A::padding(), meter)
    }

    ghost sized = { A.sha2.sized };
}

impl<V: Vector<One = Wrapping<u32>>> DigestBlock for InVector<V, Sha1> {
    ghost algorithm = { SHA1_FOR_LEGACY_USE_ONLY };

    #[inline(always)]
    fn hash_digests(states: &mut States<V>, digests: &States<V>, meter: &mut Meter) {
        sha1_block_of_words_lanes_counted(states, digests, &SHA1_PADDING, meter)
    }

    ghost sized = { refl };
}

impl<V: Vector<One = W>, W: StateWord + 'static, A: Suite<W, N>, const N: usize> DigestBlock
    for InVector<V, DigestsOf<A, N>> {
    ghost algorithm = { A.algorithm };

    #[inline(always)]
    fn hash_digests(states: &mut States<V>, digests: &States<V>, meter: &mut Meter) {
        block_of_words_lanes_counted::<V, N>(states, digests, A::padding(), meter)
    }

    ghost sized = { A.sha2.sized };
}

impl Key {
    // The state that writes the inner digest of the message `front` and then `rest`.
    fn inner_digest(&self, front: &[u8], rest: &[u8], meter: &mut Meter) -> DynState
        requires within { IsTagWithin (key_algorithm self.now)
            (length front.now + length rest.now) }
        ensures ok { (k : List ℕ) → KeyStandsFor self.now k
            → digest_bytes (key_algorithm self.now) (words result)
            ≡ digest_of (key_algorithm self.now)
            (inner_block (key_algorithm self.now) k ++ (front.now ++ rest.now)) }
        ensures sized { IsTrue (is_state_of (key_algorithm self.now) result) }
        ensures cost { meter.new ≡ raised meter.old
            (padded_blocks (key_algorithm self.now) (length front.now + length rest.now)) 0 }
    {
        let mut context = digest::Context::resume(self.inner.clone());
        context.update_counted(front, meter);
        context.update_counted(rest, meter);
        context.final_state(meter)
    }
}

const NO_STATES: [DynState; MAX_LANES] = [DynState::As32([Wrapping(0); 8]); MAX_LANES];

// What the messages in lanes start from: of each lane the two states of its key, and the state that
// writes the inner digest of its first message. There is room for the greatest number of lanes.
#[derive(Drop)]
pub(crate) struct Starts {
    inner: [DynState; MAX_LANES],
    outer: [DynState; MAX_LANES],
    digests: [DynState; MAX_LANES],
}

impl Starts {
    pub(crate) fn new() -> Self {
        Starts {
            inner: NO_STATES,
            outer: NO_STATES,
            digests: NO_STATES,
        }
    }

    // Sets the key of a lane, and its first message: `front` and then `rest`.
    pub(crate) fn set(
        &mut self,
        lane: usize,
        key: &Key,
        front: &[u8],
        rest: &[u8],
        meter: &mut Meter,
    )
        requires room { lane < 8 }
        requires within { IsTagWithin (key_algorithm key.now)
            (length front.now + length rest.now) }
        ensures here { HasStart (key_algorithm key.now) self.new lane key.now
            (front.now ++ rest.now) }
        ensures others { (a : Algorithm) (j : ℕ) (k : Key) (m : List ℕ) → j ≢ lane
            → HasStart a self.old j k m → HasStart a self.new j k m }
        ensures cost { meter.new ≡ raised meter.old
            (padded_blocks (key_algorithm key.now) (length front.now + length rest.now)) 0 }
    {
        self.inner[lane] = key.inner.state;
        self.outer[lane] = key.outer.state;
        self.digests[lane] = key.inner_digest(front, rest, meter);
    }
}

// The states of as many lanes as there are.
fn states_in_lanes<H: DigestBlock>(states: &[DynState; MAX_LANES]) -> H::States
    requires some { 0 < H.LANES }
    requires most { H.LANES ≤ 8 }
    requires sized { (i : ℕ) (s : DynState) → i < H.LANES
        → IsTrue (is_state_of H.algorithm (get_or states.now i s)) }
    ensures { (i : ℕ) (s : DynState) → i < H.LANES
        → H.lane i result ≡ words (get_or states.now i s) }
{
    H::new(&states[..H::LANES])
}

// A digest in each lane.
#[derive(Drop)]
pub(crate) struct Digests<H: DigestBlock> {
    words: H::States,
}

impl<H: DigestBlock> Digests<H> {
    #[inline(always)]
    pub(crate) fn clone(&self) -> Self
        ensures { result ≡ self.now }
    {
        Digests { words: self.words }
    }

    // Replaces the digest in each lane by its exclusive or with that of `others` there.
    #[inline(always)]
    pub(crate) fn xor_assign(&mut self, others: &Self)
        ensures { (i : ℕ) → digest_at H.algorithm (H.lane i) self.new
            ≡ xor_lists (digest_at H.algorithm (H.lane i) self.old)
            (digest_at H.algorithm (H.lane i) others.now) }
    {
        H::xor(&mut self.words, &others.words);
    }

    // Writes the digest in each lane to the front of the output at its place.
    pub(crate) fn write(&self, outputs: &mut [Output])
        requires { length outputs.old ≡ H.LANES }
        ensures { EachItem outputs.new (λ i output. take (output_len H.algorithm) output.0
            ≡ digest_at H.algorithm (H.lane i) self.now) }
    {
        'lanes: for i in 0..outputs.len() {
            outputs[i] = H::state(&self.words, i).format_output();
        }
    }
}

// A key in each lane, as its two states.
#[derive(Drop)]
pub(crate) struct PreparedKeys<H: DigestBlock> {
    inner: H::States,
    outer: H::States,
}

impl<H: DigestBlock> PreparedKeys<H> {
    // The key in each lane of `starts`.
    pub(crate) fn new(starts: &Starts) -> Self
        requires some { 0 < H.LANES }
        requires most { H.LANES ≤ 8 }
        requires set { (i : ℕ) → i < H.LANES → IsSet H.algorithm starts.now i }
        ensures { (i : ℕ) (key : Key) (k m : List ℕ) → i < H.LANES
            → HasStart H.algorithm starts.now i key m → KeyStandsFor key k
            → HasKey H.algorithm (H.lane i) result k }
    {
        PreparedKeys {
            inner: states_in_lanes::<H>(&starts.inner),
            outer: states_in_lanes::<H>(&starts.outer),
        }
    }

    // The tag of the first message of each lane: one block, since the inner digest is there.
    pub(crate) fn first_tags(&self, starts: &Starts, meter: &mut Meter) -> Digests<H>
        requires some { 0 < H.LANES }
        requires most { H.LANES ≤ 8 }
        requires set { (i : ℕ) → i < H.LANES → IsSet H.algorithm starts.now i }
        ensures ok { (i : ℕ) (key : Key) (k m : List ℕ) → i < H.LANES
            → HasStart H.algorithm starts.now i key m → KeyStandsFor key k
            → HasKey H.algorithm (H.lane i) self.now k
            → digest_at H.algorithm (H.lane i) result ≡ hmac_of H.algorithm k m }
        ensures cost { meter.new ≡ raised meter.old H.LANES 0 }
    {
        let inside = Digests {
            words: states_in_lanes::<H>(&starts.digests),
        };
        let mut tags = inside.clone();
        self.finish_tags(&inside, &mut tags, meter);
        tags
    }

    // Replaces `tags` by those of the messages whose inner digests are `inside`, under the key in
    // each lane. The tags are made in place: were they returned, they would be stored and loaded
    // once more between two blocks.
    #[inline(always)]
    fn finish_tags(&self, inside: &Digests<H>, tags: &mut Digests<H>, meter: &mut Meter)
        requires { 0 < H.LANES }
        ensures ok { (i : ℕ) (k m : List ℕ)
            → HasKey H.algorithm (H.lane i) self.now k
            → digest_at H.algorithm (H.lane i) inside.now
            ≡ digest_of H.algorithm (inner_block H.algorithm k ++ m)
            → digest_at H.algorithm (H.lane i) tags.new ≡ hmac_of H.algorithm k m }
        ensures cost { meter.new ≡ raised meter.old H.LANES 0 }
    {
        tags.words = self.outer;
        H::hash_digests(&mut tags.words, &inside.words, meter);
    }

    // Replaces each digest by its tag, under the key in its lane: two blocks, from copies of the
    // key's states.
    #[inline(always)]
    pub(crate) fn sign_digests(&self, digests: &mut Digests<H>, meter: &mut Meter)
        requires { 0 < H.LANES }
        ensures ok { (i : ℕ) (k : List ℕ)
            → HasKey H.algorithm (H.lane i) self.now k
            → digest_at H.algorithm (H.lane i) digests.new
            ≡ hmac_of H.algorithm k (digest_at H.algorithm (H.lane i) digests.old) }
        ensures cost { meter.new ≡ raised meter.old (2 * H.LANES) 0 }
    {
        let mut inside = Digests { words: self.inner };
        H::hash_digests(&mut inside.words, &digests.words, meter);
        self.finish_tags(&inside, digests, meter);
    }
}
