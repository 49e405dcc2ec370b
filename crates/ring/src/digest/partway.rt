// SPDX-License-Identifier: ISC
//! A context in the midst of an update, some blocks of which run in a lane.

ghost use Rattle.std.specs.Prelude.{◌≡◌, ◌+◌, ◌-◌, ◌/◌, ◌<◌, ◌≤◌, length, IsTrue};
ghost use Rattle.ring_core.specs.Prelude.{fold_chunks};
ghost use Rattle.ring.specs.Prelude.{DynState, IsPartway, IsUpdated, block_function, block_len};
ghost use Rattle.ring.specs.Prelude.{chaining_words, context_algorithm, cut_off, is_state_of};
ghost use Rattle.ring.specs.Prelude.{pending_len, raised, spare_words, update_blocks, words};

use crate::digest::context::Context;
use crate::digest::dynstate::{DynState, StateWord};
use ring_core::cost::Meter;

// The words, of which a proof then knows that they are eight.
fn eight<W: StateWord>(words: &[W; 8]) -> [W; 8]
    ensures words { result ≡ words.now }
    ensures count { length result ≡ 8 }
{
    *words
}

impl Context {
    // The state after the whole blocks so far.
    pub(crate) fn state(&self) -> DynState
        ensures state { result ≡ self.now.block.state }
        ensures count { length (words result) ≡ 8 }
    {
        match self.block.state {
            DynState::As64(words) => DynState::As64(eight(&words)),
            DynState::As32(words) => DynState::As32(eight(&words)),
        }
    }

    // Completes the pending block, if one is begun and the piece is long enough, and returns the
    // rest of the piece.
    #[tactic(auto, using(crate::proofs::lemmas::digest::GoingOn::part_rules))]
    pub(crate) fn complete_begun<'p>(&mut self, piece: &'p [u8], meter: &mut Meter) -> &'p [u8]
        ensures partway { IsPartway self.old self.new piece.now result.now }
        ensures ready { 0 < length result.now → pending_len self.new ≡ 0 }
        ensures cost { meter.new ≡ raised meter.old (update_blocks self.old (length piece.now)
            - update_blocks self.new (length result.now)) 0 }
    {
        if self.num_pending == 0 {
            return piece;
        }
        let room = self.algorithm().block_len() - self.num_pending;
        let (front, rest) = piece.split_at(room.min(piece.len()));
        self.add(front, meter);
        rest
    }

    // Adds `done` bytes, whose blocks lead to `state`.
    fn go_past(&mut self, state: DynState, done: usize)
        requires { IsTrue (is_state_of (context_algorithm self.old) state) }
        ensures algorithm { context_algorithm self.new ≡ context_algorithm self.old }
        ensures state { self.new.block.state ≡ state }
        ensures count { self.new.block.completed_bytes
            ≡ cut_off (self.old.block.completed_bytes + done) }
        ensures pending { pending_len self.new ≡ pending_len self.old }
    {
        self.block.state = state;
        self.block.completed_bytes = self.block.completed_bytes.saturating_add(done as u128);
    }

    // Adds `piece`, whose first `count` blocks lead to `state`.
    pub(crate) fn go_on(&mut self, state: DynState, piece: &[u8], count: usize, meter: &mut Meter)
        requires ready { 0 < count → pending_len self.old ≡ 0 }
        requires fits { count ≤ length piece.now / block_len (context_algorithm self.old) }
        requires sized { IsTrue (is_state_of (context_algorithm self.old) state) }
        requires words { chaining_words (context_algorithm self.old) state
            ≡ fold_chunks (block_function (context_algorithm self.old))
            (block_len (context_algorithm self.old))
            (chaining_words (context_algorithm self.old) self.old.block.state) piece.now count }
        requires spare { spare_words (context_algorithm self.old) state
            ≡ spare_words (context_algorithm self.old) self.old.block.state }
        ensures updated { IsUpdated self.old self.new piece.now }
        ensures cost { meter.new ≡ raised meter.old
            (update_blocks self.old (length piece.now) - count) 0 }
    {
        if count == 0 {
            return self.add(piece, meter);
        }
        let done = count * self.block.algorithm.block_len();
        self.go_past(state, done);
        self.add(&piece[done..], meter);
    }
}
