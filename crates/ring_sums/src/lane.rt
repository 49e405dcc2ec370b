// SPDX-License-Identifier: ISC
//! A reader in a lane.

ghost use Rattle.std.specs.Prelude.{◌≡◌, ◌≤◌, IsNone, IsTrue};
ghost use Rattle.ring.specs.declared.digest.algorithm.Algorithm.{Algorithm};

use crate::outcome::Outcome;
use crate::piece::{MAX_BLOCK_LEN, PIECE_LEN, fill};
use crate::source::Source;
use ring::digest::Context;
use std::alloc::{AllocError, Global};
use std::io;

/// Room for a piece.
pub(crate) fn new_room(alloc: Global) -> Result<Vec<u8>, AllocError> {
    vec![in alloc; 0; PIECE_LEN]
}

/// A reader that is read, and its place among all.
#[derive(Drop)]
pub(crate) struct Lane<R> {
    pub(crate) place: usize,
    pub(crate) reader: R,
    pub(crate) room: Vec<u8>,
    /// How many bytes of its last piece are taken in.
    pub(crate) from: usize,
    /// How many bytes of the room are its last piece.
    pub(crate) len: usize,
    /// Whether it has given all.
    pub(crate) has_ended: bool,
    pub(crate) failure: Option<io::Error>,
}

impl<R: Source> Lane<R> {
    ghost use Rattle.ring_sums.specs.Lane.{IsFresh, IsIn, IsRead, IsSkipped, front_of};
    ghost use Rattle.ring_sums.specs.Lane.{left_of};
    ghost use Rattle.ring_sums.specs.Outcome.{IsOutcome};

    pub(crate) fn new(place: usize, reader: R, room: Vec<u8>) -> Lane<R>
        ensures { IsFresh place reader result }
    {
        Lane {
            place,
            reader,
            room,
            from: 0,
            len: 0,
            has_ended: false,
            failure: None,
        }
    }

    /// Makes room for the next piece, where the last one is taken in.
    fn clear(&mut self)
        ensures kept { IsSkipped 0 self.old self.new }
        ensures within { self.new.from ≤ self.new.len }
    {
        if self.from >= self.len {
            self.from = 0;
            self.len = 0;
        }
    }

    /// Reads on where the room is not full.
    fn fill_room(&mut self)
        requires { self.old.from ≤ self.old.len }
        ensures { IsRead R.remaining R.fails_with self.old self.new }
    {
        if self.len >= self.room.len() {
            return;
        }
        match fill(&mut self.reader, &mut self.room[self.len..]) {
            Ok(filled) => {
                self.len += filled.len;
                self.has_ended = filled.has_ended;
            }
            Err(error) => self.failure = Some(error),
        }
    }

    /// Reads the next piece, where the last one is taken in, or the rest of one whose reading was
    /// interrupted.
    pub(crate) fn read(&mut self)
        ensures { IsRead R.remaining R.fails_with self.old self.new }
    {
        if !self.has_ended {
            self.clear();
            self.fill_room();
        }
    }

    /// What was read and is not taken in.
    pub(crate) fn left(&self) -> &[u8]
        ensures { result.now ≡ left_of self.now }
    {
        let piece = if self.len < self.room.len() {
            &self.room[..self.len]
        } else {
            &self.room
        };
        if self.from < piece.len() {
            &piece[self.from..]
        } else {
            &piece[..0]
        }
    }

    /// The front of what is not taken in.
    pub(crate) fn front(&self, count: usize) -> &[u8]
        ensures { result.now ≡ front_of count self.now }
    {
        let left = self.left();
        if count < left.len() {
            &left[..count]
        } else {
            left
        }
    }

    /// So many bytes more are taken in.
    pub(crate) fn skip(&mut self, count: usize)
        ensures { IsSkipped count self.old self.new }
    {
        self.from = self.from.saturating_add(count);
    }

    /// Whether it has given all, of which less than a block is left, or failed.
    pub(crate) fn is_over(&self) -> bool
        ensures { IsTrue result → IsNone self.now.failure → IsTrue self.now.has_ended }
    {
        self.failure.is_some() || (self.has_ended && self.left().len() < MAX_BLOCK_LEN)
    }

    /// How it ended, and its room.
    pub(crate) fn outcome(self, context: Context) -> (Outcome, Vec<u8>)
    where
        R: Drop,
        ensures { (a : Algorithm) (first : R)
            → IsIn R.remaining R.fails_with a first (left_of self) self context
            → (IsNone self.failure → IsTrue self.has_ended)
            → IsOutcome R.remaining R.fails_with a first result.0 }
    {
        let mut context = context;
        context.update(self.left());
        let outcome = match self.failure {
            Some(error) => Outcome::Failed(error),
            None => match context.finish() {
                Ok(digest) => Outcome::Sum(digest),
                Err(_) => Outcome::TooLong,
            },
        };
        (outcome, self.room)
    }
}
