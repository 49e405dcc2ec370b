// SPDX-License-Identifier: ISC
//! Readers that are read side by side, each in a lane.

ghost use Rattle.std.specs.Prelude.{◌≡◌, List, [], IfOk, IsTrue, OnOk, get_or, length, map};
ghost use Rattle.std.specs.Prelude.{vec_len};
ghost use Rattle.ring.specs.declared.digest.algorithm.Algorithm.{Algorithm};
ghost use Rattle.ring_sums.specs.Lane.{behind_of, front_of, left_of};
ghost use Rattle.ring_sums.specs.Found.{AreFound};

use crate::found::put;
use crate::lane::{Lane, new_room};
use crate::outcome::Outcome;
use crate::piece::MAX_BLOCK_LEN;
use crate::source::Source;
use crate::wide::update_each;
use ring::cost::Meter;
use ring::digest::{Algorithm, Context};
use std::alloc::{AllocError, Global};
use std::collections::VecDeque;

/// How many readers are read side by side.
pub(crate) const LANES: usize = 8;

/// The readers that are read, and the contexts of what they gave.
#[derive(Drop)]
pub(crate) struct Lanes<R> {
    pub(crate) lanes: Vec<Lane<R>>,
    pub(crate) contexts: Vec<Context>,
    /// Rooms for pieces that no lane uses.
    pub(crate) rooms: Vec<Vec<u8>>,
    ghost paired: { vec_len contexts ≡ vec_len lanes },
}

impl<R: Source + Drop> Lanes<R> {
    ghost use Rattle.ring_sums.specs.Lanes.{AreIn, GoOn, IsBegun, KeepPlaces};

    pub(crate) fn new(alloc: Global) -> Lanes<R>
        ensures lanes { result.lanes.items ≡ [] }
        ensures contexts { result.contexts.items ≡ [] }
    {
        Lanes {
            lanes: Vec::new(alloc),
            contexts: Vec::new(alloc),
            rooms: Vec::new(alloc),
        }
    }

    /// Whether a lane is free.
    pub(crate) fn has_free(&self) -> bool {
        self.lanes.len() < LANES
    }

    pub(crate) fn is_empty(&self) -> bool
        ensures { IsTrue result → length self.now.lanes.items ≡ 0 }
    {
        self.lanes.is_empty()
    }

    /// Begins the reader of a place.
    pub(crate) fn begin(
        &mut self,
        alloc: Global,
        algorithm: &Algorithm,
        place: usize,
        reader: R,
    ) -> Result<(), AllocError>
        ensures begun { OnOk result (IsBegun place self.old.lanes.items self.new.lanes.items) }
        ensures going { OnOk result ((readers : List R)
            → ((r : R) → get_or readers place r ≡ reader)
            → AreIn R.remaining R.fails_with algorithm.now readers left_of self.old.lanes.items
            self.old.contexts.items
            → AreIn R.remaining R.fails_with algorithm.now readers left_of self.new.lanes.items
            self.new.contexts.items) }
    {
        let room = match self.rooms.pop() {
            Some(room) => room,
            None => new_room(alloc)?,
        };
        self.contexts.push(Context::new(algorithm))?;
        if self.lanes.push(Lane::new(place, reader, room)).is_err() {
            self.contexts.pop();
            return Err(AllocError);
        }
        Ok(())
    }

    /// Reads a piece in each lane whose last one is taken in.
    pub(crate) fn read(&mut self)
        ensures places { KeepPlaces self.old.lanes.items self.new.lanes.items }
        ensures going { GoOn R.remaining R.fails_with left_of left_of self.old self.new }
    {
        'lanes: for i in 0..self.lanes.len() {
            self.lanes[i].read();
        }
    }

    /// Updates the contexts with the whole blocks that all lanes have left.
    pub(crate) fn update(&mut self, alloc: Global) -> Result<(), AllocError>
        ensures places { OnOk result (KeepPlaces self.old.lanes.items self.new.lanes.items) }
        ensures going { OnOk result
            (GoOn R.remaining R.fails_with left_of left_of self.old self.new) }
    {
        let count = common_len(&self.lanes);
        self.take_in(alloc, count)?;
        self.skip(count);
        Ok(())
    }

    /// Updates each context with the first `count` bytes that its lane has left.
    fn take_in(&mut self, alloc: Global, count: usize) -> Result<(), AllocError>
        ensures lanes { self.new.lanes ≡ self.old.lanes }
        ensures taken { OnOk result
            (GoOn R.remaining R.fails_with left_of (behind_of count) self.old self.new) }
    {
        let pieces = fronts_of(alloc, &self.lanes, count)?;
        match update_each(&mut self.contexts, &pieces, &mut Meter::new()) {
            Ok(()) => Ok(()),
            // There is a piece a context.
            Err(_) => unreachable!(),
        }
    }

    /// Takes `count` bytes of each lane for taken in.
    fn skip(&mut self, count: usize)
        ensures places { KeepPlaces self.old.lanes.items self.new.lanes.items }
        ensures going { GoOn R.remaining R.fails_with (behind_of count) left_of self.old self.new }
    {
        'lanes: for i in 0..self.lanes.len() {
            self.lanes[i].skip(count);
        }
    }

    /// Takes out the lanes that have ended, and puts their outcomes among those that are found of
    /// the readers from `given` on.
    pub(crate) fn end(
        &mut self,
        given: usize,
        found: &mut VecDeque<Option<Outcome>>,
    ) -> Result<(), AllocError>
        ensures count { length found.new.items ≡ length found.old.items }
        ensures going { OnOk result ((a : Algorithm) (readers : List R)
            → AreIn R.remaining R.fails_with a readers left_of self.old.lanes.items
            self.old.contexts.items
            → AreFound R.remaining R.fails_with a readers given found.old.items
            self.old.lanes.items
            → AreIn R.remaining R.fails_with a readers left_of self.new.lanes.items
            self.new.contexts.items
            × AreFound R.remaining R.fails_with a readers given found.new.items
            self.new.lanes.items) }
    {
        let mut i = 0;
        'lanes: while i < self.lanes.len() {
            if self.lanes[i].is_over() {
                let lane = self.lanes.swap_remove(i);
                let context = self.contexts.swap_remove(i);
                let place = lane.place;
                let (outcome, room) = lane.outcome(context);
                put(found, given, place, outcome);
                self.rooms.push(room)?;
            } else {
                i += 1;
            }
        }
        Ok(())
    }
}

/// How many bytes of whole blocks all lanes have left.
fn common_len<R: Source>(lanes: &[Lane<R>]) -> usize {
    let mut fewest = usize::MAX;
    'lanes: for lane in lanes {
        fewest = fewest.min(lane.left().len());
    }
    fewest - fewest % MAX_BLOCK_LEN
}

/// The first `count` bytes that each lane has left.
fn fronts_of<R: Source>(
    alloc: Global,
    lanes: &[Lane<R>],
    count: usize,
) -> Result<Vec<&[u8]>, AllocError>
    ensures { IfOk result (λ pieces.
        map (λ piece. piece.now) pieces.items ≡ map (front_of count) lanes.now) }
{
    let mut pieces = Vec::new(alloc);
    'lanes: for lane in lanes {
        pieces.push(lane.front(count))?;
    }
    Ok(pieces)
}
