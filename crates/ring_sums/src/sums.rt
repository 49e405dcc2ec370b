// SPDX-License-Identifier: ISC
//! Digests of what several readers give, side by side, in the order of the readers.

ghost use Rattle.std.specs.Prelude.{List, IfOk, IsTrue, OnOk, length};
ghost use Rattle.std.specs.Vec.Iter.{into_iter_items};
ghost use Rattle.ring.specs.declared.digest.algorithm.Algorithm.{Algorithm};
ghost use Rattle.ring_sums.specs.Found.{IsReady};
ghost use Rattle.ring_sums.specs.Sums.{KeepReaders, ReaderIsGiven, ReadersToCome};

use crate::found::take_first;
use crate::lanes::Lanes;
use crate::outcome::Outcome;
use crate::source::Source;
use ring::digest::Algorithm;
use std::alloc::{AllocError, Global};
use std::collections::VecDeque;
use std::io;
use std::io::ErrorKind;
use std::vec::IntoIter;

/// How many readers there are at most between the next to be given and the last one begun. With
/// fewer, a long message keeps the lanes of the others idle.
pub const WINDOW_LEN: usize = 16_384;

/// The digests of what several readers give. Eight of them are read side by side, 64 KiB of each at
/// a time, and their outcomes are given in the order of the readers.
#[derive(Drop)]
pub struct Sums<R> {
    pub(crate) algorithm: Algorithm,
    /// How many readers there are.
    pub(crate) total: usize,
    /// The readers that are not begun.
    pub(crate) waiting: IntoIter<R>,
    pub(crate) lanes: Lanes<R>,
    /// What is found of the readers that are begun, from the next to be given on.
    pub(crate) found: VecDeque<Option<Outcome>>,
}

impl<R: Source + Drop> Sums<R> {
    /// The sums of what `readers` will give, under `algorithm`, with memory of `alloc`. Nothing is
    /// read yet.
    pub fn new(alloc: Global, algorithm: &Algorithm, readers: Vec<R>) -> Sums<R>
        ensures { ReadersToCome R.remaining R.fails_with algorithm.now readers.items result }
    {
        Sums {
            algorithm: *algorithm,
            total: readers.len(),
            waiting: readers.into_iter(),
            lanes: Lanes::new(alloc),
            found: VecDeque::new(alloc),
        }
    }

    /// Whether a reader can be begun.
    fn can_begin(&self) -> bool {
        self.lanes.has_free() && self.found.len() < WINDOW_LEN && self.waiting.len() > 0
    }

    /// Puts the next readers into the lanes that are free.
    fn begin(&mut self, alloc: Global) -> Result<(), AllocError>
        ensures { OnOk result (KeepReaders R.remaining R.fails_with self.old self.new) }
    {
        'free: while self.can_begin() {
            // A reader without a lane keeps its place: it has failed.
            self.found.reserve(1)?;
            let place = self.total.saturating_sub(self.waiting.len());
            let Some(reader) = self.waiting.next() else {
                break;
            };
            self.found.push_back_reserved(None);
            self.lanes.begin(alloc, &self.algorithm, place, reader)?;
        }
        Ok(())
    }

    /// Ends the lanes that are over.
    fn end(&mut self) -> Result<(), AllocError>
        ensures { OnOk result (KeepReaders R.remaining R.fails_with self.old self.new) }
    {
        let given = self
            .total
            .saturating_sub(self.waiting.len())
            .saturating_sub(self.found.len());
        self.lanes.end(given, &mut self.found)?;
        Ok(())
    }

    /// Reads a piece of each reader that is begun, and updates the contexts once no lane is free
    /// for another.
    fn run_round(&mut self, alloc: Global) -> Result<(), AllocError>
        ensures { OnOk result (KeepReaders R.remaining R.fails_with self.old self.new) }
    {
        self.begin(alloc)?;
        self.lanes.read();
        self.end()?;
        if !self.can_begin() {
            self.lanes.update(alloc)?;
        }
        Ok(())
    }

    /// Whether the next outcome can be given: it is found, or no reader is left to be read.
    fn is_ready(&self) -> bool
        ensures { IsTrue result → IsReady self.now.found.items (length self.now.lanes.lanes.items)
            (length (into_iter_items self.now.waiting)) }
    {
        match self.found.front() {
            Some(first) => first.is_some() || self.lanes.is_empty(),
            None => self.waiting.len() == 0,
        }
    }

    /// The outcome of the next reader, or `None` behind the last one.
    ///
    /// Refused where `alloc` has no memory. A reader that has no lane by then has failed, and the
    /// others go on with the next call.
    pub fn next_outcome(&mut self, alloc: Global) -> io::Result<Option<Outcome>>
        ensures { IfOk result (λ outcome. (a : Algorithm) (readers : List R)
            → ReadersToCome R.remaining R.fails_with a readers self.old
            → ReaderIsGiven R.remaining R.fails_with a readers outcome self.new) }
    {
        'rounds: for _ in 0..u64::MAX {
            if self.is_ready() {
                return Ok(take_first(&mut self.found));
            }
            self.run_round(alloc)?;
        }
        Err(io::Error::from(ErrorKind::Other))
    }
}
