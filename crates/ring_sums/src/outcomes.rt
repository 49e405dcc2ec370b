// SPDX-License-Identifier: ISC
//! The outcomes of several files, in their order: those of one algorithm are read side by side.

ghost use Rattle.std.specs.Prelude.{◌≤◌, ◌∷◌, List, IfOk, IsTrue, OnOk, length};
ghost use Rattle.ring_sums.specs.declared.outcomes.Wanted.{Wanted};
ghost use Rattle.ring_sums.specs.Outcomes.{AreGathered, FileIsGiven, FilesToCome, IsNextOf};

use crate::outcome::Outcome;
use crate::source::Source;
use crate::sums::Sums;
use ring::digest::{Algorithm, SHA256};
use std::alloc::{AllocError, Global};
use std::collections::VecDeque;
use std::io;

/// A file of which the digest is asked for.
#[derive(Drop)]
pub struct Wanted<R> {
    /// The digest's.
    pub algorithm: Algorithm,
    /// What gives its bytes.
    pub reader: R,
    /// Whether it is read with no other beside it.
    pub is_alone: bool,
}

/// The outcomes of several files, in their order.
#[derive(Drop)]
pub struct Outcomes<R> {
    pub(crate) alloc: Global,
    /// The files that are read side by side.
    pub(crate) run: Sums<R>,
    /// The files behind them.
    pub(crate) waiting: VecDeque<Wanted<R>>,
}

impl<R: Source + Drop> Outcomes<R> {
    /// The outcomes of the files `wanted`, with memory of `alloc`. Nothing is read yet.
    pub fn new(alloc: Global, wanted: Vec<Wanted<R>>) -> Outcomes<R>
        ensures { FilesToCome R.remaining R.fails_with wanted.items result }
    {
        Outcomes {
            alloc,
            run: Sums::new(alloc, &SHA256, Vec::new(alloc)),
            waiting: VecDeque::from(wanted),
        }
    }

    /// Whether the next file is read beside others of this algorithm.
    fn is_next_of(&self, algorithm: &Algorithm) -> bool
        ensures { IsTrue result → IsNextOf algorithm.now self.now.waiting.items }
    {
        match self.waiting.front() {
            Some(next) => !next.is_alone && next.algorithm == *algorithm,
            None => false,
        }
    }

    /// Takes the readers of the next files that are read beside others of this algorithm.
    fn gather(&mut self, algorithm: &Algorithm, readers: &mut Vec<R>) -> Result<(), AllocError>
        ensures { OnOk result (AreGathered algorithm.now readers.old.items readers.new.items
            self.old.waiting.items self.new.waiting.items) }
    {
        'next: while self.is_next_of(algorithm) {
            let Some(next) = self.waiting.pop_front() else {
                break;
            };
            readers.push(next.reader)?;
        }
        Ok(())
    }

    /// Begins a run: that of the file `first`, and of those behind it that are read beside it.
    fn begin(&mut self, first: Wanted<R>) -> Result<(), AllocError>
        ensures begun { OnOk result
            (FilesToCome R.remaining R.fails_with (first ∷ self.old.waiting.items) self.new) }
        ensures some { OnOk result
            (length self.new.waiting.items ≤ length self.old.waiting.items) }
    {
        let algorithm = first.algorithm;
        let is_alone = first.is_alone;
        let mut readers = Vec::new(self.alloc);
        readers.push(first.reader)?;
        if !is_alone {
            self.gather(&algorithm, &mut readers)?;
        }
        self.run = Sums::new(self.alloc, &algorithm, readers);
        Ok(())
    }

    /// The outcome of the next file, or `None` behind the last one.
    ///
    /// Refused where there is no memory.
    pub fn next_outcome(&mut self) -> io::Result<Option<Outcome>>
        ensures { IfOk result (λ outcome. (files : List (Wanted R))
            → FilesToCome R.remaining R.fails_with files self.old
            → FileIsGiven R.remaining R.fails_with files outcome self.new) }
    {
        if let Some(outcome) = self.run.next_outcome(self.alloc)? {
            return Ok(Some(outcome));
        }
        let Some(first) = self.waiting.pop_front() else {
            return Ok(None);
        };
        self.begin(first)?;
        self.run.next_outcome(self.alloc)
    }
}
