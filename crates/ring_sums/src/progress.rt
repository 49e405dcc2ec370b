// SPDX-License-Identifier: ISC
//! What is shown while files are read: how many bytes of all, the rate, and the time left.

ghost use Rattle.std.specs.Prelude.{◌<◌};

use crate::amounts::{Amounts, append_shown};
use std::alloc::{AllocError, Global};
use std::cell::Cell;
use std::io::Eprint;
use std::rt::Clock;
use std::time::Instant;

/// For how many milliseconds what is shown stays.
const INTERVAL: u64 = 250;

/// How far a run is, and when that was shown.
#[derive(Clone, Copy)]
struct State {
    is_on: bool,
    amounts: Amounts,
    /// When the first bytes were read.
    start: Option<Instant>,
    /// When it was shown last, or else the start.
    last: Option<Instant>,
    is_visible: bool,
}

/// A line on standard error that shows how far a run is. Readers and the console share it.
#[derive(Drop)]
pub(crate) struct Progress {
    alloc: Global,
    state: Cell<State>,
}

/// The milliseconds between two times.
fn millis_between(earlier: Instant, later: Instant) -> u64 {
    u64::try_from(later.duration_since(earlier).as_millis()).unwrap_or(u64::MAX)
}

/// Writes the line over the one that is there.
fn write<R: Eprint>(rt: &R, alloc: Global, amounts: &Amounts, millis: u64) -> Result<(), AllocError>
    requires { 0 < millis }
{
    let mut line = Vec::new(alloc);
    append_shown(&mut line, amounts, millis)?;
    if let Ok(text) = std::str::from_utf8(&line) {
        let _ = rt.eprint(format_args!("\r{text}\x1b[K"));
    }
    Ok(())
}

impl State {
    /// Shows it, where the interval is over. Where the clock cannot be read nothing is shown.
    fn show<R: Clock + Eprint>(&mut self, rt: &R, alloc: Global) {
        let Ok(now) = Instant::now(rt) else {
            return;
        };
        let (Some(start), Some(last)) = (self.start, self.last) else {
            self.start = Some(now);
            self.last = Some(now);
            return;
        };
        let millis = millis_between(start, now);
        if millis == 0 || millis_between(last, now) < INTERVAL {
            return;
        }
        self.last = Some(now);
        self.is_visible = true;
        let _ = write(rt, alloc, &self.amounts, millis);
    }
}

impl Progress {
    /// One that shows nothing until it is started.
    pub(crate) fn new(alloc: Global) -> Progress {
        Progress {
            alloc,
            state: Cell::new(State {
                is_on: false,
                amounts: Amounts::none(),
                start: None,
                last: None,
                is_visible: false,
            }),
        }
    }

    /// Shows from now on how far the run is.
    pub(crate) fn start(&self) {
        let state = self.state.get();
        self.state.set(State {
            is_on: true,
            ..state
        });
    }

    /// A file of this length will be read; of `None`, one whose length is not known.
    pub(crate) fn expect(&self, len: Option<u64>) {
        let mut state = self.state.get();
        state.amounts.expect(len);
        self.state.set(state);
    }

    /// `count` bytes were read of a file that was to give `rest`.
    pub(crate) fn add<R: Clock + Eprint>(&self, rt: &R, rest: &mut u64, count: usize) {
        let mut state = self.state.get();
        state.amounts.add(rest, count as u64);
        if state.is_on {
            state.show(rt, self.alloc);
        }
        self.state.set(state);
    }

    /// A file that was to give `rest` gives no more.
    pub(crate) fn end(&self, rest: &mut u64) {
        let mut state = self.state.get();
        state.amounts.end(rest);
        self.state.set(state);
    }

    /// Takes the line away, until it is shown again.
    pub(crate) fn hide<R: Eprint>(&self, rt: &R) {
        let mut state = self.state.get();
        if state.is_visible {
            let _ = rt.eprint("\r\x1b[K");
            state.is_visible = false;
            self.state.set(state);
        }
    }
}
