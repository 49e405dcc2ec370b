// SPDX-License-Identifier: ISC
//! Outcomes that are found before it is their turn to be given.

ghost use Rattle.std.specs.Prelude.{◌≡◌, drop};
ghost use Rattle.ring_sums.specs.Found.{IsFirst, IsPut};

use crate::outcome::Outcome;
use std::collections::VecDeque;
use std::io;
use std::io::ErrorKind;

/// Puts the outcome of the reader at `place` among those of the readers from `given` on.
pub(crate) fn put(
    found: &mut VecDeque<Option<Outcome>>,
    given: usize,
    place: usize,
    outcome: Outcome,
)
    ensures { IsPut given place outcome found.old.items found.new.items }
{
    if place < given {
        return;
    }
    let index = place - given;
    if index < found.len() {
        found[index] = Some(outcome);
    }
}

/// Takes the first outcome out. One that is not found is of a reader that no lane reads any more.
pub(crate) fn take_first(found: &mut VecDeque<Option<Outcome>>) -> Option<Outcome>
    ensures rest { found.new.items ≡ drop 1 found.old.items }
    ensures first { IsFirst found.old.items result }
{
    let first = found.pop_front()?;
    Some(match first {
        Some(outcome) => outcome,
        None => Outcome::Failed(io::Error::from(ErrorKind::Other)),
    })
}
