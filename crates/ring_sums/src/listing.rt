// SPDX-License-Identifier: ISC
//! The lines of files, as a run without `--check` writes them.

ghost use Rattle.std.specs.Prelude.{◌≡◌, IfOk, IsNone, List, OnOk, length};
ghost use Rattle.ring_sums.specs.Console.{HasWritten};
ghost use Rattle.ring_sums.specs.Listing.{IsListed, is_sum, line_of};
ghost use Rattle.ring_sums.specs.Outcomes.{AreDone, FilesToCome};
ghost use Rattle.ring_sums.specs.declared.outcomes.Wanted.{Wanted};

use crate::console::Console;
use crate::line::append_file_line;
use crate::options::Options;
use crate::outcome::Outcome;
use crate::outcomes::Outcomes;
use crate::source::Source;
use std::alloc::{AllocError, Global};
use std::io::{Eprint, Write};

/// Writes the line of a file, or tells why it has none, and returns whether it has one.
fn answer<R: Eprint, W: Write>(
    alloc: Global,
    options: &Options,
    name: &[u8],
    outcome: &Outcome,
    console: &mut Console<'_, R, W>,
) -> Result<bool, AllocError>
    ensures is { IfOk result (λ has_line. has_line ≡ is_sum outcome.now) }
    ensures line { OnOk result (HasWritten W.contents
        (line_of options.now name.now outcome.now) console.old console.new) }
{
    match outcome {
        Outcome::Sum(digest) => {
            let mut line = Vec::new(alloc);
            append_file_line(&mut line, options, digest, name)?;
            console.write(&line);
            Ok(true)
        }
        Outcome::Failed(error) => {
            console.tell_error(name, error)?;
            Ok(false)
        }
        Outcome::TooLong => {
            console.tell_of(name, b"too long")?;
            Ok(false)
        }
    }
}

/// Writes the line of each file that can be read to its end, in their order, tells why the others
/// have none, and returns whether there are no others. Files are named by `names`. Behind a line
/// that cannot be written none is, and no further outcome is asked for.
///
/// Refused where `alloc` has no memory.
pub(crate) fn list<S, R, W>(
    alloc: Global,
    options: &Options,
    names: &[&[u8]],
    outcomes: &mut Outcomes<S>,
    console: &mut Console<'_, R, W>,
) -> Result<bool, AllocError>
where
    S: Source + Drop,
    R: Eprint,
    W: Write,
    ensures { IfOk result (λ is_fine. (files : List (Wanted S))
        → FilesToCome S.remaining S.fails_with files outcomes.old
        → length names.now ≡ length files
        → AreDone S.remaining S.fails_with files outcomes.new (λ done.
        IsListed S.remaining S.fails_with W.contents options.now names.now done is_fine console.old
        console.new × (IsNone console.new.failure → done ≡ files))) }
{
    let mut is_fine = true;
    for name in names {
        if console.has_failed() {
            return Ok(is_fine);
        }
        let Ok(next) = outcomes.next_outcome() else {
            return Err(AllocError);
        };
        let Some(outcome) = next else {
            return Ok(false);
        };
        is_fine &= answer(alloc, options, name, &outcome, console)?;
    }
    Ok(is_fine)
}
