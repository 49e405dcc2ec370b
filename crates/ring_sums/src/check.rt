// SPDX-License-Identifier: ISC
//! The check of a list.

ghost use Rattle.std.specs.Prelude.{◌≡◌, ◌↔◌, ◌<◌, ◌-◌, ◌^◌, ◌∷◌, ◌++◌, ℕ, [], IfOk, IsTrue};
ghost use Rattle.std.specs.Prelude.{◌+◌, IsNone, List, OnOk, Option, Some, cond, length, map, min};
ghost use Rattle.std.specs.Prelude.{option_map, take};
ghost use Rattle.std.specs.IoError.{error_kind};
ghost use Rattle.ring_sums.specs.declared.entry.Verdict.{Verdict};
ghost use Rattle.ring_sums.specs.Check.{AreFilesOf, IsChecked, IsFound, IsLeftOut, ListIsChecked};
ghost use Rattle.ring_sums.specs.Check.{Passes, TextIsChecked, entries_of, is_found, known_after};
ghost use Rattle.ring_sums.specs.Check.{said_of, text_of};
ghost use Rattle.ring_sums.specs.Console.{HasWritten, IsKept};
ghost use Rattle.ring_sums.specs.Files.{name_of};
ghost use Rattle.ring_sums.specs.List.{lines_in};
ghost use Rattle.ring_sums.specs.Outcomes.{AreDone, FilesToCome};
ghost use Rattle.ring_sums.specs.Parts.{left_of};
ghost use Rattle.ring_sums.specs.declared.outcomes.Wanted.{Wanted};

use crate::console::Console;
use crate::entry::{Entry, Gap, Verdict, tag_of, verdict_of};
use crate::files::{self, wanted_of};
use crate::line::append_verdict_line;
use crate::list::{Line, lines_of};
use crate::options::{Amount, Options};
use crate::outcome::Outcome;
use crate::outcomes::{Outcomes, Wanted};
use crate::parts::Parts;
use crate::progress::Progress;
use crate::source::Source;
use ring::digest::Algorithm;
use std::alloc::{AllocError, Global};
use std::io;
use std::io::{Eprint, ErrorKind, Input, Read, Write};
use std::rt::{Clock, Files};

/// What a list has been found to have.
#[derive(Clone, Copy, Default)]
struct Counts {
    bad_lines: u64,
    entries: u64,
    others: u64,
    unread: u64,
    same: u64,
}

/// The text behind a name, or `None` where nothing is written of the file.
fn text_of(amount: Amount, verdict: Verdict) -> Option<&'static [u8]>
    ensures { option_map (λ text. text.now) result ≡ text_of amount verdict }
{
    match (amount, verdict) {
        (Amount::Status, _) | (Amount::Quiet, Verdict::Same) => None,
        (_, Verdict::Same) => Some(b"OK"),
        (_, Verdict::Other) => Some(b"FAILED"),
        (_, Verdict::Unread) => Some(b"FAILED open or read"),
    }
}

/// 1 where this is found of a file, else 0.
fn one_if(found: Option<Verdict>, verdict: Verdict) -> u64
    ensures { result ≡ cond (is_found verdict found) 1 0 }
{
    if found == Some(verdict) { 1 } else { 0 }
}

impl Counts {
    ghost use Rattle.ring_sums.specs.Check.{AreCounted};

    /// Counts what is found of an entry.
    fn count(&mut self, found: Option<Verdict>)
        ensures counted { (founds : List (Option Verdict)) → length founds < 2 ^ 64 - 1
            → AreCounted founds self.old → AreCounted (founds ++ found ∷ []) self.new }
        ensures bad { self.new.bad_lines ≡ self.old.bad_lines }
    {
        self.entries = self.entries.saturating_add(1);
        self.same = self.same.saturating_add(one_if(found, Verdict::Same));
        self.others = self.others.saturating_add(one_if(found, Verdict::Other));
        self.unread = self.unread.saturating_add(one_if(found, Verdict::Unread));
    }

    /// Adds what a part of a list has been found to have.
    fn add(&mut self, part: &Counts)
        ensures counted { (founds more : List (Option Verdict)) → length (founds ++ more) < 2 ^ 64
            → AreCounted founds self.old → AreCounted more part.now
            → AreCounted (founds ++ more) self.new }
        ensures bad { self.new.bad_lines
            ≡ min (self.old.bad_lines + part.now.bad_lines) (2 ^ 64 - 1) }
    {
        self.bad_lines = self.bad_lines.saturating_add(part.bad_lines);
        self.entries = self.entries.saturating_add(part.entries);
        self.same = self.same.saturating_add(part.same);
        self.others = self.others.saturating_add(part.others);
        self.unread = self.unread.saturating_add(part.unread);
    }
}

/// Whether a file is not there.
fn is_missing(error: &io::Error) -> bool
    ensures { IsTrue result ↔ (error_kind error.now ≡ ErrorKind.NotFound) }
{
    error.kind() == ErrorKind::NotFound
}

/// Whether a file is left out, since it is not there.
fn is_left_out(options: &Options, outcome: &Outcome) -> bool
    ensures { IsTrue result ↔ IsLeftOut options.now outcome.now }
{
    match outcome {
        Outcome::Failed(error) => options.ignores_missing && is_missing(error),
        _ => false,
    }
}

/// Tells why a file could not be read to its end.
fn tell_of_outcome<R: Eprint, W: Write>(
    name: &[u8],
    outcome: &Outcome,
    console: &mut Console<'_, R, W>,
) -> Result<(), AllocError>
    ensures { IsKept console.old console.new }
{
    match outcome {
        Outcome::Sum(_) => Ok(()),
        Outcome::TooLong => console.tell_of(name, b"too long"),
        Outcome::Failed(error) => console.tell_error(name, error),
    }
}

/// Writes the line that says what is found of a file, if one is wanted.
fn write_verdict<R: Eprint, W: Write>(
    alloc: Global,
    amount: Amount,
    name: &[u8],
    verdict: Verdict,
    console: &mut Console<'_, R, W>,
) -> Result<(), AllocError>
    ensures { OnOk result (HasWritten W.contents (said_of amount name.now (Some verdict))
        console.old console.new) }
{
    let Some(text) = text_of(amount, verdict) else {
        return Ok(());
    };
    let mut line = Vec::new(alloc);
    append_verdict_line(&mut line, name, text)?;
    console.write(&line);
    Ok(())
}

/// Says of an entry what is found of its file, and returns it; `None` where it is left out.
fn answer<R: Eprint, W: Write>(
    alloc: Global,
    options: &Options,
    entry: &Entry,
    outcome: &Outcome,
    console: &mut Console<'_, R, W>,
) -> Result<Option<Verdict>, AllocError>
    ensures found { IfOk result (λ found.
        IsFound options.now entry.now.listed.items outcome.now found) }
    ensures said { IfOk result (λ found. HasWritten W.contents
        (said_of options.now.amount entry.now.name.items found) console.old console.new) }
{
    if is_left_out(options, outcome) {
        return Ok(None);
    }
    tell_of_outcome(&entry.name, outcome, console)?;
    let verdict = verdict_of(outcome, &entry.listed);
    write_verdict(alloc, options.amount, &entry.name, verdict, console)?;
    Ok(Some(verdict))
}

/// The files of the entries.
fn files_of<'a, R: Files + AllocGlobal + Clock + Eprint + Input>(
    rt: &'a R,
    progress: &'a Progress,
    lines: &'a [Line],
) -> Result<Vec<Wanted<files::Source<'a, R>>>, AllocError>
    ensures files { IfOk result (λ wanted. AreFilesOf (entries_of lines.now) wanted.items) }
    ensures names { IfOk result (λ wanted. map (λ file. name_of file.reader) wanted.items
        ≡ map (λ entry. Some entry.name.items) (entries_of lines.now)) }
{
    let mut wanted = Vec::new(rt.alloc());
    for line in lines {
        match line {
            Line::Entry(entry) => {
                wanted.push(wanted_of(rt, progress, &entry.name, entry.algorithm))?;
            }
            Line::Bad(_) => {}
        }
    }
    Ok(wanted)
}

/// The algorithm of the last file that is listed, behind a line.
fn known_after(known: Option<Algorithm>, line: &Line) -> Option<Algorithm>
    ensures { result ≡ known_after known line.now }
{
    match line {
        Line::Entry(entry) => Some(entry.algorithm),
        Line::Bad(_) => known,
    }
}

/// Warns of a line that has not the form of one. Where an algorithm is known it is named.
fn warn_of_line<R: Eprint, W: Write>(
    alloc: Global,
    amount: Amount,
    list: &[u8],
    number: u64,
    known: Option<Algorithm>,
    console: &mut Console<'_, R, W>,
) -> Result<(), AllocError>
    ensures { IsKept console.old console.new }
{
    if amount != Amount::Warn {
        return Ok(());
    }
    let text = match known {
        Some(algorithm) => {
            let tag = tag_of(&algorithm);
            format!(in alloc; "{number}: improperly formatted {tag} checksum line")?
        }
        None => format!(in alloc; "{number}: improperly formatted checksum line")?,
    };
    console.tell_of(list, text.as_bytes())
}

/// Says of each line of a list what is found of its file, in their order. `known` is the algorithm
/// of the last file that was listed before. Behind a line that cannot be written none is, no
/// further outcome is asked for, and what is counted is of the lines so far.
fn check_lines<S, R, W>(
    alloc: Global,
    options: &Options,
    list: &[u8],
    lines: &[Line],
    outcomes: &mut Outcomes<S>,
    known: &mut Option<Algorithm>,
    console: &mut Console<'_, R, W>,
) -> Result<Counts, AllocError>
where
    S: Source + Drop,
    R: Eprint,
    W: Write,
    ensures { IfOk result (λ counts. (files : List (Wanted S))
        → AreFilesOf (entries_of lines.now) files
        → FilesToCome S.remaining S.fails_with files outcomes.old
        → AreDone S.remaining S.fails_with files outcomes.new (λ done. (count : ℕ)
        × IsChecked S.remaining S.fails_with W.contents options.now (take count lines.now) done
        counts console.old console.new
        × (IsNone console.new.failure → (take count lines.now ≡ lines.now) × (done ≡ files)))) }
{
    let mut counts = Counts::default();
    for line in lines {
        if console.has_failed() {
            return Ok(counts);
        }
        *known = known_after(*known, line);
        match line {
            Line::Bad(number) => {
                counts.bad_lines = counts.bad_lines.saturating_add(1);
                warn_of_line(alloc, options.amount, list, *number, *known, console)?;
            }
            Line::Entry(entry) => {
                let Ok(next) = outcomes.next_outcome() else {
                    return Err(AllocError);
                };
                let Some(outcome) = next else {
                    return Ok(counts);
                };
                counts.count(answer(alloc, options, entry, &outcome, console)?);
            }
        }
    }
    Ok(counts)
}

/// Warns of a count, where it is not 0.
fn warn<R: Eprint, W: Write>(
    alloc: Global,
    count: u64,
    one: &str,
    several: &str,
    console: &mut Console<'_, R, W>,
) -> Result<(), AllocError> {
    if count == 0 {
        return Ok(());
    }
    let words = if count == 1 { one } else { several };
    let text = format!(in alloc; "WARNING: {count} {words}")?;
    console.tell(text.as_bytes())
}

/// Warns of what a list was found to have.
fn warn_of<R: Eprint, W: Write>(
    alloc: Global,
    options: &Options,
    list: &[u8],
    counts: &Counts,
    console: &mut Console<'_, R, W>,
) -> Result<(), AllocError> {
    if counts.entries == 0 {
        return console.tell_of(list, b"no properly formatted checksum lines found");
    }
    if options.amount == Amount::Status {
        return Ok(());
    }
    for (count, one, several) in [
        (
            counts.bad_lines,
            "line is improperly formatted",
            "lines are improperly formatted",
        ),
        (
            counts.unread,
            "listed file could not be read",
            "listed files could not be read",
        ),
        (
            counts.others,
            "computed checksum did NOT match",
            "computed checksums did NOT match",
        ),
    ] {
        warn(alloc, count, one, several, console)?;
    }
    if options.ignores_missing && counts.same == 0 {
        console.tell_of(list, b"no file was verified")?;
    }
    Ok(())
}

/// Whether a list passes that was read to its end.
fn passes(options: &Options, counts: &Counts) -> bool
    ensures { IsTrue result ↔ Passes options.now counts.now }
{
    counts.same > 0
        && counts.others == 0
        && counts.unread == 0
        && (counts.bad_lines == 0 || !options.is_strict)
}

/// Tells of a list why it could not be read to its end, or what it was found to have, and returns
/// whether it passes.
fn conclude<R: Eprint, W: Write>(
    alloc: Global,
    options: &Options,
    list: &[u8],
    failure: &Option<io::Error>,
    counts: &Counts,
    console: &mut Console<'_, R, W>,
) -> Result<bool, AllocError>
    ensures { IfOk result (λ is_fine. IsTrue is_fine
        ↔ (IsNone failure.now × Passes options.now counts.now)) }
{
    if let Some(error) = failure {
        console.note(error);
        console.tell_of(list, b"read error")?;
        return Ok(false);
    }
    warn_of(alloc, options, list, counts, console)?;
    Ok(passes(options, counts))
}

/// What lists have shown, from one to the next.
#[derive(Clone, Copy)]
pub(crate) struct Seen {
    pub(crate) gap: Gap,
    /// The algorithm of the last file that is listed, or the one that is asked for.
    pub(crate) known: Option<Algorithm>,
}

/// A list, as messages name it.
#[derive(Drop)]
struct Name<'a> {
    shown: &'a [u8],
    is_standard_input: bool,
}

/// Says of each line of a part of a list what is found of its file. There are `number` lines before
/// it, to which those of the part are added.
fn check_part<R, W>(
    rt: &R,
    options: &Options,
    name: &Name<'_>,
    text: &[u8],
    number: &mut u64,
    seen: &mut Seen,
    console: &mut Console<'_, R, W>,
) -> Result<Counts, AllocError>
where
    R: Files + AllocGlobal + Clock + Eprint + Input,
    W: Write,
    requires { number.old + length text.now < 2 ^ 64 - 1 }
    ensures checked { IfOk result (λ counts. TextIsChecked
        ⟦<files::Source<'static, R> as Read>⟧.remaining
        ⟦<files::Source<'static, R> as Source>⟧.fails_with name_of W.contents options.now
        name.now.is_standard_input (number.old + 1) seen.old.gap seen.new.gap text.now counts
        console.old console.new) }
    ensures counted { OnOk result (number.new ≡ number.old + length (lines_in text.now)) }
{
    let alloc = rt.alloc();
    let gap = &mut seen.gap;
    let lines = lines_of(alloc, options, text, name.is_standard_input, number, gap)?;
    let wanted = files_of(rt, console.progress(), &lines)?;
    let mut outcomes = Outcomes::new(alloc, wanted);
    let known = &mut seen.known;
    let counts = check_lines(
        alloc,
        options,
        name.shown,
        &lines,
        &mut outcomes,
        known,
        console,
    )?;
    Ok(counts)
}

/// Says of each line of a list what is found of its file, part by part, and returns what it was
/// found to have, and why it could not be read to its end.
fn check_parts<L, R, W>(
    rt: &R,
    options: &Options,
    name: &Name<'_>,
    parts: &mut Parts<L>,
    seen: &mut Seen,
    console: &mut Console<'_, R, W>,
) -> Result<(Counts, Option<io::Error>), AllocError>
where
    L: Read,
    R: Files + AllocGlobal + Clock + Eprint + Input,
    W: Write,
    ensures { IfOk result (λ found. ListIsChecked
        ⟦<files::Source<'static, R> as Read>⟧.remaining
        ⟦<files::Source<'static, R> as Source>⟧.fails_with name_of W.contents options.now
        name.now.is_standard_input (left_of L.remaining parts.old) found.1 seen.old.gap
        seen.new.gap found.0 console.old console.new) }
{
    let mut counts = Counts::default();
    let mut number = 0_u64;
    'parts: for _ in 0..u64::MAX {
        let part = parts.next_part()?;
        if part.text.len() as u64 >= u64::MAX - number {
            return Ok((counts, Some(io::Error::from(ErrorKind::Other))));
        }
        let found = check_part(rt, options, name, &part.text, &mut number, seen, console)?;
        counts.add(&found);
        if part.is_last {
            return Ok((counts, part.failure));
        } else if console.has_failed() {
            return Ok((counts, None));
        }
    }
    Ok((counts, Some(io::Error::from(ErrorKind::Other))))
}

/// Reads a list, says of each of its files whether it has the listed digest, and returns whether
/// the list passes. Where a line cannot be written it does not, and nothing is told of it.
pub(crate) fn check_list<R, W>(
    rt: &R,
    options: &Options,
    name: &[u8],
    seen: &mut Seen,
    console: &mut Console<'_, R, W>,
) -> Result<bool, AllocError>
where
    R: Files + AllocGlobal + Clock + Eprint + Input,
    W: Write,
{
    let is_standard_input = name == b"-".as_slice();
    let shown: &[u8] = if is_standard_input {
        b"standard input"
    } else {
        name
    };
    let list = match files::open(rt, name) {
        Ok(list) => list,
        Err(error) => {
            console.tell_error(shown, &error)?;
            return Ok(false);
        }
    };
    let alloc = rt.alloc();
    let mut parts = Parts::new(alloc, list);
    let name = Name {
        shown,
        is_standard_input,
    };
    let (counts, failure) = check_parts(rt, options, &name, &mut parts, seen, console)?;
    if console.has_failed() {
        return Ok(false);
    }
    conclude(alloc, options, shown, &failure, &counts, console)
}
