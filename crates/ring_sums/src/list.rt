// SPDX-License-Identifier: ISC
//! A list, line by line.

ghost use Rattle.std.specs.Prelude.{◌≡◌, ◌+◌, ◌-◌, ◌^◌, ◌<◌, ◌&&◌, IfOk, OnOk, codes, length, map};
ghost use Rattle.std.specs.Prelude.{option_map};
ghost use Rattle.std.specs.Str.{bytes_eq};
ghost use Rattle.ring_sums.specs.Entry.{listed_by};
ghost use Rattle.ring_sums.specs.List.{IsAppended, LinesSay, TextSays, is_passed_over, lines_in};
ghost use Rattle.ring_sums.specs.List.{said_by, said_of, without_return};

use crate::entry::{Entry, Gap, entry_of_line};
use crate::options::Options;
use ring::digest::Algorithm;
use ring_text::cut_at;
use std::alloc::{AllocError, Global};

/// A line of a list that is neither empty nor a comment.
#[derive(Drop)]
pub(crate) enum Line {
    Entry(Entry),
    /// The number of a line that has not the form of one.
    Bad(u64),
}

/// A line without its carriage return.
#[tactic(auto, unfolding(crate::specs::List::without_return))]
fn without_return(line: &[u8]) -> &[u8]
    ensures { result.now ≡ without_return line.now }
{
    line.strip_suffix(b"\r").unwrap_or(line)
}

/// Whether nothing is read of a line.
#[tactic(auto, unfolding(crate::specs::List::is_passed_over))]
fn is_passed_over(line: &[u8]) -> bool
    ensures { result ≡ is_passed_over line.now }
{
    line.is_empty() || line[0] == b'#'
}

/// Whether a list lists itself: it is on standard input, for which the name stands.
fn lists_itself(is_standard_input: bool, name: &[u8]) -> bool
    ensures { result ≡ (is_standard_input && bytes_eq name.now (codes "-")) }
{
    is_standard_input && *name == *b"-".as_slice()
}

/// What a line says of which this entry is read.
#[tactic(auto, unfolding(crate::specs::List::said_of))]
fn said(entry: Option<Entry>, number: u64, is_standard_input: bool) -> Line
    ensures { said_by result ≡ said_of (option_map listed_by entry) number is_standard_input }
{
    let Some(entry) = entry else {
        return Line::Bad(number);
    };
    if lists_itself(is_standard_input, &entry.name) {
        return Line::Bad(number);
    }
    Line::Entry(entry)
}

/// What a line says that is neither empty nor a comment.
fn line_said(
    alloc: Global,
    asked: Option<Algorithm>,
    line: &[u8],
    number: u64,
    is_standard_input: bool,
    gap: &mut Gap,
) -> Result<Line, AllocError>
    ensures { IfOk result (λ said. TextSays asked is_standard_input number gap.old line.now
        (said_by said) gap.new) }
{
    let entry = entry_of_line(alloc, asked, line, gap)?;
    Ok(said(entry, number, is_standard_input))
}

/// Appends what a line says, if it says something.
fn append_line(
    lines: &mut Vec<Line>,
    asked: Option<Algorithm>,
    line: &[u8],
    number: u64,
    is_standard_input: bool,
    gap: &mut Gap,
) -> Result<(), AllocError>
    ensures { OnOk result (IsAppended asked is_standard_input number gap.old gap.new line.now
        (map said_by lines.old.items) (map said_by lines.new.items)) }
{
    let line = without_return(line);
    if is_passed_over(line) {
        return Ok(());
    }
    let alloc: Global = *lines.allocator();
    lines.push(line_said(alloc, asked, line, number, is_standard_input, gap)?)?;
    Ok(())
}

/// The lines of a part of a list, behind `number` lines of it, to which they are added.
pub(crate) fn lines_of(
    alloc: Global,
    options: &Options,
    text: &[u8],
    is_standard_input: bool,
    number: &mut u64,
    gap: &mut Gap,
) -> Result<Vec<Line>, AllocError>
    requires { number.old + length text.now < 2 ^ 64 - 1 }
    ensures says { IfOk result (λ lines. LinesSay options.now.algorithm is_standard_input
        (number.old + 1) gap.old (lines_in text.now) (map said_by lines.items) gap.new) }
    ensures counted { OnOk result (number.new ≡ number.old + length (lines_in text.now)) }
{
    let asked = options.algorithm;
    let mut lines = Vec::new(alloc);
    let mut rest = text;
    'cuts: while let Some((line, behind)) = cut_at(rest, b'\n') {
        *number += 1;
        append_line(&mut lines, asked, line, *number, is_standard_input, gap)?;
        rest = behind;
    }
    *number += 1;
    append_line(&mut lines, asked, rest, *number, is_standard_input, gap)?;
    Ok(lines)
}
