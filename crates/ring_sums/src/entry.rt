// SPDX-License-Identifier: ISC
//! What a line of a list says.

ghost use Rattle.std.specs.Prelude.{◌≡◌, ℕ, List, IfOk, not};
ghost use Rattle.std.specs.Prelude.{Contains, option_copied, option_map, position};
ghost use Rattle.std.specs.Char.{is_ascii_hexdigit};
ghost use Rattle.ring.specs.declared.digest.algorithm.Algorithm.{Algorithm};
ghost use Rattle.ring_sums.specs.Entry.{Finds, HasPlainForm, HasTaggedForm, IsLastCut};
ghost use Rattle.ring_sums.specs.Entry.{IsReading, IsVerdict, Reading, algorithm_of_count};
ghost use Rattle.ring_sums.specs.Entry.{algorithms_read, behind_backslash, behind_space};
ghost use Rattle.ring_sums.specs.Entry.{behind_white, digest_in, gap_after, gap_shown, is_marked};
ghost use Rattle.ring_sums.specs.Entry.{is_white, listed_by, listed_in, listed_with, name_in};
ghost use Rattle.ring_sums.specs.Entry.{named_by, tag_of, with_digits};

use crate::names::unescaped;
use crate::outcome::Outcome;
use memchr::memrchr;
use ring::digest::{ALGORITHMS, Algorithm, SHA1_FOR_LEGACY_USE_ONLY, SHA256, SHA384, SHA512};
use ring_text::after;
use std::alloc::{AllocError, Global};

/// A file that a list has, and the digest that it lists.
#[derive(Drop)]
pub struct Entry {
    pub algorithm: Algorithm,
    pub listed: Vec<u8>,
    pub name: Vec<u8>,
}

/// What is found of an entry.
#[derive(Clone, Copy, PartialEq, Eq)]
pub enum Verdict {
    /// The digest of the file's bytes is the listed one.
    Same,
    /// It is another.
    Other,
    /// The file could not be read.
    Unread,
}

/// The verdict on a listed digest.
pub fn verdict_of(outcome: &Outcome, listed: &[u8]) -> Verdict
    ensures { IsVerdict outcome.now listed.now result }
{
    match outcome {
        Outcome::Sum(digest) => {
            if digest.as_ref() == listed {
                Verdict::Same
            } else {
                Verdict::Other
            }
        }
        _ => Verdict::Unread,
    }
}

/// The name of an algorithm in a tagged line.
pub(crate) fn tag_of(algorithm: &Algorithm) -> &'static str
    ensures { result.now ≡ tag_of algorithm.now }
{
    if *algorithm == SHA1_FOR_LEGACY_USE_ONLY {
        "SHA1"
    } else if *algorithm == SHA256 {
        "SHA256"
    } else if *algorithm == SHA384 {
        "SHA384"
    } else if *algorithm == SHA512 {
        "SHA512"
    } else {
        "SHA512/256"
    }
}

/// A name, as a line with escapes or without them has it.
#[tactic(auto, unfolding(crate::specs::Entry::name_in))]
fn name_read(alloc: Global, name: &[u8], is_escaped: bool) -> Result<Option<Vec<u8>>, AllocError>
    ensures { IfOk result (λ read. option_map (λ v. v.items) read ≡ name_in is_escaped name.now) }
{
    if is_escaped {
        unescaped(alloc, name)
    } else {
        Ok(Some(name.to_vec(alloc)?))
    }
}

/// The bytes of as many digits as a digest of the algorithm has.
#[tactic(auto, unfolding(crate::specs::Entry::digest_in))]
fn digest_read(
    alloc: Global,
    algorithm: &Algorithm,
    digits: &[u8],
) -> Result<Option<Vec<u8>>, AllocError>
    ensures { IfOk result (λ read. option_map (λ v. v.items) read
        ≡ digest_in algorithm.now digits.now) }
{
    let mut listed = vec![in alloc; 0; algorithm.output_len()]?;
    if hex::decode_to_slice(digits, &mut listed).is_err() {
        return Ok(None);
    }
    Ok(Some(listed))
}

/// An entry with these digits and this name.
#[tactic(auto, unfolding(crate::specs::Entry::listed_with))]
fn entry_with(
    alloc: Global,
    algorithm: Algorithm,
    digits: &[u8],
    name: &[u8],
    is_escaped: bool,
) -> Result<Option<Entry>, AllocError>
    ensures { IfOk result (λ entry. option_map listed_by entry
        ≡ listed_with algorithm digits.now name.now is_escaped) }
{
    let Some(name) = name_read(alloc, name, is_escaped)? else {
        return Ok(None);
    };
    let Some(listed) = digest_read(alloc, &algorithm, digits)? else {
        return Ok(None);
    };
    Ok(Some(Entry {
        algorithm,
        listed,
        name,
    }))
}

fn is_white(byte: u8) -> bool
    ensures { result ≡ is_white byte }
{
    byte == b' ' || byte == b'\t'
}

/// The place of the first byte that is neither a space nor a tab.
fn place_of_text(bytes: &[u8]) -> Option<usize>
    ensures { result ≡ position (λ byte. not (is_white byte)) bytes.now }
{
    bytes.iter().position(|byte| !is_white(*byte))
}

/// Bytes without the spaces and tabs at their start.
fn without_white(bytes: &[u8]) -> &[u8]
    ensures { result.now ≡ behind_white bytes.now }
{
    match place_of_text(bytes) {
        Some(place) => &bytes[place..],
        None => &[],
    }
}

/// What is before and behind the last such byte.
pub(crate) fn cut_at_last(byte: u8, line: &[u8]) -> Option<(&[u8], &[u8])>
    ensures { Finds {X = List ℕ × List ℕ} (option_map (λ cut. (cut.0.now, cut.1.now)) result)
        (λ cut. IsLastCut byte line.now cut.0 cut.1) }
{
    match memrchr(byte, line) {
        Some(place) => Some((&line[..place], &line[place + 1..])),
        None => None,
    }
}

/// How many digits a line begins with, if it has more bytes.
fn digit_count(line: &[u8]) -> Option<usize>
    ensures { result ≡ position (λ byte. not (is_ascii_hexdigit byte)) line.now }
{
    line.iter().position(|byte| !byte.is_ascii_hexdigit())
}

/// The first algorithm of so many digits.
fn algorithm_of_count(count: usize) -> Option<Algorithm>
    ensures { result ≡ algorithm_of_count count }
{
    ALGORITHMS
        .iter()
        .copied()
        .find(|algorithm| 2 * algorithm.output_len() == count)
}

/// How many characters stand between digits and names. The first line with digits in front shows
/// it.
#[derive(Clone, Copy, PartialEq, Eq)]
pub enum Gap {
    Unknown,
    /// A space, and then the name.
    One,
    /// A space, a mark, and then the name.
    Two,
}

/// The gap of a list, behind a line whose name has a mark or none.
fn gap_shown(gap: Gap, is_marked: bool) -> Gap
    ensures { result ≡ gap_shown gap is_marked }
{
    match gap {
        Gap::Unknown => { if is_marked { Gap::Two } else { Gap::One } }
        known => known,
    }
}

/// Whether a mark stands before the name.
#[tactic(auto, unfolding(crate::specs::Entry::is_marked))]
fn is_marked(rest: &[u8]) -> bool
    ensures { result ≡ is_marked rest.now }
{
    rest.len() >= 2 && (rest[0] == b' ' || rest[0] == b'*')
}

/// The name behind the digits and a space, or `None` where lines before have another gap.
#[tactic(auto, unfolding(crate::specs::Entry::named_by, crate::specs::Entry::is_marked))]
fn name_behind<'a>(rest: &'a [u8], gap: &mut Gap) -> Option<&'a [u8]>
    ensures name { option_copied result ≡ named_by gap.old rest.now }
    ensures gap { gap.new ≡ gap_shown gap.old (is_marked rest.now) }
{
    let is_marked = is_marked(rest);
    *gap = gap_shown(*gap, is_marked);
    match *gap {
        Gap::One => Some(rest),
        _ if is_marked => Some(&rest[1..]),
        _ => None,
    }
}

/// The algorithm of a line that begins with the digest, the digits, and what is behind the space
/// after them.
fn plain_parts(asked: Option<Algorithm>, line: &[u8]) -> Option<(Algorithm, &[u8], &[u8])>
    ensures { Finds {X = Algorithm × List ℕ × List ℕ}
        (option_map (λ parts. (parts.0, parts.1.now, parts.2.now)) result)
        (λ parts. HasPlainForm asked line.now parts.0 parts.1 parts.2) }
{
    let len = digit_count(line)?;
    let algorithm = asked.or(algorithm_of_count(len))?;
    if len != 2 * algorithm.output_len() {
        return None;
    }
    if line.len() < len + 2 {
        return None;
    }
    if !is_white(line[len]) {
        return None;
    }
    Some((algorithm, &line[..len], &line[len + 1..]))
}

/// The entry of a line that begins with these digits.
#[tactic(auto, unfolding(crate::specs::Entry::listed_in))]
fn plain_entry(
    alloc: Global,
    algorithm: Algorithm,
    digits: &[u8],
    rest: &[u8],
    is_escaped: bool,
    gap: &mut Gap,
) -> Result<Option<Entry>, AllocError>
    ensures entry { IfOk result (λ entry. option_map listed_by entry
        ≡ listed_in gap.old is_escaped (with_digits algorithm digits.now rest.now)) }
    ensures gap { gap.new ≡ gap_shown gap.old (is_marked rest.now) }
{
    match name_behind(rest, gap) {
        Some(name) => entry_with(alloc, algorithm, digits, name, is_escaped),
        None => Ok(None),
    }
}

/// Bytes without the one space that may begin them.
fn behind_space(line: &[u8]) -> &[u8]
    ensures { result.now ≡ behind_space line.now }
{
    match after(line, b" ") {
        Some(rest) => rest,
        None => line,
    }
}

/// The name and the digits of a line in BSD's style, behind the tag: ` (NAME) = DIGITS`.
fn tagged_parts<'a>(line: &'a [u8], tag: &[u8]) -> Option<(&'a [u8], &'a [u8])>
    ensures { Finds {X = List ℕ × List ℕ} (option_map (λ parts. (parts.0.now, parts.1.now)) result)
        (λ parts. HasTaggedForm line.now tag.now parts.0 parts.1) }
{
    let inner = after(behind_space(after(line, tag)?), b"(")?;
    let (name, rest) = cut_at_last(b')', inner)?;
    let digits = after(without_white(rest), b"=")?;
    Some((name, without_white(digits)))
}

/// The first of the algorithms whose tag a line begins with, the name and the digits.
fn tagged_among<'a>(
    algorithms: &[Algorithm],
    line: &'a [u8],
) -> Option<(Algorithm, &'a [u8], &'a [u8])>
    ensures { Finds {X = Algorithm × List ℕ × List ℕ}
        (option_map (λ parts. (parts.0, parts.1.now, parts.2.now)) result)
        (λ parts. Contains algorithms.now parts.0
        × HasTaggedForm line.now (tag_of parts.0) parts.1 parts.2) }
{
    for algorithm in algorithms {
        if let Some((name, digits)) = tagged_parts(line, tag_of(algorithm).as_bytes()) {
            return Some((*algorithm, name, digits));
        }
    }
    None
}

/// The algorithm whose tag a line begins with, the name and the digits.
fn tagged(asked: Option<Algorithm>, line: &[u8]) -> Option<(Algorithm, &[u8], &[u8])>
    ensures { Finds {X = Algorithm × List ℕ × List ℕ}
        (option_map (λ parts. (parts.0, parts.1.now, parts.2.now)) result)
        (λ parts. Contains (algorithms_read asked) parts.0
        × HasTaggedForm line.now (tag_of parts.0) parts.1 parts.2) }
{
    match asked {
        Some(algorithm) => tagged_among(&[algorithm], line),
        None => tagged_among(&ALGORITHMS, line),
    }
}

/// Whether a line begins with a backslash, and what is behind it.
fn behind_backslash(line: &[u8]) -> (bool, &[u8])
    ensures { behind_backslash line.now ≡ (result.0, result.1.now) }
{
    match after(line, b"\\") {
        Some(rest) => (true, rest),
        None => (false, line),
    }
}

/// The entry of a line, which has no line feed, or `None` where it has not the form of one.
pub fn entry_of_line(
    alloc: Global,
    asked: Option<Algorithm>,
    line: &[u8],
    gap: &mut Gap,
) -> Result<Option<Entry>, AllocError>
    ensures { (reading : Reading) × IsReading asked line.now reading
        × IfOk result (λ entry. option_map listed_by entry
        ≡ listed_in gap.old reading.is_escaped reading.shape)
        × (gap.new ≡ gap_after gap.old reading.shape) }
{
    let (is_escaped, line) = behind_backslash(without_white(line));
    if let Some((algorithm, name, digits)) = tagged(asked, line) {
        return entry_with(alloc, algorithm, digits, name, is_escaped);
    }
    match plain_parts(asked, line) {
        Some((algorithm, digits, rest)) => {
            plain_entry(alloc, algorithm, digits, rest, is_escaped, gap)
        }
        None => Ok(None),
    }
}
