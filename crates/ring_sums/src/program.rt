// SPDX-License-Identifier: ISC
//! The program over any files, arguments and standard streams.

ghost use Rattle.std.specs.Prelude.{◌≡◌, ◌≢◌, ◌↔◌, IfOk, IsFalse, IsNone, IsTrue, Ok, Some};
ghost use Rattle.std.specs.Prelude.{map, true};
ghost use Rattle.ring_sums.specs.Files.{name_of};

use crate::about::{HELP, VERSION};
use crate::check::{Seen, check_list};
use crate::console::Console;
use crate::entry::Gap;
use crate::files::{Source, wanted_of};
use crate::listing::list;
use crate::options::{Misuse, Options, Request, names_from, option_name, request_of};
use crate::outcomes::{Outcomes, Wanted};
use crate::progress::Progress;
use crate::quote::joined;
use crate::tree::files_of;
use ring::digest::{ALGORITHMS, Algorithm, SHA256};
use std::alloc::{AllocError, Global};
use std::env::FillError;
use std::io;
use std::io::{Eprint, Input, Print, Write};
use std::rt::{Clock, Env, Files};

/// The name of the program where it is called by none.
const NAME: &[u8] = b"sums";

/// The status of a run that went well.
const SUCCESS: u8 = 0;

/// The status of one that did not.
const FAILURE: u8 = 1;

/// How many bytes an argument is given at first.
const FIRST_ROOM: usize = 256;

/// Which of the standard streams are terminals.
#[derive(Clone, Copy)]
pub struct Terminals {
    /// Standard output.
    pub output: bool,
    /// Standard error.
    pub error: bool,
}

/// An argument, or `None` past the last one.
fn argument<R: Env>(rt: &R, alloc: Global, place: usize) -> Result<Option<Vec<u8>>, AllocError> {
    let mut room = FIRST_ROOM;
    for _ in 0..usize::BITS {
        let mut bytes = vec![in alloc; 0; room]?;
        match rt.arg(place, &mut bytes) {
            Ok(len) => {
                bytes.truncate(len);
                return Ok(Some(bytes));
            }
            Err(FillError::NotPresent) => return Ok(None),
            Err(FillError::TooLong) => room = room.saturating_mul(2),
        }
    }
    Err(AllocError)
}

/// The arguments, the program's name first.
fn arguments<R: Env>(rt: &R, alloc: Global) -> Result<Vec<Vec<u8>>, AllocError> {
    let mut words = Vec::new(alloc);
    for place in 0..usize::MAX {
        match argument(rt, alloc, place)? {
            Some(word) => words.push(word)?,
            None => break,
        }
    }
    Ok(words)
}

/// The files of these names, of which digests under `algorithm` are asked for.
fn files_named<'a, R: Files + AllocGlobal + Input>(
    rt: &'a R,
    progress: &'a Progress,
    names: &'a [&'a [u8]],
    algorithm: Algorithm,
) -> Result<Vec<Wanted<Source<'a, R>>>, AllocError>
    ensures algorithm { IfOk result (λ wanted. map (λ file. file.algorithm) wanted.items
        ≡ map (λ name. algorithm) names.now) }
    ensures names { IfOk result (λ wanted. map (λ file. name_of file.reader) wanted.items
        ≡ map (λ name. Some name.now) names.now) }
{
    let mut wanted = Vec::new(rt.alloc());
    for name in names {
        wanted.push(wanted_of(rt, progress, *name, algorithm))?;
    }
    Ok(wanted)
}

/// Writes the line of each file, up to one that cannot be written, and returns whether all before
/// could be read.
fn list_names<R, W>(
    rt: &R,
    options: &Options,
    names: &[&[u8]],
    console: &mut Console<'_, R, W>,
) -> Result<bool, AllocError>
where
    R: Files + AllocGlobal + Clock + Eprint + Input,
    W: Write,
{
    let algorithm = options.algorithm.unwrap_or(SHA256);
    let wanted = files_named(rt, console.progress(), names, algorithm)?;
    let mut outcomes = Outcomes::new(rt.alloc(), wanted);
    list(rt.alloc(), options, names, &mut outcomes, console)
}

/// Tells why the arguments ask for nothing.
fn refuse<R: Eprint, W: Write>(
    alloc: Global,
    misuse: Misuse,
    word: &[u8],
    console: &mut Console<'_, R, W>,
) -> Result<(), AllocError> {
    console.tell(&refusal_text(alloc, misuse, word)?)?;
    let advice: &[u8] = b" --help' for more information.";
    console.show(&joined(alloc, &[b"Try '", console.program(), advice])?)
}

/// What is wrong with the arguments.
fn refusal_text(alloc: Global, misuse: Misuse, word: &[u8]) -> Result<Vec<u8>, AllocError> {
    let (front, behind) = match misuse {
        Misuse::Unrecognized => ("unrecognized option '--", "'"),
        Misuse::Ambiguous => return ambiguous_text(alloc, word),
        Misuse::ValueOf => ("option '--", "' doesn't allow an argument"),
        Misuse::Invalid => ("invalid option -- '", "'"),
        Misuse::LetterLacks => ("option requires an argument -- '", "'"),
        Misuse::NameLacks => ("option '--", "' requires an argument"),
        Misuse::NoAlgorithm => return no_algorithm_text(alloc, word),
        Misuse::TaggedText => ("", " does not support --text mode"),
        Misuse::InChecks => ("the ", " when verifying checksums"),
        Misuse::OnlyInChecks => {
            (
                "the ",
                " option is meaningful only when verifying checksums",
            )
        }
    };
    joined(alloc, &[front.as_bytes(), word, behind.as_bytes()])
}

/// That a value names no algorithm, and the names of all.
fn no_algorithm_text(alloc: Global, word: &[u8]) -> Result<Vec<u8>, AllocError> {
    let behind: &[u8] = b"' for '--algorithm'\nValid arguments are:";
    let mut text = joined(alloc, &[b"invalid argument '", word, behind])?;
    for algorithm in &ALGORITHMS {
        let name = option_name(alloc, algorithm)?;
        text.extend_from_slice(&joined(alloc, &[b"\n  - '", &name, b"'"])?)?;
    }
    Ok(text)
}

/// That a word is the front of several long options.
fn ambiguous_text(alloc: Global, word: &[u8]) -> Result<Vec<u8>, AllocError> {
    let mut text = joined(
        alloc,
        &[b"option '--", word, b"' is ambiguous; possibilities:"],
    )?;
    let front = match word.iter().position(|byte| *byte == b'=') {
        Some(place) => &word[..place],
        None => word,
    };
    for name in &names_from(alloc, front)? {
        text.extend_from_slice(&joined(alloc, &[b" '--", name, b"'"])?)?;
    }
    Ok(text)
}

/// Writes the help.
fn help<R: Eprint, W: Write>(
    alloc: Global,
    console: &mut Console<'_, R, W>,
) -> Result<(), AllocError> {
    let program = console.program();
    let usage: &[u8] = b" [OPTION]... [FILE]...\n";
    console.write(&joined(alloc, &[b"Usage: ", program, usage, HELP.as_bytes()])?);
    Ok(())
}

/// Does what is asked of files.
fn run_files<R, W>(
    rt: &R,
    options: &Options,
    operands: Vec<&[u8]>,
    console: &mut Console<'_, R, W>,
) -> Result<bool, AllocError>
where
    R: Files + AllocGlobal + Clock + Eprint + Input,
    W: Write,
{
    let mut operands = operands;
    if operands.is_empty() {
        operands.push(b"-")?;
    }
    if options.is_recursive {
        let (files, is_whole) = files_of(rt, &operands, console)?;
        let mut names: Vec<&[u8]> = Vec::new(rt.alloc());
        for file in &files {
            names.push(file)?;
        }
        return Ok(list_names(rt, options, &names, console)? && is_whole);
    }
    if !options.does_check {
        return list_names(rt, options, &operands, console);
    }
    let mut is_fine = true;
    let mut seen = Seen {
        gap: Gap::Unknown,
        known: options.algorithm,
    };
    for name in &operands {
        // Behind a line that could not be written no list is read.
        is_fine = !console.has_failed()
            && check_list(rt, options, *name, &mut seen, console)?
            && is_fine;
    }
    Ok(is_fine)
}

/// Whether a run went well: its files did, each line could be written, and standard input was open
/// where it was asked for.
fn end<R: Eprint, W: Write>(
    console: &mut Console<'_, R, W>,
    is_fine: bool,
) -> Result<bool, AllocError>
    ensures { IfOk result (λ went_well. IsTrue went_well ↔ (IsTrue is_fine
        × IsNone console.old.failure × IsFalse console.old.is_input_closed)) }
{
    Ok(console.end()? && is_fine)
}

/// Does what the arguments ask for, and returns whether it went well.
fn run_words<R>(rt: &R, terminals: Terminals) -> Result<bool, AllocError>
where
    R: Files + AllocGlobal + Clock + Env + Print + Eprint + Input,
{
    let alloc = rt.alloc();
    let words = arguments(rt, alloc)?;
    let program = match words.first() {
        Some(word) => word.to_vec(alloc)?,
        None => NAME.to_vec(alloc)?,
    };
    let words = words.get(1..).unwrap_or(&[]);
    let progress = Progress::new(alloc);
    let out = io::writer(rt);
    let mut console = Console::new(rt, alloc, &program, out, &progress, terminals.output);
    let is_fine = match request_of(alloc, &program, words)? {
        Request::Help => {
            help(alloc, &mut console)?;
            true
        }
        Request::Version => {
            console.write(VERSION.as_bytes());
            true
        }
        Request::Refused(misuse, word) => {
            refuse(alloc, misuse, word, &mut console)?;
            false
        }
        Request::Files(options, operands) => {
            if terminals.error && options.shows_progress {
                progress.start();
            }
            run_files(rt, &options, operands, &mut console)?
        }
    };
    end(&mut console, is_fine)
}

/// The status of a run that went so.
fn status_of(went_well: &Result<bool, AllocError>) -> u8
    ensures well { (result ≡ 0) ↔ (went_well.now ≡ Ok true) }
    ensures other { result ≢ 0 → result ≡ 1 }
{
    match went_well {
        Ok(true) => SUCCESS,
        _ => FAILURE,
    }
}

/// Tells that there is no memory, which takes none. A long name of the program is not told.
fn tell_of_memory<R: Env + Eprint>(rt: &R) {
    let mut room = [0; FIRST_ROOM];
    let name = match rt.arg(0, &mut room) {
        Ok(len) => room.get(..len).unwrap_or(NAME),
        Err(_) => NAME,
    };
    let name = std::str::from_utf8(name).unwrap_or("sums");
    let _ = rt.eprintln(format_args!("{name}: memory exhausted"));
}

/// Does what the arguments of `rt` ask for, and returns the status: 0 where all went well, else 1.
/// `terminals` says which of the standard streams are terminals.
pub fn run<R>(rt: &R, terminals: Terminals) -> u8
where
    R: Files + AllocGlobal + Clock + Env + Print + Eprint + Input,
    ensures status { result ≢ 0 → result ≡ 1 }
{
    let went_well = run_words(rt, terminals);
    if went_well.is_err() {
        tell_of_memory(rt);
    }
    status_of(&went_well)
}
