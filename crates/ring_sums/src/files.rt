// SPDX-License-Identifier: ISC
//! The files whose digests are asked for, each of which is opened when it is first read.

ghost use Rattle.std.specs.Prelude.{◌≡◌, Some, true};
ghost use Rattle.ring_sums.specs.Files.{name_of};

use crate::outcomes::Wanted;
use crate::progress::Progress;
use crate::source;
use ring::digest::Algorithm;
use std::io::{Eprint, ErrorKind, Input, Read};
use std::rt::{Clock, Files};
use std::{fs, io};

/// The name of standard input.
const STANDARD_INPUT: &[u8] = b"-";

/// What a file's bytes are read from. It is opened at the first read.
#[derive(Drop)]
pub(crate) enum Stream<'a, R: Files + Input> {
    Named(&'a R, &'a [u8]),
    File(R::File),
    /// Standard input, whose reader has a large room of its own and is made for each read.
    Input(&'a R),
}

/// A file that is read. What it gives is counted.
#[derive(Drop)]
pub(crate) struct Source<'a, R: Files + Input> {
    pub(crate) stream: Stream<'a, R>,
    rt: &'a R,
    progress: &'a Progress,
    /// How many bytes it has yet to give by the length that it had.
    rest: u64,
}

/// The path of a name.
fn path_of(name: &[u8]) -> io::Result<&str> {
    match std::str::from_utf8(name) {
        Ok(path) => Ok(path),
        Err(_) => Err(io::Error::new(ErrorKind::InvalidFilename, "the name is not UTF-8")),
    }
}

/// Opens a file, or standard input.
pub(crate) fn open<'a, R: Files + Input>(rt: &'a R, name: &[u8]) -> io::Result<Stream<'a, R>> {
    if name == STANDARD_INPUT {
        return Ok(Stream::Input(rt));
    }
    Ok(Stream::File(fs::open(rt, path_of(name)?)?))
}

impl<R: Files + Input> Read for Stream<'_, R> {
    fn read(&mut self, buf: &mut [u8]) -> io::Result<usize> {
        if let Stream::Named(rt, name) = self {
            *self = open(*rt, *name)?;
        }
        match self {
            Stream::File(file) => file.read(buf),
            Stream::Input(rt) => rt.reader().read(buf),
            Stream::Named(_, _) => Ok(0),
        }
    }
}

impl<R: Files + Clock + Eprint + Input> Source<'_, R> {
    /// Counts what a read gave.
    fn count(&mut self, given: &io::Result<usize>) {
        match given {
            Ok(count) if *count > 0 => self.progress.add(self.rt, &mut self.rest, *count),
            Err(error) if error.kind() == ErrorKind::Interrupted => {}
            _ => self.progress.end(&mut self.rest),
        }
    }
}

impl<R: Files + Clock + Eprint + Input> Read for Source<'_, R> {
    fn read(&mut self, buf: &mut [u8]) -> io::Result<usize> {
        let given = self.stream.read(buf);
        self.count(&given);
        given
    }
}

impl<R: Files + Clock + Eprint + Input> source::Source for Source<'_, R> {
    ghost fails_with = { λ _ _. true };

    fn read_piece(&mut self, buf: &mut [u8]) -> io::Result<usize> {
        self.read(buf)
    }
}

/// How many bytes a file has, or `None` of what has no length: standard input, pipes and devices.
/// What cannot be read has none.
fn len_of<R: Files>(rt: &R, name: &[u8]) -> Option<u64> {
    if name == STANDARD_INPUT {
        return None;
    }
    let Ok(path) = path_of(name) else {
        return Some(0);
    };
    match fs::metadata(rt, path) {
        Ok(metadata) if metadata.is_file() => Some(metadata.len()),
        Ok(metadata) if !metadata.is_dir() => None,
        _ => Some(0),
    }
}

/// A file by its name, of which the digest is asked for. One without a length is read with no other
/// beside it: standard input may be asked for twice, and whoever writes to a pipe may wait for
/// another to be read.
pub(crate) fn wanted_of<'a, R: Files + Input>(
    rt: &'a R,
    progress: &'a Progress,
    name: &'a [u8],
    algorithm: Algorithm,
) -> Wanted<Source<'a, R>>
    ensures algorithm { result.algorithm ≡ algorithm }
    ensures name { name_of result.reader ≡ Some name.now }
{
    let len = len_of(rt, name);
    progress.expect(len);
    Wanted {
        algorithm,
        reader: Source {
            stream: Stream::Named(rt, name),
            rt,
            progress,
            rest: len.unwrap_or(0),
        },
        is_alone: len.is_none(),
    }
}
