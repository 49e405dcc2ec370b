// SPDX-License-Identifier: ISC
//! Bytes that wait to be written, so that many answers are one write, and the reader and the writer
//! over them that a run wants.
ghost use Rattle.std.specs.Prelude.{◌≡◌, ◌↔◌, ◌≤◌, ◌+◌, ◌-◌, [], ◌++◌, IsTrue, IsFalse, IsErr};
ghost use Rattle.std.specs.Prelude.{OnOk, IfErr, length};
ghost use Rattle.std.specs.Io.{ReadsAtMost};
ghost use Rattle.std.specs.Io.KnownBytes.{Appends, ReadConsumes};
ghost use Rattle.ring_bench_main.specs.declared.gatherer.TheConstants.{ROOM};

use ring_bench::{BenchError, Status};
use std::cell::RefCell;
use std::io;
use std::io::{ErrorKind, Read, Stdin, Stdout, Write};

/// How many bytes wait at most: the answers to the short lines of one read mostly fit.
pub const ROOM: usize = 32_768;

/// The bytes that wait: the first `len`.
#[derive(Drop)]
pub struct Room {
    bytes: [u8; ROOM],
    len: usize,
    ghost within: { len ≤ ROOM },
}

impl Room {
    ghost use Rattle.ring_bench_main.specs.Room.{held, waits};

    /// Room in which nothing waits.
    pub fn new() -> Room
        ensures { held result ≡ 0 }
    {
        Room {
            bytes: [0; ROOM],
            len: 0,
        }
    }

    /// How many bytes more there is room for.
    pub fn left(&self) -> usize
        ensures { result ≡ ROOM - held self.now }
    {
        ROOM - self.len
    }

    /// The bytes that wait.
    pub fn as_slice(&self) -> &[u8]
        ensures { result.now ≡ waits self.now }
    {
        &self.bytes[..self.len]
    }

    /// Appends `bytes`.
    pub fn append(&mut self, bytes: &[u8])
        requires room { held self.old + length bytes.now ≤ ROOM }
        ensures { waits self.new ≡ waits self.old ++ bytes.now }
    {
        let end = self.len + bytes.len();
        self.bytes[self.len..end].copy_from_slice(bytes);
        self.len = end;
    }

    /// Nothing waits any more.
    pub fn clear(&mut self)
        ensures { held self.new ≡ 0 }
    {
        self.len = 0;
    }
}

/// A writer, and the bytes that wait for it.
#[derive(Drop)]
pub struct Gatherer<W> {
    writer: W,
    room: Room,
    /// Whether a write failed. Nothing is written from then on.
    has_failed: bool,
}

impl<W: Write> Gatherer<W> {
    ghost use Rattle.ring_bench_main.specs.Gatherer.{IsWrittenOut, all_of, has_failed};
    ghost use Rattle.ring_bench_main.specs.Gatherer.{held_back, waiting, writer_of};

    /// A gatherer for which nothing waits.
    pub fn new(writer: W) -> Gatherer<W>
        ensures writer { writer_of result ≡ writer }
        ensures nothing_waits { waiting result ≡ [] }
        ensures not_failed { IsFalse (has_failed result) }
    {
        Gatherer {
            writer,
            room: Room::new(),
            has_failed: false,
        }
    }

    /// Buffers `bytes`, and flushes first if they do not fit.
    pub fn gather(&mut self, bytes: &[u8]) -> Result<(), BenchError>
        ensures ok { OnOk result
            (Appends (all_of W.contents self.old) (all_of W.contents self.new) bytes.now) }
        ensures failed { IsErr result → IsTrue (has_failed self.new) }
        ensures write { IfErr result (λ error. error ≡ BenchError.Write) }
    {
        if bytes.len() > self.room.left() {
            self.write_out()?;
        }
        if bytes.len() > ROOM {
            return write_all(&mut self.writer, &mut self.has_failed, bytes);
        }
        self.room.append(bytes);
        Ok(())
    }

    /// Writes what waits, and then reads.
    pub fn read_behind<R: Read>(&mut self, reader: &mut R, buf: &mut [u8]) -> io::Result<usize>
        ensures written { IsFalse (has_failed self.new)
            → IsWrittenOut W.contents self.old self.new }
        ensures not_failed { OnOk result (IsFalse self.new.has_failed) }
        ensures bound { ReadsAtMost result buf.new }
        ensures bytes { ReadConsumes (R.remaining reader.old) (R.remaining reader.new)
            result buf.new }
    {
        if self.write_out().is_err() {
            return Err(io::Error::from(ErrorKind::Other));
        }
        self.read_on(reader, buf)
    }

    /// Flushes, and returns the result of the run, or `Write` if a write failed.
    pub fn end(&mut self, result_of_run: Result<Status, BenchError>) -> Result<Status, BenchError>
        ensures told { IsFalse (has_failed self.new) → result ≡ result_of_run }
        ensures written { IsFalse (has_failed self.new)
            → IsWrittenOut W.contents self.old self.new }
        ensures failed { IsTrue (has_failed self.new) → result ≡ Err BenchError.Write }
    {
        self.write_out().and(result_of_run)
    }

    /// Writes what waits.
    pub fn write_out(&mut self) -> Result<(), BenchError>
        ensures ok { OnOk result (IsWrittenOut W.contents self.old self.new) }
        ensures empty { OnOk result (held_back self.new ≡ 0) }
        ensures failed { IsErr result ↔ IsTrue (has_failed self.new) }
        ensures write { IfErr result (λ error. error ≡ BenchError.Write) }
        ensures unchanged { IsTrue (has_failed self.old) → writer_of self.new ≡ writer_of self.old }
    {
        write_all(&mut self.writer, &mut self.has_failed, self.room.as_slice())?;
        self.room.clear();
        Ok(())
    }

    /// Reads where nothing waits: who gave the text may wait for the answers before more of it.
    fn read_on<R: Read>(&self, reader: &mut R, buf: &mut [u8]) -> io::Result<usize>
        requires nothing_waits { held_back self.now ≡ 0 }
        ensures bound { ReadsAtMost result buf.new }
        ensures bytes { ReadConsumes (R.remaining reader.old) (R.remaining reader.new)
            result buf.new }
    {
        reader.read(buf)
    }
}

/// Writes all the bytes, but none where a write failed before.
fn write_all<W: Write>(
    writer: &mut W,
    has_failed: &mut bool,
    bytes: &[u8],
) -> Result<(), BenchError>
    ensures ok { OnOk result
        (Appends (W.contents writer.old) (W.contents writer.new) bytes.now) }
    ensures failed { IsErr result ↔ IsTrue has_failed.new }
    ensures write { IfErr result (λ error. error ≡ BenchError.Write) }
    ensures unchanged { IsTrue has_failed.old → writer.new ≡ writer.old }
{
    if *has_failed || writer.write_all(bytes).is_err() {
        *has_failed = true;
        return Err(BenchError::Write);
    }
    Ok(())
}

/// Standard input; each read first flushes the answers.
#[derive(Drop)]
pub struct Input<'a> {
    stdin: Stdin,
    answers: &'a RefCell<Gatherer<Stdout>>,
}

impl<'a> Input<'a> {
    /// Standard input, and the answers that go out before each read of it.
    pub fn new(stdin: Stdin, answers: &'a RefCell<Gatherer<Stdout>>) -> Input<'a> {
        Input { stdin, answers }
    }
}

impl Read for Input<'_> {
    fn read(&mut self, buf: &mut [u8]) -> io::Result<usize> {
        match self.answers.try_borrow_mut() {
            Ok(mut answers) => answers.read_behind(&mut self.stdin, buf),
            Err(_) => Err(io::Error::from(ErrorKind::Other)),
        }
    }
}

/// What gathers the answers for standard output.
#[derive(Drop)]
pub struct Output<'a> {
    answers: &'a RefCell<Gatherer<Stdout>>,
}

impl<'a> Output<'a> {
    /// A writer to these answers.
    pub fn new(answers: &'a RefCell<Gatherer<Stdout>>) -> Output<'a> {
        Output { answers }
    }
}

impl Write for Output<'_> {
    fn write(&mut self, buf: &[u8]) -> io::Result<usize> {
        match self.answers.try_borrow_mut() {
            Ok(mut answers) => {
                told(answers.gather(buf))?;
                Ok(buf.len())
            }
            Err(_) => Err(io::Error::from(ErrorKind::Other)),
        }
    }

    fn flush(&mut self) -> io::Result<()> {
        match self.answers.try_borrow_mut() {
            Ok(mut answers) => told(answers.write_out()),
            Err(_) => Err(io::Error::from(ErrorKind::Other)),
        }
    }
}

/// A failed write as an error of a stream.
fn told(written: Result<(), BenchError>) -> io::Result<()>
    ensures { IsErr result ↔ IsErr written }
{
    match written {
        Ok(()) => Ok(()),
        Err(_) => Err(io::Error::from(ErrorKind::Other)),
    }
}
