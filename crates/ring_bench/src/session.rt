// SPDX-License-Identifier: ISC
//! A run between two reads.
ghost use Rattle.std.specs.Prelude.{◌≡◌, ◌≢◌, ◌++◌, [], ◌∷◌, ◌<◌, length, OnOk, IfOk, IfErr};
ghost use Rattle.std.specs.Prelude.{IsErrOf};
ghost use Rattle.std.specs.Io.KnownBytes.{Appends, Keeps};
ghost use Rattle.ring_bench.specs.Text.{lines, replies, status_after, without_return};
ghost use Rattle.ring_bench.specs.Reply.{reply};
ghost use Rattle.ring_bench.specs.Session.{HasNoLineFeed, Fed, Stopped};

use crate::answers::{BenchError, LineKind, Status, answer_in};
use crate::cut::cut_at;
use std::alloc::Allocator;
use std::io::Write;

/// The line without the one carriage return that may stand at its end.
fn strip_return(line: &[u8]) -> &[u8]
    ensures { result.now ≡ without_return line.now }
{
    match line {
        [front @ .., b'\r'] => front,
        _ => line,
    }
}

/// What a run keeps between two reads.
#[derive(Drop)]
pub struct Session<A: Allocator> {
    alloc: A,
    /// What has come of the line that is open.
    line: Vec<u8, A>,
    /// Room for a reply.
    reply: Vec<u8, A>,
    status: Status,
}

impl<A: Allocator + Copy> Session<A> {
    /// A session in which nothing has come.
    pub fn new(alloc: A) -> Session<A>
        ensures line { result.line.items ≡ [] }
        ensures status { result.status ≡ Status.Clean }
    {
        Session {
            alloc,
            line: Vec::new(alloc),
            reply: Vec::new(alloc),
            status: Status::Clean,
        }
    }

    /// Takes the next piece of the text, and answers each line that is whole now.
    pub fn feed<W: Write>(&mut self, writer: &mut W, piece: &[u8]) -> Result<(), BenchError>
        requires { HasNoLineFeed self.old.line.items }
        ensures ok { OnOk result (Fed (self.old.line.items ++ piece.now) self.new.line.items
            self.old.status self.new.status (W.contents writer.old) (W.contents writer.new)) }
        ensures memory { IsErrOf result BenchError.Memory →
            Stopped (self.old.line.items ++ piece.now) self.old.status
            (W.contents writer.old) (W.contents writer.new) }
        ensures no_read { IfErr result (λ error. error ≢ BenchError.Read) }
    {
        let mut rest = piece;
        'lines: while let Some((front, behind)) = cut_at(rest, b'\n') {
            self.append(front)?;
            self.end_line(writer)?;
            rest = behind;
        }
        if rest.is_empty() {
            return Ok(());
        }
        self.append(rest)
    }

    /// Answers the line that is still open, if it isn't empty.
    pub fn finish<W: Write>(mut self, writer: &mut W) -> Result<Status, BenchError>
        requires { HasNoLineFeed self.line.items }
        ensures ok { IfOk result (λ status. Appends (W.contents writer.old) (W.contents writer.new)
            (replies (lines self.line.items))
            × (status ≡ status_after self.status (lines self.line.items))) }
        ensures memory { IsErrOf result BenchError.Memory →
            Keeps (W.contents writer.old) (W.contents writer.new) }
        ensures line { IsErrOf result BenchError.Memory → 0 < length self.line.items }
        ensures no_read { IfErr result (λ error. error ≢ BenchError.Read) }
    {
        if !self.line.is_empty() {
            self.end_line(writer)?;
        }
        if writer.flush().is_err() {
            return Err(BenchError::Write);
        }
        Ok(self.status)
    }

    /// Adds bytes to the line.
    fn append(&mut self, bytes: &[u8]) -> Result<(), BenchError>
        ensures ok { OnOk result (self.new.line.items ≡ self.old.line.items ++ bytes.now) }
        ensures status { self.new.status ≡ self.old.status }
        ensures memory { IfErr result (λ error. error ≡ BenchError.Memory) }
    {
        self.line.extend_from_slice(bytes)?;
        Ok(())
    }

    /// Answers the line, and begins another.
    fn end_line<W: Write>(&mut self, writer: &mut W) -> Result<(), BenchError>
        ensures line { OnOk result (self.new.line.items ≡ []) }
        ensures written { OnOk result (Appends (W.contents writer.old) (W.contents writer.new)
            (reply (without_return self.old.line.items))) }
        ensures status { OnOk result (self.new.status
            ≡ status_after self.old.status (without_return self.old.line.items ∷ [])) }
        ensures memory { IsErrOf result BenchError.Memory →
            Keeps (W.contents writer.old) (W.contents writer.new) }
        ensures no_read { IfErr result (λ error. error ≢ BenchError.Read) }
    {
        self.reply.clear();
        let line = strip_return(&self.line);
        if answer_in(self.alloc, line, &mut self.reply)? == LineKind::Bad {
            self.status = Status::SomeBad;
        }
        self.line.clear();
        if self.reply.is_empty() {
            return Ok(());
        }
        match writer.write_all(&self.reply) {
            Ok(()) => Ok(()),
            Err(_) => Err(BenchError::Write),
        }
    }
}
