// SPDX-License-Identifier: ISC
//! Lines of test vectors for `ring`, and the answers to them.
//!
//! `docs/LINES.md` describes the lines, the answers and how a program over these calls ends. The
//! definitions `line_of` and `reply` (`specs/`) are that format. Here the second line answers the
//! first:
//!
//! ```text
//! digest SHA256 68656c6c6f,2c20,776f726c64
//! 09ca7e4eaa6e8ae9c7d261167129184883644d07dfba7cbfbc4c8a2e08360d5b 1
//! ```
#![tactic(auto)]

ghost use Rattle.std.specs.Prelude.{◌≡◌, ◌++◌, OnOk, IfOk, IfErr, OnErr};
ghost use Rattle.ring_bench.specs.Reply.{reply, kind};
ghost use Rattle.ring_bench.specs.Outcome.{exit_status, error_text};
ghost use Rattle.ring_bench.specs.Run.{Runs};

use std::alloc::{Allocator, Global};
use std::io::{ErrorKind, Read, Write};

mod algorithm;
mod answers;
mod cut;
mod digits;
mod field;
mod line;
mod request;
mod session;

pub use crate::answers::{BenchError, LineKind, Status, answer_in};
use crate::session::Session;

/// How many bytes a run asks its reader for at once.
const BUFFER_LEN: usize = 4096;

/// Appends the reply to `line` to `out`, and returns what the line was. Memory comes from `alloc`.
///
/// `line` has no line feed and no carriage return at its end. Its reply is its answer and a line
/// feed, or nothing where a line is given no answer.
///
/// Refused where a growth fails, with `Memory` and no other error. `out` is then unchanged.
pub fn answer(alloc: Global, line: &[u8], out: &mut Vec<u8>) -> Result<LineKind, BenchError>
    ensures reply { OnOk result (out.new.items ≡ out.old.items ++ reply line.now) }
    ensures kind { IfOk result (λ found. found ≡ kind line.now) }
    ensures memory { IfErr result (λ error. error ≡ BenchError.Memory) }
    ensures unchanged { OnErr result (out.new.items ≡ out.old.items) }
{
    answer_in(alloc, line, out)
}

/// Reads all of `reader`, and writes the reply to each line to `writer` before it looks at the next
/// line. Memory comes from `alloc`.
///
/// - Ok follows one flush, and says whether the text has a bad line.
/// - `Memory`: a growth was refused at a line. The replies to the lines before it are written.
/// - `Read`: a read failed, or the reader had not ended after `u64::MAX` reads. The replies to some
///   first lines are written, each of which a line feed had ended.
/// - `Write`: a write or the flush failed, or the writer took none of the bytes offered. Nothing is
///   said about what is written.
///
/// An interrupted read is tried again. The empty text takes no memory.
pub fn run<R: Read, W: Write>(
    alloc: Global,
    reader: &mut R,
    writer: &mut W,
) -> Result<Status, BenchError>
    ensures { Runs (R.remaining reader.old) (R.remaining reader.new) (W.contents writer.old)
        (W.contents writer.new) result }
{
    run_in(alloc, reader, writer)
}

/// Answers the text of `reader` as [`run`] does, with memory of any allocator `alloc`. The replies
/// go to `writer`, and it is refused where [`run`] is.
pub fn run_in<A: Allocator + Copy, R: Read, W: Write>(
    alloc: A,
    reader: &mut R,
    writer: &mut W,
) -> Result<Status, BenchError>
    ensures { Runs (R.remaining reader.old) (R.remaining reader.new) (W.contents writer.old)
        (W.contents writer.new) result }
{
    let mut session = Session::new(alloc);
    let mut buffer = [0u8; BUFFER_LEN];
    for _ in 0..u64::MAX {
        match reader.read(&mut buffer) {
            Ok(0) => return session.finish(writer),
            Ok(count) => session.feed(writer, &buffer[..count])?,
            Err(error) => {
                if error.kind() != ErrorKind::Interrupted {
                    return Err(BenchError::Read);
                }
            }
        }
    }
    Err(BenchError::Read)
}

/// The exit status of a program for `result_of_run`, the result of its [`run`], and its line for
/// standard error without a line feed.
///
/// The status is 0 for a run without a bad line, 1 for a run with one, and 2 for a run that
/// stopped. The line is empty where the run did not stop.
pub fn outcome(result_of_run: &Result<Status, BenchError>) -> (u8, &'static str)
    ensures status { result.0 ≡ exit_status result_of_run.now }
    ensures text { result.1.now ≡ error_text result_of_run.now }
{
    match result_of_run {
        Ok(Status::Clean) => (0, ""),
        Ok(Status::SomeBad) => (1, ""),
        Err(BenchError::Memory) => (2, "ring_bench: out of memory"),
        Err(BenchError::Read) => (2, "ring_bench: read failed"),
        Err(BenchError::Write) => (2, "ring_bench: write failed"),
    }
}
