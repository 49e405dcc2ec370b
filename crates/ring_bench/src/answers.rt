// SPDX-License-Identifier: ISC
//! Parses a line, runs it and formats the answer. How a run over lines ends stands here too.
ghost use Rattle.std.specs.Prelude.{◌≡◌, ◌++◌, OnOk, IfOk, IfErr, OnErr};
ghost use Rattle.std.specs.String.{string_bytes};
ghost use Rattle.ring_bench.specs.declared.answers.BenchError.TheVariants.{Memory};
ghost use Rattle.ring_bench.specs.Reply.{counted, ended, hex_of, kind, reply, text_of};
ghost use Rattle.ring_bench.specs.Request.{answer_of, response};

use crate::line::{self, Line, Request};
use crate::request::{self, Answer};
use std::alloc::{AllocError, Allocator};

/// What a line was.
#[derive(Clone, Copy, Debug, PartialEq, Eq)]
pub enum LineKind {
    /// An empty line or a comment, which is given no answer.
    Nothing,
    /// A line of the format, which is answered, also where a call refuses it.
    Answered,
    /// A line of another form.
    Bad,
}

/// How a run went that read to the end.
#[derive(Clone, Copy, Debug, PartialEq, Eq)]
pub enum Status {
    /// The text has no bad line.
    Clean,
    /// The text has a bad line.
    SomeBad,
}

/// Why a run stopped.
#[derive(Clone, Copy, Debug, PartialEq, Eq)]
pub enum BenchError {
    /// Out of memory.
    Memory,
    /// A read failed.
    Read,
    /// A write or the flush failed.
    Write,
}

/// A refused growth is `Memory`.
impl From<AllocError> for BenchError {
    ghost from_gives = { λ _ error. error ≡ Memory };

    fn from(_error: AllocError) -> BenchError {
        BenchError::Memory
    }
}

/// Appends the reply to `line` to `out` as [`answer`](crate::answer) does, with memory of any
/// allocator `alloc`. It is refused where a growth fails.
pub fn answer_in<A: Allocator + Copy, B: Allocator>(
    alloc: A,
    line: &[u8],
    out: &mut Vec<u8, B>,
) -> Result<LineKind, BenchError>
    ensures reply { OnOk result (out.new.items ≡ out.old.items ++ reply line.now) }
    ensures kind { IfOk result (λ found. found ≡ kind line.now) }
    ensures memory { IfErr result (λ error. error ≡ Memory) }
    ensures unchanged { OnErr result (out.new.items ≡ out.old.items) }
{
    match line::parse(alloc, line)? {
        Line::Nothing => Ok(LineKind::Nothing),
        Line::Bad => {
            append_ended(out, b"bad line")?;
            Ok(LineKind::Bad)
        }
        Line::Asks(request) => {
            append_response(alloc, &request, out)?;
            Ok(LineKind::Answered)
        }
    }
}

/// Adds the response to a request and a line feed, or nothing.
fn append_response<A: Allocator + Copy, B: Allocator>(
    alloc: A,
    request: &Request<A>,
    out: &mut Vec<u8, B>,
) -> Result<(), BenchError>
    ensures ok { OnOk result (out.new.items
        ≡ out.old.items ++ ended (text_of (answer_of request.now))) }
    ensures memory { IfErr result (λ error. error ≡ Memory) }
    ensures unchanged { OnErr result (out.new.items ≡ out.old.items) }
{
    let response = request::respond(alloc, request)?;
    let text = written(alloc, &response)?;
    append_ended(out, text.as_bytes())
}

/// Adds a text and a line feed at the end, or nothing.
fn append_ended<B: Allocator>(out: &mut Vec<u8, B>, text: &[u8]) -> Result<(), BenchError>
    ensures ok { OnOk result (out.new.items ≡ out.old.items ++ ended text.now) }
    ensures memory { IfErr result (λ error. error ≡ Memory) }
    ensures unchanged { OnErr result (out.new.items ≡ out.old.items) }
{
    out.reserve(text.len() + 1)?;
    out.extend_from_slice(text)?;
    out.push_reserved(b'\n');
    Ok(())
}

/// An answer as text.
fn written<A: Allocator + Copy>(alloc: A, answer: &Answer<A>) -> Result<String<A>, AllocError>
    ensures { IfOk result (λ text. string_bytes text ≡ text_of (response answer.now)) }
{
    match answer {
        Answer::Given(bytes, blocks) => with_count(alloc, hex_text(alloc, bytes)?, *blocks),
        Answer::Verified(same, blocks) => {
            let verdict = if *same { "match" } else { "mismatch" };
            with_count(alloc, String::from_str(alloc, verdict)?, *blocks)
        }
        Answer::Refused => String::from_str(alloc, "refused"),
    }
}

/// Bytes in lower case hex, or `-` for none.
fn hex_text<A: Allocator>(alloc: A, bytes: &[u8]) -> Result<String<A>, AllocError>
    ensures { IfOk result (λ text. string_bytes text ≡ hex_of bytes.now) }
{
    if bytes.is_empty() {
        return String::from_str(alloc, "-");
    }
    hex::encode(alloc, bytes)
}

/// The text, a space, and the number of blocks in decimal.
fn with_count<A: Allocator + Copy>(
    alloc: A,
    mut text: String<A>,
    blocks: u128,
) -> Result<String<A>, AllocError>
    ensures { IfOk result (λ line. string_bytes line ≡ string_bytes text ++ counted blocks) }
{
    text.push(' ')?;
    text.push_str(blocks.to_string(alloc)?.as_str())?;
    Ok(text)
}
