// SPDX-License-Identifier: ISC
//! Runs over readers that give much or little, and answers with ample memory.

use crate::lines::{ANSWERS, HELLO, OF_HELLO, TEXT, repeated};
use crate::parts::{Choppy, Counting, Sink, Watchful};
use ring_bench::{LineKind, Status, answer, run};
use sha2::{Digest, Sha256};
use std::alloc::{AllocError, Global};
use std::cell::Cell;
use std::io;
use std::test::Fail;

// Whether a line is of this kind, and its answer comes behind what was there.
fn answers(alloc: Global, line: &[u8], kind: LineKind, want: &[u8]) -> Result<bool, AllocError> {
    let mut out = Vec::new(alloc);
    out.extend_from_slice(b"before")?;
    let told = answer(alloc, line, &mut out) == Ok(kind);
    Ok(told && out.strip_prefix(b"before") == Some(want))
}

#[test]
fn answers_with_ample_memory(rt: HostRuntime) -> Result<(), Fail> {
    assert!(rt; answers(rt.alloc(), HELLO, LineKind::Answered, OF_HELLO)?);
    assert!(rt; answers(rt.alloc(), b"", LineKind::Nothing, b"")?);
    assert!(rt; answers(rt.alloc(), b"# digest SHA256 -", LineKind::Nothing, b"")?);
    assert!(rt; answers(rt.alloc(), b"digest", LineKind::Bad, b"bad line\n")?);
    Ok(())
}

// Whether a run over the text ends well, and writes this alone.
fn runs_clean(alloc: Global, mut text: &[u8], want: &[u8]) -> bool {
    let mut out = Vec::new(alloc);
    run(alloc, &mut text, &mut out) == Ok(Status::Clean) && out.as_slice() == want
}

// The digest of 65,536 zero bytes, as another implementation gives it.
#[test]
fn a_line_of_131072_digits(rt: HostRuntime) -> Result<(), Fail> {
    let zeros = vec![in rt.alloc(); 0; 65_536]?;
    let digest = hex::encode(rt.alloc(), Sha256::digest(zeros.as_slice()).as_slice())?;
    let want = format!(in rt.alloc(); "{digest} 1025\n")?;
    let text = repeated(rt.alloc(), b"digest SHA256 ", b"00", 65_536)?;
    assert!(rt; runs_clean(rt.alloc(), &text, want.as_bytes()));
    Ok(())
}

// A million times the letter a: NIST's examples beside FIPS 180-4.
#[test]
fn a_line_of_two_million_digits(rt: HostRuntime) -> Result<(), Fail> {
    let want = b"34aa973cd4c4daa4f61eeb2bdbad27316534016f 15626\n";
    let text = repeated(rt.alloc(), b"digest SHA1 ", b"61", 1_000_000)?;
    assert!(rt; runs_clean(rt.alloc(), &text, want));
    Ok(())
}

// More reads than 16 bits count.
#[test]
fn seventy_thousand_reads_of_a_byte(rt: HostRuntime) -> Result<(), Fail> {
    let text = vec![in rt.alloc(); b'\n'; 70_000]?;
    let mut reader = Choppy::new(&text, 1, 0);
    let mut out = Vec::new(rt.alloc());
    let ended = run(rt.alloc(), &mut reader, &mut out);
    assert!(rt; ended == Ok(Status::Clean) && reader.calls == 70_001 && out.is_empty());
    Ok(())
}

// Whether a run answers the same where its reader gives `step` bytes and its writer takes as many,
// and flushes once, behind the last answer.
fn is_same_in_steps_of(alloc: Global, step: usize) -> bool {
    let mut writer = Sink::new(alloc, step, 0);
    let ended = run(alloc, &mut Choppy::new(TEXT, step, 0), &mut writer);
    let flushed_once = writer.flushes == 1 && writer.flushed == writer.got.len();
    ended == Ok(Status::Clean) && writer.got.as_slice() == ANSWERS && flushed_once
}

#[test]
fn any_pieces_give_the_same_answers(rt: HostRuntime) {
    for step in [1, 3, 16, 4096] {
        assert!(rt; is_same_in_steps_of(rt.alloc(), step));
    }
}

#[test]
fn answers_before_reading_on(rt: HostRuntime) {
    let written = Cell::new(0usize);
    let mut reader = Watchful {
        lines: &[
            (b"digest SHA256 -\n", 0),
            (b"# note\n", 67),
            (b"digest MD5 00\nh", 67),
            (b"mac\ndigest SHA256 -", 76),
            (b"\n", 85),
            (b"digest SHA256 -", 152),
        ],
        written: &written,
    };
    let mut writer = Counting { written: &written };
    let ended = run(rt.alloc(), &mut reader, &mut writer);
    assert!(rt; ended == Ok(Status::SomeBad) && written.get() == 219);
}
