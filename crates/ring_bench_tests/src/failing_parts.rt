// SPDX-License-Identifier: ISC
//! Runs over readers and writers that fail.

use crate::lines::{ANSWERS, TEXT};
use crate::parts::{Choppy, Sink};
use ring_bench::{BenchError, Status, run};
use std::alloc::Global;
use std::io;
use std::test::Fail;

fn line_feeds(bytes: &[u8]) -> usize {
    bytes.iter().filter(|byte| **byte == b'\n').count()
}

// Whether these are the answers to the lines that end within the first `given` bytes of the text.
fn are_answers_to(got: &[u8], given: usize) -> bool {
    let Some(front) = TEXT.get(..given) else {
        return false;
    };
    let is_whole = got.is_empty() || got.ends_with(b"\n");
    is_whole && ANSWERS.starts_with(got) && line_feeds(got) == line_feeds(front)
}

// Whether a run whose reader fails behind `given` bytes says so, with the answers to what it had.
fn tells_a_failed_read(alloc: Global, given: u32) -> bool {
    let mut reader = Choppy::new(TEXT, 1, given.saturating_add(1));
    let mut writer = Sink::new(alloc, 4096, 0);
    let ended = run(alloc, &mut reader, &mut writer);
    let is_told = ended == Err(BenchError::Read) && writer.flushes == 0;
    is_told && are_answers_to(&writer.got, given as usize)
}

#[test]
fn a_failing_reader(rt: HostRuntime) {
    for given in 0..=TEXT.len() as u32 {
        assert!(rt; tells_a_failed_read(rt.alloc(), given), "after {given}");
    }
}

#[test]
fn an_interrupted_read_is_tried_again(rt: HostRuntime) {
    let mut reader = Choppy::new(TEXT, 7, 3);
    reader.kind = io::ErrorKind::Interrupted;
    let mut writer = Sink::new(rt.alloc(), 4096, 0);
    let ended = run(rt.alloc(), &mut reader, &mut writer);
    assert!(rt; ended == Ok(Status::Clean) && writer.got.as_slice() == ANSWERS);
}

// Whether a run over this writer tells that it failed.
fn tells_a_failed_write(alloc: Global, mut writer: Sink) -> bool {
    run(alloc, &mut Choppy::new(TEXT, 4096, 0), &mut writer) == Err(BenchError::Write)
}

#[test]
fn a_failing_writer(rt: HostRuntime) {
    for bad_call in 1..=ANSWERS.len() as u32 {
        let writer = Sink::new(rt.alloc(), 1, bad_call);
        assert!(rt; tells_a_failed_write(rt.alloc(), writer), "at {bad_call}");
    }
}

// A writer that takes no byte, and one whose flush fails.
#[test]
fn a_writer_that_takes_nothing(rt: HostRuntime) {
    let full = Sink::new(rt.alloc(), 0, 0);
    assert!(rt; tells_a_failed_write(rt.alloc(), full));
    let mut unflushed = Sink::new(rt.alloc(), 4096, 0);
    unflushed.bad_flush = true;
    assert!(rt; tells_a_failed_write(rt.alloc(), unflushed));
}
