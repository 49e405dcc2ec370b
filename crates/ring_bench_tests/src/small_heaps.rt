// SPDX-License-Identifier: ISC
//! Runs and answers over heaps of fixed sizes.

use crate::lines::{ANSWERS, HELLO, OF_HELLO, OF_NOTHING, TAG, TEXT, repeated};
use crate::parts::Choppy;
use linked_list_allocator::LocalHeap;
use ring_bench::{BenchError, Status, answer_in, run_in};
use std::alloc::{AllocError, Global};
use std::test::Fail;

// Lines of all kinds of answers, with those: RFC 4231, 4.2, RFC 5869, A.1, and RFC 6070, section 2.
const ROWS: [(&[u8], &[u8]); 6] = [
    (
        b"digest SHA256 -",
        b"e3b0c44298fc1c149afbf4c8996fb92427ae41e4649b934ca495991b7852b855 1\n",
    ),
    (HELLO, OF_HELLO),
    (
        b"hmac SHA256 0b0b0b0b0b0b0b0b0b0b0b0b0b0b0b0b0b0b0b0b 4869,20,5468657265",
        TAG,
    ),
    (
        b"hmac-verify SHA256 0b0b0b0b0b0b0b0b0b0b0b0b0b0b0b0b0b0b0b0b 4869,20,5468657265 \
        b0344c61d8db38535ca8afceaf0bf12b881dc200c9833da726e9376c2e32cff7",
        b"match 4\n",
    ),
    (
        b"hkdf SHA256 000102030405060708090a0b0c 0b0b0b0b0b0b0b0b0b0b0b0b0b0b0b0b0b0b0b0b0b0b \
        f0f1f2f3f4f5f6f7f8f9 42",
        b"3cb25f25faacd57a90434f64d0362f2a2d2d0a90cf1a5a4c5db02d56ecc4c5bf\
        34007208d5b887185865 10\n",
    ),
    (
        b"pbkdf2 SHA1 1 70617373776f7264 73616c74 20",
        b"0c60c80f961f0e71f3a9b524af6012062fe037a6 4\n",
    ),
];

// How a call ended on a small heap.
#[derive(Clone, Copy, PartialEq, Eq)]
enum End {
    Well,
    Refused,
    Wrong,
}

// How an answer ends on a heap of `size` bytes: whole, or told as want of memory with nothing
// added.
fn answer_on(alloc: Global, size: usize, line: &[u8], want: &[u8]) -> Result<End, AllocError> {
    let heap = LocalHeap::new(alloc, size)?;
    let mut out = Vec::new(alloc);
    out.extend_from_slice(b"before")?;
    let ended = answer_in(&heap, line, &mut out);
    Ok(match (ended, out.strip_prefix(b"before")) {
        (Ok(_), Some(added)) if added == want => End::Well,
        (Err(BenchError::Memory), Some([])) => End::Refused,
        _ => End::Wrong,
    })
}

// How a run ends on a heap of `size` bytes: with all answers, or told as want of memory with whole
// answers, the first ones.
fn run_on(alloc: Global, size: usize) -> Result<End, AllocError> {
    let heap = LocalHeap::new(alloc, size)?;
    let mut out = Vec::with_capacity(alloc, ANSWERS.len())?;
    let ended = run_in(&heap, &mut Choppy::new(TEXT, 4096, 0), &mut out);
    let is_whole = out.is_empty() || out.ends_with(b"\n");
    Ok(match ended {
        Ok(Status::Clean) if out.as_slice() == ANSWERS => End::Well,
        Err(BenchError::Memory) if is_whole && is_front(&out) => End::Refused,
        _ => End::Wrong,
    })
}

fn is_front(bytes: &[u8]) -> bool {
    ANSWERS.starts_with(bytes) && bytes.len() < ANSWERS.len()
}

// How many calls ended so.
fn count(ends: &[End], wanted: End) -> usize {
    ends.iter().filter(|end| **end == wanted).count()
}

// How calls on heaps of each size ended, from none on: none wrong, and several in both other ways,
// since each size refuses another request.
fn are_right(ends: &[End]) -> bool {
    count(ends, End::Wrong) == 0 && count(ends, End::Refused) > 5 && count(ends, End::Well) > 10
}

#[test]
fn small_heaps_in_answer(rt: HostRuntime) -> Result<(), Fail> {
    for (line, want) in ROWS {
        let mut ends = [End::Wrong; 200];
        for size in 0usize..200 {
            ends[size] = answer_on(rt.alloc(), size * 16, line, want)?;
        }
        assert!(rt; are_right(&ends));
    }
    Ok(())
}

#[test]
fn small_heaps_in_run(rt: HostRuntime) -> Result<(), Fail> {
    let mut ends = [End::Wrong; 200];
    for size in 0usize..200 {
        ends[size] = run_on(rt.alloc(), size * 16)?;
    }
    assert!(rt; are_right(&ends));
    Ok(())
}

// Over the empty text a run needs no memory, and writes nothing.
#[test]
fn no_heap_for_the_empty_text(rt: HostRuntime) -> Result<(), Fail> {
    let heap = LocalHeap::new(rt.alloc(), 0)?;
    let mut out = Vec::new(rt.alloc());
    let ended = run_in(&heap, &mut Choppy::new(b"", 1, 0), &mut out);
    assert!(rt; ended == Ok(Status::Clean) && out.is_empty());
    Ok(())
}

// What is kept of a text is its open line, and want of memory is told at the line that is too long:
// the answers to all lines before it are written.
#[test]
fn only_the_open_line_is_kept(rt: HostRuntime) -> Result<(), Fail> {
    let heap = LocalHeap::new(rt.alloc(), 4096)?;
    let mut text = repeated(rt.alloc(), b"", b"digest SHA256 -\n", 1000)?;
    let answers = repeated(rt.alloc(), b"", OF_NOTHING, 1000)?;
    let mut out = Vec::new(rt.alloc());
    let ended = run_in(&heap, &mut text.as_slice(), &mut out);
    assert!(rt; ended == Ok(Status::Clean) && out.as_slice() == answers.as_slice());
    text.extend_from_slice(&repeated(rt.alloc(), b"digest SHA256 ", b"00", 4096)?)?;
    let mut out = Vec::new(rt.alloc());
    let ended = run_in(&heap, &mut text.as_slice(), &mut out);
    assert!(rt; ended == Err(BenchError::Memory) && out.as_slice() == answers.as_slice());
    Ok(())
}
