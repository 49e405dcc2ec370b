// SPDX-License-Identifier: ISC
//! Answers lines on password hashes, for `tests/password_hashes.py`, on key schedules, for
//! `tests/schedules.py`, on trees of transparency logs, for `tests/merkle.py`, and on tokens,
//! one-time passwords and webhooks, for `tests/tokens.py`. Each module's `match` has the forms of
//! its lines, `words` those of a line's words: bytes, for one, are hex digits, or `-` for none.
//!
//! An answer is what the line asks for, the line of the error that refused it, `refused` where the
//! error has none, or `bad line`. Empty lines and those with a `#` at their start have none.
#![tactic(auto)]

use crate::answer::answer;
use crate::fault::Fault;
use std::alloc::{AllocError, Global};
use std::io;
use std::io::{BufRead, BufReader};

mod answer;
mod fault;
mod password_hashes;
mod schedules;
mod tokens;
mod trees;
mod words;

/// The text of an answer.
fn text_of(alloc: Global, answer: Result<String, Fault>) -> Result<String, AllocError> {
    match answer {
        Ok(text) => Ok(text),
        Err(Fault::BadLine) => String::from_str(alloc, "bad line"),
        Err(Fault::Hash(error)) => format!(in alloc; "{error}"),
        Err(Fault::Token(error)) => format!(in alloc; "{error}"),
        Err(Fault::Refused) => String::from_str(alloc, "refused"),
        Err(Fault::Memory) => String::from_str(alloc, "out of memory"),
    }
}

fn main(rt: HostRuntime) -> io::Result<()> {
    for line in BufReader::new(rt.alloc(), rt.reader())?.lines(rt.alloc()) {
        let line = line?;
        if line.is_empty() || line.starts_with('#') {
            continue;
        }
        let answered = answer(rt.alloc(), line.as_str());
        let text = text_of(rt.alloc(), answered)?;
        println!(rt; "{text}")?;
    }
    Ok(())
}
