// SPDX-License-Identifier: ISC
//! Answers the lines of standard input on standard output, as the library `ring_bench` says.
//!
//! Answers are written together: where their room is full, before more of the text is read, and at
//! the end, before the status tells how it went.
//!
//! The exit status is 0 for a text without a bad line, 1 for a text with one, and 2 where the run
//! stopped, with the reason on standard error. Arguments are ignored.
#![tactic(auto)]

use crate::gatherer::{Gatherer, Input, Output};
use ring_bench::{BenchError, Status, outcome, run};
use std::alloc::Global;
use std::cell::RefCell;
use std::io::{Stdin, Stdout};
use std::process::ExitCode;

mod gatherer;

/// As `run`, over standard input and standard output.
fn run_gathered(alloc: Global, stdin: Stdin, stdout: Stdout) -> Result<Status, BenchError> {
    let answers = RefCell::new(Gatherer::new(stdout));
    let mut input = Input::new(stdin, &answers);
    let mut output = Output::new(&answers);
    let result = run(alloc, &mut input, &mut output);
    answers.into_inner().end(result)
}

fn main(rt: HostRuntime) -> ExitCode {
    let (status, text) = outcome(&run_gathered(rt.alloc(), rt.stdin(), rt.stdout()));
    if !text.is_empty() {
        // Where standard error fails too, the status still tells.
        let _ = eprintln!(rt; "{text}");
    }
    ExitCode::from(status)
}
