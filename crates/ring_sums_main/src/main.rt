// SPDX-License-Identifier: ISC
//! Checksums of files; `docs/SUMS.md` has the options and the messages.
#![tactic(auto)]

use ring_sums::{Terminals, run};
use std::io::IsTerminal;
use std::process::ExitCode;

fn main(rt: HostRuntime) -> ExitCode {
    let terminals = Terminals {
        output: rt.stdout().is_terminal(),
        error: rt.stderr().is_terminal(),
    };
    ExitCode::from(run(&rt, terminals))
}
