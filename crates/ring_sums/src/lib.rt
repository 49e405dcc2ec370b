// SPDX-License-Identifier: ISC
//! Checksums of files: digests of what readers give, side by side, and the lines that list them.
#![tactic(auto)]

mod about;
mod amounts;
mod check;
mod console;
mod entry;
#[cfg(test)]
mod failing_steps;
mod files;
mod found;
mod lane;
mod lanes;
pub mod laws;
mod line;
mod list;
mod listing;
#[cfg(test)]
mod memory;
mod names;
mod options;
mod outcome;
mod outcomes;
mod parts;
mod piece;
mod program;
mod progress;
mod quote;
mod source;
mod steps;
mod sums;
mod system;
mod tree;
mod wide;

pub use crate::outcome::Outcome;
pub use crate::outcomes::{Outcomes, Wanted};
pub use crate::program::{Terminals, run};
pub use crate::source::Source;
pub use crate::sums::Sums;
