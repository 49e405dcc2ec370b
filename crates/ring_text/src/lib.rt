// SPDX-License-Identifier: ISC
//! The fields of a line of text, as the crates above read and write them: each stands before a byte
//! that ends it, as a colon or a space, and is read in one way alone.
//!
//! A number has no leading zero and no sign, and hex has its letters in lower case. So a text that
//! was read is written again byte for byte.
#![tactic(auto)]

mod count;
mod cut;
mod lower_hex;
mod number;
mod same;

pub use crate::count::{append_count, append_number, count_before, count_in};
pub use crate::cut::{after, cut_at};
pub use crate::lower_hex::fill_from_hex;
pub use crate::number::number_in;
pub use crate::same::is_same;
