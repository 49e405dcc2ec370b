// SPDX-License-Identifier: ISC
//! The block function of SHA-1 (FIPS 180-4, 6.1.2): of one message in `window`, `by_fours` and
//! `by_instruction`, of several side by side in `lanes`. `fastest` runs the fastest of the first
//! three.

mod arm;
mod by_fours;
mod by_instruction;
mod fastest;
mod lanes;
pub(crate) mod round;
mod window;
mod x86;

pub use crate::digest::sha1::fastest::{
    sha1_block_data_order_fastest_counted, sha1_block_of_words_fastest_counted,
};
pub use crate::digest::sha1::lanes::{
    sha1_block_data_order_lanes_counted, sha1_block_of_words_lanes_counted,
};
pub use crate::digest::sha1::window::{
    sha1_block_data_order, sha1_block_data_order_counted, sha1_block_of_words_counted,
};

/// The length in bytes of SHA-1's five chaining words.
pub const CHAINING_LEN: usize = 20;
