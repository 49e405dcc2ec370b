// SPDX-License-Identifier: ISC
//! What is known of a reader once it is read.

use ring::digest::Digest;
use std::io;

/// How the reading of one reader ended.
#[derive(Drop)]
pub enum Outcome {
    /// The digest of all its bytes.
    Sum(Digest),
    /// It gave more bytes than the algorithm takes (FIPS 180-4, section 1, figure 1).
    TooLong,
    /// It could not be read to its end.
    Failed(io::Error),
}
