// SPDX-License-Identifier: ISC
//! What the crate `ring` is built on.
//!
//! - [`digest`]: the block functions of SHA-1 and SHA-2 (FIPS 180-4).
//! - [`cost`]: the meter, which counts blocks and compared pairs of bytes.
//! - [`bb`]: comparison and exclusive or of byte slices.
//! - [`bits`]: lengths in bits.
//! - [`polyfill`]: slices as chunks of one length, and bytes written into a slice.
//! - [`error`]: the errors.
//!
//! The modules' examples are callers that the crate `ring_examples` proves. They stand there with
//! their imports.
#![tactic(auto)]

pub mod bb;
pub mod bits;
pub mod cost;
pub mod digest;
pub mod error;
pub mod polyfill;
