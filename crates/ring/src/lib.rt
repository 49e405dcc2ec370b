// SPDX-License-Identifier: ISC
//! Digests, HMAC, HKDF and PBKDF2, with the names and the behaviour of the Rust crate `ring`
//! 0.17.14.
//!
//! Each call is proved to give the standard's bytes and to be refused exactly at its limits, and
//! each counted form to run exactly the blocks that its clause `cost` says.
//!
//! - [`digest`]: SHA-1 and algorithms of SHA-2 (FIPS 180-4).
//! - [`hmac`]: keys, tags and their verification (RFC 2104).
//! - [`hkdf`]: keys derived from secrets (RFC 5869).
//! - [`pbkdf2`]: keys derived from passwords (RFC 2898).
//! - [`rand`]: byte sources that the caller implements, and values made of their bytes.
//! - [`raw`]: contexts and keys as plain numbers.
//! - [`width`]: how wide the vectors are over which several messages or rounds run at once.
//! - [`laws`]: facts that relate several calls.
//!
//! A call whose name ends in `_counted` does what the call without that ending does, and counts its
//! work on a [`cost::Meter`]. A refused call answers `Err(Unspecified)` and leaves its outputs as
//! they were.
//!
//! The modules' examples are callers that the crate `ring_examples` proves. They stand there with
//! their imports.
#![tactic(auto)]

pub mod digest;
pub mod hkdf;
pub mod hmac;
mod joined;
pub mod laws;
mod limits;
pub mod pbkdf2;
pub mod rand;
pub mod raw;
pub mod width;

pub use ring_core::{bb, bb as constant_time, bits, cost, error, polyfill};
