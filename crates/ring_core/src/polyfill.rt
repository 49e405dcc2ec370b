// SPDX-License-Identifier: ISC
//! Helpers on slices, and parts of Rust's standard library that Rattle's does not have yet.

pub mod slice;
