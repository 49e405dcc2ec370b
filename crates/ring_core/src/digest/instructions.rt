// SPDX-License-Identifier: ISC
//! The processors' instructions for SHA-1 and SHA-256, each as a function that gives the same. A
//! build for a processor that has them may put the instructions in the place of these functions.

pub mod arm;
mod sha256;
pub(crate) mod vector;
pub mod x86;
