// SPDX-License-Identifier: ISC
//! Callers of `ring` and of crates above it, one small function a call, each proved from the
//! contracts alone. README's first use and the examples of the libraries' pages are from here.
#![tactic(auto)]

pub mod accounts;
pub mod basics;
pub mod digest;
pub mod hkdf;
pub mod hmac;
pub mod hotp;
pub mod laws;
pub mod merkle;
pub mod migration;
pub mod names;
pub mod pbkdf2;
pub mod pieces;
pub mod rand;
pub mod raw;
pub mod rows;
pub mod schemes;
pub mod several;
pub mod signed;
pub mod states;
pub mod store;
pub mod sums;
pub mod token;
pub mod verifiers;
pub mod wide;
