// SPDX-License-Identifier: ISC
//! Work that `c/speed` times and C can't call: block functions, contexts that are updated at
//! once, the digests of the kit's crates, and the store.
//!
//! - `ring_speed_run` does one piece of work so many times, each time on what the time before gave,
//!   and gives a number that rests on all of it.
//! - `ring_speed_verify` sets a password, and verifies a name that has a record, or has none.
#![tactic(auto)]

mod blocks;
mod contexts;
mod hash;
mod kit;
mod message;
mod verifications;
mod work;
