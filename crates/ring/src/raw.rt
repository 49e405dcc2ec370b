// SPDX-License-Identifier: ISC
//! Contexts and keys as plain numbers, for callers that keep them in memory of their own, as those
//! in C do.
//!
//! A [`RawContext`], a [`RawKey`] and a [`RawTagContext`] are made from a value of
//! [`digest`](crate::digest) or [`hmac`](crate::hmac), and give that value back. `update_counted`
//! and `finish_counted` work on the numbers themselves.
//!
//! A caller may write other numbers in their place, so each call takes any. It returns `None`
//! exactly where no value has their algorithm and counts (`IsNoContext`, `IsNoKey` and
//! `IsNoTagContext`). Otherwise they are those of a value, whose digest or tag follows from its
//! words and pending bytes (the clauses `any`).

pub(crate) mod context;
pub(crate) mod key;
pub(crate) mod tag_context;
mod words;

pub use crate::digest::algorithm::{digest_of_number, number_of_digest};
pub use crate::raw::context::RawContext;
pub use crate::raw::key::RawKey;
pub use crate::raw::tag_context::RawTagContext;
