// SPDX-License-Identifier: ISC
//! The text of a password store of `ring_store`: [`to_text`] writes a store whole, and
//! [`from_text`] reads the same store back.
//!
//! ```
//! let text = to_text(alloc, store)?;
//! from_text(alloc, &text)
//! ```
//!
//! [`laws`] states what holds of stores and their texts. The example is a caller that the crate
//! `ring_examples` proves. It stands there with its imports, in `store.rt`.
#![tactic(auto)]

mod error;
pub mod laws;
mod saved;
mod text;

pub use crate::error::LoadError;
pub use crate::saved::{from_text, to_text};
