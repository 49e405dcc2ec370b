// SPDX-License-Identifier: ISC
//! The words of the block functions and their operations (FIPS 180-4, 3.2 and 4.1), for both sizes.

mod constants;
pub mod lanes;
mod traits;
pub(crate) mod w32;
pub(crate) mod w64;

pub use crate::digest::word::traits::{Sha2, Word};
