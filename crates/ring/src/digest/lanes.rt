// SPDX-License-Identifier: ISC
//! Messages or contexts of one algorithm side by side, one in each lane.

pub(crate) mod algorithms;
pub(crate) mod blocks;
