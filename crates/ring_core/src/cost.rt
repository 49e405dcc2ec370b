// SPDX-License-Identifier: ISC
//! The meter, which counts the work of the block functions and of the comparison.
//!
//! A call whose name ends in `_counted` takes a `&mut Meter`, and its clause `cost` says by how
//! much both counts rise. Where a call has a plain form too, that has the same name without
//! `_counted`, and makes the counted call with a new meter.
//!
//! ```
//! pub fn blocks_of_digest(message: &[u8]) -> Result<u128, Unspecified>
//!     ensures ok { IfOk result (λ blocks. blocks ≡ padded_blocks SHA256 (length message.now)) }
//!     ensures refused { IsErr result ↔ (max_input_len SHA256 < length message.now) }
//! {
//!     let mut meter = Meter::new();
//!     let _ = digest_counted(&SHA256, message, &mut meter)?;
//!     Ok(meter.blocks())
//! }
//! ```
//!
//! The imports of this example stand in `crates/ring_examples/src/basics.rt`.

ghost use Rattle.std.specs.Prelude.{◌≡◌};
ghost use Rattle.ring_core.specs.Prelude.{raised};

use std::marker::Model;

/// Two counts of work: blocks that a block function ran over, and pairs of bytes that were
/// compared. Each stops at `u128::MAX`. A meter cannot be copied.
#[derive(Drop)]
pub struct Meter {
    blocks: u128,
    byte_pairs: u128,
}

impl Model for Meter {
    ghost use Rattle.ring_core.specs.Cost.{Counts};

    ghost Value = { Counts };

    ghost view = { λ m. record { blocks = m.blocks; byte_pairs = m.byte_pairs } };
}

impl Meter {
    /// A meter with both counts 0.
    pub fn new() -> Self
        ensures { result ≡ record { blocks = 0; byte_pairs = 0 } }
    {
        Meter {
            blocks: 0,
            byte_pairs: 0,
        }
    }

    /// The number of blocks that were run.
    pub fn blocks(&self) -> u128
        ensures { result ≡ self.now.blocks }
    {
        self.blocks
    }

    /// The number of pairs of bytes that were compared.
    pub fn byte_pairs(&self) -> u128
        ensures { result ≡ self.now.byte_pairs }
    {
        self.byte_pairs
    }

    // One block more.
    #[tactic(auto, unfolding(crate::specs::Cost::raised))]
    pub(crate) fn add_block(&mut self)
        ensures { self.new ≡ raised self.old 1 0 }
    {
        self.blocks = self.blocks.saturating_add(1);
    }

    // Adds `count` blocks.
    #[tactic(auto, unfolding(crate::specs::Cost::raised))]
    pub(crate) fn add_blocks(&mut self, count: usize)
        ensures { self.new ≡ raised self.old count 0 }
    {
        self.blocks = self.blocks.saturating_add(count as u128);
    }

    // One pair of bytes more.
    #[tactic(auto, unfolding(crate::specs::Cost::raised))]
    pub(crate) fn add_byte_pair(&mut self)
        ensures { self.new ≡ raised self.old 0 1 }
    {
        self.byte_pairs = self.byte_pairs.saturating_add(1);
    }
}
