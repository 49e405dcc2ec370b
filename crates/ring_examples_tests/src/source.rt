// SPDX-License-Identifier: ISC
//! A source whose bytes are those of a list.

ghost use Rattle.std.specs.Prelude.{nat_le, length};
ghost use Rattle.std.proofs.Common.{leb-true};

use ring::error::Unspecified;
use ring::rand::SecureRandom;

/// A source over a list, which is ready for all bytes that are left.
#[derive(Drop)]
pub struct Listed<'a> {
    bytes: &'a [u8],
}

impl<'a> Listed<'a> {
    /// The source of all bytes of the list.
    pub fn new(bytes: &'a [u8]) -> Listed<'a> {
        Listed { bytes }
    }
}

impl SecureRandom for Listed<'_> {
    ghost left = { λ s. s.bytes.now };

    ghost ready = { λ s n. nat_le n (length s.bytes.now) };

    fn is_ready(&self, len: usize) -> bool {
        len <= self.bytes.len()
    }

    fn fill(&mut self, dest: &mut [u8]) -> Result<(), Unspecified> {
        let (taken, left) = self.bytes.split_at_checked(dest.len()).ok_or(Unspecified)?;
        dest.copy_from_slice(taken);
        self.bytes = left;
        Ok(())
    }

    ghost enough = { λ s n. leb-true n (length s.bytes.now) };
}
