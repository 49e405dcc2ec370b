// SPDX-License-Identifier: ISC
//! Comparison and exclusive or of byte slices. No loop branches on a byte.
//!
//! ```
//! pub fn is_same_token(given: &[u8], stored: &[u8]) -> bool
//!     ensures { IsTrue result ↔ (given.now ≡ stored.now) }
//! {
//!     verify_slices_are_equal(given, stored).is_ok()
//! }
//! ```
//!
//! The imports of this example stand in `crates/ring_examples/src/basics.rt`.

ghost use Rattle.std.specs.Prelude.{◌≡◌, ◌↔◌, IsOk, length, map};
ghost use Rattle.ring_core.specs.Prelude.{◌⊕◌, compared_pairs, raised, xor_lists};

use crate::cost::Meter;
use crate::error::Unspecified;

/// Compares `a` and `b` as [`verify_slices_are_equal`] does, and counts the compared pairs of bytes
/// on `meter`: as many as `a` has bytes where the lengths agree, equal or not, and none where the
/// lengths differ.
#[tactic(auto, using(crate::proofs::Costs::rises))]
pub fn verify_slices_are_equal_counted(
    a: &[u8],
    b: &[u8],
    meter: &mut Meter,
) -> Result<(), Unspecified>
    ensures ok { IsOk result ↔ (a.now ≡ b.now) }
    ensures cost { meter.new ≡ raised meter.old 0 (compared_pairs (length a.now) (length b.now)) }
{
    if a.len() != b.len() {
        return Err(Unspecified);
    }
    // No early exit: what the loop does depends on the length alone.
    let mut difference = 0;
    'pairs: for i in 0..a.len() {
        difference |= a[i] ^ b[i];
        meter.add_byte_pair();
    }
    if difference == 0 {
        Ok(())
    } else {
        Err(Unspecified)
    }
}

/// Returns Ok exactly if `a` and `b` are equal, length and bytes.
///
/// Refused where they differ.
pub fn verify_slices_are_equal(a: &[u8], b: &[u8]) -> Result<(), Unspecified>
    ensures ok { IsOk result ↔ (a.now ≡ b.now) }
{
    verify_slices_are_equal_counted(a, b, &mut Meter::new())
}

/// Replaces each byte of `a` by its exclusive or with `b`.
pub fn xor_assign(a: &mut [u8], b: u8)
    ensures { a.new ≡ map (λ x. x ⊕ b) a.old }
{
    'bytes: for i in 0..a.len() {
        a[i] ^= b;
    }
}

/// Replaces the bytes at the start of `a` by their exclusive or with those of `b`, up to the end of
/// the shorter slice.
#[tactic(auto, using(crate::proofs::Bytes::xors))]
pub fn xor_assign_at_start(a: &mut [u8], b: &[u8])
    ensures { a.new ≡ xor_lists a.old b.now }
{
    'pairs: for i in 0..a.len().min(b.len()) {
        a[i] ^= b[i];
    }
}
