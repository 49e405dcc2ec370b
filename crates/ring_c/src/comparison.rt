// SPDX-License-Identifier: ISC
//! Comparison that reads every pair of bytes.

ghost use Rattle.std.specs.Prelude.{◌≡◌, ◌↔◌, IsTrue};

use ring::bb::verify_slices_are_equal;

/// Whether `a` and `b` are equal, length and bytes. Where the lengths agree, every pair of bytes is
/// read.
#[unsafe(no_mangle)]
pub extern "C" fn yz_equal(a: &[u8], b: &[u8]) -> bool
    ensures { IsTrue result ↔ (a.now ≡ b.now) }
{
    verify_slices_are_equal(a, b).is_ok()
}
