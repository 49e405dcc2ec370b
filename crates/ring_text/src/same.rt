// SPDX-License-Identifier: ISC
//! Whether two texts are the same.

ghost use Rattle.std.specs.Prelude.{◌≡◌, ◌↔◌, IsTrue};

/// Whether `one` and `other` have the same bytes. It ends at the first byte that differs, so its
/// time tells how far they agree: a secret is compared by `ring::bb` instead.
pub fn is_same(one: &[u8], other: &[u8]) -> bool
    ensures { IsTrue result ↔ one.now ≡ other.now }
{
    if one.len() != other.len() {
        return false;
    }
    for at in 0..one.len() {
        if one[at] != other[at] {
            return false;
        }
    }
    true
}
