// SPDX-License-Identifier: ISC
//! Memory that is overwritten with zeros.

ghost use Rattle.std.specs.Prelude.{◌≡◌, length, replicate};

/// Writes zeros over all of `bytes`: a key, a context or an output that held a secret. This is
/// never refused.
#[unsafe(no_mangle)]
pub extern "C" fn yz_clear(bytes: &mut [u8])
    ensures { bytes.new ≡ replicate (length bytes.old) 0 }
{
    bytes.fill(0);
}
