// SPDX-License-Identifier: ISC
//! The version of the calls and of the layout of contexts and keys.

ghost use Rattle.std.specs.Prelude.{◌≡◌};
ghost use Rattle.ring_c.specs.Version.{YZ_VERSION};

// The major, minor and patch number, in the upper 16 bits, the next 8 and the last 8. The major one
// rises where a caller must be compiled again.
pub(crate) const VERSION: u32 = 0x0000_0200;

/// The version that the library was built as, for a caller to compare with the header's.
#[unsafe(no_mangle)]
pub extern "C" fn yz_version() -> u32
    ensures { result ≡ YZ_VERSION }
{
    VERSION
}
