// SPDX-License-Identifier: ISC
//! Which passwords are to be prepared for PostgreSQL's scheme (RFC 5802, section 2.2).

ghost use Rattle.std.specs.Prelude.{◌↔◌, IsTrue};
ghost use Rattle.std.specs.Str.{IsAscii};

/// Whether `password` has to be prepared by SASLprep (RFC 4013) before it comes to a scheme of
/// [`Scheme::Postgresql`](crate::Scheme::Postgresql): whether it has a byte past ASCII. PostgreSQL
/// takes a password of ASCII bytes as it is. The other schemes derive from any bytes.
pub fn needs_preparation(password: &[u8]) -> bool
    ensures { IsTrue result ↔ ¬ (IsAscii password.now) }
{
    !password.is_ascii()
}
