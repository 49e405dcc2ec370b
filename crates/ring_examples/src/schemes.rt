// SPDX-License-Identifier: ISC
//! Schemes by their names, and what the table has of them.

ghost use Rattle.std.specs.Prelude.{◌≡◌, ◌≢◌, ◌↔◌, true, Some, IsTrue};
ghost use Rattle.std.specs.Str.{IsAscii};
ghost use Rattle.ring_password_hash.specs.Scheme.{keeps_keys, name_of};
ghost use Rattle.ring_password_hash.specs.declared.scheme.Scheme.{Scheme};

use ring_password_hash::laws::one_name_is_of_one_scheme;
use ring_password_hash::{Scheme, needs_preparation};

/// The scheme that an option's word names, or `usual` where it names none.
pub fn scheme_or(word: &str, usual: Scheme) -> Scheme
    ensures named { (scheme : Scheme) → word.now ≡ name_of scheme → result ≡ scheme }
    ensures usual { ((scheme : Scheme) → word.now ≢ name_of scheme) → result ≡ usual }
{
    one_name_is_of_one_scheme();
    match Scheme::named(word) {
        Some(scheme) => scheme,
        None => usual,
    }
}

/// Whether a password is to be prepared by SASLprep (RFC 4013) before it comes to the scheme.
pub fn is_to_be_prepared(scheme: Scheme, password: &[u8]) -> bool
    ensures { IsTrue result ↔ ((keeps_keys scheme ≡ true) × ¬ (IsAscii password.now)) }
{
    scheme.row().keeps_keys && needs_preparation(password)
}
