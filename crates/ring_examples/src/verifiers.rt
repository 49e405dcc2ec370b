// SPDX-License-Identifier: ISC
//! A role logs in by what PostgreSQL keeps of its password, and what that shares with other hashes.

ghost use Rattle.std.specs.Prelude.{◌≡◌, ◌≢◌, ◌↔◌, ◌<◌, ◌++◌, ℕ, List, Err, Ok, Some};
ghost use Rattle.std.specs.Prelude.{IfOk, IsErrOf, IsOk, IsSomeAnd, IsTrue};
ghost use Rattle.std.specs.Int.NonZero.{non_zero_u32_get};
ghost use Rattle.std.specs.Str.{IsAscii};
ghost use Rattle.ring.specs.Prelude.{tag_bytes};
ghost use Rattle.ring_password_hash.specs.Stored.{IsReadWhere, IsTextOf, Parts, answer_of};
ghost use Rattle.ring_password_hash.specs.Stored.{derived_of, meter_of, stored_key_of};
ghost use Rattle.ring_password_hash.specs.declared.scheme.Scheme.TheVariants.{DjangoSha256};
ghost use Rattle.ring_password_hash.specs.declared.scheme.Scheme.TheVariants.{Postgresql};
ghost use Rattle.ring_examples.specs.declared.verifiers.LoginError.TheVariants.{OtherScheme};
ghost use Rattle.ring_examples.specs.declared.verifiers.LoginError.TheVariants.{Refused};
ghost use Rattle.ring_examples.specs.declared.verifiers.LoginError.TheVariants.{Unprepared};

use ring::cost::Meter;
use ring::error::Unspecified;
use ring::hmac::{HMAC_SHA256, Key, Tag, sign};
use ring_password_hash::laws::{one_text_is_of_one_value, salted_password_is_derived};
use ring_password_hash::{HashError, Scheme, Stored, needs_preparation, verify_counted};

/// Why a role is not logged in.
#[derive(Clone, Copy, Debug, PartialEq, Eq)]
pub enum LoginError {
    /// The password has a byte past ASCII: it is to be prepared first (SASLprep, RFC 4013).
    Unprepared,
    /// The text is of another system.
    OtherScheme,
    /// The text or the password is refused.
    Refused(HashError),
}

impl From<HashError> for LoginError {
    ghost from_gives = { λ hash error. error ≡ Refused hash };

    fn from(error: HashError) -> Self {
        LoginError::Refused(error)
    }
}

/// Tests a password of ASCII bytes against the text that PostgreSQL keeps of it.
pub fn log_in(text: &[u8], password: &[u8], max_iterations: u32) -> Result<(), LoginError>
    ensures ok { IsOk result → IsReadWhere text.now (λ found.
        answer_of found password.now max_iterations ≡ Ok tt) }
    ensures right { (h : Parts) → IsTextOf h text.now → h.scheme ≡ Postgresql
        → answer_of (Some h) password.now max_iterations ≡ Ok tt → IsAscii password.now
        → IsOk result }
    ensures unprepared { IsErrOf result Unprepared ↔ ¬ (IsAscii password.now) }
    ensures other { IsErrOf result OtherScheme → IsReadWhere text.now (λ found.
        IsSomeAnd found (λ h. h.scheme ≢ Postgresql)) }
    ensures every_other { (h : Parts) → IsTextOf h text.now → h.scheme ≢ Postgresql
        → IsAscii password.now → IsErrOf result OtherScheme }
    ensures refused { (error : HashError) → IsErrOf result (Refused error)
        → IsReadWhere text.now (λ found. answer_of found password.now max_iterations ≡ Err error) }
{
    one_text_is_of_one_value();
    if needs_preparation(password) {
        return Err(LoginError::Unprepared);
    }
    let stored = Stored::parse(text)?;
    if stored.scheme() != Scheme::Postgresql {
        return Err(LoginError::OtherScheme);
    }
    stored.verify(password, max_iterations)?;
    Ok(())
}

/// Whether a text is of the password, with the work added to the meter of a request: none for a
/// text that names more iterations than the limit.
pub fn test_in_request(text: &[u8], password: &[u8], max_iterations: u32, meter: &mut Meter) -> bool
    ensures ok { IsReadWhere text.now (λ found. (IsTrue result
        ↔ (answer_of found password.now max_iterations ≡ Ok tt))
        × (meter.new ≡ meter_of found password.now max_iterations meter.old)) }
    ensures unchanged { (h : Parts) → IsTextOf h text.now
        → max_iterations < non_zero_u32_get h.iterations → meter.new ≡ meter.old }
{
    one_text_is_of_one_value();
    verify_counted(text, password, max_iterations, meter).is_ok()
}

/// PostgreSQL's ServerKey, made of a hash of 32 bytes by SHA-256 with the same salt and count, as
/// Django keeps it: whoever has such a hash needs no password.
pub fn server_key_of_hash(hash: &[u8; 32]) -> Result<Tag, Unspecified>
    ensures ok { (p s : List ℕ) (c : ℕ) → hash.now ≡ derived_of DjangoSha256 p s c 32
        → IfOk result (λ key. derived_of Postgresql p s c 64
        ≡ stored_key_of hash.now ++ tag_bytes key) }
    ensures refused { IsOk result }
{
    salted_password_is_derived();
    let key = Key::new(HMAC_SHA256, hash)?;
    let tag = sign(&key, b"Server Key")?;
    Ok(tag)
}
