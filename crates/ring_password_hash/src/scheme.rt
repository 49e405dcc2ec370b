// SPDX-License-Identifier: ISC
//! The schemes: a row of the table for each.

ghost use Rattle.std.specs.Prelude.{◌≡◌, ◌≢◌, false, IfSome, IsNone, Some};
ghost use Rattle.ring_password_hash.specs.Scheme.{IsRow, name_of, row_of};

use ring::pbkdf2::{Algorithm, PBKDF2_HMAC_SHA1, PBKDF2_HMAC_SHA256, PBKDF2_HMAC_SHA512};
use std::fmt;

/// Whose text it is.
#[derive(Clone, Copy, Debug, PartialEq, Eq)]
pub enum Scheme {
    /// Django's `PBKDF2PasswordHasher`: `pbkdf2_sha256$ITERATIONS$SALT$HASH`.
    DjangoSha256,
    /// Django's `PBKDF2SHA1PasswordHasher`: `pbkdf2_sha1$ITERATIONS$SALT$HASH`.
    DjangoSha1,
    /// Werkzeug's: `pbkdf2:sha256:ITERATIONS$SALT$HASH`.
    WerkzeugSha256,
    /// Werkzeug's: `pbkdf2:sha512:ITERATIONS$SALT$HASH`.
    WerkzeugSha512,
    /// A PHC string, as RustCrypto's `pbkdf2` has it:
    /// `$pbkdf2-sha256$i=ITERATIONS,l=LENGTH$SALT$HASH`.
    PhcSha256,
    /// A PHC string, as RustCrypto's `pbkdf2` has it:
    /// `$pbkdf2-sha512$i=ITERATIONS,l=LENGTH$SALT$HASH`.
    PhcSha512,
    /// Mosquitto's, by SHA-512: `$7$ITERATIONS$SALT$HASH`.
    Mosquitto,
    /// passlib's `pbkdf2_sha1`: `$pbkdf2$ITERATIONS$SALT$HASH`.
    PasslibSha1,
    /// passlib's `pbkdf2_sha256`: `$pbkdf2-sha256$ITERATIONS$SALT$HASH`.
    PasslibSha256,
    /// passlib's `pbkdf2_sha512`: `$pbkdf2-sha512$ITERATIONS$SALT$HASH`.
    PasslibSha512,
    /// PostgreSQL's, for a role: `SCRAM-SHA-256$ITERATIONS:SALT$STOREDKEY:SERVERKEY`.
    Postgresql,
    /// Werkzeug's: `pbkdf2:sha1:ITERATIONS$SALT$HASH`.
    WerkzeugSha1,
}

/// How a field writes its bytes.
#[derive(Clone, Copy, PartialEq, Eq)]
pub enum Encoding {
    /// The bytes as they are.
    Plain,
    /// Two digits a byte, in lower case.
    Hex,
    /// Base64 with padding (RFC 4648, section 4).
    Base64,
    /// Base64 without padding, as PHC strings have it.
    Base64NoPad,
    /// Base64 without padding and with a full stop for the plus sign, as passlib has it.
    Adapted,
}

/// All schemes.
pub const SCHEMES: [Scheme; 12] = [
    Scheme::DjangoSha256,
    Scheme::DjangoSha1,
    Scheme::WerkzeugSha256,
    Scheme::WerkzeugSha512,
    Scheme::PhcSha256,
    Scheme::PhcSha512,
    Scheme::Mosquitto,
    Scheme::PasslibSha1,
    Scheme::PasslibSha256,
    Scheme::PasslibSha512,
    Scheme::Postgresql,
    Scheme::WerkzeugSha1,
];

/// A row of the table.
#[derive(Clone, Copy)]
pub struct Row {
    /// The scheme's name, as [`Scheme::named`] takes it.
    pub name: &'static str,
    /// What a text begins with.
    pub prefix: &'static [u8],
    /// Whether a text can name the length of what it keeps.
    pub names_len: bool,
    /// Whether a text keeps SCRAM's two keys, and not what PBKDF2 derives.
    pub keeps_keys: bool,
    /// How the salt is written.
    pub salt: Encoding,
    /// How that which is kept is written.
    pub kept: Encoding,
    /// Its length in bytes, where the text does not name it.
    pub kept_len: usize,
    /// What derives.
    pub algorithm: Algorithm,
}

// A row of a hash, which names no length.
fn hash(
    name: &'static str,
    prefix: &'static [u8],
    salt: Encoding,
    kept: Encoding,
    kept_len: usize,
    algorithm: Algorithm,
) -> Row
    ensures { (result.name.now ≡ name.now) × (result.prefix.now ≡ prefix.now)
        × (result.names_len ≡ false) × (result.keeps_keys ≡ false) × (result.salt ≡ salt)
        × (result.kept ≡ kept) × (result.kept_len ≡ kept_len) × (result.algorithm ≡ algorithm) }
{
    Row {
        name,
        prefix,
        names_len: false,
        keeps_keys: false,
        salt,
        kept,
        kept_len,
        algorithm,
    }
}

use Encoding::{Adapted, Base64, Base64NoPad, Hex, Plain};

const SHA1: Algorithm = PBKDF2_HMAC_SHA1;

const SHA256: Algorithm = PBKDF2_HMAC_SHA256;

const SHA512: Algorithm = PBKDF2_HMAC_SHA512;

impl Scheme {
    // The name of the scheme.
    fn name(self) -> &'static str
        ensures { result.now ≡ name_of self }
    {
        match self {
            Self::DjangoSha256 => "django-sha256",
            Self::DjangoSha1 => "django-sha1",
            Self::WerkzeugSha256 => "werkzeug-sha256",
            Self::WerkzeugSha512 => "werkzeug-sha512",
            Self::PhcSha256 => "phc-sha256",
            Self::PhcSha512 => "phc-sha512",
            Self::Mosquitto => "mosquitto",
            Self::PasslibSha1 => "passlib-sha1",
            Self::PasslibSha256 => "passlib-sha256",
            Self::PasslibSha512 => "passlib-sha512",
            Self::Postgresql => "postgresql",
            Self::WerkzeugSha1 => "werkzeug-sha1",
        }
    }

    /// The row of the scheme.
    pub fn row(self) -> Row
        ensures { IsRow result (row_of self) }
    {
        let name = self.name();
        match self {
            Self::DjangoSha256 => hash(name, b"pbkdf2_sha256$", Plain, Base64, 32, SHA256),
            Self::DjangoSha1 => hash(name, b"pbkdf2_sha1$", Plain, Base64, 20, SHA1),
            Self::WerkzeugSha256 => hash(name, b"pbkdf2:sha256:", Plain, Hex, 32, SHA256),
            Self::WerkzeugSha512 => hash(name, b"pbkdf2:sha512:", Plain, Hex, 64, SHA512),
            Self::WerkzeugSha1 => hash(name, b"pbkdf2:sha1:", Plain, Hex, 20, SHA1),
            Self::Mosquitto => hash(name, b"$7$", Base64, Base64, 64, SHA512),
            Self::PasslibSha1 => hash(name, b"$pbkdf2$", Adapted, Adapted, 20, SHA1),
            Self::PasslibSha256 => hash(name, b"$pbkdf2-sha256$", Adapted, Adapted, 32, SHA256),
            Self::PasslibSha512 => hash(name, b"$pbkdf2-sha512$", Adapted, Adapted, 64, SHA512),
            Self::PhcSha256 => Row {
                names_len: true,
                ..hash(
                    name,
                    b"$pbkdf2-sha256$",
                    Base64NoPad,
                    Base64NoPad,
                    32,
                    SHA256,
                )
            },
            Self::PhcSha512 => Row {
                names_len: true,
                ..hash(
                    name,
                    b"$pbkdf2-sha512$",
                    Base64NoPad,
                    Base64NoPad,
                    32,
                    SHA512,
                )
            },
            Self::Postgresql => Row {
                keeps_keys: true,
                ..hash(name, b"SCRAM-SHA-256$", Base64, Base64, 64, SHA256)
            },
        }
    }

    /// The scheme that has the name `word`: each has one of its own, in lower case
    /// ([`Row::name`]). None if no scheme has it.
    pub fn named(word: &str) -> Option<Scheme>
        ensures ok { IfSome result (λ scheme. word.now ≡ name_of scheme) }
        ensures refused { IsNone result → (scheme : Scheme) → word.now ≢ name_of scheme }
    {
        'schemes: for i in 0..SCHEMES.len() {
            if SCHEMES[i].name() == word {
                return Some(SCHEMES[i]);
            }
        }
        None
    }
}

/// The name of the scheme.
impl fmt::Display for Scheme {
    ghost output = { λ scheme. Some (name_of scheme) };

    fn fmt<W: fmt::Write>(&self, f: &mut fmt::Formatter<W>) -> fmt::Result {
        write!(f, "{}", self.name())
    }
}
