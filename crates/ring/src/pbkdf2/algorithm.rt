// SPDX-License-Identifier: ISC
//! The four PBKDF2 algorithms.

ghost use Rattle.std.specs.Prelude.{◌≡◌};
ghost use Rattle.ring.specs.Prelude.{hmac_digest, pbkdf2_digest, pbkdf2_over};

use crate::digest::algorithm::{SHA1_FOR_LEGACY_USE_ONLY, SHA256, SHA384, SHA512};
use crate::hmac::key::{
    self as hmac, HMAC_SHA1_FOR_LEGACY_USE_ONLY, HMAC_SHA256, HMAC_SHA384, HMAC_SHA512,
};

/// A PBKDF2 algorithm: one of the four constants of this module, each PBKDF2 over an HMAC
/// algorithm.
#[derive(Clone, Copy, PartialEq, Eq)]
pub struct Algorithm(hmac::Algorithm);

/// PBKDF2 over HMAC-SHA-1.
pub const PBKDF2_HMAC_SHA1: Algorithm = Algorithm(HMAC_SHA1_FOR_LEGACY_USE_ONLY);

/// PBKDF2 over HMAC-SHA-256.
pub const PBKDF2_HMAC_SHA256: Algorithm = Algorithm(HMAC_SHA256);

/// PBKDF2 over HMAC-SHA-384.
pub const PBKDF2_HMAC_SHA384: Algorithm = Algorithm(HMAC_SHA384);

/// PBKDF2 over HMAC-SHA-512.
pub const PBKDF2_HMAC_SHA512: Algorithm = Algorithm(HMAC_SHA512);

impl Algorithm {
    /// PBKDF2 over `hmac_algorithm`.
    pub fn over(hmac_algorithm: hmac::Algorithm) -> Self
        ensures word { result ≡ pbkdf2_over hmac_algorithm }
        ensures digest { pbkdf2_digest result ≡ hmac_digest hmac_algorithm }
    {
        Algorithm(hmac_algorithm)
    }

    // The HMAC algorithm that is its pseudorandom function.
    pub(crate) fn hmac_algorithm(&self) -> hmac::Algorithm
        ensures { hmac_digest result ≡ pbkdf2_digest self.now }
    {
        self.0
    }
}

/// States that each constant is PBKDF2 over HMAC with the digest algorithm of its name. The call
/// does nothing.
pub fn constants_are_based_on_their_digests()
    ensures sha1 { pbkdf2_digest PBKDF2_HMAC_SHA1 ≡ SHA1_FOR_LEGACY_USE_ONLY }
    ensures sha256 { pbkdf2_digest PBKDF2_HMAC_SHA256 ≡ SHA256 }
    ensures sha384 { pbkdf2_digest PBKDF2_HMAC_SHA384 ≡ SHA384 }
    ensures sha512 { pbkdf2_digest PBKDF2_HMAC_SHA512 ≡ SHA512 }
{}
