// SPDX-License-Identifier: ISC
//! The four HKDF algorithms.

ghost use Rattle.std.specs.Prelude.{◌≡◌};
ghost use Rattle.ring.specs.Prelude.{hkdf_digest, hkdf_over, hmac_digest};

use crate::digest::algorithm::{SHA1_FOR_LEGACY_USE_ONLY, SHA256, SHA384, SHA512};
use crate::hmac::key::{
    self as hmac, HMAC_SHA1_FOR_LEGACY_USE_ONLY, HMAC_SHA256, HMAC_SHA384, HMAC_SHA512,
};

/// An HKDF algorithm: one of the four constants of this module, each HKDF over an HMAC algorithm.
#[derive(Clone, Copy, PartialEq, Eq, Debug)]
pub struct Algorithm(hmac::Algorithm);

/// HKDF over HMAC-SHA-1: use it only for old data.
pub const HKDF_SHA1_FOR_LEGACY_USE_ONLY: Algorithm = Algorithm(HMAC_SHA1_FOR_LEGACY_USE_ONLY);

/// HKDF over HMAC-SHA-256.
pub const HKDF_SHA256: Algorithm = Algorithm(HMAC_SHA256);

/// HKDF over HMAC-SHA-384.
pub const HKDF_SHA384: Algorithm = Algorithm(HMAC_SHA384);

/// HKDF over HMAC-SHA-512.
pub const HKDF_SHA512: Algorithm = Algorithm(HMAC_SHA512);

impl Algorithm {
    /// HKDF over `hmac_algorithm` (RFC 5869, section 2).
    pub fn over(hmac_algorithm: hmac::Algorithm) -> Self
        ensures word { result ≡ hkdf_over hmac_algorithm }
        ensures digest { hkdf_digest result ≡ hmac_digest hmac_algorithm }
    {
        Algorithm(hmac_algorithm)
    }

    /// The HMAC algorithm that HKDF runs.
    pub fn hmac_algorithm(&self) -> hmac::Algorithm
        ensures { hmac_digest result ≡ hkdf_digest self.now }
    {
        self.0
    }
}

/// States that each constant is HKDF over the digest algorithm of its name. The call does nothing.
pub fn constants_are_based_on_their_digests()
    ensures sha1 { hkdf_digest HKDF_SHA1_FOR_LEGACY_USE_ONLY ≡ SHA1_FOR_LEGACY_USE_ONLY }
    ensures sha256 { hkdf_digest HKDF_SHA256 ≡ SHA256 }
    ensures sha384 { hkdf_digest HKDF_SHA384 ≡ SHA384 }
    ensures sha512 { hkdf_digest HKDF_SHA512 ≡ SHA512 }
{}
