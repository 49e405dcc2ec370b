// SPDX-License-Identifier: ISC
//! The hash functions whose work is timed.

ghost use Rattle.std.specs.Prelude.{◌≡◌};
ghost use Rattle.ring_speed.specs.Work as specs;

use ring::digest::{Algorithm, SHA1_FOR_LEGACY_USE_ONLY, SHA256, SHA512};

// A hash function.
#[derive(Clone, Copy)]
pub(crate) enum Hash {
    Sha1,
    Sha256,
    Sha512,
}

impl Hash {
    // The hash function of a number.
    pub(crate) fn of_number(number: u32) -> Option<Hash>
        ensures { result ≡ specs.hash_named number }
    {
        match number {
            0 => Some(Hash::Sha1),
            1 => Some(Hash::Sha256),
            2 => Some(Hash::Sha512),
            _ => None,
        }
    }

    // Its digest algorithm.
    pub(crate) fn digest_algorithm(self) -> Algorithm
        ensures { result ≡ specs.algorithm_of self }
    {
        match self {
            Hash::Sha1 => SHA1_FOR_LEGACY_USE_ONLY,
            Hash::Sha256 => SHA256,
            Hash::Sha512 => SHA512,
        }
    }
}
