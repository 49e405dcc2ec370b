// SPDX-License-Identifier: ISC
//! The algorithms of signatures.

ghost use Rattle.std.specs.Prelude.{◌≡◌, ◌↔◌, IsTrue};
ghost use Rattle.ring.specs.Prelude.{IsTagWithin, hmac_digest};
ghost use Rattle.ring_tokens.specs.Alg.{algorithm_of, hash_len, name_of, text_len};

use ring::hmac::{self, HMAC_SHA256, HMAC_SHA384, HMAC_SHA512, is_tag_within};

/// An algorithm of signatures, as a header's `alg` names it (RFC 7518, section 3.2).
#[derive(Clone, Copy, Debug, PartialEq, Eq)]
pub enum Alg {
    /// `HS256`: HMAC with SHA-256.
    Hs256,
    /// `HS384`: HMAC with SHA-384.
    Hs384,
    /// `HS512`: HMAC with SHA-512.
    Hs512,
}

impl Alg {
    /// The name in a header's `alg`.
    pub fn name(self) -> &'static [u8]
        ensures { result.now ≡ name_of self }
    {
        match self {
            Alg::Hs256 => b"HS256",
            Alg::Hs384 => b"HS384",
            Alg::Hs512 => b"HS512",
        }
    }

    /// The HMAC algorithm.
    pub fn hmac_algorithm(self) -> hmac::Algorithm
        ensures { hmac_digest result ≡ algorithm_of self }
    {
        match self {
            Alg::Hs256 => HMAC_SHA256,
            Alg::Hs384 => HMAC_SHA384,
            Alg::Hs512 => HMAC_SHA512,
        }
    }

    /// The least length of a key in bytes: that of a digest.
    pub fn min_key_len(self) -> usize
        ensures { result ≡ hash_len self }
    {
        match self {
            Alg::Hs256 => 32,
            Alg::Hs384 => 48,
            Alg::Hs512 => 64,
        }
    }

    /// The bytes of a signature's text.
    pub(crate) fn text_len(self) -> usize
        ensures { result ≡ text_len self }
    {
        match self {
            Alg::Hs256 => 43,
            Alg::Hs384 => 64,
            Alg::Hs512 => 86,
        }
    }

    /// Whether HMAC admits a message of `len` bytes.
    pub(crate) fn admits(self, len: usize) -> bool
        ensures { IsTrue result ↔ IsTagWithin (algorithm_of self) len }
    {
        is_tag_within(&self.hmac_algorithm(), len as u128)
    }
}
