// SPDX-License-Identifier: ISC
//! The lengths of outputs: values that tell a number of bytes.

ghost use Rattle.std.specs.Prelude.{◌≡◌, ℕ};
ghost use Rattle.ring.specs.Algorithm.{output_len};
ghost use Rattle.ring.specs.Hkdf.{hkdf_digest};
ghost use Rattle.ring.specs.Hmac.{hmac_digest};

use crate::hkdf::algorithm::Algorithm;
use crate::hmac;

/// The length of an output.
///
/// The algorithms implement it, for keys, salts and PRKs. A caller implements it for another
/// length, and passes the value to [`Prk::expand`](crate::hkdf::Prk::expand).
pub trait KeyType: Drop {
    // The number of bytes: a function of the value.
    ghost key_len: { Self → ℕ };

    /// The number of bytes, the same at each call.
    fn len(&self) -> usize
        ensures { result ≡ key_len self.now };
}

/// The length of a key: as many bytes as a digest has (RFC 2104, section 3).
impl KeyType for hmac::Algorithm {
    ghost key_len = { λ a. output_len (hmac_digest a) };

    fn len(&self) -> usize {
        self.digest_algorithm().output_len()
    }
}

/// The length of a salt or a PRK: as many bytes as a digest has.
impl KeyType for Algorithm {
    ghost key_len = { λ a. output_len (hkdf_digest a) };

    fn len(&self) -> usize {
        self.hmac_algorithm().len()
    }
}
