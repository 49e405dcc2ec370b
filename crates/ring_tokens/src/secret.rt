// SPDX-License-Identifier: ISC
//! Secrets that two sides share.

ghost use Rattle.std.specs.Prelude.{◌≡◌, ◌↔◌, ◌⊎◌, ◌<◌, length, IfOk, IsErr, OnErr, OnOk};
ghost use Rattle.ring.specs.Prelude.{hmac_digest, key_blocks, max_input_len, raised};

use ring::cost::Meter;
use ring::error::Unspecified;
use ring::hmac;

/// The bytes that both sides have, as a server and a user's device, or the sender of a webhook and
/// its receiver, and the algorithm of their tags. They are not empty: everybody can compute the
/// passwords and signatures of a secret that was never set.
///
/// Zeros alone are taken, though they sign as no bytes do: HMAC pads a key with zeros.
#[derive(Drop)]
pub struct SharedSecret {
    pub(crate) key: hmac::Key,
}

impl SharedSecret {
    ghost use Rattle.ring_tokens.specs.Secret.{IsSecret, secret_algorithm};

    /// Makes a secret as [`SharedSecret::new`] does, and counts the blocks of its key on `meter`. A
    /// refusal leaves `meter` as it was.
    pub fn new_counted(
        algorithm: hmac::Algorithm,
        value: &[u8],
        meter: &mut Meter,
    ) -> Result<Self, Unspecified>
        ensures ok { IfOk result (λ secret. IsSecret secret value.now) }
        ensures algorithm { IfOk result (λ secret.
            secret_algorithm secret ≡ hmac_digest algorithm) }
        ensures refused { IsErr result ↔ ((length value.now ≡ 0)
            ⊎ (max_input_len (hmac_digest algorithm) < length value.now)) }
        ensures unchanged { OnErr result (meter.new ≡ meter.old) }
        ensures cost { OnOk result (meter.new
            ≡ raised meter.old (key_blocks (hmac_digest algorithm) (length value.now)) 0) }
    {
        if value.is_empty() {
            return Err(Unspecified);
        }
        let key = hmac::Key::new_counted(algorithm, value, meter)?;
        Ok(SharedSecret { key })
    }

    /// Makes the secret of the bytes `value`, for tags by `algorithm`.
    ///
    /// Refused exactly where the value is empty, or longer than the digest algorithm's
    /// `max_input_len` bytes. RFC 4226 (section 4) asks for 16 bytes and more, and recommends 20.
    pub fn new(algorithm: hmac::Algorithm, value: &[u8]) -> Result<Self, Unspecified>
        ensures ok { IfOk result (λ secret. IsSecret secret value.now) }
        ensures algorithm { IfOk result (λ secret.
            secret_algorithm secret ≡ hmac_digest algorithm) }
        ensures refused { IsErr result ↔ ((length value.now ≡ 0)
            ⊎ (max_input_len (hmac_digest algorithm) < length value.now)) }
    {
        SharedSecret::new_counted(algorithm, value, &mut Meter::new())
    }
}
