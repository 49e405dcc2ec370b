// SPDX-License-Identifier: ISC
//! Salts, and the extract of a PRK (RFC 5869, section 2.2).

ghost use Rattle.std.specs.Prelude.{◌≡◌, ◌↔◌, ◌+◌, ◌<◌, ℕ, List, length, IfOk, IsErr, OnErr, OnOk};
ghost use Rattle.ring.specs.Prelude.{PrkStandsFor, SaltStandsFor, block_len, hkdf_digest, hmac_of};
ghost use Rattle.ring.specs.Prelude.{key_blocks, max_input_len, padded_blocks, prk_algorithm};
ghost use Rattle.ring.specs.Prelude.{raised, salt_algorithm};

use crate::hkdf::algorithm::Algorithm;
use crate::hkdf::prk::Prk;
use crate::hmac::{self, Key};
use ring_core::cost::Meter;
use ring_core::error::Unspecified;

/// A salt (RFC 5869, section 2.2): the HMAC key under which PRKs are extracted.
#[derive(Debug, Drop)]
pub struct Salt(pub(crate) Key);

impl Salt {
    /// Makes the salt of `value` as [`Salt::new`] does, and counts its blocks on `meter`. A refusal
    /// leaves `meter` as it was.
    pub fn new_counted(
        algorithm: Algorithm,
        value: &[u8],
        meter: &mut Meter,
    ) -> Result<Self, Unspecified>
        ensures ok { IfOk result (λ salt. SaltStandsFor salt value.now) }
        ensures refused { IsErr result
            ↔ (max_input_len (hkdf_digest algorithm) < length value.now) }
        ensures unchanged { OnErr result (meter.new ≡ meter.old) }
        ensures cost { OnOk result (meter.new
            ≡ raised meter.old (key_blocks (hkdf_digest algorithm) (length value.now)) 0) }
        ensures algorithm { IfOk result (λ salt. salt_algorithm salt ≡ hkdf_digest algorithm) }
    {
        Ok(Salt(Key::new_counted(algorithm.hmac_algorithm(), value, meter)?))
    }

    /// Makes the salt of the bytes `value` for `algorithm` (RFC 5869, section 2.2). An empty value
    /// extracts as one of as many zeros as a digest has bytes.
    ///
    /// Refused where the value is longer than the digest algorithm's `max_input_len` bytes.
    pub fn new(algorithm: Algorithm, value: &[u8]) -> Result<Self, Unspecified>
        ensures ok { IfOk result (λ salt. SaltStandsFor salt value.now) }
        ensures refused { IsErr result
            ↔ (max_input_len (hkdf_digest algorithm) < length value.now) }
        ensures algorithm { IfOk result (λ salt. salt_algorithm salt ≡ hkdf_digest algorithm) }
    {
        Salt::new_counted(algorithm, value, &mut Meter::new())
    }

    /// Extracts the PRK of `secret` as [`Salt::extract`] does, and counts its blocks on `meter`:
    /// those of the tag, and two for the PRK's key. A refusal leaves `meter` as it was.
    #[tactic(auto, using(crate::proofs::lemmas::hmac::Keys::key_rules))]
    pub fn extract_counted(&self, secret: &[u8], meter: &mut Meter) -> Result<Prk, Unspecified>
        ensures ok { (s : List ℕ) → SaltStandsFor self.now s → IfOk result
            (λ prk. PrkStandsFor prk (hmac_of (salt_algorithm self.now) s secret.now)) }
        ensures refused { IsErr result ↔ (max_input_len (salt_algorithm self.now)
            < block_len (salt_algorithm self.now) + length secret.now) }
        ensures unchanged { OnErr result (meter.new ≡ meter.old) }
        ensures cost { OnOk result (meter.new ≡ raised meter.old
            (padded_blocks (salt_algorithm self.now) (length secret.now) + 3) 0) }
        ensures algorithm { IfOk result (λ prk. prk_algorithm prk ≡ salt_algorithm self.now) }
    {
        let tag = hmac::sign_counted(&self.0, secret, meter)?;
        match Prk::new_less_safe_counted(self.algorithm(), tag.as_ref(), meter) {
            Ok(prk) => Ok(prk),
            // A tag is shorter than any limit.
            Err(_) => unreachable!(),
        }
    }

    /// Extracts the PRK of `secret`: its tag under the salt (RFC 5869, section 2.2).
    ///
    /// Refused where one block and the secret together are longer than the digest algorithm's
    /// `max_input_len` bytes.
    pub fn extract(&self, secret: &[u8]) -> Result<Prk, Unspecified>
        ensures ok { (s : List ℕ) → SaltStandsFor self.now s → IfOk result
            (λ prk. PrkStandsFor prk (hmac_of (salt_algorithm self.now) s secret.now)) }
        ensures refused { IsErr result ↔ (max_input_len (salt_algorithm self.now)
            < block_len (salt_algorithm self.now) + length secret.now) }
        ensures algorithm { IfOk result (λ prk. prk_algorithm prk ≡ salt_algorithm self.now) }
    {
        self.extract_counted(secret, &mut Meter::new())
    }

    /// The algorithm of the PRKs that the salt extracts.
    pub fn algorithm(&self) -> Algorithm
        ensures { hkdf_digest result ≡ salt_algorithm self.now }
    {
        Algorithm::over(self.0.algorithm())
    }
}
