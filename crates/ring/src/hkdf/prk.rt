// SPDX-License-Identifier: ISC
//! Pseudorandom keys, and the output that they are expanded to (RFC 5869, section 2.3).

ghost use Rattle.std.specs.Prelude.{◌≡◌, ◌↔◌, ◌*◌, ◌<◌, ℕ, List, length, IfOk, IsErr, IsOk, OnErr};
ghost use Rattle.std.specs.Prelude.{OnOk};
ghost use Rattle.ring_core.specs.Cost.{raised};
ghost use Rattle.ring.specs.Algorithm.{max_input_len, output_len};
ghost use Rattle.ring.specs.Cost.{fill_blocks, key_blocks};
ghost use Rattle.ring.specs.Hkdf.{PrkStandsFor, hkdf_digest, okm, prk_algorithm};
ghost use Rattle.ring.specs.Hmac.{KeyStandsFor, hmac_digest, key_algorithm};
ghost use Rattle.ring.specs.Limits.{IsOutputWithin};
ghost use Rattle.ring.specs.Pieces.{joined};

use crate::digest::algorithm::MAX_OUTPUT_LEN;
use crate::hkdf::algorithm::Algorithm;
use crate::hkdf::key_type::KeyType;
use crate::hkdf::rounds::write_output;
use crate::hmac::{self, Key};
use crate::limits::{is_info_within, is_output_within, joined_len};
use ring_core::cost::Meter;
use ring_core::error::Unspecified;

/// A pseudorandom key, PRK (RFC 5869, section 2.3), which is expanded to outputs.
#[derive(Debug, Drop)]
pub struct Prk(pub(crate) Key);

impl Prk {
    ghost use Rattle.ring.specs.Okm.{OkmStandsFor, asked_for, okm_algorithm};
    ghost use Rattle.ring.specs.Okm.{okm_asked_len, okm_info_len};

    /// Makes the PRK of `value` as [`Prk::new_less_safe`] does, and counts its blocks on `meter`. A
    /// refusal leaves `meter` as it was.
    pub fn new_less_safe_counted(
        algorithm: Algorithm,
        value: &[u8],
        meter: &mut Meter,
    ) -> Result<Self, Unspecified>
        ensures ok { IfOk result (λ prk. PrkStandsFor prk value.now) }
        ensures refused { IsErr result
            ↔ (max_input_len (hkdf_digest algorithm) < length value.now) }
        ensures unchanged { OnErr result (meter.new ≡ meter.old) }
        ensures cost { OnOk result (meter.new
            ≡ raised meter.old (key_blocks (hkdf_digest algorithm) (length value.now)) 0) }
        ensures algorithm { IfOk result (λ prk. prk_algorithm prk ≡ hkdf_digest algorithm) }
    {
        Ok(Prk(Key::new_counted(algorithm.hmac_algorithm(), value, meter)?))
    }

    /// Makes the PRK of the bytes `value` for `algorithm`, without an extract (RFC 5869, section
    /// 3.3).
    ///
    /// The caller must know that the bytes are random enough. Otherwise make a
    /// [`Salt`](crate::hkdf::Salt) and extract.
    ///
    /// Refused where the value is longer than the digest algorithm's `max_input_len` bytes.
    pub fn new_less_safe(algorithm: Algorithm, value: &[u8]) -> Result<Self, Unspecified>
        ensures ok { IfOk result (λ prk. PrkStandsFor prk value.now) }
        ensures refused { IsErr result
            ↔ (max_input_len (hkdf_digest algorithm) < length value.now) }
        ensures algorithm { IfOk result (λ prk. prk_algorithm prk ≡ hkdf_digest algorithm) }
    {
        Prk::new_less_safe_counted(algorithm, value, &mut Meter::new())
    }

    /// Asks for output of as many bytes as `len` says, for the purpose that `info` names (RFC 5869,
    /// section 2.3). The output is computed by [`Okm::fill`]: no block is run here.
    ///
    /// The pieces of `info` are joined: how it is cut makes no difference.
    ///
    /// Refused where `len` says more bytes than 255 digests have.
    pub fn expand<'a, L: KeyType>(
        &'a self,
        info: &'a [&'a [u8]],
        len: L,
    ) -> Result<Okm<'a, L>, Unspecified>
        ensures ok { (k : List ℕ) → PrkStandsFor self.now k
            → IfOk result (λ output. OkmStandsFor output k (joined info.now) (L.key_len len)) }
        ensures refused { IsErr result
            ↔ (255 * output_len (prk_algorithm self.now) < L.key_len len) }
        ensures algorithm { IfOk result (λ output. okm_algorithm output ≡ prk_algorithm self.now) }
        ensures info_len { IfOk result (λ output. okm_info_len output ≡ length (joined info.now)) }
        ensures asked_len { IfOk result (λ output. okm_asked_len output ≡ L.key_len len) }
        ensures carries { IfOk result (λ output. asked_for output ≡ len) }
    {
        let len_cached = len.len();
        if !is_output_within(&Algorithm::over(self.0.algorithm()), len_cached as u128) {
            return Err(Unspecified);
        }
        Ok(Okm {
            prk: self,
            info,
            len,
            len_cached,
        })
    }

    /// A copy of the PRK.
    pub fn clone(&self) -> Self
        ensures { result ≡ self.now }
    {
        Prk(self.0.clone())
    }
}

/// Output that was asked for and is not yet computed (RFC 5869, section 2.3). It stands for a PRK,
/// the joined info and a number of bytes.
#[derive(Debug, Drop)]
pub struct Okm<'a, L: KeyType> {
    prk: &'a Prk,
    info: &'a [&'a [u8]],
    len: L,
    len_cached: usize,
    ghost asked: { len_cached ≡ L.key_len len },
    ghost within: { IsOutputWithin (prk_algorithm prk.now) len_cached },
}

impl<L: KeyType> Okm<'_, L> {
    ghost use Rattle.ring.specs.Okm.{CanFill, IsMadeOf, OkmStandsFor, asked_for};
    ghost use Rattle.ring.specs.Okm.{okm_algorithm, okm_asked_len, okm_info_len};

    /// The value that was passed to [`Prk::expand`] for the length.
    pub fn len(&self) -> &L
        ensures { result.now ≡ asked_for self.now }
    {
        &self.len
    }

    /// Writes the output to `out` as [`Okm::fill`] does, and counts its blocks on `meter`: those of
    /// one round for each digest's length that is begun, and of one where the output is empty. A
    /// refusal leaves `meter` as it was.
    pub fn fill_counted(self, out: &mut [u8], meter: &mut Meter) -> Result<(), Unspecified>
        ensures ok { (k info : List ℕ) (n : ℕ) → OkmStandsFor self.entry k info n
            → OnOk result (out.new ≡ okm (okm_algorithm self.entry) k info n) }
        ensures refused { IsOk result ↔ CanFill (okm_algorithm self.entry)
            (okm_info_len self.entry) (okm_asked_len self.entry) (length out.old) }
        ensures unchanged { OnErr result ((out.new ≡ out.old) × (meter.new ≡ meter.old)) }
        ensures cost { OnOk result (meter.new ≡ raised meter.old (fill_blocks
            (okm_algorithm self.entry) (okm_info_len self.entry) (okm_asked_len self.entry)) 0) }
    {
        let algorithm = self.prk.0.algorithm().digest_algorithm();
        if out.len() != self.len_cached {
            return Err(Unspecified);
        }
        if !is_info_within(&algorithm, joined_len(self.info), out.len() as u128) {
            return Err(Unspecified);
        }
        write_output(&self.prk.0, self.info, out, meter);
        Ok(())
    }

    /// Writes the output to the whole of `out`: the first bytes of T(1), T(2) and so on (RFC 5869,
    /// section 2.3).
    ///
    /// Refused where `out` has another number of bytes than was asked for, and where one block and
    /// the message of a round are longer than the digest algorithm's `max_input_len` bytes. That
    /// message is the tag of the round before, the info and one byte. `out` is then unchanged.
    pub fn fill(self, out: &mut [u8]) -> Result<(), Unspecified>
        ensures ok { (k info : List ℕ) (n : ℕ) → OkmStandsFor self.entry k info n
            → OnOk result (out.new ≡ okm (okm_algorithm self.entry) k info n) }
        ensures refused { IsOk result ↔ CanFill (okm_algorithm self.entry)
            (okm_info_len self.entry) (okm_asked_len self.entry) (length out.old) }
        ensures unchanged { OnErr result (out.new ≡ out.old) }
    {
        self.fill_counted(out, &mut Meter::new())
    }

    // The key of `algorithm` whose value is the whole output.
    pub(crate) fn into_key(
        self,
        algorithm: hmac::Algorithm,
        meter: &mut Meter,
    ) -> Result<Key, Unspecified>
        requires { okm_asked_len self ≡ output_len (hmac_digest algorithm) }
        ensures { IsMadeOf self.entry (hmac_digest algorithm) key_algorithm KeyStandsFor result }
    {
        let mut value = [0; MAX_OUTPUT_LEN];
        let value = &mut value[..algorithm.digest_algorithm().output_len()];
        self.fill_counted(value, meter)?;
        Key::new_counted(algorithm, value, meter)
    }
}
