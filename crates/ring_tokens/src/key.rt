// SPDX-License-Identifier: ISC
//! Keys, each for one algorithm.

ghost use Rattle.std.specs.Prelude.{◌≡◌, ◌↔◌, ◌⊎◌, ◌<◌, length, IfOk, IsErr, OnErr, OnOk};
ghost use Rattle.ring.specs.Prelude.{key_algorithm, key_blocks, max_input_len, raised};
ghost use Rattle.ring_tokens.specs.Alg.{algorithm_of, hash_len};

use crate::alg::Alg;
use ring::cost::Meter;
use ring::error::Unspecified;
use ring::hmac;

/// A key, and the one algorithm that it is for.
#[derive(Drop)]
pub struct Key {
    pub(crate) alg: Alg,
    pub(crate) key: hmac::Key,
    ghost same: { key_algorithm key ≡ algorithm_of alg },
}

impl Key {
    ghost use Rattle.ring_tokens.specs.Jws.{IsKey, alg_of};

    /// Makes a key as [`Key::new`] does, and counts its blocks on `meter`. A refusal leaves `meter`
    /// as it was.
    pub fn new_counted(alg: Alg, value: &[u8], meter: &mut Meter) -> Result<Self, Unspecified>
        ensures ok { IfOk result (λ key. IsKey key value.now) }
        ensures algorithm { IfOk result (λ key. alg_of key ≡ alg) }
        ensures refused { IsErr result ↔ ((length value.now < hash_len alg)
            ⊎ (max_input_len (algorithm_of alg) < length value.now)) }
        ensures unchanged { OnErr result (meter.new ≡ meter.old) }
        ensures cost { OnOk result (meter.new
            ≡ raised meter.old (key_blocks (algorithm_of alg) (length value.now)) 0) }
    {
        if value.len() < alg.min_key_len() {
            return Err(Unspecified);
        }
        let key = hmac::Key::new_counted(alg.hmac_algorithm(), value, meter)?;
        Ok(Key { alg, key })
    }

    /// Makes the key of the bytes `value` for `alg`.
    ///
    /// Refused exactly where the value is shorter than a digest of the algorithm (RFC 7518,
    /// section 3.2), or longer than the digest algorithm's `max_input_len` bytes.
    pub fn new(alg: Alg, value: &[u8]) -> Result<Self, Unspecified>
        ensures ok { IfOk result (λ key. IsKey key value.now) }
        ensures algorithm { IfOk result (λ key. alg_of key ≡ alg) }
        ensures refused { IsErr result ↔ ((length value.now < hash_len alg)
            ⊎ (max_input_len (algorithm_of alg) < length value.now)) }
    {
        Key::new_counted(alg, value, &mut Meter::new())
    }

    /// The algorithm that the key is for.
    pub fn alg(&self) -> Alg
        ensures { result ≡ alg_of self.now }
    {
        self.alg
    }
}
