// SPDX-License-Identifier: ISC
//! Keys from secrets.

ghost use Rattle.std.specs.Prelude.{◌≡◌, ◌↔◌, ◌*◌, ◌<◌, ◌≤◌, ℕ, List, length};
ghost use Rattle.std.specs.Prelude.{IfOk, IsErr, IsOk, IsTrue, OnErr, OnOk};
ghost use Rattle.ring.specs.Prelude.{IsInfoWithin, IsOutputWithin, IsTag, IsTagWithin};
ghost use Rattle.ring.specs.Prelude.{KeyStandsFor, PrkStandsFor, SaltStandsFor, hmac_of, joined};
ghost use Rattle.ring.specs.Prelude.{key_algorithm, max_input_len, okm, output_len, prk_algorithm};
ghost use Rattle.ring.specs.Prelude.{salt_algorithm};

use ring::digest::SHA256;
use ring::error::Unspecified;
use ring::hkdf::{HKDF_SHA256, KeyType, Prk, Salt, is_output_within, max_okm_len};
use ring::hmac::{HMAC_SHA256, Key, Tag, sign};

/// A number of bytes.
#[derive(Drop)]
pub struct Length(pub usize);

impl KeyType for Length {
    ghost key_len = { λ length. length.0 };

    fn len(&self) -> usize {
        self.0
    }
}

/// Fills the whole of `out` with output for the purpose that `info` names. Where that is
/// refused, `out` is as it was.
pub fn expand_secret(
    salt: &[u8],
    secret: &[u8],
    info: &[&[u8]],
    out: &mut [u8],
) -> Result<(), Unspecified>
    ensures ok { OnOk result (out.new ≡ okm SHA256
        (hmac_of SHA256 salt.now secret.now) (joined info.now) (length out.old)) }
    ensures refused { IsOk result ↔ ((length salt.now ≤ max_input_len SHA256)
        × IsTagWithin SHA256 (length secret.now)
        × IsOutputWithin SHA256 (length out.old)
        × IsInfoWithin SHA256 (length (joined info.now)) (length out.old)) }
    ensures unchanged { OnErr result (out.new ≡ out.old) }
{
    let prk = Salt::new(HKDF_SHA256, salt)?.extract(secret)?;
    prk.expand(info, Length(out.len()))?.fill(out)
}

/// The tag of a message under a key that is made of output: 32 bytes for the purpose of `info`.
pub fn tag_under_output(
    salt: &[u8],
    secret: &[u8],
    info: &[&[u8]],
    message: &[u8],
) -> Result<Tag, Unspecified>
    ensures ok { IfOk result (λ tag. IsTag tag SHA256 (okm SHA256
        (hmac_of SHA256 salt.now secret.now) (joined info.now) 32) message.now) }
    ensures refused { IsOk result ↔ ((length salt.now ≤ max_input_len SHA256)
        × IsTagWithin SHA256 (length secret.now)
        × IsInfoWithin SHA256 (length (joined info.now)) 32
        × IsTagWithin SHA256 (length message.now)) }
{
    let prk = Salt::new(HKDF_SHA256, salt)?.extract(secret)?;
    let key = Key::try_from(prk.expand(info, HMAC_SHA256)?)?;
    sign(&key, message)
}

/// Fills the whole of `out` with output of a pseudorandom key that was kept as bytes. Where that is
/// refused, `out` is as it was.
pub fn expand_stored(
    pseudorandom_key: &[u8],
    info: &[&[u8]],
    out: &mut [u8],
) -> Result<(), Unspecified>
    ensures ok { OnOk result (out.new ≡ okm SHA256
        pseudorandom_key.now (joined info.now) (length out.old)) }
    ensures refused { IsOk result ↔ ((length pseudorandom_key.now ≤ max_input_len SHA256)
        × IsOutputWithin SHA256 (length out.old)
        × IsInfoWithin SHA256 (length (joined info.now)) (length out.old)) }
    ensures unchanged { OnErr result (out.new ≡ out.old) }
{
    let stored = Prk::new_less_safe(HKDF_SHA256, pseudorandom_key)?;
    stored.expand(info, Length(out.len()))?.fill(out)
}

/// The next pseudorandom key of a chain: it is made of 32 bytes of output of the current one.
pub fn next_key(current: &Prk, info: &[&[u8]]) -> Result<Prk, Unspecified>
    ensures ok { (k : List ℕ) → PrkStandsFor current.now k → IfOk result (λ next.
        PrkStandsFor next (okm (prk_algorithm current.now) k (joined info.now) 32)) }
    ensures algorithm { IfOk result (λ next. prk_algorithm next ≡ SHA256) }
    ensures refused { IsOk result
        ↔ IsInfoWithin (prk_algorithm current.now) (length (joined info.now)) 32 }
{
    Prk::try_from(current.expand(info, HKDF_SHA256)?)
}

/// The salt of a key schedule's next stage: it is made of 32 bytes of output of the current
/// pseudorandom key.
pub fn next_salt(current: &Prk, info: &[&[u8]]) -> Result<Salt, Unspecified>
    ensures ok { (k : List ℕ) → PrkStandsFor current.now k → IfOk result (λ salt.
        SaltStandsFor salt (okm (prk_algorithm current.now) k (joined info.now) 32)) }
    ensures algorithm { IfOk result (λ salt. salt_algorithm salt ≡ SHA256) }
    ensures refused { IsOk result
        ↔ IsInfoWithin (prk_algorithm current.now) (length (joined info.now)) 32 }
{
    Salt::try_from(current.expand(info, HKDF_SHA256)?)
}

/// A key for tags by the salt's own algorithm, made of output for the purpose of `info`.
pub fn key_under_salt(salt: &Salt, secret: &[u8], info: &[&[u8]]) -> Result<Key, Unspecified>
    ensures ok { (s : List ℕ) → SaltStandsFor salt.now s → IfOk result (λ key.
        KeyStandsFor key (okm (salt_algorithm salt.now)
        (hmac_of (salt_algorithm salt.now) s secret.now) (joined info.now)
        (output_len (salt_algorithm salt.now)))) }
    ensures algorithm { IfOk result (λ key. key_algorithm key ≡ salt_algorithm salt.now) }
    ensures refused { IsOk result ↔ (IsTagWithin (salt_algorithm salt.now) (length secret.now)
        × IsInfoWithin (salt_algorithm salt.now) (length (joined info.now))
        (output_len (salt_algorithm salt.now))) }
{
    let prk = salt.extract(secret)?;
    let asked = prk.expand(info, salt.algorithm().hmac_algorithm())?;
    Key::try_from(asked)
}

/// The current pseudorandom key of a chain and the next one, each to be kept.
pub fn current_and_next(current: &Prk, info: &[&[u8]]) -> Result<(Prk, Prk), Unspecified>
    ensures current { IfOk result (λ both. both.0 ≡ current.now) }
    ensures next { (k : List ℕ) → PrkStandsFor current.now k → IfOk result (λ both.
        PrkStandsFor both.1 (okm (prk_algorithm current.now) k (joined info.now) 32)) }
    ensures algorithm { IfOk result (λ both. prk_algorithm both.1 ≡ SHA256) }
    ensures refused { IsOk result
        ↔ IsInfoWithin (prk_algorithm current.now) (length (joined info.now)) 32 }
{
    let next = next_key(current, info)?;
    Ok((current.clone(), next))
}

/// How many bytes an output has that was asked for: refused where 255 digests have fewer.
pub fn asked_len(prk: &Prk, info: &[&[u8]], len: usize) -> Result<usize, Unspecified>
    ensures ok { IfOk result (λ asked. asked ≡ len) }
    ensures refused { IsErr result ↔ (255 * output_len (prk_algorithm prk.now) < len) }
{
    Ok(prk.expand(info, Length(len))?.len().0)
}

/// Whether an output of `len` bytes can be asked for.
pub fn can_ask(len: usize) -> bool
    ensures { IsTrue result ↔ IsOutputWithin SHA256 len }
{
    is_output_within(&HKDF_SHA256, len as u128)
}

/// The number of bytes of the longest output.
pub fn most_to_ask() -> u128
    ensures { result ≡ 8160 }
{
    max_okm_len(&HKDF_SHA256)
}
