// SPDX-License-Identifier: ISC
//! HKDF-Extract (RFC 5869, section 2.2).

ghost use Rattle.std.specs.Prelude.{◌≡◌, ◌↔◌, ◌≤◌, length, IfOk, IsOk};
ghost use Rattle.ring.specs.Prelude.{IsTagWithin, max_input_len};
ghost use Rattle.ring_schedules.specs.Hash.{algorithm_of, zeros};
ghost use Rattle.ring_schedules.specs.Label.{extract};
ghost use Rattle.ring_schedules.specs.Secret.{secret_value};
ghost use Rattle.ring_schedules.specs.Value.{value_of};

use crate::hash::Hash;
use crate::secret::Secret;
use crate::value::HashValue;
use ring::error::Unspecified;
use ring::hmac;

/// HKDF-Extract (RFC 5869, section 2.2): the pseudorandom key of `hash` that `salt` extracts from
/// the input keying material `keying_material`.
///
/// Refused where the salt, or one block and the keying material together, is longer than the digest
/// algorithm's `max_input_len` bytes.
pub fn hkdf_extract(hash: Hash, salt: &[u8], keying_material: &[u8]) -> Result<Secret, Unspecified>
    ensures ok { IfOk result (λ prk. secret_value prk ≡ extract hash salt.now keying_material.now) }
    ensures refused { IsOk result ↔ ((length salt.now ≤ max_input_len (algorithm_of hash))
        × IsTagWithin (algorithm_of hash) (length keying_material.now)) }
{
    let key = hmac::Key::new(hash.hmac_algorithm(), salt)?;
    let tag = hmac::sign(&key, keying_material)?;
    match Secret::new(hash, tag.as_ref()) {
        Ok(prk) => Ok(prk),
        // A tag has as many bytes as the hash.
        Err(_) => unreachable!(),
    }
}

// HKDF-Extract(salt, IKM), with a salt of as many bytes as a hash has.
pub(crate) fn extract_with(salt: &HashValue, keying_material: &[u8]) -> Result<Secret, Unspecified>
    ensures ok { IfOk result (λ prk. secret_value prk
        ≡ extract (value_of salt.now).hash (value_of salt.now).bytes keying_material.now) }
    ensures refused { IsOk result
        ↔ IsTagWithin (algorithm_of (value_of salt.now).hash) (length keying_material.now) }
{
    hkdf_extract(salt.hash(), salt.as_ref(), keying_material)
}

// HKDF-Extract(salt, 0), where zeros take the place of an absent secret (RFC 8446, section 7.1).
pub(crate) fn extract_zeros_with(salt: &HashValue) -> Secret
    ensures { secret_value result ≡ extract (value_of salt.now).hash (value_of salt.now).bytes
        (zeros (value_of salt.now).hash) }
{
    let Ok(secret) = extract_with(salt, HashValue::zeros(salt.hash()).as_ref()) else {
        // A hash is far shorter than the limit.
        unreachable!()
    };
    secret
}
