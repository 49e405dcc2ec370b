// SPDX-License-Identifier: ISC
//! Values of as many bytes as a hash has.

ghost use Rattle.std.specs.Prelude.{◌≡◌, ◌↔◌, length, IfOk, IsOk};
ghost use Rattle.ring_schedules.specs.Hash.{hash_len, zeros};
ghost use Rattle.ring_schedules.specs.Value.{value_of};

use crate::hash::{Hash, MAX_HASH_LEN};
use ring::error::Unspecified;

// A secret, a key or the hash of a transcript: Hash.length bytes (RFC 8446, section 7.1).
#[derive(Drop)]
pub(crate) struct HashValue {
    hash: Hash,
    room: [u8; MAX_HASH_LEN],
}

impl HashValue {
    // The value `bytes`. Refused where `hash` has another number of bytes.
    pub(crate) fn new(hash: Hash, bytes: &[u8]) -> Result<Self, Unspecified>
        ensures ok { IfOk result (λ value.
            value_of value ≡ record { hash = hash; bytes = bytes.now }) }
        ensures refused { IsOk result ↔ (length bytes.now ≡ hash_len hash) }
    {
        if bytes.len() != hash.len() {
            return Err(Unspecified);
        }
        let mut room = [0; MAX_HASH_LEN];
        room[..bytes.len()].copy_from_slice(bytes);
        Ok(HashValue { hash, room })
    }

    // Hash.length zeros.
    pub(crate) fn zeros(hash: Hash) -> Self
        ensures { value_of result ≡ record { hash = hash; bytes = zeros hash } }
    {
        HashValue {
            hash,
            room: [0; MAX_HASH_LEN],
        }
    }

    pub(crate) fn hash(&self) -> Hash
        ensures { result ≡ (value_of self.now).hash }
    {
        self.hash
    }

    pub(crate) fn as_ref(&self) -> &[u8]
        ensures bytes { result.now ≡ (value_of self.now).bytes }
        ensures len { length result.now ≡ hash_len (value_of self.now).hash }
    {
        &self.room[..self.hash.len()]
    }
}
