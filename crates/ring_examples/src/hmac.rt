// SPDX-License-Identifier: ISC
//! Tags and their verification.

ghost use Rattle.std.specs.Prelude.{◌≡◌, ◌↔◌, ◌⊎◌, ◌+◌, ◌<◌, ◌≤◌, ◌++◌};
ghost use Rattle.std.specs.Prelude.{ℕ, List, length, IfOk, IsErr, IsOk, IsTrue, OnErr, OnOk};
ghost use Rattle.ring.specs.Prelude.{IsTag, IsTagWithin, KeyStandsFor, block_len, hmac_of};
ghost use Rattle.ring.specs.Prelude.{key_algorithm, max_input_len, output_len, padded_blocks};
ghost use Rattle.ring.specs.Prelude.{raised};

use ring::cost::Meter;
use ring::digest::SHA256;
use ring::error::Unspecified;
use ring::hmac::{Context, HMAC_SHA256, Key, Tag, is_tag_within, verify};
use ring::laws::sign_pieces;

/// The tag of two pieces taken as one message.
pub fn tag_of_two(key: &[u8], first: &[u8], second: &[u8]) -> Result<Tag, Unspecified>
    ensures ok { IfOk result (λ tag. IsTag tag SHA256 key.now (first.now ++ second.now)) }
    ensures refused { IsErr result ↔ ((max_input_len SHA256 < length key.now)
        ⊎ (max_input_len SHA256 < 64 + length (first.now ++ second.now))) }
{
    let key = Key::new(HMAC_SHA256, key)?;
    let mut context = Context::with_key(&key);
    context.update(first);
    context.update(second);
    context.sign()
}

/// Ok exactly where the key and the message are within the limits, and `tag` is the whole tag.
pub fn verify_tag(key: &[u8], message: &[u8], tag: &[u8]) -> Result<(), Unspecified>
    ensures ok { IsOk result ↔ ((length key.now ≤ max_input_len SHA256)
        × IsTagWithin SHA256 (length message.now)
        × (tag.now ≡ hmac_of SHA256 key.now message.now)) }
{
    let key = Key::new(HMAC_SHA256, key)?;
    verify(&key, message, tag)
}

/// The tag of two pieces under a key that is there, its blocks counted by `meter`: those of the
/// padded message, and one for the outer digest.
pub fn tag_counted(
    key: &Key,
    first: &[u8],
    second: &[u8],
    meter: &mut Meter,
) -> Result<Tag, Unspecified>
    ensures ok { (k : List ℕ) → KeyStandsFor key.now k
        → IfOk result (λ tag. IsTag tag (key_algorithm key.now) k (first.now ++ second.now)) }
    ensures refused { IsErr result ↔ (max_input_len (key_algorithm key.now)
        < block_len (key_algorithm key.now) + length (first.now ++ second.now)) }
    ensures unchanged { OnErr result (meter.new ≡ meter.old) }
    ensures cost { OnOk result (meter.new ≡ raised meter.old (padded_blocks
        (key_algorithm key.now) (length (first.now ++ second.now)) + 1) 0) }
{
    sign_pieces(key, &[first, second], meter)
}

/// The tag of a front of a message, and that of the whole: a copy of the context is signed midway,
/// and the context itself goes on.
pub fn tags_of_front_and_whole(
    key: &Key,
    front: &[u8],
    rest: &[u8],
) -> Result<(Tag, Tag), Unspecified>
    ensures front { (k : List ℕ) → KeyStandsFor key.now k
        → IfOk result (λ tags. IsTag tags.0 (key_algorithm key.now) k front.now) }
    ensures whole { (k : List ℕ) → KeyStandsFor key.now k
        → IfOk result (λ tags. IsTag tags.1 (key_algorithm key.now) k (front.now ++ rest.now)) }
    ensures refused { IsErr result ↔ (max_input_len (key_algorithm key.now)
        < block_len (key_algorithm key.now) + length (front.now ++ rest.now)) }
{
    let mut context = Context::with_key(key);
    context.update(front);
    let of_front = context.clone().sign()?;
    context.update(rest);
    let of_whole = context.sign()?;
    Ok((of_front, of_whole))
}

/// A sender and a receiver with the same key, each with a key of its own.
pub fn key_for_both(key: &Key) -> (Key, Key)
    ensures { result ≡ (key.now, key.now) }
{
    (key.clone(), key.clone())
}

/// How many bytes a tag under this key has.
pub fn tag_len(key: &Key) -> usize
    ensures { result ≡ output_len (key_algorithm key.now) }
{
    key.algorithm().digest_algorithm().output_len()
}

/// Whether a message of `len` bytes can be signed.
pub fn can_sign(len: usize) -> bool
    ensures { IsTrue result ↔ IsTagWithin SHA256 len }
{
    is_tag_within(&HMAC_SHA256, len as u128)
}
