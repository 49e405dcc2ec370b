// SPDX-License-Identifier: ISC
//! Message authentication: HMAC (RFC 2104).
//!
//! A [`Key`] is made once, and then signs and verifies any number of messages. [`sign`] computes
//! the tag of one message, a [`Context`] that of a message that arrives in pieces, and [`verify`]
//! compares a tag with a message's:
//!
//! ```
//! pub fn tag_of_two(key: &[u8], first: &[u8], second: &[u8]) -> Result<Tag, Unspecified>
//!     ensures ok { IfOk result (λ tag. IsTag tag SHA256 key.now (first.now ++ second.now)) }
//!     ensures refused { IsErr result ↔ ((max_input_len SHA256 < length key.now)
//!         ⊎ (max_input_len SHA256 < 64 + length (first.now ++ second.now))) }
//! {
//!     let key = Key::new(HMAC_SHA256, key)?;
//!     let mut context = Context::with_key(&key);
//!     context.update(first);
//!     context.update(second);
//!     context.sign()
//! }
//!
//! /// Ok exactly where the key and the message are within the limits, and `tag` is the whole tag.
//! pub fn verify_tag(key: &[u8], message: &[u8], tag: &[u8]) -> Result<(), Unspecified>
//!     ensures ok { IsOk result ↔ ((length key.now ≤ max_input_len SHA256)
//!         × IsTagWithin SHA256 (length message.now)
//!         × (tag.now ≡ hmac_of SHA256 key.now message.now)) }
//! {
//!     let key = Key::new(HMAC_SHA256, key)?;
//!     verify(&key, message, tag)
//! }
//! ```
//!
//! The imports of these examples stand in `crates/ring_examples/src/hmac.rt`.

ghost use Rattle.std.specs.Prelude.{◌≡◌, ◌+◌, ◌<◌, length, OnErr, OnOk};
ghost use Rattle.ring.specs.Prelude.{IsTagWithin, SignsMessage, VerifiesTag, block_len};
ghost use Rattle.ring.specs.Prelude.{SHA1_FOR_LEGACY_USE_ONLY, SHA256, SHA384, SHA512, hmac_digest};
ghost use Rattle.ring.specs.Prelude.{compared_pairs, key_algorithm, max_input_len, output_len};
ghost use Rattle.ring.specs.Prelude.{padded_blocks, raised};

use ring_core::bb::verify_slices_are_equal_counted;
use ring_core::cost::Meter;
use ring_core::error::Unspecified;

pub(crate) mod context;
pub(crate) mod key;
pub(crate) mod prepared;

pub use crate::hmac::context::{Context, Tag};
pub use crate::hmac::key::{
    Algorithm, HMAC_SHA1_FOR_LEGACY_USE_ONLY, HMAC_SHA256, HMAC_SHA384, HMAC_SHA512, Key,
};
pub use crate::limits::is_tag_within;

/// States that each constant is HMAC over the digest algorithm of its name. The call does nothing.
pub fn constants_are_based_on_their_digests()
    ensures sha1 { hmac_digest HMAC_SHA1_FOR_LEGACY_USE_ONLY ≡ SHA1_FOR_LEGACY_USE_ONLY }
    ensures sha256 { hmac_digest HMAC_SHA256 ≡ SHA256 }
    ensures sha384 { hmac_digest HMAC_SHA384 ≡ SHA384 }
    ensures sha512 { hmac_digest HMAC_SHA512 ≡ SHA512 }
{}

/// Computes the tag of `message` under `key` as [`sign`] does, and counts its blocks on `meter`. A
/// refusal leaves `meter` as it was.
pub fn sign_counted(key: &Key, message: &[u8], meter: &mut Meter) -> Result<Tag, Unspecified>
    ensures plain { SignsMessage key.now message.now result }
    ensures unchanged { OnErr result (meter.new ≡ meter.old) }
    ensures cost { OnOk result (meter.new
        ≡ raised meter.old (padded_blocks (key_algorithm key.now) (length message.now) + 1) 0) }
{
    if !is_tag_within(&key.algorithm(), message.len() as u128) {
        return Err(Unspecified);
    }
    // This needs no `Context`, as `digest_counted` needs none.
    let mut inner = key.inner.clone();
    let rest = inner.update(message, meter);
    let digest = inner.finish_within(rest, meter);
    Ok(Tag::of_inner(&digest, &key.outer, meter))
}

/// Returns the tag of `message` under `key` (RFC 2104, section 2). It has as many bytes as a digest
/// of the key's algorithm.
///
/// Refused where one block and the message together are longer than the digest algorithm's
/// `max_input_len` bytes.
pub fn sign(key: &Key, message: &[u8]) -> Result<Tag, Unspecified>
    ensures { SignsMessage key.now message.now result }
{
    sign_counted(key, message, &mut Meter::new())
}

/// Compares `tag` as [`verify`] does, and counts the blocks and the compared pairs of bytes on
/// `meter`. A tag that differs costs as much as one that matches, but where its length is wrong no
/// pair is compared. Where the message is too long, `meter` is as it was.
#[tactic(auto, using(crate::proofs::lemmas::hmac::Keys::key_rules))]
pub fn verify_counted(
    key: &Key,
    message: &[u8],
    tag: &[u8],
    meter: &mut Meter,
) -> Result<(), Unspecified>
    ensures plain { VerifiesTag key.now message.now tag.now result }
    ensures unchanged { max_input_len (key_algorithm key.now)
        < block_len (key_algorithm key.now) + length message.now
        → meter.new ≡ meter.old }
    ensures cost { IsTagWithin (key_algorithm key.now) (length message.now)
        → meter.new ≡ raised meter.old
        (padded_blocks (key_algorithm key.now) (length message.now) + 1)
        (compared_pairs (output_len (key_algorithm key.now)) (length tag.now)) }
{
    let made = sign_counted(key, message, meter)?;
    verify_slices_are_equal_counted(made.as_ref(), tag, meter)
}

/// Returns Ok exactly if `tag` is the whole tag of `message` under `key` (RFC 2104, section 2). A
/// truncated tag does not verify.
///
/// Refused where `tag` differs, and where one block and the message together are longer than the
/// digest algorithm's `max_input_len` bytes.
pub fn verify(key: &Key, message: &[u8], tag: &[u8]) -> Result<(), Unspecified>
    ensures { VerifiesTag key.now message.now tag.now result }
{
    verify_counted(key, message, tag, &mut Meter::new())
}
