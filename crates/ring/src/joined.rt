// SPDX-License-Identifier: ISC
//! The digest and the tag of a message that is given as a list of pieces.

ghost use Rattle.std.specs.Prelude.{◌≡◌, ◌↔◌, ℕ, ◌+◌, ◌<◌, List, length, IfOk, IsErr, OnErr, OnOk};
ghost use Rattle.ring.specs.Prelude.{IsDigest, IsTag, KeyStandsFor, block_len, joined};
ghost use Rattle.ring.specs.Prelude.{key_algorithm, max_input_len, padded_blocks, raised};
ghost use Rattle.ring.specs.Prelude.{tag_algorithm};

use crate::digest::{Algorithm, Context, Digest};
use crate::hmac::{self, Key, Tag};
use crate::limits::message::is_message_within;
use crate::limits::{is_tag_within, joined_len};
use ring_core::cost::Meter;
use ring_core::error::Unspecified;

/// Returns the digest under `algorithm` of the message that `pieces` join to (FIPS 180-4, section
/// 6), from a [`Context`] that is updated piece by piece. Its blocks are counted on `meter`: as
/// many as the joined message has.
///
/// Refused where the pieces together are longer than the algorithm's `max_input_len` bytes. `meter`
/// is then as it was.
pub fn digest_pieces(
    algorithm: &Algorithm,
    pieces: &[&[u8]],
    meter: &mut Meter,
) -> Result<Digest, Unspecified>
    ensures ok { IfOk result (λ digest. IsDigest digest algorithm.now (joined pieces.now)) }
    ensures refused { IsErr result ↔ (max_input_len algorithm.now < length (joined pieces.now)) }
    ensures unchanged { OnErr result (meter.new ≡ meter.old) }
    ensures cost { OnOk result (meter.new
        ≡ raised meter.old (padded_blocks algorithm.now (length (joined pieces.now))) 0) }
{
    if !is_message_within(algorithm, joined_len(pieces)) {
        return Err(Unspecified);
    }
    let mut context = Context::new(algorithm);
    'pieces: for piece in pieces {
        context.update_counted(piece, meter);
    }
    context.finish_counted(meter)
}

/// Returns the tag under `key` of the message that `pieces` join to (RFC 2104, section 2), from a
/// context that is updated piece by piece. Its blocks are counted on `meter`: as many as the joined
/// message has.
///
/// Refused where one block and the pieces together are longer than the digest algorithm's
/// `max_input_len` bytes. `meter` is then as it was.
pub fn sign_pieces(key: &Key, pieces: &[&[u8]], meter: &mut Meter) -> Result<Tag, Unspecified>
    ensures ok { (k : List ℕ) → KeyStandsFor key.now k
        → IfOk result (λ tag. IsTag tag (key_algorithm key.now) k (joined pieces.now)) }
    ensures refused { IsErr result
        ↔ (max_input_len (key_algorithm key.now)
        < block_len (key_algorithm key.now) + length (joined pieces.now)) }
    ensures unchanged { OnErr result (meter.new ≡ meter.old) }
    ensures cost { OnOk result (meter.new ≡ raised meter.old
        (padded_blocks (key_algorithm key.now) (length (joined pieces.now)) + 1) 0) }
    ensures algorithm { IfOk result (λ tag. tag_algorithm tag ≡ key_algorithm key.now) }
{
    if !is_tag_within(&key.algorithm(), joined_len(pieces)) {
        return Err(Unspecified);
    }
    let mut context = hmac::Context::with_key(key);
    'parts: for piece in pieces {
        context.update_counted(piece, meter);
    }
    context.sign_counted(meter)
}
