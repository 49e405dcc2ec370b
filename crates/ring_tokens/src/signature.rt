// SPDX-License-Identifier: ISC
//! The signature of a token.

ghost use Rattle.std.specs.Prelude.{◌≡◌, ◌↔◌, ◌≤◌, ℕ, List, length, IfSome, IsNone, IsTrue};
ghost use Rattle.hex.specs.Hex.{IsBytes};
ghost use Rattle.ring.specs.Prelude.{IsTagWithin, hmac_of, raised};
ghost use Rattle.ring_tokens.specs.Alg.{algorithm_of, hash_len};
ghost use Rattle.ring_tokens.specs.Cost.{HasVerified, tag_blocks};
ghost use Rattle.ring_tokens.specs.InPlace.{IsDecoded};
ghost use Rattle.ring_tokens.specs.Jws.{IsBase64url, IsKey, IsTokenUnder, alg_of, base64url};
ghost use Rattle.ring_tokens.specs.Parts.{AreParts};

use crate::decoded::decode_over;
use crate::key::Key;
use crate::parts::{Parts, parts_of};
use ring::bb::verify_slices_are_equal_counted;
use ring::cost::Meter;
use ring::hmac;

// The most symbols of a signature's text: those of 64 bytes.
const MAX_TEXT_LEN: usize = 86;

// What takes the bytes of such a text: two more than it has symbols.
const ROOM: usize = MAX_TEXT_LEN + 2;

// Decodes a signature to the start of `out`, and returns how many bytes it is.
fn decode_signature(text: &[u8], out: &mut [u8; ROOM]) -> Option<usize>
    ensures ok { IfSome result (λ n. IsDecoded text.now n out.old out.new) }
    ensures refused { IsNone result → length text.now ≤ 86 → IsBase64url text.now → ⊥ }
{
    if text.len() > MAX_TEXT_LEN {
        return None;
    }
    decode_over(text, out)
}

// Whether the text is that of the signature `tag`. The text is decoded, and not the signature
// encoded, since symbols are looked up in a table. All bytes of the signature are compared,
// whatever the text is, so that only the answer depends on the signature.
fn is_text_of(tag: &[u8], text: &[u8], meter: &mut Meter) -> bool
    requires { length tag.now ≤ 64 }
    ensures ok { IsTrue result ↔ (text.now ≡ base64url tag.now) }
    ensures cost { meter.new ≡ raised meter.old 0 (length tag.now) }
{
    let mut given = [0; ROOM];
    let len = decode_signature(text, &mut given);
    let is_same = verify_slices_are_equal_counted(tag, &given[..tag.len()], meter).is_ok();
    is_same && len == Some(tag.len())
}

// Whether the text is that of the signature of `input`.
#[tactic(auto, using(crate::proofs::Rises::rise_compared))]
fn is_signature(key: &Key, input: &[u8], text: &[u8], meter: &mut Meter) -> bool
    ensures ok { (k : List ℕ) → IsKey key.now k → IsTrue result
        ↔ (IsTagWithin (algorithm_of (alg_of key.now)) (length input.now)
        × (text.now ≡ base64url (hmac_of (algorithm_of (alg_of key.now)) k input.now))) }
    ensures cost { IsTagWithin (algorithm_of (alg_of key.now)) (length input.now)
        → meter.new ≡ raised meter.old
        (tag_blocks (algorithm_of (alg_of key.now)) (length input.now))
        (hash_len (alg_of key.now)) }
    ensures unchanged { (IsTagWithin (algorithm_of (alg_of key.now)) (length input.now) → ⊥)
        → meter.new ≡ meter.old }
{
    let Ok(tag) = hmac::sign_counted(&key.key, input, meter) else {
        return false;
    };
    is_text_of(tag.as_ref(), text, meter)
}

/// The parts of a token, if its signature is the key's. Neither its header nor its payload is
/// decoded.
pub(crate) fn signed_parts<'a>(token: &'a [u8], key: &Key, meter: &mut Meter) -> Option<Parts<'a>>
    ensures parts { IfSome result (λ parts. AreParts token.now parts) }
    ensures ok { (k : List ℕ) → IsKey key.now k → IfSome result (λ parts.
        IsTagWithin (algorithm_of (alg_of key.now)) (length parts.input.now)
        × (parts.signature.now
        ≡ base64url (hmac_of (algorithm_of (alg_of key.now)) k parts.input.now))) }
    ensures refused { (k : List ℕ) → IsKey key.now k → IsNone result → (h p : List ℕ) → IsBytes h
        → IsTokenUnder (alg_of key.now) k h token.now p → ⊥ }
    ensures cost { HasVerified (alg_of key.now) token.now meter.old meter.new }
{
    let Some(parts) = parts_of(token) else {
        return None;
    };
    if !is_signature(key, parts.input, parts.signature, meter) {
        return None;
    }
    Some(parts)
}
