// SPDX-License-Identifier: ISC
//! The parts of a token as bytes.

ghost use Rattle.std.specs.Prelude.{◌≡◌, ◌≢◌, ◌↔◌, ◌⊎◌, ℕ, ◌+◌, ◌≤◌, List, length};
ghost use Rattle.std.specs.Prelude.{IfErr, IfOk, IfSome, IsErrOf, IsNone, IsTrue};
ghost use Rattle.hex.specs.Hex.{IsBytes};
ghost use Rattle.ring_tokens.specs.InPlace.{IsDecoded};
ghost use Rattle.ring_tokens.specs.Jws.{IsBase64url, base64url};

use crate::error::TokenError;
use base64::DecodeAllocError;
use base64::engine::general_purpose::URL_SAFE_NO_PAD;
use std::alloc::Allocator;

// The symbols that are decoded at a time, where a text is only tested: whole groups of four.
const PIECE_LEN: usize = 64;

/// The bytes of a part's whole text.
pub(crate) fn decode<A: Allocator>(alloc: A, text: &[u8]) -> Result<Vec<u8, A>, TokenError>
    ensures ok { IfOk result (λ bytes. (text.now ≡ base64url bytes.items) × IsBytes bytes.items) }
    ensures invalid { IsErrOf result TokenError.Invalid → (bytes : List ℕ) → IsBytes bytes
        → text.now ≢ base64url bytes }
    ensures refused { IfErr result (λ e. (e ≡ TokenError.Invalid) ⊎ (e ≡ TokenError.Memory)) }
{
    match URL_SAFE_NO_PAD.decode(alloc, text) {
        Ok(bytes) => Ok(bytes),
        Err(DecodeAllocError::OutOfMemory) => Err(TokenError::Memory),
        Err(DecodeAllocError::DecodeError(_)) => Err(TokenError::Invalid),
    }
}

/// Decodes a text to the start of `out`, which may have other bytes where it is no base64url.
pub(crate) fn decode_over(text: &[u8], out: &mut [u8]) -> Option<usize>
    requires { length text.now + 2 ≤ length out.old }
    ensures ok { IfSome result (λ n. IsDecoded text.now n out.old out.new) }
    ensures refused { IsNone result → IsBase64url text.now → ⊥ }
{
    match URL_SAFE_NO_PAD.decode_slice_unchecked(text, out) {
        Ok(len) => Some(len),
        Err(_) => None,
    }
}

// Whether so many symbols or fewer are the base64url of bytes.
fn is_piece(text: &[u8]) -> bool
    requires { length text.now ≤ 64 }
    ensures { IsTrue result ↔ IsBase64url text.now }
{
    match decode_over(text, &mut [0; PIECE_LEN + 2]) {
        Some(_) => true,
        None => false,
    }
}

// Whether the text is the base64url of bytes.
fn is_base64url(text: &[u8]) -> bool
    ensures { IsTrue result ↔ IsBase64url text.now }
{
    let mut rest = text;
    'pieces: while rest.len() > PIECE_LEN {
        let (piece, behind) = rest.split_at(PIECE_LEN);
        if !is_piece(piece) {
            return false;
        }
        rest = behind;
    }
    is_piece(rest)
}

/// Decodes a payload to the start of `out`, and returns how many bytes it is. The whole text is
/// tested first, so that a refusal leaves `out` as it was.
pub(crate) fn decode_into(text: &[u8], out: &mut [u8]) -> Option<usize>
    requires { length text.now + 2 ≤ length out.old }
    ensures ok { IfSome result (λ n. IsDecoded text.now n out.old out.new) }
    ensures refused { IsNone result → IsBase64url text.now → ⊥ }
    ensures unchanged { IsNone result → out.new ≡ out.old }
{
    if !is_base64url(text) {
        return None;
    }
    decode_over(text, out)
}
