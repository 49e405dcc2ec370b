// SPDX-License-Identifier: ISC
//! JSON Web Signatures in the compact serialisation, under HMAC (RFC 7515, RFC 7518, section 3.2).
//!
//! A service signs the claims of a user, and later takes them back from the token that it is given:
//!
//! ```
//! let key = Key::new(Alg::Hs256, secret)?;
//! let token = sign(alloc, claims, &key)?;
//! let claims = verify(alloc, token, &key)?;
//! ```
//!
//! [`sign_in_place`] and [`verify_in_place`] take no memory.

ghost use Rattle.std.specs.Prelude.{◌≡◌, ◌^◌, ◌<◌, ◌≤◌, ◌++◌, drop, length, IfSome, IsNone};
ghost use Rattle.std.specs.Prelude.{OnErr, OnOk};
ghost use Rattle.ring.specs.Prelude.{raised};
ghost use Rattle.ring_tokens.specs.Cost.{HasVerified, signed_blocks};
ghost use Rattle.ring_tokens.specs.Gives.{SignsInPlace, SignsToken, VerifiesInPlace, VerifiesToken};
ghost use Rattle.ring_tokens.specs.Header.{usual_header};
ghost use Rattle.ring_tokens.specs.Jws.{alg_of, signing_input, usual_token_len};

use crate::alg::Alg;
use crate::decoded::{decode, decode_into};
use crate::error::TokenError;
use crate::header::is_header;
use crate::header_text::{USUAL_TEXT_LEN, is_usual_text, usual_text};
use crate::key::Key;
use crate::put::{put, put_base64url};
use crate::signature::signed_parts;
use base64::encoded_len;
use ring::cost::Meter;
use ring::hmac;
use std::alloc::Allocator;

/// Validates a token as [`verify`] does, and counts its blocks and compared pairs of bytes on
/// `meter`: those of what is signed and of a whole signature, whatever is wrong with the token. A
/// text of no three parts costs nothing.
pub fn verify_counted<A: Allocator + Copy>(
    alloc: A,
    token: &[u8],
    key: &Key,
    meter: &mut Meter,
) -> Result<Vec<u8, A>, TokenError>
    ensures plain { VerifiesToken key.now token.now result }
    ensures cost { HasVerified (alg_of key.now) token.now meter.old meter.new }
{
    let Some(parts) = signed_parts(token, key, meter) else {
        return Err(TokenError::Invalid);
    };
    let header = match decode(alloc, parts.header) {
        Ok(header) => header,
        Err(error) => return Err(error),
    };
    match is_header(alloc, key.alg, &header) {
        Ok(true) => decode(alloc, parts.payload),
        Ok(false) => Err(TokenError::Invalid),
        Err(_) => Err(TokenError::Memory),
    }
}

/// Returns the payload of a token that the key signed (RFC 7515, section 5.2).
///
/// Refused as `Invalid` exactly if the text is no token of the key, for any reason, and as `Memory`
/// if `alloc` has no memory for what is read of it. The header is read only once the signature is
/// the key's: what the key did not sign is `Invalid`, whatever memory there is.
pub fn verify<A: Allocator + Copy>(
    alloc: A,
    token: &[u8],
    key: &Key,
) -> Result<Vec<u8, A>, TokenError>
    ensures { VerifiesToken key.now token.now result }
{
    verify_counted(alloc, token, key, &mut Meter::new())
}

/// Validates a token as [`verify_in_place`] does, and counts its blocks and compared pairs of bytes
/// on `meter`, as [`verify_counted`] does. Where the buffer is too short, `meter` is as it was.
pub fn verify_in_place_counted(
    token: &[u8],
    key: &Key,
    out: &mut [u8],
    meter: &mut Meter,
) -> Result<usize, TokenError>
    ensures plain { VerifiesInPlace key.now token.now out.old out.new result }
    ensures cost { length token.now ≤ length out.old
        → HasVerified (alg_of key.now) token.now meter.old meter.new }
    ensures cost_untested { length out.old < length token.now → meter.new ≡ meter.old }
{
    if out.len() < token.len() {
        return Err(TokenError::NoRoom);
    }
    let Some(parts) = signed_parts(token, key, meter) else {
        return Err(TokenError::Invalid);
    };
    if !is_usual_text(key.alg, parts.header) {
        return Err(TokenError::Invalid);
    }
    match decode_into(parts.payload, out) {
        Some(len) => Ok(len),
        None => Err(TokenError::Invalid),
    }
}

/// Writes the payload of a token that the key signed (RFC 7515, section 5.2) to the start of `out`
/// with no memory but the call's own, and returns how many bytes it is. The header is
/// `{"alg":..,"typ":"JWT"}`, `{"typ":"JWT","alg":..}` or `{"alg":..}` letter by letter, as most
/// systems write it.
///
/// Refused as `NoRoom` exactly if `out` is shorter than the token, and else as `Invalid` exactly if
/// the text is no token of `key` under one of these headers. `out` is then as it was.
pub fn verify_in_place(token: &[u8], key: &Key, out: &mut [u8]) -> Result<usize, TokenError>
    ensures { VerifiesInPlace key.now token.now out.old out.new result }
{
    verify_in_place_counted(token, key, out, &mut Meter::new())
}

/// The length in bytes of a token that is signed for `alg` with a payload of `payload_len` bytes
/// (RFC 7515, section 7.1). `None` if it is above `usize::MAX`.
pub fn token_len(alg: Alg, payload_len: usize) -> Option<usize>
    ensures ok { IfSome result (λ n. n ≡ usual_token_len alg payload_len) }
    ensures refused { IsNone result → 2 ^ 64 ≤ usual_token_len alg payload_len }
{
    let Some(len) = encoded_len(payload_len, false) else {
        return None;
    };
    len.checked_add(USUAL_TEXT_LEN + 1 + 1 + alg.text_len())
}

// Writes what is signed: the header, a full stop and the payload. Returns how many bytes it is.
#[tactic(auto, using(crate::proofs::Puts::length_input, crate::proofs::Puts::length_usual))]
fn put_input(alg: Alg, payload: &[u8], out: &mut [u8]) -> usize
    requires { length (signing_input (usual_header alg) payload.now) ≤ length out.old }
    ensures place { result ≡ length (signing_input (usual_header alg) payload.now) }
    ensures written { out.new
        ≡ signing_input (usual_header alg) payload.now ++ drop result out.old }
{
    let at = put(out, 0, usual_text(alg));
    let at = put(out, at, b".");
    put_base64url(out, at, payload)
}

/// Signs a payload as [`sign_in_place`] does, and counts the blocks of the signature on `meter`. A
/// refusal leaves `meter` as it was.
#[tactic(auto, using(crate::proofs::Puts::length_input))]
pub fn sign_in_place_counted(
    payload: &[u8],
    key: &Key,
    out: &mut [u8],
    meter: &mut Meter,
) -> Result<usize, TokenError>
    ensures plain { SignsInPlace key.now payload.now out.old out.new result }
    ensures unchanged { OnErr result (meter.new ≡ meter.old) }
    ensures cost { OnOk result (meter.new
        ≡ raised meter.old (signed_blocks (alg_of key.now) (length payload.now)) 0) }
{
    let Some(len) = token_len(key.alg, payload.len()) else {
        return Err(TokenError::NoRoom);
    };
    if out.len() < len {
        return Err(TokenError::NoRoom);
    }
    if !key.alg.admits(len - 1 - key.alg.text_len()) {
        return Err(TokenError::TooLong);
    }
    let at = put_input(key.alg, payload, out);
    let Ok(signature) = hmac::sign_counted(&key.key, &out[..at], meter) else {
        unreachable!() // HMAC admits as many bytes.
    };
    let at = put(out, at, b".");
    Ok(put_base64url(out, at, signature.as_ref()))
}

/// Writes the token of a payload to the start of `out` with no memory but the call's own, and
/// returns how many bytes it is: [`token_len`] of the payload's. It is the token that [`sign`]
/// returns.
///
/// Refused as `NoRoom` exactly if `out` is shorter than the token, and else as `TooLong` exactly if
/// HMAC does not admit what is signed. `out` is then as it was.
pub fn sign_in_place(payload: &[u8], key: &Key, out: &mut [u8]) -> Result<usize, TokenError>
    ensures { SignsInPlace key.now payload.now out.old out.new result }
{
    sign_in_place_counted(payload, key, out, &mut Meter::new())
}

/// Signs a payload as [`sign`] does, and counts the blocks of the signature on `meter`. A refusal
/// leaves `meter` as it was.
#[tactic(auto, using(crate::proofs::Puts::whole_over))]
pub fn sign_counted<A: Allocator + Copy>(
    alloc: A,
    payload: &[u8],
    key: &Key,
    meter: &mut Meter,
) -> Result<Vec<u8, A>, TokenError>
    ensures plain { SignsToken key.now payload.now result }
    ensures unchanged { OnErr result (meter.new ≡ meter.old) }
    ensures cost { OnOk result (meter.new
        ≡ raised meter.old (signed_blocks (alg_of key.now) (length payload.now)) 0) }
{
    let Some(len) = token_len(key.alg, payload.len()) else {
        return Err(TokenError::Memory);
    };
    let mut token = vec![in alloc; 0; len]?;
    match sign_in_place_counted(payload, key, token.as_mut_slice(), meter) {
        Ok(_) => Ok(token),
        Err(_) => Err(TokenError::TooLong),
    }
}

/// Returns the token of a payload, under the header `{"alg":"HS256","typ":"JWT"}` or that of the
/// key's algorithm (RFC 7515, section 5.1). [`verify`] reads the payload back
/// ([`laws::signed_token_is_valid`](crate::laws::signed_token_is_valid)).
///
/// Refused as `TooLong` only if HMAC does not admit what is signed, and as `Memory` if `alloc` has
/// no memory for the token.
pub fn sign<A: Allocator + Copy>(
    alloc: A,
    payload: &[u8],
    key: &Key,
) -> Result<Vec<u8, A>, TokenError>
    ensures { SignsToken key.now payload.now result }
{
    sign_counted(alloc, payload, key, &mut Meter::new())
}
