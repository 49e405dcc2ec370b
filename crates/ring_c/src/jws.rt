// SPDX-License-Identifier: ISC
//! Signed tokens: JSON Web Signatures (RFC 7515) under HMAC.

ghost use Rattle.std.specs.Prelude.{◌≡◌, ◌≢◌, ◌↔◌, ◌≤◌, ◌++◌, List, Some, drop, length, take, ℕ};
ghost use Rattle.std.specs.Prelude.{IsTrue, false, true};
ghost use Rattle.ring_tokens.specs.InPlace.{IsUsualJws};
ghost use Rattle.ring_tokens.specs.Jws.{usual_token, usual_token_len};
ghost use Rattle.ring_tokens.specs.declared.alg.Alg.{Alg};
ghost use Rattle.ring_c.specs.Jws.{sign_causes, verify_causes};
ghost use Rattle.ring_c.specs.Number.{jws_named};
ghost use Rattle.ring_c.specs.Status.{YZ_OK, YZ_UNKNOWN_ALGORITHM, status_of};

use crate::number::alg_of_number;
use crate::status::{OK, UNKNOWN_ALGORITHM, UNSPECIFIED, WRONG_LENGTH};
use ring_tokens::jws::{sign_in_place, token_len, verify_in_place};
use ring_tokens::{Alg, Key};

// Whether the token of a payload of `payload_len` bytes has at most `room` bytes.
fn has_room(alg: Alg, payload_len: usize, room: usize) -> bool
    ensures { IsTrue result ↔ (usual_token_len alg payload_len ≤ room) }
{
    match token_len(alg, payload_len) {
        Some(len) => len <= room,
        None => false,
    }
}

/// Writes to the start of `token` the token of `payload` under the key bytes `key`, by the HMAC
/// algorithm of the number `algorithm`, and to `token_len` how many bytes it has (RFC 7515, section
/// 5.1). The rest of `token` is unchanged. The header is `{"alg":..,"typ":"JWT"}`.
///
/// Refused as `UNKNOWN_ALGORITHM` exactly if RFC 7518 has no HMAC algorithm over the one of the
/// number; else as `WRONG_LENGTH` exactly if `token` is shorter than the token; else as
/// `UNSPECIFIED` exactly if the key is shorter than a digest (RFC 7518, section 3.2), or key or
/// payload are too long. `token` and `token_len` are then unchanged.
#[unsafe(no_mangle)]
pub extern "C" fn yz_jws_sign(
    algorithm: u32,
    key: &[u8],
    payload: &[u8],
    token: &mut [u8],
    token_len: &mut usize,
) -> i32
    ensures ok { (a : Alg) → jws_named algorithm ≡ Some a → result ≡ YZ_OK
        → (token.new ≡ usual_token a key.now payload.now
        ++ drop (usual_token_len a (length payload.now)) token.old)
        × (token_len.new ≡ usual_token_len a (length payload.now)) }
    ensures status { result ≡ status_of YZ_UNKNOWN_ALGORITHM (jws_named algorithm)
        (sign_causes (length token.old) (length key.now) payload.now) }
    ensures unchanged { result ≢ YZ_OK
        → (token.new ≡ token.old) × (token_len.new ≡ token_len.old) }
{
    let Some(alg) = alg_of_number(algorithm) else {
        return UNKNOWN_ALGORITHM;
    };
    if !has_room(alg, payload.len(), token.len()) {
        return WRONG_LENGTH;
    }
    let Ok(signing_key) = Key::new(alg, key) else {
        return UNSPECIFIED;
    };
    let Ok(len) = sign_in_place(payload, &signing_key, token) else {
        return UNSPECIFIED;
    };
    *token_len = len;
    OK
}

/// Writes to the start of `payload` the payload of `token`, which the key bytes `key` signed by the
/// HMAC algorithm of the number `algorithm`, and to `payload_len` how many bytes it has (RFC 7515,
/// section 5.2). The rest of `payload` is unchanged. The header is `{"alg":..,"typ":"JWT"}`,
/// `{"typ":"JWT","alg":..}` or `{"alg":..}`, letter by letter.
///
/// Refused as `UNKNOWN_ALGORITHM` exactly if RFC 7518 has no HMAC algorithm over the one of the
/// number; else as `WRONG_LENGTH` exactly if `payload` is shorter than `token`; else as
/// `UNSPECIFIED`: the text is no such token, or the key is shorter than a digest (RFC 7518, section
/// 3.2) or too long. `payload` and `payload_len` are then unchanged.
#[unsafe(no_mangle)]
pub extern "C" fn yz_jws_verify(
    algorithm: u32,
    key: &[u8],
    token: &[u8],
    payload: &mut [u8],
    payload_len: &mut usize,
) -> i32
    ensures ok { (a : Alg) → jws_named algorithm ≡ Some a → result ≡ YZ_OK
        → IsUsualJws a key.now token.now (take payload_len.new payload.new) }
    ensures within { result ≡ YZ_OK → payload_len.new ≤ length payload.old }
    ensures behind { result ≡ YZ_OK
        → drop payload_len.new payload.new ≡ drop payload_len.new payload.old }
    ensures valid { (p : List ℕ)
        → ((a : Alg) → jws_named algorithm ≡ Some a → IsUsualJws a key.now token.now p)
        → result ≡ status_of YZ_UNKNOWN_ALGORITHM (jws_named algorithm)
        (verify_causes (length payload.old) (length key.now) (length token.now) true) }
    ensures invalid { ((a : Alg) (p : List ℕ) → jws_named algorithm ≡ Some a
        → IsUsualJws a key.now token.now p → ⊥)
        → result ≡ status_of YZ_UNKNOWN_ALGORITHM (jws_named algorithm)
        (verify_causes (length payload.old) (length key.now) (length token.now) false) }
    ensures unchanged { result ≢ YZ_OK
        → (payload.new ≡ payload.old) × (payload_len.new ≡ payload_len.old) }
{
    let Some(alg) = alg_of_number(algorithm) else {
        return UNKNOWN_ALGORITHM;
    };
    if payload.len() < token.len() {
        return WRONG_LENGTH;
    }
    let Ok(verifying_key) = Key::new(alg, key) else {
        return UNSPECIFIED;
    };
    let Ok(len) = verify_in_place(token, &verifying_key, payload) else {
        return UNSPECIFIED;
    };
    *payload_len = len;
    OK
}
