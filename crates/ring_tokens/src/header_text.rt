// SPDX-License-Identifier: ISC
//! The three headers that most systems write, as base64url.

ghost use Rattle.std.specs.Prelude.{◌≡◌, ◌↔◌, IsTrue};
ghost use Rattle.ring_tokens.specs.Header.{bare_header, older_header, usual_header};
ghost use Rattle.ring_tokens.specs.InPlace.{IsUsualText};
ghost use Rattle.ring_tokens.specs.Jws.{base64url};

use crate::alg::Alg;
use ring_text::is_same;

/// The bytes of [`usual_text`].
pub(crate) const USUAL_TEXT_LEN: usize = 36;

/// `{"alg":..,"typ":"JWT"}`, which [`sign`](crate::jws::sign) writes.
pub(crate) fn usual_text(alg: Alg) -> &'static [u8]
    ensures { result.now ≡ base64url (usual_header alg) }
{
    match alg {
        Alg::Hs256 => b"eyJhbGciOiJIUzI1NiIsInR5cCI6IkpXVCJ9",
        Alg::Hs384 => b"eyJhbGciOiJIUzM4NCIsInR5cCI6IkpXVCJ9",
        Alg::Hs512 => b"eyJhbGciOiJIUzUxMiIsInR5cCI6IkpXVCJ9",
    }
}

// `{"typ":"JWT","alg":..}`.
fn older_text(alg: Alg) -> &'static [u8]
    ensures { result.now ≡ base64url (older_header alg) }
{
    match alg {
        Alg::Hs256 => b"eyJ0eXAiOiJKV1QiLCJhbGciOiJIUzI1NiJ9",
        Alg::Hs384 => b"eyJ0eXAiOiJKV1QiLCJhbGciOiJIUzM4NCJ9",
        Alg::Hs512 => b"eyJ0eXAiOiJKV1QiLCJhbGciOiJIUzUxMiJ9",
    }
}

// `{"alg":..}`.
fn bare_text(alg: Alg) -> &'static [u8]
    ensures { result.now ≡ base64url (bare_header alg) }
{
    match alg {
        Alg::Hs256 => b"eyJhbGciOiJIUzI1NiJ9",
        Alg::Hs384 => b"eyJhbGciOiJIUzM4NCJ9",
        Alg::Hs512 => b"eyJhbGciOiJIUzUxMiJ9",
    }
}

/// Whether the text is that of one of the three.
pub(crate) fn is_usual_text(alg: Alg, text: &[u8]) -> bool
    ensures { IsTrue result ↔ IsUsualText alg text.now }
{
    is_same(text, usual_text(alg))
        || is_same(text, older_text(alg))
        || is_same(text, bare_text(alg))
}
