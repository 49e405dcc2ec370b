// SPDX-License-Identifier: ISC
//! The parts of a token, written to a buffer.

ghost use Rattle.std.specs.Prelude.{◌+◌, ◌≤◌, length};
ghost use Rattle.base64.specs.Rfc4648.{unpadded_len};
ghost use Rattle.ring_tokens.specs.Jws.{base64url};
ghost use Rattle.ring_tokens.specs.Put.{IsPut};

use base64::engine::general_purpose::URL_SAFE_NO_PAD;

/// Writes `bytes` from the place `at` on. Returns the place behind them.
pub(crate) fn put(out: &mut [u8], at: usize, bytes: &[u8]) -> usize
    requires { at + length bytes.now ≤ length out.old }
    ensures { IsPut at result bytes.now out.old out.new }
{
    let end = at + bytes.len();
    out[at..end].copy_from_slice(bytes);
    end
}

/// Writes `bytes` as base64url from the place `at` on. Returns the place behind them.
pub(crate) fn put_base64url(out: &mut [u8], at: usize, bytes: &[u8]) -> usize
    requires { at + unpadded_len (length bytes.now) ≤ length out.old }
    ensures { IsPut at result (base64url bytes.now) out.old out.new }
{
    let Ok(len) = URL_SAFE_NO_PAD.encode_slice(bytes, &mut out[at..]) else {
        unreachable!() // There is room for them.
    };
    at + len
}
