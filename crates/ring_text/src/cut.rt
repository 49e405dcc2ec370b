// SPDX-License-Identifier: ISC
//! A text, cut at a byte or behind a prefix.

ghost use Rattle.std.specs.Prelude.{◌≡◌, ◌≢◌, ℕ, List, ◌++◌, IfSome, IsNone};
ghost use Rattle.ring_text.specs.Cut.{IsFirstCut, IsWithout};

use crate::same::is_same;
use memchr::memchr;

/// The text before the first `byte` of `text` and the text after it, or `None` if there is none.
pub fn cut_at(text: &[u8], byte: u8) -> Option<(&[u8], &[u8])>
    ensures ok { IfSome result (λ parts. IsFirstCut byte text.now parts.0.now parts.1.now) }
    ensures refused { IsNone result → IsWithout byte text.now }
{
    match memchr(byte, text) {
        Some(at) => Some((&text[..at], &text[at + 1..])),
        None => None,
    }
}

/// What follows `prefix` in `text`, or `None` if `text` does not begin with it.
pub fn after<'a>(text: &'a [u8], prefix: &[u8]) -> Option<&'a [u8]>
    ensures ok { IfSome result (λ rest. text.now ≡ prefix.now ++ rest.now) }
    ensures refused { IsNone result → (rest : List ℕ) → text.now ≢ prefix.now ++ rest }
{
    if text.len() < prefix.len() {
        return None;
    }
    let (front, rest) = text.split_at(prefix.len());
    if !is_same(front, prefix) {
        return None;
    }
    Some(rest)
}
