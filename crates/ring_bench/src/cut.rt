// SPDX-License-Identifier: ISC
//! A text, cut at a byte.
ghost use Rattle.std.specs.Prelude.{IfSome, IsNone};
ghost use Rattle.ring_bench.specs.Cut.{IsFirstCut, IsWithout};

use memchr::memchr;

/// The text before the first `byte` of `text` and the text after it, or `None` if there is none.
pub fn cut_at(text: &[u8], byte: u8) -> Option<(&[u8], &[u8])>
    ensures ok { IfSome result (λ parts. IsFirstCut byte text.now parts.0.now parts.1.now) }
    ensures refused { IsNone result → IsWithout byte text.now }
{
    let at = memchr(byte, text)?;
    Some((&text[..at], &text[at + 1..]))
}
