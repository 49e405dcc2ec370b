// SPDX-License-Identifier: ISC
//! A token's text, cut at its full stops.

ghost use Rattle.std.specs.Prelude.{ℕ, List, IfSome, IsNone};
ghost use Rattle.ring_tokens.specs.Parts.{AreParts, IsCut};

use ring_text::cut_at;

/// The three parts of a token, and what of it is signed.
#[derive(Clone, Copy)]
pub(crate) struct Parts<'a> {
    pub input: &'a [u8],
    pub header: &'a [u8],
    pub payload: &'a [u8],
    pub signature: &'a [u8],
}

/// Cuts a token at its first two full stops.
pub(crate) fn parts_of(token: &[u8]) -> Option<Parts<'_>>
    ensures ok { IfSome result (λ parts. AreParts token.now parts) }
    ensures refused { IsNone result → (h p s : List ℕ) → IsCut token.now h p s → ⊥ }
{
    let Some((header, rest)) = cut_at(token, b'.') else {
        return None;
    };
    let Some((payload, signature)) = cut_at(rest, b'.') else {
        return None;
    };
    let input = &token[..header.len() + 1 + payload.len()];
    Some(Parts {
        input,
        header,
        payload,
        signature,
    })
}
