// SPDX-License-Identifier: ISC
//! Names in lists: a backslash, a line feed and a carriage return are escaped, so that each name
//! stands on one line.

ghost use Rattle.std.specs.Prelude.{◌≡◌, ◌≤◌, ◌∷◌, ◌++◌, IfOk, IfSome, MatchOption, None, OnOk};
ghost use Rattle.std.specs.Prelude.{Some, length, option_map};
ghost use Rattle.ring_sums.specs.Names.{before, escaped, escaped_byte, is_special, needs_escape};
ghost use Rattle.ring_sums.specs.Names.{unescaped, unescaped_byte};

use std::alloc::{AllocError, Global};

/// Whether a byte of a name is escaped.
fn is_special(byte: u8) -> bool
    ensures { result ≡ is_special byte }
{
    byte == b'\\' || byte == b'\n' || byte == b'\r'
}

/// Whether a name has a byte that is escaped.
pub(crate) fn needs_escape(name: &[u8]) -> bool
    ensures { result ≡ needs_escape name.now }
{
    name.iter().any(|byte| is_special(*byte))
}

/// Appends a byte of a name, escaped where it has to be.
fn append_byte(out: &mut Vec<u8>, byte: u8) -> Result<(), AllocError>
    ensures ok { OnOk result (out.new.items ≡ out.old.items ++ escaped_byte byte) }
{
    match byte {
        b'\\' => out.extend_from_slice(b"\\\\")?,
        b'\n' => out.extend_from_slice(b"\\n")?,
        b'\r' => out.extend_from_slice(b"\\r")?,
        _ => out.push(byte)?,
    }
    Ok(())
}

/// Appends a name with its escapes.
pub(crate) fn append_escaped(out: &mut Vec<u8>, name: &[u8]) -> Result<(), AllocError>
    ensures ok { OnOk result (out.new.items ≡ out.old.items ++ escaped name.now) }
{
    for byte in name {
        append_byte(out, *byte)?;
    }
    Ok(())
}

/// The byte whose escape has this letter behind the backslash.
fn unescaped_byte(letter: u8) -> Option<u8>
    ensures { result ≡ unescaped_byte letter }
{
    match letter {
        b'\\' => Some(b'\\'),
        b'n' => Some(b'\n'),
        b'r' => Some(b'\r'),
        _ => None,
    }
}

/// The byte for which the first bytes stand, and those behind them; `None` where they are a
/// backslash that begins no escape.
#[tactic(auto, unfolding(crate::specs::Names::unescaped))]
fn next_byte(first: u8, rest: &[u8]) -> Option<(u8, &[u8])>
    ensures is { MatchOption result (unescaped (first ∷ rest.now) ≡ None)
        (λ next. unescaped (first ∷ rest.now) ≡ before (Some next.0) (unescaped next.1.now)) }
    ensures shorter { IfSome result (λ next. length next.1.now ≤ length rest.now) }
{
    if first != b'\\' {
        return Some((first, rest));
    }
    let (letter, behind) = rest.split_first()?;
    Some((unescaped_byte(*letter)?, behind))
}

/// The name whose escapes are these bytes, or `None` where a backslash begins no escape.
pub(crate) fn unescaped(alloc: Global, bytes: &[u8]) -> Result<Option<Vec<u8>>, AllocError>
    ensures ok { IfOk result (λ name. option_map (λ v. v.items) name ≡ unescaped bytes.now) }
{
    let mut name = Vec::new(alloc);
    let mut rest = bytes;
    'bytes: while let Some((first, behind)) = rest.split_first() {
        let Some((byte, behind)) = next_byte(*first, behind) else {
            return Ok(None);
        };
        name.push(byte)?;
        rest = behind;
    }
    Ok(Some(name))
}
