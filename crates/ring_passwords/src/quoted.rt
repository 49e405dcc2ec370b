// SPDX-License-Identifier: ISC
//! The words of a call as messages show them. A line feed, an escape or another control character
//! of a word doesn't reach the terminal, and Bash reads the word back.

ghost use Rattle.std.specs.Prelude.{◌≡◌, ◌++◌, false, OnOk};
ghost use Rattle.std.specs.List.{flat_map, list_all};
ghost use Rattle.std.specs.Str.{chars};
ghost use Rattle.ring_passwords.specs.Quoted.{escape, is_between, is_plain, part, parts, quoted};

use std::alloc::AllocError;

fn is_between(least: u8, most: u8, byte: u8) -> bool
    ensures { result ≡ is_between least most byte }
{
    least <= byte && byte <= most
}

/// Whether a byte is no sign to a shell.
fn is_plain(byte: u8) -> bool
    ensures { result ≡ is_plain byte }
{
    is_between(b'a', b'z', byte)
        || is_between(b'@', b'Z', byte)
        || is_between(b'+', b':', byte)
        || byte == b'%'
        || byte == b'='
        || byte == b'_'
}

fn is_all_plain(word: &[u8]) -> bool
    ensures { result ≡ list_all is_plain word.now }
{
    word.iter().all(|byte| is_plain(*byte))
}

/// Appends a backslash, and a byte in three octal digits.
fn append_escape(out: &mut Vec<u8>, byte: u8) -> Result<(), AllocError>
    ensures ok { OnOk result (out.new.items ≡ out.old.items ++ escape byte) }
{
    out.extend_from_slice(&[
        b'\\',
        b'0' + byte / 64,
        b'0' + byte / 8 % 8,
        b'0' + byte % 8,
    ])?;
    Ok(())
}

fn append_escapes(out: &mut Vec<u8>, bytes: &[u8]) -> Result<(), AllocError>
    ensures ok { OnOk result (out.new.items ≡ out.old.items ++ flat_map escape bytes.now) }
{
    for byte in bytes {
        append_escape(out, *byte)?;
    }
    Ok(())
}

/// Appends a character between single quotes, and a control character between `$'` and `'`.
fn append_part(out: &mut Vec<u8>, behind_control: bool, character: char) -> Result<(), AllocError>
    ensures ok { OnOk result (out.new.items ≡ out.old.items ++ part behind_control character) }
{
    let mut room = [0; 4];
    let bytes = character.encode_utf8(&mut room).as_bytes();
    if character.is_control() {
        if !behind_control {
            out.extend_from_slice(b"'$'")?;
        }
        return append_escapes(out, bytes);
    }
    if behind_control {
        out.extend_from_slice(b"''")?;
    }
    if character == '\'' {
        out.extend_from_slice(b"'\\''")?;
    } else {
        out.extend_from_slice(bytes)?;
    }
    Ok(())
}

/// Appends the characters of a word.
fn append_parts(out: &mut Vec<u8>, word: &str) -> Result<(), AllocError>
    ensures ok { OnOk result (out.new.items ≡ out.old.items ++ parts false (chars word.now)) }
{
    let mut behind_control = false;
    for character in word.chars() {
        append_part(out, behind_control, character)?;
        behind_control = character.is_control();
    }
    Ok(())
}

/// Appends a word as messages show it.
pub fn append_quoted(out: &mut Vec<u8>, word: &str) -> Result<(), AllocError>
    ensures ok { OnOk result (out.new.items ≡ out.old.items ++ quoted word.now) }
{
    if !word.is_empty() && is_all_plain(word.as_bytes()) {
        out.extend_from_slice(word.as_bytes())?;
        return Ok(());
    }
    out.push(b'\'')?;
    append_parts(out, word)?;
    out.push(b'\'')?;
    Ok(())
}
