// SPDX-License-Identifier: ISC
//! Parts of messages, and a name as a message has it: in quotes where a shell would read it
//! otherwise.

use std::alloc::{AllocError, Global};

/// Parts, one after another.
pub(crate) fn joined(alloc: Global, parts: &[&[u8]]) -> Result<Vec<u8>, AllocError> {
    parts.concat(alloc)
}

/// How a name is quoted.
#[derive(Clone, Copy, PartialEq, Eq)]
enum Quotes {
    /// Not at all.
    None,
    /// Between double quotes: it has a single quote, and nothing else that they would change.
    Double,
    /// Between single quotes, with escapes between `$'` and `'`.
    Single,
}

/// Whether a byte of a name is no sign to a shell, of which some are one at the start or alone.
fn is_plain(byte: u8, is_first: bool, is_alone: bool) -> bool {
    match byte {
        b'#' | b'~' => !is_first,
        b'{' | b'}' => !is_alone,
        b'%' | b'+' | b',' | b'-' | b'.' | b'/' | b'@' | b']' | b'_' => true,
        _ => byte.is_ascii_alphanumeric(),
    }
}

/// Whether a byte stands for itself between double quotes.
fn is_plain_in_double_quotes(byte: u8, is_first: bool, is_alone: bool) -> bool {
    match byte {
        b'#' | b'~' => is_first,
        b'{' | b'}' => is_alone,
        b' ' | b'\'' | b'%' | b'+' | b',' | b'-' | b'.' | b'/' | b':' | b']' | b'_' => true,
        _ => byte.is_ascii_alphanumeric() || byte == b'@' || !byte.is_ascii(),
    }
}

/// Whether all of a name is text without control characters.
fn is_printable(name: &[u8]) -> bool {
    match std::str::from_utf8(name) {
        Ok(text) => !text.chars().any(|character| character.is_control()),
        Err(_) => false,
    }
}

/// Whether each byte of a name is text beyond ASCII or plain.
fn is_all_plain(name: &[u8]) -> bool {
    let is_alone = name.len() == 1;
    let mut bytes = name.iter().enumerate();
    bytes.all(|(place, byte)| !byte.is_ascii() || is_plain(*byte, place == 0, is_alone))
}

/// Whether a name has a single quote, and all of it stands for itself between double quotes.
fn suits_double_quotes(name: &[u8]) -> bool {
    let is_alone = name.len() == 1;
    let mut bytes = name.iter().enumerate();
    bytes.all(|(place, byte)| is_plain_in_double_quotes(*byte, place == 0, is_alone))
        && name.contains(&b'\'')
        && is_printable(name)
}

/// How a name is quoted.
fn quotes_of(name: &[u8]) -> Quotes {
    if !name.is_empty() && is_printable(name) && is_all_plain(name) {
        Quotes::None
    } else if suits_double_quotes(name) {
        Quotes::Double
    } else {
        Quotes::Single
    }
}

/// The letter of a control character's escape.
fn escape_letter(byte: u8) -> Option<u8> {
    match byte {
        7 => Some(b'a'),
        8 => Some(b'b'),
        9 => Some(b't'),
        10 => Some(b'n'),
        11 => Some(b'v'),
        12 => Some(b'f'),
        13 => Some(b'r'),
        _ => None,
    }
}

/// Appends the escape of a byte.
fn append_escape(out: &mut Vec<u8>, byte: u8) -> Result<(), AllocError> {
    out.push(b'\\')?;
    match escape_letter(byte) {
        Some(letter) => out.push(letter)?,
        None => {
            out.push(b'0' + (byte >> 6))?;
            out.push(b'0' + ((byte >> 3) & 7))?;
            out.push(b'0' + (byte & 7))?;
        }
    }
    Ok(())
}

/// A name that is written between single quotes.
#[derive(Drop)]
struct Quoted<'a> {
    out: &'a mut Vec<u8>,
    /// Whether what is written last stands between `$'` and `'`.
    is_in_escapes: bool,
}

impl Quoted<'_> {
    /// Appends bytes by their escapes.
    fn escape(&mut self, bytes: &[u8]) -> Result<(), AllocError> {
        for byte in bytes {
            if !self.is_in_escapes {
                self.out.extend_from_slice(b"'$'")?;
                self.is_in_escapes = true;
            }
            append_escape(self.out, *byte)?;
        }
        Ok(())
    }

    /// Appends the bytes of a character that is shown.
    fn show(&mut self, bytes: &[u8]) -> Result<(), AllocError> {
        if bytes == b"'".as_slice() {
            self.out.extend_from_slice(b"'\\''")?;
            self.is_in_escapes = false;
            return Ok(());
        }
        if self.is_in_escapes {
            self.out.extend_from_slice(b"''")?;
            self.is_in_escapes = false;
        }
        self.out.extend_from_slice(bytes)?;
        Ok(())
    }

    /// Appends text.
    fn append(&mut self, text: &str) -> Result<(), AllocError> {
        for character in text.chars() {
            let mut room = [0; 4];
            let bytes = character.encode_utf8(&mut room).as_bytes();
            if character.is_control() {
                self.escape(bytes)?;
            } else {
                self.show(bytes)?;
            }
        }
        Ok(())
    }
}

/// Appends the bytes that stand for a name between single quotes, and returns whether the last of
/// them are escapes.
fn append_parts(out: &mut Vec<u8>, name: &[u8], is_in_escapes: bool) -> Result<bool, AllocError> {
    let mut quoted = Quoted { out, is_in_escapes };
    for chunk in name.utf8_chunks() {
        quoted.append(chunk.valid())?;
        quoted.escape(chunk.invalid())?;
    }
    Ok(quoted.is_in_escapes)
}

/// A name between single quotes. Coreutils go over a name that has one twice, and the second time
/// begin as the first one ended.
fn in_single_quotes(alloc: Global, name: &[u8]) -> Result<Vec<u8>, AllocError> {
    let mut first = Vec::new(alloc);
    let is_in_escapes = append_parts(&mut first, name, false)?;
    let mut parts = Vec::new(alloc);
    append_parts(&mut parts, name, is_in_escapes && name.contains(&b'\''))?;
    joined(alloc, &[b"'", &parts, b"'"])
}

/// A name as a message has it.
pub(crate) fn in_quotes(alloc: Global, name: &[u8]) -> Result<Vec<u8>, AllocError> {
    match quotes_of(name) {
        Quotes::None => name.to_vec(alloc),
        Quotes::Double => joined(alloc, &[b"\"", name, b"\""]),
        Quotes::Single => in_single_quotes(alloc, name),
    }
}
