// SPDX-License-Identifier: ISC
//! Digits of bytes.

/// Whether the digits are those of the bytes, of which there are at most 64.
pub fn is_hex_of(digits: &str, bytes: &[u8]) -> bool {
    let mut room = [0; 64];
    match room.get_mut(..bytes.len()) {
        Some(own) => hex::decode_to_slice(digits, own).is_ok() && *own == *bytes,
        None => false,
    }
}
