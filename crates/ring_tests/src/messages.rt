// SPDX-License-Identifier: ISC
//! Messages of tests, the blocks that they have, and how a context takes them in pieces.

use ring::cost::Meter;
use ring::digest::{self, Algorithm};
use ring::hmac;

/// The bytes 0, 1, 2, .., modulo 256.
pub fn counting_bytes<const N: usize>() -> [u8; N] {
    let mut bytes = [0; N];
    let mut next = 0u8;
    for byte in &mut bytes {
        *byte = next;
        next = next.wrapping_add(1);
    }
    bytes
}

/// The whole blocks of `len` bytes.
pub fn whole_blocks(algorithm: &Algorithm, len: usize) -> u128 {
    let block_len = if algorithm.block_len() == 64 { 64 } else { 128 };
    (len / block_len) as u128
}

/// The blocks of `len` bytes and their padding, which ends with 8 or 16 bytes that tell the length
/// (FIPS 180-4, section 5.1).
pub fn padded_blocks(algorithm: &Algorithm, len: usize) -> u128 {
    let length_len = if algorithm.block_len() == 64 { 8 } else { 16 };
    whole_blocks(algorithm, len.saturating_add(length_len)).saturating_add(1)
}

/// A context that takes a message in pieces.
pub trait TakesPieces {
    /// Adds a piece, its blocks counted by `meter`.
    fn take(&mut self, piece: &[u8], meter: &mut Meter);
}

impl TakesPieces for digest::Context {
    fn take(&mut self, piece: &[u8], meter: &mut Meter) {
        self.update_counted(piece, meter);
    }
}

impl TakesPieces for hmac::Context {
    fn take(&mut self, piece: &[u8], meter: &mut Meter) {
        self.update_counted(piece, meter);
    }
}

// Adds a piece and then an empty one, and tells whether after each `blocks` blocks have run.
fn takes<C: TakesPieces>(context: &mut C, piece: &[u8], meter: &mut Meter, blocks: u128) -> bool {
    context.take(piece, meter);
    let after_piece = meter.blocks();
    context.take(&[], meter);
    after_piece == blocks && meter.blocks() == blocks
}

/// Adds the message in pieces to a context of this digest algorithm, and tells whether each block
/// was run as soon as it was complete.
pub fn takes_all<C: TakesPieces>(
    context: &mut C,
    algorithm: &Algorithm,
    message: &[u8],
    piece_len: usize,
    meter: &mut Meter,
) -> bool {
    let mut taken = 0usize;
    for piece in message.chunks(piece_len.max(1)) {
        taken = taken.saturating_add(piece.len());
        if !takes(context, piece, meter, whole_blocks(algorithm, taken)) {
            return false;
        }
    }
    true
}
