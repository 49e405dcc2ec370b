// SPDX-License-Identifier: ISC
//! Digests of several messages at once: agreement with other implementations, in every place.

use crate::algorithms::{ROWS, is_of_others};
use crate::messages::{counting_bytes, padded_blocks};
use ring::cost::Meter;
use ring::digest::{Algorithm, Digest, digest, digest_each_counted, digest_each_in};
use ring::error::Unspecified;
use ring::width::AVX2;

// How many lengths there are from 0 to 257.
const LENS: usize = 258;

/// The most messages of a list.
pub const MOST: usize = 20;

// The front of the bytes that has this length, counted round.
fn front(bytes: &[u8; 257], len: usize) -> &[u8] {
    &bytes[..len % LENS]
}

// Whether each digest is the one that others give the message at its place.
fn are_of_others(algorithm: Algorithm, messages: &[&[u8]], digests: &[Digest]) -> bool {
    for (message, made) in messages.iter().zip(digests) {
        if !is_of_others(algorithm, message, made.as_ref()) {
            return false;
        }
    }
    messages.len() == digests.len()
}

// The blocks of all messages.
fn blocks_of(algorithm: &Algorithm, messages: &[&[u8]]) -> u128 {
    let mut blocks = 0u128;
    for message in messages {
        blocks = blocks.saturating_add(padded_blocks(algorithm, message.len()));
    }
    blocks
}

// Whether the messages get the digests that others give them, for their blocks, over vectors of
// both widths.
fn agrees(
    algorithm: Algorithm,
    messages: &[&[u8]],
    digests: &mut [Digest],
) -> Result<bool, Unspecified> {
    let mut meter = Meter::new();
    digest_each_counted(&algorithm, messages, digests, &mut meter)?;
    if !are_of_others(algorithm, messages, digests)
        || meter.blocks() != blocks_of(&algorithm, messages)
    {
        return Ok(false);
    }
    digests.fill(digest(&algorithm, b"in the place of each")?);
    let mut wide_meter = Meter::new();
    digest_each_in::<AVX2>(&algorithm, messages, digests, &mut wide_meter)?;
    Ok(are_of_others(algorithm, messages, digests) && wide_meter.blocks() == meter.blocks())
}

// The same of four messages whose lengths lie so far apart, at every length in every place.
fn agrees_at_every_length(algorithm: Algorithm, apart: usize) -> Result<bool, Unspecified> {
    let bytes = counting_bytes::<257>();
    let mut digests = [digest(&algorithm, &[])?; 4];
    for len in 0..LENS {
        let messages = [0, 1, 2, 3].map(|place: usize| front(
            &bytes,
            place.wrapping_mul(apart).wrapping_add(len),
        ));
        if !agrees(algorithm, &messages, &mut digests)? {
            return Ok(false);
        }
    }
    Ok(true)
}

#[test]
fn agreement_side_by_side(rt: HostRuntime) {
    for row in ROWS {
        for apart in [0, 1, 65] {
            assert!(rt; agrees_at_every_length(row.algorithm, apart) == Ok(true));
        }
    }
}

// Lengths of messages whose last blocks differ in number and in what they hold.
const MIXED_LENS: [usize; MOST] = [
    0, 200, 64, 3, 55, 56, 119, 120, 257, 128, 111, 112, 239, 240, 1, 63, 127, 129, 65, 192,
];

/// The messages of these lengths.
pub fn mixed(bytes: &[u8; 257]) -> [&[u8]; MOST] {
    MIXED_LENS.map(|len| front(bytes, len))
}

// Whether the first of them get the digests that others give them.
fn agrees_on_first(algorithm: Algorithm, count: usize) -> Result<bool, Unspecified> {
    let bytes = counting_bytes::<257>();
    let messages = mixed(&bytes);
    let mut digests = [digest(&algorithm, &[])?; MOST];
    let count = count.min(MOST);
    agrees(algorithm, &messages[..count], &mut digests[..count])
}

#[test]
fn numbers_of_messages(rt: HostRuntime) {
    for row in ROWS {
        for count in 0..MOST + 1 {
            assert!(rt; agrees_on_first(row.algorithm, count) == Ok(true));
        }
    }
}
