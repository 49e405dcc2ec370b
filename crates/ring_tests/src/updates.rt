// SPDX-License-Identifier: ISC
//! Contexts of several messages updated at once: agreement with other implementations, in every
//! place.

use crate::algorithms::{ROWS, is_of_others};
use crate::messages::{counting_bytes, whole_blocks};
use crate::several::{MOST, mixed};
use ring::cost::Meter;
use ring::digest::{Algorithm, Context, SHA256, update_each_counted, update_each_in};
use ring::width::AVX2;
use std::array::from_fn;

// Where the messages are cut: into no bytes and all, inside a block, and at its end.
const CUTS: [usize; 4] = [0, 1, 64, 100];

// A context that has taken in the message up to the cut.
fn begun(algorithm: &Algorithm, message: &[u8], cut: usize) -> Context {
    let mut context = Context::new(algorithm);
    context.update(&message[..cut.min(message.len())]);
    context
}

// Contexts that have taken in each message up to the cut.
fn contexts_of(
    algorithms: &[Algorithm; MOST],
    messages: &[&[u8]; MOST],
    cut: usize,
) -> [Context; MOST] {
    let mut contexts: [Context; MOST] = from_fn(|_place| Context::new(&SHA256));
    for ((context, algorithm), message) in contexts.iter_mut().zip(algorithms).zip(messages) {
        *context = begun(algorithm, message, cut);
    }
    contexts
}

// The messages past the cut.
fn rests_of<'m>(messages: &[&'m [u8]; MOST], cut: usize) -> [&'m [u8]; MOST] {
    messages.map(|message| &message[cut.min(message.len())..])
}

// Whether each context gives the digest that others give the message at its place.
fn are_of_others(contexts: &[Context], algorithms: &[Algorithm], messages: &[&[u8]]) -> bool {
    for ((context, algorithm), message) in contexts.iter().zip(algorithms).zip(messages) {
        let Ok(made) = context.clone().finish() else {
            return false;
        };
        if !is_of_others(*algorithm, message, made.as_ref()) {
            return false;
        }
    }
    true
}

// The blocks that the messages complete past the cut.
fn blocks_past(algorithms: &[Algorithm], messages: &[&[u8]], cut: usize) -> u128 {
    let mut blocks = 0u128;
    for (algorithm, message) in algorithms.iter().zip(messages) {
        let before = whole_blocks(algorithm, cut.min(message.len()));
        let all = whole_blocks(algorithm, message.len());
        blocks = blocks.saturating_add(all.saturating_sub(before));
    }
    blocks
}

// Whether the first contexts, which have taken in the messages up to the cut, give the digests that
// others give the whole messages, for the blocks past the cut, over vectors of both widths.
fn agrees(algorithms: &[Algorithm; MOST], count: usize, cut: usize) -> bool {
    let bytes = counting_bytes::<257>();
    let messages = mixed(&bytes);
    let rests = rests_of(&messages, cut);
    let count = count.min(MOST);
    let (rests, algorithms_of) = (&rests[..count], &algorithms[..count]);
    let blocks = blocks_past(algorithms_of, &messages[..count], cut);
    let (mut meter, mut wide_meter) = (Meter::new(), Meter::new());
    let mut contexts = contexts_of(algorithms, &messages, cut);
    let mut wide = contexts_of(algorithms, &messages, cut);
    update_each_counted(&mut contexts[..count], rests, &mut meter).is_ok()
        && update_each_in::<AVX2>(&mut wide[..count], rests, &mut wide_meter).is_ok()
        && are_of_others(&contexts[..count], algorithms_of, &messages[..count])
        && are_of_others(&wide[..count], algorithms_of, &messages[..count])
        && meter.blocks() == blocks
        && wide_meter.blocks() == blocks
}

#[test]
fn contexts_of_one_algorithm(rt: HostRuntime) {
    for row in ROWS {
        for cut in CUTS {
            for count in 0..MOST + 1 {
                assert!(rt; agrees(&[row.algorithm; MOST], count, cut));
            }
        }
    }
}

// Eight of one algorithm, five of another, three and four.
fn mixed_algorithms() -> [Algorithm; MOST] {
    let mut algorithms = [ROWS[0].algorithm; MOST];
    algorithms[8..13].fill(ROWS[1].algorithm);
    algorithms[13..16].fill(ROWS[2].algorithm);
    algorithms[16..].fill(ROWS[3].algorithm);
    algorithms
}

#[test]
fn contexts_of_several_algorithms(rt: HostRuntime) {
    for cut in CUTS {
        for count in 0..MOST + 1 {
            assert!(rt; agrees(&mixed_algorithms(), count, cut));
        }
    }
}

#[test]
fn more_or_fewer_pieces_than_contexts(rt: HostRuntime) {
    let piece: &[u8] = b"a piece";
    let mut contexts = [Context::new(&SHA256), Context::new(&SHA256)];
    let mut meter = Meter::new();
    assert!(rt; update_each_counted(&mut contexts, &[piece], &mut meter).is_err());
    assert!(rt; update_each_counted(&mut contexts, &[piece, piece, piece], &mut meter).is_err());
    assert!(rt; are_of_others(&contexts, &[SHA256; 2], &[&[], &[]]));
}
