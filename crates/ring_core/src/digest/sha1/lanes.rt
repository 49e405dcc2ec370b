// SPDX-License-Identifier: ISC
//! The block function of SHA-1 in lanes, each that of a block of its own (FIPS 180-4, 6.1.2), over
//! a window of words in lanes.
ghost use Rattle.std.specs.Prelude.{◌≡◌, ℕ, ◌<◌, List, length, map, take, drop};
ghost use Rattle.ring_core.specs.Prelude.{IsBlockOf, array_at, raised, word_32, words_of_lane};
ghost use Rattle.ring_core.specs.Sha1.{block_step};

use crate::cost::Meter;
use crate::digest::sha1::window::{Before, Sha1ByTwo, next_word, run_block, run_words};
use crate::digest::states::States;
use crate::digest::word::lanes::{BlockInEach, InLanes, LaneWord, Vector};
use std::num::Wrapping;

impl<V: Vector<One = Wrapping<u32>>> Sha1ByTwo for InLanes<V> {
    #[inline(always)]
    fn next_two(before: &Before<InLanes<V>>) -> (InLanes<V>, InLanes<V>) {
        let Before {
            sixteen,
            fourteen,
            eight,
            three,
        } = before;
        let first = next_word(three.0, eight.0, fourteen.0, sixteen.0);
        let second = next_word(three.1, eight.1, fourteen.1, sixteen.1);
        (first, second)
    }
}

/// Runs SHA-1's block function in each lane (6.1.2): over the state in lane i of `states` and block
/// i of `blocks`, of 64 bytes.
///
/// In each lane the first five words are replaced, and the last three stay. The blocks are counted
/// on `meter`, as many as there are lanes.
pub fn sha1_block_data_order_lanes_counted<V: Vector<One = Wrapping<u32>>, const N: usize>(
    states: &mut States<V>,
    blocks: &[[u8; N]],
    meter: &mut Meter,
)
    requires some { 0 < V.LANES }
    requires lanes { length blocks.now ≡ V.LANES }
    requires whole { N ≡ 64 }
    ensures words { (i : ℕ) → i < V.LANES → take 5 (words_of_lane (V.lane i) states.new)
        ≡ block_step (take 5 (words_of_lane (V.lane i) states.old)) (array_at blocks.now i) }
    ensures rest { (i : ℕ) → drop 5 (words_of_lane (V.lane i) states.new)
        ≡ drop 5 (words_of_lane (V.lane i) states.old) }
    ensures cost { meter.new ≡ raised meter.old V.LANES 0 }
{
    run_block(&mut states.words, &BlockInEach(blocks));
    meter.add_blocks(V::LANES);
}

/// Runs SHA-1's block function in each lane, over one block that is given as words (6.1.2): the
/// first five words of the lane in `fronts`, and then those of `padding` from the sixth on, the
/// same in all lanes.
///
/// In each lane of `states` the first five words are replaced, and the last three stay. The blocks
/// are counted on `meter`, as many as there are lanes.
pub fn sha1_block_of_words_lanes_counted<V: Vector<One = Wrapping<u32>>>(
    states: &mut States<V>,
    fronts: &States<V>,
    padding: &[Wrapping<u32>; 16],
    meter: &mut Meter,
)
    requires { 0 < V.LANES }
    ensures words { (i : ℕ) (b : List ℕ)
        → IsBlockOf 32 5 (words_of_lane (V.lane i) fronts.now) (map word_32 padding.now) b
        → take 5 (words_of_lane (V.lane i) states.new)
        ≡ block_step (take 5 (words_of_lane (V.lane i) states.old)) b }
    ensures rest { (i : ℕ) → drop 5 (words_of_lane (V.lane i) states.new)
        ≡ drop 5 (words_of_lane (V.lane i) states.old) }
    ensures cost { meter.new ≡ raised meter.old V.LANES 0 }
    ensures eight { (i : ℕ) → length (words_of_lane (V.lane i) fronts.now) ≡ 8 }
{
    run_words(&mut states.words, &fronts.words, padding, meter)
}
