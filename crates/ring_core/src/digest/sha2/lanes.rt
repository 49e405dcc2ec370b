// SPDX-License-Identifier: ISC
//! The block function of SHA-2 in lanes, each that of a block of its own (FIPS 180-4, 6.2.2 and
//! 6.4.2), over a window of words in lanes.
ghost use Rattle.std.specs.Prelude.{◌≡◌, ℕ, ◌<◌, ◌≤◌, List, length, map};
ghost use Rattle.ring_core.specs.Prelude.{IsBlockOf, array_at, block_len, block_step, raised};
ghost use Rattle.ring_core.specs.Prelude.{words_of_lane};

use crate::cost::Meter;
use crate::digest::sha2::window::{Before, ExtendByTwo, next_word, run_block, run_words};
use crate::digest::states::States;
use crate::digest::word::lanes::{BlockInEach, InLanes, LaneWord, Vector};

impl<V: Vector> ExtendByTwo for InLanes<V> {
    #[inline(always)]
    fn next_two(before: &Before<InLanes<V>>) -> (InLanes<V>, InLanes<V>) {
        let Before {
            sixteen,
            fifteen,
            seven,
            two,
        } = before;
        let first = next_word(two.0.0, seven.0.0, fifteen.0.0, sixteen.0.0);
        let second = next_word(two.1.0, seven.1.0, fifteen.1.0, sixteen.1.0);
        (InLanes(first), InLanes(second))
    }
}

/// Runs SHA-256's or SHA-512's block function in each lane (6.2.2, 6.4.2): over the state in lane i
/// of `states`, which is replaced, and block i of `blocks`, of 64 bytes where words have 32 bits
/// and of 128 where they have 64. The blocks are counted on `meter`, as many as there are lanes.
pub fn block_data_order_lanes_counted<V: Vector, const N: usize>(
    states: &mut States<V>,
    blocks: &[[u8; N]],
    meter: &mut Meter,
)
    requires some { 0 < V.LANES }
    requires lanes { length blocks.now ≡ V.LANES }
    requires whole { N ≡ block_len V.One.family }
    ensures words { (i : ℕ) → i < V.LANES → words_of_lane (V.lane i) states.new
        ≡ block_step V.One.family (words_of_lane (V.lane i) states.old) (array_at blocks.now i) }
    ensures cost { meter.new ≡ raised meter.old V.LANES 0 }
{
    run_block(&mut states.words, &BlockInEach(blocks));
    meter.add_blocks(V::LANES);
}

/// Runs SHA-256's or SHA-512's block function in each lane, over one block that is given as words
/// (6.2.2, 6.4.2): the first `N` words of the lane in `fronts`, at most eight, and then those of
/// `padding` past them, the same in all lanes. The states in the lanes of `states` are replaced.
/// The blocks are counted on `meter`, as many as there are lanes.
pub fn block_of_words_lanes_counted<V: Vector, const N: usize>(
    states: &mut States<V>,
    fronts: &States<V>,
    padding: &[V::One; 16],
    meter: &mut Meter,
)
    requires some { 0 < V.LANES }
    requires front { N ≤ 8 }
    ensures words { (i : ℕ) (b : List ℕ)
        → IsBlockOf V.One.bits N (words_of_lane (V.lane i) fronts.now)
        (map V.One.value padding.now) b
        → words_of_lane (V.lane i) states.new
        ≡ block_step V.One.family (words_of_lane (V.lane i) states.old) b }
    ensures cost { meter.new ≡ raised meter.old V.LANES 0 }
    ensures eight { (i : ℕ) → (length (words_of_lane (V.lane i) states.old) ≡ 8)
        × (length (words_of_lane (V.lane i) fronts.now) ≡ 8) }
{
    run_words::<InLanes<V>, N>(&mut states.words, &fronts.words, padding, meter)
}
