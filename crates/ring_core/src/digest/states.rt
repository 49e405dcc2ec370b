// SPDX-License-Identifier: ISC
//! The chaining states of a block function (FIPS 180-4, 6.1 and 6.2): of one message, or of several
//! side by side.
ghost use Rattle.std.specs.Prelude.{◌≡◌, ℕ, ⊤, ◌<◌, length, map, slice_index};
ghost use Rattle.ring_core.specs.Prelude.{array_at, words_of_lane, xor_lists};

use crate::digest::word::Word;
use crate::digest::word::lanes::{InLanes, LaneWord, Vector};
use std::alloc::AllocError;
use std::num::Wrapping;

/// The chaining words of SHA-256. SHA-1 uses the first five and leaves the last three 0.
pub type State32 = [Wrapping<u32>; 8];

/// The chaining words of SHA-512 and its truncations.
pub type State64 = [Wrapping<u64>; 8];

/// States of eight words, one in each lane.
pub struct States<V: Copy> {
    pub(crate) words: [InLanes<V>; 8],
}

impl<V: Copy> Clone for States<V> {
    ghost is_clone = { λ x y. y ≡ x };

    ghost is_infallible = { λ _. ⊤ };

    fn clone(&self) -> Result<States<V>, AllocError> {
        Ok(*self)
    }
}

impl<V: Copy> Copy for States<V> {}

// The words at place `at` of several states, the first state's in lane 0.
#[inline(always)]
fn words_at<V: Vector>(states: &[[V::One; 8]], at: usize) -> InLanes<V>
    requires some { 0 < V.LANES }
    requires lanes { length states.now ≡ V.LANES }
    requires place { at < 8 }
    ensures words { (i : ℕ) → i < V.LANES
        → V.lane i result.0 ≡ slice_index (map V.One.value (array_at states.now i)) at }
    ensures eight { (i : ℕ) → i < V.LANES → length (array_at states.now i) ≡ 8 }
{
    let mut words = V::splat(V::One::ZERO);
    'lanes: for i in 0..V::LANES {
        let state = states[i];
        words = words.with(i, state[at]);
    }
    InLanes(words)
}

impl<V: Vector> States<V> {
    /// The states `states`, as many as there are lanes, the first in lane 0.
    pub fn new(states: &[[V::One; 8]]) -> States<V>
        requires some { 0 < V.LANES }
        requires lanes { length states.now ≡ V.LANES }
        ensures { (i : ℕ) → i < V.LANES
            → words_of_lane (V.lane i) result ≡ map V.One.value (array_at states.now i) }
    {
        States {
            words: [
                words_at(states, 0),
                words_at(states, 1),
                words_at(states, 2),
                words_at(states, 3),
                words_at(states, 4),
                words_at(states, 5),
                words_at(states, 6),
                words_at(states, 7),
            ],
        }
    }

    /// The same `state` in each lane.
    pub fn splat(state: &[V::One; 8]) -> States<V>
        requires { 0 < V.LANES }
        ensures { (i : ℕ) → words_of_lane (V.lane i) result ≡ map V.One.value state.now }
    {
        States {
            words: [
                InLanes::<V>::splat(state[0]),
                InLanes::<V>::splat(state[1]),
                InLanes::<V>::splat(state[2]),
                InLanes::<V>::splat(state[3]),
                InLanes::<V>::splat(state[4]),
                InLanes::<V>::splat(state[5]),
                InLanes::<V>::splat(state[6]),
                InLanes::<V>::splat(state[7]),
            ],
        }
    }

    /// The state in lane `i`, which must be below the number of lanes.
    pub fn state(&self, i: usize) -> [V::One; 8]
        requires { i < V.LANES }
        ensures { map V.One.value result ≡ words_of_lane (V.lane i) self.now }
    {
        let words = &self.words;
        [
            words[0].0.word(i),
            words[1].0.word(i),
            words[2].0.word(i),
            words[3].0.word(i),
            words[4].0.word(i),
            words[5].0.word(i),
            words[6].0.word(i),
            words[7].0.word(i),
        ]
    }

    /// Replaces the words of each lane by their exclusive or with those of `other` in the same
    /// lane.
    #[inline(always)]
    pub fn xor_assign(&mut self, other: &States<V>)
        ensures { (i : ℕ) → words_of_lane (V.lane i) self.new
            ≡ xor_lists (words_of_lane (V.lane i) self.old) (words_of_lane (V.lane i) other.now) }
    {
        let [a, b, c, d, e, f, g, h] = self.words;
        let [i, j, k, l, m, n, o, p] = other.words;
        let words = [
            a.bit_xor(i),
            b.bit_xor(j),
            c.bit_xor(k),
            d.bit_xor(l),
            e.bit_xor(m),
            f.bit_xor(n),
            g.bit_xor(o),
            h.bit_xor(p),
        ];
        self.words = words;
    }
}
