// SPDX-License-Identifier: ISC
//! Digest algorithms over chaining states in lanes: one state alone, or as many as a vector has
//! words.

ghost use Rattle.std.proofs.Common.{ap, refl};
ghost use Rattle.std.specs.Prelude.{◌≡◌, ℕ, ◌<◌, ◌≤◌, All, List, drop, length, map};
ghost use Rattle.ring_core.specs.Prelude.{array_at, words_of_lane, xor_lists};
ghost use Rattle.ring.specs.Prelude.{Algorithm, CanRunTogether, EachItem, HasWords, IsPaddingOf};
ghost use Rattle.ring.specs.Prelude.{IsSha2, SHA1_FOR_LEGACY_USE_ONLY, block_function, raised};
ghost use Rattle.ring.specs.Prelude.{state_word_len, word_count, word_len, words};
ghost use Rattle.ring.specs.declared.digest.algorithm.TheConstants.{SHA256, SHA384, SHA512};
ghost use Rattle.ring.specs.declared.digest.algorithm.TheConstants.{SHA512_256};

use crate::digest::algorithm::{Algorithm, AlgorithmId, words};
use crate::digest::dynstate::{DynState, StateWord};
use crate::width::{AVX2, SSE};
use ring_core::cost::Meter;
use ring_core::digest::instructions::{arm, x86};
use ring_core::digest::sha1::sha1_block_data_order_lanes_counted;
use ring_core::digest::sha2::block_data_order_lanes_counted;
use ring_core::digest::states::States;
use ring_core::digest::word::Word;
use ring_core::digest::word::lanes::{LaneWord, Vector};
use std::num::Wrapping;

// The greatest number of lanes.
pub(crate) const MAX_LANES: usize = 8;

// States in lanes.
pub(crate) trait LaneStates {
    // the states, of eight words each
    type States: Copy;

    // the number of lanes
    const LANES: usize;

    ghost LANES: { ℕ };

    // the bytes of a word
    ghost word_len: { ℕ };

    // the words of the state in a lane
    ghost lane: { ℕ → Self.States → List ℕ };

    // The states, the first in lane 0.
    fn new(states: &[DynState]) -> Self::States
        requires some { 0 < LANES }
        requires most { LANES ≤ 8 }
        requires lanes { length states.now ≡ LANES }
        requires sized { All (λ state. state_word_len state ≡ word_len) states.now }
        ensures { EachItem states.now (λ i state. lane i result ≡ words state) };

    // The same state in each lane.
    fn splat(state: &DynState) -> Self::States
        requires some { 0 < LANES }
        requires sized { state_word_len state.now ≡ word_len }
        ensures { (i : ℕ) → lane i result ≡ words state.now };

    // The state in lane `i`.
    fn state(states: &Self::States, i: usize) -> DynState
        requires { i < LANES }
        ensures words { words result ≡ lane i states.now }
        ensures sized { state_word_len result ≡ word_len };

    // Replaces the words of each lane by their exclusive or with those of `others` there.
    fn xor(states: &mut Self::States, others: &Self::States)
        ensures { (i : ℕ) → lane i states.new
            ≡ xor_lists (lane i states.old) (lane i others.now) };
}

// The exclusive or of the words of two states.
#[inline(always)]
fn xored_words<W: Word>(sum: [W; 8], digest: [W; 8]) -> [W; 8]
    ensures { map W.value result ≡ xor_lists (map W.value sum) (map W.value digest) }
{
    let [a, b, c, d, e, f, g, h] = sum;
    let [i, j, k, l, m, n, o, p] = digest;
    [
        a.bit_xor(i),
        b.bit_xor(j),
        c.bit_xor(k),
        d.bit_xor(l),
        e.bit_xor(m),
        f.bit_xor(n),
        g.bit_xor(o),
        h.bit_xor(p),
    ]
}

// A state of the algorithm `A`, in the only lane.
pub(crate) struct OneLane<W, A>(W, A);

impl<W: StateWord, A> LaneStates for OneLane<W, A> {
    type States = [W; 8];

    const LANES: usize = 1;

    ghost LANES = { 1 };

    ghost word_len = { W.len };

    ghost lane = { λ i state. map W.value state };

    fn new(states: &[DynState]) -> [W; 8] {
        *W::words_in(&states[0])
    }

    fn splat(state: &DynState) -> [W; 8] {
        *W::words_in(state)
    }

    fn state(states: &[W; 8], i: usize) -> DynState {
        W::state_of(states)
    }

    #[inline(always)]
    fn xor(states: &mut [W; 8], others: &[W; 8]) {
        *states = xored_words(*states, *others);
    }
}

// The words of the states, in room for the greatest number of lanes.
fn words_of<W: StateWord>(states: &[DynState]) -> [[W; 8]; MAX_LANES]
    requires most { length states.now ≤ 8 }
    requires sized { All (λ state. state_word_len state ≡ W.len) states.now }
    ensures { EachItem states.now (λ i state.
        map W.value (array_at result i) ≡ words state) }
{
    let mut all = [[W::ZERO; 8]; MAX_LANES];
    'lanes: for i in 0..states.len() {
        all[i] = *W::words_in(&states[i]);
    }
    all
}

// States in the lanes of a vector, of the algorithm `A`.
pub(crate) struct InVector<V, A>(V, A);

impl<V: Vector<One = W>, W: StateWord, A> LaneStates for InVector<V, A> {
    type States = States<V>;

    const LANES: usize = V::LANES;

    ghost LANES = { V.LANES };

    ghost word_len = { W.len };

    ghost lane = { λ i states. words_of_lane (V.lane i) states };

    // Not inlined, so that its room is free again when the rounds run.
    #[inline(never)]
    fn new(states: &[DynState]) -> States<V> {
        let words = words_of::<W>(states);
        States::new(&words[..V::LANES])
    }

    fn splat(state: &DynState) -> States<V> {
        States::splat(W::words_in(state))
    }

    fn state(states: &States<V>, i: usize) -> DynState {
        W::state_of(&states.state(i))
    }

    #[inline(always)]
    fn xor(states: &mut States<V>, others: &States<V>) {
        states.xor_assign(others)
    }
}

// The algorithms, as types.

pub(crate) struct Sha1;

pub(crate) struct Sha256;

pub(crate) struct Sha384;

pub(crate) struct Sha512;

pub(crate) struct Sha512_256;

// The three algorithms of 64-bit words, which have one block function.
pub(crate) struct Long;

// The algorithm `A` of SHA-2, whose digests have `N` words.
pub(crate) struct DigestsOf<A, const N: usize>(A);

// The bit 1 that follows a message (FIPS 180-4, sections 5.1.1 and 5.1.2), at the top of a word.
pub(crate) const END_32: u32 = 1 << 31;

const END_64: u64 = 1 << 63;

// The prepared block of an algorithm (`DigestBlock`) whose digests have `$count` words, four to
// eight: zeros in place of these, and the padding, which ends with the number of bits in a block
// and a digest.
macro_rules! prepared_block {
    ($count:expr, $word_bits:expr, $end:ident) => {
        words![
            0, 0, 0, 0,
            if $count == 4 { $end } else { 0 }, if $count == 5 { $end } else { 0 },
            if $count == 6 { $end } else { 0 }, if $count == 7 { $end } else { 0 },
            if $count == 8 { $end } else { 0 }, 0, 0, 0,
            0, 0, 0, $word_bits * (16 + $count)
        ]
    };
}

pub(crate) use prepared_block;

// An algorithm of SHA-2 over the words `W`, of which a digest has `N`.
pub(crate) trait Suite<W: StateWord + 'static, const N: usize> {
    ghost algorithm: { Algorithm };

    // The prepared block.
    fn padding() -> &'static [W; 16]
        ensures { IsPaddingOf algorithm W.bits N (map W.value result.now) };

    // its block function, and its words
    ghost sha2: { IsSha2 algorithm W.family W.len };
}

impl Suite<Wrapping<u32>, 8> for Sha256 {
    ghost algorithm = { SHA256 };

    #[inline(always)]
    #[tactic(auto, using(crate::proofs::lemmas::hmac::Paddings::is_padding))]
    fn padding() -> &'static [Wrapping<u32>; 16] {
        const BLOCK: [Wrapping<u32>; 16] = prepared_block!(8, 32, END_32);
        &BLOCK
    }

    ghost sha2 = { record { function = refl; eight = refl; sized = refl } };
}

impl Suite<Wrapping<u64>, 6> for Sha384 {
    ghost algorithm = { SHA384 };

    #[inline(always)]
    #[tactic(auto, using(crate::proofs::lemmas::hmac::Paddings::is_padding))]
    fn padding() -> &'static [Wrapping<u64>; 16] {
        const BLOCK: [Wrapping<u64>; 16] = prepared_block!(6, 64, END_64);
        &BLOCK
    }

    ghost sha2 = { record { function = refl; eight = refl; sized = refl } };
}

impl Suite<Wrapping<u64>, 8> for Sha512 {
    ghost algorithm = { SHA512 };

    #[inline(always)]
    #[tactic(auto, using(crate::proofs::lemmas::hmac::Paddings::is_padding))]
    fn padding() -> &'static [Wrapping<u64>; 16] {
        const BLOCK: [Wrapping<u64>; 16] = prepared_block!(8, 64, END_64);
        &BLOCK
    }

    ghost sha2 = { record { function = refl; eight = refl; sized = refl } };
}

impl Suite<Wrapping<u64>, 4> for Sha512_256 {
    ghost algorithm = { SHA512_256 };

    #[inline(always)]
    #[tactic(auto, using(crate::proofs::lemmas::hmac::Paddings::is_padding))]
    fn padding() -> &'static [Wrapping<u64>; 16] {
        const BLOCK: [Wrapping<u64>; 16] = prepared_block!(4, 64, END_64);
        &BLOCK
    }

    ghost sha2 = { record { function = refl; eight = refl; sized = refl } };
}

// A block function that runs over a block in each lane.
pub(crate) trait RunBlocks<const N: usize>: LaneStates {
    // it is that of the algorithm
    ghost is_of: { Algorithm → Type 0 };

    // Advances the state in each lane over the block at its place.
    fn run_blocks(states: &mut Self::States, blocks: &[[u8; N]], meter: &mut Meter)
        requires some { 0 < Self.LANES }
        requires lanes { length blocks.now ≡ Self.LANES }
        ensures words { (a : Algorithm) (i : ℕ) (h : List ℕ) → is_of a → i < Self.LANES
            → HasWords a h (Self.lane i states.old)
            → HasWords a (block_function a h (array_at blocks.now i)) (Self.lane i states.new) }
        ensures spare { (a : Algorithm) (i : ℕ) (h : List ℕ) → is_of a → i < Self.LANES
            → HasWords a h (Self.lane i states.old)
            → drop (word_count a) (Self.lane i states.new)
            ≡ drop (word_count a) (Self.lane i states.old) }
        ensures cost { meter.new ≡ raised meter.old Self.LANES 0 };

    // the algorithm's words have this size
    ghost sized: { (a : Algorithm) → is_of a → word_len a ≡ Self.word_len };
}

// The block functions of 32-bit words are not inlined, so that a check of the machine code finds
// each once. That of 64-bit words is inlined, since a call of it costs 2 per cent.
impl<V: Vector<One = Wrapping<u32>>> RunBlocks<64> for InVector<V, Sha1> {
    ghost is_of = { λ a. a ≡ SHA1_FOR_LEGACY_USE_ONLY };

    #[inline(never)]
    fn run_blocks(states: &mut States<V>, blocks: &[[u8; 64]], meter: &mut Meter) {
        sha1_block_data_order_lanes_counted(states, blocks, meter)
    }

    ghost sized = { λ a is. ap word_len is };
}

impl<V: Vector<One = Wrapping<u32>>> RunBlocks<64> for InVector<V, Sha256> {
    ghost is_of = { λ a. a ≡ SHA256 };

    #[inline(never)]
    fn run_blocks(states: &mut States<V>, blocks: &[[u8; 64]], meter: &mut Meter) {
        block_data_order_lanes_counted(states, blocks, meter)
    }

    ghost sized = { λ a is. ap word_len is };
}

impl<V: Vector<One = Wrapping<u64>>> RunBlocks<128> for InVector<V, Long> {
    ghost is_of = { λ a. word_len a ≡ 8 };

    #[inline(always)]
    fn run_blocks(states: &mut States<V>, blocks: &[[u8; 128]], meter: &mut Meter) {
        block_data_order_lanes_counted(states, blocks, meter)
    }

    ghost sized = { λ a is. is };
}

// How many of those that are left run side by side next: as many as a vector has words. Two words
// of 64 bits are no faster than one after the other, and neither is SHA-256 on a processor with
// instructions for it. SHA-1 is faster side by side there too.
pub(crate) fn lanes_for<const VECTOR_BITS: usize>(algorithm: Algorithm, left: usize) -> usize
    requires { 0 < left }
    ensures some { 0 < result }
    ensures within { result ≤ left }
    ensures together { CanRunTogether VECTOR_BITS algorithm result }
{
    match algorithm.id {
        AlgorithmId::Sha256 if x86::are_there() || arm::are_there() => 1,
        AlgorithmId::Sha1 | AlgorithmId::Sha256 if VECTOR_BITS >= AVX2 && left >= 8 => 8,
        AlgorithmId::Sha1 | AlgorithmId::Sha256 if VECTOR_BITS >= SSE && left >= 4 => 4,
        AlgorithmId::Sha1 | AlgorithmId::Sha256 => 1,
        _ if VECTOR_BITS >= AVX2 && left >= 4 => 4,
        _ => 1,
    }
}

// Chooses the types for an algorithm and for a number of messages, contexts or rounds that can run
// together in vectors of `$bits` bits (`CanRunTogether`), and calls the macro `$run`: for one, with
// its `DigestBlock`; for several, with their `RunBlocks`, the length of a block in bytes, and their
// `DigestBlock`.
macro_rules! by_lanes {
    ($bits:ident, $algorithm:expr, $count:expr, $run:ident) => {
        by_lanes!(
            $bits, $algorithm, $count, $run,
            [(Sha1, Sha1) (Sha256, DigestsOf<Sha256, 8>)]
            [
                (Sha384, DigestsOf<Sha384, 6>)
                (Sha512, DigestsOf<Sha512, 8>)
                (Sha512_256, DigestsOf<Sha512_256, 4>)
            ]
        )
    };
    (
        $bits:ident, $algorithm:expr, $count:expr, $run:ident,
        [$(($short:ident, $short_digests:ty))*]
        [$(($long:ident, $long_digests:ty))*]
    ) => {
        match ($algorithm.id, $count) {
            $(
                (AlgorithmId::$short, 8) if $bits >= AVX2 =>
                    $run!(InVector<u32x8, $short>, 64, InVector<u32x8, $short_digests>),
                (AlgorithmId::$short, 4) =>
                    $run!(InVector<u32x4, $short>, 64, InVector<u32x4, $short_digests>),
                (AlgorithmId::$short, _) => $run!(OneLane<Wrapping<u32>, $short_digests>),
            )*
            // Words of 64 bits run alone in narrower vectors.
            $(
                (AlgorithmId::$long, 4) if $bits >= AVX2 =>
                    $run!(InVector<u64x4, Long>, 128, InVector<u64x4, $long_digests>),
                (AlgorithmId::$long, _) => $run!(OneLane<Wrapping<u64>, $long_digests>),
            )*
        }
    };
}

pub(crate) use by_lanes;
