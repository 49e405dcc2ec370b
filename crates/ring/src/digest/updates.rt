// SPDX-License-Identifier: ISC
//! Several contexts, each updated with a piece, as many side by side as a vector has lanes.

ghost use Rattle.std.specs.Prelude.{◌≡◌, ℕ, ◌-◌, ◌*◌, ◌/◌, ◌<◌, ◌≤◌, All, Some, drop};
ghost use Rattle.std.specs.Prelude.{length, slice_get};
ghost use Rattle.std.specs.List.{HoldsAt};
ghost use Rattle.ring_core.specs.Prelude.{array_at, chunk_at, fold_chunks};
ghost use Rattle.ring.specs.Prelude.{Algorithm, AreAlike, AreUpdated, CanRunTogether};
ghost use Rattle.ring.specs.Prelude.{EachChange, EachItem, HasWords, IsPartway, block_function};
ghost use Rattle.ring.specs.Prelude.{block_len, chaining_words, context_algorithm, message_at};
ghost use Rattle.ring.specs.Prelude.{pending_len, raised, spare_words, state_word_len};
ghost use Rattle.ring.specs.Prelude.{UpdatesEach, update_each_blocks, word_count, word_len, words};

use crate::digest::algorithm::{Algorithm, AlgorithmId};
use crate::digest::context::Context;
use crate::digest::dynstate::DynState;
use crate::digest::lanes::algorithms::{
    InVector, LaneStates, Long, MAX_LANES, RunBlocks, Sha1, Sha256, by_lanes, lanes_for,
};
use crate::digest::lanes::blocks::{Whole, fewest_blocks, run_lanes};
use crate::width::{AVX2, SSE};
use ring_core::cost::Meter;
use ring_core::error::Unspecified;
use std::simd::{u32x4, u32x8, u64x4};

// The states of the contexts, in room for the greatest number of lanes.
#[tactic(auto, using(crate::proofs::lemmas::digest::Updates::context_rules))]
fn states_of(algorithm: Algorithm, contexts: &[Context]) -> [DynState; MAX_LANES]
    requires most { length contexts.now ≤ 8 }
    requires algorithm { All (λ context. context_algorithm context ≡ algorithm) contexts.now }
    ensures state { EachItem contexts.now (λ i context.
        slice_get result i ≡ Some context.block.state) }
    ensures eight { All (λ state. length (words state) ≡ 8) result }
    ensures sized { All (λ state. state_word_len state ≡ word_len algorithm) result }
{
    let mut states = [algorithm.initial_state(); MAX_LANES];
    'contexts: for i in 0..contexts.len() {
        states[i] = contexts[i].state();
    }
    states
}

// Completes the pending block of each context that has begun one. Returns the rests of the pieces,
// in an array for the greatest number of lanes.
#[tactic(auto, using(crate::proofs::lemmas::digest::Updates::context_rules))]
fn complete_each<'p>(
    contexts: &mut [Context],
    pieces: &[&'p [u8]],
    meter: &mut Meter,
) -> [&'p [u8]; MAX_LANES]
    requires most { length contexts.old ≤ 8 }
    requires pieces { length pieces.now ≡ length contexts.old }
    ensures count { length contexts.new ≡ length contexts.old }
    ensures partway { EachChange contexts.old contexts.new (λ i old new.
        IsPartway old new (message_at pieces.now i) (message_at result i)) }
    ensures ready { EachItem contexts.new (λ i context.
        0 < length (message_at result i) → pending_len context ≡ 0) }
    ensures within { update_each_blocks contexts.new result
        ≤ update_each_blocks contexts.old pieces.now }
    ensures cost { meter.new ≡ raised meter.old (update_each_blocks contexts.old pieces.now
        - update_each_blocks contexts.new result) 0 }
{
    let mut rests: [&'p [u8]; MAX_LANES] = [&[]; MAX_LANES];
    'contexts: for i in 0..contexts.len() {
        rests[i] = contexts[i].complete_begun(pieces[i], meter);
    }
    rests
}

// Updates one context a lane: completes their pending blocks, runs the blocks side by side as long
// as every piece has one, and then takes in the rest of each piece by itself.
#[tactic(auto, using(crate::proofs::lemmas::digest::Updates::context_rules))]
fn update_in_lanes<H: RunBlocks<N>, const N: usize>(
    algorithm: Algorithm,
    contexts: &mut [Context],
    pieces: &[&[u8]],
    meter: &mut Meter,
)
    requires some { 0 < H.LANES }
    requires most { H.LANES ≤ 8 }
    requires same { H.is_of algorithm }
    requires whole { block_len algorithm ≡ N }
    requires lanes { length contexts.old ≡ H.LANES }
    requires pieces { length pieces.now ≡ H.LANES }
    requires algorithm { All (λ context. context_algorithm context ≡ algorithm) contexts.old }
    ensures ok { AreUpdated contexts.old contexts.new pieces.now }
    ensures cost { meter.new
        ≡ raised meter.old (update_each_blocks contexts.old pieces.now) 0 }
{
    let all = complete_each(contexts, pieces, meter);
    let rests = &all[..H::LANES];
    let count = fewest_blocks::<Whole, N>(algorithm, rests);
    let states = states_of(algorithm, contexts);
    let mut lanes = H::new(&states[..H::LANES]);
    run_lanes::<H, Whole, N>(algorithm, &mut lanes, rests, count, meter);
    'lanes: for i in 0..contexts.len() {
        let state = H::state(&lanes, i);
        contexts[i].go_on(state, rests[i], count, meter);
    }
}

// Updates contexts of one algorithm side by side, or the one context. `lanes_of` chose the number.
fn update_together<const VECTOR_BITS: usize>(
    contexts: &mut [Context],
    pieces: &[&[u8]],
    meter: &mut Meter,
)
    requires some { 0 < length contexts.old }
    requires pieces { length pieces.now ≡ length contexts.old }
    requires together { HoldsAt (λ context. CanRunTogether VECTOR_BITS
        (context_algorithm context) (length contexts.old)) contexts.old 0 }
    requires alike { AreAlike contexts.old (length contexts.old) }
    ensures ok { AreUpdated contexts.old contexts.new pieces.now }
    ensures cost { meter.new
        ≡ raised meter.old (update_each_blocks contexts.old pieces.now) 0 }
{
    let algorithm = contexts[0].algorithm();
    if contexts.len() == 1 {
        return contexts[0].update_counted(pieces[0], meter);
    }
    macro_rules! update_in {
        ($digests:ty) => {
            // There are several contexts.
            unreachable!()
        };
        ($lanes:ty, $block_len:literal, $digests:ty) => {
            update_in_lanes::<$lanes, $block_len>(algorithm, contexts, pieces, meter)
        };
    }
    by_lanes!(VECTOR_BITS, algorithm, contexts.len(), update_in)
}

// How many of the contexts, from the first on, are of the first one's algorithm.
fn count_alike(contexts: &[Context]) -> usize
    requires { 0 < length contexts.now }
    ensures some { 0 < result }
    ensures within { result ≤ length contexts.now }
    ensures alike { AreAlike contexts.now result }
{
    let algorithm = contexts[0].algorithm();
    'contexts: for i in 1..contexts.len() {
        if contexts[i].algorithm() != algorithm {
            return i;
        }
    }
    contexts.len()
}

// How many of the contexts, from the first on, run side by side next.
#[tactic(auto, using(crate::proofs::lemmas::digest::Updates::fronts))]
fn lanes_of<const VECTOR_BITS: usize>(contexts: &[Context]) -> usize
    requires { 0 < length contexts.now }
    ensures some { 0 < result }
    ensures within { result ≤ length contexts.now }
    ensures together { HoldsAt (λ context.
        CanRunTogether VECTOR_BITS (context_algorithm context) result) contexts.now 0 }
    ensures alike { AreAlike contexts.now result }
{
    let next = &contexts[..contexts.len().min(MAX_LANES)];
    lanes_for::<VECTOR_BITS>(contexts[0].algorithm(), count_alike(next))
}

// Updates all contexts, group by group, as many side by side as the lanes allow.
#[tactic(auto, using(crate::proofs::lemmas::digest::Updates::context_rules))]
fn update_all<const VECTOR_BITS: usize>(
    contexts: &mut [Context],
    pieces: &[&[u8]],
    meter: &mut Meter,
)
    requires { length pieces.now ≡ length contexts.old }
    ensures ok { AreUpdated contexts.old contexts.new pieces.now }
    ensures cost { meter.new
        ≡ raised meter.old (update_each_blocks contexts.old pieces.now) 0 }
{
    let mut made = 0;
    'parts: while made < contexts.len() {
        let end = made + lanes_of::<VECTOR_BITS>(&contexts[made..]);
        update_together::<VECTOR_BITS>(&mut contexts[made..end], &pieces[made..end], meter);
        made = end;
    }
}

/// As [`update_each_counted`], but over vectors of `VECTOR_BITS` bits.
pub fn update_each_in<const VECTOR_BITS: usize>(
    contexts: &mut [Context],
    pieces: &[&[u8]],
    meter: &mut Meter,
) -> Result<(), Unspecified>
    ensures { UpdatesEach contexts.old contexts.new pieces.now meter.old meter.new result }
{
    if pieces.len() != contexts.len() {
        return Err(Unspecified);
    }
    update_all::<VECTOR_BITS>(contexts, pieces, meter);
    Ok(())
}

/// Adds each of `pieces` to the context at its index in `contexts`, runs the blocks that this
/// completes (FIPS 180-4, section 6), and counts them on `meter`.
///
/// Each context is then as after [`Context::update_counted`], and costs as much. The contexts may
/// be of different algorithms, and may have taken in any pieces before. Four neighbours of SHA-1 or
/// of SHA-256 run side by side, which is faster than one after another, most of all where their
/// pieces have about the same length.
///
/// Refused where `pieces` and `contexts` differ in number. `contexts` and `meter` are then
/// unchanged.
pub fn update_each_counted(
    contexts: &mut [Context],
    pieces: &[&[u8]],
    meter: &mut Meter,
) -> Result<(), Unspecified>
    ensures { UpdatesEach contexts.old contexts.new pieces.now meter.old meter.new result }
{
    update_each_in::<SSE>(contexts, pieces, meter)
}
