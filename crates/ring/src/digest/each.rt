// SPDX-License-Identifier: ISC
//! Digests of several messages at once, as many side by side as a vector has lanes.

ghost use Rattle.std.specs.Prelude.{◌≡◌, ◌≢◌, ◌↔◌, ℕ, ◌-◌, ◌*◌, ◌/◌, ◌<◌, ◌≤◌, ◌++◌, IsOk};
ghost use Rattle.std.specs.Prelude.{◌+◌, IsTrue, OnErr, OnOk, length, replicate, take};
ghost use Rattle.ring_core.specs.Prelude.{array_at, chunk_at};
ghost use Rattle.ring.specs.Prelude.{AreDigests, CanDigestEach, CanRunTogether, CanWriteEach};
ghost use Rattle.ring.specs.Prelude.{DigestsEach, HasWords, IsDigest, IsMessageWithin};
ghost use Rattle.ring.specs.Prelude.{block_len, bytes_of_each, chaining_words, digests_of};
ghost use Rattle.ring.specs.Prelude.{each_blocks, output_len};
ghost use Rattle.ring.specs.Prelude.{is_state_of, message_at, padded, padded_blocks, raised};
ghost use Rattle.ring.specs.Prelude.{state_word_len, word_bytes, words, words_at};

use crate::digest::algorithm::{Algorithm, AlgorithmId};
use crate::digest::block_context::{Digest, run_blocks};
use crate::digest::context::digest_counted;
use crate::digest::dynstate::{
    DynState, OUTPUT_ROOM, Output, StateWord, long_output, short_output,
};
use crate::digest::lanes::algorithms::{
    InVector, LaneStates, Long, RunBlocks, Sha1, Sha256, by_lanes, lanes_for,
};
use crate::digest::lanes::blocks::{Blocks, Padded, fewest_blocks, run_lanes};
use crate::limits::message::is_message_within;
use crate::width::{AVX2, SSE};
use ring_core::cost::Meter;
use ring_core::error::Unspecified;
use ring_core::polyfill::slice::write_at;
use std::num::Wrapping;
use std::simd::{u32x4, u32x8, u64x4};

// Here `N` is the number of bytes in a block of the algorithm.

// Advances the state over the message's remaining whole blocks, from the first `count` blocks of
// the padded message on, and returns how many blocks it has then taken in.
#[tactic(auto, using(crate::proofs::lemmas::digest::LaneBlocks::lane_rules))]
fn run_whole<const N: usize>(
    algorithm: Algorithm,
    state: &mut DynState,
    message: &[u8],
    count: usize,
    meter: &mut Meter,
) -> usize
    requires whole { block_len algorithm ≡ N }
    requires sized { IsTrue (is_state_of algorithm state.old) }
    requires words { chaining_words algorithm state.old ≡ words_at algorithm message.now count }
    ensures sized { IsTrue (is_state_of algorithm state.new) }
    ensures words { chaining_words algorithm state.new ≡ words_at algorithm message.now result }
    ensures from { count ≤ result }
    ensures below { count ≤ padded_blocks algorithm (length message.now)
        → result ≤ padded_blocks algorithm (length message.now) }
    ensures cost { meter.new ≡ raised meter.old (result - count) 0 }
{
    let whole = message.len() / N;
    if whole <= count {
        return count;
    }
    let _ = run_blocks(algorithm, state, &message[N * count..], meter);
    whole
}

// The bytes of the state. `N` tells the size of its words, so that the compiler reads those of one
// size alone, in pieces as large as they were written in.
#[inline(always)]
fn output_of<const N: usize>(state: &DynState) -> Output
    requires short { N ≡ 64 → state_word_len state.now ≡ 4 }
    requires long { N ≢ 64 → state_word_len state.now ≡ 8 }
    ensures bytes { result.0 ≡ word_bytes (state_word_len state.now) (words state.now)
        ++ replicate (64 - 8 * state_word_len state.now) 0 }
    ensures count { length (words state.now) ≡ 8 }
{
    if N == 64 {
        short_output(Wrapping::<u32>::words_in(state))
    } else {
        long_output(Wrapping::<u64>::words_in(state))
    }
}

// The digest of a message from the state after the first `count` blocks of it padded. It is
// inlined, so that the state isn't copied from where it was just stored.
#[inline(always)]
fn finished<const N: usize>(
    algorithm: Algorithm,
    state: DynState,
    message: &[u8],
    count: usize,
    meter: &mut Meter,
) -> Digest
    requires whole { block_len algorithm ≡ N }
    requires within { IsMessageWithin algorithm (length message.now) }
    requires below { count ≤ padded_blocks algorithm (length message.now) }
    requires sized { IsTrue (is_state_of algorithm state) }
    requires words { chaining_words algorithm state ≡ words_at algorithm message.now count }
    ensures ok { IsDigest result algorithm message.now }
    ensures cost { meter.new
        ≡ raised meter.old (padded_blocks algorithm (length message.now) - count) 0 }
{
    let mut state = state;
    let done = run_whole::<N>(algorithm, &mut state, message, count, meter);
    'rest: for index in done..<Padded as Blocks<N>>::blocks_of(algorithm, message) {
        let mut block = [0; N];
        Padded::put_block(algorithm, message, index, &mut block);
        let _ = run_blocks(algorithm, &mut state, &block, meter);
    }
    Digest::new(output_of::<N>(&state), algorithm)
}

// Writes the digests of as many messages as there are lanes: side by side while all have blocks,
// then each by itself.
fn digest_in_lanes<H: RunBlocks<N>, const N: usize>(
    algorithm: Algorithm,
    messages: &[&[u8]],
    out: &mut [Digest],
    meter: &mut Meter,
)
    requires some { 0 < H.LANES }
    requires most { H.LANES ≤ 8 }
    requires same { H.is_of algorithm }
    requires whole { block_len algorithm ≡ N }
    requires lanes { length messages.now ≡ H.LANES }
    requires within { CanDigestEach algorithm messages.now (length out.old) }
    ensures ok { AreDigests out.new algorithm messages.now }
    ensures cost { meter.new ≡ raised meter.old (each_blocks algorithm messages.now) 0 }
{
    let count = fewest_blocks::<Padded, N>(algorithm, messages);
    let mut states = H::splat(&algorithm.initial_state());
    run_lanes::<H, Padded, N>(algorithm, &mut states, messages, count, meter);
    'lanes: for i in 0..messages.len() {
        let state = H::state(&states, i);
        out[i] = finished::<N>(algorithm, state, messages[i], count, meter);
    }
}

// Writes the digest of a message by itself.
fn digest_alone(algorithm: Algorithm, messages: &[&[u8]], out: &mut [Digest], meter: &mut Meter)
    requires one { length messages.now ≡ 1 }
    requires within { CanDigestEach algorithm messages.now (length out.old) }
    ensures ok { AreDigests out.new algorithm messages.now }
    ensures cost { meter.new ≡ raised meter.old (each_blocks algorithm messages.now) 0 }
{
    let Ok(digest) = digest_counted(&algorithm, messages[0], meter) else {
        // Each message is within the limit.
        unreachable!()
    };
    out[0] = digest;
}

// Writes the digests of a group of messages that fits the lanes.
fn digest_together<const VECTOR_BITS: usize>(
    algorithm: Algorithm,
    messages: &[&[u8]],
    out: &mut [Digest],
    meter: &mut Meter,
)
    requires together { CanRunTogether VECTOR_BITS algorithm (length messages.now) }
    requires within { CanDigestEach algorithm messages.now (length out.old) }
    ensures ok { AreDigests out.new algorithm messages.now }
    ensures cost { meter.new ≡ raised meter.old (each_blocks algorithm messages.now) 0 }
{
    if messages.len() == 1 {
        return digest_alone(algorithm, messages, out, meter);
    }
    macro_rules! digest_in {
        ($digests:ty) => {
            // There are several messages.
            unreachable!()
        };
        ($lanes:ty, $block_len:literal, $digests:ty) => {
            digest_in_lanes::<$lanes, $block_len>(algorithm, messages, out, meter)
        };
    }
    by_lanes!(VECTOR_BITS, algorithm, messages.len(), digest_in)
}

// Whether each message is within the limit.
#[tactic(auto, using(crate::proofs::Each::reads))]
fn are_messages_within(algorithm: &Algorithm, messages: &[&[u8]]) -> bool
    ensures { IsTrue result ↔ ((k : ℕ) → k < length messages.now
        → IsMessageWithin algorithm.now (length (message_at messages.now k))) }
{
    'messages: for i in 0..messages.len() {
        if !is_message_within(algorithm, messages[i].len() as u128) {
            return false;
        }
    }
    true
}

// Writes the digests of the messages to `out`, as many side by side as can be.
fn digest_all<const VECTOR_BITS: usize>(
    algorithm: &Algorithm,
    messages: &[&[u8]],
    out: &mut [Digest],
    meter: &mut Meter,
)
    requires { CanDigestEach algorithm.now messages.now (length out.old) }
    ensures ok { AreDigests out.new algorithm.now messages.now }
    ensures cost { meter.new ≡ raised meter.old (each_blocks algorithm.now messages.now) 0 }
{
    let mut made = 0;
    'parts: while made < messages.len() {
        let end = made + lanes_for::<VECTOR_BITS>(*algorithm, messages.len() - made);
        digest_together::<VECTOR_BITS>(
            *algorithm,
            &messages[made..end],
            &mut out[made..end],
            meter,
        );
        made = end;
    }
}

// How many digests are held at a time: some groups of as many as run side by side.
const GROUP: usize = 16;

// Writes the bytes of the digests to `out` from the place `start` on, and returns the place after
// them.
#[tactic(auto, using(crate::proofs::lemmas::digest::Written::written_rules))]
fn write_digests(digests: &[Digest], out: &mut [u8], start: usize) -> usize
    requires { start + length (bytes_of_each digests.now) ≤ length out.old }
    ensures end { result ≡ start + length (bytes_of_each digests.now) }
    ensures ok { take result out.new ≡ take start out.old ++ bytes_of_each digests.now }
{
    let mut end = start;
    'digests: for i in 0..digests.len() {
        let bytes = digests[i].as_ref();
        write_at(out, end, bytes);
        end += bytes.len();
    }
    end
}

// Writes the bytes of the digests of the messages to `out`, a group at a time.
#[tactic(auto, using(ring_core::proofs::Costs::rises))]
fn write_all<const VECTOR_BITS: usize>(
    algorithm: &Algorithm,
    messages: &[&[u8]],
    out: &mut [u8],
    meter: &mut Meter,
)
    requires { CanWriteEach algorithm.now messages.now (length out.old) }
    ensures ok { out.new ≡ digests_of algorithm.now messages.now }
    ensures cost { meter.new ≡ raised meter.old (each_blocks algorithm.now messages.now) 0 }
{
    let mut group = [Digest::new(Output([0; OUTPUT_ROOM]), *algorithm); GROUP];
    let mut made = 0;
    let mut written = 0;
    'groups: while made < messages.len() {
        let count = GROUP.min(messages.len() - made);
        let digests = &mut group[..count];
        digest_all::<VECTOR_BITS>(algorithm, &messages[made..made + count], digests, meter);
        written = write_digests(digests, out, written);
        made += count;
    }
}

/// Whether `len` is the length of `count` digests under `algorithm` (FIPS 180-4, section 1), as
/// [`digest_each_bytes_in`] asks of its output.
pub fn is_len_of_digests(algorithm: &Algorithm, count: usize, len: usize) -> bool
    ensures { IsTrue result ↔ (len ≡ count * output_len algorithm.now) }
{
    count.checked_mul(algorithm.output_len()) == Some(len)
}

/// Writes the bytes of the digests of `messages` under `algorithm` to `out`, one after another
/// (FIPS 180-4, section 6), over vectors of `VECTOR_BITS` bits, and counts their blocks on `meter`.
///
/// Refused where `out` has not the length of all digests together, or where a message is longer
/// than the algorithm's `max_input_len` bytes. `out` and `meter` are then as they were.
pub fn digest_each_bytes_in<const VECTOR_BITS: usize>(
    algorithm: &Algorithm,
    messages: &[&[u8]],
    out: &mut [u8],
    meter: &mut Meter,
) -> Result<(), Unspecified>
    ensures ok { OnOk result (out.new ≡ digests_of algorithm.now messages.now) }
    ensures refused { IsOk result ↔ CanWriteEach algorithm.now messages.now (length out.old) }
    ensures unchanged { OnErr result ((out.new ≡ out.old) × (meter.new ≡ meter.old)) }
    ensures cost { OnOk result (meter.new
        ≡ raised meter.old (each_blocks algorithm.now messages.now) 0) }
{
    if !is_len_of_digests(algorithm, messages.len(), out.len())
        || !are_messages_within(algorithm, messages)
    {
        return Err(Unspecified);
    }
    write_all::<VECTOR_BITS>(algorithm, messages, out, meter);
    Ok(())
}

/// As [`digest_each_counted`], but over vectors of `VECTOR_BITS` bits.
pub fn digest_each_in<const VECTOR_BITS: usize>(
    algorithm: &Algorithm,
    messages: &[&[u8]],
    out: &mut [Digest],
    meter: &mut Meter,
) -> Result<(), Unspecified>
    ensures { DigestsEach algorithm.now messages.now out.old out.new meter.old meter.new result }
{
    if messages.len() != out.len() || !are_messages_within(algorithm, messages) {
        return Err(Unspecified);
    }
    digest_all::<VECTOR_BITS>(algorithm, messages, out, meter);
    Ok(())
}

/// Writes the digests of `messages` under `algorithm` to `out`, each at its message's place (FIPS
/// 180-4, section 6), and counts their blocks on `meter`.
///
/// The digests and their costs are those of [`digest_counted`](crate::digest::digest_counted).
/// Under SHA-1 and SHA-256 four messages at a time run side by side, which is faster than one after
/// another, most of all where their lengths are alike.
///
/// Refused where `out` has more or fewer places than there are messages, or where a message is
/// longer than the algorithm's `max_input_len` bytes. `out` and `meter` are then unchanged.
pub fn digest_each_counted(
    algorithm: &Algorithm,
    messages: &[&[u8]],
    out: &mut [Digest],
    meter: &mut Meter,
) -> Result<(), Unspecified>
    ensures { DigestsEach algorithm.now messages.now out.old out.new meter.old meter.new result }
{
    digest_each_in::<SSE>(algorithm, messages, out, meter)
}
