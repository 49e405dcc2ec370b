// SPDX-License-Identifier: ISC
//! A context of whole blocks, the padding that ends its message (FIPS 180-4, section 5.1), and the
//! digest.

ghost use Rattle.std.specs.Prelude.{◌≡◌, ◌↔◌, ℕ, ◌+◌, ◌-◌, ◌*◌, ◌/◌, ◌^◌, ◌<◌, ◌≤◌, List, []};
ghost use Rattle.std.specs.Prelude.{◌++◌, length, replicate, take, drop};
ghost use Rattle.std.specs.Prelude.{IsTrue, IfOk, IsErr, OnOk, OnErr};
ghost use Rattle.std.specs.Int.{bytes_high_first};
ghost use Rattle.ring_core.specs.Cost.{raised};
ghost use Rattle.ring.specs.Algorithm.{block_len, length_len, max_input_len, output_len, word_len};
ghost use Rattle.ring.specs.Cost.{padded_blocks, whole_blocks};
ghost use Rattle.ring.specs.Digest.{IsDigest, blocks_from, bytes_of, digest_after};
ghost use Rattle.ring.specs.Digest.{digest_algorithm, digest_of};
ghost use Rattle.ring.specs.Lanes.{digest_bytes};
ghost use Rattle.ring.specs.Padding.{IsPadded, padded, tail_of};
ghost use Rattle.ring.specs.State.{chaining_words, is_state_of, spare_words, word_bytes, words};
ghost use Rattle.ring.specs.declared.digest.algorithm.Algorithm.{Algorithm};

use crate::digest::algorithm::{Algorithm, MAX_BLOCK_LEN};
use crate::digest::dynstate::{DynState, Output, long_output, short_output};
use crate::limits::message::is_message_within;
use ring_core::bits::{BitLength, FromByteLen};
use ring_core::cost::Meter;
use ring_core::digest::sha1::sha1_block_data_order_fastest_counted;
use ring_core::digest::sha2::{
    State32, State64, block_data_order_32_fastest_counted, block_data_order_64_fastest_counted,
};
use ring_core::error::Unspecified;
use ring_core::polyfill::slice::as_chunks;
use std::fmt;
use std::simd::Simd;

// Advances `words`, of an algorithm of 64-bit words, over the whole blocks of `input`, and returns
// the bytes past them.
fn run_blocks_64<'i>(words: &mut State64, input: &'i [u8], meter: &mut Meter) -> &'i [u8]
    ensures words { (a : Algorithm) → IsTrue (is_state_of a (DynState.As64 words.old))
        → chaining_words a (DynState.As64 words.new)
        ≡ blocks_from a (chaining_words a (DynState.As64 words.old)) input.now }
    ensures spare { (a : Algorithm) → IsTrue (is_state_of a (DynState.As64 words.old))
        → spare_words a (DynState.As64 words.new) ≡ spare_words a (DynState.As64 words.old) }
    ensures rest { result.now ≡ drop (length input.now / 128 * 128) input.now }
    ensures cost { meter.new ≡ raised meter.old (length input.now / 128) 0 }
{
    let (blocks, rest) = as_chunks::<u8, 128>(input);
    block_data_order_64_fastest_counted(words, blocks, meter);
    rest
}

// The same for the words of an algorithm of 32-bit words. It is inlined, since a call of its own
// takes 3 ns for each block that a small input completes.
#[inline(always)]
fn run_blocks_32<'i>(
    algorithm: Algorithm,
    words: &mut State32,
    input: &'i [u8],
    meter: &mut Meter,
) -> &'i [u8]
    requires { IsTrue (is_state_of algorithm (DynState.As32 words.old)) }
    ensures words { chaining_words algorithm (DynState.As32 words.new)
        ≡ blocks_from algorithm (chaining_words algorithm (DynState.As32 words.old)) input.now }
    ensures spare { spare_words algorithm (DynState.As32 words.new)
        ≡ spare_words algorithm (DynState.As32 words.old) }
    ensures rest { result.now
        ≡ drop (whole_blocks algorithm (length input.now) * block_len algorithm) input.now }
    ensures cost { meter.new
        ≡ raised meter.old (whole_blocks algorithm (length input.now)) 0 }
{
    let (blocks, rest) = as_chunks::<u8, 64>(input);
    if algorithm.is_sha1() {
        sha1_block_data_order_fastest_counted(words, blocks, meter);
    } else {
        block_data_order_32_fastest_counted(words, blocks, meter);
    }
    rest
}

// Advances `state` over the whole blocks of `input`, and returns the bytes past them.
pub(crate) fn run_blocks<'i>(
    algorithm: Algorithm,
    state: &mut DynState,
    input: &'i [u8],
    meter: &mut Meter,
) -> &'i [u8]
    requires { IsTrue (is_state_of algorithm state.old) }
    ensures words { chaining_words algorithm state.new
        ≡ blocks_from algorithm (chaining_words algorithm state.old) input.now }
    ensures spare { spare_words algorithm state.new ≡ spare_words algorithm state.old }
    ensures sized { IsTrue (is_state_of algorithm state.new) }
    ensures rest { result.now
        ≡ drop (whole_blocks algorithm (length input.now) * block_len algorithm) input.now }
    ensures cost { meter.new
        ≡ raised meter.old (whole_blocks algorithm (length input.now)) 0 }
{
    match state {
        DynState::As64(words) => run_blocks_64(words, input, meter),
        DynState::As32(words) => run_blocks_32(algorithm, words, input, meter),
    }
}

// Puts `bytes` at the front of the pending ones: nothing is called where there are none.
fn put_front(pending: &mut [u8; MAX_BLOCK_LEN], bytes: &[u8])
    requires { length bytes.now ≤ MAX_BLOCK_LEN }
    ensures front { take (length bytes.now) pending.new ≡ bytes.now }
    ensures behind { drop (length bytes.now) pending.new ≡ drop (length bytes.now) pending.old }
{
    if bytes.is_empty() {
        return;
    }
    pending[..bytes.len()].copy_from_slice(bytes);
}

// The bit 1 that follows every message, and the first seven of the zeros after it.
const END_OF_MESSAGE: u8 = 0x80;

// The padding takes no more than one block past the pending one.
pub(crate) const MAX_TAIL_LEN: usize = 2 * MAX_BLOCK_LEN;

// The bytes of the length field where blocks have 128 bytes.
const LONG_LENGTH_LEN: usize = 16;

// The bytes of the length field where blocks have 64 bytes.
const SHORT_LENGTH_LEN: usize = 8;

// Writes what follows the whole blocks of a message of `message_len` bytes over zeros: the pending
// bytes, the byte 0x80, zeros, and the length in bits. It returns how many bytes that is. The array
// is the caller's: returning it by value costs a copy that defeats store forwarding. Where the
// compiler inlines this function, SHA-512 of 64 bytes takes a fortieth longer.
#[inline(never)]
pub(crate) fn write_tail(
    algorithm: Algorithm,
    pending: &[u8],
    message_len: u128,
    bytes: &mut [u8; MAX_TAIL_LEN],
) -> usize
    requires partial { length pending.now < block_len algorithm }
    requires fits { message_len ≤ max_input_len algorithm }
    requires zeros { bytes.old ≡ replicate MAX_TAIL_LEN 0 }
    ensures len { result ≡ padded_blocks algorithm (length pending.now) * block_len algorithm }
    ensures bytes { take result bytes.new ≡ tail_of algorithm pending.now message_len }
{
    let block_len = algorithm.block_len();
    let blocks = (pending.len() + algorithm.length_len()) / block_len + 1;
    let len = blocks * block_len;
    bytes[..pending.len()].copy_from_slice(pending);
    bytes[pending.len()] = END_OF_MESSAGE;
    put_length(algorithm, bytes, len, message_len);
    len
}

// A word of 64 bits is below this.
const LONG_WORD: u128 = 1 << 64;

// Writes the length field before the place `end`. Each size of the field has a branch of its own,
// in which the length of the copy is a constant: the copy is then a few instructions.
#[tactic(auto, using(crate::proofs::lemmas::digest::Tails::length_rules))]
fn put_length(algorithm: Algorithm, bytes: &mut [u8; MAX_TAIL_LEN], end: usize, message_len: u128)
    requires room { length_len algorithm ≤ end }
    requires within { end ≤ MAX_TAIL_LEN }
    requires fits { message_len ≤ max_input_len algorithm }
    ensures { bytes.new ≡ take (end - length_len algorithm) bytes.old
        ++ bytes_high_first (length_len algorithm) (8 * message_len) ++ drop end bytes.old }
{
    let bit_len = bit_len_field(message_len);
    if algorithm.length_len() == LONG_LENGTH_LEN {
        bytes[end - LONG_LENGTH_LEN..end].copy_from_slice(&bit_len);
    } else {
        bytes[end - SHORT_LENGTH_LEN..end].copy_from_slice(
            &bit_len[LONG_LENGTH_LEN - SHORT_LENGTH_LEN..],
        );
    }
}

// The length of the message in bits, high byte first. A field of eight bytes is the last half. The
// compiler takes `to_be_bytes` of such a product apart into 25 instructions.
fn bit_len_field(message_len: u128) -> [u8; LONG_LENGTH_LEN]
    requires { message_len < 2 ^ 125 }
    ensures { result ≡ bytes_high_first 16 (8 * message_len) }
{
    match BitLength::<u128>::from_byte_len(message_len) {
        Ok(bit_len) => {
            let bits = bit_len.as_bits();
            let words = Simd::from_array([(bits / LONG_WORD) as u64, (bits % LONG_WORD) as u64]);
            words
                .to_le_bytes()
                .swizzle([7, 6, 5, 4, 3, 2, 1, 0, 15, 14, 13, 12, 11, 10, 9, 8])
                .to_array()
        }
        // Eight times a number below 2^125 fits 128 bits.
        Err(_) => unreachable!(),
    }
}

/// States that the padded message is the shortest list of the standard's form that is whole blocks,
/// for each algorithm and message (FIPS 180-4, sections 5.1.1 and 5.1.2). The call does nothing.
pub fn padding_is_shortest()
    ensures { (a : Algorithm) (m : List ℕ) → IsPadded a m (padded a m) }
{}

// The number of bytes in the whole blocks so far, at most `u128::MAX`, and the state after these
// blocks. The count comes first, so that its alignment leaves no gap.
#[derive(Drop)]
pub(crate) struct BlockContext {
    pub(crate) completed_bytes: u128,
    pub(crate) state: DynState,
    pub(crate) algorithm: Algorithm,
    ghost sized: { IsTrue (is_state_of algorithm state) },
}

impl BlockContext {
    ghost use Rattle.ring.specs.Context.{HasRunBlocks, HasTaken, block_algorithm, block_words};
    ghost use Rattle.ring.specs.Context.{counted_bytes, cut_off, filled};

    pub(crate) fn new(algorithm: &Algorithm) -> Self
        ensures stands { HasTaken result [] }
        ensures algorithm { block_algorithm result ≡ algorithm.now }
        ensures counted { counted_bytes result ≡ 0 }
    {
        BlockContext {
            state: algorithm.initial_state(),
            completed_bytes: 0,
            algorithm: *algorithm,
        }
    }

    pub(crate) fn clone(&self) -> Self
        ensures { result ≡ self.now }
    {
        BlockContext {
            state: self.state,
            completed_bytes: self.completed_bytes,
            algorithm: self.algorithm,
        }
    }

    // Runs the whole blocks of `input`, and returns the bytes past them.
    #[tactic(auto, using(crate::proofs::lemmas::digest::Updating::moves))]
    pub(crate) fn update<'i>(&mut self, input: &'i [u8], meter: &mut Meter) -> &'i [u8]
        ensures moved { HasRunBlocks (block_len (block_algorithm self.old)) self.old self.new
            input.now result.now meter.old meter.new }
        ensures short { length result.now < block_len (block_algorithm self.old) }
    {
        // A call of the block function that runs no block is worth avoiding.
        if input.len() < self.algorithm.block_len() {
            return input;
        }
        let rest = run_blocks(self.algorithm, &mut self.state, input, meter);
        let completed = (input.len() - rest.len()) as u128;
        self.completed_bytes = self.completed_bytes.saturating_add(completed);
        rest
    }

    // Completes the pending block, if one is begun, runs it where it stands, and returns the rest
    // of `input`.
    #[inline(always)]
    fn complete<'i>(
        &mut self,
        pending: &mut [u8; MAX_BLOCK_LEN],
        num_pending: usize,
        input: &'i [u8],
        meter: &mut Meter,
    ) -> &'i [u8]
        requires partial { num_pending < block_len (block_algorithm self.old) }
        requires enough { block_len (block_algorithm self.old) ≤ num_pending + length input.now }
        ensures moved { HasRunBlocks (block_len (block_algorithm self.old)) self.old self.new
            (take num_pending pending.old ++ input.now) result.now meter.old meter.new }
        ensures room { pending.new
            ≡ filled (block_len (block_algorithm self.old)) num_pending input.now pending.old }
    {
        if num_pending == 0 {
            return input;
        }
        let block_len = self.algorithm.block_len();
        let (head, rest) = input.split_at(block_len - num_pending);
        pending[num_pending..block_len].copy_from_slice(head);
        let _ = self.update(&pending[..block_len], meter);
        rest
    }

    // Takes in the first `num_pending` bytes of `pending` and then `input`, and runs each block
    // that is complete. What is left stands at the front of `pending`, and the result is its
    // length.
    #[inline(always)]
    #[tactic(auto, using(crate::proofs::lemmas::digest::Updating::update_rules))]
    pub(crate) fn move_on(
        &mut self,
        pending: &mut [u8; MAX_BLOCK_LEN],
        num_pending: usize,
        input: &[u8],
        meter: &mut Meter,
    ) -> usize
        requires partial { num_pending < block_len (block_algorithm self.old) }
        requires enough { block_len (block_algorithm self.old) ≤ num_pending + length input.now }
        ensures moved { HasRunBlocks (block_len (block_algorithm self.old)) self.old self.new
            (take num_pending pending.old ++ input.now) (take result pending.new)
            meter.old meter.new }
        ensures short { result < block_len (block_algorithm self.old) }
        ensures len { length (take result pending.new) ≡ result }
        ensures behind { drop result pending.new ≡ drop result
            (filled (block_len (block_algorithm self.old)) num_pending input.now pending.old) }
    {
        let rest = self.complete(pending, num_pending, input, meter);
        let leftover = self.update(rest, meter);
        put_front(pending, leftover);
        leftover.len()
    }

    // The output after the blocks so far and those of `tail`, which ends a padded message. Each
    // word size has its own branch to the end: in a common one the compiler merges their reads,
    // which defeats store forwarding of what the block function wrote.
    #[inline(never)]
    #[tactic(auto, using(crate::proofs::lemmas::digest::Finishing::finish_rules))]
    pub(crate) fn output_after(&self, tail: &[u8], meter: &mut Meter) -> Output
        ensures bytes { take (output_len (block_algorithm self.now)) result.0
            ≡ take (output_len (block_algorithm self.now))
            (word_bytes (word_len (block_algorithm self.now))
            (blocks_from (block_algorithm self.now) (block_words self.now) tail.now)) }
        ensures cost { meter.new ≡ raised meter.old
            (whole_blocks (block_algorithm self.now) (length tail.now)) 0 }
    {
        match self.state {
            DynState::As64(mut words) => {
                let _ = run_blocks_64(&mut words, tail, meter);
                long_output(&words)
            }
            DynState::As32(mut words) => {
                let _ = run_blocks_32(self.algorithm, &mut words, tail, meter);
                short_output(&words)
            }
        }
    }

    // The length of the blocks and of the pending bytes, at most `u128::MAX`.
    fn len_with(&self, pending: &[u8]) -> u128
        ensures { result ≡ cut_off (counted_bytes self.now + length pending.now) }
    {
        self.completed_bytes.saturating_add(pending.len() as u128)
    }

    // The digest of the blocks and of the pending bytes, whose message is within the limit.
    pub(crate) fn finish_within(&self, pending: &[u8], meter: &mut Meter) -> Digest
        requires partial { length pending.now < block_len (block_algorithm self.now) }
        requires within { cut_off (counted_bytes self.now + length pending.now)
            ≤ max_input_len (block_algorithm self.now) }
        ensures ok { (p : List ℕ) → HasTaken self.now p
            → IsDigest result (block_algorithm self.now) (p ++ pending.now) }
        ensures any { bytes_of result
            ≡ digest_after (block_algorithm self.now) (block_words self.now) pending.now
            (cut_off (counted_bytes self.now + length pending.now)) }
        ensures cost { meter.new
            ≡ raised meter.old (padded_blocks (block_algorithm self.now) (length pending.now)) 0 }
        ensures algorithm { digest_algorithm result ≡ block_algorithm self.now }
    {
        let message_len = self.len_with(pending);
        let mut tail = [0; MAX_TAIL_LEN];
        let len = write_tail(self.algorithm, pending, message_len, &mut tail);
        let output = self.output_after(&tail[..len], meter);
        Digest::new(output, self.algorithm)
    }

    // The state after the blocks, the pending bytes and the padding, whose words write the digest.
    // The message is within the limit.
    pub(crate) fn final_state(&self, pending: &[u8], meter: &mut Meter) -> DynState
        requires partial { length pending.now < block_len (block_algorithm self.now) }
        requires within { cut_off (counted_bytes self.now + length pending.now)
            ≤ max_input_len (block_algorithm self.now) }
        ensures ok { (p : List ℕ) → HasTaken self.now p
            → digest_bytes (block_algorithm self.now) (words result)
            ≡ digest_of (block_algorithm self.now) (p ++ pending.now) }
        ensures cost { meter.new
            ≡ raised meter.old (padded_blocks (block_algorithm self.now) (length pending.now)) 0 }
        ensures sized { IsTrue (is_state_of (block_algorithm self.now) result) }
    {
        let message_len = self.len_with(pending);
        let mut tail = [0; MAX_TAIL_LEN];
        let len = write_tail(self.algorithm, pending, message_len, &mut tail);
        let mut state = self.state;
        let _ = run_blocks(self.algorithm, &mut state, &tail[..len], meter);
        state
    }

    // The digest of the blocks and of the pending bytes.
    pub(crate) fn try_finish(
        &self,
        pending: &[u8],
        meter: &mut Meter,
    ) -> Result<Digest, Unspecified>
        requires { length pending.now < block_len (block_algorithm self.now) }
        ensures ok { IfOk result (λ digest. (p : List ℕ) → HasTaken self.now p
            → IsDigest digest (block_algorithm self.now) (p ++ pending.now)) }
        ensures any { IfOk result (λ digest. bytes_of digest
            ≡ digest_after (block_algorithm self.now) (block_words self.now) pending.now
            (cut_off (counted_bytes self.now + length pending.now))) }
        ensures refused { IsErr result
            ↔ (max_input_len (block_algorithm self.now)
            < cut_off (counted_bytes self.now + length pending.now)) }
        ensures unchanged { OnErr result (meter.new ≡ meter.old) }
        ensures cost { OnOk result (meter.new
            ≡ raised meter.old (padded_blocks (block_algorithm self.now) (length pending.now)) 0) }
        ensures algorithm { IfOk result (λ digest.
            digest_algorithm digest ≡ block_algorithm self.now) }
    {
        let message_len = self.len_with(pending);
        if !is_message_within(&self.algorithm, message_len) {
            return Err(Unspecified);
        }
        Ok(self.finish_within(pending, meter))
    }
}

/// A digest, and the algorithm that computed it.
#[derive(Clone, Copy)]
pub struct Digest {
    value: Output,
    algorithm: Algorithm,
}

impl Digest {
    // The digest that is the front of `value`.
    pub(crate) fn new(value: Output, algorithm: Algorithm) -> Self
        ensures { result ≡ record { value = value; algorithm = algorithm } }
    {
        Digest { value, algorithm }
    }

    /// The algorithm that computed it.
    pub fn algorithm(&self) -> Algorithm
        ensures { result ≡ digest_algorithm self.now }
    {
        self.algorithm
    }

    /// The bytes of the digest: the first `output_len` bytes of the last chaining words, high byte
    /// first.
    pub fn as_ref(&self) -> &[u8]
        ensures bytes { result.now ≡ bytes_of self.now }
        ensures len { length result.now ≡ output_len (digest_algorithm self.now) }
    {
        &self.value.0[..self.algorithm.output_len()]
    }
}

/// Writes the algorithm's name, a colon, and the bytes in lower case hex.
impl fmt::Debug for Digest {
    fn fmt<W: fmt::Write>(&self, f: &mut fmt::Formatter<W>) -> fmt::Result {
        let algorithm = self.algorithm;
        write!(f, "{algorithm:?}:")?;
        for byte in self.as_ref() {
            write!(f, "{byte:02x}")?;
        }
        Ok(())
    }
}
