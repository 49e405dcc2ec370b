// SPDX-License-Identifier: ISC
//! The blocks of several messages, one in each lane.

ghost use Rattle.std.specs.Prelude.{◌≡◌, ℕ, ◌*◌, ◌/◌, ◌<◌, ◌≤◌, List, drop, length};
ghost use Rattle.ring_core.specs.Prelude.{array_at, chunk_at, fold_chunks};
ghost use Rattle.ring.specs.Prelude.{Algorithm, HasWords, IsMessageWithin, block_function};
ghost use Rattle.ring.specs.Prelude.{block_len, message_at, padded, padded_blocks, raised};
ghost use Rattle.ring.specs.Prelude.{word_count};

use crate::digest::algorithm::Algorithm;
use crate::digest::block_context::{MAX_TAIL_LEN, write_tail};
use crate::digest::lanes::algorithms::{LaneStates, MAX_LANES, RunBlocks};
use ring_core::cost::Meter;

// Here `N` is the number of bytes in a block of the algorithm: a constant, so that a copy of a
// block is a few instructions.

// The bytes of a message whose blocks run.
pub(crate) trait Blocks<const N: usize> {
    // a message of so many bytes has blocks
    ghost within: { Algorithm → ℕ → Type 0 };

    // their bytes
    ghost bytes: { Algorithm → List ℕ → List ℕ };

    // their number
    ghost count: { Algorithm → ℕ → ℕ };

    // The number of blocks of a message.
    fn blocks_of(algorithm: Algorithm, message: &[u8]) -> usize
        requires whole { block_len algorithm ≡ N }
        requires within { within algorithm (length message.now) }
        ensures { result ≡ count algorithm (length message.now) };

    // Writes a block of a message.
    fn put_block(algorithm: Algorithm, message: &[u8], index: usize, block: &mut [u8; N])
        requires whole { block_len algorithm ≡ N }
        requires within { within algorithm (length message.now) }
        requires below { index < count algorithm (length message.now) }
        ensures { block.new ≡ chunk_at N (bytes algorithm message.now) index };
}

// The whole blocks of a piece of a message.
pub(crate) struct Whole;

// The blocks of a message and its padding (FIPS 180-4, section 5.1).
pub(crate) struct Padded;

impl<const N: usize> Blocks<N> for Whole {
    ghost within = { λ a n. Unit {0} };

    ghost bytes = { λ a m. m };

    ghost count = { λ a n. n / N };

    fn blocks_of(algorithm: Algorithm, message: &[u8]) -> usize {
        message.len() / N
    }

    #[inline(always)]
    fn put_block(algorithm: Algorithm, message: &[u8], index: usize, block: &mut [u8; N]) {
        block.copy_from_slice(&message[N * index..N * index + N]);
    }
}

// Writes a block of the padded message past the whole blocks of the message.
#[tactic(auto, using(crate::proofs::lemmas::digest::LaneBlocks::lane_rules))]
fn put_tail_block<const N: usize>(
    algorithm: Algorithm,
    message: &[u8],
    index: usize,
    block: &mut [u8; N],
)
    requires whole { block_len algorithm ≡ N }
    requires within { IsMessageWithin algorithm (length message.now) }
    requires past { length message.now / N ≤ index }
    requires below { index < padded_blocks algorithm (length message.now) }
    ensures { block.new ≡ chunk_at N (padded algorithm message.now) index }
{
    let whole = message.len() / N;
    let pending = &message[N * whole..];
    let mut tail = [0; MAX_TAIL_LEN];
    let len = write_tail(algorithm, pending, message.len() as u128, &mut tail);
    let start = N * (index - whole);
    block.copy_from_slice(&tail[..len][start..start + N]);
}

impl<const N: usize> Blocks<N> for Padded {
    ghost within = { IsMessageWithin };

    ghost bytes = { padded };

    ghost count = { padded_blocks };

    fn blocks_of(algorithm: Algorithm, message: &[u8]) -> usize {
        (message.len() + algorithm.length_len()) / N + 1
    }

    // Inlined, since calls take a hundredth of the time of SHA-1's blocks.
    #[inline(always)]
    #[tactic(auto, using(crate::proofs::lemmas::digest::LaneBlocks::chunk_whole))]
    fn put_block(algorithm: Algorithm, message: &[u8], index: usize, block: &mut [u8; N]) {
        if index >= message.len() / N {
            return put_tail_block(algorithm, message, index, block);
        }
        let start = N * index;
        block.copy_from_slice(&message[start..start + N]);
    }
}

// The smallest number of blocks of the messages.
#[tactic(auto, using(crate::proofs::Each::reads))]
pub(crate) fn fewest_blocks<B: Blocks<N>, const N: usize>(
    algorithm: Algorithm,
    messages: &[&[u8]],
) -> usize
    requires whole { block_len algorithm ≡ N }
    requires within { (i : ℕ) → i < length messages.now
        → B.within algorithm (length (message_at messages.now i)) }
    ensures { (i : ℕ) → i < length messages.now
        → result ≤ B.count algorithm (length (message_at messages.now i)) }
{
    let mut fewest = usize::MAX;
    'messages: for i in 0..messages.len() {
        fewest = fewest.min(B::blocks_of(algorithm, messages[i]));
    }
    fewest
}

// Writes a block of each message to its place.
#[inline(always)]
fn put_blocks<B: Blocks<N>, const N: usize>(
    algorithm: Algorithm,
    messages: &[&[u8]],
    index: usize,
    blocks: &mut [[u8; N]],
)
    requires whole { block_len algorithm ≡ N }
    requires lanes { length messages.now ≡ length blocks.old }
    requires within { (i : ℕ) → i < length messages.now
        → B.within algorithm (length (message_at messages.now i)) }
    requires below { (i : ℕ) → i < length messages.now
        → index < B.count algorithm (length (message_at messages.now i)) }
    ensures { (i : ℕ) → i < length messages.now → array_at blocks.new i
        ≡ chunk_at N (B.bytes algorithm (message_at messages.now i)) index }
{
    'lanes: for i in 0..messages.len() {
        B::put_block(algorithm, messages[i], index, &mut blocks[i]);
    }
}

// Advances the states in lanes over the first `count` blocks of the messages.
pub(crate) fn run_lanes<H: RunBlocks<N>, B: Blocks<N>, const N: usize>(
    algorithm: Algorithm,
    states: &mut H::States,
    messages: &[&[u8]],
    count: usize,
    meter: &mut Meter,
)
    requires some { 0 < H.LANES }
    requires most { H.LANES ≤ 8 }
    requires same { H.is_of algorithm }
    requires whole { block_len algorithm ≡ N }
    requires lanes { length messages.now ≡ H.LANES }
    requires within { (i : ℕ) → i < length messages.now
        → B.within algorithm (length (message_at messages.now i)) }
    requires below { (i : ℕ) → i < length messages.now
        → count ≤ B.count algorithm (length (message_at messages.now i)) }
    ensures words { (i : ℕ) (h : List ℕ) → i < H.LANES → HasWords algorithm h (H.lane i states.old)
        → HasWords algorithm (fold_chunks (block_function algorithm) N h
        (B.bytes algorithm (message_at messages.now i)) count) (H.lane i states.new) }
    ensures spare { (i : ℕ) (h : List ℕ) → i < H.LANES → HasWords algorithm h (H.lane i states.old)
        → drop (word_count algorithm) (H.lane i states.new)
        ≡ drop (word_count algorithm) (H.lane i states.old) }
    ensures cost { meter.new ≡ raised meter.old (H.LANES * count) 0 }
{
    let mut blocks = [[0; N]; MAX_LANES];
    'blocks: for index in 0..count {
        put_blocks::<B, N>(algorithm, messages, index, &mut blocks[..H::LANES]);
        H::run_blocks(states, &blocks[..H::LANES], meter);
    }
}
