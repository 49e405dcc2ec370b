// SPDX-License-Identifier: ISC
//! The rounds of output, as many side by side as there are lanes. A derived key is its rounds T_1,
//! T_2, .., one after another, of which the last may be cut off. A round is the exclusive or of its
//! iterates (RFC 2898, section 5.2).

ghost use Rattle.std.specs.Prelude.{◌≡◌, ℕ, ◌+◌, ◌-◌, ◌*◌, ◌^◌, ◌<◌, ◌≤◌, List, length};
ghost use Rattle.std.specs.Int.NonZero.{non_zero_u32_get};
ghost use Rattle.ring.specs.Prelude.{AreKeysOf, AreOfKeys, AreOutputs, AreRounds, AreStarts};
ghost use Rattle.ring.specs.Prelude.{CanDeriveUnder, CanRunTogether, HasPlaces, IsRound};
ghost use Rattle.ring.specs.Prelude.{KeepsPlaces, Receives, blocks_at, bytes_at, bytes_before};
ghost use Rattle.ring.specs.Prelude.{derive_rounds, dk, first_blocks, len_before, max_dk_len};
ghost use Rattle.ring.specs.Prelude.{next_round, nth_round, raised, round_at, sum_below};

use crate::digest::algorithm::{Algorithm, AlgorithmId};
use crate::digest::dynstate::{OUTPUT_ROOM, Output};
// `by_lanes!` names the type of each algorithm.
use crate::digest::lanes::algorithms::*;
use crate::hmac::Key;
use crate::hmac::prepared::{DigestBlock, PreparedKeys, Starts};
use crate::pbkdf2::receiver::Receiver;
use crate::width::AVX2;
use ring_core::cost::Meter;
use std::num::{NonZeroU32, Wrapping};
use std::simd::{u32x4, u32x8, u64x4};

const NO_OUTPUTS: [Output; MAX_LANES] = [Output([0; OUTPUT_ROOM]); MAX_LANES];

// Keys of `len` bytes to derive: under HMAC's key at each place, from the salt there.
#[derive(Drop)]
pub(crate) struct Derivation<'a> {
    pub(crate) algorithm: Algorithm,
    pub(crate) keys: &'a [Key],
    pub(crate) salts: &'a [&'a [u8]],
    pub(crate) iterations: NonZeroU32,
    pub(crate) len: usize,
}

// T_i of the key at a place, where i is the index. Its bytes stand in the derived key from the
// byte `from` on.
#[derive(Clone, Copy)]
pub(crate) struct Round {
    pub(crate) place: usize,
    pub(crate) index: u32,
    pub(crate) from: usize,
}

// The round after this one: the next of its key, or the first of the next.
#[tactic(auto, unfolding(crate::specs::Rounds::next_round))]
fn round_after(derivation: &Derivation<'_>, round: Round) -> Round
    requires round { IsRound derivation.now.algorithm derivation.now.len round }
    requires numbers { derivation.now.len ≤ max_dk_len derivation.now.algorithm }
    requires places { round.place + 1 < 2 ^ 64 }
    ensures { result ≡ next_round derivation.now.algorithm derivation.now.len round }
{
    let output_len = derivation.algorithm.output_len();
    if derivation.len - round.from > output_len {
        Round {
            place: round.place,
            index: round.index + 1,
            from: round.from + output_len,
        }
    } else {
        Round {
            place: round.place + 1,
            index: 1,
            from: 0,
        }
    }
}

// How many rounds there are from `first` on, counted up to the greatest number of lanes.
#[tactic(auto, using(crate::proofs::Sets::rounds))]
fn rounds_from(derivation: &Derivation<'_>, first: Round) -> usize
    requires round { IsRound derivation.now.algorithm derivation.now.len first }
    requires place { first.place < length derivation.now.keys.now }
    requires numbers { derivation.now.len ≤ max_dk_len derivation.now.algorithm }
    ensures places { AreOfKeys derivation.now.algorithm derivation.now.len first result
        (length derivation.now.keys.now) }
    ensures some { 0 < result }
    ensures most { result ≤ 8 }
{
    let mut count = 0;
    let mut round = first;
    'rounds: while count < MAX_LANES && round.place < derivation.keys.len() {
        round = round_after(derivation, round);
        count += 1;
    }
    count
}

// Starts as many rounds from `first` on as there are lanes, each by the message whose tag is U_1.
fn set_starts(
    derivation: &Derivation<'_>,
    first: Round,
    lanes: usize,
    starts: &mut Starts,
    meter: &mut Meter,
)
    requires most { lanes ≤ 8 }
    requires rounds { AreRounds derivation.now first lanes }
    ensures starts { AreStarts derivation.now first starts.new lanes }
    ensures cost { meter.new
        ≡ raised meter.old (sum_below (first_blocks derivation.now first) lanes) 0 }
{
    let mut round = first;
    'starts: for i in 0..lanes {
        let key = &derivation.keys[round.place];
        let salt = derivation.salts[round.place];
        starts.set(i, key, salt, &round.index.to_be_bytes(), meter);
        round = round_after(derivation, round);
    }
}

// Writes the rounds from `first` on, as many as there are lanes: of each the exclusive or of its
// iterates. It isn't inlined, so that its locals take no room on the stack while rounds start.
#[inline(never)]
fn xor_iterates<H: DigestBlock>(
    derivation: &Derivation<'_>,
    first: Round,
    starts: &Starts,
    outputs: &mut [Output],
    meter: &mut Meter,
)
    requires some { 0 < H.LANES }
    requires most { H.LANES ≤ 8 }
    requires same { H.algorithm ≡ derivation.now.algorithm }
    requires lanes { length outputs.old ≡ H.LANES }
    requires rounds { AreRounds derivation.now first H.LANES }
    requires starts { AreStarts derivation.now first starts.now H.LANES }
    ensures ok { (p : ℕ → List ℕ) → AreKeysOf derivation.now.algorithm derivation.now.keys.now p
        → AreOutputs derivation.now.algorithm derivation.now.len (round_at derivation.now p)
        (length derivation.now.keys.now) first outputs.new }
    ensures cost { meter.new ≡ raised meter.old
        (H.LANES * (1 + 2 * (non_zero_u32_get derivation.now.iterations - 1))) 0 }
{
    let keys = PreparedKeys::<H>::new(starts);
    let mut iterate = keys.first_tags(starts, meter);
    let mut sum = iterate.clone();
    'iterates: for _made in 1..derivation.iterations.get() {
        keys.sign_digests(&mut iterate, meter);
        sum.xor_assign(&iterate);
    }
    sum.write(outputs);
}

// Writes the rounds from `first` on, of which so many can run together.
fn write_rounds<const VECTOR_BITS: usize>(
    derivation: &Derivation<'_>,
    first: Round,
    starts: &Starts,
    outputs: &mut [Output],
    meter: &mut Meter,
)
    requires together { CanRunTogether VECTOR_BITS derivation.now.algorithm (length outputs.old) }
    requires rounds { AreRounds derivation.now first (length outputs.old) }
    requires starts { AreStarts derivation.now first starts.now (length outputs.old) }
    ensures ok { (p : ℕ → List ℕ) → AreKeysOf derivation.now.algorithm derivation.now.keys.now p
        → AreOutputs derivation.now.algorithm derivation.now.len (round_at derivation.now p)
        (length derivation.now.keys.now) first outputs.new }
    ensures cost { meter.new ≡ raised meter.old (length outputs.old
        * (1 + 2 * (non_zero_u32_get derivation.now.iterations - 1))) 0 }
{
    macro_rules! write_in {
        ($digests:ty) => {
            xor_iterates::<$digests>(derivation, first, starts, outputs, meter)
        };
        ($lanes:ty, $block_len:literal, $digests:ty) => {
            write_in!($digests)
        };
    }
    by_lanes!(VECTOR_BITS, derivation.algorithm, outputs.len(), write_in)
}

// Hands the rounds from `first` on to the receiver, whose places are those of the keys from `place`
// on: of each round what its key takes. Returns the round after them.
#[tactic(auto, using(crate::proofs::Sets::rounds))]
fn hand_over<R: Receiver>(
    derivation: &Derivation<'_>,
    first: Round,
    outputs: &[Output],
    place: usize,
    receiver: &mut R,
    meter: &mut Meter,
) -> Round
    requires round { IsRound derivation.now.algorithm derivation.now.len first }
    requires numbers { derivation.now.len ≤ max_dk_len derivation.now.algorithm }
    requires room { (i : ℕ) → i < length outputs.now → HasPlaces R.places R.room
        (place + (nth_round derivation.now first i).place + 1) derivation.now.len receiver.old }
    ensures next { result ≡ nth_round derivation.now first (length outputs.now) }
    ensures ok { (start : R) (f : ℕ → ℕ → List ℕ) (m : ℕ)
        → let a = derivation.now.algorithm in let n = derivation.now.len in
        AreOutputs a n f m first outputs.now
        → Receives R.HasReceived place m (bytes_before a n f first) start receiver.old
        → Receives R.HasReceived place m (bytes_before a n f result) start receiver.new }
    ensures same { KeepsPlaces R.places R.room receiver.old receiver.new }
    ensures cost { meter.new ≡ raised meter.old 0
        (R.pairs * (len_before derivation.now.len result - len_before derivation.now.len first)) }
{
    let output_len = derivation.algorithm.output_len();
    let mut round = first;
    'rounds: for i in 0..outputs.len() {
        let part_len = output_len.min(derivation.len - round.from);
        let part = &outputs[i].0[..part_len];
        receiver.take(place + round.place, round.from, part, meter);
        round = round_after(derivation, round);
    }
    round
}

// Derives the keys. The receiver takes them at as many places, from the first on.
pub(crate) fn derive_under<const VECTOR_BITS: usize, R: Receiver>(
    derivation: &Derivation<'_>,
    first: usize,
    receiver: &mut R,
    meter: &mut Meter,
)
    requires under { CanDeriveUnder derivation.now }
    requires room { HasPlaces R.places R.room (first + length derivation.now.keys.now)
        derivation.now.len receiver.old }
    ensures ok { (p : ℕ → List ℕ) → AreKeysOf derivation.now.algorithm derivation.now.keys.now p
        → Receives R.HasReceived first (length derivation.now.keys.now)
        (λ i. dk derivation.now.algorithm (p i) (bytes_at derivation.now.salts.now i)
        (non_zero_u32_get derivation.now.iterations) derivation.now.len)
        receiver.old receiver.new }
    ensures same { KeepsPlaces R.places R.room receiver.old receiver.new }
    ensures cost { meter.new ≡ raised meter.old
        (derive_rounds derivation.now.algorithm derivation.now.len
        * sum_below (blocks_at derivation.now) (length derivation.now.keys.now))
        (R.pairs * (length derivation.now.keys.now * derivation.now.len)) }
{
    if derivation.len == 0 {
        return;
    }
    let mut round = Round {
        place: 0,
        index: 1,
        from: 0,
    };
    'rounds: while round.place < derivation.keys.len() {
        let left = rounds_from(derivation, round);
        let lanes = lanes_for::<VECTOR_BITS>(derivation.algorithm, left);
        let mut outputs = NO_OUTPUTS;
        let outputs = &mut outputs[..lanes];
        let mut starts = Starts::new();
        set_starts(derivation, round, lanes, &mut starts, meter);
        write_rounds::<VECTOR_BITS>(derivation, round, &starts, outputs, meter);
        round = hand_over(derivation, round, outputs, first, receiver, meter);
    }
}
