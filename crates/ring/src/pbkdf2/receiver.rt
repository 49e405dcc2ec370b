// SPDX-License-Identifier: ISC
//! What takes the bytes of derived keys, part by part: it writes them, or compares them with given
//! values. So a verification is a derivation whose bytes are compared.

ghost use Rattle.std.specs.Prelude.{◌≡◌, ◌≢◌, ◌↔◌, ℕ, ◌+◌, ◌*◌, ◌^◌, ◌<◌, ◌≤◌, [], ◌++◌, IsTrue};
ghost use Rattle.std.specs.Prelude.{List, drop, length, min, take, true};
ghost use Rattle.std.proofs.Common.{arith, refl};
ghost use Rattle.ring_core.specs.Prelude.{array_at};
ghost use Rattle.ring.specs.Prelude.{HasPlaces, KeepsPlaces, Takes, answer_at, raised};

use ring_core::bb::verify_slices_are_equal_counted;
use ring_core::cost::Meter;

// Compares `value` with `derived`, which has the same length.
fn are_same(derived: &[u8], value: &[u8], meter: &mut Meter) -> bool
    requires { length derived.now ≡ length value.now }
    ensures ok { IsTrue result ↔ (value.now ≡ derived.now) }
    ensures cost { meter.new ≡ raised meter.old 0 (length derived.now) }
{
    verify_slices_are_equal_counted(derived, value, meter).is_ok()
}

// What takes the bytes of derived keys: at each of its places those of one key.
pub(crate) trait Receiver {
    // the number of places, and of bytes at each
    ghost places: { Self → ℕ };

    ghost room: { Self → ℕ };

    // the pairs of bytes that are compared for each byte
    ghost pairs: { ℕ };

    // from a start until now, these were the first bytes that the place took
    ghost HasReceived: { (start now : Self) → ℕ → List ℕ → Type 0 };

    // Takes a part of the key at a place, which begins at the key's byte `from`.
    fn take(&mut self, place: usize, from: usize, part: &[u8], meter: &mut Meter)
        requires { HasPlaces places room (place + 1) (from + length part.now) self.old }
        ensures ok { Takes HasReceived place from part.now self.old self.new }
        ensures same { KeepsPlaces places room self.old self.new }
        ensures cost { meter.new ≡ raised meter.old 0 (pairs * length part.now) };

    // at the start none were taken
    ghost none: { (start : Self) (place : ℕ) → HasReceived start start place [] };
}

// A key that is written.
#[derive(Drop)]
pub(crate) struct Written<'a> {
    pub(crate) out: &'a mut [u8],
}

impl<'a> Receiver for Written<'a> {
    ghost places = { λ r. 1 };

    ghost room = { λ r. length r.out.now };

    ghost pairs = { 0 };

    ghost HasReceived = { λ start now place front. (now.out.ghost_name ≡ start.out.ghost_name)
        × (length now.out.now ≡ length start.out.now)
        × (place ≡ 0 → take (length front) now.out.now ≡ front) };

    ghost none = { λ start place. (refl, refl, λ zero. refl) };

    #[tactic(auto, using(crate::proofs::Sums::raised_zero))]
    fn take(&mut self, _place: usize, from: usize, part: &[u8], _meter: &mut Meter) {
        let out = &mut *self.out;
        out[from..from + part.len()].copy_from_slice(part);
    }
}

// A value that is compared with its key.
#[derive(Drop)]
pub(crate) struct Compared<'a> {
    pub(crate) value: &'a [u8],
    pub(crate) matches: bool,
}

impl<'a> Receiver for Compared<'a> {
    ghost places = { λ r. 1 };

    ghost room = { λ r. length r.value.now };

    ghost pairs = { 1 };

    ghost HasReceived = { λ start now place front. (now.value ≡ start.value)
        × (place ≡ 0 → (now.matches ≡ true)
        ↔ ((start.matches ≡ true) × (take (length front) now.value.now ≡ front))) };

    ghost none = { λ start place. (refl, λ zero. (λ e. (e, refl), λ h. h.0)) };

    #[tactic(auto, using(crate::proofs::lemmas::pbkdf2::Taking::taking_rules))]
    fn take(&mut self, _place: usize, from: usize, part: &[u8], meter: &mut Meter) {
        let value_part = &self.value[from..from + part.len()];
        // No early exit: after a part that differs, the others are compared.
        self.matches &= are_same(part, value_part, meter);
    }
}

// Writes a part of the key at a place.
fn put_at<const N: usize>(out: &mut [[u8; N]], place: usize, from: usize, part: &[u8])
    requires place { place < length out.old }
    requires room { from + length part.now ≤ N }
    ensures bytes { take (from + length part.now) (array_at out.new place)
        ≡ take from (array_at out.old place) ++ part.now }
    ensures len { length (array_at out.new place) ≡ length (array_at out.old place) }
    ensures others { (j : ℕ) → j ≢ place → array_at out.new j ≡ array_at out.old j }
{
    out[place][from..from + part.len()].copy_from_slice(part);
}

// Keys of `N` bytes that are written.
#[derive(Drop)]
pub(crate) struct WrittenEach<'a, const N: usize> {
    pub(crate) out: &'a mut [[u8; N]],
}

impl<'a, const N: usize> Receiver for WrittenEach<'a, N> {
    ghost places = { λ r. length r.out.now };

    ghost room = { λ r. N };

    ghost pairs = { 0 };

    ghost HasReceived = { λ start now place front. (now.out.ghost_name ≡ start.out.ghost_name)
        × (length now.out.now ≡ length start.out.now)
        × (length (array_at now.out.now place) ≡ length (array_at start.out.now place))
        × (take (length front) (array_at now.out.now place) ≡ front) };

    ghost none = { λ start place. (refl, refl, refl, refl) };

    #[tactic(auto, using(crate::proofs::Sums::rises))]
    fn take(&mut self, place: usize, from: usize, part: &[u8], _meter: &mut Meter) {
        let out = &mut *self.out;
        put_at(out, place, from, part);
    }
}

// Whether the value at a place has this part.
fn has_at<const N: usize>(
    values: &[[u8; N]],
    place: usize,
    from: usize,
    part: &[u8],
    meter: &mut Meter,
) -> bool
    requires place { place < length values.now }
    requires room { from + length part.now ≤ N }
    ensures ok { IsTrue result
        ↔ (take (length part.now) (drop from (array_at values.now place)) ≡ part.now) }
    ensures cost { meter.new ≡ raised meter.old 0 (length part.now) }
    ensures len { length (array_at values.now place) ≡ N }
{
    let value: &[u8] = &values[place];
    are_same(part, &value[from..from + part.len()], meter)
}

// Values of `N` bytes, and at each place whether all bytes so far are those of its key.
#[derive(Drop)]
pub(crate) struct ComparedEach<'a, const N: usize> {
    pub(crate) values: &'a [[u8; N]],
    pub(crate) matches: &'a mut [bool],
}

impl<'a, const N: usize> Receiver for ComparedEach<'a, N> {
    ghost places = { λ r. min (length r.values.now) (length r.matches.now) };

    ghost room = { λ r. N };

    ghost pairs = { 1 };

    ghost HasReceived = { λ start now place front. (now.values ≡ start.values)
        × (now.matches.ghost_name ≡ start.matches.ghost_name)
        × (length now.matches.now ≡ length start.matches.now)
        × (0 < length front → length (array_at now.values.now place) ≡ N)
        × ((answer_at now.matches.now place ≡ true)
        ↔ ((answer_at start.matches.now place ≡ true)
        × (take (length front) (array_at now.values.now place) ≡ front))) };

    ghost none = { λ start place. (
      refl,
      refl,
      refl,
      λ some. absurd (Prim.omega arith),
      (λ e. (e, refl), λ h. h.0),
    ) };

    fn take(&mut self, place: usize, from: usize, part: &[u8], meter: &mut Meter) {
        // No early exit: after a place that differs, the others are compared.
        let same = has_at(self.values, place, from, part, meter);
        let matches = &mut *self.matches;
        matches[place] &= same;
    }
}
