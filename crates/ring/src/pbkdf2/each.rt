// SPDX-License-Identifier: ISC
//! Several derivations at once, whose rounds run side by side, one a lane, and the verification of
//! several values by them.

ghost use Rattle.std.specs.Prelude.{◌≡◌, ◌↔◌, ℕ, ◌*◌, ◌<◌, ◌≤◌, All, IsTrue, length, take};
ghost use Rattle.std.specs.Int.NonZero.{non_zero_u32_get};
ghost use Rattle.ring.specs.Prelude.{AreKeysOf, CanDerive, CanDeriveEach, DerivesEach, HasPlaces};
ghost use Rattle.ring.specs.Prelude.{KeyStandsFor, Receives, VerifiesEach, bytes_at};
ghost use Rattle.ring.specs.Prelude.{derive_each_blocks, dk_at, hmac_digest, key_algorithm};
ghost use Rattle.ring.specs.Prelude.{key_blocks, max_input_len, pbkdf2_digest, raised, sum_below};

use crate::digest::lanes::algorithms::MAX_LANES;
use crate::hmac::Key;
use crate::limits::can_derive_by;
use crate::pbkdf2::algorithm::Algorithm;
use crate::pbkdf2::receiver::{ComparedEach, Receiver, WrittenEach};
use crate::pbkdf2::rounds::{Derivation, derive_under};
use crate::width::SSE;
use crate::{digest, hmac};
use ring_core::cost::Meter;
use ring_core::error::Unspecified;
use std::num::NonZeroU32;

// Whether a key of `len` bytes can be derived from each secret and the salt at its place.
#[tactic(auto, using(crate::proofs::Each::reads))]
fn can_derive_all(
    algorithm: &digest::Algorithm,
    salts: &[&[u8]],
    secrets: &[&[u8]],
    len: usize,
) -> bool
    requires { length salts.now ≡ length secrets.now }
    ensures { IsTrue result ↔ ((k : ℕ) → k < length secrets.now → CanDerive algorithm.now
        (length (bytes_at secrets.now k)) (length (bytes_at salts.now k)) len) }
{
    'places: for i in 0..secrets.len() {
        let secret_len = secrets[i].len() as u128;
        if !can_derive_by(algorithm, secret_len, salts[i].len() as u128, len as u128) {
            return false;
        }
    }
    true
}

// The key of a secret within the limit.
pub(crate) fn key_within(algorithm: hmac::Algorithm, secret: &[u8], meter: &mut Meter) -> Key
    requires { length secret.now ≤ max_input_len (hmac_digest algorithm) }
    ensures ok { KeyStandsFor result secret.now }
    ensures cost { meter.new
        ≡ raised meter.old (key_blocks (hmac_digest algorithm) (length secret.now)) 0 }
    ensures algorithm { key_algorithm result ≡ hmac_digest algorithm }
{
    match Key::new_counted(algorithm, secret, meter) {
        Ok(key) => key,
        // The secret is within the limit.
        Err(_) => unreachable!(),
    }
}

// The HMAC keys of the secrets, in their order, in an array for the greatest number of lanes.
fn keys_of(algorithm: hmac::Algorithm, secrets: &[&[u8]], meter: &mut Meter) -> [Key; MAX_LANES]
    requires some { 0 < length secrets.now }
    requires most { length secrets.now ≤ 8 }
    requires within { (i : ℕ) → i < length secrets.now
        → length (bytes_at secrets.now i) ≤ max_input_len (hmac_digest algorithm) }
    ensures ok { AreKeysOf (hmac_digest algorithm)
        (take (length secrets.now) result) (bytes_at secrets.now) }
    ensures cost { meter.new ≡ raised meter.old (sum_below (λ i. key_blocks
        (hmac_digest algorithm) (length (bytes_at secrets.now i))) (length secrets.now)) 0 }
    ensures count { length (take (length secrets.now) result) ≡ length secrets.now }
{
    let first = key_within(algorithm, secrets[0], meter);
    let mut keys = [
        first.clone(),
        first.clone(),
        first.clone(),
        first.clone(),
        first.clone(),
        first.clone(),
        first.clone(),
        first,
    ];
    'keys: for i in 1..secrets.len() {
        keys[i] = key_within(algorithm, secrets[i], meter);
    }
    keys
}

// Derives `len` bytes from each secret and its salt, for as many keys at a time as there can be
// lanes.
fn derive_all<const VECTOR_BITS: usize, R: Receiver>(
    algorithm: hmac::Algorithm,
    iterations: NonZeroU32,
    salts: &[&[u8]],
    secrets: &[&[u8]],
    len: usize,
    receiver: &mut R,
    meter: &mut Meter,
)
    requires within { CanDeriveEach (hmac_digest algorithm) salts.now secrets.now
        (length secrets.now) len }
    requires room { HasPlaces R.places R.room (length secrets.now) len receiver.old }
    ensures ok { Receives R.HasReceived 0 (length secrets.now) (dk_at (hmac_digest algorithm)
        salts.now secrets.now (non_zero_u32_get iterations) len) receiver.old receiver.new }
    ensures cost { meter.new ≡ raised meter.old (derive_each_blocks (hmac_digest algorithm)
        salts.now secrets.now (non_zero_u32_get iterations) len)
        (R.pairs * (length secrets.now * len)) }
{
    let digest = algorithm.digest_algorithm();
    let mut made = 0;
    'keys: while made < secrets.len() {
        let count = (secrets.len() - made).min(MAX_LANES);
        let end = made + count;
        let keys = keys_of(algorithm, &secrets[made..end], meter);
        let derivation = Derivation {
            algorithm: digest,
            keys: &keys[..count],
            salts: &salts[made..end],
            iterations,
            len,
        };
        derive_under::<VECTOR_BITS, R>(&derivation, made, receiver, meter);
        made = end;
    }
}

// Sets each place to zeros.
fn clear<const N: usize>(out: &mut [[u8; N]])
    ensures { All (λ place. length place ≡ N) out.new }
{
    'places: for i in 0..out.len() {
        out[i] = [0; N];
    }
}

/// As [`derive_each_counted`], but over vectors of `VECTOR_BITS` bits.
pub fn derive_each_in<const VECTOR_BITS: usize, const N: usize>(
    algorithm: Algorithm,
    iterations: NonZeroU32,
    salts: &[&[u8]],
    secrets: &[&[u8]],
    out: &mut [[u8; N]],
    meter: &mut Meter,
) -> Result<(), Unspecified>
    ensures { DerivesEach (pbkdf2_digest algorithm) salts.now secrets.now
        (non_zero_u32_get iterations) N out.old out.new meter.old meter.new result }
{
    let hmac_algorithm = algorithm.hmac_algorithm();
    if salts.len() != out.len() || secrets.len() != out.len() {
        return Err(Unspecified);
    }
    if !can_derive_all(&hmac_algorithm.digest_algorithm(), salts, secrets, N) {
        return Err(Unspecified);
    }
    clear(out);
    let mut written = WrittenEach { out };
    derive_all::<VECTOR_BITS, WrittenEach<N>>(
        hmac_algorithm,
        iterations,
        salts,
        secrets,
        N,
        &mut written,
        meter,
    );
    Ok(())
}

/// Derives a key of `N` bytes for each index of `out`, from the salt and the secret at that index
/// of `salts` and `secrets`, under `algorithm` with `iterations` iterations (RFC 2898, section
/// 5.2), and counts the blocks on `meter`.
///
/// The keys and their costs are those of [`derive_counted`](crate::pbkdf2::derive_counted). Under
/// SHA-1 and SHA-256 four rounds of output at a time run side by side, whichever keys they are of,
/// which is faster than one after another.
///
/// Refused where `salts`, `secrets` and `out` differ in number, and where
/// [`derive`](crate::pbkdf2::derive) refuses a secret and its salt for `N` bytes. `out` and `meter`
/// are then unchanged.
pub fn derive_each_counted<const N: usize>(
    algorithm: Algorithm,
    iterations: NonZeroU32,
    salts: &[&[u8]],
    secrets: &[&[u8]],
    out: &mut [[u8; N]],
    meter: &mut Meter,
) -> Result<(), Unspecified>
    ensures { DerivesEach (pbkdf2_digest algorithm) salts.now secrets.now
        (non_zero_u32_get iterations) N out.old out.new meter.old meter.new result }
{
    derive_each_in::<SSE, N>(algorithm, iterations, salts, secrets, out, meter)
}

/// As [`verify_each_counted`], but over vectors of `VECTOR_BITS` bits.
pub fn verify_each_in<const VECTOR_BITS: usize, const N: usize>(
    algorithm: Algorithm,
    iterations: NonZeroU32,
    salts: &[&[u8]],
    secrets: &[&[u8]],
    previously_derived: &[[u8; N]],
    matches: &mut [bool],
    meter: &mut Meter,
) -> Result<(), Unspecified>
    ensures { VerifiesEach (pbkdf2_digest algorithm) salts.now secrets.now
        (non_zero_u32_get iterations) N previously_derived.now
        matches.old matches.new meter.old meter.new result }
{
    let hmac_algorithm = algorithm.hmac_algorithm();
    let count = previously_derived.len();
    if salts.len() != count || secrets.len() != count || matches.len() != count {
        return Err(Unspecified);
    }
    // A value of no bytes is never derived.
    let never = count != 0 && N == 0;
    if never || !can_derive_all(&hmac_algorithm.digest_algorithm(), salts, secrets, N) {
        return Err(Unspecified);
    }
    matches.fill(true);
    let mut compared = ComparedEach {
        values: previously_derived,
        matches,
    };
    derive_all::<VECTOR_BITS, ComparedEach<N>>(
        hmac_algorithm,
        iterations,
        salts,
        secrets,
        N,
        &mut compared,
        meter,
    );
    Ok(())
}

/// Verifies values of `N` bytes (RFC 2898, section 5.2): sets each of `matches` to whether
/// [`verify`](crate::pbkdf2::verify) is Ok for the salt, the secret and the value at its index in
/// `salts`, `secrets` and `previously_derived`, under `algorithm` with `iterations` iterations.
/// Counts the blocks and the compared pairs of bytes on `meter`.
///
/// Each value costs as much as by [`verify_counted`](crate::pbkdf2::verify_counted). Under SHA-1
/// and SHA-256 four rounds of output at a time run side by side, whichever values they are of,
/// which is faster than one after another.
///
/// Refused where the four lists differ in number, and, unless they are empty, where `N` is 0 or
/// [`derive`](crate::pbkdf2::derive) refuses one of the secrets and its salt for `N` bytes.
/// `matches` and `meter` are then unchanged. A value that differs is no refusal: its place in
/// `matches` is false.
pub fn verify_each_counted<const N: usize>(
    algorithm: Algorithm,
    iterations: NonZeroU32,
    salts: &[&[u8]],
    secrets: &[&[u8]],
    previously_derived: &[[u8; N]],
    matches: &mut [bool],
    meter: &mut Meter,
) -> Result<(), Unspecified>
    ensures { VerifiesEach (pbkdf2_digest algorithm) salts.now secrets.now
        (non_zero_u32_get iterations) N previously_derived.now
        matches.old matches.new meter.old meter.new result }
{
    verify_each_in::<SSE, N>(
        algorithm,
        iterations,
        salts,
        secrets,
        previously_derived,
        matches,
        meter,
    )
}
