// SPDX-License-Identifier: ISC
//! Digests of several messages at once.

ghost use Rattle.ring_c.specs.Gives.{WritesDigests};

use crate::status::{OK, UNKNOWN_ALGORITHM, UNSPECIFIED, WRONG_LENGTH};
use ring::cost::Meter;
use ring::digest::{digest_each_bytes_in, is_len_of_digests};
use ring::raw::digest_of_number;
use ring::width::{AVX2, SSE};

// What `yz_digest_each` and `yz_digest_each_wide` promise, with vectors of `VECTOR_BITS` bits.
#[tactic(auto, using(crate::proofs::Within::each_within))]
fn digest_each<const VECTOR_BITS: usize>(algorithm: u32, messages: &[&[u8]], out: &mut [u8]) -> i32
    ensures { WritesDigests algorithm messages.now out.old out.new result }
{
    let Some(algorithm) = digest_of_number(algorithm) else {
        return UNKNOWN_ALGORITHM;
    };
    if !is_len_of_digests(&algorithm, messages.len(), out.len()) {
        return WRONG_LENGTH;
    }
    match digest_each_bytes_in::<VECTOR_BITS>(&algorithm, messages, out, &mut Meter::new()) {
        Ok(()) => OK,
        Err(_) => UNSPECIFIED,
    }
}

/// Writes the digests of `messages` to `out`, one after another, by the digest algorithm of the
/// number `algorithm` (FIPS 180-4, section 6).
///
/// Refused as `UNKNOWN_ALGORITHM`, as `WRONG_LENGTH` where `out` has not the length of all digests
/// together, and as `UNSPECIFIED` where a message is too long. `out` is then unchanged.
#[unsafe(no_mangle)]
pub extern "C" fn yz_digest_each(algorithm: u32, messages: &[&[u8]], out: &mut [u8]) -> i32
    ensures { WritesDigests algorithm messages.now out.old out.new result }
{
    digest_each::<SSE>(algorithm, messages, out)
}

/// Writes the digests of `messages` to `out` as [`yz_digest_each`] does by the same `algorithm`
/// (FIPS 180-4, section 6), more of them side by side: for the build for x86-64-v3.
///
/// Refused as that call is, with `out` unchanged.
#[unsafe(no_mangle)]
pub extern "C" fn yz_digest_each_wide(algorithm: u32, messages: &[&[u8]], out: &mut [u8]) -> i32
    ensures { WritesDigests algorithm messages.now out.old out.new result }
{
    digest_each::<AVX2>(algorithm, messages, out)
}
