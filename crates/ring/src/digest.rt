// SPDX-License-Identifier: ISC
//! Digests of messages (FIPS 180-4).
//!
//! [`digest`] computes the digest of one message. A [`Context`] computes that of a message that
//! arrives in pieces:
//!
//! ```
//! ghost use Rattle.std.specs.Prelude.{◌↔◌, ◌<◌, ◌++◌, length, IfOk, IsErr};
//! ghost use Rattle.ring.specs.Prelude.{IsDigest, max_input_len};
//!
//! use ring::digest::{Context, Digest, SHA256};
//! use ring::error::Unspecified;
//!
//! /// The digest of two pieces taken as one message.
//! pub fn digest_of_two(first: &[u8], second: &[u8]) -> Result<Digest, Unspecified>
//!     ensures ok { IfOk result (λ digest. IsDigest digest SHA256 (first.now ++ second.now)) }
//!     ensures refused { IsErr result ↔ (max_input_len SHA256 < length (first.now ++ second.now)) }
//! {
//!     let mut context = Context::new(&SHA256);
//!     context.update(first);
//!     context.update(second);
//!     context.finish()
//! }
//! ```
//!
//! A context can be cloned midway. The clone and the original then go on separately:
//!
//! ```
//! pub fn digests_of_front_and_whole(
//!     algorithm: &Algorithm,
//!     front: &[u8],
//!     rest: &[u8],
//! ) -> Result<(Digest, Digest), Unspecified>
//!     ensures front { IfOk result (λ digests. IsDigest digests.0 algorithm.now front.now) }
//!     ensures whole { IfOk result (λ digests.
//!         IsDigest digests.1 algorithm.now (front.now ++ rest.now)) }
//!     ensures refused { IsErr result
//!         ↔ (max_input_len algorithm.now < length (front.now ++ rest.now)) }
//! {
//!     let mut context = Context::new(algorithm);
//!     context.update(front);
//!     let of_front = context.clone().finish()?;
//!     context.update(rest);
//!     let of_whole = context.finish()?;
//!     Ok((of_front, of_whole))
//! }
//! ```
//!
//! [`digest_each_counted`] computes the digests of several messages, of any lengths. It is faster
//! than one call for each where there are four or more under SHA-1 or SHA-256:
//!
//! ```
//! pub fn digests_of_four(
//!     algorithm: &Algorithm,
//!     messages: &[&[u8]; 4],
//! ) -> Result<[Digest; 4], Unspecified>
//!     ensures ok { IfOk result (λ digests. AreDigests digests algorithm.now messages.now) }
//!     ensures refused { IsOk result ↔ CanDigestEach algorithm.now messages.now 4 }
//! {
//!     let mut digests = [digest(algorithm, &[])?; 4];
//!     digest_each_counted(algorithm, messages, &mut digests, &mut Meter::new())?;
//!     Ok(digests)
//! }
//! ```
//!
//! [`update_each_counted`] adds a piece to each of several contexts, of one algorithm or of
//! several. It is faster than one call for each where four or more of SHA-1 or of SHA-256 follow
//! each other:
//!
//! ```
//! pub fn digests_in_pieces(
//!     algorithm: &Algorithm,
//!     other_algorithm: &Algorithm,
//!     fronts: &[&[u8]; 2],
//!     rests: &[&[u8]; 2],
//! ) -> Result<(Digest, Digest), Unspecified>
//!     ensures first { IfOk result (λ digests.
//!         IsDigest digests.0 algorithm.now (message_at fronts.now 0 ++ message_at rests.now 0)) }
//!     ensures second { IfOk result (λ digests. IsDigest digests.1 other_algorithm.now
//!         (message_at fronts.now 1 ++ message_at rests.now 1)) }
//!     ensures refused { IsErr result ↔ ((max_input_len algorithm.now
//!         < length (message_at fronts.now 0 ++ message_at rests.now 0))
//!         ⊎ (max_input_len other_algorithm.now
//!         < length (message_at fronts.now 1 ++ message_at rests.now 1))) }
//! {
//!     let mut contexts = [Context::new(algorithm), Context::new(other_algorithm)];
//!     let mut meter = Meter::new();
//!     update_each_counted(&mut contexts, fronts, &mut meter)?;
//!     update_each_counted(&mut contexts, rests, &mut meter)?;
//!     let [first, second] = contexts;
//!     Ok((first.finish()?, second.finish()?))
//! }
//! ```
//!
//! The imports of the last three examples stand in `pieces.rt` and `several.rt` of
//! `crates/ring_examples/src`.

pub(crate) mod algorithm;
pub(crate) mod block_context;
pub(crate) mod context;
pub mod dynstate;
pub(crate) mod each;
pub(crate) mod lanes;
mod partway;
pub(crate) mod updates;

pub use crate::digest::algorithm::{
    ALGORITHMS, Algorithm, MAX_BLOCK_LEN, MAX_CHAINING_LEN, MAX_OUTPUT_LEN,
    SHA1_FOR_LEGACY_USE_ONLY, SHA1_OUTPUT_LEN, SHA256, SHA256_OUTPUT_LEN, SHA384,
    SHA384_OUTPUT_LEN, SHA512, SHA512_256, SHA512_256_OUTPUT_LEN, SHA512_OUTPUT_LEN,
    constants_are_their_rows, digest_of_name,
};
pub use crate::digest::block_context::{Digest, padding_is_shortest};
pub use crate::digest::context::{Context, digest, digest_counted};
pub use crate::digest::dynstate::Output;
pub use crate::digest::each::{
    digest_each_bytes_in, digest_each_counted, digest_each_in, is_len_of_digests,
};
pub use crate::digest::updates::{update_each_counted, update_each_in};
pub use ring_core::digest::{sha1, sha2, states, word};
