// SPDX-License-Identifier: ISC
//! The width of the vectors over which several messages or rounds run side by side, in bits.
//!
//! [`digest::digest_each_counted`](crate::digest::digest_each_counted),
//! [`digest::update_each_counted`](crate::digest::update_each_counted) and the calls of
//! [`pbkdf2`](crate::pbkdf2) run over vectors of 128 bits ([`SSE`]), four words of 32 bits. Their
//! forms whose names end in `_in` take the width as a const argument. Over 256 bits ([`AVX2`]) they
//! run eight words of 32 bits, or four of 64: in a build for processors with AVX2
//! (`rt lib --cpu=x86-64-v3`) that takes about half the time, in one for older processors more. Any
//! other value selects the next smaller width; below both, one message or round runs after the
//! other. What a call gives, refuses and costs is the same at each. A library can't ask what it is
//! built for, so the caller chooses:
//!
//! ```
//! pub fn digests_of_eight(
//!     algorithm: &Algorithm,
//!     messages: &[&[u8]; 8],
//! ) -> Result<[Digest; 8], Unspecified>
//!     ensures ok { IfOk result (λ digests. AreDigests digests algorithm.now messages.now) }
//!     ensures refused { IsOk result ↔ CanDigestEach algorithm.now messages.now 8 }
//! {
//!     let mut digests = [digest(algorithm, &[])?; 8];
//!     digest_each_in::<AVX2>(algorithm, messages, &mut digests, &mut Meter::new())?;
//!     Ok(digests)
//! }
//! ```
//!
//! The imports of this example stand in `crates/ring_examples/src/wide.rt`.

ghost use Rattle.std.specs.Prelude.{◌≡◌};

// A crate can't ask which vectors its build has, so a caller names their bits as a const argument:
// the linker then drops what the others would run.

/// The bits of a vector with SSE, which a build for x86-64-v2 has.
pub const SSE: usize = 128;

/// The bits of a vector with AVX2, which a build for x86-64-v3 has.
pub const AVX2: usize = 256;

/// States the width of each vector in bits. The call does nothing.
pub fn widths_are_in_bits()
    ensures sse { SSE ≡ 128 }
    ensures avx2 { AVX2 ≡ 256 }
{}
