// SPDX-License-Identifier: ISC
//! Slices seen as whole chunks of one length, and bytes written into a slice.
//!
//! ```
//! pub fn whole_and_left(message: &[u8]) -> (usize, usize)
//!     ensures { result ≡ (length message.now / 64, length message.now % 64) }
//! {
//!     let (blocks, rest) = as_chunks::<u8, 64>(message);
//!     (blocks.len(), rest.len())
//! }
//! ```
//!
//! The imports of this example stand in `crates/ring_examples/src/basics.rt`.

ghost use Rattle.std.specs.Prelude.{◌≡◌, ◌+◌, ◌*◌, ◌<◌, ◌≤◌, ◌++◌, length, take, drop};
ghost use Rattle.ring_core.specs.Prelude.{chunk_count, chunk_items};

mod view;

pub use crate::polyfill::slice::view::{AsChunks, AsChunksIter};

/// Splits `slice` into as many whole chunks of `N` items as it has, and the rest, which has fewer
/// than `N` items. `N` must not be 0.
pub fn as_chunks<T, const N: usize>(slice: &[T]) -> (AsChunks<'_, T, N>, &[T])
    requires { 0 < N }
    ensures front { chunk_items result.0 ≡ take (chunk_count N (length slice.now) * N) slice.now }
    ensures rest { result.1.now ≡ drop (chunk_count N (length slice.now) * N) slice.now }
{
    AsChunks::split(slice)
}

/// Writes `bytes` over those of `out` from the position `at` on. They must end within `out`.
pub fn write_at(out: &mut [u8], at: usize, bytes: &[u8])
    requires { at + length bytes.now ≤ length out.old }
    ensures { out.new ≡ take at out.old ++ bytes.now ++ drop (at + length bytes.now) out.old }
{
    out[at..at + bytes.len()].copy_from_slice(bytes);
}
