// SPDX-License-Identifier: ISC
//! The view of a slice as whole chunks, and the iterator over them.
ghost use Rattle.std.specs.Prelude.{◌≡◌, IfSome, ◌*◌, ◌<◌, IsTrue, ⊤, ◌↔◌, length, take, drop};
ghost use Rattle.std.specs.Iterator.{UpTo, YieldsFirstRef, at_most};
ghost use Rattle.std.specs.Iterator.SizeHint.{IsWithinCount};
ghost use Rattle.ring_core.specs.Chunks.{chunk_at, chunk_count, chunks};

use std::alloc::AllocError;
use std::ops::Index;

/// A slice seen as whole chunks of `N` items each. Where `N` is 0, it has no chunk.
pub struct AsChunks<'a, T, const N: usize> {
    items: &'a [T],
    ghost whole: { chunk_count N (length items.now) * N ≡ length items.now },
}

impl<'a, T: Copy, const N: usize> Clone for AsChunks<'a, T, N> {
    ghost is_clone = { λ x y. y ≡ x };

    ghost is_infallible = { λ _. ⊤ };

    fn clone(&self) -> Result<AsChunks<'a, T, N>, AllocError> {
        Ok(*self)
    }
}

impl<'a, T: Copy, const N: usize> Copy for AsChunks<'a, T, N> {}

impl<'a, T, const N: usize> AsChunks<'a, T, N> {
    ghost use Rattle.ring_core.specs.Views.{chunk_items, chunk_total};

    // The longest front of whole chunks, and the rest.
    pub(crate) fn split(slice: &'a [T]) -> (AsChunks<'a, T, N>, &'a [T])
        requires { 0 < N }
        ensures front { chunk_items result.0
            ≡ take (chunk_count N (length slice.now) * N) slice.now }
        ensures rest { result.1.now ≡ drop (chunk_count N (length slice.now) * N) slice.now }
    {
        let (items, rest) = slice.split_at(slice.len() / N * N);
        (AsChunks { items }, rest)
    }

    /// The one chunk `value`. Where `N` is 0, there is no chunk.
    pub fn from_ref(value: &'a [T; N]) -> AsChunks<'a, T, N>
        ensures { chunk_items result ≡ value.now }
    {
        AsChunks { items: value }
    }

    /// The items of all chunks, in order.
    pub fn as_flattened(&self) -> &[T]
        ensures { result.now ≡ chunk_items self.now }
    {
        self.items
    }

    /// Whether there is no chunk.
    pub fn is_empty(&self) -> bool
        ensures { IsTrue result ↔ (chunk_total self.now ≡ 0) }
    {
        self.len() == 0
    }

    /// The number of chunks, which is 0 where `N` is 0.
    pub fn len(&self) -> usize
        ensures { result ≡ chunk_total self.now }
    {
        if N == 0 { 0 } else { self.items.len() / N }
    }
}

/// The chunk at a place, which must be below [`AsChunks::len`].
impl<'a, T, const N: usize> Index<usize> for AsChunks<'a, T, N> {
    ghost use Rattle.ring_core.specs.Views.{chunk_items, chunk_total};

    type Output = [T; N];

    ghost can_index = { λ s i. i < chunk_total s };

    ghost index_gives = { λ s i chunk. chunk ≡ chunk_at N (chunk_items s) i };

    fn index(&self, index: usize) -> &[T; N] {
        let start = index * N;
        self.items[start..start + N].as_array::<N>().unwrap()
    }
}

/// The iterator over the chunks of a view, in order.
#[derive(Drop)]
pub struct AsChunksIter<'a, T, const N: usize> {
    rest: &'a [T],
    ghost whole: { chunk_count N (length rest.now) * N ≡ length rest.now },
}

/// Each chunk once. `size_hint` is exact.
impl<'a, T, const N: usize> Iterator for AsChunksIter<'a, T, N> {
    ghost use Rattle.ring_core.specs.Views.{chunks_left, items_left};

    type Item = &'a [T; N];

    ghost next_gives = { YieldsFirstRef (λ s. chunks N (items_left s)) };

    ghost remaining = { λ s. at_most (chunks_left s) };

    #[tactic(auto, using(crate::proofs::ChunkFolds::chunks_step))]
    fn next(&mut self) -> Option<&'a [T; N]> {
        if N == 0 {
            return None;
        }
        let (first, rest) = self.rest.split_first_chunk::<N>()?;
        self.rest = rest;
        Some(first)
    }

    fn size_hint(&self) -> (usize, Option<usize>)
        ensures lower { IsWithinCount result.0 (at_most (chunks_left self.now)) }
        ensures upper { IfSome result.1 (UpTo (at_most (chunks_left self.now))) }
        ensures exact { result ≡ (chunks_left self.now, Some (chunks_left self.now)) }
    {
        let count = if N == 0 { 0 } else { self.rest.len() / N };
        (count, Some(count))
    }
}

/// The iterator over all chunks.
impl<'a, T, const N: usize> IntoIterator for AsChunks<'a, T, N> {
    ghost use Rattle.ring_core.specs.Views.{chunk_items, items_left};

    type Item = &'a [T; N];

    type IntoIter = AsChunksIter<'a, T, N>;

    ghost into_iter_gives = { λ s r. items_left r ≡ chunk_items s };

    fn into_iter(self) -> AsChunksIter<'a, T, N> {
        let AsChunks { items } = self;
        AsChunksIter { rest: items }
    }
}

/// As [`AsChunks::from_ref`].
impl<'a, T, const N: usize> From<&'a [T; N]> for AsChunks<'a, T, N> {
    ghost use Rattle.ring_core.specs.Views.{chunk_items};

    ghost from_gives = { λ x r. chunk_items r ≡ x.now };

    fn from(value: &'a [T; N]) -> AsChunks<'a, T, N> {
        AsChunks::from_ref(value)
    }
}

/// The same items as chunks of 4, twice as many.
impl<'a, T> From<AsChunks<'a, T, 8>> for AsChunks<'a, T, 4> {
    ghost use Rattle.ring_core.specs.Views.{chunk_items};

    ghost from_gives = { λ x r. chunk_items r ≡ chunk_items x };

    fn from(value: AsChunks<'a, T, 8>) -> AsChunks<'a, T, 4> {
        let AsChunks { items } = value;
        AsChunks { items }
    }
}
