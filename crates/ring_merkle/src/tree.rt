// SPDX-License-Identifier: ISC
//! The tree hash of leaves that arrive one by one.

ghost use Rattle.std.specs.Prelude.{◌≡◌, ◌+◌, ◌-◌, ◌*◌, ◌^◌, ◌<◌, [], ◌∷◌, ◌++◌, ℕ, List, length};
ghost use Rattle.ring.specs.Prelude.{raised};
ghost use Rattle.ring_merkle.specs.Cost.{node_blocks, push_blocks, root_blocks};
ghost use Rattle.ring_merkle.specs.Stack.{Holds, last_of, leaf_count, node_over};
ghost use Rattle.ring_merkle.specs.Tree.{root_of};

use crate::hash::{HASH_LEN, empty_root_counted, node_hash_counted};
use ring::cost::Meter;

// The most levels of complete subtrees: one for each bit of a size.
const MAX_LEVELS: usize = 64;

/// The tree hash of leaves that arrive one by one. A tree stands for the leaf hashes so far, and
/// keeps one hash of each complete subtree: as many as its size has bits that are set.
#[derive(Clone, Copy)]
pub struct Tree {
    pub(crate) roots: [[u8; HASH_LEN]; MAX_LEVELS],
    pub(crate) size: u64,
}

// The hash of the node over a complete subtree and what is joined so far.
fn node_over(
    root: &[u8; HASH_LEN],
    last: Option<[u8; HASH_LEN]>,
    meter: &mut Meter,
) -> [u8; HASH_LEN]
    ensures hash { result ≡ node_over root.now last }
    ensures cost { meter.new ≡ raised meter.old (node_blocks * length (last_of last)) 0 }
{
    match last {
        None => *root,
        Some(right) => node_hash_counted(root, &right, meter),
    }
}

impl Tree {
    /// A tree of no leaves.
    pub fn new() -> Self
        ensures { Holds result [] }
    {
        Tree {
            roots: [[0; HASH_LEN]; MAX_LEVELS],
            size: 0,
        }
    }

    /// The number of leaves.
    pub fn size(&self) -> u64
        ensures count { result ≡ leaf_count self.now }
        ensures length { (xs : List (List ℕ)) → Holds self.now xs → result ≡ length xs }
    {
        self.size
    }

    /// Adds a leaf as [`Tree::push`] does, and counts on `meter` the blocks of the nodes that
    /// `leaf` completes. The tree has fewer than 2^64 - 1 leaves so far.
    pub fn push_counted(&mut self, leaf: &[u8; HASH_LEN], meter: &mut Meter)
        requires { leaf_count self.old < 2 ^ 64 - 1 }
        ensures holds { (xs : List (List ℕ)) → Holds self.old xs
            → Holds self.new (xs ++ leaf.now ∷ []) }
        ensures count { leaf_count self.new ≡ leaf_count self.old + 1 }
        ensures cost { meter.new ≡ raised meter.old (push_blocks (leaf_count self.old)) 0 }
    {
        let mut hash = *leaf;
        let mut count = self.size;
        self.size += 1;
        for level in 0..MAX_LEVELS {
            if count % 2 == 0 {
                self.roots[level] = hash;
                return;
            }
            hash = node_hash_counted(&self.roots[level], &hash, meter);
            count /= 2;
        }
    }

    /// Adds a leaf by its hash, `leaf`. The tree has fewer than 2^64 - 1 leaves so far.
    pub fn push(&mut self, leaf: &[u8; HASH_LEN])
        requires { leaf_count self.old < 2 ^ 64 - 1 }
        ensures holds { (xs : List (List ℕ)) → Holds self.old xs
            → Holds self.new (xs ++ leaf.now ∷ []) }
        ensures count { leaf_count self.new ≡ leaf_count self.old + 1 }
    {
        self.push_counted(leaf, &mut Meter::new())
    }

    /// Computes the tree hash as [`Tree::root`] does, and counts on `meter` the blocks of the nodes
    /// that join the complete subtrees.
    pub fn root_counted(&self, meter: &mut Meter) -> [u8; HASH_LEN]
        ensures root { (xs : List (List ℕ)) → Holds self.now xs → result ≡ root_of xs }
        ensures cost { meter.new ≡ raised meter.old (root_blocks (leaf_count self.now)) 0 }
    {
        let mut last: Option<[u8; HASH_LEN]> = None;
        let mut count = self.size;
        for root in &self.roots {
            if count % 2 == 1 {
                last = Some(node_over(root, last, meter));
            }
            count /= 2;
        }
        match last {
            None => empty_root_counted(meter),
            Some(hash) => hash,
        }
    }

    /// The tree hash of the leaves so far.
    pub fn root(&self) -> [u8; HASH_LEN]
        ensures { (xs : List (List ℕ)) → Holds self.now xs → result ≡ root_of xs }
    {
        self.root_counted(&mut Meter::new())
    }
}
