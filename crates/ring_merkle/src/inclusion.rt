// SPDX-License-Identifier: ISC
//! Proofs that a leaf is in a tree (RFC 9162, section 2.1.3).

ghost use Rattle.std.specs.Prelude.{◌≡◌, ◌↔◌, ◌*◌, IsTrue, length};
ghost use Rattle.ring.specs.Prelude.{raised};
ghost use Rattle.ring_merkle.specs.Cost.{inclusion_blocks};
ghost use Rattle.ring_merkle.specs.Gives.{VerifiesInclusion};
ghost use Rattle.ring_merkle.specs.Inclusion.{IsIncluded};

use crate::hash::{HASH_LEN, is_same};
use crate::place::{Place, TreeHead};
use ring::cost::Meter;
use ring::laws::digest_has_output_len;

// Whether `path` leads from the hash of a leaf to the root.
fn is_included(
    hash: &[u8; HASH_LEN],
    index: u64,
    tree: TreeHead,
    path: &[[u8; HASH_LEN]],
    meter: &mut Meter,
) -> bool
    ensures exact { IsTrue result
        ↔ IsIncluded hash.now index tree.entry.size path.now tree.entry.root.now }
    ensures cost { meter.new
        ≡ raised meter.old (inclusion_blocks index tree.entry.size path.now) 0 }
{
    if index >= tree.size {
        return false;
    }
    let start = Place {
        node: index,
        last: tree.size - 1,
    };
    if path.len() != start.path_len() {
        return false;
    }
    is_same(&start.climb(true, hash, path, meter), tree.root)
}

/// Verifies a path as [`verify_inclusion`] does, and counts its blocks on `meter`: two for each
/// value of the path, and as many where the root is wrong. Where the path has a wrong length, none
/// is run.
pub fn verify_inclusion_counted(
    hash: &[u8; HASH_LEN],
    index: u64,
    size: u64,
    path: &[[u8; HASH_LEN]],
    root: &[u8; HASH_LEN],
    meter: &mut Meter,
) -> bool
    ensures plain { VerifiesInclusion hash.now index size path.now root.now result }
    ensures cost { meter.new ≡ raised meter.old (inclusion_blocks index size path.now) 0 }
{
    digest_has_output_len();
    is_included(hash, index, TreeHead { size, root }, path, meter)
}

/// Whether `path` proves that the leaf hash `hash` is at `index` in the tree of `size` leaves whose
/// tree hash is `root` (RFC 9162, section 2.1.3.2).
///
/// The clause `sound` says what a yes means where the root is that of a list of `size` entries:
/// `hash` is the leaf hash of the entry at `index` and `path` is its path, or two different inputs
/// that have one digest stand at the same step of two verifications, this one and that of the
/// entry's own path.
pub fn verify_inclusion(
    hash: &[u8; HASH_LEN],
    index: u64,
    size: u64,
    path: &[[u8; HASH_LEN]],
    root: &[u8; HASH_LEN],
) -> bool
    ensures { VerifiesInclusion hash.now index size path.now root.now result }
{
    verify_inclusion_counted(hash, index, size, path, root, &mut Meter::new())
}
