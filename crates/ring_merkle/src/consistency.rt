// SPDX-License-Identifier: ISC
//! Proofs that a tree is the beginning of a larger one (RFC 9162, section 2.1.4).

ghost use Rattle.std.specs.Prelude.{◌≡◌, ◌↔◌, ◌*◌, ◌<◌, ◌≤◌, length, IsTrue, Some};
ghost use Rattle.ring.specs.Prelude.{raised};
ghost use Rattle.ring_merkle.specs.Consistency.{IsConsistent, LeadsToBoth, first_last};
ghost use Rattle.ring_merkle.specs.Consistency.{first_node};
ghost use Rattle.ring_merkle.specs.Cost.{both_blocks, consistency_blocks};
ghost use Rattle.ring_merkle.specs.Gives.{VerifiesConsistency};

use crate::hash::{HASH_LEN, is_same};
use crate::place::{Place, TreeHead};
use ring::cost::Meter;
use ring::laws::digest_has_output_len;

// Whether `path` leads from the hash of a node to both roots.
fn leads_to_both(
    hash: &[u8; HASH_LEN],
    start: Place,
    path: &[[u8; HASH_LEN]],
    first: &[u8; HASH_LEN],
    second: &[u8; HASH_LEN],
    meter: &mut Meter,
) -> bool
    requires { start.node ≤ start.last }
    ensures exact { IsTrue result
        ↔ LeadsToBoth start.node start.last hash.now path.now first.now second.now }
    ensures cost { meter.new
        ≡ raised meter.old (both_blocks start.node start.last path.now) 0 }
{
    if path.len() != start.path_len() {
        return false;
    }
    let front = start.climb(false, hash, path, meter);
    let whole = start.climb(true, hash, path, meter);
    is_same(&front, first) && is_same(&whole, second)
}

// The place where the steps begin.
pub(crate) fn first_place(first_size: u64, second_size: u64) -> Place
    requires nonempty { 0 < first_size }
    requires within { first_size < second_size }
    ensures node { result.node ≡ first_node first_size }
    ensures last { result.last ≡ first_last first_size second_size }
    ensures within { result.node < result.last }
{
    let ends = Place {
        node: first_size - 1,
        last: second_size - 1,
    };
    ends.even()
}

// Whether the verification accepts `path`.
fn is_consistent(
    first: TreeHead,
    second: TreeHead,
    path: &[[u8; HASH_LEN]],
    meter: &mut Meter,
) -> bool
    ensures exact { IsTrue result ↔ IsConsistent first.entry.size second.entry.size path.now
        first.entry.root.now second.entry.root.now }
    ensures cost { meter.new ≡ raised meter.old (consistency_blocks first.entry.size
        second.entry.size first.entry.root.now path.now) 0 }
{
    if first.size == 0 || first.size >= second.size {
        return false;
    }
    let Some((value, rest)) = path.split_first() else {
        return false;
    };
    let start = first_place(first.size, second.size);
    if first.size.is_power_of_two() {
        leads_to_both(first.root, start, path, first.root, second.root, meter)
    } else {
        leads_to_both(value, start, rest, first.root, second.root, meter)
    }
}

/// Verifies a proof as [`verify_consistency`] does, and counts its blocks on `meter`: two for each
/// hash of either tree, and as many where a root is wrong. Where the path has a wrong length, none
/// is run.
pub fn verify_consistency_counted(
    first_size: u64,
    first: &[u8; HASH_LEN],
    second_size: u64,
    second: &[u8; HASH_LEN],
    path: &[[u8; HASH_LEN]],
    meter: &mut Meter,
) -> bool
    ensures plain { VerifiesConsistency
        first_size second_size path.now first.now second.now result }
    ensures cost { meter.new ≡ raised meter.old
        (consistency_blocks first_size second_size first.now path.now) 0 }
{
    digest_has_output_len();
    let first = TreeHead {
        size: first_size,
        root: first,
    };
    let second = TreeHead {
        size: second_size,
        root: second,
    };
    is_consistent(first, second, path, meter)
}

/// Whether `path` proves that the tree of `first_size` leaves whose tree hash is `first` is the
/// beginning of the tree of `second_size` leaves whose tree hash is `second` (RFC 9162, section
/// 2.1.4.2).
///
/// There is no proof for an empty tree, or for one that is as large as the other: both are refused.
///
/// The clause `sound` says what a yes means where the second root is that of a list of
/// `second_size` entries: `first` is the tree hash of the first `first_size` of them, or two
/// different inputs that have one digest stand at the same step of two verifications, this one and
/// that of the list's own proof.
pub fn verify_consistency(
    first_size: u64,
    first: &[u8; HASH_LEN],
    second_size: u64,
    second: &[u8; HASH_LEN],
    path: &[[u8; HASH_LEN]],
) -> bool
    ensures { VerifiesConsistency
        first_size second_size path.now first.now second.now result }
{
    verify_consistency_counted(
        first_size,
        first,
        second_size,
        second,
        path,
        &mut Meter::new(),
    )
}
