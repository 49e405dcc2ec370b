// SPDX-License-Identifier: ISC
//! Merkle trees of transparency logs (RFC 9162, section 2.1).

ghost use Rattle.std.specs.Prelude.{◌≡◌, ◌≢◌, ◌↔◌, ◌+◌, ◌&&◌, length, nat_lt, not};
ghost use Rattle.ring.specs.Limits.{fits};
ghost use Rattle.ring.specs.declared.digest.algorithm.TheConstants.{SHA256};
ghost use Rattle.ring_merkle.specs.Consistency.{IsCompleteConsistency, IsConsistent};
ghost use Rattle.ring_merkle.specs.Consistency.{IsSoundConsistency, proof_of};
ghost use Rattle.ring_merkle.specs.Inclusion.{IsCompleteInclusion, IsIncluded, IsSoundInclusion};
ghost use Rattle.ring_merkle.specs.Inclusion.{path_of};
ghost use Rattle.ring_merkle.specs.Tree.{leaf_hash, root_of};
ghost use Rattle.ring_c.specs.Merkle.{WritesPath};
ghost use Rattle.ring_c.specs.Status.{YZ_OK, YZ_UNSPECIFIED, first_of, no_cause};

use crate::status::{OK, UNSPECIFIED, WRONG_LENGTH};
use ring_merkle::{
    HASH_LEN, consistency_path, inclusion_path, leaf_hash, tree_root, verify_consistency,
    verify_inclusion,
};

// The status of a verification.
fn status_of_answer(answer: bool) -> i32
    ensures { result ≡ first_of record no_cause { unspecified = not answer } }
{
    if answer { OK } else { UNSPECIFIED }
}

/// Writes the hash of `entry` as a leaf to `hash` (RFC 9162, section 2.1.1).
///
/// Refused as `UNSPECIFIED` where the entry is too long. `hash` is then unchanged.
#[unsafe(no_mangle)]
pub extern "C" fn yz_merkle_leaf(entry: &[u8], hash: &mut [u8; HASH_LEN]) -> i32
    ensures ok { result ≡ YZ_OK → hash.new ≡ leaf_hash entry.now }
    ensures status { result ≡ first_of record no_cause {
      unspecified = not (fits SHA256 (length entry.now + 1));
    } }
    ensures unchanged { result ≢ YZ_OK → hash.new ≡ hash.old }
{
    let Ok(made) = leaf_hash(entry) else {
        return UNSPECIFIED;
    };
    *hash = made;
    OK
}

/// Returns 0 exactly if `path` proves that the leaf hash `hash` is at `index` in the tree of `size`
/// leaves whose tree hash is `root` (RFC 9162, section 2.1.3.2).
///
/// Refused as `UNSPECIFIED`. The clause `sound` says what a 0 means where the root is that of a
/// list of `size` entries, as that of `ring_merkle::verify_inclusion`.
#[unsafe(no_mangle)]
pub extern "C" fn yz_merkle_verify_inclusion(
    hash: &[u8; HASH_LEN],
    index: u64,
    size: u64,
    path: &[[u8; HASH_LEN]],
    root: &[u8; HASH_LEN],
) -> i32
    ensures exact { result ≡ YZ_OK ↔ IsIncluded hash.now index size path.now root.now }
    ensures status { result ≢ YZ_OK → result ≡ YZ_UNSPECIFIED }
    ensures sound { IsSoundInclusion (result ≡ YZ_OK) hash.now index size path.now root.now }
    ensures complete { IsCompleteInclusion
        (result ≡ YZ_OK) hash.now index size path.now root.now }
{
    status_of_answer(verify_inclusion(hash, index, size, path, root))
}

/// Returns 0 exactly if `path` proves that the tree of `first_size` leaves whose tree hash is
/// `first` is the beginning of the tree of `second_size` leaves whose tree hash is `second` (RFC
/// 9162, section 2.1.4.2). There is no proof for an empty tree, or for one that is as large as the
/// other.
///
/// Refused as `UNSPECIFIED`. The clause `sound` says what a 0 means where the second root is that
/// of a list of `second_size` entries, as that of `ring_merkle::verify_consistency`.
#[unsafe(no_mangle)]
pub extern "C" fn yz_merkle_verify_consistency(
    first_size: u64,
    first: &[u8; HASH_LEN],
    second_size: u64,
    second: &[u8; HASH_LEN],
    path: &[[u8; HASH_LEN]],
) -> i32
    ensures exact { result ≡ YZ_OK
        ↔ IsConsistent first_size second_size path.now first.now second.now }
    ensures status { result ≢ YZ_OK → result ≡ YZ_UNSPECIFIED }
    ensures sound { IsSoundConsistency
        (result ≡ YZ_OK) first_size second_size path.now first.now second.now }
    ensures complete { IsCompleteConsistency
        (result ≡ YZ_OK) first_size second_size path.now first.now second.now }
{
    status_of_answer(verify_consistency(first_size, first, second_size, second, path))
}

/// Writes the tree hash over the leaf hashes `leaves` to `root` (RFC 9162, section 2.1.1). It is
/// never refused.
#[unsafe(no_mangle)]
pub extern "C" fn yz_merkle_root(leaves: &[[u8; HASH_LEN]], root: &mut [u8; HASH_LEN]) -> i32
    ensures ok { root.new ≡ root_of leaves.now }
    ensures status { result ≡ YZ_OK }
{
    *root = tree_root(leaves);
    OK
}

/// Writes to the start of `path` the path of the leaf at `index` of the tree over `leaves` (RFC
/// 9162, section 2.1.3.1), and to `path_count` how many hashes it has. The rest of `path` is
/// unchanged.
///
/// Refused as `WRONG_LENGTH` where there is such a leaf and its path is longer than `path`, and as
/// `UNSPECIFIED` where there is none. `path` and `path_count` are then unchanged.
#[unsafe(no_mangle)]
pub extern "C" fn yz_merkle_inclusion_path(
    leaves: &[[u8; HASH_LEN]],
    index: usize,
    path: &mut [[u8; HASH_LEN]],
    path_count: &mut usize,
) -> i32
    ensures { WritesPath (nat_lt index (length leaves.now)) (path_of index leaves.now)
        path.old path.new path_count.old path_count.new result }
{
    if index >= leaves.len() {
        return UNSPECIFIED;
    }
    let Ok(count) = inclusion_path(leaves, index, path) else {
        return WRONG_LENGTH;
    };
    *path_count = count;
    OK
}

/// Writes to the start of `path` the proof that the tree over the first `first_size` of `leaves` is
/// the beginning of the tree over all of them (RFC 9162, section 2.1.4.1), and to `path_count` how
/// many hashes it has. The rest of `path` is unchanged.
///
/// Refused as `WRONG_LENGTH` where there is such a proof and it is longer than `path`, and as
/// `UNSPECIFIED` where there is none: `first_size` is 0 or not below the number of leaves. `path`
/// and `path_count` are then unchanged.
#[unsafe(no_mangle)]
pub extern "C" fn yz_merkle_consistency_path(
    leaves: &[[u8; HASH_LEN]],
    first_size: usize,
    path: &mut [[u8; HASH_LEN]],
    path_count: &mut usize,
) -> i32
    ensures { WritesPath (nat_lt 0 first_size && nat_lt first_size (length leaves.now))
        (proof_of first_size leaves.now) path.old path.new path_count.old path_count.new result }
{
    if first_size == 0 || first_size >= leaves.len() {
        return UNSPECIFIED;
    }
    let Ok(proof_count) = consistency_path(leaves, first_size, path) else {
        return WRONG_LENGTH;
    };
    *path_count = proof_count;
    OK
}
