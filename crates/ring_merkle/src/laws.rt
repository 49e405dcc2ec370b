// SPDX-License-Identifier: ISC
//! Laws: facts about the definitions, and calls together. A caller's proof cites them.

ghost use Rattle.std.specs.Prelude.{◌≡◌, ◌+◌, ◌^◌, ◌<◌, ◌≤◌, [], ◌∷◌, ◌++◌, ◌-◌, ℕ, List, length};
ghost use Rattle.std.specs.Prelude.{◌↔◌, drop, take, map, Bool, cond, false, true, IfOk, IsOk};
ghost use Rattle.std.specs.Prelude.{IsTrue, OnErr, OnOk, get_or};
ghost use Rattle.ring.specs.Prelude.{raised};
ghost use Rattle.ring_merkle.specs.Consistency.{IsConsistent, proof_of, subproof_of};
ghost use Rattle.ring_merkle.specs.Cost.{consistency_blocks, consistency_path_blocks};
ghost use Rattle.ring_merkle.specs.Cost.{inclusion_blocks, inclusion_path_blocks, tree_blocks};
ghost use Rattle.ring_merkle.specs.Inclusion.{IsIncluded, path_of};
ghost use Rattle.ring_merkle.specs.Tree.{leaf_hash, mth, node_hash, root_of, sha256};

use crate::consistency::verify_consistency_counted;
use crate::hash::HASH_LEN;
use crate::inclusion::verify_inclusion_counted;
use crate::paths::{consistency_path_counted, inclusion_path_counted, tree_root_counted};
use ring::cost::Meter;
use ring::error::Unspecified;

/// Makes in `out` the path of the leaf at `index` of `leaves`, and returns whether the verification
/// accepts it: it does. `meter` counts the blocks of the path, of the tree's root and of the
/// verification.
///
/// Refused as [`inclusion_path`](crate::inclusion_path) is. `out` and `meter` are then as they
/// were.
pub fn made_inclusion_path_is_accepted(
    leaves: &[[u8; HASH_LEN]],
    index: usize,
    out: &mut [[u8; HASH_LEN]],
    meter: &mut Meter,
) -> Result<bool, Unspecified>
    ensures ok { IfOk result (λ yes. IsTrue yes) }
    ensures path { OnOk result (out.new
        ≡ path_of index leaves.now ++ drop (length (path_of index leaves.now)) out.old) }
    ensures accepted { OnOk result (IsIncluded (get_or leaves.now index []) index
        (length leaves.now) (path_of index leaves.now) (root_of leaves.now)) }
    ensures refused { IsOk result ↔ ((index < length leaves.now)
        × (length (path_of index leaves.now) ≤ length out.old)) }
    ensures unchanged { OnErr result ((out.new ≡ out.old) × (meter.new ≡ meter.old)) }
    ensures cost { let path = path_of index leaves.now in let n = length leaves.now in
        OnOk result (meter.new ≡ raised meter.old (inclusion_path_blocks n (length path)
        + tree_blocks n + inclusion_blocks index n path) 0) }
{
    let len = inclusion_path_counted(leaves, index, out, meter)?;
    let root = tree_root_counted(leaves, meter);
    Ok(verify_inclusion_counted(
        &leaves[index],
        index as u64,
        leaves.len() as u64,
        &out[..len],
        &root,
        meter,
    ))
}

/// Makes in `out` the proof that the first `first_size` of `leaves` are the beginning, and returns
/// whether the verification accepts it: it does. `meter` counts the blocks of the proof, of both
/// trees' roots and of the verification.
///
/// Refused as [`consistency_path`](crate::consistency_path) is. `out` and `meter` are then as they
/// were.
pub fn made_consistency_path_is_accepted(
    leaves: &[[u8; HASH_LEN]],
    first_size: usize,
    out: &mut [[u8; HASH_LEN]],
    meter: &mut Meter,
) -> Result<bool, Unspecified>
    ensures ok { IfOk result (λ yes. IsTrue yes) }
    ensures path { OnOk result (out.new ≡ proof_of first_size leaves.now
        ++ drop (length (proof_of first_size leaves.now)) out.old) }
    ensures accepted { OnOk result (IsConsistent first_size (length leaves.now)
        (proof_of first_size leaves.now) (root_of (take first_size leaves.now))
        (root_of leaves.now)) }
    ensures refused { IsOk result ↔ ((0 < first_size) × (first_size < length leaves.now)
        × (length (proof_of first_size leaves.now) ≤ length out.old)) }
    ensures unchanged { OnErr result ((out.new ≡ out.old) × (meter.new ≡ meter.old)) }
    ensures cost { let path = proof_of first_size leaves.now in let n = length leaves.now in
        let first = root_of (take first_size leaves.now) in
        OnOk result (meter.new ≡ raised meter.old
        (consistency_path_blocks first_size n (length path) + tree_blocks first_size
        + tree_blocks n + consistency_blocks first_size n first path) 0) }
{
    let len = consistency_path_counted(leaves, first_size, out, meter)?;
    let first = tree_root_counted(&leaves[..first_size], meter);
    let second = tree_root_counted(leaves, meter);
    Ok(verify_consistency_counted(
        first_size as u64,
        &first,
        leaves.len() as u64,
        &second,
        &out[..len],
        meter,
    ))
}

/// The recursive definition of the tree hash (RFC 9162, section 2.1.1).
pub fn tree_hash_is_recursive()
    ensures none { mth [] ≡ sha256 [] }
    ensures one { (d : List ℕ) → mth (d ∷ []) ≡ leaf_hash d }
    ensures more { (ds : List (List ℕ)) (j : ℕ) → 2 ^ j < length ds → length ds ≤ 2 ^ (j + 1)
        → mth ds ≡ node_hash (mth (take (2 ^ j) ds)) (mth (drop (2 ^ j) ds)) }
{}

/// The recursive definition of the path of an entry (RFC 9162, section 2.1.3.1).
pub fn path_is_recursive()
    ensures one { (d : List ℕ) → path_of 0 (map leaf_hash (d ∷ [])) ≡ [] }
    ensures left { (ds : List (List ℕ)) (j m : ℕ) → 2 ^ j < length ds → length ds ≤ 2 ^ (j + 1)
        → m < 2 ^ j → path_of m (map leaf_hash ds)
        ≡ path_of m (map leaf_hash (take (2 ^ j) ds)) ++ mth (drop (2 ^ j) ds) ∷ [] }
    ensures right { (ds : List (List ℕ)) (j m : ℕ) → 2 ^ j < length ds → length ds ≤ 2 ^ (j + 1)
        → 2 ^ j ≤ m → path_of m (map leaf_hash ds)
        ≡ path_of (m - 2 ^ j) (map leaf_hash (drop (2 ^ j) ds)) ++ mth (take (2 ^ j) ds) ∷ [] }
{}

/// The recursive definition of the proof of a smaller tree (RFC 9162, section 2.1.4.1): SUBPROOF
/// with the leaf hashes of the entries.
pub fn proof_is_recursive()
    ensures proof { (m : ℕ) (xs : List (List ℕ)) → proof_of m xs ≡ subproof_of m xs true }
    ensures whole { (ds : List (List ℕ)) (b : Bool)
        → subproof_of (length ds) (map leaf_hash ds) b ≡ cond b [] (mth ds ∷ []) }
    ensures left { (ds : List (List ℕ)) (j m : ℕ) (b : Bool) → 2 ^ j < length ds
        → length ds ≤ 2 ^ (j + 1) → m ≤ 2 ^ j → subproof_of m (map leaf_hash ds) b
        ≡ subproof_of m (map leaf_hash (take (2 ^ j) ds)) b ++ mth (drop (2 ^ j) ds) ∷ [] }
    ensures right { (ds : List (List ℕ)) (j m : ℕ) (b : Bool) → m < length ds
        → length ds ≤ 2 ^ (j + 1) → 2 ^ j < m → subproof_of m (map leaf_hash ds) b
        ≡ subproof_of (m - 2 ^ j) (map leaf_hash (drop (2 ^ j) ds)) false
        ++ mth (take (2 ^ j) ds) ∷ [] }
{}
