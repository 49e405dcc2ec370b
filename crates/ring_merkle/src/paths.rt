// SPDX-License-Identifier: ISC
//! The paths of both kinds of proof, made from the leaf hashes of a tree.

ghost use Rattle.std.specs.Prelude.{◌≡◌, ◌+◌, ◌-◌, ◌*◌, ◌<◌, ◌≤◌, ◌==◌, ◌&&◌, [], ◌∷◌, ◌++◌};
ghost use Rattle.std.specs.Prelude.{Bool, length, IfOk, OnErr};
ghost use Rattle.std.specs.Int.{IsPowerOfTwo};
ghost use Rattle.ring.specs.Prelude.{raised};
ghost use Rattle.ring_merkle.specs.Consistency.{proof_of, subproof_of};
ghost use Rattle.ring_merkle.specs.Cost.{consistency_path_blocks, inclusion_path_blocks, left_out};
ghost use Rattle.ring_merkle.specs.Cost.{node_blocks, tree_blocks};
ghost use Rattle.ring_merkle.specs.Gives.{MakesPath, MakesProof};
ghost use Rattle.ring_merkle.specs.Inclusion.{path_of};
ghost use Rattle.ring_merkle.specs.Tree.{root_of};

use crate::consistency::first_place;
use crate::hash::HASH_LEN;
use crate::place::Place;
use crate::tree::Tree;
use ring::cost::Meter;
use ring::error::Unspecified;

/// Computes the tree hash over `leaves` as [`tree_root`] does, and counts its blocks on `meter`:
/// two for each node, of which there is one fewer than leaves.
pub fn tree_root_counted(leaves: &[[u8; HASH_LEN]], meter: &mut Meter) -> [u8; HASH_LEN]
    ensures root { result ≡ root_of leaves.now }
    ensures cost { meter.new ≡ raised meter.old (tree_blocks (length leaves.now)) 0 }
{
    let mut tree = Tree::new();
    for leaf in leaves {
        tree.push_counted(leaf, meter);
    }
    tree.root_counted(meter)
}

/// The tree hash over the leaf hashes `leaves` (RFC 9162, section 2.1.1).
pub fn tree_root(leaves: &[[u8; HASH_LEN]]) -> [u8; HASH_LEN]
    ensures { result ≡ root_of leaves.now }
{
    tree_root_counted(leaves, &mut Meter::new())
}

// The largest power of two that is smaller than `len`: where a list of so many leaves is split.
fn split_of(len: usize) -> usize
    requires { 1 < len }
    ensures power { IsPowerOfTwo result }
    ensures below { result < len }
    ensures largest { len ≤ result + result }
{
    (len - len / 2).next_power_of_two()
}

// The two parts of `leaves` at their split: the one with the leaf at `node`, and the leaf's place
// there; and the other one.
fn parts_of(leaves: &[[u8; HASH_LEN]], node: usize) -> (&[[u8; HASH_LEN]], usize, &[[u8; HASH_LEN]])
    requires within { node < length leaves.now }
    requires several { 1 < length leaves.now }
    ensures place { result.1 < length result.0.now }
    ensures at_most { result.1 ≤ node }
    ensures some { 0 < length result.2.now }
    ensures all { length leaves.now ≡ length result.0.now + length result.2.now }
    ensures path { path_of node leaves.now
        ≡ path_of result.1 result.0.now ++ root_of result.2.now ∷ [] }
    ensures subproof { (b : Bool) → node + 1 < length leaves.now
        → subproof_of (node + 1) leaves.now b
        ≡ subproof_of (result.1 + 1) result.0.now (b && result.1 == node)
        ++ root_of result.2.now ∷ [] }
{
    let split = split_of(leaves.len());
    let (front, back) = leaves.split_at(split);
    if node < split {
        (front, node, back)
    } else {
        (back, node - split, front)
    }
}

// Writes the path of the leaf at `index` to `out`, which has its length.
fn write_path(
    leaves: &[[u8; HASH_LEN]],
    index: usize,
    out: &mut [[u8; HASH_LEN]],
    meter: &mut Meter,
)
    requires within { index < length leaves.now }
    requires len { length out.old ≡ length (path_of index leaves.now) }
    ensures path { out.new ≡ path_of index leaves.now }
    ensures fewer { length out.old < length leaves.now }
    ensures cost { meter.new
        ≡ raised meter.old (inclusion_path_blocks (length leaves.now) (length out.old)) 0 }
{
    if leaves.len() == 1 {
        return;
    }
    let (part, place, other) = parts_of(leaves, index);
    let end = out.len() - 1;
    out[end] = tree_root_counted(other, meter);
    write_path(part, place, &mut out[..end], meter);
}

// How many values the path of the leaf at `index` has: one for each sibling.
fn inclusion_len(leaves: &[[u8; HASH_LEN]], index: usize) -> usize
    requires within { index < length leaves.now }
    ensures len { result ≡ length (path_of index leaves.now) }
    ensures bound { result ≤ 64 }
{
    let place = Place {
        node: index as u64,
        last: (leaves.len() - 1) as u64,
    };
    place.path_len()
}

/// Writes a path to `out` as [`inclusion_path`] does, and counts on `meter` the blocks of the nodes
/// beside it: two for each node of the tree that is not above the leaf. A refusal leaves `meter` as
/// it was.
pub fn inclusion_path_counted(
    leaves: &[[u8; HASH_LEN]],
    index: usize,
    out: &mut [[u8; HASH_LEN]],
    meter: &mut Meter,
) -> Result<usize, Unspecified>
    ensures plain { MakesPath index leaves.now out.old out.new result }
    ensures unchanged { OnErr result (meter.new ≡ meter.old) }
    ensures cost { IfOk result (λ len.
        meter.new ≡ raised meter.old (inclusion_path_blocks (length leaves.now) len) 0) }
{
    if index >= leaves.len() {
        return Err(Unspecified);
    }
    let len = inclusion_len(leaves, index);
    if len > out.len() {
        return Err(Unspecified);
    }
    write_path(leaves, index, &mut out[..len], meter);
    Ok(len)
}

/// Writes to `out` the path of the leaf at `index` of the tree over `leaves` (RFC 9162, section
/// 2.1.3.1), and returns its length, which is at most 64.
///
/// Refused where there is no such leaf, and where `out` is shorter than the path. `out` is then as
/// it was.
pub fn inclusion_path(
    leaves: &[[u8; HASH_LEN]],
    index: usize,
    out: &mut [[u8; HASH_LEN]],
) -> Result<usize, Unspecified>
    ensures { MakesPath index leaves.now out.old out.new result }
{
    inclusion_path_counted(leaves, index, out, &mut Meter::new())
}

// Writes to `out`, which has its length, the proof that the leaves up to `node` are the beginning:
// SUBPROOF, where `known` is whether the root of these leaves is known.
fn write_proof(
    leaves: &[[u8; HASH_LEN]],
    node: usize,
    known: bool,
    out: &mut [[u8; HASH_LEN]],
    meter: &mut Meter,
)
    requires within { node < length leaves.now }
    requires len { length out.old ≡ length (subproof_of (node + 1) leaves.now known) }
    ensures path { out.new ≡ subproof_of (node + 1) leaves.now known }
    ensures fewer { left_out (node + 1) leaves.now (length out.old) + length out.old
        ≤ length leaves.now }
    ensures cost { meter.new ≡ raised meter.old (node_blocks * (length leaves.now
        - (left_out (node + 1) leaves.now (length out.old) + length out.old))) 0 }
{
    if node + 1 == leaves.len() {
        if !known {
            out[0] = tree_root_counted(leaves, meter);
        }
        return;
    }
    let (part, place, other) = parts_of(leaves, node);
    let end = out.len() - 1;
    out[end] = tree_root_counted(other, meter);
    write_proof(part, place, known && place == node, &mut out[..end], meter);
}

// How many values the proof has that the first `first_size` leaves are the beginning: one for each
// sibling from the first node on, and that node where it isn't the root of the beginning.
fn consistency_len(leaves: &[[u8; HASH_LEN]], first_size: usize) -> usize
    requires nonempty { 0 < first_size }
    requires within { first_size < length leaves.now }
    ensures len { result ≡ length (proof_of first_size leaves.now) }
    ensures bound { result ≤ 65 }
{
    let siblings = first_place(first_size as u64, leaves.len() as u64).path_len();
    siblings + usize::from(!first_size.is_power_of_two())
}

/// Writes a proof to `out` as [`consistency_path`] does, and counts on `meter` two blocks for each
/// node of the tree that it hashes. A refusal leaves `meter` as it was.
pub fn consistency_path_counted(
    leaves: &[[u8; HASH_LEN]],
    first_size: usize,
    out: &mut [[u8; HASH_LEN]],
    meter: &mut Meter,
) -> Result<usize, Unspecified>
    ensures plain { MakesProof first_size leaves.now out.old out.new result }
    ensures unchanged { OnErr result (meter.new ≡ meter.old) }
    ensures cost { IfOk result (λ len. meter.new
        ≡ raised meter.old (consistency_path_blocks first_size (length leaves.now) len) 0) }
{
    if first_size == 0 || first_size >= leaves.len() {
        return Err(Unspecified);
    }
    let len = consistency_len(leaves, first_size);
    if len > out.len() {
        return Err(Unspecified);
    }
    write_proof(leaves, first_size - 1, true, &mut out[..len], meter);
    Ok(len)
}

/// Writes to `out` the proof that the tree over the first `first_size` of `leaves` is the beginning
/// of the tree over all of them (RFC 9162, section 2.1.4.1), and returns its length, which is at
/// most 65.
///
/// Refused where `first_size` is 0 or not below the number of leaves, and where `out` is shorter
/// than the proof. `out` is then as it was.
pub fn consistency_path(
    leaves: &[[u8; HASH_LEN]],
    first_size: usize,
    out: &mut [[u8; HASH_LEN]],
) -> Result<usize, Unspecified>
    ensures { MakesProof first_size leaves.now out.old out.new result }
{
    consistency_path_counted(leaves, first_size, out, &mut Meter::new())
}
