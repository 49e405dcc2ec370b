// SPDX-License-Identifier: ISC
//! The hashes of leaves and nodes (RFC 9162, section 2.1.1).

ghost use Rattle.std.specs.Prelude.{◌≡◌, ◌↔◌, ◌<◌, ◌+◌, [], ℕ, List, length, IfOk, IsErr, OnErr};
ghost use Rattle.std.specs.Prelude.{IsTrue, OnOk};
ghost use Rattle.ring.specs.Prelude.{IsDigest, digest_algorithm, joined, max_input_len};
ghost use Rattle.ring.specs.Prelude.{padded_blocks, raised};
ghost use Rattle.ring.specs.declared.digest.algorithm.TheConstants.{SHA256};
ghost use Rattle.ring_merkle.specs.Cost.{node_blocks, nothing_blocks};
ghost use Rattle.ring_merkle.specs.Tree.{leaf_hash, node_hash, sha256};

use ring::cost::Meter;
use ring::digest::{Digest, SHA256, SHA256_OUTPUT_LEN};
use ring::error::Unspecified;
use ring::laws::digest_pieces;

/// The length of a hash in bytes.
pub const HASH_LEN: usize = SHA256_OUTPUT_LEN;

// Whether both hashes are the same. It ends at the first byte that differs: what a tree hashes is
// public.
pub(crate) fn is_same(one: &[u8; HASH_LEN], other: &[u8; HASH_LEN]) -> bool
    ensures { IsTrue result ↔ one.now ≡ other.now }
{
    for at in 0..HASH_LEN {
        if one[at] != other[at] {
            return false;
        }
    }
    true
}

// The bytes of a digest under SHA-256.
fn hash_of(digest: &Digest) -> [u8; HASH_LEN]
    requires { digest_algorithm digest.now ≡ SHA256 }
    ensures { (m : List ℕ) → IsDigest digest.now SHA256 m → result ≡ sha256 m }
{
    let mut hash = [0; HASH_LEN];
    hash.copy_from_slice(digest.as_ref());
    hash
}

// The hash of what `pieces` join to.
fn hash_pieces(pieces: &[&[u8]], meter: &mut Meter) -> Result<[u8; HASH_LEN], Unspecified>
    ensures ok { IfOk result (λ hash. hash ≡ sha256 (joined pieces.now)) }
    ensures refused { IsErr result ↔ (max_input_len SHA256 < length (joined pieces.now)) }
    ensures unchanged { OnErr result (meter.new ≡ meter.old) }
    ensures cost { OnOk result (meter.new
        ≡ raised meter.old (padded_blocks SHA256 (length (joined pieces.now))) 0) }
{
    let digest = digest_pieces(&SHA256, pieces, meter)?;
    Ok(hash_of(&digest))
}

/// Computes the tree hash of no leaves as [`empty_root`] does, and counts its block on `meter`.
pub fn empty_root_counted(meter: &mut Meter) -> [u8; HASH_LEN]
    ensures hash { result ≡ sha256 [] }
    ensures cost { meter.new ≡ raised meter.old nothing_blocks 0 }
{
    match hash_pieces(&[], meter) {
        Ok(hash) => hash,
        // Nothing is far below the limit.
        Err(_) => unreachable!(),
    }
}

/// The tree hash of no leaves (RFC 9162, section 2.1.1): the hash of nothing.
pub fn empty_root() -> [u8; HASH_LEN]
    ensures { result ≡ sha256 [] }
{
    empty_root_counted(&mut Meter::new())
}

/// Computes the hash of an entry as [`leaf_hash`] does, and counts its blocks on `meter`. A refusal
/// leaves `meter` as it was.
pub fn leaf_hash_counted(entry: &[u8], meter: &mut Meter) -> Result<[u8; HASH_LEN], Unspecified>
    ensures ok { IfOk result (λ hash. hash ≡ leaf_hash entry.now) }
    ensures refused { IsErr result ↔ (max_input_len SHA256 < length entry.now + 1) }
    ensures unchanged { OnErr result (meter.new ≡ meter.old) }
    ensures cost { OnOk result (meter.new
        ≡ raised meter.old (padded_blocks SHA256 (length entry.now + 1)) 0) }
{
    hash_pieces(&[&[0], entry], meter)
}

/// The hash of `entry` as a leaf (RFC 9162, section 2.1.1): a byte 0 stands before it.
///
/// Refused where that byte and `entry` are longer than SHA-256's `max_input_len` bytes.
pub fn leaf_hash(entry: &[u8]) -> Result<[u8; HASH_LEN], Unspecified>
    ensures ok { IfOk result (λ hash. hash ≡ leaf_hash entry.now) }
    ensures refused { IsErr result ↔ (max_input_len SHA256 < length entry.now + 1) }
{
    leaf_hash_counted(entry, &mut Meter::new())
}

/// Computes the hash of a node as [`node_hash`] does, and counts its two blocks on `meter`.
pub fn node_hash_counted(
    left: &[u8; HASH_LEN],
    right: &[u8; HASH_LEN],
    meter: &mut Meter,
) -> [u8; HASH_LEN]
    ensures hash { result ≡ node_hash left.now right.now }
    ensures cost { meter.new ≡ raised meter.old node_blocks 0 }
{
    match hash_pieces(&[&[1], left, right], meter) {
        Ok(hash) => hash,
        // A byte and two hashes are far below the limit.
        Err(_) => unreachable!(),
    }
}

/// The hash of a node (RFC 9162, section 2.1.1): a byte 1 stands before `left` and `right`, the
/// hashes of its two children.
pub fn node_hash(left: &[u8; HASH_LEN], right: &[u8; HASH_LEN]) -> [u8; HASH_LEN]
    ensures { result ≡ node_hash left.now right.now }
{
    node_hash_counted(left, right, &mut Meter::new())
}
