// SPDX-License-Identifier: ISC
//! Callers of Merkle trees.

ghost use Rattle.std.specs.Prelude.{◌↔◌, ◌+◌, ◌<◌, length, IfOk, IsErr, IsTrue};
ghost use Rattle.ring.specs.Prelude.{max_input_len};
ghost use Rattle.ring.specs.declared.digest.algorithm.TheConstants.{SHA256};
ghost use Rattle.ring_merkle.specs.Inclusion.{IsIncluded};
ghost use Rattle.ring_merkle.specs.Tree.{leaf_hash};

use ring::error::Unspecified;
use ring_merkle::{HASH_LEN, leaf_hash, verify_inclusion};

/// Whether `path` proves that `entry` is at `index` in the log of `size` entries whose root is
/// `root`.
pub fn is_logged(
    entry: &[u8],
    index: u64,
    size: u64,
    path: &[[u8; HASH_LEN]],
    root: &[u8; HASH_LEN],
) -> Result<bool, Unspecified>
    ensures ok { IfOk result (λ yes.
        IsTrue yes ↔ IsIncluded (leaf_hash entry.now) index size path.now root.now) }
    ensures refused { IsErr result ↔ (max_input_len SHA256 < length entry.now + 1) }
{
    let hash = leaf_hash(entry)?;
    Ok(verify_inclusion(&hash, index, size, path, root))
}
