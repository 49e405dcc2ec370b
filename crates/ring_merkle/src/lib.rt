// SPDX-License-Identifier: ISC
//! Merkle trees of transparency logs over SHA-256 (RFC 9162, section 2.1; RFC 6962 defines the same
//! trees): their roots, and proofs that a leaf is in a tree and that a tree is the beginning of a
//! larger one.
#![tactic(auto)]

mod consistency;
mod hash;
mod inclusion;
pub mod laws;
mod paths;
mod place;
mod tree;

pub use crate::consistency::{verify_consistency, verify_consistency_counted};
pub use crate::hash::{
    HASH_LEN, empty_root, empty_root_counted, leaf_hash, leaf_hash_counted, node_hash,
    node_hash_counted,
};
pub use crate::inclusion::{verify_inclusion, verify_inclusion_counted};
pub use crate::paths::{
    consistency_path, consistency_path_counted, inclusion_path, inclusion_path_counted, tree_root,
    tree_root_counted,
};
pub use crate::tree::Tree;
