// SPDX-License-Identifier: ISC
//! What is asked of trees of transparency logs.

use crate::fault::Fault;
use crate::words::{bytes_in, number_in};
use ring_merkle::{
    HASH_LEN, consistency_path, inclusion_path, leaf_hash, tree_root, verify_consistency,
    verify_inclusion,
};
use std::alloc::Global;

/// The most values of a path.
const MAX_PATH_LEN: usize = 65;

/// The answer to a line on a tree by its words.
pub fn tree_answer(alloc: Global, words: &[&str]) -> Result<String, Fault> {
    match words {
        ["root", entries @ ..] => root_of(alloc, entries),
        ["path", index, entries @ ..] => path_of(alloc, index, entries),
        ["proof", first_size, entries @ ..] => proof_of(alloc, first_size, entries),
        ["include", hash, index, size, root, values @ ..] => {
            inclusion(alloc, [hash, index, size, root], values)
        }
        [
            "consistent",
            first_size,
            first,
            second_size,
            second,
            values @ ..,
        ] => { consistency(alloc, [first_size, first, second_size, second], values) }
        _ => Err(Fault::BadLine),
    }
}

/// The tree hash of entries.
fn root_of(alloc: Global, entries: &[&str]) -> Result<String, Fault> {
    let leaves = leaves_in(alloc, entries)?;
    hashes_of(alloc, &[tree_root(leaves.as_slice())])
}

/// The path of an entry.
fn path_of(alloc: Global, index: &str, entries: &[&str]) -> Result<String, Fault> {
    let leaves = leaves_in(alloc, entries)?;
    let mut room = [[0; HASH_LEN]; MAX_PATH_LEN];
    let len = inclusion_path(leaves.as_slice(), number_in(index)? as usize, &mut room)?;
    hashes_of(alloc, &room[..len])
}

/// The proof that the first entries are the beginning.
fn proof_of(alloc: Global, first_size: &str, entries: &[&str]) -> Result<String, Fault> {
    let leaves = leaves_in(alloc, entries)?;
    let mut room = [[0; HASH_LEN]; MAX_PATH_LEN];
    let len = consistency_path(
        leaves.as_slice(),
        number_in(first_size)? as usize,
        &mut room,
    )?;
    hashes_of(alloc, &room[..len])
}

/// Whether a path proves that a leaf hash is in a tree.
fn inclusion(alloc: Global, words: [&str; 4], values: &[&str]) -> Result<String, Fault> {
    let hash = hash_in(alloc, words[0])?;
    let index = number_in(words[1])?;
    let size = number_in(words[2])?;
    let root = hash_in(alloc, words[3])?;
    let path = path_in(alloc, values)?;
    let answer = verify_inclusion(&hash, index, size, path.as_slice(), &root);
    Ok(format!(in alloc; "{answer}")?)
}

/// Whether a path proves that a tree is the beginning of a larger one.
fn consistency(alloc: Global, words: [&str; 4], values: &[&str]) -> Result<String, Fault> {
    let first_size = number_in(words[0])?;
    let first = hash_in(alloc, words[1])?;
    let second_size = number_in(words[2])?;
    let second = hash_in(alloc, words[3])?;
    let path = path_in(alloc, values)?;
    let answer = verify_consistency(first_size, &first, second_size, &second, path.as_slice());
    Ok(format!(in alloc; "{answer}")?)
}

/// A hash.
fn hash_in(alloc: Global, word: &str) -> Result<[u8; HASH_LEN], Fault> {
    let bytes = bytes_in(alloc, word)?;
    match bytes.as_slice().as_array::<HASH_LEN>() {
        Some(hash) => Ok(*hash),
        None => Err(Fault::BadLine),
    }
}

/// The hashes of a path.
fn path_in(alloc: Global, words: &[&str]) -> Result<Vec<[u8; HASH_LEN]>, Fault> {
    let mut path = Vec::new(alloc);
    for word in words {
        let hash = hash_in(alloc, word)?;
        if path.push(hash).is_err() {
            return Err(Fault::Memory);
        }
    }
    Ok(path)
}

/// The leaf hashes of entries.
fn leaves_in(alloc: Global, words: &[&str]) -> Result<Vec<[u8; HASH_LEN]>, Fault> {
    let mut leaves = Vec::new(alloc);
    for word in words {
        let entry = bytes_in(alloc, word)?;
        let hash = leaf_hash(entry.as_slice())?;
        if leaves.push(hash).is_err() {
            return Err(Fault::Memory);
        }
    }
    Ok(leaves)
}

/// Hashes in hex, a space between two; `-` for none.
fn hashes_of(alloc: Global, hashes: &[[u8; HASH_LEN]]) -> Result<String, Fault> {
    if hashes.is_empty() {
        return Ok(String::from_str(alloc, "-")?);
    }
    let mut text = String::new(alloc);
    for hash in hashes {
        if !text.is_empty() {
            text.push(' ')?;
        }
        let digits = hex::encode(alloc, hash)?;
        text.push_str(digits.as_str())?;
    }
    Ok(text)
}
