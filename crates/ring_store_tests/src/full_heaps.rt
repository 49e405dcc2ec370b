// SPDX-License-Identifier: ISC
//! Heaps of every size: a store is filled until memory is wanting, and then asked for every name.

use crate::names::{DB_SALT, WRONG, iterations, name_of, told};
use linked_list_allocator::LocalHeap;
use ring_store::{PasswordStore, Reply, StoreError};
use std::alloc::{AllocError, Global};

// The largest heap, in bytes.
const LARGEST: usize = 4096;

// One name of each length.
const NAMES: usize = 64;

const MEMORY: Reply = Reply::Refused(StoreError::Memory);

// Whether a store verifies the names whose password is set, and no others, and no other password.
fn answers_as(store: &PasswordStore<&LocalHeap>, is_set: &[bool; NAMES]) -> bool {
    for number in 0..NAMES {
        let name = name_of(number + 1);
        let right = store.check_password(name, name).is_ok();
        if right != is_set[number] || told(store.check_password(name, b"another")) != WRONG {
            return false;
        }
    }
    true
}

// Sets names until memory is wanting, and tells how many were set: `None` where one is refused for
// another reason.
fn fill(store: &mut PasswordStore<&LocalHeap>, is_set: &mut [bool; NAMES]) -> Option<usize> {
    for number in 0..NAMES {
        let name = name_of(number + 1);
        match told(store.set_password(name, name)) {
            Reply::Done => is_set[number] = true,
            MEMORY => return Some(number),
            _ => return None,
        }
    }
    Some(NAMES)
}

// Whether a store on a heap of this size is as it was when memory was wanting, and how many names
// it has.
fn filled_on(alloc: Global, size: usize) -> Result<Option<usize>, AllocError> {
    let heap = LocalHeap::new(alloc, size)?;
    let mut store = PasswordStore::new_in(&heap, DB_SALT, iterations(1));
    let mut is_set = [false; NAMES];
    let count = fill(&mut store, &mut is_set);
    Ok(count.filter(|count| answers_as(&store, &is_set) && store.len() == *count))
}

// The most names on a heap, where each heap is as it was when memory was wanting.
fn most_names(alloc: Global) -> Result<Option<usize>, AllocError> {
    let mut most = 0;
    for size in 0..LARGEST {
        let Some(count) = filled_on(alloc, size)? else {
            return Ok(None);
        };
        most = count.max(most);
    }
    Ok(Some(most))
}

#[test]
fn known_names_are_as_before_when_memory_is_wanting(rt: HostRuntime) {
    let most = most_names(rt.alloc());
    assert!(rt; matches!(most, Ok(Some(most)) if most > 8 && most < NAMES));
}
