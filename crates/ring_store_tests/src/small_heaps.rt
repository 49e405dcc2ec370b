// SPDX-License-Identifier: ISC
//! Heaps that refuse each request for memory in turn.

use crate::names::{DB_SALT, WRONG, found, iterations, told};
use linked_list_allocator::LocalHeap;
use ring_store::{Command, PasswordStore, Reply, StoreError};
use std::alloc::{AllocError, Global};

const MEMORY: Reply = Reply::Refused(StoreError::Memory);

const NAMES: [&[u8]; 5] = [b"alice", &[b'n'; 64], b"bob", b"carol", b"dave"];

const COMMANDS: [Command<'static>; 4] = [
    Command::SetPassword(b"dave", b"a"),
    Command::SetPassword(b"carol", b"c"),
    Command::VerifyPassword(b"carol", b"c"),
    Command::IterationsOf(b"carol"),
];

// What asks for memory is refused on a full heap.
fn fill(heap: &LocalHeap) -> Result<Vec<u8, &LocalHeap>, AllocError> {
    Vec::with_capacity(heap, heap.free())
}

// Whether a new name is refused, and has no record.
fn refuses_new_name(store: &mut PasswordStore<&LocalHeap>) -> bool {
    told(store.set_password(b"carol", b"a")) == MEMORY
        && told(store.verify_password(b"carol", b"a")) == WRONG
        && store.iterations_of(b"carol").is_none()
}

// Whether a new name is refused while the heap is full, and then has a record.
fn adds_name_after_refusal(
    heap: &LocalHeap,
    store: &mut PasswordStore<&LocalHeap>,
) -> Result<bool, AllocError> {
    let full = fill(heap)?;
    let refuses = refuses_new_name(store);
    drop(full);
    Ok(refuses && store.set_password(b"carol", b"a").is_ok())
}

// Whether on a full heap a known name is served, and a new one alone refused.
fn serves_known_name(
    heap: &LocalHeap,
    store: &mut PasswordStore<&LocalHeap>,
) -> Result<bool, AllocError> {
    let _full = fill(heap)?;
    let sets = store.set_password(b"carol", b"b").is_ok();
    let verifies = store.verify_password(b"carol", b"b").is_ok();
    // The credential is made anew for other iterations.
    store.set_iterations(iterations(2000));
    let raises = store.verify_password(b"carol", b"b").is_ok();
    let mut replies = [Reply::Done; 4];
    store.run(&COMMANDS, &mut replies);
    let refuses_new_name = replies == [MEMORY, Reply::Done, Reply::Done, found(2000)];
    Ok(sets && verifies && raises && refuses_new_name)
}

// Whether a store on a heap of this size takes memory for new names alone.
fn takes_memory_for_new_names(alloc: Global, size: usize) -> Result<bool, AllocError> {
    let heap = LocalHeap::new(alloc, size)?;
    let mut store = PasswordStore::new_in(&heap, DB_SALT, iterations(1000));
    Ok(adds_name_after_refusal(&heap, &mut store)? && serves_known_name(&heap, &mut store)?)
}

#[test]
fn memory_is_for_new_names_alone(rt: HostRuntime) {
    assert!(rt; takes_memory_for_new_names(rt.alloc(), 4096) == Ok(true));
}

// Sets a name, and tells whether it got memory: it is there where it wasn't refused.
fn sets(store: &mut PasswordStore<&LocalHeap>, name: &[u8]) -> Option<bool> {
    let answer = store.set_password(name, b"a");
    let is_there = store.verify_password(name, b"a").is_ok();
    (is_there == answer.is_ok()).then_some(told(answer) != MEMORY)
}

// Sets all names, and tells how many were refused.
fn refused(store: &mut PasswordStore<&LocalHeap>, names: &[&[u8]]) -> Option<usize> {
    let mut count = 0usize;
    for name in names {
        if !sets(store, name)? {
            count = count.saturating_add(1);
        }
    }
    Some(count)
}

// How many of the names are refused on a heap of `size` bytes.
fn refused_on(alloc: Global, size: usize) -> Result<Option<usize>, AllocError> {
    let heap = LocalHeap::new(alloc, size)?;
    let mut store = PasswordStore::new_in(&heap, DB_SALT, iterations(1));
    Ok(refused(&mut store, &NAMES))
}

// How many heaps refuse none of the names, one, and so on: of each size, from none on.
fn counts_of_refused(alloc: Global) -> Result<Option<[usize; 6]>, AllocError> {
    let mut counts = [0usize; 6];
    for size in 0usize..100 {
        let Some(refused) = refused_on(alloc, size * 16)? else {
            return Ok(None);
        };
        let at = refused.min(5);
        counts[at] = counts[at].saturating_add(1);
    }
    Ok(Some(counts))
}

// Whether some heap refuses none of the names, some one to four, and some all.
fn are_of_all_kinds(counts: [usize; 6]) -> bool {
    let some = counts[1].max(counts[2]).max(counts[3]).max(counts[4]);
    counts[0] > 0 && some > 0 && counts[5] > 0
}

// A heap of each size refuses memory at another request of the names that the rows above set, until
// it refuses none.
#[test]
fn each_request_is_refused_in_turn(rt: HostRuntime) {
    let Ok(Some(counts)) = counts_of_refused(rt.alloc()) else {
        panic!(rt; "a name is not as it was told");
    };
    assert!(rt; are_of_all_kinds(counts));
}
