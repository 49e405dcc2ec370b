// SPDX-License-Identifier: ISC
//! Names of each length, which get memory wherever there is enough.

use crate::names::{iterations, name_of, new_store};
use ring_store::{PasswordStore, StoreError};
use ring_store_text::{LoadError, from_text, to_text};
use std::alloc::Global;

// A store in which the password of each name is set to the name.
fn store_of_all(alloc: Global) -> Result<PasswordStore, StoreError> {
    let mut store = new_store(alloc, 1);
    for len in 1..65 {
        store.set_password(name_of(len), name_of(len))?;
    }
    Ok(store)
}

// A store with the records of another one.
fn restored(alloc: Global, from: &PasswordStore) -> Result<PasswordStore, StoreError> {
    let mut store = new_store(alloc, 1);
    for len in 1..65 {
        let Some(record) = from.record(name_of(len)) else {
            continue;
        };
        let credential = record.1;
        store.restore(name_of(len), record.0, credential)?;
    }
    Ok(store)
}

// Whether a store verifies each name, and has no other.
fn has_all(store: &PasswordStore) -> bool {
    (1..65).all(|len| {
        store.check_password(name_of(len), name_of(len)).is_ok()
            && store.iterations_of(name_of(len)) == Some(iterations(1))
    }) && store.len() == 64
}

// Whether the text of a store is read with each name.
fn reads_all(alloc: Global, store: &PasswordStore) -> Result<bool, LoadError> {
    let text = to_text(alloc, store)?;
    Ok(has_all(&from_text(alloc, &text)?))
}

#[test]
fn names_of_each_length_have_memory(rt: HostRuntime) {
    let Ok(store) = store_of_all(rt.alloc()) else {
        panic!(rt; "a name was not set");
    };
    assert!(rt; has_all(&store));
    assert!(rt; matches!(restored(rt.alloc(), &store), Ok(again) if has_all(&again)));
    assert!(rt; reads_all(rt.alloc(), &store) == Ok(true));
}
