// SPDX-License-Identifier: ISC
//! A store of many records, its text, and the time that it takes.

use crate::names::{iterations, new_store};
use ring_store::{PasswordStore, StoreError};
use ring_store_text::{LoadError, from_text, to_text};
use std::alloc::Global;
use std::io;
use std::time::{Duration, Instant};

// How many records there are.
const MANY: u32 = 320_000;

// Puts the names out of their order: it has no divisor with the number of records.
const STRIDE: u32 = 7_919;

// The name of a number. The names are in the order of their numbers.
fn name_of(number: u32) -> [u8; 20] {
    let mut name = *b"user 0000@example.or";
    name[5..9].copy_from_slice(&number.to_be_bytes());
    name
}

// A store of many records that were restored out of order.
fn store_of_many(alloc: Global) -> Result<PasswordStore, StoreError> {
    let mut store = new_store(alloc, 600_000);
    for step in 0..MANY {
        let number = step * STRIDE % MANY;
        let credential = [number.to_be_bytes()[3]; 32];
        store.restore(&name_of(number), iterations(number + 1), credential)?;
    }
    Ok(store)
}

// Whether a store has the record of a number.
fn has_record(store: &PasswordStore, number: u32) -> bool {
    let count = iterations(number.saturating_add(1));
    store.record(&name_of(number)) == Some((count, [number.to_be_bytes()[3]; 32]))
}

// Whether a store has each record that was restored, and no other.
fn has_many(store: &PasswordStore) -> bool {
    (0..MANY).all(|number| has_record(store, number)) && store.len() == MANY as usize
}

// The text of a store, and how long it took.
fn written(rt: &HostRuntime, store: &PasswordStore) -> io::Result<(Vec<u8>, Duration)> {
    let start = Instant::now(rt)?;
    let text = to_text(rt.alloc(), store)?;
    Ok((text, start.elapsed(rt)?))
}

// What a text is read as, and how long it took.
fn read(rt: &HostRuntime, text: &[u8]) -> io::Result<(Result<PasswordStore, LoadError>, Duration)> {
    let start = Instant::now(rt)?;
    let store = from_text(rt.alloc(), text);
    Ok((store, start.elapsed(rt)?))
}

// Whether many records are written and read back as they were. Prints how long each took.
fn keeps_many(rt: &HostRuntime, store: &PasswordStore) -> io::Result<bool> {
    let (text, to_write) = written(rt, store)?;
    let (again, to_read) = read(rt, &text)?;
    let (records, len) = (store.len(), text.len());
    println!(rt; "{records} records, {len} bytes: written in {to_write:?}, read in {to_read:?}")?;
    let Ok(again) = again else {
        return Ok(false);
    };
    Ok(has_many(&again) && to_text(rt.alloc(), &again)? == text)
}

// Whether a store takes the password of one more name.
fn sets_one_more(mut store: PasswordStore) -> bool {
    store.set_iterations(iterations(1));
    store.set_password(b"one more", b"password").is_ok()
        && store.check_password(b"one more", b"password").is_ok()
        && has_record(&store, MANY - 1)
}

#[test]
fn more_than_300_000_names_have_memory(rt: HostRuntime) {
    let Ok(store) = store_of_many(rt.alloc()) else {
        panic!(rt; "a record was not restored");
    };
    assert!(rt; has_many(&store));
    assert!(rt; matches!(keeps_many(&rt, &store), Ok(true)));
    assert!(rt; sets_one_more(store));
}
