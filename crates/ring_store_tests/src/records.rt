// SPDX-License-Identifier: ISC
//! Records one by one and as text, beside what Python's `hashlib` derives.

use crate::names::{LONGEST_NAME, PASSWORD, WRONG, iterations, new_store, told};
use linked_list_allocator::LocalHeap;
use ring::cost::Meter;
use ring_store::{PasswordStore, StoreError};
use ring_store_text::{LoadError, from_text, to_text};
use std::alloc::{AllocError, Global};
use std::num::NonZeroU32;

// The credential of the longest name at 600,000 iterations.
const LONG_CREDENTIAL: [u8; 32] = [
    0x4a, 0x40, 0x23, 0x47, 0xe8, 0xef, 0x17, 0xdd, 0x62, 0x9e, 0x0b, 0xbd, 0x49, 0xcc, 0x52, 0x6c,
    0xeb, 0x75, 0x37, 0xea, 0x8a, 0x21, 0x79, 0xee, 0xb8, 0x33, 0x24, 0x78, 0xce, 0x8c, 0x3d, 0xef,
];

// The credential of `alice` at 1,000 iterations.
const CREDENTIAL: [u8; 32] = [
    0x83, 0xdf, 0xd8, 0x7d, 0xb8, 0xad, 0xbc, 0x0e, 0x91, 0x66, 0x15, 0x6c, 0x37, 0xd6, 0xf3, 0x1e,
    0x7e, 0x06, 0x6c, 0x99, 0xc9, 0x5c, 0xef, 0x5f, 0x7c, 0x9d, 0x87, 0xc0, 0x9f, 0x12, 0x94, 0x3b,
];

// A store's text with these credentials.
const TEXT: &str = "\
ring_store 1 d62698daf4dc505224f227d1fe39018a 2000\n\
5a6fc3ab 3 d3319f2808d27d911fdf93d5edd087013a630c11abc734c8056e1f80ab8ede95\n\
612062 1 d3d126c2003aedbea74d0f260cdcf3bcce28457bdd842bd60ef81daaa59230a3\n\
616c696365 1000 83dfd87db8adbc0e9166156c37d6f31e7e066c99c95cef5f7c9d87c09f12943b\n\
ff00 2 b958c846cb9bec262799057a0d2e9c9181fc97153520742468c5440f08427026\n";

// The names in that text in their order, with their passwords.
const ROWS: [(&[u8], &[u8]); 4] = [
    (b"Zo\xc3\xab", b""),
    (b"a b", b"\x00\xff"),
    (b"alice", PASSWORD),
    (b"\xff\x00", b"a"),
];

// What a store keeps of a name whose password is set in it.
fn kept_of(
    mut store: PasswordStore,
    name: &[u8],
) -> Result<Option<(NonZeroU32, [u8; 32])>, StoreError> {
    store.set_password(name, PASSWORD)?;
    Ok(store.record(name))
}

// A new name gets memory whatever its length and its iterations are.
#[test]
fn credentials_of_another_implementation(rt: HostRuntime) {
    let long = kept_of(new_store(rt.alloc(), 600_000), &LONGEST_NAME);
    assert!(rt; long == Ok(Some((iterations(600_000), LONG_CREDENTIAL))));
    let short = kept_of(new_store(rt.alloc(), 1000), b"alice");
    assert!(rt; short == Ok(Some((iterations(1000), CREDENTIAL))));
}

// How a password is answered, and the blocks and the byte pairs that it cost.
fn checked(store: &PasswordStore, name: &[u8], password: &[u8]) -> (bool, u128, u128) {
    let mut meter = Meter::new();
    let answer = store.check_password_counted(name, password, &mut meter);
    (answer.is_ok(), meter.blocks(), meter.byte_pairs())
}

#[test]
fn record_is_restored_and_removed(rt: HostRuntime) {
    let mut store = new_store(rt.alloc(), 2000);
    assert!(rt;
        store
            .restore(b"alice", iterations(1000), CREDENTIAL)
            .is_ok()
    );
    assert!(rt; store.len() == 1 && store.name_at(0) == Some(b"alice") && !store.is_empty());
    assert!(rt; checked(&store, b"alice", PASSWORD) == (true, 2002, 32));
    assert!(rt; checked(&store, b"alice", b"another") == (false, 2002, 32));
    assert!(rt; told(store.check_password(b"nobody", PASSWORD)) == WRONG);
    assert!(rt; store.remove(b"alice") && !store.remove(b"alice") && store.is_empty());
    assert!(rt; store.record(b"alice").is_none());
}

// Whether a store has the names of the rows in their order, with these passwords and no others.
fn has_rows(store: &PasswordStore) -> bool {
    for (index, (name, password)) in ROWS.iter().enumerate() {
        if store.name_at(index) != Some(*name)
            || store.check_password(name, password).is_err()
            || store.check_password(name, b"another").is_ok()
        {
            return false;
        }
    }
    store.len() == ROWS.len()
}

// Whether the text of another implementation is read, and written again byte for byte.
fn reads_text(alloc: Global) -> Result<bool, LoadError> {
    let store = from_text(alloc, TEXT.as_bytes())?;
    Ok(has_rows(&store) && to_text(alloc, &store)?.as_slice() == TEXT.as_bytes())
}

#[test]
fn text_of_another_implementation(rt: HostRuntime) {
    assert!(rt; reads_text(rt.alloc()) == Ok(true));
}

// How the text is read on a heap of this size.
fn read_on(alloc: Global, size: usize) -> Result<Result<(), LoadError>, AllocError> {
    let heap = LocalHeap::new(alloc, size)?;
    let read = from_text(&heap, TEXT.as_bytes());
    Ok(read.map(|_store| ()))
}

// The size of the first heap on which the text is read, where all smaller ones want memory.
fn first_that_reads(alloc: Global) -> Result<Option<usize>, AllocError> {
    for size in 0usize..4096 {
        match read_on(alloc, size)? {
            Ok(()) => return Ok(Some(size)),
            Err(LoadError::Memory) => {}
            Err(LoadError::BadText) => return Ok(None),
        }
    }
    Ok(None)
}

#[test]
fn text_wants_memory_and_nothing_else(rt: HostRuntime) {
    let first = first_that_reads(rt.alloc());
    assert!(rt; matches!(first, Ok(Some(size)) if size > 256));
}
