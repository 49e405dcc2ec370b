// SPDX-License-Identifier: ISC
//! Rows of names and passwords, and many names beside a plain list.

use ring::cost::Meter;
use ring_store::{PasswordStore, Reply, StoreError};
use std::alloc::Global;
use std::num::NonZeroU32;

// The salt and the password of `ring`'s example of a password database.
pub const DB_SALT: [u8; 16] = [
    0xd6, 0x26, 0x98, 0xda, 0xf4, 0xdc, 0x50, 0x52, 0x24, 0xf2, 0x27, 0xd1, 0xfe, 0x39, 0x01, 0x8a,
];

pub const PASSWORD: &[u8] = b"@74d7]404j|W}6u";

// One byte more than a name may have.
pub const LONG_NAME: [u8; 65] = [b'n'; 65];

pub const LONGEST_NAME: [u8; 64] = [b'n'; 64];

pub const WRONG: Reply = Reply::Refused(StoreError::WrongUsernameOrPassword);

// The name of each length, from 1 to 64 bytes.
pub fn name_of(len: usize) -> &'static [u8] {
    LONGEST_NAME.get(..len).unwrap_or(&LONGEST_NAME)
}

pub fn iterations(n: u32) -> NonZeroU32 {
    NonZeroU32::new(n).unwrap_or(NonZeroU32::MIN)
}

pub fn found(n: u32) -> Reply {
    Reply::Iterations(NonZeroU32::new(n))
}

pub fn told(given: Result<(), StoreError>) -> Reply {
    match given {
        Ok(()) => Reply::Done,
        Err(error) => Reply::Refused(error),
    }
}

pub fn new_store(alloc: Global, count: u32) -> PasswordStore {
    PasswordStore::new(alloc, DB_SALT, iterations(count))
}

#[test]
fn set_password_succeeds(rt: HostRuntime) {
    let mut store = new_store(rt.alloc(), 1);
    assert!(rt; store.set_password(b"alice", PASSWORD).is_ok());
    assert!(rt; store.set_password(b"alice", b"another").is_ok());
}

// The blocks and the byte pairs of setting a password.
fn cost_of_set(store: &mut PasswordStore, name: &[u8]) -> (u128, u128) {
    let mut meter = Meter::new();
    let _ = store.set_password_counted(name, PASSWORD, &mut meter);
    (meter.blocks(), meter.byte_pairs())
}

// A new name costs 2,002 blocks, and the same name once it is known as many.
#[test]
fn set_password_costs_one_derivation(rt: HostRuntime) {
    let mut store = new_store(rt.alloc(), 1000);
    assert!(rt; cost_of_set(&mut store, b"alice") == (2002, 0));
    assert!(rt; cost_of_set(&mut store, b"alice") == (2002, 0));
    assert!(rt; cost_of_set(&mut store, &LONG_NAME) == (0, 0));
}

// How a wrong password is refused, and the blocks and the byte pairs that it cost.
fn refused_at(store: &mut PasswordStore, name: &[u8]) -> (Reply, u128, u128) {
    let mut meter = Meter::new();
    let answer = store.verify_password_counted(name, b"wrong password", &mut meter);
    (told(answer), meter.blocks(), meter.byte_pairs())
}

// A known name and another one cost 2,002 blocks and 32 byte pairs each. The blocks of 1,000
// iterations: two of the key, two of the first and two of each other one.
#[test]
fn unknown_name_costs_what_a_known_one_does(rt: HostRuntime) {
    let mut store = new_store(rt.alloc(), 1000);
    assert!(rt; store.set_password(b"alice", PASSWORD).is_ok());
    assert!(rt; refused_at(&mut store, b"alice") == (WRONG, 2002, 32));
    assert!(rt; refused_at(&mut store, b"nobod") == (WRONG, 2002, 32));
}

// Sets the password of a name, of four bytes, to one byte.
fn sets(store: &mut PasswordStore, name: u32, password: u8) -> bool {
    store.set_password(&name.to_be_bytes(), &[password]).is_ok()
}

// Whether the guess passes in the store.
fn passes(store: &mut PasswordStore, name: u32, guess: u8) -> bool {
    store.verify_password(&name.to_be_bytes(), &[guess]).is_ok()
}

// Sets passwords of names in the store and in the list, and asks after each for another one.
fn sets_a_thousand(store: &mut PasswordStore, list: &mut [Option<u8>; 1000]) -> bool {
    for step in 0u32..1000 {
        let set = (step * 709 + 17) % 1000;
        let password = (step % 7) as u8;
        if !sets(store, set, password) {
            return false;
        }
        list[set as usize] = Some(password);
        let asked = (step * 387 + 5) % 1000;
        let guess = (step % 3) as u8;
        if passes(store, asked, guess) != (list[asked as usize] == Some(guess)) {
            return false;
        }
    }
    true
}

// Whether each guess at the name's password passes where it is that of the list.
fn answers_as(store: &mut PasswordStore, name: u32, password: Option<u8>) -> bool {
    for guess in 0u8..7 {
        if passes(store, name, guess) != (password == Some(guess)) {
            return false;
        }
    }
    true
}

// Whether the store and a list that has each name's password agree.
fn agrees_with_list(mut store: PasswordStore) -> bool {
    let mut list = [None; 1000];
    if !sets_a_thousand(&mut store, &mut list) {
        return false;
    }
    for name in 0u32..1000 {
        if !answers_as(&mut store, name, list[name as usize]) {
            return false;
        }
    }
    true
}

#[test]
fn a_thousand_names_and_a_list_of_them(rt: HostRuntime) {
    assert!(rt; agrees_with_list(new_store(rt.alloc(), 1)));
}
