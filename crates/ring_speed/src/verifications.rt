// SPDX-License-Identifier: ISC
//! A verification of a password, in a store whose one name was set before.

ghost use Rattle.std.specs.Prelude.{◌≡◌, ◌≢◌, ◌⊎◌};

use crate::message::{KEY, SALT};
use ring_store::{PasswordStore, laws};
use std::alloc::Global;
use std::num::NonZeroU32;

// The name that is set.
const KNOWN: &[u8] = b"known";

// A name of its length that isn't.
const UNKNOWN: &[u8] = b"other";

// What a call gives that got no memory.
const NO_MEMORY: u64 = 2;

/// Sets a name with so many iterations, but with one for none, and then verifies with its password
/// the name of a number.
///
/// | `name` | What is verified | Gives |
/// |---|---|---|
/// | 0 | another of its length, which has no record | 0 |
/// | 1 | the one that was set | 1 |
/// | others | nothing | 1 |
///
/// Gives 2 where it got no memory.
#[unsafe(no_mangle)]
pub extern "C" fn ring_speed_verify(alloc: Global, name: u32, steps: u32) -> u64
    ensures unknown { name ≡ 0 → (result ≡ 0) ⊎ (result ≡ NO_MEMORY) }
    ensures known { name ≢ 0 → (result ≡ 1) ⊎ (result ≡ NO_MEMORY) }
{
    laws::set_then_verify::<Global>();
    laws::set_keeps_others::<Global>();
    let iterations = NonZeroU32::new(steps.max(1)).unwrap();
    let mut store = PasswordStore::new(alloc, SALT, iterations);
    if store.set_password(KNOWN, &KEY).is_err() {
        return NO_MEMORY;
    }
    match name {
        0 => store.verify_password(UNKNOWN, &KEY).is_ok() as u64,
        1 => store.verify_password(KNOWN, &KEY).is_ok() as u64,
        _ => 1,
    }
}
