// SPDX-License-Identifier: ISC
//! What is done with a store, once it is read.

ghost use Rattle.std.specs.Prelude.{◌≡◌, ◌≢◌, ◌⊎◌, ◌↔◌, ◌<◌, ℕ, List, Ok, codes, false, take, true};
ghost use Rattle.std.specs.Prelude.{IfErr, IfOk, IsErrOf, IsFalse, IsTrue, OnErr};
ghost use Rattle.std.specs.Prelude.{OnOk};
ghost use Rattle.std.specs.Int.NonZero.{non_zero_u32_get};
ghost use Rattle.std.specs.declared.num.NonZeroU32.{NonZeroU32};
ghost use Rattle.ring.specs.Cost.{raised};
ghost use Rattle.ring_store.specs.Store.{admission, is_name, knows, new_store, record_blocks};
ghost use Rattle.ring_store.specs.Store.{verdict, verify_blocks, with_password, without};
ghost use Rattle.ring_store.specs.declared.store.PasswordStore.{PasswordStore};
ghost use Rattle.ring_store_text.specs.Text.{IsStore, IsText, text_of};
ghost use Rattle.ring_passwords.specs.Change.{IsCountOfNew, IsNoStore, told, with_given};
ghost use Rattle.ring_passwords.specs.Failure.{status_of};
ghost use Rattle.ring_passwords.specs.Salt.{IsDrawn, IsNotDrawn};

use crate::failure::Failure;
use crate::salt::salt;
use crate::steps::Steps;
use ring::cost::Meter;
use ring_store::{CREDENTIAL_LEN, MAX_NAME_LEN, PasswordStore};
use ring_store_text::{LoadError, from_text};
use std::alloc::Global;
use std::num::NonZeroU32;

/// The iterations of a new store where none are given: what OWASP advises for PBKDF2 with
/// HMAC-SHA-256 (Password Storage Cheat Sheet, 2023).
pub const ADVISED_ITERATIONS: u32 = 600_000;

/// What the text of each store begins with.
pub const MARK: &[u8] = b"ring_store 1 ";

/// The fewest iterations of a store without a warning.
pub const FEWEST_ITERATIONS: u32 = 100_000;

/// The iterations of a new store.
pub fn iterations_of_new(given: Option<NonZeroU32>) -> NonZeroU32
    ensures { IsCountOfNew given result }
{
    given.unwrap_or(NonZeroU32::new(ADVISED_ITERATIONS).unwrap())
}

/// A store with no record, under a random salt.
pub fn new_store<S: Steps>(
    alloc: Global,
    steps: &mut S,
    given: Option<NonZeroU32>,
) -> Result<PasswordStore, Failure>
    ensures ok { IfOk result (λ store. (salt : List ℕ) × (iterations : NonZeroU32)
        × IsDrawn (S.events steps.old) (S.events steps.new) salt
        × IsCountOfNew given iterations × (store ≡ new_store salt iterations)) }
    ensures refused { IfErr result (λ failure.
        IsNotDrawn (S.events steps.old) (S.events steps.new) failure) }
    ensures status { IfErr result (λ failure. status_of failure ≡ 2) }
{
    let salt = salt(steps)?;
    Ok(PasswordStore::new(alloc, salt, iterations_of_new(given)))
}

/// Whether iterations are so few that a guess at a password costs too little.
pub fn is_few(iterations: NonZeroU32) -> bool
    ensures { IsTrue result ↔ (non_zero_u32_get iterations < 100_000) }
{
    iterations.get() < FEWEST_ITERATIONS
}

/// Whether a store is made, since its file is missing and was missing at the first look too. A file
/// that has vanished since then is a failure.
pub fn is_made(was_missing: bool, failure: &Failure) -> bool
    ensures { IsTrue result ↔ (IsTrue was_missing × (failure.now ≡ Failure.NoFile)) }
{
    was_missing && matches!(failure, Failure::NoFile)
}

/// Refuses a name that has no byte, or more than 64.
pub fn require_name(name: &[u8]) -> Result<(), Failure>
    ensures ok { OnOk result (is_name name.now ≡ true) }
    ensures refused { IfErr result (λ failure. (failure ≡ Failure.BadName)
        × (is_name name.now ≡ false)) }
{
    if name.is_empty() || name.len() > MAX_NAME_LEN {
        return Err(Failure::BadName);
    }
    Ok(())
}

/// Sets the password of a name. Where iterations are given, they are the store's from now on.
/// `meter` counts the blocks.
pub fn set(
    store: &mut PasswordStore,
    name: &[u8],
    password: &[u8],
    iterations: Option<NonZeroU32>,
    meter: &mut Meter,
) -> Result<(), Failure>
    ensures ok { OnOk result
        (store.new ≡ with_password (with_given store.old iterations) name.now password.now) }
    ensures refused { (result ≡ told (admission name.now password.now))
        ⊎ IsErrOf result Failure.Memory }
    ensures memory { IsErrOf result Failure.Memory
        → (admission name.now password.now ≡ Ok tt) × (knows store.old name.now ≡ false) }
    ensures unchanged { OnErr result (store.new ≡ store.old) }
    ensures cost { admission name.now password.now ≡ Ok tt → meter.new ≡ raised meter.old
        (record_blocks (with_given store.old iterations) name.now password.now) 0 }
    ensures cost_untested { admission name.now password.now ≢ Ok tt → meter.new ≡ meter.old }
{
    let before = store.iterations();
    if let Some(iterations) = iterations {
        store.set_iterations(iterations);
    }
    if let Err(error) = store.set_password_counted(name, password, meter) {
        store.set_iterations(before);
        return Err(Failure::from(error));
    }
    Ok(())
}

/// Tests the password of a name. `meter` counts the blocks and the compared pairs of bytes: as many
/// for a name without a record as for a record of the store's iterations.
pub fn verify(
    store: &PasswordStore,
    name: &[u8],
    password: &[u8],
    meter: &mut Meter,
) -> Result<(), Failure>
    ensures refused { result ≡ told (verdict store.now name.now password.now) }
    ensures cost { admission name.now password.now ≡ Ok tt → meter.new ≡ raised meter.old
        (verify_blocks store.now name.now password.now) CREDENTIAL_LEN }
    ensures cost_untested { admission name.now password.now ≢ Ok tt → meter.new ≡ meter.old }
{
    store.check_password_counted(name, password, meter)?;
    Ok(())
}

/// Removes a name.
pub fn remove(store: &mut PasswordStore, name: &[u8]) -> Result<(), Failure>
    ensures ok { OnOk result (knows store.old name.now ≡ true) }
    ensures refused { OnErr result (knows store.old name.now ≡ false) }
    ensures no_such_name { IfErr result (λ failure. failure ≡ Failure.NoSuchName) }
    ensures removed { store.new ≡ without store.old name.now }
{
    if !store.remove(name) {
        return Err(Failure::NoSuchName);
    }
    Ok(())
}

/// Whether a text with these first bytes, at most 13, can be a store's.
pub fn begins_store(start: &[u8]) -> bool
    ensures ok { IsTrue result → start.now ≡ codes "ring_store 1 " }
    ensures refused { IsFalse result → (store : PasswordStore Global)
        → take 13 (text_of store) ≢ start.now }
{
    start == MARK
}

/// The store that a text is of.
pub fn store_in(alloc: Global, text: &[u8]) -> Result<PasswordStore, Failure>
    ensures ok { IfOk result (λ store. (text_of store ≡ text.now) × IsStore store) }
    ensures refused { IsErrOf result Failure.NotAStore
        → (store : PasswordStore Global) → IsStore store → text_of store ≢ text.now }
    ensures memory { IsErrOf result Failure.Memory → IsText Global text.now }
    ensures failure { IfErr result (IsNoStore text.now) }
{
    match from_text(alloc, text) {
        Ok(store) => Ok(store),
        Err(LoadError::BadText) => Err(Failure::NotAStore),
        Err(LoadError::Memory) => Err(Failure::Memory),
    }
}
