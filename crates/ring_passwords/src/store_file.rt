// SPDX-License-Identifier: ISC
//! A store's file, step by step: read whole, and replaced whole under a lock.

ghost use Rattle.std.specs.Prelude.{◌≡◌, ◌⊎◌, ℕ, List, IfErr, IfOk, OnOk, false, true};
ghost use Rattle.std.specs.declared.num.NonZeroU32.{NonZeroU32};
ghost use Rattle.ring_store.specs.Store.{new_store};
ghost use Rattle.ring_store_text.specs.Text.{IsStore, text_of};
ghost use Rattle.ring_passwords.specs.Change.{IsCountOfNew};
ghost use Rattle.ring_passwords.specs.Event.{Did, LockStore, Notes};
ghost use Rattle.ring_passwords.specs.Failure.{IsNotLocked, status_of};
ghost use Rattle.ring_passwords.specs.Order.{IsLoaded, IsNotLoaded, IsNotTaken, IsTaken};
ghost use Rattle.ring_passwords.specs.Replace.{IsNotReplaced, IsReplaced};
ghost use Rattle.ring_passwords.specs.Salt.{IsDrawn, IsNotDrawn};

use crate::change::{is_made, new_store, store_in};
use crate::failure::Failure;
use crate::replace::replace;
use crate::steps::Steps;
use ring_store::PasswordStore;
use ring_store_text::to_text;
use std::alloc::Global;
use std::num::NonZeroU32;

/// The store that stands in a file.
pub fn load<S: Steps>(alloc: Global, steps: &mut S, path: &str) -> Result<PasswordStore, Failure>
    ensures ok { IfOk result (λ store. Did (S.events steps.old) (S.events steps.new)
        (IsLoaded path.now store)) }
    ensures refused { IfErr result (λ failure. Did (S.events steps.old) (S.events steps.new)
        (IsNotLoaded path.now failure)) }
    ensures status { IfErr result (λ failure. status_of failure ≡ 2) }
{
    let text = steps.read_store(path)?;
    store_in(alloc, &text)
}

/// A store's file, locked: no other process of this program replaces it.
#[derive(Drop)]
pub struct LockedFile<'a, L: Drop> {
    path: &'a str,
    /// Dropping it unlocks the file.
    lock: L,
}

/// Locks a file, which need not be there.
pub fn locked<'a, S: Steps>(
    steps: &mut S,
    path: &'a str,
) -> Result<LockedFile<'a, S::Lock>, Failure>
    ensures ok { IfOk result (λ file. (file.path.now ≡ path.now)
        × Notes (S.events steps.old) (S.events steps.new) (LockStore path.now true)) }
    ensures refused { IfErr result (λ failure. IsNotLocked failure
        × Notes (S.events steps.old) (S.events steps.new) (LockStore path.now false)) }
    ensures status { IfErr result (λ failure. status_of failure ≡ 2) }
{
    let lock = steps.lock_store(path)?;
    Ok(LockedFile { path, lock })
}

/// A new store, if a file is missing now and was missing at the first look; or else why it is not
/// read.
fn new_or<S: Steps>(
    alloc: Global,
    steps: &mut S,
    was_missing: bool,
    given: Option<NonZeroU32>,
    failure: Failure,
) -> Result<PasswordStore, Failure>
    requires { status_of failure ≡ 2 }
    ensures ok { IfOk result (λ store. (was_missing ≡ true) × (failure ≡ Failure.NoFile)
        × (salt : List ℕ) × (iterations : NonZeroU32)
        × IsDrawn (S.events steps.old) (S.events steps.new) salt
        × IsCountOfNew given iterations × (store ≡ new_store salt iterations)) }
    ensures refused { IfErr result (λ other. ((other ≡ failure)
        × (¬ ((was_missing ≡ true) × (failure ≡ Failure.NoFile)))
        × (S.events steps.new ≡ S.events steps.old))
        ⊎ ((was_missing ≡ true) × (failure ≡ Failure.NoFile)
        × IsNotDrawn (S.events steps.old) (S.events steps.new) other)) }
    ensures status { IfErr result (λ other. status_of other ≡ 2) }
{
    if is_made(was_missing, &failure) {
        return new_store(alloc, steps, given);
    }
    Err(failure)
}

impl<L: Drop> LockedFile<'_, L> {
    /// The store that stands in the file, which has no other name; or a new one, if there is no
    /// file and none was there at the first look.
    pub fn take<S: Steps>(
        &self,
        alloc: Global,
        steps: &mut S,
        was_missing: bool,
        given: Option<NonZeroU32>,
    ) -> Result<PasswordStore, Failure>
        ensures ok { IfOk result (λ store. Did (S.events steps.old) (S.events steps.new)
            (IsTaken self.now.path.now given was_missing store)) }
        ensures refused { IfErr result (λ failure. Did (S.events steps.old) (S.events steps.new)
            (IsNotTaken self.now.path.now was_missing failure)) }
        ensures status { IfErr result (λ failure. status_of failure ≡ 2) }
    {
        match steps.read_to_replace(self.path) {
            Ok(text) => store_in(alloc, &text),
            Err(failure) => new_or(alloc, steps, was_missing, given, failure),
        }
    }

    /// Puts a new file with the store's text in the place of the file.
    pub fn replace<S: Steps<Lock = L>>(
        &self,
        alloc: Global,
        steps: &mut S,
        store: &PasswordStore,
    ) -> Result<(), Failure>
        ensures ok { OnOk result (Did (S.events steps.old) (S.events steps.new)
            (IsReplaced self.now.path.now (text_of store.now) true)) }
        ensures refused { IfErr result (λ failure. Did (S.events steps.old) (S.events steps.new)
            (IsNotReplaced self.now.path.now (text_of store.now) failure)) }
        ensures status { IfErr result (λ failure. status_of failure ≡ 2) }
    {
        let text = to_text(alloc, store)?;
        replace(alloc, steps, &self.lock, self.path, &text)
    }
}
