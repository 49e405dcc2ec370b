// SPDX-License-Identifier: ISC
//! The records of a password store, one by one.

ghost use Rattle.std.specs.Prelude.{◌≡◌, ◌↔◌, ◌⊎◌, [], IsErrOf, IsTrue, OnOk, OnErr, false};
ghost use Rattle.std.specs.Option.{option_copied};
ghost use Rattle.ring_store.specs.Records.{named};
ghost use Rattle.ring_store.specs.Store.{admission, entries_of, kept_of, knows, names_count};
ghost use Rattle.ring_store.specs.Store.{nth_name};
ghost use Rattle.ring_store.specs.Store.{with_record, without};

use crate::credential::{CREDENTIAL_LEN, Record};
use crate::error::StoreError;
use crate::store::{PasswordStore, admit};
use std::alloc::Allocator;
use std::collections::btree_map::Iter;
use std::num::NonZeroU32;

impl<A: Allocator + Copy> PasswordStore<A> {
    /// The iteration count and the credential of `name`, for a database of the caller's, or `None`
    /// if it has no record.
    ///
    /// Whoever has both, and the store's salt, can guess at the password at the cost of a
    /// derivation for each guess.
    pub fn record(&self, name: &[u8]) -> Option<(NonZeroU32, [u8; CREDENTIAL_LEN])>
        ensures { result ≡ kept_of self.now name.now }
    {
        let record = self.records.get(name)?;
        let credential = record.credential;
        Some((record.iterations, credential))
    }

    /// Puts a record for `name`, new or known, with the `iterations` and the `credential` that
    /// [`PasswordStore::record`] gave of a store with the same salt.
    ///
    /// Refused as `BadName` if `name` is empty or longer than `MAX_NAME_LEN` bytes, and as `Memory`
    /// if `name` is new and there is no memory for its record. The store is then unchanged.
    pub fn restore(
        &mut self,
        name: &[u8],
        iterations: NonZeroU32,
        credential: [u8; CREDENTIAL_LEN],
    ) -> Result<(), StoreError>
        ensures ok { OnOk result (self.new ≡ with_record self.old name.now iterations credential) }
        ensures refused { (result ≡ admission name.now []) ⊎ IsErrOf result StoreError.Memory }
        ensures memory { IsErrOf result StoreError.Memory
            → (admission name.now [] ≡ Ok tt) × (knows self.old name.now ≡ false) }
        ensures unchanged { OnErr result (self.new ≡ self.old) }
    {
        admit(name, &[])?;
        let made = Record {
            iterations,
            credential,
        };
        if !self.records.replace(name, made) {
            self.records.add(name, made)?;
        }
        Ok(())
    }

    /// Removes the record of `name`, and says whether it had one.
    pub fn remove(&mut self, name: &[u8]) -> bool
        ensures found { result ≡ knows self.old name.now }
        ensures removed { self.new ≡ without self.old name.now }
    {
        self.records.remove(name)
    }

    /// The number of names that have a record.
    pub fn len(&self) -> usize
        ensures { result ≡ names_count self.now }
    {
        self.records.len()
    }

    /// Whether no name has a record.
    pub fn is_empty(&self) -> bool
        ensures { IsTrue result ↔ (names_count self.now ≡ 0) }
    {
        self.len() == 0
    }

    /// The names with their records, in the order of names.
    ///
    /// Whoever has a record, and the store's salt, can guess at its password at the cost of a
    /// derivation for each guess.
    pub fn iter(&self) -> Iter<'_, Vec<u8, A>, Record>
        ensures { named result ≡ entries_of self.now }
    {
        self.records.iter()
    }

    /// The name at position `index` in the order of names, from 0, or `None` from `len` on. It
    /// passes over the names before it, so its time grows with `index`.
    pub fn name_at(&self, index: usize) -> Option<&[u8]>
        ensures { option_copied result ≡ nth_name self.now index }
    {
        self.records.name_at(index)
    }
}
