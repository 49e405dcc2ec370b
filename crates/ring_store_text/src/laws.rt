// SPDX-License-Identifier: ISC
//! Laws of stores and their texts.
//!
//! A law holds of the definitions alone: its clause is the law, and the call does nothing.
#![tactic(auto, using(crate::proofs::Stores::stores))]

ghost use Rattle.std.specs.Prelude.{◌≡◌, ◌≢◌, ◌⊎◌, ℕ, List, ◌++◌, codes};
ghost use Rattle.std.specs.Prelude.{IfOk, IsErrOf, Result, Ok, Err};
ghost use Rattle.std.specs.List.{range_with_len};
ghost use Rattle.std.specs.Int.NonZero.{non_zero_u32_get};
ghost use Rattle.ring_store.specs.Store.{new_store, record_of, with_iterations, with_password};
ghost use Rattle.ring_store.specs.Store.{with_record, without};
ghost use Rattle.ring_store.specs.declared.store.PasswordStore.{PasswordStore};
ghost use Rattle.ring_text.specs.Field.{IsCount};
ghost use Rattle.ring_store_text.specs.Text.{IsEntry, IsHead, IsStore, text_of};
ghost use Rattle.ring_store_text.specs.declared.error.LoadError.{LoadError};
ghost use Rattle.ring_store_text.specs.declared.error.LoadError.TheVariants.{BadText, Memory};

use std::alloc::Allocator;
use std::num::NonZeroU32;

/// A new store is an `IsStore`, which the laws of texts ask for, and each change keeps it one, if
/// the salt, the counts, the names and the credentials are of their types.
pub fn changes_keep_stores<A: Allocator>()
    ensures new { (db_salt : List ℕ) (c : NonZeroU32) → IsHead db_salt c
        → IsStore {Z = A} (new_store db_salt c) }
    ensures iterations { (s : PasswordStore A) (c : NonZeroU32) → IsStore s → IsCount c
        → IsStore (with_iterations s c) }
    ensures record { (s : PasswordStore A) (name : List ℕ) (c : NonZeroU32) (credential : List ℕ)
        → IsStore s → IsEntry (name, record { iterations = c; credential = credential })
        → IsStore (with_record s name c credential) }
    ensures password { (s : PasswordStore A) (name password : List ℕ) → IsStore s
        → IsEntry (name, record_of s name password) → IsStore (with_password s name password) }
    ensures removed { (s : PasswordStore A) (name : List ℕ) → IsStore s → IsStore (without s name) }
{}

/// Two stores with the same text are equal.
pub fn one_text_one_store<A: Allocator>()
    ensures { (s t : PasswordStore A) → IsStore s → IsStore t → text_of s ≡ text_of t → s ≡ t }
{}

/// Reading the text of a store gives that store, unless there is no memory. `r` is any result that
/// the contract of `from_text` admits for this text.
pub fn text_reads_back<A: Allocator>()
    ensures { (s : PasswordStore A) (r : Result (PasswordStore A) LoadError) → IsStore s
        → IfOk r (λ t. (text_of t ≡ text_of s) × IsStore t)
        → (IsErrOf r BadText → (t : PasswordStore A) → IsStore t → text_of t ≢ text_of s)
        → (r ≡ Ok s) ⊎ (r ≡ Err Memory) }
{}

/// The text of a store with two records, as an example.
pub fn text_of_two_records<A: Allocator>()
    ensures { (one two : NonZeroU32) → non_zero_u32_get one ≡ 1 → non_zero_u32_get two ≡ 600000
        → (let s : PasswordStore A = new_store (range_with_len 0 16) two in
        let s2 = with_record s (codes "bob") one (range_with_len 224 32) in
        text_of (with_record s2 (codes "alice") two (range_with_len 0 32)))
        ≡ codes "ring_store 1 000102030405060708090a0b0c0d0e0f 600000\n"
        ++ codes "616c696365 600000 000102030405060708090a0b0c0d0e0f"
        ++ codes "101112131415161718191a1b1c1d1e1f\n"
        ++ codes "626f62 1 e0e1e2e3e4e5e6e7e8e9eaebecedeeeff0f1f2f3f4f5f6f7f8f9fafbfcfdfeff\n" }
{}
