// SPDX-License-Identifier: ISC
//! A whole store, written and read back.

ghost use Rattle.std.specs.Prelude.{◌≡◌, ◌≢◌, [], All, IfErr, IfOk, IsErrOf};
ghost use Rattle.ring_store.specs.Store.{asked_iterations, entries_of, salt_of};
ghost use Rattle.ring_store.specs.declared.store.PasswordStore.{PasswordStore};
ghost use Rattle.ring_store_text.specs.Text.{AreLines, IsEntry, IsStore, IsText, lines_of, text_of};

use crate::error::LoadError;
use crate::text::{append_head, append_record, are_lines, head_in, record_in};
use ring_store::{DB_SALT_LEN, MAX_NAME_LEN, PasswordStore};
use std::alloc::{AllocError, Allocator};
use std::num::NonZeroU32;

/// The text of a store, in memory of `alloc`. [`from_text`] reads it back.
///
/// The first line is `ring_store 1 SALT ITERATIONS`: the store's salt and its iteration count. Then
/// each record has a line `NAME ITERATIONS CREDENTIAL`, in the order of names. Salt, names and
/// credentials are in lower-case hex, counts in decimal. One space separates fields, and a line
/// feed ends each line.
///
/// Whoever has the text can guess at the passwords at the cost of a derivation for each guess.
///
/// Refused only if there is no memory for the text.
#[tactic(auto, using(crate::proofs::Texts::appended), unfolding(crate::specs::Text::head_then))]
pub fn to_text<A: Allocator + Copy>(
    alloc: A,
    store: &PasswordStore<A>,
) -> Result<Vec<u8, A>, AllocError>
    ensures { IfOk result (λ text. text.items ≡ text_of store.now) }
{
    let mut text = Vec::new(alloc);
    append_head(alloc, &mut text, &store.db_salt(), store.iterations())?;
    for (name, kept) in store.iter() {
        append_record(alloc, &mut text, name, kept)?;
    }
    Ok(text)
}

// The store of a first line's salt and count with the records of these lines.
#[tactic(auto, using(crate::proofs::Lines::lines))]
fn store_of<A: Allocator + Copy>(
    alloc: A,
    db_salt: [u8; DB_SALT_LEN],
    iterations: NonZeroU32,
    lines: &[u8],
) -> Result<PasswordStore<A>, LoadError>
    requires { AreLines [] lines.now }
    ensures head { IfOk result (λ store. (salt_of store ≡ db_salt)
        × (asked_iterations store ≡ iterations)) }
    ensures records { IfOk result (λ store. (lines_of (entries_of store) ≡ lines.now)
        × All IsEntry (entries_of store)) }
    ensures memory { IfErr result (λ error. error ≡ LoadError.Memory) }
{
    let mut store = PasswordStore::new_in(alloc, db_salt, iterations);
    let mut rest = lines;
    while !rest.is_empty() {
        let mut room = [0; MAX_NAME_LEN];
        let Some((name, kept, behind)) = record_in(rest, &mut room) else {
            // These are lines of records.
            unreachable!()
        };
        let Ok(()) = store.restore(name, kept.iterations, kept.credential) else {
            // The name is admitted.
            return Err(LoadError::Memory);
        };
        rest = behind;
    }
    Ok(store)
}

/// The store whose text `text` is, as [`to_text`] writes it, with its records in memory of `alloc`.
///
/// Refused as `BadText` if no store has this text. So a name that is there twice or out of order, a
/// digit in upper case, a leading zero and a line without its end are refused. Refused as `Memory`
/// if a store has this text and there is no memory for its records. The whole text is tested before
/// memory is asked for.
pub fn from_text<A: Allocator + Copy>(alloc: A, text: &[u8]) -> Result<PasswordStore<A>, LoadError>
    ensures ok { IfOk result (λ s. (text_of s ≡ text.now) × IsStore s) }
    ensures refused { IsErrOf result LoadError.BadText
        → (s : PasswordStore A) → IsStore s → text_of s ≢ text.now }
    ensures memory { IsErrOf result LoadError.Memory → IsText A text.now }
{
    let Some(head) = head_in(text) else {
        return Err(LoadError::BadText);
    };
    let db_salt = head.0;
    let iterations = head.1;
    let lines = head.2;
    if !are_lines(lines) {
        return Err(LoadError::BadText);
    }
    store_of(alloc, db_salt, iterations, lines)
}
