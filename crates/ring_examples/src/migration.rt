// SPDX-License-Identifier: ISC
//! A database of another system moves, each password at its next login: into a store, or to texts
//! of another scheme or count.

ghost use Rattle.std.specs.Prelude.{◌≡◌, ◌↔◌, ◌⊎◌, ◌≤◌, Ok, Err, None, Some, IfErr, IfOk, IfSome};
ghost use Rattle.std.specs.Prelude.{IsErrOf, IsOk, IsTrue, OnErr, OnOk, drop, take};
ghost use Rattle.std.specs.Int.NonZero.{non_zero_u32_get};
ghost use Rattle.ring_password_hash.specs.Stored.{IsReadWhere, IsTextOf, Parts, answer_of};
ghost use Rattle.ring_password_hash.specs.Stored.{new_parts, new_status, parts_of};
ghost use Rattle.ring_password_hash.specs.declared.error.HashError.{HashError};
ghost use Rattle.ring_store.specs.Store.{admission, with_password};
ghost use Rattle.ring_examples.specs.declared.migration.MoveError.TheVariants.{Store, Text};

use crate::rows::fill_row;
use ring_password_hash::laws::one_text_is_of_one_value;
use ring_password_hash::{HashError, MAX_TEXT_LEN, Scheme, Stored, verify};
use ring_store::{PasswordStore, StoreError};
use std::num::NonZeroU32;

/// Why a password does not move.
#[derive(Clone, Copy, Debug, PartialEq, Eq)]
pub enum MoveError {
    /// The text of the database is refused.
    Text(HashError),
    /// The store refuses the name or the password.
    Store(StoreError),
}

impl From<HashError> for MoveError {
    ghost from_gives = { λ error moved. moved ≡ Text error };

    fn from(error: HashError) -> Self {
        MoveError::Text(error)
    }
}

impl From<StoreError> for MoveError {
    ghost from_gives = { λ error moved. moved ≡ Store error };

    fn from(error: StoreError) -> Self {
        MoveError::Store(error)
    }
}

/// Logs `name` in by the text that another system kept of its password, and keeps the password in
/// `store` from now on.
///
/// The text is from outside, and may name a count that takes an hour: it costs no block above
/// `max_iterations`. A wrong password, and whatever else is refused, leaves the store as it was.
pub fn move_at_login(
    store: &mut PasswordStore,
    name: &[u8],
    password: &[u8],
    text: &[u8],
    max_iterations: u32,
) -> Result<(), MoveError>
    ensures ok { IsOk result → IsReadWhere text.now (λ found.
        answer_of found password.now max_iterations ≡ Ok tt) }
    ensures admitted { IsOk result → admission name.now password.now ≡ Ok tt }
    ensures moved { OnOk result (store.new ≡ with_password store.old name.now password.now) }
    ensures right { (h : Parts) → IsTextOf h text.now
        → answer_of (Some h) password.now max_iterations ≡ Ok tt
        → admission name.now password.now ≡ Ok tt
        → IfErr result (λ error. error ≡ Store StoreError.Memory) }
    ensures refused { (error : HashError) → IsErrOf result (Text error)
        → IsReadWhere text.now (λ found. answer_of found password.now max_iterations ≡ Err error) }
    ensures not_kept { (error : StoreError) → IsErrOf result (Store error)
        → IsReadWhere text.now (λ found. answer_of found password.now max_iterations ≡ Ok tt)
        × ((admission name.now password.now ≡ Err error)
        ⊎ ((error ≡ StoreError.Memory) × (admission name.now password.now ≡ Ok tt))) }
    ensures unchanged { OnErr result (store.new ≡ store.old) }
{
    one_text_is_of_one_value();
    verify(text, password, max_iterations)?;
    store.set_password(name, password)?;
    Ok(())
}

/// Whether a text is as a database writes them from now on: of `scheme`, and with `least`
/// iterations or more.
pub fn is_current(stored: &Stored, scheme: Scheme, least: NonZeroU32) -> bool
    ensures { IsTrue result ↔ (((parts_of stored.now).scheme ≡ scheme)
        × (non_zero_u32_get least ≤ non_zero_u32_get (parts_of stored.now).iterations)) }
{
    stored.scheme() == scheme && stored.iterations().get() >= least.get()
}

/// Logs a user in by the text that was kept of the password. Where that is of another scheme, or
/// of fewer iterations, writes a new text to `row`, and returns its length: it is to be kept in
/// the old one's place.
pub fn rehash_at_login(
    text: &[u8],
    password: &[u8],
    max_iterations: u32,
    scheme: Scheme,
    salt: &[u8],
    iterations: NonZeroU32,
    row: &mut [u8; MAX_TEXT_LEN],
) -> Result<Option<usize>, HashError>
    ensures ok { IsOk result → IsReadWhere text.now (λ found.
        answer_of found password.now max_iterations ≡ Ok tt) }
    ensures current { IfOk result (λ new. new ≡ None → IsReadWhere text.now (λ found.
        IfSome found (λ h. (h.scheme ≡ scheme)
        × (non_zero_u32_get iterations ≤ non_zero_u32_get h.iterations)))) }
    ensures stays { (h : Parts) → IsTextOf h text.now → h.scheme ≡ scheme
        → non_zero_u32_get iterations ≤ non_zero_u32_get h.iterations
        → answer_of (Some h) password.now max_iterations ≡ Ok tt
        → (result ≡ Ok None) × (row.new ≡ row.old) }
    ensures next { IfOk result (λ new. IfSome new (λ len. IsTextOf
        (new_parts scheme password.now salt.now iterations) (take len row.new)
        × (drop len row.new ≡ drop len row.old))) }
    ensures refused { IfErr result (λ error. IsReadWhere text.now (λ found.
        (answer_of found password.now max_iterations ≡ Err error)
        ⊎ ((answer_of found password.now max_iterations ≡ Ok tt)
        × (new_status MAX_TEXT_LEN scheme password.now salt.now iterations ≡ Err error)))) }
    ensures unchanged { OnErr result (row.new ≡ row.old) }
{
    one_text_is_of_one_value();
    let stored = Stored::parse(text)?;
    stored.verify(password, max_iterations)?;
    if is_current(&stored, scheme, iterations) {
        return Ok(None);
    }
    let len = fill_row(scheme, password, salt, iterations, row)?;
    Ok(Some(len))
}
