// SPDX-License-Identifier: ISC
//! A password store: a first use, a login, a restart, and the cost of a check.
#![tactic(auto, using(ring_store_text::proofs::Stores::same_store))]

ghost use Rattle.std.specs.Prelude.{◌≡◌, ◌≢◌, ◌↔◌, ℕ, List, Ok, Err};
ghost use Rattle.std.specs.Prelude.{IfOk, IsErrOf, IsOkUnless, IsTrue, OnErr, OnOk};
ghost use Rattle.ring.specs.Prelude.{raised};
ghost use Rattle.ring_store.specs.Store.{admission, verdict, verify_blocks, with_raise};
ghost use Rattle.ring_store.specs.Token.{MakerStandsFor, token_of};
ghost use Rattle.ring_store_text.specs.Text.{IsStore};

use ring::cost::Meter;
use ring_store::{CREDENTIAL_LEN, DB_SALT_LEN, PasswordStore, StoreError, TOKEN_LEN, TokenMaker};
use ring_store_text::{LoadError, from_text, to_text};
use std::alloc::Global;
use std::num::NonZeroU32;

/// Sets the password of a name and verifies it, also after the iteration count of the store is
/// changed. Then issues a token that is valid for an hour, and checks it.
///
/// `db_salt` and `master` are random, and kept. `now` is a time in seconds. Refused only if there
/// is no memory for the name's record.
pub fn first_use(
    alloc: Global,
    db_salt: [u8; DB_SALT_LEN],
    iterations: NonZeroU32,
    more: NonZeroU32,
    master: &[u8; 32],
    now: u64,
) -> Result<(), StoreError>
    ensures { IsOkUnless result StoreError.Memory }
{
    let mut store = PasswordStore::new(alloc, db_salt, iterations);
    store.set_password(b"alice", b"correct horse")?;
    store.verify_password(b"alice", b"correct horse")?;

    store.set_iterations(more);
    store.verify_password(b"alice", b"correct horse")?;

    let maker = TokenMaker::new(master, b"tokens of this service").unwrap();
    let expiry = now.saturating_add(3_600);
    let token = maker.issue(b"alice", expiry).unwrap();
    maker.check(b"alice", expiry, now, &token).unwrap();
    Ok(())
}

/// Writes a store as text and reads it back: the store is the same after a restart.
///
/// Refused only if there is no memory for the text or a record.
pub fn over_a_restart(alloc: Global, store: &PasswordStore) -> Result<PasswordStore, LoadError>
    ensures ok { IsStore store.now → IfOk result (λ read. read ≡ store.now) }
    ensures refused { IsStore store.now → IsOkUnless result LoadError.Memory }
{
    let text = to_text(alloc, store)?;
    from_text(alloc, &text)
}

/// Whether `password` is the password of `name`, with the work added to the meter of a request.
pub fn check_in_request(
    store: &PasswordStore,
    name: &[u8],
    password: &[u8],
    meter: &mut Meter,
) -> bool
    ensures ok { IsTrue result ↔ (verdict store.now name.now password.now ≡ Ok tt) }
    ensures cost { admission name.now password.now ≡ Ok tt → meter.new
        ≡ raised meter.old (verify_blocks store.now name.now password.now) CREDENTIAL_LEN }
    ensures cost_untested { admission name.now password.now ≢ Ok tt → meter.new ≡ meter.old }
{
    store.check_password_counted(name, password, meter).is_ok()
}

/// Issues a token of `name` until `expiry` to whoever knows its password.
///
/// Refused exactly where the verification of the password is, and as that is. The store is then
/// unchanged.
pub fn log_in(
    store: &mut PasswordStore,
    maker: &TokenMaker,
    name: &[u8],
    password: &[u8],
    expiry: u64,
) -> Result<[u8; TOKEN_LEN], StoreError>
    ensures ok { (k : List ℕ) → MakerStandsFor maker.now k
        → IfOk result (λ token. token ≡ token_of k name.now expiry) }
    ensures raise { OnOk result (store.new ≡ with_raise store.old name.now password.now) }
    ensures refused { (e : StoreError) → IsErrOf result e
        ↔ (verdict store.old name.now password.now ≡ Err e) }
    ensures unchanged { OnErr result (store.new ≡ store.old) }
{
    store.verify_password(name, password)?;
    match maker.issue(name, expiry) {
        Ok(token) => Ok(token),
        // A name whose password verified has at most 64 bytes.
        Err(_) => unreachable!(),
    }
}
