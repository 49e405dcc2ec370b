// SPDX-License-Identifier: ISC
//! The accounts of a service: registering, asking for more iterations, and lists of calls.

ghost use Rattle.std.specs.Prelude.{◌≡◌, ◌↔◌, ◌⊎◌, ◌<◌, [], ◌∷◌, Ok, Err, true, false, length};
ghost use Rattle.std.specs.Prelude.{IfErr, IfOk, IsErrOf, IsTrue, OnErr};
ghost use Rattle.ring.specs.Limits.{tag_input_len};
ghost use Rattle.ring.specs.Prelude.{max_input_len};
ghost use Rattle.ring.specs.declared.digest.algorithm.TheConstants.{SHA256};
ghost use Rattle.ring_store.specs.Command.{IsRun};
ghost use Rattle.ring_store.specs.Store.{admission, knows, new_store, with_password};
ghost use Rattle.ring_store.specs.Token.{checked, token_input_len, token_key};
ghost use Rattle.ring_store.specs.declared.command.Command.TheVariants as command;

use ring_store::{Command, PasswordStore, Reply, StoreError, TokenError, TokenMaker};
use std::alloc::Allocator;
use std::num::NonZeroU32;

/// A store with one account, whose records stand in memory of `alloc`.
pub fn store_of_one<A: Allocator + Copy>(
    alloc: A,
    db_salt: [u8; 16],
    iterations: NonZeroU32,
    name: &[u8],
    password: &[u8],
) -> Result<PasswordStore<A>, StoreError>
    ensures ok { IfOk result (λ store. (admission name.now password.now ≡ Ok tt)
        × (store ≡ with_password (new_store db_salt iterations) name.now password.now)) }
    ensures refused { IfErr result (λ error. (admission name.now password.now ≡ Err error)
        ⊎ ((error ≡ StoreError.Memory) × (admission name.now password.now ≡ Ok tt))) }
{
    let mut store = PasswordStore::new_in(alloc, db_salt, iterations);
    store.set_password(name, password)?;
    Ok(store)
}

/// Whether a name has a record.
pub fn is_registered(store: &PasswordStore, name: &[u8]) -> bool
    ensures { IsTrue result ↔ (knows store.now name.now ≡ true) }
{
    store.iterations_of(name).is_some()
}

/// Sets the password of a name that has none, and answers whether it had none.
///
/// A name that has a record keeps it.
pub fn register(store: &mut PasswordStore, name: &[u8], password: &[u8]) -> Result<bool, StoreError>
    ensures known { knows store.old name.now ≡ true
        → (result ≡ Ok false) × (store.new ≡ store.old) }
    ensures ok { knows store.old name.now ≡ false → IfOk result (λ is_new. (is_new ≡ true)
        × (admission name.now password.now ≡ Ok tt)
        × (store.new ≡ with_password store.old name.now password.now)) }
    ensures refused { IfErr result (λ error. (admission name.now password.now ≡ Err error)
        ⊎ ((error ≡ StoreError.Memory) × (admission name.now password.now ≡ Ok tt))) }
    ensures unchanged { OnErr result (store.new ≡ store.old) }
{
    if is_registered(store, name) {
        return Ok(false);
    }
    store.set_password(name, password)?;
    Ok(true)
}

/// Asks for more iterations, and makes the record of one name with these.
pub fn strengthen<'a>(
    store: &mut PasswordStore,
    iterations: NonZeroU32,
    name: &'a [u8],
    password: &'a [u8],
) -> [Reply; 2]
    ensures { IsRun store.old
        (command.SetIterations iterations ∷ command.VerifyPassword name.entry password.entry ∷ [])
        result store.new }
{
    let mut replies = [Reply::Done; 2];
    let commands = [
        Command::SetIterations(iterations),
        Command::VerifyPassword(name, password),
    ];
    store.run(&commands, &mut replies);
    replies
}

/// Tests a token of a user and an expiry at the time `now`, under the key that is made of a master
/// secret and a salt.
pub fn passes(
    master: &[u8],
    salt: &[u8],
    user: &[u8],
    expiry: u64,
    now: u64,
    token: &[u8],
) -> Result<(), TokenError>
    ensures ok { IsErrOf result TokenError.TooLong ⊎ (result
        ≡ checked (token_key master.now salt.now) user.now expiry now token.now) }
    ensures too_long { IsErrOf result TokenError.TooLong ↔ ((max_input_len SHA256 < length salt.now)
        ⊎ (max_input_len SHA256 < tag_input_len SHA256 (length master.now))
        ⊎ (max_input_len SHA256 < token_input_len (length user.now))) }
{
    TokenMaker::new(master, salt)?.check(user, expiry, now, token)
}
