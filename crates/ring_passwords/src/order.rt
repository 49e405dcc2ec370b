// SPDX-License-Identifier: ISC
//! In which order a store's file and the password are read.

ghost use Rattle.std.specs.Prelude.{◌≡◌, ◌≢◌, ◌⊎◌, IfErr, IfOk, IsErrOf, OnOk, false, true};
ghost use Rattle.ring_store.specs.Store.{is_name};
ghost use Rattle.ring_passwords.specs.Event.{Did};
ghost use Rattle.ring_passwords.specs.Failure.{IsOfSystem, status_of};
ghost use Rattle.ring_passwords.specs.Order.{IsBegun, IsFirstLook, IsGone, IsLoaded, IsNotBegun};
ghost use Rattle.ring_passwords.specs.Order.{IsNotLooked, IsNotRemoved, IsNotSeen, IsNotSet};
ghost use Rattle.ring_passwords.specs.Order.{IsRemoved, IsRemovedUnsynced, IsSet, IsSetUnsynced};
ghost use Rattle.ring_passwords.specs.Order.{IsVerified};
ghost use Rattle.ring_passwords.specs.Replace.{IsKept};
ghost use Rattle.ring_passwords.specs.declared.failure.Step.TheVariants.{SyncFolder};

use crate::change;
use crate::change::is_made;
use crate::failure::Failure;
use crate::steps::Steps;
use crate::store_file::{LockedFile, load, locked};
use ring::cost::Meter;
use ring_store::PasswordStore;
use std::alloc::Global;
use std::num::NonZeroU32;

/// Refuses a name and a file for which no password can be right, before one is read.
fn look<S: Steps>(
    alloc: Global,
    steps: &mut S,
    path: &str,
    name: &[u8],
) -> Result<PasswordStore, Failure>
    ensures ok { IfOk result (λ store. Did (S.events steps.old) (S.events steps.new)
        (IsLoaded path.now store)) }
    ensures refused { IfErr result (λ failure. Did (S.events steps.old) (S.events steps.new)
        (IsNotSeen path.now failure)) }
    ensures bad_name { is_name name.now ≡ false → IsErrOf result Failure.BadName
        × (S.events steps.new ≡ S.events steps.old) }
    ensures status { IfErr result (λ failure. status_of failure ≡ 2) }
{
    change::require_name(name)?;
    load(alloc, steps, path)
}

/// Tests a name's password against a file, as it is once the password is read. `meter` counts the
/// blocks and the compared pairs of bytes: as many for a name without a record as for a record of
/// the store's iterations, and none where the password isn't tested.
pub fn verify_in_file<S: Steps>(
    alloc: Global,
    steps: &mut S,
    path: &str,
    name: &[u8],
    meter: &mut Meter,
) -> Result<(), Failure>
    ensures tested { Did (S.events steps.old) (S.events steps.new)
        (IsVerified Global path.now name.now meter.old meter.new result) }
    ensures bad_name { is_name name.now ≡ false → IsErrOf result Failure.BadName
        × (S.events steps.new ≡ S.events steps.old) }
    ensures status { IfErr result (λ failure. (status_of failure ≡ 2)
        ⊎ (failure ≡ Failure.WrongNameOrPassword)) }
{
    look(alloc, steps, path, name)?;
    let password = steps.password()?;
    let store = load(alloc, steps, path)?;
    change::verify(&store, name, &password, meter)
}

/// That a file is missing, if that is why it is not read; or else why.
fn missing_or(failure: Failure) -> Result<bool, Failure>
    ensures ok { IfOk result (λ missing. (missing ≡ true) × (failure ≡ Failure.NoFile)) }
    ensures refused { IfErr result (λ other. (other ≡ failure) × (failure ≢ Failure.NoFile)) }
{
    if is_made(true, &failure) {
        return Ok(true);
    }
    Err(failure)
}

/// Whether there is no file yet in which the name's password can be set.
fn is_missing<S: Steps>(
    alloc: Global,
    steps: &mut S,
    path: &str,
    name: &[u8],
) -> Result<bool, Failure>
    ensures ok { IfOk result (λ missing. Did (S.events steps.old) (S.events steps.new)
        (IsFirstLook path.now missing)) }
    ensures refused { IfErr result (λ failure. Did (S.events steps.old) (S.events steps.new)
        (IsNotLooked path.now failure)) }
    ensures bad_name { is_name name.now ≡ false → IsErrOf result Failure.BadName
        × (S.events steps.new ≡ S.events steps.old) }
    ensures status { IfErr result (λ failure. status_of failure ≡ 2) }
{
    match look(alloc, steps, path, name) {
        Ok(_store) => {
            steps.look_for_links(path)?;
            Ok(false)
        }
        Err(failure) => missing_or(failure),
    }
}

/// A password, and the locked store in which it is set.
#[derive(Drop)]
struct Begun<'a, L: Drop> {
    password: Vec<u8>,
    file: LockedFile<'a, L>,
    store: PasswordStore,
}

/// Looks at a file, which need not be there, reads the password, and then the store under its lock.
fn begin<'a, S: Steps>(
    alloc: Global,
    steps: &mut S,
    path: &'a str,
    name: &[u8],
    given: Option<NonZeroU32>,
) -> Result<Begun<'a, S::Lock>, Failure>
    ensures ok { IfOk result (λ begun. (begun.file.path.now ≡ path.now)
        × Did (S.events steps.old) (S.events steps.new)
        (IsBegun path.now given begun.password.items begun.store)) }
    ensures refused { IfErr result (λ failure. Did (S.events steps.old) (S.events steps.new)
        (IsNotBegun path.now failure)) }
    ensures bad_name { is_name name.now ≡ false → IsErrOf result Failure.BadName
        × (S.events steps.new ≡ S.events steps.old) }
    ensures status { IfErr result (λ failure. status_of failure ≡ 2) }
{
    let was_missing = is_missing(alloc, steps, path, name)?;
    let password = steps.password()?;
    let file = locked(steps, path)?;
    let store = file.take(alloc, steps, was_missing, given)?;
    Ok(Begun {
        password,
        file,
        store,
    })
}

/// Sets a name's password in a file, which need not be there, and gives the store's iterations. The
/// file that is replaced is the one that is read under the lock.
pub fn set_in_file<S: Steps>(
    alloc: Global,
    steps: &mut S,
    path: &str,
    name: &[u8],
    iterations: Option<NonZeroU32>,
) -> Result<NonZeroU32, Failure>
    ensures ok { IfOk result (λ count. Did (S.events steps.old) (S.events steps.new)
        (IsSet Global path.now name.now iterations count)) }
    ensures refused { IfErr result (λ failure. Did (S.events steps.old) (S.events steps.new)
        (IsNotSet Global path.now name.now iterations failure)) }
    ensures gone { IfErr result (λ failure. Did (S.events steps.old) (S.events steps.new)
        (IsGone path.now failure)) }
    ensures unchanged { IfErr result (λ failure. ¬ (IsOfSystem SyncFolder failure)
        → Did (S.events steps.old) (S.events steps.new) (IsKept path.now)) }
    ensures unsynced { IfErr result (λ failure. IsOfSystem SyncFolder failure
        → Did (S.events steps.old) (S.events steps.new)
        (IsSetUnsynced Global path.now name.now iterations)) }
    ensures bad_name { is_name name.now ≡ false → IsErrOf result Failure.BadName
        × (S.events steps.new ≡ S.events steps.old) }
    ensures status { IfErr result (λ failure. status_of failure ≡ 2) }
{
    let Begun {
        password,
        file,
        mut store,
    } = begin(alloc, steps, path, name, iterations)?;
    change::set(&mut store, name, &password, iterations, &mut Meter::new())?;
    file.replace(alloc, steps, &store)?;
    Ok(store.iterations())
}

/// Removes a name from a file. The file that is replaced is the one that is read under the lock.
pub fn remove_from_file<S: Steps>(
    alloc: Global,
    steps: &mut S,
    path: &str,
    name: &[u8],
) -> Result<(), Failure>
    ensures ok { OnOk result (Did (S.events steps.old) (S.events steps.new)
        (IsRemoved Global path.now name.now)) }
    ensures refused { IfErr result (λ failure. Did (S.events steps.old) (S.events steps.new)
        (IsNotRemoved Global path.now name.now failure)) }
    ensures unchanged { IfErr result (λ failure. ¬ (IsOfSystem SyncFolder failure)
        → Did (S.events steps.old) (S.events steps.new) (IsKept path.now)) }
    ensures unsynced { IfErr result (λ failure. IsOfSystem SyncFolder failure
        → Did (S.events steps.old) (S.events steps.new)
        (IsRemovedUnsynced Global path.now name.now)) }
    ensures status { IfErr result (λ failure. (status_of failure ≡ 2)
        ⊎ (failure ≡ Failure.NoSuchName)) }
{
    steps.look_for_links(path)?;
    let file = locked(steps, path)?;
    let mut store = file.take(alloc, steps, false, None)?;
    change::remove(&mut store, name)?;
    file.replace(alloc, steps, &store)
}
