// SPDX-License-Identifier: ISC
//! The lock of a store's file: the empty file `.lock` beside it, so that the lock outlives each
//! file that is replaced.

ghost use Rattle.std.specs.Prelude.{◌≡◌, IfErr};
ghost use Rattle.ring_passwords.specs.Failure.{IsNotLocked, status_of};

use crate::failure::{Failure, Step};
use crate::folder::folder_of;
use crate::regular;
use std::fs::{File, Metadata, TryLockError};
use std::io::ErrorKind;
use std::os::unix::fs::MetadataExt;
use std::rt::{Clock, Files};
use std::time::Duration;
use std::{fs, io, thread};

/// How often a lock that another process holds is tried, and the pause after each try: a minute.
const TRIES: u32 = 3_000;

const PAUSE_MILLIS: u64 = 20;

/// Locks a store's file, which need not be there, by the file `.lock` beside it. Dropping the
/// result unlocks it.
pub fn lock_beside<R>(rt: &R, path: &str) -> Result<File, Failure>
where
    R: Files<File = File> + AllocGlobal + Clock,
    ensures failure { IfErr result IsNotLocked }
    ensures status { IfErr result (λ failure. status_of failure ≡ 2) }
{
    let lock_path = format!(in rt.alloc(); "{path}.lock")?;
    locked(rt, folder_of(path), lock_path.as_str())
}

/// Locks the file of this path, which is made where it is missing. Dropping the result unlocks it.
fn locked<R>(rt: &R, folder: &str, path: &str) -> Result<File, Failure>
where
    R: Files<File = File> + Clock,
    ensures failure { IfErr result IsNotLocked }
    ensures status { IfErr result (λ failure. status_of failure ≡ 2) }
{
    let lock = open(rt, path)?;
    acquire(rt, &lock)?;
    require_lock(rt, folder, path, &lock)?;
    Ok(lock)
}

/// Opens the lock, or makes it.
fn open<R: Files<File = File>>(rt: &R, path: &str) -> Result<File, Failure>
    ensures failure { IfErr result IsNotLocked }
    ensures status { IfErr result (λ failure. status_of failure ≡ 2) }
{
    match regular::create(rt, path) {
        Ok(lock) => {
            regular::make_private(&lock).map_err(refused)?;
            Ok(lock)
        }
        Err(error) if error.kind() == ErrorKind::AlreadyExists => open_old(rt, path),
        Err(error) => Err(refused(error)),
    }
}

/// Opens a lock that is there.
fn open_old<R: Files<File = File>>(rt: &R, path: &str) -> Result<File, Failure>
    ensures failure { IfErr result IsNotLocked }
    ensures status { IfErr result (λ failure. status_of failure ≡ 2) }
{
    let found = fs::symlink_metadata(rt, path).map_err(refused)?;
    if !found.is_file() {
        return Err(Failure::BadLock);
    }
    regular::open_to_lock(rt, path).map_err(refused)
}

/// The system refuses a step with the lock.
fn refused(error: io::Error) -> Failure
    ensures failure { result ≡ Failure.System Step.Lock error }
    ensures status { status_of result ≡ 2 }
{
    Failure::System(Step::Lock, error)
}

/// Locks an open file, once the process that holds it lets go.
fn acquire(rt: &impl Clock, lock: &File) -> Result<(), Failure>
    ensures failure { IfErr result IsNotLocked }
    ensures status { IfErr result (λ failure. status_of failure ≡ 2) }
{
    for _ in 0..TRIES {
        match lock.try_lock() {
            Ok(()) => return Ok(()),
            Err(TryLockError::WouldBlock) => thread::sleep(rt, Duration::from_millis(PAUSE_MILLIS)),
            Err(TryLockError::Error(error)) => return Err(refused(error)),
        }
    }
    Err(Failure::InUse)
}

/// Refuses a lock that is no longer the file of this path, or that another user could replace.
fn require_lock<R: Files>(rt: &R, folder: &str, path: &str, lock: &File) -> Result<(), Failure>
    ensures failure { IfErr result IsNotLocked }
    ensures status { IfErr result (λ failure. status_of failure ≡ 2) }
{
    let found = fs::symlink_metadata(rt, path).map_err(refused)?;
    let held = lock.metadata().map_err(refused)?;
    let folder = fs::metadata(rt, folder).map_err(refused)?;
    let is_lock = regular::is_same(&found, &held) && held.len() == 0;
    if !is_lock || !is_ours(rt, &held, &folder).map_err(refused)? {
        return Err(Failure::BadLock);
    }
    Ok(())
}

/// Whether a file is of whoever owns its folder, or of this process's user.
fn is_ours<R: Files>(rt: &R, file: &Metadata, folder: &Metadata) -> io::Result<bool> {
    if file.uid() == folder.uid() {
        return Ok(true);
    }
    let process = fs::metadata(rt, "/proc/self")?;
    Ok(file.uid() == process.uid())
}
