// SPDX-License-Identifier: ISC
//! Puts a new file in the place of a store's file, step by step.

ghost use Rattle.std.specs.Prelude.{◌≡◌, IfErr, IfOk, OnErr, OnOk, false, string_bytes, true};
ghost use Rattle.ring_passwords.specs.Event.{Did, Notes, Sync};
ghost use Rattle.ring_passwords.specs.Failure.{IsOfSystem, status_of};
ghost use Rattle.ring_passwords.specs.Replace.{IsAccess, IsAccessGiven, IsMade, IsModeRefused};
ghost use Rattle.ring_passwords.specs.Replace.{IsNoAccess, IsNotMade, IsNotPut, IsNotReplaced};
ghost use Rattle.ring_passwords.specs.Replace.{IsOwnerGiven, IsPut, IsReplaced, granted};

use crate::failure::{Failure, Step};
use crate::folder::folder_of;
use crate::regular::OWNER_ONLY;
use crate::steps::{Access, Steps};
use crate::temporary::{RANDOM_LEN, remove_left_over, temporary_path};
use std::alloc::Global;
use std::io;

/// The bits of a mode that say who reads, writes and runs a file.
const PERMISSION_BITS: u32 = 0o777;

/// Puts a new file with this text in the place of a file, whose lock this is.
pub fn replace<S: Steps>(
    alloc: Global,
    steps: &mut S,
    lock: &S::Lock,
    path: &str,
    text: &[u8],
) -> Result<(), Failure>
    ensures ok { OnOk result (Did (S.events steps.old) (S.events steps.new)
        (IsReplaced path.now text.now true)) }
    ensures refused { IfErr result (λ failure. Did (S.events steps.old) (S.events steps.new)
        (IsNotReplaced path.now text.now failure)) }
    ensures status { IfErr result (λ failure. status_of failure ≡ 2) }
{
    let new = make_new(alloc, steps, path)?;
    match put(steps, lock, &new.file, new.path.as_str(), path, text) {
        Ok(()) => sync_folder(steps, &new.folder),
        Err(error) => {
            // The old file still stands, and nobody needs the new one.
            let _ = steps.remove(new.path.as_str());
            Err(not_replaced(error))
        }
    }
}

/// Waits until the names in a folder are on the disk.
fn sync_folder<S: Steps>(steps: &mut S, folder: &S::File) -> Result<(), Failure>
    ensures ok { OnOk result
        (Notes (S.events steps.old) (S.events steps.new) (Sync folder.now true)) }
    ensures refused { IfErr result (λ failure. IsOfSystem Step.SyncFolder failure
        × Notes (S.events steps.old) (S.events steps.new) (Sync folder.now false)) }
{
    match steps.sync(folder) {
        Ok(()) => Ok(()),
        Err(error) => Err(Failure::System(Step::SyncFolder, error)),
    }
}

/// The system refuses to put a new file in the place of the old one.
fn not_replaced(error: io::Error) -> Failure
    ensures { result ≡ Failure.System Step.Replace error }
{
    Failure::System(Step::Replace, error)
}

/// A step's result, where the system may refuse to put a new file in the place of the old one.
fn granted<T: Drop>(result_of_step: io::Result<T>) -> Result<T, Failure>
    ensures { result ≡ granted result_of_step }
{
    match result_of_step {
        Ok(value) => Ok(value),
        Err(error) => Err(not_replaced(error)),
    }
}

/// A new file beside the one that it is to replace.
#[derive(Drop)]
struct New<F: Drop> {
    folder: F,
    path: String,
    file: F,
}

/// Makes a new file beside a file.
fn make_new<S: Steps>(alloc: Global, steps: &mut S, path: &str) -> Result<New<S::File>, Failure>
    ensures ok { IfOk result (λ new. Did (S.events steps.old) (S.events steps.new)
        (IsMade path.now new.folder (string_bytes new.path) new.file)) }
    ensures refused { IfErr result (λ failure. Did (S.events steps.old) (S.events steps.new)
        (IsNotMade path.now failure)) }
{
    let folder_path = folder_of(path);
    let folder = granted(steps.open_folder(folder_path))?;
    remove_left_over(steps, folder_path, path);
    let mut random = [0; RANDOM_LEN];
    granted(steps.random(&mut random))?;
    let new_path = temporary_path(alloc, path, &random)?;
    let file = granted(steps.create(new_path.as_str()))?;
    Ok(New {
        folder,
        path: new_path,
        file,
    })
}

/// Writes a new file to disk, and gives it the name of the old one, whose lock this is.
fn put<S: Steps>(
    steps: &mut S,
    lock: &S::Lock,
    new: &S::File,
    new_path: &str,
    path: &str,
    text: &[u8],
) -> io::Result<()>
    ensures ok { OnOk result (Did (S.events steps.old) (S.events steps.new)
        (IsPut path.now new_path.now new.now text.now)) }
    ensures refused { OnErr result (Did (S.events steps.old) (S.events steps.new)
        (IsNotPut path.now new_path.now new.now text.now)) }
{
    // Until its end, or this process's, nobody takes it for one that an interrupted run left.
    steps.lock(new)?;
    steps.set_mode(new, OWNER_ONLY)?;
    steps.write(new, text)?;
    keep_access(steps, path, new)?;
    steps.sync(new)?;
    steps.rename(lock, new_path, path)
}

/// Gives a new file the owner, the group and the mode of the file that it replaces, if there is
/// one.
fn keep_access<S: Steps>(steps: &mut S, path: &str, new: &S::File) -> io::Result<()>
    ensures ok { OnOk result (Did (S.events steps.old) (S.events steps.new)
        (IsAccess path.now new.now)) }
    ensures refused { OnErr result (Did (S.events steps.old) (S.events steps.new)
        (IsNoAccess path.now new.now)) }
{
    match steps.access(path)? {
        Some(old) => give_access(steps, new, old),
        None => Ok(()),
    }
}

/// Gives a new file the owner, the group and the mode of an old one.
///
/// The system may refuse the owner or the group. Without the group the mode stays that of a new
/// file, so that no other group gets what the old one had.
fn give_access<S: Steps>(steps: &mut S, new: &S::File, old: Access) -> io::Result<()>
    ensures ok { OnOk result (Did (S.events steps.old) (S.events steps.new)
        (IsAccessGiven new.now old)) }
    ensures refused { OnErr result (Did (S.events steps.old) (S.events steps.new)
        (IsModeRefused new.now old)) }
{
    if !give_owner(steps, new, old) {
        return Ok(());
    }
    steps.set_mode(new, old.mode & PERMISSION_BITS)
}

/// Gives a new file the owner and the group of an old one, or the group alone, and says whether the
/// system grants that.
fn give_owner<S: Steps>(steps: &mut S, new: &S::File, old: Access) -> bool
    ensures { Did (S.events steps.old) (S.events steps.new) (IsOwnerGiven new.now old result) }
{
    if steps.set_owner(new, Some(old.user), old.group).is_ok() {
        return true;
    }
    steps.set_owner(new, None, old.group).is_ok()
}
