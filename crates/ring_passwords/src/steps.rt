// SPDX-License-Identifier: ISC
//! The steps that are taken with files, and the one that reads the password.

ghost use Rattle.std.specs.Prelude.{◌≡◌, ℕ, List, Option, IfErr, is_ok, length};
ghost use Rattle.std.specs.Result.{result_ok};
ghost use Rattle.ring_passwords.specs.Event.{Event, Notes, bytes_read, name_read};
ghost use Rattle.ring_passwords.specs.Event as event;
ghost use Rattle.ring_passwords.specs.Failure.{IsNoPassword, IsNotLocked, IsNotRead};
ghost use Rattle.ring_passwords.specs.Failure.{IsNotReplaceable, status_of};

use crate::failure::Failure;
use std::io;

/// Who owns a file, and its mode.
#[derive(Clone, Copy)]
pub struct Access {
    /// The user.
    pub user: u32,
    /// The group.
    pub group: u32,
    /// The mode, of which nine bits say who reads, writes and runs the file.
    pub mode: u32,
}

/// The steps that are taken with files, and the one that reads the password.
pub trait Steps {
    /// An open file, or an open folder.
    type File: Drop;

    /// The lock of a store's file, which dropping it unlocks.
    type Lock: Drop;

    /// The names in a folder, of which some are read.
    type Names: Drop;

    /// A name in a folder.
    type Entry: Drop;

    // what was done so far, the first first, where it is known
    ghost events: { Self → Option (List (Event Self.File)) };

    // the bytes of a name
    ghost name: { Self.Entry → List ℕ };

    /// Opens a folder.
    fn open_folder(&mut self, path: &str) -> io::Result<Self::File>
        ensures { Notes (events self.old) (events self.new)
            (event.OpenFolder path.now (result_ok result)) };

    /// The names in a folder.
    fn names(&mut self, folder: &str) -> io::Result<Self::Names>
        ensures { Notes (events self.old) (events self.new)
            (event.ListNames folder.now (is_ok result)) };

    /// The next of the names.
    fn next_name(&mut self, names: &mut Self::Names) -> Option<io::Result<Self::Entry>>
        ensures { Notes (events self.old) (events self.new)
            (event.NextName (name_read name result)) };

    /// The bytes of a name.
    fn name_of<'a>(&self, entry: &'a Self::Entry) -> &'a str
        ensures { result.now ≡ name entry.now };

    /// Removes a regular file that no process has locked.
    fn remove_unlocked(&mut self, entry: &Self::Entry) -> io::Result<()>
        ensures { Notes (events self.old) (events self.new)
            (event.RemoveUnlocked (name entry.now) (is_ok result)) };

    /// Overwrites all bytes with random ones.
    fn random(&mut self, bytes: &mut [u8]) -> io::Result<()>
        ensures { Notes (events self.old) (events self.new)
            (event.Random bytes.new (is_ok result)) };

    /// Makes a file, where nothing has its name.
    fn create(&mut self, path: &str) -> io::Result<Self::File>
        ensures { Notes (events self.old) (events self.new)
            (event.Create path.now (result_ok result)) };

    /// Locks a file that no process has locked.
    fn lock(&mut self, file: &Self::File) -> io::Result<()>
        ensures { Notes (events self.old) (events self.new)
            (event.Lock file.now (is_ok result)) };

    /// Gives a file a mode.
    fn set_mode(&mut self, file: &Self::File, mode: u32) -> io::Result<()>
        ensures { Notes (events self.old) (events self.new)
            (event.SetMode file.now mode (is_ok result)) };

    /// Gives a file a group, and an owner if there is one.
    fn set_owner(&mut self, file: &Self::File, user: Option<u32>, group: u32) -> io::Result<()>
        ensures { Notes (events self.old) (events self.new)
            (event.SetOwner file.now user group (is_ok result)) };

    /// Appends bytes to a file.
    fn write(&mut self, file: &Self::File, bytes: &[u8]) -> io::Result<()>
        ensures { Notes (events self.old) (events self.new)
            (event.Write file.now bytes.now (is_ok result)) };

    /// Who owns the regular file of this path, and its mode, if there is one.
    fn access(&mut self, path: &str) -> io::Result<Option<Access>>
        ensures { Notes (events self.old) (events self.new)
            (event.Look path.now (result_ok result)) };

    /// Waits until a file, or what a folder names, is on the disk.
    fn sync(&mut self, file: &Self::File) -> io::Result<()>
        ensures { Notes (events self.old) (events self.new)
            (event.Sync file.now (is_ok result)) };

    /// Gives a file another name, in the place of the store's file that has it and is locked.
    fn rename(&mut self, lock: &Self::Lock, old: &str, new: &str) -> io::Result<()>
        ensures { Notes (events self.old) (events self.new)
            (event.Rename old.now new.now (is_ok result)) };

    /// Removes a file.
    fn remove(&mut self, path: &str) -> io::Result<()>
        ensures { Notes (events self.old) (events self.new)
            (event.Remove path.now (is_ok result)) };

    /// Reads the password.
    fn password(&mut self) -> Result<Vec<u8>, Failure>
        ensures noted { Notes (events self.old) (events self.new)
            (event.ReadPassword (bytes_read result)) }
        ensures failure { IfErr result IsNoPassword };

    /// Reads the text of a store's file.
    fn read_store(&mut self, path: &str) -> Result<Vec<u8>, Failure>
        ensures noted { Notes (events self.old) (events self.new)
            (event.ReadStore path.now (bytes_read result)) }
        ensures failure { IfErr result IsNotRead }
        ensures status { IfErr result (λ failure. status_of failure ≡ 2) };

    /// Refuses a path that is not of a regular file, or whose file has another name that would keep
    /// the old text.
    fn look_for_links(&mut self, path: &str) -> Result<(), Failure>
        ensures noted { Notes (events self.old) (events self.new)
            (event.LookForLinks path.now result) }
        ensures failure { IfErr result IsNotReplaceable }
        ensures status { IfErr result (λ failure. status_of failure ≡ 2) };

    /// Locks a store's file, which need not be there.
    fn lock_store(&mut self, path: &str) -> Result<Self::Lock, Failure>
        ensures noted { Notes (events self.old) (events self.new)
            (event.LockStore path.now (is_ok result)) }
        ensures failure { IfErr result IsNotLocked };

    /// Reads the text of a store's file that has no other name.
    fn read_to_replace(&mut self, path: &str) -> Result<Vec<u8>, Failure>
        ensures noted { Notes (events self.old) (events self.new)
            (event.ReadToReplace path.now (bytes_read result)) }
        ensures failure { IfErr result IsNotReplaceable }
        ensures status { IfErr result (λ failure. status_of failure ≡ 2) };
}
