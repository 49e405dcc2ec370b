// SPDX-License-Identifier: ISC
//! The steps as the system takes them.

ghost use Rattle.std.specs.Prelude.{None};
ghost use Rattle.std.specs.Fs.{dir_entry_name};

use crate::failure::Failure;
use crate::file::{require_replaceable, text_in};
use crate::lock::lock_beside;
use crate::password::{MAX_PASSWORD_LEN, read_password};
use crate::regular;
use crate::steps::{Access, Steps};
use std::alloc::Global;
use std::fs::{DirEntry, File, Permissions, ReadDir, read_dir};
use std::io::{ErrorKind, Read, Write};
use std::os::unix::fs::{MetadataExt, PermissionsExt, fchown};
use std::random::RandomSource;
use std::rt::{Clock, Files};
use std::{fs, io};

/// The system.
#[derive(Drop)]
pub struct System<'a, R> {
    /// What reaches it.
    pub rt: &'a R,
}

impl<R> Steps for System<'_, R>
where
    R: Files<File = File> + AllocGlobal + Clock + Clone + Drop + Input + RandomSource,
{
    type File = File;

    type Lock = File;

    type Names = ReadDir<R, Global>;

    type Entry = DirEntry<R, Global>;

    ghost events = { λ _. None };

    ghost name = { dir_entry_name };

    fn open_folder(&mut self, path: &str) -> io::Result<File> {
        File::open(self.rt, path)
    }

    fn names(&mut self, folder: &str) -> io::Result<ReadDir<R, Global>> {
        read_dir(self.rt, folder)
    }

    fn next_name(
        &mut self,
        names: &mut ReadDir<R, Global>,
    ) -> Option<io::Result<DirEntry<R, Global>>> {
        names.next()
    }

    fn name_of<'a>(&self, entry: &'a DirEntry<R, Global>) -> &'a str {
        entry.file_name()
    }

    fn remove_unlocked(&mut self, entry: &DirEntry<R, Global>) -> io::Result<()> {
        let path = entry.path().as_str();
        let found = fs::symlink_metadata(self.rt, path)?;
        if !found.is_file() {
            return Ok(());
        }
        let file = regular::open_to_lock(self.rt, path)?;
        file.try_lock()?;
        if regular::is_same(&found, &file.metadata()?) {
            fs::remove_file(self.rt, path)?;
        }
        Ok(())
    }

    fn random(&mut self, bytes: &mut [u8]) -> io::Result<()> {
        self.rt.fill_bytes(bytes)
    }

    fn create(&mut self, path: &str) -> io::Result<File> {
        regular::create(self.rt, path)
    }

    fn lock(&mut self, file: &File) -> io::Result<()> {
        file.try_lock()?;
        Ok(())
    }

    fn set_mode(&mut self, file: &File, mode: u32) -> io::Result<()> {
        file.set_permissions(Permissions::from_mode(mode))
    }

    fn set_owner(&mut self, file: &File, user: Option<u32>, group: u32) -> io::Result<()> {
        fchown(file, user, Some(group))
    }

    fn write(&mut self, mut file: &File, bytes: &[u8]) -> io::Result<()> {
        file.write_all(bytes)
    }

    fn access(&mut self, path: &str) -> io::Result<Option<Access>> {
        match fs::symlink_metadata(self.rt, path) {
            Ok(old) if old.is_file() => Ok(Some(Access {
                user: old.uid(),
                group: old.gid(),
                mode: old.mode(),
            })),
            Err(error) if error.kind() != ErrorKind::NotFound => Err(error),
            _ => Ok(None),
        }
    }

    fn sync(&mut self, file: &File) -> io::Result<()> {
        file.sync_all()
    }

    fn rename(&mut self, _lock: &File, old: &str, new: &str) -> io::Result<()> {
        fs::rename(self.rt, old, new)
    }

    fn remove(&mut self, path: &str) -> io::Result<()> {
        fs::remove_file(self.rt, path)
    }

    fn password(&mut self) -> Result<Vec<u8>, Failure> {
        // A byte more shows that a line is too long.
        let mut reader = self.rt.reader().take(MAX_PASSWORD_LEN as u64 + 1);
        read_password(self.rt.alloc(), &mut reader)
    }

    fn read_store(&mut self, path: &str) -> Result<Vec<u8>, Failure> {
        text_in(self.rt, path)
    }

    fn look_for_links(&mut self, path: &str) -> Result<(), Failure> {
        require_replaceable(self.rt, path)
    }

    fn lock_store(&mut self, path: &str) -> Result<File, Failure> {
        lock_beside(self.rt, path)
    }

    fn read_to_replace(&mut self, path: &str) -> Result<Vec<u8>, Failure> {
        require_replaceable(self.rt, path)?;
        text_in(self.rt, path)
    }
}
