// SPDX-License-Identifier: ISC
//! A folder in memory, of which chosen steps fail.

use crate::steps::Access;
use std::alloc::{AllocError, Global};
use std::{io, mem};

/// The path of the store's file.
pub const STORE: &str = "users";

/// The text of the old file, and that of the new one.
pub const OLD: &[u8] = b"the old text\n";

pub const NEW: &[u8] = b"the text that takes its place\n";

/// The password that is typed.
pub const TYPED: &[u8] = b"the password that is typed";

/// The number of the folder among those of the files.
const FOLDER: u32 = u32::MAX;

/// What a file has.
#[derive(Drop)]
pub struct Content {
    pub bytes: Vec<u8>,
    pub access: Access,
    /// Whether its bytes are on the disk.
    pub is_synced: bool,
    pub is_locked: bool,
}

/// Why a file is not read.
#[derive(Clone, Copy, PartialEq)]
pub enum Absence {
    /// There is none.
    Missing,
    /// The step fails.
    Refused,
}

/// What other processes do to the store's file while the password is read.
#[derive(Drop)]
pub enum Meanwhile {
    Nothing,
    /// They remove it.
    Removed,
    /// They put another in its place.
    Replaced(Content),
}

/// A name, and the file that has it.
#[derive(Drop)]
struct Name {
    name: String,
    file: u32,
}

/// A folder.
#[derive(Drop)]
pub struct Folder {
    files: Vec<Content>,
    names: Vec<Name>,
    /// Whether its names are on the disk.
    pub is_synced: bool,
    /// Whether the store's file had the old text or the new one, on the disk, after each step.
    pub is_whole: bool,
    /// How many steps were taken.
    pub steps: usize,
    first_bad: usize,
    last_bad: usize,
    /// The first step that failed.
    pub failed: Option<&'static str>,
    /// What happens while the password is read.
    pub meanwhile: Meanwhile,
}

impl Folder {
    /// An empty folder, with which the steps from the first bad one to the last fail.
    pub fn new(alloc: Global, first_bad: usize, last_bad: usize) -> Folder {
        Folder {
            files: Vec::new(alloc),
            names: Vec::new(alloc),
            is_synced: true,
            is_whole: true,
            steps: 0,
            first_bad,
            last_bad,
            failed: None,
            meanwhile: Meanwhile::Nothing,
        }
    }

    /// Puts a file into the folder, and gives its number.
    pub fn put(&mut self, alloc: Global, name: &str, file: Content) -> Result<u32, AllocError> {
        let number = u32::try_from(self.files.len()).unwrap_or(FOLDER);
        let name = String::from_str(alloc, name)?;
        self.files.push(file)?;
        self.names.push(Name { name, file: number })?;
        Ok(number)
    }

    /// The file of a name.
    pub fn file(&self, name: &str) -> Option<&Content> {
        self.files.get(self.number(name)? as usize)
    }

    /// How many names there are.
    pub fn len(&self) -> usize {
        self.names.len()
    }

    fn number(&self, name: &str) -> Option<u32> {
        for it in &self.names {
            if it.name.as_str() == name {
                return Some(it.file);
            }
        }
        None
    }

    fn forget(&mut self, name: &str) {
        self.names.retain(|it| it.name.as_str() != name);
        self.is_synced = false;
    }

    /// Looks whether the store's file is whole.
    pub fn look(&mut self) {
        let is_whole = match self.file(STORE) {
            Some(file) => {
                let text = file.bytes.as_slice();
                file.is_synced && (text == OLD || text == NEW)
            }
            None => false,
        };
        self.is_whole = self.is_whole && is_whole;
    }

    /// Whether the next step fails.
    fn fails(&mut self, step: &'static str) -> bool {
        self.steps = self.steps.saturating_add(1);
        let fails = self.first_bad <= self.steps && self.steps <= self.last_bad;
        if fails && self.failed.is_none() {
            self.failed = Some(step);
        }
        fails
    }

    pub fn open(&mut self, path: &str) -> Option<u32> {
        if self.fails("open_folder") || path != "." {
            return None;
        }
        Some(FOLDER)
    }

    pub fn names(&mut self, alloc: Global) -> io::Result<Vec<String>> {
        if self.fails("names") {
            return Err(io::Error::from(io::ErrorKind::Other));
        }
        let mut names = Vec::new(alloc);
        for it in &self.names {
            names.push(String::from_str(alloc, it.name.as_str())?)?;
        }
        Ok(names)
    }

    /// Where this fails, the names end, as those of the system do.
    pub fn next_name(&mut self, names: &mut Vec<String>) -> Option<io::Result<String>> {
        let name = names.pop()?;
        if self.fails("next_name") {
            names.clear();
            return Some(Err(io::Error::from(io::ErrorKind::Other)));
        }
        Some(Ok(name))
    }

    pub fn remove_unlocked(&mut self, name: &str) -> bool {
        if self.fails("remove_unlocked") {
            return false;
        }
        match self.file(name) {
            Some(file) if !file.is_locked => {}
            _ => return false,
        }
        self.forget(name);
        true
    }

    pub fn random(&mut self, bytes: &mut [u8]) -> bool {
        if self.fails("random") {
            return false;
        }
        bytes.fill(0x5a);
        true
    }

    pub fn create(&mut self, alloc: Global, path: &str) -> Option<u32> {
        if self.fails("create") || self.number(path).is_some() {
            return None;
        }
        self.is_synced = false;
        let file = Content {
            bytes: Vec::new(alloc),
            access: Access {
                user: 1,
                group: 1,
                mode: 0o100_400,
            },
            is_synced: false,
            is_locked: false,
        };
        self.put(alloc, path, file).ok()
    }

    pub fn lock(&mut self, file: u32) -> bool {
        if self.fails("lock") {
            return false;
        }
        match self.files.get_mut(file as usize) {
            Some(file) if !file.is_locked => {
                file.is_locked = true;
                true
            }
            _ => false,
        }
    }

    pub fn set_mode(&mut self, file: u32, mode: u32) -> bool {
        if self.fails("set_mode") {
            return false;
        }
        let Some(file) = self.files.get_mut(file as usize) else {
            return false;
        };
        file.access.mode = 0o100_000 | mode;
        true
    }

    pub fn set_owner(&mut self, file: u32, user: Option<u32>, group: u32) -> bool {
        if self.fails("set_owner") {
            return false;
        }
        let Some(file) = self.files.get_mut(file as usize) else {
            return false;
        };
        file.access.user = user.unwrap_or(file.access.user);
        file.access.group = group;
        true
    }

    /// A write that fails leaves the first byte.
    pub fn write(&mut self, file: u32, bytes: &[u8]) -> bool {
        let fails = self.fails("write");
        let Some(file) = self.files.get_mut(file as usize) else {
            return false;
        };
        file.is_synced = false;
        let count = if fails {
            bytes.len().min(1)
        } else {
            bytes.len()
        };
        file.bytes.extend_from_slice(&bytes[..count]).is_ok() && !fails
    }

    pub fn access(&mut self, path: &str) -> Option<Option<Access>> {
        if self.fails("access") {
            return None;
        }
        Some(self.file(path).map(|file| file.access))
    }

    pub fn sync(&mut self, file: u32) -> bool {
        if file == FOLDER {
            let fails = self.fails("sync_folder");
            self.is_synced = !fails;
            return !fails;
        }
        if self.fails("sync") {
            return false;
        }
        let Some(file) = self.files.get_mut(file as usize) else {
            return false;
        };
        file.is_synced = true;
        true
    }

    pub fn rename(&mut self, alloc: Global, old: &str, new: &str) -> bool {
        if self.fails("rename") {
            return false;
        }
        let Some(file) = self.number(old) else {
            return false;
        };
        let Ok(name) = String::from_str(alloc, new) else {
            return false;
        };
        self.forget(new);
        self.forget(old);
        self.names.push(Name { name, file }).is_ok()
    }

    pub fn remove(&mut self, path: &str) -> bool {
        if self.fails("remove") || self.number(path).is_none() {
            return false;
        }
        self.forget(path);
        true
    }

    pub fn password(&mut self, alloc: Global) -> Option<Vec<u8>> {
        if self.fails("password") {
            return None;
        }
        match mem::replace(&mut self.meanwhile, Meanwhile::Nothing) {
            Meanwhile::Nothing => {}
            Meanwhile::Removed => self.forget(STORE),
            Meanwhile::Replaced(file) => {
                self.forget(STORE);
                self.put(alloc, STORE, file).ok()?;
            }
        }
        TYPED.to_vec(alloc).ok()
    }

    pub fn text(
        &mut self,
        step: &'static str,
        alloc: Global,
        path: &str,
    ) -> Result<Vec<u8>, Absence> {
        if self.fails(step) {
            return Err(Absence::Refused);
        }
        match self.file(path) {
            Some(file) => file.bytes.to_vec(alloc).or(Err(Absence::Refused)),
            None => Err(Absence::Missing),
        }
    }

    pub fn look_for_links(&mut self, path: &str) -> Result<(), Absence> {
        if self.fails("look_for_links") {
            return Err(Absence::Refused);
        }
        match self.number(path) {
            Some(_) => Ok(()),
            None => Err(Absence::Missing),
        }
    }

    pub fn lock_store(&mut self) -> bool {
        !self.fails("lock_store")
    }
}
