// SPDX-License-Identifier: ISC
//! The steps as a folder in memory takes them, each written down.

ghost use Rattle.std.specs.Prelude.{◌≡◌, ℕ, Err, None, Ok, Some, is_ok, map, string_bytes};
ghost use Rattle.ring_passwords.specs.Event.{Event, Notes, bytes_read};
ghost use Rattle.ring_passwords.specs.Event as event;
ghost use Rattle.ring_passwords.specs.Failure.{IsNotRead};
ghost use Rattle.ring_passwords.specs.declared.disk.Note.TheVariants as note;

use crate::failure::Failure;
use crate::memory::{Absence, Folder};
use crate::steps::{Access, Steps};
use std::io;
use std::process::Abort;

/// A step that was taken: what it was given, and what came of it.
#[derive(Drop)]
enum Note {
    OpenFolder(Vec<u8>, Option<u32>),
    ListNames(Vec<u8>, bool),
    NextName(Vec<u8>),
    BadName,
    NoName,
    RemoveUnlocked(Vec<u8>, bool),
    Random(Vec<u8>, bool),
    Create(Vec<u8>, Option<u32>),
    Lock(u32, bool),
    SetMode(u32, u32, bool),
    SetOwner(u32, Option<u32>, u32, bool),
    Write(u32, Vec<u8>, bool),
    Look(Vec<u8>, Option<Option<Access>>),
    Sync(u32, bool),
    Rename(Vec<u8>, Vec<u8>, bool),
    Remove(Vec<u8>, bool),
    ReadPassword(Result<Vec<u8>, Failure>),
    ReadStore(Vec<u8>, Result<Vec<u8>, Failure>),
    LookForLinks(Vec<u8>, Result<(), Failure>),
    LockStore(Vec<u8>, bool),
    ReadToReplace(Vec<u8>, Result<Vec<u8>, Failure>),
}

/// What tells of a step.
trait Tells {
    ghost event: { Self → Event ℕ };
}

impl Tells for Note {
    ghost event = { elim [
      | note.OpenFolder path folder ↦ event.OpenFolder path.items folder
      | note.ListNames folder done ↦ event.ListNames folder.items done
      | note.NextName name ↦ event.NextName (Some (Some name.items))
      | note.BadName ↦ event.NextName (Some None)
      | note.NoName ↦ event.NextName None
      | note.RemoveUnlocked name done ↦ event.RemoveUnlocked name.items done
      | note.Random bytes done ↦ event.Random bytes.items done
      | note.Create path file ↦ event.Create path.items file
      | note.Lock file done ↦ event.Lock file done
      | note.SetMode file mode done ↦ event.SetMode file mode done
      | note.SetOwner file user group done ↦ event.SetOwner file user group done
      | note.Write file bytes done ↦ event.Write file bytes.items done
      | note.Look path found ↦ event.Look path.items found
      | note.Sync file done ↦ event.Sync file done
      | note.Rename from to done ↦ event.Rename from.items to.items done
      | note.Remove path done ↦ event.Remove path.items done
      | note.ReadPassword password ↦ event.ReadPassword (bytes_read password)
      | note.ReadStore path text ↦ event.ReadStore path.items (bytes_read text)
      | note.LookForLinks path single ↦ event.LookForLinks path.items single
      | note.LockStore path done ↦ event.LockStore path.items done
      | note.ReadToReplace path text ↦ event.ReadToReplace path.items (bytes_read text)
    ] };
}

/// A folder in memory, and the steps that were taken with it.
#[derive(Drop)]
pub struct Disk<'a, R> {
    rt: &'a R,
    folder: Folder,
    notes: Vec<Note>,
}

/// A step's result.
fn told(done: bool) -> io::Result<()>
    ensures { is_ok result ≡ done }
{
    if done {
        Ok(())
    } else {
        Err(io::Error::from(io::ErrorKind::Other))
    }
}

/// Why a file is not read.
fn refusal(absence: Absence) -> Failure
    ensures missing { absence ≡ Absence.Missing → result ≡ Failure.NoFile }
    ensures refused { absence ≡ Absence.Refused → result ≡ Failure.NotAFile }
    ensures failure { IsNotRead result }
{
    match absence {
        Absence::Missing => Failure::NoFile,
        Absence::Refused => Failure::NotAFile,
    }
}

/// A copy of some bytes.
fn copy<R: Abort + AllocGlobal>(rt: &R, bytes: &[u8]) -> Vec<u8>
    ensures { result.items ≡ bytes.now }
{
    bytes.to_vec(rt.alloc()).expect(rt, "no memory")
}

impl<'a, R: Abort + AllocGlobal> Disk<'a, R> {
    /// A folder with which no step was taken.
    pub fn new(rt: &'a R, folder: Folder) -> Disk<'a, R> {
        let notes = Vec::new(rt.alloc());
        Disk { rt, folder, notes }
    }

    /// The folder, once the last step is taken.
    pub fn into_folder(self) -> Folder {
        self.folder
    }

    /// Writes down a step.
    fn note(&mut self, step: Note)
        ensures { Notes (Some (map ⟦<Note as Tells>⟧.event self.old.notes.items))
            (Some (map ⟦<Note as Tells>⟧.event self.new.notes.items))
            (⟦<Note as Tells>⟧.event step) }
    {
        self.folder.look();
        self.notes.push(step).expect(self.rt, "no memory");
    }
}

impl<R: Abort + AllocGlobal> Steps for Disk<'_, R> {
    type File = u32;

    type Lock = u32;

    type Names = Vec<String>;

    type Entry = String;

    ghost events = { λ disk. Some (map ⟦<Note as Tells>⟧.event disk.notes.items) };

    ghost name = { string_bytes };

    fn open_folder(&mut self, path: &str) -> io::Result<u32> {
        let folder = self.folder.open(path);
        let path = copy(self.rt, path.as_bytes());
        self.note(Note::OpenFolder(path, folder));
        folder.ok_or(io::Error::from(io::ErrorKind::Other))
    }

    fn names(&mut self, folder: &str) -> io::Result<Vec<String>> {
        let names = self.folder.names(self.rt.alloc());
        let folder = copy(self.rt, folder.as_bytes());
        self.note(Note::ListNames(folder, names.is_ok()));
        names
    }

    fn next_name(&mut self, names: &mut Vec<String>) -> Option<io::Result<String>> {
        match self.folder.next_name(names) {
            Some(Ok(name)) => {
                let noted = copy(self.rt, name.as_bytes());
                self.note(Note::NextName(noted));
                Some(Ok(name))
            }
            Some(Err(error)) => {
                self.note(Note::BadName);
                Some(Err(error))
            }
            None => {
                self.note(Note::NoName);
                None
            }
        }
    }

    fn name_of<'a>(&self, entry: &'a String) -> &'a str {
        entry.as_str()
    }

    fn remove_unlocked(&mut self, entry: &String) -> io::Result<()> {
        let done = self.folder.remove_unlocked(entry.as_str());
        let name = copy(self.rt, entry.as_bytes());
        self.note(Note::RemoveUnlocked(name, done));
        told(done)
    }

    fn random(&mut self, bytes: &mut [u8]) -> io::Result<()> {
        let done = self.folder.random(bytes);
        let drawn = copy(self.rt, bytes);
        self.note(Note::Random(drawn, done));
        told(done)
    }

    fn create(&mut self, path: &str) -> io::Result<u32> {
        let file = self.folder.create(self.rt.alloc(), path);
        let path = copy(self.rt, path.as_bytes());
        self.note(Note::Create(path, file));
        file.ok_or(io::Error::from(io::ErrorKind::Other))
    }

    fn lock(&mut self, file: &u32) -> io::Result<()> {
        let done = self.folder.lock(*file);
        self.note(Note::Lock(*file, done));
        told(done)
    }

    fn set_mode(&mut self, file: &u32, mode: u32) -> io::Result<()> {
        let done = self.folder.set_mode(*file, mode);
        self.note(Note::SetMode(*file, mode, done));
        told(done)
    }

    fn set_owner(&mut self, file: &u32, user: Option<u32>, group: u32) -> io::Result<()> {
        let done = self.folder.set_owner(*file, user, group);
        self.note(Note::SetOwner(*file, user, group, done));
        told(done)
    }

    fn write(&mut self, file: &u32, bytes: &[u8]) -> io::Result<()> {
        let done = self.folder.write(*file, bytes);
        let written = copy(self.rt, bytes);
        self.note(Note::Write(*file, written, done));
        told(done)
    }

    fn access(&mut self, path: &str) -> io::Result<Option<Access>> {
        let found = self.folder.access(path);
        let path = copy(self.rt, path.as_bytes());
        self.note(Note::Look(path, found));
        found.ok_or(io::Error::from(io::ErrorKind::Other))
    }

    fn sync(&mut self, file: &u32) -> io::Result<()> {
        let done = self.folder.sync(*file);
        self.note(Note::Sync(*file, done));
        told(done)
    }

    fn rename(&mut self, _lock: &u32, old: &str, new: &str) -> io::Result<()> {
        let done = self.folder.rename(self.rt.alloc(), old, new);
        let old = copy(self.rt, old.as_bytes());
        let new = copy(self.rt, new.as_bytes());
        self.note(Note::Rename(old, new, done));
        told(done)
    }

    fn remove(&mut self, path: &str) -> io::Result<()> {
        let done = self.folder.remove(path);
        let path = copy(self.rt, path.as_bytes());
        self.note(Note::Remove(path, done));
        told(done)
    }

    fn password(&mut self) -> Result<Vec<u8>, Failure> {
        if let Some(password) = self.folder.password(self.rt.alloc()) {
            let noted = copy(self.rt, &password);
            self.note(Note::ReadPassword(Ok(noted)));
            return Ok(password);
        }
        self.note(Note::ReadPassword(Err(Failure::NoPassword)));
        Err(Failure::NoPassword)
    }

    fn read_store(&mut self, path: &str) -> Result<Vec<u8>, Failure> {
        let found = self.folder.text("read_store", self.rt.alloc(), path);
        let path = copy(self.rt, path.as_bytes());
        match found {
            Ok(text) => {
                let noted = copy(self.rt, &text);
                self.note(Note::ReadStore(path, Ok(noted)));
                Ok(text)
            }
            Err(absence) => {
                self.note(Note::ReadStore(path, Err(refusal(absence))));
                Err(refusal(absence))
            }
        }
    }

    fn look_for_links(&mut self, path: &str) -> Result<(), Failure> {
        let found = self.folder.look_for_links(path);
        let path = copy(self.rt, path.as_bytes());
        match found {
            Ok(()) => {
                self.note(Note::LookForLinks(path, Ok(())));
                Ok(())
            }
            Err(absence) => {
                self.note(Note::LookForLinks(path, Err(refusal(absence))));
                Err(refusal(absence))
            }
        }
    }

    fn lock_store(&mut self, path: &str) -> Result<u32, Failure> {
        let done = self.folder.lock_store();
        let path = copy(self.rt, path.as_bytes());
        self.note(Note::LockStore(path, done));
        if done { Ok(0) } else { Err(Failure::InUse) }
    }

    fn read_to_replace(&mut self, path: &str) -> Result<Vec<u8>, Failure> {
        let found = self.folder.text("read_to_replace", self.rt.alloc(), path);
        let path = copy(self.rt, path.as_bytes());
        match found {
            Ok(text) => {
                let noted = copy(self.rt, &text);
                self.note(Note::ReadToReplace(path, Ok(noted)));
                Ok(text)
            }
            Err(absence) => {
                self.note(Note::ReadToReplace(path, Err(refusal(absence))));
                Err(refusal(absence))
            }
        }
    }
}
