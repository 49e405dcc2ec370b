// SPDX-License-Identifier: ISC
//! The files in a directory and below it.

ghost use Rattle.std.specs.IoError.{error_kind};
ghost use Rattle.std.specs.Prelude.{◌≡◌, ◌↔◌, IfOk, IsTrue, List, OnOk, map, string_bytes};
ghost use Rattle.ring_sums.specs.Event.{Did, Event};
ghost use Rattle.ring_sums.specs.Tree.{AreNamesTaken, AreOperandsFound, Finds, IsFailed, IsFound};
ghost use Rattle.ring_sums.specs.Tree.{IsIdle, IsNamed, IsLookedAt, IsNameTaken, IsOfKind};
ghost use Rattle.ring_sums.specs.Tree.{IsOperandFound, IsRead, IsReadOn, IsTaken, IsTreeFound};
ghost use Rattle.ring_sums.specs.Tree.{Names, is_entry, is_output, names_of, output_of, with_slash};

use crate::console::Console;
use crate::steps::{Fault, Found, Identity, Kind, Steps};
use crate::system::System;
use ring_text::cut_at;
use std::alloc::{AllocError, Global};
use std::io;
use std::io::{Eprint, ErrorKind, Write};
use std::rt::Files;

/// How many bytes of a directory's names are asked for at once.
const NAMES_LEN: usize = 32_768;

/// What is between a directory's path and a name in it.
const SLASH: &str = "/";

/// The name of a directory in itself.
const ITSELF: &[u8] = b".";

/// The name of its parent in it.
const PARENT: &[u8] = b"..";

/// What is found of operands.
#[derive(Drop)]
pub(crate) struct Walk<S> {
    pub(crate) steps: S,
    alloc: Global,
    /// The file that standard output is.
    output: Option<Identity>,
    pub(crate) names: Vec<Vec<u8>>,
    /// The files in the directory that is walked, and below it.
    files: Vec<Vec<u8>>,
    /// The directories that are not read yet.
    waiting: Vec<String>,
    /// Whether all was read.
    pub(crate) is_whole: bool,
}

/// Whether a file is the one that standard output is.
fn is_output(output: Option<Identity>, identity: Identity) -> bool
    ensures { result ≡ is_output output identity }
{
    match output {
        Some(output) => output.device == identity.device && output.inode == identity.inode,
        None => false,
    }
}

/// Whether a name in a directory is of something in it.
fn is_entry(name: &[u8]) -> bool
    ensures { result ≡ is_entry name.now }
{
    !(name.is_empty() || name == ITSELF || name == PARENT)
}

/// Whether a call was interrupted before it did anything.
fn is_interruption(error: &io::Error) -> bool
    ensures { IsTrue result ↔ (error_kind error.now ≡ ErrorKind.Interrupted) }
{
    error.kind() == ErrorKind::Interrupted
}

/// The path of a directory with a slash at its end.
fn with_slash(alloc: Global, directory: &str) -> Result<String, AllocError>
    ensures { IfOk result (λ path. string_bytes path ≡ with_slash directory.now) }
{
    let mut path = String::from_str(alloc, directory)?;
    if !directory.as_bytes().ends_with(SLASH.as_bytes()) {
        path.push_str(SLASH)?;
    }
    Ok(path)
}

impl<S: Steps + Drop> Walk<S> {
    /// Tells why something could not be read.
    fn fail(&mut self, name: &[u8], error: &io::Error) -> Result<(), AllocError>
        ensures { OnOk result (Finds S.events self.old self.new (IsFailed name.now error.now)) }
    {
        self.is_whole = false;
        self.steps.tell_error(name, error)
    }

    /// Takes what a path in a directory is of.
    fn take(&mut self, path: &str) -> Result<(), AllocError>
        ensures { OnOk result (Finds S.events self.old self.new (IsTaken path.now)) }
    {
        let found = match self.steps.look(path) {
            Ok(found) => found,
            Err(error) => return self.fail(path.as_bytes(), &error),
        };
        match found.kind {
            Kind::Directory => self.waiting.push(String::from_str(self.alloc, path)?)?,
            Kind::Link => self.steps.tell(path.as_bytes(), Fault::Link)?,
            Kind::Other => self.steps.tell(path.as_bytes(), Fault::NotRegular)?,
            Kind::File => {
                if !is_output(self.output, found.identity) {
                    self.files.push(path.as_bytes().to_vec(self.alloc)?)?;
                }
            }
        }
        Ok(())
    }

    /// Takes what has this name in a directory, whose path ends with a slash.
    fn take_name(&mut self, directory: &str, name: &[u8]) -> Result<(), AllocError>
        ensures { OnOk result (Finds S.events self.old self.new
            (IsNameTaken directory.now name.now)) }
    {
        if !is_entry(name) {
            return Ok(());
        }
        let mut path = directory.as_bytes().to_vec(self.alloc)?;
        path.extend_from_slice(name)?;
        let Ok(text) = std::str::from_utf8(&path) else {
            self.is_whole = false;
            return self.steps.tell(&path, Fault::NotUtf8);
        };
        self.take(text)
    }

    /// Takes what has one of these names, of which a zero byte ends each.
    fn take_names(&mut self, directory: &str, names: &[u8]) -> Result<(), AllocError>
        ensures { OnOk result (Finds S.events self.old self.new
            (AreNamesTaken directory.now names.now)) }
    {
        let mut rest = names;
        'names: while let Some((name, behind)) = cut_at(rest, 0) {
            self.take_name(directory, name)?;
            rest = behind;
        }
        self.take_name(directory, rest)
    }

    /// Reads some names of a directory of this path and takes what has them, and says whether there
    /// may be more.
    fn read_some(
        &mut self,
        directory: &str,
        path: &str,
        names: &mut S::Names,
        room: &mut [u8],
    ) -> Result<bool, AllocError>
        ensures { IfOk result (λ goes_on. Finds S.events self.old self.new
            (IsReadOn goes_on directory.now path.now)) }
    {
        match self.steps.read(names, room) {
            Ok(0) => Ok(false),
            Ok(len) => {
                self.take_names(path, &room[..len])?;
                Ok(true)
            }
            Err(error) => {
                if is_interruption(&error) {
                    return Ok(true);
                }
                self.fail(directory.as_bytes(), &error)?;
                Ok(false)
            }
        }
    }

    /// Reads a directory.
    fn read(&mut self, directory: &str) -> Result<(), AllocError>
        ensures { OnOk result (Finds S.events self.old self.new (IsRead directory.now)) }
    {
        let slashed = with_slash(self.alloc, directory)?;
        let path = slashed.as_str();
        let mut names = match self.steps.open(path) {
            Ok(names) => names,
            Err(error) => return self.fail(directory.as_bytes(), &error),
        };
        let mut room = vec![in self.alloc; 0; NAMES_LEN]?;
        'reads: for _ in 0..u64::MAX {
            if !self.read_some(directory, path, &mut names, &mut room)? {
                return Ok(());
            }
        }
        Err(AllocError)
    }

    /// Appends the names of the files in a directory and below it, in the order of their bytes. A
    /// link that is found is not followed, and the file that standard output is is left out.
    fn append_tree(&mut self, directory: &str) -> Result<(), AllocError>
        requires { IsIdle self.old }
        ensures idle { OnOk result (IsIdle self.new) }
        ensures ok { OnOk result (Names S.events self.old self.new
            (IsTreeFound self.old.output directory.now)) }
    {
        self.waiting.push(String::from_str(self.alloc, directory)?)?;
        'directories: for _ in 0..u64::MAX {
            let Some(next) = self.waiting.pop() else {
                self.files.sort()?;
                return self.names.append(&mut self.files);
            };
            self.read(next.as_str())?;
        }
        Err(AllocError)
    }

    /// Appends a name.
    fn append_name(&mut self, name: &[u8]) -> Result<(), AllocError>
        requires { IsIdle self.old }
        ensures idle { OnOk result (IsIdle self.new) }
        ensures ok { OnOk result (Names S.events self.old self.new (IsNamed name.now)) }
    {
        self.names.push(name.to_vec(self.alloc)?)?;
        Ok(())
    }

    /// Appends the names of the files of an operand of which this is found: in place of a directory
    /// those of the files below it, and not the file that standard output is.
    fn append_found(&mut self, path: &str, found: Found) -> Result<(), AllocError>
        requires { IsIdle self.old }
        ensures idle { OnOk result (IsIdle self.new) }
        ensures ok { OnOk result (Names S.events self.old self.new
            (IsOfKind self.old.output path.now found.kind found.identity)) }
    {
        match found.kind {
            Kind::Directory => self.append_tree(path),
            _ if is_output(self.output, found.identity) => Ok(()),
            _ => self.append_name(path.as_bytes()),
        }
    }

    /// Appends the names of the files of an operand that is a path. One that cannot be looked at is
    /// left to its reader.
    fn append_path(&mut self, path: &str) -> Result<(), AllocError>
        requires { IsIdle self.old }
        ensures idle { OnOk result (IsIdle self.new) }
        ensures ok { OnOk result (Names S.events self.old self.new
            (IsLookedAt self.old.output path.now)) }
    {
        match self.steps.look_at_operand(path) {
            Ok(found) => self.append_found(path, found),
            Err(_) => self.append_name(path.as_bytes()),
        }
    }

    /// Appends the names of an operand's files.
    fn append_operand(&mut self, name: &[u8]) -> Result<(), AllocError>
        requires { IsIdle self.old }
        ensures idle { OnOk result (IsIdle self.new) }
        ensures ok { OnOk result (Names S.events self.old self.new
            (IsOperandFound self.old.output name.now)) }
    {
        match std::str::from_utf8(name) {
            Ok(path) => self.append_path(path),
            Err(_) => self.append_name(name),
        }
    }

    /// Appends the names of the operands' files.
    fn append_operands(&mut self, operands: &[&[u8]]) -> Result<(), AllocError>
        requires { IsIdle self.old }
        ensures idle { OnOk result (IsIdle self.new) }
        ensures ok { OnOk result (Names S.events self.old self.new
            (AreOperandsFound self.old.output (map (λ name. name.now) operands.now))) }
    {
        'operands: for name in operands {
            self.append_operand(*name)?;
        }
        Ok(())
    }
}

/// The file that standard output is, if it is a regular one.
fn output_of(found: io::Result<Found>) -> Option<Identity>
    ensures { result ≡ output_of found }
{
    match found {
        Ok(found) if matches!(found.kind, Kind::File) => Some(found.identity),
        _ => None,
    }
}

/// What is found of operands.
pub(crate) fn find<S: Steps + Drop>(
    alloc: Global,
    steps: S,
    operands: &[&[u8]],
) -> Result<Walk<S>, AllocError>
    ensures { IfOk result (λ walk. Did (S.events steps) (S.events walk.steps) (λ events.
        IsFound (map (λ name. name.now) operands.now) events (names_of walk) walk.is_whole)) }
{
    let mut steps = steps;
    let output = output_of(steps.look_at_output());
    let mut walk = Walk {
        steps,
        alloc,
        output,
        names: Vec::new(alloc),
        files: Vec::new(alloc),
        waiting: Vec::new(alloc),
        is_whole: true,
    };
    walk.append_operands(operands)?;
    Ok(walk)
}

/// The names of the operands' files, and whether all directories could be read.
pub(crate) fn files_of<'a, 'b, 'c, R: Files + AllocGlobal + Eprint, W: Write>(
    rt: &'a R,
    operands: &[&[u8]],
    console: &'b mut Console<'c, R, W>,
) -> Result<(Vec<Vec<u8>>, bool), AllocError>
    ensures { IfOk result (λ found. (events : List Event)
        × IsFound (map (λ name. name.now) operands.now) events (map (λ name. name.items)
        found.0.items) found.1) }
{
    let walk = find(rt.alloc(), System { rt, console }, operands)?;
    Ok((walk.names, walk.is_whole))
}
