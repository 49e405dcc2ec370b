// SPDX-License-Identifier: ISC
//! The steps as the system and the console take them.

ghost use Rattle.std.specs.Prelude.{None};

use crate::console::Console;
use crate::steps::{Fault, Found, Identity, Kind, Steps};
use std::alloc::AllocError;
use std::fs::Metadata;
use std::io::{Eprint, Read, Write};
use std::os::unix::fs::MetadataExt;
use std::rt::Files;
use std::{fs, io};

/// The name by which a process finds its standard output.
const STANDARD_OUTPUT: &str = "/dev/fd/1";

/// The system, and the console.
#[derive(Drop)]
pub(crate) struct System<'a, 'b, 'c, R, W> {
    pub(crate) rt: &'a R,
    pub(crate) console: &'b mut Console<'c, R, W>,
}

fn kind_of(metadata: &Metadata) -> Kind {
    let kind = metadata.file_type();
    if kind.is_dir() {
        Kind::Directory
    } else if kind.is_symlink() {
        Kind::Link
    } else if kind.is_file() {
        Kind::File
    } else {
        Kind::Other
    }
}

fn found_in(metadata: &Metadata) -> Found {
    Found {
        kind: kind_of(metadata),
        identity: Identity {
            device: metadata.dev(),
            inode: metadata.ino(),
        },
    }
}

impl<R: Files + Eprint, W: Write> Steps for System<'_, '_, '_, R, W> {
    type Names = R::Dir;

    ghost events = { λ _. None };

    fn look_at_output(&mut self) -> io::Result<Found> {
        Ok(found_in(&fs::metadata(self.rt, STANDARD_OUTPUT)?))
    }

    fn look_at_operand(&mut self, path: &str) -> io::Result<Found> {
        Ok(found_in(&fs::metadata(self.rt, path)?))
    }

    fn look(&mut self, path: &str) -> io::Result<Found> {
        Ok(found_in(&fs::symlink_metadata(self.rt, path)?))
    }

    fn open(&mut self, path: &str) -> io::Result<R::Dir> {
        self.rt.open_dir(path)
    }

    fn read(&mut self, names: &mut R::Dir, room: &mut [u8]) -> io::Result<usize> {
        names.read(room)
    }

    fn tell(&mut self, path: &[u8], fault: Fault) -> Result<(), AllocError> {
        let text: &[u8] = match fault {
            Fault::Link => b"symbolic link not followed",
            Fault::NotRegular => b"not a regular file",
            Fault::NotUtf8 => b"the name is not UTF-8",
        };
        self.console.tell_of(path, text)
    }

    fn tell_error(&mut self, path: &[u8], error: &io::Error) -> Result<(), AllocError> {
        self.console.tell_error(path, error)
    }
}
