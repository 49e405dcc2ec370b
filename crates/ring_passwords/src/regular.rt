// SPDX-License-Identifier: ISC
//! Regular files, opened without a symbolic link or a pipe in their place.

use std::fs::{File, Metadata, OpenOptions, Permissions};
use std::os::unix::fs::{MetadataExt, OpenOptionsExt, PermissionsExt};
use std::rt::Files;
use std::{fs, io};

/// The mode of a new file: its owner alone reads and writes it.
pub const OWNER_ONLY: u32 = 0o600;

/// Whether two looks found the same regular file.
pub fn is_same(one: &Metadata, other: &Metadata) -> bool {
    one.is_file() && other.is_file() && one.dev() == other.dev() && one.ino() == other.ino()
}

/// Makes a file, open to read and write. A file, a link or a pipe of this name is an error.
pub fn create<R: Files<File = File>>(rt: &R, path: &str) -> io::Result<File> {
    let mut options = OpenOptions::new();
    options.read(true).write(true).create_new(true);
    options.mode(OWNER_ONLY);
    options.open(rt, path)
}

/// Gives an open file the mode of a new one, whatever the mask of the process took from it.
pub fn make_private(file: &File) -> io::Result<()> {
    file.set_permissions(Permissions::from_mode(OWNER_ONLY))
}

/// Opens a file to read and write. Where a pipe has just taken its place, that does not wait for
/// another process, as a call that only reads or only writes would.
pub fn open_to_lock<R: Files<File = File>>(rt: &R, path: &str) -> io::Result<File> {
    let mut options = OpenOptions::new();
    options.read(true).write(true);
    options.open(rt, path)
}
