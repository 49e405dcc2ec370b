// SPDX-License-Identifier: ISC
//! The file of a store, as the system reads it: whole.

ghost use Rattle.std.specs.Prelude.{◌≡◌, IfErr, IfOk};
ghost use Rattle.ring_store_text.specs.Text.{IsStore};
ghost use Rattle.ring_passwords.specs.Failure.{IsNotRead, IsNotReplaceable, status_of};

use crate::change::{MARK, begins_store, store_in};
use crate::failure::{Failure, Step};
use crate::folder::folder_of;
use crate::regular;
use crate::temporary::is_temporary;
use ring_store::PasswordStore;
use std::fs::{File, Metadata};
use std::io::{ErrorKind, Read};
use std::os::unix::fs::MetadataExt;
use std::rt::Files;
use std::{fs, io};

/// How often a file is looked at that other processes replace meanwhile.
const LOOKS: usize = 1_000;

/// The store that stands in a file.
pub fn load<R: Files<File = File> + AllocGlobal>(
    rt: &R,
    path: &str,
) -> Result<PasswordStore, Failure>
    ensures ok { IfOk result (λ store. IsStore store) }
    ensures status { IfErr result (λ failure. status_of failure ≡ 2) }
{
    let text = text_in(rt, path)?;
    store_in(rt.alloc(), &text)
}

/// The text that stands in a file, which begins as a store's.
pub fn text_in<R: Files<File = File> + AllocGlobal>(rt: &R, path: &str) -> Result<Vec<u8>, Failure>
    ensures failure { IfErr result IsNotRead }
    ensures status { IfErr result (λ failure. status_of failure ≡ 2) }
{
    let file = opened(rt, path)?;
    read(rt, file)
}

/// Refuses a path that is not of a regular file, or whose file has another name that would keep the
/// old text.
pub fn require_replaceable<R: Files>(rt: &R, path: &str) -> Result<(), Failure>
    ensures failure { IfErr result IsNotReplaceable }
    ensures status { IfErr result (λ failure. status_of failure ≡ 2) }
{
    let found = regular_at(rt, path)?;
    if found.nlink() > 1 {
        return Err(Failure::Linked);
    }
    Ok(())
}

/// What the system tells of a regular file that can be a store's. A symbolic link is none.
fn regular_at<R: Files>(rt: &R, path: &str) -> Result<Metadata, Failure>
    ensures failure { IfErr result IsNotRead }
    ensures status { IfErr result (λ failure. status_of failure ≡ 2) }
{
    if is_temporary(path) {
        return Err(Failure::Temporary);
    }
    match fs::symlink_metadata(rt, path) {
        Ok(metadata) if metadata.is_file() => Ok(metadata),
        Ok(_) => Err(Failure::NotAFile),
        Err(error) if error.kind() == ErrorKind::NotFound => Err(missing(rt, path)),
        Err(error) => Err(unread(error)),
    }
}

/// The system refuses to read the file.
fn unread(error: io::Error) -> Failure
    ensures failure { result ≡ Failure.System Step.ReadFile error }
    ensures status { status_of result ≡ 2 }
{
    Failure::System(Step::ReadFile, error)
}

/// A regular file, open. Another process may replace it between the look and the open: it is then
/// looked at again.
fn opened<R: Files<File = File>>(rt: &R, path: &str) -> Result<File, Failure>
    ensures failure { IfErr result IsNotRead }
    ensures status { IfErr result (λ failure. status_of failure ≡ 2) }
{
    'looks: for _ in 0..LOOKS {
        let found = regular_at(rt, path)?;
        let file = File::open(rt, path).map_err(unread)?;
        let metadata = file.metadata().map_err(unread)?;
        if regular::is_same(&found, &metadata) {
            return Ok(file);
        }
    }
    Err(Failure::NotAFile)
}

/// The bytes of a file.
fn read<R: AllocGlobal>(rt: &R, file: File) -> Result<Vec<u8>, Failure>
    ensures failure { IfErr result IsNotRead }
    ensures status { IfErr result (λ failure. status_of failure ≡ 2) }
{
    let mut file = file;
    let mut text = Vec::new(rt.alloc());
    (&file)
        .take(MARK.len() as u64)
        .read_to_end(&mut text)
        .map_err(unread)?;
    // What is no store is not read whole.
    if !begins_store(&text) {
        return Err(Failure::NotAStore);
    }
    file.read_to_end(&mut text).map_err(unread)?;
    Ok(text)
}

/// Why a file is not there: it, or its folder. A path that ends in a slash is that of a folder.
fn missing<R: Files>(rt: &R, path: &str) -> Failure
    ensures failure { IsNotRead result }
    ensures status { status_of result ≡ 2 }
{
    if path.is_empty() || path.ends_with('/') {
        return Failure::NoFolder;
    }
    match fs::metadata(rt, folder_of(path)) {
        Err(error) if error.kind() == ErrorKind::NotFound => Failure::NoFolder,
        _ => Failure::NoFile,
    }
}
