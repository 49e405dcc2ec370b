// SPDX-License-Identifier: ISC
//! The temporary file that takes a store's place: its name, and what interrupted runs left.

ghost use Rattle.std.specs.Prelude.{◌≡◌, ◌↔◌, IfOk, IsTrue, string_bytes};
ghost use Rattle.ring_passwords.specs.Event.{Did, name_in};
ghost use Rattle.ring_passwords.specs.Replace.{IsLeftOver, IsLookedAt, IsReadLookedAt, IsSwept};
ghost use Rattle.ring_passwords.specs.Temporary.{IsTemporary, temporary_of};

use crate::steps::Steps;
use ring_text::fill_from_hex;
use std::alloc::{AllocError, Global};
use std::io;
use std::path::Path;

/// What the name has behind that of the store's file, before the digits.
const MARK: &str = ".new-";

/// How many random bytes the digits are of.
pub const RANDOM_LEN: usize = 8;

/// The length of what the name has behind that of the store's file.
const END_LEN: usize = MARK.len() + 2 * RANDOM_LEN;

/// Whether a path is that of a temporary file: no store's file has such a name.
pub fn is_temporary(path: &str) -> bool
    ensures { IsTrue result ↔ IsTemporary path.now }
{
    let path = path.as_bytes();
    if path.len() < END_LEN {
        return false;
    }
    let (_, end) = path.split_at(path.len() - END_LEN);
    let (mark, digits) = end.split_at(MARK.len());
    mark == MARK.as_bytes() && fill_from_hex(digits, &mut [0; RANDOM_LEN])
}

/// The path of a temporary file of a store's file.
pub fn temporary_path(alloc: Global, path: &str, random: &[u8]) -> Result<String, AllocError>
    ensures ok { IfOk result (λ made. string_bytes made ≡ temporary_of path.now random.now) }
{
    let digits = hex::encode(alloc, random)?;
    let made = format!(in alloc; "{path}{MARK}{digits}")?;
    Ok(made)
}

/// Removes what interrupted runs left of temporary files of a store's file, whose lock is held.
///
/// A file that cannot be looked at or removed stays: it is in nobody's way.
pub fn remove_left_over<S: Steps>(steps: &mut S, folder: &str, path: &str)
    ensures { Did (S.events steps.old) (S.events steps.new) (IsSwept path.now folder.now) }
{
    let Ok(mut names) = steps.names(folder) else {
        return;
    };
    'names: for _read in 0..u64::MAX {
        let Some(name) = steps.next_name(&mut names) else {
            return;
        };
        look_at(steps, path, name);
    }
}

/// Looks at a name, if it can be read.
fn look_at<S: Steps>(steps: &mut S, path: &str, name: io::Result<S::Entry>)
    ensures { Did (S.events steps.old) (S.events steps.new)
        (IsReadLookedAt path.now (name_in S.name name)) }
{
    match name {
        Ok(entry) => remove_if_left_over(steps, path, &entry),
        Err(_) => {}
    }
}

/// Removes a file of a name that a temporary file of a store's file has.
fn remove_if_left_over<S: Steps>(steps: &mut S, path: &str, entry: &S::Entry)
    ensures { Did (S.events steps.old) (S.events steps.new)
        (IsLookedAt path.now (S.name entry.now)) }
{
    if is_left_over(path, steps.name_of(entry)) {
        let _ = steps.remove_unlocked(entry);
    }
}

/// Whether a name is that of a temporary file of a store's file.
fn is_left_over(path: &str, name: &str) -> bool
    ensures { IsTrue result ↔ IsLeftOver path.now name.now }
{
    let Some(file) = Path::new(path).file_name() else {
        return false;
    };
    if name.len() != file.len() + END_LEN {
        return false;
    }
    let (start, _) = name.as_bytes().split_at(file.len());
    start == file.as_bytes() && is_temporary(name)
}
