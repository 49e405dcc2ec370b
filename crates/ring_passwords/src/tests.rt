// SPDX-License-Identifier: ISC
//! `verify_in_file` and `set_in_file` over a folder in memory, whose file other processes change
//! while the password is read, and where one step fails.

use crate::disk::Disk;
use crate::failure::Failure;
use crate::memory::{Content, Folder, Meanwhile, STORE, TYPED};
use crate::order::{set_in_file, verify_in_file};
use crate::steps::Access;
use ring::cost::Meter;
use ring_store::PasswordStore;
use ring_store_text::{from_text, to_text};
use std::alloc::Global;
use std::num::NonZeroU32;
use std::process::Abort;
use std::test::Fail;

const NAME: &[u8] = b"alice";

const OTHER_NAME: &[u8] = b"bob";

const OTHER: &[u8] = b"another password";

// The text of a store in which each of these names has this password.
fn text_of(alloc: Global, names: &[&[u8]], password: &[u8]) -> Result<Vec<u8>, Fail> {
    let mut store = PasswordStore::new(alloc, [7; 16], NonZeroU32::MIN);
    for name in names {
        store.set_password(name, password).or(Err("not set"))?;
    }
    let text = to_text(alloc, &store)?;
    Ok(text)
}

// A file with the text of such a store.
fn file_of(alloc: Global, names: &[&[u8]], password: &[u8]) -> Result<Content, Fail> {
    Ok(Content {
        bytes: text_of(alloc, names, password)?,
        access: Access {
            user: 7,
            group: 8,
            mode: 0o100_600,
        },
        is_synced: true,
        is_locked: false,
    })
}

// A folder with a file, or without, and with a bad step, if the number is not 0.
fn folder(
    alloc: Global,
    file: Option<Content>,
    meanwhile: Meanwhile,
    bad: usize,
) -> Result<Folder, Fail> {
    let mut folder = Folder::new(alloc, bad, bad);
    folder.meanwhile = meanwhile;
    if let Some(file) = file {
        folder.put(alloc, STORE, file)?;
    }
    Ok(folder)
}

// What `set` answers for a name, and the folder then.
fn run_set<R: Abort + AllocGlobal>(
    rt: &R,
    folder: Folder,
) -> (Result<NonZeroU32, Failure>, Folder) {
    let mut disk = Disk::new(rt, folder);
    let answer = set_in_file(rt.alloc(), &mut disk, STORE, NAME, NonZeroU32::new(2));
    (answer, disk.into_folder())
}

// What `verify` answers for a name.
fn run_verify<R: Abort + AllocGlobal>(rt: &R, folder: Folder) -> Result<(), Failure> {
    let mut disk = Disk::new(rt, folder);
    verify_in_file(rt.alloc(), &mut disk, STORE, NAME, &mut Meter::new())
}

// Whether the file of the store has a name with this password.
fn has(alloc: Global, folder: &Folder, name: &[u8], password: &[u8]) -> bool {
    let Some(file) = folder.file(STORE) else {
        return false;
    };
    match from_text(alloc, &file.bytes) {
        Ok(store) => store.check_password(name, password).is_ok(),
        Err(_) => false,
    }
}

#[test]
fn verify_takes_the_file_as_it_is_after_the_password(rt: HostRuntime) -> Result<(), Fail> {
    let alloc = rt.alloc();
    let old = file_of(alloc, &[NAME], OTHER)?;
    let new = file_of(alloc, &[NAME], TYPED)?;
    let right = run_verify(&rt, folder(alloc, Some(old), Meanwhile::Replaced(new), 0)?);
    assert!(rt; matches!(right, Ok(())));
    let old = file_of(alloc, &[NAME], TYPED)?;
    let new = file_of(alloc, &[NAME], OTHER)?;
    let wrong = run_verify(&rt, folder(alloc, Some(old), Meanwhile::Replaced(new), 0)?);
    assert!(rt; matches!(wrong, Err(Failure::WrongNameOrPassword)));
    let old = file_of(alloc, &[NAME], TYPED)?;
    let gone = run_verify(&rt, folder(alloc, Some(old), Meanwhile::Removed, 0)?);
    assert!(rt; matches!(gone, Err(Failure::NoFile)));
    Ok(())
}

#[test]
fn set_makes_no_store_in_the_place_of_one_that_vanished(rt: HostRuntime) -> Result<(), Fail> {
    let alloc = rt.alloc();
    let old = file_of(alloc, &[OTHER_NAME], OTHER)?;
    let (answer, after) = run_set(&rt, folder(alloc, Some(old), Meanwhile::Removed, 0)?);
    assert!(rt; matches!(answer, Err(Failure::NoFile)) && after.len() == 0);
    Ok(())
}

#[test]
fn set_makes_a_store_where_there_was_none(rt: HostRuntime) -> Result<(), Fail> {
    let alloc = rt.alloc();
    let (answer, after) = run_set(&rt, folder(alloc, None, Meanwhile::Nothing, 0)?);
    assert!(rt; matches!(answer, Ok(count) if count.get() == 2));
    assert!(rt; has(alloc, &after, NAME, TYPED) && after.len() == 1);
    Ok(())
}

#[test]
fn set_keeps_what_was_set_meanwhile(rt: HostRuntime) -> Result<(), Fail> {
    let alloc = rt.alloc();
    for was_missing in [false, true] {
        let old = match was_missing {
            true => None,
            false => Some(file_of(alloc, &[NAME], OTHER)?),
        };
        let new = file_of(alloc, &[OTHER_NAME], OTHER)?;
        let (answer, after) = run_set(&rt, folder(alloc, old, Meanwhile::Replaced(new), 0)?);
        assert!(rt; answer.is_ok() && has(alloc, &after, NAME, TYPED));
        assert!(rt; has(alloc, &after, OTHER_NAME, OTHER));
    }
    Ok(())
}

// The steps in their order, before a new file is made.
const STEPS: [&str; 5] = [
    "read_store",
    "look_for_links",
    "password",
    "lock_store",
    "read_to_replace",
];

#[test]
fn set_tells_a_failed_step_and_leaves_the_file(rt: HostRuntime) -> Result<(), Fail> {
    let alloc = rt.alloc();
    let text = text_of(alloc, &[NAME], OTHER)?;
    for (at, step) in STEPS.iter().enumerate() {
        let old = file_of(alloc, &[NAME], OTHER)?;
        let bad = at.saturating_add(1);
        let (answer, after) = run_set(&rt, folder(alloc, Some(old), Meanwhile::Nothing, bad)?);
        assert!(rt; answer.is_err() && after.failed == Some(*step), "{step}");
        assert!(rt; !matches!(answer, Err(Failure::NoFile)), "{step}");
        let file = after.file(STORE).ok_or("no file")?;
        assert!(rt; file.bytes.as_slice() == text.as_slice(), "{step}");
    }
    Ok(())
}
