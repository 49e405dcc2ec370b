// SPDX-License-Identifier: ISC
//! `replace` over a folder in memory: without a failure, with one step that fails, and where all
//! steps fail from one on.

use crate::disk::Disk;
use crate::failure::{Failure, Step};
use crate::memory::{Content, Folder, NEW, OLD, STORE};
use crate::replace::replace;
use crate::steps::Access;
use std::alloc::{AllocError, Global};
use std::process::Abort;
use std::test::Fail;

#[derive(Clone, Copy, PartialEq)]
enum Outcome {
    Replaced,
    NotReplaced,
    NotSynced,
    Other,
}

fn outcome_of(done: &Result<(), Failure>) -> Outcome {
    match done {
        Ok(()) => Outcome::Replaced,
        Err(Failure::System(Step::Replace, _)) => Outcome::NotReplaced,
        Err(Failure::System(Step::SyncFolder, _)) => Outcome::NotSynced,
        Err(_) => Outcome::Other,
    }
}

// What an interrupted run left of this store and of another, and what a run of this one still
// writes.
const LEFT_OVER: &str = "users.new-0123456789abcdef";

const OF_ANOTHER: &str = "keep.new-0123456789abcdef";

const IN_USE: &str = "users.new-fedcba9876543210";

// Whom the old file is of, and its mode, with a bit that a new file does not get.
const OLD_ACCESS: Access = Access {
    user: 7,
    group: 8,
    mode: 0o104_640,
};

// The lock of the store's file, which stays locked.
const LOCK: u32 = 0;

// The steps in their order, and how `replace` ends where one of them alone fails.
const STEPS: [(&str, Outcome); 19] = [
    ("open_folder", Outcome::NotReplaced),
    ("names", Outcome::Replaced),
    ("next_name", Outcome::Replaced),
    ("remove_unlocked", Outcome::Replaced),
    ("next_name", Outcome::Replaced),
    ("next_name", Outcome::Replaced),
    ("remove_unlocked", Outcome::Replaced),
    ("next_name", Outcome::Replaced),
    ("random", Outcome::NotReplaced),
    ("create", Outcome::NotReplaced),
    ("lock", Outcome::NotReplaced),
    ("set_mode", Outcome::NotReplaced),
    ("write", Outcome::NotReplaced),
    ("access", Outcome::NotReplaced),
    ("set_owner", Outcome::Replaced),
    ("set_mode", Outcome::NotReplaced),
    ("sync", Outcome::NotReplaced),
    ("rename", Outcome::NotReplaced),
    ("sync_folder", Outcome::NotSynced),
];

fn content(alloc: Global, bytes: &[u8], is_locked: bool) -> Result<Content, AllocError> {
    Ok(Content {
        bytes: bytes.to_vec(alloc)?,
        access: OLD_ACCESS,
        is_synced: true,
        is_locked,
    })
}

// A folder with an old file, and with what other runs left.
fn folder(alloc: Global, first_bad: usize, last_bad: usize) -> Result<Folder, AllocError> {
    let mut folder = Folder::new(alloc, first_bad, last_bad);
    folder.put(alloc, STORE, content(alloc, OLD, false)?)?;
    folder.put(alloc, LEFT_OVER, content(alloc, b"left", false)?)?;
    folder.put(alloc, OF_ANOTHER, content(alloc, b"left", false)?)?;
    folder.put(alloc, IN_USE, content(alloc, b"in use", true)?)?;
    Ok(folder)
}

// Replaces the old file, and says how that ends, and what the folder then has.
fn run<R>(rt: &R, first_bad: usize, last_bad: usize) -> Result<(Outcome, Folder), AllocError>
where
    R: Abort + AllocGlobal,
{
    let mut disk = Disk::new(rt, folder(rt.alloc(), first_bad, last_bad)?);
    let outcome = outcome_of(&replace(rt.alloc(), &mut disk, &LOCK, STORE, NEW));
    Ok((outcome, disk.into_folder()))
}

// Whether the file of a name has this text.
fn has(folder: &Folder, name: &str, text: &[u8]) -> bool {
    folder
        .file(name)
        .is_some_and(|file| file.bytes.as_slice() == text)
}

// Whether the store's file, at each moment on the disk and whole, has this text in the end, and the
// files of others are there.
fn keeps(folder: &Folder, text: &[u8]) -> bool {
    let others = has(folder, OF_ANOTHER, b"left") && has(folder, IN_USE, b"in use");
    folder.is_whole && has(folder, STORE, text) && others
}

// How many names there are besides the store's and those of others.
fn left(folder: &Folder) -> usize {
    folder.len().saturating_sub(3)
}

fn text_after(outcome: Outcome) -> &'static [u8] {
    match outcome {
        Outcome::NotReplaced => OLD,
        _ => NEW,
    }
}

#[test]
fn a_file_is_replaced(rt: HostRuntime) -> Result<(), Fail> {
    let (outcome, folder) = run(&rt, 0, 0)?;
    assert!(rt; outcome == Outcome::Replaced && folder.steps == STEPS.len());
    assert!(rt; keeps(&folder, NEW) && folder.is_synced);
    assert!(rt; left(&folder) == 0, "a temporary file is left");
    let new = folder.file(STORE).ok_or("no file")?.access;
    assert!(rt; new.user == 7 && new.group == 8 && new.mode == 0o100_640);
    Ok(())
}

#[test]
fn a_first_file_is_for_its_owner_alone(rt: HostRuntime) -> Result<(), Fail> {
    let mut disk = Disk::new(&rt, Folder::new(rt.alloc(), 0, 0));
    let outcome = outcome_of(&replace(rt.alloc(), &mut disk, &LOCK, STORE, NEW));
    let folder = disk.into_folder();
    assert!(rt; outcome == Outcome::Replaced && has(&folder, STORE, NEW));
    assert!(rt; folder.len() == 1 && folder.is_synced);
    assert!(rt; folder.file(STORE).ok_or("no file")?.access.mode == 0o100_600);
    Ok(())
}

#[test]
fn a_failed_step_is_told_and_loses_nothing(rt: HostRuntime) -> Result<(), Fail> {
    for (at, (step, want)) in STEPS.iter().enumerate() {
        let bad = at.saturating_add(1);
        let (outcome, folder) = run(&rt, bad, bad)?;
        assert!(rt;
            folder.failed == Some(*step) && outcome == *want,
            "{bad}, {step}"
        );
        assert!(rt; keeps(&folder, text_after(outcome)), "{bad}, {step}");
        let is_left_over = folder.file(LEFT_OVER).is_some();
        assert!(rt; left(&folder) == usize::from(is_left_over), "{bad}, {step}");
        let can_stay = matches!(
            *step,
            "open_folder" | "names" | "next_name" | "remove_unlocked"
        );
        assert!(rt; can_stay || !is_left_over, "{bad}, {step}");
    }
    Ok(())
}

// Nobody removes the new file then.
#[test]
fn failures_from_a_step_on_are_told_and_lose_nothing(rt: HostRuntime) -> Result<(), Fail> {
    for (at, (step, _)) in STEPS.iter().enumerate() {
        let (outcome, folder) = run(&rt, at.saturating_add(1), usize::MAX)?;
        let is_last = *step == "sync_folder";
        let want = if is_last {
            Outcome::NotSynced
        } else {
            Outcome::NotReplaced
        };
        assert!(rt;
            folder.failed == Some(*step) && outcome == want,
            "from {step} on"
        );
        assert!(rt; keeps(&folder, text_after(outcome)), "from {step} on");
    }
    Ok(())
}
