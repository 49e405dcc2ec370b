// SPDX-License-Identifier: ISC
//! The walk over directories in memory: without a failure, with one step that fails, and where many
//! directories wait.

ghost use Rattle.std.specs.Prelude.{None};

use crate::memory::Memory;
use crate::steps::{Fault, Found, Identity, Kind, Steps};
use crate::tree::find;
use std::alloc::AllocError;
use std::io;
use std::test::Fail;

// What is listed, told of and told not to be readable where no step fails.
const FILES: [&str; 4] = ["d/.dot", "d/b", "d/sub/c", "d/sub/same"];

// What is listed for the operands `f`, `d`, one that is no UTF-8, and `none`, which is not there.
const ORDER: [&[u8]; 7] = [
    b"f",
    b"d/.dot",
    b"d/b",
    b"d/sub/c",
    b"d/sub/same",
    b"\xff",
    b"none",
];

const TOLD: [&[u8]; 3] = [b"d/link", b"d/pipe", b"d/bad\xff"];

const GONE: &str = "d/gone";

// The steps in their order, what is then not listed, and what is told not to be readable.
const STEPS: [(&str, &[&str], Option<&str>); 20] = [
    ("output", &[], None),
    ("operand", &FILES, None),
    ("open", &FILES, Some("d")),
    ("read", &FILES, Some("d")),
    ("read", &FILES, Some("d")),
    ("look", &["d/b"], Some("d/b")),
    ("look", &["d/.dot"], Some("d/.dot")),
    ("look", &[], Some("d/link")),
    ("read", &["d/sub/c", "d/sub/same"], Some("d")),
    ("look", &[], Some("d/pipe")),
    ("look", &["d/sub/c", "d/sub/same"], Some("d/sub")),
    ("look", &[], Some("d/out")),
    ("look", &[], Some(GONE)),
    ("read", &[], Some("d")),
    ("open", &["d/sub/c", "d/sub/same"], Some("d/sub")),
    ("read", &["d/sub/c", "d/sub/same"], Some("d/sub")),
    ("read", &["d/sub/c", "d/sub/same"], Some("d/sub")),
    ("look", &["d/sub/same"], Some("d/sub/same")),
    ("look", &["d/sub/c"], Some("d/sub/c")),
    ("read", &[], Some("d/sub")),
];

fn has(names: &[Vec<u8>], name: &[u8]) -> bool {
    names.iter().any(|it| it.as_slice() == name)
}

#[test]
fn each_name_is_listed_or_told(rt: HostRuntime) -> Result<(), Fail> {
    let alloc = rt.alloc();
    let walk = find(
        alloc,
        Memory::new(alloc, 0),
        &[b"f", b"d", b"\xff", b"none"],
    )?;
    assert!(rt; walk.names.len() == ORDER.len() && !walk.is_whole);
    for (name, want) in walk.names.iter().zip(&ORDER) {
        assert!(rt; name.as_slice() == *want);
    }
    for name in &TOLD {
        assert!(rt; has(&walk.steps.told, name));
    }
    assert!(rt; walk.steps.told.len() == TOLD.len());
    let errors = &walk.steps.told_errors;
    assert!(rt; errors.len() == 1 && has(errors, GONE.as_bytes()));
    Ok(())
}

#[test]
fn the_output_is_left_out(rt: HostRuntime) -> Result<(), Fail> {
    let walk = find(
        rt.alloc(),
        Memory::new(rt.alloc(), 0),
        &[b"d/out", b"d/sub/same"],
    )?;
    assert!(rt; walk.names.len() == 1 && has(&walk.names, b"d/sub/same") && walk.is_whole);
    Ok(())
}

#[test]
fn a_failed_step_is_told(rt: HostRuntime) -> Result<(), Fail> {
    for (at, (step, unlisted, told)) in STEPS.iter().enumerate() {
        let bad = at.saturating_add(1);
        let walk = find(rt.alloc(), Memory::new(rt.alloc(), bad), &[b"d"])?;
        let (names, steps) = (&walk.names, &walk.steps);
        assert!(rt; steps.failed == Some(*step), "{bad}, {step}");
        for file in &FILES {
            let is_listed = has(names, file.as_bytes());
            assert!(rt;
                is_listed != unlisted.contains(file),
                "{bad}, {step}: {file}"
            );
        }
        if let Some(told) = told {
            assert!(rt;
                has(&steps.told_errors, told.as_bytes()) && !walk.is_whole,
                "{bad}"
            );
        }
    }
    Ok(())
}

// Without a look at it the output is not known, and an operand is left to its reader.
#[test]
fn what_cannot_be_looked_at_is_listed(rt: HostRuntime) -> Result<(), Fail> {
    let walk = find(rt.alloc(), Memory::new(rt.alloc(), 1), &[b"d"])?;
    assert!(rt; has(&walk.names, b"d/out") && walk.names.len() == FILES.len() + 1);
    let walk = find(rt.alloc(), Memory::new(rt.alloc(), 2), &[b"d"])?;
    assert!(rt; has(&walk.names, b"d") && walk.names.len() == 1 && walk.is_whole);
    Ok(())
}

// How many directories wait at once in the directory `w`.
const WIDTH: u32 = 100;

/// A directory of many empty ones.
#[derive(Drop)]
struct Wide {
    opened: u32,
}

impl Steps for Wide {
    type Names = u32;

    ghost events = { λ _. None };

    fn look_at_output(&mut self) -> io::Result<Found> {
        Err(io::Error::from(io::ErrorKind::Other))
    }

    fn look_at_operand(&mut self, path: &str) -> io::Result<Found> {
        self.look(path)
    }

    fn look(&mut self, _path: &str) -> io::Result<Found> {
        Ok(Found {
            kind: Kind::Directory,
            identity: Identity {
                device: 1,
                inode: 1,
            },
        })
    }

    fn open(&mut self, path: &str) -> io::Result<u32> {
        self.opened = self.opened.saturating_add(1);
        Ok(if path == "w/" { WIDTH } else { 0 })
    }

    fn read(&mut self, names: &mut u32, room: &mut [u8]) -> io::Result<usize> {
        let name = b"below\0";
        if *names == 0 || room.len() < name.len() {
            return Ok(0);
        }
        *names -= 1;
        room[..name.len()].copy_from_slice(name);
        Ok(name.len())
    }

    fn tell(&mut self, _path: &[u8], _fault: Fault) -> Result<(), AllocError> {
        Ok(())
    }

    fn tell_error(&mut self, _path: &[u8], _error: &io::Error) -> Result<(), AllocError> {
        Ok(())
    }
}

#[test]
fn each_directory_is_read_however_many_wait(rt: HostRuntime) -> Result<(), Fail> {
    let walk = find(rt.alloc(), Wide { opened: 0 }, &[b"w"])?;
    assert!(rt; walk.steps.opened == WIDTH + 1 && walk.is_whole);
    Ok(())
}
