// SPDX-License-Identifier: ISC
//! Directories in memory, of which a chosen step fails.

ghost use Rattle.std.specs.Prelude.{None};

use crate::steps::{Fault, Found, Identity, Kind, Steps};
use std::alloc::{AllocError, Global};
use std::io;

/// The device of all files but one.
const DEVICE: u64 = 1;

/// The inode of the file that standard output is.
const OUTPUT: u64 = 20;

/// What a look at a path finds, if there is something. `d/sub/same` has standard output's inode on
/// another device, and `d/gone` is gone once its name is read.
fn node_of(path: &str) -> Option<(Kind, u64, u64)> {
    match path {
        "d" => Some((Kind::Directory, DEVICE, 9)),
        "d/b" => Some((Kind::File, DEVICE, 10)),
        "d/.dot" => Some((Kind::File, DEVICE, 11)),
        "d/link" => Some((Kind::Link, DEVICE, 12)),
        "d/pipe" => Some((Kind::Other, DEVICE, 13)),
        "d/sub" => Some((Kind::Directory, DEVICE, 14)),
        "d/out" => Some((Kind::File, DEVICE, OUTPUT)),
        "d/sub/c" => Some((Kind::File, DEVICE, 15)),
        "d/sub/same" => Some((Kind::File, DEVICE + 1, OUTPUT)),
        "f" => Some((Kind::File, DEVICE, 16)),
        _ => None,
    }
}

/// What the reads of a directory's names give, one after another.
fn parts_of(path: &str) -> &'static [&'static [u8]] {
    match path {
        "d/" => &[
            b".\0..\0b\0.dot\0link\0",
            b"pipe\0sub\0out\0gone\0bad\xff\0",
        ],
        "d/sub/" => &[b".\0same\0c\0..\0"],
        _ => &[],
    }
}

/// What a directory's reads give, and how many there were.
#[derive(Drop)]
pub(crate) struct Reads {
    parts: &'static [&'static [u8]],
    count: usize,
}

/// Directories in memory, and what was told of them.
#[derive(Drop)]
pub(crate) struct Memory {
    alloc: Global,
    /// How many steps were taken.
    pub(crate) steps: usize,
    /// The step that fails, from 1 on, or 0 if none does.
    bad: usize,
    /// The step that failed.
    pub(crate) failed: Option<&'static str>,
    /// Of what a fault was told, and of what an error.
    pub(crate) told: Vec<Vec<u8>>,
    pub(crate) told_errors: Vec<Vec<u8>>,
}

impl Memory {
    pub(crate) fn new(alloc: Global, bad: usize) -> Memory {
        Memory {
            alloc,
            steps: 0,
            bad,
            failed: None,
            told: Vec::new(alloc),
            told_errors: Vec::new(alloc),
        }
    }

    /// Takes a step, if it does not fail.
    fn step(&mut self, step: &'static str) -> io::Result<()> {
        self.steps = self.steps.saturating_add(1);
        if self.steps != self.bad {
            return Ok(());
        }
        self.failed = Some(step);
        Err(io::Error::from(io::ErrorKind::Other))
    }

    fn found(&mut self, step: &'static str, path: &str) -> io::Result<Found> {
        self.step(step)?;
        match node_of(path) {
            Some((kind, device, inode)) => Ok(Found {
                kind,
                identity: Identity { device, inode },
            }),
            None => Err(io::Error::from(io::ErrorKind::NotFound)),
        }
    }
}

impl Steps for Memory {
    type Names = Reads;

    ghost events = { λ _. None };

    fn look_at_output(&mut self) -> io::Result<Found> {
        self.found("output", "d/out")
    }

    fn look_at_operand(&mut self, path: &str) -> io::Result<Found> {
        self.found("operand", path)
    }

    fn look(&mut self, path: &str) -> io::Result<Found> {
        self.found("look", path)
    }

    fn open(&mut self, path: &str) -> io::Result<Reads> {
        self.step("open")?;
        Ok(Reads {
            parts: parts_of(path),
            count: 0,
        })
    }

    /// Each first read is interrupted.
    fn read(&mut self, names: &mut Reads, room: &mut [u8]) -> io::Result<usize> {
        self.step("read")?;
        let at = names.count;
        names.count = at.saturating_add(1);
        if at == 0 {
            return Err(io::Error::from(io::ErrorKind::Interrupted));
        }
        match names.parts.get(at - 1) {
            Some(part) if part.len() <= room.len() => {
                room[..part.len()].copy_from_slice(part);
                Ok(part.len())
            }
            _ => Ok(0),
        }
    }

    fn tell(&mut self, path: &[u8], _fault: Fault) -> Result<(), AllocError> {
        self.told.push(path.to_vec(self.alloc)?)?;
        Ok(())
    }

    fn tell_error(&mut self, path: &[u8], _error: &io::Error) -> Result<(), AllocError> {
        self.told_errors.push(path.to_vec(self.alloc)?)?;
        Ok(())
    }
}
