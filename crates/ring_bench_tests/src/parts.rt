// SPDX-License-Identifier: ISC
//! Readers and writers that fail, that give or take little, and that tell what was done.

use std::alloc::Global;
use std::cell::Cell;
use std::io;
use std::io::{Read, Write};

// Gives at most `step` bytes a call, and fails with `kind` at the call `bad_call`, counted from 1.
#[derive(Drop)]
pub struct Choppy<'a> {
    pub bytes: &'a [u8],
    pub step: usize,
    pub calls: u32,
    pub bad_call: u32,
    pub kind: io::ErrorKind,
}

impl<'a> Choppy<'a> {
    pub fn new(bytes: &'a [u8], step: usize, bad_call: u32) -> Choppy<'a> {
        Choppy {
            bytes,
            step,
            calls: 0,
            bad_call,
            kind: io::ErrorKind::Other,
        }
    }
}

impl Read for Choppy<'_> {
    fn read(&mut self, buf: &mut [u8]) -> io::Result<usize> {
        self.calls = self.calls.saturating_add(1);
        if self.calls == self.bad_call {
            return Err(io::Error::from(self.kind));
        }
        let count = self.step.min(buf.len()).min(self.bytes.len());
        buf[..count].copy_from_slice(&self.bytes[..count]);
        self.bytes = &self.bytes[count..];
        Ok(count)
    }
}

// Takes at most `step` bytes a call, fails at the call `bad_call`, and at the flush if `bad_flush`.
#[derive(Drop)]
pub struct Sink {
    pub got: Vec<u8>,
    pub step: usize,
    pub calls: u32,
    pub bad_call: u32,
    pub bad_flush: bool,
    pub flushes: u32,
    // how many bytes had come at the last flush
    pub flushed: usize,
}

impl Sink {
    pub fn new(alloc: Global, step: usize, bad_call: u32) -> Sink {
        Sink {
            got: Vec::new(alloc),
            step,
            calls: 0,
            bad_call,
            bad_flush: false,
            flushes: 0,
            flushed: 0,
        }
    }
}

impl Write for Sink {
    fn write(&mut self, buf: &[u8]) -> io::Result<usize> {
        self.calls = self.calls.saturating_add(1);
        if self.calls == self.bad_call {
            return Err(io::Error::from(io::ErrorKind::BrokenPipe));
        }
        let count = self.step.min(buf.len());
        self.got.extend_from_slice(&buf[..count])?;
        Ok(count)
    }

    fn flush(&mut self) -> io::Result<()> {
        self.flushes = self.flushes.saturating_add(1);
        self.flushed = self.got.len();
        if self.bad_flush {
            return Err(io::Error::from(io::ErrorKind::BrokenPipe));
        }
        Ok(())
    }
}

// Gives a line a call, where as many bytes as stand beside it have been written, and else fails.
#[derive(Drop)]
pub struct Watchful<'a> {
    pub lines: &'a [(&'a [u8], usize)],
    pub written: &'a Cell<usize>,
}

impl Read for Watchful<'_> {
    fn read(&mut self, buf: &mut [u8]) -> io::Result<usize> {
        let [(line, due), others @ ..] = self.lines else {
            return Ok(0);
        };
        if self.written.get() != *due || buf.len() < line.len() {
            return Err(io::Error::from(io::ErrorKind::Other));
        }
        buf[..line.len()].copy_from_slice(line);
        self.lines = others;
        Ok(line.len())
    }
}

#[derive(Drop)]
pub struct Counting<'a> {
    pub written: &'a Cell<usize>,
}

impl Write for Counting<'_> {
    fn write(&mut self, buf: &[u8]) -> io::Result<usize> {
        self.written
            .set(self.written.get().saturating_add(buf.len()));
        Ok(buf.len())
    }

    fn flush(&mut self) -> io::Result<()> {
        Ok(())
    }
}
