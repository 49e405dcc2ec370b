// SPDX-License-Identifier: ISC
//! Where the program writes: lines on standard output, and messages on standard error.

ghost use Rattle.std.specs.Prelude.{◌≡◌, ◌↔◌, IfOk, IsFalse, IsNone, IsTrue};

use crate::progress::Progress;
use crate::quote::{in_quotes, joined};
use std::alloc::{AllocError, Global};
use std::io;
use std::io::{Eprint, Write};

/// The system's number of the error that a descriptor is not open.
const BAD_DESCRIPTOR: i32 = 9;

/// Standard output and standard error.
#[derive(Drop)]
pub(crate) struct Console<'a, R, W> {
    rt: &'a R,
    alloc: Global,
    program: &'a [u8],
    out: W,
    /// Why a line could not be written. None is written after it.
    failure: Option<io::Error>,
    /// Whether standard input was asked for and is not open.
    is_input_closed: bool,
    progress: &'a Progress,
    /// Whether lines and what `progress` shows go to terminals, which may be the same.
    is_shared: bool,
}

/// What is wrong with a call of the system, without the system's number for it.
fn reason_of(alloc: Global, error: &io::Error) -> Result<Vec<u8>, AllocError> {
    let text = format!(in alloc; "{error}")?;
    let bytes = text.as_bytes();
    let len = match memchr::memmem::rfind(bytes, b" (os error ") {
        Some(place) => place,
        None => bytes.len(),
    };
    bytes[..len].to_vec(alloc)
}

impl<'a, R: Eprint, W: Write> Console<'a, R, W> {
    ghost use Rattle.ring_sums.specs.Console.{HasWritten, IsKept};

    pub(crate) fn new(
        rt: &'a R,
        alloc: Global,
        program: &'a [u8],
        out: W,
        progress: &'a Progress,
        is_shared: bool,
    ) -> Console<'a, R, W> {
        Console {
            rt,
            alloc,
            program,
            out,
            failure: None,
            is_input_closed: false,
            progress,
            is_shared,
        }
    }

    /// What shows how far a run is.
    pub(crate) fn progress(&self) -> &'a Progress {
        self.progress
    }

    /// Notes why a file could not be read.
    pub(crate) fn note(&mut self, error: &io::Error)
        ensures { IsKept self.old self.new }
    {
        if error.raw_os_error() == Some(BAD_DESCRIPTOR) {
            self.is_input_closed = true;
        }
    }

    /// The program's name.
    pub(crate) fn program(&self) -> &'a [u8] {
        self.program
    }

    /// Whether a line could not be written.
    pub(crate) fn has_failed(&self) -> bool
        ensures { IsFalse result ↔ IsNone self.now.failure }
    {
        self.failure.is_some()
    }

    /// Writes a line, unless one before could not be written.
    pub(crate) fn write(&mut self, line: &[u8])
        ensures { HasWritten W.contents line.now self.old self.new }
    {
        if self.is_shared {
            self.progress.hide(self.rt);
        }
        if self.failure.is_none() {
            self.failure = self.out.write_all(line).err();
        }
    }

    /// Writes text on standard error, behind the program's name.
    pub(crate) fn tell(&mut self, text: &[u8]) -> Result<(), AllocError>
        ensures { IsKept self.old self.new }
    {
        self.show(&joined(self.alloc, &[self.program, b": ", text])?)
    }

    /// Writes a line on standard error.
    pub(crate) fn show(&mut self, line: &[u8]) -> Result<(), AllocError>
        ensures { IsKept self.old self.new }
    {
        self.progress.hide(self.rt);
        let text = String::from_utf8_lossy(self.alloc, line)?;
        // Where standard error fails too, the status still tells.
        let _ = self.rt.eprintln(&*text);
        Ok(())
    }

    /// Tells what is wrong with a file.
    pub(crate) fn tell_of(&mut self, name: &[u8], text: &[u8]) -> Result<(), AllocError>
        ensures { IsKept self.old self.new }
    {
        let name = in_quotes(self.alloc, name)?;
        self.tell(&joined(self.alloc, &[&name, b": ", text])?)
    }

    /// Tells why a file could not be read.
    pub(crate) fn tell_error(&mut self, name: &[u8], error: &io::Error) -> Result<(), AllocError>
        ensures { IsKept self.old self.new }
    {
        self.note(error);
        let reason = reason_of(self.alloc, error)?;
        self.tell_of(name, &reason)
    }

    /// Whether standard input could be closed and every line be written. What failed is told.
    pub(crate) fn end(&mut self) -> Result<bool, AllocError>
        ensures { IfOk result (λ is_fine. IsTrue is_fine
            ↔ (IsNone self.old.failure × IsFalse self.old.is_input_closed)) }
    {
        let is_input_closed = self.is_input_closed;
        self.progress.hide(self.rt);
        if is_input_closed {
            self.tell(b"standard input: Bad file descriptor")?;
        }
        let Some(error) = self.failure else {
            return Ok(!is_input_closed);
        };
        let mut message = b"write error".to_vec(self.alloc)?;
        if error.raw_os_error() == Some(BAD_DESCRIPTOR) {
            message.extend_from_slice(b": ")?;
            message.extend_from_slice(&reason_of(self.alloc, &error)?)?;
        }
        self.tell(&message)?;
        Ok(false)
    }
}
