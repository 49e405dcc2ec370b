// SPDX-License-Identifier: ISC
//! Readers of which it is known with which errors a read can fail.

ghost use Rattle.std.specs.Prelude.{◌≡◌, Bool, IfErr, IsTrue, false};
ghost use Rattle.std.specs.Io.{ReadsAtMost};
ghost use Rattle.std.specs.Io.KnownBytes.{ReadConsumes};
ghost use Rattle.std.specs.declared.io.Error.{Error};

use std::io;
use std::io::Read;

/// A reader of which it is known with which errors a read can fail.
pub trait Source: Read {
    // Whether a read can fail with this error.
    ghost fails_with: { Self → Error → Bool };

    /// Reads the next bytes into `buf`, as `read` does, and returns how many came.
    ///
    /// Refused with an error with which a read can fail, be it an interruption.
    fn read_piece(&mut self, buf: &mut [u8]) -> io::Result<usize>
        ensures bound { ReadsAtMost result buf.new }
        ensures bytes { ReadConsumes (Self.remaining self.old) (Self.remaining self.new) result
            buf.new }
        ensures failed { IfErr result (λ error. IsTrue (fails_with self.old error)) }
        ensures same { fails_with self.new ≡ fails_with self.old };
}

/// Bytes in memory can always be read.
impl Source for &[u8] {
    ghost fails_with = { λ _ _. false };

    fn read_piece(&mut self, buf: &mut [u8]) -> io::Result<usize> {
        self.read(buf)
    }
}
