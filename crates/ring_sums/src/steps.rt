// SPDX-License-Identifier: ISC
//! The steps by which the files below directories are found.

ghost use Rattle.std.specs.Prelude.{List, OnOk, Option};
ghost use Rattle.std.specs.Io.{ReadsAtMost};
ghost use Rattle.std.specs.Result.{result_err};
ghost use Rattle.ring_sums.specs.Event.{Event, Notes, read_of};
ghost use Rattle.ring_sums.specs.Event as event;

use std::alloc::AllocError;
use std::io;

/// What tells a file from all others.
#[derive(Clone, Copy)]
pub(crate) struct Identity {
    pub(crate) device: u64,
    pub(crate) inode: u64,
}

/// What a name can be of.
#[derive(Clone, Copy)]
pub(crate) enum Kind {
    Directory,
    File,
    Link,
    Other,
}

/// What a look finds.
#[derive(Clone, Copy)]
pub(crate) struct Found {
    pub(crate) kind: Kind,
    pub(crate) identity: Identity,
}

/// What is wrong with a name in a directory.
#[derive(Clone, Copy)]
pub(crate) enum Fault {
    Link,
    NotRegular,
    NotUtf8,
}

/// The steps by which the files below directories are found.
pub(crate) trait Steps {
    /// An open directory, of whose names some are read.
    type Names: Drop;

    // what was found and told so far, the first first, where it is known
    ghost events: { Self → Option (List Event) };

    /// Looks at standard output.
    fn look_at_output(&mut self) -> io::Result<Found>
        ensures { Notes (events self.old) (events self.new) (event.Output result) };

    /// Looks at an operand, or at what it links to.
    fn look_at_operand(&mut self, path: &str) -> io::Result<Found>
        ensures { Notes (events self.old) (events self.new) (event.Operand path.now result) };

    /// Looks at a name in a directory.
    fn look(&mut self, path: &str) -> io::Result<Found>
        ensures { Notes (events self.old) (events self.new) (event.Look path.now result) };

    /// Opens a directory.
    fn open(&mut self, path: &str) -> io::Result<Self::Names>
        ensures { Notes (events self.old) (events self.new)
            (event.Open path.now (result_err result)) };

    /// Reads names of a directory, of which a zero byte ends each, and none at their end.
    fn read(&mut self, names: &mut Self::Names, room: &mut [u8]) -> io::Result<usize>
        ensures bound { ReadsAtMost result room.new }
        ensures noted { Notes (events self.old) (events self.new)
            (event.Read (read_of result room.new)) };

    /// Tells what is wrong with a name in a directory.
    fn tell(&mut self, path: &[u8], fault: Fault) -> Result<(), AllocError>
        ensures { OnOk result (Notes (events self.old) (events self.new)
            (event.Tell path.now fault)) };

    /// Tells why something could not be read.
    fn tell_error(&mut self, path: &[u8], error: &io::Error) -> Result<(), AllocError>
        ensures { OnOk result (Notes (events self.old) (events self.new)
            (event.TellError path.now error.now)) };
}
