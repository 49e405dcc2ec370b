// SPDX-License-Identifier: ISC
//! Why a run ends without success.

ghost use Rattle.std.specs.Prelude.{◌≡◌, [], IfOk, OnOk};
ghost use Rattle.std.specs.Fmt.{AppendsText};
ghost use Rattle.ring_passwords.specs.Failure.{ended_text, failure_of, failure_text, is_of_file};
ghost use Rattle.ring_passwords.specs.Failure.{status_of};
ghost use Rattle.ring_passwords.specs.declared.failure.Failure.TheVariants.{Memory};

use crate::quoted::append_quoted;
use ring_store::StoreError;
use std::alloc::{AllocError, Global};
use std::{fmt, io};

/// What the system is asked for.
#[derive(Clone, Copy)]
pub enum Step {
    /// The program's arguments.
    Arguments,
    /// The line of the password.
    ReadPassword,
    /// The line of the text.
    ReadText,
    /// The file as it is.
    ReadFile,
    /// The lock.
    Lock,
    /// The salt of a new store or a new text.
    Salt,
    /// The new file, in the place of the old one.
    Replace,
    /// The folder on disk, once the file is replaced.
    SyncFolder,
    /// The names on standard output.
    WriteNames,
    /// The text of a password on standard output.
    WriteText,
    /// What the program tells of itself, on standard output.
    WriteAbout,
}

/// Why a run ends without success.
#[derive(Drop)]
pub enum Failure {
    /// Standard input ends before the first byte of a line.
    NoPassword,
    /// Standard input ends before the first byte of the text.
    NoText,
    /// The name has no byte, or more than 64.
    BadName,
    /// The password is longer than HMAC admits.
    TooLong,
    /// The password is for PostgreSQL, and has a byte past ASCII.
    NeedsPreparation,
    /// The line is not the text of a password.
    NotAText,
    /// The text has more iterations than are admitted.
    TooManyIterations,
    /// The text is of another password.
    WrongPassword,
    /// The name has no record, or one of another password.
    WrongNameOrPassword,
    /// The name has no record.
    NoSuchName,
    /// There is no such file.
    NoFile,
    /// The folder of the file is not there.
    NoFolder,
    /// The path is not that of a regular file.
    NotAFile,
    /// The path is that of a temporary file of this program.
    Temporary,
    /// The file has another name too, which would keep the old text.
    Linked,
    /// The file does not have the text of a store.
    NotAStore,
    /// What has the lock's name is no lock that this user can rely on.
    BadLock,
    /// Another process holds the lock for too long.
    InUse,
    /// There is no memory.
    Memory,
    /// The system refuses a step.
    System(Step, io::Error),
}

/// The exit status of a name without a record, and of one or a text of another password.
pub const NOT_FOUND: u8 = 1;

/// The exit status of every other failure.
pub const FAILED: u8 = 2;

impl Failure {
    /// Whether it is a failure of the file that the call names: the file is not there, is none of a
    /// store, or cannot be locked, read or replaced.
    pub fn is_of_file(&self) -> bool
        ensures { result ≡ is_of_file self.now }
    {
        match self {
            Failure::NoFile | Failure::NoFolder | Failure::NotAFile => true,
            Failure::Temporary | Failure::Linked | Failure::NotAStore => true,
            Failure::BadLock | Failure::InUse => true,
            Failure::System(Step::ReadFile | Step::Lock, _) => true,
            Failure::System(Step::Replace | Step::SyncFolder, _) => true,
            _ => false,
        }
    }

    /// The exit status of the run.
    pub fn status(&self) -> u8
        ensures { result ≡ status_of self.now }
    {
        match self {
            Failure::WrongNameOrPassword | Failure::NoSuchName => NOT_FOUND,
            Failure::WrongPassword => NOT_FOUND,
            _ => FAILED,
        }
    }
}

impl fmt::Display for Step {
    fn fmt<W: fmt::Write>(&self, f: &mut fmt::Formatter<W>) -> fmt::Result {
        match self {
            Step::Arguments => write!(f, "cannot read the arguments"),
            Step::ReadPassword => write!(f, "cannot read the password"),
            Step::ReadText => write!(f, "cannot read the text"),
            Step::ReadFile => write!(f, "cannot read the file"),
            Step::Lock => write!(f, "cannot lock the file"),
            Step::Salt => write!(f, "cannot get random bytes"),
            Step::Replace => write!(f, "cannot replace the file"),
            Step::SyncFolder => write!(f, "replaced the file, but cannot sync its folder"),
            Step::WriteNames => write!(f, "cannot write the names"),
            Step::WriteText => write!(f, "cannot write the text"),
            Step::WriteAbout => write!(f, "cannot write to standard output"),
        }
    }
}

/// One line. It shows nothing of the file's text or of a password.
impl fmt::Display for Failure {
    ghost output = { failure_text };

    fn fmt<W: fmt::Write>(&self, f: &mut fmt::Formatter<W>) -> fmt::Result {
        match self {
            Failure::NoPassword => write!(f, "no password on standard input"),
            Failure::NoText => write!(f, "no text on standard input"),
            Failure::BadName => write!(f, "a name has 1 to 64 bytes"),
            Failure::TooLong => write!(f, "the password is too long"),
            Failure::NeedsPreparation => {
                write!(
                    f,
                    "a password for PostgreSQL has to be ASCII: no SASLprep here"
                )
            }
            Failure::NotAText => write!(f, "not the text of a password"),
            Failure::TooManyIterations => write!(f, "the text has too many iterations"),
            Failure::WrongPassword => write!(f, "wrong password"),
            Failure::WrongNameOrPassword => write!(f, "wrong name or password"),
            Failure::NoSuchName => write!(f, "no such name"),
            Failure::NoFile => write!(f, "no such file"),
            Failure::NoFolder => write!(f, "no such folder"),
            Failure::NotAFile => write!(f, "not a regular file"),
            Failure::Temporary => write!(f, "the name is one of a temporary file"),
            Failure::Linked => write!(f, "the file has another name, a hard link"),
            Failure::NotAStore => write!(f, "not a password store"),
            Failure::BadLock => { write!(f, "its lock is not an empty regular file of this user") }
            Failure::InUse => write!(f, "another process has locked the file"),
            Failure::Memory => write!(f, "out of memory"),
            Failure::System(step, error) => write!(f, "{step}: {error}"),
        }
    }
}

/// How a run ended: why, and on which file, if the call names one.
#[derive(Clone, Copy)]
pub struct Ended<'a> {
    /// Why.
    pub failure: &'a Failure,
    /// The file, as it was typed.
    pub path: Option<&'a str>,
}

impl Ended<'_> {
    /// One line. A failure of the file begins with the file.
    pub fn line(self, alloc: Global) -> Result<Vec<u8>, AllocError>
        ensures ok { IfOk result (λ line. AppendsText [] line.items (ended_text self.entry)) }
    {
        let mut line = Vec::new(alloc);
        match self.path {
            Some(path) if self.failure.is_of_file() => {
                append_quoted(&mut line, path)?;
                line.extend_from_slice(b": ")?;
                append_failure(alloc, &mut line, self.failure)?;
            }
            _ => append_failure(alloc, &mut line, self.failure)?,
        }
        Ok(line)
    }
}

/// Appends why a run ends.
fn append_failure(alloc: Global, line: &mut Vec<u8>, failure: &Failure) -> Result<(), AllocError>
    ensures ok { OnOk result
        (AppendsText line.old.items line.new.items (failure_text failure.now)) }
{
    let text = format!(in alloc; "{failure}")?;
    line.extend_from_slice(text.as_bytes())?;
    Ok(())
}

/// An allocation failure.
impl From<AllocError> for Failure {
    ghost from_gives = { λ _ failure. failure ≡ Memory };

    fn from(_error: AllocError) -> Self {
        Failure::Memory
    }
}

/// A store's refusal.
impl From<StoreError> for Failure {
    ghost from_gives = { λ error failure. failure ≡ failure_of error };

    fn from(error: StoreError) -> Self {
        match error {
            StoreError::BadName => Failure::BadName,
            StoreError::TooLong => Failure::TooLong,
            StoreError::WrongUsernameOrPassword => Failure::WrongNameOrPassword,
            StoreError::Memory => Failure::Memory,
        }
    }
}
