// SPDX-License-Identifier: ISC
//! What is wrong with the words of a call.

ghost use Rattle.std.specs.Prelude.{◌≡◌, ◌++◌, IfOk, OnOk};
ghost use Rattle.ring_passwords.specs.Misuse.{misuse_text, number_text, unknown_scheme_text};
ghost use Rattle.ring_passwords.specs.Schemes.{schemes_text};

use crate::about::USAGE;
use crate::quoted::append_quoted;
use crate::word::{Command, CountOption};
use std::alloc::{AllocError, Global};

/// The names of the schemes, with a comma and a space between two.
const SCHEME_NAMES: &str = "django-sha256, django-sha1, werkzeug-sha256, werkzeug-sha512, \
    phc-sha256, phc-sha512, mosquitto, passlib-sha1, passlib-sha256, passlib-sha512, \
    postgresql, werkzeug-sha1";

/// What follows a file without a command.
const NO_COMMAND: &str = ": no command; the commands are set, verify, remove and list";

/// What is wrong with the words of a call, and the words that it is wrong with.
#[derive(Clone, Copy)]
pub enum Misuse<'a> {
    /// There is no word.
    NoWords,
    /// The file has no command behind it.
    NoCommand(&'a str),
    /// The word behind the file is no command: the file, and the word.
    UnknownCommand(&'a str, &'a str),
    /// The command has no name behind it.
    NoName(Command),
    /// `encode` has no scheme behind it.
    NoScheme,
    /// The word behind `encode` is no scheme.
    UnknownScheme(&'a str),
    /// The option has no number behind it.
    NoCount(CountOption),
    /// The word behind the option is no number of 1 to 4,294,967,295.
    BadCount(CountOption, &'a str),
    /// There is a word more than the call can have.
    Unexpected(&'a str),
}

impl Misuse<'_> {
    /// One line that shows the words of the call, or the usage where there is no word.
    pub fn line(self, alloc: Global) -> Result<Vec<u8>, AllocError>
        ensures ok { IfOk result (λ line. line.items ≡ misuse_text self.entry) }
    {
        let mut line = Vec::new(alloc);
        self.append_to(&mut line)?;
        Ok(line)
    }

    fn append_to(self, line: &mut Vec<u8>) -> Result<(), AllocError>
        ensures ok { OnOk result (line.new.items ≡ line.old.items ++ misuse_text self.entry) }
    {
        match self {
            Misuse::NoWords => append(line, USAGE),
            Misuse::NoCommand(file) => {
                append_quoted(line, file)?;
                append(line, NO_COMMAND)
            }
            Misuse::UnknownCommand(file, word) => {
                append_quoted(line, file)?;
                append(line, ": no such command: ")?;
                append_quoted(line, word)
            }
            Misuse::NoName(command) => {
                append(line, command.word())?;
                append(line, " needs a name")
            }
            Misuse::NoScheme => {
                append(line, "encode needs a scheme; the schemes are ")?;
                append_schemes(line)?;
                Ok(())
            }
            Misuse::UnknownScheme(word) => append_unknown_scheme(line, word),
            Misuse::NoCount(option) => append_need(line, option),
            Misuse::BadCount(option, word) => {
                append_need(line, option)?;
                append(line, ", not ")?;
                append_quoted(line, word)
            }
            Misuse::Unexpected(word) => {
                append(line, "one word too many: ")?;
                append_quoted(line, word)
            }
        }
    }
}

/// Appends text.
fn append(line: &mut Vec<u8>, text: &str) -> Result<(), AllocError>
    ensures ok { OnOk result (line.new.items ≡ line.old.items ++ text.now) }
{
    line.extend_from_slice(text.as_bytes())?;
    Ok(())
}

/// Appends the names of the schemes.
fn append_schemes(line: &mut Vec<u8>) -> Result<(), AllocError>
    ensures ok { OnOk result (line.new.items ≡ line.old.items ++ schemes_text) }
{
    append(line, SCHEME_NAMES)
}

/// Appends that a word is no scheme.
fn append_unknown_scheme(line: &mut Vec<u8>, word: &str) -> Result<(), AllocError>
    ensures ok { OnOk result (line.new.items ≡ line.old.items ++ unknown_scheme_text word.now) }
{
    append(line, "no such scheme: ")?;
    append_quoted(line, word)?;
    append(line, "; the schemes are ")?;
    append_schemes(line)
}

/// Appends which numbers an option takes.
fn append_need(line: &mut Vec<u8>, option: CountOption) -> Result<(), AllocError>
    ensures ok { OnOk result (line.new.items ≡ line.old.items ++ number_text option) }
{
    append(line, option.word())?;
    append(line, " needs a number of 1 to 4294967295")
}
