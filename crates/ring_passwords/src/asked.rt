// SPDX-License-Identifier: ISC
//! What a call asks for, by its words.

ghost use Rattle.std.specs.Prelude.{◌≡◌, ◌∷◌, List, ℕ, map, string_bytes};
ghost use Rattle.std.specs.Prelude.{IfErr, IfOk, IfSome, IsNone};
ghost use Rattle.ring_passwords.specs.Asked.{IsMisuse, IsOfNoFile, IsWrongBare, asked_words};
ghost use Rattle.ring_passwords.specs.Word.{command_word};

use crate::about::About;
use crate::action::{Action, action_of};
use crate::conversion::{Conversion, check_of, encode_of};
use crate::misuse::Misuse;
use crate::word::Command;

/// What a call asks for.
#[derive(Clone, Copy)]
pub enum Asked<'a> {
    /// What the program tells of itself.
    About(About),
    /// Something of a password's text.
    OfText(Conversion),
    /// Something of this file.
    OfFile(&'a str, Action<'a>),
}

/// What the words of a call ask for. A call is one of a file exactly if its second word is a
/// command's.
///
/// Refused with what is wrong with the words exactly if they ask for nothing.
pub fn asked_of(words: &[String]) -> Result<Asked<'_>, Misuse<'_>>
    ensures ok { IfOk result (λ asked. map string_bytes words.now ≡ asked_words asked) }
    ensures refused { IfErr result (λ misuse. IsMisuse misuse (map string_bytes words.now)) }
{
    let [first, rest @ ..] = words else {
        return Err(Misuse::NoWords);
    };
    let first = first.as_str();
    match command_in(rest) {
        Some((command, rest)) => {
            let action = action_of(command, rest)?;
            Ok(Asked::OfFile(first, action))
        }
        None => asked_without_file(first, rest),
    }
}

/// The command that the first of the words is, and the words behind it.
fn command_in(words: &[String]) -> Option<(Command, &[String])>
    ensures ok { IfSome result (λ found.
        map string_bytes words.now ≡ command_word found.0 ∷ map string_bytes found.1.now) }
    ensures none { IsNone result → IsOfNoFile (map string_bytes words.now) }
{
    let [word, rest @ ..] = words else {
        return None;
    };
    match Command::named(word.as_str()) {
        Some(command) => Some((command, rest)),
        None => None,
    }
}

/// What a first word asks for that is no file, and the words behind it, of which the first is no
/// command.
fn asked_without_file<'a>(first: &'a str, rest: &'a [String]) -> Result<Asked<'a>, Misuse<'a>>
    requires { IsOfNoFile (map string_bytes rest.now) }
    ensures ok { IfOk result (λ asked.
        first.now ∷ map string_bytes rest.now ≡ asked_words asked) }
    ensures refused { IfErr result (λ misuse.
        IsWrongBare misuse first.now (map string_bytes rest.now)) }
{
    match (first, rest) {
        ("--help", []) => Ok(Asked::About(About::Help)),
        ("--version", []) => Ok(Asked::About(About::Version)),
        ("encode", words) => {
            let conversion = encode_of(words)?;
            Ok(Asked::OfText(conversion))
        }
        ("check", words) => {
            let conversion = check_of(words)?;
            Ok(Asked::OfText(conversion))
        }
        (file, []) => Err(Misuse::NoCommand(file)),
        (file, [word, ..]) => Err(Misuse::UnknownCommand(file, word.as_str())),
    }
}
