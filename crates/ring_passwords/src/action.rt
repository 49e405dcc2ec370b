// SPDX-License-Identifier: ISC
//! What the arguments ask for of a file.

ghost use Rattle.std.specs.Prelude.{◌≡◌, ◌∷◌, map, string_bytes, IfErr, IfOk};
ghost use Rattle.ring_passwords.specs.Action.{action_words};
ghost use Rattle.ring_passwords.specs.Misuse.{IsWrongAction};
ghost use Rattle.ring_passwords.specs.Word.{command_word};

use crate::given::{count_given, nothing_more};
use crate::misuse::Misuse;
use crate::word::{Command, CountOption};
use std::num::NonZeroU32;

/// What is done with a file.
#[derive(Clone, Copy)]
pub enum Action<'a> {
    /// Sets a name's password, and the store's iterations where they are given.
    Set(&'a str, Option<NonZeroU32>),
    /// Tests a name's password.
    Verify(&'a str),
    /// Removes a name.
    Remove(&'a str),
    /// Writes the names.
    List,
}

/// The action that the command and the words behind it ask for.
pub fn action_of(command: Command, words: &[String]) -> Result<Action<'_>, Misuse<'_>>
    ensures ok { IfOk result (λ action.
        command_word command ∷ map string_bytes words.now ≡ action_words action) }
    ensures refused { IfErr result (λ misuse.
        IsWrongAction command misuse (map string_bytes words.now)) }
{
    match (command, words) {
        (Command::List, _) => {
            nothing_more(words)?;
            Ok(Action::List)
        }
        (_, []) => Err(Misuse::NoName(command)),
        (Command::Set, [name, rest @ ..]) => {
            let given = count_given(CountOption::Iterations, rest)?;
            Ok(Action::Set(name.as_str(), given))
        }
        (Command::Verify, [name, rest @ ..]) => {
            nothing_more(rest)?;
            Ok(Action::Verify(name.as_str()))
        }
        (Command::Remove, [name, rest @ ..]) => {
            nothing_more(rest)?;
            Ok(Action::Remove(name.as_str()))
        }
    }
}
