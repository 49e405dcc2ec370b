// SPDX-License-Identifier: ISC
//! The words of a call that are always the same.

ghost use Rattle.std.specs.Prelude.{◌≡◌, ◌≢◌, ◌↔◌, IfSome, IsNone, IsTrue};
ghost use Rattle.ring_passwords.specs.Word.{command_word, option_word};
ghost use Rattle.ring_passwords.specs.declared.word.Command.{Command};

/// What is done with a file.
#[derive(Clone, Copy)]
pub enum Command {
    /// Sets a name's password.
    Set,
    /// Tests a name's password.
    Verify,
    /// Removes a name.
    Remove,
    /// Writes the names.
    List,
}

impl Command {
    /// The command that a word is.
    pub fn named(word: &str) -> Option<Command>
        ensures ok { IfSome result (λ command. word.now ≡ command_word command) }
        ensures none { IsNone result → (command : Command) → word.now ≢ command_word command }
    {
        match word {
            "set" => Some(Command::Set),
            "verify" => Some(Command::Verify),
            "remove" => Some(Command::Remove),
            "list" => Some(Command::List),
            _ => None,
        }
    }

    /// The word.
    pub fn word(self) -> &'static str
        ensures { result.now ≡ command_word self }
    {
        match self {
            Command::Set => "set",
            Command::Verify => "verify",
            Command::Remove => "remove",
            Command::List => "list",
        }
    }
}

/// What a number is given for.
#[derive(Clone, Copy)]
pub enum CountOption {
    /// The iterations of a store or of a new text.
    Iterations,
    /// The most iterations of a text that is tested.
    MaxIterations,
}

impl CountOption {
    /// The word.
    pub fn word(self) -> &'static str
        ensures { result.now ≡ option_word self }
    {
        match self {
            CountOption::Iterations => "--iterations",
            CountOption::MaxIterations => "--max-iterations",
        }
    }

    /// Whether a word is the option's.
    pub fn is(self, word: &str) -> bool
        ensures { IsTrue result ↔ (word.now ≡ option_word self) }
    {
        word == self.word()
    }
}
