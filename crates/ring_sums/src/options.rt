// SPDX-License-Identifier: ISC
//! What the arguments ask for.

use crate::entry::tag_of;
use ring::digest::{ALGORITHMS, Algorithm};
use std::alloc::{AllocError, Global};

/// What a check writes. The last of `--status`, `--quiet` and `--warn` holds.
#[derive(Clone, Copy, PartialEq, Eq)]
pub(crate) enum Amount {
    /// A line for each file.
    All,
    /// No line for a file that has the listed digest.
    Quiet,
    /// Nothing.
    Status,
    /// A line for each file, and a warning for each line that is badly formed.
    Warn,
}

/// What is asked of files.
#[derive(Clone, Copy)]
pub(crate) struct Options {
    /// The one that is named.
    pub(crate) algorithm: Option<Algorithm>,
    /// Whether the lines are marked as binary, where an option says it.
    pub(crate) is_binary: Option<bool>,
    pub(crate) does_check: bool,
    pub(crate) is_tagged: bool,
    pub(crate) is_zero: bool,
    pub(crate) amount: Amount,
    pub(crate) is_strict: bool,
    pub(crate) ignores_missing: bool,
    pub(crate) is_recursive: bool,
    pub(crate) shows_progress: bool,
}

/// An option.
#[derive(Clone, Copy, PartialEq, Eq)]
pub(crate) enum Flag {
    Algorithm,
    Binary,
    Check,
    IgnoreMissing,
    Quiet,
    Status,
    Warn,
    Strict,
    Tag,
    Text,
    Zero,
    Recursive,
    Progress,
    Help,
    Version,
}

/// The names of options and their letters, in the order in which a message lists them.
const NAMES: [(&[u8], Option<u8>, Flag); 15] = [
    (b"check", Some(b'c'), Flag::Check),
    (b"ignore-missing", None, Flag::IgnoreMissing),
    (b"quiet", None, Flag::Quiet),
    (b"status", None, Flag::Status),
    (b"warn", Some(b'w'), Flag::Warn),
    (b"strict", None, Flag::Strict),
    (b"tag", None, Flag::Tag),
    (b"zero", Some(b'z'), Flag::Zero),
    (b"binary", Some(b'b'), Flag::Binary),
    (b"text", Some(b't'), Flag::Text),
    (b"help", None, Flag::Help),
    (b"version", None, Flag::Version),
    (b"algorithm", Some(b'a'), Flag::Algorithm),
    (b"recursive", Some(b'r'), Flag::Recursive),
    (b"progress", None, Flag::Progress),
];

/// Why the arguments ask for nothing that is done.
#[derive(Clone, Copy, PartialEq, Eq)]
pub(crate) enum Misuse {
    /// A word that is no long option.
    Unrecognized,
    /// A word that is the front of several.
    Ambiguous,
    /// A long option with a value that takes none.
    ValueOf,
    /// A letter that is no option.
    Invalid,
    /// An option by its letter without its value.
    LetterLacks,
    /// An option by its long name without its value.
    NameLacks,
    /// A value that names no algorithm.
    NoAlgorithm,
    /// `--tag` with `--text`.
    TaggedText,
    /// What an option is when checksums are verified.
    InChecks,
    /// An option that is for a check alone.
    OnlyInChecks,
}

/// What the arguments ask for.
#[derive(Drop)]
pub(crate) enum Request<'a> {
    Help,
    Version,
    /// The digests of files, or a check of lists: the options and the operands.
    Files(Options, Vec<&'a [u8]>),
    /// Why not, and the word that shows it.
    Refused(Misuse, &'a [u8]),
}

/// A byte of a tag, as `--algorithm` takes it.
fn name_byte(byte: u8) -> u8 {
    match byte {
        b'/' => b'-',
        _ => byte.to_ascii_lowercase(),
    }
}

/// The name of an algorithm as `--algorithm` takes it: `sha512-256` where the tag is `SHA512/256`.
pub(crate) fn option_name(alloc: Global, algorithm: &Algorithm) -> Result<Vec<u8>, AllocError> {
    let tag = tag_of(algorithm).as_bytes();
    tag.iter().map(|byte| name_byte(*byte)).collect(alloc)
}

/// Whether an algorithm has this name.
fn is_named(algorithm: &Algorithm, name: &[u8]) -> bool {
    let tag = tag_of(algorithm).as_bytes();
    let mut bytes = tag.iter().zip(name);
    tag.len() == name.len() && bytes.all(|(of_tag, byte)| name_byte(*of_tag) == *byte)
}

/// The algorithm with a name as `--algorithm` takes it.
fn algorithm_of(name: &[u8]) -> Option<Algorithm> {
    ALGORITHMS
        .iter()
        .copied()
        .find(|algorithm| is_named(algorithm, name))
}

/// The algorithm that a program's name has in it, as `sha256sums`, `sha256sum` and paths to these.
pub(crate) fn algorithm_of_program(program: &[u8]) -> Option<Algorithm> {
    let name = match program.iter().rposition(|byte| *byte == b'/') {
        Some(place) => &program[place + 1..],
        None => program,
    };
    let name = name.strip_suffix(b"s").unwrap_or(name);
    algorithm_of(name.strip_suffix(b"sum")?)
}

/// The option of a letter.
fn flag_of_letter(letter: u8) -> Option<Flag> {
    for (_, short, flag) in NAMES {
        if short == Some(letter) {
            return Some(flag);
        }
    }
    None
}

/// The long names that begin with some bytes, which a message lists.
pub(crate) fn names_from(alloc: Global, front: &[u8]) -> Result<Vec<&'static [u8]>, AllocError> {
    let mut names = Vec::new(alloc);
    for (name, _, _) in NAMES {
        if name.starts_with(front) {
            names.push(name)?;
        }
    }
    Ok(names)
}

/// How many long names begin with some bytes, and the last of them. A name itself is the only one.
fn find_long(front: &[u8]) -> (usize, Option<(&'static [u8], Flag)>) {
    let mut count = 0_usize;
    let mut found = None;
    for (name, _, flag) in NAMES {
        if name == front {
            return (1, Some((name, flag)));
        }
        if name.starts_with(front) {
            count = count.saturating_add(1);
            found = Some((name, flag));
        }
    }
    (count, found)
}

/// The arguments that are being read.
#[derive(Drop)]
struct Parser<'a> {
    words: &'a [Vec<u8>],
    /// The place of the next word.
    next: usize,
    options: Options,
    operands: Vec<&'a [u8]>,
}

/// An option that is read, or what ends the reading.
type Step<'a> = Result<(), Request<'a>>;

impl<'a> Parser<'a> {
    /// The next word, which an option takes as its value.
    fn take_word(&mut self) -> Option<&'a [u8]> {
        let word = self.words.get(self.next)?;
        self.next += 1;
        Some(word)
    }

    /// Sets an option that takes no value.
    fn set(&mut self, flag: Flag) -> Step<'a> {
        let options = &mut self.options;
        match flag {
            Flag::Help => return Err(Request::Help),
            Flag::Version => return Err(Request::Version),
            Flag::Binary => options.is_binary = Some(true),
            Flag::Text => options.is_binary = Some(false),
            Flag::Tag => {
                options.is_tagged = true;
                options.is_binary = Some(true);
            }
            Flag::Check => options.does_check = true,
            Flag::IgnoreMissing => options.ignores_missing = true,
            Flag::Quiet => options.amount = Amount::Quiet,
            Flag::Status => options.amount = Amount::Status,
            Flag::Warn => options.amount = Amount::Warn,
            Flag::Strict => options.is_strict = true,
            Flag::Zero => options.is_zero = true,
            Flag::Recursive => options.is_recursive = true,
            Flag::Progress => options.shows_progress = true,
            Flag::Algorithm => {}
        }
        Ok(())
    }

    /// Sets the algorithm.
    fn set_algorithm(&mut self, name: &'a [u8]) -> Step<'a> {
        match algorithm_of(name) {
            Some(algorithm) => {
                self.options.algorithm = Some(algorithm);
                Ok(())
            }
            None => refused(Misuse::NoAlgorithm, name),
        }
    }

    /// Reads a word behind `--`.
    fn read_long(&mut self, word: &'a [u8]) -> Step<'a> {
        let (front, value) = match word.iter().position(|byte| *byte == b'=') {
            Some(place) => (&word[..place], Some(&word[place + 1..])),
            None => (word, None),
        };
        let (count, found) = find_long(front);
        let Some((name, flag)) = found else {
            return refused(Misuse::Unrecognized, word);
        };
        let name: &'a [u8] = name;
        match (count, flag) {
            (1, Flag::Algorithm) => self.read_algorithm(value, Misuse::NameLacks, name),
            (1, flag) => match value {
                Some(_) => refused(Misuse::ValueOf, name),
                None => self.set(flag),
            },
            _ => refused(Misuse::Ambiguous, word),
        }
    }

    /// Reads the letters behind `-`.
    fn read_letters(&mut self, word: &'a [u8]) -> Step<'a> {
        for (place, byte) in word.iter().enumerate() {
            let letter = word.get(place..=place).unwrap_or(&[]);
            match flag_of_letter(*byte) {
                Some(Flag::Algorithm) => {
                    let behind = word.get(place.saturating_add(1)..);
                    let value = behind.filter(|behind| !behind.is_empty());
                    return self.read_algorithm(value, Misuse::LetterLacks, letter);
                }
                Some(flag) => self.set(flag)?,
                None => return refused(Misuse::Invalid, letter),
            }
        }
        Ok(())
    }

    /// Reads the algorithm that stands behind its option or in the next word.
    fn read_algorithm(
        &mut self,
        value: Option<&'a [u8]>,
        lacks: Misuse,
        option: &'a [u8],
    ) -> Step<'a> {
        match value.or_else(|| self.take_word()) {
            Some(value) => self.set_algorithm(value),
            None => refused(lacks, option),
        }
    }

    /// Reads all words.
    fn read(mut self) -> Result<Request<'a>, AllocError> {
        let mut are_operands = false;
        for _ in 0..self.words.len() {
            let Some(word) = self.take_word() else {
                break;
            };
            let step = match word {
                b"--" if !are_operands => {
                    are_operands = true;
                    Ok(())
                }
                [b'-', b'-', long @ ..] if !are_operands => self.read_long(long),
                [b'-', _, ..] if !are_operands => self.read_letters(&word[1..]),
                _ => {
                    self.operands.push(word)?;
                    Ok(())
                }
            };
            if let Err(request) = step {
                return Ok(request);
            }
        }
        Ok(match conflict_of(&self.options) {
            Some((misuse, text)) => Request::Refused(misuse, text.as_bytes()),
            None => Request::Files(self.options, self.operands),
        })
    }
}

fn refused(misuse: Misuse, word: &[u8]) -> Step<'_> {
    Err(Request::Refused(misuse, word))
}

/// The text of the first option that is given.
fn first_given(options: &[(bool, &'static str)]) -> Option<&'static str> {
    for (is_given, text) in options {
        if *is_given {
            return Some(*text);
        }
    }
    None
}

/// What is wrong with options that are each right: some a check does not take, others it alone.
fn conflict_of(options: &Options) -> Option<(Misuse, &'static str)> {
    if options.is_tagged && options.is_binary == Some(false) {
        return Some((Misuse::TaggedText, "--tag"));
    }
    if options.does_check {
        let text = first_given(&[
            (options.is_zero, "--zero option is not supported"),
            (options.is_tagged, "--tag option is meaningless"),
            (
                options.is_binary.is_some(),
                "--binary and --text options are meaningless",
            ),
            (options.is_recursive, "--recursive option is meaningless"),
        ])?;
        return Some((Misuse::InChecks, text));
    }
    let name = first_given(&[
        (options.ignores_missing, "--ignore-missing"),
        (options.amount == Amount::Status, "--status"),
        (options.amount == Amount::Warn, "--warn"),
        (options.amount == Amount::Quiet, "--quiet"),
        (options.is_strict, "--strict"),
    ])?;
    Some((Misuse::OnlyInChecks, name))
}

/// What the arguments behind the program's name ask for.
pub(crate) fn request_of<'a>(
    alloc: Global,
    program: &[u8],
    words: &'a [Vec<u8>],
) -> Result<Request<'a>, AllocError> {
    let parser = Parser {
        words,
        next: 0,
        options: Options {
            algorithm: algorithm_of_program(program),
            is_binary: None,
            does_check: false,
            is_tagged: false,
            is_zero: false,
            amount: Amount::All,
            is_strict: false,
            ignores_missing: false,
            is_recursive: false,
            shows_progress: false,
        },
        operands: Vec::new(alloc),
    };
    parser.read()
}
