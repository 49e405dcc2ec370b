// SPDX-License-Identifier: ISC
//! Keeps passwords in a file: `FILE set|verify|remove NAME` and `FILE list`. `encode SCHEME` and
//! `check` write and test the texts of other systems. `--help` and `--version` tell of the program.
//!
//! A password is one line of standard input. The file has the text of a store, as `ring_store`
//! writes it, and is replaced whole or not at all. `docs/PASSWORDS.md` has the statuses and the
//! messages.
#![tactic(auto)]

ghost use Rattle.std.specs.Prelude.{◌≡◌, ◌⊎◌, IfErr};
ghost use Rattle.ring_passwords.specs.Failure.{status_of};

use crate::about::{About, write_about};
use crate::action::Action;
use crate::asked::{Asked, asked_of};
use crate::change::{ADVISED_ITERATIONS, FEWEST_ITERATIONS};
use crate::check::check;
use crate::conversion::{Conversion, max_iterations};
use crate::encode::{encode_salted, iterations_of_text};
use crate::failure::{Ended, FAILED, Failure, Step};
use crate::listing::write_listing;
use crate::order::{remove_from_file, set_in_file, verify_in_file};
use crate::password::MAX_PASSWORD_LEN;
use crate::steps::Steps;
use crate::system::System;
use ring::cost::Meter;
use ring_password_hash::{MAX_TEXT_LEN, Scheme};
use std::alloc::AllocError;
use std::fs::File;
use std::io::Read;
use std::num::NonZeroU32;
use std::process::ExitCode;
use std::random::RandomSource;
use std::rt::{Clock, Env, Files};
use std::{env, io};

mod about;
mod action;
mod asked;
mod change;
mod check;
mod conversion;
#[cfg(test)]
mod disk;
mod encode;
#[cfg(test)]
mod failing_steps;
mod failure;
mod file;
mod folder;
mod given;
mod listing;
mod lock;
#[cfg(test)]
mod memory;
mod misuse;
mod order;
mod output;
mod password;
mod quoted;
mod regular;
mod replace;
mod salt;
mod steps;
mod store_file;
mod system;
mod temporary;
#[cfg(test)]
mod tests;
mod word;

/// The most bytes that `check` reads: a text, a password and their line feeds.
const MAX_CHECKED_LEN: u64 = (MAX_TEXT_LEN + MAX_PASSWORD_LEN) as u64 + 2;

/// The program's arguments, without its own name.
fn arguments<R: Env + AllocGlobal>(rt: &R) -> Result<Vec<String>, Failure>
    ensures status { IfErr result (λ failure. status_of failure ≡ 2) }
{
    let words = env::args(rt).map_err(|error| Failure::System(Step::Arguments, error))?;
    let words = words.skip(1).collect(rt.alloc())?;
    Ok(words)
}

/// Writes the names of a file, a line each.
fn list<R: Files<File = File> + AllocGlobal + Print>(rt: &R, path: &str) -> Result<(), Failure>
    ensures status { IfErr result (λ failure. status_of failure ≡ 2) }
{
    let store = file::load(rt, path)?;
    write_listing(rt.alloc(), &store, &mut io::writer(rt))
}

/// Writes the text of a password, under a random salt.
fn write_encoded<R>(rt: &R, scheme: Scheme, iterations: NonZeroU32) -> Result<(), Failure>
where
    R: Files<File = File> + AllocGlobal + Clock + Clone + Drop + RandomSource,
    R: Input + Print,
    ensures status { IfErr result (λ failure. status_of failure ≡ 2) }
{
    let mut system = System { rt };
    let password = system.password()?;
    encode_salted(
        &mut system,
        scheme,
        &password,
        iterations,
        &mut io::writer(rt),
    )
}

/// Does what is asked of the text of a password.
fn convert<R>(rt: &R, asked: Conversion) -> Result<(), Failure>
where
    R: Files<File = File> + AllocGlobal + Clock + Clone + Drop + RandomSource,
    R: Input + Print,
    ensures status { IfErr result (λ failure. (status_of failure ≡ 2)
        ⊎ (failure ≡ Failure.WrongPassword)) }
{
    match asked {
        Conversion::Encode(scheme, given) => {
            write_encoded(rt, scheme, iterations_of_text(scheme, given))
        }
        Conversion::Check(given) => {
            let most = max_iterations(given);
            let mut reader = rt.reader().take(MAX_CHECKED_LEN);
            check(rt.alloc(), &mut reader, most, &mut Meter::new())
        }
    }
}

/// Writes what is asked of the program itself.
fn tell<R: Print>(rt: &R, about: About) -> Result<(), Failure>
    ensures status { IfErr result (λ failure. status_of failure ≡ 2) }
{
    write_about(about, &mut io::writer(rt)).map_err(|error| Failure::System(
        Step::WriteAbout,
        error,
    ))
}

/// Warns of a store's few iterations. Where standard error fails, the password is set all the same.
fn warn_of_few<R: Eprint>(rt: &R) {
    let _ = eprintln!(rt;
        "passwords: warning: with fewer than {FEWEST_ITERATIONS} iterations, whoever reads the \
        file can guess at passwords cheaply; {ADVISED_ITERATIONS} are advised"
    );
}

/// Does what is asked of a file.
fn act<R>(rt: &R, path: &str, action: Action<'_>) -> Result<(), Failure>
where
    R: Files<File = File> + AllocGlobal + Clock + Clone + Drop + RandomSource,
    R: Eprint + Input + Print,
{
    let alloc = rt.alloc();
    let mut system = System { rt };
    match action {
        Action::Set(name, iterations) => {
            let iterations = set_in_file(alloc, &mut system, path, name.as_bytes(), iterations)?;
            if change::is_few(iterations) {
                warn_of_few(rt);
            }
            Ok(())
        }
        Action::Verify(name) => {
            verify_in_file(alloc, &mut system, path, name.as_bytes(), &mut Meter::new())
        }
        Action::Remove(name) => remove_from_file(alloc, &mut system, path, name.as_bytes()),
        Action::List => list(rt, path),
    }
}

/// Writes a message, behind the program's name. Where standard error fails too, the status still
/// tells.
fn show<R: AllocGlobal + Eprint>(rt: &R, line: Result<Vec<u8>, AllocError>) {
    let line = match &line {
        Ok(line) => String::from_utf8_lossy(rt.alloc(), line),
        Err(error) => Err(*error),
    };
    let _ = match line {
        Ok(line) => eprintln!(rt; "passwords: {line}"),
        Err(error) => eprintln!(rt; "passwords: {}", Failure::from(error)),
    };
}

/// Writes why a run ends without success, and gives its status.
fn fail<R: AllocGlobal + Eprint>(rt: &R, failure: &Failure, path: Option<&str>) -> ExitCode {
    let ended = Ended { failure, path };
    show(rt, ended.line(rt.alloc()));
    ExitCode::from(failure.status())
}

/// Does what the words ask for, or writes what is wrong with them.
fn run<R>(rt: &R, words: &[String]) -> ExitCode
where
    R: Files<File = File> + AllocGlobal + Clock + Clone + Drop + RandomSource,
    R: Eprint + Input + Print,
{
    let asked = match asked_of(words) {
        Ok(asked) => asked,
        Err(misuse) => {
            show(rt, misuse.line(rt.alloc()));
            return ExitCode::from(FAILED);
        }
    };
    let (path, done) = match asked {
        Asked::About(about) => (None, tell(rt, about)),
        Asked::OfText(conversion) => (None, convert(rt, conversion)),
        Asked::OfFile(path, action) => (Some(path), act(rt, path, action)),
    };
    match done {
        Ok(()) => ExitCode::SUCCESS,
        Err(failure) => fail(rt, &failure, path),
    }
}

fn main(rt: HostRuntime) -> ExitCode {
    match arguments(&rt) {
        Ok(words) => run(&rt, &words),
        Err(failure) => fail(&rt, &failure, None),
    }
}
