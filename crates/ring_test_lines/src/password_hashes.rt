// SPDX-License-Identifier: ISC
//! What is asked of password hashes.

ghost use Rattle.ring_password_hash.specs.Stored.{IsStored};

use crate::fault::Fault;
use crate::words::{bytes_in, count_in, line_of, scheme_in, text_in};
use ring_password_hash::{MAX_TEXT_LEN, Stored, verify};
use std::alloc::Global;

/// The text of a value, as a line.
fn text_of(alloc: Global, stored: &Stored) -> Result<String, Fault>
    requires { IsStored stored.now }
{
    let mut text = [0; MAX_TEXT_LEN];
    let len = stored.write_to(&mut text)?;
    line_of(alloc, &text[..len])
}

/// The scheme and the iterations of a text, and the text again.
pub fn read(alloc: Global, text: &str) -> Result<String, Fault> {
    let stored = Stored::parse(&text_in(alloc, text)?)?;
    let scheme = stored.scheme();
    let iterations = stored.iterations();
    let again = text_of(alloc, &stored)?;
    Ok(format!(in alloc; "{scheme} {iterations} {again}")?)
}

/// Whether a text is of a password.
pub fn verified(alloc: Global, text: &str, password: &str, most: &str) -> Result<String, Fault> {
    let text = text_in(alloc, text)?;
    let password = bytes_in(alloc, password)?;
    verify(&text, &password, count_in(most)?.get())?;
    Ok(String::from_str(alloc, "ok")?)
}

/// The text of a new value.
pub fn made(
    alloc: Global,
    scheme: &str,
    iterations: &str,
    inputs: [&str; 2],
) -> Result<String, Fault> {
    let salt = bytes_in(alloc, inputs[0])?;
    let password = bytes_in(alloc, inputs[1])?;
    let iterations = count_in(iterations)?;
    let stored = Stored::new(
        scheme_in(scheme)?,
        &password,
        &salt,
        iterations,
        MAX_TEXT_LEN,
    )?;
    text_of(alloc, &stored)
}
