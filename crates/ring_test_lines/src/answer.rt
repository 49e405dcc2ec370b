// SPDX-License-Identifier: ISC
//! The answer to a line.

use crate::fault::Fault;
use crate::password_hashes::{made, read, verified};
use crate::schedules::secret_bytes;
use crate::tokens::token_answer;
use crate::trees::tree_answer;
use crate::words::digits_of;
use std::alloc::Global;

/// The answer to a line.
pub fn answer(alloc: Global, line: &str) -> Result<String, Fault> {
    let words: Vec<&str> = line.split_whitespace().collect(alloc)?;
    match words.as_slice() {
        ["read", text] => read(alloc, text),
        ["verify", text, password, most] => verified(alloc, text, password, most),
        ["make", scheme, iterations, salt, password] => {
            made(alloc, scheme, iterations, [salt, password])
        }
        ["root" | "path" | "proof" | "include" | "consistent", ..] => {
            tree_answer(alloc, words.as_slice())
        }
        ["jws" | "hotp" | "totp" | "github" | "stripe", ..] => {
            token_answer(alloc, words.as_slice())
        }
        words => digits_of(alloc, secret_bytes(alloc, words)?.as_slice()),
    }
}
