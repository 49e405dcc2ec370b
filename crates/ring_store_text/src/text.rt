// SPDX-License-Identifier: ISC
//! The lines of a store's text: each part has a call that writes it and one that reads it.

ghost use Rattle.std.specs.Prelude.{◌≡◌, ◌≢◌, ◌↔◌, ℕ, List, [], ◌++◌, length, IfSome, IsNone};
ghost use Rattle.std.specs.Prelude.{IsTrue, OnOk, true};
ghost use Rattle.hex.specs.Hex.{IsBytes, encode_lower, hex_digit_value};
ghost use Rattle.std.specs.declared.num.NonZeroU32.{NonZeroU32};
ghost use Rattle.ring_store.specs.Store.{is_name};
ghost use Rattle.ring_store_text.specs.Text.{AreLines, IsEntry, IsHead};
ghost use Rattle.ring_store_text.specs.Text.{head_then, hex_then, record_then};
ghost use Rattle.ring_store.specs.declared.credential.Record.{Record};

use ring::polyfill::slice::write_at;
use ring_store::{CREDENTIAL_LEN, DB_SALT_LEN, MAX_NAME_LEN, Record};
use ring_text::{after, append_count, count_before, cut_at, fill_from_hex};
use std::alloc::{AllocError, Allocator};
use std::num::NonZeroU32;

// The start of every text: the name of the format and its version.
const MARK: &[u8] = b"ring_store 1 ";

// Appends bytes in hex, and then the byte `end`.
fn append_hex<A: Allocator + Copy>(
    alloc: A,
    out: &mut Vec<u8, A>,
    bytes: &[u8],
    end: u8,
) -> Result<(), AllocError>
    ensures { OnOk result (out.new.items ≡ out.old.items ++ hex_then bytes.now end []) }
{
    out.extend_from_slice(hex::encode(alloc, bytes)?.as_bytes())?;
    out.push(end)?;
    Ok(())
}

/// Appends the first line of a text.
#[tactic(auto, unfolding(crate::specs::Text::head_then))]
pub(crate) fn append_head<A: Allocator + Copy>(
    alloc: A,
    out: &mut Vec<u8, A>,
    db_salt: &[u8; DB_SALT_LEN],
    iterations: NonZeroU32,
) -> Result<(), AllocError>
    ensures { OnOk result (out.new.items ≡ out.old.items ++ head_then db_salt.now iterations []) }
{
    out.extend_from_slice(MARK)?;
    append_hex(alloc, out, db_salt, b' ')?;
    append_count(out, iterations, b'\n')?;
    Ok(())
}

/// Appends the line of a record.
#[tactic(auto, unfolding(crate::specs::Text::record_then))]
pub(crate) fn append_record<A: Allocator + Copy>(
    alloc: A,
    out: &mut Vec<u8, A>,
    name: &[u8],
    kept: &Record,
) -> Result<(), AllocError>
    ensures { OnOk result (out.new.items ≡ out.old.items ++ record_then (name.now, kept.now) []) }
{
    append_hex(alloc, out, name, b' ')?;
    append_count(out, kept.iterations, b' ')?;
    append_hex(alloc, out, &kept.credential, b'\n')?;
    Ok(())
}

// Decodes a name into `room`.
#[tactic(auto, using(crate::proofs::Texts::hex_lengths))]
fn name_in<'a>(digits: &[u8], room: &'a mut [u8; MAX_NAME_LEN]) -> Option<&'a [u8]>
    ensures ok { IfSome result (λ name. (digits.now ≡ encode_lower name.now)
        × IsBytes name.now × (is_name name.now ≡ true)) }
    ensures refused { IsNone result → (name : List ℕ) → IsBytes name → is_name name ≡ true
        → digits.now ≢ encode_lower name }
{
    if digits.is_empty() || digits.len() > 2 * MAX_NAME_LEN {
        return None;
    }
    let name = &mut room[..digits.len() / 2];
    if !fill_from_hex(digits, &mut *name) {
        return None;
    }
    Some(name)
}

// Reads as many bytes as `out` has, and the byte `end`. Returns the text after it.
fn hex_before<'a>(text: &'a [u8], end: u8, out: &mut [u8]) -> Option<&'a [u8]>
    requires { hex_digit_value end ≡ None }
    ensures ok { IfSome result (λ rest. (text.now ≡ hex_then out.new end rest.now)
        × IsBytes out.new) }
    ensures refused { IsNone result → (bytes rest : List ℕ) → IsBytes bytes
        → length bytes ≡ length out.old → text.now ≢ hex_then bytes end rest }
{
    let (digits, rest) = cut_at(text, end)?;
    if !fill_from_hex(digits, out) {
        return None;
    }
    Some(rest)
}

// Reads a name into `room`, and the byte `end`. Returns the name and the text after them.
fn name_before<'a, 'b>(
    text: &'a [u8],
    end: u8,
    room: &'b mut [u8; MAX_NAME_LEN],
) -> Option<(&'b [u8], &'a [u8])>
    requires { hex_digit_value end ≡ None }
    ensures ok { IfSome result (λ found. (text.now ≡ hex_then found.0.now end found.1.now)
        × IsBytes found.0.now × (is_name found.0.now ≡ true)) }
    ensures refused { IsNone result → (name rest : List ℕ) → IsBytes name
        → is_name name ≡ true → text.now ≢ hex_then name end rest }
{
    let (digits, rest) = cut_at(text, end)?;
    Some((name_in(digits, room)?, rest))
}

/// Reads the first line of a text. Returns the salt, the iteration count and the text after it.
#[tactic(auto, unfolding(crate::specs::Text::head_then))]
pub(crate) fn head_in(text: &[u8]) -> Option<([u8; DB_SALT_LEN], NonZeroU32, &[u8])>
    ensures ok { IfSome result (λ head. (text.now ≡ head_then head.0 head.1 head.2.now)
        × IsHead head.0 head.1) }
    ensures refused { IsNone result → (db_salt : List ℕ) (c : NonZeroU32) (rest : List ℕ)
        → IsHead db_salt c → text.now ≢ head_then db_salt c rest }
{
    let mut db_salt = [0; DB_SALT_LEN];
    let rest = hex_before(after(text, MARK)?, b' ', &mut db_salt)?;
    let (iterations, rest) = count_before(rest, b'\n')?;
    Some((db_salt, iterations, rest))
}

/// Reads the line of a record, with its name in `room`. Returns the name, the record and the text
/// after it.
#[tactic(auto, unfolding(crate::specs::Text::record_then))]
pub(crate) fn record_in<'a, 'b>(
    text: &'a [u8],
    room: &'b mut [u8; MAX_NAME_LEN],
) -> Option<(&'b [u8], Record, &'a [u8])>
    ensures ok { IfSome result (λ found.
        (text.now ≡ record_then (found.0.now, found.1) found.2.now)
        × IsEntry (found.0.now, found.1)) }
    ensures refused { IsNone result → (e : List ℕ × Record) (rest : List ℕ)
        → IsEntry e → text.now ≢ record_then e rest }
{
    let (name, rest) = name_before(text, b' ', room)?;
    let (iterations, rest) = count_before(rest, b' ')?;
    let mut credential = [0; CREDENTIAL_LEN];
    let rest = hex_before(rest, b'\n', &mut credential)?;
    let kept = Record {
        iterations,
        credential,
    };
    Some((name, kept, rest))
}

/// Whether the text is a line for each of some records, in the order of names.
#[tactic(auto, using(crate::proofs::Lines::lines))]
pub(crate) fn are_lines(lines: &[u8]) -> bool
    ensures { IsTrue result ↔ AreLines [] lines.now }
{
    let mut rest = lines;
    let mut last = [0; MAX_NAME_LEN];
    // The empty name comes before each other one.
    let mut last_len = 0;
    while !rest.is_empty() {
        let mut room = [0; MAX_NAME_LEN];
        let Some((name, _, behind)) = record_in(rest, &mut room) else {
            return false;
        };
        if !last[..last_len].cmp(name).is_lt() {
            return false;
        }
        write_at(&mut last, 0, name);
        last_len = name.len();
        rest = behind;
    }
    true
}
