// SPDX-License-Identifier: ISC
//! The names as lines.

ghost use Rattle.std.specs.Prelude.{◌≡◌, ◌++◌, IfErr, IfOk, OnOk};
ghost use Rattle.std.specs.Io.KnownBytes.{Appends};
ghost use Rattle.ring_passwords.specs.Failure.{status_of};
ghost use Rattle.ring_passwords.specs.Listing.{is_plain, line_of, listing_of, shown};

use crate::failure::{Failure, Step};
use crate::password::LINE_FEED;
use ring_store::PasswordStore;
use std::alloc::{AllocError, Global};
use std::io::Write;

/// Begins the digits of a byte that is not shown as it is.
const ESCAPE: u8 = b'\\';

/// Whether a byte is written as it is: all but control characters and the backslash.
fn is_plain(byte: u8) -> bool
    ensures { result ≡ is_plain byte }
{
    byte >= b' ' && byte != 0x7f && byte != ESCAPE
}

/// Appends a byte of a name, or `\x` and its two digits.
fn append_byte(out: &mut Vec<u8>, byte: u8) -> Result<(), AllocError>
    ensures ok { OnOk result (out.new.items ≡ out.old.items ++ shown byte) }
{
    if is_plain(byte) {
        return out.push(byte).map_err(AllocError::from);
    }
    out.extend_from_slice(b"\\x")?;
    let mut digits = [0; 2];
    hex::encode_to_slice(&[byte], &mut digits).unwrap();
    out.extend_from_slice(&digits)?;
    Ok(())
}

/// Appends a name and a line feed.
fn append_line(out: &mut Vec<u8>, name: &[u8]) -> Result<(), AllocError>
    ensures ok { OnOk result (out.new.items ≡ out.old.items ++ line_of name.now) }
{
    for byte in name {
        append_byte(out, *byte)?;
    }
    out.push(LINE_FEED)?;
    Ok(())
}

/// A line for each name, in their order.
fn listing_of(alloc: Global, store: &PasswordStore) -> Result<Vec<u8>, AllocError>
    ensures ok { IfOk result (λ lines. lines.items ≡ listing_of store.now) }
{
    let mut out = Vec::new(alloc);
    for index in 0..store.len() {
        if let Some(name) = store.name_at(index) {
            append_line(&mut out, name)?;
        }
    }
    Ok(out)
}

/// Writes a line for each name, in their order.
pub fn write_listing<W: Write>(
    alloc: Global,
    store: &PasswordStore,
    writer: &mut W,
) -> Result<(), Failure>
    ensures written { OnOk result (Appends (W.contents writer.old) (W.contents writer.new)
        (listing_of store.now)) }
    ensures status { IfErr result (λ failure. status_of failure ≡ 2) }
{
    let lines = listing_of(alloc, store)?;
    match writer.write_all(&lines) {
        Ok(()) => Ok(()),
        Err(error) => Err(Failure::System(Step::WriteNames, error)),
    }
}
