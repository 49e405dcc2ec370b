// SPDX-License-Identifier: ISC
//! The lines that coreutils write: of a list, with a file's digest and name, and of a check.

ghost use Rattle.std.specs.Prelude.{◌≡◌, ◌∷◌, [], ◌++◌, OnOk};
ghost use Rattle.hex.specs.Hex.{encode_lower};
ghost use Rattle.ring.specs.Prelude.{bytes_of, digest_algorithm};
ghost use Rattle.ring_sums.specs.Entry.{IsDigestOf};
ghost use Rattle.ring_sums.specs.Line.{end_of, file_line, head_of, mark_of, named, plain_line};
ghost use Rattle.ring_sums.specs.Line.{tagged_line, verdict_line};

use crate::entry::tag_of;
use crate::names::{append_escaped, needs_escape};
use crate::options::Options;
use ring::digest::Digest;
use std::alloc::{AllocError, Global};

/// The mark of a line.
fn mark_of(is_binary: Option<bool>) -> u8
    ensures { result ≡ mark_of is_binary }
{
    match is_binary {
        Some(true) => b'*',
        _ => b' ',
    }
}

/// Appends a name as a line has it.
fn append_named(out: &mut Vec<u8>, is_zero: bool, name: &[u8]) -> Result<(), AllocError>
    ensures ok { OnOk result (out.new.items ≡ out.old.items ++ named is_zero name.now) }
{
    if is_zero {
        out.extend_from_slice(name)
    } else {
        append_escaped(out, name)
    }
}

/// Appends the backslash with which the line of a name with escapes begins.
fn append_head(out: &mut Vec<u8>, is_zero: bool, name: &[u8]) -> Result<(), AllocError>
    ensures ok { OnOk result (out.new.items ≡ out.old.items ++ head_of is_zero name.now) }
{
    if !is_zero && needs_escape(name) {
        out.push(b'\\')?;
    }
    Ok(())
}

/// Appends the digits of a digest.
fn append_digits(out: &mut Vec<u8>, digest: &[u8]) -> Result<(), AllocError>
    ensures ok { OnOk result (out.new.items ≡ out.old.items ++ encode_lower digest.now) }
{
    let alloc: Global = *out.allocator();
    out.extend_from_slice(hex::encode(alloc, digest)?.as_bytes())
}

/// Appends the end of a line.
fn append_end(out: &mut Vec<u8>, is_zero: bool) -> Result<(), AllocError>
    ensures ok { OnOk result (out.new.items ≡ out.old.items ++ end_of is_zero ∷ []) }
{
    out.push(if is_zero { 0 } else { b'\n' })?;
    Ok(())
}

/// Appends a line with the digest first.
fn append_plain_line(
    out: &mut Vec<u8>,
    is_zero: bool,
    mark: u8,
    digest: &[u8],
    name: &[u8],
) -> Result<(), AllocError>
    ensures ok { OnOk result (out.new.items
        ≡ out.old.items ++ plain_line is_zero mark digest.now name.now) }
{
    append_head(out, is_zero, name)?;
    append_digits(out, digest)?;
    out.push(b' ')?;
    out.push(mark)?;
    append_named(out, is_zero, name)?;
    append_end(out, is_zero)
}

/// Appends a line in BSD's style, with the algorithm's tag first.
fn append_tagged_line(
    out: &mut Vec<u8>,
    is_zero: bool,
    tag: &[u8],
    digest: &[u8],
    name: &[u8],
) -> Result<(), AllocError>
    ensures ok { OnOk result (out.new.items
        ≡ out.old.items ++ tagged_line is_zero tag.now digest.now name.now) }
{
    append_head(out, is_zero, name)?;
    out.extend_from_slice(tag)?;
    out.extend_from_slice(b" (")?;
    append_named(out, is_zero, name)?;
    out.extend_from_slice(b") = ")?;
    append_digits(out, digest)?;
    append_end(out, is_zero)
}

/// Appends the line of a file.
pub(crate) fn append_file_line(
    out: &mut Vec<u8>,
    options: &Options,
    digest: &Digest,
    name: &[u8],
) -> Result<(), AllocError>
    ensures ok { OnOk result (out.new.items
        ≡ out.old.items ++ file_line options.now digest.now name.now) }
    ensures digest { OnOk result
        (IsDigestOf (digest_algorithm digest.now) (bytes_of digest.now)) }
{
    let bytes = digest.as_ref();
    if options.is_tagged {
        let tag = tag_of(&digest.algorithm()).as_bytes();
        append_tagged_line(out, options.is_zero, tag, bytes, name)
    } else {
        let mark = mark_of(options.is_binary);
        append_plain_line(out, options.is_zero, mark, bytes, name)
    }
}

/// Appends the line that says what is found of a file.
pub(crate) fn append_verdict_line(
    out: &mut Vec<u8>,
    name: &[u8],
    text: &[u8],
) -> Result<(), AllocError>
    ensures { OnOk result (out.new.items ≡ out.old.items ++ verdict_line name.now text.now) }
{
    append_head(out, false, name)?;
    append_escaped(out, name)?;
    out.extend_from_slice(b": ")?;
    out.extend_from_slice(text)?;
    out.push(b'\n')?;
    Ok(())
}
