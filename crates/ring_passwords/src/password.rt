// SPDX-License-Identifier: ISC
//! The lines of standard input: the password, and the text that it is tested against.

ghost use Rattle.std.specs.Prelude.{◌≡◌, ◌≢◌, ◌<◌, ◌≤◌, [], length};
ghost use Rattle.std.specs.Prelude.{IfErr, IfOk, IfSome, IsErrOf, IsNone, OnOk};
ghost use Rattle.std.specs.Io.BufRead.{DropsThrough, first_piece};
ghost use Rattle.ring_passwords.specs.Failure.{IsNoPassword, IsNoText};

use crate::failure::{Failure, Step};
use std::alloc::Global;
use std::io;
use std::io::BufRead;

/// Ends a line, and is no byte of it.
pub const LINE_FEED: u8 = b'\n';

/// Reads a line and gives its bytes without the line feed, or `None` where there is no byte. What
/// follows is not read.
fn read_line<R: BufRead>(alloc: Global, reader: &mut R) -> io::Result<Option<Vec<u8>>>
    ensures line { IfOk result (λ read. IfSome read (λ line. IfSome (R.remaining reader.old)
        (λ bytes. line.items ≡ first_piece 10 bytes))) }
    ensures some { IfOk result (λ read. IfSome read (λ line. IfSome (R.remaining reader.old)
        (λ bytes. bytes ≢ []))) }
    ensures none { IfOk result (λ read. IsNone read
        → IfSome (R.remaining reader.old) (λ bytes. bytes ≡ [])) }
    ensures rest { OnOk result
        (DropsThrough (R.remaining reader.old) (R.remaining reader.new) 10) }
{
    let mut line = Vec::new(alloc);
    if reader.read_until(LINE_FEED, &mut line)? == 0 {
        return Ok(None);
    }
    if line.last() == Some(&LINE_FEED) {
        line.pop();
    }
    Ok(Some(line))
}

/// The most bytes of a password.
pub const MAX_PASSWORD_LEN: usize = 131_072;

/// Reads the password, which is a line of at most 131,072 bytes.
///
/// An empty line is a password of no byte. Where there is not even a line feed, there is no
/// password.
pub fn read_password<R: BufRead>(alloc: Global, reader: &mut R) -> Result<Vec<u8>, Failure>
    ensures ok { IfOk result (λ password. IfSome (R.remaining reader.old)
        (λ bytes. password.items ≡ first_piece 10 bytes)) }
    ensures some { OnOk result (IfSome (R.remaining reader.old) (λ bytes. bytes ≢ [])) }
    ensures within { IfOk result (λ password. length password.items ≤ 131_072) }
    ensures none { IsErrOf result Failure.NoPassword
        → IfSome (R.remaining reader.old) (λ bytes. bytes ≡ []) }
    ensures too_long { IsErrOf result Failure.TooLong → IfSome (R.remaining reader.old)
        (λ bytes. 131_072 < length (first_piece 10 bytes)) }
    ensures failure { IfErr result IsNoPassword }
{
    match read_line(alloc, reader) {
        Ok(Some(password)) if password.len() > MAX_PASSWORD_LEN => Err(Failure::TooLong),
        Ok(Some(password)) => Ok(password),
        Ok(None) => Err(Failure::NoPassword),
        Err(error) => Err(Failure::System(Step::ReadPassword, error)),
    }
}

/// Reads the text, which is a line.
pub fn read_text<R: BufRead>(alloc: Global, reader: &mut R) -> Result<Vec<u8>, Failure>
    ensures ok { IfOk result (λ text. IfSome (R.remaining reader.old)
        (λ bytes. text.items ≡ first_piece 10 bytes)) }
    ensures some { OnOk result (IfSome (R.remaining reader.old) (λ bytes. bytes ≢ [])) }
    ensures none { IsErrOf result Failure.NoText
        → IfSome (R.remaining reader.old) (λ bytes. bytes ≡ []) }
    ensures rest { OnOk result
        (DropsThrough (R.remaining reader.old) (R.remaining reader.new) 10) }
    ensures failure { IfErr result IsNoText }
{
    match read_line(alloc, reader) {
        Ok(Some(text)) => Ok(text),
        Ok(None) => Err(Failure::NoText),
        Err(error) => Err(Failure::System(Step::ReadText, error)),
    }
}
