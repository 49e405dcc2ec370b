// SPDX-License-Identifier: ISC
//! A piece of what a reader gives.

ghost use Rattle.std.specs.Prelude.{◌≡◌, ◌<◌, ◌≤◌, IfErr, IfOk, IsFalse, IsTrue, length, take};
ghost use Rattle.std.specs.Io.KnownBytes.{Consumes, IsAtEnd};
ghost use Rattle.ring_sums.specs.Outcome.{CanBeInterrupted, IsFailure};

use crate::source::Source;
use std::io;
use std::io::ErrorKind;

/// The bytes of a piece: whole blocks of every algorithm.
pub(crate) const PIECE_LEN: usize = 65_536;

/// The bytes of the longest block of an algorithm. Each algorithm's blocks fill it.
pub(crate) const MAX_BLOCK_LEN: usize = 128;

/// How far a piece was read.
#[derive(Clone, Copy)]
pub(crate) struct Filled {
    /// How many bytes came.
    pub(crate) len: usize,
    /// Whether the reader has ended.
    pub(crate) has_ended: bool,
}

/// Reads until the piece is full, the reader has ended or a read is interrupted.
pub(crate) fn fill<R: Source>(reader: &mut R, piece: &mut [u8]) -> io::Result<Filled>
    ensures within { IfOk result (λ filled. filled.len ≤ length piece.new) }
    ensures bytes { IfOk result (λ filled.
        Consumes (R.remaining reader.old) (R.remaining reader.new) (take filled.len piece.new)) }
    ensures end { IfOk result (λ filled.
        IsTrue filled.has_ended → IsAtEnd (R.remaining reader.new)) }
    ensures short { IfOk result (λ filled. IsFalse filled.has_ended
        → filled.len < length piece.new → CanBeInterrupted R.fails_with reader.old) }
    ensures failed { IfErr result (IsFailure R.fails_with reader.old) }
    ensures same { R.fails_with reader.new ≡ R.fails_with reader.old }
{
    let mut len = 0;
    'reads: while len < piece.len() {
        match reader.read_piece(&mut piece[len..]) {
            Ok(0) => return Ok(Filled {
                len,
                has_ended: true,
            }),
            Ok(count) => len += count,
            Err(error) => {
                if error.kind() != ErrorKind::Interrupted {
                    return Err(error);
                }
                return Ok(Filled {
                    len,
                    has_ended: false,
                });
            }
        }
    }
    Ok(Filled {
        len,
        has_ended: false,
    })
}
