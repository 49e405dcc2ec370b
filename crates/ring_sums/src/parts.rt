// SPDX-License-Identifier: ISC
//! A list in parts, so that a long one takes no more memory than a short one.

ghost use Rattle.std.specs.Prelude.{◌≡◌, ◌<◌, ◌∷◌, ◌++◌, [], IfOk, IfSome, IsNone, length};
ghost use Rattle.std.specs.Io.KnownBytes.{Consumes, IsAtEnd};
ghost use Rattle.ring_sums.specs.Parts.{IsPart, left_of};

use crate::entry::cut_at_last;
use std::alloc::{AllocError, Global};
use std::io::{ErrorKind, Read};
use std::{io, mem};

/// How many bytes of a list are asked for at once.
const BLOCK_LEN: usize = 65_536;

/// A part of a list: what is before a line feed, or, as the last part, what is behind the last one.
#[derive(Drop)]
pub(crate) struct Part {
    pub(crate) text: Vec<u8>,
    pub(crate) is_last: bool,
    /// Why no more could be read.
    pub(crate) failure: Option<io::Error>,
}

/// A list that is read part by part.
#[derive(Drop)]
pub(crate) struct Parts<R> {
    alloc: Global,
    pub(crate) reader: R,
    /// What is read and in no part yet.
    pub(crate) left: Vec<u8>,
}

/// Puts what came behind what is left, and takes all before the last line feed that came out of it.
fn take_lines(alloc: Global, left: &mut Vec<u8>, came: &[u8]) -> Result<Option<Vec<u8>>, AllocError>
    ensures some { IfOk result (λ taken. IfSome taken (λ text.
        left.old.items ++ came.now ≡ text.items ++ 10 ∷ left.new.items)) }
    ensures none { IfOk result (λ taken. IsNone taken
        → left.new.items ≡ left.old.items ++ came.now) }
{
    let Some((front, behind)) = cut_at_last(b'\n', came) else {
        left.extend_from_slice(came)?;
        return Ok(None);
    };
    let mut text = mem::replace(left, behind.to_vec(alloc)?);
    text.extend_from_slice(front)?;
    Ok(Some(text))
}

impl<R: Read> Parts<R> {
    /// The parts of the list that `reader` gives.
    pub(crate) fn new(alloc: Global, reader: R) -> Parts<R>
        ensures { left_of R.remaining result ≡ R.remaining reader }
    {
        Parts {
            alloc,
            reader,
            left: Vec::new(alloc),
        }
    }

    /// What is left, as the last part.
    fn end(&mut self, failure: Option<io::Error>) -> Part
        ensures { (IsNone failure → IsAtEnd (R.remaining self.old.reader))
            → IsPart R.remaining result self.old self.new }
    {
        Part {
            text: mem::replace(&mut self.left, Vec::new(self.alloc)),
            is_last: true,
            failure,
        }
    }

    /// Reads on, into the room `block`, and returns a part where one has come.
    fn read_on(&mut self, block: &mut [u8]) -> Result<Option<Part>, AllocError>
        requires { 0 < length block.old }
        ensures some { IfOk result (λ part. IfSome part (λ part.
            IsPart R.remaining part self.old self.new)) }
        ensures none { IfOk result (λ part. IsNone part
            → Consumes (left_of R.remaining self.old) (left_of R.remaining self.new) []) }
    {
        match self.reader.read(block) {
            Ok(0) => Ok(Some(self.end(None))),
            Ok(count) => {
                let Some(text) = take_lines(self.alloc, &mut self.left, &block[..count])? else {
                    return Ok(None);
                };
                Ok(Some(Part {
                    text,
                    is_last: false,
                    failure: None,
                }))
            }
            Err(error) => {
                if error.kind() == ErrorKind::Interrupted {
                    return Ok(None);
                }
                Ok(Some(self.end(Some(error))))
            }
        }
    }

    /// The next part: whole lines, or the rest of the list.
    ///
    /// Refused where there is no memory.
    pub(crate) fn next_part(&mut self) -> Result<Part, AllocError>
        ensures { IfOk result (λ part. IsPart R.remaining part self.old self.new) }
    {
        let mut block = vec![in self.alloc; 0; BLOCK_LEN]?;
        'reads: for _ in 0..u64::MAX {
            if let Some(part) = self.read_on(&mut block)? {
                return Ok(part);
            }
        }
        Ok(self.end(Some(io::Error::from(ErrorKind::Other))))
    }
}
