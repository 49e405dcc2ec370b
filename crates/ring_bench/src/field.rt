// SPDX-License-Identifier: ISC
//! What one field of a line says.
ghost use Rattle.std.specs.Prelude.{◌≡◌, ◌++◌, [], ◌∷◌, List, ℕ, Some, None, IfOk, IsErrOf, OnOk};
ghost use Rattle.std.specs.Prelude.{length};
ghost use Rattle.std.specs.List.{sum};
ghost use Rattle.std.specs.Int.NonZero.{non_zero_u32_get};
ghost use Rattle.hex.specs.Hex.{decode_of};
ghost use Rattle.ring_bench.specs.Fault.{Reads, ReadsAlone};
ghost use Rattle.ring_bench.specs.Field.{is_word, bytes_of, pieces_of, value_of, decimal_of, up_to};
ghost use Rattle.ring_bench.specs.Field.{len_of, iterations_of};
ghost use Rattle.ring_bench.specs.declared.field.Fault.TheVariants.{Memory};
ghost use Rattle.ring.specs.Pieces.{joined};

use crate::cut::cut_at;
use crate::digits::decode_digits;
use hex::FromHexError;
use std::alloc::{AllocError, Allocator};
use std::num::NonZeroU32;

/// The greatest LEN.
const MAX_LEN: u32 = 65_536;

/// From how many digits on a table is made for them.
const MIN_TABLE_DIGITS: usize = 128;

/// Why nothing was read.
#[derive(Clone, Copy, Debug, PartialEq, Eq)]
pub enum Fault {
    /// The field is malformed.
    Bad,
    /// Out of memory.
    Memory,
}

impl From<AllocError> for Fault {
    ghost from_gives = { λ _ fault. fault ≡ Memory };

    fn from(_error: AllocError) -> Fault {
        Fault::Memory
    }
}

/// The pieces of a field: the bytes of all, one behind the other, and how many each has. A list of
/// lists would take several times the memory.
#[derive(Drop)]
pub struct Pieces<A: Allocator> {
    pub bytes: Vec<u8, A>,
    lens: Vec<usize, A>,
    ghost whole: { sum lens.items ≡ length bytes.items },
}

impl<A: Allocator> Pieces<A> {
    /// The pieces, one by one.
    pub fn views(&self, alloc: A) -> Result<Vec<&[u8], A>, AllocError>
        ensures { IfOk result (λ views. joined views.items ≡ self.now.bytes.items) }
    {
        let mut views = Vec::new(alloc);
        let mut rest = self.bytes.as_slice();
        'pieces: for len in &self.lens {
            let (piece, behind) = rest.split_at(*len);
            views.push(piece)?;
            rest = behind;
        }
        Ok(views)
    }
}

/// Whether a field is this word.
#[tactic(auto, unfolding(crate::specs::Field::is_word))]
pub fn is_word(field: &[u8], word: &[u8]) -> bool
    ensures { result ≡ is_word field.now word.now }
{
    field == word
}

/// The bytes of a field of bytes.
#[tactic(auto, unfolding(crate::specs::Field::bytes_of))]
pub fn bytes_in<A: Allocator>(alloc: A, field: &[u8]) -> Result<Vec<u8, A>, Fault>
    ensures { Reads (λ bytes. bytes.items) (bytes_of field.now) result }
{
    if is_word(field, b"-") {
        return Ok(Vec::new(alloc));
    }
    if field.is_empty() {
        return Err(Fault::Bad);
    }
    decoded(alloc, field)
}

/// The pieces of a field PIECES.
#[tactic(auto, unfolding(crate::specs::Field::pieces_of))]
pub fn pieces_in<A: Allocator + Copy>(alloc: A, field: &[u8]) -> Result<Pieces<A>, Fault>
    ensures { Reads (λ pieces. pieces.bytes.items) (pieces_of field.now) result }
{
    let mut bytes = Vec::new(alloc);
    let mut lens = Vec::new(alloc);
    if is_word(field, b"-") {
        return Ok(Pieces { bytes, lens });
    }
    if field.is_empty() {
        return Err(Fault::Bad);
    }
    let mut rest = field;
    'parts: while let Some((part, behind)) = cut_at(rest, b',') {
        append_piece(alloc, &mut bytes, &mut lens, part)?;
        rest = behind;
    }
    append_piece(alloc, &mut bytes, &mut lens, rest)?;
    Ok(Pieces { bytes, lens })
}

/// Adds the bytes that hex digits stand for as a piece.
fn append_piece<A: Allocator>(
    alloc: A,
    bytes: &mut Vec<u8, A>,
    lens: &mut Vec<usize, A>,
    digits: &[u8],
) -> Result<(), Fault>
    ensures added { OnOk result ((piece : List ℕ)
        × (value_of (decode_of digits.now) ≡ Some piece)
        × (bytes.new.items ≡ bytes.old.items ++ piece)
        × (lens.new.items ≡ lens.old.items ++ length piece ∷ [])) }
    ensures bad { IsErrOf result Fault.Bad → value_of (decode_of digits.now) ≡ None }
{
    let piece = decoded(alloc, digits)?;
    lens.reserve(1)?;
    lens.push_reserved(piece.len());
    if bytes.is_empty() {
        *bytes = piece;
    } else {
        bytes.extend_from_slice(&piece)?;
    }
    Ok(())
}

/// The bytes that hex digits stand for. `hex` decodes few digits, and those that the table refuses.
fn decoded<A: Allocator>(alloc: A, digits: &[u8]) -> Result<Vec<u8, A>, Fault>
    ensures { Reads (λ bytes. bytes.items) (value_of (decode_of digits.now)) result }
{
    if digits.len() < MIN_TABLE_DIGITS || digits.len() % 2 != 0 {
        return decoded_by_hex(alloc, digits);
    }
    let mut bytes = vec![in alloc; 0u8; digits.len() / 2]?;
    if decode_digits(digits, &mut bytes) || hex::decode_to_slice(digits, &mut bytes).is_ok() {
        return Ok(bytes);
    }
    Err(Fault::Bad)
}

/// The bytes that hex digits stand for, by `hex` alone.
fn decoded_by_hex<A: Allocator>(alloc: A, digits: &[u8]) -> Result<Vec<u8, A>, Fault>
    ensures { Reads (λ bytes. bytes.items) (value_of (decode_of digits.now)) result }
{
    match hex::decode(alloc, digits) {
        Ok(bytes) => Ok(bytes),
        Err(FromHexError::OutOfMemory) => Err(Fault::Memory),
        Err(_) => Err(Fault::Bad),
    }
}

/// The number of a field LEN.
#[tactic(auto, unfolding(crate::specs::Field::len_of))]
pub fn len_in(field: &[u8]) -> Result<usize, Fault>
    ensures { ReadsAlone (λ len. len) (len_of field.now) result }
{
    Ok(decimal_in(field, MAX_LEN)? as usize)
}

/// The number of a field ITERATIONS.
#[tactic(auto, unfolding(crate::specs::Field::iterations_of))]
pub fn iterations_in(field: &[u8]) -> Result<NonZeroU32, Fault>
    ensures { ReadsAlone non_zero_u32_get (iterations_of field.now) result }
{
    NonZeroU32::new(decimal_in(field, u32::MAX)?).ok_or(Fault::Bad)
}

/// The number of a field in decimal, where it is at most `most`.
fn decimal_in(field: &[u8], most: u32) -> Result<u32, Fault>
    ensures { ReadsAlone (λ number. number) (up_to most (decimal_of field.now)) result }
{
    match field {
        [] => return Err(Fault::Bad),
        [b'0', _, ..] => return Err(Fault::Bad),
        _ => {}
    }
    let mut value = 0u64;
    for digit in field {
        if !digit.is_ascii_digit() {
            return Err(Fault::Bad);
        }
        value = value * 10 + u64::from(*digit - b'0');
        if value > u64::from(most) {
            return Err(Fault::Bad);
        }
    }
    Ok(value as u32)
}
