// SPDX-License-Identifier: ISC
//! What a line says: from its bytes to a request, and nothing else.
//!
//! A further call of `ring` is a variant of `Call` with its word in `call_in`, a variant of
//! `Request`, and a function over its operands.
ghost use Rattle.std.specs.Prelude.{◌≡◌, ◌==◌, IfOk, map, take};
ghost use Rattle.std.specs.List.{slice_split};
ghost use Rattle.ring_bench.specs.Fault.{Reads, ReadsAlone};
ghost use Rattle.ring_bench.specs.Line.{answer_by, answer_to, call_of, line_of, meaning};
ghost use Rattle.ring_bench.specs.Request.{answer_of};

use crate::algorithm::{
    digest_algorithm_in, hkdf_algorithm_in, hmac_algorithm_in, pbkdf2_algorithm_in,
};
use crate::cut::cut_at;
use crate::field::{Fault, Pieces, bytes_in, is_word, iterations_in, len_in, pieces_in};
use ring::{digest, hkdf, hmac, pbkdf2};
use std::alloc::{AllocError, Allocator};
use std::num::NonZeroU32;

/// How many fields the longest lines have.
const MOST_FIELDS: usize = 6;

/// What a line says.
#[derive(Drop)]
pub enum Line<A: Allocator> {
    /// It is empty or a comment.
    Nothing,
    Bad,
    Asks(Request<A>),
}

/// What a line asks for. Fields stand in the order of the line.
#[derive(Drop)]
pub enum Request<A: Allocator> {
    /// `digest ALG PIECES`
    Digest(digest::Algorithm, Pieces<A>),
    /// `hmac ALG KEY PIECES`
    Hmac(hmac::Algorithm, Vec<u8, A>, Pieces<A>),
    /// `hmac-verify ALG KEY PIECES TAG`
    HmacVerify(hmac::Algorithm, Vec<u8, A>, Pieces<A>, Vec<u8, A>),
    /// `hkdf ALG SALT SECRET PIECES LEN`
    Hkdf(hkdf::Algorithm, Vec<u8, A>, Vec<u8, A>, Pieces<A>, usize),
    /// `pbkdf2 ALG ITERATIONS SECRET SALT LEN`
    Pbkdf2(pbkdf2::Algorithm, NonZeroU32, Vec<u8, A>, Vec<u8, A>, usize),
    /// `pbkdf2-verify ALG ITERATIONS SECRET SALT VALUE`
    Pbkdf2Verify(pbkdf2::Algorithm, NonZeroU32, Vec<u8, A>, Vec<u8, A>, Vec<u8, A>),
}

/// The call that a line names.
#[derive(Clone, Copy, Debug, PartialEq, Eq)]
enum Call {
    Digest,
    Hmac,
    HmacVerify,
    Hkdf,
    Pbkdf2,
    Pbkdf2Verify,
}

/// The first parts of a text between such bytes: `most` of them, or all where there are fewer.
fn parts_between<A: Allocator>(
    alloc: A,
    text: &[u8],
    byte: u8,
    most: usize,
) -> Result<Vec<&[u8], A>, AllocError>
    ensures { IfOk result (λ parts. map (λ part. part.now) parts.items
        ≡ take most (slice_split (λ b. b == byte) text.now)) }
{
    let mut parts = Vec::new(alloc);
    let mut rest = text;
    'cuts: while parts.len() < most {
        let Some((part, behind)) = cut_at(rest, byte) else {
            parts.push(rest)?;
            return Ok(parts);
        };
        parts.push(part)?;
        rest = behind;
    }
    Ok(parts)
}

/// What the line says.
#[tactic(auto, using(crate::proofs::Asked::told_by_first), unfolding(crate::specs::Line::line_of))]
pub fn parse<A: Allocator + Copy>(alloc: A, text: &[u8]) -> Result<Line<A>, AllocError>
    ensures { IfOk result (λ line. meaning line ≡ line_of text.now) }
{
    if text.is_empty() || text[0] == b'#' {
        return Ok(Line::Nothing);
    }
    // A line with a field more is bad, however many stand behind it.
    let fields = parts_between(alloc, text, b' ', MOST_FIELDS + 1)?;
    match request_in(alloc, &fields) {
        Ok(request) => Ok(Line::Asks(request)),
        Err(Fault::Bad) => Ok(Line::Bad),
        Err(Fault::Memory) => Err(AllocError),
    }
}

/// What the fields of a line ask for.
#[tactic(auto, unfolding(crate::specs::Line::answer_to))]
fn request_in<A: Allocator + Copy>(alloc: A, fields: &[&[u8]]) -> Result<Request<A>, Fault>
    ensures { Reads answer_of (answer_to (map (λ field. field.now) fields.now)) result }
{
    let [word, operands @ ..] = fields else {
        return Err(Fault::Bad);
    };
    request_by(alloc, call_in(*word)?, operands)
}

/// The call that the first field of a line names.
#[tactic(auto, unfolding(crate::specs::Line::call_of))]
fn call_in(field: &[u8]) -> Result<Call, Fault>
    ensures { ReadsAlone (λ call. call) (call_of field.now) result }
{
    if is_word(field, b"digest") {
        return Ok(Call::Digest);
    }
    if is_word(field, b"hmac") {
        return Ok(Call::Hmac);
    }
    if is_word(field, b"hmac-verify") {
        return Ok(Call::HmacVerify);
    }
    if is_word(field, b"hkdf") {
        return Ok(Call::Hkdf);
    }
    if is_word(field, b"pbkdf2") {
        return Ok(Call::Pbkdf2);
    }
    if is_word(field, b"pbkdf2-verify") {
        return Ok(Call::Pbkdf2Verify);
    }
    Err(Fault::Bad)
}

/// What the call asks for with these operands.
#[tactic(auto, unfolding(crate::specs::Line::answer_by))]
fn request_by<A: Allocator + Copy>(
    alloc: A,
    call: Call,
    operands: &[&[u8]],
) -> Result<Request<A>, Fault>
    ensures { Reads answer_of (answer_by call (map (λ field. field.now) operands.now)) result }
{
    match (call, operands) {
        (Call::Digest, [algorithm, pieces]) => Ok(Request::Digest(
            digest_algorithm_in(*algorithm)?,
            pieces_in(alloc, *pieces)?,
        )),
        (Call::Hmac, [algorithm, key, pieces]) => Ok(Request::Hmac(
            hmac_algorithm_in(*algorithm)?,
            bytes_in(alloc, *key)?,
            pieces_in(alloc, *pieces)?,
        )),
        (Call::HmacVerify, [algorithm, key, pieces, tag]) => Ok(Request::HmacVerify(
            hmac_algorithm_in(*algorithm)?,
            bytes_in(alloc, *key)?,
            pieces_in(alloc, *pieces)?,
            bytes_in(alloc, *tag)?,
        )),
        (Call::Hkdf, [algorithm, salt, secret, info, len]) => Ok(Request::Hkdf(
            hkdf_algorithm_in(*algorithm)?,
            bytes_in(alloc, *salt)?,
            bytes_in(alloc, *secret)?,
            pieces_in(alloc, *info)?,
            len_in(*len)?,
        )),
        (Call::Pbkdf2, [algorithm, iterations, secret, salt, len]) => Ok(Request::Pbkdf2(
            pbkdf2_algorithm_in(*algorithm)?,
            iterations_in(*iterations)?,
            bytes_in(alloc, *secret)?,
            bytes_in(alloc, *salt)?,
            len_in(*len)?,
        )),
        (Call::Pbkdf2Verify, [algorithm, iterations, secret, salt, value]) => {
            Ok(Request::Pbkdf2Verify(
                pbkdf2_algorithm_in(*algorithm)?,
                iterations_in(*iterations)?,
                bytes_in(alloc, *secret)?,
                bytes_in(alloc, *salt)?,
                bytes_in(alloc, *value)?,
            ))
        }
        _ => Err(Fault::Bad),
    }
}
