// SPDX-License-Identifier: ISC
//! What a request is answered: the only module that calls `ring`.
ghost use Rattle.std.specs.Prelude.{◌≡◌, IfOk};
ghost use Rattle.std.specs.Int.NonZero.{non_zero_u32_get};
ghost use Rattle.ring.specs.Hkdf.{hkdf_digest};
ghost use Rattle.ring.specs.Hmac.{hmac_digest};
ghost use Rattle.ring.specs.Pbkdf2.{pbkdf2_digest};
ghost use Rattle.ring_bench.specs.Request.{answer_of, digest_answer, key_answer, key_verdict};
ghost use Rattle.ring_bench.specs.Request.{output_answer, response, tag_answer, verdict_answer};

use crate::field::Pieces;
use crate::line::Request;
use ring::cost::Meter;
use ring::laws::{digest_pieces, sign_pieces};
use ring::{digest, hkdf, hmac, pbkdf2};
use std::alloc::{AllocError, Allocator};
use std::num::NonZeroU32;

/// An answer.
#[derive(Drop)]
pub enum Answer<A: Allocator> {
    /// The bytes that the call gave, and the number of blocks of the whole line.
    Given(Vec<u8, A>, u128),
    /// Whether the value given is the one asked for, and the number of blocks of the whole line.
    Verified(bool, u128),
    /// A call refused the request.
    Refused,
}

/// The answer to a request.
pub fn respond<A: Allocator + Copy>(alloc: A, request: &Request<A>) -> Result<Answer<A>, AllocError>
    ensures { IfOk result (λ answer. response answer ≡ answer_of request.now) }
{
    match request {
        Request::Digest(algorithm, pieces) => respond_digest(alloc, algorithm, pieces),
        Request::Hmac(algorithm, key, pieces) => respond_hmac(alloc, *algorithm, key, pieces),
        Request::HmacVerify(algorithm, key, pieces, tag) => {
            Ok(respond_hmac_verify(*algorithm, key, &pieces.bytes, tag))
        }
        Request::Hkdf(algorithm, salt, secret, info, len) => {
            respond_hkdf(alloc, *algorithm, salt, secret, info, *len)
        }
        Request::Pbkdf2(algorithm, iterations, secret, salt, len) => {
            respond_pbkdf2(alloc, *algorithm, *iterations, secret, salt, *len)
        }
        Request::Pbkdf2Verify(algorithm, iterations, secret, salt, value) => Ok(
            respond_pbkdf2_verify(*algorithm, *iterations, secret, salt, value),
        ),
    }
}

/// The digest of the pieces, given to `ring` one by one.
#[tactic(auto, unfolding(crate::specs::Request::digest_answer))]
fn respond_digest<A: Allocator + Copy>(
    alloc: A,
    algorithm: &digest::Algorithm,
    pieces: &Pieces<A>,
) -> Result<Answer<A>, AllocError>
    ensures { IfOk result (λ answer. response answer
        ≡ digest_answer algorithm.now pieces.now.bytes.items) }
{
    let mut meter = Meter::new();
    match digest_pieces(algorithm, &pieces.views(alloc)?, &mut meter) {
        Ok(digest) => Ok(Answer::Given(digest.as_ref().to_vec(alloc)?, meter.blocks())),
        Err(_) => Ok(Answer::Refused),
    }
}

/// The tag of the pieces under a key of these bytes.
#[tactic(auto, unfolding(crate::specs::Request::tag_answer))]
fn respond_hmac<A: Allocator + Copy>(
    alloc: A,
    algorithm: hmac::Algorithm,
    key: &[u8],
    pieces: &Pieces<A>,
) -> Result<Answer<A>, AllocError>
    ensures { IfOk result (λ answer. response answer
        ≡ tag_answer (hmac_digest algorithm) key.now pieces.now.bytes.items) }
{
    let mut meter = Meter::new();
    let Ok(key) = hmac::Key::new_counted(algorithm, key, &mut meter) else {
        return Ok(Answer::Refused);
    };
    match sign_pieces(&key, &pieces.views(alloc)?, &mut meter) {
        Ok(tag) => Ok(Answer::Given(tag.as_ref().to_vec(alloc)?, meter.blocks())),
        Err(_) => Ok(Answer::Refused),
    }
}

/// Whether `tag` is the tag of the message. A verification that adds no block was refused.
#[tactic(auto, unfolding(crate::specs::Request::verdict_answer))]
fn respond_hmac_verify<A: Allocator>(
    algorithm: hmac::Algorithm,
    key: &[u8],
    message: &[u8],
    tag: &[u8],
) -> Answer<A>
    ensures { response result ≡ verdict_answer (hmac_digest algorithm)
        key.now message.now tag.now }
{
    let mut meter = Meter::new();
    let Ok(key) = hmac::Key::new_counted(algorithm, key, &mut meter) else {
        return Answer::Refused;
    };
    let blocks_before = meter.blocks();
    let is_tag = hmac::verify_counted(&key, message, tag, &mut meter).is_ok();
    if meter.blocks() == blocks_before {
        return Answer::Refused;
    }
    Answer::Verified(is_tag, meter.blocks())
}

/// An output of so many bytes.
#[derive(Drop)]
struct OutputLen(usize);

impl hkdf::KeyType for OutputLen {
    ghost key_len = { λ output_len. output_len.0 };

    fn len(&self) -> usize {
        self.0
    }
}

/// The first `len` bytes of output of the PRK that is extracted from the secret with the salt.
#[tactic(auto, unfolding(crate::specs::Request::output_answer))]
fn respond_hkdf<A: Allocator + Copy>(
    alloc: A,
    algorithm: hkdf::Algorithm,
    salt: &[u8],
    secret: &[u8],
    info: &Pieces<A>,
    len: usize,
) -> Result<Answer<A>, AllocError>
    ensures { IfOk result (λ answer. response answer ≡ output_answer (hkdf_digest algorithm)
        salt.now secret.now info.now.bytes.items len) }
{
    let mut meter = Meter::new();
    let Ok(salt) = hkdf::Salt::new_counted(algorithm, salt, &mut meter) else {
        return Ok(Answer::Refused);
    };
    let Ok(prk) = salt.extract_counted(secret, &mut meter) else {
        return Ok(Answer::Refused);
    };
    let views = info.views(alloc)?;
    let Ok(output) = prk.expand(&views, OutputLen(len)) else {
        return Ok(Answer::Refused);
    };
    let mut bytes = vec![in alloc; 0; len]?;
    match output.fill_counted(&mut bytes, &mut meter) {
        Ok(()) => Ok(Answer::Given(bytes, meter.blocks())),
        Err(_) => Ok(Answer::Refused),
    }
}

/// The `len` bytes that are derived from the secret and the salt.
#[tactic(auto, unfolding(crate::specs::Request::key_answer))]
fn respond_pbkdf2<A: Allocator>(
    alloc: A,
    algorithm: pbkdf2::Algorithm,
    iterations: NonZeroU32,
    secret: &[u8],
    salt: &[u8],
    len: usize,
) -> Result<Answer<A>, AllocError>
    ensures { IfOk result (λ answer. response answer ≡ key_answer (pbkdf2_digest algorithm)
        (non_zero_u32_get iterations) secret.now salt.now len) }
{
    let mut meter = Meter::new();
    let mut bytes = vec![in alloc; 0; len]?;
    match pbkdf2::derive_counted(algorithm, iterations, salt, secret, &mut bytes, &mut meter) {
        Ok(()) => Ok(Answer::Given(bytes, meter.blocks())),
        Err(_) => Ok(Answer::Refused),
    }
}

/// Whether `value` is derived from the secret and the salt. A verification that adds no block was
/// refused.
#[tactic(auto, unfolding(crate::specs::Request::key_verdict))]
fn respond_pbkdf2_verify<A: Allocator>(
    algorithm: pbkdf2::Algorithm,
    iterations: NonZeroU32,
    secret: &[u8],
    salt: &[u8],
    value: &[u8],
) -> Answer<A>
    ensures { response result ≡ key_verdict (pbkdf2_digest algorithm)
        (non_zero_u32_get iterations) secret.now salt.now value.now }
{
    let mut meter = Meter::new();
    let is_derived = pbkdf2::verify_counted(
        algorithm, iterations, salt, secret, value, &mut meter,
    ).is_ok();
    if meter.blocks() == 0 {
        return Answer::Refused;
    }
    Answer::Verified(is_derived, meter.blocks())
}
