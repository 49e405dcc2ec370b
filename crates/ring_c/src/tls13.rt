// SPDX-License-Identifier: ISC
//! Finished messages and binders of TLS 1.3 (RFC 8446, sections 4.4.4 and 4.2.11.2).

ghost use Rattle.std.specs.Prelude.{◌≡◌, ◌≢◌, ◌↔◌, ◌==◌, ◌&&◌, ℕ, List, [], length, nat_le, not};
ghost use Rattle.std.specs.Prelude.{IfOk, IsOk, replicate};
ghost use Rattle.std.specs.Str.{bytes_eq};
ghost use Rattle.ring.specs.Algorithm.{output_len};
ghost use Rattle.ring.specs.Digest.{digest_of};
ghost use Rattle.ring.specs.Hkdf.{PrkStandsFor, hkdf_digest, prk_algorithm};
ghost use Rattle.ring.specs.Hmac.{hmac_of, tag_algorithm, tag_bytes};
ghost use Rattle.ring.specs.Limits.{IsTagWithin};
ghost use Rattle.ring_schedules.specs.Label.{expand_label_of};
ghost use Rattle.ring_c.specs.Gives.{WritesBytes};
ghost use Rattle.ring_c.specs.Limits.{can_tag};
ghost use Rattle.ring_c.specs.Number.{hkdf_named};
ghost use Rattle.ring_c.specs.Status.{YZ_OK, YZ_UNKNOWN_ALGORITHM, YZ_UNSPECIFIED};
ghost use Rattle.ring_c.specs.Status.{no_cause, status_of};
ghost use Rattle.ring_c.specs.Tls13.{binder_key_of, binder_label, verify_data_of};

use crate::number::hkdf_of_number;
use crate::status::{OK, UNKNOWN_ALGORITHM, UNSPECIFIED, WRONG_LENGTH};
use ring::bb::verify_slices_are_equal;
use ring::digest::{MAX_OUTPUT_LEN, digest};
use ring::error::Unspecified;
use ring::hkdf::{Algorithm, Prk, Salt};
use ring::hmac::{self, Key, Tag};
use ring_schedules::label::fill_by_label;

// The bytes of a digest of the algorithm.
fn digest_len(algorithm: Algorithm) -> usize
    ensures { result ≡ output_len (hkdf_digest algorithm) }
{
    algorithm.hmac_algorithm().digest_algorithm().output_len()
}

// The label of a binder's key.
fn binder_label(is_external: bool) -> &'static [u8]
    ensures { result.now ≡ binder_label is_external }
{
    if is_external {
        b"ext binder"
    } else {
        b"res binder"
    }
}

// Makes verify_data of a base key and a transcript hash.
fn finished_tag(algorithm: Algorithm, base_key: &[u8], transcript_hash: &[u8]) -> Tag
    requires base_key { length base_key.now ≡ output_len (hkdf_digest algorithm) }
    requires hash { length transcript_hash.now ≡ output_len (hkdf_digest algorithm) }
    ensures bytes { tag_bytes result
        ≡ verify_data_of (hkdf_digest algorithm) base_key.now transcript_hash.now }
    ensures algorithm { tag_algorithm result ≡ hkdf_digest algorithm }
{
    let Ok(base_key) = Prk::new_less_safe(algorithm, base_key) else {
        // A digest is far shorter than the limit.
        unreachable!()
    };
    let mut room = [0; MAX_OUTPUT_LEN];
    let finished_key = &mut room[..digest_len(algorithm)];
    fill_by_label(&base_key, b"finished", &[], finished_key);
    let Ok(key) = Key::new(algorithm.hmac_algorithm(), finished_key) else {
        unreachable!()
    };
    let Ok(tag) = hmac::sign(&key, transcript_hash) else {
        // So is a block with a digest.
        unreachable!()
    };
    tag
}

// Compares with what was made.
fn compared(tag: &Tag, verify_data: &[u8]) -> i32
    ensures ok { result ≡ YZ_OK ↔ (verify_data.now ≡ tag_bytes tag.now) }
    ensures status { result ≢ YZ_OK → result ≡ YZ_UNSPECIFIED }
{
    match verify_slices_are_equal(tag.as_ref(), verify_data) {
        Ok(()) => OK,
        Err(_) => UNSPECIFIED,
    }
}

/// Writes to `out` the verify_data of a Finished message with the base key `base_key`, where
/// `transcript_hash` is the hash of the messages before it, by the HKDF algorithm of the number
/// `algorithm` (RFC 8446, section 4.4.4). A binder is made in the same way, with the base key that
/// [`yz_tls13_binder_key`] writes and the hash of the ClientHello up to its binders (section
/// 4.2.11.2).
///
/// Refused as `UNKNOWN_ALGORITHM`, and as `WRONG_LENGTH` where `base_key`, `transcript_hash` or
/// `out` has not the length of a digest. `out` is then unchanged.
#[unsafe(no_mangle)]
pub extern "C" fn yz_tls13_finished(
    algorithm: u32,
    base_key: &[u8],
    transcript_hash: &[u8],
    out: &mut [u8],
) -> i32
    ensures { WritesBytes YZ_UNKNOWN_ALGORITHM (hkdf_named algorithm)
        (λ a. verify_data_of (hkdf_digest a) base_key.now transcript_hash.now)
        (λ a. record no_cause {
          wrong_length = not (length base_key.now == output_len (hkdf_digest a)
              && length transcript_hash.now == output_len (hkdf_digest a)
              && length out.old == output_len (hkdf_digest a));
        }) out.old out.new result }
{
    let Some(algorithm) = hkdf_of_number(algorithm) else {
        return UNKNOWN_ALGORITHM;
    };
    let len = digest_len(algorithm);
    if base_key.len() != len || transcript_hash.len() != len || out.len() != len {
        return WRONG_LENGTH;
    }
    out.copy_from_slice(finished_tag(algorithm, base_key, transcript_hash).as_ref());
    OK
}

/// Returns 0 exactly if `verify_data` is what [`yz_tls13_finished`] writes for the same
/// `algorithm`, `base_key` and `transcript_hash` (RFC 8446, section 4.4.4). Where it has the length
/// of a digest, all of its bytes are compared.
///
/// Refused as `UNKNOWN_ALGORITHM`, as `WRONG_LENGTH` where `base_key` or `transcript_hash` has not
/// the length of a digest, and else as `UNSPECIFIED`: a mismatch.
#[unsafe(no_mangle)]
pub extern "C" fn yz_tls13_finished_verify(
    algorithm: u32,
    base_key: &[u8],
    transcript_hash: &[u8],
    verify_data: &[u8],
) -> i32
    ensures { result ≡ status_of YZ_UNKNOWN_ALGORITHM (hkdf_named algorithm) (λ a.
        record no_cause {
          wrong_length = not (length base_key.now == output_len (hkdf_digest a)
              && length transcript_hash.now == output_len (hkdf_digest a));
          unspecified = not (bytes_eq verify_data.now
              (verify_data_of (hkdf_digest a) base_key.now transcript_hash.now));
        }) }
{
    let Some(algorithm) = hkdf_of_number(algorithm) else {
        return UNKNOWN_ALGORITHM;
    };
    let len = digest_len(algorithm);
    if base_key.len() != len || transcript_hash.len() != len {
        return WRONG_LENGTH;
    }
    let made = finished_tag(algorithm, base_key, transcript_hash);
    compared(&made, verify_data)
}

// Extracts the Early Secret of a pre-shared key.
fn extract_early_secret(algorithm: Algorithm, psk: &[u8]) -> Result<Prk, Unspecified>
    ensures ok { IfOk result (λ prk. PrkStandsFor prk (hmac_of (hkdf_digest algorithm)
        (replicate (output_len (hkdf_digest algorithm)) 0) psk.now)) }
    ensures algorithm { IfOk result (λ prk. prk_algorithm prk ≡ hkdf_digest algorithm) }
    ensures refused { IsOk result ↔ IsTagWithin (hkdf_digest algorithm) (length psk.now) }
{
    let Ok(zeros) = Salt::new(algorithm, &[0; MAX_OUTPUT_LEN][..digest_len(algorithm)]) else {
        // A digest is far shorter than the limit.
        unreachable!()
    };
    zeros.extract(psk)
}

// Fills `out` with the base key of a binder.
fn fill_binder_key(algorithm: Algorithm, early_secret: &Prk, is_external: bool, out: &mut [u8])
    requires algorithm { prk_algorithm early_secret.now ≡ hkdf_digest algorithm }
    requires len { length out.old ≡ output_len (hkdf_digest algorithm) }
    ensures { (secret : List ℕ) → PrkStandsFor early_secret.now secret
        → out.new ≡ expand_label_of (hkdf_digest algorithm) secret (binder_label is_external)
        (digest_of (hkdf_digest algorithm) []) (output_len (hkdf_digest algorithm)) }
{
    let Ok(nothing) = digest(&algorithm.hmac_algorithm().digest_algorithm(), &[]) else {
        // No byte is within the limit.
        unreachable!()
    };
    let label = binder_label(is_external);
    fill_by_label(early_secret, label, nothing.as_ref(), out);
}

/// Writes to `out` the base key of a binder under the pre-shared key `psk`, by the HKDF algorithm
/// of the number `algorithm`: `binder_key` (RFC 8446, section 7.1). `is_external` is whether the
/// key was established out of band, and not by a resumption.
///
/// Refused as `UNKNOWN_ALGORITHM`, as `WRONG_LENGTH` where `out` has not the length of a digest,
/// and as `UNSPECIFIED` where the pre-shared key is empty or too long. `out` is then unchanged.
#[unsafe(no_mangle)]
pub extern "C" fn yz_tls13_binder_key(
    algorithm: u32,
    psk: &[u8],
    is_external: bool,
    out: &mut [u8],
) -> i32
    ensures { WritesBytes YZ_UNKNOWN_ALGORITHM (hkdf_named algorithm)
        (λ a. binder_key_of (hkdf_digest a) psk.now is_external)
        (λ a. record no_cause {
          wrong_length = not (length out.old == output_len (hkdf_digest a));
          unspecified = not (nat_le 1 (length psk.now)
              && can_tag (hkdf_digest a) (length psk.now));
        }) out.old out.new result }
{
    let Some(algorithm) = hkdf_of_number(algorithm) else {
        return UNKNOWN_ALGORITHM;
    };
    let len = digest_len(algorithm);
    if out.len() != len {
        return WRONG_LENGTH;
    }
    if psk.is_empty() {
        return UNSPECIFIED;
    }
    let Ok(early_secret) = extract_early_secret(algorithm, psk) else {
        return UNSPECIFIED;
    };
    fill_binder_key(algorithm, &early_secret, is_external, out);
    OK
}
