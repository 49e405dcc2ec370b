// SPDX-License-Identifier: ISC
//! Keys derived from secrets: HKDF (RFC 5869).

ghost use Rattle.std.specs.Prelude.{◌≡◌, ◌≢◌, ◌==◌, ◌&&◌, ℕ, List, Some, length};
ghost use Rattle.std.specs.Prelude.{nat_lt, not};
ghost use Rattle.ring.specs.Algorithm.{output_len};
ghost use Rattle.ring.specs.Hkdf.{PrkStandsFor, hkdf_digest, okm, prk_algorithm};
ghost use Rattle.ring.specs.Hmac.{hmac_of};
ghost use Rattle.ring.specs.Limits.{IsOutputWithin, can_expand, fits, max_okm_len};
ghost use Rattle.ring.specs.declared.hkdf.algorithm.Algorithm.{Algorithm};
ghost use Rattle.ring_c.specs.Limits.{can_make, can_sign};
ghost use Rattle.ring_c.specs.Number.{hkdf_named};
ghost use Rattle.ring_c.specs.Status.{YZ_OK, YZ_UNKNOWN_ALGORITHM, first_of, no_cause, status_of};

use crate::number::hkdf_of_number;
use crate::status::{OK, UNKNOWN_ALGORITHM, UNSPECIFIED, WRONG_LENGTH};
use crate::tags::write_tag;
use ring::hkdf::{KeyType, Prk, Salt, is_output_within};
use ring::hmac::Key;

// A number of bytes.
#[derive(Drop)]
struct Length(usize);

impl KeyType for Length {
    ghost key_len = { λ length. length.0 };

    fn len(&self) -> usize {
        self.0
    }
}

/// Writes the PRK that is extracted from `secret` with `salt` to `out`, by the HKDF algorithm of
/// the number `algorithm` (RFC 5869, section 2.2).
///
/// Refused as `UNKNOWN_ALGORITHM`, as `WRONG_LENGTH` where `out` has not the length of a digest,
/// and as `UNSPECIFIED` where the salt or the secret is too long. `out` is then unchanged.
#[unsafe(no_mangle)]
pub extern "C" fn yz_hkdf_extract(algorithm: u32, salt: &[u8], secret: &[u8], out: &mut [u8]) -> i32
    ensures ok { (a : Algorithm) → hkdf_named algorithm ≡ Some a → result ≡ YZ_OK
        → out.new ≡ hmac_of (hkdf_digest a) salt.now secret.now }
    ensures status { result ≡ status_of YZ_UNKNOWN_ALGORITHM (hkdf_named algorithm) (λ a.
        record no_cause {
          wrong_length = not (length out.old == output_len (hkdf_digest a));
          unspecified = not (can_sign (hkdf_digest a) (length salt.now) (length secret.now));
        }) }
    ensures unchanged { result ≢ YZ_OK → out.new ≡ out.old }
{
    let Some(algorithm) = hkdf_of_number(algorithm) else {
        return UNKNOWN_ALGORITHM;
    };
    let algorithm = algorithm.hmac_algorithm();
    if out.len() != algorithm.digest_algorithm().output_len() {
        return WRONG_LENGTH;
    }
    let Ok(salt) = Key::new(algorithm, salt) else {
        return UNSPECIFIED;
    };
    write_tag(&salt, secret, out)
}

/// Fills `out` with the output of the PRK `prk` for `info`, by the HKDF algorithm of the number
/// `algorithm` (RFC 5869, section 2.3).
///
/// Refused as `UNKNOWN_ALGORITHM`, as `WRONG_LENGTH` where `out` is longer than 255 digests, and as
/// `UNSPECIFIED` where the PRK or the info is too long. `out` is then unchanged.
#[unsafe(no_mangle)]
pub extern "C" fn yz_hkdf_expand(algorithm: u32, prk: &[u8], info: &[u8], out: &mut [u8]) -> i32
    ensures ok { (a : Algorithm) → hkdf_named algorithm ≡ Some a → result ≡ YZ_OK
        → out.new ≡ okm (hkdf_digest a) prk.now info.now (length out.old) }
    ensures status { result ≡ status_of YZ_UNKNOWN_ALGORITHM (hkdf_named algorithm) (λ a.
        record no_cause {
          wrong_length = nat_lt (max_okm_len (hkdf_digest a)) (length out.old);
          unspecified = not (fits (hkdf_digest a) (length prk.now)
              && can_expand (hkdf_digest a) (length info.now) (length out.old));
        }) }
    ensures unchanged { result ≢ YZ_OK → out.new ≡ out.old }
{
    let Some(algorithm) = hkdf_of_number(algorithm) else {
        return UNKNOWN_ALGORITHM;
    };
    if !is_output_within(&algorithm, out.len() as u128) {
        return WRONG_LENGTH;
    }
    let Ok(prk) = Prk::new_less_safe(algorithm, prk) else {
        return UNSPECIFIED;
    };
    fill(&prk, info, out)
}

/// Fills `out` with the output for `info` of the PRK that is extracted from `secret` with `salt`,
/// by the HKDF algorithm of the number `algorithm` (RFC 5869, sections 2.2 and 2.3).
///
/// Refused as `UNKNOWN_ALGORITHM`, as `WRONG_LENGTH` where `out` is longer than 255 digests, and as
/// `UNSPECIFIED` where the salt, the secret or the info is too long. `out` is then unchanged.
#[unsafe(no_mangle)]
pub extern "C" fn yz_hkdf(
    algorithm: u32,
    salt: &[u8],
    secret: &[u8],
    info: &[u8],
    out: &mut [u8],
) -> i32
    ensures ok { (a : Algorithm) → hkdf_named algorithm ≡ Some a → result ≡ YZ_OK
        → out.new ≡ okm (hkdf_digest a)
        (hmac_of (hkdf_digest a) salt.now secret.now) info.now (length out.old) }
    ensures status { result ≡ status_of YZ_UNKNOWN_ALGORITHM (hkdf_named algorithm) (λ a.
        record no_cause {
          wrong_length = nat_lt (max_okm_len (hkdf_digest a)) (length out.old);
          unspecified = not (can_make (hkdf_digest a)
              (length salt.now) (length secret.now) (length info.now) (length out.old));
        }) }
    ensures unchanged { result ≢ YZ_OK → out.new ≡ out.old }
{
    let Some(algorithm) = hkdf_of_number(algorithm) else {
        return UNKNOWN_ALGORITHM;
    };
    if !is_output_within(&algorithm, out.len() as u128) {
        return WRONG_LENGTH;
    }
    let Ok(salt) = Salt::new(algorithm, salt) else {
        return UNSPECIFIED;
    };
    let Ok(prk) = salt.extract(secret) else {
        return UNSPECIFIED;
    };
    fill(&prk, info, out)
}

// Fills `out` with the PRK's output for `info`.
fn fill(prk: &Prk, info: &[u8], out: &mut [u8]) -> i32
    requires { IsOutputWithin (prk_algorithm prk.now) (length out.old) }
    ensures ok { (k : List ℕ) → PrkStandsFor prk.now k → result ≡ YZ_OK
        → out.new ≡ okm (prk_algorithm prk.now) k info.now (length out.old) }
    ensures status { result ≡ first_of record no_cause {
      unspecified = not (can_expand (prk_algorithm prk.now)
          (length info.now) (length out.old));
    } }
    ensures unchanged { result ≢ YZ_OK → out.new ≡ out.old }
{
    let info = [info];
    let Ok(output) = prk.expand(&info, Length(out.len())) else {
        // The length was tested.
        unreachable!()
    };
    match output.fill(out) {
        Ok(()) => OK,
        Err(_) => UNSPECIFIED,
    }
}
