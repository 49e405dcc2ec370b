// SPDX-License-Identifier: ISC
//! Keys expanded by labels: HKDF-Expand-Label (RFC 8446, section 7.1).

ghost use Rattle.std.specs.Prelude.{◌&&◌, length, nat_lt, not};
ghost use Rattle.ring.specs.Hkdf.{hkdf_digest};
ghost use Rattle.ring.specs.Limits.{fits, max_okm_len};
ghost use Rattle.ring_schedules.specs.Label.{expand_label_of, is_label_within};
ghost use Rattle.ring_c.specs.Gives.{WritesBytes};
ghost use Rattle.ring_c.specs.Number.{hkdf_named};
ghost use Rattle.ring_c.specs.Status.{YZ_UNKNOWN_ALGORITHM, no_cause};

use crate::number::hkdf_of_number;
use crate::status::{OK, UNKNOWN_ALGORITHM, UNSPECIFIED, WRONG_LENGTH};
use ring::hkdf::{Prk, is_output_within};
use ring_schedules::label::{fill_by_label, is_label_within};

/// Fills `out` with HKDF-Expand-Label of `secret` for `label` and `context`, by the HKDF algorithm
/// of the number `algorithm` (RFC 8446, section 7.1). The prefix `tls13 ` is no part of `label`.
///
/// Refused as `UNKNOWN_ALGORITHM`, as `WRONG_LENGTH` where `out` is longer than 255 digests, and as
/// `UNSPECIFIED` where the label has not 1 to 249 bytes, the context has more than 255, or the
/// secret is too long. `out` is then unchanged.
#[unsafe(no_mangle)]
pub extern "C" fn yz_hkdf_expand_label(
    algorithm: u32,
    secret: &[u8],
    label: &[u8],
    context: &[u8],
    out: &mut [u8],
) -> i32
    ensures { WritesBytes YZ_UNKNOWN_ALGORITHM (hkdf_named algorithm)
        (λ a. expand_label_of (hkdf_digest a) secret.now label.now context.now (length out.old))
        (λ a. record no_cause {
          wrong_length = nat_lt (max_okm_len (hkdf_digest a)) (length out.old);
          unspecified = not (fits (hkdf_digest a) (length secret.now)
              && is_label_within (length label.now) (length context.now));
        }) out.old out.new result }
{
    let Some(algorithm) = hkdf_of_number(algorithm) else {
        return UNKNOWN_ALGORITHM;
    };
    if !is_output_within(&algorithm, out.len() as u128) {
        return WRONG_LENGTH;
    }
    if !is_label_within(label.len(), context.len()) {
        return UNSPECIFIED;
    }
    let Ok(prk) = Prk::new_less_safe(algorithm, secret) else {
        return UNSPECIFIED;
    };
    fill_by_label(&prk, label, context, out);
    OK
}
