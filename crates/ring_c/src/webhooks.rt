// SPDX-License-Identifier: ISC
//! The headers with which GitHub, Stripe and others sign what they send to a webhook.

ghost use Rattle.std.specs.Prelude.{◌≡◌, ◌≢◌, ◌↔◌, codes, not};
ghost use Rattle.ring.specs.declared.hmac.key.TheConstants.{HMAC_SHA256};
ghost use Rattle.ring_c.specs.Number.{hmac_named};
ghost use Rattle.ring_c.specs.Status.{YZ_OK, YZ_UNKNOWN_ALGORITHM, YZ_UNSPECIFIED, first_of};
ghost use Rattle.ring_c.specs.Status.{no_cause, status_of};
ghost use Rattle.ring_c.specs.Webhook.{IsStripeUnder, is_hex};

use crate::number::hmac_of_number;
use crate::status::{OK, UNKNOWN_ALGORITHM, UNSPECIFIED};
use ring::hmac::HMAC_SHA256;
use ring_tokens::SharedSecret;
use ring_tokens::webhook::{verify_github, verify_hex, verify_stripe};

/// Returns 0 exactly if `header` is `prefix` and behind it the tag of `body` under the key bytes
/// `secret` in hex, in lower case, by the HMAC algorithm of the number `algorithm` (RFC 2104,
/// section 2). All bytes of the tag are compared, whatever the header is.
///
/// Refused as `UNKNOWN_ALGORITHM` exactly if the number names none, and else as `UNSPECIFIED`:
/// another header, an empty secret, or a secret or body that is too long.
#[unsafe(no_mangle)]
pub extern "C" fn yz_webhook_verify_hex(
    algorithm: u32,
    secret: &[u8],
    prefix: &[u8],
    body: &[u8],
    header: &[u8],
) -> i32
    ensures { result ≡ status_of YZ_UNKNOWN_ALGORITHM (hmac_named algorithm) (λ a.
        record no_cause {
          unspecified = not (is_hex a secret.now prefix.now body.now header.now);
        }) }
{
    let Some(algorithm) = hmac_of_number(algorithm) else {
        return UNKNOWN_ALGORITHM;
    };
    let Ok(secret) = SharedSecret::new(algorithm, secret) else {
        return UNSPECIFIED;
    };
    match verify_hex(&secret, prefix, body, header) {
        Ok(()) => OK,
        Err(_) => UNSPECIFIED,
    }
}

/// Returns 0 exactly if `header` is what GitHub sends as `X-Hub-Signature-256` with `body`:
/// `sha256=` and the body's tag under the key bytes `secret` in hex. The secret is the webhook's.
///
/// Refused as `UNSPECIFIED`: another header, an empty secret, or a secret or body that is too long.
#[unsafe(no_mangle)]
pub extern "C" fn yz_webhook_verify_github(secret: &[u8], body: &[u8], header: &[u8]) -> i32
    ensures { result ≡ first_of record no_cause {
      unspecified = not (is_hex HMAC_SHA256 secret.now (codes "sha256=") body.now header.now);
    } }
{
    let Ok(secret) = SharedSecret::new(HMAC_SHA256, secret) else {
        return UNSPECIFIED;
    };
    match verify_github(&secret, body, header) {
        Ok(()) => OK,
        Err(_) => UNSPECIFIED,
    }
}

/// Returns 0 exactly if `header` is what Stripe sends as `Stripe-Signature` with `body`, signed no
/// more than `tolerance` seconds before `now` under the key bytes `secret`: `t=` and the time
/// first, and among the items after it `v1=` and the tag in hex of the time, a full stop and the
/// body. The secret is the endpoint's, and times are in seconds since 1970.
///
/// Refused as `UNSPECIFIED`: another header or one that is too old, an empty secret, or a secret or
/// body that is too long.
#[unsafe(no_mangle)]
pub extern "C" fn yz_webhook_verify_stripe(
    secret: &[u8],
    body: &[u8],
    header: &[u8],
    now: u64,
    tolerance: u64,
) -> i32
    ensures ok { result ≡ YZ_OK ↔ IsStripeUnder secret.now body.now header.now now tolerance }
    ensures refused { result ≢ YZ_OK → result ≡ YZ_UNSPECIFIED }
{
    let Ok(secret) = SharedSecret::new(HMAC_SHA256, secret) else {
        return UNSPECIFIED;
    };
    match verify_stripe(&secret, body, header, now, tolerance) {
        Ok(()) => OK,
        Err(_) => UNSPECIFIED,
    }
}
