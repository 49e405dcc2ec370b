// SPDX-License-Identifier: ISC
//! The headers with which GitHub, Stripe and others sign what they send to a webhook.
//!
//! An empty secret is refused where a [`SharedSecret`] is made, so no header verifies under it.

ghost use Rattle.std.specs.Prelude.{◌≡◌, ◌≢◌, ◌↔◌, ℕ, ◌<◌, ◌≤◌, ◌+◌, ◌*◌, ◌^◌, List, ◌++◌, length};
ghost use Rattle.std.specs.Prelude.{IfSome, IsNone, IsOk, IsTrue};
ghost use Rattle.std.specs.Fmt.{decimal};
ghost use Rattle.hex.specs.Hex.{IsBytes, encode_lower};
ghost use Rattle.ring.specs.Prelude.{IsTagWithin, output_len, raised};
ghost use Rattle.ring.specs.declared.digest.algorithm.TheConstants.{SHA256};
ghost use Rattle.ring_tokens.specs.Cost.{tag_blocks};
ghost use Rattle.ring_tokens.specs.Secret.{IsSecret, secret_algorithm};
ghost use Rattle.ring_tokens.specs.Webhook.{IsGithub, IsHex, IsStripe, has_item, items_of};
ghost use Rattle.ring_tokens.specs.Webhook.{stripe_item, stripe_message, timestamp_then};

use crate::secret::SharedSecret;
use ring::bb::verify_slices_are_equal_counted;
use ring::cost::Meter;
use ring::digest::{MAX_OUTPUT_LEN, SHA256};
use ring::error::Unspecified;
use ring::hmac;
use ring::laws::sign_pieces;
use ring_text::{after, cut_at, fill_from_hex, number_in};

// Reads a name and the hex of as many bytes as `out` has. If it returns false, `out` may have any
// bytes.
fn fill_named(name: &[u8], text: &[u8], out: &mut [u8]) -> bool
    ensures ok { IsTrue result → (text.now ≡ name.now ++ encode_lower out.new) × IsBytes out.new }
    ensures refused { ¬ (IsTrue result) → (bytes : List ℕ) → IsBytes bytes
        → length bytes ≡ length out.old → text.now ≢ name.now ++ encode_lower bytes }
{
    match after(text, name) {
        Some(digits) => fill_from_hex(digits, out),
        None => false,
    }
}

// Whether a text is a name and the tag in hex. The text is decoded, and not the tag encoded, since
// digits are looked up in a table. All bytes of the tag are compared, whatever the text is, so that
// only the answer depends on the tag.
fn is_named(name: &[u8], tag: &[u8], text: &[u8], meter: &mut Meter) -> bool
    requires { length tag.now ≤ MAX_OUTPUT_LEN }
    ensures ok { IsTrue result ↔ (text.now ≡ name.now ++ encode_lower tag.now) }
    ensures cost { meter.new ≡ raised meter.old 0 (length tag.now) }
{
    let mut room = [0; MAX_OUTPUT_LEN];
    let given = &mut room[..tag.len()];
    let is_read = fill_named(name, text, given);
    let is_same = verify_slices_are_equal_counted(tag, given, meter).is_ok();
    is_same && is_read
}

/// Verifies a header as [`verify_hex`] does, and counts the blocks of the body's tag and the
/// compared pairs of bytes on `meter`: those of a whole tag, whatever the header is. Where the body
/// is too long, `meter` is as it was.
#[tactic(auto, using(crate::proofs::Rises::rise_compared, crate::proofs::Rises::tag_lens))]
pub fn verify_hex_counted(
    secret: &SharedSecret,
    prefix: &[u8],
    body: &[u8],
    header: &[u8],
    meter: &mut Meter,
) -> Result<(), Unspecified>
    ensures ok { (k : List ℕ) → IsSecret secret.now k → IsOk result
        ↔ IsHex (secret_algorithm secret.now) k prefix.now body.now header.now }
    ensures cost { let a = secret_algorithm secret.now in IsTagWithin a (length body.now)
        → meter.new ≡ raised meter.old (tag_blocks a (length body.now)) (output_len a) }
    ensures unchanged { (IsTagWithin (secret_algorithm secret.now) (length body.now) → ⊥)
        → meter.new ≡ meter.old }
{
    let tag = hmac::sign_counted(&secret.key, body, meter)?;
    if !is_named(prefix, tag.as_ref(), header, meter) {
        return Err(Unspecified);
    }
    Ok(())
}

/// Returns Ok exactly if `header` is `prefix` and behind it the body's tag in hex, in lower case.
/// The tag is by the secret's algorithm.
///
/// Refused where the header is another one, and where HMAC does not admit the body.
pub fn verify_hex(
    secret: &SharedSecret,
    prefix: &[u8],
    body: &[u8],
    header: &[u8],
) -> Result<(), Unspecified>
    ensures ok { (k : List ℕ) → IsSecret secret.now k → IsOk result
        ↔ IsHex (secret_algorithm secret.now) k prefix.now body.now header.now }
{
    verify_hex_counted(secret, prefix, body, header, &mut Meter::new())
}

/// Verifies a header as [`verify_github`] does, and counts the blocks of the body's tag and the
/// compared pairs of bytes on `meter`: those of a whole tag, whatever the header is. Where the
/// secret is for another algorithm or the body is too long, `meter` is as it was.
pub fn verify_github_counted(
    secret: &SharedSecret,
    body: &[u8],
    header: &[u8],
    meter: &mut Meter,
) -> Result<(), Unspecified>
    ensures ok { (k : List ℕ) → IsSecret secret.now k
        → IsOk result ↔ IsGithub (secret_algorithm secret.now) k body.now header.now }
    ensures cost { secret_algorithm secret.now ≡ SHA256 → IsTagWithin SHA256 (length body.now)
        → meter.new ≡ raised meter.old (tag_blocks SHA256 (length body.now)) 32 }
    ensures unchanged { (secret_algorithm secret.now ≡ SHA256
        → IsTagWithin SHA256 (length body.now) → ⊥) → meter.new ≡ meter.old }
{
    if secret.key.algorithm().digest_algorithm() != SHA256 {
        return Err(Unspecified);
    }
    verify_hex_counted(secret, b"sha256=", body, header, meter)
}

/// Returns Ok exactly if `header` is what GitHub sends as `X-Hub-Signature-256` with a body:
/// `sha256=` and the body's tag in hex. The secret is the webhook's.
///
/// Refused where the header is another one, where the secret is not for HMAC over SHA-256, and
/// where HMAC does not admit the body.
pub fn verify_github(secret: &SharedSecret, body: &[u8], header: &[u8]) -> Result<(), Unspecified>
    ensures ok { (k : List ℕ) → IsSecret secret.now k
        → IsOk result ↔ IsGithub (secret_algorithm secret.now) k body.now header.now }
{
    verify_github_counted(secret, body, header, &mut Meter::new())
}

// A time, as Stripe's header has it.
#[derive(Clone, Copy)]
struct Timestamp<'a> {
    seconds: u64,
    digits: &'a [u8],
    items: &'a [u8],
}

// Reads `t=`, a time and a comma.
fn timestamp_in(header: &[u8]) -> Option<Timestamp<'_>>
    ensures ok { IfSome result (λ found. (found.digits.now ≡ decimal found.seconds)
        × (found.seconds < 2 ^ 64)
        × (header.now ≡ timestamp_then found.seconds found.items.now)) }
    ensures refused { IsNone result → (n : ℕ) (items : List ℕ) → n < 2 ^ 64
        → header.now ≢ timestamp_then n items }
{
    let Some(rest) = after(header, b"t=") else {
        return None;
    };
    let Some((digits, items)) = cut_at(rest, b',') else {
        return None;
    };
    match number_in(digits) {
        Some(seconds) => Some(Timestamp {
            seconds,
            digits,
            items,
        }),
        None => None,
    }
}

// Whether one of the items is that of the tag. It goes on after one that is, so that its time
// doesn't tell which.
fn has_item(items: &[u8], tag: &[u8], meter: &mut Meter) -> bool
    requires { length tag.now ≡ 32 }
    ensures ok { result ≡ has_item (stripe_item tag.now) items.now }
    ensures cost { meter.new ≡ raised meter.old 0 (32 * length (items_of items.now)) }
{
    let mut found = false;
    let mut rest = items;
    'items: while let Some((item, behind)) = cut_at(rest, b',') {
        found |= is_named(b"v1=", tag, item, meter);
        rest = behind;
    }
    found | is_named(b"v1=", tag, rest, meter)
}

/// Verifies a header as [`verify_stripe`] does, and counts the blocks of the tag and the compared
/// pairs of bytes on `meter`: those of a whole tag for each item, whatever it is. Where the header
/// has no time or is too old, the secret is for another algorithm, or HMAC does not admit what is
/// signed, `meter` is as it was.
pub fn verify_stripe_counted(
    secret: &SharedSecret,
    body: &[u8],
    header: &[u8],
    now: u64,
    tolerance: u64,
    meter: &mut Meter,
) -> Result<(), Unspecified>
    ensures ok { (k : List ℕ) → IsSecret secret.now k
        → IsOk result ↔ IsStripe (secret_algorithm secret.now) k body.now header.now now tolerance }
    ensures cost { (n : ℕ) (items : List ℕ) → secret_algorithm secret.now ≡ SHA256 → n < 2 ^ 64
        → header.now ≡ timestamp_then n items → now ≤ n + tolerance
        → IsTagWithin SHA256 (length (stripe_message n body.now)) → meter.new
        ≡ raised meter.old (tag_blocks SHA256 (length (stripe_message n body.now)))
        (32 * length (items_of items)) }
    ensures unchanged { ((n : ℕ) (items : List ℕ) → secret_algorithm secret.now ≡ SHA256
        → n < 2 ^ 64 → header.now ≡ timestamp_then n items → now ≤ n + tolerance
        → IsTagWithin SHA256 (length (stripe_message n body.now)) → ⊥) → meter.new ≡ meter.old }
{
    if secret.key.algorithm().digest_algorithm() != SHA256 {
        return Err(Unspecified);
    }
    let Some(time) = timestamp_in(header) else {
        return Err(Unspecified);
    };
    if now as u128 > time.seconds as u128 + tolerance as u128 {
        return Err(Unspecified);
    }
    let Ok(tag) = sign_pieces(&secret.key, &[time.digits, b".", body], meter) else {
        return Err(Unspecified);
    };
    if !has_item(time.items, tag.as_ref(), meter) {
        return Err(Unspecified);
    }
    Ok(())
}

/// Returns Ok exactly if `header` is what Stripe sends as `Stripe-Signature` with a body, signed no
/// more than `tolerance` seconds before `now`: `t=` and the time first, and among the items after
/// it `v1=` and the tag in hex of the time, a full stop and the body. The secret is the
/// endpoint's, and times are in seconds since 1970.
///
/// Refused where the header is another one or too old, where the secret is not for HMAC over
/// SHA-256, and where HMAC does not admit what is signed.
pub fn verify_stripe(
    secret: &SharedSecret,
    body: &[u8],
    header: &[u8],
    now: u64,
    tolerance: u64,
) -> Result<(), Unspecified>
    ensures ok { (k : List ℕ) → IsSecret secret.now k
        → IsOk result ↔ IsStripe (secret_algorithm secret.now) k body.now header.now now tolerance }
{
    verify_stripe_counted(secret, body, header, now, tolerance, &mut Meter::new())
}
