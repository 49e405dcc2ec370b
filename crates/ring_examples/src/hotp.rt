// SPDX-License-Identifier: ISC
//! HOTP: one-time passwords by HMAC (RFC 4226).

ghost use Rattle.std.specs.Prelude.{◌≡◌, ◌↔◌, ◌⊎◌, ◌<◌, length, IfOk, IsErr};
ghost use Rattle.ring.specs.Prelude.{max_input_len};
ghost use Rattle.ring_examples.specs.Hotp.{dynamic_truncation, hotp_of};

use ring::digest::SHA1_FOR_LEGACY_USE_ONLY;
use ring::error::Unspecified;
use ring::hmac::{HMAC_SHA1_FOR_LEGACY_USE_ONLY, Key, sign};

/// The 31 bits that a tag of HMAC-SHA-1 is cut to (RFC 4226, section 5.3).
fn truncate(tag: &[u8]) -> u32
    requires { length tag.now ≡ 20 }
    ensures value { result ≡ dynamic_truncation tag.now }
{
    let offset = (tag[19] & 0x0f) as usize;
    let mut word = [0; 4];
    word.copy_from_slice(&tag[offset..offset + 4]);
    u32::from_be_bytes(word) & 0x7fff_ffff
}

/// The one-time password of six digits for a counter (RFC 4226, section 5.3). An empty secret is
/// refused, since everybody has it.
pub fn hotp(secret: &[u8], counter: u64) -> Result<u32, Unspecified>
    ensures ok { IfOk result (λ password. password ≡ hotp_of secret.now counter 6) }
    ensures refused { IsErr result ↔ ((length secret.now ≡ 0)
        ⊎ (max_input_len SHA1_FOR_LEGACY_USE_ONLY < length secret.now)) }
{
    if secret.is_empty() {
        return Err(Unspecified);
    }
    let key = Key::new(HMAC_SHA1_FOR_LEGACY_USE_ONLY, secret)?;
    let tag = sign(&key, &counter.to_be_bytes())?;
    Ok(truncate(tag.as_ref()) % 1_000_000)
}
