// SPDX-License-Identifier: ISC
//! Keys and values of a source's bytes.

ghost use Rattle.std.specs.Prelude.{◌≡◌, ◌↔◌, ◌⊎◌, ◌+◌, ◌<◌, ◌++◌};
ghost use Rattle.std.specs.Prelude.{drop, false, length, take, IfOk, IsErr, OnErr, OnOk};
ghost use Rattle.ring.specs.Prelude.{IsTag, max_input_len};

use ring::digest::SHA256;
use ring::error::Unspecified;
use ring::hmac::{HMAC_SHA256, Key, Tag, sign};
use ring::rand::{SecureRandom, generate};

/// The source's next 16 bytes.
///
/// Refused where it isn't ready for so many, and keeps all of its bytes then.
pub fn nonce(rng: &mut dyn SecureRandom) -> Result<[u8; 16], Unspecified>
    ensures ok { IfOk result (λ nonce. left rng.old ≡ nonce ++ left rng.new) }
    ensures refused { IsErr result ↔ (ready rng.old 16 ≡ false) }
    ensures unchanged { OnErr result (left rng.new ≡ left rng.old) }
{
    Ok(generate::<[u8; 16]>(rng)?.expose())
}

/// The tag of a message under a key of the source's next 32 bytes.
pub fn tag_under_generated(rng: &mut dyn SecureRandom, message: &[u8]) -> Result<Tag, Unspecified>
    ensures ok { IfOk result (λ tag. IsTag tag SHA256 (take 32 (left rng.old)) message.now) }
    ensures refused { IsErr result ↔ ((ready rng.old 32 ≡ false)
        ⊎ (max_input_len SHA256 < 64 + length message.now)) }
    ensures taken { OnOk result (left rng.new ≡ drop 32 (left rng.old)) }
    ensures kept { ready rng.old 32 ≡ false → left rng.new ≡ left rng.old }
{
    let key = Key::generate(HMAC_SHA256, rng)?;
    sign(&key, message)
}
