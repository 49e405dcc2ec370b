// SPDX-License-Identifier: ISC
//! Algorithms by names, as a configuration has them.

ghost use Rattle.std.specs.Prelude.{◌≡◌, option_map};
ghost use Rattle.std.specs.Option.{option_and_then};
ghost use Rattle.ring.specs.Prelude.{digest_of_name, hkdf_over, hmac_over, pbkdf2_over};

use ring::digest::digest_of_name;
use ring::{hkdf, hmac, pbkdf2};

/// HMAC over the digest algorithm of a name, as `SHA256`: `None` where none has the name, or the
/// one that has it is for digests alone.
pub fn hmac_of_name(name: &[u8]) -> Option<hmac::Algorithm>
    ensures { result ≡ option_and_then hmac_over (digest_of_name name.now) }
{
    hmac::Algorithm::over(digest_of_name(name)?)
}

/// HKDF and PBKDF2 over that.
pub fn derivations_of_name(name: &[u8]) -> Option<(hkdf::Algorithm, pbkdf2::Algorithm)>
    ensures { result ≡ option_map (λ a. (hkdf_over a, pbkdf2_over a))
        (option_and_then hmac_over (digest_of_name name.now)) }
{
    let algorithm = hmac_of_name(name)?;
    Some((
        hkdf::Algorithm::over(algorithm),
        pbkdf2::Algorithm::over(algorithm),
    ))
}
