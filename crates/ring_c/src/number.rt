// SPDX-License-Identifier: ISC
//! Algorithms by their numbers, which are those of the digest algorithms below them, schemes of
//! password hashes by theirs, and numbers that are counts.

ghost use Rattle.std.specs.Prelude.{◌≡◌, IfSome, Some};
ghost use Rattle.ring_tokens.specs.Otp.{digits_of};
ghost use Rattle.ring_c.specs.Number.{count_named, digits_named, hkdf_named, hmac_named, jws_named};
ghost use Rattle.ring_c.specs.Number.{pbkdf2_named, scheme_named};

use ring::raw::digest_of_number;
use ring::{hkdf, hmac, pbkdf2};
use ring_password_hash::Scheme;
use ring_tokens::Alg;
use ring_tokens::otp::Digits;
use std::num::NonZeroU32;

// The HMAC algorithm of a number.
#[tactic(auto, unfolding(crate::specs::Number::hmac_named))]
pub(crate) fn hmac_of_number(number: u32) -> Option<hmac::Algorithm>
    ensures { result ≡ hmac_named number }
{
    hmac::Algorithm::over(digest_of_number(number)?)
}

// The HKDF algorithm of a number.
#[tactic(auto, unfolding(crate::specs::Number::hkdf_named))]
pub(crate) fn hkdf_of_number(number: u32) -> Option<hkdf::Algorithm>
    ensures { result ≡ hkdf_named number }
{
    Some(hkdf::Algorithm::over(hmac_of_number(number)?))
}

// The PBKDF2 algorithm of a number.
#[tactic(auto, unfolding(crate::specs::Number::pbkdf2_named))]
pub(crate) fn pbkdf2_of_number(number: u32) -> Option<pbkdf2::Algorithm>
    ensures { result ≡ pbkdf2_named number }
{
    Some(pbkdf2::Algorithm::over(hmac_of_number(number)?))
}

// The algorithm of signed tokens of a number.
pub(crate) fn alg_of_number(number: u32) -> Option<Alg>
    ensures { result ≡ jws_named number }
{
    match number {
        2 => Some(Alg::Hs256),
        3 => Some(Alg::Hs384),
        4 => Some(Alg::Hs512),
        _ => None,
    }
}

// The number as that of a one-time password's digits.
pub(crate) fn digits_of_number(number: usize) -> Option<Digits>
    ensures ok { result ≡ digits_named number }
    ensures count { IfSome result (λ digits. digits_of digits ≡ number) }
{
    match number {
        6 => Some(Digits::Six),
        7 => Some(Digits::Seven),
        8 => Some(Digits::Eight),
        _ => None,
    }
}

// The scheme of password hashes of a number.
pub(crate) fn scheme_of_number(number: u32) -> Option<Scheme>
    ensures { result ≡ scheme_named number }
{
    match number {
        1 => Some(Scheme::DjangoSha256),
        2 => Some(Scheme::DjangoSha1),
        3 => Some(Scheme::WerkzeugSha256),
        4 => Some(Scheme::WerkzeugSha512),
        5 => Some(Scheme::PhcSha256),
        6 => Some(Scheme::PhcSha512),
        7 => Some(Scheme::Mosquitto),
        8 => Some(Scheme::PasslibSha1),
        9 => Some(Scheme::PasslibSha256),
        10 => Some(Scheme::PasslibSha512),
        11 => Some(Scheme::Postgresql),
        12 => Some(Scheme::WerkzeugSha1),
        _ => None,
    }
}

// The number of a scheme.
pub(crate) fn number_of_scheme(scheme: Scheme) -> u32
    ensures { scheme_named result ≡ Some scheme }
{
    match scheme {
        Scheme::DjangoSha256 => 1,
        Scheme::DjangoSha1 => 2,
        Scheme::WerkzeugSha256 => 3,
        Scheme::WerkzeugSha512 => 4,
        Scheme::PhcSha256 => 5,
        Scheme::PhcSha512 => 6,
        Scheme::Mosquitto => 7,
        Scheme::PasslibSha1 => 8,
        Scheme::PasslibSha256 => 9,
        Scheme::PasslibSha512 => 10,
        Scheme::Postgresql => 11,
        Scheme::WerkzeugSha1 => 12,
    }
}

// The number as an iteration count.
pub(crate) fn count_of_number(number: u32) -> Option<NonZeroU32>
    ensures { result ≡ count_named number }
{
    NonZeroU32::new(number)
}
