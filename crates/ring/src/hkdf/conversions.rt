// SPDX-License-Identifier: ISC
//! Keys, salts and PRKs made of output (RFC 5869, section 2.3).

ghost use Rattle.ring.specs.Prelude.{IsMadeOf, KeyStandsFor, PrkStandsFor, SaltStandsFor};
ghost use Rattle.ring.specs.Prelude.{asked_for, hkdf_digest, hmac_digest, key_algorithm};
ghost use Rattle.ring.specs.Prelude.{prk_algorithm, salt_algorithm};

use crate::hkdf::algorithm::Algorithm;
use crate::hkdf::prk::{Okm, Prk};
use crate::hkdf::salt::Salt;
use crate::hmac::{self, Key};
use ring_core::cost::Meter;
use ring_core::error::Unspecified;

/// The key whose value is the whole output, for the HMAC algorithm that was passed to
/// [`Prk::expand`].
///
/// Refused where one block and the message of a round are too long, as in [`Okm::fill`].
impl TryFrom<Okm<'_, hmac::Algorithm>> for Key {
    type Error = Unspecified;

    ghost try_from_gives = { λ output result.
        IsMadeOf output (hmac_digest (asked_for output)) key_algorithm KeyStandsFor result };

    fn try_from(output: Okm<'_, hmac::Algorithm>) -> Result<Key, Unspecified> {
        let algorithm = *output.len();
        output.into_key(algorithm, &mut Meter::new())
    }
}

/// The salt whose value is the whole output, for the HKDF algorithm that was passed to
/// [`Prk::expand`].
///
/// Refused where one block and the message of a round are too long, as in [`Okm::fill`].
impl TryFrom<Okm<'_, Algorithm>> for Salt {
    type Error = Unspecified;

    ghost try_from_gives = { λ output result.
        IsMadeOf output (hkdf_digest (asked_for output)) salt_algorithm SaltStandsFor result };

    fn try_from(output: Okm<'_, Algorithm>) -> Result<Salt, Unspecified> {
        let algorithm = output.len().hmac_algorithm();
        Ok(Salt(output.into_key(algorithm, &mut Meter::new())?))
    }
}

/// The PRK whose value is the whole output, for the HKDF algorithm that was passed to
/// [`Prk::expand`].
///
/// Refused where one block and the message of a round are too long, as in [`Okm::fill`].
impl TryFrom<Okm<'_, Algorithm>> for Prk {
    type Error = Unspecified;

    ghost try_from_gives = { λ output result.
        IsMadeOf output (hkdf_digest (asked_for output)) prk_algorithm PrkStandsFor result };

    fn try_from(output: Okm<'_, Algorithm>) -> Result<Prk, Unspecified> {
        let algorithm = output.len().hmac_algorithm();
        Ok(Prk(output.into_key(algorithm, &mut Meter::new())?))
    }
}
