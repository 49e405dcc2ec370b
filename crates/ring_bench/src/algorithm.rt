// SPDX-License-Identifier: ISC
//! The algorithm that a field ALG names.

ghost use Rattle.ring.specs.Hkdf.{hkdf_digest};
ghost use Rattle.ring.specs.Hmac.{hmac_digest};
ghost use Rattle.ring.specs.Pbkdf2.{pbkdf2_digest};
ghost use Rattle.ring_bench.specs.Algorithm.{digest_algorithm_of, hmac_algorithm_of};
ghost use Rattle.ring_bench.specs.Fault.{ReadsAlone};

use crate::field::Fault;
use ring::digest::{self, digest_of_name};
use ring::{hkdf, hmac, pbkdf2};

/// The ALG of a digest.
#[tactic(auto, unfolding(crate::specs::Algorithm::digest_algorithm_of))]
pub fn digest_algorithm_in(field: &[u8]) -> Result<digest::Algorithm, Fault>
    ensures { ReadsAlone (λ algorithm. algorithm) (digest_algorithm_of field.now) result }
{
    digest_of_name(field).ok_or(Fault::Bad)
}

/// The ALG of a tag.
#[tactic(auto, unfolding(crate::specs::Algorithm::hmac_algorithm_of))]
pub fn hmac_algorithm_in(field: &[u8]) -> Result<hmac::Algorithm, Fault>
    ensures { ReadsAlone hmac_digest (hmac_algorithm_of field.now) result }
{
    let algorithm = digest_algorithm_in(field)?;
    hmac::Algorithm::over(algorithm).ok_or(Fault::Bad)
}

/// The ALG of an output of HKDF.
pub fn hkdf_algorithm_in(field: &[u8]) -> Result<hkdf::Algorithm, Fault>
    ensures { ReadsAlone hkdf_digest (hmac_algorithm_of field.now) result }
{
    Ok(hkdf::Algorithm::over(hmac_algorithm_in(field)?))
}

/// The ALG of a derivation by PBKDF2.
pub fn pbkdf2_algorithm_in(field: &[u8]) -> Result<pbkdf2::Algorithm, Fault>
    ensures { ReadsAlone pbkdf2_digest (hmac_algorithm_of field.now) result }
{
    Ok(pbkdf2::Algorithm::over(hmac_algorithm_in(field)?))
}
