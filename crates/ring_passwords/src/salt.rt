// SPDX-License-Identifier: ISC
//! The salt of a new store or a new text: 16 random bytes.

ghost use Rattle.std.specs.Prelude.{IfErr, IfOk};
ghost use Rattle.ring_passwords.specs.Salt.{IsDrawn, IsNotDrawn};

use crate::failure::{Failure, Step};
use crate::steps::Steps;

/// How many bytes a salt has.
pub const LEN: usize = 16;

/// The bytes of a salt, as the system draws them.
pub fn salt<S: Steps>(steps: &mut S) -> Result<[u8; LEN], Failure>
    ensures ok { IfOk result (λ salt. IsDrawn (S.events steps.old) (S.events steps.new) salt) }
    ensures refused { IfErr result (λ failure.
        IsNotDrawn (S.events steps.old) (S.events steps.new) failure) }
{
    let mut salt = [0; LEN];
    match steps.random(&mut salt) {
        Ok(()) => Ok(salt),
        Err(error) => Err(Failure::System(Step::Salt, error)),
    }
}
