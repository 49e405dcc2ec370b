// SPDX-License-Identifier: ISC
//! What the arguments ask for of a password's text, without a file.

ghost use Rattle.std.specs.Prelude.{◌≡◌, ◌∷◌, codes, map, string_bytes};
ghost use Rattle.std.specs.Prelude.{IfErr, IfOk, IfSome, IsNone};
ghost use Rattle.std.specs.Int.NonZero.{non_zero_u32_get};
ghost use Rattle.ring_passwords.specs.Conversion.{conversion_words};
ghost use Rattle.ring_passwords.specs.Misuse.{IsWrongEncode, IsWrongOption};
ghost use Rattle.ring_passwords.specs.declared.word.CountOption.TheVariants.{MaxIterations};

use crate::given::count_given;
use crate::misuse::Misuse;
use crate::word::CountOption;
use ring_password_hash::Scheme;
use std::num::NonZeroU32;

/// The most iterations of a text where no limit is given: a test takes seconds. No system writes
/// that many.
pub const MAX_ITERATIONS: u32 = 10_000_000;

/// What is done with the text of a password.
#[derive(Clone, Copy)]
pub enum Conversion {
    /// Writes the text of a password, with these iterations where they are given.
    Encode(Scheme, Option<NonZeroU32>),
    /// Tests a password against a text, of at most these iterations where they are given.
    Check(Option<NonZeroU32>),
}

/// The most iterations of a text: those that are given, or else 10,000,000.
pub fn max_iterations(given: Option<NonZeroU32>) -> NonZeroU32
    ensures given { IfSome given (λ iterations. result ≡ iterations) }
    ensures default { IsNone given → non_zero_u32_get result ≡ 10_000_000 }
{
    given.unwrap_or(NonZeroU32::new(MAX_ITERATIONS).unwrap())
}

/// What the words behind `encode` ask for.
pub fn encode_of(words: &[String]) -> Result<Conversion, Misuse<'_>>
    ensures ok { IfOk result (λ conversion.
        codes "encode" ∷ map string_bytes words.now ≡ conversion_words conversion) }
    ensures refused { IfErr result (λ misuse. IsWrongEncode misuse (map string_bytes words.now)) }
{
    let [name, rest @ ..] = words else {
        return Err(Misuse::NoScheme);
    };
    let Some(scheme) = Scheme::named(name.as_str()) else {
        return Err(Misuse::UnknownScheme(name.as_str()));
    };
    let given = count_given(CountOption::Iterations, rest)?;
    Ok(Conversion::Encode(scheme, given))
}

/// What the words behind `check` ask for.
pub fn check_of(words: &[String]) -> Result<Conversion, Misuse<'_>>
    ensures ok { IfOk result (λ conversion.
        codes "check" ∷ map string_bytes words.now ≡ conversion_words conversion) }
    ensures refused { IfErr result (λ misuse.
        IsWrongOption MaxIterations misuse (map string_bytes words.now)) }
{
    let given = count_given(CountOption::MaxIterations, words)?;
    Ok(Conversion::Check(given))
}
