// SPDX-License-Identifier: ISC
//! The last words of a call: an option and its number, or nothing.

ghost use Rattle.std.specs.Prelude.{◌≡◌, ◌<◌, ◌^◌, [], ◌∷◌, map, string_bytes};
ghost use Rattle.std.specs.Prelude.{IfErr, IfOk, IfSome, OnOk};
ghost use Rattle.std.specs.Fmt.{decimal};
ghost use Rattle.std.specs.Int.NonZero.{non_zero_u32_get};
ghost use Rattle.ring_passwords.specs.Misuse.{IsUnexpected, IsWrongCount, IsWrongOption};
ghost use Rattle.ring_passwords.specs.Word.{option_words};

use crate::misuse::Misuse;
use crate::word::CountOption;
use ring_text::count_in;
use std::num::NonZeroU32;

/// Refuses words behind a call that has all that it can have.
pub fn nothing_more(words: &[String]) -> Result<(), Misuse<'_>>
    ensures ok { OnOk result (map string_bytes words.now ≡ []) }
    ensures refused { IfErr result (λ misuse. IsUnexpected misuse (map string_bytes words.now)) }
{
    match words {
        [] => Ok(()),
        [word, ..] => Err(Misuse::Unexpected(word.as_str())),
    }
}

/// The number that the option is given, if it is there: 1 to 4,294,967,295 in decimal, without a
/// sign or a leading zero.
pub fn count_given(option: CountOption, words: &[String]) -> Result<Option<NonZeroU32>, Misuse<'_>>
    ensures ok { IfOk result (λ given. map string_bytes words.now ≡ option_words option given) }
    ensures within { IfOk result (λ given. IfSome given (λ c. non_zero_u32_get c < 2 ^ 32)) }
    ensures refused { IfErr result (λ misuse.
        IsWrongOption option misuse (map string_bytes words.now)) }
{
    let [word, rest @ ..] = words else {
        return Ok(None);
    };
    if !option.is(word.as_str()) {
        return Err(Misuse::Unexpected(word.as_str()));
    }
    let count = count_of(option, rest)?;
    Ok(Some(count))
}

/// The number that stands behind the option, and nothing behind it.
fn count_of(option: CountOption, words: &[String]) -> Result<NonZeroU32, Misuse<'_>>
    ensures ok { IfOk result (λ c. map string_bytes words.now ≡ decimal (non_zero_u32_get c) ∷ []) }
    ensures within { IfOk result (λ c. non_zero_u32_get c < 2 ^ 32) }
    ensures refused { IfErr result (λ misuse.
        IsWrongCount option misuse (map string_bytes words.now)) }
{
    let [number, rest @ ..] = words else {
        return Err(Misuse::NoCount(option));
    };
    let Some(count) = count_in(number.as_str().as_bytes()) else {
        return Err(Misuse::BadCount(option, number.as_str()));
    };
    nothing_more(rest)?;
    Ok(count)
}
