// SPDX-License-Identifier: ISC
//! Why a call is refused.

ghost use Rattle.std.specs.Prelude.{◌≡◌, Some};
ghost use Rattle.ring_tokens.specs.Error.{token_error_text};
ghost use Rattle.ring_tokens.specs.declared.error.TokenError.TheVariants.{Memory};

use std::alloc::AllocError;
use std::error::Error;
use std::fmt;

/// Why a call is refused. Each call says which of these it gives, and when.
#[derive(Clone, Copy, Debug, PartialEq, Eq)]
pub enum TokenError {
    /// The text is no token that the key signed. Nothing says why: the text may have no three
    /// parts, another signature, or a header that is not accepted.
    Invalid,
    /// The buffer is too short.
    NoRoom,
    /// The payload is longer than HMAC admits.
    TooLong,
    /// There is no memory.
    Memory,
}

/// A token and what is read of it take memory.
impl From<AllocError> for TokenError {
    ghost from_gives = { λ _ e. e ≡ Memory };

    fn from(_error: AllocError) -> Self {
        TokenError::Memory
    }
}

/// One line for a log. It shows nothing of the token.
impl fmt::Display for TokenError {
    ghost output = { λ error. Some (token_error_text error) };

    fn fmt<W: fmt::Write>(&self, f: &mut fmt::Formatter<W>) -> fmt::Result {
        match self {
            Self::Invalid => write!(f, "not a valid token"),
            Self::NoRoom => write!(f, "no room for the token"),
            Self::TooLong => write!(f, "too long to be signed"),
            Self::Memory => write!(f, "out of memory"),
        }
    }
}

impl Error for TokenError {}
