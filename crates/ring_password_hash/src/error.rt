// SPDX-License-Identifier: ISC
//! Why a call is refused.

ghost use Rattle.std.specs.Prelude.{Some};
ghost use Rattle.ring_password_hash.specs.Error.{hash_error_text};

use std::error::Error;
use std::fmt;

/// Why a call is refused. Each call says which of these it gives, and when.
#[derive(Clone, Copy, Debug, PartialEq, Eq)]
pub enum HashError {
    /// No value has this text.
    BadFormat,
    /// The text's iteration count is above the caller's limit.
    TooManyIterations,
    /// The text is of another password.
    WrongPassword,
    /// The salt is empty, or has a byte that the scheme cannot write.
    BadSalt,
    /// The text is longer than the buffer, or than [`MAX_TEXT_LEN`](crate::MAX_TEXT_LEN) bytes.
    NoRoom,
    /// The password or the salt is longer than PBKDF2 admits.
    TooLong,
}

/// One line for a log. It shows nothing of what is kept and of the password.
impl fmt::Display for HashError {
    ghost output = { λ error. Some (hash_error_text error) };

    fn fmt<W: fmt::Write>(&self, f: &mut fmt::Formatter<W>) -> fmt::Result {
        match self {
            Self::BadFormat => write!(f, "not a password hash"),
            Self::TooManyIterations => write!(f, "too many iterations"),
            Self::WrongPassword => write!(f, "wrong password"),
            Self::BadSalt => write!(f, "the format cannot write this salt"),
            Self::NoRoom => write!(f, "no room for the text"),
            Self::TooLong => write!(f, "the password or the salt is too long"),
        }
    }
}

impl Error for HashError {}
