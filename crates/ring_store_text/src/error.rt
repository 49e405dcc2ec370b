// SPDX-License-Identifier: ISC
//! Why a text is refused.

ghost use Rattle.std.specs.Prelude.{◌≡◌, Some};
ghost use Rattle.ring_store_text.specs.Error.{load_error_text};
ghost use Rattle.ring_store_text.specs.declared.error.LoadError.TheVariants.{Memory};

use std::alloc::AllocError;
use std::error::Error;
use std::fmt;

/// Why a text is not read as a store.
#[derive(Clone, Copy, Debug, PartialEq, Eq)]
pub enum LoadError {
    /// No store has this text.
    BadText,
    /// There is no memory for a record.
    Memory,
}

/// Only a record takes memory.
impl From<AllocError> for LoadError {
    ghost from_gives = { λ _ e. e ≡ Memory };

    fn from(_error: AllocError) -> Self {
        LoadError::Memory
    }
}

/// One line for a log. It shows nothing of the text.
impl fmt::Display for LoadError {
    ghost output = { λ error. Some (load_error_text error) };

    fn fmt<W: fmt::Write>(&self, f: &mut fmt::Formatter<W>) -> fmt::Result {
        match self {
            Self::BadText => write!(f, "not the text of a password store"),
            Self::Memory => write!(f, "out of memory"),
        }
    }
}

impl Error for LoadError {}
