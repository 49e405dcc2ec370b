// SPDX-License-Identifier: ISC
//! The errors: one without a cause, and one for an input that is too long.
ghost use Rattle.std.specs.Prelude.{◌≡◌};
ghost use Rattle.ring_core.specs.Prelude.{refused_length};

/// An error without a cause, so that a refusal tells nothing about a secret.
#[derive(Clone, Copy, Debug, PartialEq, Eq)]
pub struct Unspecified;

/// The error for an input that is too long. It holds the refused length in bytes.
#[derive(Clone, Copy, Debug, PartialEq, Eq)]
pub struct InputTooLongError<T = usize> {
    length: T,
}

impl<T> InputTooLongError<T> {
    /// The error for a refused input of `length` bytes.
    pub fn new(length: T) -> Self
        ensures { refused_length result ≡ length }
    {
        InputTooLongError { length }
    }
}
