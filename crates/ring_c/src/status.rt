// SPDX-License-Identifier: ISC
//! The status that a call returns: of the causes that hold, the one with the least number.

/// Success.
pub(crate) const OK: i32 = 0;

/// The number names no algorithm of this call.
pub(crate) const UNKNOWN_ALGORITHM: i32 = 1;

/// The memory in place of a context or a key holds numbers that none has.
pub(crate) const UNKNOWN_CONTEXT: i32 = 2;

/// The number of iterations is 0.
pub(crate) const NO_ITERATIONS: i32 = 3;

/// The output has a length that the call can't fill, or a text is longer than one may be.
pub(crate) const WRONG_LENGTH: i32 = 4;

/// The text is not one of a password hash.
pub(crate) const BAD_FORMAT: i32 = 5;

/// The iteration count of a text is above the caller's limit.
pub(crate) const TOO_MANY_ITERATIONS: i32 = 6;

/// A password hash can't have the salt.
pub(crate) const BAD_SALT: i32 = 7;

/// An input is too long, or a verification found a mismatch: the status doesn't say which.
pub(crate) const UNSPECIFIED: i32 = 8;
