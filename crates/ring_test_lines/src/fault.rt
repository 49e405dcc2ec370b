// SPDX-License-Identifier: ISC
//! Why a line gets no answer.

use hex::FromHexError;
use ring::error::Unspecified;
use ring_password_hash::HashError;
use ring_tokens::TokenError;
use std::alloc::AllocError;

/// Why a line gets no answer.
#[derive(Debug, Drop)]
pub enum Fault {
    /// The line has no form that is known.
    BadLine,
    /// A call on password hashes refused it.
    Hash(HashError),
    /// A call on tokens refused it.
    Token(TokenError),
    /// A call on key schedules, trees, keys or webhooks refused it.
    Refused,
    /// There is no memory for its words or for the answer.
    Memory,
}

impl From<HashError> for Fault {
    fn from(error: HashError) -> Self {
        Fault::Hash(error)
    }
}

impl From<TokenError> for Fault {
    fn from(error: TokenError) -> Self {
        Fault::Token(error)
    }
}

impl From<Unspecified> for Fault {
    fn from(_error: Unspecified) -> Self {
        Fault::Refused
    }
}

impl From<AllocError> for Fault {
    fn from(_error: AllocError) -> Self {
        Fault::Memory
    }
}

impl From<FromHexError> for Fault {
    fn from(error: FromHexError) -> Self {
        match error {
            FromHexError::OutOfMemory => Fault::Memory,
            _ => Fault::BadLine,
        }
    }
}
