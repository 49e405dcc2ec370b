// SPDX-License-Identifier: ISC
//! Signed tokens of other systems, over `ring`: JSON Web Signatures under HMAC (RFC 7515) with the
//! times of their claims (RFC 7519), one-time passwords (RFC 4226, RFC 6238), and the signatures
//! with which GitHub and Stripe call a webhook.
//!
//! Signatures by RSA and by elliptic curves, as RS256 and ES256, are not here: `ring` has HMAC
//! alone.
//!
//! - [`jws`]: tokens signed and verified under a [`Key`], each key for one [`Alg`].
//! - [`claims`]: whether a payload is current.
//! - [`otp`]: HOTP and TOTP, each under a [`SharedSecret`].
//! - [`webhook`]: headers that sign a body, under a [`SharedSecret`].
//! - [`laws`]: the known faults of readers of tokens, each ruled out.
//!
//! A call whose name ends in `_counted` does what the call without that ending does, and counts its
//! blocks and compared pairs of bytes on a [`Meter`](ring::cost::Meter).
#![tactic(auto)]

mod alg;
pub mod claims;
mod decoded;
mod error;
mod header;
mod header_text;
pub mod jws;
mod key;
pub mod laws;
pub mod otp;
mod parts;
mod put;
mod secret;
mod signature;
pub mod webhook;

pub use crate::alg::Alg;
pub use crate::error::TokenError;
pub use crate::key::Key;
pub use crate::secret::SharedSecret;
