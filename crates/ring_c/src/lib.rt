// SPDX-License-Identifier: ISC
//! The digests, tags and derived keys of `ring`, the password hashes of `ring_password_hash`, the
//! Merkle trees of `ring_merkle`, and the signed tokens and one-time passwords of `ring_tokens`,
//! for callers in C: `c/include/yezdopin.h` declares each call, but for those whose names end in
//! `_wide`. These promise what the calls of the shorter names do, and are for `c/dispatch.c`
//! alone: in the build for x86-64-v3 they are the faster ones.
//!
//! A call that can be refused returns a number of [`status`]: 0 on success, and else the least one
//! whose cause holds. On failure nothing is written. The contracts also say which status a call
//! returns for a context or a key that no call made. No call has a `requires`, allocates memory or
//! keeps anything between two calls.
#![tactic(auto)]

mod clearing;
mod comparison;
mod derivations;
mod digests;
mod each;
mod expansions;
mod jws;
mod labels;
mod lengths;
mod merkle;
mod number;
mod otp;
mod password_hashes;
mod status;
mod tags;
mod tls13;
mod version;
mod webhooks;
