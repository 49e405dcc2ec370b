// SPDX-License-Identifier: ISC
//! Tests of what no contract of `ring` and `ring_core` says, over the public calls alone: messages
//! cut in many ways, other implementations of the same functions, texts that Debug prints, each
//! call once, and what a program says of each result of `ring_bench`.
#![tactic(auto)]

#[cfg(test)]
mod algorithms;
#[cfg(test)]
mod digest;
#[cfg(test)]
mod equality;
#[cfg(test)]
mod hkdf;
#[cfg(test)]
mod hmac;
#[cfg(test)]
mod kernels;
#[cfg(test)]
mod lanes;
#[cfg(test)]
mod laws;
#[cfg(test)]
mod long_lengths;
#[cfg(test)]
mod messages;
#[cfg(test)]
mod outcome;
#[cfg(test)]
mod pbkdf2;
#[cfg(test)]
mod pbkdf2_each;
#[cfg(test)]
mod rand;
#[cfg(test)]
mod ring_core_calls;
#[cfg(test)]
mod several;
#[cfg(test)]
mod texts;
#[cfg(test)]
mod updates;
