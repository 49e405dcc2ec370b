// SPDX-License-Identifier: ISC
//! Tests of the callers in `ring_examples`, each once, and of the key schedules, against values
//! from outside.
#![tactic(auto)]

#[cfg(test)]
mod calls;
#[cfg(test)]
mod hashes;
#[cfg(test)]
mod numbers;
#[cfg(test)]
mod schedules;
#[cfg(test)]
mod source;
#[cfg(test)]
mod texts;
#[cfg(test)]
mod wide;
