// SPDX-License-Identifier: ISC
//! Tests of `ring_bench` that need a reader, a writer or a heap of their own: what no contract says
//! of a run; and of how runs end. Lines whose answers are all that counts stand in `vectors/`.
#![tactic(auto)]

#[cfg(test)]
mod failing_parts;
#[cfg(test)]
mod lines;
#[cfg(test)]
mod parts;
#[cfg(test)]
mod runs;
#[cfg(test)]
mod small_heaps;
#[cfg(test)]
mod statuses;
