// SPDX-License-Identifier: ISC
//! Tests of `ring_store` over its public calls: rows of commands with their replies, tokens of
//! another implementation, records one by one and as text, many names beside a plain list, and
//! heaps that refuse each request.
#![tactic(auto)]

#[cfg(test)]
mod commands;
#[cfg(test)]
mod full_heaps;
#[cfg(test)]
mod lengths;
#[cfg(test)]
mod many_records;
#[cfg(test)]
mod names;
#[cfg(test)]
mod records;
#[cfg(test)]
mod small_heaps;
#[cfg(test)]
mod tokens;
