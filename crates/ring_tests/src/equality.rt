// SPDX-License-Identifier: ISC
//! Algorithms are equal only to themselves.

use crate::algorithms::{KEYED_ROWS, ROWS};

// How many pairs of two, each also with itself, are equal.
fn equal_pairs<T: PartialEq>(all: &[T]) -> usize {
    let mut count = 0usize;
    for left in all {
        for right in all {
            if left == right {
                count = count.saturating_add(1);
            }
        }
    }
    count
}

#[test]
fn algorithms_are_told_apart(rt: HostRuntime) {
    assert!(rt; equal_pairs(&ROWS.map(|row| row.algorithm)) == ROWS.len());
    assert!(rt; equal_pairs(&KEYED_ROWS.map(|row| row.hmac)) == KEYED_ROWS.len());
    assert!(rt; equal_pairs(&KEYED_ROWS.map(|row| row.hkdf)) == KEYED_ROWS.len());
    assert!(rt; equal_pairs(&KEYED_ROWS.map(|row| row.pbkdf2)) == KEYED_ROWS.len());
}
