// SPDX-License-Identifier: ISC
//! What a program says of each result of `ring_bench`, and its status.

use ring_bench::{BenchError, Status, outcome};

#[test]
fn outcome_of_each_result(rt: HostRuntime) {
    let rows = [
        (Ok(Status::Clean), 0, ""),
        (Ok(Status::SomeBad), 1, ""),
        (Err(BenchError::Memory), 2, "ring_bench: out of memory"),
        (Err(BenchError::Read), 2, "ring_bench: read failed"),
        (Err(BenchError::Write), 2, "ring_bench: write failed"),
    ];
    for (result, status, text) in rows {
        assert!(rt; outcome(&result) == (status, text), "{result:?}");
    }
}
