// SPDX-License-Identifier: ISC
//! Commands one by one and as one list.

use crate::names::{LONG_NAME, LONGEST_NAME, PASSWORD, WRONG, found, iterations, new_store, told};
use ring::cost::Meter;
use ring_store::Command::{IterationsOf, SetIterations, SetPassword, VerifyPassword};
use ring_store::{Command, PasswordStore, Reply, StoreError};
use std::alloc::{AllocError, Global};

const BAD_NAME: Reply = Reply::Refused(StoreError::BadName);

const DONE: Reply = Reply::Done;

// The reply to a command by the call that it stands for.
fn reply_alone(store: &mut PasswordStore, command: Command<'_>) -> Reply {
    match command {
        SetPassword(name, password) => told(store.set_password(name, password)),
        VerifyPassword(name, password) => told(store.verify_password(name, password)),
        SetIterations(iterations) => {
            store.set_iterations(iterations);
            Reply::Done
        }
        IterationsOf(name) => Reply::Iterations(store.iterations_of(name)),
    }
}

// Whether each of the commands alone, on a new store, gets its reply.
fn replies_alone(alloc: Global, commands: &[Command<'_>], wanted: &[Reply]) -> bool {
    let mut store = new_store(alloc, 1000);
    commands.iter().zip(wanted).all(|(command, reply)| reply_alone(&mut store, *command) == *reply)
}

// Whether the commands as one list, on a new store, get their replies.
fn replies_to_list(
    alloc: Global,
    commands: &[Command<'_>],
    wanted: &[Reply],
) -> Result<bool, AllocError> {
    let mut replies = Vec::from_elem(alloc, Reply::Done, commands.len())?;
    new_store(alloc, 1000).run(commands, &mut replies);
    Ok(replies.as_slice() == wanted)
}

// Each of the commands alone, and then all of them as one list, on new stores of 1,000 iterations.
fn both_reply(alloc: Global, commands: &[Command<'_>], wanted: &[Reply]) -> bool {
    replies_alone(alloc, commands, wanted) && replies_to_list(alloc, commands, wanted) == Ok(true)
}

// The blocks and the pairs of bytes that the commands as one list cost, on a new store of 1,000
// iterations.
fn cost_of_list(alloc: Global, commands: &[Command<'_>]) -> Result<(u128, u128), AllocError> {
    let mut replies = Vec::from_elem(alloc, Reply::Done, commands.len())?;
    let mut meter = Meter::new();
    new_store(alloc, 1000).run_counted(commands, &mut replies, &mut meter);
    Ok((meter.blocks(), meter.byte_pairs()))
}

#[test]
fn wrong_password_raises_nothing_and_the_right_one_does(rt: HostRuntime) {
    let rows = [
        (SetPassword(b"alice", PASSWORD), DONE),
        (VerifyPassword(b"alice", b"wrong password"), WRONG),
        (VerifyPassword(b"alice", PASSWORD), DONE),
        (SetIterations(iterations(2000)), DONE),
        (VerifyPassword(b"alice", b"wrong password"), WRONG),
        (IterationsOf(b"alice"), found(1000)),
        (VerifyPassword(b"alice", PASSWORD), DONE),
        (IterationsOf(b"alice"), found(2000)),
        (VerifyPassword(b"alice", PASSWORD), DONE),
    ];
    assert!(rt; both_reply(rt.alloc(), &rows.map(|row| row.0), &rows.map(|row| row.1)));
}

#[test]
fn names_counts_and_passwords_in_order(rt: HostRuntime) {
    let rows = [
        (SetPassword(b"", b"a"), BAD_NAME),
        (SetPassword(&LONG_NAME, b"a"), BAD_NAME),
        (SetPassword(&LONGEST_NAME, b"a"), DONE),
        (VerifyPassword(b"nobody", b"a"), WRONG),
        (IterationsOf(b"nobody"), found(0)),
        (SetPassword(b"bob", b"a"), DONE),
        (SetIterations(iterations(500)), DONE),
        (VerifyPassword(b"bob", b"a"), DONE),
        (IterationsOf(b"bob"), found(1000)),
        (SetPassword(b"bob", b"b"), DONE),
        (VerifyPassword(b"bob", b"a"), WRONG),
        (VerifyPassword(b"bob", b"b"), DONE),
        (IterationsOf(b"bob"), found(500)),
    ];
    assert!(rt; both_reply(rt.alloc(), &rows.map(|row| row.0), &rows.map(|row| row.1)));
}

// By docs/COSTS.md a record costs 2 blocks and 2 for each iteration, and under the longest name one
// more. A password that raises its record costs both records, and a verification 32 pairs.
#[test]
fn list_costs_what_its_commands_cost(rt: HostRuntime) {
    let commands = [
        SetPassword(b"", b"a"),
        SetPassword(&LONGEST_NAME, b"a"),
        VerifyPassword(b"nobody", b"a"),
        SetPassword(b"alice", PASSWORD),
        VerifyPassword(b"alice", b"wrong password"),
        SetIterations(iterations(2000)),
        VerifyPassword(b"alice", PASSWORD),
        VerifyPassword(b"alice", PASSWORD),
        IterationsOf(b"alice"),
    ];
    let blocks = 2003 + 2002 + 2002 + 2002 + (2002 + 4002) + 4002;
    let pairs = 4 * 32;
    assert_eq!(rt; cost_of_list(rt.alloc(), &commands), Ok((blocks, pairs)));
}
