// SPDX-License-Identifier: ISC
//! Which kernel runs the blocks of one message, chosen once for SHA-1 and SHA-2.

use crate::digest::instructions::{arm, x86};

// A kernel of one message. All have one contract, so callers are proved for each.
#[derive(Drop)]
pub(crate) enum Kernel {
    // by the instructions of an x86-64 processor
    X86,
    // by the instructions of a 64-bit ARM processor
    Arm,
    // over a window of sixteen words
    Window,
    // by four words of the schedule, ahead of the rounds
    Fours,
}

// Whether this build runs the blocks of one message over a window. It has no contract, so that
// callers are proved for each answer: a build without vectors puts the other answer here.
#[inline(never)]
pub(crate) fn is_window_chosen() -> bool {
    false
}

// The fastest kernel of this build on this processor. Of a block function that has no kernel by
// `instructions`, it is one of the last two.
#[inline(always)]
pub(crate) fn fastest(instructions: bool) -> Kernel {
    if instructions && x86::are_there() {
        Kernel::X86
    } else if instructions && arm::are_there() {
        Kernel::Arm
    } else if is_window_chosen() {
        Kernel::Window
    } else {
        Kernel::Fours
    }
}
