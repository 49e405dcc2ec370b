// SPDX-License-Identifier: ISC
//! Which form rounds have, chosen once for SHA-1 and SHA-2.

// Whether this build is for processors that rotate a word into another register (`rorx`), and mask
// a word by the complement of another (`andn`). It has no contract, so that callers are proved for
// each answer: such a build puts the other answer here. The forms for other processors aren't
// always inlined, or the kit takes four rounds for too large to be so.
#[inline(never)]
pub(crate) fn has_rorx_and_andn() -> bool {
    false
}
