// SPDX-License-Identifier: ISC
//! The width of the vectors over which contexts are updated side by side.

ghost use Rattle.ring.specs.Prelude.{UpdatesEach};

use ring::cost::Meter;
use ring::digest::{Context, update_each_in};
use ring::error::Unspecified;
use ring::width::{AVX2, SSE};

/// Whether the processor has x86-64-v3, and so AVX2. It has no contract, so that its caller is
/// proved for each answer: a build that compiles the wider call for these processors may ask the
/// processor here.
#[inline(never)]
fn is_v3_there() -> bool {
    false
}

/// Adds each of `pieces` to the context at its index in `contexts`, runs the blocks that this
/// completes (FIPS 180-4, section 6), over vectors of 256 bits where the processor has them, and
/// counts them on `meter`.
///
/// Refused where `pieces` and `contexts` differ in number. `contexts` and `meter` are then
/// unchanged.
pub(crate) fn update_each(
    contexts: &mut [Context],
    pieces: &[&[u8]],
    meter: &mut Meter,
) -> Result<(), Unspecified>
    ensures { UpdatesEach contexts.old contexts.new pieces.now meter.old meter.new result }
{
    if is_v3_there() {
        update_each_in::<AVX2>(contexts, pieces, meter)
    } else {
        update_each_in::<SSE>(contexts, pieces, meter)
    }
}
