// SPDX-License-Identifier: ISC
//! Numbers in decimal, and iteration counts, which are above zero and fit 32 bits.

ghost use Rattle.std.specs.Prelude.{◌≡◌, ◌≢◌, ℕ, ◌≤◌, List, [], ◌++◌, IfSome, IsNone, OnOk};
ghost use Rattle.std.specs.Char.{digit_value};
ghost use Rattle.std.specs.Fmt.{decimal};
ghost use Rattle.std.specs.Int.NonZero.{non_zero_u32_get};
ghost use Rattle.std.specs.declared.num.NonZeroU32.{NonZeroU32};
ghost use Rattle.ring_text.specs.Field.{IsCount, count_then, number_then};

use crate::cut::cut_at;
use crate::number::number_in;
use itoa::Buffer;
use std::alloc::{AllocError, Allocator};
use std::num::NonZeroU32;

/// Appends `number` in decimal to `out`, and then the byte `end`. Refused only for want of memory.
pub fn append_number<A: Allocator>(
    out: &mut Vec<u8, A>,
    number: usize,
    end: u8,
) -> Result<(), AllocError>
    ensures { OnOk result (out.new.items ≡ out.old.items ++ number_then number end []) }
{
    out.extend_from_slice(Buffer::new().format(number).as_bytes())?;
    out.push(end)?;
    Ok(())
}

/// Appends `iterations` in decimal to `out`, and then the byte `end`. Refused only for want of
/// memory.
pub fn append_count<A: Allocator>(
    out: &mut Vec<u8, A>,
    iterations: NonZeroU32,
    end: u8,
) -> Result<(), AllocError>
    ensures { OnOk result (out.new.items ≡ out.old.items ++ count_then iterations end []) }
{
    append_number(out, iterations.get() as usize, end)
}

/// The iteration count that `digits` write in decimal, without a sign or a leading zero: 1 to
/// 4,294,967,295. `None` if they write none.
pub fn count_in(digits: &[u8]) -> Option<NonZeroU32>
    ensures ok { IfSome result (λ c. (digits.now ≡ decimal (non_zero_u32_get c)) × IsCount c) }
    ensures refused { IsNone result → (c : NonZeroU32) → IsCount c
        → digits.now ≢ decimal (non_zero_u32_get c) }
{
    let number = number_in(digits)?;
    let Ok(count) = u32::try_from(number) else {
        return None;
    };
    NonZeroU32::new(count)
}

/// Reads an iteration count at the start of `text`, and the byte `end`, which is no digit. Returns
/// the count and the text after them, or `None` if no count stands there.
pub fn count_before(text: &[u8], end: u8) -> Option<(NonZeroU32, &[u8])>
    requires { 10 ≤ digit_value end }
    ensures ok { IfSome result (λ found. (text.now ≡ count_then found.0 end found.1.now)
        × IsCount found.0) }
    ensures refused { IsNone result → (c : NonZeroU32) (rest : List ℕ) → IsCount c
        → text.now ≢ count_then c end rest }
{
    let (digits, rest) = cut_at(text, end)?;
    let iterations = count_in(digits)?;
    Some((iterations, rest))
}
