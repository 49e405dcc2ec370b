// SPDX-License-Identifier: ISC
//! The work that is timed, by its number.

ghost use Rattle.std.specs.Prelude.{◌≡◌};
ghost use Rattle.ring_speed.specs.Work.{answer, given, hash_named, work_named};

use crate::hash::Hash;
use crate::message::{LONG_LEN, SHORT_LEN};
use crate::{blocks, contexts, kit};

// A piece of work.
#[derive(Clone, Copy)]
pub(crate) enum Work {
    Blocks,
    KitShortDigests,
    KitLongDigests,
    FourContexts,
}

// The piece of work of a number.
fn work_of_number(number: u32) -> Option<Work>
    ensures { result ≡ work_named number }
{
    match number {
        1 => Some(Work::Blocks),
        2 => Some(Work::KitShortDigests),
        3 => Some(Work::KitLongDigests),
        4 => Some(Work::FourContexts),
        _ => None,
    }
}

// Does so many steps of a piece of work.
fn done(work: Work, hash: Hash, steps: u32) -> u64
    ensures { result ≡ given work hash steps }
{
    match work {
        Work::Blocks => blocks::first_word(hash, steps),
        Work::KitShortDigests => kit::front_after::<SHORT_LEN>(hash, steps),
        Work::KitLongDigests => kit::front_after::<LONG_LEN>(hash, steps),
        Work::FourContexts => contexts::front_after::<LONG_LEN>(hash, steps),
    }
}

/// Does so many steps of the work of a number under the hash function of a number.
///
/// | `work` | A step |
/// |---|---|
/// | 1 | two runs of the block function, which is the least that an iterate of PBKDF2 needs |
/// | 2, 3 | a digest of 64 bytes, and of 64 KiB, by the crates `sha1` and `sha2` |
/// | 4 | digests of four messages of 64 KiB, by contexts that are updated at once |
///
/// | `hash` | |
/// |---|---|
/// | 0 | SHA-1 |
/// | 1 | SHA-256 |
/// | 2 | SHA-512 |
///
/// Gives a number that rests on all steps, and 0 where a number names nothing.
#[unsafe(no_mangle)]
pub extern "C" fn ring_speed_run(work: u32, hash: u32, steps: u32) -> u64
    ensures { result ≡ answer (work_named work) (hash_named hash) steps }
{
    let (Some(work), Some(hash)) = (work_of_number(work), Hash::of_number(hash)) else {
        return 0;
    };
    done(work, hash, steps)
}
