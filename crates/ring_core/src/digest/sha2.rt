// SPDX-License-Identifier: ISC
//! The block functions of SHA-2 (FIPS 180-4, 6.2.2 and 6.4.2), written once for both word sizes: of
//! one message in `window` and `by_fours`, of several side by side in `lanes`. SHA-256 has
//! `by_instruction` besides, for one message. `fastest` runs the fastest of those of
//! one message.
ghost use Rattle.std.specs.Prelude.{ℕ, ◌<◌, slice_index};
ghost use Rattle.ring_core.specs.Prelude.{IsRootFraction, constants_256, constants_512};
ghost use Rattle.ring_core.specs.Prelude.{first_primes};

mod arm;
mod by_fours;
mod by_instruction;
mod fastest;
mod lanes;
pub(crate) mod round;
mod window;
mod x86;

pub use crate::digest::sha2::fastest::{
    block_data_order_32_fastest_counted, block_data_order_64_fastest_counted,
    block_of_words_32_fastest_counted, block_of_words_64_fastest_counted,
};
pub use crate::digest::sha2::lanes::{
    block_data_order_lanes_counted, block_of_words_lanes_counted,
};
pub use crate::digest::sha2::window::{
    block_data_order_32, block_data_order_32_counted, block_data_order_64,
    block_data_order_64_counted, block_of_words_32_counted, block_of_words_64_counted,
};
pub use crate::digest::states::{State32, State64};

/// States that K of round t is the first bits of the fractional part of the cube root of a prime,
/// the one with t primes before it, and as many bits as a word has (FIPS 180-4, sections 4.2.2 and
/// 4.2.3). The call does nothing.
pub fn constants_are_cube_roots()
    ensures words_of_32_bits { (t : ℕ) → t < 64
        → IsRootFraction 3 32 (slice_index first_primes t) (slice_index constants_256 t) }
    ensures words_of_64_bits { (t : ℕ) → t < 80
        → IsRootFraction 3 64 (slice_index first_primes t) (slice_index constants_512 t) }
{}
