// SPDX-License-Identifier: ISC
//! Lengths that a caller needs to know.

ghost use Rattle.std.specs.Prelude.{◌≡◌, ◌↔◌, Some, None};
ghost use Rattle.ring.specs.Algorithm.{block_len, output_len};
ghost use Rattle.ring.specs.Raw.{digest_named};
ghost use Rattle.ring.specs.declared.digest.algorithm.Algorithm.{Algorithm};

use ring::raw::digest_of_number;

/// The length in bytes of a digest or a tag by the algorithm of the number `algorithm`, 0 where the
/// number names none.
#[unsafe(no_mangle)]
pub extern "C" fn yz_output_len(algorithm: u32) -> usize
    ensures ok { (a : Algorithm) → digest_named algorithm ≡ Some a → result ≡ output_len a }
    ensures unknown { result ≡ 0 ↔ digest_named algorithm ≡ None }
{
    match digest_of_number(algorithm) {
        Some(algorithm) => algorithm.output_len(),
        None => 0,
    }
}

/// The length in bytes of a block of the algorithm of the number `algorithm`, 0 where the number
/// names none.
#[unsafe(no_mangle)]
pub extern "C" fn yz_block_len(algorithm: u32) -> usize
    ensures ok { (a : Algorithm) → digest_named algorithm ≡ Some a → result ≡ block_len a }
    ensures unknown { result ≡ 0 ↔ digest_named algorithm ≡ None }
{
    match digest_of_number(algorithm) {
        Some(algorithm) => algorithm.block_len(),
        None => 0,
    }
}
