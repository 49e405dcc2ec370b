// SPDX-License-Identifier: ISC
//! The public calls of `ring_core`, by the paths under which `ring` gives them again: each once on
//! its happy path, and the limits of bit lengths.

use crate::messages::counting_bytes;
use ring::bb::{
    verify_slices_are_equal, verify_slices_are_equal_counted, xor_assign, xor_assign_at_start,
};
use ring::bits::{BitLength, FromByteLen};
use ring::digest::sha1::{CHAINING_LEN, sha1_block_data_order, sha1_block_data_order_counted};
use ring::digest::sha2::{
    State32, State64, block_data_order_32, block_data_order_32_counted, block_data_order_64,
    block_data_order_64_counted,
};
use ring::digest::word::{Sha2, Word};
use ring::polyfill::slice::{AsChunks, as_chunks};
use ring_core::cost::Meter;
use ring_core::error::{InputTooLongError, Unspecified};
use std::num::{NonZeroU64, Wrapping};

// 2^61, the first number of bytes whose bits 64 bits don't hold
const TOO_LONG: u64 = 2_305_843_009_213_693_952;

// Words as plain numbers.
macro_rules! words {
    ($($word:expr),*) => {
        [$(Wrapping($word)),*]
    };
}

// FIPS 180-4, 5.3.1, with three words that are none of SHA-1's
pub const SHA1_WORDS: State32 = words![
    0x67452301, 0xefcdab89, 0x98badcfe, 0x10325476, 0xc3d2e1f0, 1, 2, 3
];

// FIPS 180-4, 5.3.3
pub const SHA256_WORDS: State32 = words![
    0x6a09e667, 0xbb67ae85, 0x3c6ef372, 0xa54ff53a, 0x510e527f, 0x9b05688c, 0x1f83d9ab, 0x5be0cd19
];

// FIPS 180-4, 5.3.5
pub const SHA512_WORDS: State64 = words![
    0x6a09e667f3bcc908,
    0xbb67ae8584caa73b,
    0x3c6ef372fe94f82b,
    0xa54ff53a5f1d36f1,
    0x510e527fade682d1,
    0x9b05688c2b3e6c1f,
    0x1f83d9abfb41bd6b,
    0x5be0cd19137e2179
];

fn rounded_up(bits: usize) -> usize {
    BitLength::<usize>::from_bits(bits).as_usize_bytes_rounded_up()
}

#[test]
fn rounds_bits_up_to_bytes(rt: HostRuntime) {
    assert!(rt; [rounded_up(8192), rounded_up(8193), rounded_up(8199)] == [1024, 1025, 1025]);
    assert!(rt; rounded_up(usize::MAX) == 1 << 61);
}

#[test]
fn bits_of_bytes_up_to_the_limit(rt: HostRuntime) {
    let longest = BitLength::<u64>::from_byte_len(TOO_LONG - 1);
    assert!(rt; longest == Ok(BitLength::from_bits(u64::MAX - 7)));
    let refused = BitLength::<u64>::from_byte_len(TOO_LONG);
    assert!(rt; refused == Err(InputTooLongError::new(TOO_LONG)));
}

#[test]
fn bits_of_slices(rt: HostRuntime) {
    let bits = BitLength::<usize>::from_byte_len(3usize);
    assert!(rt; bits == Ok(BitLength::from_bits(24)));
    let bits = BitLength::<u64>::from_byte_len(3usize);
    assert!(rt; bits == Ok(BitLength::from_bits(24)));
}

// The bits as a number that is not 0.
fn non_zero_bits(bits: u64) -> Result<u64, Unspecified> {
    Ok(
        BitLength::<NonZeroU64>::try_from(BitLength::from_bits(bits))?
            .as_bits()
            .get(),
    )
}

#[test]
fn bit_lengths_are_converted(rt: HostRuntime) {
    let wide: BitLength<u64> = BitLength::<usize>::from_bits(0x0102).into();
    assert!(rt; wide.to_be_bytes() == [0, 0, 0, 0, 0, 0, 1, 2]);
    assert!(rt; non_zero_bits(0) == Err(Unspecified) && non_zero_bits(1) == Ok(1));
}

// The two chunks that a walk gives, where it then ends.
fn walked(chunks: AsChunks<'_, u8, 4>) -> Option<[[u8; 4]; 2]> {
    let mut walk = chunks.into_iter();
    let pair = [*walk.next()?, *walk.next()?];
    walk.next().is_none().then_some(pair)
}

// The two chunks by their places, where there are two.
fn placed(chunks: AsChunks<'_, u8, 4>) -> Option<[[u8; 4]; 2]> {
    if chunks.len() == 2 {
        Some([chunks[0], chunks[1]])
    } else {
        None
    }
}

#[test]
fn ten_bytes_are_two_chunks_of_four(rt: HostRuntime) {
    let (chunks, rest) = as_chunks::<u8, 4>(&[0, 1, 2, 3, 4, 5, 6, 7, 8, 9]);
    let expected = Some([[0, 1, 2, 3], [4, 5, 6, 7]]);
    assert!(rt; walked(chunks) == expected && placed(chunks) == expected);
    assert!(rt; !chunks.is_empty() && rest == [8, 9].as_slice());
}

#[test]
fn three_bytes_are_no_chunk_of_four(rt: HostRuntime) {
    let (chunks, rest) = as_chunks::<u8, 4>(&[0, 1, 2]);
    assert!(rt; chunks.is_empty() && rest == [0, 1, 2].as_slice());
}

#[test]
fn views_of_arrays(rt: HostRuntime) {
    let none = AsChunks::from_ref(&[0u8; 0]);
    assert!(rt; none.len() == 0 && none.into_iter().next().is_none());
    let eight: AsChunks<u8, 8> = (&[1u8, 2, 3, 4, 5, 6, 7, 8]).into();
    let fours: AsChunks<u8, 4> = eight.into();
    assert!(rt;
        placed(fours) == Some([[1, 2, 3, 4], [5, 6, 7, 8]])
            && fours.as_flattened() == [1, 2, 3, 4, 5, 6, 7, 8].as_slice()
    );
}

// The answer to whether both are equal, and the pairs that were compared.
fn compared(a: &[u8], b: &[u8]) -> (Result<(), Unspecified>, u128) {
    let mut meter = Meter::new();
    let answer = verify_slices_are_equal_counted(a, b, &mut meter);
    (answer, meter.byte_pairs())
}

#[test]
fn fronts_are_not_equal(rt: HostRuntime) {
    let bytes = counting_bytes::<256>();
    for k in 0..256 {
        let front = &bytes[..k];
        assert!(rt; compared(&bytes, front) == (Err(Unspecified), 0), "at {k}");
        assert!(rt; compared(front, front) == (Ok(()), k as u128), "at {k}");
    }
    assert!(rt; verify_slices_are_equal(&bytes, &bytes).is_ok());
}

#[test]
fn bytes_are_xored(rt: HostRuntime) {
    let mut bytes = [0x0fu8, 0xf0, 0x55];
    xor_assign(&mut bytes, 0xff);
    xor_assign_at_start(&mut bytes, &[0xf0, 0x0e]);
    assert!(rt; bytes == [0, 1, 0xaa]);
    xor_assign_at_start(&mut bytes, &[1, 1, 1, 1]);
    assert!(rt; bytes == [1, 0, 0xab]);
}

#[test]
fn words_of_32_bits(rt: HostRuntime) {
    let x = Wrapping::<u32>::from_be_bytes([0xf0, 0, 0, 3]);
    let bits = x.bit_and(Wrapping(7)).bit_or(Wrapping(8));
    let made = [x.plus(x), bits.bit_xor(Wrapping(1)), x.bit_not()];
    assert!(rt; made == words![0xe000_0006, 10, 0x0fff_fffc]);
    let moved = [x.rotr(4), x.shift_right(4)];
    assert!(rt; moved == words![0x3f00_0000, 0x0f00_0000]);
}

#[test]
fn words_of_64_bits(rt: HostRuntime) {
    let x = Wrapping::<u64>::from_be_bytes([0xf0, 0, 0, 0, 0, 0, 0, 3]);
    let bits = x.bit_and(Wrapping(7)).bit_or(Wrapping(8));
    let made = [x.plus(x), bits.bit_xor(Wrapping(1)), x.bit_not()];
    assert!(rt; made == words![0xe000_0000_0000_0006, 10, 0x0fff_ffff_ffff_fffc]);
    let moved = [x.rotr(4), x.shift_right(4)];
    assert!(rt; moved == words![0x3f00_0000_0000_0000, 0x0f00_0000_0000_0000]);
}

// The last constants are those of FIPS 180-4, 4.2.2 and 4.2.3.
#[test]
fn words_of_tables_and_blocks(rt: HostRuntime) {
    let mut block = [0u8; 128];
    block[63] = 5;
    block[127] = 6;
    let zero = Wrapping::<u32>::ZERO;
    let short = [zero, Sha2::k(63), Sha2::read_word(&block[..64], 15)];
    assert!(rt; short == words![0, 0xc671_78f2, 5]);
    let zero = Wrapping::<u64>::ZERO;
    let long = [zero, Sha2::k(79), Sha2::read_word(&block, 15)];
    assert!(rt; long == words![0, 0x6c44_198c_4a47_5817, 6]);
}

// FIPS 180-2, appendix B.2
#[test]
fn sha256_over_two_blocks(rt: HostRuntime) {
    let mut padded = [0u8; 128];
    padded[..57].copy_from_slice(b"abcdbcdecdefdefgefghfghighijhijkijkljklmklmnlmnomnopnopq\x80");
    padded[126..].copy_from_slice(&[0x01, 0xc0]);
    let (blocks, _) = as_chunks::<u8, 64>(&padded);
    let mut state = SHA256_WORDS;
    let mut meter = Meter::new();
    block_data_order_32_counted(&mut state, blocks, &mut meter);
    let mut plain = SHA256_WORDS;
    block_data_order_32(&mut plain, blocks);
    assert!(rt; meter.blocks() == 2 && plain == state);
    let expected = words![
        0x248d6a61, 0xd20638b8, 0xe5c02693, 0x0c3e6039, 0xa33ce459, 0x64ff2167, 0xf6ecedd4,
        0x19db06c1
    ];
    assert!(rt; state == expected);
}

// FIPS 180-2, appendix C.1
#[test]
fn sha512_over_one_block(rt: HostRuntime) {
    let mut block = [0u8; 128];
    block[..4].copy_from_slice(b"abc\x80");
    block[127] = 24;
    let mut state = SHA512_WORDS;
    let mut meter = Meter::new();
    block_data_order_64_counted(&mut state, AsChunks::from_ref(&block), &mut meter);
    let mut plain = SHA512_WORDS;
    block_data_order_64(&mut plain, AsChunks::from_ref(&block));
    assert!(rt; meter.blocks() == 1 && plain == state);
    assert!(rt; state[0].0 == 0xddaf35a193617aba && state[7].0 == 0x2a9ac94fa54ca49f);
}

// FIPS 180-2, appendix A.1
#[test]
fn sha1_over_no_block_and_one(rt: HostRuntime) {
    let mut state = SHA1_WORDS;
    let mut meter = Meter::new();
    let (none, _) = as_chunks::<u8, 64>(&[]);
    sha1_block_data_order_counted(&mut state, none, &mut meter);
    assert!(rt; state == SHA1_WORDS && meter.blocks() == 0 && CHAINING_LEN == 20);
    let mut block = [0u8; 64];
    block[..4].copy_from_slice(b"abc\x80");
    block[63] = 24;
    sha1_block_data_order(&mut state, AsChunks::from_ref(&block));
    let expected = words![
        0xa9993e36, 0x4706816a, 0xba3e2571, 0x7850c26c, 0x9cd0d89d, 1, 2, 3
    ];
    assert!(rt; state == expected);
}
