// SPDX-License-Identifier: ISC
//! Digests: agreement with other implementations, in whatever pieces, and the texts of Debug.

use crate::algorithms::{ROWS, Row, is_of_others, piece_lens};
use crate::messages::{counting_bytes, padded_blocks, takes_all};
use crate::texts::prints;
use ring::cost::Meter;
use ring::digest::dynstate::DynState;
use ring::digest::{
    Algorithm, Context, MAX_BLOCK_LEN, MAX_CHAINING_LEN, MAX_OUTPUT_LEN, digest, digest_counted,
};
use ring::error::Unspecified;
use std::alloc::Global;
use std::num::Wrapping;
use std::test::Fail;

// Whether the context and a copy of it give the message's digest, for the blocks that are left.
fn finishes(context: Context, message: &[u8], meter: &mut Meter) -> Result<bool, Unspecified> {
    let algorithm = context.algorithm();
    let copy = context.clone().finish()?;
    let made = context.finish_counted(meter)?;
    Ok(
        is_of_others(algorithm, message, made.as_ref())
            && made.as_ref() == copy.as_ref()
            && meter.blocks() == padded_blocks(&algorithm, message.len()),
    )
}

// Whether the message has the digest that others give it, in pieces and whole.
fn agrees(algorithm: Algorithm, message: &[u8], piece_len: usize) -> Result<bool, Unspecified> {
    let mut meter = Meter::new();
    let mut context = Context::new(&algorithm);
    let mut in_one_piece = Context::new(&algorithm);
    in_one_piece.update(message);
    Ok(
        takes_all(&mut context, &algorithm, message, piece_len, &mut meter)
            && finishes(context, message, &mut meter)?
            && is_of_others(algorithm, message, digest(&algorithm, message)?.as_ref())
            && is_of_others(algorithm, message, in_one_piece.finish()?.as_ref()),
    )
}

#[test]
fn agreement_in_pieces(rt: HostRuntime) -> Result<(), Unspecified> {
    let bytes = counting_bytes::<257>();
    for row in ROWS {
        for piece_len in piece_lens(&row) {
            for len in 0..258 {
                assert!(rt; agrees(row.algorithm, &bytes[..len], piece_len)?);
            }
        }
    }
    Ok(())
}

// The block, chaining and output lengths, and the most bytes of a message.
fn lengths_of(algorithm: Algorithm) -> (usize, usize, usize, u128) {
    let (block_len, chaining_len) = (algorithm.block_len(), algorithm.chaining_len());
    let (output_len, most) = (algorithm.output_len(), algorithm.max_input_len());
    (block_len, chaining_len, output_len, most)
}

// The output keeps the words' order, high byte first, and is filled up with zeros.
#[test]
fn words_as_bytes(rt: HostRuntime) {
    let short = DynState::new32([Wrapping(0x01020304); 8]).format_output();
    let long = DynState::new64([Wrapping(0x0102030405060708); 8]).format_output();
    assert!(rt; short.0[28..36] == [1, 2, 3, 4, 0, 0, 0, 0]);
    assert!(rt; long.0[48..56] == [1, 2, 3, 4, 5, 6, 7, 8] && long.0[56..] == long.0[..8]);
}

// The lengths of a row, and the most bytes of a message (FIPS 180-4, section 1, figure 1).
fn lengths_of_row(row: &Row) -> (usize, usize, usize, u128) {
    let most = if row.block_len == 64 {
        2_305_843_009_213_693_951
    } else {
        42_535_295_865_117_307_932_921_825_928_971_026_431
    };
    (row.block_len, row.chaining_len, row.output_len, most)
}

#[test]
fn lengths_of_algorithms(rt: HostRuntime) {
    for row in ROWS {
        assert!(rt;
            lengths_of(row.algorithm) == lengths_of_row(&row)
                && row.output_len_constant == row.output_len
        );
    }
    assert!(rt; [MAX_BLOCK_LEN, MAX_CHAINING_LEN, MAX_OUTPUT_LEN] == [128, 64, 64]);
}

// The digest of `hello, world`, where it tells its algorithm.
fn digest_of_text(algorithm: Algorithm) -> Result<ring::digest::Digest, Unspecified> {
    let made = digest_counted(&algorithm, b"hello, world", &mut Meter::new())?;
    if made.algorithm() == algorithm {
        Ok(made)
    } else {
        Err(Unspecified)
    }
}

// Whether Debug prints the algorithm and its digest as the original's own tests have it.
fn is_printed(alloc: Global, row: &Row) -> Result<bool, Fail> {
    let text = format!(in alloc; "{}:{}", row.name, row.digest)?;
    Ok(
        prints(alloc, &row.algorithm, row.name)?
            && prints(alloc, &digest_of_text(row.algorithm)?, text.as_str())?,
    )
}

#[test]
fn debug_texts(rt: HostRuntime) -> Result<(), Fail> {
    for row in ROWS {
        assert!(rt; is_printed(rt.alloc(), &row)?);
    }
    Ok(())
}
