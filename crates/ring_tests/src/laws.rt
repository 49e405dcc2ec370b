// SPDX-License-Identifier: ISC
//! Digests and tags of pieces.

use ring::cost::Meter;
use ring::digest::{SHA512, digest};
use ring::error::Unspecified;
use ring::hmac::{HMAC_SHA256, Key, sign};
use ring::laws::{digest_pieces, sign_pieces};

// Whether three pieces have their message's digest, and its blocks.
fn digest_of_three() -> Result<(bool, u128), Unspecified> {
    let mut meter = Meter::new();
    let made = digest_pieces(&SHA512, &[b"hello", b", ", b"world"], &mut meter)?;
    let whole = digest(&SHA512, b"hello, world")?;
    Ok((made.as_ref() == whole.as_ref(), meter.blocks()))
}

// Whether three pieces have their message's tag under a key, and its blocks.
fn tag_of_three(key: &Key) -> Result<(bool, u128), Unspecified> {
    let mut meter = Meter::new();
    let made = sign_pieces(key, &[b"hello", b", ", b"world"], &mut meter)?;
    let whole = sign(key, b"hello, world")?;
    Ok((made.as_ref() == whole.as_ref(), meter.blocks()))
}

#[test]
fn pieces_are_their_message(rt: HostRuntime) -> Result<(), Unspecified> {
    let key = Key::new(HMAC_SHA256, b"Jefe")?;
    assert!(rt; digest_of_three() == Ok((true, 1)) && tag_of_three(&key) == Ok((true, 2)));
    Ok(())
}
