// SPDX-License-Identifier: ISC
//! Lines and their answers, for several tests.

use std::alloc::{AllocError, Global};

// The bytes are those that OpenSSL gives, and the counts follow from the lengths.
pub const OF_NOTHING: &[u8] =
    b"e3b0c44298fc1c149afbf4c8996fb92427ae41e4649b934ca495991b7852b855 1\n";

pub const OF_HELLO: &[u8] = b"09ca7e4eaa6e8ae9c7d261167129184883644d07dfba7cbfbc4c8a2e08360d5b 1\n";

pub const TAG: &[u8] = b"b0344c61d8db38535ca8afceaf0bf12b881dc200c9833da726e9376c2e32cff7 4\n";

pub const HELLO: &[u8] = b"digest SHA256 68656c6c6f,2c20,776f726c64";

// The digest of no byte, the tag and its verification, an output and a derivation, the last without
// a line feed.
pub const TEXT: &[u8] = b"digest SHA256 -\n\
    hmac SHA256 0b0b0b0b0b0b0b0b0b0b0b0b0b0b0b0b0b0b0b0b 4869205468657265\n\
    hmac-verify SHA256 0b0b0b0b0b0b0b0b0b0b0b0b0b0b0b0b0b0b0b0b 4869205468657265 \
    b0344c61d8db38535ca8afceaf0bf12b881dc200c9833da726e9376c2e32cff7\n\
    hkdf SHA256 000102030405060708090a0b0c 0b0b0b0b0b0b0b0b0b0b0b0b0b0b0b0b0b0b0b0b0b0b \
    f0f1f2f3f4f5f6f7f8f9 42\n\
    pbkdf2 SHA1 1 70617373776f7264 73616c74 20";

pub const ANSWERS: &[u8] = b"e3b0c44298fc1c149afbf4c8996fb92427ae41e4649b934ca495991b7852b855 1\n\
    b0344c61d8db38535ca8afceaf0bf12b881dc200c9833da726e9376c2e32cff7 4\n\
    match 4\n\
    3cb25f25faacd57a90434f64d0362f2a2d2d0a90cf1a5a4c5db02d56ecc4c5bf34007208d5b887185865 10\n\
    0c60c80f961f0e71f3a9b524af6012062fe037a6 4\n";

/// A front, and behind it `count` times a piece.
pub fn repeated(
    alloc: Global,
    front: &[u8],
    piece: &[u8],
    count: u32,
) -> Result<Vec<u8>, AllocError> {
    let mut text = Vec::new(alloc);
    text.extend_from_slice(front)?;
    for _ in 0..count {
        text.extend_from_slice(piece)?;
    }
    Ok(text)
}
