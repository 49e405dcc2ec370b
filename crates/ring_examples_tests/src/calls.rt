// SPDX-License-Identifier: ISC
//! Each caller of `ring_examples` once, against a value from outside.

use crate::source::Listed;
use crate::texts::is_hex_of;
use ring::cost::Meter;
use ring::digest::{Context, MAX_OUTPUT_LEN, SHA256, SHA512};
use ring::error::Unspecified;
use ring::hkdf::{HKDF_SHA256, Prk, Salt};
use ring::hmac::{HMAC_SHA256, HMAC_SHA512, Key, sign};
use ring_examples::basics::{
    bit_length_field, blocks_of_digest, bytes_for_bits, is_same_token, key_bits,
    long_bit_length_field, masked_block, pairs_of_comparison, whole_and_left, xored,
};
use ring_examples::digest::digest_of_two;
use ring_examples::hkdf::{
    Length, asked_len, can_ask, current_and_next, expand_secret, expand_stored, key_under_salt,
    next_key, next_salt, tag_under_output,
};
use ring_examples::hmac::{
    key_for_both, tag_counted, tag_len, tag_of_two, tags_of_front_and_whole, verify_tag,
};
use ring_examples::hotp::hotp;
use ring_examples::pbkdf2::{can_derive_len, derive_and_verify, stored_of, verify_stored};
use ring_examples::pieces::{
    digest_again, digest_and_blocks, digest_of_list, digest_of_whole, digests_of_front_and_whole,
    finish_into, lengths_of,
};
use ring_examples::rand::{nonce, tag_under_generated};
use ring_examples::several::{
    digests_of_both, digests_of_four, stored_of_both, stored_of_four, verify_four,
};
use ring_examples::store::{first_use, log_in};
use ring_examples::sums::{list_of_image, plain_line, tagged_line};
use ring_store::{PasswordStore, TokenMaker};
use std::num::NonZeroU32;
use std::test::Fail;

// Two messages of the examples for FIPS 180-4, and their digests by SHA-256.
pub const SHORT: &[u8] = b"abc";

pub const LONG_REST: &[u8] = b"dbcdecdefdefgefghfghighijhijkijkljklmklmnlmnomnopnopq";

pub const OF_SHORT: &str = "ba7816bf8f01cfea414140de5dae2223b00361a396177a9cb410ff61f20015ad";

pub const OF_LONG: &str = "248d6a61d20638b8e5c026930c3e6039a33ce45964ff2167f6ecedd419db06c1";

// The digest by SHA-256 of the first of these digests, from Python's `hashlib`.
const OF_DIGEST: &str = "4f8b42c22dd3729b519ba6f68d2da7cc5b2d606d05daed5ad5128cc03e6c6358";

// The digest of no byte by SHA-256, from Python's `hashlib`.
const OF_NOTHING: &str = "e3b0c44298fc1c149afbf4c8996fb92427ae41e4649b934ca495991b7852b855";

// The digest of the short message by SHA-512, from the same examples.
const OF_SHORT_BY_SHA512: &str = "ddaf35a193617abacc417349ae20413112e6fa4e89a97ea20a9eeee64b55d39a\
    2192992a274fc1a836ba3c23a3feebbd454d4423643ce80e2a9ac94fa54ca49f";

// RFC 4231, section 4.3.
pub const TAG: &str = "5bdcc146bf60754e6a042426089575c75a003f089d2739839dec58b964ec3843";

// What Python's `hmac` gives for the first 16 bytes of that message.
const TAG_OF_FRONT: &str = "b4f901c96804e22a9b5e2e9d945c655c01d5987121cec6f55ff5f5beaed22e4f";

// RFC 5869, appendix A.1.
const SALT: [u8; 13] = [0, 1, 2, 3, 4, 5, 6, 7, 8, 9, 10, 11, 12];

const INFO: [u8; 10] = [0xf0, 0xf1, 0xf2, 0xf3, 0xf4, 0xf5, 0xf6, 0xf7, 0xf8, 0xf9];

const OUTPUT: &str = "3cb25f25faacd57a90434f64d0362f2a2d2d0a90cf1a5a4c5db02d56ecc4c5bf\
    34007208d5b887185865";

const PSEUDORANDOM_KEY: [u8; 32] = [
    0x07, 0x77, 0x09, 0x36, 0x2c, 0x2e, 0x32, 0xdf, 0x0d, 0xdc, 0x3f, 0x0d, 0xc4, 0x7b, 0xba, 0x63,
    0x90, 0xb6, 0xc7, 0x3b, 0xb5, 0x0f, 0x9c, 0x31, 0x22, 0xec, 0x84, 0x4a, 0xd7, 0xc2, 0xb3, 0xe5,
];

// What HKDF over Python's `hmac` gives where the first 32 bytes of that output are the pseudorandom
// key, and where they are the salt of the same secret.
const OUTPUT_OF_NEXT: &str = "6622a6618764bac114afeb820637d4d5d8c2fa73195446a0945eff0bc1dbdff1\
    657c54c1af64db06f423";

const OUTPUT_OF_NEXT_SALT: &str = "785d9c6ffe2d2e1e4a080eaafd083bd77b3c73849866660da1e4ff06c80b1797\
    5e1d1c329e48d0162017";

// What Python's `hmac` gives for `hello, world` under the first 32 bytes of that output.
const TAG_UNDER_OUTPUT: &str = "4534f79f5410c70bd63c9ca503f6ec903cb61876bb1ea1c4d2311f1c9f3e68c0";

// RFC 7914, section 11: the first 32 bytes of its first vector.
const STORED: &str = "55ac046e56e3089fec1691c22544b605f94185216dde0465e68b9d57c20dacbc";

// What Python's `hashlib.pbkdf2_hmac` gives for no password, the same salt and one iteration.
const OF_NO_PASSWORD: &str = "f135c27993baf98773c5cdb40a5706ce6a345cde61b000a67858650cd6a324d7";

const SALTS: [&[u8]; 4] = [b"SALT", b"salt", b"salt", b"salt"];

const PASSWORDS: [&[u8]; 4] = [b"passwd", b"Passwd", b"", b"passwd"];

// The last is another salt.
const OTHER_SALTS: [&[u8]; 4] = [b"SALT", b"salt", b"salt", b"SALT"];

// RFC 4231, section 4.2.
const TAG_UNDER_GENERATED: &str =
    "b0344c61d8db38535ca8afceaf0bf12b881dc200c9833da726e9376c2e32cff7";

#[test]
fn basics(rt: HostRuntime) {
    assert!(rt;
        is_same_token(b"token", b"token")
            && !is_same_token(b"token", b"Token")
            && !is_same_token(b"token", b"toke")
    );
    assert!(rt; whole_and_left(&[0; 64]) == (1, 0) && whole_and_left(&[0; 200]) == (3, 8));
    // FIPS 180-4, 5.1.1: this message has 24 bits.
    assert!(rt; bit_length_field(SHORT) == Ok([0, 0, 0, 0, 0, 0, 0, 24]));
    // A padded message of 55 bytes is one block of 64, and of 56 bytes two.
    assert!(rt; blocks_of_digest(&[0; 55]) == Ok(1) && blocks_of_digest(&[0; 56]) == Ok(2));
}

#[test]
fn pairs_and_exclusive_or(rt: HostRuntime) {
    // All pairs where the lengths agree, and else none.
    assert!(rt;
        pairs_of_comparison(b"token", b"Token") == 5 && pairs_of_comparison(b"token", b"toke") == 0
    );
    // RFC 2104, section 2: the inner mask of no byte, and of the mask itself.
    assert!(rt; masked_block(&[0; 64], 0x36) == [0x36; 64]);
    assert!(rt; masked_block(&[0x36; 64], 0x36) == [0; 64]);
    assert!(rt; xored(&[0xf0; 32], &[0x3c; 32]) == [0xcc; 32]);
}

#[test]
fn lengths_in_bits(rt: HostRuntime) {
    // FIPS 180-4, 5.1.2: the same message of 24 bits.
    let field = long_bit_length_field(3);
    assert!(rt; field == Ok([0, 0, 0, 0, 0, 0, 0, 0, 0, 0, 0, 0, 0, 0, 0, 24]));
    assert!(rt; long_bit_length_field(1 << 125).is_err());
    assert!(rt; bytes_for_bits(0) == 0 && bytes_for_bits(24) == 3 && bytes_for_bits(25) == 4);
    assert!(rt; key_bits(0).is_err() && key_bits(256).is_ok_and(|bits| bits.get() == 256));
}

#[test]
fn digests(rt: HostRuntime) -> Result<(), Unspecified> {
    assert!(rt; is_hex_of(OF_SHORT_BY_SHA512, digest_of_whole(SHORT)?.as_ref()));
    assert!(rt; is_hex_of(OF_LONG, digest_of_two(SHORT, LONG_REST)?.as_ref()));
    let list = digest_of_list(&SHA256, &[SHORT, &[], LONG_REST])?;
    assert!(rt; is_hex_of(OF_LONG, list.as_ref()));
    let (front, all) = digests_of_front_and_whole(&SHA256, SHORT, LONG_REST)?;
    assert!(rt; is_hex_of(OF_SHORT, front.as_ref()) && is_hex_of(OF_LONG, all.as_ref()));
    Ok(())
}

#[test]
fn digests_and_lengths(rt: HostRuntime) -> Result<(), Unspecified> {
    // The padded message of 56 bytes is two blocks.
    let (list, blocks) = digest_and_blocks(&SHA256, &[SHORT, &[], LONG_REST])?;
    assert!(rt; is_hex_of(OF_LONG, list.as_ref()) && blocks == 2);
    let mut context = Context::new(&SHA256);
    context.update(SHORT);
    let mut out = [0; MAX_OUTPUT_LEN];
    assert!(rt; finish_into(context, &mut out)? == 32 && is_hex_of(OF_SHORT, &out[..32]));
    assert!(rt; &out[32..] == [0; 32].as_slice());
    let again = digest_again(&ring::digest::digest(&SHA256, SHORT)?)?;
    assert!(rt; is_hex_of(OF_DIGEST, again.as_ref()));
    // FIPS 180-4, section 1, figure 1: below 2^64 and below 2^128 bits.
    assert!(rt; lengths_of(&SHA256) == (64, 32, 32, (1 << 61) - 1));
    assert!(rt; lengths_of(&SHA512) == (128, 64, 64, (1 << 125) - 1));
    Ok(())
}

#[test]
fn digests_at_once(rt: HostRuntime) -> Result<(), Unspecified> {
    let (empty, short) = digests_of_both(&[], SHORT)?;
    assert!(rt; is_hex_of(OF_NOTHING, empty.as_ref()) && is_hex_of(OF_SHORT, short.as_ref()));
    let four = digests_of_four(&SHA256, &[&[], &[], SHORT, &[]])?;
    assert!(rt; is_hex_of(OF_SHORT, four[2].as_ref()));
    Ok(())
}

#[test]
fn tags(rt: HostRuntime) -> Result<(), Unspecified> {
    let tag = tag_of_two(b"Jefe", b"what do ya want ", b"for nothing?")?;
    assert!(rt; is_hex_of(TAG, tag.as_ref()));
    verify_tag(b"Jefe", b"what do ya want for nothing?", tag.as_ref())?;
    assert!(rt; verify_tag(b"Jefe", b"what do ya want for nothing!", tag.as_ref()).is_err());
    Ok(())
}

#[test]
fn tags_midway(rt: HostRuntime) -> Result<(), Unspecified> {
    let (key, other) = key_for_both(&Key::new(HMAC_SHA256, b"Jefe")?);
    let (front, all) = tags_of_front_and_whole(&key, b"what do ya want ", b"for nothing?")?;
    assert!(rt; is_hex_of(TAG_OF_FRONT, front.as_ref()) && is_hex_of(TAG, all.as_ref()));
    let same = sign(&other, b"what do ya want for nothing?")?;
    assert!(rt; is_hex_of(TAG, same.as_ref()));
    assert!(rt; tag_len(&key) == 32 && tag_len(&Key::new(HMAC_SHA512, b"Jefe")?) == 64);
    Ok(())
}

#[test]
fn blocks_of_a_tag(rt: HostRuntime) -> Result<(), Unspecified> {
    let mut meter = Meter::new();
    let key = Key::new(HMAC_SHA256, b"Jefe")?;
    let tag = tag_counted(&key, b"what do ya want ", b"for nothing?", &mut meter)?;
    assert!(rt; is_hex_of(TAG, tag.as_ref()) && meter.blocks() == 2);
    Ok(())
}

#[test]
fn outputs(rt: HostRuntime) -> Result<(), Unspecified> {
    let mut output = [0; 42];
    expand_secret(&SALT, &[0x0b; 22], &[&INFO], &mut output)?;
    assert!(rt; is_hex_of(OUTPUT, &output));
    // RFC 5869, 2.3: 255 digests of 32 bytes.
    assert!(rt; can_ask(8_160) && !can_ask(8_161));
    let tag = tag_under_output(&SALT, &[0x0b; 22], &[&INFO], b"hello, world")?;
    assert!(rt; is_hex_of(TAG_UNDER_OUTPUT, tag.as_ref()));
    Ok(())
}

// RFC 4226, appendix D: the passwords of the counters from 0 on.
const ONE_TIME_PASSWORDS: [u32; 10] = [
    755_224, 287_082, 359_152, 969_429, 338_314, 254_676, 287_922, 162_583, 399_871, 520_489,
];

#[test]
fn one_time_passwords(rt: HostRuntime) -> Result<(), Unspecified> {
    for counter in 0..ONE_TIME_PASSWORDS.len() {
        assert!(rt; hotp(b"12345678901234567890", counter as u64)? == ONE_TIME_PASSWORDS[counter]);
    }
    Ok(())
}

#[test]
fn chains_of_keys(rt: HostRuntime) -> Result<(), Unspecified> {
    let mut output = [0; 42];
    expand_stored(&PSEUDORANDOM_KEY, &[&INFO], &mut output)?;
    assert!(rt; is_hex_of(OUTPUT, &output));
    let stored = Prk::new_less_safe(HKDF_SHA256, &PSEUDORANDOM_KEY)?;
    assert!(rt; asked_len(&stored, &[&INFO], 8_160)? == 8_160);
    assert!(rt; asked_len(&stored, &[&INFO], 8_161).is_err());
    let (current, next) = current_and_next(&stored, &[&INFO])?;
    current.expand(&[&INFO], Length(42))?.fill(&mut output)?;
    assert!(rt; is_hex_of(OUTPUT, &output));
    next.expand(&[&INFO], Length(42))?.fill(&mut output)?;
    assert!(rt; is_hex_of(OUTPUT_OF_NEXT, &output));
    next_key(&stored, &[&INFO])?
        .expand(&[&INFO], Length(42))?
        .fill(&mut output)?;
    assert!(rt; is_hex_of(OUTPUT_OF_NEXT, &output));
    let salted = next_salt(&stored, &[&INFO])?.extract(&[0x0b; 22])?;
    salted.expand(&[&INFO], Length(42))?.fill(&mut output)?;
    assert!(rt; is_hex_of(OUTPUT_OF_NEXT_SALT, &output));
    Ok(())
}

#[test]
fn keys_under_a_salt(rt: HostRuntime) -> Result<(), Unspecified> {
    let key = key_under_salt(&Salt::new(HKDF_SHA256, &SALT)?, &[0x0b; 22], &[&INFO])?;
    let tag = sign(&key, b"hello, world")?;
    assert!(rt; is_hex_of(TAG_UNDER_OUTPUT, tag.as_ref()));
    Ok(())
}

#[test]
fn passwords(rt: HostRuntime) -> Result<(), Unspecified> {
    let stored = stored_of(NonZeroU32::MIN, b"salt", b"passwd")?;
    assert!(rt; is_hex_of(STORED, &stored));
    verify_stored(NonZeroU32::MIN, b"salt", b"passwd", &stored)?;
    assert!(rt; verify_stored(NonZeroU32::MIN, b"salt", b"Passwd", &stored).is_err());
    // RFC 2898, 5.2: 2^32 - 1 digests of 32 bytes.
    assert!(rt; can_derive_len(137_438_953_440) && !can_derive_len(137_438_953_441));
    derive_and_verify(NonZeroU32::MIN, b"salt", b"passwd")
}

#[test]
fn two_passwords(rt: HostRuntime) -> Result<(), Unspecified> {
    let (first, second) = stored_of_both(NonZeroU32::MIN, b"salt", b"passwd", b"salt", b"")?;
    assert!(rt; is_hex_of(STORED, &first) && is_hex_of(OF_NO_PASSWORD, &second));
    Ok(())
}

#[test]
fn four_passwords(rt: HostRuntime) -> Result<(), Unspecified> {
    let four = stored_of_four(NonZeroU32::MIN, &SALTS, &PASSWORDS)?;
    assert!(rt; is_hex_of(OF_NO_PASSWORD, &four[2]) && is_hex_of(STORED, &four[3]));
    let verified = verify_four(NonZeroU32::MIN, &OTHER_SALTS, &PASSWORDS, &four)?;
    assert!(rt; verified == [true, true, true, false]);
    Ok(())
}

#[test]
fn generated(rt: HostRuntime) -> Result<(), Unspecified> {
    // RFC 4231, section 4.2, whose key has 20 bytes: 12 zeros more change no tag.
    let mut bytes = [0; 48];
    bytes[..20].copy_from_slice(&[0x0b; 20]);
    let mut source = Listed::new(&bytes);
    let tag = tag_under_generated(&mut source, b"Hi There")?;
    assert!(rt; is_hex_of(TAG_UNDER_GENERATED, tag.as_ref()));
    assert!(rt; nonce(&mut source)? == [0; 16] && nonce(&mut source).is_err());
    Ok(())
}

#[test]
fn logins(rt: HostRuntime) -> Result<(), Fail> {
    let mut store = PasswordStore::new(rt.alloc(), [7; 16], NonZeroU32::MIN);
    store.set_password(b"alice", b"correct horse")?;
    let maker = TokenMaker::new(&[9; 32], b"salt")?;
    let token = log_in(&mut store, &maker, b"alice", b"correct horse", 100)?;
    maker.check(b"alice", 100, 100, &token)?;
    assert!(rt; log_in(&mut store, &maker, b"alice", b"battery staple", 100).is_err());
    Ok(())
}

#[test]
fn first_use_ends_well(rt: HostRuntime) {
    let (few, more) = (
        NonZeroU32::new(1_000).unwrap(),
        NonZeroU32::new(2_000).unwrap(),
    );
    let answer = first_use(rt.alloc(), [7; 16], few, more, &[7; 32], 1_700_000_000);
    assert!(rt; answer.is_ok());
}

// What `sha256sum` of coreutils 9.1 writes of a file with the short message, with `--tag` and
// without it.
#[test]
fn lines_of_checksums(rt: HostRuntime) -> Result<(), Fail> {
    let listed: &[u8] =
        b"ba7816bf8f01cfea414140de5dae2223b00361a396177a9cb410ff61f20015ad  image.bin\n";
    let tagged: &[u8] =
        b"SHA256 (image.bin) = ba7816bf8f01cfea414140de5dae2223b00361a396177a9cb410ff61f20015ad";
    let digest = digest_of_two(b"a", b"bc")?;
    assert!(rt; list_of_image(rt.alloc(), &digest)?.as_slice() == listed);
    let mut line = plain_line(rt.alloc(), &digest)?;
    line.push(b'\n')?;
    assert!(rt; line.as_slice() == listed);
    assert!(rt; tagged_line(rt.alloc(), &digest)?.as_slice() == tagged);
    Ok(())
}
