// SPDX-License-Identifier: ISC
//! The callers of `ring_examples` over plain numbers, chaining words, laws and accounts, each
//! against a value from outside.

use crate::calls::{LONG_REST, OF_LONG, OF_SHORT, SHORT, TAG};
use crate::texts::is_hex_of;
use ring::digest::sha2::State32;
use ring::digest::{SHA1_FOR_LEGACY_USE_ONLY, SHA256, digest};
use ring::error::Unspecified;
use ring::hkdf::{HKDF_SHA256, Prk};
use ring::hmac::{HMAC_SHA256, Key};
use ring_examples::accounts::{is_registered, passes, register, store_of_one, strengthen};
use ring_examples::hkdf::Length;
use ring_examples::laws::{
    can_ask_all, extract_without_salt, long_and_short_key, long_and_short_output, pairs_both_ways,
};
use ring_examples::raw::{
    add_raw, add_raw_tag, begin_raw, begin_raw_tag, digest_by_number, finish_raw, finish_raw_tag,
    number_beside, raw_key_of, tag_under_raw,
};
use ring_examples::states::{bytes_of_long, bytes_of_short, words_after_block};
use ring_store::{PasswordStore, Reply, StoreError, TokenError, TokenMaker};
use std::num::{NonZeroU32, Wrapping};
use std::test::Fail;

// FIPS 180-4, 5.3.3.
const SHA256_WORDS: State32 = [
    Wrapping(0x6a09e667),
    Wrapping(0xbb67ae85),
    Wrapping(0x3c6ef372),
    Wrapping(0xa54ff53a),
    Wrapping(0x510e527f),
    Wrapping(0x9b05688c),
    Wrapping(0x1f83d9ab),
    Wrapping(0x5be0cd19),
];

// FIPS 180-4, 5.3.3 and 5.3.5: the bytes of the first two initial words of SHA-256, and of the
// first one of SHA-512.
const FIRST_SHORT: [u8; 8] = [0x6a, 0x09, 0xe6, 0x67, 0xbb, 0x67, 0xae, 0x85];

const FIRST_LONG: [u8; 8] = [0x6a, 0x09, 0xe6, 0x67, 0xf3, 0xbc, 0xc9, 0x08];

// RFC 5869, appendix A.3: no salt and no info.
const OUTPUT_WITHOUT_SALT: &str =
    "8da4e775a563c18f715f802a063c5a31b8a11f5c5ee1879ec3454e5f3c738d2d9d201395faa4b61a96c8";

// RFC 7914, section 11: its first vector.
const LONG_KEY: &str = "55ac046e56e3089fec1691c22544b605f94185216dde0465e68b9d57c20dacbc\
    49ca9cccf179b645991664b39d77ef317c71b845b1e30bd509112041d3a19783";

#[test]
fn contexts_as_numbers(rt: HostRuntime) -> Result<(), Unspecified> {
    let mut numbers = begin_raw(&SHA256, SHORT);
    assert!(rt; add_raw(&mut numbers, &LONG_REST[..10]));
    let made = finish_raw(&numbers, &LONG_REST[10..]).unwrap_or(Err(Unspecified))?;
    assert!(rt; is_hex_of(OF_LONG, made.as_ref()));
    // 53 bytes complete the block after 61.
    let mut numbers = begin_raw(&SHA256, &[0; 61]);
    assert!(rt; add_raw(&mut numbers, LONG_REST) && numbers.num_pending == 50);
    numbers.algorithm = 0;
    assert!(rt; !add_raw(&mut numbers, SHORT) && finish_raw(&numbers, &[]).is_none());
    Ok(())
}

#[test]
fn keys_as_numbers(rt: HostRuntime) -> Result<(), Unspecified> {
    let mut numbers = raw_key_of(HMAC_SHA256, b"Jefe")?;
    let made = tag_under_raw(&numbers, b"what do ya want for nothing?");
    assert!(rt; is_hex_of(TAG, made.unwrap_or(Err(Unspecified))?.as_ref()));
    numbers.algorithm = 6;
    assert!(rt; tag_under_raw(&numbers, SHORT).is_none());
    Ok(())
}

#[test]
fn tags_as_numbers(rt: HostRuntime) -> Result<(), Unspecified> {
    let key = Key::new(HMAC_SHA256, b"Jefe")?;
    let mut numbers = begin_raw_tag(&key, b"what do ya want ");
    assert!(rt; add_raw_tag(&mut numbers, b"for nothing?"));
    let made = finish_raw_tag(&numbers).unwrap_or(Err(Unspecified))?;
    assert!(rt; is_hex_of(TAG, made.as_ref()));
    assert!(rt; add_raw_tag(&mut numbers, &[0; 100]));
    numbers.inner.algorithm = 0;
    assert!(rt; !add_raw_tag(&mut numbers, SHORT) && finish_raw_tag(&numbers).is_none());
    Ok(())
}

#[test]
fn algorithms_by_number(rt: HostRuntime) -> Result<(), Unspecified> {
    let short = digest(&SHA256, SHORT)?;
    let made = digest_by_number(number_beside(&short), SHORT).unwrap_or(Err(Unspecified))?;
    assert!(rt; is_hex_of(OF_SHORT, made.as_ref()));
    assert!(rt; number_beside(&digest(&SHA1_FOR_LEGACY_USE_ONLY, SHORT)?) == 1);
    assert!(rt; digest_by_number(0, SHORT).is_none() && digest_by_number(6, SHORT).is_none());
    Ok(())
}

#[test]
fn chaining_words(rt: HostRuntime) {
    let bytes = bytes_of_short(SHA256_WORDS);
    assert!(rt; &bytes[..8] == FIRST_SHORT.as_slice() && &bytes[32..] == [0; 32].as_slice());
    let long = bytes_of_long([Wrapping(0x6a09e667f3bcc908); 8]);
    assert!(rt; &long[56..] == FIRST_LONG.as_slice());
}

// FIPS 180-4, 5.1.1: the short message with its padding, of 24 bits.
fn padded_short() -> [u8; 64] {
    let mut block = [0; 64];
    block[..3].copy_from_slice(SHORT);
    block[3] = 0x80;
    block[63] = 24;
    block
}

#[test]
fn a_block_of_words(rt: HostRuntime) {
    let last = bytes_of_short(words_after_block(&SHA256_WORDS, &padded_short()));
    let (digest, rest) = last.split_at(32);
    assert!(rt; is_hex_of(OF_SHORT, digest) && rest == [0; 32].as_slice());
}

#[test]
fn laws_in_use(rt: HostRuntime) -> Result<(), Unspecified> {
    // RFC 5869, 2.3: 255 digests of 20 bytes.
    assert!(rt; can_ask_all(255 * 20) && !can_ask_all(255 * 20 + 1));
    let mut output = [0; 42];
    extract_without_salt(&[0x0b; 22])?
        .expand(&[], Length(42))?
        .fill(&mut output)?;
    assert!(rt; is_hex_of(OUTPUT_WITHOUT_SALT, &output));
    let prk = Prk::new_less_safe(HKDF_SHA256, b"a pseudorandom key")?;
    let (long, short) = long_and_short_output(&prk, &[])?;
    assert!(rt; &long[..32] == short.as_slice());
    let (long, short) = long_and_short_key(NonZeroU32::MIN, b"salt", b"passwd")?;
    assert!(rt; is_hex_of(LONG_KEY, &long) && &long[..32] == short.as_slice());
    assert!(rt; pairs_both_ways(b"token", b"Token") == (5, 5));
    Ok(())
}

#[test]
fn accounts(rt: HostRuntime) -> Result<(), Fail> {
    let mut store = PasswordStore::new(rt.alloc(), [7; 16], NonZeroU32::MIN);
    assert!(rt; !is_registered(&store, b"alice"));
    assert!(rt; register(&mut store, b"alice", b"correct horse")?);
    assert!(rt; is_registered(&store, b"alice"));
    assert!(rt; !register(&mut store, b"alice", b"battery staple")?);
    let two = NonZeroU32::MIN.saturating_add(1);
    let replies = strengthen(&mut store, two, b"alice", b"battery staple");
    let refused = Reply::Refused(StoreError::WrongUsernameOrPassword);
    assert!(rt; replies == [Reply::Done, refused]);
    let replies = strengthen(&mut store, two, b"alice", b"correct horse");
    assert!(rt; replies == [Reply::Done; 2] && store.iterations_of(b"alice") == Some(two));
    let mut other = store_of_one(rt.alloc(), [7; 16], two, b"alice", b"correct horse")?;
    assert!(rt; other.iterations_of(b"alice") == Some(two));
    Ok(other.verify_password(b"alice", b"correct horse")?)
}

#[test]
fn tokens_of_a_secret(rt: HostRuntime) -> Result<(), Fail> {
    let token = TokenMaker::new(&[9; 32], b"salt")?.issue(b"alice", 100)?;
    passes(&[9; 32], b"salt", b"alice", 100, 100, &token)?;
    let late = passes(&[9; 32], b"salt", b"alice", 100, 101, &token);
    assert!(rt; late == Err(TokenError::Expired));
    let other = passes(&[9; 32], b"pepper", b"alice", 100, 100, &token);
    assert!(rt; other == Err(TokenError::BadToken));
    Ok(())
}
