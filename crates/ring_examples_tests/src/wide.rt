// SPDX-License-Identifier: ISC
//! The callers of `ring_examples` over vectors of 256 bits, each against a value from outside.

use crate::calls::{OF_SHORT, SHORT};
use crate::texts::is_hex_of;
use ring::digest::{SHA256, digest};
use ring::error::Unspecified;
use ring_examples::wide::{
    digests_of_eight, has_a_digest_each, long_key_of, match_each, store_each, verify_long_key,
    write_list,
};
use std::num::NonZeroU32;

#[test]
fn digests_of_eight_messages(rt: HostRuntime) -> Result<(), Unspecified> {
    let digests = digests_of_eight(&SHA256, &[SHORT; 8])?;
    for made in &digests {
        assert!(rt; is_hex_of(OF_SHORT, made.as_ref()));
    }
    Ok(())
}

#[test]
fn a_list_of_nine_digests(rt: HostRuntime) -> Result<(), Unspecified> {
    let mut list = [0; 288];
    write_list(&[SHORT; 9], &mut list)?;
    assert!(rt; is_hex_of(OF_SHORT, &list[..32]) && list[256..] == list[..32]);
    assert!(rt; has_a_digest_each(9, 288) && !has_a_digest_each(9, 287));
    assert!(rt; write_list(&[SHORT; 9], &mut [0; 287]).is_err());
    Ok(())
}

// From Python: the digest by SHA-256 of the 256 bytes that `hashlib.pbkdf2_hmac` derives with one
// iteration.
const OF_LONG_KEY: &str = "901ef29a5f867fa1b37e587fce3d2972b3793872fbb718e181989f7847a6b970";

#[test]
fn a_key_of_eight_rounds(rt: HostRuntime) -> Result<(), Unspecified> {
    let one = NonZeroU32::MIN;
    let key = long_key_of(one, b"salt", b"password")?;
    assert!(rt;
        is_hex_of(OF_LONG_KEY, digest(&SHA256, &key)?.as_ref())
            && verify_long_key(one, b"salt", b"password", &key).is_ok()
            && verify_long_key(one, b"salt", b"Password", &key).is_err()
    );
    Ok(())
}

const SALTS: [&[u8]; 8] = [b"a", b"b", b"c", b"d", b"e", b"f", b"g", b"h"];

const PASSWORDS: [&[u8]; 8] = [
    b"one", b"two", b"three", b"four", b"five", b"six", b"seven", b"eight",
];

// From Python: the digest by SHA-256 of what `hashlib.pbkdf2_hmac` derives of these, with one
// iteration, one after another.
const OF_STORED: &str = "d37ce0e64d0d22ae75338cc2cde3f36705dfb328ddac60426fc4868e9eb19e87";

#[test]
fn eight_passwords(rt: HostRuntime) -> Result<(), Unspecified> {
    let one = NonZeroU32::MIN;
    let mut stored = [[0; 32]; 8];
    store_each(one, &SALTS, &PASSWORDS, &mut stored)?;
    assert!(rt; is_hex_of(OF_STORED, digest(&SHA256, stored.as_flattened())?.as_ref()));
    let mut matches = [false; 8];
    match_each(one, &SALTS, &PASSWORDS, &stored, &mut matches)?;
    assert!(rt; matches == [true; 8]);
    match_each(one, &SALTS, &SALTS, &stored, &mut matches)?;
    assert!(rt; matches == [false; 8]);
    Ok(())
}
