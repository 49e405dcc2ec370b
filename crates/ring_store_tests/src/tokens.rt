// SPDX-License-Identifier: ISC
//! Tokens of another implementation, and the order in which a check refuses.

use ring::cost::Meter;
use ring_store::{TokenError, TokenMaker};

// What Python's `hmac` gives.
const TOKEN: [u8; 32] = [
    0x29, 0xb6, 0x4f, 0x33, 0xc8, 0x2d, 0x3c, 0xd1, 0x54, 0xa1, 0x95, 0xa8, 0x83, 0x1d, 0xe0, 0xb5,
    0xa4, 0x12, 0x13, 0xfe, 0xe7, 0xf4, 0xbb, 0x9d, 0xc4, 0xf2, 0x48, 0x45, 0xa6, 0x40, 0x95, 0x82,
];

const LAST_TOKEN: [u8; 32] = [
    0x7d, 0x55, 0x83, 0xc1, 0x84, 0x24, 0xdc, 0xc4, 0x49, 0x02, 0x20, 0xee, 0x9b, 0x6e, 0x4e, 0xe3,
    0x5f, 0x5f, 0x8a, 0x89, 0xa5, 0x29, 0xce, 0x32, 0x98, 0x77, 0xbe, 0xda, 0x4f, 0xa9, 0x9c, 0x41,
];

const TOKEN_OF_NO_SECRET: [u8; 32] = [
    0xd6, 0xda, 0x1c, 0x88, 0xfc, 0x1e, 0xbb, 0xc7, 0x00, 0x26, 0x89, 0xf8, 0x11, 0x56, 0x21, 0x3e,
    0xbf, 0xaa, 0x64, 0xc6, 0x7b, 0xd7, 0xa5, 0x33, 0x5f, 0x2c, 0xaf, 0x27, 0x1b, 0xb5, 0xc5, 0xb6,
];

const TOKEN_OF_LONG_SECRETS: [u8; 32] = [
    0x42, 0xec, 0x0e, 0xe0, 0xf5, 0x4a, 0xd6, 0x7c, 0x08, 0x24, 0x2d, 0x0e, 0x1a, 0x3d, 0x14, 0x13,
    0xea, 0x82, 0xf1, 0x0e, 0xa7, 0xd9, 0xdc, 0x63, 0x2a, 0x0d, 0x00, 0x2c, 0x82, 0x44, 0x76, 0x68,
];

// The secret and the salt of a maker, a user and an expiry, and their token.
const ROWS: [(&[u8], &[u8], &[u8], u64, [u8; 32]); 4] = [
    (b"master", b"salt", b"u", 100, TOKEN),
    (b"master", b"salt", b"", u64::MAX, LAST_TOKEN),
    (b"", b"", b"u", 0, TOKEN_OF_NO_SECRET),
    (
        &[b'm'; 100],
        &[b's'; 70],
        b"user@example",
        1 << 40,
        TOKEN_OF_LONG_SECRETS,
    ),
];

// The token that a maker of these secrets issues.
fn token_of(master: &[u8], salt: &[u8], user: &[u8], expiry: u64) -> Result<[u8; 32], TokenError> {
    TokenMaker::new(master, salt)?.issue(user, expiry)
}

// Whether a token passes at this time, for a maker of `master` and `salt`.
fn check_of(user: &[u8], expiry: u64, now: u64, token: &[u8]) -> Result<(), TokenError> {
    TokenMaker::new(b"master", b"salt")?.check(user, expiry, now, token)
}

#[test]
fn tokens_of_another_implementation(rt: HostRuntime) {
    for (master, salt, user, expiry, token) in ROWS {
        assert!(rt; token_of(master, salt, user, expiry) == Ok(token));
    }
    assert!(rt; check_of(b"", u64::MAX, u64::MAX, &LAST_TOKEN).is_ok());
}

// Whether a token is bad at any time: in time and past it.
fn is_bad(user: &[u8], expiry: u64, token: &[u8]) -> bool {
    let bad = Err(TokenError::BadToken);
    check_of(user, expiry, 100, token) == bad && check_of(user, expiry, 101, token) == bad
}

// A token of another user or expiry is bad at any time, and one that is cut or longer.
fn are_bad(cut: &[u8], longer: &[u8]) -> bool {
    is_bad(b"v", 100, &TOKEN)
        && is_bad(b"u", 101, &TOKEN)
        && is_bad(b"u", 100, cut)
        && is_bad(b"u", 100, longer)
}

#[test]
fn bad_tokens_are_told_before_expired_ones(rt: HostRuntime) {
    let mut longer = [0; 33];
    longer[..32].copy_from_slice(&TOKEN);
    assert!(rt; are_bad(&TOKEN[..31], &longer));
    assert!(rt; check_of(b"u", 100, 100, &TOKEN).is_ok());
    assert!(rt; check_of(b"u", 100, 101, &TOKEN) == Err(TokenError::Expired));
}

// The blocks of a maker, and the byte pairs that it compares.
fn cost_of(master: &[u8], salt: &[u8]) -> (u128, u128) {
    let mut meter = Meter::new();
    let _ = TokenMaker::new_counted(master, salt, &mut meter);
    (meter.blocks(), meter.byte_pairs())
}

// The rows of `docs/COSTS.md`. A salt that is longer than a block is hashed first.
#[test]
fn maker_costs_by_its_lengths(rt: HostRuntime) {
    assert!(rt; cost_of(&[0; 32], &[0; 21]) == (10, 0));
    assert!(rt; cost_of(&[0; 55], &[0; 21]) == (10, 0));
    assert!(rt; cost_of(&[0; 56], &[0; 21]) == (11, 0));
    assert!(rt; cost_of(&[0; 32], &[0; 65]) == (12, 0));
}
