// SPDX-License-Identifier: ISC
//! Lengths at each limit and one past it, which no slice has. The answers come from the longest
//! message (FIPS 180-4, section 1) by the sums of RFC 2104, RFC 5869 and RFC 2898.

use crate::digest::algorithm::{SHA1_FOR_LEGACY_USE_ONLY, SHA256, SHA512};
use crate::hmac::key::{HMAC_SHA256, HMAC_SHA512};
use crate::limits::message::is_message_within;
use crate::limits::{can_derive_by, is_info_within, is_tag_within};

// 2^61 - 1, where blocks have 64 bytes
const LONGEST: u128 = 2_305_843_009_213_693_951;

// 2^125 - 1, where they have 128
const LONGEST_OF_LONG_BLOCKS: u128 = 42_535_295_865_117_307_932_921_825_928_971_026_431;

#[test]
fn messages(rt: HostRuntime) {
    let rows = [
        (SHA256, LONGEST, true),
        (SHA256, LONGEST + 1, false),
        (SHA512, LONGEST_OF_LONG_BLOCKS, true),
        (SHA512, LONGEST_OF_LONG_BLOCKS + 1, false),
    ];
    for (algorithm, len, is_within) in rows {
        assert!(rt; is_message_within(&algorithm, len) == is_within, "{len}");
    }
}

// One block comes before the message.
#[test]
fn tags(rt: HostRuntime) {
    let rows = [
        (HMAC_SHA256, LONGEST - 64, true),
        (HMAC_SHA256, LONGEST - 63, false),
        (HMAC_SHA512, LONGEST_OF_LONG_BLOCKS - 128, true),
        (HMAC_SHA512, LONGEST_OF_LONG_BLOCKS - 127, false),
    ];
    for (algorithm, len, is_within) in rows {
        assert!(rt; is_tag_within(&algorithm, len) == is_within, "{len}");
    }
}

// The lengths of the info and of the output, which is one round or two: the second signs a tag too.
#[test]
fn infos(rt: HostRuntime) {
    let rows = [
        (SHA256, LONGEST - 65, 32, true),
        (SHA256, LONGEST - 64, 32, false),
        (SHA256, LONGEST - 97, 33, true),
        (SHA256, LONGEST - 96, 33, false),
    ];
    for (algorithm, info_len, len, is_within) in rows {
        let found = is_info_within(&algorithm, info_len, len);
        assert!(rt; found == is_within, "{info_len} {len}");
    }
}

// The lengths of the secret, the salt and the output: an empty one takes any salt.
#[test]
fn derivations(rt: HostRuntime) {
    let rows = [
        (SHA1_FOR_LEGACY_USE_ONLY, 0, LONGEST - 68, 20, true),
        (SHA1_FOR_LEGACY_USE_ONLY, 0, LONGEST - 67, 20, false),
        (SHA1_FOR_LEGACY_USE_ONLY, 0, LONGEST, 0, true),
        (SHA1_FOR_LEGACY_USE_ONLY, 0, 0, 85_899_345_900, true),
        (SHA1_FOR_LEGACY_USE_ONLY, 0, 0, 85_899_345_901, false),
        (SHA1_FOR_LEGACY_USE_ONLY, LONGEST + 1, 0, 0, false),
        (SHA256, LONGEST + 1, 0, 0, false),
        (SHA512, 0, LONGEST_OF_LONG_BLOCKS - 132, 64, true),
        (SHA512, 0, LONGEST_OF_LONG_BLOCKS - 131, 64, false),
    ];
    for (algorithm, secret_len, salt_len, len, can_derive) in rows {
        let found = can_derive_by(&algorithm, secret_len, salt_len, len);
        assert!(rt; found == can_derive, "{secret_len} {salt_len} {len}");
    }
}
