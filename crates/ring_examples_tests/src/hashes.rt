// SPDX-License-Identifier: ISC
//! Each caller of `ring_password_hash` once, against a text from outside.

use crate::source::Listed;
use crate::texts::is_hex_of;
use ring::cost::Meter;
use ring_examples::migration::{MoveError, move_at_login, rehash_at_login};
use ring_examples::rows::{RowError, fill_row, fill_row_under, new_text, write_and_read};
use ring_examples::schemes::{is_to_be_prepared, scheme_or};
use ring_examples::verifiers::{LoginError, log_in, server_key_of_hash, test_in_request};
use ring_password_hash::{HashError, MAX_TEXT_LEN, Scheme, Stored};
use ring_store::{PasswordStore, StoreError};
use std::num::NonZeroU32;
use std::test::Fail;

const PASSWORD: &[u8] = b"correct horse battery staple";

// What Django 3.2.25 keeps of this password, at 1,000 iterations.
const BY_DJANGO: &[u8] =
    b"pbkdf2_sha256$1000$kXq0Wz3vT9bYh2LrE8mNpA$6jlqr5CFEJ6yV5h1RjyoxC5WzlE3x9jGX4aMqvJOfqk=";

// RFC 7677, section 3, as PostgreSQL keeps it: the password `pencil`, at 4,096 iterations. The keys
// are from Python's `hashlib` and `hmac`.
const BY_POSTGRESQL: &[u8] = b"SCRAM-SHA-256$4096:W22ZaJ0SNY7soEsUEjb6gQ==\
    $WG5d8oPm3OtcPnkdi4Uo7BkeZkBFzpcXkuLmtbsT4qY=:wfPLwcE6nTWhTAmQ7tl2KeoiWGPlZqQxSrmfPwDl2dU=";

#[test]
fn moves(rt: HostRuntime) -> Result<(), Fail> {
    let mut store = PasswordStore::new(rt.alloc(), [7; 16], NonZeroU32::MIN);
    let wrong = move_at_login(&mut store, b"alice", b"battery", BY_DJANGO, 1_000);
    assert!(rt; wrong == Err(MoveError::Text(HashError::WrongPassword)));
    let many = move_at_login(&mut store, b"alice", PASSWORD, BY_DJANGO, 999);
    assert!(rt; many == Err(MoveError::Text(HashError::TooManyIterations)));
    let nameless = move_at_login(&mut store, b"", PASSWORD, BY_DJANGO, 1_000);
    assert!(rt; nameless == Err(MoveError::Store(StoreError::BadName)) && store.is_empty());
    let right = move_at_login(&mut store, b"alice", PASSWORD, BY_DJANGO, 1_000);
    assert!(rt; right.is_ok() && store.len() == 1);
    store.check_password(b"alice", PASSWORD)?;
    assert!(rt; store.check_password(b"alice", b"battery").is_err());
    Ok(())
}

// The text of Python's `hashlib` and `base64`, in the form of Django's `pbkdf2_sha256`.
#[test]
fn fills_a_row(rt: HostRuntime) {
    let expected = b"pbkdf2_sha256$1000$saltsalt$E196ZhRPzw+wA84EjzHwJO1cv/MFJdO6C/sxmUeTYqY=";
    let iterations = NonZeroU32::new(1_000).unwrap();
    let django = Scheme::DjangoSha256;
    let mut row = [0xff; MAX_TEXT_LEN];
    let refused = fill_row(django, b"password", b"salt$", iterations, &mut row);
    assert!(rt; refused == Err(HashError::BadSalt) && row == [0xff; MAX_TEXT_LEN]);
    let filled = fill_row(django, b"password", b"saltsalt", iterations, &mut row);
    assert!(rt; filled == Ok(expected.len()));
    assert!(rt; row.starts_with(expected) && row[expected.len()] == 0xff);
}

// The salt of the bytes 0 to 15 by Python's integers, and the text as above.
#[test]
fn fills_a_row_under_a_new_salt(rt: HostRuntime) {
    let expected = b"pbkdf2_sha256$1000$Z6qA24qyQoU7tSBhGICaaa$\
        6KmLCW60FCq2O1fo5qCBug8BhSUpKaEWGDNLR674nyw=";
    let random = [0, 1, 2, 3, 4, 5, 6, 7, 8, 9, 10, 11, 12, 13, 14, 15];
    let iterations = NonZeroU32::new(1_000).unwrap();
    let django = Scheme::DjangoSha256;
    let mut row = [0; MAX_TEXT_LEN];
    let under = fill_row_under(django, PASSWORD, random, iterations, &mut row);
    assert!(rt; under == Ok(expected.len()) && row.starts_with(expected));
    let mut text = [0; MAX_TEXT_LEN];
    let mut source = Listed::new(&random);
    let made = new_text(django, PASSWORD, iterations, &mut source, &mut text);
    assert!(rt; made == Ok(expected.len()) && text.starts_with(expected));
    let unready = new_text(django, PASSWORD, iterations, &mut source, &mut text);
    assert!(rt; unready == Err(RowError::NotReady));
}

// The text of Python's `hashlib`, in the form of Werkzeug's `pbkdf2:sha1`.
#[test]
fn rehashes(rt: HostRuntime) -> Result<(), Fail> {
    let expected = b"pbkdf2:sha1:2000$saltsalt$0fea112f98c2e79b8d66e2a29f4abea03a2b3a15";
    let fewer = NonZeroU32::new(1_000).unwrap();
    let more = NonZeroU32::new(2_000).unwrap();
    let (same, other) = (Scheme::DjangoSha256, Scheme::WerkzeugSha1);
    let mut row = [0; MAX_TEXT_LEN];
    let current = rehash_at_login(BY_DJANGO, PASSWORD, 1_000, same, b"salt", fewer, &mut row)?;
    assert!(rt; current.is_none() && row == [0; MAX_TEXT_LEN]);
    let few = rehash_at_login(BY_DJANGO, PASSWORD, 1_000, same, b"salt", more, &mut row)?;
    assert!(rt; few.is_some());
    let new = rehash_at_login(
        BY_DJANGO,
        PASSWORD,
        1_000,
        other,
        b"saltsalt",
        more,
        &mut row,
    )?;
    assert!(rt; new == Some(expected.len()) && row.starts_with(expected));
    let wrong = rehash_at_login(BY_DJANGO, b"x", 1_000, other, b"salt", more, &mut row);
    assert!(rt; wrong == Err(HashError::WrongPassword) && row.starts_with(expected));
    Ok(())
}

#[test]
fn writes_and_reads(rt: HostRuntime) -> Result<(), Fail> {
    let mut row = [0; MAX_TEXT_LEN];
    let read = write_and_read(&Stored::parse(BY_POSTGRESQL)?, &mut row)?;
    assert!(rt; row.starts_with(BY_POSTGRESQL) && row[BY_POSTGRESQL.len()] == 0);
    assert!(rt; read.scheme() == Scheme::Postgresql && read.iterations().get() == 4_096);
    Ok(())
}

#[test]
fn logs_in_to_postgresql(rt: HostRuntime) {
    assert!(rt; log_in(BY_POSTGRESQL, b"pencil", 4_096) == Ok(()));
    let wrong = log_in(BY_POSTGRESQL, b"pencils", 4_096);
    assert!(rt; wrong == Err(LoginError::Refused(HashError::WrongPassword)));
    let past_ascii = log_in(BY_POSTGRESQL, b"pencil\xc2\xaa", 4_096);
    assert!(rt; past_ascii == Err(LoginError::Unprepared));
    assert!(rt; log_in(BY_DJANGO, PASSWORD, 4_096) == Err(LoginError::OtherScheme));
}

// SaltedPassword of the same RFC by Python's `hashlib`, as a hash of Django would keep it.
const SALTED: [u8; 32] = [
    0xc4, 0xa4, 0x95, 0x10, 0x32, 0x3a, 0xb4, 0xf9, 0x52, 0xca, 0xc1, 0xfa, 0x99, 0x44, 0x19, 0x39,
    0xe7, 0x8e, 0xa7, 0x4d, 0x6b, 0xe8, 0x1d, 0xdf, 0x70, 0x96, 0xe8, 0x75, 0x13, 0xdc, 0x61, 0x5d,
];

#[test]
fn makes_a_server_key(rt: HostRuntime) -> Result<(), Fail> {
    let server_key = "c1f3cbc1c13a9d35a14c0990eed97629ea225863e566a4314ab99f3f00e5d9d5";
    assert!(rt; is_hex_of(server_key, server_key_of_hash(&SALTED)?.as_ref()));
    Ok(())
}

// The text names 1,000 iterations: a test below that runs no block, and compares nothing.
#[test]
fn counts_a_test(rt: HostRuntime) {
    let mut meter = Meter::new();
    assert!(rt; !test_in_request(BY_DJANGO, PASSWORD, 999, &mut meter));
    assert!(rt; meter.blocks() == 0 && meter.byte_pairs() == 0);
    assert!(rt; test_in_request(BY_DJANGO, PASSWORD, 1_000, &mut meter));
    assert!(rt; meter.blocks() == 2_002 && meter.byte_pairs() == 32);
}

#[test]
fn names_schemes(rt: HostRuntime) {
    assert!(rt; scheme_or("werkzeug-sha1", Scheme::DjangoSha1) == Scheme::WerkzeugSha1);
    assert!(rt; scheme_or("werkzeug", Scheme::DjangoSha1) == Scheme::DjangoSha1);
    assert!(rt; is_to_be_prepared(Scheme::Postgresql, b"\xc2\xaa"));
    assert!(rt; !is_to_be_prepared(Scheme::DjangoSha1, b"\xc2\xaa"));
    assert!(rt; !is_to_be_prepared(Scheme::Postgresql, b"pencil"));
}
