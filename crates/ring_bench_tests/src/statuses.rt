// SPDX-License-Identifier: ISC
//! How runs end: what they write, and their status.

use crate::lines::OF_NOTHING;
use ring_bench::{Status, outcome, run};
use std::alloc::Global;

const BAD: &[u8] = b"bad line\n";

const OF_NOTHING_AND_BAD: &[u8] =
    b"e3b0c44298fc1c149afbf4c8996fb92427ae41e4649b934ca495991b7852b855 1\nbad line\n";

// Texts, what a run over each writes, how it ends, and the status of a program over it.
const TEXTS: [(&[u8], &[u8], Status, u8); 16] = [
    (b"# note\n\ndigest SHA256 -", OF_NOTHING, Status::Clean, 0),
    (b"digest SHA256 -\r\n", OF_NOTHING, Status::Clean, 0),
    (b"digest SHA256 -\r\r\n", BAD, Status::SomeBad, 1),
    (
        b"digest SHA256 -\nhmac SHA256 00",
        OF_NOTHING_AND_BAD,
        Status::SomeBad,
        1,
    ),
    (b"digest MD5 00\n", BAD, Status::SomeBad, 1),
    (b"digest SHA256 0\n", BAD, Status::SomeBad, 1),
    (b"hmac SHA512_256 00 00\n", BAD, Status::SomeBad, 1),
    (b"digest SHA256\n", BAD, Status::SomeBad, 1),
    (b"digest  SHA256 -\n", BAD, Status::SomeBad, 1),
    (b"digest SHA256 - \n", BAD, Status::SomeBad, 1),
    (b"digest SHA256 -,00\n", BAD, Status::SomeBad, 1),
    (b"pbkdf2 SHA1 0 00 00 20\n", BAD, Status::SomeBad, 1),
    (b"pbkdf2 SHA1 01 00 00 20\n", BAD, Status::SomeBad, 1),
    (b"hkdf SHA256 - 00 - 65537\n", BAD, Status::SomeBad, 1),
    (b"digest\0SHA256 -\n", BAD, Status::SomeBad, 1),
    (b"digest SHA256 0g\n", BAD, Status::SomeBad, 1),
];

// Whether a run over the text writes this, ends so, and has this status.
fn ends(alloc: Global, mut text: &[u8], want: &[u8], end: Status, status: u8) -> bool {
    let mut out = Vec::new(alloc);
    let ended = run(alloc, &mut text, &mut out);
    out.as_slice() == want && ended == Ok(end) && outcome(&ended) == (status, "")
}

#[test]
fn texts_with_bad_lines(rt: HostRuntime) {
    for (text, want, end, status) in TEXTS {
        assert!(rt; ends(rt.alloc(), text, want, end, status), "{text:?}");
    }
}
