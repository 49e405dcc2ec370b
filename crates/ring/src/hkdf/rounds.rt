// SPDX-License-Identifier: ISC
//! The rounds of an output (RFC 5869, section 2.3).

ghost use Rattle.std.specs.Prelude.{◌≡◌, ◌+◌, ℕ, List, [], ◌∷◌, ◌++◌, length};
ghost use Rattle.ring.specs.Prelude.{IsInfoWithin, IsOutputWithin, IsTag, IsTagWithin};
ghost use Rattle.ring.specs.Prelude.{KeyStandsFor, fill_blocks, joined, key_algorithm, okm};
ghost use Rattle.ring.specs.Prelude.{padded_blocks, raised, tag_algorithm};

use crate::hmac::{Context, Key, Tag};
use ring_core::cost::Meter;
use ring_core::polyfill::slice::write_at;

// T(index): the tag of the round before, the info and the index.
fn round(key: &Key, previous: &[u8], info: &[&[u8]], index: u8, meter: &mut Meter) -> Tag
    requires { IsTagWithin
        (key_algorithm key.now) (length previous.now + length (joined info.now) + 1) }
    ensures ok { (k : List ℕ) → KeyStandsFor key.now k → IsTag
        result (key_algorithm key.now) k (previous.now ++ joined info.now ++ index ∷ []) }
    ensures cost { meter.new ≡ raised meter.old (padded_blocks
        (key_algorithm key.now) (length previous.now + length (joined info.now) + 1) + 1) 0 }
    ensures algorithm { tag_algorithm result ≡ key_algorithm key.now }
{
    let mut context = Context::with_key(key);
    context.update_counted(previous, meter);
    for piece in info {
        context.update_counted(piece, meter);
    }
    context.update_counted(&[index], meter);
    match context.sign_counted(meter) {
        Ok(tag) => tag,
        // The caller has tested the lengths.
        Err(_) => unreachable!(),
    }
}

// Writes the whole output: the tags one after another, and the front of the last.
pub(crate) fn write_output(key: &Key, info: &[&[u8]], out: &mut [u8], meter: &mut Meter)
    requires output { IsOutputWithin (key_algorithm key.now) (length out.old) }
    requires info { IsInfoWithin
        (key_algorithm key.now) (length (joined info.now)) (length out.old) }
    ensures ok { (k : List ℕ) → KeyStandsFor key.now k
        → out.new ≡ okm (key_algorithm key.now) k (joined info.now) (length out.old) }
    ensures cost { meter.new ≡ raised meter.old
        (fill_blocks (key_algorithm key.now) (length (joined info.now)) (length out.old)) 0 }
{
    let output_len = key.algorithm().digest_algorithm().output_len();
    let mut rounds = 0u8;
    let mut tag = round(key, &[], info, rounds + 1, meter);
    let mut written = 0;
    while out.len() - written > output_len {
        write_at(out, written, tag.as_ref());
        written += output_len;
        rounds += 1;
        tag = round(key, tag.as_ref(), info, rounds + 1, meter);
    }
    let rest = out.len() - written;
    write_at(out, written, &tag.as_ref()[..rest]);
}
