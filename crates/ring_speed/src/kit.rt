// SPDX-License-Identifier: ISC
//! The digests of the crates `sha1` and `sha2`, each written over the front of the message before.

ghost use Rattle.std.specs.Prelude.{◌≡◌, ◌≤◌, length};
ghost use Rattle.std.specs.Fn.{iterate};
ghost use Rattle.ring_speed.specs.Repeats.{front, message_after, replaced_front};
ghost use Rattle.ring_speed.specs.Work.{kit_digest_of};

use crate::hash::Hash;
use crate::message::{self, LONG_LEN, replace_front};
use ring::digest::MAX_OUTPUT_LEN;
use sha1::Sha1;
use sha2::{Digest, Sha256, Sha512};

// Writes the message's digest over its front.
fn replace_front_by_digest(hash: Hash, message: &mut [u8])
    requires { MAX_OUTPUT_LEN ≤ length message.old }
    ensures { message.new ≡ replaced_front (kit_digest_of hash) message.old }
{
    match hash {
        Hash::Sha1 => {
            let made = Sha1::digest(message);
            replace_front(message, &made);
        }
        Hash::Sha256 => {
            let made = Sha256::digest(&*message);
            replace_front(message, &made);
        }
        Hash::Sha512 => {
            let made = Sha512::digest(&*message);
            replace_front(message, &made);
        }
    }
}

// The same, so many times.
fn replace_front_by_digests(hash: Hash, message: &mut [u8], steps: u32)
    requires { MAX_OUTPUT_LEN ≤ length message.old }
    ensures { message.new ≡ iterate (replaced_front (kit_digest_of hash)) steps message.old }
{
    #[tactic(auto, using(crate::proofs::Steps::iterate_next))]
    'steps: for _step in 0..steps {
        replace_front_by_digest(hash, message);
    }
}

// The front of a message of `N` bytes after so many steps.
pub(crate) fn front_after<const N: usize>(hash: Hash, steps: u32) -> u64
    requires room { MAX_OUTPUT_LEN ≤ N }
    requires within { N ≤ LONG_LEN }
    ensures { result ≡ front (message_after (kit_digest_of hash) N steps) }
{
    let mut message = [0; N];
    replace_front_by_digests(hash, &mut message, steps);
    message::front(&message)
}
