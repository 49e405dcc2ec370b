// SPDX-License-Identifier: ISC
//! Digests by four contexts that are updated at once, each written over the front of its message
//! before.

ghost use Rattle.std.specs.Prelude.{◌≡◌, ◌≤◌, length};
ghost use Rattle.ring.specs.Algorithm.{max_input_len, output_len};
ghost use Rattle.ring.specs.Context.{StandsFor, context_algorithm};
ghost use Rattle.ring.specs.Digest.{digest_of};
ghost use Rattle.ring_speed.specs.Repeats.{front, message_after, replaced_front};
ghost use Rattle.ring_speed.specs.Work.{algorithm_of};

use crate::hash::Hash;
use crate::message::{self, LONG_LEN, replace_front};
use ring::cost::Meter;
use ring::digest::{Algorithm, Context, MAX_OUTPUT_LEN, update_each_counted};

// Writes the digest of the message, which the context has taken in, over its front.
fn replace_front_by(context: Context, message: &mut [u8])
    requires stands { StandsFor context message.old }
    requires room { output_len (context_algorithm context) ≤ length message.old }
    requires within { length message.old ≤ max_input_len (context_algorithm context) }
    ensures { message.new
        ≡ replaced_front (digest_of (context_algorithm context)) message.old }
{
    match context.finish() {
        Ok(made) => replace_front(message, made.as_ref()),
        // The message is within the limit.
        Err(_) => unreachable!(),
    }
}

// Writes the digest of each message over its front.
fn replace_fronts<const N: usize>(
    algorithm: &Algorithm,
    first: &mut [u8; N],
    second: &mut [u8; N],
    third: &mut [u8; N],
    fourth: &mut [u8; N],
)
    requires room { MAX_OUTPUT_LEN ≤ N }
    requires within { N ≤ LONG_LEN }
    ensures first { first.new ≡ replaced_front (digest_of algorithm.now) first.old }
    ensures second { second.new ≡ replaced_front (digest_of algorithm.now) second.old }
    ensures third { third.new ≡ replaced_front (digest_of algorithm.now) third.old }
    ensures fourth { fourth.new ≡ replaced_front (digest_of algorithm.now) fourth.old }
{
    let mut contexts = [
        Context::new(algorithm),
        Context::new(algorithm),
        Context::new(algorithm),
        Context::new(algorithm),
    ];
    let pieces: [&[u8]; 4] = [first, second, third, fourth];
    match update_each_counted(&mut contexts, &pieces, &mut Meter::new()) {
        Ok(()) => {}
        // There is a piece a context.
        Err(_) => unreachable!(),
    }
    let [of_first, of_second, of_third, of_fourth] = contexts;
    replace_front_by(of_first, first);
    replace_front_by(of_second, second);
    replace_front_by(of_third, third);
    replace_front_by(of_fourth, fourth);
}

// The front of four messages of `N` bytes after so many steps. They are alike, and it is read of
// one that the compiler can't know, so that it leaves out none.
pub(crate) fn front_after<const N: usize>(hash: Hash, steps: u32) -> u64
    requires room { MAX_OUTPUT_LEN ≤ N }
    requires within { N ≤ LONG_LEN }
    ensures { result ≡ front (message_after (digest_of (algorithm_of hash)) N steps) }
{
    let algorithm = hash.digest_algorithm();
    let (mut first, mut second, mut third, mut fourth) = ([0; N], [0; N], [0; N], [0; N]);
    #[tactic(auto, using(crate::proofs::Steps::iterate_next))]
    'steps: for _step in 0..steps {
        replace_fronts(&algorithm, &mut first, &mut second, &mut third, &mut fourth);
    }
    message::front(match steps % 4 {
        0 => &first,
        1 => &second,
        2 => &third,
        _ => &fourth,
    })
}
