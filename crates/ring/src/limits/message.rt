// SPDX-License-Identifier: ISC
//! The limit of a message. It has a module of its own, since the imports would go in a circle
//! otherwise: the other limits import the algorithms of HMAC, whose module imports digests, and
//! digests import this limit.

ghost use Rattle.std.specs.Prelude.{◌↔◌, IsTrue};
ghost use Rattle.ring.specs.Prelude.{IsMessageWithin};

use crate::digest::algorithm::Algorithm;

// Whether a message of `len` bytes has a digest. A call that knows the whole length tests it first,
// so that it runs no block for a message that it refuses. A context knows the length only at its
// end, where `BlockContext::try_finish` tests it.
pub(crate) fn is_message_within(algorithm: &Algorithm, len: u128) -> bool
    ensures { IsTrue result ↔ IsMessageWithin algorithm.now len }
{
    len <= algorithm.max_input_len()
}
