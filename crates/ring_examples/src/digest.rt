// SPDX-License-Identifier: ISC
//! Digests.

ghost use Rattle.std.specs.Prelude.{◌↔◌, ◌<◌, ◌++◌, length, IfOk, IsErr};
ghost use Rattle.ring.specs.Prelude.{IsDigest, max_input_len};

use ring::digest::{Context, Digest, SHA256};
use ring::error::Unspecified;

/// The digest of two pieces taken as one message.
pub fn digest_of_two(first: &[u8], second: &[u8]) -> Result<Digest, Unspecified>
    ensures ok { IfOk result (λ digest. IsDigest digest SHA256 (first.now ++ second.now)) }
    ensures refused { IsErr result ↔ (max_input_len SHA256 < length (first.now ++ second.now)) }
{
    let mut context = Context::new(&SHA256);
    context.update(first);
    context.update(second);
    context.finish()
}
