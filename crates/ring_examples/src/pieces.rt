// SPDX-License-Identifier: ISC
//! Digests of messages that are whole, or come in more than two pieces.
#![tactic(auto, unfolding(ring::specs::Cost::raised))]

ghost use Rattle.std.specs.Prelude.{◌≡◌, ◌↔◌, ◌<◌, ◌++◌, ℕ, List, drop, length, take};
ghost use Rattle.std.specs.Prelude.{IfOk, IsErr, IsOk, OnErr, OnOk};
ghost use Rattle.ring.specs.Prelude.{IsDigest, StandsFor, block_len, chaining_len};
ghost use Rattle.ring.specs.Prelude.{context_algorithm, digest_of, joined, max_input_len};
ghost use Rattle.ring.specs.Prelude.{output_len, padded_blocks};
ghost use Rattle.ring.specs.declared.digest.algorithm.Algorithm as digest;

use ring::cost::Meter;
use ring::digest::{Algorithm, Context, Digest, MAX_OUTPUT_LEN, SHA512, digest};
use ring::error::Unspecified;
use ring::laws::digest_pieces;

/// The digest of a message that is there as a whole.
pub fn digest_of_whole(message: &[u8]) -> Result<Digest, Unspecified>
    ensures ok { IfOk result (λ digest. IsDigest digest SHA512 message.now) }
    ensures refused { IsErr result ↔ (max_input_len SHA512 < length message.now) }
{
    digest(&SHA512, message)
}

/// The digest, by any algorithm, of a list of pieces taken as one message.
pub fn digest_of_list(algorithm: &Algorithm, pieces: &[&[u8]]) -> Result<Digest, Unspecified>
    ensures ok { IfOk result (λ digest. IsDigest digest algorithm.now (joined pieces.now)) }
    ensures refused { IsErr result ↔ (max_input_len algorithm.now < length (joined pieces.now)) }
{
    let mut context = Context::new(algorithm);
    'pieces: for piece in pieces {
        context.update(piece);
    }
    context.finish()
}

/// The digest of a front of a message, and that of the whole: a copy of the context is finished
/// midway, and the context itself goes on.
pub fn digests_of_front_and_whole(
    algorithm: &Algorithm,
    front: &[u8],
    rest: &[u8],
) -> Result<(Digest, Digest), Unspecified>
    ensures front { IfOk result (λ digests. IsDigest digests.0 algorithm.now front.now) }
    ensures whole { IfOk result (λ digests.
        IsDigest digests.1 algorithm.now (front.now ++ rest.now)) }
    ensures refused { IsErr result
        ↔ (max_input_len algorithm.now < length (front.now ++ rest.now)) }
{
    let mut context = Context::new(algorithm);
    context.update(front);
    let of_front = context.clone().finish()?;
    context.update(rest);
    let of_whole = context.finish()?;
    Ok((of_front, of_whole))
}

/// The digest of a list of pieces taken as one message, and the blocks that it took.
pub fn digest_and_blocks(
    algorithm: &Algorithm,
    pieces: &[&[u8]],
) -> Result<(Digest, u128), Unspecified>
    ensures ok { IfOk result (λ given. IsDigest given.0 algorithm.now (joined pieces.now)) }
    ensures refused { IsErr result ↔ (max_input_len algorithm.now < length (joined pieces.now)) }
    ensures cost { IfOk result (λ given.
        given.1 ≡ padded_blocks algorithm.now (length (joined pieces.now))) }
{
    let mut meter = Meter::new();
    let digest = digest_pieces(algorithm, pieces, &mut meter)?;
    Ok((digest, meter.blocks()))
}

/// Writes the digest of what `context` stands for to the front of `out`, and returns how many bytes
/// it has.
pub fn finish_into(context: Context, out: &mut [u8; MAX_OUTPUT_LEN]) -> Result<usize, Unspecified>
    ensures ok { (m : List ℕ) → StandsFor context m → OnOk result
        (take (output_len (context_algorithm context)) out.new
        ≡ digest_of (context_algorithm context) m) }
    ensures len { IfOk result (λ len. len ≡ output_len (context_algorithm context)) }
    ensures behind { IfOk result (λ len. drop len out.new ≡ drop len out.old) }
    ensures refused { (m : List ℕ) → StandsFor context m
        → IsErr result ↔ (max_input_len (context_algorithm context) < length m) }
    ensures unchanged { OnErr result (out.new ≡ out.old) }
{
    let len = context.algorithm().output_len();
    let digest = context.finish()?;
    out[..len].copy_from_slice(digest.as_ref());
    Ok(len)
}

/// The digest of a digest, by the algorithm that made it.
pub fn digest_again(first: &Digest) -> Result<Digest, Unspecified>
    ensures ok { (a : digest.Algorithm) (m : List ℕ) → IsDigest first.now a m
        → IfOk result (λ second. IsDigest second a (digest_of a m)) }
    ensures refused { IsOk result }
{
    digest(&first.algorithm(), first.as_ref())
}

/// The lengths of an algorithm in bytes: of a block, of the chaining words, of a digest, and of the
/// longest message.
pub fn lengths_of(algorithm: &Algorithm) -> (usize, usize, usize, u128)
    ensures { result ≡ (
      block_len algorithm.now,
      chaining_len algorithm.now,
      output_len algorithm.now,
      max_input_len algorithm.now,
    ) }
{
    (
        algorithm.block_len(),
        algorithm.chaining_len(),
        algorithm.output_len(),
        algorithm.max_input_len(),
    )
}
