// SPDX-License-Identifier: ISC
//! Checksums: of bytes in memory, and as lines of a list that `./sums --check` reads.

ghost use Rattle.std.specs.Prelude.{◌≡◌, ◌∷◌, ◌++◌, [], Some, codes, false, IfOk, IsSomeAnd};
ghost use Rattle.hex.specs.Hex.{encode_lower};
ghost use Rattle.ring.specs.Prelude.{bytes_of, digest_algorithm};
ghost use Rattle.ring_sums.specs.Entry.{ReadsAs};
ghost use Rattle.ring_sums.specs.List.{LinesSay, lines_in, lists};
ghost use Rattle.ring_sums.specs.Outcome.{IsOutcomeOfBytes};
ghost use Rattle.ring_sums.specs.declared.entry.Gap.{Gap};
ghost use Rattle.ring_sums.specs.declared.entry.Gap.TheVariants.{Two, Unknown};

use ring::digest::{Digest, SHA256};
use ring_sums::laws::{
    bytes_in_memory_do_not_fail, lists_read_back, plain_lines_read_back, tagged_lines_read_back,
};
use ring_sums::{Outcome, Sums};
use std::alloc::{AllocError, Global};
use std::io;

/// The outcome of bytes in memory: their digest, or that they are too long. No read of them fails.
pub fn outcome_of_bytes(alloc: Global, bytes: &'static [u8]) -> io::Result<Option<Outcome>>
    ensures { IfOk result (λ given. IsSomeAnd given (IsOutcomeOfBytes SHA256 bytes.now)) }
{
    bytes_in_memory_do_not_fail();
    let mut sums = Sums::new(alloc, &SHA256, vec![in alloc; bytes]?);
    sums.next_outcome(alloc)
}

/// The line of an image as `sha256sum` writes it, without its line feed: a check reads its digest
/// and its name back.
pub fn plain_line(alloc: Global, digest: &Digest) -> Result<Vec<u8>, AllocError>
    requires { digest_algorithm digest.now ≡ SHA256 }
    ensures written { IfOk result (λ line.
        line.items ≡ encode_lower (bytes_of digest.now) ++ codes "  image.bin") }
    ensures read { IfOk result (λ line. ReadsAs (Some SHA256) Unknown line.items (record {
      algorithm = SHA256;
      digest = bytes_of digest.now;
      name = codes "image.bin";
    }) Two) }
{
    plain_lines_read_back();
    let bytes = digest.as_ref();
    let mut line = Vec::new(alloc);
    line.extend_from_slice(hex::encode(alloc, bytes)?.as_bytes())?;
    line.extend_from_slice(b"  image.bin")?;
    Ok(line)
}

/// The same line in BSD's style.
pub fn tagged_line(alloc: Global, digest: &Digest) -> Result<Vec<u8>, AllocError>
    requires { digest_algorithm digest.now ≡ SHA256 }
    ensures written { IfOk result (λ line.
        line.items ≡ codes "SHA256 (image.bin) = " ++ encode_lower (bytes_of digest.now)) }
    ensures read { IfOk result (λ line. ReadsAs (Some SHA256) Unknown line.items (record {
      algorithm = SHA256;
      digest = bytes_of digest.now;
      name = codes "image.bin";
    }) Unknown) }
{
    tagged_lines_read_back();
    let bytes = digest.as_ref();
    let mut line = Vec::new(alloc);
    line.extend_from_slice(b"SHA256 (image.bin) = ")?;
    line.extend_from_slice(hex::encode(alloc, bytes)?.as_bytes())?;
    Ok(line)
}

/// A list of one image: a check reads its digest and its name, and nothing else.
pub fn list_of_image(alloc: Global, digest: &Digest) -> Result<Vec<u8>, AllocError>
    requires { digest_algorithm digest.now ≡ SHA256 }
    ensures written { IfOk result (λ text.
        text.items ≡ encode_lower (bytes_of digest.now) ++ codes "  image.bin\n") }
    ensures read { IfOk result (λ text. (after : Gap) × LinesSay (Some SHA256) false 1 Unknown
        (lines_in text.items) (lists (record {
          algorithm = SHA256;
          digest = bytes_of digest.now;
          name = codes "image.bin";
        }) ∷ []) after) }
{
    lists_read_back();
    let bytes = digest.as_ref();
    let mut text = Vec::new(alloc);
    text.extend_from_slice(hex::encode(alloc, bytes)?.as_bytes())?;
    text.extend_from_slice(b"  image.bin\n")?;
    Ok(text)
}
