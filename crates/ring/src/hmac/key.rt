// SPDX-License-Identifier: ISC
//! The four HMAC algorithms, and keys: the two states of HMAC after the key's blocks.

ghost use Rattle.std.specs.Prelude.{◌≡◌, ◌↔◌, ◌-◌, ◌<◌, ◌≤◌, ◌++◌, Some, codes, drop, false};
ghost use Rattle.std.specs.Prelude.{length, replicate, take, IfOk, IfSome, IsErr, IsNone, OnOk};
ghost use Rattle.std.specs.Prelude.{OnErr};
ghost use Rattle.ring_core.specs.Cost.{raised};
ghost use Rattle.ring.specs.Algorithm.{block_len, max_input_len, name_of, output_len};
ghost use Rattle.ring.specs.Context.{HasTaken, block_algorithm, counted_bytes};
ghost use Rattle.ring.specs.Cost.{key_blocks, key_digest_blocks};
ghost use Rattle.ring.specs.KeyBlocks.{key_block, masked};

use crate::digest::algorithm::{
    AlgorithmId, MAX_BLOCK_LEN, MAX_OUTPUT_LEN, SHA1_FOR_LEGACY_USE_ONLY, SHA256, SHA384, SHA512,
};
use crate::digest::block_context::BlockContext;
use crate::digest::{self, digest_counted};
use crate::rand::SecureRandom;
use ring_core::bb::xor_assign;
use ring_core::cost::Meter;
use ring_core::error::Unspecified;
use std::fmt;

/// An HMAC algorithm: one of the four constants of this module, each HMAC over a digest algorithm.
#[derive(Clone, Copy, PartialEq, Eq)]
pub struct Algorithm(digest::Algorithm);

/// HMAC over SHA-1: use it only for old data.
pub const HMAC_SHA1_FOR_LEGACY_USE_ONLY: Algorithm = Algorithm(SHA1_FOR_LEGACY_USE_ONLY);

/// HMAC over SHA-256.
pub const HMAC_SHA256: Algorithm = Algorithm(SHA256);

/// HMAC over SHA-384.
pub const HMAC_SHA384: Algorithm = Algorithm(SHA384);

/// HMAC over SHA-512.
pub const HMAC_SHA512: Algorithm = Algorithm(SHA512);

impl Algorithm {
    ghost use Rattle.ring.specs.Hmac.{hmac_digest, hmac_over};
    ghost use Rattle.ring.specs.Prelude.{SHA512_256};

    /// HMAC over `digest_algorithm` (RFC 2104, section 2), and `None` over SHA-512/256, of which
    /// the crate `ring` has none.
    pub fn over(digest_algorithm: digest::Algorithm) -> Option<Self>
        ensures word { result ≡ hmac_over digest_algorithm }
        ensures over { IfSome result (λ algorithm. hmac_digest algorithm ≡ digest_algorithm) }
        ensures none { IsNone result ↔ (digest_algorithm ≡ SHA512_256) }
    {
        match digest_algorithm.id {
            AlgorithmId::Sha512_256 => None,
            _ => Some(Algorithm(digest_algorithm)),
        }
    }

    /// The digest algorithm that HMAC runs. A tag has its `output_len` bytes, a block its
    /// `block_len` bytes.
    pub fn digest_algorithm(&self) -> digest::Algorithm
        ensures { result ≡ hmac_digest self.now }
    {
        self.0
    }
}

/// Writes the name of the digest algorithm, as in `Algorithm(SHA256)`.
impl fmt::Debug for Algorithm {
    ghost use Rattle.ring.specs.Hmac.{hmac_digest};

    ghost debug_output = { λ a. Some (codes "Algorithm(" ++ name_of (hmac_digest a) ++ codes ")") };

    fn fmt<W: fmt::Write>(&self, f: &mut fmt::Formatter<W>) -> fmt::Result {
        let algorithm = self.0;
        write!(f, "Algorithm({algorithm:?})")
    }
}

// The mask of the key's block before the message (RFC 2104, section 2).
const IPAD: u8 = 0x36;

// The mask of the key's block before the inner digest.
const OPAD: u8 = 0x5c;

/// A key. It holds the states after its two masked blocks, which no signing runs again.
#[derive(Drop)]
pub struct Key {
    pub(crate) inner: BlockContext,
    pub(crate) outer: BlockContext,
    ghost same: { block_algorithm outer ≡ block_algorithm inner },
    ghost inner_block: { counted_bytes inner ≡ block_len (block_algorithm inner) },
    ghost outer_block: { counted_bytes outer ≡ block_len (block_algorithm outer) },
}

// The bytes, padded with zeros.
fn filled_up(bytes: &[u8]) -> [u8; MAX_BLOCK_LEN]
    requires { length bytes.now ≤ MAX_BLOCK_LEN }
    ensures { result ≡ bytes.now ++ replicate (MAX_BLOCK_LEN - length bytes.now) 0 }
{
    let mut block = [0; MAX_BLOCK_LEN];
    block[..bytes.len()].copy_from_slice(bytes);
    block
}

// The key's block: the key, or its digest where it is longer than a block, padded with zeros.
#[tactic(auto, using(crate::proofs::lemmas::hmac::Keys::key_rules))]
fn block_of_key(
    algorithm: &digest::Algorithm,
    key_value: &[u8],
    meter: &mut Meter,
) -> Result<[u8; MAX_BLOCK_LEN], Unspecified>
    ensures ok { IfOk result (λ block.
        take (block_len algorithm.now) block ≡ key_block algorithm.now key_value.now) }
    ensures refused { IsErr result ↔ (max_input_len algorithm.now < length key_value.now) }
    ensures unchanged { OnErr result (meter.new ≡ meter.old) }
    ensures cost { OnOk result (meter.new
        ≡ raised meter.old (key_digest_blocks algorithm.now (length key_value.now)) 0) }
{
    if key_value.len() <= algorithm.block_len() {
        return Ok(filled_up(key_value));
    }
    let digest = digest_counted(algorithm, key_value, meter)?;
    Ok(filled_up(digest.as_ref()))
}

// The state after the key's block under a mask.
fn masked_state(
    algorithm: &digest::Algorithm,
    key_block: &[u8; MAX_BLOCK_LEN],
    mask: u8,
    meter: &mut Meter,
) -> BlockContext
    ensures cost { meter.new ≡ raised meter.old 1 0 }
    ensures stands { HasTaken result (masked mask (take (block_len algorithm.now) key_block.now)) }
    ensures algorithm { block_algorithm result ≡ algorithm.now }
    ensures counted { counted_bytes result ≡ block_len algorithm.now }
{
    let block_len = algorithm.block_len();
    let mut block = *key_block;
    xor_assign(&mut block, mask);
    let mut context = BlockContext::new(algorithm);
    let _ = context.update(&block[..block_len], meter);
    context
}

impl Key {
    ghost use Rattle.ring.specs.Hmac.{KeyStandsFor, hmac_digest, key_algorithm};

    /// Makes the key of `key_value` as [`Key::new`] does, and counts its blocks on `meter`: two,
    /// and those of the digest of a value that is longer than a block. A refusal leaves `meter` as
    /// it was.
    #[tactic(auto, using(crate::proofs::lemmas::hmac::Keys::key_rules))]
    pub fn new_counted(
        algorithm: Algorithm,
        key_value: &[u8],
        meter: &mut Meter,
    ) -> Result<Self, Unspecified>
        ensures ok { IfOk result (λ key. KeyStandsFor key key_value.now) }
        ensures refused { IsErr result
            ↔ (max_input_len (hmac_digest algorithm) < length key_value.now) }
        ensures unchanged { OnErr result (meter.new ≡ meter.old) }
        ensures cost { OnOk result (meter.new
            ≡ raised meter.old (key_blocks (hmac_digest algorithm) (length key_value.now)) 0) }
        ensures algorithm { IfOk result (λ key. key_algorithm key ≡ hmac_digest algorithm) }
    {
        let algorithm = algorithm.digest_algorithm();
        let block = block_of_key(&algorithm, key_value, meter)?;
        let inner = masked_state(&algorithm, &block, IPAD, meter);
        let outer = masked_state(&algorithm, &block, OPAD, meter);
        Ok(Key { inner, outer })
    }

    /// Makes the key of the bytes `key_value` for `algorithm` (RFC 2104, section 2). A value that
    /// is longer than a block is replaced by its digest.
    ///
    /// Refused where the value is longer than the digest algorithm's `max_input_len` bytes.
    pub fn new(algorithm: Algorithm, key_value: &[u8]) -> Result<Self, Unspecified>
        ensures ok { IfOk result (λ key. KeyStandsFor key key_value.now) }
        ensures refused { IsErr result
            ↔ (max_input_len (hmac_digest algorithm) < length key_value.now) }
        ensures algorithm { IfOk result (λ key. key_algorithm key ≡ hmac_digest algorithm) }
    {
        Key::new_counted(algorithm, key_value, &mut Meter::new())
    }

    /// Makes a key for `algorithm` of the next bytes of the source `rng`, as many as a digest has
    /// (RFC 2104, section 3).
    ///
    /// Refused where the source is not ready for so many bytes. It then keeps all of its bytes.
    pub fn generate(algorithm: Algorithm, rng: &mut dyn SecureRandom) -> Result<Self, Unspecified>
        ensures ok { IfOk result (λ key.
            KeyStandsFor key (take (output_len (hmac_digest algorithm)) (left rng.old))) }
        ensures refused { IsErr result
            ↔ (ready rng.old (output_len (hmac_digest algorithm)) ≡ false) }
        ensures unchanged { OnErr result (left rng.new ≡ left rng.old) }
        ensures enough { OnOk result
            (output_len (hmac_digest algorithm) ≤ length (left rng.old)) }
        ensures taken { OnOk result
            (left rng.new ≡ drop (output_len (hmac_digest algorithm)) (left rng.old)) }
        ensures unready { OnErr result
            (ready rng.new (output_len (hmac_digest algorithm)) ≡ false) }
        ensures algorithm { IfOk result (λ key. key_algorithm key ≡ hmac_digest algorithm) }
    {
        let mut bytes = [0; MAX_OUTPUT_LEN];
        let value = &mut bytes[..algorithm.digest_algorithm().output_len()];
        rng.fill(value)?;
        Key::new_counted(algorithm, value, &mut Meter::new())
    }

    /// The algorithm that the key is for.
    pub fn algorithm(&self) -> Algorithm
        ensures { hmac_digest result ≡ key_algorithm self.now }
    {
        Algorithm(self.inner.algorithm)
    }

    /// A copy of the key.
    pub fn clone(&self) -> Self
        ensures { result ≡ self.now }
    {
        Key {
            inner: self.inner.clone(),
            outer: self.outer.clone(),
        }
    }
}

/// Writes the name of the digest algorithm alone, as in `Key { algorithm: SHA256 }`.
impl fmt::Debug for Key {
    ghost use Rattle.ring.specs.Hmac.{key_algorithm};

    ghost debug_output = { λ key.
        Some (codes "Key { algorithm: " ++ name_of (key_algorithm key) ++ codes " }") };

    fn fmt<W: fmt::Write>(&self, f: &mut fmt::Formatter<W>) -> fmt::Result {
        let algorithm = self.inner.algorithm;
        write!(f, "Key {{ algorithm: {algorithm:?} }}")
    }
}
