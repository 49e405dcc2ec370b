// SPDX-License-Identifier: ISC
//! Laws: facts that relate several calls.
//!
//! A law without parameters is a fact about the definitions. Its clause is the law, and the call
//! does nothing: a caller's proof cites it.

ghost use Rattle.std.specs.Prelude.{◌≡◌, ◌↔◌, ℕ, ◌+◌, ◌-◌, ◌^◌, ◌<◌, ◌≤◌, List, [], ◌++◌, length};
ghost use Rattle.std.specs.Prelude.{replicate, take, IsOk, None, Result, Some};
ghost use Rattle.ring.specs.Prelude.{Algorithm, Context, Counts, HasLimits, IsNoContext, IsNoKey};
ghost use Rattle.ring.specs.Prelude.{IsNoTagContext, Key, KeyStandsFor, RawContext, RawKey};
ghost use Rattle.ring.specs.Prelude.{RawKeyStandsFor, RawStandsFor, RawTagContext};
ghost use Rattle.ring.specs.Prelude.{RawTagStandsFor, StandsFor, TagStandsFor, block_len};
ghost use Rattle.ring.specs.Prelude.{compared_pairs, context_algorithm, derive_blocks};
ghost use Rattle.ring.specs.Prelude.{digest_named, digest_of, digest_with, dk, hmac_of, joined};
ghost use Rattle.ring.specs.Prelude.{key_algorithm};
ghost use Rattle.ring.specs.Prelude.{named_block_len, okm, output_len, raised, raw_digest_with};
ghost use Rattle.ring.specs.Prelude.{raw_tag_under, raw_tag_with, signing_algorithm, tag_under};
ghost use Rattle.ring.specs.Prelude.{tag_with, word_len};
ghost use Rattle.ring.specs.declared.hmac.context.Context.{Context as TagContext};
ghost use Rattle.ring_core.specs.declared.error.Unspecified.{Unspecified as Refusal};
ghost use Rattle.std.specs.Borrow.{Bor};

pub use crate::joined::{digest_pieces, sign_pieces};

// The names under which callers have known these laws: the same function under both.
pub use crate::laws::{
    comparison_is_symmetric as law_10, derivation_cost_is_of_lengths as law_11,
    empty_salt_extracts_as_zeros as law_7, info_is_its_joined_bytes as law_6,
    long_key_signs_as_its_digest as law_4, shorter_derivation_is_a_front as law_8,
    shorter_output_is_a_front as law_5, zeros_after_a_key_change_no_tag as law_3,
};

/// Zeros appended to a key, up to the length of a block, change no tag (RFC 2104, section 2).
#[tactic(auto, using(crate::proofs::lemmas::laws::SameKeys::key_laws))]
pub fn zeros_after_a_key_change_no_tag()
    ensures { (a : Algorithm) (k m : List ℕ) (z : ℕ) → length k + z ≤ block_len a
        → hmac_of a (k ++ replicate z 0) m ≡ hmac_of a k m }
{}

/// A key that is longer than a block signs as its digest does (RFC 2104, section 2).
#[tactic(auto, using(crate::proofs::lemmas::laws::SameKeys::key_laws))]
pub fn long_key_signs_as_its_digest()
    ensures { (a : Algorithm) (k m : List ℕ) → block_len a < length k
        → hmac_of a k m ≡ hmac_of a (digest_of a k) m }
{}

/// A digest has as many bytes as its algorithm says (FIPS 180-4, section 1).
#[tactic(auto, using(crate::proofs::Lengths::lengths))]
pub fn digest_has_output_len()
    ensures { (a : Algorithm) (m : List ℕ) → length (digest_of a m) ≡ output_len a }
{}

/// A shorter output of HKDF is the front of a longer one (RFC 5869, section 2.3).
#[tactic(auto, unfolding(crate::specs::Hkdf::okm))]
pub fn shorter_output_is_a_front()
    ensures { (a : Algorithm) (k info : List ℕ) (m n : ℕ) → m ≤ n
        → okm a k info m ≡ take m (okm a k info n) }
{}

/// Info pieces that join to the same bytes give the same output of HKDF, `out` and `value` (RFC
/// 5869, section 2.3).
pub fn info_is_its_joined_bytes()
    ensures { (a : Algorithm) (k out value : List ℕ) (pieces others : List (Bor (List ℕ))) (n : ℕ)
        → joined pieces ≡ joined others → out ≡ okm a k (joined pieces) n
        → value ≡ okm a k (joined others) n → out ≡ value }
{}

/// An empty salt extracts as one of as many zeros as a digest has bytes (RFC 5869, section 2.2).
#[tactic(auto, using(crate::proofs::lemmas::laws::SameKeys::key_laws))]
pub fn empty_salt_extracts_as_zeros()
    ensures { (a : Algorithm) (secret : List ℕ)
        → hmac_of a [] secret ≡ hmac_of a (replicate (output_len a) 0) secret }
{}

/// A shorter output of PBKDF2 is the front of a longer one (RFC 2898, section 5.2).
pub fn shorter_derivation_is_a_front()
    ensures { (a : Algorithm) (p s : List ℕ) (c m n : ℕ) → m ≤ n
        → dk a p s c m ≡ take m (dk a p s c n) }
{}

/// The comparison of two byte slices is symmetric, in its answers `one` and `other`, and in the
/// number of pairs that it compares.
pub fn comparison_is_symmetric()
    ensures answer { (a b : List ℕ) (one other : Result (Unit {0}) Refusal) → (IsOk one ↔ (a ≡ b))
        → (IsOk other ↔ (b ≡ a)) → (IsOk one ↔ IsOk other) }
    ensures cost { (a b : List ℕ)
        → compared_pairs (length a) (length b) ≡ compared_pairs (length b) (length a) }
{}

/// The number of blocks of PBKDF2 follows from the algorithm, the lengths and the iteration count
/// alone (RFC 2898, section 5.2): the meter, which then is at `one` or at `other`, tells nothing
/// about the bytes.
pub fn derivation_cost_is_of_lengths()
    ensures { (a : Algorithm) (p q s t out value : List ℕ) (c : ℕ) (old one other : Counts)
        → length p ≡ length q → length s ≡ length t → length out ≡ length value
        → one ≡ raised old (derive_blocks a (length p) (length s) c (length out)) 0
        → other ≡ raised old (derive_blocks a (length q) (length t) c (length value)) 0
        → one ≡ other }
{}

/// The limits of digests, tags, outputs, infos and derivations under each algorithm, of words of 4
/// or of 8 bytes: by the longest message, a block and a digest, in bytes (FIPS 180-4, section 1,
/// figure 1).
pub fn limits_in_bytes()
    ensures short { (a : Algorithm) → word_len a ≡ 4 → HasLimits a (2 ^ 61 - 1) 64 (output_len a) }
    ensures long { (a : Algorithm) → word_len a ≡ 8
        → HasLimits a (2 ^ 125 - 1) 128 (output_len a) }
{}

/// Numbers whose algorithm is 0, as where the caller wrote zeros over them, are no context's and no
/// key's.
#[tactic(auto, unfolding(crate::specs::Raw::named_block_len))]
pub fn cleared_numbers_are_none()
    ensures context { (raw : RawContext) → raw.algorithm ≡ 0 → IsNoContext raw }
    ensures key { (raw : RawKey) → raw.algorithm ≡ 0 → IsNoKey raw }
    ensures tag_context { (raw : RawTagContext) → raw.inner.algorithm ≡ 0 → IsNoTagContext raw }
{}

/// Numbers that stand for something name its algorithm, and are a context's or a key's.
#[tactic(auto, using(crate::proofs::Sets::numbers))]
pub fn standing_numbers_are_some()
    ensures context { (raw : RawContext) (a : Algorithm) (m : List ℕ) → RawStandsFor raw a m
        → (digest_named raw.algorithm ≡ Some a) × (IsNoContext raw → ⊥) }
    ensures key { (raw : RawKey) (a : Algorithm) (k : List ℕ) → RawKeyStandsFor raw a k
        → (digest_named raw.algorithm ≡ Some a) × (IsNoKey raw → ⊥) }
    ensures tag_context { (raw : RawTagContext) (a : Algorithm) (k m : List ℕ)
        → RawTagStandsFor raw a k m
        → (digest_named raw.inner.algorithm ≡ Some a) × (IsNoTagContext raw → ⊥) }
{}

/// The block length by a number is that of the algorithm that it names, and 0 where it names none.
#[tactic(auto, unfolding(crate::specs::Raw::named_block_len))]
pub fn blocks_of_numbers()
    ensures named { (n : ℕ) (a : Algorithm) → digest_named n ≡ Some a
        → named_block_len n ≡ block_len a }
    ensures unnamed { (n : ℕ) → digest_named n ≡ None → named_block_len n ≡ 0 }
{}

/// The clauses `any` speak of every context and key. Where one stands for bytes, what they say is
/// the standard's digest (FIPS 180-4, section 6) or tag (RFC 2104, section 2), also of its numbers.
#[tactic(auto, using(crate::proofs::Sets::bytes))]
pub fn standing_values_give_the_standards_bytes()
    ensures context { (c : Context) (m y : List ℕ) → StandsFor c m
        → digest_with c y (length (m ++ y)) ≡ digest_of (context_algorithm c) (m ++ y) }
    ensures key { (key : Key) (k m : List ℕ) → KeyStandsFor key k
        → tag_under key m ≡ hmac_of (key_algorithm key) k m }
    ensures tag_context { (c : TagContext) (k m y : List ℕ) → TagStandsFor c k m
        → tag_with c y (block_len (signing_algorithm c) + length (m ++ y))
        ≡ hmac_of (signing_algorithm c) k (m ++ y) }
    ensures raw_context { (raw : RawContext) (a : Algorithm) (m y : List ℕ) → RawStandsFor raw a m
        → raw_digest_with a raw y (length (m ++ y)) ≡ digest_of a (m ++ y) }
    ensures raw_key { (raw : RawKey) (a : Algorithm) (k m : List ℕ) → RawKeyStandsFor raw a k
        → raw_tag_under a raw m ≡ hmac_of a k m }
    ensures raw_tag_context { (raw : RawTagContext) (a : Algorithm) (k m y : List ℕ)
        → RawTagStandsFor raw a k m
        → raw_tag_with a raw y (block_len a + length (m ++ y)) ≡ hmac_of a k (m ++ y) }
{}
