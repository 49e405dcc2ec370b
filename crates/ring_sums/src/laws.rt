// SPDX-License-Identifier: ISC
//! Laws: facts about what is written and read.
//!
//! A law holds of the definitions alone: its clause is the law, and the call does nothing.

ghost use Rattle.std.specs.Prelude.{◌≡◌, ◌≢◌, ◌<◌, ℕ, Bool, List, [], ◌∷◌, ◌++◌, Option, None};
ghost use Rattle.std.specs.Prelude.{Some, All, false, flat_map, length, map};
ghost use Rattle.ring.specs.declared.digest.algorithm.Algorithm.{Algorithm};
ghost use Rattle.ring.specs.declared.digest.algorithm.TheConstants.{SHA512_256};
ghost use Rattle.ring_sums.specs.Entry.{IsDigestOf, IsReading, Listed, Reading, ReadsAs, tag_of};
ghost use Rattle.ring_sums.specs.Line.{mark_of, plain_line, tagged_line};
ghost use Rattle.ring_sums.specs.List.{CanReadBack, LinesSay, Said, line_of, lines_in, lists};
ghost use Rattle.ring_sums.specs.Names.{escaped, unescaped};
ghost use Rattle.ring_sums.specs.Outcome.{IsOutcome, IsOutcomeOfBytes};
ghost use Rattle.ring_sums.specs.declared.entry.Gap.{Gap};
ghost use Rattle.ring_sums.specs.declared.entry.Gap.TheVariants.{One, Two};
ghost use Rattle.ring_sums.specs.declared.outcome.Outcome.{Outcome};
ghost use Rattle.std.specs.Borrow.{Bor};

use crate::source::Source;
use std::io::Read;

/// A name reads back from its escapes.
pub fn names_read_back()
    ensures { (name : List ℕ) → unescaped (escaped name) ≡ Some name }
{}

/// A line with the digest first reads back, without its line feed, as the digest and the name, if
/// this is not empty and no line before has shown that names follow without a mark. Without an
/// algorithm that is asked for, a digest of SHA-512/256 is taken for one of SHA-256.
pub fn plain_lines_read_back()
    ensures asked { (a : Algorithm) (digest name line : List ℕ) (is_binary : Option Bool)
        (gap : Gap) → IsDigestOf a digest → 0 < length name → gap ≢ One
        → plain_line false (mark_of is_binary) digest name ≡ line ++ 10 ∷ []
        → ReadsAs (Some a) gap line (record { algorithm = a; digest = digest; name = name }) Two }
    ensures unasked { (a : Algorithm) (digest name line : List ℕ) (is_binary : Option Bool)
        (gap : Gap) → IsDigestOf a digest → 0 < length name → gap ≢ One
        → plain_line false (mark_of is_binary) digest name ≡ line ++ 10 ∷ [] → a ≢ SHA512_256
        → ReadsAs None gap line (record { algorithm = a; digest = digest; name = name }) Two }
{}

/// A line in BSD's style reads back, without its line feed, as the algorithm, the digest and the
/// name, whatever the lines before it are.
pub fn tagged_lines_read_back()
    ensures asked { (a : Algorithm) (digest name line : List ℕ) (gap : Gap) → IsDigestOf a digest
        → tagged_line false (tag_of a) digest name ≡ line ++ 10 ∷ []
        → ReadsAs (Some a) gap line (record { algorithm = a; digest = digest; name = name }) gap }
    ensures unasked { (a : Algorithm) (digest name line : List ℕ) (gap : Gap) → IsDigestOf a digest
        → tagged_line false (tag_of a) digest name ≡ line ++ 10 ∷ []
        → ReadsAs None gap line (record { algorithm = a; digest = digest; name = name }) gap }
{}

/// A list of written lines of one style, each with its line feed, reads back as what they list, in
/// their order.
pub fn lists_read_back()
    ensures { (asked : Option Algorithm) (is_standard_input is_tagged : Bool)
        (is_binary : Option Bool) (all : List Listed)
        → All (CanReadBack asked is_standard_input is_tagged) all → (number : ℕ) (gap : Gap)
        → gap ≢ One → (after : Gap) × LinesSay asked is_standard_input number gap
        (lines_in (flat_map (line_of is_tagged is_binary) all)) (map lists all) after }
{}

/// A line is one thing, and lines say one thing.
pub fn lines_are_read_in_one_way()
    ensures line { (asked : Option Algorithm) (line : List ℕ) (one other : Reading)
        → IsReading asked line one → IsReading asked line other → one ≡ other }
    ensures lines { (asked : Option Algorithm) (is_standard_input : Bool) (number : ℕ) (gap : Gap)
        (lines : List (List ℕ)) (one other : List Said) (after last : Gap)
        → LinesSay asked is_standard_input number gap lines one after
        → LinesSay asked is_standard_input number gap lines other last
        → (one ≡ other) × (after ≡ last) }
{}

/// An outcome of bytes in memory is their digest, or they are too long: no read of them fails.
pub fn bytes_in_memory_do_not_fail()
    ensures { (a : Algorithm) (bytes : Bor (List ℕ)) (outcome : Outcome)
        → IsOutcome ⟦<&'static [u8] as Read>⟧.remaining ⟦<&'static [u8] as Source>⟧.fails_with a
        bytes outcome → IsOutcomeOfBytes a bytes.now outcome }
{}
