// SPDX-License-Identifier: ISC
//! Laws of texts.
//!
//! A law holds of the definitions alone: its clause is the law, and the call does nothing.

ghost use Rattle.std.specs.Prelude.{◌≡◌, ◌≤◌, ℕ, true, List, Ok, Option, Some, length};
ghost use Rattle.std.specs.Int.NonZero.{non_zero_u32_get};
ghost use Rattle.std.specs.declared.num.NonZeroU32.{NonZeroU32};
ghost use Rattle.ring_password_hash.specs.Scheme.{kept_len_of, name_of};
ghost use Rattle.ring_password_hash.specs.Stored.{IsReading, IsTextOf, Parts, answer_of, can_keep};
ghost use Rattle.ring_password_hash.specs.Stored.{derived_of, keys_of, new_parts};
ghost use Rattle.ring_password_hash.specs.declared.scheme.Scheme.{Scheme};
ghost use Rattle.ring_password_hash.specs.declared.scheme.Scheme.TheVariants.{DjangoSha256};
ghost use Rattle.ring_password_hash.specs.declared.scheme.Scheme.TheVariants.{Postgresql};

/// A text is of one scheme, and of one value: no text of one scheme is one of another, of
/// PostgreSQL neither.
pub fn one_text_is_of_one_value()
    ensures { (g h : Parts) (text : List ℕ) → IsTextOf g text → IsTextOf h text → g ≡ h }
{}

/// What a text is read as is the value that has it: what is written is read back.
pub fn written_text_is_read_back()
    ensures { (h : Parts) (text : List ℕ) (found : Option Parts) → IsTextOf h text
        → IsReading text found → found ≡ Some h }
{}

/// A new value is its password's: whoever tests the password against it finds it right.
pub fn new_value_is_the_passwords()
    ensures { (k : Scheme) (p s : List ℕ) (c : NonZeroU32) (most : ℕ)
        → can_keep k (length p) (length s) (kept_len_of k) ≡ true → non_zero_u32_get c ≤ most
        → answer_of (Some (new_parts k p s c)) p most ≡ Ok tt }
{}

/// PostgreSQL's keys are made of what PBKDF2 with HMAC-SHA-256 derives to 32 bytes. So whoever has
/// a hash of such a scheme, with the same salt and count, needs no password.
pub fn salted_password_is_derived()
    ensures { (p s : List ℕ) (c : ℕ) → derived_of Postgresql p s c (kept_len_of Postgresql)
        ≡ keys_of (derived_of DjangoSha256 p s c (kept_len_of DjangoSha256)) }
{}

/// No two schemes have one name.
pub fn one_name_is_of_one_scheme()
    ensures { (k l : Scheme) → name_of k ≡ name_of l → k ≡ l }
{}
