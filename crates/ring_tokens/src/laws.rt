// SPDX-License-Identifier: ISC
//! Laws of tokens: the known faults of their readers, each ruled out, and what is written.
//!
//! A law holds of the definitions alone: its clause is the law, and the call does nothing.

ghost use Rattle.std.specs.Prelude.{◌≡◌, ◌≢◌, ℕ, List, [], ◌++◌, Some, codes, length};
ghost use Rattle.hex.specs.Hex.{IsBytes};
ghost use Rattle.json.specs.Find.{get};
ghost use Rattle.json.specs.Json.{Json, document, string};
ghost use Rattle.ring_tokens.specs.Alg.{name_of};
ghost use Rattle.ring_tokens.specs.Header.{usual_header};
ghost use Rattle.ring_tokens.specs.Jws.{CanSign, IsJws, part_then, usual_token, usual_token_len};
ghost use Rattle.ring_tokens.specs.declared.alg.Alg.{Alg};

use ring::laws::digest_has_output_len;

/// A token is of one algorithm and has one payload, whatever the keys: none is valid under a key of
/// another algorithm.
pub fn one_token_is_of_one_algorithm()
    ensures { (a b : Alg) (k l token p q : List ℕ) → IsJws a k token p → IsJws b l token q
        → (a ≡ b) × (p ≡ q) }
{}

/// A token whose header names another algorithm, as `none`, is not valid.
pub fn other_algorithms_are_refused()
    ensures { (a : Alg) (k header rest p : List ℕ) (json : Json) → IsBytes header
        → document header ≡ Some json
        → get (codes "alg") json ≢ Some (string (name_of a))
        → IsJws a k (part_then header rest) p → ⊥ }
{}

/// No proper beginning of a valid token is valid: a signature cannot be cut off or shortened.
pub fn no_beginning_is_valid()
    ensures { (a : Alg) (k token rest p q : List ℕ) → IsJws a k token p
        → IsJws a k (token ++ rest) q → rest ≡ [] }
{}

/// A token that is signed is valid, and has the payload that was signed.
pub fn signed_token_is_valid()
    ensures { (a : Alg) (k p : List ℕ) → IsBytes p → CanSign a (usual_header a) p
        → IsJws a k (usual_token a k p) p }
{}

/// A token that is signed has as many bytes as [`token_len`](crate::jws::token_len) says.
pub fn signed_token_has_token_len()
    ensures { (a : Alg) (k p : List ℕ)
        → length (usual_token a k p) ≡ usual_token_len a (length p) }
{
    digest_has_output_len();
}
