// SPDX-License-Identifier: ISC
//! Bytes in hex, with letters in lower case alone.

ghost use Rattle.std.specs.Prelude.{◌≡◌, ◌≢◌, ℕ, List, length, not, IsTrue};
ghost use Rattle.std.specs.Char.{is_ascii_uppercase};
ghost use Rattle.std.specs.List.{list_all};
ghost use Rattle.hex.specs.Hex.{IsBytes, encode_lower};

// Whether no letter of the text is in upper case.
fn lacks_upper_case(text: &[u8]) -> bool
    ensures { result ≡ list_all (λ byte. not (is_ascii_uppercase byte)) text.now }
{
    text.iter().all(|byte| !byte.is_ascii_uppercase())
}

/// Decodes `digits` to `out`. Returns whether they are the hex, in lower case, of as many bytes as
/// `out` has. If not, `out` may have any bytes.
#[tactic(auto, using(crate::proofs::LowerHex::hex_not_upper))]
pub fn fill_from_hex(digits: &[u8], out: &mut [u8]) -> bool
    ensures ok { IsTrue result → (digits.now ≡ encode_lower out.new) × IsBytes out.new }
    ensures refused { ¬ (IsTrue result) → (bytes : List ℕ) → IsBytes bytes
        → length bytes ≡ length out.old → digits.now ≢ encode_lower bytes }
{
    lacks_upper_case(digits) && hex::decode_to_slice(digits, out).is_ok()
}
