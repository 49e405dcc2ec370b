// SPDX-License-Identifier: ISC
//! The fields of a text, read from it and written to an array of [`MAX_TEXT_LEN`] bytes.

ghost use Rattle.std.specs.Prelude.{◌≡◌, ◌≢◌, ◌≤◌, ◌*◌, ◌++◌, ℕ, true, false, List, [], IfSome};
ghost use Rattle.std.specs.Prelude.{IsNone, IsTrue, codes, length, take};
ghost use Rattle.std.specs.Char.{digit_value};
ghost use Rattle.std.specs.Int.NonZero.{non_zero_u32_get};
ghost use Rattle.std.specs.declared.num.NonZeroU32.{NonZeroU32};
ghost use Rattle.hex.specs.Hex.{IsBytes, encode_lower};
ghost use Rattle.base64.specs.GeneralPurpose.{IsStrict, encode_of};
ghost use Rattle.base64.specs.Rfc4648.{encode};
ghost use Rattle.ring_text.specs.Cut.{IsWithout};
ghost use Rattle.ring_password_hash.specs.Scheme.{count_end, count_mark, keeps_keys, names_len};
ghost use Rattle.ring_password_hash.specs.Text.{IsCount, IsLen, IsNamed, IsPut, adapted_symbols};
ghost use Rattle.ring_password_hash.specs.Text.{count_then, field_then, head_then, kept_by};
ghost use Rattle.ring_password_hash.specs.Text.{kept_text, number_then, parameters_then, written};

use crate::scheme::{Encoding, Scheme};
use base64::alphabet::Alphabet;
use base64::engine::general_purpose::{GeneralPurpose, NO_PAD, STANDARD, STANDARD_NO_PAD};
use itoa::Buffer;
use ring_text::{after, count_before, cut_at, fill_from_hex};
use std::num::NonZeroU32;

/// The length of each key in bytes.
pub const KEY_LEN: usize = 32;

/// The most bytes of a text.
pub const MAX_TEXT_LEN: usize = 1024;

/// Which parameters a text names, and in which order. Only a PHC string has a choice.
#[derive(Clone, Copy, Debug, PartialEq, Eq)]
pub enum Parameters {
    /// The iteration count alone: the hash has the scheme's length.
    Count,
    /// The iteration count and the hash's length in bytes: `i=ITERATIONS,l=LENGTH`.
    CountThenLen,
    /// The same in the other order: `l=LENGTH,i=ITERATIONS`.
    LenThenCount,
}

/// The fewest bytes of a hash whose text names its length, as in RustCrypto's `password-hash`.
pub const MIN_NAMED_LEN: usize = 10;

/// The most bytes of such a hash.
pub const MAX_NAMED_LEN: usize = 64;

// What names an iteration count, where parameters are named.
fn count_mark(names_len: bool) -> &'static [u8]
    ensures { result.now ≡ count_mark names_len }
{
    if names_len { b"i=" } else { b"" }
}

// What ends an iteration count that stands alone.
fn count_end(keeps_keys: bool) -> u8
    ensures ok { result ≡ count_end keeps_keys }
    ensures apart { 10 ≤ digit_value result }
{
    if keeps_keys { b':' } else { b'$' }
}

// Reads an iteration count named by `mark`, which the byte `end` ends.
fn lone_count<'a>(text: &'a [u8], mark: &[u8], end: u8) -> Option<(NonZeroU32, &'a [u8])>
    requires { 10 ≤ digit_value end }
    ensures ok { IfSome result (λ found. (text.now ≡ mark.now ++ count_then found.0 end found.1.now)
        × IsCount found.0) }
    ensures refused { IsNone result → (c : NonZeroU32) (rest : List ℕ) → IsCount c
        → text.now ≢ mark.now ++ count_then c end rest }
{
    let rest = after(text, mark)?;
    count_before(rest, end)
}

// Reads two numbers, each named by a mark: a comma ends the first one, a dollar sign the other.
fn two_counts<'a>(
    text: &'a [u8],
    first: &[u8],
    second: &[u8],
) -> Option<(NonZeroU32, NonZeroU32, &'a [u8])>
    ensures ok { IfSome result (λ found. (text.now ≡ first.now ++ count_then found.0 44
        (second.now ++ count_then found.1 36 found.2.now))
        × IsCount found.0 × IsCount found.1) }
    ensures refused { IsNone result → (c d : NonZeroU32) (rest : List ℕ) → IsCount c → IsCount d
        → text.now ≢ first.now ++ count_then c 44 (second.now ++ count_then d 36 rest) }
{
    let rest = after(text, first)?;
    let (one, rest) = count_before(rest, b',')?;
    let (other, rest) = lone_count(rest, second, b'$')?;
    Some((one, other, rest))
}

// The number as the length of a hash, if a text can name it.
fn named_len(number: NonZeroU32) -> Option<usize>
    ensures ok { IfSome result (λ len. (len ≡ non_zero_u32_get number)
        × (10 ≤ len) × (len ≤ 64)) }
    ensures refused { IsNone result → 10 ≤ non_zero_u32_get number
        → non_zero_u32_get number ≤ 64 → ⊥ }
{
    let len = number.get() as usize;
    if len < MIN_NAMED_LEN || len > MAX_NAMED_LEN {
        return None;
    }
    Some(len)
}

// Reads the parameters of a text that names its hash's length, in either order.
fn named_parameters(text: &[u8]) -> Option<(Parameters, NonZeroU32, usize, &[u8])>
    ensures ok { IfSome result (λ found. (k : Scheme) → names_len k ≡ true
        → (text.now ≡ parameters_then k found.0 found.1 found.2 found.3.now)
        × IsCount found.1 × IsLen k found.0 found.2) }
    ensures refused { IsNone result → (k : Scheme) (c : NonZeroU32) (n : ℕ) (rest : List ℕ)
        → IsCount c → IsNamed k n
        → (text.now ≢ parameters_then k Parameters.CountThenLen c n rest)
        × (text.now ≢ parameters_then k Parameters.LenThenCount c n rest) }
{
    if let Some((iterations, len, rest)) = two_counts(text, b"i=", b"l=") {
        let len = named_len(len)?;
        return Some((Parameters::CountThenLen, iterations, len, rest));
    }
    let (len, iterations, rest) = two_counts(text, b"l=", b"i=")?;
    let len = named_len(len)?;
    Some((Parameters::LenThenCount, iterations, len, rest))
}

// Reads the parameters of a text of the scheme. Returns which they are, the iteration count, the
// length of the hash, and the text after them.
fn parameters_in(scheme: Scheme, text: &[u8]) -> Option<(Parameters, NonZeroU32, usize, &[u8])>
    ensures ok { IfSome result (λ found.
        (text.now ≡ parameters_then scheme found.0 found.1 found.2 found.3.now)
        × IsCount found.1 × IsLen scheme found.0 found.2) }
    ensures refused { IsNone result → (p : Parameters) (c : NonZeroU32) (n : ℕ) (rest : List ℕ)
        → IsCount c → IsLen scheme p n → text.now ≢ parameters_then scheme p c n rest }
{
    let row = scheme.row();
    let end = count_end(row.keeps_keys);
    if let Some((iterations, rest)) = lone_count(text, count_mark(row.names_len), end) {
        return Some((Parameters::Count, iterations, row.kept_len, rest));
    }
    if !row.names_len {
        return None;
    }
    named_parameters(text)
}

/// Reads what stands before the salt. Returns the parameters, the iteration count, the length of
/// what is kept, and the text after them.
pub(crate) fn head_in(scheme: Scheme, text: &[u8]) -> Option<(Parameters, NonZeroU32, usize, &[u8])>
    ensures ok { IfSome result (λ head.
        (text.now ≡ head_then scheme head.0 head.1 head.2 head.3.now)
        × IsCount head.1 × IsLen scheme head.0 head.2) }
    ensures refused { IsNone result → (p : Parameters) (c : NonZeroU32) (n : ℕ) (rest : List ℕ)
        → IsCount c → IsLen scheme p n → text.now ≢ head_then scheme p c n rest }
{
    let rest = after(text, scheme.row().prefix)?;
    parameters_in(scheme, rest)
}

// The symbols of adapted base64.
const ADAPTED_SYMBOLS: &str = "ABCDEFGHIJKLMNOPQRSTUVWXYZabcdefghijklmnopqrstuvwxyz0123456789./";

/// The engine of adapted base64.
pub(crate) fn adapted() -> GeneralPurpose
    ensures strict { IsStrict result }
    ensures written { (m : List ℕ) → encode_of result m ≡ encode adapted_symbols 61 false m }
{
    let Ok(alphabet) = Alphabet::new(ADAPTED_SYMBOLS) else {
        unreachable!() // 64 symbols, each once, without the padding's.
    };
    GeneralPurpose::new(&alphabet, NO_PAD)
}

// Copies a field that is written as it is.
fn copy_into(text: &[u8], out: &mut [u8])
    requires text { length text.now ≤ MAX_TEXT_LEN }
    requires room { length out.old ≡ MAX_TEXT_LEN }
    ensures ok { text.now ≡ take (length text.now) out.new }
    ensures bytes { IsBytes out.new }
{
    out[..text.len()].copy_from_slice(text);
}

// Decodes digits in lower case to the start of `out`. Returns how many bytes they are.
fn decode_hex_into(text: &[u8], out: &mut [u8]) -> Option<usize>
    requires text { length text.now ≤ MAX_TEXT_LEN }
    requires room { length out.old ≡ MAX_TEXT_LEN }
    ensures within { IfSome result (λ n. n ≤ MAX_TEXT_LEN) }
    ensures bytes { IsBytes out.new }
    ensures ok { IfSome result (λ n. text.now ≡ written Encoding.Hex (take n out.new)) }
    ensures refused { IsNone result → (bytes : List ℕ) → IsBytes bytes
        → text.now ≢ written Encoding.Hex bytes }
{
    let len = text.len() / 2;
    if !fill_from_hex(text, &mut out[..len]) {
        return None;
    }
    Some(len)
}

// Decodes base64 to the start of `out`. Returns how many bytes it is.
fn decode_base64_into(engine: &GeneralPurpose, text: &[u8], out: &mut [u8]) -> Option<usize>
    requires strict { IsStrict engine.now }
    requires text { length text.now ≤ MAX_TEXT_LEN }
    requires room { length out.old ≡ MAX_TEXT_LEN }
    ensures within { IfSome result (λ n. n ≤ MAX_TEXT_LEN) }
    ensures bytes { IsBytes out.new }
    ensures ok { IfSome result (λ n. text.now ≡ encode_of engine.now (take n out.new)) }
    ensures refused { IsNone result → (bytes : List ℕ) → IsBytes bytes
        → text.now ≢ encode_of engine.now bytes }
{
    match engine.decode_slice_unchecked(text, out) {
        Ok(len) => Some(len),
        Err(_) => None,
    }
}

/// Decodes a field's whole text to the start of `out`. Returns how many bytes it is.
pub(crate) fn decode_into(encoding: Encoding, text: &[u8], out: &mut [u8]) -> Option<usize>
    requires text { length text.now ≤ MAX_TEXT_LEN }
    requires room { length out.old ≡ MAX_TEXT_LEN }
    ensures within { IfSome result (λ n. n ≤ MAX_TEXT_LEN) }
    ensures bytes { IsBytes out.new }
    ensures ok { IfSome result (λ n. text.now ≡ written encoding (take n out.new)) }
    ensures refused { IsNone result → (bytes : List ℕ) → IsBytes bytes
        → text.now ≢ written encoding bytes }
{
    match encoding {
        Encoding::Plain => {
            copy_into(text, out);
            Some(text.len())
        }
        Encoding::Hex => decode_hex_into(text, out),
        Encoding::Base64 => decode_base64_into(&STANDARD, text, out),
        Encoding::Base64NoPad => decode_base64_into(&STANDARD_NO_PAD, text, out),
        Encoding::Adapted => decode_base64_into(&adapted(), text, out),
    }
}

// Decodes StoredKey and ServerKey to the start of `out`, as one list of bytes.
fn keys_into(text: &[u8], out: &mut [u8]) -> bool
    requires text { length text.now ≤ MAX_TEXT_LEN }
    requires room { length out.old ≡ MAX_TEXT_LEN }
    ensures bytes { IsBytes out.new }
    ensures ok { result ≡ true → text.now ≡ kept_by true Encoding.Base64 (take 64 out.new) }
    ensures refused { result ≡ false → (bytes : List ℕ) → IsBytes bytes → length bytes ≡ 64
        → text.now ≢ kept_by true Encoding.Base64 bytes }
{
    let mut key = [0; MAX_TEXT_LEN];
    let Some((len, rest)) = field_into(text, Encoding::Base64, b':', out) else {
        return false;
    };
    let Some(last) = decode_base64_into(&STANDARD, rest, &mut key) else {
        return false;
    };
    if len != KEY_LEN || last != KEY_LEN {
        return false;
    }
    out[KEY_LEN..2 * KEY_LEN].copy_from_slice(&key[..KEY_LEN]);
    true
}

/// Decodes `len` kept bytes to the start of `out`. Returns whether the text is that of as many.
pub(crate) fn kept_into(scheme: Scheme, text: &[u8], len: usize, out: &mut [u8]) -> bool
    requires text { length text.now ≤ MAX_TEXT_LEN }
    requires room { length out.old ≡ MAX_TEXT_LEN }
    requires keys { keeps_keys scheme ≡ true → len ≡ 64 }
    ensures bytes { IsBytes out.new }
    ensures ok { result ≡ true → (text.now ≡ kept_text scheme (take len out.new))
        × (len ≤ MAX_TEXT_LEN) }
    ensures refused { result ≡ false → (bytes : List ℕ) → IsBytes bytes → length bytes ≡ len
        → text.now ≢ kept_text scheme bytes }
{
    let row = scheme.row();
    if row.keeps_keys {
        return keys_into(text, out);
    }
    match decode_into(row.kept, text, out) {
        Some(found) => found == len,
        None => false,
    }
}

/// Decodes a field and the byte `end` to the start of `out`. Returns how many bytes the field is,
/// and the text after them.
pub(crate) fn field_into<'a>(
    text: &'a [u8],
    encoding: Encoding,
    end: u8,
    out: &mut [u8],
) -> Option<(usize, &'a [u8])>
    requires text { length text.now ≤ MAX_TEXT_LEN }
    requires room { length out.old ≡ MAX_TEXT_LEN }
    ensures within { IfSome result (λ found. found.0 ≤ MAX_TEXT_LEN) }
    ensures behind { IfSome result (λ found. length found.1.now ≤ MAX_TEXT_LEN) }
    ensures bytes { IsBytes out.new }
    ensures ok { IfSome result (λ found.
        (text.now ≡ field_then encoding (take found.0 out.new) end found.1.now)
        × IsWithout end (written encoding (take found.0 out.new))) }
    ensures refused { IsNone result → (bytes rest : List ℕ) → IsBytes bytes
        → IsWithout end (written encoding bytes) → text.now ≢ field_then encoding bytes end rest }
{
    let (field, rest) = cut_at(text, end)?;
    let len = decode_into(encoding, field, out)?;
    Some((len, rest))
}

/// Writes bytes as they are.
pub(crate) fn put(out: &mut [u8; MAX_TEXT_LEN], at: usize, bytes: &[u8]) -> Option<usize>
    ensures { IsPut at bytes.now out.old out.new result }
{
    if at > MAX_TEXT_LEN || bytes.len() > MAX_TEXT_LEN - at {
        return None;
    }
    let end = at + bytes.len();
    out[at..end].copy_from_slice(bytes);
    Some(end)
}

// Writes digits in lower case.
#[tactic(auto, using(crate::proofs::Pieces::two_digits_each))]
fn put_hex(out: &mut [u8; MAX_TEXT_LEN], at: usize, bytes: &[u8]) -> Option<usize>
    ensures { IsPut at (encode_lower bytes.now) out.old out.new result }
{
    if at > MAX_TEXT_LEN || 2 * bytes.len() > MAX_TEXT_LEN - at {
        return None;
    }
    let end = at + 2 * bytes.len();
    let Ok(()) = hex::encode_to_slice(bytes, &mut out[at..end]) else {
        unreachable!() // There is room for two digits a byte.
    };
    Some(end)
}

// Writes base64.
fn put_base64(
    engine: &GeneralPurpose,
    out: &mut [u8; MAX_TEXT_LEN],
    at: usize,
    bytes: &[u8],
) -> Option<usize>
    ensures { IsPut at (encode_of engine.now bytes.now) out.old out.new result }
{
    if at > MAX_TEXT_LEN {
        return None;
    }
    match engine.encode_slice(bytes, &mut out[at..]) {
        Ok(len) => Some(at + len),
        Err(_) => None,
    }
}

/// Writes bytes as a field has them.
pub(crate) fn put_field(
    out: &mut [u8; MAX_TEXT_LEN],
    at: usize,
    encoding: Encoding,
    bytes: &[u8],
) -> Option<usize>
    ensures { IsPut at (written encoding bytes.now) out.old out.new result }
{
    match encoding {
        Encoding::Plain => put(out, at, bytes),
        Encoding::Hex => put_hex(out, at, bytes),
        Encoding::Base64 => put_base64(&STANDARD, out, at, bytes),
        Encoding::Base64NoPad => put_base64(&STANDARD_NO_PAD, out, at, bytes),
        Encoding::Adapted => put_base64(&adapted(), out, at, bytes),
    }
}

/// Writes a number in decimal, and then the byte `end`.
pub(crate) fn put_number(
    out: &mut [u8; MAX_TEXT_LEN],
    at: usize,
    number: usize,
    end: u8,
) -> Option<usize>
    ensures { IsPut at (number_then number end []) out.old out.new result }
{
    let at = put(out, at, Buffer::new().format(number).as_bytes())?;
    put(out, at, &[end])
}

/// Writes what stands before the salt, where `len` bytes are kept.
#[tactic(auto, unfolding(crate::specs::Text::parameters_then))]
pub(crate) fn put_head(
    out: &mut [u8; MAX_TEXT_LEN],
    scheme: Scheme,
    parameters: Parameters,
    iterations: NonZeroU32,
    len: usize,
) -> Option<usize>
    ensures { IsPut 0 (head_then scheme parameters iterations len []) out.old out.new result }
{
    let row = scheme.row();
    let count = iterations.get() as usize;
    let at = put(out, 0, row.prefix)?;
    match parameters {
        Parameters::Count => {
            let at = put(out, at, count_mark(row.names_len))?;
            put_number(out, at, count, count_end(row.keeps_keys))
        }
        Parameters::CountThenLen => {
            let at = put(out, at, b"i=")?;
            let at = put_number(out, at, count, b',')?;
            let at = put(out, at, b"l=")?;
            put_number(out, at, len, b'$')
        }
        Parameters::LenThenCount => {
            let at = put(out, at, b"l=")?;
            let at = put_number(out, at, len, b',')?;
            let at = put(out, at, b"i=")?;
            put_number(out, at, count, b'$')
        }
    }
}

// Writes StoredKey, a colon and ServerKey.
fn put_keys(out: &mut [u8; MAX_TEXT_LEN], at: usize, keys: &[u8]) -> Option<usize>
    requires { length keys.now ≡ 2 * KEY_LEN }
    ensures { IsPut at (kept_by true Encoding.Base64 keys.now) out.old out.new result }
{
    let (stored, server) = keys.split_at(KEY_LEN);
    let at = put_field(out, at, Encoding::Base64, stored)?;
    let at = put(out, at, b":")?;
    put_field(out, at, Encoding::Base64, server)
}

/// Writes what is kept.
pub(crate) fn put_kept(
    out: &mut [u8; MAX_TEXT_LEN],
    at: usize,
    scheme: Scheme,
    kept: &[u8],
) -> Option<usize>
    requires { keeps_keys scheme ≡ true → length kept.now ≡ 2 * KEY_LEN }
    ensures { IsPut at (kept_text scheme kept.now) out.old out.new result }
{
    let row = scheme.row();
    if row.keeps_keys {
        return put_keys(out, at, kept);
    }
    put_field(out, at, row.kept, kept)
}
