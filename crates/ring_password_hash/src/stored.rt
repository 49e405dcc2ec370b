// SPDX-License-Identifier: ISC
//! What a text keeps of a password, as one value.
//!
//! [`verify`] tests a password against a text of a database, of whichever scheme:
//!
//! ```
//! verify(text, password, max_iterations)?;
//! ```
//!
//! [`Stored::new`] makes what the database keeps of a new password, and [`Stored::write_to`] writes
//! its text:
//!
//! ```
//! let salt = new_salt(scheme, rng)?;
//! let stored = Stored::new(scheme, password, salt.as_ref(), iterations, text.len())?;
//! let len = stored.write_to(text)?;
//! ```
//!
//! A text from outside can name any iteration count up to 4,294,967,295, and a test takes as long.
//! So each test has a limit, which stands before the first block.

ghost use Rattle.std.specs.Prelude.{◌≡◌, ◌≢◌, ◌≤◌, ◌==◌, ℕ, true, false, List, IfOk, IfSome};
ghost use Rattle.std.specs.Prelude.{IsNone, Some, length, not, take};
ghost use Rattle.std.specs.List.{list_all};
ghost use Rattle.ring_password_hash.specs.Scheme.{keeps_keys, kept_len_of, names_len};
ghost use Rattle.ring_password_hash.specs.Stored.{IsFilled, IsNew, IsReadWhere, IsStored, IsTextOf};
ghost use Rattle.ring_password_hash.specs.Stored.{Keeps, Makes, Parts, Reads, Tests, Writes};
ghost use Rattle.ring_password_hash.specs.Stored.{answer_of, front_text, is_past, is_salt, is_text};
ghost use Rattle.ring_password_hash.specs.Stored.{new_parts, parameters_where, parts, parts_of};
ghost use Rattle.ring_password_hash.specs.Stored.{text_of};
ghost use Rattle.ring_password_hash.specs.Text.{IsPut};

use crate::derived::derive;
use crate::error::HashError;
use crate::scheme::{Encoding, SCHEMES, Scheme};
use crate::text::{
    MAX_TEXT_LEN, Parameters, field_into, head_in, kept_into, put, put_field, put_head, put_kept,
};
use ring::bb::verify_slices_are_equal_counted;
use ring::cost::Meter;
use std::num::NonZeroU32;

/// What a text keeps of a password: a hash, or SCRAM's two keys, and what it was derived from.
///
/// A value is some 2 KiB, and takes no memory of an allocator.
#[derive(Clone, Copy)]
pub struct Stored {
    scheme: Scheme,
    parameters: Parameters,
    iterations: NonZeroU32,
    salt: [u8; MAX_TEXT_LEN],
    salt_len: usize,
    kept: [u8; MAX_TEXT_LEN],
    kept_len: usize,
}

/// Whether a field is text as it stands.
pub(crate) fn is_text(encoding: Encoding) -> bool
    ensures { result ≡ is_text encoding }
{
    encoding == Encoding::Plain
}

// Whether no byte is the one that ends a salt.
fn lacks_end(salt: &[u8]) -> bool
    ensures { result ≡ list_all (λ b. not (b == 36)) salt.now }
{
    salt.iter().all(|byte| *byte != b'$')
}

// Whether the scheme can have the salt.
fn is_salt(scheme: Scheme, salt: &[u8]) -> bool
    ensures { result ≡ is_salt scheme salt.now }
{
    !salt.is_empty() && (!is_text(scheme.row().salt) || lacks_end(salt))
}

// Reads the value of this scheme whose text it is.
fn read_as(scheme: Scheme, text: &[u8]) -> Option<Stored>
    requires { length text.now ≤ MAX_TEXT_LEN }
    ensures ok { IfSome result (λ v. IsTextOf (parts_of v) text.now × IsStored v) }
    ensures refused { IsNone result → (h : Parts) → h.scheme ≡ scheme → IsTextOf h text.now → ⊥ }
{
    let (parameters, iterations, kept_len, rest) = head_in(scheme, text)?;
    let mut salt = [0; MAX_TEXT_LEN];
    let mut kept = [0; MAX_TEXT_LEN];
    let (salt_len, rest) = field_into(rest, scheme.row().salt, b'$', &mut salt)?;
    if !is_salt(scheme, &salt[..salt_len]) {
        return None;
    }
    if !kept_into(scheme, rest, kept_len, &mut kept) {
        return None;
    }
    Some(Stored {
        scheme,
        parameters,
        iterations,
        salt,
        salt_len,
        kept,
        kept_len,
    })
}

impl Stored {
    /// The value whose text is `text`, of whichever scheme: no text is of two
    /// ([`laws::one_text_is_of_one_value`](crate::laws::one_text_is_of_one_value)).
    ///
    /// Refused as `BadFormat` exactly if no value has this text: one of more than
    /// [`MAX_TEXT_LEN`](crate::MAX_TEXT_LEN) bytes, a count of zero or of more than 32 bits, a
    /// leading zero, an empty salt, base64 or digits that no writer makes, and a hash or a key of
    /// another length are refused.
    pub fn parse(text: &[u8]) -> Result<Stored, HashError>
        ensures { Reads text.now result }
    {
        if text.len() > MAX_TEXT_LEN {
            return Err(HashError::BadFormat);
        }
        'schemes: for i in 0..SCHEMES.len() {
            if let Some(stored) = read_as(SCHEMES[i], text) {
                return Ok(stored);
            }
        }
        Err(HashError::BadFormat)
    }

    /// The scheme, as the text names it.
    pub fn scheme(&self) -> Scheme
        ensures { result ≡ (parts_of self.now).scheme }
    {
        self.scheme
    }

    /// The iteration count. Where it is below the caller's own, a login that succeeds is the time
    /// to make a new value.
    pub fn iterations(&self) -> NonZeroU32
        ensures { result ≡ (parts_of self.now).iterations }
    {
        self.iterations
    }

    /// Writes the text to the start of `out`, and returns how many bytes it has: at most
    /// [`MAX_TEXT_LEN`](crate::MAX_TEXT_LEN). [`Stored::parse`] reads it back.
    ///
    /// Refused as `NoRoom` exactly if the text is longer than `out`, which is then unchanged.
    pub fn write_to(&self, out: &mut [u8]) -> Result<usize, HashError>
        requires { IsStored self.now }
        ensures { Writes (text_of (parts_of self.now)) out.old out.new result }
    {
        let mut text = [0; MAX_TEXT_LEN];
        let salt = &self.salt[..self.salt_len];
        let kept = &self.kept[..self.kept_len];
        let Some(len) = put_text(
            &mut text,
            self.scheme,
            self.parameters,
            self.iterations,
            salt,
            kept,
        ) else {
            unreachable!() // A value's text has at most as many bytes.
        };
        if len > out.len() {
            return Err(HashError::NoRoom);
        }
        out[..len].copy_from_slice(&text[..len]);
        Ok(len)
    }

    /// Makes a value as [`Stored::new`] does, whose text has at most `room` bytes. `meter` counts
    /// the blocks: none where it is refused.
    pub fn new_counted(
        scheme: Scheme,
        password: &[u8],
        salt: &[u8],
        iterations: NonZeroU32,
        room: usize,
        meter: &mut Meter,
    ) -> Result<Stored, HashError>
        ensures { Makes room scheme password.now salt.now iterations meter.old meter.new result }
    {
        let row = scheme.row();
        let mut kept = [0; MAX_TEXT_LEN];
        let kept = &mut kept[..row.kept_len];
        keep(scheme, password, salt, iterations, room, kept, meter)?;
        Ok(Stored {
            scheme,
            parameters: usual_parameters(scheme),
            iterations,
            salt: array_of(salt),
            salt_len: salt.len(),
            kept: array_of(kept),
            kept_len: row.kept_len,
        })
    }

    /// What `scheme` keeps of `password` under `salt` and `iterations`, of the length and with the
    /// parameters that its own system writes. The password verifies against it
    /// ([`laws::new_value_is_the_passwords`](crate::laws::new_value_is_the_passwords)).
    ///
    /// `salt` should be random, and of this value alone: [`new_salt`](crate::new_salt) makes one. A
    /// salt that is shared makes a hash by SHA-256 as good as the password under
    /// [`Scheme::Postgresql`]
    /// ([`laws::salted_password_is_derived`](crate::laws::salted_password_is_derived)).
    /// A password for that scheme is prepared already
    /// ([`needs_preparation`](crate::needs_preparation)).
    ///
    /// Refused as `NoRoom` exactly if its text is longer than `room` or than
    /// [`MAX_TEXT_LEN`](crate::MAX_TEXT_LEN) bytes; else as `BadSalt` exactly if `salt` is empty,
    /// or has a dollar sign where the scheme writes it as it is; else as `TooLong` exactly if
    /// `password` or `salt` is longer than PBKDF2 admits. No block is then run.
    pub fn new(
        scheme: Scheme,
        password: &[u8],
        salt: &[u8],
        iterations: NonZeroU32,
        room: usize,
    ) -> Result<Stored, HashError>
        ensures { IsNew room scheme password.now salt.now iterations result }
    {
        Stored::new_counted(scheme, password, salt, iterations, room, &mut Meter::new())
    }

    /// Tests a password against the value, as [`verify`] does against its text. `meter` counts the
    /// blocks and the compared pairs of bytes: none where the count is refused.
    pub fn verify_counted(
        &self,
        password: &[u8],
        max_iterations: u32,
        meter: &mut Meter,
    ) -> Result<(), HashError>
        requires { IsFilled self.now }
        ensures { Tests (Some (parts_of self.now)) password.now max_iterations
            meter.old meter.new result }
    {
        if self.iterations.get() > max_iterations {
            return Err(HashError::TooManyIterations);
        }
        let mut derived = [0; MAX_TEXT_LEN];
        let derived = &mut derived[..self.kept_len];
        let salt = &self.salt[..self.salt_len];
        let Ok(()) = derive(self.scheme, password, salt, self.iterations, derived, meter) else {
            return Err(HashError::WrongPassword);
        };
        match verify_slices_are_equal_counted(&self.kept[..self.kept_len], derived, meter) {
            Ok(()) => Ok(()),
            Err(_) => Err(HashError::WrongPassword),
        }
    }

    /// Tests a password against the value, as [`verify`] does against its text.
    ///
    /// Refused as `TooManyIterations` exactly if the iteration count is above `max_iterations`,
    /// before a block is run; else as `WrongPassword` exactly if the value is not the password's,
    /// or `password` is longer than PBKDF2 admits.
    pub fn verify(&self, password: &[u8], max_iterations: u32) -> Result<(), HashError>
        requires { IsFilled self.now }
        ensures { result ≡ answer_of (Some (parts_of self.now)) password.now max_iterations }
    {
        self.verify_counted(password, max_iterations, &mut Meter::new())
    }
}

// Writes the head of a text that keeps so many bytes, the salt and the byte that ends it.
fn put_front(
    out: &mut [u8; MAX_TEXT_LEN],
    scheme: Scheme,
    parameters: Parameters,
    iterations: NonZeroU32,
    kept_len: usize,
    salt: &[u8],
) -> Option<usize>
    ensures { IsPut 0 (front_text scheme parameters iterations kept_len salt.now)
        out.old out.new result }
{
    let at = put_head(out, scheme, parameters, iterations, kept_len)?;
    let at = put_field(out, at, scheme.row().salt, salt)?;
    put(out, at, b"$")
}

// Writes a text, if the array has room.
fn put_text(
    out: &mut [u8; MAX_TEXT_LEN],
    scheme: Scheme,
    parameters: Parameters,
    iterations: NonZeroU32,
    salt: &[u8],
    kept: &[u8],
) -> Option<usize>
    requires { keeps_keys scheme ≡ true → length kept.now ≡ 64 }
    ensures { IsPut 0 (text_of (parts scheme parameters iterations salt.now kept.now))
        out.old out.new result }
{
    let at = put_front(out, scheme, parameters, iterations, kept.len(), salt)?;
    put_kept(out, at, scheme, kept)
}

// Whether there is room for the text of a new value that keeps as many bytes as these.
fn has_room(scheme: Scheme, salt: &[u8], iterations: NonZeroU32, kept: &[u8], room: usize) -> bool
    requires { length kept.now ≡ kept_len_of scheme }
    ensures told { (password : List ℕ)
        → is_past room (text_of (new_parts scheme password salt.now iterations)) ≡ not result }
    ensures salt { result ≡ true → length salt.now ≤ MAX_TEXT_LEN }
{
    let parameters = usual_parameters(scheme);
    let mut text = [0; MAX_TEXT_LEN];
    match put_text(&mut text, scheme, parameters, iterations, salt, kept) {
        Some(len) => len <= room,
        None => false,
    }
}

// The bytes at the start of an array.
fn array_of(bytes: &[u8]) -> [u8; MAX_TEXT_LEN]
    requires { length bytes.now ≤ MAX_TEXT_LEN }
    ensures { take (length bytes.now) result ≡ bytes.now }
{
    let mut array = [0; MAX_TEXT_LEN];
    array[..bytes.len()].copy_from_slice(bytes);
    array
}

// Writes what is kept of a new value, if its text has room.
fn keep(
    scheme: Scheme,
    password: &[u8],
    salt: &[u8],
    iterations: NonZeroU32,
    room: usize,
    kept: &mut [u8],
    meter: &mut Meter,
) -> Result<(), HashError>
    requires { length kept.old ≡ kept_len_of scheme }
    ensures { Keeps room scheme password.now salt.now iterations kept.new
        meter.old meter.new result }
{
    if !has_room(scheme, salt, iterations, &*kept, room) {
        return Err(HashError::NoRoom);
    }
    if !is_salt(scheme, salt) {
        return Err(HashError::BadSalt);
    }
    match derive(scheme, password, salt, iterations, kept, meter) {
        Ok(()) => Ok(()),
        Err(_) => Err(HashError::TooLong),
    }
}

// The parameters that the scheme's own system writes.
fn usual_parameters(scheme: Scheme) -> Parameters
    ensures { result ≡ parameters_where (names_len scheme) }
{
    if scheme.row().names_len {
        Parameters::CountThenLen
    } else {
        Parameters::Count
    }
}

/// Tests a password as [`verify`] does. `meter` counts the blocks and the compared pairs of bytes:
/// none where the text or its count is refused.
pub fn verify_counted(
    text: &[u8],
    password: &[u8],
    max_iterations: u32,
    meter: &mut Meter,
) -> Result<(), HashError>
    ensures { IsReadWhere text.now (λ found. Tests found password.now max_iterations
        meter.old meter.new result) }
{
    let stored = Stored::parse(text)?;
    stored.verify_counted(password, max_iterations, meter)
}

/// Tests a password against `text`, of any scheme. A password for
/// [`Scheme::Postgresql`] is prepared already ([`needs_preparation`](crate::needs_preparation)).
///
/// Refused as `BadFormat` exactly if no value has this text; else as `TooManyIterations` exactly
/// if its count is above `max_iterations`, before a block is run; else as `WrongPassword` exactly
/// if it is not the password's, or `password` is longer than PBKDF2 admits.
pub fn verify(text: &[u8], password: &[u8], max_iterations: u32) -> Result<(), HashError>
    ensures { IsReadWhere text.now (λ found.
        result ≡ answer_of found password.now max_iterations) }
{
    verify_counted(text, password, max_iterations, &mut Meter::new())
}
