// SPDX-License-Identifier: ISC
//! What is kept of a password, in a row of fixed size, as a table in flash has it: made, written
//! and read back with no memory.

ghost use Rattle.std.specs.Prelude.{◌≡◌, ◌↔◌, ◌≤◌, ◌++◌, ℕ, true, false, Err, Ok, IfErr, IfOk};
ghost use Rattle.std.specs.Prelude.{IsErrOf, IsOk, OnErr, drop, length, take};
ghost use Rattle.std.specs.Int.NonZero.{non_zero_u32_get};
ghost use Rattle.ring_password_hash.specs.Stored.{IsReadWhere, IsStored, IsTextOf, answer_of};
ghost use Rattle.ring_password_hash.specs.Stored.{new_parts, new_status, parts_of, text_of};
ghost use Rattle.ring_examples.specs.Rows.{salt_of};
ghost use Rattle.ring_examples.specs.declared.rows.RowError.TheVariants.{NotReady, Refused};

use ring::error::Unspecified;
use ring::rand::SecureRandom;
use ring_password_hash::laws::{new_value_is_the_passwords, written_text_is_read_back};
use ring_password_hash::salt::{RANDOM_LEN, Salt};
use ring_password_hash::{HashError, MAX_TEXT_LEN, Scheme, Stored, new_salt};
use std::num::NonZeroU32;

/// Writes what `scheme` keeps of `password` to the start of `row`, and returns how many bytes it
/// has. Whoever tests the password against these bytes later, under a limit that admits the
/// iterations, finds that it is right.
pub fn fill_row(
    scheme: Scheme,
    password: &[u8],
    salt: &[u8],
    iterations: NonZeroU32,
    row: &mut [u8; MAX_TEXT_LEN],
) -> Result<usize, HashError>
    ensures ok { IfOk result (λ len. IsTextOf (new_parts scheme password.now salt.now iterations)
        (take len row.new) × (drop len row.new ≡ drop len row.old)) }
    ensures right { (most : ℕ) → non_zero_u32_get iterations ≤ most
        → IfOk result (λ len. IsReadWhere (take len row.new) (λ found.
        answer_of found password.now most ≡ Ok tt)) }
    ensures refused { IfErr result (λ error.
        new_status MAX_TEXT_LEN scheme password.now salt.now iterations ≡ Err error) }
    ensures unchanged { OnErr result (row.new ≡ row.old) }
{
    new_value_is_the_passwords();
    let stored = Stored::new(scheme, password, salt, iterations, row.len())?;
    let len = stored.write_to(row)?;
    Ok(len)
}

/// The value that is read of a row in which `stored` was written: the same one.
pub fn write_and_read(stored: &Stored, row: &mut [u8; MAX_TEXT_LEN]) -> Result<Stored, HashError>
    requires { IsStored stored.now }
    ensures ok { IfOk result (λ read. parts_of read ≡ parts_of stored.now) }
    ensures written { row.new ≡ text_of (parts_of stored.now)
        ++ drop (length (text_of (parts_of stored.now))) row.old }
    ensures refused { IsOk result }
{
    written_text_is_read_back();
    let len = stored.write_to(row)?;
    let read = Stored::parse(&row[..len])?;
    Ok(read)
}

/// Why no row is filled.
#[derive(Clone, Copy, Debug, PartialEq, Eq)]
pub enum RowError {
    /// The source is not ready for the bytes of a salt.
    NotReady,
    /// The password is refused.
    Refused(HashError),
}

impl From<Unspecified> for RowError {
    ghost from_gives = { λ _ error. error ≡ NotReady };

    fn from(_error: Unspecified) -> Self {
        RowError::NotReady
    }
}

impl From<HashError> for RowError {
    ghost from_gives = { λ hash error. error ≡ Refused hash };

    fn from(error: HashError) -> Self {
        RowError::Refused(error)
    }
}

/// Writes what `scheme` keeps of `password` to the start of `text`, under a salt of the source's
/// next 16 bytes, which every scheme can write.
///
/// Refused as `NotReady` exactly if the source is not ready for so many, and else as [`fill_row`]
/// is. A source that is not ready keeps all of its bytes.
pub fn new_text(
    scheme: Scheme,
    password: &[u8],
    iterations: NonZeroU32,
    rng: &mut dyn SecureRandom,
    text: &mut [u8; MAX_TEXT_LEN],
) -> Result<usize, RowError>
    ensures ok { IfOk result (λ len. IsTextOf (new_parts scheme password.now
        (salt_of scheme (take RANDOM_LEN (left rng.old))) iterations) (take len text.new)
        × (drop len text.new ≡ drop len text.old)) }
    ensures right { (most : ℕ) → non_zero_u32_get iterations ≤ most
        → IfOk result (λ len. IsReadWhere (take len text.new) (λ found.
        answer_of found password.now most ≡ Ok tt)) }
    ensures salted { ¬ (IsErrOf result (Refused HashError.BadSalt)) }
    ensures unready { IsErrOf result NotReady ↔ (ready rng.old RANDOM_LEN ≡ false) }
    ensures refused { (error : HashError) → IsErrOf result (Refused error)
        → new_status MAX_TEXT_LEN scheme password.now
        (salt_of scheme (take RANDOM_LEN (left rng.old))) iterations ≡ Err error }
    ensures unchanged { OnErr result (text.new ≡ text.old) }
    ensures taken { ready rng.old RANDOM_LEN ≡ true
        → left rng.new ≡ drop RANDOM_LEN (left rng.old) }
    ensures kept { ready rng.old RANDOM_LEN ≡ false → left rng.new ≡ left rng.old }
{
    new_value_is_the_passwords();
    let salt = new_salt(scheme, rng)?;
    let stored = Stored::new(scheme, password, salt.as_ref(), iterations, text.len())?;
    let len = stored.write_to(text)?;
    Ok(len)
}

/// Fills a row as [`fill_row`] does, under a salt that 16 random bytes make.
pub fn fill_row_under(
    scheme: Scheme,
    password: &[u8],
    random: [u8; RANDOM_LEN],
    iterations: NonZeroU32,
    row: &mut [u8; MAX_TEXT_LEN],
) -> Result<usize, HashError>
    ensures ok { IfOk result (λ len. IsTextOf (new_parts scheme password.now
        (salt_of scheme random) iterations) (take len row.new)
        × (drop len row.new ≡ drop len row.old)) }
    ensures refused { IfErr result (λ error. new_status MAX_TEXT_LEN scheme password.now
        (salt_of scheme random) iterations ≡ Err error) }
    ensures unchanged { OnErr result (row.new ≡ row.old) }
{
    let salt = Salt::of(scheme, random);
    fill_row(scheme, password, salt.as_ref(), iterations, row)
}
