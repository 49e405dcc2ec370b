// SPDX-License-Identifier: ISC
//! What is kept of a password: what PBKDF2 derives, or SCRAM's two keys (RFC 5802, section 3).

ghost use Rattle.std.specs.Prelude.{◌≡◌, ◌*◌, true, length};
ghost use Rattle.std.specs.Int.NonZero.{non_zero_u32_get};
ghost use Rattle.ring.specs.Prelude.{raised};
ghost use Rattle.ring_password_hash.specs.Scheme.{keeps_keys};
ghost use Rattle.ring_password_hash.specs.Stored.{Derives, keys_blocks, keys_of};

use crate::scheme::Scheme;
use crate::text::KEY_LEN;
use ring::cost::Meter;
use ring::digest::{SHA256, digest_counted};
use ring::error::Unspecified;
use ring::hmac::{HMAC_SHA256, Key, sign_counted};
use ring::pbkdf2;
use std::num::NonZeroU32;

// Writes the two keys of a salted password, one behind the other.
fn write_keys(salted: &[u8; KEY_LEN], out: &mut [u8], meter: &mut Meter)
    requires { length out.old ≡ 2 * KEY_LEN }
    ensures ok { out.new ≡ keys_of salted.now }
    ensures cost { meter.new ≡ raised meter.old (keys_blocks true) 0 }
{
    let Ok(key) = Key::new_counted(HMAC_SHA256, salted, meter) else {
        unreachable!() // 32 bytes are far below the limit, as are the messages below.
    };
    let Ok(client_key) = sign_counted(&key, b"Client Key", meter) else {
        unreachable!()
    };
    let Ok(client_digest) = digest_counted(&SHA256, client_key.as_ref(), meter) else {
        unreachable!()
    };
    let Ok(server_tag) = sign_counted(&key, b"Server Key", meter) else {
        unreachable!()
    };
    let (stored_key, server_key) = out.split_at_mut(KEY_LEN);
    stored_key.copy_from_slice(client_digest.as_ref());
    server_key.copy_from_slice(server_tag.as_ref());
}

/// Derives what the scheme keeps of a password, to the whole of `out`.
///
/// Refused exactly if `password` or `salt` is longer than PBKDF2 admits. No block is then run.
pub(crate) fn derive(
    scheme: Scheme,
    password: &[u8],
    salt: &[u8],
    iterations: NonZeroU32,
    out: &mut [u8],
    meter: &mut Meter,
) -> Result<(), Unspecified>
    requires { keeps_keys scheme ≡ true → length out.old ≡ 64 }
    ensures { Derives scheme password.now salt.now (non_zero_u32_get iterations) (length out.old)
        out.new meter.old meter.new result }
{
    let row = scheme.row();
    if !row.keeps_keys {
        return pbkdf2::derive_counted(row.algorithm, iterations, salt, password, out, meter);
    }
    let mut salted = [0; KEY_LEN];
    pbkdf2::derive_counted(
        row.algorithm,
        iterations,
        salt,
        password,
        &mut salted,
        meter,
    )?;
    write_keys(&salted, out, meter);
    Ok(())
}
