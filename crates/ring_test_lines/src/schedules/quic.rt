// SPDX-License-Identifier: ISC
//! What is asked of QUIC's initial secrets.

use crate::fault::Fault;
use crate::words::{bytes_in, copy_of, hash_in, room_in};
use ring_schedules::quic::{
    Version, header_key, initial_secrets, next_secret, packet_iv, packet_key,
};
use ring_schedules::secret::Secret;
use std::alloc::Global;

/// A version by its number.
fn version_in(word: &str) -> Result<Version, Fault> {
    match word {
        "1" => Ok(Version::V1),
        "2" => Ok(Version::V2),
        _ => Err(Fault::BadLine),
    }
}

/// Of the initial secret of a version, a connection ID and a side, `client` or `server`: `secret`,
/// `key:LEN`, `iv`, `hp:LEN` or `next`.
pub fn initial_output(alloc: Global, initial: [&str; 3], output: &str) -> Result<Vec<u8>, Fault> {
    let version = version_in(initial[0])?;
    let id = bytes_in(alloc, initial[1])?;
    let secrets = initial_secrets(version, id.as_slice())?;
    match initial[2] {
        "client" => secret_output(alloc, version, secrets.client, output),
        "server" => secret_output(alloc, version, secrets.server, output),
        _ => Err(Fault::BadLine),
    }
}

/// Of any secret of a hash: the same.
pub fn packet_output(
    alloc: Global,
    version: &str,
    secret: [&str; 2],
    output: &str,
) -> Result<Vec<u8>, Fault> {
    let hash = hash_in(secret[0])?;
    let bytes = bytes_in(alloc, secret[1])?;
    let secret = Secret::new(hash, bytes.as_slice())?;
    secret_output(alloc, version_in(version)?, secret, output)
}

/// Of a secret.
fn secret_output(
    alloc: Global,
    version: Version,
    secret: Secret,
    output: &str,
) -> Result<Vec<u8>, Fault> {
    match output {
        "secret" => copy_of(alloc, secret.as_ref()),
        "iv" => copy_of(alloc, &packet_iv(version, &secret)),
        "next" => copy_of(alloc, next_secret(version, secret).as_ref()),
        key => key_output(alloc, version, &secret, key),
    }
}

/// A key of a secret.
fn key_output(
    alloc: Global,
    version: Version,
    secret: &Secret,
    output: &str,
) -> Result<Vec<u8>, Fault> {
    let Some((name, len)) = output.split_once(':') else {
        return Err(Fault::BadLine);
    };
    let mut key = room_in(alloc, len)?;
    match name {
        "key" => packet_key(version, secret, key.as_mut_slice())?,
        "hp" => header_key(version, secret, key.as_mut_slice())?,
        _ => return Err(Fault::BadLine),
    }
    Ok(key)
}
