// SPDX-License-Identifier: ISC
//! What is asked of key schedules.

use crate::fault::Fault;
use crate::schedules::quic::{initial_output, packet_output};
use crate::schedules::stages::{Inputs, Wanted, stage_output};
use crate::words::{bytes_in, copy_of, hash_in, room_in};
use ring_schedules::extract::hkdf_extract;
use ring_schedules::label::hkdf_expand_label;
use std::alloc::Global;

mod finished;
mod quic;
mod stages;
mod traffic;

/// The bytes that a line asks for by its words.
pub fn secret_bytes(alloc: Global, words: &[&str]) -> Result<Vec<u8>, Fault> {
    match *words {
        ["extract", hash, salt, material] => extracted(alloc, hash, salt, material),
        ["expand-label", hash, secret, label, context, len] => {
            expanded(alloc, hash, [secret, label, context], len)
        }
        ["tls13", hash, psk, shared, name, transcript, output] => {
            let inputs = Inputs::new(alloc, hash, [psk, shared, transcript])?;
            stage_output(alloc, &inputs, Wanted { name, output })
        }
        ["quic", version, id, side, output] => initial_output(alloc, [version, id, side], output),
        ["packet", version, hash, secret, output] => {
            packet_output(alloc, version, [hash, secret], output)
        }
        _ => Err(Fault::BadLine),
    }
}

/// HKDF-Extract.
fn extracted(alloc: Global, hash: &str, salt: &str, material: &str) -> Result<Vec<u8>, Fault> {
    let salt = bytes_in(alloc, salt)?;
    let material = bytes_in(alloc, material)?;
    let secret = hkdf_extract(hash_in(hash)?, salt.as_slice(), material.as_slice())?;
    copy_of(alloc, secret.as_ref())
}

/// HKDF-Expand-Label.
fn expanded(alloc: Global, hash: &str, inputs: [&str; 3], len: &str) -> Result<Vec<u8>, Fault> {
    let hash = hash_in(hash)?;
    let secret = bytes_in(alloc, inputs[0])?;
    let label = bytes_in(alloc, inputs[1])?;
    let context = bytes_in(alloc, inputs[2])?;
    let mut out = room_in(alloc, len)?;
    hkdf_expand_label(
        hash,
        secret.as_slice(),
        label.as_slice(),
        context.as_slice(),
        out.as_mut_slice(),
    )?;
    Ok(out)
}
