// SPDX-License-Identifier: ISC
//! What is asked of the stages of TLS 1.3.

ghost use Rattle.std.specs.Prelude.{◌≡◌, IfOk};
ghost use Rattle.ring_schedules.specs.Stages.{early_value, handshake_value, master_value};

use crate::fault::Fault;
use crate::schedules::finished::finished_output;
use crate::schedules::traffic::{exporter_output, resumption_output, traffic_output};
use crate::words::{bytes_in, hash_in};
use ring::error::Unspecified;
use ring_schedules::hash::Hash;
use ring_schedules::tls13::{EarlySecret, HandshakeSecret, MasterSecret};
use ring_schedules::transcript::{
    ClientFinished, ClientHello, ServerFinished, ServerHello, TranscriptHash,
};
use std::alloc::Global;

/// What a handshake brings: a PSK, an (EC)DHE secret, and the hash of a transcript.
#[derive(Drop)]
pub struct Inputs {
    hash: Hash,
    psk: Option<Vec<u8>>,
    shared: Option<Vec<u8>>,
    digest: Vec<u8>,
}

impl Inputs {
    /// The inputs of three words: a PSK and an (EC)DHE secret, each `none` where there is none, and
    /// the hash of a transcript.
    pub fn new(alloc: Global, hash: &str, words: [&str; 3]) -> Result<Self, Fault> {
        Ok(Inputs {
            hash: hash_in(hash)?,
            psk: secret_in(alloc, words[0])?,
            shared: secret_in(alloc, words[1])?,
            digest: bytes_in(alloc, words[2])?,
        })
    }
}

/// The bytes of a word; none where there is no secret.
fn secret_in(alloc: Global, word: &str) -> Result<Option<Vec<u8>>, Fault> {
    match word {
        "none" => Ok(None),
        digits => Ok(Some(bytes_in(alloc, digits)?)),
    }
}

/// The first stage.
fn early_of(hash: Hash, psk: &Option<Vec<u8>>) -> Result<EarlySecret, Unspecified>
    ensures { IfOk result (λ early. (early_value early).hash ≡ hash) }
{
    match psk {
        Some(psk) => EarlySecret::new(hash, psk.as_slice()),
        None => Ok(EarlySecret::without_psk(hash)),
    }
}

/// The second stage.
fn handshake_of(
    hash: Hash,
    psk: &Option<Vec<u8>>,
    shared: &Option<Vec<u8>>,
) -> Result<HandshakeSecret, Unspecified>
    ensures { IfOk result (λ handshake. (handshake_value handshake).hash ≡ hash) }
{
    let early = early_of(hash, psk)?;
    match shared {
        Some(shared) => early.into_handshake(shared.as_slice()),
        None => Ok(early.into_handshake_without_shared()),
    }
}

/// The last stage.
fn master_of(
    hash: Hash,
    psk: &Option<Vec<u8>>,
    shared: &Option<Vec<u8>>,
) -> Result<MasterSecret, Unspecified>
    ensures { IfOk result (λ master. (master_value master).hash ≡ hash) }
{
    Ok(handshake_of(hash, psk, shared)?.into_master())
}

/// What is asked for: the name of a secret, and what is made of it.
#[derive(Clone, Copy)]
pub struct Wanted<'a> {
    pub name: &'a str,
    pub output: &'a str,
}

/// The answer to what is asked for.
pub fn stage_output(alloc: Global, inputs: &Inputs, wanted: Wanted) -> Result<Vec<u8>, Fault> {
    match wanted.name {
        "ext-binder" | "res-binder" => binder_output(alloc, inputs, wanted),
        "c-e-traffic" | "e-exp-master" => early_output(alloc, inputs, wanted),
        "c-hs-traffic" | "s-hs-traffic" => handshake_output(alloc, inputs, wanted),
        "c-ap-traffic" | "s-ap-traffic" | "exp-master" => { master_output(alloc, inputs, wanted) }
        "res-master" => last_output(alloc, inputs, wanted),
        _ => Err(Fault::BadLine),
    }
}

/// Of a binder's key.
fn binder_output(alloc: Global, inputs: &Inputs, wanted: Wanted) -> Result<Vec<u8>, Fault> {
    let early = early_of(inputs.hash, &inputs.psk)?;
    let key = match wanted.name {
        "ext-binder" => early.external_binder_key(),
        _ => early.resumption_binder_key(),
    };
    finished_output(alloc, inputs.hash, &key, wanted.output)
}

/// Of a secret of the first stage.
fn early_output(alloc: Global, inputs: &Inputs, wanted: Wanted) -> Result<Vec<u8>, Fault> {
    let hash = inputs.hash;
    let hello = TranscriptHash::new(ClientHello, hash, inputs.digest.as_slice())?;
    let early = early_of(hash, &inputs.psk)?;
    if wanted.name == "c-e-traffic" {
        let traffic = early.client_early_traffic_secret(&hello);
        return traffic_output(alloc, hash, traffic, wanted.output);
    }
    let exporter = early.early_exporter_master_secret(&hello);
    exporter_output(alloc, &exporter, wanted.output)
}

/// Of a secret of the second stage.
fn handshake_output(alloc: Global, inputs: &Inputs, wanted: Wanted) -> Result<Vec<u8>, Fault> {
    let hash = inputs.hash;
    let hellos = TranscriptHash::new(ServerHello, hash, inputs.digest.as_slice())?;
    let handshake = handshake_of(hash, &inputs.psk, &inputs.shared)?;
    let traffic = match wanted.name {
        "c-hs-traffic" => handshake.client_handshake_traffic_secret(&hellos),
        _ => handshake.server_handshake_traffic_secret(&hellos),
    };
    traffic_output(alloc, hash, traffic, wanted.output)
}

/// Of a secret of the last stage.
fn master_output(alloc: Global, inputs: &Inputs, wanted: Wanted) -> Result<Vec<u8>, Fault> {
    let hash = inputs.hash;
    let to_server = TranscriptHash::new(ServerFinished, hash, inputs.digest.as_slice())?;
    let master = master_of(hash, &inputs.psk, &inputs.shared)?;
    let traffic = match wanted.name {
        "c-ap-traffic" => master.client_application_traffic_secret(&to_server),
        "s-ap-traffic" => master.server_application_traffic_secret(&to_server),
        _ => {
            let exporter = master.exporter_master_secret(&to_server);
            return exporter_output(alloc, &exporter, wanted.output);
        }
    };
    traffic_output(alloc, hash, traffic, wanted.output)
}

/// Of the resumption's secret.
fn last_output(alloc: Global, inputs: &Inputs, wanted: Wanted) -> Result<Vec<u8>, Fault> {
    let hash = inputs.hash;
    let to_client = TranscriptHash::new(ClientFinished, hash, inputs.digest.as_slice())?;
    let master = master_of(hash, &inputs.psk, &inputs.shared)?;
    let resumption = master.into_resumption_master_secret(&to_client);
    resumption_output(alloc, &resumption, wanted.output)
}
