// SPDX-License-Identifier: ISC
//! What is asked of a traffic secret, an exporter's secret and a resumption's.

ghost use Rattle.std.specs.Prelude.{◌≡◌};
ghost use Rattle.ring_schedules.specs.Stages.{traffic_value};

use crate::fault::Fault;
use crate::schedules::finished::finished_output;
use crate::words::{bytes_in, copy_of, room_in};
use ring_schedules::hash::Hash;
use ring_schedules::tls13::{ExporterSecret, ResumptionSecret, TrafficSecret};
use std::alloc::Global;

/// Of a traffic secret: `secret`, `key:LEN`, `iv`, `next`, `finished` or `finished:DIGEST`.
pub fn traffic_output(
    alloc: Global,
    hash: Hash,
    traffic: TrafficSecret,
    output: &str,
) -> Result<Vec<u8>, Fault>
    requires { (traffic_value traffic).hash ≡ hash }
{
    if output == "secret" {
        return copy_of(alloc, traffic.as_ref());
    }
    if output == "iv" {
        return copy_of(alloc, &traffic.write_iv());
    }
    if output == "next" {
        return copy_of(alloc, traffic.into_next().as_ref());
    }
    if output == "finished" || output.starts_with("finished:") {
        return finished_output(alloc, hash, &traffic.finished_key(), output);
    }
    let Some(len) = output.strip_prefix("key:") else {
        return Err(Fault::BadLine);
    };
    let mut key = room_in(alloc, len)?;
    traffic.write_key(key.as_mut_slice())?;
    Ok(key)
}

/// Of an exporter's secret: `secret`, or `export:LABEL:CONTEXT:LEN`.
pub fn exporter_output(
    alloc: Global,
    exporter: &ExporterSecret,
    output: &str,
) -> Result<Vec<u8>, Fault> {
    let words: Vec<&str> = output.split(':').collect(alloc)?;
    match words.as_slice() {
        [_] => copy_of(alloc, exporter.as_ref()),
        [_, label, context, len] => {
            let label = bytes_in(alloc, label)?;
            let context = bytes_in(alloc, context)?;
            let mut out = room_in(alloc, len)?;
            exporter.export(label.as_slice(), context.as_slice(), out.as_mut_slice())?;
            Ok(out)
        }
        _ => Err(Fault::BadLine),
    }
}

/// Of a resumption's secret: `secret`, or `psk:NONCE`.
pub fn resumption_output(
    alloc: Global,
    resumption: &ResumptionSecret,
    output: &str,
) -> Result<Vec<u8>, Fault> {
    match output.split_once(':') {
        None => copy_of(alloc, resumption.as_ref()),
        Some((_, digits)) => {
            let nonce = bytes_in(alloc, digits)?;
            copy_of(alloc, resumption.psk(nonce.as_slice())?.as_ref())
        }
    }
}
