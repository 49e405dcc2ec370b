// SPDX-License-Identifier: ISC
//! What is asked of a Finished key.

ghost use Rattle.std.specs.Prelude.{◌≡◌};
ghost use Rattle.ring_schedules.specs.Stages.{finished_value};

use crate::fault::Fault;
use crate::words::{bytes_in, copy_of};
use ring_schedules::hash::Hash;
use ring_schedules::tls13::FinishedKey;
use ring_schedules::transcript::{BeforeFinished, TranscriptHash};
use std::alloc::Global;

/// The key, or the verify_data of a transcript hash, which has to be verified too.
pub fn finished_output(
    alloc: Global,
    hash: Hash,
    key: &FinishedKey,
    output: &str,
) -> Result<Vec<u8>, Fault>
    requires { (finished_value key.now).hash ≡ hash }
{
    match output.split_once(':') {
        None => copy_of(alloc, key.as_ref()),
        Some((_, digits)) => {
            let digest = bytes_in(alloc, digits)?;
            let transcript = TranscriptHash::new(BeforeFinished, hash, digest.as_slice())?;
            let tag = key.verify_data(&transcript);
            key.verify(&transcript, tag.as_ref())?;
            copy_of(alloc, tag.as_ref())
        }
    }
}
