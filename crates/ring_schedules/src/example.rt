// SPDX-License-Identifier: ISC
//! A caller of the schedule of TLS 1.3, proved from the contracts of its calls.

ghost use Rattle.std.specs.Prelude.{◌≡◌, ◌↔◌, codes, length, IfOk, IsOk};
ghost use Rattle.ring.specs.Prelude.{IsTagWithin};
ghost use Rattle.ring_schedules.specs.Hash.{algorithm_of, hash_len, zeros};
ghost use Rattle.ring_schedules.specs.Label.{derive_secret};
ghost use Rattle.ring_schedules.specs.Schedule.{early_secret, handshake_secret, master_secret};
ghost use Rattle.ring_schedules.specs.Stages.{traffic_value};

use crate::hash::Hash;
use crate::tls13::{EarlySecret, TrafficSecret};
use crate::transcript::{ServerFinished, TranscriptHash};
use ring::error::Unspecified;

/// The client's first application traffic secret of a handshake without a PSK, where `shared` is
/// (EC)DHE and `digest` the hash of the messages to the server's Finished (RFC 8446, section 7.1).
///
/// Refused where `hash` has another number of bytes than `digest`, and where one block and `shared`
/// are longer than the digest algorithm's `max_input_len` bytes.
pub fn client_application_secret(
    hash: Hash,
    shared: &[u8],
    digest: &[u8],
) -> Result<TrafficSecret, Unspecified>
    ensures ok { IfOk result (λ secret. traffic_value secret ≡ derive_secret
        (master_secret (handshake_secret (early_secret hash (zeros hash)) shared.now))
        (codes "c ap traffic") digest.now) }
    ensures refused { IsOk result ↔ ((length digest.now ≡ hash_len hash)
        × IsTagWithin (algorithm_of hash) (length shared.now)) }
{
    let to_server = TranscriptHash::new(ServerFinished, hash, digest)?;
    let master = EarlySecret::without_psk(hash)
        .into_handshake(shared)?
        .into_master();
    Ok(master.client_application_traffic_secret(&to_server))
}
