// SPDX-License-Identifier: ISC
//! Key schedules, against the RFCs' own values. tests/schedules.py has the other traces and peers.

use crate::texts::is_hex_of;
use ring::error::Unspecified;
use ring_schedules::example::client_application_secret;
use ring_schedules::hash::Hash;
use ring_schedules::label::hkdf_expand_label;
use ring_schedules::quic::{Version, header_key, initial_secrets, packet_iv, packet_key};

// RFC 8448, section 3: the shared secret, and the hash of ClientHello to the server's Finished.
const SHARED: &str = "8bd4054fb55b9d63fdfbacf9f04b9f0d35e6d63f537563efd46272900f89492d";

const TRANSCRIPT: &str = "9608102a0f1ccc6db6250b7b7e417b1a000eaada3daae4777a7686c9ff83df13";

const CLIENT_APPLICATION: &str = "9e40646ce79a7f9dc05af8889bce6552875afa0b06df0087f792ebb7c17504a5";

fn hash_in(digits: &str) -> [u8; 32] {
    let mut bytes = [0; 32];
    let _ = hex::decode_to_slice(digits, &mut bytes);
    bytes
}

#[test]
fn client_of_rfc_8448(rt: HostRuntime) -> Result<(), Unspecified> {
    let (shared, transcript) = (hash_in(SHARED), hash_in(TRANSCRIPT));
    let secret = client_application_secret(Hash::Sha256, &shared, &transcript)?;
    assert!(rt; is_hex_of(CLIENT_APPLICATION, secret.as_ref()));
    let mut key = [0; 16];
    secret.write_key(&mut key)?;
    assert!(rt; is_hex_of("17422dda596ed5d9acd890e3c63f5051", &key));
    assert!(rt; is_hex_of("5b78923dee08579033e523d9", &secret.write_iv()));
    Ok(())
}

#[test]
fn transcripts_of_another_length(rt: HostRuntime) {
    let shared = hash_in(SHARED);
    for len in 0..49 {
        let taken = client_application_secret(Hash::Sha384, &shared, &[1; 49][..len]).is_ok();
        assert!(rt; taken == (len == 48));
    }
}

// RFC 8446, section 7.1: a label of 7 to 255 bytes with its prefix, and a context of 255 at most.
#[test]
fn labels_and_contexts_at_their_limits(rt: HostRuntime) {
    let bytes = [1; 256];
    for (label_len, context_len) in [(0, 0), (1, 0), (249, 255), (250, 0), (1, 256)] {
        let mut out = [7; 40];
        let (label, context) = (&bytes[..label_len], &bytes[..context_len]);
        let is_ok = hkdf_expand_label(Hash::Sha256, b"secret", label, context, &mut out).is_ok();
        assert!(rt; is_ok == (label_len == 1 && context_len == 0 || label_len == 249));
        assert!(rt; is_ok || out == [7; 40]);
    }
}

// RFC 9001, appendix A.1.
#[test]
fn client_of_rfc_9001(rt: HostRuntime) -> Result<(), Unspecified> {
    let connection_id = [0x83, 0x94, 0xc8, 0xf0, 0x3e, 0x51, 0x57, 0x08];
    let client = initial_secrets(Version::V1, &connection_id)?.client;
    let (mut key, mut header) = ([0; 16], [0; 16]);
    packet_key(Version::V1, &client, &mut key)?;
    header_key(Version::V1, &client, &mut header)?;
    assert!(rt; is_hex_of("1f369613dd76d5467730efcbe3b1a22d", &key));
    assert!(rt; is_hex_of("fa044b2f42a3fd3b46fb255c", &packet_iv(Version::V1, &client)));
    assert!(rt; is_hex_of("9f50449e04a0e810283a1e9933adedd2", &header));
    Ok(())
}
