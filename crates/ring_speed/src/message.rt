// SPDX-License-Identifier: ISC
//! Messages whose first bytes change.

ghost use Rattle.std.specs.Prelude.{◌≡◌, ◌≤◌, ◌++◌, drop, length};
ghost use Rattle.ring_speed.specs.Repeats as repeats;

// The bytes of a long message.
pub(crate) const LONG_LEN: usize = 65_536;

// The bytes of a short message.
pub(crate) const SHORT_LEN: usize = 64;

// The password of the store.
pub(crate) const KEY: [u8; 32] = [0x6b; 32];

// The salt of the store.
pub(crate) const SALT: [u8; 16] = [0x73; 16];

// Writes the bytes in the place of as many of the message's first.
pub(crate) fn replace_front(message: &mut [u8], bytes: &[u8])
    requires { length bytes.now ≤ length message.old }
    ensures { message.new ≡ bytes.now ++ drop (length bytes.now) message.old }
{
    message[..bytes.len()].copy_from_slice(bytes);
}

// The number that the first eight bytes write, the highest first.
pub(crate) fn front(message: &[u8]) -> u64
    requires { 8 ≤ length message.now }
    ensures { result ≡ repeats.front message.now }
{
    u64::from_be_bytes(*message[..8].as_array::<8>().unwrap())
}
