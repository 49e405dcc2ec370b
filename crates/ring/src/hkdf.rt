// SPDX-License-Identifier: ISC
//! Keys derived from secrets: HKDF (RFC 5869).
//!
//! A [`Salt`] extracts a pseudorandom key, a [`Prk`], from a secret. The PRK is expanded to output,
//! an [`Okm`], of as many bytes as a [`KeyType`] says. The info says what the output is for. The
//! output is taken once: into a buffer, or as a key, a salt or a PRK.
//!
//! | In the RFC | Here |
//! |---|---|
//! | salt, IKM, PRK | the value of a [`Salt`], `secret`, [`Prk`] |
//! | info | `info`, in pieces that are joined |
//! | L | [`KeyType::len`], the number of bytes of the output |
//! | OKM | the bytes that [`Okm::fill`] writes |
//!
//! A type of the caller's own tells the length of a buffer:
//!
//! ```
//! #[derive(Drop)]
//! pub struct Length(pub usize);
//!
//! impl KeyType for Length {
//!     ghost key_len = { λ length. length.0 };
//!
//!     fn len(&self) -> usize {
//!         self.0
//!     }
//! }
//!
//! /// Fills the whole of `out` with output for the purpose that `info` names. Where that is
//! /// refused, `out` is as it was.
//! pub fn expand_secret(
//!     salt: &[u8],
//!     secret: &[u8],
//!     info: &[&[u8]],
//!     out: &mut [u8],
//! ) -> Result<(), Unspecified>
//!     ensures ok { OnOk result (out.new ≡ okm SHA256
//!         (hmac_of SHA256 salt.now secret.now) (joined info.now) (length out.old)) }
//!     ensures refused { IsOk result ↔ ((length salt.now ≤ max_input_len SHA256)
//!         × IsTagWithin SHA256 (length secret.now)
//!         × IsOutputWithin SHA256 (length out.old)
//!         × IsInfoWithin SHA256 (length (joined info.now)) (length out.old)) }
//!     ensures unchanged { OnErr result (out.new ≡ out.old) }
//! {
//!     let prk = Salt::new(HKDF_SHA256, salt)?.extract(secret)?;
//!     prk.expand(info, Length(out.len()))?.fill(out)
//! }
//! ```
//!
//! Output that is expanded for an algorithm becomes a key for it:
//!
//! ```
//! pub fn tag_under_output(
//!     salt: &[u8],
//!     secret: &[u8],
//!     info: &[&[u8]],
//!     message: &[u8],
//! ) -> Result<Tag, Unspecified>
//!     ensures ok { IfOk result (λ tag. IsTag tag SHA256 (okm SHA256
//!         (hmac_of SHA256 salt.now secret.now) (joined info.now) 32) message.now) }
//!     ensures refused { IsOk result ↔ ((length salt.now ≤ max_input_len SHA256)
//!         × IsTagWithin SHA256 (length secret.now)
//!         × IsInfoWithin SHA256 (length (joined info.now)) 32
//!         × IsTagWithin SHA256 (length message.now)) }
//! {
//!     let prk = Salt::new(HKDF_SHA256, salt)?.extract(secret)?;
//!     let key = Key::try_from(prk.expand(info, HMAC_SHA256)?)?;
//!     sign(&key, message)
//! }
//! ```
//!
//! The imports of these examples stand in `crates/ring_examples/src/hkdf.rt`.

pub(crate) mod algorithm;
mod conversions;
pub(crate) mod key_type;
pub(crate) mod prk;
mod rounds;
pub(crate) mod salt;

pub use crate::hkdf::algorithm::{
    Algorithm, HKDF_SHA1_FOR_LEGACY_USE_ONLY, HKDF_SHA256, HKDF_SHA384, HKDF_SHA512,
    constants_are_based_on_their_digests,
};
pub use crate::hkdf::key_type::KeyType;
pub use crate::hkdf::prk::{Okm, Prk};
pub use crate::hkdf::salt::Salt;
pub use crate::limits::{is_output_within, max_okm_len};
