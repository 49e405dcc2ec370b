// SPDX-License-Identifier: ISC
//! The words of a line.

use crate::fault::Fault;
use ring::digest::digest_of_name;
use ring::hmac;
use ring_password_hash::Scheme;
use ring_schedules::hash::Hash;
use ring_tokens::Alg;
use ring_tokens::otp::Digits;
use std::alloc::Global;
use std::num::NonZeroU32;

/// The most bytes that are asked for.
const MAX_LEN: usize = 65_536;

/// The bytes of a word: hex digits, or `-` for none.
pub fn bytes_in(alloc: Global, word: &str) -> Result<Vec<u8>, Fault> {
    match word {
        "-" => Ok(Vec::new(alloc)),
        digits => Ok(hex::decode(alloc, digits)?),
    }
}

/// A number of bytes, as zeros that the answer takes the place of.
pub fn room_in(alloc: Global, word: &str) -> Result<Vec<u8>, Fault> {
    match word.parse::<usize>() {
        Ok(len) if len <= MAX_LEN => Ok(vec![in alloc; 0; len]?),
        _ => Err(Fault::BadLine),
    }
}

/// A hash by its name.
pub fn hash_in(word: &str) -> Result<Hash, Fault> {
    match word {
        "SHA256" => Ok(Hash::Sha256),
        "SHA384" => Ok(Hash::Sha384),
        _ => Err(Fault::BadLine),
    }
}

/// The scheme of a word.
pub fn scheme_in(word: &str) -> Result<Scheme, Fault> {
    Scheme::named(word).ok_or(Fault::BadLine)
}

/// The bytes of a text: the word itself, or hex digits behind `hex:`.
pub fn text_in(alloc: Global, word: &str) -> Result<Vec<u8>, Fault> {
    match word.strip_prefix("hex:") {
        Some(digits) => bytes_in(alloc, digits),
        None => copy_of(alloc, word.as_bytes()),
    }
}

/// An iteration count, or a step in seconds.
pub fn count_in(word: &str) -> Result<NonZeroU32, Fault> {
    let count = word.parse::<u32>().map_err(|_| Fault::BadLine)?;
    NonZeroU32::new(count).ok_or(Fault::BadLine)
}

/// The bytes as a line: themselves if they are UTF-8, as those of each text are whose salt is.
pub fn line_of(alloc: Global, bytes: &[u8]) -> Result<String, Fault> {
    match std::str::from_utf8(bytes) {
        Ok(text) => Ok(String::from_str(alloc, text)?),
        Err(_) => {
            let digits = hex::encode(alloc, bytes)?;
            Ok(format!(in alloc; "hex:{digits}")?)
        }
    }
}

/// A copy of the bytes.
pub fn copy_of(alloc: Global, bytes: &[u8]) -> Result<Vec<u8>, Fault> {
    Ok(Vec::from_slice(alloc, bytes)?)
}

/// The bytes in hex; `-` for none.
pub fn digits_of(alloc: Global, bytes: &[u8]) -> Result<String, Fault> {
    match bytes {
        [] => Ok(String::from_str(alloc, "-")?),
        bytes => Ok(hex::encode(alloc, bytes)?),
    }
}

/// A number of 64 bits.
pub fn number_in(word: &str) -> Result<u64, Fault> {
    word.parse::<u64>().map_err(|_| Fault::BadLine)
}

/// How many counters or steps are tried: one of 16 bits.
pub fn short_in(word: &str) -> Result<u32, Fault> {
    Ok(word.parse::<u16>().map_err(|_| Fault::BadLine)? as u32)
}

/// The algorithm of a token's signature.
pub fn alg_in(word: &str) -> Result<Alg, Fault> {
    match word {
        "HS256" => Ok(Alg::Hs256),
        "HS384" => Ok(Alg::Hs384),
        "HS512" => Ok(Alg::Hs512),
        _ => Err(Fault::BadLine),
    }
}

/// The algorithm of a one-time password.
pub fn hmac_in(word: &str) -> Result<hmac::Algorithm, Fault> {
    let algorithm = digest_of_name(word.as_bytes()).ok_or(Fault::BadLine)?;
    hmac::Algorithm::over(algorithm).ok_or(Fault::BadLine)
}

/// A number of digits.
pub fn digits_in(word: &str) -> Result<Digits, Fault> {
    match word {
        "6" => Ok(Digits::Six),
        "7" => Ok(Digits::Seven),
        "8" => Ok(Digits::Eight),
        _ => Err(Fault::BadLine),
    }
}
