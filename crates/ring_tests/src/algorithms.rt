// SPDX-License-Identifier: ISC
//! The algorithms that tests go over, and what the standards and other implementations say of each.

use ring::digest::{
    Algorithm, SHA1_FOR_LEGACY_USE_ONLY, SHA1_OUTPUT_LEN, SHA256, SHA256_OUTPUT_LEN, SHA384,
    SHA384_OUTPUT_LEN, SHA512, SHA512_256, SHA512_256_OUTPUT_LEN, SHA512_OUTPUT_LEN,
};
use ring::{hkdf, hmac, pbkdf2};
use sha1::Sha1;
use sha2::{Digest, Sha256, Sha384, Sha512, Sha512_256};

/// A digest algorithm.
#[derive(Clone, Copy)]
pub struct Row {
    pub algorithm: Algorithm,
    /// What Debug prints, as the original's own tests have it.
    pub name: &'static str,
    /// The bytes of a block (FIPS 180-4, section 1, figure 1).
    pub block_len: usize,
    /// The bytes of the chaining words, as the original's documentation has them.
    pub chaining_len: usize,
    /// The bytes of a digest (figure 1).
    pub output_len: usize,
    /// The constant of these bytes.
    pub output_len_constant: usize,
    /// The digest of `hello, world`, by OpenSSL.
    pub digest: &'static str,
}

const SHA1_ROW: Row = Row {
    algorithm: SHA1_FOR_LEGACY_USE_ONLY,
    name: "SHA1",
    block_len: 64,
    chaining_len: 20,
    output_len: 20,
    output_len_constant: SHA1_OUTPUT_LEN,
    digest: "b7e23ec29af22b0b4e41da31e868d57226121c84",
};

const SHA256_ROW: Row = Row {
    algorithm: SHA256,
    name: "SHA256",
    block_len: 64,
    chaining_len: 32,
    output_len: 32,
    output_len_constant: SHA256_OUTPUT_LEN,
    digest: "09ca7e4eaa6e8ae9c7d261167129184883644d07dfba7cbfbc4c8a2e08360d5b",
};

const SHA384_ROW: Row = Row {
    algorithm: SHA384,
    name: "SHA384",
    block_len: 128,
    chaining_len: 64,
    output_len: 48,
    output_len_constant: SHA384_OUTPUT_LEN,
    digest: "1fcdb6059ce05172a26bbe2a3ccc88ed5a8cd5fc53edfd9053304d429296a6da\
        23b1cd9e5c9ed3bb34f00418a70cdb7e",
};

const SHA512_ROW: Row = Row {
    algorithm: SHA512,
    name: "SHA512",
    block_len: 128,
    chaining_len: 64,
    output_len: 64,
    output_len_constant: SHA512_OUTPUT_LEN,
    digest: "8710339dcb6814d0d9d2290ef422285c9322b7163951f9a0ca8f883d3305286f\
        44139aa374848e4174f5aada663027e4548637b6d19894aec4fb6c46a139fbf9",
};

const SHA512_256_ROW: Row = Row {
    algorithm: SHA512_256,
    name: "SHA512_256",
    block_len: 128,
    chaining_len: 64,
    output_len: 32,
    output_len_constant: SHA512_256_OUTPUT_LEN,
    digest: "11f2c88c04f0a9c3d0970894ad2472505e0bc6e8c7ec46b5211cd1fa3e253e62",
};

/// All digest algorithms.
pub const ROWS: [Row; 5] = [SHA1_ROW, SHA256_ROW, SHA384_ROW, SHA512_ROW, SHA512_256_ROW];

/// A digest algorithm with HMAC, HKDF and PBKDF2 over it. The keys are those of
/// `hashlib.pbkdf2_hmac` in Python, by their digest by SHA-256.
#[derive(Clone, Copy)]
pub struct KeyedRow {
    pub digest: Row,
    pub hmac: hmac::Algorithm,
    pub hkdf: hkdf::Algorithm,
    pub pbkdf2: pbkdf2::Algorithm,
    /// The keys of 20 bytes of `pbkdf2_each`, one after another, and those of 32, 64 and 100 bytes.
    pub of_20_bytes: &'static str,
    pub of_32_bytes: &'static str,
    pub of_64_bytes: &'static str,
    pub of_100_bytes: &'static str,
    /// The key of `pbkdf2`, of 700 bytes.
    pub of_700_bytes: &'static str,
}

/// All algorithms of HMAC, HKDF and PBKDF2.
pub const KEYED_ROWS: [KeyedRow; 4] = [
    KeyedRow {
        digest: SHA1_ROW,
        hmac: hmac::HMAC_SHA1_FOR_LEGACY_USE_ONLY,
        hkdf: hkdf::HKDF_SHA1_FOR_LEGACY_USE_ONLY,
        pbkdf2: pbkdf2::PBKDF2_HMAC_SHA1,
        of_20_bytes: "d221a6505560cce915e35f74146f730dc4fa6b58b14472693170548c1327e9f9",
        of_32_bytes: "706e34c5123e8730a5a6a19bd6550d30d077ed6bcac9d7c1508fe9fb89f54bd6",
        of_64_bytes: "23b5b1ce7b5fb77fe6a188b26fb81b3908315bbe7071550c37d51fab2a268844",
        of_100_bytes: "f1d56e5592378e69580fc9a251609f78f0b44e72bc87ebeef5458ca71a0b3779",
        of_700_bytes: "e3dcdb27116216d6bf382e7b4aa94e3d2da42fe4b29adf2855b4c068965b2770",
    },
    KeyedRow {
        digest: SHA256_ROW,
        hmac: hmac::HMAC_SHA256,
        hkdf: hkdf::HKDF_SHA256,
        pbkdf2: pbkdf2::PBKDF2_HMAC_SHA256,
        of_20_bytes: "022a740add93959572f8847b4ae12f85c5b0f359d21566f65ef9d9f40d25231a",
        of_32_bytes: "055c975b2528ef558adca7a1d71dae17652d3124450c36047b2ed723321c5667",
        of_64_bytes: "12a51e833229fd6d753584abcd20963e48f5f740a088a2ee31643a58eac09eae",
        of_100_bytes: "9700628fd12481335201d61188fd8f32a4b33be79f9ea5c8743faa7234a5bc5b",
        of_700_bytes: "2075cffdeda9e8f5dc42449ab51881cb5e3d913517a5ee656d3787411ed5f7f7",
    },
    KeyedRow {
        digest: SHA384_ROW,
        hmac: hmac::HMAC_SHA384,
        hkdf: hkdf::HKDF_SHA384,
        pbkdf2: pbkdf2::PBKDF2_HMAC_SHA384,
        of_20_bytes: "1e4912720d9d6dae4681c05b1a4910409a19bd2bf0e1cb48bdc29d309d1bbe45",
        of_32_bytes: "3d3b98b079a08d12efaecb278e6825995499d0f4c04cfe7ba040308aaa478b00",
        of_64_bytes: "e7b6d0a457c579c67316292b9bc2c34799d939713249ee25883695bd30a55637",
        of_100_bytes: "7a13a0f0a6ec9957b30825499a0558e8e2f1785adab2ee870087cc70d2d36efc",
        of_700_bytes: "9654562fd446376e219b76bbcde953b2ca36123f09ee70de937c157c794025ab",
    },
    KeyedRow {
        digest: SHA512_ROW,
        hmac: hmac::HMAC_SHA512,
        hkdf: hkdf::HKDF_SHA512,
        pbkdf2: pbkdf2::PBKDF2_HMAC_SHA512,
        of_20_bytes: "676ff42423bbe6ba215a90104c378310eff78ccde5f4bfd99394ae3a780c7cef",
        of_32_bytes: "3d0177cdca25e10d3f40f8a6c86cf77a24c0e73e72274958ee75b9734b1191c3",
        of_64_bytes: "de148e4869a3a0ba4f28c96dda91cba08aa5c2aedaff0d32f2b697331a08bf2e",
        of_100_bytes: "5845bfecb77a64dbba506fe2ec5a48a460f7781246e05037dc55987c5e138cf1",
        of_700_bytes: "5aa40e3591edf3f38e8b1db73fe5abfcdb3bd4cee002d59aa24ff755654c1fc2",
    },
];

/// Whether the crates `sha1` and `sha2` give the digest `made`.
pub fn is_of_others(algorithm: Algorithm, message: &[u8], made: &[u8]) -> bool {
    if algorithm == SHA1_FOR_LEGACY_USE_ONLY {
        return made == Sha1::digest(message).as_slice();
    }
    if algorithm == SHA256 {
        return made == Sha256::digest(message).as_slice();
    }
    if algorithm == SHA384 {
        return made == Sha384::digest(message).as_slice();
    }
    if algorithm == SHA512 {
        return made == Sha512::digest(message).as_slice();
    }
    made == Sha512_256::digest(message).as_slice()
}

/// Pieces of one byte, and of a block, a byte less and a byte more.
pub fn piece_lens(row: &Row) -> [usize; 4] {
    let block_len = if row.block_len == 64 { 64 } else { 128 };
    [1, block_len - 1, block_len, block_len + 1]
}
