//! The parameter sets.

ghost use Rattle.std.specs.Prelude.{◌≡◌, ◌^◌, ◌≤◌};
ghost use Rattle.gl_hss.specs.Types.{height, width, chain_count, checksum_shift, lms_code, ots_code, signature_len, types_of};

/// The bytes of an LMS public key (section 5.3): two typecodes of four bytes, I of 16 and the root
/// of 32.
pub const LMS_KEY_LEN: usize = 56;

/// The most leaves of a tree: 2^10.
pub const MAX_LEAF_COUNT: u32 = 1024;

/// The most bytes of an LMS signature, those of `Types::H10W4`.
pub const MAX_LMS_SIGNATURE_LEN: usize = 2508;

/// A parameter set: the height of the tree, and the width in bits of a digit that a chain signs.
#[derive(Clone, Copy, Debug, PartialEq, Eq)]
pub enum Types {
    /// LMS_SHA256_M32_H5 with LMOTS_SHA256_N32_W4.
    H5W4,
    /// LMS_SHA256_M32_H5 with LMOTS_SHA256_N32_W8.
    H5W8,
    /// LMS_SHA256_M32_H10 with LMOTS_SHA256_N32_W4.
    H10W4,
    /// LMS_SHA256_M32_H10 with LMOTS_SHA256_N32_W8.
    H10W8,
}

impl Types {
    /// The parameter set that has these typecodes, if it is one of these.
    pub fn of_codes(lms: u32, ots: u32) -> Option<Types>
        ensures { result ≡ types_of lms ots }
    {
        match (lms, ots) {
            (5, 3) => Some(Types::H5W4),
            (5, 4) => Some(Types::H5W8),
            (6, 3) => Some(Types::H10W4),
            (6, 4) => Some(Types::H10W8),
            _ => None,
        }
    }

    /// The height h of the tree: a key has 2^h one-time keys (section 5.1).
    pub fn height(self) -> u32
        ensures { result ≡ height self }
    {
        match self {
            Types::H5W4 | Types::H5W8 => 5,
            Types::H10W4 | Types::H10W8 => 10,
        }
    }

    /// The number of leaves, each of which signs once.
    pub fn leaf_count(self) -> u32
        ensures value { result ≡ 2 ^ height self }
        ensures most { result ≤ MAX_LEAF_COUNT }
    {
        match self {
            Types::H5W4 | Types::H5W8 => 32,
            Types::H10W4 | Types::H10W8 => 1024,
        }
    }

    /// The number of bytes of an LMS signature (section 5.4).
    pub fn signature_len(self) -> usize
        ensures value { result ≡ signature_len self }
        ensures most { result ≤ MAX_LMS_SIGNATURE_LEN }
    {
        12 + 32 * (1 + self.chain_count() + self.height() as usize)
    }

    /// The number p of chains of a one-time key (section 4.1).
    pub fn chain_count(self) -> usize
        ensures { result ≡ chain_count self }
    {
        match self {
            Types::H5W4 | Types::H10W4 => 67,
            Types::H5W8 | Types::H10W8 => 34,
        }
    }

    /// The typecode of the tree (section 5.1).
    pub fn lms_code(self) -> u32
        ensures { result ≡ lms_code self }
    {
        match self {
            Types::H5W4 | Types::H5W8 => 5,
            Types::H10W4 | Types::H10W8 => 6,
        }
    }

    /// The typecode of the one-time signature (section 4.1).
    pub fn ots_code(self) -> u32
        ensures { result ≡ ots_code self }
    {
        match self {
            Types::H5W4 | Types::H10W4 => 3,
            Types::H5W8 | Types::H10W8 => 4,
        }
    }

    // The width w in bits of a digit (section 4.1).
    pub(crate) fn width(self) -> usize
        ensures { result ≡ width self }
    {
        match self {
            Types::H5W4 | Types::H10W4 => 4,
            Types::H5W8 | Types::H10W8 => 8,
        }
    }

    // The shift ls to the left of the checksum.
    pub(crate) fn checksum_shift(self) -> u32
        ensures { result ≡ checksum_shift self }
    {
        match self {
            Types::H5W4 | Types::H10W4 => 4,
            Types::H5W8 | Types::H10W8 => 0,
        }
    }
}
