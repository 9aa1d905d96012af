//! Why a signature isn't accepted.

use thiserror::Error;

/// The first thing, from left to right, that is wrong with a key or a signature.
#[derive(Clone, Copy, Debug, PartialEq, Eq, Error)]
pub enum HssFault {
    /// The typecode at this place isn't known, or isn't the one that the signing key has.
    #[error("type at {at}")]
    Types { at: u64 },
    /// The bytes are fewer or more than such a signature has at the least.
    #[error("length {got}, not {want}")]
    Length { want: u64, got: u64 },
    /// The number of levels in the key, or in the signature the number of levels minus one.
    #[error("levels {got}, not {want}")]
    Levels { want: u32, got: u32 },
    /// The signature leads to another root than the signing key's.
    #[error("root {got:?}, not {want:?}")]
    Root { want: [u8; 32], got: [u8; 32] },
    /// The tree has no such leaf.
    #[error("leaf {q}")]
    Leaf { q: u32 },
}
