//! The Merkle tree of a growing list of digests: its root, the path from a leaf to the root, and a
//! frontier that keeps the tree while leaves are added and cut off.
//!
//! The tree is the one of RFC 9162, section 2.1, over digests that are hashed already: one leaf is
//! its own root; the tree of `n` leaves is split at the greatest power of two below `n`; an inner
//! node is the SHA-256 of its left and then its right child, 64 bytes.
//!
//! Begin with `Frontier`.
#![tactic(auto)]

pub use frontier::Frontier;
pub use laws::{
    law_of_climb, law_of_collision, law_of_more_leaves, law_of_peaks, law_of_reaching, law_of_split,
};
pub use tree::{Step, climb, path, root};

mod frontier;
mod laws;
mod levels;
mod tree;

/// A SHA-256 digest: a leaf, an inner node or the root.
pub type Digest = [u8; 32];
