//! The key that a journal begins with.

use gl_hss::Types;

/// Whose key it is.
#[derive(Clone, Copy, Debug, PartialEq, Eq)]
pub enum KeyKind {
    Service,
    Node,
    Member,
}

/// A key: the seed of its one-time keys, and its parameter set.
#[derive(Clone, Copy, Debug, PartialEq, Eq)]
pub struct Key {
    pub kind: KeyKind,
    pub types: Types,
    pub seed: [u8; 32],
}
