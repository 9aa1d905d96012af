//! One-time leaves of a node's key.

ghost use Rattle.std.specs.Prelude.{◌≤◌};

/// How many one-time leaves of a node's key are reserved, and how many of these it has used.
#[derive(Clone, Copy, Debug)]
pub struct Leaves {
    pub used: u64,
    pub reserved: u64,
    ghost within: { used ≤ reserved },
}
