//! What the fold reads of a snapshot.

/// What the fold reads of a snapshot's body.
#[derive(Clone, Copy, Debug, PartialEq, Eq)]
pub struct Installed {
    /// How many entries it stands for.
    pub base: u64,
    /// The view of the last of them.
    pub view: u32,
}
