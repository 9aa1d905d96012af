//! How many there may be of what members govern.

/// The most members that are present at once.
pub const MAX_MEMBERS: usize = 64;

/// The most nodes that are trusted at once.
pub const MAX_TRUSTED_NODES: usize = 32;

/// The most nodes that wait to be trusted.
pub const MAX_PENDING_NODES: u32 = 64;

/// The most nodes that are ever recorded.
pub const MAX_RECORDED_NODES: u32 = 65_535;

/// The most proposals that are open at once.
pub const MAX_OPEN_PROPOSALS: u32 = 256;

/// The greatest denominator of a rule's fraction.
pub const MAX_DENOMINATOR: u16 = 1000;
