use thiserror::Error;

/// The view in which a service begins.
pub const FIRST_VIEW: u32 = 2;

/// The last view that there can be.
pub const LAST_VIEW: u32 = 0xffff_ffff;

/// The last place of a ledger.
pub const LAST_SEQNO: u64 = 0xff_ffff_ffff;

/// A transaction identifier (CCF documentation, "Transaction identifiers"): the view in which its
/// entry was made, from 1 to 2^32 - 1, and the entry's place in the ledger, from 1 to 2^40 - 1.
/// Identifiers are ordered by view, then by place.
#[derive(Clone, Copy, Debug, PartialEq, Eq, PartialOrd, Ord)]
pub struct TxId {
    pub view: u32,
    pub seqno: u64,
}

/// Why a text is no transaction identifier. A place is counted in the whole text, from 0.
#[derive(Clone, Copy, Debug, PartialEq, Eq, Error)]
pub enum TxIdFault {
    #[error("a part is empty")]
    Empty,
    #[error("no digit at {at}")]
    Digit { at: usize },
    #[error("a zero stands before other digits at {at}")]
    LeadingZero { at: usize },
    #[error("a number is too big")]
    TooBig,
    #[error("a number is zero")]
    Zero,
    #[error("no dot")]
    NoDot,
}

/// What one node knows of a transaction (CCF documentation, "Transaction status").
#[derive(Clone, Copy, Debug, PartialEq, Eq)]
pub enum Status {
    /// It may still come, or be of a view that this node hasn't heard of.
    Unknown,
    /// This node holds it, above its commit.
    Pending,
    /// It is committed, for good and at every node.
    Committed,
    /// It is not committed and never will be.
    Invalid,
}
