//! What a request of governance does.

use gl_gov_rules::ProposalStatus;
use gl_vmaps::Writes;

/// How many shares of the recovery secret were given, and how many the dealing asks for.
#[derive(Clone, Copy, Debug, PartialEq, Eq)]
pub struct ShareCount {
    pub have: u64,
    pub need: u8,
}

/// What a request does that is accepted.
#[derive(Debug, Drop)]
pub struct GovernanceEffect {
    /// What its entry writes: the rows whose bytes are new or changed, and the removals of those
    /// that are gone.
    pub writes: Writes,
    /// The proposal that it makes, answers or takes back, and its state after this request.
    pub proposal: Option<ProposalStatus>,
    /// The shares that are given with it.
    pub shares: ShareCount,
}
