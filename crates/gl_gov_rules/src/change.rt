//! What is recorded of governance, and what it brings about.

use gl_base::Sequence;
use gl_requests::{Action, Digest, GovernanceRequest, HssPublicKey, NewNode, NodeId, ServiceState};

/// A request of governance, and the seqno of the entry that records it.
#[derive(Debug, Drop)]
pub struct Recorded {
    pub seqno: u64,
    pub request: GovernanceRequest,
}

/// The state of a proposal (CCF documentation, "Proposals").
#[derive(Clone, Copy, Debug, PartialEq, Eq)]
pub enum ProposalState {
    /// Members may answer it. Encoded as the byte 1.
    Open,
    /// Enough members agreed, and its actions were applied. Encoded as the byte 2.
    Accepted,
    /// So many members refused that enough never will agree. Encoded as the byte 3.
    Rejected,
    /// Its proposer took it back. Encoded as the byte 4.
    Withdrawn,
    /// Enough members agreed, but an action was bad, and none was applied. Encoded as the byte 5.
    Failed,
    /// A new constitution or a recovery came first. Encoded as the byte 6.
    Dropped,
}

/// A proposal and its state.
#[derive(Clone, Copy, Debug, PartialEq, Eq)]
pub struct ProposalStatus {
    /// The digest of the request that made it.
    pub id: Digest,
    pub state: ProposalState,
}

/// What a request brings about beside being recorded.
#[derive(Debug, Drop)]
pub enum Change {
    /// The service was founded in this state, with this key.
    Founded(ServiceState, HssPublicKey),
    /// The service was recovered with this key.
    Recovered(HssPublicKey),
    /// The action was applied.
    Applied(Action),
    /// The proposal with this identifier is open no more.
    Settled(Digest, ProposalState),
    /// So many shares were given as the dealing asks for.
    Completed,
}

/// A change, and the seqno of the entry that brought it about. One that rows stand for has the
/// seqno 0, but the removal of a node: it has that of the removal, not above the base.
#[derive(Debug, Drop)]
pub struct Changed {
    pub seqno: u64,
    pub change: Change,
}

/// A node that was recorded.
#[derive(Debug, Drop)]
pub struct RecordedNode {
    /// The digest of its key.
    pub id: NodeId,
    /// The seqno of the entry that recorded it, 0 where it is carried.
    pub seqno: u64,
    /// A founding named it, so it was trusted from the start; or it is carried as trusted.
    pub is_founding: bool,
    pub node: NewNode,
}

/// A proposal that was made.
#[derive(Debug, Drop)]
pub struct Proposal {
    /// The digest of the request that made it.
    pub id: Digest,
    /// The seqno of the entry that records it, 0 where it is carried.
    pub seqno: u64,
    /// The number of the member who made it.
    pub proposer: u8,
    pub actions: Sequence<Action>,
}

/// What settled a proposal.
#[derive(Clone, Copy, Debug)]
pub struct Settling {
    /// The seqno of the entry that did, 0 where it is carried.
    pub seqno: u64,
    /// The state in which it did.
    pub state: ProposalState,
}

/// A member's ballot on a proposal.
#[derive(Clone, Copy, Debug)]
pub struct Ballot {
    /// The seqno of the entry that records it, 0 where it is carried.
    pub seqno: u64,
    /// The number of the member who gave it.
    pub member: u8,
    pub agrees: bool,
}

/// How many members count in a ballot, how many of them agreed, and how many refused.
#[derive(Clone, Copy, Debug)]
pub struct Tally {
    pub all: u64,
    pub agreed: u64,
    pub refused: u64,
}
