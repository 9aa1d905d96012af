//! The rows of the governance tables, as values (CCF documentation, "Builtin Maps").

use crate::change::ProposalState;
use crate::refusal::{MemberStatus, NodeStatus};
use gl_base::{Bytes, Sequence};
use gl_requests::{
    Action, Dealing, Digest, HssPublicKey, LmsPublicKey, NodeId, Rule, ServiceState,
};
use gl_shares::Share;

/// A member's ballot on a proposal.
#[derive(Clone, Copy, Debug, PartialEq, Eq)]
pub struct Vote {
    /// The member's number.
    pub member: u8,
    pub agrees: bool,
}

/// What is known of the service.
#[derive(Clone, Copy, Debug, PartialEq, Eq)]
pub struct ServiceRow {
    pub state: ServiceState,
    /// Whether it was recovered after a disaster.
    pub is_recovered: bool,
    /// The service's key.
    pub identity: HssPublicKey,
}

/// What is known of a member.
#[derive(Clone, Copy, Debug, PartialEq, Eq)]
pub struct MemberRow {
    pub number: u8,
    pub status: MemberStatus,
    /// The key that its requests are signed with.
    pub key: HssPublicKey,
    /// 1 plus the last leaf that it used, 0 where it has used none.
    pub next_leaf: u32,
}

/// What is known of a node.
#[derive(Debug, Drop)]
pub struct NodeRow {
    pub id: NodeId,
    /// Its number in the order in which nodes were recorded, from 1.
    pub order: u16,
    pub status: NodeStatus,
    /// The key that its signatures are checked by.
    pub key: LmsPublicKey,
    /// The service's signature of the key.
    pub endorsement: Bytes,
    /// The seqno of the entry that retired it, or 0.
    pub removal: u64,
}

/// What is known of a proposal.
#[derive(Debug, Drop)]
pub struct ProposalRow {
    pub state: ProposalState,
    /// The number of the member who made it.
    pub proposer: u8,
    pub actions: Sequence<Action>,
    /// Ascending by member.
    pub ballots: Sequence<Vote>,
}

/// A proposal's row under its identifier.
#[derive(Debug, Drop)]
pub struct ProposalAt {
    /// The digest of the request that made it.
    pub id: Digest,
    pub row: ProposalRow,
}

/// A rule of the constitution under the number of its action.
#[derive(Clone, Copy, Debug)]
pub struct RuleAt {
    pub number: u8,
    pub rule: Rule,
}

/// The rows of governance as values, after the entry with a seqno.
#[derive(Debug, Drop)]
pub struct GovernedRows {
    pub seqno: u64,
    pub service: Option<ServiceRow>,
    pub members: Sequence<MemberRow>,
    /// In the order of their numbers.
    pub nodes: Sequence<NodeRow>,
    pub proposals: Sequence<ProposalAt>,
    pub rules: Sequence<RuleAt>,
    pub dealing: Option<Dealing>,
    /// The shares that members gave since they were last cleared.
    pub shares: Sequence<Share>,
}
