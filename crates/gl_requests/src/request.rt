//! Requests of governance.

use crate::action::Action;
use crate::genesis::{Digest, Genesis, NewNode, NodeId, Recovery};
use gl_base::{Bytes, Sequence};

/// What a member asks for.
#[derive(Debug, Drop)]
pub enum MemberAct {
    /// Acknowledges the service. From then on the member is active.
    Ack,
    /// Makes a proposal of 1 to 16 actions, which are applied in this order.
    Propose(Sequence<Action>),
    /// Answers a proposal.
    Ballot {
        /// The proposal's identifier.
        proposal: Digest,
        /// Whether the member agrees.
        agrees: bool,
    },
    /// Takes a proposal of the member's own back.
    Withdraw {
        /// The proposal's identifier.
        proposal: Digest,
    },
    /// Gives the member's share of the recovery secret.
    Share {
        /// The 32 bytes of the share.
        share: [u8; 32],
    },
}

/// A request that a member signed.
#[derive(Debug, Drop)]
pub struct MemberRequest {
    /// The member's number, from 1.
    pub member: u8,
    pub act: MemberAct,
    /// The member's HSS signature of one level, over what `signed_bytes` gives.
    pub signature: Bytes,
}

/// A request of governance.
#[derive(Debug, Drop)]
pub enum GovernanceRequest {
    /// Founds a service. Tag 1.
    Genesis(Genesis),
    /// Recovers a service. Tag 2.
    Recover(Recovery),
    /// Asks that a node be recorded, which members may trust then. Tag 3.
    Join(NewNode),
    /// Marks a node as one that may be switched off. Tag 4.
    Mark(NodeId),
    /// What a member asks for. Tags 5 to 9, in the order of the acts.
    Member(MemberRequest),
}
