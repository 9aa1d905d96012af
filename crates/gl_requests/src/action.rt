//! What members propose.

use crate::genesis::{Dealing, NewMember, NodeId};
use gl_base::Sequence;

/// A fraction of the active members, `num / den`, which more have to agree than to.
#[derive(Clone, Copy, Debug)]
pub struct Rule {
    /// The numerator.
    pub num: u16,
    /// The denominator.
    pub den: u16,
}

/// What a proposal does once it is accepted (CCF documentation, "Proposals").
#[derive(Debug, Drop)]
pub enum Action {
    /// Takes a new member in, which is to acknowledge the service.
    SetMember(NewMember),
    /// Removes the member with this number.
    RemoveMember(u8),
    /// Deals a new recovery secret.
    SetRecoveryThreshold(Dealing),
    /// Trusts a node that joined, so that it takes part in consensus.
    TransitionNodeToTrusted(NodeId),
    /// Takes a node out of service for good.
    RemoveNode(NodeId),
    /// Opens the service to requests of applications; a recovered one asks for shares first.
    TransitionServiceToOpen,
    /// Sets the rule of each of the seven actions, in the order in which they stand here.
    SetConstitution(Sequence<Rule>),
}
