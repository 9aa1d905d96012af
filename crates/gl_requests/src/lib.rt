//! Requests of governance: their values, their bytes both ways, and what members sign.
//!
//! Begin with `GovernanceRequest`.
#![tactic(auto)]

mod action;
mod copy;
mod decode;
mod encode;
mod genesis;
mod laws;
mod ranges;
mod request;

pub use action::{Action, Rule};
pub use copy::copy_actions;
pub use decode::{
    read_action, read_dealing, read_digest, read_member_number, read_node, read_rule,
};
pub use encode::actions_bytes;
pub use genesis::{
    Dealing, Digest, Genesis, HssPublicKey, LmsPublicKey, NewMember, NewNode, NodeId, Recovery,
    ServiceState, ShareDigest,
};
pub use laws::law_of_requests;
pub use ranges::is_request;
pub use request::{GovernanceRequest, MemberAct, MemberRequest};
