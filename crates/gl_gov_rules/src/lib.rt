//! The rules of governance, as definitions and laws, and the history of a service.
//!
//! Begin with `History` in code, and the definition `refusal`.
#![tactic(auto)]

pub use ballots::has_vote;
pub use change::{
    Ballot, Change, Changed, Proposal, ProposalState, ProposalStatus, Recorded, RecordedNode,
    Settling, Tally,
};
pub use history::History;
pub use laws::{law_of_bounds, law_of_rows, law_of_service, law_of_signatures};
pub use leaf::leaf_of;
pub use node_law::law_of_nodes;
pub use proposals::is_ballot;
pub use refusal::{Cause, GovernanceRefusal, MemberStatus, NodeStatus};
pub use row::{
    GovernedRows, MemberRow, NodeRow, ProposalAt, ProposalRow, RuleAt, ServiceRow, Vote,
};

mod ballots;
mod carried;
mod change;
mod copy;
mod cut;
mod history;
mod index;
mod laws;
mod leaf;
mod members;
mod node_law;
mod nodes;
mod numbers;
mod proposals;
mod refusal;
mod request_facts;
mod row;
mod row_changes;
mod service;
mod settlings;
