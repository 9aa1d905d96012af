//! Who looks on as a node serves.

use gl_election::Role;
use std::fmt;

/// Where a node stands.
#[derive(Clone, Copy, Debug, PartialEq, Eq)]
pub struct NodeStatus {
    pub role: Role,
    pub view: u32,
    /// The seqno up to which the node knows its ledger to be committed.
    pub commit: u64,
}

/// As `leader view 2 commit 2`.
impl fmt::Display for NodeStatus {
    fn fmt<W: fmt::Write>(&self, f: &mut fmt::Formatter<W>) -> fmt::Result {
        let role = match self.role {
            Role::Follower => "follower",
            Role::Candidate => "candidate",
            Role::Leader => "leader",
        };
        write!(f, "{role} view {} commit {}", self.view, self.commit)
    }
}

/// Is told, as each event of a node ends, where the node stands then. What it makes of it changes
/// nothing of the node.
pub trait Observer: Drop {
    fn observe(&mut self, node_status: NodeStatus);
}
