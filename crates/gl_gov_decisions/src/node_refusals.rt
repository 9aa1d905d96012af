//! What is wrong with a node that joins, or with the Mark of one.

ghost use Rattle.std.specs.Prelude.{◌≡◌};
ghost use Rattle.gl_gov_rules.specs.Signatures.{is_endorsed};
ghost use Rattle.gl_gov_rules.specs.Nodes.{node};
ghost use Rattle.gl_gov_rules.specs.Service.{identity};
ghost use Rattle.gl_gov_rules.specs.Refusals.{key_in_force, status_found, is_retired, room_refusal, join_refusal, mark_refusal};

use crate::limits::{MAX_PENDING_NODES, MAX_RECORDED_NODES};
use crate::signatures::is_endorsed;
use gl_gov_rules::{GovernanceRefusal, History, NodeStatus};
use gl_requests::{NewNode, NodeId};

/// Whether the service's key endorses the node: before a founding there is none that does.
#[tactic(auto, using(gl_gov_rules::proofs::Endorsements::unendorsed))]
fn is_endorsed_by_service(past: &History, node: &NewNode) -> bool
    ensures { result ≡ is_endorsed (key_in_force (identity past.now)) node.now.key
        node.now.endorsement }
{
    match past.identity() {
        None => false,
        Some(key) => is_endorsed(key, &node.key, node.endorsement.as_slice()),
    }
}

/// The status of the node with this identifier, none where it isn't recorded.
fn status_found(past: &History, id: &NodeId) -> Option<NodeStatus>
    ensures { result ≡ status_found past.now (node past.now id.now) }
{
    match past.node(id) {
        None => None,
        Some(node) => Some(past.node_status(node)),
    }
}

fn is_retired(status: Option<NodeStatus>) -> bool
    ensures { result ≡ is_retired status }
{
    matches!(status, Some(NodeStatus::Retired))
}

/// Whether the node is recorded already, or there are as many as may be.
fn room_refusal(past: &History, id: &NodeId) -> Option<GovernanceRefusal>
    ensures { result ≡ room_refusal past.now id.now }
{
    if let Some(status) = status_found(past, id) {
        Some(GovernanceRefusal::NodeState {
            status: Some(status),
        })
    } else if MAX_PENDING_NODES as usize <= past.pending_count() {
        Some(GovernanceRefusal::TooMany {
            limit: MAX_PENDING_NODES,
        })
    } else if MAX_RECORDED_NODES as usize <= past.nodes().len() {
        Some(GovernanceRefusal::TooMany {
            limit: MAX_RECORDED_NODES,
        })
    } else {
        None
    }
}

/// What is wrong with a node that joins.
#[tactic(auto, unfolding(gl_gov_rules::specs::Refusals::join_refusal))]
pub(crate) fn join_refusal(past: &History, node: &NewNode) -> Option<GovernanceRefusal>
    ensures { result ≡ join_refusal past.now node.now }
{
    if is_endorsed_by_service(past, node) {
        room_refusal(past, &node.id())
    } else {
        Some(GovernanceRefusal::Signature)
    }
}

/// What is wrong with the Mark of a node.
#[tactic(auto, unfolding(gl_gov_rules::specs::Refusals::mark_refusal))]
pub fn mark_refusal(past: &History, id: &NodeId) -> Option<GovernanceRefusal>
    ensures { result ≡ mark_refusal past.now id.now }
{
    let status = status_found(past, id);
    if is_retired(status) {
        None
    } else {
        Some(GovernanceRefusal::NodeState { status })
    }
}
