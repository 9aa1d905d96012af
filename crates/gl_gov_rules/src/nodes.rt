//! Which nodes were recorded, and the status of each.

ghost use Rattle.std.specs.Prelude.{◌≡◌, ◌++◌, true, map, option_map, count_by, is_some, IfOk, OnOk};
ghost use Rattle.std.specs.Option.{option_copied};
ghost use Rattle.gl_gov_rules.specs.declared.change.Changed as a_change;
ghost use Rattle.gl_gov_rules.specs.Nodes.{recorded_node, nodes_recorded};
ghost use Rattle.gl_gov_rules.specs.RequestFacts.{trust_in, retirement_in};
ghost use Rattle.gl_gov_rules.specs.Index.{is_node_or_all};

use crate::change::{Changed, RecordedNode};
use crate::history::History;
use crate::refusal::NodeStatus;
use crate::request_facts::{retirement_in, trust_in};
use gl_index::is_any_after;
use gl_requests::{GovernanceRequest, NewNode, NodeId};
use std::alloc::{AllocError, Global};

/// The node as it is recorded at a seqno.
fn recorded_node(
    alloc: Global,
    seqno: u64,
    is_founding: bool,
    node: &NewNode,
) -> Result<RecordedNode, AllocError>
    ensures { IfOk result (λ out. out ≡ recorded_node seqno is_founding node.now) }
{
    let id = node.id();
    let node = node.copy(alloc)?;
    Ok(RecordedNode {
        id,
        seqno,
        is_founding,
        node,
    })
}

/// Adds the nodes that a founding at a seqno names.
fn push_founding_nodes(
    alloc: Global,
    nodes: &mut Vec<RecordedNode>,
    seqno: u64,
    more: &[NewNode],
) -> Result<(), AllocError>
    ensures { OnOk result
        (nodes.new.items ≡ nodes.old.items ++ map (recorded_node seqno true) more.now) }
{
    for node in more {
        nodes.push(recorded_node(alloc, seqno, true, node)?)?;
    }
    Ok(())
}

/// Adds the nodes that the request at a seqno records.
pub(crate) fn push_nodes_recorded(
    alloc: Global,
    nodes: &mut Vec<RecordedNode>,
    seqno: u64,
    request: &GovernanceRequest,
) -> Result<(), AllocError>
    ensures { OnOk result
        (nodes.new.items ≡ nodes.old.items ++ nodes_recorded seqno request.now) }
{
    match request {
        GovernanceRequest::Genesis(genesis) => {
            push_founding_nodes(alloc, nodes, seqno, genesis.nodes.as_slice())
        }
        GovernanceRequest::Recover(recovery) => {
            push_founding_nodes(alloc, nodes, seqno, recovery.nodes.as_slice())
        }
        GovernanceRequest::Join(node) => {
            nodes.push(recorded_node(alloc, seqno, false, node)?)?;
            Ok(())
        }
        _ => Ok(()),
    }
}

/// Whether this is the node, or all nodes.
fn is_node_or_all(id: &NodeId, other: &Option<NodeId>) -> bool
    ensures { result ≡ is_node_or_all id.now other.now }
{
    match other {
        None => true,
        Some(other) => id == other,
    }
}

/// How many nodes the changes trust.
pub(crate) fn trust_count(changes: &[Changed]) -> usize
    ensures { result
        ≡ count_by (λ (c : a_change.Changed). is_some (trust_in c.seqno c.change)) changes.now }
{
    changes
        .iter()
        .filter(|changed| trust_in(changed.seqno, &changed.change).is_some())
        .count()
}

/// How many of the changes take nodes out of service.
pub(crate) fn retirement_count(changes: &[Changed]) -> usize
    ensures { result
        ≡ count_by (λ (c : a_change.Changed). is_some (retirement_in c.seqno c.change))
        changes.now }
{
    changes
        .iter()
        .filter(|changed| retirement_in(changed.seqno, &changed.change).is_some())
        .count()
}

impl History {
    ghost use Rattle.gl_gov_rules.specs.Index.{has_mark_after};
    ghost use Rattle.gl_gov_rules.specs.Nodes.{node, retirement, mark, is_marked, is_trust_applied, node_status, trusted_count, pending_count};

    /// The node with this identifier, if it is recorded.
    #[tactic(auto, unfolding(crate::specs::Nodes::node))]
    pub fn node(&self, id: &NodeId) -> Option<&RecordedNode>
        ensures { option_copied result ≡ node self.now id.now }
    {
        self.nodes().iter().find(|node| node.id == *id)
    }

    /// The seqno of the entry that took the node out of service, if one did.
    pub fn removal(&self, node: &RecordedNode) -> Option<u64>
        ensures { result
            ≡ option_map (λ (c : a_change.Changed). c.seqno) (retirement self.now node.now) }
    {
        match self.retirements().iter().find(|retirement| node.seqno < retirement.seqno
            && is_node_or_all(&node.id, &retirement.id))
        {
            None => None,
            Some(retirement) => Some(retirement.seqno),
        }
    }

    /// The seqno of the entry that marked a node, if one did; that of the base where it is carried.
    pub fn mark(&self, id: &NodeId) -> Option<u64>
        ensures { result ≡ mark self.now id.now }
    {
        match self.marks().iter().find(|mark| *id == mark.id) {
            None => None,
            Some(mark) => Some(mark.seqno),
        }
    }

    /// Whether the node's Mark stands.
    pub fn is_marked(&self, id: &NodeId) -> bool
        ensures { result ≡ is_marked self.now id.now }
    {
        self.marks().iter().any(|mark| *id == mark.id)
    }

    /// Whether a node was marked after a seqno. One look at each mark.
    #[tactic(auto, unfolding(crate::specs::Index::has_mark_after))]
    pub fn has_mark_after(&self, seqno: u64) -> bool
        ensures { result ≡ has_mark_after self.now seqno }
    {
        is_any_after(self.marks(), seqno)
    }

    /// Whether the node's trust was applied.
    fn is_trust_applied(&self, id: &NodeId) -> bool
        ensures { result ≡ is_trust_applied self.now id.now }
    {
        self.trusts().iter().any(|trust| *id == trust.id)
    }

    /// The node's status.
    #[tactic(auto, unfolding(crate::specs::Nodes::node_status, crate::specs::Nodes::was_trusted))]
    pub fn node_status(&self, node: &RecordedNode) -> NodeStatus
        ensures { result ≡ node_status self.now node.now }
    {
        if self.is_marked(&node.id) {
            NodeStatus::Marked
        } else if self.removal(node).is_some() {
            NodeStatus::Retired
        } else if node.is_founding || self.is_trust_applied(&node.id) {
            NodeStatus::Trusted
        } else {
            NodeStatus::Pending
        }
    }

    /// How many nodes are trusted.
    #[tactic(auto, unfolding(crate::specs::Nodes::trusted_count))]
    pub fn trusted_count(&self) -> usize
        ensures { result ≡ trusted_count self.now }
    {
        self.nodes()
            .iter()
            .filter(|node| matches!(self.node_status(node), NodeStatus::Trusted))
            .count()
    }

    /// How many nodes are pending.
    #[tactic(auto, unfolding(crate::specs::Nodes::pending_count))]
    pub fn pending_count(&self) -> usize
        ensures { result ≡ pending_count self.now }
    {
        self.nodes()
            .iter()
            .filter(|node| matches!(self.node_status(node), NodeStatus::Pending))
            .count()
    }
}
