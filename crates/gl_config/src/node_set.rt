//! Sets of nodes, and majorities of them.

ghost use Rattle.std.specs.Prelude.{◌≡◌, ◌≤◌, true, length};
ghost use Rattle.gl_rules.specs.Identity.{member, same};
ghost use Rattle.gl_rules.specs.Majority.{majority, tally};
ghost use Rattle.gl_config.specs.NodeSet.{are_distinct};

use std::marker::Model;

/// A node's identifier: the SHA-256 of its key.
pub type NodeId = [u8; 32];

/// A set of nodes: distinct identifiers, in the order in which they were recorded.
#[derive(Debug, Drop)]
pub struct NodeSet {
    nodes: Vec<NodeId>,
}

impl Model for NodeSet {
    ghost use Rattle.std.specs.Prelude.{◌≡◌, true, List};
    ghost use Rattle.gl_rules.specs.Identity.{NodeId};
    ghost use Rattle.gl_config.specs.NodeSet.{are_distinct};

    ghost Value = { List NodeId };

    ghost view = { λ s. s.nodes.items };

    ghost invariant = { λ s. are_distinct s.nodes.items ≡ true };
}

// Whether two identifiers are one.
#[tactic(auto, unfolding(gl_rules::specs::Identity::same))]
fn is_same(x: &NodeId, y: &NodeId) -> bool
    ensures { result ≡ same x.now y.now }
{
    x == y
}

// Whether a node is in a list.
fn is_member(x: &NodeId, nodes: &[NodeId]) -> bool
    ensures { result ≡ member x.now nodes.now }
{
    nodes.iter().any(|y| is_same(x, y))
}

/// Whether no identifier stands twice. It compares each pair.
pub fn are_distinct(nodes: &[NodeId]) -> bool
    ensures { result ≡ are_distinct nodes.now }
{
    let mut rest = nodes;
    while let [first, others @ ..] = rest {
        if is_member(first, others) {
            return false;
        }
        rest = others;
    }
    true
}

impl NodeSet {
    ghost use Rattle.std.specs.Prelude.{[], ◌↔◌, IsTrue};

    /// The set of these nodes, which are distinct. Takes no memory.
    pub fn new(nodes: Vec<NodeId>) -> NodeSet
        requires { are_distinct nodes.items ≡ true }
        ensures { result ≡ nodes.items }
    {
        NodeSet { nodes }
    }

    /// The nodes in their order. Takes no memory.
    pub fn into_vec(self) -> Vec<NodeId>
        ensures nodes { result.items ≡ self }
        ensures distinct { are_distinct result.items ≡ true }
    {
        self.nodes
    }

    /// The nodes in their order.
    pub fn as_slice(&self) -> &[NodeId]
        ensures nodes { result.now ≡ self.now }
        ensures distinct { are_distinct self.now ≡ true }
    {
        &self.nodes
    }

    pub fn len(&self) -> usize
        ensures { result ≡ length self.now }
    {
        self.nodes.len()
    }

    pub fn is_empty(&self) -> bool
        ensures { IsTrue result ↔ (self.now ≡ []) }
    {
        self.nodes.is_empty()
    }

    /// Whether a node is in the set. It compares one node after the other.
    pub fn holds(&self, node: &NodeId) -> bool
        ensures { result ≡ member node.now self.now }
    {
        is_member(node, &self.nodes)
    }
}

// How many nodes of the configuration are in the other set.
fn tally(votes: &NodeSet, configuration: &[NodeId]) -> usize
    ensures value { result ≡ tally (λ y. member y votes.now) configuration.now }
    ensures within { result ≤ length configuration.now }
{
    configuration.iter().filter(|y| votes.holds(y)).count()
}

/// Whether more than half of the configuration's nodes are in the other set. An empty configuration
/// has no majority. It compares each node with each.
pub fn majority(votes: &NodeSet, configuration: &NodeSet) -> bool
    ensures { result ≡ majority (λ y. member y votes.now) configuration.now }
{
    2 * tally(votes, configuration.as_slice()) > configuration.len()
}
