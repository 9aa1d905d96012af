//! The nodes that a ledger records.

ghost use Rattle.std.specs.Prelude.{◌≡◌, ◌≤◌, ◌++◌, length, take, map, count_by, nat_le, OnOk, OnErr};
ghost use Rattle.gl_gov_rules.specs.declared.change.RecordedNode as a_node;

use gl_config::NodeId;
use gl_gov_rules::RecordedNode;
use std::alloc::AllocError;

/// How many of the nodes were recorded at or below a seqno.
pub(crate) fn count_upto(nodes: &[RecordedNode], seqno: u64) -> usize
    ensures { result ≡ count_by (λ (n : a_node.RecordedNode). nat_le n.seqno seqno) nodes.now }
{
    nodes.iter().filter(|node| node.seqno <= seqno).count()
}

/// Adds the identifiers of the nodes that were recorded after those that are there.
pub(crate) fn push_recorded(
    recorded: &mut Vec<NodeId>,
    nodes: &[RecordedNode],
) -> Result<(), AllocError>
    requires { recorded.old.items ≡ take (length recorded.old.items)
        (map (λ (n : a_node.RecordedNode). n.id) nodes.now) }
    ensures pushed { OnOk result
        (recorded.new.items ≡ map (λ (n : a_node.RecordedNode). n.id) nodes.now) }
    ensures err { OnErr result (recorded.new.items ≡ recorded.old.items) }
{
    let more = &nodes[recorded.len()..];
    recorded.reserve(more.len())?;
    for node in more {
        recorded.push_reserved(node.id);
    }
    Ok(())
}
