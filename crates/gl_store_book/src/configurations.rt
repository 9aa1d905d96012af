//! The configurations of a ledger.

ghost use Rattle.std.specs.Prelude.{◌≡◌, ◌++◌, count_by, nat_le, IfOk, OnOk, OnErr};
ghost use Rattle.gl_audit.specs.GovState.{IsGoverned, history_of};
ghost use Rattle.gl_config.specs.Active.{at_seqno};
ghost use Rattle.gl_config.specs.declared.configuration.Configuration as a_configuration;
ghost use Rattle.gl_gov_rules.specs.Nodes.{is_trusted_status, node_status, trusted};
ghost use Rattle.gl_ledger.specs.Recordings.{changed_set};
ghost use Rattle.gl_store_book.specs.Lists.{last_nodes};

use gl_audit::GovState;
use gl_config::{Configuration, NodeId, NodeSet};
use gl_gov_rules::{History, NodeStatus, RecordedNode};
use std::alloc::{AllocError, Global};

/// Whether a node is trusted.
pub(crate) fn is_trusted(past: &History, node: &RecordedNode) -> bool
    ensures { result ≡ is_trusted_status (node_status past.now node.now) }
{
    matches!(past.node_status(node), NodeStatus::Trusted)
}

/// The trusted nodes, in the order in which they were recorded.
#[tactic(auto, unfolding(gl_gov_rules::specs::Nodes::trusted))]
pub(crate) fn trusted_nodes(alloc: Global, past: &History) -> Result<Vec<NodeId>, AllocError>
    ensures { IfOk result (λ ids. ids.items ≡ trusted past.now) }
{
    let mut trusted = Vec::new(alloc);
    let nodes = past.nodes();
    for node in nodes {
        if is_trusted(past, node) {
            trusted.push(node.id)?;
        }
    }
    Ok(trusted)
}

/// The nodes of the last configuration, none where there is none.
fn last_nodes(configurations: &[Configuration]) -> &[NodeId]
    ensures { result.now ≡ last_nodes configurations.now }
{
    match configurations.last() {
        None => &[],
        Some(configuration) => configuration.nodes.as_slice(),
    }
}

/// How many of the configurations begin at or below a seqno.
pub(crate) fn count_upto(configurations: &[Configuration], seqno: u64) -> usize
    ensures { result
        ≡ count_by (λ (c : a_configuration.Configuration). nat_le c.seqno seqno)
        configurations.now }
{
    configurations
        .iter()
        .filter(|configuration| configuration.seqno <= seqno)
        .count()
}

/// Adds the configuration that begins with the entry at a seqno, if the nodes that are trusted then
/// are others than those of the last configuration.
pub(crate) fn push_configuration(
    alloc: Global,
    configurations: &mut Vec<Configuration>,
    gov: &GovState,
    seqno: u64,
) -> Result<(), AllocError>
    requires { IsGoverned gov.now }
    ensures pushed { OnOk result (configurations.new.items ≡ configurations.old.items ++ at_seqno
        seqno (changed_set (last_nodes configurations.old.items) (trusted (history_of gov.now)))) }
    ensures err { OnErr result (configurations.new.items ≡ configurations.old.items) }
{
    let nodes = trusted_nodes(alloc, gov.history())?;
    if last_nodes(configurations) == nodes.as_slice() {
        return Ok(());
    }
    let configuration = Configuration {
        seqno,
        nodes: NodeSet::new(nodes),
    };
    configurations.push(configuration)?;
    Ok(())
}

/// Copies in memory of their own.
pub(crate) fn copy_configurations(
    alloc: Global,
    configurations: &[Configuration],
) -> Result<Vec<Configuration>, AllocError>
    ensures { IfOk result (λ copies. copies.items ≡ configurations.now) }
{
    let mut copies = Vec::with_capacity(alloc, configurations.len())?;
    for configuration in configurations {
        copies.push(copy_configuration(alloc, configuration)?)?;
    }
    Ok(copies)
}

fn copy_configuration(
    alloc: Global,
    configuration: &Configuration,
) -> Result<Configuration, AllocError>
    ensures { IfOk result (λ copy. copy ≡ configuration.now) }
{
    let nodes = Vec::from_slice(alloc, configuration.nodes.as_slice())?;
    Ok(Configuration {
        seqno: configuration.seqno,
        nodes: NodeSet::new(nodes),
    })
}
