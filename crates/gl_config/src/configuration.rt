//! A configuration of a ledger.

use crate::node_set::NodeSet;

/// The nodes that are trusted from a seqno on: a ledger has one for each seqno at which the set of
/// trusted nodes changes.
#[derive(Debug, Drop)]
pub struct Configuration {
    pub seqno: u64,
    pub nodes: NodeSet,
}
