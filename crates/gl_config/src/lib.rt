//! Configurations: the sets of trusted nodes of a ledger, which of them are active at a commit, and
//! majorities of them.
//!
//! Begin with `Active`.
#![tactic(auto)]

pub use active::Active;
pub use configuration::Configuration;
pub use laws::law_of_configurations;
pub use node_set::{NodeId, NodeSet, are_distinct, majority};
pub use stage::Stage;

mod active;
mod configuration;
mod laws;
mod node_set;
mod stage;
