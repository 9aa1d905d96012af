//! Elections as a node takes part in them that knows its view, its vote, its role and its votes,
//! and nothing of a ledger.
//!
//! Begin with `Peer`.
#![tactic(auto)]

mod elected;
mod laws;
mod peer;

pub use elected::{Elected, ElectionOutcome, ElectionRefusal};
pub use laws::law_of_elections;
pub use peer::{Peer, Role};
