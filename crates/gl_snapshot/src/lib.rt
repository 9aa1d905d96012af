//! A snapshot as it is handed on: its body, the evidence entry that records the digest of the body,
//! and the receipt of that entry; as bytes both ways, and verified for whoever knows the service's
//! key and nothing else.
//!
//! Begin with `Snapshot`.
#![tactic(auto)]

mod body;
mod decode;
mod digest;
mod encode;
mod entry;
mod fault;
mod laws;
mod receipt;
mod snapshot;
mod verdict;

pub use body::{GovernedBody, read_governed_body};
pub use digest::body_digest;
pub use fault::SnapshotFault;
pub use laws::law_of_snapshots;
pub use snapshot::{GovernedSnapshot, Snapshot};
