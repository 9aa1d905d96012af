//! The ledger of a service, without the state that a node keeps: the entries that are made after it
//! and why none is made, what its entries come to, the rules of the audit, and the ledger as the
//! book that the rules of consensus read. A ledger's write sets make the maps of a key-value store
//! (CCF documentation, "Key-Value Store"); those of governance tell who the members and the nodes
//! are and whether the service is open ("Builtin Maps").
//!
//! Begin with the definitions `IsSound`, what a ledger must be, and `broken`, the rules of the
//! audit.
#![tactic(auto)]

mod breach;
mod laws;
mod node_signature;
mod recording;
mod refusal;
mod response;

pub use breach::{Broken, EntryRefusal};
pub use laws::{
    is_audited, is_governed, is_kept_sound, is_lawful, is_meant, is_opened, is_signed, is_unguarded,
};
pub use node_signature::node_signature_fault;
pub use recording::{Recording, recording_of};
pub use refusal::Refusal;
pub use response::{Reads, Rejection, Response};
