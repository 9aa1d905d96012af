//! The entries of a ledger (CCF documentation, "Ledger"): their frames, their leaves in the Merkle
//! tree, the message that a node signs, and a ledger's file, which is read entry by entry from a
//! source.
//!
//! Begin with `Entry`.
#![tactic(auto)]

mod body;
mod body_digest;
mod buffer;
mod contents;
mod copies;
mod entry;
mod fault;
mod fits;
mod frame;
mod laws;
mod leaves;
mod lengths;
mod message;
mod next;
mod reader;
mod writes;

pub use body_digest::writes_digest;
pub use buffer::ReadBuffer;
pub use entry::{Content, Digest, Entry, NodeId, Signature};
pub use fault::{EntryFault, LedgerFault};
pub use frame::one_frame;
pub use laws::law_of_ledger_files;
pub use leaves::{
    commit_evidence_digest, evidence, is_evidence, leaf, leaf_of_body, leaf_of_components,
};
pub use message::signed_message;
pub use next::{Next, ReadFault, read_next};
pub use reader::{LedgerReader, read_entry};
