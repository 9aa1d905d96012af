//! The file in which a node keeps its key, its view and vote, its ledger and its spent leaves, so
//! that a stop at any call of the disk leaves the state before that call or after it.
//!
//! Begin with `Journal::open`.
#![tactic(auto)]

mod decoding;
mod durable;
mod entry_log;
mod fault;
mod folding;
mod frame_log;
mod gated;
mod installed;
mod journal;
mod key;
mod open;
mod reader;
mod record;

pub use durable::Durable;
pub use entry_log::EntryLog;
pub use fault::JournalFault;
pub use frame_log::FrameLog;
pub use gated::Gated;
pub use installed::Installed;
pub use journal::Journal;
pub use key::{Key, KeyKind};
pub use record::{Record, batch_len};
