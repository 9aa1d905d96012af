//! The store of a node as the book that the rules of consensus read: its ledger, which takes no
//! entry that breaks a rule of the audit, and the key that it signs with. A ledger may have a base:
//! then a snapshot tells what is left of the entries up to it. The store knows nothing of commit,
//! so each entry above the base can be cut away.
//!
//! Begin with `NodeFile`, the file of a node, and `StoreBook`, its store as the book of consensus.
#![tactic(auto)]

mod batch;
mod book;
mod book_ledger;
mod client_book;
mod configurations;
mod evidence;
mod founding;
mod laws;
mod makers;
mod node_file;
mod node_lists;
mod recorded;
mod refusals;
mod signature;
mod snapshot_file;
mod snapshot_laws;
mod snapshots;
mod store_book;
mod whole_ledger;

pub use book_ledger::BookLedger;
pub use laws::a_stop_forgets_nothing;
pub use node_file::opening_batch::ViewVote;
pub use node_file::persist::keep_opening;
pub use node_file::{LedgerLog, NodeFile, OpeningFault, SnapshotOpening, SourceKind, source_of};
pub use snapshot_laws::law_of_verified_snapshots;
pub use store_book::StoreBook;
