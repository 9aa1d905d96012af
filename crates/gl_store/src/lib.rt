//! The store of one node: a ledger as a list of entries, the tables that its write sets make, and
//! the Merkle tree over its entries. The ledger is the book that the rules of consensus read.
//!
//! Begin with `Store`: `execute` and `govern` make entries, `apply_entry` takes those of other
//! nodes. It stands on `LedgerTail`, the entries of a ledger above a base.
#![tactic(auto)]

mod entries;
mod ledger_tail;
mod not_opening;
mod store;

pub use ledger_tail::LedgerTail;
pub use not_opening::NotOpening;
pub use store::Store;
