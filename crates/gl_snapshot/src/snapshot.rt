//! A snapshot as it is handed on.

use gl_entry::Entry;
use gl_gov_rules::GovernedRows;
use gl_receipt::Receipt;
use gl_snapshot_body::Body;

/// A snapshot, and what shows to whoever knows the service's key alone that it is one of the
/// service's ledger.
#[derive(Debug, Drop)]
pub struct Snapshot {
    pub body: Body,
    /// The receipt of the entry.
    pub receipt: Receipt,
    /// The entry right after the body's base, which records the digest of the body.
    pub entry: Entry,
}

/// A snapshot, and the rows of governance of its body as values.
#[derive(Debug, Drop)]
pub struct GovernedSnapshot {
    pub snapshot: Snapshot,
    pub governed: GovernedRows,
}
