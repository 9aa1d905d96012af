//! What a load tells of its ledger.

use gl_base::TxId;
use gl_entry::Digest;

/// What a load tells of its ledger.
#[derive(Clone, Copy, Debug, PartialEq, Eq)]
pub struct Report {
    /// How many entries it has.
    pub entries: u64,
    /// How many of these are signatures.
    pub signatures: u64,
    /// How many bytes the frames of all entries have.
    pub bytes: u64,
    /// How many keys the map has that the requests write to.
    pub keys: u64,
    /// The transaction of the last entry.
    pub last: TxId,
    /// The root of the tree over the leaves of all entries.
    pub root: Digest,
}
