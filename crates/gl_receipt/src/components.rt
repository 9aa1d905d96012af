//! What a receipt consists of.

use crate::text::Text;
use gl_base::{Bytes, Sequence};
use gl_entry::Digest;
use gl_merkle::Step;

/// What the leaf of the transaction's entry is made of.
#[derive(Debug, Drop)]
pub struct LeafComponents {
    /// The digest of the reply to an application's request, and zero bytes for any other entry.
    pub claims_digest: Digest,
    /// The text that ties the identifier to the service's key.
    pub commit_evidence: Text,
    /// The digest of the entry's body.
    pub write_set_digest: Digest,
}

/// What a node signed beside the root: where the signature entry stands, and the commit that it
/// records.
#[derive(Clone, Copy, Debug, PartialEq, Eq)]
pub struct Signed {
    pub commit: u64,
    pub seqno: u64,
    pub view: u32,
}

/// That a node of a service signed a ledger which has a transaction. What `make` gives is of a
/// committed one.
#[derive(Debug, Drop)]
pub struct Receipt {
    pub leaf_components: LeafComponents,
    /// The path from the leaf to the root that was signed: the leaf's sibling first.
    pub proof: Sequence<Step>,
    /// The HSS signature (RFC 8554, section 6.2) by a node that the service endorsed.
    pub signature: Bytes,
    pub signed: Signed,
}
