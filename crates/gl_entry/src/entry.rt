//! Entries of the ledger (CCF documentation, "Ledger").

use gl_base::{Bytes, MEBIBYTE};
use gl_vmaps::Writes;

/// A SHA-256 digest (FIPS 180-4): 32 bytes.
pub type Digest = [u8; 32];

/// The most bytes of a body: 1 MiB.
pub(crate) const BODY_LIMIT: u64 = MEBIBYTE;

/// A node's identifier: the SHA-256 digest of its LMS key's 56 bytes.
pub type NodeId = Digest;

/// What a node signs: all entries before this one. Only up to a signature can a ledger be committed
/// (CCF documentation, "Consensus").
#[derive(Debug, Drop)]
pub struct Signature {
    /// The node that signs.
    pub node: NodeId,
    /// The place up to which the signer knew the ledger committed, 0 for none. The first signature
    /// of a ledger records its own place.
    pub commit: u64,
    /// The root of the Merkle tree over the leaves of all earlier entries.
    pub root: Digest,
    /// The node's HSS signature (RFC 8554, section 6.2) of the signed message, of two levels: the
    /// service's endorsement of the node's key stands in it.
    pub signature: Bytes,
}

/// What an entry is about.
#[derive(Debug, Drop)]
pub enum Content {
    /// A request of governance, as its bytes.
    Governance(Bytes),
    /// A request of an application, as its bytes.
    Application(Bytes),
    /// A node's signature of all earlier entries.
    Signature(Signature),
    /// The digest of a snapshot of all earlier entries.
    Evidence(Digest),
}

/// An entry of the ledger: a transaction, its place, and what it wrote.
#[derive(Debug, Drop)]
pub struct Entry {
    /// The view in which it was made. Views never fall along a ledger.
    pub view: u32,
    /// Its place in the ledger, from 1.
    pub seqno: u64,
    /// What was asked, signed or recorded.
    pub content: Content,
    /// What it wrote to the tables. Signatures and evidence write nothing.
    pub writes: Writes,
    /// The SHA-256 digest of the bytes of an application's reply, which a receipt discloses (CCF
    /// documentation, "Verifying Transactions"), and zero bytes for any other entry.
    pub claims: Digest,
}
