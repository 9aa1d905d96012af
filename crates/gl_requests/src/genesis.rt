//! What founds a service, and what recovers it after a disaster.

use gl_base::{Bytes, Sequence};

/// A SHA-256 digest.
pub type Digest = [u8; 32];

/// A node's identifier: the digest of the 56 bytes of its key.
pub type NodeId = Digest;

/// An LMS public key (RFC 8554, section 5.3): its two types in 4 bytes each, high byte first, I in
/// 16 bytes and T\[1\] in 32.
pub type LmsPublicKey = [u8; 56];

/// An HSS public key (RFC 8554, section 6.1): the number of levels in 4 bytes, high byte first, and
/// the LMS key of the top level.
pub type HssPublicKey = [u8; 60];

/// What a service takes (CCF documentation, "Opening a Network").
#[derive(Clone, Copy, Debug, PartialEq, Eq)]
pub enum ServiceState {
    /// Only requests of governance are taken. Encoded as the byte 1.
    Opening,
    /// Requests of applications are taken too. Encoded as the byte 2.
    Open,
    /// A recovered service waits for its members' shares (CCF documentation, "Disaster Recovery").
    /// Encoded as the byte 3. No request names it.
    WaitingForRecoveryShares,
}

/// A node to be recorded.
#[derive(Debug, Drop)]
pub struct NewNode {
    /// The key that its signatures are checked by. Its digest is the node's identifier.
    pub key: LmsPublicKey,
    /// The service's LMS signature of the key's 56 bytes (RFC 8554, section 5.4).
    pub endorsement: Bytes,
}

/// A member to be recorded.
#[derive(Clone, Copy, Debug)]
pub struct NewMember {
    /// Its number, from 1. No other member is ever given it.
    pub number: u8,
    /// The key that its requests are signed with.
    pub key: HssPublicKey,
}

/// The digest of a member's recovery share.
#[derive(Clone, Copy, Debug)]
pub struct ShareDigest {
    /// The number of the member who holds the share.
    pub member: u8,
    /// The SHA-256 digest of the share.
    pub digest: Digest,
}

/// How a recovery secret was dealt among members (CCF documentation, "Disaster Recovery").
#[derive(Debug, Drop)]
pub struct Dealing {
    /// So many shares give the secret, at least 1.
    pub threshold: u8,
    /// The SHA-256 digest of the secret.
    pub secret_digest: Digest,
    /// Who holds a share, and the share's digest, ascending by member.
    pub shares: Sequence<ShareDigest>,
}

/// The request that founds a service.
#[derive(Debug, Drop)]
pub struct Genesis {
    /// The state in which the service begins, Opening or Open.
    pub state: ServiceState,
    /// The service's key, which endorses its nodes.
    pub identity: HssPublicKey,
    /// The nodes that begin it, at most 32. They are numbered and listed in this order.
    pub nodes: Sequence<NewNode>,
    /// The members who govern it, at most 64.
    pub members: Sequence<NewMember>,
    /// The dealing of its first recovery secret.
    pub dealing: Dealing,
}

/// The request that recovers a service, with a key and nodes of its own.
#[derive(Debug, Drop)]
pub struct Recovery {
    /// The key of the service from now on, which endorses its nodes.
    pub identity: HssPublicKey,
    /// The nodes that begin it again, at most 32.
    pub nodes: Sequence<NewNode>,
}
