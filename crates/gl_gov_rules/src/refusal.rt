//! Why a request of governance is refused.

use crate::change::ProposalState;
use gl_requests::{Digest, ServiceState};
use thiserror::Error;

/// The status of a member (CCF documentation, "Members").
#[derive(Clone, Copy, Debug, PartialEq, Eq)]
pub enum MemberStatus {
    /// It has not yet acknowledged the service. Encoded as the byte 1.
    Accepted,
    /// It proposes, votes and gives its share. Encoded as the byte 2.
    Active,
    /// It is no member any more. Encoded as the byte 3.
    Removed,
}

/// The status of a node (CCF documentation, "Nodes").
#[derive(Clone, Copy, Debug, PartialEq, Eq)]
pub enum NodeStatus {
    /// It joined, and members have not yet trusted it. Encoded as the byte 1.
    Pending,
    /// It takes part in consensus. Encoded as the byte 2.
    Trusted,
    /// It was taken out of service. Encoded as the byte 3.
    Retired,
    /// It was retired, and may be switched off once that is committed. Encoded as the byte 4.
    Marked,
}

/// Why an action can't be applied.
#[derive(Clone, Copy, Debug, PartialEq, Eq, Error)]
pub enum Cause {
    /// 1: the member's number was ever used.
    #[error("the member's number was used")]
    NumberUsed,
    /// 2: the member's key was ever used.
    #[error("the member's key was used")]
    KeyUsed,
    /// 3: the member isn't present.
    #[error("the member is not present")]
    NotPresent,
    /// 4: fewer would hold a share than the threshold asks for.
    #[error("too few holders of a share would be left")]
    TooFewHolders,
    /// 5: the node isn't recorded.
    #[error("the node is not recorded")]
    NotRecorded,
    /// 6: the node has another status, or stands twice in a founding or was recorded before it.
    #[error("the node has another status")]
    NodeStatus,
    /// 7: no node would be trusted.
    #[error("no node would be trusted")]
    LastTrusted,
    /// 8: the service isn't opening.
    #[error("the service is not opening")]
    NotOpening,
    /// 9: a fraction is out of range.
    #[error("a fraction is out of range")]
    Fraction,
    /// 10: the dealing is none among the members that are present.
    #[error("the dealing is none among the members")]
    Dealing,
    /// 11: as many members are present, or nodes trusted or recorded, as may be.
    #[error("no more members or nodes may be added")]
    Full,
}

/// Why a request of governance is refused.
#[derive(Clone, Copy, Debug, PartialEq, Eq, Error)]
pub enum GovernanceRefusal {
    /// 40: no such member is present.
    #[error("no such member")]
    NotMember,
    /// 41: the member has not acknowledged the service.
    #[error("the member is not active")]
    NotActive,
    /// 42: a member's signature or a node's endorsement isn't valid.
    #[error("the signature is not valid")]
    Signature,
    /// 43: the leaf that signed isn't above the last one that the member used.
    #[error("the leaf {got} is not above {last}")]
    LeafNotGreater { last: u32, got: u32 },
    /// 44: there is no such proposal.
    #[error("no such proposal")]
    NoProposal,
    /// 45: the proposal was settled.
    #[error("the proposal is not open")]
    NotOpen { state: ProposalState },
    /// 46: the member has answered already.
    #[error("the member has answered")]
    HasBallot,
    /// 47: another member made the proposal.
    #[error("another member made the proposal")]
    NotProposer,
    /// 48: the action at this index, counted from 1, can't be applied; the index 0 is that of a
    /// founding.
    #[error("the action {index} is bad: {cause}")]
    BadAction { index: u64, cause: Cause },
    /// 49: the node has this status, none where it isn't recorded.
    #[error("the node has another status")]
    NodeState { status: Option<NodeStatus> },
    /// 50: there are as many as may be.
    #[error("there are {limit} already")]
    TooMany { limit: u32 },
    /// 51: the service is in another state than the request asks for.
    #[error("the service is in another state")]
    ServiceState { state: ServiceState },
    /// 52: the proposal was made already.
    #[error("the proposal is there")]
    KnownProposal { id: Digest },
    /// 100: the share isn't the one that was dealt to the member; its digest.
    #[error("the share is not the one that was dealt")]
    WrongShare { digest: Digest },
    /// 101: the member has given its share already.
    #[error("the member has given its share")]
    KnownShare { member: u8 },
    /// 103: the shares join to another secret than the one that was dealt; both digests.
    #[error("the shares give another secret")]
    Secret { want: Digest, got: Digest },
}
