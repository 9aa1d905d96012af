//! What a call answers.

use crate::book::Book;
use gl_base::Sequence;
use gl_config::NodeId;
use gl_messages::Message;

/// What an event answers.
#[derive(Drop)]
pub enum Outcome<A> {
    Done,
    Idle,
    /// Became a candidate, and not a leader at once.
    BecameCandidate,
    BecameLeader,
    /// An entry for a request: its view, its seqno, and the answer.
    Accepted(u32, u64, A),
    /// A signature or an evidence entry: its view and its seqno.
    Signed(u32, u64),
    /// Commit is now the entry of this view and seqno.
    Committed(u32, u64),
}

/// The answer, and what the node sends, in order.
#[derive(Drop)]
pub struct Done<B: Book> {
    pub outcome: Outcome<B::Response>,
    pub sent: Sequence<Message>,
}

/// Why a call changed nothing.
#[derive(Drop)]
pub enum Refusal<B: Book> {
    /// Memory ran out. This may come at any time.
    NoMemory,
    /// The node doesn't lead: its view, and whom it takes for the leader.
    NotPrimary(u32, Option<NodeId>),
    /// So many configurations stand above commit that governance takes no more.
    TooManyPending(u64),
    /// Each reserved leaf is used; their number.
    NotReserved(u64),
    /// Each leaf of the key is reserved; their number.
    KeyExhausted(u64),
    /// The last entry, at this seqno, is a signature of this view.
    NothingToSign(u64),
    /// A mark came before its removal, at this seqno, was committed; and commit.
    RemovalNotCommitted(u64, u64),
    /// Commit, and the seqno below it down to which entries would be cut off.
    BelowCommit(u64, u64),
    /// The node is no other node of an active configuration.
    NotPeer,
    /// The entries asked for came by a snapshot up to this seqno.
    BelowBase(u64),
    /// The view is the last one.
    ViewLimit,
    /// The node that was asked for a snapshot has no evidence below a committed signature; and its
    /// commit.
    NoLaterSignature(u64),
    /// The ledger takes no entry.
    ByLedger(B::Refused),
}
