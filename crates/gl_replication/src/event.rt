//! What may happen at a node.

use crate::book::Book;
use gl_config::NodeId;
use gl_messages::Message;

/// What may happen at a node, but for a restart.
#[derive(Drop)]
pub enum Event<B: Book> {
    /// The node has heard of no leader for too long.
    Timeout,
    /// A message reaches the node. One to another node is dropped.
    Message(Message),
    /// An application's request.
    Submit(B::Request),
    /// A request of governance.
    Govern(B::Gov),
    /// One more one-time leaf of the node's key is reserved.
    Reserve,
    /// The node signs its ledger so far.
    Sign,
    /// The node appends the digest of a snapshot of its ledger so far.
    Evidence,
    /// The node sends another one the entries that it is sent next.
    Replicate(NodeId),
    /// The node commits what it may.
    Advance,
    /// The node hands over to another one.
    StepDown(NodeId),
}
