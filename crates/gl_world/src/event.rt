//! What may happen at a node.

use gl_requests::GovernanceRequest;
use gl_tx::Request;

/// What may happen at a node. Nodes are named by their numbers, from 1.
#[derive(Debug, Drop)]
pub enum Event {
    /// The node has heard of no leader for too long.
    Timeout {
        node: u8,
    },
    /// A message reaches the node that it is for: its index among all that were sent, from 0.
    Deliver {
        message: usize,
    },
    /// An application's request.
    Submit {
        node: u8,
        request: Request,
    },
    /// A request of governance.
    Govern {
        node: u8,
        request: GovernanceRequest,
    },
    /// One more one-time leaf of the node's key is reserved.
    Reserve {
        node: u8,
    },
    /// The node signs its ledger so far.
    Sign {
        node: u8,
    },
    /// The node appends the digest of a snapshot of its ledger so far.
    Evidence {
        node: u8,
    },
    /// The node sends another one the entries that it is sent next.
    Replicate {
        node: u8,
        to: u8,
    },
    /// The node commits what it may.
    Advance {
        node: u8,
    },
    /// The node hands over to another one.
    StepDown {
        node: u8,
        to: u8,
    },
    /// The node forgets what its file doesn't keep.
    Restart {
        node: u8,
    },
    /// The node, which has no entries, begins from what another one offers of its ledger.
    Install {
        node: u8,
        from: u8,
    },
}
