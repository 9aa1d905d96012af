//! A line of a schedule: what happens to a service, or what is asked of it.

use gl_base::{Sequence, TxId};
use gl_requests::Action;
use gl_tx::Request;

/// A line of a schedule after its first. Nodes are named by their numbers, from 1, and messages by
/// theirs, in the order in which they were sent; other numbers name nothing.
#[derive(Debug, Drop)]
pub enum Line {
    /// The node hears of no leader for too long.
    Timeout {
        node: u128,
    },
    /// A message comes to the node to which it was sent.
    Deliver {
        message: u128,
    },
    /// An application request.
    Submit {
        node: u128,
        request: Request,
    },
    /// A member, by its number, acknowledges the service.
    Ack {
        node: u128,
        member: u128,
    },
    /// A member proposes these actions, or `None`, where the JSON names a node that there isn't.
    Propose {
        node: u128,
        member: u128,
        actions: Option<Sequence<Action>>,
    },
    /// A member answers a proposal. Proposals are numbered from 1, in the order in which they were
    /// first accepted.
    Ballot {
        node: u128,
        member: u128,
        proposal: u128,
        agrees: bool,
    },
    /// A member takes a proposal of its own back.
    Withdraw {
        node: u128,
        member: u128,
        proposal: u128,
    },
    /// A node asks to join.
    Join {
        node: u128,
        joiner: u128,
    },
    /// A retired node may be switched off, once this is committed.
    Mark {
        node: u128,
        marked: u128,
    },
    /// Sends the request of governance of the line with this number once more.
    Again {
        node: u128,
        line: u128,
    },
    /// Reserves one more one-time leaf of the node's key.
    Reserve {
        node: u128,
    },
    /// Signs the ledger so far.
    Sign {
        node: u128,
    },
    /// Makes evidence of the snapshot of all entries so far.
    Evidence {
        node: u128,
    },
    /// Sends a node the entries that it lacks.
    Replicate {
        node: u128,
        to: u128,
    },
    /// Commits what is signed and held by a majority.
    Advance {
        node: u128,
    },
    /// The node gives its lead up, and asks another to stand for election.
    StepDown {
        node: u128,
        to: u128,
    },
    /// The node stops, and goes on from what its disk keeps.
    Restart {
        node: u128,
    },
    /// The node, which has no entries, begins from what another one offers of its ledger.
    Install {
        node: u128,
        from: u128,
    },
    /// Asks for the status of a transaction.
    Status {
        node: u128,
        id: TxId,
    },
    /// Asks how far the retirement of a node has come.
    Stage {
        node: u128,
        other: u128,
    },
    /// Asks for the identifiers of the committed ledger.
    Ids {
        node: u128,
    },
    /// Asks for the entries of the node's log.
    Ledger {
        node: u128,
    },
}

/// The lines of a schedule after its first.
pub type Lines = Sequence<Line>;
