//! What an event of an election comes to.

use gl_base::{OrNoMemory, Sequence};
use gl_config::NodeId;
use gl_messages::Message;
use thiserror::Error;

/// What an event of an election answers.
#[derive(Clone, Copy, Debug, PartialEq, Eq)]
pub enum ElectionOutcome {
    Done,
    Idle,
    /// Became a candidate, and not a leader at once.
    BecameCandidate,
    BecameLeader,
}

/// Why an event of an election was refused.
#[derive(Clone, Copy, Debug, PartialEq, Eq, Error)]
pub enum ElectionRefusal {
    /// The peer doesn't lead: its view, and whom it takes for the leader.
    #[error("not the leader of view {view}")]
    NotPrimary { view: u32, leader: Option<NodeId> },
    /// The node is no other node of an active configuration.
    #[error("no other node of an active configuration")]
    NotPeer,
    /// The view is the last one.
    #[error("the view is the last one")]
    ViewLimit,
}

impl From<ElectionRefusal> for OrNoMemory<ElectionRefusal> {
    ghost use Rattle.std.specs.Prelude.{◌≡◌};
    ghost use Rattle.gl_base.specs.declared.or_no_memory.OrNoMemory.TheVariants.{Fault};

    ghost from_gives = { λ why e. e ≡ Fault why };

    fn from(why: ElectionRefusal) -> OrNoMemory<ElectionRefusal> {
        OrNoMemory::Fault(why)
    }
}

/// What an event of an election answers, and what is sent, in order.
#[derive(Debug, Drop)]
pub struct Elected {
    pub outcome: ElectionOutcome,
    pub sent: Sequence<Message>,
    /// Whether the view rose: the log is to be cut to its last signature.
    pub rose: bool,
}
