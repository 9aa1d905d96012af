//! A node, as a serve knows it.

ghost use Rattle.std.specs.Prelude.{◌≡◌, IfOk};
ghost use Rattle.gl_serve.specs.Rules.{Rules, Fits};

use gl_base::Sequence;
use gl_entry::NodeId;
use gl_messages::{Answer, Message};
use std::alloc::AllocError;

/// An event of a node's own.
#[derive(Clone, Copy, Debug, PartialEq, Eq)]
pub enum OwnEvent {
    /// A leader sends a peer what it lacks.
    Replicate(NodeId),
    /// A leader whose last entry is no signature of its view reserves a leaf of its key.
    Reserve,
    /// A leader whose last entry is no signature of its view signs.
    Sign,
    /// A leader commits what a majority holds.
    Advance,
    /// A leader makes evidence of the snapshot of its ledger so far, where that is due.
    Evidence,
    /// A node that heard of no leader for long enough stands for election.
    Timeout,
}

/// What an event came to.
#[derive(Debug, Drop)]
pub enum Outcome {
    /// The event was done, or refused.
    Done {
        /// What is sent to other nodes, in order.
        messages: Sequence<Message>,
        /// What is answered to who asked.
        answer: Option<Answer>,
        /// Whether the count of ticks begins again: a vote was granted, or an Append of the node's
        /// view was taken and answered.
        heard: bool,
    },
    /// The disk failed, and the node does nothing more.
    Stopped,
    /// Memory ran out where nothing can be answered: the serve is to end.
    NoMemory,
}

/// A node that can be served.
pub trait ServedNode {
    /// What a payload may encode.
    type Payload: Drop;

    // How the node reads payloads, and what its events may come to.
    ghost rules: { Rules Self Self.Payload };

    /// What a payload encodes, `None` where it isn't in the grammar. Fails only where memory runs
    /// out.
    fn read(&self, payload: &[u8]) -> Result<Option<Self::Payload>, AllocError>
        ensures { IfOk result (λ read. (rules).reads payload.now read) };

    /// A payload comes.
    fn handle(&mut self, payload: Self::Payload) -> Outcome
        ensures handled { (rules).handles self.old payload result self.new }
        ensures fits { Fits result };

    /// An event of the node's own.
    fn own(&mut self, event: OwnEvent) -> Outcome
        ensures done { (rules).owns self.old event result self.new }
        ensures fits { Fits result };

    /// Whether the node leads.
    fn leads(&self) -> bool
        ensures { result ≡ (rules).leads self.now };
}
