//! A message to a node.

ghost use Rattle.std.specs.Prelude.{◌≡◌, IfOk, IfErr, OnErr};
ghost use Rattle.gl_rules.specs.World.{on_message};
ghost use Rattle.gl_election.specs.Bridge.{message_to, seen_body};
ghost use Rattle.gl_replication.specs.Events.{AreFit};
ghost use Rattle.gl_replication.specs.Stands.{KeepsAll, Refuses, Steps};

use crate::book::Book;
use crate::done::{Done, Refusal};
use crate::node::Core;
use gl_messages::{Body, Message};

impl<B: Book> Core<B> {
    /// What the node does with a message to it. To whom it is addressed is for the caller to see.
    pub(crate) fn on_message(&mut self, message: &Message) -> Result<Done<B>, Refusal<B>>
        ensures steps { IfOk result (λ done. Steps B.stands (λ b x n. on_message b
            (message_to x message.now.from message.now.view (seen_body message.now.body)) n)
            self.old done self.new) }
        ensures refused { IfErr result (λ why. Refuses B.stands (λ b x n. on_message b
            (message_to x message.now.from message.now.view (seen_body message.now.body)) n)
            self.old why) }
        ensures err { OnErr result (KeepsAll B.stands self.old self.new) }
        ensures fits { IfOk result (λ done. AreFit done.sent) }
        ensures snapshot { B.base_snapshot self.new.book ≡ B.base_snapshot self.old.book }
    {
        let from = message.from;
        let view = message.view;
        match &message.body {
            Body::RequestVote { last } => self.on_request_vote(from, view, *last),
            Body::VoteReply { granted } => self.on_vote_reply(from, view, *granted),
            Body::Append {
                prev,
                commit,
                entries,
            } => self.on_append(from, view, *prev, entries.as_slice(), *commit),
            Body::AppendReply { ok, seqno } => self.on_append_reply(from, view, *ok, *seqno),
            Body::ProposeVote => self.on_propose_vote(from, view),
        }
    }
}
