//! A node of a world.

ghost use Rattle.std.specs.Prelude.{◌≡◌, true, false, map, IfOk, IfErr, OnErr};
ghost use Rattle.gl_rules.specs.Node.{Node};
ghost use Rattle.gl_rules.specs.Replication.{install};
ghost use Rattle.gl_entry.specs.declared.entry.Entry.{Entry as Item};
ghost use Rattle.gl_election.specs.Bridge.{seen_message};
ghost use Rattle.gl_replication.specs.Offers.{Offers};
ghost use Rattle.gl_replication.specs.Stands.{Answers, StandsFor};
ghost use Rattle.gl_world.specs.Held.{is_among};
ghost use Rattle.gl_world.specs.Rules.{bring_few, is_install, rule_of};
ghost use Rattle.gl_world.specs.WorldNodes.{IsOffered, KeepsAll, OfEach, Refuses, StandsAs, Stepped, Steps};

use crate::event::Event;
use gl_entry::NodeId;
use gl_ledger::{Reads, Rejection, Response};
use gl_messages::Message;
use gl_replication::{Book, Core, Done, Offer, Refusal, Snapshots};
use gl_requests::GovernanceRequest;
use gl_tx::Request;

/// A node of a world. Its meaning is a relation between it, rules over a ledger book, and a node of
/// these rules. A node that stands for nothing promises nothing; whoever makes one says for which
/// rules and which node it stands.
pub trait WorldNode: Drop {
    /// The store of its ledger.
    type Book: Book<
        Request = Request,
        Gov = GovernanceRequest,
        Reads = Reads,
        Response = Response,
        Refused = Rejection,
    >
        + Snapshots;

    // Under these rules it stands for this node of them.
    ghost stands: { StandsAs Self };

    /// The node, to be asked what it knows.
    fn core(&self) -> &Core<Self::Book>
        ensures { OfEach stands self.now (λ b x n. StandsFor Self.Book.stands result.now b x n) };

    /// An event of the world other than an Install happens at the node, among the nodes with these
    /// identifiers, after these messages: of each node that it stands for it is the rule's step. A
    /// refusal is that of the rule, running out of memory aside, and leaves all as it was.
    fn apply_event(
        &mut self,
        ids: &[NodeId],
        sent: &[Message],
        event: &Event,
    ) -> Result<Done<Self::Book>, Refusal<Self::Book>>
        requires among { is_among ids.now (map seen_message sent.now) event.now ≡ true }
        requires alone { is_install event.now ≡ false }
        requires few { bring_few (map seen_message sent.now) ≡ true }
        ensures steps { IfOk result (λ done. Steps stands
            (rule_of ids.now (map seen_message sent.now) event.now) self.old done self.new) }
        ensures refused { IfErr result (λ why. Refuses stands
            (rule_of ids.now (map seen_message sent.now) event.now) self.old why) }
        ensures err { OnErr result (KeepsAll stands self.old self.new) };

    /// The node, where it has no entries, begins from what another one offers: of each node that it
    /// stands for it is the rule's step. A refusal is that of the rule, running out of memory aside,
    /// and leaves all as it was.
    fn install(&mut self, offer: Offer) -> Result<Done<Self::Book>, Refusal<Self::Book>>
        requires offered { IsOffered stands Self.Book.shows self.old offer }
        ensures steps { IfOk result (λ done. OfEach stands self.old (λ b x n. (m : Node Item) →
            Offers Self.Book.shows offer b m →
            Stepped stands b x (install b m n) done self.new)) }
        ensures refused { IfErr result (λ why. OfEach stands self.old (λ b x n. (m : Node Item) →
            Offers Self.Book.shows offer b m → Answers why (install b m n).outcome)) }
        ensures err { OnErr result (KeepsAll stands self.old self.new) };
}
