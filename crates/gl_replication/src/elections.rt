//! Elections at a node: what its peer does, over its own log.

ghost use Rattle.std.specs.Prelude.{◌≡◌, ◌≤◌, ◌&&◌, filter, not, take, IfOk, IfErr, OnErr};
ghost use Rattle.gl_rules.specs.Identity.{same};
ghost use Rattle.gl_rules.specs.Log.{last_signature};
ghost use Rattle.gl_rules.specs.Configuration.{in_some, others};
ghost use Rattle.gl_rules.specs.Steps.{cut_to};
ghost use Rattle.gl_rules.specs.Elections.{step_down, timeout};
ghost use Rattle.gl_rules.specs.Message.{RequestVote, VoteReply, ProposeVote};
ghost use Rattle.gl_rules.specs.World.{on_message};
ghost use Rattle.gl_election.specs.Elections.{position};
ghost use Rattle.gl_config.specs.Active.{sets_of};
ghost use Rattle.gl_election.specs.Bridge.{begin_leading, message_to};
ghost use Rattle.gl_election.specs.declared.elected.ElectionOutcome.TheVariants.{BecameLeader};
ghost use Rattle.gl_replication.specs.Events.{AreFit};
ghost use Rattle.gl_replication.specs.Standing.{At};
ghost use Rattle.gl_replication.specs.Stands.{KeepsAll, Refuses, Reports, Settles, Steps, Turns, refusal_of};

use crate::book::Book;
use crate::done::{Done, Outcome, Refusal};
use crate::node::Core;
use gl_base::{OrNoMemory, TxId};
use gl_config::{Active, NodeId};
use gl_election::{Elected, ElectionOutcome, ElectionRefusal};
use std::alloc::{AllocError, Global};

/// The active ones of these nodes, but for one.
#[tactic(auto, unfolding(gl_rules::specs::Identity::same))]
fn other_nodes(
    alloc: Global,
    me: &NodeId,
    active: &Active<'_>,
    nodes: &[NodeId],
) -> Result<Vec<NodeId>, AllocError>
    ensures { IfOk result (λ others. others.items
        ≡ filter (λ y. not (same y me.now) && in_some y (sets_of active.now)) nodes.now) }
{
    let mut others = Vec::new(alloc);
    for node in nodes {
        if node != me && active.holds(node) {
            others.push(*node)?;
        }
    }
    Ok(others)
}

/// What the peer refuses, as the core does.
fn refusal_of<B: Book>(why: OrNoMemory<ElectionRefusal>) -> Refusal<B>
    ensures { result ≡ refusal_of why }
{
    match why {
        OrNoMemory::NoMemory => Refusal::NoMemory,
        OrNoMemory::Fault(ElectionRefusal::NotPrimary { view, leader }) => {
            Refusal::NotPrimary(view, leader)
        }
        OrNoMemory::Fault(ElectionRefusal::NotPeer) => Refusal::NotPeer,
        OrNoMemory::Fault(ElectionRefusal::ViewLimit) => Refusal::ViewLimit,
    }
}

impl<B: Book> Core<B> {
    /// Cuts the log to a seqno, which is counted where an entry is taken away.
    pub(crate) fn cut_to(&mut self, seqno: u64)
        requires base { At B.stands self.old.book (λ b h. h.base ≤ seqno) }
        ensures turns { Turns B.stands (λ b n. cut_to seqno n) self.old self.new }
        ensures snapshot { B.base_snapshot self.new.book ≡ B.base_snapshot self.old.book }
    {
        if seqno < self.book.ledger_len() {
            self.cuts = self.cuts.saturating_add(1);
        }
        self.book.cut(seqno);
    }

    fn cut_to_last_signature(&mut self)
        ensures turns { Turns B.stands (λ b n. cut_to (last_signature b n.log) n) self.old self.new }
        ensures snapshot { B.base_snapshot self.new.book ≡ B.base_snapshot self.old.book }
    {
        let last = self.book.last_signature();
        self.cut_to(last.seqno);
    }

    /// A new leader begins after its log, and knows nothing of the others.
    fn begin_leading(&mut self)
        ensures turns { Turns B.stands (λ b n. begin_leading b BecameLeader n) self.old self.new }
        ensures snapshot { B.base_snapshot self.new.book ≡ B.base_snapshot self.old.book }
    {
        self.start = self.book.ledger_len() + 1;
        self.matched.clear();
        self.next.clear();
    }

    /// The other nodes of the active configurations of the log cut to a seqno, not below the base,
    /// in the order in which they were recorded.
    fn others(&self, upto: u64) -> Result<Vec<NodeId>, AllocError>
        ensures { IfOk result (λ nodes. Reports B.stands self.now (λ b x n. n.base ≤ upto →
            nodes.items ≡ others b x (record n { log = take upto n.log }))) }
    {
        let active = Active::of(self.book.configurations(upto), self.commit);
        other_nodes(
            self.alloc,
            &self.book.me(),
            &active,
            self.book.recorded_nodes(upto),
        )
    }

    /// What the peer's turn means for the rest of the node.
    fn settle(&mut self, elected: Elected) -> Done<B>
        ensures settles { Settles B.stands elected self.old result self.new }
        ensures sent { result.sent ≡ elected.sent }
        ensures snapshot { B.base_snapshot self.new.book ≡ B.base_snapshot self.old.book }
    {
        if elected.rose {
            self.cut_to_last_signature();
        }
        let outcome = match elected.outcome {
            ElectionOutcome::Done => Outcome::Done,
            ElectionOutcome::Idle => Outcome::Idle,
            ElectionOutcome::BecameCandidate => Outcome::BecameCandidate,
            ElectionOutcome::BecameLeader => {
                self.begin_leading();
                Outcome::BecameLeader
            }
        };
        Done {
            outcome,
            sent: elected.sent,
        }
    }

    /// A timeout: a node that doesn't lead campaigns for the next view, if it is in an active
    /// configuration of its log cut to its last signature.
    pub fn timeout(&mut self) -> Result<Done<B>, Refusal<B>>
        ensures steps { IfOk result (λ done.
            Steps B.stands (λ b x n. timeout b x n) self.old done self.new) }
        ensures refused { IfErr result (λ why.
            Refuses B.stands (λ b x n. timeout b x n) self.old why) }
        ensures err { OnErr result (KeepsAll B.stands self.old self.new) }
        ensures fits { IfOk result (λ done. AreFit done.sent) }
        ensures snapshot { B.base_snapshot self.new.book ≡ B.base_snapshot self.old.book }
    {
        let last = self.book.last_signature();
        match self.others(last.seqno) {
            Err(_) => Err(Refusal::NoMemory),
            Ok(others) => {
                let me = self.book.me();
                let active = Active::of(self.book.configurations(last.seqno), self.commit);
                match self.peer.timeout(self.alloc, me, last, &active, &others) {
                    Ok(elected) => Ok(self.settle(elected)),
                    Err(why) => Err(refusal_of(why)),
                }
            }
        }
    }

    /// A candidate's request for a vote in a view.
    pub fn on_request_vote(
        &mut self,
        from: NodeId,
        view: u32,
        theirs: TxId,
    ) -> Result<Done<B>, Refusal<B>>
        ensures steps { IfOk result (λ done. Steps B.stands (λ b x n.
            on_message b (message_to x from view (RequestVote (position theirs))) n)
            self.old done self.new) }
        ensures refused { IfErr result (λ why. Refuses B.stands (λ b x n.
            on_message b (message_to x from view (RequestVote (position theirs))) n) self.old why) }
        ensures err { OnErr result (KeepsAll B.stands self.old self.new) }
        ensures fits { IfOk result (λ done. AreFit done.sent) }
        ensures snapshot { B.base_snapshot self.new.book ≡ B.base_snapshot self.old.book }
    {
        let me = self.book.me();
        let signed = self.book.last_signature();
        match self
            .peer
            .on_request_vote(self.alloc, me, signed, from, view, theirs)
        {
            Ok(elected) => Ok(self.settle(elected)),
            Err(why) => Err(refusal_of(why)),
        }
    }

    /// A reply to such a request: a candidate of that view leads once it has a majority in each
    /// active configuration.
    pub fn on_vote_reply(
        &mut self,
        from: NodeId,
        view: u32,
        granted: bool,
    ) -> Result<Done<B>, Refusal<B>>
        ensures steps { IfOk result (λ done. Steps B.stands (λ b x n.
            on_message b (message_to x from view (VoteReply granted)) n) self.old done self.new) }
        ensures refused { IfErr result (λ why. Refuses B.stands (λ b x n.
            on_message b (message_to x from view (VoteReply granted)) n) self.old why) }
        ensures err { OnErr result (KeepsAll B.stands self.old self.new) }
        ensures fits { IfOk result (λ done. AreFit done.sent) }
        ensures snapshot { B.base_snapshot self.new.book ≡ B.base_snapshot self.old.book }
    {
        let me = self.book.me();
        let len = self.book.ledger_len();
        let active = Active::of(self.book.configurations(len), self.commit);
        match self
            .peer
            .on_vote_reply(self.alloc, me, &active, from, view, granted)
        {
            Ok(elected) => Ok(self.settle(elected)),
            Err(why) => Err(refusal_of(why)),
        }
    }

    /// A leader's wish that this node campaign.
    pub fn on_propose_vote(&mut self, from: NodeId, view: u32) -> Result<Done<B>, Refusal<B>>
        ensures steps { IfOk result (λ done. Steps B.stands (λ b x n.
            on_message b (message_to x from view ProposeVote) n) self.old done self.new) }
        ensures refused { IfErr result (λ why. Refuses B.stands (λ b x n.
            on_message b (message_to x from view ProposeVote) n) self.old why) }
        ensures err { OnErr result (KeepsAll B.stands self.old self.new) }
        ensures fits { IfOk result (λ done. AreFit done.sent) }
        ensures snapshot { B.base_snapshot self.new.book ≡ B.base_snapshot self.old.book }
    {
        let last = self.book.last_signature();
        match self.others(last.seqno) {
            Err(_) => Err(Refusal::NoMemory),
            Ok(others) => {
                let me = self.book.me();
                let active = Active::of(self.book.configurations(last.seqno), self.commit);
                match self
                    .peer
                    .on_propose_vote(self.alloc, me, last, &active, &others, from, view)
                {
                    Ok(elected) => Ok(self.settle(elected)),
                    Err(why) => Err(refusal_of(why)),
                }
            }
        }
    }

    /// The leader hands over to another node of an active configuration.
    pub fn step_down(&mut self, to: NodeId) -> Result<Done<B>, Refusal<B>>
        ensures steps { IfOk result (λ done.
            Steps B.stands (λ b x n. step_down b x to n) self.old done self.new) }
        ensures refused { IfErr result (λ why.
            Refuses B.stands (λ b x n. step_down b x to n) self.old why) }
        ensures err { OnErr result (KeepsAll B.stands self.old self.new) }
        ensures fits { IfOk result (λ done. AreFit done.sent) }
        ensures snapshot { B.base_snapshot self.new.book ≡ B.base_snapshot self.old.book }
    {
        let me = self.book.me();
        let len = self.book.ledger_len();
        let active = Active::of(self.book.configurations(len), self.commit);
        match self.peer.step_down(self.alloc, me, &active, to) {
            Ok(elected) => Ok(self.settle(elected)),
            Err(why) => Err(refusal_of(why)),
        }
    }
}
