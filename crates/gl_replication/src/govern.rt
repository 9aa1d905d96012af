//! Governance at the leader, and the leaves of the node's key.

ghost use Rattle.std.specs.Prelude.{◌≡◌, [], length, IfOk, IfErr, OnOk, OnErr};
ghost use Rattle.gl_rules.specs.Configuration.{configurations_above};
ghost use Rattle.gl_rules.specs.Requests.{append_result, govern, govern_as_leader, if_markable, if_removal_committed, reserve, unless_mark_refused};
ghost use Rattle.gl_config.specs.Active.{above};
ghost use Rattle.gl_replication.specs.Events.{IsAccepted};
ghost use Rattle.gl_replication.specs.Stands.{IsNoMemory, KeepsAll, Passes, Refuses, Reports, Steps, Stops};

use crate::book::Book;
use crate::done::{Done, Outcome, Refusal};
use crate::node::Core;
use gl_base::{OrNoMemory, Sequence};
use gl_config::{Configuration, NodeId};
use gl_election::Role;

/// So many configurations above commit are too many for a request of governance.
const PENDING_LIMIT: u64 = 16;

/// How many of these configurations stand above a seqno.
fn count_above(configurations: &[Configuration], seqno: u64) -> usize
    ensures { result ≡ length (above seqno configurations.now) }
{
    configurations
        .iter()
        .filter(|configuration| configuration.seqno > seqno)
        .count()
}

impl<B: Book> Core<B> {
    /// How many configurations of its log stand above commit.
    fn pending(&self) -> u64
        ensures { Reports B.stands self.now (λ b x n.
            result ≡ length (configurations_above b n.log n.commit (length n.log))) }
    {
        let len = self.book.ledger_len();
        count_above(self.book.configurations(len), self.commit) as u64
    }

    /// A mark waits until the removal of its node, at this seqno, is committed here.
    fn check_removal(&self, removal: Option<u64>) -> Result<(), Refusal<B>>
        ensures ok { OnOk result (Passes B.stands (λ b n step.
            if_removal_committed b removal n step) self.now) }
        ensures refused { IfErr result (λ why. Stops B.stands (λ b n step.
            if_removal_committed b removal n step) self.now why) }
    {
        match removal {
            None => Ok(()),
            Some(seqno) => {
                if seqno > self.commit {
                    return Err(Refusal::RemovalNotCommitted(seqno, self.commit));
                }
                Ok(())
            }
        }
    }

    /// Whether this node may be marked here and now.
    fn check_mark(&self, node: &NodeId) -> Result<(), Refusal<B>>
        ensures ok { OnOk result (Passes B.stands (λ b n step.
            unless_mark_refused b (b.mark_refusal n.log node.now) node.now n step) self.now) }
        ensures refused { IfErr result (λ why. Stops B.stands (λ b n step.
            unless_mark_refused b (b.mark_refusal n.log node.now) node.now n step) self.now why) }
    {
        match self.book.mark_refusal(node) {
            Some(why) => Err(Refusal::ByLedger(why)),
            None => self.check_removal(self.book.removal(node)),
        }
    }

    /// Whether the node that a request marks, if it marks one, may be marked here and now.
    fn check_request(&self, request: &B::Gov) -> Result<(), Refusal<B>>
        ensures ok { OnOk result (Passes B.stands (λ b n step.
            if_markable b (b.marked_node request.now) n step) self.now) }
        ensures refused { IfErr result (λ why. Stops B.stands (λ b n step.
            if_markable b (b.marked_node request.now) n step) self.now why) }
    {
        match self.book.marked_node(request) {
            None => Ok(()),
            Some(node) => self.check_mark(&node),
        }
    }

    /// One more entry for a request of governance.
    fn execute_governance(&mut self, request: &B::Gov) -> Result<Done<B>, Refusal<B>>
        ensures steps { IfOk result (λ done. Steps B.stands (λ b x n.
            append_result b n (b.govern n.log n.view request.now)) self.old done self.new) }
        ensures refused { IfErr result (λ why. Refuses B.stands (λ b x n.
            append_result b n (b.govern n.log n.view request.now)) self.old why) }
        ensures err { OnErr result (KeepsAll B.stands self.old self.new) }
        ensures quiet { IfOk result (λ done. done.sent ≡ []) }
        ensures accepted { IfOk result (λ done. IsAccepted B.fits done.outcome) }
        ensures snapshot { B.base_snapshot self.new.book ≡ B.base_snapshot self.old.book }
    {
        let seqno = self.book.ledger_len() + 1;
        match self.book.govern(self.peer.view, request) {
            Ok((view, given)) => Ok(Done {
                outcome: Outcome::Accepted(view, seqno, given),
                sent: Sequence::from(Vec::new(self.alloc)),
            }),
            Err(OrNoMemory::NoMemory) => Err(Refusal::NoMemory),
            Err(OrNoMemory::Fault(why)) => Err(Refusal::ByLedger(why)),
        }
    }

    fn govern_as_leader(&mut self, request: &B::Gov) -> Result<Done<B>, Refusal<B>>
        ensures steps { IfOk result (λ done.
            Steps B.stands (λ b x n. govern_as_leader b request.now n) self.old done self.new) }
        ensures refused { IfErr result (λ why.
            Refuses B.stands (λ b x n. govern_as_leader b request.now n) self.old why) }
        ensures err { OnErr result (KeepsAll B.stands self.old self.new) }
        ensures quiet { IfOk result (λ done. done.sent ≡ []) }
        ensures accepted { IfOk result (λ done. IsAccepted B.fits done.outcome) }
        ensures snapshot { B.base_snapshot self.new.book ≡ B.base_snapshot self.old.book }
    {
        if self.pending() >= PENDING_LIMIT {
            return Err(Refusal::TooManyPending(PENDING_LIMIT));
        }
        match self.check_request(request) {
            Err(why) => Err(why),
            Ok(()) => self.execute_governance(request),
        }
    }

    /// The leader takes a request of governance, as one entry. It waits while too many
    /// configurations stand above commit, and a mark waits until the removal of its node is
    /// committed.
    pub fn govern(&mut self, request: &B::Gov) -> Result<Done<B>, Refusal<B>>
        ensures steps { IfOk result (λ done.
            Steps B.stands (λ b x n. govern b request.now n) self.old done self.new) }
        ensures refused { IfErr result (λ why.
            Refuses B.stands (λ b x n. govern b request.now n) self.old why) }
        ensures err { OnErr result (KeepsAll B.stands self.old self.new) }
        ensures quiet { IfOk result (λ done. done.sent ≡ []) }
        ensures accepted { IfOk result (λ done. IsAccepted B.fits done.outcome) }
        ensures snapshot { B.base_snapshot self.new.book ≡ B.base_snapshot self.old.book }
    {
        match self.peer.role {
            Role::Leader => self.govern_as_leader(request),
            _ => Err(Refusal::NotPrimary(self.peer.view, self.peer.leader)),
        }
    }

    /// One more leaf of its key, at any node. Takes no memory.
    #[tactic(auto, unfolding(gl_rules::specs::Requests::reserve))]
    pub fn reserve(&mut self) -> Result<Done<B>, Refusal<B>>
        ensures steps { IfOk result (λ done.
            Steps B.stands (λ b x n. reserve b x n) self.old done self.new) }
        ensures refused { IfErr result (λ why.
            Refuses B.stands (λ b x n. reserve b x n) self.old why) }
        ensures err { OnErr result (KeepsAll B.stands self.old self.new) }
        ensures quiet { IfOk result (λ done. done.sent ≡ []) }
        ensures ample { IfErr result (λ why. IsNoMemory why → ⊥) }
        ensures snapshot { B.base_snapshot self.new.book ≡ B.base_snapshot self.old.book }
    {
        if self.leaves.reserved >= self.book.leaves() {
            return Err(Refusal::KeyExhausted(self.leaves.reserved));
        }
        self.leaves.reserved += 1;
        Ok(self.done())
    }
}
