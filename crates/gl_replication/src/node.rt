//! A node over any store.

ghost use Rattle.std.specs.Prelude.{◌≡◌, ◌≤◌, ◌<◌, ◌==◌, [], false, length, IfOk, IfErr, IfSome, OnErr};
ghost use Rattle.gl_rules.specs.Requests.{execute_request, sign, sign_as_leader, submit};
ghost use Rattle.gl_rules.specs.Replication.{advance, commit_to, greatest_to_commit, may_commit, restart};
ghost use Rattle.gl_replication.specs.Events.{IsAccepted};
ghost use Rattle.gl_replication.specs.Standing.{At};
ghost use Rattle.gl_replication.specs.Stands.{IsNoMemory, KeepsAll, Refuses, Reports, Steps};

use crate::book::Book;
use crate::done::{Done, Outcome, Refusal};
use crate::holders::is_quorum_holding;
use crate::leaves::Leaves;
use gl_base::{OrNoMemory, Sequence};
use gl_config::{NodeId, NodeSet};
use gl_election::{Peer, Role};
use std::alloc::Global;

/// A node of the service over a store.
#[derive(Drop)]
pub struct Core<B: Book> {
    pub alloc: Global,
    pub book: B,
    pub peer: Peer,
    pub leaves: Leaves,
    pub commit: u64,
    /// The seqno after its log when it became leader.
    pub start: u64,
    /// How often entries were cut off its log, up to `u64::MAX`.
    pub cuts: u64,
    /// As a leader: up to which seqno each node is known to hold its log; the first pair of a node
    /// counts.
    pub matched: Vec<(NodeId, u64)>,
    /// Which seqno each node is sent next; the first pair of a node counts.
    pub next: Vec<(NodeId, u64)>,
}

impl<B: Book> Core<B> {
    /// One more entry for a request.
    fn execute_request(&mut self, request: &B::Request) -> Result<Done<B>, Refusal<B>>
        ensures steps { IfOk result (λ done.
            Steps B.stands (λ b x n. execute_request b request.now n) self.old done self.new) }
        ensures refused { IfErr result (λ why.
            Refuses B.stands (λ b x n. execute_request b request.now n) self.old why) }
        ensures err { OnErr result (KeepsAll B.stands self.old self.new) }
        ensures quiet { IfOk result (λ done. done.sent ≡ []) }
        ensures accepted { IfOk result (λ done. IsAccepted B.fits done.outcome) }
        ensures snapshot { B.base_snapshot self.new.book ≡ B.base_snapshot self.old.book }
    {
        let seqno = self.book.ledger_len() + 1;
        match self.book.execute(self.peer.view, request) {
            Ok((view, given)) => Ok(Done {
                outcome: Outcome::Accepted(view, seqno, given),
                sent: Sequence::from(Vec::new(self.alloc)),
            }),
            Err(OrNoMemory::NoMemory) => Err(Refusal::NoMemory),
            Err(OrNoMemory::Fault(why)) => Err(Refusal::ByLedger(why)),
        }
    }

    /// The leader takes an application's request, as one entry.
    pub fn submit(&mut self, request: &B::Request) -> Result<Done<B>, Refusal<B>>
        ensures steps { IfOk result (λ done.
            Steps B.stands (λ b x n. submit b request.now n) self.old done self.new) }
        ensures refused { IfErr result (λ why.
            Refuses B.stands (λ b x n. submit b request.now n) self.old why) }
        ensures err { OnErr result (KeepsAll B.stands self.old self.new) }
        ensures quiet { IfOk result (λ done. done.sent ≡ []) }
        ensures accepted { IfOk result (λ done. IsAccepted B.fits done.outcome) }
        ensures snapshot { B.base_snapshot self.new.book ≡ B.base_snapshot self.old.book }
    {
        match self.peer.role {
            Role::Leader => self.execute_request(request),
            _ => Err(Refusal::NotPrimary(self.peer.view, self.peer.leader)),
        }
    }

    /// Commit; it is never below the base.
    pub(crate) fn commit_from_base(&self) -> u64
        ensures value { Reports B.stands self.now (λ b x n. result ≡ n.commit) }
        ensures base { At B.stands self.now.book (λ b h. h.base ≤ result) }
    {
        self.commit.max(self.book.base())
    }

    /// Whether each reserved leaf is used. A leaf that isn't is one that the key has.
    fn is_exhausted(&self) -> bool
        ensures value { Reports B.stands self.now (λ b x n. result ≡ (n.used == n.reserved)) }
        ensures free { result ≡ false → self.now.leaves.used < self.now.leaves.reserved }
        ensures within { result ≡ false → self.now.leaves.used < u64.MAX }
        ensures leaf { result ≡ false →
            At B.stands self.now.book (λ b h. self.now.leaves.used < b.leaves h.me) }
    {
        self.leaves.used == self.leaves.reserved || self.leaves.used >= self.book.leaves()
    }

    /// A signature with the first leaf that is not used.
    fn sign_as_leader(&mut self) -> Result<Done<B>, Refusal<B>>
        ensures steps { IfOk result (λ done.
            Steps B.stands (λ b x n. sign_as_leader b x n) self.old done self.new) }
        ensures refused { IfErr result (λ why.
            Refuses B.stands (λ b x n. sign_as_leader b x n) self.old why) }
        ensures err { OnErr result (KeepsAll B.stands self.old self.new) }
        ensures quiet { IfOk result (λ done. done.sent ≡ []) }
        ensures snapshot { B.base_snapshot self.new.book ≡ B.base_snapshot self.old.book }
    {
        if self.is_exhausted() {
            return Err(Refusal::NotReserved(self.leaves.reserved));
        }
        let len = self.book.ledger_len();
        if self.book.is_signature_in(self.peer.view, len) {
            return Err(Refusal::NothingToSign(len));
        }
        let commit = self.commit_from_base();
        match self.book.sign(self.leaves.used, self.peer.view, commit) {
            Ok(view) => {
                self.leaves.used += 1;
                Ok(Done {
                    outcome: Outcome::Signed(view, len + 1),
                    sent: Sequence::from(Vec::new(self.alloc)),
                })
            }
            Err(OrNoMemory::NoMemory) => Err(Refusal::NoMemory),
            Err(OrNoMemory::Fault(why)) => Err(Refusal::ByLedger(why)),
        }
    }

    /// The leader signs the ledger so far.
    pub fn sign(&mut self) -> Result<Done<B>, Refusal<B>>
        ensures steps { IfOk result (λ done.
            Steps B.stands (λ b x n. sign b x n) self.old done self.new) }
        ensures refused { IfErr result (λ why.
            Refuses B.stands (λ b x n. sign b x n) self.old why) }
        ensures err { OnErr result (KeepsAll B.stands self.old self.new) }
        ensures quiet { IfOk result (λ done. done.sent ≡ []) }
        ensures snapshot { B.base_snapshot self.new.book ≡ B.base_snapshot self.old.book }
    {
        match self.peer.role {
            Role::Leader => self.sign_as_leader(),
            _ => Err(Refusal::NotPrimary(self.peer.view, self.peer.leader)),
        }
    }

    /// What the node's file keeps, and commit as far as it is known from it. Takes no memory.
    #[tactic(auto, unfolding(gl_rules::specs::Replication::restart))]
    pub fn restart(&mut self) -> Result<Done<B>, Refusal<B>>
        ensures steps { IfOk result (λ done.
            Steps B.stands (λ b x n. restart b n) self.old done self.new) }
        ensures always { IfErr result (λ why. ⊥) }
        ensures quiet { IfOk result (λ done. done.sent ≡ []) }
        ensures snapshot { B.base_snapshot self.new.book ≡ B.base_snapshot self.old.book }
    {
        self.commit = self.book.known_commit();
        self.peer.role = Role::Follower;
        self.peer.leader = None;
        self.peer.votes = NodeSet::new(Vec::new(self.alloc));
        self.matched.clear();
        self.next.clear();
        self.start = 1;
        self.leaves.used = self.leaves.reserved;
        self.cuts = 0;
        Ok(Done {
            outcome: Outcome::Done,
            sent: Sequence::from(Vec::new(self.alloc)),
        })
    }

    /// Whether it may commit a seqno, as the leader.
    fn may_commit(&self, seqno: u64) -> bool
        ensures { Reports B.stands self.now (λ b x n.
            seqno ≤ length n.log → result ≡ may_commit b x n seqno) }
    {
        if seqno <= self.commit || !self.book.is_signature_in(self.peer.view, seqno) {
            return false;
        }
        is_quorum_holding(
            &self.book.me(),
            seqno,
            &self.matched,
            self.book.configurations(seqno),
            self.commit,
        )
    }

    /// The greatest seqno that it may commit.
    fn greatest_to_commit(&self) -> Option<u64>
        ensures value { Reports B.stands self.now (λ b x n.
            result ≡ greatest_to_commit b x n (length n.log)) }
        ensures above { IfSome result (λ seqno. self.now.commit < seqno) }
    {
        let mut seqno = self.book.ledger_len();
        while seqno > self.commit {
            if self.may_commit(seqno) {
                return Some(seqno);
            }
            seqno -= 1;
        }
        None
    }

    /// Commit rises to the greatest seqno that it may, if there is one.
    fn advance_as_leader(&mut self) -> Done<B>
        ensures steps { Steps B.stands (λ b x n.
            commit_to b n (greatest_to_commit b x n (length n.log))) self.old result self.new }
        ensures quiet { result.sent ≡ [] }
        ensures snapshot { B.base_snapshot self.new.book ≡ B.base_snapshot self.old.book }
    {
        match self.greatest_to_commit() {
            None => Done {
                outcome: Outcome::Idle,
                sent: Sequence::from(Vec::new(self.alloc)),
            },
            Some(seqno) => {
                self.commit = seqno;
                Done {
                    outcome: Outcome::Committed(self.book.view_at(seqno), seqno),
                    sent: Sequence::from(Vec::new(self.alloc)),
                }
            }
        }
    }

    /// The leader commits the greatest seqno that it may. Takes no memory.
    pub fn advance(&mut self) -> Result<Done<B>, Refusal<B>>
        ensures steps { IfOk result (λ done.
            Steps B.stands (λ b x n. advance b x n) self.old done self.new) }
        ensures refused { IfErr result (λ why.
            Refuses B.stands (λ b x n. advance b x n) self.old why) }
        ensures err { OnErr result (KeepsAll B.stands self.old self.new) }
        ensures quiet { IfOk result (λ done. done.sent ≡ []) }
        ensures ample { IfErr result (λ why. IsNoMemory why → ⊥) }
        ensures snapshot { B.base_snapshot self.new.book ≡ B.base_snapshot self.old.book }
    {
        match self.peer.role {
            Role::Leader => Ok(self.advance_as_leader()),
            _ => Err(Refusal::NotPrimary(self.peer.view, self.peer.leader)),
        }
    }
}
