//! Evidence of snapshots: entries with the digest of a snapshot of the ledger before them.

ghost use Rattle.std.specs.Prelude.{◌≡◌, [], IfOk, IfErr, OnErr};
ghost use Rattle.gl_rules.specs.Requests.{append_evidence, evidence};
ghost use Rattle.gl_rules.specs.Replication.{is_evidence_due, last_evidence};
ghost use Rattle.gl_replication.specs.Stands.{KeepsAll, Refuses, Reports, Steps};

use crate::book::Book;
use crate::done::{Done, Outcome, Refusal};
use crate::node::Core;
use gl_base::{OrNoMemory, Sequence};
use gl_election::Role;

/// After so many entries without evidence the next one is due.
const EVIDENCE_DISTANCE: u64 = 1000;

impl<B: Book> Core<B> {
    /// One more entry, with the digest of a snapshot.
    fn append_evidence(&mut self) -> Result<Done<B>, Refusal<B>>
        ensures steps { IfOk result (λ done. Steps B.stands (λ b x n.
            append_evidence b n (b.evidence n.log n.view)) self.old done self.new) }
        ensures refused { IfErr result (λ why. Refuses B.stands (λ b x n.
            append_evidence b n (b.evidence n.log n.view)) self.old why) }
        ensures err { OnErr result (KeepsAll B.stands self.old self.new) }
        ensures quiet { IfOk result (λ done. done.sent ≡ []) }
        ensures snapshot { B.base_snapshot self.new.book ≡ B.base_snapshot self.old.book }
    {
        let seqno = self.book.ledger_len() + 1;
        match self.book.evidence(self.peer.view) {
            Ok(view) => Ok(Done {
                outcome: Outcome::Signed(view, seqno),
                sent: Sequence::from(Vec::new(self.alloc)),
            }),
            Err(OrNoMemory::NoMemory) => Err(Refusal::NoMemory),
            Err(OrNoMemory::Fault(why)) => Err(Refusal::ByLedger(why)),
        }
    }

    /// The leader appends the digest of a snapshot of the ledger so far.
    pub fn evidence(&mut self) -> Result<Done<B>, Refusal<B>>
        ensures steps { IfOk result (λ done.
            Steps B.stands (λ b x n. evidence b n) self.old done self.new) }
        ensures refused { IfErr result (λ why.
            Refuses B.stands (λ b x n. evidence b n) self.old why) }
        ensures err { OnErr result (KeepsAll B.stands self.old self.new) }
        ensures quiet { IfOk result (λ done. done.sent ≡ []) }
        ensures snapshot { B.base_snapshot self.new.book ≡ B.base_snapshot self.old.book }
    {
        match self.peer.role {
            Role::Leader => self.append_evidence(),
            _ => Err(Refusal::NotPrimary(self.peer.view, self.peer.leader)),
        }
    }

    /// The seqno of the last evidence entry above the base; where there is none, the base.
    fn last_evidence(&self) -> u64
        ensures { Reports B.stands self.now (λ b x n. result ≡ last_evidence b n) }
    {
        match self.book.evidence_upto(self.book.ledger_len()) {
            Some(seqno) => seqno,
            None => self.book.base(),
        }
    }

    /// Whether evidence is due: the log ends with a signature, and 1,000 entries or more stand
    /// after the last evidence, or above the base where it has none.
    pub fn is_evidence_due(&self) -> bool
        ensures { Reports B.stands self.now (λ b x n. result ≡ is_evidence_due b n) }
    {
        let len = self.book.ledger_len();
        if self.book.last_signature().seqno != len {
            return false;
        }
        len.saturating_sub(self.last_evidence()) >= EVIDENCE_DISTANCE
    }
}
