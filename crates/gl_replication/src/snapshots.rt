//! Snapshots: what a node offers of its ledger, and how another one begins from that.

ghost use Rattle.std.specs.Prelude.{◌≡◌, ◌≤◌, ◌+◌, ◌-◌, List, [], true, length, min, take, IfOk, IfErr, OnOk, OnErr};
ghost use Rattle.gl_entry.specs.declared.entry.Entry.{Entry as Item};
ghost use Rattle.gl_rules.specs.Book.{Book as Rules};
ghost use Rattle.gl_rules.specs.Log.{entry_at, last_signature};
ghost use Rattle.gl_rules.specs.Node.{Node};
ghost use Rattle.gl_rules.specs.Replication.{greatest_evidence, install, is_evidence_at, snapshot_of};
ghost use Rattle.gl_snapshot_body.specs.declared.body.Body.{Body as Summary};
ghost use Rattle.gl_replication.specs.Holding.{from_snapshot};
ghost use Rattle.gl_replication.specs.Offers.{IsOffer, IsShown, IsWritable, Offers, begun_from, kept_after_offer, kept_body};
ghost use Rattle.gl_replication.specs.Standing.{At, Stays};
ghost use Rattle.gl_replication.specs.Stands.{Answers, KeepsAll, Reports, StandsFor, Stepped};

use crate::book::Book;
use crate::done::{Done, Refusal};
use crate::node::Core;
use gl_snapshot_body::Body;
use std::alloc::AllocError;

/// A book that gives snapshots of its ledger, and may begin from one.
pub trait Snapshots: Book {
    // This body is a snapshot of a ledger, under these rules.
    ghost shows: { Summary → Rules Item Self.Request Self.Gov Self.Reads Self.Response
        Self.Refused → List Item → Type 0 };

    /// The body of a snapshot of the entries up to a seqno, which is not below the base, and right
    /// after which evidence stands.
    fn snapshot(&self, to: u64) -> Result<Body, AllocError>
        requires base { At Self.stands self.now (λ b h. h.base ≤ to) }
        requires within { At Self.stands self.now (λ b h. to ≤ length h.log) }
        requires evidence { At Self.stands self.now (λ b h.
            is_evidence_at b (entry_at h.log (to + 1)) ≡ true) }
        ensures shown { IfOk result (λ body. At Self.stands self.now (λ b h.
            shows body b (take to h.log))) }
        ensures writable { IfOk result (λ body. At Self.stands self.now (λ b h.
            IsWritable body)) };

    /// Begins from a snapshot of a ledger, where no entry is there yet.
    fn install(&mut self, body: Body) -> Result<(), AllocError>
        requires empty { At Self.stands self.old (λ b h. h.log ≡ []) }
        requires shown { IsShown shows body }
        ensures begun { OnOk result (At Self.stands self.old (λ b h. (log : List Item) →
            shows body b log → Self.stands self.new b (from_snapshot h.me log))) }
        ensures err { OnErr result (Stays Self.stands self.old self.new) }
        // It keeps the body, where that stands for an entry at least.
        ensures body { OnOk result (Self.base_snapshot self.new ≡ kept_body body) }
        ensures snapshot { OnErr result
            (Self.base_snapshot self.new ≡ Self.base_snapshot self.old) };

    /// Keeps the bytes of the snapshot with this evidence at hand, of a ledger that is committed up
    /// to a seqno, for whoever fetches them part by part. What the book is seen as stays.
    fn keep_at_hand(&mut self, commit: u64, evidence: u64) -> Result<(), AllocError>
        ensures same { self.new ≡ self.old };
}

/// What a node offers one that begins from its ledger.
#[derive(Debug, Drop)]
pub enum Offer {
    /// The snapshot of the entries before its last evidence with a committed signature above.
    Snapshot(Body),
    /// It has no such evidence above its base; and commit.
    NoLaterSignature(u64),
}

impl<B: Snapshots> Core<B> {
    /// The evidence whose snapshot it offers: the last one above its base that has a committed
    /// signature above.
    pub fn snapshot_evidence(&self) -> Option<u64>
        ensures value { Reports B.stands self.now (λ b x n. result ≡ snapshot_of b n) }
        ensures evidence { At B.stands self.now.book (λ b h. result ≡ greatest_evidence b h.log
            h.base (last_signature b (take self.now.commit h.log) - 1)) }
    {
        let signed = self.book.signature_upto(self.commit);
        self.book.evidence_upto(signed.saturating_sub(1))
    }

    /// Commit, or the seqno of the last entry where that is below it, as in no run.
    pub fn committed_len(&self) -> u64
        ensures { At B.stands self.now.book (λ b h.
            result ≡ min self.now.commit (length h.log)) }
    {
        self.commit.min(self.book.ledger_len())
    }

    /// Has its book keep the bytes of that snapshot at hand. What is seen of the node stays.
    pub fn keep_at_hand(&mut self) -> Result<(), AllocError>
        ensures same { self.new ≡ self.old }
    {
        let commit = self.committed_len();
        match self.snapshot_evidence() {
            None => Ok(()),
            Some(evidence) => self.book.keep_at_hand(commit, evidence),
        }
    }

    /// What it offers a node that begins.
    pub fn snapshot(&self) -> Result<Offer, AllocError>
        ensures { IfOk result (λ offer.
            Reports B.stands self.now (λ b x n. Offers B.shows offer b n)) }
    {
        match self.snapshot_evidence() {
            None => Ok(Offer::NoLaterSignature(self.commit)),
            Some(seqno) => {
                let body = self.book.snapshot(seqno.saturating_sub(1))?;
                Ok(Offer::Snapshot(body))
            }
        }
    }

    /// Begins from a snapshot of a ledger, where no entry is there yet.
    fn begin_from(&mut self, body: Body) -> Result<(), AllocError>
        requires empty { At B.stands self.old.book (λ b h. h.log ≡ []) }
        requires shown { IsShown B.shows body }
        ensures begun { OnOk result (Reports B.stands self.old (λ b x n. (log : List Item) →
            B.shows body b log → StandsFor B.stands self.new b x (begun_from b log n))) }
        ensures err { OnErr result (KeepsAll B.stands self.old self.new) }
        ensures body { OnOk result (B.base_snapshot self.new.book ≡ kept_body body) }
        ensures snapshot { OnErr result
            (B.base_snapshot self.new.book ≡ B.base_snapshot self.old.book) }
    {
        self.book.install(body)?;
        self.commit = self.book.ledger_len();
        let view = self.book.view_at(self.commit);
        if view > self.peer.view {
            self.begin_view(view);
        }
        Ok(())
    }

    /// A node without entries begins from what another one offers.
    pub fn install(&mut self, offer: Offer) -> Result<Done<B>, Refusal<B>>
        requires offered { IsOffer B.shows offer }
        ensures steps { IfOk result (λ done. Reports B.stands self.old (λ b x n.
            (m : Node Item) → Offers B.shows offer b m →
            Stepped B.stands b x (install b m n) done self.new)) }
        ensures refused { IfErr result (λ why. Reports B.stands self.old (λ b x n.
            (m : Node Item) → Offers B.shows offer b m → Answers why (install b m n).outcome)) }
        ensures err { OnErr result (KeepsAll B.stands self.old self.new) }
        ensures quiet { IfOk result (λ done. done.sent ≡ []) }
        // Its store keeps another body only where it begins from that.
        ensures body { IfOk result (λ done. B.base_snapshot self.new.book
            ≡ kept_after_offer offer done.outcome (B.base_snapshot self.old.book)) }
        ensures snapshot { OnErr result
            (B.base_snapshot self.new.book ≡ B.base_snapshot self.old.book) }
    {
        if self.book.ledger_len() > 0 {
            return Ok(self.idle());
        }
        match offer {
            Offer::NoLaterSignature(commit) => Err(Refusal::NoLaterSignature(commit)),
            Offer::Snapshot(body) => match self.begin_from(body) {
                Ok(()) => Ok(self.done()),
                Err(_) => Err(Refusal::NoMemory),
            },
        }
    }
}
