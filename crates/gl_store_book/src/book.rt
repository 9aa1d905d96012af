//! The store of a node as the book that the rules of consensus read.

ghost use Rattle.std.specs.Prelude.{◌≡◌, ◌&&◌, ◌==◌};
ghost use Rattle.gl_entry.specs.Entry.{is_signature};

use crate::batch::batch;
use crate::evidence::last_evidence;
use crate::refusals::by_rule;
use crate::snapshot_file::drop_if_cut;
use crate::store_book::StoreBook;
use gl_base::{OrNoMemory, TxId};
use gl_config::{Configuration, NodeId};
use gl_entry::{Content, Entry};
use gl_gov_decisions::mark_refusal;
use gl_ledger::{Reads, Refusal, Rejection, Response};
use gl_replication::Book;
use gl_requests::GovernanceRequest;
use gl_tx::Request;
use std::alloc::AllocError;

/// Whether an entry is a signature of this view.
fn is_signature_of(entry: &Entry, view: u32) -> bool
    ensures { result ≡ (is_signature entry.now.content && (entry.now.view == view)) }
{
    matches!(entry.content, Content::Signature(_)) && entry.view == view
}

impl Book for StoreBook {
    ghost use Rattle.gl_answers.specs.Limits.{FitsGiven};
    ghost use Rattle.gl_store_book.specs.Stands.{Stands};

    type Request = Request;

    type Gov = GovernanceRequest;

    type Reads = Reads;

    type Response = Response;

    type Refused = Rejection;

    ghost stands = { Stands };

    ghost fits = { FitsGiven };

    ghost base_snapshot = { λ b. b.ledger.snapshot };

    fn me(&self) -> NodeId {
        self.me
    }

    fn base(&self) -> u64 {
        self.ledger.tail().base()
    }

    fn leaves(&self) -> u64 {
        u64::from(self.key.types().leaf_count())
    }

    fn entries(&self) -> &[Entry] {
        self.ledger.tail().entries()
    }

    fn ledger_len(&self) -> u64 {
        self.ledger.len()
    }

    fn last_signature(&self) -> TxId {
        let tail = self.ledger.tail();
        let seqno = tail.state().last_signed();
        prove!(seqno <= tail.ledger_len());
        TxId {
            view: tail.view_at(seqno).unwrap_or(0),
            seqno,
        }
    }

    /// In a valid ledger the commits that signatures record never fall, so the last is the
    /// greatest. It is no greater than the seqno of the last entry, also where a snapshot that
    /// stands for no ledger tells of a greater one.
    fn known_commit(&self) -> u64 {
        let tail = self.ledger.tail();
        let recorded = tail.state().end().commit.min(tail.ledger_len());
        tail.base().max(recorded)
    }

    /// Below the base it is that at the base.
    fn signature_upto(&self, seqno: u64) -> u64 {
        let tail = self.ledger.tail();
        let high = seqno.max(tail.base());
        tail.state().last_signed_up_to(high)
    }

    fn evidence_upto(&self, seqno: u64) -> Option<u64> {
        let tail = self.ledger.tail();
        last_evidence(tail.entries(), tail.base(), seqno)
    }

    fn view_at(&self, seqno: u64) -> u32 {
        self.ledger.tail().view_at(seqno).unwrap_or(0)
    }

    fn view_of(&self, entry: &Entry) -> u32 {
        entry.view
    }

    /// The entry at a base above 0 is a signature.
    fn is_signature_in(&self, view: u32, seqno: u64) -> bool {
        if seqno == 0 {
            return false;
        }
        let tail = self.ledger.tail();
        if seqno == tail.base() {
            return self.view_at(seqno) == view;
        }
        match tail.entry(seqno) {
            None => false,
            Some(entry) => is_signature_of(entry, view),
        }
    }

    fn configurations(&self, upto: u64) -> &[Configuration] {
        prove!(self.ledger.tail().ledger_len() < 1 << 40);
        self.ledger.configurations(upto)
    }

    fn recorded_nodes(&self, upto: u64) -> &[NodeId] {
        prove!(self.ledger.tail().ledger_len() < 1 << 40);
        self.ledger.recorded_nodes(upto)
    }

    fn removal(&self, node: &NodeId) -> Option<u64> {
        let past = self.ledger.tail().state().gov.history();
        match past.node(node) {
            None => None,
            Some(recorded) => past.removal(recorded),
        }
    }

    fn mark(&self, node: &NodeId) -> Option<u64> {
        self.ledger.tail().state().gov.history().mark(node)
    }

    fn marked_node(&self, request: &GovernanceRequest) -> Option<NodeId> {
        match request {
            GovernanceRequest::Mark(node) => Some(*node),
            _ => None,
        }
    }

    fn mark_refusal(&self, node: &NodeId) -> Option<Rejection> {
        match mark_refusal(self.ledger.tail().state().gov.history(), node) {
            None => None,
            Some(why) => Some(Rejection::ByStore(Refusal::Governance(why))),
        }
    }

    fn batch(&self, after: u64) -> Result<Vec<Entry>, AllocError> {
        let tail = self.ledger.tail();
        if after >= tail.ledger_len() {
            return Ok(Vec::new(self.alloc));
        }
        let skipped = after.saturating_sub(tail.base());
        batch(self.alloc, &tail.entries()[skipped as usize..])
    }

    fn execute(
        &mut self,
        view: u32,
        request: &Request,
    ) -> Result<(u32, Response), OrNoMemory<Rejection>> {
        prove!(self.ledger.len() < 1 << 40);
        let reply = self.ledger.execute(view, request)?;
        Ok((view, Response::Replied(reply)))
    }

    fn govern(
        &mut self,
        view: u32,
        request: &GovernanceRequest,
    ) -> Result<(u32, Response), OrNoMemory<Rejection>> {
        prove!(self.ledger.len() < 1 << 40);
        let status = self.ledger.govern(view, request)?;
        Ok((view, Response::Governed(status)))
    }

    /// A leaf that the key lacks signs nothing: no caller gives one for a store that stands for a
    /// ledger.
    fn sign(&mut self, leaf: u64, view: u32, commit: u64) -> Result<u32, OrNoMemory<Rejection>> {
        if leaf >= u64::from(self.key.types().leaf_count()) {
            return Err(OrNoMemory::Fault(Rejection::NoEntry));
        }
        if let Some(why) = self.refusal_to_sign() {
            return Err(OrNoMemory::Fault(why));
        }
        let entry = self.signature_entry(leaf as u32, view, commit)?;
        if let Err(error) = self.ledger.apply(entry) {
            return Err(by_rule(error));
        }
        Ok(view)
    }

    fn evidence(&mut self, view: u32) -> Result<u32, OrNoMemory<Rejection>> {
        prove!(self.ledger.len() < 1 << 40);
        self.ledger.evidence(view)?;
        Ok(view)
    }

    /// A seqno below the base counts as the base: no caller gives one for a store that stands for a
    /// ledger.
    fn replace_tail(&mut self, seqno: u64, entries: &[Entry]) -> Result<(), OrNoMemory<Rejection>> {
        let high = seqno.max(self.ledger.tail().base());
        drop_if_cut(&mut self.at_hand, &self.ledger, high);
        self.ledger.replace_tail(high, entries)
    }

    /// A seqno below the base counts as the base, as in `replace_tail`.
    fn cut(&mut self, to: u64) {
        let high = to.max(self.ledger.tail().base());
        drop_if_cut(&mut self.at_hand, &self.ledger, high);
        self.ledger.cut(high);
    }
}
