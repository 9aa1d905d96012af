//! The store of a node, as clients ask it.

ghost use Rattle.std.specs.Prelude.{◌≡◌, List};
ghost use Rattle.gl_answers.specs.Receipts.{receipts_of};
ghost use Rattle.gl_base.specs.Answers.{Answers};
ghost use Rattle.gl_entry.specs.declared.entry.Entry.{Entry as Item};
ghost use Rattle.gl_ledger.specs.NodeKeys.{service_layers};
ghost use Rattle.gl_ledger_base.specs.Ledgers.{HoldsLedger};
ghost use Rattle.gl_receipt.specs.Made.{receipt_of};
ghost use Rattle.gl_store_book.specs.BasedLedgers.{base_of, body_of, len_of};

use crate::book_ledger::BookLedger;
use crate::snapshot_file::{part_from, snapshot_bytes};
use crate::store_book::StoreBook;
use gl_answers::{ClientBook, Part};
use gl_base::{OrNoMemory, TxId};
use gl_entry::Entry;
use gl_merkle::Step;
use gl_receipt::{CommittedLedger, MakeFault, Receipt, make};
use std::alloc::{AllocError, Global};

/// The ledger of a node that is committed up to a seqno.
#[derive(Clone, Copy)]
pub(crate) struct CommittedBook<'a> {
    pub(crate) ledger: &'a BookLedger,
    pub(crate) commit: u64,
}

impl CommittedLedger for CommittedBook<'_> {
    // Each ledger that the node's ledger stands for.
    ghost stands = { λ c l. (log : List Item) ×
        HoldsLedger service_layers (body_of c.ledger.now.snapshot) c.ledger.now.entries log
        × (l ≡ receipts_of (base_of c.ledger.now) log c.commit) };

    ghost base_of = { λ c. base_of c.ledger.now };

    ghost last_of = { λ c. len_of c.ledger.now };

    fn base(&self) -> u64 {
        self.ledger.tail().base()
    }

    fn len(&self) -> u64 {
        self.ledger.len()
    }

    fn identity(&self, seqno: u64) -> [u8; 60] {
        self.ledger.tail().identity_at(seqno)
    }

    fn commit(&self) -> u64 {
        self.commit
    }

    fn view_at(&self, seqno: u64) -> Option<u32> {
        self.ledger.tail().view_at(seqno)
    }

    fn entry(&self, seqno: u64) -> Option<&Entry> {
        self.ledger.tail().entry(seqno)
    }

    fn signature_above(&self, seqno: u64) -> Option<&Entry> {
        self.ledger.tail().first_signature_above(seqno)
    }

    fn path(&self, seqno: u64, size: u64) -> Result<Vec<Step>, AllocError> {
        self.ledger.tail().state().frontier.path_of(seqno, size)
    }
}

/// The receipt of a transaction by a ledger that is committed up to a seqno.
pub(crate) fn receipt_by(
    alloc: Global,
    ledger: &CommittedBook<'_>,
    id: TxId,
) -> Result<Receipt, OrNoMemory<MakeFault>>
    ensures { (log : List Item) → HoldsLedger service_layers
        (body_of ledger.now.ledger.now.snapshot) ledger.now.ledger.now.entries log →
        Answers (λ r. r) result (receipt_of
        (receipts_of (base_of ledger.now.ledger.now) log ledger.now.commit) id) }
{
    make(alloc, ledger, id)
}

impl ClientBook for StoreBook {
    fn receipt(&self, commit: u64, id: TxId) -> Result<Receipt, OrNoMemory<MakeFault>> {
        let ledger = CommittedBook {
            ledger: &self.ledger,
            commit,
        };
        receipt_by(self.alloc, &ledger, id)
    }

    fn snapshot_part(
        &self,
        commit: u64,
        evidence: u64,
        offset: u64,
    ) -> Result<Option<Part>, AllocError> {
        prove!(self.ledger.len() < 1 << 40);
        if let Some(bytes) = self.bytes_at_hand(evidence) {
            return Ok(Some(part_from(self.alloc, bytes, offset)?));
        }
        match snapshot_bytes(self.alloc, &self.ledger, commit, evidence)? {
            None => Ok(None),
            Some(bytes) => Ok(Some(part_from(self.alloc, &bytes, offset)?)),
        }
    }

    fn keeps_limits(&self) {}
}
