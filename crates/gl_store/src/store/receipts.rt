//! A store gives receipts of its committed transactions.

use super::Store;
use gl_entry::Entry;
use gl_merkle::Step;
use gl_receipt::CommittedLedger;
use std::alloc::AllocError;

impl CommittedLedger for Store {
    ghost use Rattle.std.specs.Prelude.{◌≡◌, length};
    ghost use Rattle.gl_audit.specs.Committed.{receipts_of};

    // It has all its entries.
    ghost stands = { λ held l. l ≡ receipts_of held };

    ghost base_of = { λ held. 0 };

    ghost last_of = { λ held. length held.ledger };

    fn base(&self) -> u64 {
        0
    }

    fn len(&self) -> u64 {
        self.ledger_len()
    }

    fn identity(&self, seqno: u64) -> [u8; 60] {
        self.tail.identity_at(seqno)
    }

    fn commit(&self) -> u64 {
        self.commit
    }

    fn view_at(&self, seqno: u64) -> Option<u32> {
        let entry = Store::entry(self, seqno)?;
        Some(entry.view)
    }

    fn entry(&self, seqno: u64) -> Option<&Entry> {
        Store::entry(self, seqno)
    }

    fn signature_above(&self, seqno: u64) -> Option<&Entry> {
        self.tail.first_signature_above(seqno)
    }

    fn path(&self, seqno: u64, size: u64) -> Result<Vec<Step>, AllocError> {
        self.tail.state().frontier.path_of(seqno, size)
    }
}
