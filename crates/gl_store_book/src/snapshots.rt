//! Snapshots of a node's ledger.

ghost use Rattle.std.specs.Prelude.{◌≡◌, ◌≤◌, ◌<◌, ◌+◌, length, IfOk, OnOk, OnErr};
ghost use Rattle.gl_ledger.specs.Behind.{IsBaseBody};
ghost use Rattle.gl_store.specs.Tail.{ForBodies};
ghost use Rattle.gl_store_book.specs.BasedLedgers.{begun_ledger};

use crate::book_ledger::BookLedger;
use crate::snapshot_file::made_file;
use crate::store_book::StoreBook;
use gl_replication::Snapshots;
use gl_snapshot_body::Body;
use gl_store::LedgerTail;
use std::alloc::{AllocError, Global};

/// A seqno, or the one next to it that isn't below the base, nor above the last entry.
pub(crate) fn within(tail: &LedgerTail, seqno: u64) -> u64
    ensures from_base { ForBodies tail.now (λ body. body.base ≤ result) }
    ensures within { ForBodies tail.now (λ body.
        result ≤ body.base + length tail.now.entries) }
    ensures same { ForBodies tail.now (λ body. body.base ≤ seqno →
        seqno ≤ body.base + length tail.now.entries → result ≡ seqno) }
{
    seqno.max(tail.base()).min(tail.ledger_len())
}

/// A ledger of no entries: from its start on, where the body of a snapshot is one of no entries, or
/// else behind the base of which it tells. Fails only where memory runs out.
fn begun_from(alloc: Global, body: Body) -> Result<BookLedger, AllocError>
    requires read { 0 < body.base → IsBaseBody body }
    ensures { IfOk result (λ ledger. ledger ≡ begun_ledger body) }
{
    if body.base == 0 {
        return BookLedger::new(alloc);
    }
    BookLedger::from_body(alloc, body)
}

/// Begins a ledger anew in the same way. Running out of memory leaves it as it was.
fn begin(ledger: &mut BookLedger, alloc: Global, body: Body) -> Result<(), AllocError>
    requires read { 0 < body.base → IsBaseBody body }
    ensures begun { OnOk result (ledger.new ≡ begun_ledger body) }
    ensures err { OnErr result (ledger.new ≡ ledger.old) }
{
    *ledger = begun_from(alloc, body)?;
    Ok(())
}

impl Snapshots for StoreBook {
    ghost use Rattle.gl_store_book.specs.Stands.{Shows};

    ghost shows = { Shows };

    fn snapshot(&self, to: u64) -> Result<Body, AllocError> {
        let tail = self.ledger.tail();
        tail.snapshot(within(tail, to))
    }

    fn install(&mut self, body: Body) -> Result<(), AllocError> {
        self.at_hand = None;
        begin(&mut self.ledger, self.alloc, body)
    }

    /// One that is at hand with this evidence stays. Another one is let go before the new one is
    /// made.
    fn keep_at_hand(&mut self, commit: u64, evidence: u64) -> Result<(), AllocError> {
        if self.bytes_at_hand(evidence).is_some() {
            return Ok(());
        }
        self.at_hand = None;
        self.at_hand = made_file(self.alloc, &self.ledger, commit, evidence)?;
        Ok(())
    }
}
