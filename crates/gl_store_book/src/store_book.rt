//! A node's key, and its ledger.

ghost use Rattle.std.specs.Prelude.{◌≡◌, [], IfOk};

use crate::book_ledger::BookLedger;
use crate::snapshot_file::SnapshotFile;
use gl_config::NodeId;
use gl_hss::LmsKey;
use std::alloc::{AllocError, Global};
use std::marker::Model;

/// A valid ledger, and the key of the node that signs it. The service's endorsement of the key
/// stands in the ledger, once that records the node.
#[derive(Drop)]
pub struct StoreBook {
    pub(crate) alloc: Global,
    pub(crate) me: NodeId,
    pub(crate) key: LmsKey,
    pub ledger: BookLedger,
    /// The bytes of a snapshot of the ledger, for whoever fetches them part by part.
    pub(crate) at_hand: Option<SnapshotFile>,
}

impl Model for StoreBook {
    ghost use Rattle.gl_store_book.specs.AtHand.{IsAtHand};
    ghost use Rattle.gl_store_book.specs.Stands.{NodeStore};

    ghost Value = { NodeStore };

    ghost view = { λ b. record {
      me = b.me;
      key = b.key;
      ledger = b.ledger;
    } };

    ghost invariant = { λ b. IsAtHand b.ledger b.at_hand };
}

impl StoreBook {
    ghost use Rattle.std.specs.Prelude.{ℕ, List, IfSome};
    ghost use Rattle.gl_entry.specs.declared.entry.Entry.{Entry as Item};
    ghost use Rattle.gl_ledger.specs.NodeKeys.{NodeKeys, service_layers};
    ghost use Rattle.gl_ledger.specs.LedgerBook.{ledger_book};
    ghost use Rattle.gl_ledger_base.specs.Ledgers.{HoldsLedger};
    ghost use Rattle.gl_store_book.specs.AtHand.{IsFileWith};
    ghost use Rattle.gl_store_book.specs.BasedLedgers.{base_of, body_of};
    ghost use Rattle.gl_store_book.specs.Stands.{Stands, whole, whole_store};

    /// That of a node that joins: it has no entry yet. Fails only where memory runs out.
    pub fn joining(alloc: Global, me: NodeId, key: LmsKey) -> Result<Self, AllocError>
        ensures holds { IfOk result (λ book. book ≡ whole_store me key []) }
        ensures stands { IfOk result (λ book. (keys : NodeKeys) → keys.key_of me ≡ key →
            Stands book (ledger_book service_layers keys) (whole me [])) }
    {
        let ledger = BookLedger::new(alloc)?;
        Ok(StoreBook {
            alloc,
            me,
            key,
            ledger,
            at_hand: None,
        })
    }

    /// The bytes of the snapshot with the evidence at a seqno, if they are at hand.
    pub(crate) fn bytes_at_hand(&self, evidence: u64) -> Option<&[u8]>
        ensures { IfSome result (λ bytes. (log : List Item) → HoldsLedger service_layers
            (body_of self.now.ledger.snapshot) self.now.ledger.entries log → (commit : ℕ)
            × IsFileWith (base_of self.now.ledger) log commit evidence bytes.now) }
    {
        match &self.at_hand {
            Some(file) if file.evidence == evidence => Some(&file.bytes),
            _ => None,
        }
    }
}
