//! What a verified snapshot is of the ledger in which its evidence stands: a law, and no code.

ghost use Rattle.std.specs.Prelude.{◌≡◌, ℕ, List, None, Some, suc};
ghost use Rattle.gl_entry.specs.declared.entry.Entry.{Entry as Item};
ghost use Rattle.gl_base.specs.declared.tx_id.TxId.{TxId as Id};
ghost use Rattle.gl_ledger.specs.Audit.{audited};
ghost use Rattle.gl_ledger.specs.NodeKeys.{service_layers};
ghost use Rattle.gl_rules.specs.Log.{entry_at};
ghost use Rattle.gl_snapshot.specs.Snapshot.{IsSnapshot};
ghost use Rattle.gl_snapshot.specs.Verdict.{Shows};
ghost use Rattle.gl_snapshot.specs.declared.snapshot.Snapshot.{Snapshot as SnapshotValue};
ghost use Rattle.gl_store_book.specs.VerifiedSnapshots.{IsBodyBefore};

/// Where the evidence of a verified snapshot stands in a valid ledger, the snapshot's body is that
/// of the entries before it. Else two inputs of SHA-256 with one digest are named: the bytes of the
/// body, and those of that one.
pub fn law_of_verified_snapshots()
    ensures { (identity : List ℕ) (s : SnapshotValue) (id : Id) (ledger : List Item) →
        IsSnapshot s → Shows identity s id → audited service_layers ledger ≡ None →
        entry_at ledger s.entry.seqno ≡ Some s.entry →
        IsBodyBefore ledger s.entry.seqno s.body }
{}
