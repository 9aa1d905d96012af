//! What holds of every ledger and receipt, as the contracts of functions that do nothing.

ghost use Rattle.std.specs.Prelude.{◌≡◌, ℕ, List, All, None, Some, slice_get};
ghost use Rattle.gl_base.specs.declared.tx_id.TxId.{TxId};
ghost use Rattle.gl_merkle.specs.Reach.{IsDigest, sibling_of};
ghost use Rattle.gl_entry.specs.SignedMessage.{signed_message};
ghost use Rattle.gl_entry.specs.declared.entry.Content.TheVariants as content;
ghost use Rattle.gl_entry.specs.declared.entry.Entry.{Entry};
ghost use Rattle.gl_entry.specs.declared.entry.Signature as signatures;
ghost use Rattle.gl_ledger.specs.Audit.{audited};
ghost use Rattle.gl_ledger.specs.NodeKeys.{service_layers};
ghost use Rattle.gl_ledger.specs.Sound.{IsSound};
ghost use Rattle.gl_receipt.specs.Law.{AreSized};
ghost use Rattle.gl_receipt.specs.Made.{IsOfService};
ghost use Rattle.gl_receipt.specs.Receipt.{root_of, message_of, IsEvidence};
ghost use Rattle.gl_receipt.specs.declared.components.Receipt.{Receipt};
ghost use Rattle.gl_audit.specs.Binding.{IsBound};
ghost use Rattle.gl_audit.specs.Committed.{receipts_of};
ghost use Rattle.gl_audit.specs.Committed.{Held};

/// A receipt whose commit evidence is that of a transaction under some key, and whose path leads to
/// the root that a signature of a sound ledger signs, shows the entry of that ledger which has the
/// transaction's identifier, and the key is the one in force there. Else two inputs of
/// SHA-256 with one digest are named, one that is hashed where the receipt is verified, and one
/// that is hashed for the signed root. A receipt that is accepted has such evidence; and where the
/// message that its signature signs is the one of a signature of the ledger, its path leads to that
/// root. A ledger that breaks no rule of the audit is of its service, as receipts ask: so the
/// receipts that a store gives are accepted under the service's key.
pub fn law_of_receipts_in_ledgers()
    ensures bound { (ledger : List Entry) (count : ℕ) (e : Entry) (s : signatures.Signature) →
        IsSound service_layers ledger → slice_get ledger count ≡ Some e →
        e.content ≡ content.Signature s → (identity : List ℕ) (r : Receipt) (id : TxId) →
        AreSized r.leaf_components → All (λ x. IsDigest (sibling_of x)) r.proof →
        IsEvidence identity r.leaf_components.commit_evidence id → root_of r ≡ s.root →
        IsBound identity r id ledger count }
    ensures message { (e : Entry) (s : signatures.Signature) (r : Receipt) →
        message_of r ≡ signed_message s.root e.view e.seqno s.commit → root_of r ≡ s.root }
    ensures service { (held : Held) → audited service_layers held.ledger ≡ None →
        IsOfService (receipts_of held) }
{}
