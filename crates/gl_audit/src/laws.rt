//! What the verdicts of an audit mean, as the contracts of functions that do nothing.

ghost use Rattle.std.specs.Prelude.{◌≡◌, ◌↔◌, ℕ, List, All, Option, Some, slice_get};
ghost use Rattle.gl_base.specs.declared.tx_id.TxId.{TxId};
ghost use Rattle.gl_merkle.specs.Reach.{IsDigest, sibling_of};
ghost use Rattle.gl_entry.specs.declared.entry.Content.TheVariants as content;
ghost use Rattle.gl_entry.specs.declared.entry.Entry.{Entry};
ghost use Rattle.gl_entry.specs.declared.entry.Signature as signatures;
ghost use Rattle.gl_ledger.specs.NodeKeys.{service_layers};
ghost use Rattle.gl_ledger.specs.Sound.{IsSound};
ghost use Rattle.gl_entry.specs.LedgerFile.{ledger_file};
ghost use Rattle.gl_receipt.specs.Law.{AreSized};
ghost use Rattle.gl_receipt.specs.Receipt.{root_of, IsEvidence};
ghost use Rattle.gl_receipt.specs.declared.components.Receipt.{Receipt};
ghost use Rattle.gl_audit.specs.Binding.{IsBound};
ghost use Rattle.gl_audit.specs.Verdict.{verdict, IsValidLedger, IsLedgerOf, IsForeignTo, IsFaulty};
ghost use Rattle.gl_audit.specs.declared.verdict.Verdict.TheVariants as verdicts;

/// Each verdict is reported exactly where it is true. `Valid`: all of the file's bytes are entries,
/// none of them breaks a rule, and the key in force is the one under which the file was audited.
/// `Foreign`: none breaks a rule, but another key is in force, which is reported. `Fault`: an entry
/// breaks a rule, or else bytes are no entry, or else there are none; the first that is wrong is
/// reported. The entries of a file that is `Valid` or `Foreign` are a sound ledger.
pub fn law_of_verdicts()
    ensures valid { (identity bytes : List ℕ) (last : TxId) (signed : Option TxId) →
        verdict identity bytes ≡ verdicts.Valid last signed
        ↔ IsLedgerOf identity bytes last signed }
    ensures foreign { (identity bytes key : List ℕ) →
        verdict identity bytes ≡ verdicts.Foreign key ↔ IsForeignTo identity bytes key }
    ensures fault { (identity bytes : List ℕ) (seqno rule : ℕ) →
        verdict identity bytes ≡ verdicts.Fault seqno rule ↔ IsFaulty bytes seqno rule }
    ensures sound { (bytes : List ℕ) → IsValidLedger bytes →
        IsSound service_layers (ledger_file bytes).entries }
{}

/// In a file that is `Valid` or `Foreign`, a receipt whose commit evidence is that of a
/// transaction under some key, and whose path leads to the root that a signature of the file
/// signs, shows the entry of the file that has this transaction, and the key is the one in force
/// there. Else two inputs of SHA-256 with one digest are named, one hashed for the receipt and
/// one for the signed root.
pub fn law_of_receipts()
    ensures bound { (bytes : List ℕ) (count : ℕ) (e : Entry) (s : signatures.Signature) →
        IsValidLedger bytes → slice_get (ledger_file bytes).entries count ≡ Some e →
        e.content ≡ content.Signature s → (identity : List ℕ) (r : Receipt) (id : TxId) →
        AreSized r.leaf_components → All (λ x. IsDigest (sibling_of x)) r.proof →
        IsEvidence identity r.leaf_components.commit_evidence id → root_of r ≡ s.root →
        IsBound identity r id (ledger_file bytes).entries count }
{}
