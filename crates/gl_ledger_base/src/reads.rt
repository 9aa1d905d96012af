//! What the rules of consensus read of a ledger, by a body of a snapshot and the entries behind it.

ghost use Rattle.std.specs.Prelude.{◌≡◌, ℕ, ◌+◌, ◌-◌, ◌<◌, ◌≤◌, ◌==◌, List, [], ◌∷◌, ◌++◌, None, Some, length, drop, max, option_map, take, unwrap_or};
ghost use Rattle.gl_rules.specs.Configuration.{active, configuration_at, configurations_above};
ghost use Rattle.gl_rules.specs.Identity.{NodeId};
ghost use Rattle.gl_rules.specs.Log.{entry_at, greatest_recorded, is_signature_in, last_signature};
ghost use Rattle.gl_rules.specs.Log as logs;
ghost use Rattle.gl_rules.specs.Replication.{batch, greatest_evidence, is_reached};
ghost use Rattle.gl_entry.specs.declared.entry.Entry.{Entry};
ghost use Rattle.gl_snapshot_body.specs.declared.body.Body.{Body};
ghost use Rattle.gl_ledger.specs.Audit.{audited_over};
ghost use Rattle.gl_ledger.specs.Broken.{broken_over};
ghost use Rattle.gl_ledger.specs.Layers.{Layers};
ghost use Rattle.gl_ledger.specs.LedgerBook.{ledger_book};
ghost use Rattle.gl_ledger.specs.NodeKeys.{NodeKeys};
ghost use Rattle.gl_ledger.specs.Past.{last_signed_over, past_over};
ghost use Rattle.gl_ledger.specs.Snapshot.{view_at};
ghost use Rattle.gl_ledger_base.specs.Ledgers.{HoldsLedger};
ghost use Rattle.gl_ledger_base.specs.ReadOver.{configuration_over, configurations_over, trusted_at};

/// Of each ledger that a body and the entries behind it stand for, cut to a seqno from the base on:
/// the body and the first entries behind it stand for it, and they break no rule where all of them
/// break none. So what holds of a ledger that body and entries stand for holds of each cut too. The
/// rest of the ledger is the rest of the entries. More entries behind the body stand for the ledger
/// with these appended.
pub fn law_of_cuts()
    ensures stands { (layers : Layers) (body : Body) (es ledger : List Entry) →
        HoldsLedger layers body es ledger → (seqno : ℕ) → body.base ≤ seqno →
        HoldsLedger layers body (take (seqno - body.base) es) (take seqno ledger) }
    ensures valid { (layers : Layers) (body : Body) (es : List Entry) (len : ℕ) →
        audited_over layers body es ≡ None → audited_over layers body (take len es) ≡ None }
    ensures rest { (layers : Layers) (body : Body) (es ledger : List Entry) →
        HoldsLedger layers body es ledger → (seqno : ℕ) → body.base ≤ seqno →
        drop seqno ledger ≡ drop (seqno - body.base) es }
    ensures batch { (layers : Layers) (body : Body) (es ledger : List Entry) →
        HoldsLedger layers body es ledger → (keys : NodeKeys) (after : ℕ) → body.base ≤ after →
        batch (ledger_book layers keys) (drop after ledger)
        ≡ batch (ledger_book layers keys) (drop (after - body.base) es) }
    ensures more { (layers : Layers) (body : Body) (es ledger : List Entry) →
        HoldsLedger layers body es ledger → (more : List Entry) →
        HoldsLedger layers body (es ++ more) (ledger ++ more) }
    ensures valid_more { (layers : Layers) (body : Body) (es : List Entry) (e : Entry) →
        audited_over layers body es ≡ None → broken_over layers body es e ≡ None →
        audited_over layers body (es ++ e ∷ []) ≡ None }
{}

/// What the rules of consensus read of the entries of a ledger that a body and the entries behind
/// it stand for. Where no signature stands behind, the last one stands at the base, in the view of
/// the body. The greatest commit that is recorded is that of the body or a greater one behind. No
/// rule is asked of the entries behind.
pub fn law_of_reads()
    ensures views { (layers : Layers) (body : Body) (es ledger : List Entry) →
        HoldsLedger layers body es ledger → (keys : NodeKeys) (seqno : ℕ) → 0 < seqno →
        logs.view_at (ledger_book layers keys) ledger seqno
        ≡ unwrap_or (view_at body es seqno) 0 }
    ensures last_signature { (layers : Layers) (body : Body) (es ledger : List Entry) →
        HoldsLedger layers body es ledger → (keys : NodeKeys) →
        last_signature (ledger_book layers keys) ledger ≡ last_signed_over body es }
    ensures signature_upto { (layers : Layers) (body : Body) (es ledger : List Entry) →
        HoldsLedger layers body es ledger → (keys : NodeKeys) (seqno : ℕ) → body.base ≤ seqno →
        last_signature (ledger_book layers keys) (take seqno ledger)
        ≡ last_signed_over body (take (seqno - body.base) es) }
    ensures signature_at_base { (layers : Layers) (body : Body) (es ledger : List Entry) →
        HoldsLedger layers body es ledger → (keys : NodeKeys) → 0 < body.base → (view : ℕ) →
        is_signature_in (ledger_book layers keys) view (entry_at ledger body.base)
        ≡ (body.view == view) }
    ensures signature_behind { (layers : Layers) (body : Body) (es ledger : List Entry) →
        HoldsLedger layers body es ledger → (keys : NodeKeys) (seqno : ℕ) → body.base < seqno →
        (view : ℕ) →
        is_signature_in (ledger_book layers keys) view (entry_at ledger seqno)
        ≡ is_signature_in (ledger_book layers keys) view (entry_at es (seqno - body.base)) }
    ensures commit { (layers : Layers) (body : Body) (es ledger : List Entry) →
        HoldsLedger layers body es ledger → (keys : NodeKeys) →
        greatest_recorded (ledger_book layers keys) ledger
        ≡ max body.commit (greatest_recorded (ledger_book layers keys) es) }
    ensures evidence { (layers : Layers) (body : Body) (es ledger : List Entry) →
        HoldsLedger layers body es ledger → (keys : NodeKeys) (seqno : ℕ) → body.base ≤ seqno →
        greatest_evidence (ledger_book layers keys) ledger body.base seqno
        ≡ option_map (λ (n : ℕ). body.base + n)
        (greatest_evidence (ledger_book layers keys) es 0 (seqno - body.base)) }
{}

/// What they read of its nodes, where the entries behind break no rule: which are recorded, where
/// they were removed, whether their marks stand at a commit from the base on, and which
/// configurations begin behind the base. At each seqno from the base on the one in force is the set
/// of those that are trusted there.
pub fn law_of_configurations()
    ensures nodes { (layers : Layers) (keys : NodeKeys) (body : Body) (es ledger : List Entry) →
        HoldsLedger layers body es ledger → audited_over layers body es ≡ None →
        (seqno : ℕ) → body.base ≤ seqno →
        (ledger_book layers keys).recorded_nodes (take seqno ledger)
        ≡ (past_over body (take (seqno - body.base) es)).nodes }
    ensures removals { (layers : Layers) (keys : NodeKeys) (body : Body)
        (es ledger : List Entry) → HoldsLedger layers body es ledger →
        audited_over layers body es ≡ None → (y : NodeId) →
        (ledger_book layers keys).removal ledger y ≡ (past_over body es).removal y }
    ensures marks { (layers : Layers) (keys : NodeKeys) (body : Body) (es ledger : List Entry) →
        HoldsLedger layers body es ledger → audited_over layers body es ≡ None →
        (y : NodeId) (commit : ℕ) → body.base ≤ commit →
        is_reached ((ledger_book layers keys).mark ledger y) commit
        ≡ is_reached ((past_over body es).mark y) commit }
    ensures begins { (layers : Layers) (keys : NodeKeys) (body : Body) (es ledger : List Entry) →
        HoldsLedger layers body es ledger → audited_over layers body es ≡ None →
        (seqno : ℕ) → body.base < seqno → seqno ≤ length ledger →
        (ledger_book layers keys).configuration (take seqno ledger)
        ≡ configuration_over body es seqno }
    ensures in_force { (layers : Layers) (keys : NodeKeys) (body : Body)
        (es ledger : List Entry) → HoldsLedger layers body es ledger →
        audited_over layers body es ≡ None →
        (seqno : ℕ) → body.base ≤ seqno → 0 < seqno → 0 < length ledger →
        configuration_at (ledger_book layers keys) ledger seqno
        ≡ Some (trusted_at body es seqno) }
    ensures above { (layers : Layers) (keys : NodeKeys) (body : Body) (es ledger : List Entry) →
        HoldsLedger layers body es ledger → audited_over layers body es ≡ None →
        (commit seqno : ℕ) → body.base ≤ commit → body.base ≤ seqno → seqno ≤ length ledger →
        configurations_above (ledger_book layers keys) ledger commit seqno
        ≡ configurations_over body es commit (seqno - body.base) }
    ensures active { (layers : Layers) (keys : NodeKeys) (body : Body) (es ledger : List Entry) →
        HoldsLedger layers body es ledger → audited_over layers body es ≡ None →
        (commit : ℕ) → body.base ≤ commit → 0 < commit → 0 < length ledger →
        active (ledger_book layers keys) ledger commit
        ≡ trusted_at body es commit ∷ configurations_over body es commit (length es) }
{}
