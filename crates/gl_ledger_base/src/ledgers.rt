//! What a body of a snapshot and the entries behind it say of each ledger that they stand for.

ghost use Rattle.std.specs.Prelude.{◌≡◌, ◌↔◌, ℕ, ◌+◌, ◌<◌, ◌≤◌, List, ◌++◌, None, Some, length, option_map};
ghost use Rattle.gl_merkle.specs.Peaks.{root_of_peaks};
ghost use Rattle.gl_merkle.specs.Tree.{root_of};
ghost use Rattle.gl_rules.specs.Log.{entry_at};
ghost use Rattle.gl_entry.specs.declared.entry.Entry.{Entry};
ghost use Rattle.gl_tx.specs.Run.{run};
ghost use Rattle.gl_tx.specs.declared.request.Operation.{Operation};
ghost use Rattle.gl_gov_rules.specs.declared.row.GovernedRows.{GovernedRows};
ghost use Rattle.gl_gov_base.specs.Law.{IsOver};
ghost use Rattle.gl_snapshot_body.specs.Body.{body_bytes, snapshot_limit};
ghost use Rattle.gl_snapshot_body.specs.declared.body.Body.{Body};
ghost use Rattle.gl_ledger.specs.Behind.{IsBaseBody, IsReadBody};
ghost use Rattle.gl_ledger.specs.Audit.{audited, audited_over};
ghost use Rattle.gl_ledger.specs.Broken.{broken_after, broken_from, broken_over, may_record};
ghost use Rattle.gl_ledger.specs.Layers.{Layers};
ghost use Rattle.gl_ledger.specs.Makers.{evidence_result};
ghost use Rattle.gl_ledger.specs.Past.{Past, past_from, past_over};
ghost use Rattle.gl_ledger.specs.Recordings.{requests_of};
ghost use Rattle.gl_ledger.specs.ServiceRow.{identity_in, service_state};
ghost use Rattle.gl_ledger.specs.Signed.{IsSignedUpTo};
ghost use Rattle.gl_ledger.specs.Snapshot.{all_peaks, governed_base, requests_over, snapshot_of, snapshot_over, tables_over, view_at};
ghost use Rattle.gl_ledger.specs.Tree.{leaves_of, tables_of};
ghost use Rattle.gl_ledger_base.specs.Ledgers.{AreAlike, HoldsLedger, IsBase, audited_from};

/// Of each ledger that a body and the entries behind it stand for: they tell its length, its
/// entries behind the base and the view of every entry, its tables, the root of its tree, its
/// requests of governance behind the base, and its snapshot. No rule is asked of the entries
/// behind.
pub fn law_of_ledgers()
    ensures base { (layers : Layers) (body : Body) (es ledger : List Entry) →
        (holds : HoldsLedger layers body es ledger) → body.base ≡ length holds.below }
    ensures length { (layers : Layers) (body : Body) (es ledger : List Entry) →
        HoldsLedger layers body es ledger → length ledger ≡ body.base + length es }
    ensures entries { (layers : Layers) (body : Body) (es ledger : List Entry) →
        HoldsLedger layers body es ledger →
        (n : ℕ) → 0 < n → entry_at ledger (body.base + n) ≡ entry_at es n }
    ensures views { (layers : Layers) (body : Body) (es ledger : List Entry) →
        HoldsLedger layers body es ledger → (seqno : ℕ) → 0 < seqno →
        view_at body es seqno ≡ option_map (λ (e : Entry). e.view) (entry_at ledger seqno) }
    ensures tables { (layers : Layers) (body : Body) (es ledger : List Entry) →
        HoldsLedger layers body es ledger → tables_over body es ≡ tables_of ledger }
    ensures root { (layers : Layers) (body : Body) (es ledger : List Entry) →
        HoldsLedger layers body es ledger →
        root_of_peaks (all_peaks body es) ≡ root_of (leaves_of ledger) }
    ensures requests { (layers : Layers) (body : Body) (es ledger : List Entry) →
        (holds : HoldsLedger layers body es ledger) →
        requests_of ledger ≡ requests_of holds.below ++ requests_over body es }
    ensures snapshot { (layers : Layers) (body : Body) (es ledger : List Entry) →
        HoldsLedger layers body es ledger → snapshot_over body es ≡ snapshot_of ledger }
{}

/// Where the entries behind a body break no rule, the rules read the same of body and entries as
/// of each ledger that they stand for. So the next entry breaks the same rule, or none; and the
/// entries break none exactly where the ledger breaks none, its entries up to the base counting as
/// signatures. A valid ledger breaks none so. The requests of governance behind a base are over
/// its rows as the law of `gl_gov_base` asks, so all that it says holds of them.
pub fn law_of_pasts()
    ensures alike { (layers : Layers) (body : Body) (es ledger : List Entry) →
        HoldsLedger layers body es ledger → audited_over layers body es ≡ None →
        AreAlike (past_over body es) (past_from body.base ledger) }
    ensures broken { (layers : Layers) (body : Body) (es ledger : List Entry) →
        HoldsLedger layers body es ledger → audited_over layers body es ≡ None →
        (e : Entry) → broken_over layers body es e ≡ broken_from layers body.base ledger e }
    ensures audited { (layers : Layers) (body : Body) (es ledger : List Entry) →
        HoldsLedger layers body es ledger →
        audited_over layers body es ≡ None ↔ audited_from layers body.base ledger ≡ None }
    ensures valid { (layers : Layers) (body : Body) (es ledger : List Entry) →
        HoldsLedger layers body es ledger → audited layers ledger ≡ None →
        audited_over layers body es ≡ None }
    ensures governance { (layers : Layers) (body : Body) (es ledger : List Entry) →
        (holds : HoldsLedger layers body es ledger) → audited_over layers body es ≡ None →
        0 < body.base →
        (g : GovernedRows) × (governed_base body ≡ Some g)
        × IsOver body.base body.rows g (requests_of holds.below) (requests_over body es) }
{}

/// Of two pasts that are alike: an entry breaks the same rule after both, or none. A signature may
/// record the same commits, requests of applications run alike, the service has the same state and
/// key, and the same is made of an evidence.
pub fn law_of_alike()
    ensures broken { (layers : Layers) (p q : Past) → AreAlike p q →
        (e : Entry) → broken_after layers p e ≡ broken_after layers q e }
    ensures commits { (p q : Past) → AreAlike p q →
        (commit : ℕ) → may_record p commit ≡ may_record q commit }
    ensures runs { (p q : Past) → AreAlike p q →
        (request : List Operation) → run request p.tables ≡ run request q.tables }
    ensures state { (p q : Past) → AreAlike p q →
        service_state p.tables ≡ service_state q.tables }
    ensures identity { (p q : Past) → AreAlike p q → identity_in p.tables ≡ identity_in q.tables }
    ensures evidence { (p q : Past) → AreAlike p q →
        (view : ℕ) → evidence_result p view ≡ evidence_result q view }
{}

/// A valid ledger that ends with a signature is the base of its snapshot. So is a ledger that a
/// body and entries stand for, where these break no rule and it ends with a signature: a snapshot
/// taken from a node with a base is one again. What breaks no rule breaks none where more entries
/// count as signatures, and without a base none counts. The body of a base can be read, where it is
/// within the limit of its size: its fields are in their ranges, and its rows of governance spell.
pub fn law_of_bases()
    ensures whole { (layers : Layers) (ledger : List Entry) →
        audited layers ledger ≡ None → IsSignedUpTo ledger (length ledger) →
        IsBase layers (snapshot_of ledger) ledger }
    ensures next { (layers : Layers) (body : Body) (es ledger : List Entry) →
        HoldsLedger layers body es ledger → audited_over layers body es ≡ None →
        IsSignedUpTo ledger (length ledger) → IsBase layers (snapshot_over body es) ledger }
    ensures more { (layers : Layers) (base more : ℕ) (ledger : List Entry) →
        base ≤ more → audited_from layers base ledger ≡ None →
        audited_from layers more ledger ≡ None }
    ensures no_base { (layers : Layers) (ledger : List Entry) →
        audited_from layers 0 ledger ≡ None ↔ audited layers ledger ≡ None }
    ensures readable { (layers : Layers) (body : Body) (ledger : List Entry) →
        IsBase layers body ledger → 0 < body.base → length (body_bytes body) ≤ snapshot_limit →
        IsBaseBody body }
    ensures read { (layers : Layers) (body : Body) (ledger : List Entry) →
        IsBase layers body ledger → length (body_bytes body) ≤ snapshot_limit → IsReadBody body }
{}
