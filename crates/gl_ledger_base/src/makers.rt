//! What is made after entries, by what a body of a snapshot and the entries behind it tell of them.

ghost use Rattle.std.specs.Prelude.{◌≡◌, ℕ, ◌+◌, ◌≤◌, List, None, Some, true, false, option_map};
ghost use Rattle.gl_rules.specs.Identity.{NodeId};
ghost use Rattle.gl_tx.specs.declared.request.Operation.{Operation};
ghost use Rattle.gl_entry.specs.declared.entry.Entry.{Entry};
ghost use Rattle.gl_requests.specs.Ranges.{is_request};
ghost use Rattle.gl_requests.specs.declared.request.GovernanceRequest.{GovernanceRequest};
ghost use Rattle.gl_gov_rules.specs.Refusals.{refusal};
ghost use Rattle.gl_snapshot_body.specs.declared.body.Body.{Body};
ghost use Rattle.gl_ledger.specs.Audit.{audited_over};
ghost use Rattle.gl_ledger.specs.Layers.{Layers};
ghost use Rattle.gl_ledger.specs.Ledger.{governance_after, governance_entry, message_after, message_of, sign_after, sign_result};
ghost use Rattle.gl_ledger.specs.Makers.{MayMake, accepted_after, accepted_result, evidence_result, govern_after, govern_result, request_after, request_result, status_after, status_with};
ghost use Rattle.gl_ledger.specs.Past.{Last, Past, is_begun, is_unopened, last_of, past_of, past_over};
ghost use Rattle.gl_ledger.specs.Recordings.{last_entry};
ghost use Rattle.gl_ledger_base.specs.Ledgers.{AreAlike, HoldsLedger};

/// After two pasts that are alike the same is made. Requests of applications and of governance make
/// the same entries, with the same answers, or are refused alike. A request of governance that is
/// accepted leaves the proposal that it concerns in the same state. A node signs the same message,
/// and its signature makes the same entry. Of evidences `law_of_alike` tells.
pub fn law_of_makers()
    ensures requests { (p q : Past) → AreAlike p q →
        (view : ℕ) (request : List Operation) →
        request_after p view request ≡ request_after q view request }
    ensures governance { (p q : Past) → AreAlike p q →
        (view : ℕ) (g : GovernanceRequest) → govern_after p view g ≡ govern_after q view g }
    ensures accepted { (p q : Past) → AreAlike p q →
        (view : ℕ) (g : GovernanceRequest) → is_request g ≡ true →
        accepted_after p view g ≡ accepted_after q view g }
    ensures entries { (p q : Past) → AreAlike p q →
        (view : ℕ) (g : GovernanceRequest) → is_request g ≡ true →
        refusal p.history (p.len + 1) g ≡ None →
        governance_after g p view ≡ governance_after g q view }
    ensures statuses { (p q : Past) → AreAlike p q →
        (g : GovernanceRequest) → is_request g ≡ true →
        refusal p.history (p.len + 1) g ≡ None → status_with p g ≡ status_with q g }
    ensures messages { (p q : Past) → AreAlike p q →
        (view commit : ℕ) → message_of p view commit ≡ message_of q view commit }
    ensures signatures { (p q : Past) → AreAlike p q →
        (node : NodeId) (signature : List ℕ) (view commit : ℕ) →
        sign_after node signature p view commit ≡ sign_after node signature q view commit }
{}

/// Behind a body whose entries break no rule the makers make what they make after each ledger that
/// body and entries stand for: they read all of it but where signatures stand. What is told of the
/// last entry tells whether an entry may be made.
pub fn law_of_made()
    ensures requests { (layers : Layers) (body : Body) (es ledger : List Entry) →
        HoldsLedger layers body es ledger → audited_over layers body es ≡ None →
        (view : ℕ) (request : List Operation) →
        request_after (past_over body es) view request ≡ request_result ledger view request }
    ensures governance { (layers : Layers) (body : Body) (es ledger : List Entry) →
        HoldsLedger layers body es ledger → audited_over layers body es ≡ None →
        (view : ℕ) (g : GovernanceRequest) →
        govern_after (past_over body es) view g ≡ govern_result ledger view g }
    ensures accepted { (layers : Layers) (body : Body) (es ledger : List Entry) →
        HoldsLedger layers body es ledger → audited_over layers body es ≡ None →
        (view : ℕ) (g : GovernanceRequest) → is_request g ≡ true →
        accepted_after (past_over body es) view g ≡ accepted_result ledger view g }
    ensures entries { (layers : Layers) (body : Body) (es ledger : List Entry) →
        HoldsLedger layers body es ledger → audited_over layers body es ≡ None →
        (view : ℕ) (g : GovernanceRequest) → is_request g ≡ true →
        refusal (past_over body es).history ((past_over body es).len + 1) g ≡ None →
        governance_after g (past_over body es) view ≡ governance_entry g ledger view }
    ensures statuses { (layers : Layers) (body : Body) (es ledger : List Entry) →
        HoldsLedger layers body es ledger → audited_over layers body es ≡ None →
        (g : GovernanceRequest) → is_request g ≡ true →
        refusal (past_over body es).history ((past_over body es).len + 1) g ≡ None →
        status_with (past_over body es) g ≡ status_after ledger g }
    ensures evidence { (layers : Layers) (body : Body) (es ledger : List Entry) →
        HoldsLedger layers body es ledger → audited_over layers body es ≡ None →
        (view : ℕ) →
        evidence_result (past_over body es) view ≡ evidence_result (past_of ledger) view }
    ensures messages { (layers : Layers) (body : Body) (es ledger : List Entry) →
        HoldsLedger layers body es ledger → audited_over layers body es ≡ None →
        (view commit : ℕ) →
        message_of (past_over body es) view commit ≡ message_after ledger view commit }
    ensures signatures { (layers : Layers) (body : Body) (es ledger : List Entry) →
        HoldsLedger layers body es ledger → audited_over layers body es ≡ None →
        (node : NodeId) (signature : List ℕ) (view commit : ℕ) →
        sign_after node signature (past_over body es) view commit
        ≡ sign_result node signature ledger view commit }
    ensures last { (layers : Layers) (body : Body) (es ledger : List Entry) →
        HoldsLedger layers body es ledger → audited_over layers body es ≡ None →
        (past_over body es).last ≡ option_map last_of (last_entry ledger) }
    ensures unopened { (layers : Layers) (body : Body) (es ledger : List Entry) →
        HoldsLedger layers body es ledger → audited_over layers body es ≡ None →
        is_begun (past_over body es).last ≡ is_unopened (last_entry ledger) }
    ensures may_make { (layers : Layers) (body : Body) (es ledger : List Entry) →
        HoldsLedger layers body es ledger → audited_over layers body es ≡ None →
        (view : ℕ) (last : Last) → (past_over body es).last ≡ Some last →
        last.begins ≡ false → last.view ≤ view → MayMake ledger view }
{}
