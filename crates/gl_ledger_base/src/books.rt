//! What the book of a ledger makes and tells, by a body of a snapshot and the entries behind it.

ghost use Rattle.std.specs.Prelude.{◌≡◌, ℕ, ◌≤◌, List, ◌∷◌, ◌++◌, None, Some, Ok, Err, true, false};
ghost use Rattle.gl_rules.specs.Identity.{NodeId};
ghost use Rattle.gl_rules.specs.Replication.{checked_append};
ghost use Rattle.gl_tx.specs.declared.request.Operation.{Operation};
ghost use Rattle.gl_entry.specs.Entry.{is_signature};
ghost use Rattle.gl_entry.specs.declared.entry.Content.TheVariants as content;
ghost use Rattle.gl_entry.specs.declared.entry.Entry.{Entry};
ghost use Rattle.gl_entry.specs.declared.entry.Signature as signatures;
ghost use Rattle.gl_requests.specs.Ranges.{is_request};
ghost use Rattle.gl_requests.specs.declared.request.GovernanceRequest.{GovernanceRequest};
ghost use Rattle.gl_requests.specs.declared.request.GovernanceRequest.TheVariants as requests;
ghost use Rattle.gl_gov_rules.specs.Refusals.{mark_refusal};
ghost use Rattle.gl_snapshot_body.specs.declared.body.Body.{Body};
ghost use Rattle.gl_ledger.specs.Audit.{audited_over};
ghost use Rattle.gl_ledger.specs.Broken.{broken, broken_over};
ghost use Rattle.gl_ledger.specs.Layers.{Layers};
ghost use Rattle.gl_ledger.specs.LedgerBook.{by_refusal, by_rule, ledger_book};
ghost use Rattle.gl_ledger.specs.NodeKeys.{NodeKeys};
ghost use Rattle.gl_ledger.specs.Past.{past_over};
ghost use Rattle.gl_ledger.specs.declared.breach.Broken.{Broken};
ghost use Rattle.gl_ledger.specs.declared.response.Rejection.TheVariants.{ByRule};
ghost use Rattle.gl_ledger_base.specs.BookOver.{evidence_over, execute_over, govern_over, sign_over};
ghost use Rattle.gl_ledger_base.specs.Ledgers.{HoldsLedger};

/// Where the entries behind a body break no rule, the next entry breaks the same rule behind them
/// as after the whole of each ledger that body and entries stand for, or none, unless it is a
/// signature that records a commit below the base. So what is made behind the body, and breaks no
/// rule there, is what the book of that ledger makes.
pub fn law_of_books()
    ensures plain { (layers : Layers) (body : Body) (es ledger : List Entry) →
        HoldsLedger layers body es ledger → (e : Entry) → audited_over layers body es ≡ None →
        is_signature e.content ≡ false →
        broken_over layers body es e ≡ broken layers ledger e }
    ensures signature { (layers : Layers) (body : Body) (es ledger : List Entry) →
        HoldsLedger layers body es ledger → (e : Entry) → audited_over layers body es ≡ None →
        (s : signatures.Signature) → e.content ≡ content.Signature s → body.base ≤ s.commit →
        broken_over layers body es e ≡ broken layers ledger e }
    ensures execute { (layers : Layers) (keys : NodeKeys) (body : Body) (es ledger : List Entry) →
        HoldsLedger layers body es ledger → audited_over layers body es ≡ None →
        (view : ℕ) (request : List Operation) →
        execute_over layers body es view request
        ≡ (ledger_book layers keys).execute ledger view request }
    ensures govern { (layers : Layers) (keys : NodeKeys) (body : Body) (es ledger : List Entry) →
        HoldsLedger layers body es ledger → audited_over layers body es ≡ None →
        (view : ℕ) (g : GovernanceRequest) →
        govern_over layers body es view g ≡ (ledger_book layers keys).govern ledger view g }
    ensures evidence { (layers : Layers) (keys : NodeKeys) (body : Body) (es ledger : List Entry) →
        HoldsLedger layers body es ledger → audited_over layers body es ≡ None →
        (view : ℕ) →
        evidence_over layers body es view ≡ (ledger_book layers keys).evidence ledger view }
    ensures sign { (layers : Layers) (keys : NodeKeys) (body : Body) (es ledger : List Entry) →
        HoldsLedger layers body es ledger → audited_over layers body es ≡ None →
        (x : NodeId) (leaf view commit : ℕ) → body.base ≤ commit →
        sign_over layers body es keys x leaf view commit
        ≡ (ledger_book layers keys).sign x leaf ledger view commit }
    ensures mark_refusal { (layers : Layers) (keys : NodeKeys) (body : Body)
        (es ledger : List Entry) → HoldsLedger layers body es ledger →
        audited_over layers body es ≡ None → (x : NodeId) → is_request (requests.Mark x) ≡ true →
        by_refusal (mark_refusal (past_over body es).history x)
        ≡ (ledger_book layers keys).mark_refusal ledger x }
{}

/// The rules by which a node tries entries that it is sent, in a ledger that it has up to a base
/// from a snapshot, are those by which they are tried behind the body. So entries that break none
/// there are appended, and else the first one that breaks one is refused.
pub fn law_of_appends()
    ensures breaks { (layers : Layers) (body : Body) (keys : NodeKeys) (es ledger : List Entry) →
        HoldsLedger layers body es ledger → audited_over layers body es ≡ None →
        (e : Entry) → by_rule (broken_over layers body es e)
        ≡ (ledger_book layers keys).breaks body.base ledger e }
    ensures appended { (layers : Layers) (body : Body) (keys : NodeKeys)
        (es ledger more : List Entry) → HoldsLedger layers body es ledger →
        audited_over layers body (es ++ more) ≡ None →
        checked_append (ledger_book layers keys) body.base ledger more ≡ Ok (ledger ++ more) }
    ensures refused { (layers : Layers) (body : Body) (keys : NodeKeys)
        (es ledger first : List Entry) (e : Entry) (rest : List Entry) (why : Broken) →
        HoldsLedger layers body es ledger → audited_over layers body (es ++ first) ≡ None →
        broken_over layers body (es ++ first) e ≡ Some why →
        checked_append (ledger_book layers keys) body.base ledger (first ++ e ∷ rest)
        ≡ Err (ByRule why) }
{}
