//! The law of governance over a base.

ghost use Rattle.std.specs.Prelude.{◌≡◌, ◌<◌, ◌≤◌, ℕ, List, [], ◌∷◌, ◌++◌, None, Some, Ok, length, true, false};
ghost use Rattle.gl_vmaps.specs.declared.row.Row.{Row};
ghost use Rattle.gl_requests.specs.Ranges.{is_request};
ghost use Rattle.gl_requests.specs.declared.request.GovernanceRequest.{GovernanceRequest};
ghost use Rattle.gl_gov_rules.specs.declared.change.Recorded.{Recorded};
ghost use Rattle.gl_gov_rules.specs.Changes.{history};
ghost use Rattle.gl_gov_rules.specs.Governed.{IsGoverned, is_nothing};
ghost use Rattle.gl_gov_rules.specs.declared.row.GovernedRows.{GovernedRows};
ghost use Rattle.gl_gov_rules.specs.GovernedRows.{governed_rows, history_over};
ghost use Rattle.gl_gov_rules.specs.Nodes.{mark, trusted};
ghost use Rattle.gl_gov_rules.specs.ProposalStatus.{proposal_status};
ghost use Rattle.gl_gov_rules.specs.Refusals.{refusal};
ghost use Rattle.gl_gov_rules.specs.Rows.{effect_writes, member_rows, node_rows, rows, service_row};
ghost use Rattle.gl_gov_rules.specs.Service.{dealing, shares_given, threshold_of};
ghost use Rattle.gl_gov_base.specs.Alike.{is_up_to};
ghost use Rattle.gl_gov_base.specs.AtBase.{of_number};
ghost use Rattle.gl_gov_base.specs.Law.{IsAcceptedOver, IsLeft, IsOver, writes_over};
ghost use Rattle.gl_gov_base.specs.SameBy.{SameBy};

/// Governance over a base is the same as over the whole ledger. Of requests that were accepted one
/// after another, those up to a base may be replaced by the rows that they left, read as values;
/// such rows are always read, where there was a request. Then every request above the base, whose
/// fields are in their ranges, is refused alike; one that isn't refused writes the same; and what
/// is told of its proposal, all rows, the service, the nodes, those that are trusted, those that
/// are marked up to any seqno from the base on, the number of shares that count, and how many are
/// needed are the same. So are the members, but for their order: over a base those up to it stand
/// by number, in a whole ledger as they came. And requests that are accepted over the base one
/// after another, at rising seqnos and none of them a founding, are accepted after all requests
/// too.
pub fn law_of_base()
    ensures read { (base : ℕ) (all : List Row) (rs : List Recorded) →
        IsLeft base all rs → IsGoverned rs → is_nothing rs ≡ false →
        (g : GovernedRows) × (governed_rows base all ≡ Ok g) }
    ensures refusals { (base : ℕ) (all : List Row) (g : GovernedRows) (rs es : List Recorded) →
        IsOver base all g rs es →
        (seqno : ℕ) (request : GovernanceRequest) → base < seqno → is_request request ≡ true →
        refusal (history (rs ++ es)) seqno request
        ≡ refusal (history_over (Some g) es) seqno request }
    ensures effects { (base : ℕ) (all : List Row) (g : GovernedRows) (rs es : List Recorded) →
        IsOver base all g rs es →
        (r : Recorded) → base < r.seqno → is_request r.request ≡ true →
        refusal (history (rs ++ es)) r.seqno r.request ≡ None →
        effect_writes (rs ++ es) r ≡ writes_over (Some g) es r }
    ensures statuses { (base : ℕ) (all : List Row) (g : GovernedRows) (rs es : List Recorded) →
        IsOver base all g rs es →
        (request : GovernanceRequest) →
        proposal_status (history (rs ++ es)) request
        ≡ proposal_status (history_over (Some g) es) request }
    ensures rows { (base : ℕ) (all : List Row) (g : GovernedRows) (rs es : List Recorded) →
        IsOver base all g rs es → rows (history (rs ++ es)) ≡ rows (history_over (Some g) es) }
    ensures service { (base : ℕ) (all : List Row) (g : GovernedRows) (rs es : List Recorded) →
        IsOver base all g rs es →
        service_row (history (rs ++ es)) ≡ service_row (history_over (Some g) es) }
    ensures nodes { (base : ℕ) (all : List Row) (g : GovernedRows) (rs es : List Recorded) →
        IsOver base all g rs es →
        node_rows (history (rs ++ es)) ≡ node_rows (history_over (Some g) es) }
    ensures trusted { (base : ℕ) (all : List Row) (g : GovernedRows) (rs es : List Recorded) →
        IsOver base all g rs es →
        trusted (history (rs ++ es)) ≡ trusted (history_over (Some g) es) }
    ensures marks { (base : ℕ) (all : List Row) (g : GovernedRows) (rs es : List Recorded) →
        IsOver base all g rs es →
        (id : List ℕ) (seqno : ℕ) → base ≤ seqno →
        is_up_to seqno (mark (history (rs ++ es)) id)
        ≡ is_up_to seqno (mark (history_over (Some g) es) id) }
    ensures shares { (base : ℕ) (all : List Row) (g : GovernedRows) (rs es : List Recorded) →
        IsOver base all g rs es →
        length (shares_given (history (rs ++ es)))
        ≡ length (shares_given (history_over (Some g) es)) }
    ensures needed { (base : ℕ) (all : List Row) (g : GovernedRows) (rs es : List Recorded) →
        IsOver base all g rs es →
        threshold_of (dealing (history (rs ++ es)))
        ≡ threshold_of (dealing (history_over (Some g) es)) }
    ensures members { (base : ℕ) (all : List Row) (g : GovernedRows) (rs es : List Recorded) →
        IsOver base all g rs es →
        SameBy of_number (member_rows (history (rs ++ es)))
        (member_rows (history_over (Some g) es)) }
    ensures accepted { (base : ℕ) (all : List Row) (g : GovernedRows) (rs es : List Recorded) →
        IsAcceptedOver base all g rs es → IsGoverned (rs ++ es) }
{}
