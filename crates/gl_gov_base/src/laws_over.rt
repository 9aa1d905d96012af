//! What holds of governance behind a base, where nothing is known of the requests up to it but the
//! rows that they left: laws, and no code.

ghost use Rattle.std.specs.Prelude.{◌≡◌, ◌↔◌, ◌⊎◌, ℕ, ◌<◌, List, [], ◌∷◌, ◌++◌, Option, None, Some, Ok, true, false, map, slice_get};
ghost use Rattle.std.specs.List.{list_all, list_any};
ghost use Rattle.gl_base.specs.Bytes.{are_sized, same_bytes};
ghost use Rattle.gl_vmaps.specs.Changes.{Turns};
ghost use Rattle.gl_vmaps.specs.Tables.{value_in};
ghost use Rattle.gl_vmaps.specs.Writes.{is_ordered, is_write};
ghost use Rattle.gl_vmaps.specs.declared.row.Row.{Row};
ghost use Rattle.gl_requests.specs.declared.request.GovernanceRequest.TheVariants as requests;
ghost use Rattle.gl_gov_rules.specs.declared.change.Recorded.{Recorded};
ghost use Rattle.gl_gov_rules.specs.declared.change.RecordedNode.{RecordedNode};
ghost use Rattle.gl_gov_rules.specs.declared.row.GovernedRows.{GovernedRows};
ghost use Rattle.gl_gov_rules.specs.declared.row.ServiceRow.{ServiceRow};
ghost use Rattle.gl_gov_rules.specs.Changes.{history};
ghost use Rattle.gl_gov_rules.specs.Governed.{IsAbove, IsBounded, IsGoverned, is_founding, is_recovery, up_to};
ghost use Rattle.gl_gov_rules.specs.GovernedRows.{governed_rows, history_over};
ghost use Rattle.gl_gov_rules.specs.Nodes.{mark, nodes, nodes_recorded, removal, trusted};
ghost use Rattle.gl_gov_rules.specs.Rising.{IsRising};
ghost use Rattle.gl_gov_rules.specs.Rows.{rows, service_key, service_map, service_row, service_write};
ghost use Rattle.gl_gov_rules.specs.Service.{identity, service_state};
ghost use Rattle.gl_gov_base.specs.GovernedOver.{FollowsOver, IsGovernedOver, IsReadBase, IsReadInOrder, base_seqno, effect_over, is_unfounded};
ghost use Rattle.gl_gov_base.specs.Law.{IsLeft, IsOver, writes_over};

/// Requests that follow one another behind a base stand at rising seqnos, and so do those up to any
/// seqno, and those with one more that follows them. Without a base they are those that follow one
/// another from the first on, and come to the same. Behind the rows that accepted requests left
/// they are those that follow these requests. A base has the seqno that it was read for.
pub fn law_of_requests_over()
    ensures rising { (base : Option GovernedRows) (rs : List Recorded) →
        IsGovernedOver base rs → IsRising rs }
    ensures pushed { (base : Option GovernedRows) (rs : List Recorded) (r : Recorded) →
        IsGovernedOver base rs → FollowsOver base rs r → IsGovernedOver base (rs ++ r ∷ []) }
    ensures cut { (base : Option GovernedRows) (to : ℕ) (rs : List Recorded) →
        IsGovernedOver base rs → IsGovernedOver base (up_to to rs) }
    ensures whole { (rs : List Recorded) → IsGoverned rs ↔ IsGovernedOver None rs }
    ensures no_base { (rs : List Recorded) → history_over None rs ≡ history rs }
    ensures above { (base : ℕ) (all : List Row) (g : GovernedRows) (rs es : List Recorded) →
        IsOver base all g rs es → IsGovernedOver (Some g) es }
    ensures governed { (base : ℕ) (all : List Row) (g : GovernedRows) (rs es : List Recorded) →
        0 < base → IsLeft base all rs → governed_rows base all ≡ Ok g → IsGoverned rs →
        IsGovernedOver (Some g) es → IsGoverned (rs ++ es) }
    ensures seqno { (seqno : ℕ) (all : List Row) (g : GovernedRows) →
        governed_rows seqno all ≡ Ok g → g.seqno ≡ seqno }
{}

/// Whatever requests follow one another behind a base that was read, all that they come to is
/// bounded: each row of the governance tables is within the limits of names, keys and values, and
/// so is each write of a request that follows. A request's write set turns the tables of those
/// before it into those with it.
pub fn law_of_bounds_over()
    ensures bounded { (base : Option GovernedRows) (rs : List Recorded) →
        IsReadBase base → IsGovernedOver base rs → IsBounded (history_over base rs) }
    ensures rows_fit { (base : Option GovernedRows) (rs : List Recorded) →
        IsReadBase base → IsGovernedOver base rs →
        list_all is_write (rows (history_over base rs)) ≡ true }
    ensures effect_fits { (base : Option GovernedRows) (rs : List Recorded) (r : Recorded) →
        IsReadBase base → IsGovernedOver base rs → FollowsOver base rs r →
        list_all is_write (writes_over base rs r) ≡ true }
    ensures effect_ordered { (base : Option GovernedRows) (rs : List Recorded) (r : Recorded) →
        is_ordered (writes_over base rs r) ≡ true }
    ensures turns { (base : Option GovernedRows) (rs : List Recorded) (r : Recorded) →
        Turns (writes_over base rs r) (effect_over base rs) (effect_over base (rs ++ r ∷ [])) }
{}

/// The service's row is there behind a base that was read, and without one from the founding on. It
/// tells the state and the key in force, which has 60 bytes. Only a founding and a recovery name a
/// key.
pub fn law_of_service_over()
    ensures founded { (base : Option GovernedRows) (rs : List Recorded) →
        IsReadBase base → IsGovernedOver base rs → is_unfounded base rs ≡ false →
        (s : ServiceRow) × (service_row (history_over base rs) ≡ Some s) }
    ensures sized { (base : Option GovernedRows) (rs : List Recorded) (s : ServiceRow) →
        IsReadBase base → IsGovernedOver base rs → service_row (history_over base rs) ≡ Some s →
        are_sized 60 s.identity ≡ true }
    ensures row { (base : Option GovernedRows) (rs : List Recorded) (s : ServiceRow) →
        service_row (history_over base rs) ≡ Some s →
        value_in (effect_over base rs) service_map service_key ≡ (service_write s).value }
    ensures identity { (base : Option GovernedRows) (rs : List Recorded) (s : ServiceRow) →
        service_row (history_over base rs) ≡ Some s →
        identity (history_over base rs) ≡ Some s.identity }
    ensures state { (base : Option GovernedRows) (rs : List Recorded) (s : ServiceRow) →
        service_row (history_over base rs) ≡ Some s →
        service_state (history_over base rs) ≡ Some s.state }
    ensures kept { (base : Option GovernedRows) (rs : List Recorded) (r : Recorded) →
        is_founding r.request ≡ false → is_recovery r.request ≡ false →
        identity (history_over base (rs ++ r ∷ [])) ≡ identity (history_over base rs) }
{}

/// Behind a base too a node's removal and its Mark stay as they are once they are there, and they
/// come with the last request, the Mark only after the removal. Where the rows of the base stood in
/// order, no two nodes have one identifier, and those that are trusted are not removed.
pub fn law_of_nodes_over()
    ensures removal_kept { (base : Option GovernedRows) (rs : List Recorded) (r : Recorded) →
        (id : List ℕ) (s : ℕ) → removal (history_over base rs) id ≡ Some s →
        removal (history_over base (rs ++ r ∷ [])) id ≡ Some s }
    ensures removal_new { (base : Option GovernedRows) (rs : List Recorded) (r : Recorded) →
        (id : List ℕ) (s : ℕ) → FollowsOver base rs r →
        removal (history_over base (rs ++ r ∷ [])) id ≡ Some s →
        (removal (history_over base rs) id ≡ Some s) ⊎ (s ≡ r.seqno) }
    ensures mark_kept { (base : Option GovernedRows) (rs : List Recorded) (r : Recorded) →
        (id : List ℕ) (s : ℕ) → mark (history_over base rs) id ≡ Some s →
        mark (history_over base (rs ++ r ∷ [])) id ≡ Some s }
    ensures mark_new { (base : Option GovernedRows) (rs : List Recorded) (r : Recorded) →
        (id : List ℕ) (s : ℕ) → mark (history_over base (rs ++ r ∷ [])) id ≡ Some s →
        (mark (history_over base rs) id ≡ Some s)
        ⊎ ((s ≡ r.seqno) × (r.request ≡ requests.Mark id)) }
    // A node is marked only once it is removed.
    ensures marked { (base : Option GovernedRows) (rs : List Recorded) (r : Recorded) →
        (id : List ℕ) → FollowsOver base rs r → r.request ≡ requests.Mark id →
        (s : ℕ) × (removal (history_over base rs) id ≡ Some s) }
    // No two places of the nodes have one identifier.
    ensures distinct { (base : Option GovernedRows) (rs : List Recorded) →
        (i j : ℕ) (m n : RecordedNode) → IsReadInOrder base → IsGovernedOver base rs →
        slice_get (nodes (history_over base rs)) i ≡ Some m →
        slice_get (nodes (history_over base rs)) j ≡ Some n → m.id ≡ n.id → i ≡ j }
    ensures not_trusted { (base : Option GovernedRows) (rs : List Recorded) →
        (id : List ℕ) (s : ℕ) → IsReadInOrder base → IsGovernedOver base rs →
        removal (history_over base rs) id ≡ Some s →
        list_any (same_bytes id) (trusted (history_over base rs)) ≡ false }
    ensures trusted_recorded { (base : Option GovernedRows) (rs : List Recorded) (id : List ℕ) →
        list_any (same_bytes id) (trusted (history_over base rs)) ≡ true →
        list_any (same_bytes id) (map (λ (n : RecordedNode). n.id) (nodes (history_over base rs)))
        ≡ true }
    ensures nodes_kept { (base : Option GovernedRows) (rs : List Recorded) (r : Recorded) →
        nodes (history_over base (rs ++ r ∷ []))
        ≡ nodes (history_over base rs) ++ nodes_recorded r.seqno r.request }
    // Removals and Marks have seqnos up to the base's, or of the requests.
    ensures removal_within { (base : Option GovernedRows) (rs : List Recorded) →
        (id : List ℕ) (s n : ℕ) → removal (history_over base rs) id ≡ Some s →
        base_seqno base < n → IsAbove n rs → s < n }
    ensures mark_within { (base : Option GovernedRows) (rs : List Recorded) →
        (id : List ℕ) (s n : ℕ) → mark (history_over base rs) id ≡ Some s →
        base_seqno base < n → IsAbove n rs → s < n }
{}
