//! What consensus needs of the nodes of every list of governance requests, as the contract of a
//! function that does nothing.

ghost use Rattle.std.specs.Prelude.{
  ◌≡◌,
  ◌⊎◌,
  ℕ,
  ◌<◌,
  List,
  [],
  ◌∷◌,
  ◌++◌,
  Some,
  true,
  false,
  length,
  map,
  slice_get,
};
ghost use Rattle.std.specs.List.{list_any};
ghost use Rattle.gl_base.specs.Bytes.{same_bytes};
ghost use Rattle.gl_requests.specs.declared.request.GovernanceRequest.TheVariants as requests;
ghost use Rattle.gl_gov_rules.specs.declared.change.Recorded.{Recorded};
ghost use Rattle.gl_gov_rules.specs.declared.change.RecordedNode.{RecordedNode};
ghost use Rattle.gl_gov_rules.specs.Nodes.{nodes, nodes_recorded, trusted, removal, mark};
ghost use Rattle.gl_gov_rules.specs.Changes.{history};
ghost use Rattle.gl_gov_rules.specs.Governed.{IsAbove, Follows, IsGoverned};

/// A node's removal and its Mark stay as they are once they are there, and they come with the last
/// request, the Mark only after the removal. No two nodes have one identifier. Those that are
/// trusted are recorded and not removed, and there is always one.
pub fn law_of_nodes()
    ensures removal_kept { (rs : List Recorded) (r : Recorded) (id : List ℕ) (s : ℕ) →
        removal (history rs) id ≡ Some s → removal (history (rs ++ r ∷ [])) id ≡ Some s }
    ensures removal_new { (rs : List Recorded) (r : Recorded) (id : List ℕ) (s : ℕ) →
        Follows rs r → removal (history (rs ++ r ∷ [])) id ≡ Some s →
        (removal (history rs) id ≡ Some s) ⊎ (s ≡ r.seqno) }
    ensures mark_kept { (rs : List Recorded) (r : Recorded) (id : List ℕ) (s : ℕ) →
        mark (history rs) id ≡ Some s → mark (history (rs ++ r ∷ [])) id ≡ Some s }
    ensures mark_new { (rs : List Recorded) (r : Recorded) (id : List ℕ) (s : ℕ) →
        mark (history (rs ++ r ∷ [])) id ≡ Some s →
        (mark (history rs) id ≡ Some s) ⊎ ((s ≡ r.seqno) × (r.request ≡ requests.Mark id)) }
    // A node is marked only once it is removed.
    ensures marked { (rs : List Recorded) (r : Recorded) (id : List ℕ) →
        Follows rs r → r.request ≡ requests.Mark id → (s : ℕ) × (removal (history rs) id ≡ Some s) }
    // No two places of the nodes have one identifier.
    ensures distinct { (rs : List Recorded) (i j : ℕ) (m n : RecordedNode) → IsGoverned rs →
        slice_get (nodes (history rs)) i ≡ Some m → slice_get (nodes (history rs)) j ≡ Some n →
        m.id ≡ n.id → i ≡ j }
    ensures not_trusted { (rs : List Recorded) (id : List ℕ) (s : ℕ) → IsGoverned rs →
        removal (history rs) id ≡ Some s →
        list_any (same_bytes id) (trusted (history rs)) ≡ false }
    ensures trusted_recorded { (rs : List Recorded) (id : List ℕ) →
        list_any (same_bytes id) (trusted (history rs)) ≡ true →
        list_any (same_bytes id) (map (λ (n : RecordedNode). n.id) (nodes (history rs))) ≡ true }
    ensures nodes_kept { (rs : List Recorded) (r : Recorded) →
        nodes (history (rs ++ r ∷ [])) ≡ nodes (history rs) ++ nodes_recorded r.seqno r.request }
    // Removals and Marks have seqnos of the requests.
    ensures removal_within { (rs : List Recorded) (id : List ℕ) (s n : ℕ) →
        removal (history rs) id ≡ Some s → IsAbove n rs → s < n }
    ensures mark_within { (rs : List Recorded) (id : List ℕ) (s n : ℕ) →
        mark (history rs) id ≡ Some s → IsAbove n rs → s < n }
    // After the first request some node is always trusted.
    ensures some_trusted { (r : Recorded) (rs : List Recorded) → IsGoverned (r ∷ rs) →
        0 < length (trusted (history (r ∷ rs))) }
{}
