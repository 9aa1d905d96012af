//! What holds of each load, as the contract of a function that does nothing.

ghost use Rattle.std.specs.Prelude.{◌≡◌, ◌≤◌, ◌+◌, ℕ, List, None, length};
ghost use Rattle.gl_ledger.specs.Audit.{audited};
ghost use Rattle.gl_ledger.specs.NodeKeys.{service_layers};
ghost use Rattle.gl_ledger.specs.OpeningLedger.{Begins, Founds};
ghost use Rattle.gl_load.specs.Events.{load_ledger, signature_count};
ghost use Rattle.gl_load.specs.Founding.{load_genesis, load_id, load_keys, load_start};
ghost use Rattle.gl_load.specs.Report.{signatures_in};

/// The node can found the service of each seed, so that all laws of services hold of it. Nothing of
/// a load is refused: each request is an entry, and so is each signature, after the two of the
/// opening. No entry breaks a rule.
pub fn law_of_loads()
    ensures founds { (seed : List ℕ) →
        Founds service_layers (load_keys seed) (load_genesis seed) (load_id seed) }
    ensures begins { (seed : List ℕ) → Begins service_layers (load_start seed) }
    ensures entries { (seed : List ℕ) (count : ℕ) → count ≤ 100000 →
        length (load_ledger seed count) ≡ 2 + count + signature_count count }
    ensures signatures { (seed : List ℕ) (count : ℕ) → count ≤ 100000 →
        length (signatures_in (load_ledger seed count)) ≡ 1 + signature_count count }
    ensures valid { (seed : List ℕ) (count : ℕ) → count ≤ 100000 →
        audited service_layers (load_ledger seed count) ≡ None }
{}
