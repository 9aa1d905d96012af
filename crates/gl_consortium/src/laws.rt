//! What holds of all that is reported, as the contract of a function that does nothing.

ghost use Rattle.std.specs.Prelude.{◌≡◌, ℕ, List, Some, Ok};
ghost use Rattle.gl_requests.specs.declared.genesis.Genesis.{Genesis};
ghost use Rattle.gl_gov_rules.specs.History.{no_history};
ghost use Rattle.gl_gov_rules.specs.Refusals.{genesis_refusal};
ghost use Rattle.gl_gov_rules.specs.declared.refusal.GovernanceRefusal.{GovernanceRefusal};
ghost use Rattle.gl_journal.specs.Durable.{Durable};
ghost use Rattle.gl_keyfile.specs.declared.signature.Signing.{Signing};
ghost use Rattle.gl_consortium.specs.ExpectedOutput.{expected_output};
ghost use Rattle.gl_consortium.specs.Faults.{IsOfFounding};
ghost use Rattle.gl_consortium.specs.Laws.{IsEndorsement, IsOpening, IsRequest};

/// A genesis is refused for an action or for a signature alone. An endorsement that is reported is
/// valid, a request that is reported is signed, and the check of an opening takes an opening ledger
/// that is reported, unless two keys have one digest.
pub fn law_of_signing()
    ensures refusals { (g : Genesis) (why : GovernanceRefusal) →
        genesis_refusal no_history g ≡ Some why → IsOfFounding why }
    ensures endorsed { (state : Durable) (text reported : List ℕ) →
        expected_output Signing.Endorsement state text ≡ Ok reported →
        IsEndorsement state.key reported }
    ensures opens { (state : Durable) (text reported : List ℕ) →
        expected_output Signing.Opening state text ≡ Ok reported → IsOpening state.key reported }
    ensures signed { (identity : List ℕ) (number : ℕ) (state : Durable) (text reported : List ℕ) →
        expected_output (Signing.Request identity number) state text ≡ Ok reported →
        IsRequest state.key identity number reported }
{}
