//! What holds of recoveries, as the contracts of functions that do nothing.

ghost use Rattle.std.specs.Prelude.{◌≡◌, ◌<◌, ◌^◌, ℕ, List, [], ◌∷◌, ◌++◌, Some, Ok, Err, true};
ghost use Rattle.gl_hss.specs.Secrets.{PrivateKey, public_of};
ghost use Rattle.gl_hss.specs.Tree.{IsKey};
ghost use Rattle.gl_hss.specs.Types.{height};
ghost use Rattle.gl_entry.specs.declared.entry.Entry.{Entry};
ghost use Rattle.gl_requests.specs.Ranges.{is_recovery};
ghost use Rattle.gl_requests.specs.declared.genesis.Recovery.{Recovery};
ghost use Rattle.gl_requests.specs.declared.genesis.ServiceState.TheVariants.{Open};
ghost use Rattle.gl_gov_rules.specs.declared.change.Recorded.{Recorded};
ghost use Rattle.gl_gov_rules.specs.Changes.{history};
ghost use Rattle.gl_gov_rules.specs.Governed.{IsGoverned};
ghost use Rattle.gl_gov_rules.specs.Service.{is_recovered, service_state};
ghost use Rattle.gl_journal.specs.Durable.{Durable};
ghost use Rattle.gl_ledger.specs.Layers.{Layers};
ghost use Rattle.gl_ledger.specs.Recovery.{recovery_result};
ghost use Rattle.gl_ledger.specs.Sound.{IsSound};
ghost use Rattle.gl_ledger.specs.declared.refusal.Refusal.{Refusal};
ghost use Rattle.gl_entry.specs.LedgerFile.{ledger_file};
ghost use Rattle.gl_recovery.specs.Completion.{Completes, CompletesAfter, governance_of};
ghost use Rattle.gl_recovery.specs.ExpectedOutput.{IsFirstKey, expected_recovery};
ghost use Rattle.gl_recovery.specs.RecoveryOutput.{expected_recover};
ghost use Rattle.gl_recovery.specs.Refounded.{IsOfRecovery, IsRecovered, IsRefounded};

/// What the start of a recovery gives. The ledger that is owed is valid: the old one, which is
/// valid too, up to its last signature, with the recovery and the signature of the first node that
/// it names after it; the check of an opening takes it. The recovery's key is in force in it, and
/// the nodes that it names are trusted, and no others. A recovery is refused for its nodes, for an
/// endorsement or for its size, and for nothing else.
pub fn law_of_start()
    ensures refounded { (r : Recovery) (by : PrivateKey) (leaf : ℕ) (bytes : List ℕ)
        (ledger : List Entry) → is_recovery r ≡ true → IsFirstKey by r.nodes →
        IsKey (public_of by) → leaf < 2 ^ height by.types →
        expected_recovery r by leaf bytes ≡ Ok ledger →
        IsRefounded r by (ledger_file bytes).entries ledger }
    ensures refusals { (r : Recovery) (ledger : List Entry) (why : Refusal) →
        recovery_result r ledger ≡ Err why → IsOfRecovery why }
{}

/// What a recovery from a source and a key file tells. The bytes of the source are settings and an
/// old ledger; told are the frames of a ledger as `law_of_start` has it, by the recovery that the
/// settings name and after that old ledger, which the node with the file's key opens.
pub fn law_of_recover()
    ensures { (state : Durable) (given reported : List ℕ) →
        expected_recover state given ≡ Ok reported → IsRecovered state.key given reported }
{}

/// A recovered service opens at a share alone: one with which at least as many distinct members'
/// shares are given as the dealing asks for, each of them the member's own, and these join to the
/// secret that was dealt. This holds of requests that were accepted one after another, and so of
/// each sound ledger.
pub fn law_of_recovery()
    ensures requests { (rs : List Recorded) (r : Recorded) → IsGoverned (rs ++ r ∷ []) →
        is_recovered (history (rs ++ r ∷ [])) ≡ true →
        (service_state (history rs) ≡ Some Open → ⊥) →
        service_state (history (rs ++ r ∷ [])) ≡ Some Open → Completes rs r }
    ensures ledgers { (layers : Layers) (ledger : List Entry) (e : Entry) →
        IsSound layers (ledger ++ e ∷ []) →
        is_recovered (governance_of (ledger ++ e ∷ [])) ≡ true →
        (service_state (governance_of ledger) ≡ Some Open → ⊥) →
        service_state (governance_of (ledger ++ e ∷ [])) ≡ Some Open →
        CompletesAfter ledger e }
{}
