//! What holds of a service, whatever nodes start and whatever happens: laws, and no code.

ghost use Rattle.std.specs.Prelude.{◌≡◌, ℕ, List, true};
ghost use Rattle.gl_tx.specs.declared.request.Operation.{Operation};
ghost use Rattle.gl_entry.specs.declared.entry.Entry.{Entry};
ghost use Rattle.gl_rules.specs.Identity.{NodeId, member};
ghost use Rattle.gl_rules.specs.Safety.{IsSafe, RetiresSafely};
ghost use Rattle.gl_rules.specs.World.{Start};
ghost use Rattle.gl_requests.specs.declared.request.GovernanceRequest.{GovernanceRequest};
ghost use Rattle.gl_ledger.specs.Layers.{Layers};
ghost use Rattle.gl_ledger.specs.NodeKeys.{NodeKeys};
ghost use Rattle.gl_ledger.specs.Recordings.{recorded_nodes};
ghost use Rattle.gl_ledger.specs.Past.{past_of};
ghost use Rattle.gl_ledger.specs.Broken.{may_record};
ghost use Rattle.gl_ledger.specs.Sound.{IsSound, IsUnrecovered};
ghost use Rattle.gl_ledger.specs.Makers.{MakesValid, evidence_result, govern_result, request_result, signing_result};
ghost use Rattle.gl_ledger.specs.LedgerBook.{ledger_book};
ghost use Rattle.gl_ledger.specs.OpeningLedger.{Begins};
ghost use Rattle.gl_world.specs.Service.{Leads, ServiceEvent, node_of};

/// A service that begins with a ledger which the check of an opening takes, and in which it was not
/// recovered, is safe: its committed ledgers are sound. A node whose retirement is committed may be
/// switched off: whoever leads counts it in no active configuration. No node of the service ever
/// holds a recovery of it: that takes an opening ledger of its own.
pub fn a_service_is_safe()
    ensures safe { (layers : Layers) (keys : NodeKeys) (s : Start Entry) → Begins layers s →
        (events : List ServiceEvent) → IsSafe (ledger_book layers keys) (IsSound layers) s events }
    ensures retirement { (layers : Layers) (keys : NodeKeys) (s : Start Entry) → Begins layers s →
        (events : List ServiceEvent) → RetiresSafely (ledger_book layers keys) s events }
    ensures unrecovered { (layers : Layers) (keys : NodeKeys) (s : Start Entry) →
        Begins layers s → (events : List ServiceEvent) (x : NodeId) →
        IsUnrecovered (node_of layers keys s events x).log }
{}

/// For a rule of the audit the book refuses a leader nothing: no request, of an application or of
/// governance, no valid signature, and no evidence.
pub fn a_service_is_unguarded()
    ensures executes { (layers : Layers) (keys : NodeKeys) (s : Start Entry) → Begins layers s →
        (events : List ServiceEvent) (x : NodeId) → Leads layers keys s events x →
        (request : List Operation) → let n = node_of layers keys s events x in
        (ledger_book layers keys).execute n.log n.view request
        ≡ request_result n.log n.view request }
    ensures governs { (layers : Layers) (keys : NodeKeys) (s : Start Entry) → Begins layers s →
        (events : List ServiceEvent) (x : NodeId) → Leads layers keys s events x →
        (request : GovernanceRequest) → let n = node_of layers keys s events x in
        (ledger_book layers keys).govern n.log n.view request
        ≡ govern_result n.log n.view request }
    ensures signs { (layers : Layers) (keys : NodeKeys) (s : Start Entry) → Begins layers s →
        (events : List ServiceEvent) (x : NodeId) → Leads layers keys s events x →
        (leaf : ℕ) → let n = node_of layers keys s events x in
        MakesValid layers keys x leaf n.log n.view n.commit →
        (ledger_book layers keys).sign x leaf n.log n.view n.commit
        ≡ signing_result keys x leaf n.log n.view n.commit }
    ensures evident { (layers : Layers) (keys : NodeKeys) (s : Start Entry) → Begins layers s →
        (events : List ServiceEvent) (x : NodeId) → Leads layers keys s events x →
        let n = node_of layers keys s events x in
        (ledger_book layers keys).evidence n.log n.view ≡ evidence_result (past_of n.log) n.view }
{}

/// A leader is a recorded node, and may record its commit in a signature, by the rules of the
/// audit.
pub fn a_leader_may_sign()
    ensures recorded { (layers : Layers) (keys : NodeKeys) (s : Start Entry) → Begins layers s →
        (events : List ServiceEvent) (x : NodeId) → Leads layers keys s events x →
        member x (recorded_nodes (node_of layers keys s events x).log) ≡ true }
    ensures commit { (layers : Layers) (keys : NodeKeys) (s : Start Entry) → Begins layers s →
        (events : List ServiceEvent) (x : NodeId) → Leads layers keys s events x →
        may_record (past_of (node_of layers keys s events x).log)
        (node_of layers keys s events x).commit
        ≡ true }
{}
