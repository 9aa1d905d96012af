//! What is promised of a service of any number of nodes: laws, and no code.

ghost use Rattle.std.specs.Prelude.{◌≡◌, ◌⊎◌, ◌<◌, ℕ, List, length, true};
ghost use Rattle.gl_rules.specs.Identity.{NodeId, member};
ghost use Rattle.gl_rules.specs.Safety.{EachFollows, IsOpening, NeverConflicts, RetiresSafely};
ghost use Rattle.gl_tx.specs.declared.request.Operation.{Operation};
ghost use Rattle.gl_requests.specs.Ranges.{is_first_state};
ghost use Rattle.gl_requests.specs.declared.request.GovernanceRequest.{GovernanceRequest};
ghost use Rattle.gl_requests.specs.declared.genesis.ServiceState.{ServiceState};
ghost use Rattle.gl_ledger.specs.Makers.{evidence_result, govern_result, request_result, signing_result};
ghost use Rattle.gl_ledger.specs.OpeningLedger.{Begins};
ghost use Rattle.gl_ledger.specs.Past.{past_of};
ghost use Rattle.gl_world.specs.Service.{Leads, ServiceEvent, node_of};
ghost use Rattle.gl_ledger.specs.NodeKeys.{IsNodeKey, service_layers};
ghost use Rattle.gl_world.specs.declared.settings.Settings.{Settings};
ghost use Rattle.gl_world.specs.Founding.{endorsement_of, genesis_of, keys_of, node_ids, number_of};
ghost use Rattle.gl_world.specs.Group.{IsGroup, RecordsTwin, book_of};
ghost use Rattle.gl_world.specs.Headline.{Headline};
ghost use Rattle.gl_world.specs.World.{start_of};

/// A service of 1 to 9 nodes that start, and up to 9 that join, is safe, whatever events happen in
/// whatever order.
pub fn is_safe()
    ensures headline { (s : Settings) → IsGroup s → (events : List ServiceEvent) →
        Headline s events }
    ensures opening { (s : Settings) → IsGroup s →
        IsOpening (book_of s) (EachFollows (book_of s)) (start_of s) }
    ensures begins { (s : Settings) → IsGroup s → Begins service_layers (start_of s) }
    ensures no_conflict { (s : Settings) → IsGroup s → (events : List ServiceEvent) →
        NeverConflicts (book_of s) (start_of s) events }
    ensures retirement { (s : Settings) → IsGroup s → (events : List ServiceEvent) →
        RetiresSafely (book_of s) (start_of s) events }
    ensures smallest { (state : ServiceState) (seed : List ℕ) → is_first_state state ≡ true →
        IsGroup (record { starting = 1; joiners = 0; members = 1; state = state; seed = seed }) }
{}

/// The service's key endorses the key of each node that starts or joins, and the node's identifier
/// is the digest of its key. The endorsement, which a genesis or a join of the node brings, has the
/// 2,348 bytes of an LMS signature (RFC 8554, section 5.4).
pub fn has_node_keys()
    ensures keys { (s : Settings) → IsGroup s → (x : NodeId) → member x (node_ids s) ≡ true →
        IsNodeKey (keys_of s) (endorsement_of s (number_of s x)) (genesis_of s).identity x }
    ensures sizes { (s : Settings) → IsGroup s → (x : NodeId) → member x (node_ids s) ≡ true →
        length (endorsement_of s (number_of s x)) ≡ 2348 }
{}

/// A leader of such a service refuses no request, and no evidence, for a rule of the audit,
/// whatever happened before. Nor does it refuse a signature with a leaf that its key has, where it
/// is a node that starts by the settings, or one that joins by them; unless of the latter another
/// key was recorded, whose digest is that of its own. A node that joined with a key of its own is
/// not among those whose keys the world has, so nothing is said of its signatures.
pub fn is_unguarded()
    ensures executes { (s : Settings) → IsGroup s → (events : List ServiceEvent) (x : NodeId) →
        Leads service_layers (keys_of s) (start_of s) events x → (request : List Operation) →
        let n = node_of service_layers (keys_of s) (start_of s) events x in
        (book_of s).execute n.log n.view request ≡ request_result n.log n.view request }
    ensures governs { (s : Settings) → IsGroup s → (events : List ServiceEvent) (x : NodeId) →
        Leads service_layers (keys_of s) (start_of s) events x → (request : GovernanceRequest) →
        let n = node_of service_layers (keys_of s) (start_of s) events x in
        (book_of s).govern n.log n.view request
        ≡ govern_result n.log n.view request }
    ensures signs { (s : Settings) → IsGroup s → (events : List ServiceEvent) (x : NodeId) →
        Leads service_layers (keys_of s) (start_of s) events x →
        member x (node_ids s) ≡ true → (leaf : ℕ) →
        leaf < (book_of s).leaves x →
        let n = node_of service_layers (keys_of s) (start_of s) events x in
        ((book_of s).sign x leaf n.log n.view n.commit
        ≡ signing_result (keys_of s) x leaf n.log n.view n.commit)
        ⊎ RecordsTwin s n.log x }
    ensures starters { (s : Settings) → IsGroup s → (events : List ServiceEvent) (x : NodeId) →
        Leads service_layers (keys_of s) (start_of s) events x →
        member x (start_of s).starting ≡ true → (leaf : ℕ) →
        leaf < (book_of s).leaves x →
        let n = node_of service_layers (keys_of s) (start_of s) events x in
        (book_of s).sign x leaf n.log n.view n.commit
        ≡ signing_result (keys_of s) x leaf n.log n.view n.commit }
    ensures evident { (s : Settings) → IsGroup s → (events : List ServiceEvent) (x : NodeId) →
        Leads service_layers (keys_of s) (start_of s) events x →
        let n = node_of service_layers (keys_of s) (start_of s) events x in
        (book_of s).evidence n.log n.view ≡ evidence_result (past_of n.log) n.view }
{}
