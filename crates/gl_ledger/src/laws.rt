//! What holds of the ledger as a book: laws, and no code.

ghost use Rattle.std.specs.Prelude.{◌≡◌, ◌<◌, ◌≤◌, ◌↔◌, ◌+◌, ◌^◌, ℕ, suc, List, [], ◌∷◌, ◌++◌, Option, None, Some, Ok, length, map, slice_get, true};
ghost use Rattle.sha2.specs.Sha256.{sha256};
ghost use Rattle.gl_base.specs.Bytes.{are_bytes};
ghost use Rattle.gl_hss.specs.Secrets.{public_of};
ghost use Rattle.gl_hss.specs.Tree.{IsKey, key_bytes};
ghost use Rattle.gl_vmaps.specs.Tables.{value_in};
ghost use Rattle.gl_tx.specs.declared.request.Operation.{Operation};
ghost use Rattle.gl_entry.specs.declared.entry.Entry.{Entry};
ghost use Rattle.gl_rules.specs.Identity.{NodeId, member};
ghost use Rattle.gl_rules.specs.Log.{greatest_recorded};
ghost use Rattle.gl_rules.specs.Safety.{EachFollows, IsLawful, IsOpening, IsRetiring, MayRecord};
ghost use Rattle.gl_rules.specs.World.{Start};
ghost use Rattle.gl_requests.specs.Ranges.{is_genesis};
ghost use Rattle.gl_requests.specs.Encoding.{node_id};
ghost use Rattle.gl_requests.specs.declared.genesis.Genesis.{Genesis};
ghost use Rattle.gl_requests.specs.declared.genesis.NewNode.{NewNode};
ghost use Rattle.gl_requests.specs.declared.genesis.Recovery.{Recovery};
ghost use Rattle.gl_requests.specs.declared.request.GovernanceRequest.{GovernanceRequest};
ghost use Rattle.gl_gov_rules.specs.Governed.{IsGoverned};
ghost use Rattle.gl_gov_rules.specs.Refusals.{are_ids_distinct};
ghost use Rattle.gl_gov_rules.specs.Rows.{nodes_map, node_write};
ghost use Rattle.gl_gov_rules.specs.declared.refusal.NodeStatus.TheVariants as statuses;
ghost use Rattle.gl_ledger.specs.ServiceRow.{identity_in};
ghost use Rattle.gl_ledger.specs.Tree.{tables_of};
ghost use Rattle.gl_ledger.specs.Ledger.{genesis_entry};
ghost use Rattle.gl_ledger.specs.Layers.{Layers};
ghost use Rattle.gl_ledger.specs.Recordings.{configuration, endorsement_in, key_in, recorded_nodes, requests_of, trusted_nodes};
ghost use Rattle.gl_ledger.specs.Past.{last_commit, past_of};
ghost use Rattle.gl_ledger.specs.Broken.{broken};
ghost use Rattle.gl_ledger.specs.Sound.{IsSound, IsUnrecovered};
ghost use Rattle.gl_ledger.specs.Makers.{MayMake, MakesValid, evidence_result, govern_result, opening_of, request_result, signing_result};
ghost use Rattle.gl_ledger.specs.LedgerBook.{ledger_book};
ghost use Rattle.gl_ledger.specs.Audit.{LedgerFault, IsFaultOf, audited, opened};
ghost use Rattle.gl_ledger.specs.NodeKeys.{IsNodeKey, IsSignedBy, NodeKeys, leaf_count, node_signature, node_signature_fault, service_layers};
ghost use Rattle.gl_ledger.specs.OpeningLedger.{Begins, Founds};
ghost use Rattle.gl_ledger.specs.Recovery.{Refounds, recovered_of};

/// The ledger has the laws that the rules of consensus ask of a book.
pub fn is_lawful()
    ensures lawful { (layers : Layers) (keys : NodeKeys) →
        IsLawful (ledger_book layers keys) (EachFollows (ledger_book layers keys)) }
    ensures retiring { (layers : Layers) (keys : NodeKeys) →
        IsRetiring (ledger_book layers keys) (EachFollows (ledger_book layers keys)) }
{}

/// The requests of governance that a sound ledger records were accepted one after another, so the
/// laws of the rules of governance hold of them.
pub fn is_governed()
    ensures governed { (layers : Layers) (ledger : List Entry) → IsSound layers ledger →
        IsGoverned (requests_of ledger) }
{}

/// An entry that breaks no rule of the audit keeps a ledger sound.
pub fn is_kept_sound()
    ensures empty { (layers : Layers) → IsSound layers [] }
    ensures longer { (layers : Layers) → (ledger : List Entry) (e : Entry) →
        IsSound layers ledger → broken layers ledger e ≡ None →
        IsSound layers (ledger ++ e ∷ []) }
{}

/// The audit finds the first entry that breaks a rule. A ledger in which it finds none is sound,
/// and no commit that a signature of it records is below an earlier one.
pub fn is_audited()
    ensures valid { (layers : Layers) (keys : NodeKeys) (ledger : List Entry) →
        audited layers ledger ≡ None ↔ EachFollows (ledger_book layers keys) ledger }
    ensures fault { (layers : Layers) (ledger : List Entry) (fault : LedgerFault) →
        audited layers ledger ≡ Some fault → IsFaultOf layers ledger fault }
    ensures sound { (layers : Layers) → (ledger : List Entry) →
        audited layers ledger ≡ None → IsSound layers ledger }
    ensures commits { (layers : Layers) (keys : NodeKeys) (ledger : List Entry) →
        audited layers ledger ≡ None →
        greatest_recorded (ledger_book layers keys) ledger ≤ last_commit ledger }
{}

/// A service that begins with a ledger which the check of an opening takes, and in which it was not
/// recovered, begins as the rules of consensus ask, whatever nodes start. The check takes the
/// opening ledger of each genesis that founds a service, and tells who signed it. The nodes of that
/// genesis are recorded, in its order, and are the first configuration. Whatever entries follow,
/// each has in its row the endorsement that the genesis names. The check takes the recovered ledger
/// of each recovery that recovers a service, too. After it the key that this names is in force, and
/// of all nodes those that it names are trusted, in its order.
pub fn is_opened()
    ensures opening { (layers : Layers) (keys : NodeKeys) (s : Start Entry) → Begins layers s →
        IsOpening (ledger_book layers keys) (EachFollows (ledger_book layers keys)) s }
    ensures genesis { (layers : Layers) (keys : NodeKeys) (g : Genesis) (first : NodeId) →
        Founds layers keys g first → opened layers (opening_of keys g first) ≡ Ok first }
    ensures unrecovered { (layers : Layers) (keys : NodeKeys) (g : Genesis) (first : NodeId) →
        Founds layers keys g first → IsUnrecovered (opening_of keys g first) }
    ensures recorded { (layers : Layers) (keys : NodeKeys) (g : Genesis) (first : NodeId) →
        Founds layers keys g first → recorded_nodes (genesis_entry g ∷ []) ≡ map node_id g.nodes }
    ensures configured { (layers : Layers) (keys : NodeKeys) (g : Genesis) (first : NodeId) →
        Founds layers keys g first →
        configuration (genesis_entry g ∷ []) ≡ Some (map node_id g.nodes) }
    ensures rows { (g : Genesis) (i : ℕ) (node : NewNode) →
        are_ids_distinct g.nodes ≡ true → slice_get g.nodes i ≡ Some node →
        value_in (tables_of (genesis_entry g ∷ [])) nodes_map (node_id node)
        ≡ (node_write (record {
          id = node_id node;
          order = suc i;
          status = statuses.Trusted;
          key = node.key;
          endorsement = node.endorsement;
          removal = 0;
        })).value }
    ensures recovery { (layers : Layers) (keys : NodeKeys) (ledger : List Entry) (r : Recovery)
        (x : NodeId) (leaf : ℕ) → Refounds layers keys ledger r x leaf →
        opened layers (recovered_of keys r x leaf ledger) ≡ Ok x }
    ensures identity { (layers : Layers) (keys : NodeKeys) (ledger : List Entry) (r : Recovery)
        (x : NodeId) (leaf : ℕ) → Refounds layers keys ledger r x leaf →
        identity_in (tables_of (recovered_of keys r x leaf ledger)) ≡ r.identity }
    ensures nodes { (layers : Layers) (keys : NodeKeys) (ledger : List Entry) (r : Recovery)
        (x : NodeId) (leaf : ℕ) → Refounds layers keys ledger r x leaf →
        trusted_nodes (recovered_of keys r x leaf ledger) ≡ map node_id r.nodes }
    ensures endorsement { (g : Genesis) (es : List Entry) (i : ℕ) (node : NewNode) →
        is_genesis g ≡ true → are_ids_distinct g.nodes ≡ true →
        slice_get g.nodes i ≡ Some node →
        endorsement_in (genesis_entry g ∷ es) (node_id node) ≡ node.endorsement }
{}

/// Where an entry may be made, the book refuses no request of an application and no evidence for a
/// rule of the audit, after a sound ledger none of governance, and no valid signature of a recorded
/// node with a commit that the rules of consensus let it record.
pub fn is_unguarded()
    ensures executes { (layers : Layers) (keys : NodeKeys) (ledger : List Entry) (view : ℕ) →
        view < 2 ^ 32 → MayMake ledger view → (request : List Operation) →
        (ledger_book layers keys).execute ledger view request ≡ request_result ledger view request }
    ensures governs { (layers : Layers) (keys : NodeKeys) (ledger : List Entry) (view : ℕ) →
        view < 2 ^ 32 → MayMake ledger view → IsSound layers ledger →
        (request : GovernanceRequest) →
        (ledger_book layers keys).govern ledger view request ≡ govern_result ledger view request }
    ensures signs { (layers : Layers) (keys : NodeKeys) (ledger : List Entry) (view : ℕ) →
        view < 2 ^ 32 → MayMake ledger view → (node : NodeId) (leaf commit : ℕ) →
        MakesValid layers keys node leaf ledger view commit →
        member node (recorded_nodes ledger) ≡ true →
        MayRecord (ledger_book layers keys) ledger commit →
        (ledger_book layers keys).sign node leaf ledger view commit
        ≡ signing_result keys node leaf ledger view commit }
    ensures evident { (layers : Layers) (keys : NodeKeys) (ledger : List Entry) (view : ℕ) →
        view < 2 ^ 32 → MayMake ledger view →
        (ledger_book layers keys).evidence ledger view ≡ evidence_result (past_of ledger) view }
{}

/// A node whose key the service's key endorses signs validly: by the test of signatures, and after
/// each ledger of its service in which the endorsement stands in the node's row, in an entry that
/// has room for it. It stands there in each sound ledger, without a recovery, that records the node
/// with its own key. The digest of the key in a row is the node's identifier.
pub fn is_signed()
    ensures valid { (keys : NodeKeys) (endorsement identity : List ℕ) (x : NodeId) (leaf : ℕ)
        (message : List ℕ) → IsNodeKey keys endorsement identity x → leaf < leaf_count keys x →
        node_signature_fault identity x message (node_signature keys endorsement x leaf message)
        ≡ None }
    ensures makes { (keys : NodeKeys) (identity : List ℕ) (x : NodeId) (leaf : ℕ)
        (ledger : List Entry) (view commit : ℕ) →
        IsNodeKey keys (endorsement_in ledger x) identity x → leaf < leaf_count keys x →
        identity_in (tables_of ledger) ≡ identity →
        MakesValid service_layers keys x leaf ledger view commit }
    ensures recorded { (layers : Layers) (ledger : List Entry) → IsSound layers ledger →
        IsUnrecovered ledger → (keys : NodeKeys) (x : NodeId) →
        member x (recorded_nodes ledger) ≡ true → IsKey (public_of (keys.key_of x)) →
        key_in ledger x ≡ key_bytes (public_of (keys.key_of x)) →
        IsNodeKey keys (endorsement_in ledger x) (identity_in (tables_of ledger)) x }
    ensures named { (layers : Layers) (ledger : List Entry) → IsSound layers ledger →
        IsUnrecovered ledger → (x : NodeId) → member x (recorded_nodes ledger) ≡ true →
        x ≡ sha256 (key_in ledger x) }
{}

/// What the test of an entry's signature means by RFC 8554: it has no fault exactly where it is
/// valid and by the node's key.
pub fn is_meant()
    ensures signature { (identity : List ℕ) (x : NodeId) (message signature : List ℕ) →
        length identity ≡ 60 → are_bytes identity ≡ true → are_bytes signature ≡ true →
        node_signature_fault identity x message signature ≡ None
        ↔ IsSignedBy identity x message signature }
{}
