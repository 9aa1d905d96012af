//! What a store gives to the rules of consensus.

ghost use Rattle.std.specs.Prelude.{◌≡◌, ◌≤◌, ◌<◌, ◌^◌, ◌++◌, ◌∷◌, [], ℕ, List, Ok, Err, max, take, drop, length, Option, AllPairs, IsTrue, IfOk, IfErr, OnOk, OnErr};
ghost use Rattle.gl_base.specs.Answers.{Fails};
ghost use Rattle.gl_entry.specs.declared.entry.Entry.{Entry as Item};
ghost use Rattle.gl_rules.specs.Book.{Book as Rules};
ghost use Rattle.gl_rules.specs.Log.{entry_at, greatest_recorded, is_signature_in, last_signature, last_signature_position, view_at};
ghost use Rattle.gl_rules.specs.Configuration.{active, configurations_above};
ghost use Rattle.gl_rules.specs.Replication.{batch, checked_append, greatest_evidence, is_reached};
ghost use Rattle.gl_messages.specs.Message.{entries_fit};
ghost use Rattle.gl_config.specs.Active.{above, active_of, sets_of};
ghost use Rattle.gl_election.specs.Bridge.{tx_id};
ghost use Rattle.gl_replication.specs.Holding.{Holding};
ghost use Rattle.gl_replication.specs.Standing.{At, Becomes, Enters, Stays};

use gl_base::{OrNoMemory, TxId};
use gl_config::{Configuration, NodeId};
use gl_entry::Entry;
use std::alloc::AllocError;

/// What a store gives to the rules of consensus. Its meaning is a relation between the store, rules
/// over a ledger book, and what is held for a node: a store needn't know all of the ledger, only
/// what these calls tell of it. A store that stands for nothing promises nothing; whoever makes one
/// says for which rules and which ledger it stands.
pub trait Book: Drop {
    /// An application's request.
    type Request: Drop;
    /// A request of governance.
    type Gov: Drop;
    /// The reads of a transaction.
    type Reads: Drop;
    /// An answer to a request.
    type Response: Drop;
    /// Why the ledger takes no entry.
    type Refused: Copy;

    // Under these rules it stands for what is held, a ledger whole from seqno 1.
    ghost stands: { Self → Rules Item Self.Request Self.Gov Self.Reads Self.Response Self.Refused →
        Holding Item → Type 0 };

    // An answer of this kind can be sent: it keeps the limits of the formats.
    ghost fits: { Self.Response → Type 0 };

    // The bytes of the snapshot's body that stands for the entries up to its base, where it has
    // one. No event but a snapshot that is installed changes them, whatever it stands for.
    ghost base_snapshot: { Self → Option (List ℕ) };

    /// With whose key it signs.
    fn me(&self) -> NodeId
        ensures { At stands self.now (λ b h. result ≡ h.me) };

    /// The seqno up to which the ledger came by a snapshot, 0 for none.
    fn base(&self) -> u64
        ensures { At stands self.now (λ b h. result ≡ h.base) };

    /// How many one-time leaves its key has.
    fn leaves(&self) -> u64
        ensures { At stands self.now (λ b h. result ≡ b.leaves h.me) };

    /// All entries above the base, in order.
    fn entries(&self) -> &[Entry]
        ensures { At stands self.now (λ b h. result.now ≡ drop h.base h.log) };

    /// The seqno of the last entry.
    fn ledger_len(&self) -> u64
        ensures value { At stands self.now (λ b h. result ≡ length h.log) }
        ensures base { At stands self.now (λ b h. h.base ≤ length h.log) }
        ensures within { result < 2 ^ 40 };

    /// The view and the seqno of the last signature, both 0 where there is none.
    fn last_signature(&self) -> TxId
        ensures value { At stands self.now (λ b h. result ≡ tx_id (last_signature_position b
            h.log)) }
        ensures base { At stands self.now (λ b h. h.base ≤ result.seqno) }
        ensures within { result.seqno < 2 ^ 40 };

    /// The greatest commit that a signature records; the base counts as one.
    fn known_commit(&self) -> u64
        ensures { At stands self.now (λ b h. result ≡ max h.base (greatest_recorded b h.log)) };

    /// The seqno of the last signature up to a seqno, if that isn't below the base; else one that
    /// isn't above the base.
    fn signature_upto(&self, seqno: u64) -> u64
        ensures { At stands self.now (λ b h.
            max h.base result ≡ max h.base (last_signature b (take seqno h.log))) };

    /// The seqno of the last evidence entry above the base and up to a seqno, if there is one.
    fn evidence_upto(&self, seqno: u64) -> Option<u64>
        ensures { At stands self.now (λ b h. result ≡ greatest_evidence b h.log h.base seqno) };

    /// The view of the entry at a seqno, 0 where there is none.
    fn view_at(&self, seqno: u64) -> u32
        ensures { At stands self.now (λ b h. result ≡ view_at b h.log seqno) };

    /// The view in which an entry was made.
    fn view_of(&self, entry: &Entry) -> u32
        ensures { At stands self.now (λ b h. result ≡ b.view_of entry.now) };

    /// Whether a signature of this view stands at a seqno, not below the base.
    fn is_signature_in(&self, view: u32, seqno: u64) -> bool
        ensures { At stands self.now (λ b h. h.base ≤ seqno →
            result ≡ is_signature_in b view (entry_at h.log seqno)) };

    /// Configurations that give the active ones of the ledger cut to a seqno, and those above
    /// commit, at each commit; neither seqno is below the base.
    fn configurations(&self, upto: u64) -> &[Configuration]
        ensures ascending { AllPairs (λ c d. c.seqno < d.seqno) result.now }
        ensures active { At stands self.now (λ b h. h.base ≤ upto → (commit : ℕ) →
            h.base ≤ commit →
            sets_of (active_of result.now commit) ≡ active b (take upto h.log) commit) }
        ensures above { At stands self.now (λ b h. h.base ≤ upto → (commit : ℕ) →
            h.base ≤ commit → sets_of (above commit result.now)
            ≡ configurations_above b (take upto h.log) commit (length (take upto h.log))) };

    /// The nodes that the ledger cut to a seqno, not below the base, records, in the order in which
    /// they were recorded.
    fn recorded_nodes(&self, upto: u64) -> &[NodeId]
        ensures { At stands self.now (λ b h. h.base ≤ upto →
            result.now ≡ b.recorded_nodes (take upto h.log)) };

    /// The seqno of the entry that removed a node, if there is one.
    fn removal(&self, node: &NodeId) -> Option<u64>
        ensures { At stands self.now (λ b h. result ≡ b.removal h.log node.now) };

    /// The seqno of the mark after its removal, if there is one. A mark below the base may be told
    /// by any seqno that isn't above the base.
    fn mark(&self, node: &NodeId) -> Option<u64>
        ensures { At stands self.now (λ b h. (commit : ℕ) → h.base ≤ commit →
            is_reached result commit ≡ is_reached (b.mark h.log node.now) commit) };

    /// The node that a request of governance marks, if it is a mark.
    fn marked_node(&self, request: &Self::Gov) -> Option<NodeId>
        ensures { At stands self.now (λ b h. result ≡ b.marked_node request.now) };

    /// Why a node can't be marked, if it can't.
    fn mark_refusal(&self, node: &NodeId) -> Option<Self::Refused>
        ensures { At stands self.now (λ b h. result ≡ b.mark_refusal h.log node.now) };

    /// The entries after a seqno, not below the base: as many as one message carries.
    fn batch(&self, after: u64) -> Result<Vec<Entry>, AllocError>
        ensures value { IfOk result (λ entries. At stands self.now (λ b h. h.base ≤ after →
            entries.items ≡ batch b (drop after h.log))) }
        ensures fits { IfOk result (λ entries. IsTrue (entries_fit entries.items)) };

    /// Takes an entry for a request, and tells its view and the answer.
    fn execute(
        &mut self,
        view: u32,
        request: &Self::Request,
    ) -> Result<(u32, Self::Response), OrNoMemory<Self::Refused>>
        ensures made { IfOk result (λ r. Enters stands self.old self.new (λ b h e.
            (b.execute h.log view request.now ≡ Ok (e, r.1)) × (r.0 ≡ b.view_of e))) }
        ensures refused { IfErr result (λ e. At stands self.old (λ b h.
            Fails e (b.execute h.log view request.now))) }
        ensures fits { IfOk result (λ r. fits r.1) }
        ensures err { OnErr result (Stays stands self.old self.new) }
        ensures snapshot { base_snapshot self.new ≡ base_snapshot self.old };

    /// Takes an entry for a request of governance, and tells its view and the answer.
    fn govern(
        &mut self,
        view: u32,
        request: &Self::Gov,
    ) -> Result<(u32, Self::Response), OrNoMemory<Self::Refused>>
        ensures made { IfOk result (λ r. Enters stands self.old self.new (λ b h e.
            (b.govern h.log view request.now ≡ Ok (e, r.1)) × (r.0 ≡ b.view_of e))) }
        ensures refused { IfErr result (λ e. At stands self.old (λ b h.
            Fails e (b.govern h.log view request.now))) }
        ensures fits { IfOk result (λ r. fits r.1) }
        ensures err { OnErr result (Stays stands self.old self.new) }
        ensures snapshot { base_snapshot self.new ≡ base_snapshot self.old };

    /// Takes a signature by this leaf that records this commit, not below the base, and tells its
    /// view.
    fn sign(&mut self, leaf: u64, view: u32, commit: u64) -> Result<u32, OrNoMemory<Self::Refused>>
        requires leaf { At stands self.old (λ b h. leaf < b.leaves h.me) }
        requires commit { At stands self.old (λ b h. h.base ≤ commit) }
        ensures made { IfOk result (λ r. Enters stands self.old self.new (λ b h e.
            (b.sign h.me leaf h.log view commit ≡ Ok e) × (r ≡ b.view_of e))) }
        ensures refused { IfErr result (λ e. At stands self.old (λ b h.
            Fails e (b.sign h.me leaf h.log view commit))) }
        ensures err { OnErr result (Stays stands self.old self.new) }
        ensures snapshot { base_snapshot self.new ≡ base_snapshot self.old };

    /// Takes an evidence entry, the digest of a snapshot of the ledger so far, and tells its view.
    fn evidence(&mut self, view: u32) -> Result<u32, OrNoMemory<Self::Refused>>
        ensures made { IfOk result (λ r. Enters stands self.old self.new (λ b h e.
            (b.evidence h.log view ≡ Ok e) × (r ≡ b.view_of e))) }
        ensures refused { IfErr result (λ e. At stands self.old (λ b h.
            Fails e (b.evidence h.log view))) }
        ensures err { OnErr result (Stays stands self.old self.new) }
        ensures snapshot { base_snapshot self.new ≡ base_snapshot self.old };

    /// Cuts the ledger to a seqno, not below the base, and appends these entries, each of which has
    /// to follow: on a copy, all or nothing.
    fn replace_tail(
        &mut self,
        seqno: u64,
        entries: &[Entry],
    ) -> Result<(), OrNoMemory<Self::Refused>>
        requires base { At stands self.old (λ b h. h.base ≤ seqno) }
        ensures replaced { IfOk result (λ r. Becomes stands self.old self.new (λ b h log.
            checked_append b h.base (take seqno h.log) entries.now ≡ Ok log)) }
        ensures refused { IfErr result (λ e. At stands self.old (λ b h.
            Fails e (checked_append b h.base (take seqno h.log) entries.now))) }
        ensures err { OnErr result (Stays stands self.old self.new) }
        ensures snapshot { base_snapshot self.new ≡ base_snapshot self.old };

    /// Cuts the ledger to a seqno, not below the base.
    fn cut(&mut self, to: u64)
        requires base { At stands self.old (λ b h. h.base ≤ to) }
        ensures becomes { Becomes stands self.old self.new (λ b h log. log ≡ take to h.log) }
        ensures snapshot { base_snapshot self.new ≡ base_snapshot self.old };
}
