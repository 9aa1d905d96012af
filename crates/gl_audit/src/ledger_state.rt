//! What the entries of a growing ledger come to, without the entries: those of a whole ledger, or
//! those behind the body of a snapshot.

ghost use Rattle.std.specs.Prelude.{◌≡◌, ◌+◌, ◌-◌, ◌≤◌, ◌<◌, ◌^◌, ℕ, List, [], ◌∷◌, ◌++◌, None, Some, take, length, nat_le, slice_get, true, false, vec_len, vec_capacity, IfOk, IfErr, IfSome, IfNone, OnOk, OnErr};
ghost use Rattle.std.specs.Arc.{arc_value};
ghost use Rattle.std.specs.List.{AllByRecursion};
ghost use Rattle.std.specs.List.Sorted.{IsPartitionPoint, IsPartitionedBy};
ghost use Rattle.gl_merkle.specs.Frontier.{HasLeaves, IsUnchanged, count_of};
ghost use Rattle.gl_vmaps.specs.Kept.{version_of};
ghost use Rattle.gl_vmaps.specs.Standing.{StandsFor};
ghost use Rattle.gl_vmaps.specs.Versions.{Placed, placed_at, written_by, up_to};
ghost use Rattle.gl_entry.specs.Entry.{is_signature};
ghost use Rattle.gl_entry.specs.Leaf.{leaf_of};
ghost use Rattle.gl_gov_rules.specs.GovernedRows.{governed_rows};
ghost use Rattle.gl_gov_base.specs.GovernedOver.{FollowsOver};
ghost use Rattle.gl_snapshot_body.specs.Body.{is_body};
ghost use Rattle.gl_audit.specs.GovState.{IsLater, governed_up_to, ungoverned, with_all_recorded};
ghost use Rattle.gl_ledger.specs.Recordings.{recorded_in};
ghost use Rattle.gl_ledger.specs.ServiceRow.{state_of_byte, state_of_value, identity_of_value, service_state, identity_in};
ghost use Rattle.gl_ledger.specs.Snapshot.{tables_over, writes_over};
ghost use Rattle.gl_ledger.specs.Broken.{broken_over};
ghost use Rattle.gl_ledger.specs.NodeKeys.{service_layers};
ghost use Rattle.gl_entry.specs.declared.entry.Entry.{Entry};
ghost use Rattle.gl_audit.specs.Kept.{Breaks};
ghost use Rattle.gl_audit.specs.Kept.{seqno_if, starts_up_to, key_of, IsStateOf, IsStateOver, IsState, ForStates, IsWhole, IsSettled};
ghost use Rattle.gl_ledger.specs.Behind.{start_if};
ghost use Rattle.gl_audit.specs.Ends.{IsRead, no_end, end_over, end_with, view_of};

use crate::gov_state::GovState;
use crate::known_nodes::KnownNodes;
use crate::ledger_end::{LedgerEnd, NO_ENTRIES};
use gl_base::OrNoMemory;
use gl_entry::{Content, Digest, Entry, leaf};
use gl_gov_rules::GovernedRows;
use gl_ledger::Broken;
use gl_merkle::Frontier;
use gl_requests::{GovernanceRequest, HssPublicKey, ServiceState};
use gl_snapshot_body::{Body, ViewStart};
use gl_vmaps::Tables;
use std::alloc::{AllocError, Global};
use std::sync::Arc;

mod rules;
mod signatures;
mod snapshot;

pub use signatures::{count_up_to, seqno_at};
use snapshot::{cut_starts, start_of};

/// The map of the service's row (CCF documentation, "Builtin Maps").
pub const SERVICE_MAP: &[u8] = b"public:ccf.gov.service";

/// The key of the service's row.
pub const SERVICE_KEY: &[u8] = b"s";

/// The base, how entries end, the seqnos of their signatures, where views start, the requests of
/// governance that they record, the tables that their write sets make, what these tell of the
/// service, the tree of their leaves, and the nodes whose endorsements were verified.
#[derive(Drop)]
pub struct LedgerState {
    pub(crate) base: u64,
    /// The view that the body of the base tells.
    pub(crate) base_view: u32,
    /// The commit that the body of the base tells.
    pub(crate) base_commit: u64,
    pub(crate) end: LedgerEnd,
    pub signatures: Vec<u64>,
    pub(crate) views: Vec<ViewStart>,
    pub gov: GovState,
    pub tables: Tables,
    pub service_state: ServiceState,
    pub identity: Option<HssPublicKey>,
    pub frontier: Frontier,
    pub(crate) known: KnownNodes,
    pub(crate) alloc: Global,
}

/// Any other byte than those of a service that is open or waits for shares counts as that of one
/// that opens.
fn state_of_byte(byte: u8) -> ServiceState
    ensures { result ≡ state_of_byte byte }
{
    if byte == ServiceState::Open.byte() {
        ServiceState::Open
    } else if byte == ServiceState::WaitingForRecoveryShares.byte() {
        ServiceState::WaitingForRecoveryShares
    } else {
        ServiceState::Opening
    }
}

/// The state that the service's row begins with.
fn state_of(value: &[u8]) -> ServiceState
    ensures { result ≡ state_of_value (Some value.now) }
{
    match value {
        [] => ServiceState::Opening,
        [state, ..] => state_of_byte(*state),
    }
}

fn state_in(tables: &Tables) -> ServiceState
    ensures { (ps : List Placed) → StandsFor tables.now ps →
        result ≡ service_state (written_by ps) }
{
    match tables.get(SERVICE_MAP, SERVICE_KEY) {
        None => ServiceState::Opening,
        Some(value) => state_of(value),
    }
}

/// The service's key, which stands in its row after two bytes.
pub(crate) fn key_in(value: &[u8]) -> Option<HssPublicKey>
    ensures { result ≡ key_of (identity_of_value (Some value.now)) }
{
    match value {
        [_, _, key @ ..] => key_from(key),
        _ => None,
    }
}

fn key_from(bytes: &[u8]) -> Option<HssPublicKey>
    ensures { result ≡ key_of bytes.now }
{
    match bytes.as_array::<60>() {
        None => None,
        Some(key) => Some(*key),
    }
}

fn identity_in(tables: &Tables) -> Option<HssPublicKey>
    ensures { (ps : List Placed) → StandsFor tables.now ps →
        result ≡ key_of (identity_in (written_by ps)) }
{
    match tables.get(SERVICE_MAP, SERVICE_KEY) {
        None => None,
        Some(value) => key_in(value),
    }
}

/// Takes the request that an entry records, if it records one. Running out of memory leaves all as
/// it was.
fn take_request(alloc: Global, gov: &mut GovState, entry: &Entry) -> Result<(), AllocError>
    requires follows { AllByRecursion (FollowsOver gov.old.base gov.old.requests)
        (recorded_in entry.now.seqno entry.now.content) }
    ensures recorded { OnOk result (gov.new
        ≡ with_all_recorded gov.old (recorded_in entry.now.seqno entry.now.content)) }
    ensures kept { OnErr result (gov.new ≡ gov.old) }
{
    let Content::Governance(bytes) = &entry.content else {
        return Ok(());
    };
    let request = match GovernanceRequest::decode(alloc, bytes.as_slice()) {
        Ok(request) => request,
        Err(OrNoMemory::NoMemory) => return Err(AllocError),
        Err(OrNoMemory::Fault(_)) => return Ok(()),
    };
    gov.record(entry.seqno, request)
}

/// Takes an entry's request and its writes. Running out of memory leaves both as they were.
fn take(
    alloc: Global,
    gov: &mut GovState,
    tables: &mut Tables,
    entry: &Entry,
) -> Result<(), AllocError>
    requires base { tables.old.base < entry.now.seqno }
    requires above { (map key : List ℕ) → version_of tables.old map key < entry.now.seqno }
    requires gov_above { IsLater entry.now.seqno gov.old }
    requires follows { AllByRecursion (FollowsOver gov.old.base gov.old.requests)
        (recorded_in entry.now.seqno entry.now.content) }
    ensures recorded { OnOk result (gov.new
        ≡ with_all_recorded gov.old (recorded_in entry.now.seqno entry.now.content)) }
    ensures written { OnOk result ((ps : List Placed) → StandsFor tables.old ps →
        StandsFor tables.new (ps ++ placed_at entry.now.seqno entry.now.writes)) }
    ensures base { OnOk result (tables.new.base ≡ tables.old.base) }
    ensures whole { OnOk result (tables.new.compacted ≡ tables.old.compacted) }
    ensures gov_kept { OnErr result (gov.new ≡ gov.old) }
    ensures tables_kept { OnErr result (tables.new ≡ tables.old) }
{
    take_request(alloc, gov, entry)?;
    if let Err(error) = tables.apply(entry.seqno, &entry.writes) {
        gov.cut(entry.seqno - 1);
        return Err(error);
    }
    Ok(())
}

impl LedgerState {
    /// Of no entries.
    pub fn new(alloc: Global) -> Result<Self, AllocError>
        ensures state { IfOk result (λ state. IsStateOf [] state) }
        ensures whole { IfOk result (λ state. IsWhole state) }
    {
        let state = LedgerState::empty(alloc)?;
        Ok(state)
    }

    /// Of no entries behind a base, of which the body of a snapshot tells, with its rows of
    /// governance as they were read. Fails only where memory runs out.
    pub fn at_base(
        alloc: Global,
        body: Body,
        governed: Arc<GovernedRows>,
    ) -> Result<Self, AllocError>
        requires fits { is_body body ≡ true }
        requires some { 0 < body.base }
        requires read { governed_rows body.base body.rows ≡ Ok (arc_value governed) }
        ensures state { IfOk result (λ state. IsStateOver body [] state) }
        ensures whole { IfOk result (λ state. IsWhole state) }
    {
        let end = LedgerEnd::at_base(&body);
        let Body {
            base,
            view,
            commit,
            views,
            peaks,
            rows,
        } = body;
        let mut signatures = Vec::new(alloc);
        signatures.push(base)?;
        let tables = Tables::at_base(alloc, base, rows)?;
        Ok(LedgerState {
            base,
            base_view: view,
            base_commit: commit,
            end,
            signatures,
            views: views.into_vec(),
            gov: GovState::of_rows(alloc, governed)?,
            service_state: state_in(&tables),
            identity: identity_in(&tables),
            tables,
            frontier: Frontier::at_base(alloc, base, peaks.as_slice())?,
            known: KnownNodes::new(alloc),
            alloc,
        })
    }

    fn empty(alloc: Global) -> Result<Self, AllocError>
        ensures no_base { IfOk result (λ state. state.base ≡ 0) }
        ensures no_view { IfOk result (λ state. state.base_view ≡ 0) }
        ensures no_commit { IfOk result (λ state. state.base_commit ≡ 0) }
        ensures end { IfOk result (λ state. state.end ≡ no_end) }
        ensures signatures { IfOk result (λ state. state.signatures.items ≡ []) }
        ensures views { IfOk result (λ state. state.views.items ≡ []) }
        ensures gov { IfOk result (λ state. state.gov ≡ ungoverned) }
        ensures tables { IfOk result (λ state. StandsFor state.tables []) }
        ensures from_start { IfOk result (λ state. state.tables.base ≡ 0) }
        ensures whole { IfOk result (λ state. state.tables.compacted ≡ 0) }
        ensures service_state { IfOk result (λ state. state.service_state ≡ ServiceState.Opening) }
        ensures identity { IfOk result (λ state. state.identity ≡ None) }
        ensures base { IfOk result (λ state. state.frontier.base ≡ 0) }
        ensures peaks { IfOk result (λ state. state.frontier.peaks ≡ []) }
        ensures leaves { IfOk result (λ state. state.frontier.leaves ≡ []) }
    {
        Ok(LedgerState {
            base: 0,
            base_view: 0,
            base_commit: 0,
            end: NO_ENTRIES,
            signatures: Vec::new(alloc),
            views: Vec::new(alloc),
            gov: GovState::new(alloc),
            tables: Tables::new(alloc),
            service_state: ServiceState::Opening,
            identity: None,
            frontier: Frontier::new(alloc)?,
            known: KnownNodes::new(alloc),
            alloc,
        })
    }

    /// Makes room for the leaves of so many more entries.
    fn reserve(&mut self, more: usize) -> Result<(), AllocError>
        ensures signatures { OnOk result
            (vec_len self.new.signatures + more ≤ vec_capacity self.new.signatures) }
        ensures views { OnOk result
            (vec_len self.new.views + more ≤ vec_capacity self.new.views) }
        ensures frontier { OnOk result (more ≤ self.new.frontier.spare) }
        ensures base_kept { self.new.base ≡ self.old.base }
        ensures view_kept { self.new.base_view ≡ self.old.base_view }
        ensures commit_kept { self.new.base_commit ≡ self.old.base_commit }
        ensures end_kept { self.new.end ≡ self.old.end }
        ensures signatures_kept { self.new.signatures.items ≡ self.old.signatures.items }
        ensures views_kept { self.new.views.items ≡ self.old.views.items }
        ensures gov_kept { self.new.gov ≡ self.old.gov }
        ensures tables_kept { self.new.tables ≡ self.old.tables }
        ensures state_kept { self.new.service_state ≡ self.old.service_state }
        ensures identity_kept { self.new.identity ≡ self.old.identity }
        ensures leaves_kept { IsUnchanged self.old.frontier self.new.frontier }
    {
        self.frontier.reserve(more)?;
        self.signatures.reserve(more)?;
        self.views.reserve(more)?;
        Ok(())
    }

    /// Adds an entry's leaf, for which there is room.
    fn add(&mut self, entry: &Entry, leaf: Digest)
        requires len { self.old.end.len < u64.MAX }
        requires read { IsRead entry.now }
        requires signatures { vec_len self.old.signatures < vec_capacity self.old.signatures }
        requires views { vec_len self.old.views < vec_capacity self.old.views }
        requires frontier { 0 < self.old.frontier.spare }
        ensures base_kept { self.new.base ≡ self.old.base }
        ensures view_kept { self.new.base_view ≡ self.old.base_view }
        ensures commit_kept { self.new.base_commit ≡ self.old.base_commit }
        ensures end { self.new.end ≡ end_with self.old.end entry.now }
        ensures signatures { self.new.signatures.items ≡ self.old.signatures.items
            ++ seqno_if (is_signature entry.now.content) entry.now.seqno [] }
        ensures views { self.new.views.items
            ≡ self.old.views.items ++ start_if (view_of self.old.end.last) entry.now }
        ensures gov { self.new.gov ≡ self.old.gov }
        ensures tables { self.new.tables ≡ self.old.tables }
        ensures state { self.new.service_state ≡ self.old.service_state }
        ensures identity { self.new.identity ≡ self.old.identity }
        ensures leaves { HasLeaves self.old.frontier self.new.frontier
            (self.old.frontier.leaves ++ leaf ∷ []) }
    {
        if self.frontier.push(leaf).is_err() {
            unreachable!();
        }
        if matches!(entry.content, Content::Signature(_)) {
            self.signatures.push_reserved(entry.seqno);
        }
        if entry.view != self.view() {
            self.views.push_reserved(start_of(entry));
        }
        self.end = self.end.with(entry);
    }

    /// Takes what an entry makes, after which the tables tell the service's key. A request that it
    /// records follows those before it. Running out of memory leaves all as it was.
    fn push_made(&mut self, entry: &Entry) -> Result<(), AllocError>
        requires len { self.old.end.len < u64.MAX }
        requires read { IsRead entry.now }
        requires base { self.old.tables.base < entry.now.seqno }
        requires above { (map key : List ℕ) →
            version_of self.old.tables map key < entry.now.seqno }
        requires gov_above { IsLater entry.now.seqno self.old.gov }
        requires follows { AllByRecursion (FollowsOver self.old.gov.base self.old.gov.requests)
            (recorded_in entry.now.seqno entry.now.content) }
        requires keyed { (ps : List Placed) × StandsFor self.old.tables ps
            × (length (identity_in (written_by
            (ps ++ placed_at entry.now.seqno entry.now.writes))) ≡ 60) }
        ensures base_kept { self.new.base ≡ self.old.base }
        ensures view_kept { self.new.base_view ≡ self.old.base_view }
        ensures commit_kept { self.new.base_commit ≡ self.old.base_commit }
        ensures end { OnOk result (self.new.end ≡ end_with self.old.end entry.now) }
        ensures signatures { OnOk result (self.new.signatures.items ≡ self.old.signatures.items
            ++ seqno_if (is_signature entry.now.content) entry.now.seqno []) }
        ensures views { OnOk result (self.new.views.items
            ≡ self.old.views.items ++ start_if (view_of self.old.end.last) entry.now) }
        ensures gov { OnOk result (self.new.gov
            ≡ with_all_recorded self.old.gov (recorded_in entry.now.seqno entry.now.content)) }
        ensures tables { OnOk result ((ps : List Placed) → StandsFor self.old.tables ps →
            StandsFor self.new.tables (ps ++ placed_at entry.now.seqno entry.now.writes)) }
        ensures base { OnOk result (self.new.tables.base ≡ self.old.tables.base) }
        ensures whole { OnOk result (self.new.tables.compacted ≡ self.old.tables.compacted) }
        ensures state { OnOk result ((ps : List Placed) → StandsFor self.new.tables ps →
            self.new.service_state ≡ service_state (written_by ps)) }
        ensures identity { OnOk result ((ps : List Placed) → StandsFor self.new.tables ps →
            self.new.identity ≡ key_of (identity_in (written_by ps))) }
        ensures leaves { OnOk result ((ps : List Placed) → StandsFor self.new.tables ps →
            HasLeaves self.old.frontier self.new.frontier
            (self.old.frontier.leaves ++ leaf_of (identity_in (written_by ps)) entry.now ∷ [])) }
        ensures end_kept { OnErr result (self.new.end ≡ self.old.end) }
        ensures signatures_kept { OnErr result
            (self.new.signatures.items ≡ self.old.signatures.items) }
        ensures views_kept { OnErr result (self.new.views.items ≡ self.old.views.items) }
        ensures gov_kept { OnErr result (self.new.gov ≡ self.old.gov) }
        ensures tables_kept { OnErr result (self.new.tables ≡ self.old.tables) }
        ensures state_kept { OnErr result (self.new.service_state ≡ self.old.service_state) }
        ensures identity_kept { OnErr result (self.new.identity ≡ self.old.identity) }
        ensures leaves_kept { OnErr result (IsUnchanged self.old.frontier self.new.frontier) }
    {
        self.reserve(1)?;
        take(self.alloc, &mut self.gov, &mut self.tables, entry)?;
        self.service_state = state_in(&self.tables);
        self.identity = identity_in(&self.tables);
        let Some(identity) = &self.identity else {
            unreachable!();
        };
        let leaf = leaf(entry, identity);
        self.add(entry, leaf);
        Ok(())
    }

    /// Takes an entry that breaks no rule after the ledger. Running out of memory leaves all as it
    /// was.
    pub fn push(&mut self, entry: &Entry) -> Result<(), AllocError>
        requires unbroken { (body : Body) × (es : List Entry) × IsStateOver body es self.old
            × (broken_over service_layers body es entry.now ≡ None) }
        ensures grown { OnOk result (ForStates self.old (λ body es.
            broken_over service_layers body es entry.now ≡ None →
            IsStateOver body (es ++ entry.now ∷ []) self.new)) }
        ensures err { OnErr result (ForStates self.old (λ body es.
            IsStateOver body es self.new)) }
        ensures whole { IsWhole self.old → IsWhole self.new }
    {
        self.push_made(entry)?;
        Ok(())
    }

    /// Takes an entry that another node made. Refused for the first rule of the audit that it
    /// breaks after the ledger, if it breaks one. Running out of memory, too, leaves all as it was.
    pub fn apply(&mut self, entry: &Entry) -> Result<(), OrNoMemory<Broken>>
        requires state { IsState self.old }
        ensures unbroken { OnOk result (ForStates self.old (λ body es.
            broken_over service_layers body es entry.now ≡ None)) }
        ensures grown { OnOk result (ForStates self.old (λ body es.
            IsStateOver body (es ++ entry.now ∷ []) self.new)) }
        ensures refused { IfErr result (λ e. ForStates self.old (λ body es.
            Breaks (broken_over service_layers body es entry.now) e)) }
        ensures err { OnErr result (ForStates self.old (λ body es.
            IsStateOver body es self.new)) }
        ensures whole { IsWhole self.old → IsWhole self.new }
    {
        if let Some(broken) = self.broken(entry)? {
            return Err(OrNoMemory::Fault(broken));
        }
        self.push(entry)?;
        self.learn_signer(entry);
        Ok(())
    }

    /// Knows the node that signed an entry from now on, where that is a signature: the endorsement
    /// that was recorded of it is verified once.
    fn learn_signer(&mut self, entry: &Entry)
        ensures { self.new ≡ record self.old { known = self.new.known } }
    {
        if let Content::Signature(signature) = &entry.content
            && let Some(identity) = &self.identity
            && let Some(node) = self.gov.history().node(&signature.node)
        {
            self.known.learn(identity, node);
        }
    }

    /// Lets go of what only a cut or a receipt needs: of each row the versions but for its last
    /// one, and the leaves of the tree but for the roots of its complete subtrees. Fails only where
    /// memory runs out.
    pub fn settle(&mut self) -> Result<(), AllocError>
        ensures state { ForStates self.old (λ body es. IsStateOver body es self.new) }
        ensures settled { OnOk result (ForStates self.old (λ body es.
            IsSettled (body.base + length es) self.old self.new)) }
    {
        let len = self.frontier.len();
        let peaks = self.frontier.peaks(len)?;
        self.frontier = Frontier::at_base(self.alloc, len, &peaks)?;
        self.tables.compact(len);
        Ok(())
    }

    /// How the ledger ends.
    pub fn end(&self) -> LedgerEnd
        ensures { ForStates self.now (λ body es. result ≡ end_over body es) }
    {
        self.end
    }

    /// The tables that the entries' write sets make.
    pub fn tables(&self) -> &Tables
        ensures { ForStates self.now (λ body es. StandsFor result.now (writes_over body es)) }
    {
        &self.tables
    }

    /// The service's key, as the ledger has it. `None` where there is no entry.
    pub fn identity(&self) -> Option<&HssPublicKey>
        ensures some { IfSome result (λ key. ForStates self.now (λ body es.
            key.now ≡ identity_in (tables_over body es))) }
        ensures none { IfNone result (ForStates self.now (λ body es.
            (body.base ≡ 0) × (es ≡ []))) }
    {
        match &self.identity {
            None => None,
            Some(key) => Some(key),
        }
    }

    /// Takes back what the entries above a seqno made, where those up to it end so. Takes no
    /// memory.
    pub fn cut(&mut self, to: u64, end: LedgerEnd)
        requires state { IsState self.old }
        requires from_base { self.old.frontier.base ≤ to }
        requires within { to ≤ self.old.end.len }
        requires whole { self.old.tables.compacted ≤ to }
        ensures cut { ForStates self.old (λ body es.
            end ≡ end_over body (take (to - body.base) es) →
            IsStateOver body (take (to - body.base) es) self.new) }
        ensures whole { IsWhole self.old → IsWhole self.new }
    {
        let signed = count_up_to(&self.signatures, to);
        self.end = end;
        self.signatures.truncate(signed);
        cut_starts(&mut self.views, to);
        self.gov.cut(to);
        self.tables.cut(to);
        self.frontier.cut(to);
        self.service_state = state_in(&self.tables);
        self.identity = identity_in(&self.tables);
    }

    /// The same in memory of its own.
    pub fn copy(&self, alloc: Global) -> Result<Self, AllocError>
        ensures state { IfOk result (λ state. ForStates self.now (λ body es.
            IsStateOver body es state)) }
        ensures whole { IfOk result (λ state. IsWhole self.now → IsWhole state) }
    {
        Ok(LedgerState {
            base: self.base,
            base_view: self.base_view,
            base_commit: self.base_commit,
            end: self.end,
            signatures: Vec::from_slice(alloc, &self.signatures)?,
            views: Vec::from_slice(alloc, &self.views)?,
            gov: self.gov.copy()?,
            tables: self.tables.copy()?,
            service_state: self.service_state,
            identity: self.identity,
            frontier: self.frontier.copy()?,
            known: KnownNodes::new(alloc),
            alloc,
        })
    }
}
