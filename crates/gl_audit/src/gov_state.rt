//! The state of governance after the requests so far.

ghost use Rattle.std.specs.Prelude.{◌≡◌, true, IfOk};
ghost use Rattle.gl_requests.specs.Ranges.{is_request};
ghost use Rattle.gl_gov_rules.specs.Service.{dealing, threshold_of};
ghost use Rattle.gl_gov_rules.specs.Governed.{is_founding};
ghost use Rattle.gl_gov_rules.specs.ProposalStatus.{status_with, proposal_status};
ghost use Rattle.gl_audit.specs.GovState.{share_count};

use crate::effect::{GovernanceEffect, ShareCount};
use gl_base::OrNoMemory;
use gl_gov::{
    Selection, changes, member_rows, node_rows, proposal_named, proposal_row, selected_rows,
    service_row, state_of, touched_by,
};
use gl_gov_decisions::{changes_of, refusal};
use gl_gov_rules::{
    Changed, GovernanceRefusal, GovernedRows, History, MemberRow, NodeRow, ProposalRow,
    ProposalStatus, Recorded, ServiceRow,
};
use gl_requests::{Digest, GovernanceRequest};
use gl_vmaps::Writes;
use std::alloc::{AllocError, Global};
use std::marker::Model;
use std::sync::Arc;

/// The requests of governance so far, each at the seqno of its entry; or those behind a base, of
/// which the rows of governance are known in place of the requests up to it. At every moment each
/// request was accepted after those before it.
#[derive(Drop)]
pub struct GovState {
    base: Option<Arc<GovernedRows>>,
    past: History,
    alloc: Global,
}

impl Model for GovState {
    ghost use Rattle.std.specs.Prelude.{option_map};
    ghost use Rattle.std.specs.Arc.{arc_value};
    ghost use Rattle.gl_audit.specs.GovState.{Governed, IsPastOf};

    ghost Value = { Governed };

    ghost view = { λ s.
        record { base = option_map arc_value s.base; requests = s.past.requests } };

    ghost invariant = { λ s.
        IsPastOf (record { base = option_map arc_value s.base; requests = s.past.requests })
        s.past };
}

impl GovState {
    ghost use Rattle.std.specs.Prelude.{◌≡◌, ◌<◌, ◌≤◌, ℕ, [], true, not, None, Some, length, map, filter, option_map, IfOk, OnOk, IfErr, IfSome, OnErr};
    ghost use Rattle.std.specs.Arc.{arc_value};
    ghost use Rattle.gl_vmaps.specs.Changes.{write_set, changes};
    ghost use Rattle.gl_requests.specs.Ranges.{is_request};
    ghost use Rattle.gl_gov_rules.specs.Refusals.{refusal};
    ghost use Rattle.gl_gov_rules.specs.Proposals.{proposal};
    ghost use Rattle.gl_gov_rules.specs.Changes.{changes_of, changed_at};
    ghost use Rattle.gl_gov_rules.specs.Rows.{all_rows, rows, service_row, member_rows, node_rows, proposal_row};
    ghost use Rattle.gl_gov_rules.specs.Governed.{is_founding};
    ghost use Rattle.gl_gov_rules.specs.declared.row.GovernedRows.{GovernedRows};
    ghost use Rattle.gl_gov_base.specs.GovernedOver.{base_seqno, is_unfounded, IsReadInOrder};
    ghost use Rattle.gl_gov_base.specs.Law.{writes_over};
    ghost use Rattle.gl_gov_rules.specs.ProposalStatus.{proposal_status};
    ghost use Rattle.gl_audit.specs.GovState.{Governed, IsGoverned, IsLater, Refuses, governed_up_to, history_of, last_seqno, share_count, ungoverned, with_recorded};
    ghost use Rattle.gl_gov.specs.Touched.{is_selected};

    /// No request yet.
    pub fn new(alloc: Global) -> Self
        ensures { result ≡ ungoverned }
    {
        GovState {
            base: None,
            past: History::new(alloc),
            alloc,
        }
    }

    /// No request behind the rows of a base yet.
    pub fn of_rows(alloc: Global, rows: Arc<GovernedRows>) -> Result<Self, AllocError>
        requires read { IsReadInOrder (Some (arc_value rows)) }
        ensures { IfOk result (λ state.
            state ≡ record { base = Some (arc_value rows); requests = [] }) }
    {
        let past = History::of_rows(alloc, &rows)?;
        Ok(GovState {
            base: Some(rows),
            past,
            alloc,
        })
    }

    /// The number of requests so far, those up to a base not counted.
    pub fn len(&self) -> usize
        ensures len { result ≡ length self.now.requests }
        ensures governed { IsGoverned self.now }
    {
        self.past.requests().len()
    }

    /// What the requests come to.
    pub fn history(&self) -> &History
        ensures history { result.now ≡ history_of self.now }
    {
        &self.past
    }

    /// Whether a service is founded: no request but a founding comes before that. Behind a base one
    /// is.
    pub fn is_founded(&self) -> bool
        ensures { result ≡ not (is_unfounded self.now.base self.now.requests) }
    {
        self.base.is_some() || !self.past.requests().is_empty()
    }

    /// The seqno of the base, 0 without one.
    fn base_seqno(&self) -> u64
        ensures { result ≡ base_seqno self.now.base }
    {
        match &self.base {
            None => 0,
            Some(rows) => rows.seqno,
        }
    }

    /// The seqno of the last request; that of the base where there is none, 0 without a base.
    pub fn last_seqno(&self) -> u64
        ensures last { result ≡ last_seqno self.now }
        ensures above { (seqno : ℕ) → result < seqno → IsLater seqno self.now }
    {
        match self.past.requests().last() {
            None => self.base_seqno(),
            Some(last) => last.seqno,
        }
    }

    /// Takes the request of the entry with a seqno, and tells what it does. Refused for the first
    /// rule that it breaks, if it breaks one. Running out of memory, too, leaves all as it was.
    pub fn step(
        &mut self,
        seqno: u64,
        request: &GovernanceRequest,
    ) -> Result<GovernanceEffect, OrNoMemory<GovernanceRefusal>>
        requires above { IsLater seqno self.old }
        requires founding { is_founding request.now
            ≡ is_unfounded self.old.base self.old.requests }
        requires fits { is_request request.now ≡ true }
        ensures accepted { OnOk result (refusal (history_of self.old) seqno request.now ≡ None) }
        ensures recorded { OnOk result (self.new
            ≡ with_recorded self.old (record { seqno = seqno; request = request.now })) }
        ensures writes { IfOk result (λ effect. effect.writes
            ≡ writes_over self.old.base self.old.requests
            (record { seqno = seqno; request = request.now })) }
        ensures proposal { IfOk result (λ effect.
            effect.proposal ≡ proposal_status (history_of self.new) request.now) }
        ensures shares { IfOk result (λ effect.
            effect.shares ≡ share_count (history_of self.new)) }
        ensures refused { IfErr result (λ e.
            Refuses (refusal (history_of self.old) seqno request.now) e) }
        ensures kept { OnErr result (self.new ≡ self.old) }
    {
        if let Some(why) = refusal(self.alloc, &self.past, seqno, request)? {
            return Err(OrNoMemory::Fault(why));
        }
        let recorded = Recorded {
            seqno,
            request: request.copy(self.alloc)?,
        };
        let changes = changes_of(self.alloc, &self.past, &recorded)?;
        let touched = touched_by(self.alloc, &self.past, &recorded, &changes)?;
        let selection = Selection::Touched(touched);
        let before = self.selected_rows(&selection)?;
        self.push(recorded, changes)?;
        match self.effect_since(&selection, &before, request) {
            Ok(effect) => Ok(effect),
            Err(_) => {
                self.take_back(seqno);
                Err(OrNoMemory::NoMemory)
            }
        }
    }

    /// What `step` would do: the effect of the request, or why it is refused. The state is as it
    /// was after it.
    pub fn effect(
        &mut self,
        seqno: u64,
        request: &GovernanceRequest,
    ) -> Result<GovernanceEffect, OrNoMemory<GovernanceRefusal>>
        requires above { IsLater seqno self.old }
        requires founding { is_founding request.now
            ≡ is_unfounded self.old.base self.old.requests }
        requires fits { is_request request.now ≡ true }
        ensures accepted { OnOk result (refusal (history_of self.old) seqno request.now ≡ None) }
        ensures writes { IfOk result (λ effect. effect.writes
            ≡ writes_over self.old.base self.old.requests
            (record { seqno = seqno; request = request.now })) }
        ensures proposal { IfOk result (λ effect. effect.proposal ≡ proposal_status (history_of
            (with_recorded self.old (record { seqno = seqno; request = request.now })))
            request.now) }
        ensures shares { IfOk result (λ effect. effect.shares ≡ share_count (history_of
            (with_recorded self.old (record { seqno = seqno; request = request.now })))) }
        ensures refused { IfErr result (λ e.
            Refuses (refusal (history_of self.old) seqno request.now) e) }
        ensures kept { self.new ≡ self.old }
    {
        let effect = self.step(seqno, request)?;
        self.take_back(seqno);
        Ok(effect)
    }

    /// Takes a request of which it is known that no rule refuses it, so that no signature is
    /// verified again. Running out of memory leaves all as it was.
    pub fn record(&mut self, seqno: u64, request: GovernanceRequest) -> Result<(), AllocError>
        requires above { IsLater seqno self.old }
        requires founding { is_founding request
            ≡ is_unfounded self.old.base self.old.requests }
        requires fits { is_request request ≡ true }
        requires accepted { refusal (history_of self.old) seqno request ≡ None }
        ensures recorded { OnOk result (self.new
            ≡ with_recorded self.old (record { seqno = seqno; request = request })) }
        ensures kept { OnErr result (self.new ≡ self.old) }
    {
        let recorded = Recorded { seqno, request };
        let changes = changes_of(self.alloc, &self.past, &recorded)?;
        self.push(recorded, changes)
    }

    /// Adds a request that no rule refuses, and the changes that it brings about. Running out of
    /// memory leaves all as it was.
    fn push(&mut self, recorded: Recorded, changes: Vec<Changed>) -> Result<(), AllocError>
        requires above { IsLater recorded.seqno self.old }
        requires founding { is_founding recorded.request
            ≡ is_unfounded self.old.base self.old.requests }
        requires fits { is_request recorded.request ≡ true }
        requires accepted { refusal (history_of self.old) recorded.seqno recorded.request ≡ None }
        requires brought { changes.items
            ≡ map (changed_at recorded.seqno) (changes_of (history_of self.old) recorded) }
        ensures recorded { OnOk result (self.new ≡ with_recorded self.old recorded) }
        ensures kept { OnErr result (self.new ≡ self.old) }
    {
        self.past.push_recorded(self.alloc, recorded, changes)?;
        Ok(())
    }

    /// What the last request did. The rows that it could change were these before it.
    fn effect_since(
        &self,
        selection: &Selection,
        before: &Writes,
        request: &GovernanceRequest,
    ) -> Result<GovernanceEffect, AllocError>
        requires fits { is_request request.now ≡ true }
        ensures writes { IfOk result (λ effect.
            effect.writes ≡ changes before.now
            (write_set (filter (is_selected selection.now) (all_rows (history_of self.now))))) }
        ensures proposal { IfOk result (λ effect.
            effect.proposal ≡ proposal_status (history_of self.now) request.now) }
        ensures shares { IfOk result (λ effect.
            effect.shares ≡ share_count (history_of self.now)) }
    {
        let after = self.selected_rows(selection)?;
        Ok(GovernanceEffect {
            writes: changes(self.alloc, before, &after)?,
            proposal: proposal_status(self.alloc, &self.past, request)?,
            shares: self.shares(),
        })
    }

    /// Takes back the last request, which stands at a seqno. Takes no memory.
    fn take_back(&mut self, seqno: u64)
        requires above_base { IfSome self.old.base (λ (b : GovernedRows). b.seqno < seqno) }
        ensures { (g : Governed) (request : GovernanceRequest) → IsLater seqno g →
            self.old ≡ with_recorded g (record { seqno = seqno; request = request }) →
            self.new ≡ g }
    {
        match seqno.checked_sub(1) {
            Some(before) => self.cut(before),
            None => self.past = History::new(self.alloc),
        }
    }

    /// Takes back the requests of entries above a seqno, which is not below the base. Takes no
    /// memory.
    pub fn cut(&mut self, to: u64)
        requires whole { IfSome self.old.base (λ (b : GovernedRows). b.seqno ≤ to) }
        ensures { self.new ≡ governed_up_to to self.old }
    {
        self.past.cut(to);
    }

    /// The same state in memory of its own but for the base's rows, which both share. Fails only
    /// where memory runs out.
    pub fn copy(&self) -> Result<Self, AllocError>
        ensures { IfOk result (λ copy. copy ≡ self.now) }
    {
        Ok(GovState {
            base: self.shared_base()?,
            past: self.past.copy(self.alloc)?,
            alloc: self.alloc,
        })
    }

    /// The rows of the base once more, if there is one.
    fn shared_base(&self) -> Result<Option<Arc<GovernedRows>>, AllocError>
        ensures { IfOk result (λ base. option_map arc_value base ≡ self.now.base) }
    {
        match &self.base {
            None => Ok(None),
            Some(rows) => Ok(Some(Arc::try_clone(rows)?)),
        }
    }

    /// The selected rows of the governance tables, ascending by map and key.
    fn selected_rows(&self, selection: &Selection) -> Result<Writes, AllocError>
        ensures rows { IfOk result (λ writes. writes
            ≡ write_set (filter (is_selected selection.now) (all_rows (history_of self.now)))) }
    {
        selected_rows(self.alloc, &self.past, selection)
    }

    /// All rows of the governance tables, ascending by map and key.
    pub fn rows(&self) -> Result<Writes, AllocError>
        ensures rows { IfOk result (λ writes. writes ≡ rows (history_of self.now)) }
    {
        self.selected_rows(&Selection::All)
    }

    /// The rows of all members that there ever were, in the order in which they came.
    pub fn members(&self) -> Result<Vec<MemberRow>, AllocError>
        ensures members { IfOk result (λ members.
            members.items ≡ member_rows (history_of self.now)) }
    {
        member_rows(self.alloc, &self.past)
    }

    /// The rows of all nodes that were ever recorded, in that order.
    pub fn nodes(&self) -> Result<Vec<NodeRow>, AllocError>
        ensures nodes { IfOk result (λ nodes. nodes.items ≡ node_rows (history_of self.now)) }
    {
        node_rows(self.alloc, &self.past)
    }

    /// What is known of the proposal with an identifier, if there is one.
    pub fn proposal(&self, id: &Digest) -> Result<Option<ProposalRow>, AllocError>
        ensures proposal { IfOk result (λ row. row
            ≡ option_map (proposal_row (history_of self.now))
            (proposal (history_of self.now) id.now)) }
    {
        match self.past.proposal(id) {
            None => Ok(None),
            Some(proposal) => Ok(Some(proposal_row(self.alloc, &self.past, proposal)?)),
        }
    }

    /// What is known of the service. `None` before it is founded.
    pub fn service(&self) -> Option<ServiceRow>
        ensures service { result ≡ service_row (history_of self.now) }
    {
        service_row(&self.past)
    }

    /// How many shares of the recovery secret are given, and how many the dealing asks for.
    pub fn shares(&self) -> ShareCount
        ensures shares { result ≡ share_count (history_of self.now) }
    {
        share_count(&self.past)
    }
}

/// Whether the request founds a service.
pub fn is_founding(request: &GovernanceRequest) -> bool
    ensures { result ≡ is_founding request.now }
{
    matches!(request, GovernanceRequest::Genesis(_))
}

/// A proposal's state, if there is such a proposal.
fn status_with(past: &History, id: Option<Digest>) -> Option<ProposalStatus>
    ensures { result ≡ status_with past.now id }
{
    let id = id?;
    let proposal = past.proposal(&id)?;
    Some(ProposalStatus {
        id: proposal.id,
        state: state_of(past, proposal),
    })
}

#[tactic(auto, unfolding(gl_gov_rules::specs::ProposalStatus::proposal_status))]
fn proposal_status(
    alloc: Global,
    past: &History,
    request: &GovernanceRequest,
) -> Result<Option<ProposalStatus>, AllocError>
    requires { is_request request.now ≡ true }
    ensures { IfOk result (λ status. status ≡ proposal_status past.now request.now) }
{
    Ok(status_with(past, proposal_named(alloc, request)?))
}

/// How many shares the dealing asks for.
fn threshold(past: &History) -> u8
    ensures { result ≡ threshold_of (dealing past.now) }
{
    match past.dealing() {
        None => 0,
        Some(dealing) => dealing.threshold,
    }
}

#[tactic(auto, unfolding(crate::specs::GovState::share_count))]
fn share_count(past: &History) -> ShareCount
    ensures { result ≡ share_count past.now }
{
    ShareCount {
        have: past.shares_given_count() as u64,
        need: threshold(past),
    }
}
