//! What a store makes of requests of governance.

ghost use Rattle.std.specs.Prelude.{◌≡◌, ◌==◌, ◌+◌, ◌≤◌, ◌<◌, ◌^◌, [], ◌∷◌, ◌++◌, true, false, None, Ok, length, IfOk, IfErr, OnOk, OnErr};
ghost use Rattle.gl_base.specs.TxId.{last_seqno};
ghost use Rattle.gl_entry.specs.Entry.{is_entry, body_bytes, body_limit, content_bytes};
ghost use Rattle.gl_requests.specs.Ranges.{is_genesis, is_request};
ghost use Rattle.gl_gov_rules.specs.Governed.{is_founding, is_recovery};
ghost use Rattle.gl_audit.specs.GovState as steps;

use super::Store;
use gl_audit::GovernanceEffect;
use gl_base::{FIRST_VIEW, OrNoMemory, TxId};
use gl_entry::Entry;
use gl_gov_rules::GovernanceRefusal;
use gl_ledger::Refusal;
use gl_requests::{Genesis, GovernanceRequest};
use std::alloc::AllocError;

impl Store {
    ghost use Rattle.gl_gov_rules.specs.Changes.{history};
    ghost use Rattle.gl_gov_rules.specs.History.{no_history};
    ghost use Rattle.gl_gov_rules.specs.Refusals.{refusal, genesis_refusal};
    ghost use Rattle.gl_gov_rules.specs.Rows.{effect_writes};
    ghost use Rattle.gl_gov_rules.specs.ProposalStatus.{proposal_status};
    ghost use Rattle.gl_audit.specs.GovState.{share_count};
    ghost use Rattle.gl_ledger.specs.Ledger.{HasViewsUpTo, genesis_entry, governance_entry};
    ghost use Rattle.gl_ledger.specs.Recordings.{last_entry, requests_of};
    ghost use Rattle.gl_ledger.specs.Makers.{governance_made, govern_result, status_after};
    ghost use Rattle.gl_store.specs.Calls.{Governs, Refuses};
    ghost use Rattle.gl_ledger.specs.Past.{is_unopened};

    /// Takes a request of governance that founds no service, and makes its entry, in a view that
    /// isn't below that of any entry before. A genesis comes by `found`, a recovery by
    /// `recover_service`. Gives the entry's identifier and what the request did. Refused, in this
    /// order, for what it asks, where the entry's body has more than 1 MiB, and where no seqno is
    /// left. Running out of memory, too, leaves the store as it was.
    pub fn govern(
        &mut self,
        view: u32,
        request: &GovernanceRequest,
    ) -> Result<(TxId, GovernanceEffect), OrNoMemory<Refusal>>
        requires up_to { HasViewsUpTo view self.old.ledger }
        requires some { 0 < length self.old.ledger }
        requires opened { is_unopened (last_entry self.old.ledger) ≡ false }
        requires fits { is_request request.now ≡ true }
        requires founding { is_founding request.now ≡ false }
        requires recovery { is_recovery request.now ≡ false }
        ensures made { IfOk result (λ made. Governs self.old view request.now made.0 self.new) }
        ensures writes { IfOk result (λ made. made.1.writes
            ≡ effect_writes (requests_of self.old.ledger)
            (record { seqno = length self.old.ledger + 1; request = request.now })) }
        ensures proposal { IfOk result (λ made. made.1.proposal
            ≡ proposal_status (history (requests_of self.new.ledger)) request.now) }
        ensures status { IfOk result (λ made.
            made.1.proposal ≡ status_after self.old.ledger request.now) }
        ensures shares { IfOk result (λ made.
            made.1.shares ≡ share_count (history (requests_of self.new.ledger))) }
        ensures refused { IfErr result (λ e.
            Refuses (govern_result self.old.ledger view request.now) e) }
        ensures err { OnErr result (self.new ≡ self.old) }
    {
        let seqno = self.next_seqno();
        let (entry, effect) = self.entry_of_governance(view, request)?;
        self.push(entry)?;
        Ok((TxId { view, seqno }, effect))
    }

    /// The entry that a request of governance makes after the ledger in a view, and what the
    /// request does. The ledger stays without it. Refused as by `govern`.
    pub fn entry_of_governance(
        &mut self,
        view: u32,
        request: &GovernanceRequest,
    ) -> Result<(Entry, GovernanceEffect), OrNoMemory<Refusal>>
        requires some { 0 < length self.old.ledger }
        requires fits { is_request request.now ≡ true }
        requires founding { is_founding request.now ≡ false }
        requires recovery { is_recovery request.now ≡ false }
        ensures made { IfOk result (λ made.
            govern_result self.old.ledger view request.now
            ≡ Ok (governance_made self.old.ledger request.now made.0)) }
        ensures accepted { OnOk result (refusal (history (requests_of self.old.ledger))
            (length self.old.ledger + 1) request.now ≡ None) }
        ensures left { OnOk result (length self.old.ledger < last_seqno) }
        ensures fits { IfOk result (λ made. is_entry made.0 ≡ true) }
        ensures writes { IfOk result (λ made. made.1.writes
            ≡ effect_writes (requests_of self.old.ledger)
            (record { seqno = length self.old.ledger + 1; request = request.now })) }
        ensures proposal { IfOk result (λ made. made.1.proposal ≡ proposal_status
            (history (requests_of (self.old.ledger ++ made.0 ∷ []))) request.now) }
        ensures status { IfOk result (λ made.
            made.1.proposal ≡ status_after self.old.ledger request.now) }
        ensures shares { IfOk result (λ made. made.1.shares
            ≡ share_count (history (requests_of (self.old.ledger ++ made.0 ∷ [])))) }
        ensures refused { IfErr result (λ e.
            Refuses (govern_result self.old.ledger view request.now) e) }
        ensures kept { self.new ≡ self.old }
    {
        self.tail.entry_of_governance(view, request)
    }

    /// The entry of a request of governance after the ledger. The ledger stays without it. Refused
    /// where the rules of governance refuse it.
    pub(super) fn governance_entry(
        &mut self,
        view: u32,
        request: &GovernanceRequest,
    ) -> Result<Entry, OrNoMemory<GovernanceRefusal>>
        requires founding { is_founding request.now ≡ (length self.old.ledger == 0) }
        requires fits { is_request request.now ≡ true }
        ensures accepted { OnOk result (refusal (history (requests_of self.old.ledger))
            (length self.old.ledger + 1) request.now ≡ None) }
        ensures made { IfOk result (λ entry.
            entry ≡ governance_entry request.now self.old.ledger view) }
        ensures recorded { IfOk result (λ entry. length (content_bytes entry.content) < 2 ^ 32) }
        ensures written { IfOk result (λ entry. length entry.writes < 2 ^ 32) }
        ensures entry { IfOk result (λ entry.
            length (body_bytes entry) ≤ body_limit → is_entry entry ≡ true) }
        ensures refused { IfErr result (λ e. steps.Refuses (refusal
            (history (requests_of self.old.ledger)) (length self.old.ledger + 1) request.now) e) }
        ensures kept { self.new ≡ self.old }
    {
        let (entry, _) = self.tail.governance_entry(view, request)?;
        Ok(entry)
    }

    /// The entry of a genesis in a store of no entries.
    pub(super) fn genesis_entry(&mut self, genesis: Genesis) -> Result<Entry, AllocError>
        requires first { self.old.ledger ≡ [] }
        requires accepted { genesis_refusal no_history genesis ≡ None }
        requires fits { is_genesis genesis ≡ true }
        ensures made { IfOk result (λ entry. entry ≡ genesis_entry genesis) }
        ensures fits { IfOk result (λ entry. is_entry entry ≡ true) }
        ensures kept { self.new ≡ self.old }
    {
        let request = GovernanceRequest::Genesis(genesis);
        match self.governance_entry(FIRST_VIEW, &request) {
            Ok(entry) => Ok(entry),
            Err(OrNoMemory::NoMemory) => Err(AllocError),
            Err(OrNoMemory::Fault(_)) => unreachable!(),
        }
    }
}
