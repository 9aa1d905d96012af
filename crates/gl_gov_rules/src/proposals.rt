//! Proposals, the ballots on them, and the state of each.

ghost use Rattle.std.specs.Prelude.{◌≡◌, true, IfOk};
ghost use Rattle.std.specs.Option.{option_copied};
ghost use Rattle.std.specs.List.{position};
ghost use Rattle.gl_gov_rules.specs.Index.{is_same_proposal};
ghost use Rattle.gl_requests.specs.Ranges.{is_member_request, is_request};
ghost use Rattle.gl_gov_rules.specs.Proposals.{proposal_in_act, proposal_in, state_settled, settling_in, is_answer_on, is_ballot};

use crate::ballots::has_vote;
use crate::change::{Change, Proposal, ProposalState, Recorded, Settling};
use crate::history::History;
use crate::settlings::{settled_state, settling_in};
use gl_requests::{Action, Digest, GovernanceRequest, MemberAct, MemberRequest, copy_actions};
use std::alloc::{AllocError, Global};

/// The proposal that a member's request at a seqno makes.
fn proposal_in_act(
    alloc: Global,
    seqno: u64,
    request: &MemberRequest,
) -> Result<Option<Proposal>, AllocError>
    requires { is_member_request request.now ≡ true }
    ensures { IfOk result (λ proposal.
        proposal ≡ proposal_in_act seqno request.now request.now.act) }
{
    match &request.act {
        MemberAct::Propose(actions) => Ok(Some(Proposal {
            id: request.proposal_id(alloc)?,
            seqno,
            proposer: request.member,
            actions: copy_actions(alloc, actions.as_slice())?,
        })),
        _ => Ok(None),
    }
}

/// The proposal that the request at a seqno makes.
pub(crate) fn proposal_in(
    alloc: Global,
    seqno: u64,
    request: &GovernanceRequest,
) -> Result<Option<Proposal>, AllocError>
    requires { is_request request.now ≡ true }
    ensures { IfOk result (λ proposal. proposal ≡ proposal_in seqno request.now) }
{
    match request {
        GovernanceRequest::Member(request) => proposal_in_act(alloc, seqno, request),
        _ => Ok(None),
    }
}

/// The state in which the change at a seqno settles the proposal.
pub(crate) fn state_settled(
    proposal: &Proposal,
    seqno: u64,
    change: &Change,
) -> Option<ProposalState>
    ensures { result ≡ state_settled proposal.now seqno change.now }
{
    match change {
        Change::Recovered(_) | Change::Applied(Action::SetConstitution(_)) => {
            if proposal.seqno < seqno {
                Some(ProposalState::Dropped)
            } else {
                None
            }
        }
        Change::Settled(id, state) => {
            if proposal.id == *id {
                Some(*state)
            } else {
                None
            }
        }
        _ => None,
    }
}

/// The place of this proposal among these, if it is one of them.
fn place_of(proposals: &[Proposal], proposal: &Proposal) -> Option<usize>
    ensures { result ≡ position (is_same_proposal proposal.now) proposals.now }
{
    proposals.iter().position(|other| proposal.seqno == other.seqno && proposal.id == other.id)
}

/// Whether what a member asks for is a ballot on this proposal, with this answer.
fn is_answer_on(id: &Digest, agrees: bool, act: &MemberAct) -> bool
    ensures { result ≡ is_answer_on id.now agrees act.now }
{
    match act {
        MemberAct::Ballot {
            proposal,
            agrees: given,
        } => proposal == id && *given == agrees,
        _ => false,
    }
}

/// Whether the request is the member's ballot on this proposal, with this answer.
pub fn is_ballot(id: &Digest, number: u8, agrees: bool, request: &GovernanceRequest) -> bool
    ensures { result ≡ is_ballot id.now number agrees request.now }
{
    match request {
        GovernanceRequest::Member(request) => {
            request.member == number && is_answer_on(id, agrees, &request.act)
        }
        _ => false,
    }
}

impl History {
    ghost use Rattle.gl_gov_rules.specs.Proposals.{proposal, proposal_state, open_count, answers_of, has_answered, has_ballot};

    /// The proposal with this identifier, if there is one.
    #[tactic(auto, unfolding(crate::specs::Proposals::proposal))]
    pub fn proposal(&self, id: &Digest) -> Option<&Proposal>
        ensures { option_copied result ≡ proposal self.now id.now }
    {
        self.proposals().iter().find(|proposal| proposal.id == *id)
    }

    /// The state in which the first change settles the proposal; with none it is open.
    #[tactic(auto, using(crate::proofs::Settled::state_settled_in))]
    pub fn proposal_state(&self, proposal: &Proposal) -> ProposalState
        ensures { result ≡ proposal_state self.now proposal.now }
    {
        settled_state(self.settling(proposal))
    }

    /// What settled the proposal. One that was not made here is looked for among all changes.
    fn settling(&self, proposal: &Proposal) -> Option<Settling>
        ensures { result ≡ settling_in self.now.changes proposal.now }
    {
        if let Some(place) = place_of(self.proposals(), proposal) {
            if let Some(settling) = self.settlings().get(place) {
                return *settling;
            }
        }
        settling_in(self.changes(), proposal)
    }

    /// How many proposals are open.
    #[tactic(auto, using(crate::proofs::Settled::open_is))]
    pub fn open_count(&self) -> usize
        ensures { result ≡ open_count self.now }
    {
        self.settlings()
            .iter()
            .filter(|settling| matches!(settled_state(**settling), ProposalState::Open))
            .count()
    }

    /// Whether the member gave this answer to this proposal.
    #[tactic(auto, using(crate::proofs::HistoryIndex::answered_any))]
    pub fn has_answered(&self, id: &Digest, agrees: bool, number: u8) -> bool
        ensures { result ≡ has_answered (answers_of self.now) id.now agrees number }
    {
        has_vote(self.ballots(id), agrees, number)
    }

    /// Whether the member answered this proposal.
    #[tactic(auto, unfolding(crate::specs::Proposals::has_ballot))]
    pub fn has_ballot(&self, id: &Digest, number: u8) -> bool
        ensures { result ≡ has_ballot (answers_of self.now) id.now number }
    {
        self.has_answered(id, true, number) || self.has_answered(id, false, number)
    }
}
