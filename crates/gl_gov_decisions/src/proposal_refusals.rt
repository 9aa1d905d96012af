//! What is wrong with a proposal, with a ballot on one, or with one that is taken back.

ghost use Rattle.std.specs.Prelude.{◌≡◌, true, IfOk};
ghost use Rattle.gl_requests.specs.Ranges.{is_member_request};
ghost use Rattle.gl_gov_rules.specs.Proposals.{proposal, is_open_state};
ghost use Rattle.gl_gov_rules.specs.Actions.{first_bad_action};
ghost use Rattle.gl_gov_rules.specs.Refusals.{bad_action_refusal, propose_refusal, open_refusal, ballot_refusal, proposer_refusal, withdraw_refusal};

use crate::actions::first_bad_action;
use crate::limits::MAX_OPEN_PROPOSALS;
use gl_gov_rules::{GovernanceRefusal, History, ProposalState};
use gl_requests::{Action, Digest, MemberRequest};
use std::alloc::{AllocError, Global};

/// The first action that is bad, as a refusal.
fn bad_action_refusal(past: &History, seqno: u64, actions: &[Action]) -> Option<GovernanceRefusal>
    ensures { result ≡ bad_action_refusal (first_bad_action past.now seqno 1 actions.now) }
{
    match first_bad_action(past, seqno, actions) {
        None => None,
        Some((index, cause)) => Some(GovernanceRefusal::BadAction { index, cause }),
    }
}

/// What is wrong with a proposal: as many are open as may be, an action of it is bad, or it was
/// made before.
#[tactic(auto, unfolding(gl_gov_rules::specs::Refusals::propose_refusal))]
pub(crate) fn propose_refusal(
    alloc: Global,
    past: &History,
    seqno: u64,
    request: &MemberRequest,
    actions: &[Action],
) -> Result<Option<GovernanceRefusal>, AllocError>
    requires { is_member_request request.now ≡ true }
    ensures { IfOk result (λ why. why ≡ propose_refusal past.now seqno request.now actions.now) }
{
    if MAX_OPEN_PROPOSALS as usize <= past.open_count() {
        return Ok(Some(GovernanceRefusal::TooMany {
            limit: MAX_OPEN_PROPOSALS,
        }));
    }
    if let Some(why) = bad_action_refusal(past, seqno, actions) {
        return Ok(Some(why));
    }
    let id = request.proposal_id(alloc)?;
    if past.proposal(&id).is_some() {
        Ok(Some(GovernanceRefusal::KnownProposal { id }))
    } else {
        Ok(None)
    }
}

fn is_open(state: ProposalState) -> bool
    ensures { result ≡ is_open_state state }
{
    matches!(state, ProposalState::Open)
}

/// Whether there is no such proposal, or it is open no more.
#[tactic(auto, unfolding(gl_gov_rules::specs::Refusals::open_refusal))]
fn open_refusal(past: &History, id: &Digest) -> Option<GovernanceRefusal>
    ensures { result ≡ open_refusal past.now (proposal past.now id.now) }
{
    match past.proposal(id) {
        None => Some(GovernanceRefusal::NoProposal),
        Some(proposal) => {
            let state = past.proposal_state(proposal);
            if is_open(state) {
                None
            } else {
                Some(GovernanceRefusal::NotOpen { state })
            }
        }
    }
}

/// What is wrong with a member's ballot.
#[tactic(auto, unfolding(gl_gov_rules::specs::Refusals::ballot_refusal))]
pub(crate) fn ballot_refusal(past: &History, member: u8, id: &Digest) -> Option<GovernanceRefusal>
    ensures { result ≡ ballot_refusal past.now member id.now }
{
    match open_refusal(past, id) {
        Some(why) => Some(why),
        None => {
            if past.has_ballot(id, member) {
                Some(GovernanceRefusal::HasBallot)
            } else {
                None
            }
        }
    }
}

/// Whether another member made the proposal.
fn proposer_refusal(past: &History, member: u8, id: &Digest) -> Option<GovernanceRefusal>
    ensures { result ≡ proposer_refusal member (proposal past.now id.now) }
{
    match past.proposal(id) {
        None => None,
        Some(proposal) => {
            if proposal.proposer == member {
                None
            } else {
                Some(GovernanceRefusal::NotProposer)
            }
        }
    }
}

/// What is wrong where a member takes a proposal back.
#[tactic(auto, unfolding(gl_gov_rules::specs::Refusals::withdraw_refusal))]
pub(crate) fn withdraw_refusal(past: &History, member: u8, id: &Digest) -> Option<GovernanceRefusal>
    ensures { result ≡ withdraw_refusal past.now member id.now }
{
    match open_refusal(past, id) {
        Some(why) => Some(why),
        None => proposer_refusal(past, member, id),
    }
}
