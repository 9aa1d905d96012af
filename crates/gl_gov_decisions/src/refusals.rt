//! When a request of governance is refused, and why: the first cause that stands.

ghost use Rattle.std.specs.Prelude.{◌≡◌, true, IfOk};
ghost use Rattle.gl_requests.specs.Ranges.{is_member_request, is_request};
ghost use Rattle.gl_gov_rules.specs.Actions.{◌orelse◌};
ghost use Rattle.gl_gov_rules.specs.Refusals.{signed_refusal, act_refusal, refusal};

use crate::foundings::{genesis_refusal, recovery_refusal};
use crate::node_refusals::{join_refusal, mark_refusal};
use crate::proposal_refusals::{ballot_refusal, propose_refusal, withdraw_refusal};
use crate::share_refusals::share_refusal;
use crate::signature_refusals::signed_refusal;
use gl_gov_rules::{GovernanceRefusal, History};
use gl_requests::{GovernanceRequest, MemberAct, MemberRequest};
use std::alloc::{AllocError, Global};

/// What is wrong with what a member asks for.
#[tactic(auto, unfolding(gl_gov_rules::specs::Refusals::act_refusal))]
fn act_refusal(
    alloc: Global,
    past: &History,
    seqno: u64,
    request: &MemberRequest,
) -> Result<Option<GovernanceRefusal>, AllocError>
    requires { is_member_request request.now ≡ true }
    ensures { IfOk result (λ why.
        why ≡ act_refusal past.now seqno request.now request.now.act) }
{
    let member = request.member;
    match &request.act {
        MemberAct::Ack => Ok(None),
        MemberAct::Propose(actions) => {
            propose_refusal(alloc, past, seqno, request, actions.as_slice())
        }
        MemberAct::Ballot {
            proposal,
            agrees: _,
        } => Ok(ballot_refusal(past, member, proposal)),
        MemberAct::Withdraw { proposal } => Ok(withdraw_refusal(past, member, proposal)),
        MemberAct::Share { share } => share_refusal(alloc, past, member, share),
    }
}

/// What is wrong with a member's request: with who signed it, else with what it asks for.
fn member_refusal(
    alloc: Global,
    past: &History,
    seqno: u64,
    request: &MemberRequest,
) -> Result<Option<GovernanceRefusal>, AllocError>
    requires { is_member_request request.now ≡ true }
    ensures { IfOk result (λ why. why ≡ (signed_refusal past.now request.now
        orelse act_refusal past.now seqno request.now request.now.act)) }
{
    match signed_refusal(alloc, past, request)? {
        Some(why) => Ok(Some(why)),
        None => act_refusal(alloc, past, seqno, request),
    }
}

/// Why a request at a seqno is refused after a history, if it is.
#[tactic(auto, unfolding(gl_gov_rules::specs::Refusals::refusal))]
pub fn refusal(
    alloc: Global,
    past: &History,
    seqno: u64,
    request: &GovernanceRequest,
) -> Result<Option<GovernanceRefusal>, AllocError>
    requires fits { is_request request.now ≡ true }
    ensures refusal { IfOk result (λ why. why ≡ refusal past.now seqno request.now) }
{
    match request {
        GovernanceRequest::Genesis(genesis) => Ok(genesis_refusal(past, genesis)),
        GovernanceRequest::Recover(recovery) => Ok(recovery_refusal(past, recovery)),
        GovernanceRequest::Join(node) => Ok(join_refusal(past, node)),
        GovernanceRequest::Mark(id) => Ok(mark_refusal(past, id)),
        GovernanceRequest::Member(request) => member_refusal(alloc, past, seqno, request),
    }
}
