//! What is wrong with who signed a request, and how.

ghost use Rattle.std.specs.Prelude.{◌≡◌, true, IfOk};
ghost use Rattle.gl_requests.specs.Ranges.{is_act};
ghost use Rattle.gl_gov_rules.specs.Members.{member, is_ack};
ghost use Rattle.gl_gov_rules.specs.Service.{identity};
ghost use Rattle.gl_gov_rules.specs.Refusals.{key_in_force, signature_refusal, leaf_refusal, signed_refusal};

use crate::signatures::is_signed;
use gl_gov_rules::{GovernanceRefusal, History, leaf_of};
use gl_requests::{MemberAct, MemberRequest};
use std::alloc::{AllocError, Global};

fn is_ack(act: &MemberAct) -> bool
    ensures { result ≡ is_ack act.now }
{
    matches!(act, MemberAct::Ack)
}

/// The service's key, no bytes before a founding.
fn key_in_force(past: &History) -> &[u8]
    ensures { result.now ≡ key_in_force (identity past.now) }
{
    match past.identity() {
        None => &[],
        Some(key) => key,
    }
}

/// Whether there is no such member, or its signature isn't valid.
fn signature_refusal(
    alloc: Global,
    past: &History,
    request: &MemberRequest,
) -> Result<Option<GovernanceRefusal>, AllocError>
    requires { is_act request.now.act ≡ true }
    ensures { IfOk result (λ why.
        why ≡ signature_refusal past.now request.now (member past.now request.now.member)) }
{
    match past.member(request.member) {
        None => Ok(Some(GovernanceRefusal::NotMember)),
        Some(member) => {
            if is_signed(alloc, &member.key, key_in_force(past), request)? {
                Ok(None)
            } else {
                Ok(Some(GovernanceRefusal::Signature))
            }
        }
    }
}

/// Whether the leaf isn't above the last that the member used.
fn leaf_refusal(past: &History, request: &MemberRequest) -> Option<GovernanceRefusal>
    ensures { result ≡ leaf_refusal past.now request.now }
{
    let next = past.next_leaf(request.member);
    let got = leaf_of(request.signature.as_slice());
    if got < next {
        Some(GovernanceRefusal::LeafNotGreater {
            last: next - 1,
            got,
        })
    } else {
        None
    }
}

/// What is wrong with who signed, and how: a present member signs, which is active but for its Ack,
/// with a leaf above the last.
#[tactic(auto, unfolding(gl_gov_rules::specs::Refusals::signed_refusal))]
pub(crate) fn signed_refusal(
    alloc: Global,
    past: &History,
    request: &MemberRequest,
) -> Result<Option<GovernanceRefusal>, AllocError>
    requires { is_act request.now.act ≡ true }
    ensures { IfOk result (λ why. why ≡ signed_refusal past.now request.now) }
{
    if !past.is_present(request.member) {
        return Ok(Some(GovernanceRefusal::NotMember));
    }
    if !is_ack(&request.act) && !past.is_active(request.member) {
        return Ok(Some(GovernanceRefusal::NotActive));
    }
    match signature_refusal(alloc, past, request)? {
        Some(why) => Ok(Some(why)),
        None => Ok(leaf_refusal(past, request)),
    }
}
