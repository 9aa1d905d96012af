//! Requests against bytes that the Python program `examples/requests/make.py` makes.

ghost use Rattle.std.specs.Prelude.{◌≡◌, true};
ghost use Rattle.gl_requests.specs.Ranges.{is_member_request, is_request};

use gl_base::{CodeFault, OrNoMemory};
use gl_requests::{
    Action, GovernanceRequest, MemberRequest, Rule, ServiceState, actions_bytes, law_of_requests,
};
use std::alloc::Global;
use std::test::Fail;
use t_checks::{holds, same};

mod encoded;
mod faults;
mod samples;

// The SHA-256 digest of 56 bytes 07.
const NODE: [u8; 32] = [
    0x84, 0x9e, 0x69, 0x94, 0xb0, 0x2d, 0x46, 0x06, 0x80, 0xd1, 0xd4, 0xd9, 0xed, 0x69, 0x0a, 0xa3,
    0x58, 0x11, 0xc8, 0x80, 0x56, 0x98, 0x7e, 0x0b, 0x6c, 0xad, 0x0e, 0xb8, 0x5c, 0xb7, 0xd9, 0x8d,
];

// The SHA-256 digest of the proposal of all actions.
const PROPOSAL: [u8; 32] = [
    0x8a, 0xd2, 0x20, 0x49, 0xd0, 0x0a, 0x73, 0x7f, 0x3b, 0xa1, 0xce, 0x0e, 0xa4, 0x89, 0x6a, 0x86,
    0x88, 0x6f, 0x76, 0x63, 0xc9, 0x72, 0x76, 0xec, 0x39, 0x44, 0x7b, 0x9a, 0x0b, 0xb6, 0x90, 0xb3,
];

/// Whether these are the bytes of the request, of its copy, and of what is read from them.
fn is_encoded(
    alloc: Global,
    request: &GovernanceRequest,
    bytes: &[u8],
) -> Result<bool, OrNoMemory<CodeFault>>
    requires { is_request request.now ≡ true }
{
    let copy = request.copy(alloc)?;
    let again = GovernanceRequest::decode(alloc, bytes)?;
    Ok(
        request.encode(alloc)?.as_slice() == bytes
            && copy.encode(alloc)?.as_slice() == bytes
            && again.encode(alloc)?.as_slice() == bytes,
    )
}

/// The same of a member's request, which encodes itself as the whole request does.
fn is_member_encoded(
    alloc: Global,
    request: MemberRequest,
    bytes: &[u8],
) -> Result<bool, OrNoMemory<CodeFault>>
    requires { is_member_request request ≡ true }
{
    let same = request.encode(alloc)?.as_slice() == bytes;
    Ok(same && is_encoded(alloc, &GovernanceRequest::Member(request), bytes)?)
}

#[test]
fn encodes_requests_of_nodes(rt: HostRuntime) -> Result<(), Fail> {
    let alloc = rt.alloc();
    holds!(is_encoded(alloc, &samples::genesis(alloc)?, &encoded::genesis(alloc)?)?);
    holds!(is_encoded(
        alloc,
        &samples::recovery(alloc)?,
        &encoded::recovery(alloc)?,
    )?);
    holds!(is_encoded(alloc, &samples::join(alloc)?, &encoded::join(alloc)?)?);
    holds!(is_encoded(alloc, &samples::mark(), &encoded::mark(alloc)?)?);
    law_of_requests();
    Ok(())
}

#[test]
fn encodes_proposals(rt: HostRuntime) -> Result<(), Fail> {
    let alloc = rt.alloc();
    let (one, all) = (samples::proposal(alloc)?, samples::all_actions(alloc)?);
    same!(all.proposal_id(alloc)?, PROPOSAL);
    holds!(is_member_encoded(alloc, one, &encoded::proposal(alloc)?)?);
    holds!(is_member_encoded(alloc, all, &encoded::all_actions(alloc)?)?);
    Ok(())
}

#[test]
fn encodes_requests_of_members(rt: HostRuntime) -> Result<(), Fail> {
    let alloc = rt.alloc();
    let ballot = samples::ballot(alloc)?;
    let signed = ballot.signed_bytes(alloc, &[9; 60])?;
    holds!(signed.as_slice() == encoded::signed_ballot(alloc)?.as_slice());
    holds!(is_member_encoded(alloc, ballot, &encoded::ballot(alloc)?)?);
    holds!(is_member_encoded(alloc, samples::ack(alloc)?, &encoded::ack(alloc)?)?);
    let withdrawal = samples::withdrawal(alloc)?;
    holds!(is_member_encoded(alloc, withdrawal, &encoded::withdrawal(alloc)?)?);
    holds!(is_member_encoded(alloc, samples::share(alloc)?, &encoded::share(alloc)?)?);
    Ok(())
}

#[test]
fn encodes_the_parts_of_rows(rt: HostRuntime) -> Result<(), Fail> {
    let alloc = rt.alloc();
    same!(samples::node(alloc)?.id(), NODE);
    let actions = actions_bytes(alloc, samples::actions(alloc)?.as_slice())?;
    holds!(actions.as_slice() == encoded::actions(alloc)?.as_slice());
    let dealing = samples::dealing(alloc)?.bytes(alloc)?;
    holds!(dealing.as_slice() == encoded::dealing(alloc)?.as_slice());
    let rule = Rule {
        num: 513,
        den: 1027,
    };
    holds!(rule.bytes(alloc)?.as_slice() == [1, 2, 3, 4].as_slice());
    same!(ServiceState::WaitingForRecoveryShares.byte(), 3);
    same!(Action::RemoveNode([13; 32]).number(), 5);
    Ok(())
}
