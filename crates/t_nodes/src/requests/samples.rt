//! The requests of `examples/requests/make.py`.

ghost use Rattle.std.specs.Prelude.{◌≡◌, true, IfOk};
ghost use Rattle.gl_requests.specs.Ranges.{are_counted, is_node, is_dealing, are_rules, are_actions, is_act, is_member_number, is_signature_field, is_member_request, is_request};

use gl_base::{Bytes, Sequence};
use gl_requests::{
    Action, Dealing, Genesis, GovernanceRequest, MemberAct, MemberRequest, NewMember, NewNode,
    Recovery, Rule, ServiceState, ShareDigest, copy_actions,
};
use std::alloc::{AllocError, Global};

/// A node with an endorsement of one byte.
pub fn node(alloc: Global) -> Result<NewNode, AllocError>
    ensures { IfOk result (λ node. is_node node ≡ true) }
{
    Ok(NewNode {
        key: [7; 56],
        endorsement: Bytes::from(Vec::from_slice(alloc, &[0xaa])?),
    })
}

/// A node with no endorsement.
fn bare_node(alloc: Global) -> NewNode
    ensures { is_node result ≡ true }
{
    NewNode {
        key: [8; 56],
        endorsement: Bytes::from(Vec::new(alloc)),
    }
}

fn nodes(alloc: Global) -> Result<Sequence<NewNode>, AllocError>
    ensures { IfOk result (λ nodes. are_counted is_node nodes ≡ true) }
{
    let mut nodes = Vec::new(alloc);
    nodes.push(node(alloc)?)?;
    nodes.push(bare_node(alloc))?;
    Ok(Sequence::from(nodes))
}

pub fn dealing(alloc: Global) -> Result<Dealing, AllocError>
    ensures { IfOk result (λ dealing. is_dealing dealing ≡ true) }
{
    let shares = [
        ShareDigest {
            member: 4,
            digest: [6; 32],
        },
        ShareDigest {
            member: 200,
            digest: [7; 32],
        },
    ];
    Ok(Dealing {
        threshold: 2,
        secret_digest: [5; 32],
        shares: Sequence::from(Vec::from_slice(alloc, &shares)?),
    })
}

pub fn genesis(alloc: Global) -> Result<GovernanceRequest, AllocError>
    ensures { IfOk result (λ request. is_request request ≡ true) }
{
    let members = [
        NewMember {
            number: 4,
            key: [3; 60],
        },
        NewMember {
            number: 200,
            key: [32; 60],
        },
    ];
    Ok(GovernanceRequest::Genesis(Genesis {
        state: ServiceState::Open,
        identity: [9; 60],
        nodes: nodes(alloc)?,
        members: Sequence::from(Vec::from_slice(alloc, &members)?),
        dealing: dealing(alloc)?,
    }))
}

pub fn recovery(alloc: Global) -> Result<GovernanceRequest, AllocError>
    ensures { IfOk result (λ request. is_request request ≡ true) }
{
    Ok(GovernanceRequest::Recover(Recovery {
        identity: [10; 60],
        nodes: nodes(alloc)?,
    }))
}

pub fn join(alloc: Global) -> Result<GovernanceRequest, AllocError>
    ensures { IfOk result (λ request. is_request request ≡ true) }
{
    Ok(GovernanceRequest::Join(node(alloc)?))
}

pub fn mark() -> GovernanceRequest
    ensures { is_request result ≡ true }
{
    GovernanceRequest::Mark([11; 32])
}

/// A signature of three bytes, which is valid under no key.
fn signature(alloc: Global) -> Result<Bytes, AllocError>
    ensures { IfOk result (λ signature. is_signature_field signature ≡ true) }
{
    Ok(Bytes::from(Vec::from_slice(alloc, &[0xcc, 0xcc, 0xcc])?))
}

/// A request of a member.
fn asked(alloc: Global, member: u8, act: MemberAct) -> Result<MemberRequest, AllocError>
    requires member { is_member_number member ≡ true }
    requires act { is_act act ≡ true }
    ensures { IfOk result (λ request. is_member_request request ≡ true) }
{
    Ok(MemberRequest {
        member,
        act,
        signature: signature(alloc)?,
    })
}

fn rules(alloc: Global) -> Result<Sequence<Rule>, AllocError>
    ensures { IfOk result (λ rules. are_rules rules ≡ true) }
{
    let rules = [
        Rule { num: 1, den: 2 },
        Rule { num: 2, den: 3 },
        Rule {
            num: 513,
            den: 1027,
        },
        Rule { num: 0, den: 1 },
        Rule {
            num: 65535,
            den: 65535,
        },
        Rule { num: 1, den: 1 },
        Rule { num: 3, den: 4 },
    ];
    Ok(Sequence::from(Vec::from_slice(alloc, &rules)?))
}

pub fn actions(alloc: Global) -> Result<Sequence<Action>, AllocError>
    ensures { IfOk result (λ actions. are_actions actions ≡ true) }
{
    let mut actions = Vec::new(alloc);
    actions.push(Action::SetMember(NewMember {
        number: 9,
        key: [1; 60],
    }))?;
    actions.push(Action::RemoveMember(200))?;
    actions.push(Action::SetRecoveryThreshold(dealing(alloc)?))?;
    actions.push(Action::TransitionNodeToTrusted([12; 32]))?;
    actions.push(Action::RemoveNode([13; 32]))?;
    actions.push(Action::TransitionServiceToOpen)?;
    actions.push(Action::SetConstitution(rules(alloc)?))?;
    Ok(Sequence::from(actions))
}

pub fn ack(alloc: Global) -> Result<MemberRequest, AllocError>
    ensures { IfOk result (λ request. is_member_request request ≡ true) }
{
    asked(alloc, 1, MemberAct::Ack)
}

pub fn proposal(alloc: Global) -> Result<MemberRequest, AllocError>
    ensures { IfOk result (λ request. is_member_request request ≡ true) }
{
    let mut actions = Vec::new(alloc);
    actions.push(Action::TransitionServiceToOpen)?;
    asked(alloc, 255, MemberAct::Propose(Sequence::from(actions)))
}

pub fn all_actions(alloc: Global) -> Result<MemberRequest, AllocError>
    ensures { IfOk result (λ request. is_member_request request ≡ true) }
{
    let actions = copy_actions(alloc, actions(alloc)?.as_slice())?;
    asked(alloc, 4, MemberAct::Propose(actions))
}

pub fn ballot(alloc: Global) -> Result<MemberRequest, AllocError>
    ensures { IfOk result (λ request. is_member_request request ≡ true) }
{
    let act = MemberAct::Ballot {
        proposal: [14; 32],
        agrees: true,
    };
    asked(alloc, 200, act)
}

pub fn withdrawal(alloc: Global) -> Result<MemberRequest, AllocError>
    ensures { IfOk result (λ request. is_member_request request ≡ true) }
{
    asked(alloc, 4, MemberAct::Withdraw { proposal: [14; 32] })
}

pub fn share(alloc: Global) -> Result<MemberRequest, AllocError>
    ensures { IfOk result (λ request. is_member_request request ≡ true) }
{
    asked(alloc, 4, MemberAct::Share { share: [15; 32] })
}
