//! A request of governance read from bytes.

ghost use Rattle.std.specs.Prelude.{◌≡◌, true, Result, IfOk, Ok};
ghost use Rattle.gl_base.specs.Answers.{Answers};
ghost use Rattle.gl_base.specs.Cut.{Unread};
ghost use Rattle.gl_base.specs.declared.fault.CodeFault.{CodeFault as Fault};
ghost use Rattle.gl_requests.specs.Encoding.{request_bytes};
ghost use Rattle.gl_requests.specs.Ranges.{is_request};
ghost use Rattle.gl_requests.specs.Parsing.{repeated_at, counted_at, state_at, signature_at, digest_at, node_at, member_number_at, member_at, share_at, dealing_at, rule_at, action_at, action_fields_at, actions_at, ballot_at, act_at, member_request_at, genesis_at, recovery_at, request_after, request_at, request_result};
ghost use Rattle.gl_requests.specs.declared.request.GovernanceRequest.{GovernanceRequest as Request};

use crate::action::{Action, Rule};
use crate::encode::{
    ACK_TAG, BALLOT_TAG, GENESIS_TAG, JOIN_TAG, MARK_TAG, PROPOSE_TAG, RECOVER_TAG, SHARE_TAG,
    WITHDRAW_TAG,
};
use crate::genesis::{
    Dealing, Digest, Genesis, NewMember, NewNode, Recovery, ServiceState, ShareDigest,
};
use crate::request::{GovernanceRequest, MemberAct, MemberRequest};
use gl_base::{Bytes, CodeFault, Cut, MEBIBYTE, OrNoMemory, Sequence};
use std::alloc::Global;

/// A part of which a request has several, one after the other.
trait Decode: Drop {
    ghost reading: { Unread → Result (Self × Unread) Fault };

    /// Reads the part from the start of what is still to be read.
    fn read(alloc: Global, cut: &mut Cut<'_>) -> Result<Self, OrNoMemory<CodeFault>>
        ensures { Answers (λ part. (part, cut.new)) result (reading cut.old) };
}

fn read_repeated<T: Decode>(
    alloc: Global,
    count: u8,
    cut: &mut Cut<'_>,
) -> Result<Sequence<T>, OrNoMemory<CodeFault>>
    ensures { Answers (λ parts. (parts, cut.new)) result (repeated_at T.reading count cut.old) }
{
    let mut parts = Vec::new(alloc);
    for _ in 0..count {
        parts.push(T::read(alloc, cut)?)?;
    }
    Ok(Sequence::from(parts))
}

/// Reads the parts after their count.
#[tactic(auto, unfolding(crate::specs::Parsing::counted_at))]
fn read_counted<T: Decode>(
    alloc: Global,
    cut: &mut Cut<'_>,
) -> Result<Sequence<T>, OrNoMemory<CodeFault>>
    ensures { Answers (λ parts. (parts, cut.new)) result (counted_at T.reading cut.old) }
{
    let count = cut.u8()?;
    read_repeated(alloc, count, cut)
}

#[tactic(auto, unfolding(crate::specs::Parsing::state_at))]
fn read_state(cut: &mut Cut<'_>) -> Result<ServiceState, OrNoMemory<CodeFault>>
    ensures { Answers (λ state. (state, cut.new)) result (state_at cut.old) }
{
    let place = cut.at();
    match cut.u8()? {
        1 => Ok(ServiceState::Opening),
        2 => Ok(ServiceState::Open),
        _ => Err(OrNoMemory::Fault(CodeFault::Value { at: place })),
    }
}

#[tactic(auto, unfolding(crate::specs::Parsing::signature_at))]
fn read_signature(alloc: Global, cut: &mut Cut<'_>) -> Result<Bytes, OrNoMemory<CodeFault>>
    ensures { Answers (λ signature. (signature, cut.new)) result (signature_at cut.old) }
{
    let bytes = cut.bytes(32, MEBIBYTE)?;
    Ok(Bytes::from(Vec::from_slice(alloc, bytes)?))
}

/// Reads a digest of 32 bytes.
#[tactic(auto, unfolding(crate::specs::Parsing::digest_at))]
pub fn read_digest(cut: &mut Cut<'_>) -> Result<Digest, OrNoMemory<CodeFault>>
    ensures { Answers (λ digest. (digest, cut.new)) result (digest_at cut.old) }
{
    Ok(*cut.array::<32>()?)
}

/// Reads the number of a member, which isn't 0.
#[tactic(auto, unfolding(crate::specs::Parsing::member_number_at))]
pub fn read_member_number(cut: &mut Cut<'_>) -> Result<u8, OrNoMemory<CodeFault>>
    ensures { Answers (λ number. (number, cut.new)) result (member_number_at cut.old) }
{
    let place = cut.at();
    let number = cut.u8()?;
    if number == 0 {
        return Err(OrNoMemory::Fault(CodeFault::Value { at: place }));
    }
    Ok(number)
}

/// Reads a node's key, and its endorsement after its length, which is 1,048,576 at most.
#[tactic(auto, unfolding(crate::specs::Parsing::node_at))]
pub fn read_node(alloc: Global, cut: &mut Cut<'_>) -> Result<NewNode, OrNoMemory<CodeFault>>
    ensures { Answers (λ node. (node, cut.new)) result (node_at cut.old) }
{
    let key = *cut.array::<56>()?;
    let endorsement = read_signature(alloc, cut)?;
    Ok(NewNode { key, endorsement })
}

impl Decode for NewNode {
    ghost reading = { node_at };

    fn read(alloc: Global, cut: &mut Cut<'_>) -> Result<NewNode, OrNoMemory<CodeFault>> {
        read_node(alloc, cut)
    }
}

impl Decode for NewMember {
    ghost reading = { member_at };

    #[tactic(auto, unfolding(crate::specs::Parsing::member_at))]
    fn read(_alloc: Global, cut: &mut Cut<'_>) -> Result<NewMember, OrNoMemory<CodeFault>> {
        let number = read_member_number(cut)?;
        let key = *cut.array::<60>()?;
        Ok(NewMember { number, key })
    }
}

impl Decode for ShareDigest {
    ghost reading = { share_at };

    #[tactic(auto, unfolding(crate::specs::Parsing::share_at))]
    fn read(_alloc: Global, cut: &mut Cut<'_>) -> Result<ShareDigest, OrNoMemory<CodeFault>> {
        let member = read_member_number(cut)?;
        let digest = read_digest(cut)?;
        Ok(ShareDigest { member, digest })
    }
}

/// Reads a rule: its two numbers.
#[tactic(auto, unfolding(crate::specs::Parsing::rule_at))]
pub fn read_rule(cut: &mut Cut<'_>) -> Result<Rule, OrNoMemory<CodeFault>>
    ensures { Answers (λ rule. (rule, cut.new)) result (rule_at cut.old) }
{
    let num = cut.u16()?;
    let den = cut.u16()?;
    Ok(Rule { num, den })
}

impl Decode for Rule {
    ghost reading = { rule_at };

    fn read(_alloc: Global, cut: &mut Cut<'_>) -> Result<Rule, OrNoMemory<CodeFault>> {
        read_rule(cut)
    }
}

/// Reads a dealing, with its shares' digests after their count. Whether they ascend by member isn't
/// asked.
#[tactic(auto, unfolding(crate::specs::Parsing::dealing_at))]
pub fn read_dealing(alloc: Global, cut: &mut Cut<'_>) -> Result<Dealing, OrNoMemory<CodeFault>>
    ensures { Answers (λ dealing. (dealing, cut.new)) result (dealing_at cut.old) }
{
    let threshold = cut.u8()?;
    let secret_digest = read_digest(cut)?;
    let shares = read_counted(alloc, cut)?;
    Ok(Dealing {
        threshold,
        secret_digest,
        shares,
    })
}

/// Reads the fields of the action with the number, which stands at the place.
#[tactic(auto, unfolding(crate::specs::Parsing::action_fields_at))]
fn read_action_fields(
    alloc: Global,
    place: usize,
    number: u8,
    cut: &mut Cut<'_>,
) -> Result<Action, OrNoMemory<CodeFault>>
    ensures { Answers (λ action. (action, cut.new)) result
        (action_fields_at place (number, cut.old)) }
{
    match number {
        1 => Ok(Action::SetMember(NewMember::read(alloc, cut)?)),
        2 => Ok(Action::RemoveMember(read_member_number(cut)?)),
        3 => Ok(Action::SetRecoveryThreshold(read_dealing(alloc, cut)?)),
        4 => Ok(Action::TransitionNodeToTrusted(read_digest(cut)?)),
        5 => Ok(Action::RemoveNode(read_digest(cut)?)),
        6 => Ok(Action::TransitionServiceToOpen),
        7 => Ok(Action::SetConstitution(read_repeated(alloc, 7, cut)?)),
        _ => Err(OrNoMemory::Fault(CodeFault::Value { at: place })),
    }
}

/// Reads an action: its number, from 1 to 7, and its fields.
#[tactic(auto, unfolding(crate::specs::Parsing::action_at))]
pub fn read_action(alloc: Global, cut: &mut Cut<'_>) -> Result<Action, OrNoMemory<CodeFault>>
    ensures { Answers (λ action. (action, cut.new)) result (action_at cut.old) }
{
    let place = cut.at();
    let number = cut.u8()?;
    read_action_fields(alloc, place, number, cut)
}

impl Decode for Action {
    ghost reading = { action_at };

    fn read(alloc: Global, cut: &mut Cut<'_>) -> Result<Action, OrNoMemory<CodeFault>> {
        read_action(alloc, cut)
    }
}

/// Reads the actions of a proposal after their count, which is from 1 to 16.
#[tactic(auto, unfolding(crate::specs::Parsing::actions_at))]
fn read_actions(alloc: Global, cut: &mut Cut<'_>) -> Result<Sequence<Action>, OrNoMemory<CodeFault>>
    ensures { Answers (λ actions. (actions, cut.new)) result (actions_at cut.old) }
{
    let place = cut.at();
    let count = cut.u8()?;
    if count == 0 || count > 16 {
        return Err(OrNoMemory::Fault(CodeFault::Value { at: place }));
    }
    read_repeated(alloc, count, cut)
}

#[tactic(auto, unfolding(crate::specs::Parsing::ballot_at))]
fn read_ballot(cut: &mut Cut<'_>) -> Result<MemberAct, OrNoMemory<CodeFault>>
    ensures { Answers (λ act. (act, cut.new)) result (ballot_at cut.old) }
{
    let proposal = read_digest(cut)?;
    let agrees = cut.flag()?;
    Ok(MemberAct::Ballot { proposal, agrees })
}

/// Reads what a member asks for by a request with the tag, which is from 5 to 9.
#[tactic(auto, unfolding(crate::specs::Parsing::act_at))]
fn read_act(alloc: Global, tag: u8, cut: &mut Cut<'_>) -> Result<MemberAct, OrNoMemory<CodeFault>>
    ensures { Answers (λ act. (act, cut.new)) result (act_at tag cut.old) }
{
    match tag {
        ACK_TAG => Ok(MemberAct::Ack),
        PROPOSE_TAG => Ok(MemberAct::Propose(read_actions(alloc, cut)?)),
        BALLOT_TAG => read_ballot(cut),
        WITHDRAW_TAG => Ok(MemberAct::Withdraw {
            proposal: read_digest(cut)?,
        }),
        _ => Ok(MemberAct::Share {
            share: read_digest(cut)?,
        }),
    }
}

#[tactic(auto, unfolding(crate::specs::Parsing::member_request_at))]
fn read_member_request(
    alloc: Global,
    tag: u8,
    cut: &mut Cut<'_>,
) -> Result<MemberRequest, OrNoMemory<CodeFault>>
    ensures { Answers (λ request. (request, cut.new)) result (member_request_at tag cut.old) }
{
    let member = read_member_number(cut)?;
    let act = read_act(alloc, tag, cut)?;
    let signature = read_signature(alloc, cut)?;
    Ok(MemberRequest {
        member,
        act,
        signature,
    })
}

#[tactic(auto, unfolding(crate::specs::Parsing::genesis_at))]
fn read_genesis(alloc: Global, cut: &mut Cut<'_>) -> Result<Genesis, OrNoMemory<CodeFault>>
    ensures { Answers (λ genesis. (genesis, cut.new)) result (genesis_at cut.old) }
{
    let state = read_state(cut)?;
    let identity = *cut.array::<60>()?;
    let nodes = read_counted(alloc, cut)?;
    let members = read_counted(alloc, cut)?;
    let dealing = read_dealing(alloc, cut)?;
    Ok(Genesis {
        state,
        identity,
        nodes,
        members,
        dealing,
    })
}

#[tactic(auto, unfolding(crate::specs::Parsing::recovery_at))]
fn read_recovery(alloc: Global, cut: &mut Cut<'_>) -> Result<Recovery, OrNoMemory<CodeFault>>
    ensures { Answers (λ recovery. (recovery, cut.new)) result (recovery_at cut.old) }
{
    let identity = *cut.array::<60>()?;
    let nodes = read_counted(alloc, cut)?;
    Ok(Recovery { identity, nodes })
}

/// Reads what stands after the tag, which stands at the place.
#[tactic(auto, unfolding(crate::specs::Parsing::request_after))]
fn read_after(
    alloc: Global,
    place: usize,
    tag: u8,
    cut: &mut Cut<'_>,
) -> Result<GovernanceRequest, OrNoMemory<CodeFault>>
    ensures { Answers (λ request. (request, cut.new)) result
        (request_after place (tag, cut.old)) }
{
    match tag {
        GENESIS_TAG => Ok(GovernanceRequest::Genesis(read_genesis(alloc, cut)?)),
        RECOVER_TAG => Ok(GovernanceRequest::Recover(read_recovery(alloc, cut)?)),
        JOIN_TAG => Ok(GovernanceRequest::Join(NewNode::read(alloc, cut)?)),
        MARK_TAG => Ok(GovernanceRequest::Mark(read_digest(cut)?)),
        ACK_TAG..=SHARE_TAG => Ok(GovernanceRequest::Member(read_member_request(alloc, tag, cut)?)),
        _ => Err(OrNoMemory::Fault(CodeFault::Value { at: place })),
    }
}

/// Reads a tag, and the request after it.
#[tactic(auto, unfolding(crate::specs::Parsing::request_at))]
fn read_request(
    alloc: Global,
    cut: &mut Cut<'_>,
) -> Result<GovernanceRequest, OrNoMemory<CodeFault>>
    ensures { Answers (λ request. (request, cut.new)) result (request_at cut.old) }
{
    let place = cut.at();
    let tag = cut.u8()?;
    read_after(alloc, place, tag, cut)
}

fn read_whole_request(
    alloc: Global,
    bytes: &[u8],
) -> Result<GovernanceRequest, OrNoMemory<CodeFault>>
    ensures { Answers (λ request. request) result (request_result bytes.now) }
{
    let mut cut = Cut::new(bytes);
    let request = read_request(alloc, &mut cut)?;
    cut.end()?;
    Ok(request)
}

impl GovernanceRequest {
    /// The request that the bytes encode, all of them. Fails with the first fault from the left, or
    /// where memory runs out. Numbers have their least significant byte first; an endorsement or a
    /// signature has at most 1,048,576 bytes. Whether the request is acceptable is not asked here.
    pub fn decode(alloc: Global, bytes: &[u8]) -> Result<Self, OrNoMemory<CodeFault>>
        // What is read is encoded so.
        ensures found { IfOk result (λ request.
            (is_request request ≡ true) × (bytes.now ≡ request_bytes request)) }
        // What is encoded so is read, unless memory runs out.
        ensures only { (request : Request) → is_request request ≡ true →
            bytes.now ≡ request_bytes request →
            Answers (λ request. request) result (Ok request) }
        // Which fault it is.
        ensures exact { Answers (λ request. request) result (request_result bytes.now) }
    {
        read_whole_request(alloc, bytes)
    }
}
