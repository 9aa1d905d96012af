//! The values of rows of governance, read from their bytes.

ghost use Rattle.std.specs.Prelude.{◌≡◌, IfOk, length};
ghost use Rattle.std.specs.List.{flat_map};
ghost use Rattle.gl_base.specs.Answers.{Answers};
ghost use Rattle.gl_base.specs.Code.{unread_of, whole};
ghost use Rattle.gl_requests.specs.Encoding.{state_byte, action_bytes};
ghost use Rattle.gl_requests.specs.Parsing.{rule_at, dealing_at, digest_at};
ghost use Rattle.gl_gov_rules.specs.Rows.{member_byte, node_byte, proposal_byte};
ghost use Rattle.gl_gov_rules.specs.GovernedRows.{one_of_at, service_row_at, member_row_at, node_row_at, votes_at, actions_to_end, proposal_row_at};
ghost use Rattle.gl_gov_rows.specs.Reading.{service_states, member_statuses, node_statuses, proposal_states, vote_at};

use gl_base::{CodeFault, Cut, MEBIBYTE, OrNoMemory, Sequence};
use gl_gov_rules::{
    MemberRow, MemberStatus, NodeRow, NodeStatus, ProposalRow, ProposalState, ServiceRow, Vote,
};
use gl_requests::{
    Action, Dealing, Digest, NewNode, NodeId, Rule, ServiceState, read_action, read_dealing,
    read_digest, read_member_number, read_node, read_rule,
};
use std::alloc::Global;

/// What the field that begins at this place holds is not allowed there.
fn refused(at: usize) -> OrNoMemory<CodeFault>
    ensures { result ≡ OrNoMemory.Fault (CodeFault.Value at) }
{
    OrNoMemory::Fault(CodeFault::Value { at })
}

// The service, members and nodes

#[tactic(auto, unfolding(gl_gov_rules::specs::GovernedRows::one_of_at))]
fn read_service_state(cut: &mut Cut<'_>) -> Result<ServiceState, OrNoMemory<CodeFault>>
    ensures { Answers (λ state. (state, cut.new)) result
        (one_of_at state_byte service_states cut.old) }
{
    let place = cut.at();
    match cut.u8()? {
        1 => Ok(ServiceState::Opening),
        2 => Ok(ServiceState::Open),
        3 => Ok(ServiceState::WaitingForRecoveryShares),
        _ => Err(refused(place)),
    }
}

#[tactic(auto, unfolding(gl_gov_rules::specs::GovernedRows::service_row_at))]
pub(crate) fn read_service(bytes: &[u8]) -> Result<ServiceRow, OrNoMemory<CodeFault>>
    ensures { Answers (λ service. service) result (whole service_row_at bytes.now) }
{
    let mut cut = Cut::new(bytes);
    let state = read_service_state(&mut cut)?;
    let is_recovered = cut.flag()?;
    let identity = *cut.array::<60>()?;
    cut.end()?;
    Ok(ServiceRow {
        state,
        is_recovered,
        identity,
    })
}

#[tactic(auto, unfolding(gl_gov_rules::specs::GovernedRows::one_of_at))]
fn read_member_status(cut: &mut Cut<'_>) -> Result<MemberStatus, OrNoMemory<CodeFault>>
    ensures { Answers (λ status. (status, cut.new)) result
        (one_of_at member_byte member_statuses cut.old) }
{
    let place = cut.at();
    match cut.u8()? {
        1 => Ok(MemberStatus::Accepted),
        2 => Ok(MemberStatus::Active),
        3 => Ok(MemberStatus::Removed),
        _ => Err(refused(place)),
    }
}

/// The row of the member with a number.
#[tactic(auto, unfolding(gl_gov_rules::specs::GovernedRows::member_row_at))]
pub(crate) fn read_member(number: u8, bytes: &[u8]) -> Result<MemberRow, OrNoMemory<CodeFault>>
    ensures { Answers (λ member. member) result (whole (member_row_at number) bytes.now) }
{
    let mut cut = Cut::new(bytes);
    let status = read_member_status(&mut cut)?;
    let key = *cut.array::<60>()?;
    let next_leaf = cut.u32()?;
    cut.end()?;
    Ok(MemberRow {
        number,
        status,
        key,
        next_leaf,
    })
}

#[tactic(auto, unfolding(gl_gov_rules::specs::GovernedRows::one_of_at))]
fn read_node_status(cut: &mut Cut<'_>) -> Result<NodeStatus, OrNoMemory<CodeFault>>
    ensures { Answers (λ status. (status, cut.new)) result
        (one_of_at node_byte node_statuses cut.old) }
{
    let place = cut.at();
    match cut.u8()? {
        1 => Ok(NodeStatus::Pending),
        2 => Ok(NodeStatus::Trusted),
        3 => Ok(NodeStatus::Retired),
        4 => Ok(NodeStatus::Marked),
        _ => Err(refused(place)),
    }
}

/// The row of the node with an identifier.
#[tactic(auto, unfolding(gl_gov_rules::specs::GovernedRows::node_row_at))]
pub(crate) fn read_node_row(
    alloc: Global,
    id: &NodeId,
    bytes: &[u8],
) -> Result<NodeRow, OrNoMemory<CodeFault>>
    ensures { Answers (λ node. node) result (whole (node_row_at id.now) bytes.now) }
{
    let mut cut = Cut::new(bytes);
    let order = cut.u16()?;
    let status = read_node_status(&mut cut)?;
    let NewNode { key, endorsement } = read_node(alloc, &mut cut)?;
    let removal = cut.u64()?;
    cut.end()?;
    Ok(NodeRow {
        id: *id,
        order,
        status,
        key,
        endorsement,
        removal,
    })
}

// Proposals

#[tactic(auto, unfolding(gl_gov_rules::specs::GovernedRows::one_of_at))]
fn read_proposal_state(cut: &mut Cut<'_>) -> Result<ProposalState, OrNoMemory<CodeFault>>
    ensures { Answers (λ state. (state, cut.new)) result
        (one_of_at proposal_byte proposal_states cut.old) }
{
    let place = cut.at();
    match cut.u8()? {
        1 => Ok(ProposalState::Open),
        2 => Ok(ProposalState::Accepted),
        3 => Ok(ProposalState::Rejected),
        4 => Ok(ProposalState::Withdrawn),
        5 => Ok(ProposalState::Failed),
        6 => Ok(ProposalState::Dropped),
        _ => Err(refused(place)),
    }
}

/// Reads a ballot of a member with a number above the last one's.
#[tactic(auto, unfolding(crate::specs::Reading::vote_at))]
fn read_vote(last: u8, cut: &mut Cut<'_>) -> Result<Vote, OrNoMemory<CodeFault>>
    ensures { Answers (λ vote. (vote, cut.new)) result (vote_at last cut.old) }
{
    let place = cut.at();
    let member = cut.u8()?;
    if member <= last {
        return Err(refused(place));
    }
    let agrees = cut.flag()?;
    Ok(Vote { member, agrees })
}

/// Reads so many ballots, which ascend by member.
fn read_votes(
    alloc: Global,
    count: u8,
    cut: &mut Cut<'_>,
) -> Result<Sequence<Vote>, OrNoMemory<CodeFault>>
    ensures { Answers (λ votes. (votes, cut.new)) result (votes_at count 0 cut.old) }
{
    let mut votes = Vec::new(alloc);
    let mut last = 0;
    for _ in 0..count {
        let vote = read_vote(last, cut)?;
        votes.push(vote)?;
        last = vote.member;
    }
    Ok(Sequence::from(votes))
}

/// Reads actions up to the end of the bytes.
fn read_actions(alloc: Global, bytes: &[u8]) -> Result<Sequence<Action>, OrNoMemory<CodeFault>>
    ensures exact { Answers (λ actions. actions) result
        (actions_to_end (length bytes.now) (unread_of bytes.now)) }
    ensures size { IfOk result (λ actions.
        length (flat_map action_bytes actions) ≡ length bytes.now) }
{
    let mut cut = Cut::new(bytes);
    let mut actions = Vec::new(alloc);
    // An action has a byte at least, so as many turns as there are bytes are enough.
    for _ in 0..bytes.len() {
        if cut.rest().is_empty() {
            return Ok(Sequence::from(actions));
        }
        actions.push(read_action(alloc, &mut cut)?)?;
    }
    cut.end()?;
    Ok(Sequence::from(actions))
}

/// A proposal's row, and how many bytes encode its actions.
#[tactic(auto, unfolding(gl_gov_rules::specs::GovernedRows::proposal_row_at))]
pub(crate) fn read_proposal(
    alloc: Global,
    bytes: &[u8],
) -> Result<(ProposalRow, usize), OrNoMemory<CodeFault>>
    ensures exact { Answers (λ read. read.0) result (whole proposal_row_at bytes.now) }
    ensures size { IfOk result (λ read. read.1 ≡ length (flat_map action_bytes read.0.actions)) }
{
    let mut cut = Cut::new(bytes);
    let state = read_proposal_state(&mut cut)?;
    let proposer = read_member_number(&mut cut)?;
    let encoded = cut.bytes(32, MEBIBYTE)?;
    let actions = read_actions(alloc, encoded)?;
    let count = cut.u8()?;
    let ballots = read_votes(alloc, count, &mut cut)?;
    cut.end()?;
    Ok((
        ProposalRow {
            state,
            proposer,
            actions,
            ballots,
        },
        encoded.len(),
    ))
}

// The constitution, the dealing, and shares

pub(crate) fn read_rule_value(bytes: &[u8]) -> Result<Rule, OrNoMemory<CodeFault>>
    ensures { Answers (λ rule. rule) result (whole rule_at bytes.now) }
{
    let mut cut = Cut::new(bytes);
    let rule = read_rule(&mut cut)?;
    cut.end()?;
    Ok(rule)
}

pub(crate) fn read_dealing_value(
    alloc: Global,
    bytes: &[u8],
) -> Result<Dealing, OrNoMemory<CodeFault>>
    ensures { Answers (λ dealing. dealing) result (whole dealing_at bytes.now) }
{
    let mut cut = Cut::new(bytes);
    let dealing = read_dealing(alloc, &mut cut)?;
    cut.end()?;
    Ok(dealing)
}

pub(crate) fn read_share(bytes: &[u8]) -> Result<Digest, OrNoMemory<CodeFault>>
    ensures { Answers (λ share. share) result (whole digest_at bytes.now) }
{
    let mut cut = Cut::new(bytes);
    let share = read_digest(&mut cut)?;
    cut.end()?;
    Ok(share)
}
