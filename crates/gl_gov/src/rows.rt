//! The rows of the governance tables (CCF documentation, "Builtin Maps"). Numbers have their least
//! significant byte first.

ghost use Rattle.std.specs.Prelude.{◌≡◌, ℕ, ◌≤◌, ◌<◌, ◌^◌, ◌+◌, ◌*◌, ◌++◌, ◌∷◌, List, [], length, map, IfOk, IsTrue, OnOk, true};
ghost use Rattle.std.specs.List.{flat_map, list_all, cons_option};
ghost use Rattle.gl_vmaps.specs.Name.{is_map_name, is_value};
ghost use Rattle.gl_vmaps.specs.Changes.{row};
ghost use Rattle.gl_requests.specs.Encoding.{rule_bytes, action_bytes};
ghost use Rattle.gl_requests.specs.Ranges.{is_dealing, is_action};
ghost use Rattle.gl_gov_rules.specs.Service.{dealing};
ghost use Rattle.gl_gov_rules.specs.Rows.{constitution_map, service_row, service_write, member_row, member_rows, member_write, node_row, node_rows, node_write, vote_of, votes, proposal_row, vote_bytes, proposal_write, dealing_write, share_write};
ghost use Rattle.gl_gov_rules.specs.History.{History, seqno_of};
ghost use Rattle.gl_gov_rules.specs.Nodes.{nodes, retirement};
ghost use Rattle.gl_gov_rules.specs.Proposals.{proposal_state, ballots_on, answers_of};

use gl_base::{Bytes, Sequence, put_bytes, put_flag, put_u8, put_u16, put_u32, put_u64};
use gl_gov_rules::{
    Ballot, History, MemberRow, NodeRow, Proposal, ProposalRow, ProposalState, RecordedNode,
    ServiceRow, Vote, has_vote,
};
use gl_requests::{Dealing, NewMember, Rule, actions_bytes, copy_actions};
use gl_shares::Share;
use gl_vmaps::{Key, MapName, Value, Write, Writes};
use std::alloc::{AllocError, Global};

/// Whether so few bytes are a value, as they always are.
fn is_value(bytes: &[u8]) -> bool
    requires { length bytes.now ≤ 65536 }
    ensures value { result ≡ is_value bytes.now }
    ensures always { IsTrue result }
{
    Value::is_valid(bytes)
}

/// A row set to a value.
fn row(alloc: Global, map: &[u8], key: &[u8], value: Vec<u8>) -> Result<Write, AllocError>
    requires map { IsTrue (is_map_name map.now) }
    requires some_key { 1 ≤ length key.now }
    requires few_key { length key.now ≤ 1024 }
    requires value { length value.items ≤ 65536 }
    ensures { IfOk result (λ write. write ≡ row map.now key.now value.items) }
{
    prove!(is_value(&value));
    let map = MapName::from_slice(alloc, map)?;
    let key = Key::from_slice(alloc, key)?;
    Ok(Write {
        map,
        key,
        value: Some(Value::of(value)),
    })
}

// The constitution, the dealing, and shares

pub(crate) fn rule_write(alloc: Global, number: u8, rule: &Rule) -> Result<Write, AllocError>
    ensures { IfOk result (λ write.
        write ≡ row constitution_map (number ∷ []) (rule_bytes rule.now)) }
{
    let value = rule.bytes(alloc)?;
    row(alloc, b"public:ccf.gov.constitution", &[number], value)
}

pub(crate) fn dealing_write(alloc: Global, dealing: &Dealing) -> Result<Write, AllocError>
    requires { is_dealing dealing.now ≡ true }
    ensures { IfOk result (λ write. write ≡ dealing_write dealing.now) }
{
    row(
        alloc,
        b"public:ccf.gov.dealing",
        b"d",
        dealing.bytes(alloc)?,
    )
}

pub(crate) fn share_write(alloc: Global, share: &Share) -> Result<Write, AllocError>
    ensures { IfOk result (λ write. write ≡ share_write share.now) }
{
    let value = Vec::from_slice(alloc, &share.value)?;
    row(alloc, b"public:ccf.gov.shares", &[share.member], value)
}

// The service

/// The service's row, none before a founding.
#[tactic(auto, unfolding(gl_gov_rules::specs::Rows::service_row))]
pub fn service_row(past: &History) -> Option<ServiceRow>
    ensures { result ≡ service_row past.now }
{
    match (past.service_state(), past.identity()) {
        (Some(state), Some(identity)) => Some(ServiceRow {
            state,
            is_recovered: past.is_recovered(),
            identity: *identity,
        }),
        _ => None,
    }
}

pub fn service_write(alloc: Global, service: &ServiceRow) -> Result<Write, AllocError>
    ensures { IfOk result (λ write. write ≡ service_write service.now) }
{
    let mut value = Vec::new(alloc);
    value.push(service.state.byte())?;
    put_flag(&mut value, service.is_recovered)?;
    put_bytes(&mut value, &service.identity)?;
    row(alloc, b"public:ccf.gov.service", b"s", value)
}

// Members

#[tactic(auto, unfolding(gl_gov_rules::specs::Rows::member_row))]
pub(crate) fn member_row(past: &History, member: &NewMember) -> MemberRow
    ensures { result ≡ member_row past.now member.now }
{
    MemberRow {
        number: member.number,
        status: past.member_status(member.number),
        key: member.key,
        next_leaf: past.next_leaf(member.number),
    }
}

/// The rows of all members that there ever were, in the order in which they came.
#[tactic(auto, unfolding(gl_gov_rules::specs::Rows::member_rows))]
pub fn member_rows(alloc: Global, past: &History) -> Result<Vec<MemberRow>, AllocError>
    ensures { IfOk result (λ rows. rows.items ≡ member_rows past.now) }
{
    let members = past.members();
    let mut rows = Vec::with_capacity(alloc, members.len())?;
    for member in members {
        rows.push(member_row(past, member))?;
    }
    Ok(rows)
}

#[tactic(auto, using(crate::proofs::Sizes::sizes))]
pub(crate) fn member_write(alloc: Global, member: &MemberRow) -> Result<Write, AllocError>
    ensures { IfOk result (λ write. write ≡ member_write member.now) }
{
    let mut value = Vec::new(alloc);
    value.push(member.status.byte())?;
    put_bytes(&mut value, &member.key)?;
    put_u32(&mut value, member.next_leaf)?;
    row(alloc, b"public:ccf.gov.members", &[member.number], value)
}

// Nodes

/// The seqno of the entry that retired a node, or 0.
#[tactic(auto, using(crate::proofs::Seqnos::no_seqno, crate::proofs::Seqnos::some_seqno))]
fn removal(past: &History, node: &RecordedNode) -> u64
    ensures { result ≡ seqno_of (retirement past.now node.now) }
{
    match past.removal(node) {
        None => 0,
        Some(seqno) => seqno,
    }
}

#[tactic(auto, unfolding(gl_gov_rules::specs::Rows::node_row))]
pub fn node_row(
    alloc: Global,
    past: &History,
    order: u16,
    node: &RecordedNode,
) -> Result<NodeRow, AllocError>
    ensures { IfOk result (λ row. row ≡ node_row past.now order node.now) }
{
    let endorsement = Vec::from_slice(alloc, node.node.endorsement.as_slice())?;
    Ok(NodeRow {
        id: node.id,
        order,
        status: past.node_status(node),
        key: node.node.key,
        endorsement: Bytes::from(endorsement),
        removal: removal(past, node),
    })
}

/// The rows of all nodes that were ever recorded, in that order.
#[tactic(auto, unfolding(gl_gov_rules::specs::Rows::node_rows))]
pub fn node_rows(alloc: Global, past: &History) -> Result<Vec<NodeRow>, AllocError>
    requires { length (nodes past.now) < 2 ^ 16 }
    ensures { IfOk result (λ rows. rows.items ≡ node_rows past.now) }
{
    let nodes = past.nodes();
    let mut rows = Vec::with_capacity(alloc, nodes.len())?;
    for (i, node) in nodes.iter().enumerate() {
        rows.push(node_row(alloc, past, i as u16 + 1, node)?)?;
    }
    Ok(rows)
}

#[tactic(auto, using(crate::proofs::Sizes::sizes))]
pub fn node_write(alloc: Global, node: &NodeRow) -> Result<Write, AllocError>
    requires { length node.now.endorsement ≤ 2508 }
    ensures { IfOk result (λ write. write ≡ node_write node.now) }
{
    let endorsement = node.endorsement.as_slice();
    let mut value = Vec::new(alloc);
    put_u16(&mut value, node.order)?;
    value.push(node.status.byte())?;
    put_bytes(&mut value, &node.key)?;
    put_u32(&mut value, endorsement.len() as u32)?;
    put_bytes(&mut value, endorsement)?;
    put_u64(&mut value, node.removal)?;
    row(alloc, b"public:ccf.gov.nodes", &node.id, value)
}

// Proposals

/// A member's ballot on the proposal of which these are the ballots, if it has answered.
#[tactic(auto, using(gl_gov_rules::proofs::HistoryIndex::answered_any))]
fn vote_of(ballots: &[Ballot], member: u8) -> Option<Vote>
    ensures { (h : History) (id : List ℕ) →
        ballots.now ≡ ballots_on id h → result ≡ vote_of (answers_of h) id member }
{
    if has_vote(ballots, true, member) {
        Some(Vote {
            member,
            agrees: true,
        })
    } else if has_vote(ballots, false, member) {
        Some(Vote {
            member,
            agrees: false,
        })
    } else {
        None
    }
}

/// Adds a ballot, if there is one.
fn push_vote(ballots: &mut Vec<Vote>, vote: Option<Vote>) -> Result<(), AllocError>
    ensures votes { OnOk result (ballots.new.items ≡ ballots.old.items ++ cons_option vote []) }
    ensures size { OnOk result (length ballots.new.items ≤ length ballots.old.items + 1) }
{
    match vote {
        None => Ok(()),
        Some(vote) => Ok(ballots.push(vote)?),
    }
}

/// The ballots on a proposal, ascending by member.
#[tactic(auto, unfolding(gl_gov_rules::specs::Rows::votes))]
fn votes(alloc: Global, past: &History, id: &[u8; 32]) -> Result<Vec<Vote>, AllocError>
    ensures votes { IfOk result (λ ballots. ballots.items ≡ votes (answers_of past.now) id.now) }
    ensures few { IfOk result (λ ballots. length ballots.items ≤ 255) }
{
    let ballots = past.ballots(id);
    let mut votes = Vec::new(alloc);
    for i in 0..255u8 {
        push_vote(&mut votes, vote_of(ballots, i + 1))?;
    }
    Ok(votes)
}

/// A proposal's state.
pub fn state_of(past: &History, proposal: &Proposal) -> ProposalState
    ensures { result ≡ proposal_state past.now proposal.now }
{
    past.proposal_state(proposal)
}

/// What is known of a proposal.
#[tactic(auto, unfolding(gl_gov_rules::specs::Rows::proposal_row))]
pub fn proposal_row(
    alloc: Global,
    past: &History,
    proposal: &Proposal,
) -> Result<ProposalRow, AllocError>
    ensures row { IfOk result (λ row. row ≡ proposal_row past.now proposal.now) }
    ensures few { IfOk result (λ row. length row.ballots ≤ 255) }
{
    Ok(ProposalRow {
        state: state_of(past, proposal),
        proposer: proposal.proposer,
        actions: copy_actions(alloc, proposal.actions.as_slice())?,
        ballots: Sequence::from(votes(alloc, past, &proposal.id)?),
    })
}

fn put_votes(out: &mut Vec<u8>, ballots: &[Vote]) -> Result<(), AllocError>
    ensures bytes { OnOk result (out.new.items ≡ out.old.items ++ flat_map vote_bytes ballots.now) }
    ensures size { OnOk result (length out.new.items
        ≡ length out.old.items + 2 * length ballots.now) }
{
    for vote in ballots {
        out.push(vote.member)?;
        put_flag(out, vote.agrees)?;
    }
    Ok(())
}

#[tactic(auto, using(crate::proofs::Sizes::sizes))]
pub(crate) fn proposal_write(
    alloc: Global,
    id: &[u8; 32],
    proposal: &ProposalRow,
) -> Result<Write, AllocError>
    requires fit { list_all is_action proposal.now.actions ≡ true }
    requires small { length (flat_map action_bytes proposal.now.actions) ≤ 60000 }
    requires few { length proposal.now.ballots ≤ 255 }
    ensures { IfOk result (λ write. write ≡ proposal_write id.now proposal.now) }
{
    let actions = actions_bytes(alloc, proposal.actions.as_slice())?;
    let ballots = proposal.ballots.as_slice();
    let mut value = Vec::new(alloc);
    value.push(proposal.state.byte())?;
    value.push(proposal.proposer)?;
    put_u32(&mut value, actions.len() as u32)?;
    put_bytes(&mut value, &actions)?;
    put_u8(&mut value, ballots.len() as u8)?;
    put_votes(&mut value, ballots)?;
    row(alloc, b"public:ccf.gov.proposals", id, value)
}
