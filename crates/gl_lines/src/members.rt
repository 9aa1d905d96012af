//! The lines of members: what a member asks of a node.

ghost use Rattle.std.specs.Prelude.{◌≡◌};
ghost use Rattle.serde_json.specs.View.{view};
ghost use Rattle.gl_base.specs.Answers.{Answers};
ghost use Rattle.gl_forms.specs.Requests.{proposal_in};
ghost use Rattle.gl_forms.specs.Text.{tree_from};
ghost use Rattle.gl_lines.specs.Parts.{bytes_of};
ghost use Rattle.gl_lines.specs.Unread.{IsUnread};
ghost use Rattle.gl_lines.specs.MemberLines.{ack_line, answer_of, ballot_of, ballot_line, withdraw_of, withdraw_line, again_line, if_form, actions_of, propose_of, propose_line};

use crate::fault::LineFault;
use crate::line::Line;
use crate::numbers::counted_number;
use crate::references::{names_unknown, with_ids};
use crate::split::cut;
use gl_base::{FormsFault, OrNoMemory, Sequence};
use gl_requests::{Action, NodeId};
use serde_json::Value;
use std::alloc::Global;

#[tactic(auto, unfolding(crate::specs::MemberLines::ack_line))]
pub(crate) fn ack_line(node: u128, rest: &[u8]) -> Result<Line, LineFault>
    ensures { result ≡ ack_line node rest.now }
{
    let member = counted_number(rest)?;
    Ok(Line::Ack { node, member })
}

fn answer_of(word: &[u8]) -> Result<bool, LineFault>
    ensures { result ≡ answer_of word.now }
{
    if word == b"yes".as_slice() {
        Ok(true)
    } else if word == b"no".as_slice() {
        Ok(false)
    } else {
        Err(LineFault::NoReading)
    }
}

#[tactic(auto, unfolding(crate::specs::MemberLines::ballot_of))]
fn ballot_of(node: u128, member: &[u8], proposal: &[u8], answer: &[u8]) -> Result<Line, LineFault>
    ensures { result ≡ ballot_of node member.now proposal.now answer.now }
{
    let member = counted_number(member)?;
    let proposal = counted_number(proposal)?;
    let agrees = answer_of(answer)?;
    Ok(Line::Ballot {
        node,
        member,
        proposal,
        agrees,
    })
}

pub(crate) fn ballot_line(node: u128, words: &[&[u8]]) -> Result<Line, LineFault>
    ensures { result ≡ ballot_line node (bytes_of words.now) }
{
    match words {
        [member, proposal, answer] => ballot_of(node, member, proposal, answer),
        _ => Err(LineFault::NoReading),
    }
}

#[tactic(auto, unfolding(crate::specs::MemberLines::withdraw_of))]
fn withdraw_of(node: u128, member: &[u8], proposal: &[u8]) -> Result<Line, LineFault>
    ensures { result ≡ withdraw_of node member.now proposal.now }
{
    let member = counted_number(member)?;
    let proposal = counted_number(proposal)?;
    Ok(Line::Withdraw {
        node,
        member,
        proposal,
    })
}

pub(crate) fn withdraw_line(node: u128, words: &[&[u8]]) -> Result<Line, LineFault>
    ensures { result ≡ withdraw_line node (bytes_of words.now) }
{
    match words {
        [member, proposal] => withdraw_of(node, member, proposal),
        _ => Err(LineFault::NoReading),
    }
}

#[tactic(auto, unfolding(crate::specs::MemberLines::again_line))]
pub(crate) fn again_line(node: u128, rest: &[u8]) -> Result<Line, LineFault>
    ensures { result ≡ again_line node rest.now }
{
    let line = counted_number(rest)?;
    Ok(Line::Again { node, line })
}

/// A text of another form says nothing.
fn unread(stop: OrNoMemory<FormsFault>) -> OrNoMemory<LineFault>
    ensures { IsUnread stop result }
{
    match stop {
        OrNoMemory::NoMemory => OrNoMemory::NoMemory,
        OrNoMemory::Fault(_) => OrNoMemory::Fault(LineFault::NoReading),
    }
}

/// The JSON tree of a text.
fn tree_of(alloc: Global, json: &[u8]) -> Result<Value, OrNoMemory<LineFault>>
    ensures { Answers view result (if_form (tree_from json.now)) }
{
    match gl_forms::read_tree(alloc, json) {
        Ok(tree) => Ok(tree),
        Err(stop) => Err(unread(stop)),
    }
}

/// The actions of a proposal's JSON tree.
fn proposal_of(alloc: Global, tree: &Value) -> Result<Sequence<Action>, OrNoMemory<LineFault>>
    ensures { Answers (λ x. x) result (if_form (proposal_in (view tree.now))) }
{
    match gl_forms::proposal_in(alloc, tree) {
        Ok(actions) => Ok(actions),
        Err(stop) => Err(unread(stop)),
    }
}

/// The actions of a proposal's JSON, in which these nodes may be named. `None` where it names a
/// node that there isn't.
#[tactic(auto, unfolding(crate::specs::MemberLines::actions_of))]
fn actions_of(
    alloc: Global,
    json: &[u8],
    ids: &[NodeId],
) -> Result<Option<Sequence<Action>>, OrNoMemory<LineFault>>
    ensures { Answers (λ x. x) result (actions_of ids.now json.now) }
{
    let tree = tree_of(alloc, json)?;
    let proposal = with_ids(alloc, &tree, ids)?;
    let actions = proposal_of(alloc, &proposal)?;
    Ok(if names_unknown(&tree, ids) {
        None
    } else {
        Some(actions)
    })
}

#[tactic(auto, unfolding(crate::specs::MemberLines::propose_of))]
fn propose_of(
    alloc: Global,
    node: u128,
    member: &[u8],
    json: &[u8],
    ids: &[NodeId],
) -> Result<Line, OrNoMemory<LineFault>>
    ensures { Answers (λ x. x) result (propose_of ids.now node member.now json.now) }
{
    let member = counted_number(member)?;
    let actions = actions_of(alloc, json, ids)?;
    Ok(Line::Propose {
        node,
        member,
        actions,
    })
}

/// All that stands after the member's number is the JSON.
pub(crate) fn propose_line(
    alloc: Global,
    node: u128,
    rest: &[u8],
    ids: &[NodeId],
) -> Result<Line, OrNoMemory<LineFault>>
    ensures { Answers (λ x. x) result (propose_line ids.now node rest.now) }
{
    let (member, Some(json)) = cut(rest, b' ') else {
        return Err(OrNoMemory::Fault(LineFault::NoReading));
    };
    propose_of(alloc, node, member, json, ids)
}
