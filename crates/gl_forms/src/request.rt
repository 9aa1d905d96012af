//! What a member asks for, and proposals, read from their JSON form.

ghost use Rattle.std.specs.Prelude.{◌≡◌, true, IfOk};
ghost use Rattle.gl_base.specs.Answers.{Answers};
ghost use Rattle.gl_forms.specs.Requests.{proposal_in, ack_in, propose_in, ballot_in, withdraw_in, share_act_in, act_named, act_in};
ghost use Rattle.gl_forms.specs.Text.{from_text};
ghost use Rattle.gl_requests.specs.Ranges.{are_actions, is_act};
ghost use Rattle.serde_json.specs.View.{view};

use crate::action::actions_in;
use crate::fault::fault_at;
use crate::object::{flag_at, object_at, sized_at, word_at};
use crate::place::Place;
use gl_base::{FormsFault, OrNoMemory, Sequence};
use gl_json::{FormError, read_tree};
use gl_requests::{Action, MemberAct};
use serde_json::Value;
use std::alloc::Global;

/// The actions of the proposal that a JSON tree is, or the first value of it that has another form.
#[tactic(auto, unfolding(crate::specs::Requests::proposal_in))]
pub fn proposal_in(alloc: Global, value: &Value) -> Result<Sequence<Action>, OrNoMemory<FormsFault>>
    ensures exact { Answers (λ s. s) result (proposal_in (view value.now)) }
    ensures fits { IfOk result (λ s. are_actions s ≡ true) }
{
    object_at(alloc, &Place::Whole, &["actions"], value)?;
    actions_in(alloc, value)
}

#[tactic(auto, unfolding(crate::specs::Requests::ack_in))]
fn ack_in(alloc: Global, value: &Value) -> Result<MemberAct, OrNoMemory<FormsFault>>
    ensures { Answers (λ a. a) result (ack_in (view value.now)) }
{
    object_at(alloc, &Place::Whole, &["op"], value)?;
    Ok(MemberAct::Ack)
}

#[tactic(auto, unfolding(crate::specs::Requests::propose_in))]
fn propose_in(alloc: Global, value: &Value) -> Result<MemberAct, OrNoMemory<FormsFault>>
    ensures { Answers (λ a. a) result (propose_in (view value.now)) }
{
    object_at(alloc, &Place::Whole, &["actions", "op"], value)?;
    let actions = actions_in(alloc, value)?;
    Ok(MemberAct::Propose(actions))
}

#[tactic(auto, unfolding(crate::specs::Requests::ballot_in))]
fn ballot_in(alloc: Global, value: &Value) -> Result<MemberAct, OrNoMemory<FormsFault>>
    ensures { Answers (λ a. a) result (ballot_in (view value.now)) }
{
    object_at(alloc, &Place::Whole, &["op", "proposal_id", "vote"], value)?;
    let proposal = sized_at(alloc, &Place::Whole, "proposal_id", value)?;
    let agrees = flag_at(alloc, &Place::Whole, "vote", value)?;
    Ok(MemberAct::Ballot { proposal, agrees })
}

#[tactic(auto, unfolding(crate::specs::Requests::withdraw_in))]
fn withdraw_in(alloc: Global, value: &Value) -> Result<MemberAct, OrNoMemory<FormsFault>>
    ensures { Answers (λ a. a) result (withdraw_in (view value.now)) }
{
    object_at(alloc, &Place::Whole, &["op", "proposal_id"], value)?;
    let proposal = sized_at(alloc, &Place::Whole, "proposal_id", value)?;
    Ok(MemberAct::Withdraw { proposal })
}

#[tactic(auto, unfolding(crate::specs::Requests::share_act_in))]
fn share_act_in(alloc: Global, value: &Value) -> Result<MemberAct, OrNoMemory<FormsFault>>
    ensures { Answers (λ a. a) result (share_act_in (view value.now)) }
{
    object_at(alloc, &Place::Whole, &["op", "share"], value)?;
    let share = sized_at(alloc, &Place::Whole, "share", value)?;
    Ok(MemberAct::Share { share })
}

#[tactic(auto, unfolding(crate::specs::Requests::act_named))]
fn act_named(alloc: Global, op: &str, value: &Value) -> Result<MemberAct, OrNoMemory<FormsFault>>
    ensures { Answers (λ a. a) result (act_named op.now (view value.now)) }
{
    if op == "ack" {
        ack_in(alloc, value)
    } else if op == "propose" {
        propose_in(alloc, value)
    } else if op == "ballot" {
        ballot_in(alloc, value)
    } else if op == "withdraw" {
        withdraw_in(alloc, value)
    } else if op == "share" {
        share_act_in(alloc, value)
    } else {
        Err(fault_at(alloc, &Place::Member(&Place::Whole, "op"), FormError::Shape))
    }
}

#[tactic(auto, unfolding(crate::specs::Requests::act_in))]
fn act_in(alloc: Global, value: &Value) -> Result<MemberAct, OrNoMemory<FormsFault>>
    ensures { Answers (λ a. a) result (act_in (view value.now)) }
{
    let op = word_at(alloc, &Place::Whole, "op", value)?;
    act_named(alloc, op, value)
}

/// The actions of the proposal that a JSON text is, all of it, or the first value of it that has
/// another form.
pub fn read_proposal(alloc: Global, text: &[u8]) -> Result<Sequence<Action>, OrNoMemory<FormsFault>>
    ensures exact { Answers (λ s. s) result (from_text proposal_in text.now) }
    ensures fits { IfOk result (λ s. are_actions s ≡ true) }
{
    let tree = read_tree(alloc, text)?;
    proposal_in(alloc, &tree)
}

/// What a member asks for by a JSON text, all of it, or the first value of it that has another
/// form.
pub fn read_request(alloc: Global, text: &[u8]) -> Result<MemberAct, OrNoMemory<FormsFault>>
    ensures exact { Answers (λ a. a) result (from_text act_in text.now) }
    ensures fits { IfOk result (λ a. is_act a ≡ true) }
{
    let tree = read_tree(alloc, text)?;
    act_in(alloc, &tree)
}
