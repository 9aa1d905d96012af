//! Actions read from a JSON tree.

ghost use Rattle.std.specs.Prelude.{◌≡◌, map};
ghost use Rattle.gl_base.specs.Answers.{Answers};
ghost use Rattle.gl_forms.specs.Actions.{remove_member_in, set_threshold_in, set_member_in, node_id_in, trust_node_in, remove_node_in, open_service_in, rule_at, rules_of, rules_in, set_constitution_in, action_named, action_in, actions_in};
ghost use Rattle.gl_forms.specs.Form.{member_at, pair_in, some_object_in};
ghost use Rattle.gl_forms.specs.Place.{pointer_of};
ghost use Rattle.serde_json.specs.View.{view};

use crate::element::{Element, list_at};
use crate::fault::fault_at;
use crate::object::{byte_at, half_at, object_at, sized_at, text_at, value_at};
use crate::part::dealing_in;
use crate::place::Place;
use crate::value::{pair_in, some_object_in};
use gl_base::{FormsFault, OrNoMemory, Sequence};
use gl_json::FormError;
use gl_requests::{Action, NewMember, NodeId, Rule};
use serde_json::Value;
use std::alloc::Global;

// The names of the actions, in the order of their rules.
const ACTION_NAMES: [&str; 7] = [
    "set_member",
    "remove_member",
    "set_recovery_threshold",
    "transition_node_to_trusted",
    "remove_node",
    "transition_service_to_open",
    "set_constitution",
];

#[tactic(auto, unfolding(crate::specs::Actions::set_member_in))]
fn set_member_in(
    alloc: Global,
    place: &Place,
    args: &Value,
) -> Result<Action, OrNoMemory<FormsFault>>
    ensures { Answers (λ a. a) result (set_member_in (pointer_of place.now) (view args.now)) }
{
    let member = NewMember::read(alloc, place, args)?;
    Ok(Action::SetMember(member))
}

#[tactic(auto, unfolding(crate::specs::Actions::remove_member_in))]
fn remove_member_in(
    alloc: Global,
    place: &Place,
    args: &Value,
) -> Result<Action, OrNoMemory<FormsFault>>
    ensures { Answers (λ a. a) result (remove_member_in (pointer_of place.now) (view args.now)) }
{
    object_at(alloc, place, &["number"], args)?;
    let number = byte_at(alloc, place, "number", 1, args)?;
    Ok(Action::RemoveMember(number))
}

#[tactic(auto, unfolding(crate::specs::Actions::set_threshold_in))]
fn set_threshold_in(
    alloc: Global,
    place: &Place,
    args: &Value,
) -> Result<Action, OrNoMemory<FormsFault>>
    ensures { Answers (λ a. a) result (set_threshold_in (pointer_of place.now) (view args.now)) }
{
    let dealing = dealing_in(alloc, place, args)?;
    Ok(Action::SetRecoveryThreshold(dealing))
}

/// The identifier of a node that is the one argument.
#[tactic(auto, unfolding(crate::specs::Actions::node_id_in))]
fn node_id_in(alloc: Global, place: &Place, args: &Value) -> Result<NodeId, OrNoMemory<FormsFault>>
    ensures { Answers (λ id. id) result (node_id_in (pointer_of place.now) (view args.now)) }
{
    object_at(alloc, place, &["node"], args)?;
    sized_at(alloc, place, "node", args)
}

#[tactic(auto, unfolding(crate::specs::Actions::trust_node_in))]
fn trust_node_in(
    alloc: Global,
    place: &Place,
    args: &Value,
) -> Result<Action, OrNoMemory<FormsFault>>
    ensures { Answers (λ a. a) result (trust_node_in (pointer_of place.now) (view args.now)) }
{
    let id = node_id_in(alloc, place, args)?;
    Ok(Action::TransitionNodeToTrusted(id))
}

#[tactic(auto, unfolding(crate::specs::Actions::remove_node_in))]
fn remove_node_in(
    alloc: Global,
    place: &Place,
    args: &Value,
) -> Result<Action, OrNoMemory<FormsFault>>
    ensures { Answers (λ a. a) result (remove_node_in (pointer_of place.now) (view args.now)) }
{
    let id = node_id_in(alloc, place, args)?;
    Ok(Action::RemoveNode(id))
}

#[tactic(auto, unfolding(crate::specs::Actions::open_service_in))]
fn open_service_in(
    alloc: Global,
    place: &Place,
    args: &Value,
) -> Result<Action, OrNoMemory<FormsFault>>
    ensures { Answers (λ a. a) result (open_service_in (pointer_of place.now) (view args.now)) }
{
    object_at(alloc, place, &[], args)?;
    Ok(Action::TransitionServiceToOpen)
}

/// A member that is a list of two elements, as it is.
fn pair_at<'a>(
    alloc: Global,
    place: &Place,
    name: &str,
    value: &'a Value,
) -> Result<&'a Value, OrNoMemory<FormsFault>>
    ensures { Answers (λ v. view v.now) result
        (member_at pair_in (pointer_of place.now) name.now (view value.now)) }
{
    match pair_in(value.get(name)) {
        Ok(pair) => Ok(pair),
        Err(form_error) => Err(fault_at(alloc, &Place::Member(place, name), form_error)),
    }
}

/// The rule of the action with this name.
#[tactic(auto, unfolding(crate::specs::Actions::rule_at))]
fn rule_at(
    alloc: Global,
    place: &Place,
    name: &str,
    value: &Value,
) -> Result<Rule, OrNoMemory<FormsFault>>
    ensures { Answers (λ r. r) result (rule_at (pointer_of place.now) name.now (view value.now)) }
{
    let pair = pair_at(alloc, place, name, value)?;
    let place = Place::Member(place, name);
    let num = half_at(alloc, &place, 0, pair)?;
    let den = half_at(alloc, &place, 1, pair)?;
    Ok(Rule { num, den })
}

fn rules_of(
    alloc: Global,
    place: &Place,
    names: &[&str],
    value: &Value,
) -> Result<Vec<Rule>, OrNoMemory<FormsFault>>
    ensures { Answers (λ v. v.items) result
        (rules_of (pointer_of place.now) (map (λ s. s.now) names.now) (view value.now)) }
{
    let mut rules = Vec::new(alloc);
    for &name in names {
        rules.push(rule_at(alloc, place, name, value)?)?;
    }
    Ok(rules)
}

/// A rule for each of the seven actions.
#[tactic(auto, unfolding(crate::specs::Actions::rules_in))]
fn rules_in(
    alloc: Global,
    place: &Place,
    value: &Value,
) -> Result<Sequence<Rule>, OrNoMemory<FormsFault>>
    ensures { Answers (λ s. s) result (rules_in (pointer_of place.now) (view value.now)) }
{
    object_at(alloc, place, &ACTION_NAMES, value)?;
    Ok(Sequence::from(rules_of(alloc, place, &ACTION_NAMES, value)?))
}

#[tactic(auto, unfolding(crate::specs::Actions::set_constitution_in))]
fn set_constitution_in(
    alloc: Global,
    place: &Place,
    args: &Value,
) -> Result<Action, OrNoMemory<FormsFault>>
    ensures { Answers (λ a. a) result
        (set_constitution_in (pointer_of place.now) (view args.now)) }
{
    object_at(alloc, place, &["rules"], args)?;
    let object = value_at(alloc, place, "rules", args)?;
    let rules = rules_in(alloc, &Place::Member(place, "rules"), object)?;
    Ok(Action::SetConstitution(rules))
}

/// The action with this name, of the arguments at a place. The name stands at the place `named`.
#[tactic(auto, unfolding(crate::specs::Actions::action_named))]
fn action_named(
    alloc: Global,
    named: &Place,
    name: &str,
    place: &Place,
    args: &Value,
) -> Result<Action, OrNoMemory<FormsFault>>
    ensures { Answers (λ a. a) result
        (action_named (pointer_of named.now) name.now (pointer_of place.now) (view args.now)) }
{
    if name == "set_member" {
        set_member_in(alloc, place, args)
    } else if name == "remove_member" {
        remove_member_in(alloc, place, args)
    } else if name == "set_recovery_threshold" {
        set_threshold_in(alloc, place, args)
    } else if name == "transition_node_to_trusted" {
        trust_node_in(alloc, place, args)
    } else if name == "remove_node" {
        remove_node_in(alloc, place, args)
    } else if name == "transition_service_to_open" {
        open_service_in(alloc, place, args)
    } else if name == "set_constitution" {
        set_constitution_in(alloc, place, args)
    } else {
        Err(fault_at(alloc, named, FormError::Shape))
    }
}

/// A member that is some object, as it is.
fn some_object_at<'a>(
    alloc: Global,
    place: &Place,
    name: &str,
    value: &'a Value,
) -> Result<&'a Value, OrNoMemory<FormsFault>>
    ensures { Answers (λ v. view v.now) result
        (member_at some_object_in (pointer_of place.now) name.now (view value.now)) }
{
    match some_object_in(value.get(name)) {
        Ok(object) => Ok(object),
        Err(form_error) => Err(fault_at(alloc, &Place::Member(place, name), form_error)),
    }
}

impl Element for Action {
    ghost form = { action_in };

    #[tactic(auto, unfolding(crate::specs::Actions::action_in))]
    fn read(alloc: Global, place: &Place, value: &Value) -> Result<Action, OrNoMemory<FormsFault>> {
        object_at(alloc, place, &["args", "name"], value)?;
        let args = some_object_at(alloc, place, "args", value)?;
        let name = text_at(alloc, place, "name", value)?;
        let named = Place::Member(place, "name");
        action_named(alloc, &named, name, &Place::Member(place, "args"), args)
    }
}

/// The actions of a proposal, in the member `actions` of the whole.
#[tactic(auto, unfolding(crate::specs::Actions::actions_in))]
pub(crate) fn actions_in(
    alloc: Global,
    value: &Value,
) -> Result<Sequence<Action>, OrNoMemory<FormsFault>>
    ensures { Answers (λ s. s) result (actions_in (view value.now)) }
{
    list_at(alloc, &Place::Whole, "actions", 1, 16, value)
}
