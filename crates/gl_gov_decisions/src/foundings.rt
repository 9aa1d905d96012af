//! What is wrong with a founding, or with a recovery that recovers a service.

ghost use Rattle.std.specs.Prelude.{◌≡◌, not};
ghost use Rattle.std.specs.List.{list_any};
ghost use Rattle.gl_gov_rules.specs.Members.{has_number};
ghost use Rattle.gl_gov_rules.specs.Actions.{where_is, has_key};
ghost use Rattle.gl_gov_rules.specs.Refusals.{are_numbers_distinct, are_keys_distinct, is_node_with, are_ids_distinct, is_any_recorded, are_held_by, is_dealing_to, founding_fault, members_refusal, nodes_refusal, are_endorsed, genesis_refusal, recovery_refusal};

use crate::actions::is_dealing_in_order;
use crate::limits::{MAX_MEMBERS, MAX_RECORDED_NODES, MAX_TRUSTED_NODES};
use crate::signatures::is_endorsed;
use gl_gov_rules::{Cause, GovernanceRefusal, History};
use gl_requests::{
    Dealing, Genesis, HssPublicKey, NewMember, NewNode, NodeId, Recovery, ShareDigest,
};

/// Whether one of these members has the number.
fn is_number_among(number: u8, members: &[NewMember]) -> bool
    ensures { result ≡ list_any (has_number number) members.now }
{
    members.iter().any(|member| member.number == number)
}

/// Whether no number stands there twice.
fn are_numbers_distinct(members: &[NewMember]) -> bool
    ensures { result ≡ are_numbers_distinct members.now }
{
    for (i, member) in members.iter().enumerate() {
        if is_number_among(member.number, &members[i + 1..]) {
            return false;
        }
    }
    true
}

/// Whether one of these members has the key.
fn is_key_among(key: &HssPublicKey, members: &[NewMember]) -> bool
    ensures { result ≡ list_any (has_key key.now) members.now }
{
    members.iter().any(|member| member.key == *key)
}

/// Whether no key stands there twice.
fn are_keys_distinct(members: &[NewMember]) -> bool
    ensures { result ≡ are_keys_distinct members.now }
{
    for (i, member) in members.iter().enumerate() {
        if is_key_among(&member.key, &members[i + 1..]) {
            return false;
        }
    }
    true
}

/// Whether one of these nodes has the identifier.
fn is_id_among(id: &NodeId, nodes: &[NewNode]) -> bool
    ensures { result ≡ list_any (is_node_with id.now) nodes.now }
{
    nodes.iter().any(|node| node.id() == *id)
}

/// Whether no identifier stands there twice.
fn are_ids_distinct(nodes: &[NewNode]) -> bool
    ensures { result ≡ are_ids_distinct nodes.now }
{
    for (i, node) in nodes.iter().enumerate() {
        if is_id_among(&node.id(), &nodes[i + 1..]) {
            return false;
        }
    }
    true
}

/// Whether one of these nodes is recorded already.
#[tactic(auto, unfolding(gl_gov_rules::specs::Refusals::is_any_recorded))]
fn is_any_recorded(past: &History, nodes: &[NewNode]) -> bool
    ensures { result ≡ is_any_recorded past.now nodes.now }
{
    nodes.iter().any(|node| past.node(&node.id()).is_some())
}

/// Whether all who are to hold these shares are among the members.
fn are_held_by(members: &[NewMember], shares: &[ShareDigest]) -> bool
    ensures { result ≡ are_held_by members.now shares.now }
{
    shares
        .iter()
        .all(|share| is_number_among(share.member, members))
}

/// Whether the dealing of a founding is among the members that it names.
fn is_dealing_to(members: &[NewMember], dealing: &Dealing) -> bool
    ensures { result ≡ is_dealing_to members.now dealing.now }
{
    is_dealing_in_order(dealing) && are_held_by(members, dealing.shares.as_slice())
}

/// What is bad in a founding, at the index 0.
fn founding_fault(cause: Cause) -> GovernanceRefusal
    ensures { result ≡ founding_fault cause }
{
    GovernanceRefusal::BadAction { index: 0, cause }
}

/// What is wrong with the members and the dealing of a founding.
#[tactic(auto, unfolding(gl_gov_rules::specs::Refusals::members_refusal))]
fn members_refusal(genesis: &Genesis) -> Option<GovernanceRefusal>
    ensures { result ≡ members_refusal genesis.now }
{
    let members = genesis.members.as_slice();
    if !are_numbers_distinct(members) {
        Some(founding_fault(Cause::NumberUsed))
    } else if !are_keys_distinct(members) {
        Some(founding_fault(Cause::KeyUsed))
    } else if MAX_MEMBERS < members.len() {
        Some(founding_fault(Cause::Full))
    } else if !is_dealing_to(members, &genesis.dealing) {
        Some(founding_fault(Cause::Dealing))
    } else {
        None
    }
}

/// What is wrong with the nodes of a founding: one is named twice or recorded already, they are too
/// many, or there is none.
#[tactic(auto, unfolding(gl_gov_rules::specs::Refusals::nodes_refusal))]
fn nodes_refusal(past: &History, nodes: &[NewNode]) -> Option<GovernanceRefusal>
    ensures { result ≡ nodes_refusal past.now nodes.now }
{
    if !are_ids_distinct(nodes) || is_any_recorded(past, nodes) {
        Some(founding_fault(Cause::NodeStatus))
    } else if MAX_TRUSTED_NODES < nodes.len()
        || (MAX_RECORDED_NODES as u128) < past.nodes().len() as u128 + nodes.len() as u128
    {
        Some(founding_fault(Cause::Full))
    } else if nodes.is_empty() {
        Some(founding_fault(Cause::LastTrusted))
    } else {
        None
    }
}

/// Whether each node has the endorsement of the service's key.
#[tactic(auto, unfolding(gl_gov_rules::specs::Refusals::are_endorsed))]
fn are_endorsed(key: &HssPublicKey, nodes: &[NewNode]) -> bool
    ensures { result ≡ are_endorsed key.now nodes.now }
{
    nodes.iter().all(|node| is_endorsed(key, &node.key, node.endorsement.as_slice()))
}

/// What is wrong with the endorsements of a founding.
fn endorsements_refusal(key: &HssPublicKey, nodes: &[NewNode]) -> Option<GovernanceRefusal>
    ensures { result
        ≡ where_is (not (are_endorsed key.now nodes.now)) GovernanceRefusal.Signature }
{
    if are_endorsed(key, nodes) {
        None
    } else {
        Some(GovernanceRefusal::Signature)
    }
}

/// What is wrong with a founding.
#[tactic(auto, unfolding(gl_gov_rules::specs::Refusals::genesis_refusal))]
pub(crate) fn genesis_refusal(past: &History, genesis: &Genesis) -> Option<GovernanceRefusal>
    ensures { result ≡ genesis_refusal past.now genesis.now }
{
    let nodes = genesis.nodes.as_slice();
    if let Some(why) = members_refusal(genesis) {
        return Some(why);
    }
    if let Some(why) = nodes_refusal(past, nodes) {
        return Some(why);
    }
    endorsements_refusal(&genesis.identity, nodes)
}

/// What is wrong with a recovery.
#[tactic(auto, unfolding(gl_gov_rules::specs::Refusals::recovery_refusal))]
pub(crate) fn recovery_refusal(past: &History, recovery: &Recovery) -> Option<GovernanceRefusal>
    ensures { result ≡ recovery_refusal past.now recovery.now }
{
    let nodes = recovery.nodes.as_slice();
    if let Some(why) = nodes_refusal(past, nodes) {
        return Some(why);
    }
    endorsements_refusal(&recovery.identity, nodes)
}
