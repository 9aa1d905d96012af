//! When an action is bad, and what a proposal's actions come to when they are applied in order.

ghost use Rattle.std.specs.Prelude.{◌≡◌, ◌≤◌, length, IfSome, Some};
ghost use Rattle.gl_gov_rules.specs.Nodes.{is_pending_status, is_trusted_status};
ghost use Rattle.gl_gov_rules.specs.Actions.{is_below_all, is_ascending, is_dealing_in_order, are_present, is_dealing_among, holders_without, are_too_few_without, is_pending_node, is_trusted_node, are_fractions, is_opening, cause_against, first_bad_action};

use crate::limits::{MAX_DENOMINATOR, MAX_MEMBERS, MAX_TRUSTED_NODES};
use crate::trial::Trial;
use gl_gov_rules::{Cause, History, NodeStatus, RecordedNode};
use gl_requests::{Action, Dealing, NewMember, NodeId, Rule, ServiceState, ShareDigest};

/// Why a member can't be taken in.
#[tactic(auto, unfolding(gl_gov_rules::specs::Actions::cause_against))]
fn cause_against_member(past: &Trial, member: &NewMember) -> Option<Cause>
    ensures { result ≡ cause_against past.now (Action.SetMember member.now) }
{
    if past.is_number_used(member.number) {
        Some(Cause::NumberUsed)
    } else if past.is_key_used(&member.key) {
        Some(Cause::KeyUsed)
    } else if MAX_MEMBERS <= past.present_count() {
        Some(Cause::Full)
    } else {
        None
    }
}

/// Whether the number is below those of all who are to hold these shares.
fn is_below_all(number: u8, shares: &[ShareDigest]) -> bool
    ensures { result ≡ is_below_all number shares.now }
{
    shares.iter().all(|share| number < share.member)
}

/// Whether the shares are for members in ascending order.
fn is_ascending(shares: &[ShareDigest]) -> bool
    ensures { result ≡ is_ascending shares.now }
{
    for (i, share) in shares.iter().enumerate() {
        if !is_below_all(share.member, &shares[i + 1..]) {
            return false;
        }
    }
    true
}

/// Whether the threshold is at least 1, and there are as many shares, for members in ascending
/// order.
pub(crate) fn is_dealing_in_order(dealing: &Dealing) -> bool
    ensures { result ≡ is_dealing_in_order dealing.now }
{
    let shares = dealing.shares.as_slice();
    1 <= dealing.threshold && dealing.threshold as usize <= shares.len() && is_ascending(shares)
}

/// Whether all who are to hold these shares are present.
#[tactic(auto, unfolding(gl_gov_rules::specs::Actions::are_present))]
fn are_present(past: &Trial, shares: &[ShareDigest]) -> bool
    ensures { result ≡ are_present past.now shares.now }
{
    shares.iter().all(|share| past.is_present(share.member))
}

/// Whether the dealing is one among members that are present.
#[tactic(auto, unfolding(gl_gov_rules::specs::Actions::is_dealing_among))]
fn is_dealing_among(past: &Trial, dealing: &Dealing) -> bool
    ensures { result ≡ is_dealing_among past.now dealing.now }
{
    is_dealing_in_order(dealing) && are_present(past, dealing.shares.as_slice())
}

/// How many holders of a share would be left without this member.
fn holders_without(past: &Trial, number: u8, dealing: &Dealing) -> usize
    ensures { result ≡ holders_without past.now number (Some dealing.now) }
{
    dealing
        .shares
        .as_slice()
        .iter()
        .filter(|share| past.is_present(share.member) && share.member != number)
        .count()
}

/// Whether fewer holders of a share would be left than the dealing in force asks for.
#[tactic(auto, unfolding(gl_gov_rules::specs::Actions::are_too_few_without))]
fn are_too_few_without(past: &Trial, number: u8) -> bool
    ensures { result ≡ are_too_few_without past.now number }
{
    match past.dealing() {
        None => false,
        Some(dealing) => holders_without(past, number, dealing) < dealing.threshold as usize,
    }
}

/// Why a member can't be removed.
#[tactic(auto, unfolding(gl_gov_rules::specs::Actions::cause_against))]
fn cause_against_removal(past: &Trial, number: u8) -> Option<Cause>
    ensures { result ≡ cause_against past.now (Action.RemoveMember number) }
{
    if !past.is_present(number) {
        Some(Cause::NotPresent)
    } else if are_too_few_without(past, number) {
        Some(Cause::TooFewHolders)
    } else {
        None
    }
}

/// Why a recovery secret can't be dealt so.
#[tactic(auto, unfolding(gl_gov_rules::specs::Actions::cause_against))]
fn cause_against_dealing(past: &Trial, dealing: &Dealing) -> Option<Cause>
    ensures { result ≡ cause_against past.now (Action.SetRecoveryThreshold dealing.now) }
{
    if is_dealing_among(past, dealing) {
        None
    } else {
        Some(Cause::Dealing)
    }
}

fn is_pending(status: NodeStatus) -> bool
    ensures { result ≡ is_pending_status status }
{
    matches!(status, NodeStatus::Pending)
}

fn is_trusted(status: NodeStatus) -> bool
    ensures { result ≡ is_trusted_status status }
{
    matches!(status, NodeStatus::Trusted)
}

fn is_pending_node(past: &Trial, node: &RecordedNode) -> bool
    ensures { result ≡ is_pending_node past.now (Some node.now) }
{
    is_pending(past.node_status(node))
}

fn is_trusted_node(past: &Trial, node: &RecordedNode) -> bool
    ensures { result ≡ is_trusted_node past.now (Some node.now) }
{
    is_trusted(past.node_status(node))
}

/// Why a node can't be trusted.
#[tactic(auto, unfolding(gl_gov_rules::specs::Actions::cause_against))]
fn cause_against_trust(past: &Trial, id: &NodeId) -> Option<Cause>
    ensures { result ≡ cause_against past.now (Action.TransitionNodeToTrusted id.now) }
{
    match past.node(id) {
        None => Some(Cause::NotRecorded),
        Some(node) => {
            if !is_pending_node(past, node) {
                Some(Cause::NodeStatus)
            } else if MAX_TRUSTED_NODES <= past.trusted_count() {
                Some(Cause::Full)
            } else {
                None
            }
        }
    }
}

/// Why a node can't be taken out of service.
#[tactic(auto, unfolding(gl_gov_rules::specs::Actions::cause_against))]
fn cause_against_retirement(past: &Trial, id: &NodeId) -> Option<Cause>
    ensures { result ≡ cause_against past.now (Action.RemoveNode id.now) }
{
    match past.node(id) {
        None => Some(Cause::NotRecorded),
        Some(node) => {
            if !(is_pending_node(past, node) || is_trusted_node(past, node)) {
                Some(Cause::NodeStatus)
            } else if is_trusted_node(past, node) && past.trusted_count() == 1 {
                Some(Cause::LastTrusted)
            } else {
                None
            }
        }
    }
}

fn is_opening(state: Option<ServiceState>) -> bool
    ensures { result ≡ is_opening state }
{
    matches!(state, Some(ServiceState::Opening))
}

/// Why the service can't be opened.
#[tactic(auto, unfolding(gl_gov_rules::specs::Actions::cause_against))]
fn cause_against_opening(past: &Trial) -> Option<Cause>
    ensures { result ≡ cause_against past.now Action.TransitionServiceToOpen }
{
    if is_opening(past.service_state()) {
        None
    } else {
        Some(Cause::NotOpening)
    }
}

/// Whether each numerator is below its denominator, which is at most 1,000.
fn are_fractions(rules: &[Rule]) -> bool
    ensures { result ≡ are_fractions rules.now }
{
    rules
        .iter()
        .all(|rule| rule.num < rule.den && rule.den <= MAX_DENOMINATOR)
}

/// Why a constitution can't be set. The history plays no part in it.
#[tactic(auto, unfolding(gl_gov_rules::specs::Actions::cause_against))]
fn cause_against_rules(past: &Trial, rules: &[Rule]) -> Option<Cause>
    ensures { result ≡ cause_against past.now (Action.SetConstitution rules.now) }
{
    if are_fractions(rules) {
        None
    } else {
        Some(Cause::Fraction)
    }
}

/// Why an action can't be applied after a history, if it can't: the first cause that stands.
fn cause_against(past: &Trial, action: &Action) -> Option<Cause>
    ensures { result ≡ cause_against past.now action.now }
{
    match action {
        Action::SetMember(member) => cause_against_member(past, member),
        Action::RemoveMember(number) => cause_against_removal(past, *number),
        Action::SetRecoveryThreshold(dealing) => cause_against_dealing(past, dealing),
        Action::TransitionNodeToTrusted(id) => cause_against_trust(past, id),
        Action::RemoveNode(id) => cause_against_retirement(past, id),
        Action::TransitionServiceToOpen => cause_against_opening(past),
        Action::SetConstitution(rules) => cause_against_rules(past, rules.as_slice()),
    }
}

/// The index, counted from 1, and the cause of the first action that is bad when they are applied
/// in order, by the entry with a seqno: each is tried on the history with those before it.
pub(crate) fn first_bad_action(
    past: &History,
    seqno: u64,
    actions: &[Action],
) -> Option<(u64, Cause)>
    ensures first { result ≡ first_bad_action past.now seqno 1 actions.now }
    ensures index { IfSome result (λ bad. bad.0 ≤ length actions.now) }
{
    for (i, action) in actions.iter().enumerate() {
        let trial = Trial::new(past, seqno, &actions[..i]);
        if let Some(cause) = cause_against(&trial, action) {
            return Some((i as u64 + 1, cause));
        }
    }
    None
}
