//! A history with a few more actions applied, as a proposal's actions are tried one after another:
//! no part of the history is copied, and each question goes over the few actions besides.

ghost use Rattle.std.specs.Prelude.{◌≡◌, ◌&&◌, find, is_some, nat_lt, reverse};
ghost use Rattle.std.specs.List.{list_any};
ghost use Rattle.std.specs.Option.{option_copied};
ghost use Rattle.gl_gov_rules.specs.declared.change.Change.TheVariants as changes;
ghost use Rattle.gl_gov_rules.specs.Members.{has_number, removes_member};
ghost use Rattle.gl_gov_rules.specs.Nodes.{trusts, retires};
ghost use Rattle.gl_gov_rules.specs.Service.{sets_dealing, state_once_open};
ghost use Rattle.gl_gov_rules.specs.Actions.{has_key};
ghost use Rattle.gl_gov_decisions.specs.Trial.{takes_in, opens, status_after};

use gl_gov_rules::{History, NodeStatus, RecordedNode};
use gl_requests::{Action, Dealing, HssPublicKey, NewMember, NodeId, ServiceState};
use std::marker::Model;

/// A history, and actions that are applied after it by the entry with a seqno.
#[derive(Drop)]
pub(crate) struct Trial<'a> {
    past: &'a History,
    seqno: u64,
    applied: &'a [Action],
}

impl<'a> Model for Trial<'a> {
    ghost use Rattle.gl_gov_rules.specs.History.{History};
    ghost use Rattle.gl_gov_decisions.specs.Trial.{with_all_applied};

    ghost Value = { History };

    ghost view = { λ t. with_all_applied t.past.now t.seqno t.applied.now };
}

/// Whether one of these members has the number.
fn is_number_among(number: u8, members: &[NewMember]) -> bool
    ensures { result ≡ list_any (has_number number) members.now }
{
    members.iter().any(|member| member.number == number)
}

/// Whether one of these members has the key.
fn is_key_among(key: &HssPublicKey, members: &[NewMember]) -> bool
    ensures { result ≡ list_any (has_key key.now) members.now }
{
    members.iter().any(|member| member.key == *key)
}

fn takes_number(number: u8, action: &Action) -> bool
    ensures { result ≡ takes_in (has_number number) action.now }
{
    match action {
        Action::SetMember(member) => member.number == number,
        _ => false,
    }
}

/// Whether one of the actions takes in a member with this number.
fn take_number(number: u8, applied: &[Action]) -> bool
    ensures { result ≡ list_any (takes_in (has_number number)) applied.now }
{
    applied.iter().any(|action| takes_number(number, action))
}

fn takes_key(key: &HssPublicKey, action: &Action) -> bool
    ensures { result ≡ takes_in (has_key key.now) action.now }
{
    match action {
        Action::SetMember(member) => member.key == *key,
        _ => false,
    }
}

/// Whether one of the actions takes in a member with this key.
fn take_key(key: &HssPublicKey, applied: &[Action]) -> bool
    ensures { result ≡ list_any (takes_in (has_key key.now)) applied.now }
{
    applied.iter().any(|action| takes_key(key, action))
}

fn removes_member(number: u8, action: &Action) -> bool
    ensures { result ≡ removes_member number (changes.Applied action.now) }
{
    match action {
        Action::RemoveMember(removed) => *removed == number,
        _ => false,
    }
}

/// Whether one of the actions removes the member with this number.
fn remove_member(number: u8, applied: &[Action]) -> bool
    ensures { result
        ≡ list_any (λ a. removes_member number (changes.Applied a)) applied.now }
{
    applied.iter().any(|action| removes_member(number, action))
}

fn trusts(id: &NodeId, action: &Action) -> bool
    ensures { result ≡ trusts id.now (changes.Applied action.now) }
{
    match action {
        Action::TransitionNodeToTrusted(other) => id == other,
        _ => false,
    }
}

/// Whether one of the actions trusts the node.
fn trust_node(id: &NodeId, applied: &[Action]) -> bool
    ensures { result ≡ list_any (λ a. trusts id.now (changes.Applied a)) applied.now }
{
    applied.iter().any(|action| trusts(id, action))
}

fn retires(id: &NodeId, action: &Action) -> bool
    ensures { result ≡ retires id.now (changes.Applied action.now) }
{
    match action {
        Action::RemoveNode(other) => id == other,
        _ => false,
    }
}

/// Whether one of the actions, which the entry with a seqno applies, takes the node out of service.
fn retire_node(node: &RecordedNode, seqno: u64, applied: &[Action]) -> bool
    ensures { result ≡ list_any
        (λ a. nat_lt node.now.seqno seqno && retires node.now.id (changes.Applied a)) applied.now }
{
    applied
        .iter()
        .any(|action| node.seqno < seqno && retires(&node.id, action))
}

/// The status of a node after actions, of which one retires it or trusts it.
fn status_after(retired: bool, trusted: bool, status: NodeStatus) -> NodeStatus
    ensures { result ≡ status_after retired trusted status }
{
    match status {
        NodeStatus::Pending if retired => NodeStatus::Retired,
        NodeStatus::Pending if trusted => NodeStatus::Trusted,
        NodeStatus::Trusted if retired => NodeStatus::Retired,
        status => status,
    }
}

/// The dealing that the action sets.
fn dealing_set(action: &Action) -> Option<&Dealing>
    ensures { option_copied result ≡ sets_dealing (changes.Applied action.now) }
{
    match action {
        Action::SetRecoveryThreshold(dealing) => Some(dealing),
        _ => None,
    }
}

/// The last of the actions that sets a dealing.
fn last_dealing(applied: &[Action]) -> Option<&Action>
    ensures { option_copied result
        ≡ find (λ a. is_some (sets_dealing (changes.Applied a))) (reverse applied.now) }
{
    applied
        .iter()
        .rev()
        .find(|action| dealing_set(action).is_some())
}

fn opens(action: &Action) -> bool
    ensures { result ≡ opens action.now }
{
    matches!(action, Action::TransitionServiceToOpen)
}

/// Whether one of the actions opens the service.
fn open_service(applied: &[Action]) -> bool
    ensures { result ≡ list_any opens applied.now }
{
    applied.iter().any(|action| opens(action))
}

/// The state to which an opening sets the service.
fn state_once_open(recovered: bool) -> ServiceState
    ensures { result ≡ state_once_open recovered }
{
    if recovered {
        ServiceState::WaitingForRecoveryShares
    } else {
        ServiceState::Open
    }
}

impl<'a> Trial<'a> {
    ghost use Rattle.std.specs.Prelude.{◌≡◌};
    ghost use Rattle.std.specs.Option.{option_copied};
    ghost use Rattle.gl_gov_rules.specs.Members.{is_removed, is_present, present_count};
    ghost use Rattle.gl_gov_rules.specs.Nodes.{node, node_status, trusted_count};
    ghost use Rattle.gl_gov_rules.specs.Service.{dealing, service_state};
    ghost use Rattle.gl_gov_rules.specs.Actions.{is_number_used, is_key_used};
    ghost use Rattle.gl_gov_decisions.specs.Trial.{with_all_applied, takes_in};

    /// The history with these actions applied, in order, by the entry with a seqno.
    pub(crate) fn new(past: &'a History, seqno: u64, applied: &'a [Action]) -> Trial<'a>
        ensures { result ≡ with_all_applied past.now seqno applied.now }
    {
        Trial {
            past,
            seqno,
            applied,
        }
    }

    /// Whether the number is one that a member has or had.
    #[tactic(auto, using(crate::proofs::Applied::number_used))]
    pub(crate) fn is_number_used(&self, number: u8) -> bool
        ensures { result ≡ is_number_used self.now number }
    {
        is_number_among(number, self.past.members()) || take_number(number, self.applied)
    }

    /// Whether the key is one that a member has or had.
    #[tactic(auto, using(crate::proofs::Applied::key_used))]
    pub(crate) fn is_key_used(&self, key: &HssPublicKey) -> bool
        ensures { result ≡ is_key_used self.now key.now }
    {
        is_key_among(key, self.past.members()) || take_key(key, self.applied)
    }

    /// Whether a removal of the member was applied.
    #[tactic(auto, using(crate::proofs::Applied::removed))]
    fn is_removed(&self, number: u8) -> bool
        ensures { result ≡ is_removed self.now number }
    {
        self.past.is_removed(number) || remove_member(number, self.applied)
    }

    /// Whether there is such a member, and it was not removed.
    pub(crate) fn is_present(&self, number: u8) -> bool
        ensures { result ≡ is_present self.now number }
    {
        self.is_number_used(number) && !self.is_removed(number)
    }

    /// Whether the action takes in a member that is present.
    fn takes_present(&self, action: &Action) -> bool
        ensures { result ≡ takes_in (λ m. is_present self.now m.number) action.now }
    {
        match action {
            Action::SetMember(member) => self.is_present(member.number),
            _ => false,
        }
    }

    /// How many members are present.
    #[tactic(auto, using(crate::proofs::Applied::present_counted))]
    pub(crate) fn present_count(&self) -> usize
        ensures { result ≡ present_count self.now }
    {
        let members = self.past.members();
        let before = members
            .iter()
            .filter(|member| self.is_present(member.number))
            .count();
        let more = self
            .applied
            .iter()
            .filter(|action| self.takes_present(action))
            .count();
        before + more
    }

    /// The node with this identifier, if it is recorded.
    #[tactic(auto, using(crate::proofs::Applied::same_node))]
    pub(crate) fn node(&self, id: &NodeId) -> Option<&RecordedNode>
        ensures { option_copied result ≡ node self.now id.now }
    {
        self.past.node(id)
    }

    /// The node's status.
    pub(crate) fn node_status(&self, node: &RecordedNode) -> NodeStatus
        ensures { result ≡ node_status self.now node.now }
    {
        let retired = retire_node(node, self.seqno, self.applied);
        let trusted = trust_node(&node.id, self.applied);
        status_after(retired, trusted, self.past.node_status(node))
    }

    /// How many nodes are trusted.
    #[tactic(auto, using(crate::proofs::Applied::trusted_counted))]
    pub(crate) fn trusted_count(&self) -> usize
        ensures { result ≡ trusted_count self.now }
    {
        self.past
            .nodes()
            .iter()
            .filter(|node| matches!(self.node_status(node), NodeStatus::Trusted))
            .count()
    }

    /// The dealing in force, none before a founding.
    #[tactic(auto, using(crate::proofs::Applied::dealt_before, crate::proofs::Applied::dealt_last))]
    pub(crate) fn dealing(&self) -> Option<&Dealing>
        ensures { option_copied result ≡ dealing self.now }
    {
        match last_dealing(self.applied) {
            None => self.past.dealing(),
            Some(action) => dealing_set(action),
        }
    }

    /// The service's state, none before a founding.
    #[tactic(auto, using(crate::proofs::Applied::state_after))]
    pub(crate) fn service_state(&self) -> Option<ServiceState>
        ensures { result ≡ service_state self.now }
    {
        if open_service(self.applied) {
            Some(state_once_open(self.past.is_recovered()))
        } else {
            self.past.service_state()
        }
    }
}
