//! What is in force: the constitution, the dealing of the recovery secret, the service's key and
//! its state, and the shares that members gave.

ghost use Rattle.std.specs.Prelude.{◌≡◌, filter_map, length, IfOk};
ghost use Rattle.std.specs.Option.{option_copied};
ghost use Rattle.gl_gov_rules.specs.Service.{sets_rules, sets_dealing, sets_identity, sets_state, clears_shares};
ghost use Rattle.gl_gov_rules.specs.Service.{given_after};

use crate::change::Change;
use crate::history::History;
use crate::request_facts::GivenShare;
use gl_index::push_some;
use gl_requests::{Action, Dealing, HssPublicKey, Rule, ServiceState};
use gl_shares::Share;
use std::alloc::{AllocError, Global};

/// The rules that the change sets.
fn sets_rules(change: &Change) -> Option<&[Rule]>
    ensures { option_copied result ≡ sets_rules change.now }
{
    match change {
        Change::Applied(Action::SetConstitution(rules)) => Some(rules.as_slice()),
        _ => None,
    }
}

/// The dealing that the change sets.
fn sets_dealing(change: &Change) -> Option<&Dealing>
    ensures { option_copied result ≡ sets_dealing change.now }
{
    match change {
        Change::Applied(Action::SetRecoveryThreshold(dealing)) => Some(dealing),
        _ => None,
    }
}

/// The service's key that the change sets.
fn sets_identity(change: &Change) -> Option<&HssPublicKey>
    ensures { option_copied result ≡ sets_identity change.now }
{
    match change {
        Change::Founded(_, key) => Some(key),
        Change::Recovered(key) => Some(key),
        _ => None,
    }
}

/// The state that the change sets the service to.
fn sets_state(recovered: bool, change: &Change) -> Option<ServiceState>
    ensures { result ≡ sets_state recovered change.now }
{
    match change {
        Change::Founded(state, _) => Some(*state),
        Change::Recovered(_) => Some(ServiceState::Opening),
        Change::Applied(Action::TransitionServiceToOpen) if recovered => {
            Some(ServiceState::WaitingForRecoveryShares)
        }
        Change::Applied(Action::TransitionServiceToOpen) => Some(ServiceState::Open),
        Change::Completed => Some(ServiceState::Open),
        _ => None,
    }
}

/// Whether the change clears the shares that were given.
fn clears_shares(change: &Change) -> bool
    ensures { result ≡ clears_shares change.now }
{
    matches!(
        change,
        Change::Applied(Action::SetRecoveryThreshold(_) | Action::TransitionServiceToOpen)
    )
}

/// The share, where it was given after this seqno.
fn given_after(seqno: u64, given: &GivenShare) -> Option<Share>
    ensures { result ≡ given_after seqno given.now }
{
    if seqno < given.seqno {
        Some(given.share)
    } else {
        None
    }
}

/// The shares that were given after this seqno.
fn shares_after(alloc: Global, seqno: u64, given: &[GivenShare]) -> Result<Vec<Share>, AllocError>
    ensures { IfOk result (λ shares.
        shares.items ≡ filter_map (given_after seqno) given.now) }
{
    let mut shares = Vec::new(alloc);
    for given in given {
        push_some(&mut shares, given_after(seqno, given))?;
    }
    Ok(shares)
}

impl History {
    ghost use Rattle.gl_gov_rules.specs.Service.{constitution, dealing, identity, is_recovered, service_state, last_clearing, shares_given};

    /// The constitution in force, none before a founding.
    pub fn constitution(&self) -> Option<&[Rule]>
        ensures { option_copied result ≡ constitution self.now }
    {
        match self
            .changes()
            .iter()
            .rev()
            .find(|changed| sets_rules(&changed.change).is_some())
        {
            None => None,
            Some(changed) => sets_rules(&changed.change),
        }
    }

    /// The dealing in force, none before a founding.
    pub fn dealing(&self) -> Option<&Dealing>
        ensures { option_copied result ≡ dealing self.now }
    {
        match self
            .changes()
            .iter()
            .rev()
            .find(|changed| sets_dealing(&changed.change).is_some())
        {
            None => None,
            Some(changed) => sets_dealing(&changed.change),
        }
    }

    /// The service's key, none before a founding.
    pub fn identity(&self) -> Option<&HssPublicKey>
        ensures { option_copied result ≡ identity self.now }
    {
        match self
            .changes()
            .iter()
            .rev()
            .find(|changed| sets_identity(&changed.change).is_some())
        {
            None => None,
            Some(changed) => sets_identity(&changed.change),
        }
    }

    /// Whether the service was recovered.
    #[tactic(auto, unfolding(crate::specs::Service::is_recovered))]
    pub fn is_recovered(&self) -> bool
        ensures { result ≡ is_recovered self.now }
    {
        self.changes()
            .iter()
            .any(|changed| matches!(changed.change, Change::Recovered(_)))
    }

    /// The service's state, none before a founding.
    pub fn service_state(&self) -> Option<ServiceState>
        ensures { result ≡ service_state self.now }
    {
        let recovered = self.is_recovered();
        match self
            .changes()
            .iter()
            .rev()
            .find(|changed| sets_state(recovered, &changed.change).is_some())
        {
            None => None,
            Some(changed) => sets_state(recovered, &changed.change),
        }
    }

    /// The seqno of the last change that cleared the shares that were given, or 0.
    fn last_clearing(&self) -> u64
        ensures { result ≡ last_clearing self.now }
    {
        match self
            .changes()
            .iter()
            .rev()
            .find(|changed| clears_shares(&changed.change))
        {
            None => 0,
            Some(changed) => changed.seqno,
        }
    }

    /// The shares given after the last change that cleared them, in the order in which they were
    /// given.
    #[tactic(auto, using(crate::proofs::HistoryIndex::shares_are))]
    pub fn shares_given(&self, alloc: Global) -> Result<Vec<Share>, AllocError>
        ensures { IfOk result (λ shares. shares.items ≡ shares_given self.now) }
    {
        shares_after(alloc, self.last_clearing(), self.given())
    }

    /// How many shares were given after the last change that cleared them.
    #[tactic(auto, using(crate::proofs::HistoryIndex::shares_count))]
    pub fn shares_given_count(&self) -> usize
        ensures { result ≡ length (shares_given self.now) }
    {
        let seqno = self.last_clearing();
        self.given()
            .iter()
            .filter(|given| seqno < given.seqno)
            .count()
    }
}
