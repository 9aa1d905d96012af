//! What a request brings about: the ballots are counted again at each ballot, and what is accepted
//! is applied then.

ghost use Rattle.std.specs.Prelude.{◌≡◌, ◌++◌, ◌∷◌, [], if◌then◌else◌, IfOk, OnOk, map};
ghost use Rattle.gl_gov_rules.specs.Service.{shares_given};
ghost use Rattle.gl_gov_rules.specs.Proposals.{answers_with};
ghost use Rattle.gl_gov_rules.specs.Tally.{tally};
ghost use Rattle.gl_gov_rules.specs.Changes.{first_rules, set_member, founding_changes, acceptance_changes, ballot_changes, is_complete, act_changes, changes_of, changed_at};

use crate::actions::first_bad_action;
use crate::tally::{is_accepted, is_rejected, tally};
use gl_base::Sequence;
use gl_gov_rules::{Cause, Change, Changed, History, ProposalState, Recorded};
use gl_requests::{Action, Digest, Genesis, GovernanceRequest, MemberAct, NewMember, Rule};
use gl_shares::Share;
use std::alloc::{AllocError, Global};

/// The rules of a service that is founded: more than half of the active members agree.
fn first_rules(alloc: Global) -> Result<Sequence<Rule>, AllocError>
    ensures { IfOk result (λ rules. rules ≡ first_rules) }
{
    let half = Rule { num: 1, den: 2 };
    let rules = Vec::from_slice(alloc, &[half, half, half, half, half, half, half])?;
    Ok(Sequence::from(rules))
}

/// Adds a change at a seqno.
fn put(out: &mut Vec<Changed>, seqno: u64, change: Change) -> Result<(), AllocError>
    ensures { OnOk result (out.new.items ≡ out.old.items ++ changed_at seqno change ∷ []) }
{
    out.push(Changed { seqno, change })?;
    Ok(())
}

/// Adds that each of these members is taken in.
fn put_members(out: &mut Vec<Changed>, seqno: u64, members: &[NewMember]) -> Result<(), AllocError>
    ensures { OnOk result (out.new.items
        ≡ out.old.items ++ map (changed_at seqno) (map set_member members.now)) }
{
    for member in members {
        put(out, seqno, Change::Applied(Action::SetMember(*member)))?;
    }
    Ok(())
}

/// Adds that each of these actions is applied.
fn put_actions(
    alloc: Global,
    out: &mut Vec<Changed>,
    seqno: u64,
    actions: &[Action],
) -> Result<(), AllocError>
    ensures { OnOk result (out.new.items
        ≡ out.old.items ++ map (changed_at seqno) (map (λ a. Change.Applied a) actions.now)) }
{
    for action in actions {
        put(out, seqno, Change::Applied(action.copy(alloc)?))?;
    }
    Ok(())
}

/// What a founding brings about.
fn founding_changes(
    alloc: Global,
    seqno: u64,
    genesis: &Genesis,
) -> Result<Vec<Changed>, AllocError>
    ensures { IfOk result (λ out.
        out.items ≡ map (changed_at seqno) (founding_changes genesis.now)) }
{
    let rules = Action::SetConstitution(first_rules(alloc)?);
    let dealing = Action::SetRecoveryThreshold(genesis.dealing.copy(alloc)?);
    let founded = Change::Founded(genesis.state, genesis.identity);
    let mut out = Vec::new(alloc);
    put(&mut out, seqno, founded)?;
    put(&mut out, seqno, Change::Applied(rules))?;
    put(&mut out, seqno, Change::Applied(dealing))?;
    put_members(&mut out, seqno, genesis.members.as_slice())?;
    Ok(out)
}

/// One change.
fn one_change(alloc: Global, seqno: u64, change: Change) -> Result<Vec<Changed>, AllocError>
    ensures { IfOk result (λ out. out.items ≡ map (changed_at seqno) (change ∷ [])) }
{
    let mut out = Vec::new(alloc);
    put(&mut out, seqno, change)?;
    Ok(out)
}

/// What comes of a proposal that enough members agree to, and of which this action is bad, if one
/// is.
fn acceptance_changes(
    alloc: Global,
    seqno: u64,
    id: Digest,
    actions: &[Action],
    bad: Option<(u64, Cause)>,
) -> Result<Vec<Changed>, AllocError>
    ensures { IfOk result (λ out.
        out.items ≡ map (changed_at seqno) (acceptance_changes id actions.now bad)) }
{
    match bad {
        Some(_) => one_change(alloc, seqno, Change::Settled(id, ProposalState::Failed)),
        None => {
            let settled = Change::Settled(id, ProposalState::Accepted);
            let mut out = one_change(alloc, seqno, settled)?;
            put_actions(alloc, &mut out, seqno, actions)?;
            Ok(out)
        }
    }
}

/// What the ballot `last` brings about on a proposal with these actions.
#[tactic(auto, unfolding(gl_gov_rules::specs::Changes::ballot_changes))]
fn ballot_changes(
    alloc: Global,
    past: &History,
    last: &Recorded,
    id: Digest,
    actions: &[Action],
) -> Result<Vec<Changed>, AllocError>
    ensures { IfOk result (λ out. out.items
        ≡ map (changed_at last.now.seqno) (ballot_changes past.now last.now.seqno id
        (tally past.now (answers_with past.now last.now.request) id) actions.now)) }
{
    let seqno = last.seqno;
    let tally = tally(past, last, &id);
    if is_accepted(past, tally, actions) {
        let bad = first_bad_action(past, seqno, actions);
        acceptance_changes(alloc, seqno, id, actions, bad)
    } else if is_rejected(past, tally, actions) {
        one_change(alloc, seqno, Change::Settled(id, ProposalState::Rejected))
    } else {
        Ok(Vec::new(alloc))
    }
}

/// Whether one more share, with these, which were given, is as many as the dealing asks for.
#[tactic(auto, unfolding(gl_gov_rules::specs::Changes::is_complete))]
pub(crate) fn is_complete(past: &History, given: &[Share]) -> bool
    requires { given.now ≡ shares_given past.now }
    ensures { result ≡ is_complete past.now }
{
    match past.dealing() {
        None => true,
        Some(dealing) => dealing.threshold as u128 <= given.len() as u128 + 1,
    }
}

/// What a share brings about.
fn share_changes(alloc: Global, past: &History, seqno: u64) -> Result<Vec<Changed>, AllocError>
    ensures { IfOk result (λ out. out.items ≡ map (changed_at seqno)
        (if is_complete past.now then Change.Completed ∷ [] else [])) }
{
    let given = past.shares_given(alloc)?;
    if is_complete(past, &given) {
        one_change(alloc, seqno, Change::Completed)
    } else {
        Ok(Vec::new(alloc))
    }
}

/// What a member asks for in the request `last` brings about.
fn act_changes(
    alloc: Global,
    past: &History,
    last: &Recorded,
    act: &MemberAct,
) -> Result<Vec<Changed>, AllocError>
    ensures { IfOk result (λ out. out.items ≡ map (changed_at last.now.seqno)
        (act_changes past.now (answers_with past.now last.now.request) last.now.seqno act.now)) }
{
    match act {
        MemberAct::Ballot {
            proposal,
            agrees: _,
        } => match past.proposal(proposal) {
            None => Ok(Vec::new(alloc)),
            Some(found) => ballot_changes(alloc, past, last, *proposal, found.actions.as_slice()),
        },
        MemberAct::Withdraw { proposal } => {
            let settled = Change::Settled(*proposal, ProposalState::Withdrawn);
            one_change(alloc, last.seqno, settled)
        }
        MemberAct::Share { share: _ } => share_changes(alloc, past, last.seqno),
        _ => Ok(Vec::new(alloc)),
    }
}

/// What a request that is recorded after a history brings about, each change at its seqno.
#[tactic(auto, unfolding(gl_gov_rules::specs::Changes::changes_of))]
pub fn changes_of(
    alloc: Global,
    past: &History,
    recorded: &Recorded,
) -> Result<Vec<Changed>, AllocError>
    ensures changes { IfOk result (λ out. out.items
        ≡ map (changed_at recorded.now.seqno) (changes_of past.now recorded.now)) }
{
    let seqno = recorded.seqno;
    match &recorded.request {
        GovernanceRequest::Genesis(genesis) => founding_changes(alloc, seqno, genesis),
        GovernanceRequest::Recover(recovery) => {
            one_change(alloc, seqno, Change::Recovered(recovery.identity))
        }
        GovernanceRequest::Member(request) => act_changes(alloc, past, recorded, &request.act),
        _ => Ok(Vec::new(alloc)),
    }
}
