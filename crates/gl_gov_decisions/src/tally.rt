//! Counting the ballots on a proposal, and whether they settle it.

ghost use Rattle.std.specs.Prelude.{◌≡◌, ◌&&◌, ◌||◌, count_by};
ghost use Rattle.std.specs.List.{list_any};
ghost use Rattle.gl_requests.specs.declared.genesis.NewMember as a_member;
ghost use Rattle.gl_requests.specs.Encoding.{action_number};
ghost use Rattle.gl_gov_rules.specs.Members.{members, is_active};
ghost use Rattle.gl_gov_rules.specs.Proposals.{answers_with, ballots_on, is_ballot, is_vote};
ghost use Rattle.gl_gov_rules.specs.Service.{constitution};
ghost use Rattle.gl_gov_rules.specs.Tally.{answer_count, tally, rule_of, is_met, is_out_of_reach, is_accepted, is_rejected};

use gl_gov_rules::{Ballot, History, Recorded, Tally, has_vote, is_ballot};
use gl_requests::{Action, Digest, Rule};

/// Whether the member gave this answer in one of the ballots on a proposal, or in this request
/// after them.
fn has_answered(ballots: &[Ballot], last: &Recorded, id: &Digest, agrees: bool, number: u8) -> bool
    ensures { result ≡ (list_any (is_vote number agrees) ballots.now
        || is_ballot id.now number agrees last.now.request) }
{
    has_vote(ballots, agrees, number) || is_ballot(id, number, agrees, &last.request)
}

/// How many of the members who are active in the past gave this answer in these ballots on a
/// proposal or in this request after them.
fn vote_count(
    past: &History,
    ballots: &[Ballot],
    last: &Recorded,
    id: &Digest,
    agrees: bool,
) -> usize
    ensures { result ≡ count_by (λ (m : a_member.NewMember). is_active past.now m.number
        && (list_any (is_vote m.number agrees) ballots.now
        || is_ballot id.now m.number agrees last.now.request)) (members past.now) }
{
    past.members()
        .iter()
        .filter(|member| {
            past.is_active(member.number) && has_answered(ballots, last, id, agrees, member.number)
        })
        .count()
}

/// How many of the members who are active in the past gave this answer in its requests, which have
/// these ballots on a proposal, or in this one after them.
fn answer_count(
    past: &History,
    ballots: &[Ballot],
    last: &Recorded,
    id: &Digest,
    agrees: bool,
) -> usize
    requires { ballots.now ≡ ballots_on id.now past.now }
    ensures { result
        ≡ answer_count past.now (answers_with past.now last.now.request) id.now agrees }
{
    vote_count(past, ballots, last, id, agrees)
}

/// The ballots on a proposal in the requests of the past and in this one after them, counted again
/// over the members who are active in the past.
pub(crate) fn tally(past: &History, last: &Recorded, id: &Digest) -> Tally
    ensures { result ≡ tally past.now (answers_with past.now last.now.request) id.now }
{
    let ballots = past.ballots(id);
    Tally {
        all: past.active_count() as u64,
        agreed: answer_count(past, ballots, last, id, true) as u64,
        refused: answer_count(past, ballots, last, id, false) as u64,
    }
}

/// The rule of an action under the constitution in force.
fn rule_of(past: &History, action: &Action) -> Option<Rule>
    ensures { result ≡ rule_of (constitution past.now) (action_number action.now) }
{
    match past.constitution() {
        None => None,
        Some(rules) => rules.get(action.number() as usize - 1).copied(),
    }
}

/// Whether more than the fraction of the active members agreed.
fn is_met(tally: Tally, rule: Option<Rule>) -> bool
    ensures { result ≡ is_met tally rule }
{
    match rule {
        None => false,
        Some(rule) => {
            rule.num as u128 * (tally.all as u128) < tally.agreed as u128 * (rule.den as u128)
        }
    }
}

/// Whether so many refused that the others are no more than the fraction.
fn is_out_of_reach(tally: Tally, rule: Option<Rule>) -> bool
    ensures { result ≡ is_out_of_reach tally rule }
{
    match rule {
        None => false,
        Some(rule) => {
            let others = tally.all.saturating_sub(tally.refused);
            rule.num as u128 * (tally.all as u128) >= others as u128 * (rule.den as u128)
        }
    }
}

/// Whether the rule of each of a proposal's actions is met.
#[tactic(auto, unfolding(gl_gov_rules::specs::Tally::is_accepted))]
pub(crate) fn is_accepted(past: &History, tally: Tally, actions: &[Action]) -> bool
    ensures { result ≡ is_accepted past.now tally actions.now }
{
    actions
        .iter()
        .all(|action| is_met(tally, rule_of(past, action)))
}

/// Whether the rule of one of a proposal's actions can't be met any more.
#[tactic(auto, unfolding(gl_gov_rules::specs::Tally::is_rejected))]
pub(crate) fn is_rejected(past: &History, tally: Tally, actions: &[Action]) -> bool
    ensures { result ≡ is_rejected past.now tally actions.now }
{
    actions
        .iter()
        .any(|action| is_out_of_reach(tally, rule_of(past, action)))
}
