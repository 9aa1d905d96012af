//! The first change that settles each proposal.

ghost use Rattle.std.specs.Prelude.{◌≡◌, ◌+◌, ◌≤◌, ◌++◌, List, map, take, length, slice_get, option_map, vec_len, vec_capacity, IfOk};
ghost use Rattle.std.specs.Option.{option_or, option_to_list};
ghost use Rattle.gl_gov_rules.specs.declared.change.Changed as a_change;
ghost use Rattle.gl_gov_rules.specs.Proposals.{settling_in, settled_state, settling_up_to};

use crate::change::{Changed, Proposal, ProposalState, Settling};
use crate::proposals::state_settled;
use std::alloc::{AllocError, Global};

/// The first of these changes that settles the proposal.
#[tactic(auto, unfolding(crate::specs::Proposals::settling_in))]
pub(crate) fn settling_in(changes: &[Changed], proposal: &Proposal) -> Option<Settling>
    ensures { result ≡ settling_in changes.now proposal.now }
{
    for changed in changes {
        if let Some(state) = state_settled(proposal, changed.seqno, &changed.change) {
            let seqno = changed.seqno;
            return Some(Settling { seqno, state });
        }
    }
    None
}

/// What settles each of the proposals.
pub(crate) fn settlings_of(
    alloc: Global,
    changes: &[Changed],
    proposals: &[Proposal],
) -> Result<Vec<Option<Settling>>, AllocError>
    ensures { IfOk result (λ settlings.
        settlings.items ≡ map (settling_in changes.now) proposals.now) }
{
    let mut settlings = Vec::new(alloc);
    for proposal in proposals {
        settlings.push(settling_in(changes, proposal))?;
    }
    Ok(settlings)
}

/// The state of a proposal that is settled so, open where it isn't.
pub(crate) fn settled_state(settling: Option<Settling>) -> ProposalState
    ensures { result ≡ settled_state settling }
{
    match settling {
        None => ProposalState::Open,
        Some(settling) => settling.state,
    }
}

/// What settles the proposal, where it may be more changes.
fn settled_by(settling: Option<Settling>, proposal: &Proposal, more: &[Changed]) -> Option<Settling>
    ensures { result ≡ option_or settling (settling_in more.now proposal.now) }
{
    match settling {
        None => settling_in(more, proposal),
        Some(settling) => Some(settling),
    }
}

/// Settles the proposals that are open by more changes.
pub(crate) fn settle(settlings: &mut [Option<Settling>], proposals: &[Proposal], more: &[Changed])
    requires { length settlings.old ≡ length proposals.now }
    ensures { (cs : List a_change.Changed) → settlings.old ≡ map (settling_in cs) proposals.now →
        settlings.new ≡ map (settling_in (cs ++ more.now)) proposals.now }
{
    for i in 0..settlings.len() {
        settlings[i] = settled_by(settlings[i], &proposals[i], more);
    }
}

/// Adds what settles the proposal after those that are told of, if there is one.
pub(crate) fn push_settling(
    settlings: &mut Vec<Option<Settling>>,
    proposals: &[Proposal],
    changes: &[Changed],
)
    requires { vec_len settlings.old + 1 ≤ vec_capacity settlings.old }
    ensures { settlings.new.items ≡ settlings.old.items ++ option_to_list
        (option_map (settling_in changes.now) (slice_get proposals.now (vec_len settlings.old))) }
{
    match proposals.get(settlings.len()) {
        None => {}
        Some(proposal) => settlings.push_reserved(settling_in(changes, proposal)),
    }
}

/// What settles a proposal up to a seqno.
fn settling_up_to(to: u64, settling: Option<Settling>) -> Option<Settling>
    ensures { result ≡ settling_up_to to settling }
{
    match settling {
        None => None,
        Some(settling) => {
            if settling.seqno <= to {
                Some(settling)
            } else {
                None
            }
        }
    }
}

/// Keeps what settles each proposal up to a seqno.
fn keep_up_to(settlings: &mut [Option<Settling>], to: u64)
    ensures { settlings.new ≡ map (settling_up_to to) settlings.old }
{
    for i in 0..settlings.len() {
        settlings[i] = settling_up_to(to, settlings[i]);
    }
}

/// Keeps what settles the first so many proposals up to a seqno.
pub(crate) fn cut_settlings(settlings: &mut Vec<Option<Settling>>, to: u64, count: usize)
    ensures { settlings.new.items ≡ map (settling_up_to to) (take count settlings.old.items) }
{
    settlings.truncate(count);
    keep_up_to(settlings, to);
}
