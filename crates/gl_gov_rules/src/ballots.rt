//! The ballots on each proposal.

ghost use Rattle.std.specs.Prelude.{◌≡◌, ℕ, ◌≤◌, ◌++◌, List, filter_map, vec_len, IfOk, OnOk};
ghost use Rattle.std.specs.Option.{option_to_list};
ghost use Rattle.std.specs.List.{list_any};
ghost use Rattle.gl_index.specs.KeyedLists.{list_on};
ghost use Rattle.gl_gov_rules.specs.Proposals.{ballot_carried, ballot_in, is_vote};
ghost use Rattle.gl_gov_rules.specs.Index.{HasRoomForAnswer};

use crate::carried::Answered;
use crate::change::Ballot;
use gl_index::KeyedLists;
use gl_requests::{GovernanceRequest, MemberAct};
use std::alloc::{AllocError, Global};

/// Whether one of the ballots is the member's, with this answer.
pub fn has_vote(ballots: &[Ballot], agrees: bool, number: u8) -> bool
    ensures { result ≡ list_any (is_vote number agrees) ballots.now }
{
    ballots.iter().any(|ballot| ballot.member == number && ballot.agrees == agrees)
}

/// Makes room for the ballot that the request gives.
pub(crate) fn reserve_answer(
    alloc: Global,
    ballots: &mut KeyedLists<Ballot>,
    request: &GovernanceRequest,
) -> Result<(), AllocError>
    requires { vec_len ballots.old.lists ≤ vec_len ballots.old.ids }
    ensures same { (id : List ℕ) → list_on ballots.new id ≡ list_on ballots.old id }
    ensures within { vec_len ballots.new.lists ≤ vec_len ballots.new.ids }
    ensures room { OnOk result (HasRoomForAnswer ballots.new request.now) }
{
    match request {
        GovernanceRequest::Member(request) => match &request.act {
            MemberAct::Ballot { proposal, .. } => ballots.reserve(alloc, proposal),
            _ => Ok(()),
        },
        _ => Ok(()),
    }
}

/// Adds the ballot that the request at a seqno gives.
pub(crate) fn push_answer(ballots: &mut KeyedLists<Ballot>, seqno: u64, request: &GovernanceRequest)
    requires { HasRoomForAnswer ballots.old request.now }
    ensures more { (id : List ℕ) → list_on ballots.new id
        ≡ list_on ballots.old id ++ option_to_list (ballot_in id seqno request.now) }
    ensures known { vec_len ballots.new.lists ≡ vec_len ballots.old.lists }
    ensures ids { ballots.new.ids ≡ ballots.old.ids }
{
    if let GovernanceRequest::Member(request) = request {
        if let MemberAct::Ballot { proposal, agrees } = &request.act {
            let member = request.member;
            let agrees = *agrees;
            ballots.push(
                proposal,
                Ballot {
                    seqno,
                    member,
                    agrees,
                },
            );
        }
    }
}

/// Adds a ballot that is carried, at the seqno 0.
fn push_carried(
    alloc: Global,
    ballots: &mut KeyedLists<Ballot>,
    answer: &Answered,
) -> Result<(), AllocError>
    requires { vec_len ballots.old.lists ≤ vec_len ballots.old.ids }
    ensures more { OnOk result ((id : List ℕ) → list_on ballots.new id
        ≡ list_on ballots.old id ++ option_to_list (ballot_carried id answer.now)) }
    ensures within { vec_len ballots.new.lists ≤ vec_len ballots.new.ids }
{
    ballots.reserve(alloc, &answer.id)?;
    let member = answer.member;
    let agrees = answer.agrees;
    ballots.push(
        &answer.id,
        Ballot {
            seqno: 0,
            member,
            agrees,
        },
    );
    Ok(())
}

/// The ballots that are carried, by their proposals.
pub(crate) fn carried_ballots(
    alloc: Global,
    answers: &[Answered],
) -> Result<KeyedLists<Ballot>, AllocError>
    ensures lists { IfOk result (λ ballots. (id : List ℕ) →
        list_on ballots id ≡ filter_map (ballot_carried id) answers.now) }
    ensures within { IfOk result (λ ballots. vec_len ballots.lists ≤ vec_len ballots.ids) }
{
    let mut ballots = KeyedLists::new(alloc);
    for answer in answers {
        push_carried(alloc, &mut ballots, answer)?;
    }
    Ok(ballots)
}
