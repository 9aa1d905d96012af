//! Proposals of members, and their ballots.

use super::bench::Ask::{Ack, Again, No, Propose, ProposeP, ProposeQ, Withdraw, Yes};
use super::bench::Meant::{P, Q, Rejection};
use super::bench::Outcome::{Bad, Refused, Rows};
use super::bench::{Act, Bench, Outcome, Row, play};
use super::founding;
use gl_gov_rules::{Cause, GovernanceRefusal, ProposalState};
use std::test::Fail;
use t_checks::same;

/// Proposals with a bad action.
pub const BAD: [Row<'static>; 9] = [
    (
        Propose(1, &[Act::RemoveMember(6)]),
        Bad(1, Cause::NotPresent),
    ),
    (
        Propose(1, &[Act::Open, Act::RemoveMember(1), Act::RemoveMember(2)]),
        Bad(3, Cause::TooFewHolders),
    ),
    (
        Propose(1, &[Act::SetMember(1, 1)]),
        Bad(1, Cause::NumberUsed),
    ),
    (Propose(1, &[Act::SetMember(6, 2)]), Bad(1, Cause::KeyUsed)),
    (
        Propose(1, &[Act::Deal((4, &[1, 2, 3]))]),
        Bad(1, Cause::Dealing),
    ),
    (Propose(1, &[Act::Trust(3)]), Bad(1, Cause::NotRecorded)),
    (Propose(1, &[Act::Trust(1)]), Bad(1, Cause::NodeStatus)),
    (
        Propose(1, &[Act::RemoveNode(1), Act::RemoveNode(2)]),
        Bad(2, Cause::LastTrusted),
    ),
    (
        Propose(1, &[Act::Rules([1, 2], [2, 2])]),
        Bad(1, Cause::Fraction),
    ),
];

/// A proposal to open the service, which three of five members accept.
pub const OPEN: [Row<'static>; 6] = [
    (ProposeP(1, &[Act::Open]), Rows(0xab7c094744439c77)),
    (Withdraw(2, P), Refused(GovernanceRefusal::NotProposer)),
    (Yes(1, P), Rows(0xc417feabfb9a4d19)),
    (No(1, P), Refused(GovernanceRefusal::HasBallot)),
    (Yes(2, P), Rows(0x9cdca297c7ccf0c0)),
    (Yes(3, P), ACCEPTED),
];

const ACCEPTED: Outcome = Rows(0x5884b8226dfd9b9e);

/// What comes too late.
pub const COME_LATE: [Row<'static>; 3] = [
    (
        Yes(4, P),
        Refused(GovernanceRefusal::NotOpen {
            state: ProposalState::Accepted,
        }),
    ),
    (Yes(4, Rejection), Refused(GovernanceRefusal::NoProposal)),
    (Propose(1, &[Act::Open]), Bad(1, Cause::NotOpening)),
];

/// A proposal that three of five members refuse, and one that is taken back.
pub const REJECT: [Row<'static>; 6] = [
    (
        ProposeP(5, &[Act::SetMember(6, 6)]),
        Rows(0x9fbcbca5e3d01e59),
    ),
    (No(1, P), Rows(0x54f9bfbd2ceb58ea)),
    (No(2, P), Rows(0x8b9d6ef51768bd95)),
    (No(3, P), Rows(0x6a8a5f97fcf9c0fd)),
    (
        ProposeP(5, &[Act::SetMember(6, 6)]),
        Rows(0x2a2ae289650883dc),
    ),
    (Withdraw(5, P), Rows(0x1bdbda9e4436cd66)),
];

/// A member agrees and is removed then, so that it counts no more.
pub const REMOVE_MEMBER: [Row<'static>; 8] = [
    (
        ProposeQ(1, &[Act::SetMember(7, 7), Act::Rules([0, 1], [0, 1])]),
        Rows(0xa2e38cde1736bbd1),
    ),
    (Yes(5, Q), Rows(0x971196a8b7215f74)),
    (Yes(1, Q), Rows(0xcfa6f7c72454e5e6)),
    (
        ProposeP(1, &[Act::RemoveMember(5)]),
        Rows(0x462462a8c80d20a0),
    ),
    (Yes(1, P), Rows(0x90a95e9dff2d48c9)),
    (Yes(2, P), Rows(0x90865f37089c8e30)),
    (Yes(3, P), Rows(0x53dd65ce6979f1df)),
    (Ack(5), Refused(GovernanceRefusal::NotMember)),
];

// Takes the last request back, and once more.
#[test]
fn cuts_and_copies(rt: HostRuntime) -> Result<(), Fail> {
    let mut bench = Bench::new(rt.alloc(), 1, 6, 3)?;
    for rows in [&founding::FOUND[..], &founding::ACKNOWLEDGE, &BAD, &OPEN] {
        play(&mut bench, rows)?;
    }
    let copy = bench.state.copy()?;
    bench.cut(10);
    same!(bench.rows()?, Rows(0x9cdca297c7ccf0c0));
    same!(bench.ask(Again)?, ACCEPTED);
    bench.state = copy;
    same!(bench.rows()?, ACCEPTED);
    Ok(())
}
