//! The founding of a service, and the first words of its members.

use super::bench::Ask::{Ack, AckBy, Again, Found, FoundBy, Propose};
use super::bench::Outcome::{Bad, Refused, Rows};
use super::bench::{Act, Bench, Outcome, Row, play};
use gl_gov_rules::{Cause, GovernanceRefusal};
use std::test::Fail;
use t_checks::{holds, same};

/// Foundings with something wrong, and one that is taken.
pub const FOUND: [Row<'static>; 5] = [
    (
        Found(&[1, 2], &[1, 2, 1], (2, &[1, 2])),
        Bad(0, Cause::NumberUsed),
    ),
    (
        Found(&[1, 2], &[1, 2], (2, &[1, 3])),
        Bad(0, Cause::Dealing),
    ),
    (
        Found(&[1, 1], &[1, 2], (2, &[1, 2])),
        Bad(0, Cause::NodeStatus),
    ),
    (
        Found(&[], &[1, 2], (2, &[1, 2])),
        Bad(0, Cause::LastTrusted),
    ),
    (
        Found(&[1, 2], &[1, 2, 3, 4, 5], (2, &[1, 2, 3])),
        Rows(0xe8a26606cabc3b4a),
    ),
];

/// Members acknowledge it.
pub const ACKNOWLEDGE: [Row<'static>; 9] = [
    (
        Propose(2, &[Act::Open]),
        Refused(GovernanceRefusal::NotActive),
    ),
    (Ack(1), Rows(0x156b5b410e475871)),
    (
        Again,
        Refused(GovernanceRefusal::LeafNotGreater { last: 0, got: 0 }),
    ),
    (AckBy(2, 1), Refused(GovernanceRefusal::Signature)),
    (Ack(2), Rows(0x501f14a78b13ef8e)),
    (Ack(3), Rows(0xb0885103ac2bcf88)),
    (Ack(4), Rows(0x2b31efe589d54806)),
    (Ack(5), Rows(0x9b79dd67092af12d)),
    (Ack(6), Refused(GovernanceRefusal::NotMember)),
];

const WRONG: [Row<'static>; 6] = [
    (
        FoundBy(1, &[1], &[(1, 1), (2, 1)], (1, &[1])),
        Bad(0, Cause::KeyUsed),
    ),
    (
        FoundBy(2, &[1], &[(1, 1)], (1, &[1])),
        Refused(GovernanceRefusal::Signature),
    ),
    (Found(&[1], &[1, 2], (0, &[1])), Bad(0, Cause::Dealing)),
    (Found(&[1], &[1, 2], (2, &[1])), Bad(0, Cause::Dealing)),
    (Found(&[1], &[1, 2], (1, &[2, 1])), Bad(0, Cause::Dealing)),
    (Found(&[1], &[1, 2], (1, &[1, 1])), Bad(0, Cause::Dealing)),
];

#[test]
fn reports_what_is_wrong_with_a_founding(rt: HostRuntime) -> Result<(), Fail> {
    let mut bench = Bench::new(rt.alloc(), 2, 2, 2)?;
    play(&mut bench, &WRONG)?;
    let reported = bench.ask(Found(&[1, 2], &[1, 2], (1, &[1])))?;
    holds!(matches!(reported, Rows(_)));
    Ok(())
}

// A service with so many members, of whom one holds a share.
fn found_with(bench: &mut Bench, count: u8) -> Result<Outcome, Fail> {
    let members: Vec<u8> = (1..=count).collect(bench.alloc())?;
    bench.ask(Found(&[1], &members, (1, &[1])))
}

#[test]
fn counts_64_members(rt: HostRuntime) -> Result<(), Fail> {
    let mut bench = Bench::new(rt.alloc(), 1, 1, 1)?;
    same!(found_with(&mut bench, 65)?, Bad(0, Cause::Full));
    holds!(matches!(found_with(&mut bench, 64)?, Rows(_)));
    holds!(matches!(bench.ask(Ack(1))?, Rows(_)));
    play(
        &mut bench,
        &[(Propose(1, &[Act::SetMember(65, 65)]), Bad(1, Cause::Full))],
    )
}
