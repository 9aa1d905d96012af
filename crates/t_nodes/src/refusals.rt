//! Refusals by hand: their numbers, their values, and the bytes of these.

use gl_answers::{Reason, Value, reason_of, values_bytes};
use gl_gov_rules::{Cause, GovernanceRefusal, NodeStatus, ProposalState};
use gl_hss::HssFault;
use gl_ledger::{Broken, EntryRefusal, Refusal, Rejection};
use gl_replication::Refusal as NodeRefusal;
use gl_requests::ServiceState;
use gl_store_book::StoreBook;
use gl_tx::Abort;
use std::alloc::Global;
use std::test::Fail;
use t_checks::{holds, same};

/// Each refusal of governance that has no digest: its number, and its values.
const GOVERNANCE: [(GovernanceRefusal, u16, &[u64]); 20] = [
    (GovernanceRefusal::NotMember, 40, &[]),
    (GovernanceRefusal::NotActive, 41, &[]),
    (GovernanceRefusal::Signature, 42, &[]),
    (
        GovernanceRefusal::LeafNotGreater { last: 4, got: 3 },
        43,
        &[4, 3],
    ),
    (GovernanceRefusal::NoProposal, 44, &[]),
    (
        GovernanceRefusal::NotOpen {
            state: ProposalState::Accepted,
        },
        45,
        &[2],
    ),
    (
        GovernanceRefusal::NotOpen {
            state: ProposalState::Rejected,
        },
        45,
        &[3],
    ),
    (
        GovernanceRefusal::NotOpen {
            state: ProposalState::Withdrawn,
        },
        45,
        &[4],
    ),
    (
        GovernanceRefusal::NotOpen {
            state: ProposalState::Failed,
        },
        45,
        &[5],
    ),
    (
        GovernanceRefusal::NotOpen {
            state: ProposalState::Dropped,
        },
        45,
        &[6],
    ),
    (GovernanceRefusal::HasBallot, 46, &[]),
    (GovernanceRefusal::NotProposer, 47, &[]),
    (GovernanceRefusal::NodeState { status: None }, 49, &[0]),
    (
        GovernanceRefusal::NodeState {
            status: Some(NodeStatus::Pending),
        },
        49,
        &[1],
    ),
    (
        GovernanceRefusal::NodeState {
            status: Some(NodeStatus::Trusted),
        },
        49,
        &[2],
    ),
    (
        GovernanceRefusal::NodeState {
            status: Some(NodeStatus::Retired),
        },
        49,
        &[3],
    ),
    (
        GovernanceRefusal::NodeState {
            status: Some(NodeStatus::Marked),
        },
        49,
        &[4],
    ),
    (GovernanceRefusal::TooMany { limit: 65_535 }, 50, &[65_535]),
    (
        GovernanceRefusal::ServiceState {
            state: ServiceState::Open,
        },
        51,
        &[2],
    ),
    (GovernanceRefusal::KnownShare { member: 255 }, 101, &[255]),
];

/// The causes in the order of their numbers.
const CAUSES: [Cause; 11] = [
    Cause::NumberUsed,
    Cause::KeyUsed,
    Cause::NotPresent,
    Cause::TooFewHolders,
    Cause::NotRecorded,
    Cause::NodeStatus,
    Cause::LastTrusted,
    Cause::NotOpening,
    Cause::Fraction,
    Cause::Dealing,
    Cause::Full,
];

/// Why a ledger takes no entry: the number, and the values.
const LEDGER: [(Rejection, u16, &[u64]); 7] = [
    (
        Rejection::ByStore(Refusal::ServiceState(ServiceState::Opening)),
        51,
        &[1],
    ),
    (
        Rejection::ByStore(Refusal::Aborted(Abort {
            operation: 3,
            cause: gl_tx::Cause::Overflow,
        })),
        122,
        &[3, 4],
    ),
    (
        Rejection::ByStore(Refusal::TooLarge { size: 1_048_577 }),
        119,
        &[1_048_577],
    ),
    (Rejection::ByStore(Refusal::SeqnoLimit), 130, &[]),
    (
        Rejection::ByStore(Refusal::Governance(GovernanceRefusal::NotOpen {
            state: ProposalState::Dropped,
        })),
        45,
        &[6],
    ),
    (Rejection::NoEntry, 117, &[]),
    (Rejection::NotAfterSignature, 129, &[]),
];

/// Why an entry breaks a rule: the number, and the values.
const ENTRIES: [(EntryRefusal, u16, &[Value]); 9] = [
    (
        EntryRefusal::ServiceState(ServiceState::WaitingForRecoveryShares),
        51,
        &[Value::Number(3)],
    ),
    (
        EntryRefusal::Aborted(Abort {
            operation: 3,
            cause: gl_tx::Cause::Overflow,
        }),
        122,
        &[Value::Number(3), Value::Number(4)],
    ),
    (
        EntryRefusal::Governance(GovernanceRefusal::TooMany { limit: 16 }),
        50,
        &[Value::Number(16)],
    ),
    (
        EntryRefusal::Replay {
            seqno: 7,
            wanted: [1; 32],
            found: [2; 32],
        },
        117,
        &[
            Value::Number(7),
            Value::Digest([1; 32]),
            Value::Digest([2; 32]),
        ],
    ),
    (
        EntryRefusal::BadSignature {
            seqno: 7,
            fault: HssFault::Types { at: 12 },
        },
        118,
        &[Value::Number(7), Value::Number(20), Value::Number(12)],
    ),
    (
        EntryRefusal::BadSignature {
            seqno: 7,
            fault: HssFault::Length { want: 8, got: 5 },
        },
        118,
        &[
            Value::Number(7),
            Value::Number(21),
            Value::Number(8),
            Value::Number(5),
        ],
    ),
    (
        EntryRefusal::BadSignature {
            seqno: 7,
            fault: HssFault::Levels { want: 2, got: 1 },
        },
        118,
        &[
            Value::Number(7),
            Value::Number(22),
            Value::Number(2),
            Value::Number(1),
        ],
    ),
    (
        EntryRefusal::BadSignature {
            seqno: 7,
            fault: HssFault::Root {
                want: [3; 32],
                got: [4; 32],
            },
        },
        118,
        &[
            Value::Number(7),
            Value::Number(23),
            Value::Digest([3; 32]),
            Value::Digest([4; 32]),
        ],
    ),
    (
        EntryRefusal::BadSignature {
            seqno: 7,
            fault: HssFault::Leaf { q: 1_024 },
        },
        118,
        &[Value::Number(7), Value::Number(24), Value::Number(1_024)],
    ),
];

/// Each refusal of governance that has digests: its number, and these.
const DIGESTS: [(GovernanceRefusal, u16, &[[u8; 32]]); 3] = [
    (
        GovernanceRefusal::Secret {
            want: [1; 32],
            got: [2; 32],
        },
        103,
        &[[1; 32], [2; 32]],
    ),
    (
        GovernanceRefusal::KnownProposal { id: [3; 32] },
        52,
        &[[3; 32]],
    ),
    (
        GovernanceRefusal::WrongShare { digest: [4; 32] },
        100,
        &[[4; 32]],
    ),
];

/// What a client is told where a node refuses an event.
fn reported(alloc: Global, why: NodeRefusal<StoreBook>) -> Result<Reason, Fail> {
    Ok(reason_of(alloc, &why)?.ok_or("no reason")?)
}

/// What a client is told where governance refuses a request.
fn outcome_of(alloc: Global, why: GovernanceRefusal) -> Result<Reason, Fail> {
    let why = Rejection::ByStore(Refusal::Governance(why));
    reported(alloc, NodeRefusal::ByLedger(why))
}

/// Whether a reason has this number and these numbers as values.
fn reports(reason: &Reason, code: u16, values: &[u64]) -> bool {
    reason.code == code
        && reason.values.len() == values.len()
        && reason
            .values
            .as_slice()
            .iter()
            .zip(values)
            .all(|(value, number)| *value == Value::Number(*number))
}

#[test]
fn reports_refusals_of_governance(rt: HostRuntime) -> Result<(), Fail> {
    for (refusal, code, values) in &GOVERNANCE {
        let reason = outcome_of(rt.alloc(), *refusal)?;
        holds!(reports(&reason, *code, values));
    }
    Ok(())
}

#[test]
fn reports_causes(rt: HostRuntime) -> Result<(), Fail> {
    for (cause, number) in CAUSES.iter().zip(1..) {
        let refusal = GovernanceRefusal::BadAction {
            index: 7,
            cause: *cause,
        };
        let reason = outcome_of(rt.alloc(), refusal)?;
        holds!(reports(&reason, 48, &[7, number]));
    }
    Ok(())
}

#[test]
fn reports_digests(rt: HostRuntime) -> Result<(), Fail> {
    for (refusal, code, digests) in &DIGESTS {
        let reason = outcome_of(rt.alloc(), *refusal)?;
        same!((reason.code, reason.values.len()), (*code, digests.len()));
        for (value, digest) in reason.values.as_slice().iter().zip(*digests) {
            same!(*value, Value::Digest(*digest));
        }
    }
    Ok(())
}

#[test]
fn reports_refusals_of_a_ledger(rt: HostRuntime) -> Result<(), Fail> {
    for (refusal, code, values) in &LEDGER {
        let reason = reported(rt.alloc(), NodeRefusal::ByLedger(*refusal))?;
        holds!(reports(&reason, *code, values));
    }
    Ok(())
}

#[test]
fn reports_entries_that_break_a_rule(rt: HostRuntime) -> Result<(), Fail> {
    for (refusal, code, values) in &ENTRIES {
        let why = Rejection::ByRule(Broken {
            rule: 11,
            refusal: *refusal,
        });
        let reason = reported(rt.alloc(), NodeRefusal::ByLedger(why))?;
        same!(reason.code, *code);
        same!(reason.values.as_slice(), *values);
    }
    Ok(())
}

fn leader_bytes(alloc: Global, leader: Option<[u8; 32]>) -> Result<Vec<u8>, Fail> {
    let reason = reported(alloc, NodeRefusal::NotPrimary(7, leader))?;
    Ok(values_bytes(alloc, reason.values.as_slice())?)
}

#[test]
fn encodes_leaders(rt: HostRuntime) -> Result<(), Fail> {
    let none = leader_bytes(rt.alloc(), None)?;
    same!(
        none.as_slice(),
        [7, 0, 0, 0, 0, 0, 0, 0, 0, 0, 0, 0].as_slice()
    );
    let one = leader_bytes(rt.alloc(), Some([9; 32]))?;
    assert!(rt; one.len() == 44);
    same!(
        &one[..13],
        [7, 0, 0, 0, 0, 0, 0, 0, 32, 0, 0, 0, 9].as_slice()
    );
    Ok(())
}
