//! Nodes that join and are removed, and a constitution that drops what is open.

use super::bench::Ask::{Join, Mark, Propose, ProposeP, ProposeQ, Yes};
use super::bench::Meant::{P, Q};
use super::bench::Outcome::{Bad, Refused, Rows};
use super::bench::{Act, Outcome, Row};
use gl_gov_rules::{Cause, GovernanceRefusal, NodeStatus, ProposalState};

// A node that waits to be trusted.
const PENDING: Outcome = Refused(GovernanceRefusal::NodeState {
    status: Some(NodeStatus::Pending),
});

/// A node that joins.
pub const JOIN: [Row<'static>; 5] = [
    (Join(3, 1), Rows(0xe51dabe396b0175a)),
    (Join(3, 1), PENDING),
    (Join(4, 2), Refused(GovernanceRefusal::Signature)),
    (
        Mark(5),
        Refused(GovernanceRefusal::NodeState { status: None }),
    ),
    (Mark(3), PENDING),
];

/// It takes the place of another, which is marked.
pub const REPLACE: [Row<'static>; 5] = [
    (
        ProposeP(1, &[Act::Trust(3), Act::RemoveNode(1)]),
        Rows(0x4fab91eb17f4bfbe),
    ),
    (Yes(1, P), Rows(0xc9030c0da00887ed)),
    (Yes(2, P), Rows(0x96a29cbdff9ce471)),
    (Yes(3, P), Rows(0x1f05f30ed4a12d42)),
    (Mark(1), Rows(0x849d0deee363c3e8)),
];

/// A new constitution, by the ballots of those who are active now, drops a proposal.
pub const REFORM: [Row<'static>; 5] = [
    (Yes(2, Q), Rows(0x2430663a4d5160eb)),
    (ProposeP(2, &[Act::Open]), Bad(1, Cause::NotOpening)),
    (
        ProposeP(2, &[Act::SetMember(7, 7)]),
        Rows(0xb2a4507217e0041c),
    ),
    (Yes(3, Q), Rows(0xb44283964b9af216)),
    (
        Yes(4, P),
        Refused(GovernanceRefusal::NotOpen {
            state: ProposalState::Dropped,
        }),
    ),
];

/// Two proposals remove one node: one answer is enough for each, and the second fails.
pub const FAIL: [Row<'static>; 4] = [
    (ProposeP(2, &[Act::RemoveNode(3)]), Rows(0x11cfa24c4898f0d4)),
    (ProposeQ(3, &[Act::RemoveNode(3)]), Rows(0xdbf4ac4c4d3620cd)),
    (Yes(2, P), Rows(0xafd53344a2605eb4)),
    (Yes(3, Q), Rows(0x779687b40dd32ec7)),
];
