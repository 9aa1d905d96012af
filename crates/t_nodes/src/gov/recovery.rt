//! A service that is recovered, and the shares that its members give. The digests are by Python's
//! hashlib.

use super::bench::Ask::{Finish, Give, ProposeP, Recover, Yes};
use super::bench::Meant::P;
use super::bench::Outcome::{Bad, Finished, Refused, Rows};
use super::bench::{Act, Bench, Row};
use gl_audit::ShareCount;
use gl_gov_rules::{Cause, GovernanceRefusal, MemberStatus, NodeStatus, ProposalState, Vote};
use gl_recovery::FinishFault;
use gl_requests::{Action, ServiceState};
use std::test::Fail;
use t_checks::{holds, same};

// The digest of the share that was dealt to member 1.
const SHARE_OF_1: [u8; 32] = [
    0x23, 0x29, 0xea, 0xf8, 0x3a, 0xe2, 0xa5, 0x7f, 0x30, 0x52, 0x80, 0x03, 0xaa, 0x68, 0x1d, 0x3e,
    0xec, 0xb5, 0x73, 0xf2, 0xac, 0x33, 0x1d, 0xd6, 0x92, 0x5b, 0x16, 0xb1, 0x67, 0x25, 0xb7, 0xee,
];

// The digest of the secret to which the shares join.
const SECRET: [u8; 32] = [
    0x38, 0x81, 0x21, 0x9d, 0x08, 0x7d, 0xd9, 0xc6, 0x34, 0x37, 0x3f, 0xd3, 0x3d, 0xfa, 0x33, 0xa2,
    0xcb, 0x6b, 0xfc, 0x6c, 0x52, 0x0b, 0x64, 0xb8, 0xbb, 0x60, 0xef, 0x2c, 0xeb, 0x53, 0x4a, 0xe7,
];

// The digest that a dealing of another secret names.
const ANOTHER: [u8; 32] = [
    0xae, 0x44, 0x8a, 0xc8, 0x6c, 0x4e, 0x8e, 0x4d, 0xec, 0x64, 0x57, 0x29, 0x70, 0x8e, 0xf4, 0x18,
    0x73, 0xae, 0x79, 0xc6, 0xdf, 0xf8, 0x4e, 0xff, 0x73, 0x36, 0x09, 0x89, 0x48, 0x7f, 0x08, 0xe5,
];

/// What is asked before the service is recovered, and that.
pub const RECOVER: [Row<'static>; 7] = [
    (
        Finish,
        Finished(Err(FinishFault::NotRecovering {
            state: Some(ServiceState::Open),
        })),
    ),
    (
        Give(3, 3),
        Refused(GovernanceRefusal::ServiceState {
            state: ServiceState::Open,
        }),
    ),
    (
        ProposeP(2, &[Act::SetMember(6, 6)]),
        Rows(0x57ab9e02e8d24df5),
    ),
    (Recover(&[2]), Bad(0, Cause::NodeStatus)),
    (Recover(&[5, 6]), Rows(0x7f30f282cdff3f34)),
    (
        Yes(1, P),
        Refused(GovernanceRefusal::NotOpen {
            state: ProposalState::Dropped,
        }),
    ),
    (
        Finish,
        Finished(Err(FinishFault::NotRecovering {
            state: Some(ServiceState::Opening),
        })),
    ),
];

/// The service waits for shares, of which two join to another secret than was dealt.
pub const GIVE_IN_VAIN: [Row<'static>; 8] = [
    (
        ProposeP(1, &[Act::Misdeal((2, &[2, 3])), Act::Open]),
        Rows(0xc5e0a5ee5f66c7ec),
    ),
    (Yes(1, P), Rows(0x056b08771a6f1d83)),
    (
        Finish,
        Finished(Err(FinishFault::NotYet { have: 0, need: 2 })),
    ),
    (
        Give(2, 1),
        Refused(GovernanceRefusal::WrongShare { digest: SHARE_OF_1 }),
    ),
    (Give(2, 2), Rows(0x368468ab3c9f18f1)),
    (
        Finish,
        Finished(Err(FinishFault::NotYet { have: 1, need: 2 })),
    ),
    (
        Give(2, 2),
        Refused(GovernanceRefusal::KnownShare { member: 2 }),
    ),
    (
        Give(3, 3),
        Refused(GovernanceRefusal::Secret {
            want: ANOTHER,
            got: SECRET,
        }),
    ),
];

/// A dealing of the secret itself, whose shares open the service.
pub const GIVE: [Row<'static>; 5] = [
    (
        ProposeP(1, &[Act::Deal((2, &[2, 3]))]),
        Rows(0x46abba60c3b49ddc),
    ),
    (Yes(1, P), Rows(0x6c037bfa779f3b3d)),
    (Give(2, 2), Rows(0xf896275098fb171f)),
    (Give(3, 3), Rows(0x7f51d8b37f8fd91f)),
    (Finish, Finished(Ok(()))),
];

/// What is known of the service in the end.
pub fn know_service(bench: &Bench) -> Result<(), Fail> {
    same!(bench.state.shares(), ShareCount { have: 2, need: 2 });
    let service = bench.state.service().ok_or("no service")?;
    same!(
        (service.state, service.is_recovered),
        (ServiceState::Open, true)
    );
    same!(service.identity, bench.identity()?);
    Ok(())
}

// Each member's number and status, and its leaf that is next.
const MEMBERS: [(u8, MemberStatus, u32); 6] = [
    (1, MemberStatus::Active, 26),
    (2, MemberStatus::Active, 18),
    (3, MemberStatus::Active, 11),
    (4, MemberStatus::Active, 1),
    (5, MemberStatus::Removed, 5),
    (7, MemberStatus::Accepted, 0),
];

/// What is known of the members in the end.
pub fn know_members(bench: &Bench) -> Result<(), Fail> {
    let members = bench.state.members()?;
    same!(members.len(), MEMBERS.len());
    for (member, due) in members.iter().zip(&MEMBERS) {
        same!((member.number, member.status, member.next_leaf), *due);
        same!(member.key, bench.member_key(member.number));
    }
    Ok(())
}

// Each node's number, its status, the seqno of its removal, and the service's key that endorsed it.
const NODES: [(u8, NodeStatus, u64, u8); 5] = [
    (1, NodeStatus::Marked, 29, 1),
    (2, NodeStatus::Retired, 39, 1),
    (3, NodeStatus::Retired, 36, 1),
    (5, NodeStatus::Trusted, 0, 2),
    (6, NodeStatus::Trusted, 0, 2),
];

/// What is known of the nodes in the end.
pub fn know_nodes(bench: &Bench) -> Result<(), Fail> {
    let nodes = bench.state.nodes()?;
    same!(nodes.len(), NODES.len());
    for (order, (node, (number, status, removal, service))) in (1..).zip(nodes.iter().zip(&NODES)) {
        same!(
            (node.order, node.status, node.removal),
            (order, *status, *removal)
        );
        same!(node.id, bench.node_id(*number)?);
        same!(node.key, bench.node_key(*number)?);
        let due = bench.endorsement(*service, *number)?;
        holds!(node.endorsement.as_slice() == due.as_slice());
    }
    Ok(())
}

/// What is known of proposals in the end.
pub fn know_proposals(bench: &Bench) -> Result<(), Fail> {
    let p = bench.state.proposal(&bench.p)?.ok_or("no proposal")?;
    same!((p.state, p.proposer), (ProposalState::Accepted, 1));
    holds!(matches!(p.actions.as_slice(), [Action::SetRecoveryThreshold(_)]));
    let vote = Vote {
        member: 1,
        agrees: true,
    };
    same!(p.ballots.as_slice(), [vote].as_slice());
    let q = bench.state.proposal(&bench.q)?.ok_or("no proposal")?;
    same!((q.state, q.proposer), (ProposalState::Failed, 3));
    holds!(bench.state.proposal(&[0; 32])?.is_none());
    Ok(())
}
