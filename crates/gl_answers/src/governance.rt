//! Why a request of governance is refused.

ghost use Rattle.std.specs.Prelude.{◌≡◌, IfOk};
ghost use Rattle.gl_answers.specs.Reasons.{governance_reason, status_number};

use crate::value::Reason;
use gl_gov_rules::{GovernanceRefusal, NodeStatus};
use std::alloc::{AllocError, Global};

/// The number of a node's status, 0 where the node isn't recorded.
fn status_number(status: Option<NodeStatus>) -> u8
    ensures { result ≡ status_number status }
{
    match status {
        None => 0,
        Some(status) => status.byte(),
    }
}

/// The number of a refusal of a request of governance, and its values.
pub(crate) fn governance_reason(
    alloc: Global,
    refusal: GovernanceRefusal,
) -> Result<Reason, AllocError>
    ensures { IfOk result (λ reason. reason ≡ governance_reason refusal) }
{
    use GovernanceRefusal::*;
    match refusal {
        NotMember => Reason::numbers(alloc, 40, &[]),
        NotActive => Reason::numbers(alloc, 41, &[]),
        Signature => Reason::numbers(alloc, 42, &[]),
        LeafNotGreater { last, got } => {
            Reason::numbers(alloc, 43, &[u64::from(last), u64::from(got)])
        }
        NoProposal => Reason::numbers(alloc, 44, &[]),
        NotOpen { state } => Reason::numbers(alloc, 45, &[u64::from(state.byte())]),
        HasBallot => Reason::numbers(alloc, 46, &[]),
        NotProposer => Reason::numbers(alloc, 47, &[]),
        BadAction { index, cause } => {
            Reason::numbers(alloc, 48, &[index, u64::from(cause.number())])
        }
        NodeState { status } => Reason::numbers(alloc, 49, &[u64::from(status_number(status))]),
        TooMany { limit } => Reason::numbers(alloc, 50, &[u64::from(limit)]),
        ServiceState { state } => Reason::numbers(alloc, 51, &[u64::from(state.byte())]),
        KnownProposal { id } => Reason::digests(alloc, 52, &[id]),
        WrongShare { digest } => Reason::digests(alloc, 100, &[digest]),
        KnownShare { member } => Reason::numbers(alloc, 101, &[u64::from(member)]),
        Secret { want, got } => Reason::digests(alloc, 103, &[want, got]),
    }
}
