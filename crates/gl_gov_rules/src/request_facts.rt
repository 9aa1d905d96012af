//! What requests and changes tell of members, nodes and shares, as it is kept beside a history.

ghost use Rattle.std.specs.Prelude.{◌≡◌, ℕ, ◌≤◌, ◌++◌, ◌∷◌, [], nat_eq, OnOk};
ghost use Rattle.std.specs.Option.{option_to_list};
ghost use Rattle.gl_gov_rules.specs.Members.{leaf_after};
ghost use Rattle.gl_index.specs.Lists.{lists_of, list_at, HasRoomAt};
ghost use Rattle.gl_gov_rules.specs.Service.{given_in};
ghost use Rattle.gl_gov_rules.specs.RequestFacts.{removed_in, trust_in, retirement_in, mark_in, signed_in, signed_by};
ghost use Rattle.gl_gov_rules.specs.Index.{HasRoomForSigner};

use crate::change::{Ballot, Change, Proposal, Recorded, RecordedNode};
use crate::leaf::leaf_of;
use gl_index::{AtSeqno, push_at, reserve_at};
use gl_requests::{Action, GovernanceRequest, MemberAct, MemberRequest, NodeId};
use gl_shares::Share;
use std::alloc::{AllocError, Global};

/// A node that was marked.
#[derive(Clone, Copy, Debug)]
pub(crate) struct Mark {
    pub(crate) id: NodeId,
    pub(crate) seqno: u64,
}

/// A node whose trust was applied.
#[derive(Clone, Copy, Debug)]
pub(crate) struct Trust {
    pub(crate) id: NodeId,
    pub(crate) seqno: u64,
}

/// What took a node out of service, or by a recovery all nodes.
#[derive(Clone, Copy, Debug)]
pub(crate) struct Retirement {
    pub(crate) seqno: u64,
    /// The node, none where it is all of them.
    pub(crate) id: Option<NodeId>,
}

/// A share that a member gave.
#[derive(Clone, Copy, Debug)]
pub(crate) struct GivenShare {
    pub(crate) seqno: u64,
    pub(crate) share: Share,
}

/// What a request tells of the member who signed it.
#[derive(Clone, Copy, Debug)]
pub(crate) struct Signed {
    pub(crate) seqno: u64,
    /// 1 plus the leaf of its signature.
    pub(crate) next_leaf: u32,
    pub(crate) is_ack: bool,
}

impl AtSeqno for Recorded {
    ghost seqno_at = { λ r. r.seqno };

    fn seqno(&self) -> u64 {
        self.seqno
    }
}

impl AtSeqno for RecordedNode {
    ghost seqno_at = { λ n. n.seqno };

    fn seqno(&self) -> u64 {
        self.seqno
    }
}

impl AtSeqno for Proposal {
    ghost seqno_at = { λ p. p.seqno };

    fn seqno(&self) -> u64 {
        self.seqno
    }
}

impl AtSeqno for Mark {
    ghost seqno_at = { λ m. m.seqno };

    fn seqno(&self) -> u64 {
        self.seqno
    }
}

impl AtSeqno for GivenShare {
    ghost seqno_at = { λ s. s.seqno };

    fn seqno(&self) -> u64 {
        self.seqno
    }
}

impl AtSeqno for Signed {
    ghost seqno_at = { λ s. s.seqno };

    fn seqno(&self) -> u64 {
        self.seqno
    }
}

impl AtSeqno for Ballot {
    ghost seqno_at = { λ b. b.seqno };

    fn seqno(&self) -> u64 {
        self.seqno
    }
}

/// The number of the member whose removal the change applies.
pub(crate) fn removed_in(change: &Change) -> Option<u8>
    ensures { result ≡ removed_in change.now }
{
    match change {
        Change::Applied(Action::RemoveMember(number)) => Some(*number),
        _ => None,
    }
}

/// The trust of a node that the change at a seqno applies.
pub(crate) fn trust_in(seqno: u64, change: &Change) -> Option<Trust>
    ensures { result ≡ trust_in seqno change.now }
{
    match change {
        Change::Applied(Action::TransitionNodeToTrusted(id)) => Some(Trust { id: *id, seqno }),
        _ => None,
    }
}

/// What the change at a seqno takes out of service.
pub(crate) fn retirement_in(seqno: u64, change: &Change) -> Option<Retirement>
    ensures { result ≡ retirement_in seqno change.now }
{
    match change {
        Change::Recovered(_) => Some(Retirement { seqno, id: None }),
        Change::Applied(Action::RemoveNode(id)) => Some(Retirement {
            seqno,
            id: Some(*id),
        }),
        _ => None,
    }
}

/// The mark of a node that the request at a seqno is.
pub(crate) fn mark_in(seqno: u64, request: &GovernanceRequest) -> Option<Mark>
    ensures { result ≡ mark_in seqno request.now }
{
    match request {
        GovernanceRequest::Mark(id) => Some(Mark { id: *id, seqno }),
        _ => None,
    }
}

/// The share that the request at a seqno gives.
pub(crate) fn given_in(seqno: u64, request: &GovernanceRequest) -> Option<GivenShare>
    ensures { result ≡ given_in seqno request.now }
{
    match request {
        GovernanceRequest::Member(request) => match request.act {
            MemberAct::Share { share: value } => {
                let member = request.member;
                let share = Share { member, value };
                Some(GivenShare { seqno, share })
            }
            _ => None,
        },
        _ => None,
    }
}

/// What a member's request at a seqno tells of its signer.
fn signed_in(seqno: u64, request: &MemberRequest) -> Signed
    ensures reported { result ≡ signed_in seqno request.now }
    ensures range { result.next_leaf ≤ 1024 }
{
    Signed {
        seqno,
        next_leaf: leaf_of(request.signature.as_slice()) + 1,
        is_ack: matches!(request.act, MemberAct::Ack),
    }
}

/// Makes room for what the request tells of its signer.
pub(crate) fn reserve_signer(
    alloc: Global,
    signed: &mut Vec<Vec<Signed>>,
    request: &GovernanceRequest,
) -> Result<(), AllocError>
    ensures same { (n : ℕ) →
        list_at (lists_of signed.new.items) n ≡ list_at (lists_of signed.old.items) n }
    ensures room { OnOk result (HasRoomForSigner signed.new.items request.now) }
{
    match request {
        GovernanceRequest::Member(request) => reserve_at(alloc, signed, request.member as usize),
        _ => Ok(()),
    }
}

/// Adds what the request at a seqno tells of its signer.
pub(crate) fn push_signer(signed: &mut [Vec<Signed>], seqno: u64, request: &GovernanceRequest)
    requires { HasRoomForSigner signed.old request.now }
    ensures more { (n : ℕ) → list_at (lists_of signed.new) n
        ≡ list_at (lists_of signed.old) n ++ option_to_list (signed_by n seqno request.now) }
    ensures range { leaf_after request.now ≤ 1024 }
{
    match request {
        GovernanceRequest::Member(request) => {
            push_at(signed, request.member as usize, signed_in(seqno, request));
        }
        _ => {}
    }
}
