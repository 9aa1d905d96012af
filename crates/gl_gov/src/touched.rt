//! Which rows of the governance tables a request can change.

ghost use Rattle.std.specs.Prelude.{◌≡◌, ◌++◌, Some, is_some, map, slice_get, true, IfOk, OnOk};
ghost use Rattle.std.specs.Option.{option_to_list};
ghost use Rattle.gl_requests.specs.Ranges.{is_request, is_member_request};
ghost use Rattle.gl_gov_rules.specs.History.{History};
ghost use Rattle.gl_gov_rules.specs.Service.{share_in};
ghost use Rattle.gl_gov_rules.specs.Proposals.{proposals, settled_state, is_open_state};
ghost use Rattle.gl_gov_rules.specs.Changes.{changes_of, changed_at};
ghost use Rattle.gl_gov_rules.specs.ProposalStatus.{named_in_act, proposal_named};
ghost use Rattle.gl_gov.specs.Touched.{signer, node_named, is_open, open_ids, changes_more, ids_touched, touched_by};

use gl_base::Sequence;
use gl_gov_rules::{Changed, History, Proposal, ProposalState, Recorded, Settling};
use gl_requests::{Digest, GovernanceRequest, MemberAct, MemberRequest, NodeId};
use std::alloc::{AllocError, Global};

/// What a request touches. All other rows are the same after it.
#[derive(Debug, Drop)]
pub struct Touched {
    /// It brings changes about, or gives a share.
    pub changes_more: bool,
    /// The member who signed it.
    pub member: Option<u8>,
    /// The node that joins, or that is marked.
    pub node: Option<NodeId>,
    /// The proposal that it names, and where it changes more all that are open.
    pub proposals: Sequence<Digest>,
}

/// Which rows are made.
#[derive(Debug, Drop)]
pub enum Selection {
    All,
    Touched(Touched),
}

/// The member who signed the request.
fn signer(request: &GovernanceRequest) -> Option<u8>
    ensures { result ≡ signer request.now }
{
    match request {
        GovernanceRequest::Member(request) => Some(request.member),
        _ => None,
    }
}

/// The node that joins, or that is marked.
fn node_named(request: &GovernanceRequest) -> Option<NodeId>
    ensures { result ≡ node_named request.now }
{
    match request {
        GovernanceRequest::Join(node) => Some(node.id()),
        GovernanceRequest::Mark(id) => Some(*id),
        _ => None,
    }
}

/// The proposal that a member's request makes, answers or takes back.
fn named_in_act(alloc: Global, request: &MemberRequest) -> Result<Option<Digest>, AllocError>
    requires { is_member_request request.now ≡ true }
    ensures { IfOk result (λ id. id ≡ named_in_act request.now request.now.act) }
{
    match &request.act {
        MemberAct::Propose(_) => Ok(Some(request.proposal_id(alloc)?)),
        MemberAct::Ballot { proposal, .. } | MemberAct::Withdraw { proposal } => Ok(Some(
            *proposal,
        )),
        MemberAct::Ack | MemberAct::Share { .. } => Ok(None),
    }
}

/// The proposal that a request makes, answers or takes back.
pub fn proposal_named(
    alloc: Global,
    request: &GovernanceRequest,
) -> Result<Option<Digest>, AllocError>
    requires { is_request request.now ≡ true }
    ensures { IfOk result (λ id. id ≡ proposal_named request.now) }
{
    match request {
        GovernanceRequest::Member(request) => named_in_act(alloc, request),
        _ => Ok(None),
    }
}

fn gives_share(request: &GovernanceRequest) -> bool
    ensures { result ≡ is_some (share_in request.now) }
{
    match request {
        GovernanceRequest::Member(request) => matches!(request.act, MemberAct::Share { .. }),
        _ => false,
    }
}

/// Whether the request brings changes about, which are these, or gives a share.
fn changes_more(recorded: &Recorded, changes: &[Changed]) -> bool
    ensures { (h : History) →
        changes.now ≡ map (changed_at recorded.now.seqno) (changes_of h recorded.now) →
        result ≡ changes_more h recorded.now }
{
    !changes.is_empty() || gives_share(&recorded.request)
}

/// Whether a proposal that is settled so is open.
fn is_open_so(settling: Option<Settling>) -> bool
    ensures { result ≡ is_open_state (settled_state settling) }
{
    match settling {
        None => true,
        Some(settling) => matches!(settling.state, ProposalState::Open),
    }
}

/// Whether the proposal at a place among all is open, as what settled it tells.
#[tactic(auto, using(crate::proofs::OpenIds::is_place, crate::proofs::OpenIds::open_at))]
fn is_open(past: &History, place: usize, proposal: &Proposal) -> bool
    requires { slice_get (proposals past.now) place ≡ Some proposal.now }
    ensures { result ≡ is_open past.now proposal.now }
{
    let settlings = past.settlings();
    is_open_so(settlings[place])
}

/// Adds the identifiers of the proposals that are open.
fn push_open_ids(ids: &mut Vec<Digest>, past: &History) -> Result<(), AllocError>
    ensures { OnOk result (ids.new.items ≡ ids.old.items ++ open_ids past.now) }
{
    for (place, proposal) in past.proposals().iter().enumerate() {
        if is_open(past, place, proposal) {
            ids.push(proposal.id)?;
        }
    }
    Ok(())
}

/// Adds an identifier, if there is one.
fn push_id(ids: &mut Vec<Digest>, id: Option<Digest>) -> Result<(), AllocError>
    ensures { OnOk result (ids.new.items ≡ ids.old.items ++ option_to_list id) }
{
    match id {
        None => Ok(()),
        Some(id) => Ok(ids.push(id)?),
    }
}

/// The proposal that the request names, and where it changes more all that are open.
fn ids_touched(
    alloc: Global,
    changes_more: bool,
    past: &History,
    request: &GovernanceRequest,
) -> Result<Vec<Digest>, AllocError>
    requires { is_request request.now ≡ true }
    ensures { IfOk result (λ ids. ids.items ≡ ids_touched changes_more past.now request.now) }
{
    let mut ids = Vec::new(alloc);
    push_id(&mut ids, proposal_named(alloc, request)?)?;
    if changes_more {
        push_open_ids(&mut ids, past)?;
    }
    Ok(ids)
}

/// What a request touches that brings these changes about.
pub fn touched_by(
    alloc: Global,
    past: &History,
    recorded: &Recorded,
    changes: &[Changed],
) -> Result<Touched, AllocError>
    requires fits { is_request recorded.now.request ≡ true }
    requires brought { changes.now
        ≡ map (changed_at recorded.now.seqno) (changes_of past.now recorded.now) }
    ensures { IfOk result (λ touched. touched ≡ touched_by past.now recorded.now) }
{
    let request = &recorded.request;
    let changes_more = changes_more(recorded, changes);
    let proposals = ids_touched(alloc, changes_more, past, request)?;
    Ok(Touched {
        changes_more,
        member: signer(request),
        node: node_named(request),
        proposals: Sequence::from(proposals),
    })
}

impl Touched {
    ghost use Rattle.std.specs.Prelude.{◌≡◌, ◌∷◌, []};
    ghost use Rattle.gl_gov.specs.Touched.{touches_member, touches_node, touches_proposal};

    fn has_member(&self, number: u8) -> bool
        ensures { result ≡ touches_member self.now (number ∷ []) }
    {
        self.changes_more || self.member == Some(number)
    }

    fn has_node(&self, id: &NodeId) -> bool
        ensures { result ≡ touches_node self.now id.now }
    {
        self.changes_more || self.node == Some(*id)
    }

    fn has_proposal(&self, id: &Digest) -> bool
        ensures { result ≡ touches_proposal self.now id.now }
    {
        self.proposals.as_slice().contains(id)
    }
}

impl Selection {
    ghost use Rattle.std.specs.Prelude.{◌≡◌};
    ghost use Rattle.gl_gov.specs.Touched.{selects_settings, selects_member, selects_node, selects_proposal};

    /// Whether the rows of the constitution, the dealing, the service and the shares are made.
    pub(crate) fn has_settings(&self) -> bool
        ensures { result ≡ selects_settings self.now }
    {
        match self {
            Selection::All => true,
            Selection::Touched(touched) => touched.changes_more,
        }
    }

    pub(crate) fn has_member(&self, number: u8) -> bool
        ensures { result ≡ selects_member self.now number }
    {
        match self {
            Selection::All => true,
            Selection::Touched(touched) => touched.has_member(number),
        }
    }

    pub(crate) fn has_node(&self, id: &NodeId) -> bool
        ensures { result ≡ selects_node self.now id.now }
    {
        match self {
            Selection::All => true,
            Selection::Touched(touched) => touched.has_node(id),
        }
    }

    pub(crate) fn has_proposal(&self, id: &Digest) -> bool
        ensures { result ≡ selects_proposal self.now id.now }
    {
        match self {
            Selection::All => true,
            Selection::Touched(touched) => touched.has_proposal(id),
        }
    }
}
