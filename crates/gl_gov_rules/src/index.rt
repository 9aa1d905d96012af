//! What stands beside the requests and the changes of a history, so that no question about members,
//! nodes, proposals or shares goes through all requests.

ghost use Rattle.std.specs.Prelude.{◌≡◌, ℕ, ◌≤◌, ◌++◌, ◌∷◌, [], List, take, vec_len, true, IfOk, OnOk};
ghost use Rattle.gl_requests.specs.Ranges.{is_request};
ghost use Rattle.gl_gov_rules.specs.declared.change.Recorded.{Recorded};
ghost use Rattle.gl_gov_rules.specs.declared.change.Changed.{Changed};
ghost use Rattle.gl_gov_rules.specs.Governed.{up_to};
ghost use Rattle.gl_gov_rules.specs.Rising.{IsRising};
ghost use Rattle.gl_gov_rules.specs.History.{Carried, nothing};
ghost use Rattle.gl_gov_rules.specs.Index.{IsCarriedTo, IsOfChanges, IsOfRequests, IsOfRequest, HasRoomForAdded, HasRoomForNamed};

use crate::ballots::{carried_ballots, push_answer, reserve_answer};
use crate::carried::Carried;
use crate::change::{Ballot, Changed, Proposal, Recorded, RecordedNode};
use crate::members::{member_named, named_count, removed_count};
use crate::nodes::{push_nodes_recorded, retirement_count, trust_count};
use crate::proposals::proposal_in;
use crate::request_facts::{
    GivenShare, Mark, Retirement, Signed, Trust, given_in, mark_in, push_signer, removed_in,
    reserve_signer, retirement_in, trust_in,
};
use gl_index::{
    KeyedLists, append_reserved, copy_all, copy_lists, cut_list, cut_lists, push_some,
    push_some_reserved,
};
use gl_requests::{GovernanceRequest, NewMember};
use std::alloc::{AllocError, Global};

/// What changes tell.
#[derive(Drop)]
pub(crate) struct ByChange {
    /// The members whom they name.
    pub(crate) members: Vec<NewMember>,
    /// The numbers of the members whom they remove.
    pub(crate) removed: Vec<u8>,
    /// The trusts of nodes that they apply.
    pub(crate) trusts: Vec<Trust>,
    /// What takes nodes out of service.
    pub(crate) retirements: Vec<Retirement>,
}

/// What requests tell.
#[derive(Drop)]
pub(crate) struct ByRequest {
    pub(crate) nodes: Vec<RecordedNode>,
    pub(crate) marks: Vec<Mark>,
    pub(crate) shares: Vec<GivenShare>,
    pub(crate) proposals: Vec<Proposal>,
    /// For each member's number, what the requests tell that it signed.
    pub(crate) signed: Vec<Vec<Signed>>,
    /// The ballots on each proposal.
    pub(crate) ballots: KeyedLists<Ballot>,
}

/// What one request tells that needs memory of its own.
#[derive(Drop)]
pub(crate) struct Added {
    nodes: Vec<RecordedNode>,
    proposal: Option<Proposal>,
}

impl ByChange {
    /// What no change tells.
    pub(crate) fn new(alloc: Global) -> Self
        ensures { IsOfChanges [] result }
    {
        ByChange {
            members: Vec::new(alloc),
            removed: Vec::new(alloc),
            trusts: Vec::new(alloc),
            retirements: Vec::new(alloc),
        }
    }

    /// Adds what one more change tells.
    pub(crate) fn push(&mut self, changed: &Changed) -> Result<(), AllocError>
        ensures { OnOk result ((cs : List Changed) →
            IsOfChanges cs self.old → IsOfChanges (cs ++ changed.now ∷ []) self.new) }
    {
        push_some(&mut self.members, member_named(&changed.change))?;
        push_some(&mut self.removed, removed_in(&changed.change))?;
        push_some(&mut self.trusts, trust_in(changed.seqno, &changed.change))?;
        let retirement = retirement_in(changed.seqno, &changed.change);
        push_some(&mut self.retirements, retirement)?;
        Ok(())
    }

    /// What these changes tell.
    pub(crate) fn of(alloc: Global, changes: &[Changed]) -> Result<Self, AllocError>
        ensures { IfOk result (λ reported. IsOfChanges changes.now reported) }
    {
        let mut reported = ByChange::new(alloc);
        for changed in changes {
            reported.push(changed)?;
        }
        Ok(reported)
    }

    /// The same once more, in memory of its own.
    pub(crate) fn copy(&self, alloc: Global) -> Result<Self, AllocError>
        ensures { IfOk result (λ copy.
            (cs : List Changed) → IsOfChanges cs self.now → IsOfChanges cs copy) }
    {
        Ok(ByChange {
            members: Vec::from_slice(alloc, &self.members)?,
            removed: Vec::from_slice(alloc, &self.removed)?,
            trusts: Vec::from_slice(alloc, &self.trusts)?,
            retirements: Vec::from_slice(alloc, &self.retirements)?,
        })
    }

    /// Makes room for what more changes tell.
    pub(crate) fn reserve(&mut self, more: &ByChange) -> Result<(), AllocError>
        ensures same { (cs : List Changed) → IsOfChanges cs self.old → IsOfChanges cs self.new }
        ensures room { OnOk result (HasRoomForNamed self.new more.now) }
    {
        self.members.reserve(more.members.len())?;
        self.removed.reserve(more.removed.len())?;
        self.trusts.reserve(more.trusts.len())?;
        self.retirements.reserve(more.retirements.len())
    }

    /// Adds what more changes tell.
    pub(crate) fn append(&mut self, more: ByChange)
        requires { HasRoomForNamed self.old more }
        ensures { (cs ds : List Changed) →
            IsOfChanges cs self.old → IsOfChanges ds more → IsOfChanges (cs ++ ds) self.new }
    {
        append_reserved(&mut self.members, more.members);
        append_reserved(&mut self.removed, more.removed);
        append_reserved(&mut self.trusts, more.trusts);
        append_reserved(&mut self.retirements, more.retirements);
    }

    /// Cuts it back to what the first changes tell, which are left.
    pub(crate) fn cut(&mut self, left: &[Changed])
        ensures { (n : ℕ) (cs : List Changed) →
            left.now ≡ take n cs → IsOfChanges cs self.old → IsOfChanges left.now self.new }
    {
        self.members.truncate(named_count(left));
        self.removed.truncate(removed_count(left));
        self.trusts.truncate(trust_count(left));
        self.retirements.truncate(retirement_count(left));
    }
}

impl Added {
    /// What the request at a seqno tells.
    pub(crate) fn of(
        alloc: Global,
        seqno: u64,
        request: &GovernanceRequest,
    ) -> Result<Self, AllocError>
        requires { is_request request.now ≡ true }
        ensures { IfOk result (λ reported. IsOfRequest seqno request.now reported) }
    {
        let mut nodes = Vec::new(alloc);
        push_nodes_recorded(alloc, &mut nodes, seqno, request)?;
        let proposal = proposal_in(alloc, seqno, request)?;
        Ok(Added { nodes, proposal })
    }
}

impl ByRequest {
    /// What no request tells.
    pub(crate) fn new(alloc: Global) -> Self
        ensures { IsOfRequests nothing [] result }
    {
        ByRequest {
            nodes: Vec::new(alloc),
            marks: Vec::new(alloc),
            shares: Vec::new(alloc),
            proposals: Vec::new(alloc),
            signed: Vec::new(alloc),
            ballots: KeyedLists::new(alloc),
        }
    }

    /// What is carried, before the first request.
    pub(crate) fn of_carried(alloc: Global, carried: &Carried) -> Result<Self, AllocError>
        ensures { IfOk result (λ told. IsOfRequests carried.now [] told) }
    {
        Ok(ByRequest {
            nodes: copy_all(alloc, carried.nodes.as_slice())?,
            marks: Vec::from_slice(alloc, carried.marks.as_slice())?,
            shares: Vec::from_slice(alloc, carried.shares.as_slice())?,
            proposals: copy_all(alloc, carried.proposals.as_slice())?,
            signed: Vec::new(alloc),
            ballots: carried_ballots(alloc, carried.ballots.as_slice())?,
        })
    }

    /// The same once more, in memory of its own.
    pub(crate) fn copy(&self, alloc: Global) -> Result<Self, AllocError>
        ensures { IfOk result (λ copy.
            (k : Carried) (rs : List Recorded) →
            IsOfRequests k rs self.now → IsOfRequests k rs copy) }
    {
        Ok(ByRequest {
            nodes: copy_all(alloc, &self.nodes)?,
            marks: Vec::from_slice(alloc, &self.marks)?,
            shares: Vec::from_slice(alloc, &self.shares)?,
            proposals: copy_all(alloc, &self.proposals)?,
            signed: copy_lists(alloc, &self.signed)?,
            ballots: self.ballots.copy(alloc)?,
        })
    }

    /// Makes room for what one more request tells.
    pub(crate) fn reserve(
        &mut self,
        alloc: Global,
        added: &Added,
        request: &GovernanceRequest,
    ) -> Result<(), AllocError>
        requires { vec_len self.old.ballots.lists ≤ vec_len self.old.ballots.ids }
        ensures same { (k : Carried) (rs : List Recorded) →
            IsOfRequests k rs self.old → IsOfRequests k rs self.new }
        ensures room { OnOk result (HasRoomForAdded self.new added.now request.now) }
    {
        self.nodes.reserve(added.nodes.len())?;
        self.marks.reserve(1)?;
        self.shares.reserve(1)?;
        self.proposals.reserve(1)?;
        reserve_signer(alloc, &mut self.signed, request)?;
        reserve_answer(alloc, &mut self.ballots, request)
    }

    /// Adds what one more request tells.
    pub(crate) fn push(&mut self, added: Added, recorded: &Recorded)
        requires room { HasRoomForAdded self.old added recorded.now.request }
        requires reported { IsOfRequest recorded.now.seqno recorded.now.request added }
        ensures { (k : Carried) (rs : List Recorded) →
            IsOfRequests k rs self.old → IsOfRequests k (rs ++ recorded.now ∷ []) self.new }
    {
        let seqno = recorded.seqno;
        append_reserved(&mut self.nodes, added.nodes);
        push_some_reserved(&mut self.marks, mark_in(seqno, &recorded.request));
        push_some_reserved(&mut self.shares, given_in(seqno, &recorded.request));
        push_some_reserved(&mut self.proposals, added.proposal);
        push_signer(&mut self.signed, seqno, &recorded.request);
        push_answer(&mut self.ballots, seqno, &recorded.request);
    }

    /// Cuts it back to what is carried and what the requests up to a seqno tell, where all that is
    /// carried stands up to it.
    pub(crate) fn cut(&mut self, to: u64)
        ensures { (k : Carried) (rs : List Recorded) → IsCarriedTo to k → IsRising rs →
            IsOfRequests k rs self.old → IsOfRequests k (up_to to rs) self.new }
    {
        cut_list(&mut self.nodes, to);
        cut_list(&mut self.marks, to);
        cut_list(&mut self.shares, to);
        cut_list(&mut self.proposals, to);
        cut_lists(&mut self.signed, to);
        self.ballots.cut(to);
    }
}
