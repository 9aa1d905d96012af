//! The history of governance: all requests so far, and what they brought about.

ghost use Rattle.gl_requests.specs.Ranges.{is_request};

use crate::carried::{Carried, SignedBy};
use crate::change::{Ballot, Changed, Proposal, Recorded, RecordedNode, Settling};
use crate::cut::changes_up_to;
use crate::index::{Added, ByChange, ByRequest};
use crate::request_facts::{GivenShare, Mark, Retirement, Signed, Trust};
use crate::row::GovernedRows;
use crate::row_changes::changes_of_rows;
use crate::settlings::{cut_settlings, push_settling, settle, settlings_of};
use gl_index::{append_reserved, copy_all, cut_list, list_at};
use gl_requests::{Digest, NewMember};
use std::alloc::{AllocError, Global};
use std::marker::Model;

/// All requests so far at the seqnos of their entries, and all changes that they brought about;
/// or those above a base, after what its rows tell in place of the requests before.
///
/// Beside them stands what they tell of members, nodes, proposals and shares, so that no request is
/// hashed twice, and no question about these goes through all requests.
#[derive(Drop)]
pub struct History {
    carried: Carried,
    requests: Vec<Recorded>,
    changes: Vec<Changed>,
    by_change: ByChange,
    by_request: ByRequest,
    /// What settled each proposal.
    settlings: Vec<Option<Settling>>,
}

impl Model for History {
    ghost use Rattle.gl_gov_rules.specs.History.{History};
    ghost use Rattle.gl_gov_rules.specs.Index.{IsIndexed};

    ghost Value = { History };

    ghost view = { λ h. record {
      carried = h.carried;
      requests = h.requests.items;
      changes = h.changes.items;
    } };

    ghost invariant = { λ h.
        IsIndexed h.carried h.requests.items h.changes.items h.by_change h.by_request
        h.settlings.items };
}

impl History {
    ghost use Rattle.std.specs.Prelude.{◌≡◌, ◌++◌, ◌∷◌, [], Option, Some, true, IfOk, OnOk, OnErr};
    ghost use Rattle.gl_gov_rules.specs.History.{no_history};
    ghost use Rattle.gl_gov_rules.specs.Members.{members};
    ghost use Rattle.gl_gov_rules.specs.Nodes.{nodes};
    ghost use Rattle.gl_gov_rules.specs.Proposals.{proposals, ballots_on, settlings};
    ghost use Rattle.gl_gov_rules.specs.Service.{given};
    ghost use Rattle.gl_gov_rules.specs.Index.{removed, trusts_of, retirements_of, marks_of, signed, AreLeavesSmall};
    ghost use Rattle.gl_gov_rules.specs.declared.row.GovernedRows.{GovernedRows};
    ghost use Rattle.gl_gov_rules.specs.GovernedRows.{begin_with, history_over, IsBelow};
    ghost use Rattle.gl_gov_rules.specs.Governed.{up_to};
    ghost use Rattle.gl_gov_rules.specs.Rising.{IsRising};

    /// No request yet.
    pub fn new(alloc: Global) -> Self
        ensures { result ≡ no_history }
    {
        History {
            carried: Carried::new(alloc),
            requests: Vec::new(alloc),
            changes: Vec::new(alloc),
            by_change: ByChange::new(alloc),
            by_request: ByRequest::new(alloc),
            settlings: Vec::new(alloc),
        }
    }

    /// The history that begins with rows in place of the requests up to their seqno.
    pub fn of_rows(alloc: Global, rows: &GovernedRows) -> Result<Self, AllocError>
        ensures { IfOk result (λ history. history ≡ begin_with (Some rows.now)) }
    {
        let carried = Carried::of_rows(alloc, rows)?;
        let changes = changes_of_rows(alloc, rows)?;
        let by_change = ByChange::of(alloc, &changes)?;
        let by_request = ByRequest::of_carried(alloc, &carried)?;
        let settlings = settlings_of(alloc, &changes, &by_request.proposals)?;
        Ok(History {
            carried,
            requests: Vec::new(alloc),
            changes,
            by_change,
            by_request,
            settlings,
        })
    }

    /// The history once more, in memory of its own.
    pub fn copy(&self, alloc: Global) -> Result<Self, AllocError>
        ensures { IfOk result (λ copy. copy ≡ self.now) }
    {
        Ok(History {
            carried: self.carried.copy(alloc)?,
            requests: copy_all(alloc, &self.requests)?,
            changes: copy_all(alloc, &self.changes)?,
            by_change: self.by_change.copy(alloc)?,
            by_request: self.by_request.copy(alloc)?,
            settlings: Vec::from_slice(alloc, &self.settlings)?,
        })
    }

    /// Adds a request and the changes that it brings about. What it needs is made first, so that
    /// running out of memory leaves all as it was.
    pub fn push_recorded(
        &mut self,
        alloc: Global,
        recorded: Recorded,
        changes: Vec<Changed>,
    ) -> Result<(), AllocError>
        requires { is_request recorded.request ≡ true }
        ensures pushed { OnOk result (self.new ≡ record {
          carried = self.old.carried;
          requests = self.old.requests ++ recorded ∷ [];
          changes = self.old.changes ++ changes.items;
        }) }
        ensures kept { OnErr result (self.new ≡ self.old) }
    {
        let reported = ByChange::of(alloc, &changes)?;
        let added = Added::of(alloc, recorded.seqno, &recorded.request)?;
        self.requests.reserve(1)?;
        self.changes.reserve(changes.len())?;
        self.by_change.reserve(&reported)?;
        self.by_request.reserve(alloc, &added, &recorded.request)?;
        self.settlings.reserve(1)?;
        settle(&mut self.settlings, &self.by_request.proposals, &changes);
        self.by_change.append(reported);
        self.by_request.push(added, &recorded);
        self.requests.push_reserved(recorded);
        append_reserved(&mut self.changes, changes);
        push_settling(
            &mut self.settlings,
            &self.by_request.proposals,
            &self.changes,
        );
        Ok(())
    }

    /// Cuts the history back to its requests up to a seqno, not below its base. Takes no memory.
    pub fn cut(&mut self, to: u64)
        requires rising { IsRising self.old.requests }
        requires whole { (base : Option GovernedRows) ×
            (self.old ≡ history_over base self.old.requests) × IsBelow base to }
        ensures cut { (base : Option GovernedRows) →
            self.old ≡ history_over base self.old.requests → IsBelow base to →
            self.new ≡ history_over base (up_to to self.old.requests) }
        ensures requests { self.new.requests ≡ up_to to self.old.requests }
    {
        cut_list(&mut self.requests, to);
        let changes = changes_up_to(to, &self.changes);
        self.changes.truncate(changes);
        self.by_change.cut(&self.changes);
        self.by_request.cut(to);
        cut_settlings(&mut self.settlings, to, self.by_request.proposals.len());
    }

    /// The requests so far, in order.
    pub fn requests(&self) -> &[Recorded]
        ensures { result.now ≡ self.now.requests }
    {
        &self.requests
    }

    /// The changes that they brought about, in order.
    pub fn changes(&self) -> &[Changed]
        ensures { result.now ≡ self.now.changes }
    {
        &self.changes
    }

    /// All members that there ever were, in the order in which they came.
    #[tactic(auto, unfolding(crate::specs::Members::members))]
    pub fn members(&self) -> &[NewMember]
        ensures { result.now ≡ members self.now }
    {
        &self.by_change.members
    }

    /// All nodes that were ever recorded, in that order.
    #[tactic(auto, unfolding(crate::specs::Nodes::nodes))]
    pub fn nodes(&self) -> &[RecordedNode]
        ensures { result.now ≡ nodes self.now }
    {
        &self.by_request.nodes
    }

    /// All proposals, in order.
    #[tactic(auto, unfolding(crate::specs::Proposals::proposals))]
    pub fn proposals(&self) -> &[Proposal]
        ensures { result.now ≡ proposals self.now }
    {
        &self.by_request.proposals
    }

    /// The numbers of the members who were removed.
    #[tactic(auto, unfolding(crate::specs::Index::removed))]
    pub(crate) fn removed(&self) -> &[u8]
        ensures { result.now ≡ removed self.now }
    {
        &self.by_change.removed
    }

    /// The trusts of nodes that were applied, in order.
    #[tactic(auto, unfolding(crate::specs::Index::trusts_of))]
    pub(crate) fn trusts(&self) -> &[Trust]
        ensures { result.now ≡ trusts_of self.now }
    {
        &self.by_change.trusts
    }

    /// What took nodes out of service, in order.
    #[tactic(auto, unfolding(crate::specs::Index::retirements_of))]
    pub(crate) fn retirements(&self) -> &[Retirement]
        ensures { result.now ≡ retirements_of self.now }
    {
        &self.by_change.retirements
    }

    /// The marks of nodes, in order.
    #[tactic(auto, unfolding(crate::specs::Index::marks_of))]
    pub(crate) fn marks(&self) -> &[Mark]
        ensures { result.now ≡ marks_of self.now }
    {
        &self.by_request.marks
    }

    /// The shares that were given at any time, in order.
    #[tactic(auto, unfolding(crate::specs::Service::given))]
    pub(crate) fn given(&self) -> &[GivenShare]
        ensures { result.now ≡ given self.now }
    {
        &self.by_request.shares
    }

    /// What is carried of the members' signatures.
    pub(crate) fn carried_signers(&self) -> &[SignedBy]
        ensures { result.now ≡ self.now.carried.signed }
    {
        self.carried.signed.as_slice()
    }

    /// What the requests tell that this member signed, in order.
    #[tactic(auto, unfolding(crate::specs::Index::signed))]
    pub(crate) fn signed(&self, number: u8) -> &[Signed]
        ensures reported { result.now ≡ signed number self.now }
        ensures leaves { AreLeavesSmall self.now.requests }
    {
        list_at(&self.by_request.signed, number as usize)
    }

    /// The ballots on a proposal, in order.
    #[tactic(auto, unfolding(crate::specs::Proposals::ballots_on))]
    pub fn ballots(&self, id: &Digest) -> &[Ballot]
        ensures { result.now ≡ ballots_on id.now self.now }
    {
        self.by_request.ballots.on(id)
    }

    /// What settled each proposal, in their order, none where it is open.
    #[tactic(auto, using(crate::proofs::HistoryIndex::settlings_are))]
    pub fn settlings(&self) -> &[Option<Settling>]
        ensures { result.now ≡ settlings self.now }
    {
        &self.settlings
    }
}
