//! What is carried in place of requests before the first: what they told, read off rows.

ghost use Rattle.std.specs.Prelude.{◌≡◌, ℕ, ◌++◌, map, filter_map, IfOk, OnOk};
ghost use Rattle.std.specs.List.{flat_map};
ghost use Rattle.gl_shares.specs.declared.share.Share as a_share;
ghost use Rattle.gl_gov_rules.specs.declared.row.Vote as a_vote;
ghost use Rattle.gl_gov_rules.specs.History.{nothing};
ghost use Rattle.gl_gov_rules.specs.GovernedRows.{carried_by, carried_node, carried_proposal, answers_carried, signer_carried, mark_carried};

use crate::change::{Proposal, RecordedNode};
use crate::refusal::{MemberStatus, NodeStatus};
use crate::request_facts::{GivenShare, Mark};
use crate::row::{GovernedRows, MemberRow, NodeRow, ProposalAt, Vote};
use gl_base::Sequence;
use gl_index::{copy_all, push_some};
use gl_requests::{Digest, NewNode, copy_actions};
use gl_shares::Share;
use std::alloc::{AllocError, Global};

/// A ballot as it is counted: on which proposal, whose, and whether it agrees.
#[derive(Clone, Copy, Debug)]
pub(crate) struct Answered {
    pub(crate) id: Digest,
    pub(crate) member: u8,
    pub(crate) agrees: bool,
}

/// What is known of a member's signatures.
#[derive(Clone, Copy, Debug)]
pub(crate) struct SignedBy {
    pub(crate) member: u8,
    /// 1 plus the leaf of the last, 0 where there is none.
    pub(crate) next_leaf: u32,
    /// Whether its row tells that it is active, so that its Ack stands.
    pub(crate) is_ack: bool,
}

/// What is carried in place of requests: what they told, as it is read off rows. There nodes and
/// proposals have the seqno 0, marks and shares that of the rows.
#[derive(Debug, Drop)]
pub(crate) struct Carried {
    pub(crate) nodes: Sequence<RecordedNode>,
    pub(crate) marks: Sequence<Mark>,
    pub(crate) proposals: Sequence<Proposal>,
    pub(crate) ballots: Sequence<Answered>,
    pub(crate) signed: Sequence<SignedBy>,
    pub(crate) shares: Sequence<GivenShare>,
}

impl Carried {
    /// Nothing.
    pub(crate) fn new(alloc: Global) -> Self
        ensures { result ≡ nothing }
    {
        Carried {
            nodes: Sequence::from(Vec::new(alloc)),
            marks: Sequence::from(Vec::new(alloc)),
            proposals: Sequence::from(Vec::new(alloc)),
            ballots: Sequence::from(Vec::new(alloc)),
            signed: Sequence::from(Vec::new(alloc)),
            shares: Sequence::from(Vec::new(alloc)),
        }
    }

    /// What is carried of rows.
    pub(crate) fn of_rows(alloc: Global, rows: &GovernedRows) -> Result<Self, AllocError>
        ensures { IfOk result (λ carried. carried ≡ carried_by rows.now) }
    {
        Ok(Carried {
            nodes: carried_nodes(alloc, rows.nodes.as_slice())?,
            marks: carried_marks(alloc, rows.seqno, rows.nodes.as_slice())?,
            proposals: carried_proposals(alloc, rows.proposals.as_slice())?,
            ballots: carried_answers(alloc, rows.proposals.as_slice())?,
            signed: carried_signers(alloc, rows.members.as_slice())?,
            shares: carried_shares(alloc, rows.seqno, rows.shares.as_slice())?,
        })
    }

    /// The same once more, in memory of its own.
    pub(crate) fn copy(&self, alloc: Global) -> Result<Self, AllocError>
        ensures { IfOk result (λ copy. copy ≡ self.now) }
    {
        Ok(Carried {
            nodes: Sequence::from(copy_all(alloc, self.nodes.as_slice())?),
            marks: Sequence::from(Vec::from_slice(alloc, self.marks.as_slice())?),
            proposals: Sequence::from(copy_all(alloc, self.proposals.as_slice())?),
            ballots: Sequence::from(Vec::from_slice(alloc, self.ballots.as_slice())?),
            signed: Sequence::from(Vec::from_slice(alloc, self.signed.as_slice())?),
            shares: Sequence::from(Vec::from_slice(alloc, self.shares.as_slice())?),
        })
    }
}

/// The node that a row stands for.
fn carried_node(alloc: Global, row: &NodeRow) -> Result<RecordedNode, AllocError>
    ensures { IfOk result (λ node. node ≡ carried_node row.now) }
{
    let endorsement = Sequence::from(Vec::from_slice(alloc, row.endorsement.as_slice())?);
    Ok(RecordedNode {
        id: row.id,
        seqno: 0,
        is_founding: matches!(row.status, NodeStatus::Trusted),
        node: NewNode {
            key: row.key,
            endorsement,
        },
    })
}

/// The nodes that rows stand for.
fn carried_nodes(alloc: Global, rows: &[NodeRow]) -> Result<Sequence<RecordedNode>, AllocError>
    ensures { IfOk result (λ nodes. nodes ≡ map carried_node rows.now) }
{
    let mut nodes = Vec::new(alloc);
    for row in rows {
        nodes.push(carried_node(alloc, row)?)?;
    }
    Ok(Sequence::from(nodes))
}

/// The mark of a node that a row stands for.
fn mark_carried(seqno: u64, row: &NodeRow) -> Option<Mark>
    ensures { result ≡ mark_carried seqno row.now }
{
    match row.status {
        NodeStatus::Marked => Some(Mark { id: row.id, seqno }),
        _ => None,
    }
}

/// The marks that the rows of nodes stand for.
fn carried_marks(alloc: Global, seqno: u64, rows: &[NodeRow]) -> Result<Sequence<Mark>, AllocError>
    ensures { IfOk result (λ marks. marks ≡ filter_map (mark_carried seqno) rows.now) }
{
    let mut marks = Vec::new(alloc);
    for row in rows {
        push_some(&mut marks, mark_carried(seqno, row))?;
    }
    Ok(Sequence::from(marks))
}

/// The proposal that a row stands for.
fn carried_proposal(alloc: Global, proposal: &ProposalAt) -> Result<Proposal, AllocError>
    ensures { IfOk result (λ out. out ≡ carried_proposal proposal.now) }
{
    let actions = copy_actions(alloc, proposal.row.actions.as_slice())?;
    Ok(Proposal {
        id: proposal.id,
        seqno: 0,
        proposer: proposal.row.proposer,
        actions,
    })
}

/// The proposals that rows stand for.
fn carried_proposals(alloc: Global, rows: &[ProposalAt]) -> Result<Sequence<Proposal>, AllocError>
    ensures { IfOk result (λ proposals. proposals ≡ map carried_proposal rows.now) }
{
    let mut proposals = Vec::new(alloc);
    for row in rows {
        proposals.push(carried_proposal(alloc, row)?)?;
    }
    Ok(Sequence::from(proposals))
}

/// Adds the ballots that a proposal's row tells.
fn push_answers(answers: &mut Vec<Answered>, id: &Digest, votes: &[Vote]) -> Result<(), AllocError>
    ensures { OnOk result (answers.new.items ≡ answers.old.items
        ++ map (λ (v : a_vote.Vote).
        record { id = id.now; member = v.member; agrees = v.agrees }) votes.now) }
{
    for vote in votes {
        answers.push(Answered {
            id: *id,
            member: vote.member,
            agrees: vote.agrees,
        })?;
    }
    Ok(())
}

/// The ballots that the rows of proposals tell.
fn carried_answers(alloc: Global, rows: &[ProposalAt]) -> Result<Sequence<Answered>, AllocError>
    ensures { IfOk result (λ answers. answers ≡ flat_map answers_carried rows.now) }
{
    let mut answers = Vec::new(alloc);
    for row in rows {
        push_answers(&mut answers, &row.id, row.row.ballots.as_slice())?;
    }
    Ok(Sequence::from(answers))
}

/// What the rows of members tell of their signatures.
fn carried_signers(alloc: Global, rows: &[MemberRow]) -> Result<Sequence<SignedBy>, AllocError>
    ensures { IfOk result (λ signed. signed ≡ map signer_carried rows.now) }
{
    let mut signed = Vec::new(alloc);
    for row in rows {
        signed.push(SignedBy {
            member: row.number,
            next_leaf: row.next_leaf,
            is_ack: matches!(row.status, MemberStatus::Active),
        })?;
    }
    Ok(Sequence::from(signed))
}

/// The shares that rows tell, at their seqno.
fn carried_shares(
    alloc: Global,
    seqno: u64,
    rows: &[Share],
) -> Result<Sequence<GivenShare>, AllocError>
    ensures { IfOk result (λ shares. shares
        ≡ map (λ (s : a_share.Share). record { seqno = seqno; share = s }) rows.now) }
{
    let mut shares = Vec::new(alloc);
    for row in rows {
        shares.push(GivenShare { seqno, share: *row })?;
    }
    Ok(Sequence::from(shares))
}
