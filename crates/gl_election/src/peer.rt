//! A voter and candidate.

ghost use Rattle.std.specs.Prelude.{◌≡◌, ◌≤◌, ◌+◌, nat_lt, ◌∷◌, [], map, false, IfOk, OnOk, OnErr};
ghost use Rattle.gl_base.specs.Answers.{Answers};
ghost use Rattle.gl_rules.specs.Identity.{member, same};
ghost use Rattle.gl_rules.specs.Elections.{may_vote_for};
ghost use Rattle.gl_rules.specs.Log.{is_up_to_date};
ghost use Rattle.gl_config.specs.Active.{sets_of};
ghost use Rattle.gl_election.specs.Elections.{position, idle_answer, update_view, role_by, campaign_outcome, vote_request, campaign, campaign_if_allowed, at_timeout, vote_if, grants, at_request_vote, add_vote, vote_outcome, count_votes, at_vote_reply, at_propose_vote, hand_over, at_step_down};
ghost use Rattle.gl_election.specs.declared.elected.ElectionRefusal.TheVariants.{NotPrimary};

use crate::elected::{Elected, ElectionOutcome, ElectionRefusal};
use gl_base::{OrNoMemory, Sequence, TxId};
use gl_config::{Active, NodeId, NodeSet};
use gl_messages::{Body, Message};
use std::alloc::{AllocError, Global};

/// What a node is in its view.
#[derive(Clone, Copy, Debug, PartialEq, Eq)]
pub enum Role {
    Follower,
    Candidate,
    Leader,
}

/// A node as a voter and candidate.
#[derive(Debug, Drop)]
pub struct Peer {
    pub view: u32,
    /// For whom it voted in this view.
    pub vote: Option<NodeId>,
    pub role: Role,
    /// Whom it takes for the leader of its view.
    pub leader: Option<NodeId>,
    /// Who voted for it in this view, the last one first.
    pub votes: NodeSet,
}

/// Whether the first signature is at least the second, by view and then by seqno.
fn is_up_to_date(a: TxId, b: TxId) -> bool
    ensures { result ≡ is_up_to_date (position a) (position b) }
{
    b.view < a.view || (b.view == a.view && b.seqno <= a.seqno)
}

/// Whether two identifiers are one.
#[tactic(auto, unfolding(gl_rules::specs::Identity::same))]
fn is_same(x: &NodeId, y: &NodeId) -> bool
    ensures { result ≡ same x.now y.now }
{
    x == y
}

/// Whether a vote is free for this candidate.
fn may_vote_for(vote: Option<NodeId>, candidate: &NodeId) -> bool
    ensures { result ≡ may_vote_for vote candidate.now }
{
    match vote {
        None => true,
        Some(node) => is_same(&node, candidate),
    }
}

fn role_by(won: bool) -> Role
    ensures { result ≡ role_by won }
{
    if won { Role::Leader } else { Role::Candidate }
}

fn vote_outcome(won: bool) -> ElectionOutcome
    ensures { result ≡ vote_outcome won }
{
    if won {
        ElectionOutcome::BecameLeader
    } else {
        ElectionOutcome::Done
    }
}

fn campaign_outcome(won: bool) -> ElectionOutcome
    ensures { result ≡ campaign_outcome won }
{
    if won {
        ElectionOutcome::BecameLeader
    } else {
        ElectionOutcome::BecameCandidate
    }
}

/// The set of this node alone.
fn only(alloc: Global, node: NodeId) -> Result<NodeSet, AllocError>
    ensures { IfOk result (λ nodes. nodes ≡ node ∷ []) }
{
    let mut nodes = Vec::new(alloc);
    nodes.push(node)?;
    Ok(NodeSet::new(nodes))
}

/// The set with one more node, before the others.
fn with_vote(alloc: Global, node: NodeId, nodes: &NodeSet) -> Result<NodeSet, AllocError>
    requires { member node nodes.now ≡ false }
    ensures { IfOk result (λ more. more ≡ node ∷ nodes.now) }
{
    let mut more = Vec::new(alloc);
    more.push(node)?;
    more.extend_from_slice(nodes.as_slice())?;
    Ok(NodeSet::new(more))
}

/// A request for a vote to each of these nodes.
fn vote_requests(
    alloc: Global,
    me: NodeId,
    view: u32,
    last: TxId,
    others: &[NodeId],
) -> Result<Sequence<Message>, AllocError>
    ensures { IfOk result (λ sent. sent ≡ map (vote_request me view last) others.now) }
{
    let mut sent = Vec::new(alloc);
    for to in others {
        sent.push(Message {
            from: me,
            to: *to,
            view,
            body: Body::RequestVote { last },
        })?;
    }
    Ok(Sequence::from(sent))
}

/// One message.
fn one_message(alloc: Global, message: Message) -> Result<Sequence<Message>, AllocError>
    ensures { IfOk result (λ sent. sent ≡ message ∷ []) }
{
    let mut sent = Vec::new(alloc);
    sent.push(message)?;
    Ok(Sequence::from(sent))
}

/// Nothing is done or sent.
fn idle(alloc: Global, rose: bool) -> Elected
    ensures { result ≡ idle_answer rose }
{
    Elected {
        outcome: ElectionOutcome::Idle,
        sent: Sequence::from(Vec::new(alloc)),
        rose,
    }
}

impl Peer {
    /// Enters a view that is later than its own: no vote, no leader, a follower. Tells whether it
    /// is.
    fn update_view(&mut self, alloc: Global, view: u32) -> bool
        ensures rose { result ≡ nat_lt self.old.view view }
        ensures peer { self.new ≡ update_view view self.old }
    {
        if view <= self.view {
            return false;
        }
        *self = Peer {
            view,
            vote: None,
            role: Role::Follower,
            leader: None,
            votes: NodeSet::new(Vec::new(alloc)),
        };
        true
    }

    /// Becomes a candidate of this view, and leads at once where its own vote suffices.
    fn campaign(
        &mut self,
        alloc: Global,
        me: NodeId,
        last: TxId,
        active: &Active<'_>,
        others: &[NodeId],
        view: u32,
    ) -> Result<Elected, AllocError>
        ensures ok { IfOk result (λ elected.
            (elected, self.new) ≡ campaign me last (sets_of active.now) others.now view) }
        ensures err { OnErr result (self.new ≡ self.old) }
    {
        let votes = only(alloc, me)?;
        let sent = vote_requests(alloc, me, view, last, others)?;
        let won = active.quorum(&votes);
        *self = Peer {
            view,
            vote: Some(me),
            role: role_by(won),
            leader: None,
            votes,
        };
        Ok(Elected {
            outcome: campaign_outcome(won),
            sent,
            rose: true,
        })
    }

    /// Campaigns for the view after this one, if it may.
    fn campaign_if_allowed(
        &mut self,
        alloc: Global,
        me: NodeId,
        last: TxId,
        active: &Active<'_>,
        others: &[NodeId],
        view: u32,
    ) -> Result<Elected, OrNoMemory<ElectionRefusal>>
        requires { self.old.view ≤ view }
        ensures exact { Answers (λ elected. (elected, self.new)) result
            (campaign_if_allowed me last (sets_of active.now) others.now (nat_lt self.old.view view)
            (update_view view self.old)) }
        ensures err { OnErr result (self.new ≡ self.old) }
    {
        if !active.holds(&me) {
            let rose = self.update_view(alloc, view);
            return Ok(idle(alloc, rose));
        }
        if view == u32::MAX {
            return Err(ElectionRefusal::ViewLimit.into());
        }
        Ok(self.campaign(alloc, me, last, active, others, view + 1)?)
    }

    /// A timeout: a leader is idle, and any other peer campaigns for the next view, if it may.
    pub fn timeout(
        &mut self,
        alloc: Global,
        me: NodeId,
        last: TxId,
        active: &Active<'_>,
        others: &[NodeId],
    ) -> Result<Elected, OrNoMemory<ElectionRefusal>>
        ensures exact { Answers (λ elected. (elected, self.new)) result
            (at_timeout me last (sets_of active.now) others.now self.old) }
        ensures err { OnErr result (self.new ≡ self.old) }
    {
        match self.role {
            Role::Leader => Ok(idle(alloc, false)),
            Role::Candidate => self.campaign_if_allowed(alloc, me, last, active, others, self.view),
            Role::Follower => self.campaign_if_allowed(alloc, me, last, active, others, self.view),
        }
    }

    fn vote_if(&mut self, granted: bool, candidate: NodeId)
        ensures { self.new ≡ vote_if granted candidate self.old }
    {
        if granted {
            self.vote = Some(candidate);
        }
    }

    /// Whether a candidate with this last signature gets its vote in this view.
    fn grants(&self, last: TxId, candidate: &NodeId, view: u32, theirs: TxId) -> bool
        ensures { result ≡ grants last candidate.now view theirs (update_view view self.now) }
    {
        if view < self.view {
            return false;
        }
        let is_free = view > self.view || may_vote_for(self.vote, candidate);
        is_free && is_up_to_date(theirs, last)
    }

    /// Adds a vote for it, once for each node.
    fn add_vote(&mut self, alloc: Global, from: NodeId) -> Result<(), AllocError>
        ensures ok { OnOk result (self.new ≡ add_vote from self.old) }
        ensures err { OnErr result (self.new ≡ self.old) }
    {
        if !self.votes.holds(&from) {
            self.votes = with_vote(alloc, from, &self.votes)?;
        }
        Ok(())
    }

    /// Leads where its votes are a majority in each active configuration.
    fn count_votes(&mut self, alloc: Global, active: &Active<'_>) -> Elected
        ensures { (result, self.new) ≡ count_votes (sets_of active.now) self.old }
    {
        let won = active.quorum(&self.votes);
        if won {
            self.role = Role::Leader;
        }
        Elected {
            outcome: vote_outcome(won),
            sent: Sequence::from(Vec::new(alloc)),
            rose: false,
        }
    }

    /// A request for a vote. In a view before its own it isn't granted. A later view is entered
    /// first. It is granted where the vote of this view is free for the candidate, and the
    /// candidate's last signature, by view and then by seqno, is at least this node's.
    pub fn on_request_vote(
        &mut self,
        alloc: Global,
        me: NodeId,
        last: TxId,
        from: NodeId,
        view: u32,
        theirs: TxId,
    ) -> Result<Elected, OrNoMemory<ElectionRefusal>>
        ensures exact { Answers (λ elected. (elected, self.new)) result
            (at_request_vote me last from view theirs self.old) }
        ensures err { OnErr result (self.new ≡ self.old) }
    {
        let granted = self.grants(last, &from, view, theirs);
        let sent = one_message(
            alloc,
            Message {
                from: me,
                to: from,
                view: self.view.max(view),
                body: Body::VoteReply { granted },
            },
        )?;
        let rose = self.update_view(alloc, view);
        self.vote_if(granted, from);
        Ok(Elected {
            outcome: ElectionOutcome::Done,
            sent,
            rose,
        })
    }

    /// A reply to such a request. A later view is entered, and no vote counted in it. A candidate
    /// of this view adds a vote that is granted, and leads where it has a majority in each active
    /// configuration.
    pub fn on_vote_reply(
        &mut self,
        alloc: Global,
        _me: NodeId,
        active: &Active<'_>,
        from: NodeId,
        view: u32,
        granted: bool,
    ) -> Result<Elected, OrNoMemory<ElectionRefusal>>
        ensures exact { Answers (λ elected. (elected, self.new)) result
            (at_vote_reply (sets_of active.now) from view granted self.old) }
        ensures err { OnErr result (self.new ≡ self.old) }
    {
        if view > self.view {
            let rose = self.update_view(alloc, view);
            return Ok(idle(alloc, rose));
        }
        match self.role {
            Role::Candidate => {
                if !granted || view < self.view {
                    return Ok(idle(alloc, false));
                }
                self.add_vote(alloc, from)?;
                Ok(self.count_votes(alloc, active))
            }
            Role::Follower => Ok(idle(alloc, false)),
            Role::Leader => Ok(idle(alloc, false)),
        }
    }

    /// A leader's wish that this node campaign: a timeout, unless the view is before its own. A
    /// later view is entered first, but for where the event is refused.
    pub fn on_propose_vote(
        &mut self,
        alloc: Global,
        me: NodeId,
        last: TxId,
        active: &Active<'_>,
        others: &[NodeId],
        _from: NodeId,
        view: u32,
    ) -> Result<Elected, OrNoMemory<ElectionRefusal>>
        ensures exact { Answers (λ elected. (elected, self.new)) result
            (at_propose_vote me last (sets_of active.now) others.now view self.old) }
        ensures err { OnErr result (self.new ≡ self.old) }
    {
        if view < self.view {
            return Ok(idle(alloc, false));
        }
        if view == self.view {
            return self.timeout(alloc, me, last, active, others);
        }
        self.campaign_if_allowed(alloc, me, last, active, others, view)
    }

    fn not_primary(&self) -> ElectionRefusal
        ensures { result ≡ NotPrimary self.now.view self.now.leader }
    {
        ElectionRefusal::NotPrimary {
            view: self.view,
            leader: self.leader,
        }
    }

    /// Follows, and asks another node to campaign.
    fn hand_over(&mut self, alloc: Global, me: NodeId, to: NodeId) -> Result<Elected, AllocError>
        ensures ok { IfOk result (λ elected. (elected, self.new) ≡ hand_over me to self.old) }
        ensures err { OnErr result (self.new ≡ self.old) }
    {
        let sent = one_message(
            alloc,
            Message {
                from: me,
                to,
                view: self.view,
                body: Body::ProposeVote,
            },
        )?;
        self.role = Role::Follower;
        self.leader = None;
        Ok(Elected {
            outcome: ElectionOutcome::Done,
            sent,
            rose: false,
        })
    }

    /// The leader hands over to another node of an active configuration: it follows, knows no
    /// leader, and asks that node to campaign.
    pub fn step_down(
        &mut self,
        alloc: Global,
        me: NodeId,
        active: &Active<'_>,
        to: NodeId,
    ) -> Result<Elected, OrNoMemory<ElectionRefusal>>
        ensures exact { Answers (λ elected. (elected, self.new)) result
            (at_step_down me (sets_of active.now) to self.old) }
        ensures err { OnErr result (self.new ≡ self.old) }
    {
        match self.role {
            Role::Leader => {
                if is_same(&to, &me) || !active.holds(&to) {
                    return Err(ElectionRefusal::NotPeer.into());
                }
                Ok(self.hand_over(alloc, me, to)?)
            }
            Role::Candidate => Err(self.not_primary().into()),
            Role::Follower => Err(self.not_primary().into()),
        }
    }
}
