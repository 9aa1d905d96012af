//! Values once more, in memory of their own. Each copy fails only where memory runs out.

ghost use Rattle.std.specs.Prelude.{◌≡◌, IfOk};

use crate::action::Action;
use crate::genesis::{Dealing, Genesis, NewNode, Recovery};
use crate::request::{GovernanceRequest, MemberAct, MemberRequest};
use gl_base::Sequence;
use std::alloc::{AllocError, Global};

fn copy_items<T: Copy>(alloc: Global, items: &[T]) -> Result<Sequence<T>, AllocError>
    ensures { IfOk result (λ copy. copy ≡ items.now) }
{
    Ok(Sequence::from(Vec::from_slice(alloc, items)?))
}

fn copy_nodes(alloc: Global, nodes: &[NewNode]) -> Result<Sequence<NewNode>, AllocError>
    ensures { IfOk result (λ copy. copy ≡ nodes.now) }
{
    let mut out = Vec::new(alloc);
    for node in nodes {
        out.push(node.copy(alloc)?)?;
    }
    Ok(Sequence::from(out))
}

/// The actions once more.
pub fn copy_actions(alloc: Global, actions: &[Action]) -> Result<Sequence<Action>, AllocError>
    ensures { IfOk result (λ copy. copy ≡ actions.now) }
{
    let mut out = Vec::new(alloc);
    for action in actions {
        out.push(action.copy(alloc)?)?;
    }
    Ok(Sequence::from(out))
}

impl NewNode {
    /// The node once more.
    pub fn copy(&self, alloc: Global) -> Result<Self, AllocError>
        ensures { IfOk result (λ copy. copy ≡ self.now) }
    {
        let endorsement = copy_items(alloc, self.endorsement.as_slice())?;
        Ok(NewNode {
            key: self.key,
            endorsement,
        })
    }
}

impl Dealing {
    /// The dealing once more.
    pub fn copy(&self, alloc: Global) -> Result<Self, AllocError>
        ensures { IfOk result (λ copy. copy ≡ self.now) }
    {
        let shares = copy_items(alloc, self.shares.as_slice())?;
        Ok(Dealing {
            threshold: self.threshold,
            secret_digest: self.secret_digest,
            shares,
        })
    }
}

impl Genesis {
    /// The request once more.
    pub fn copy(&self, alloc: Global) -> Result<Self, AllocError>
        ensures { IfOk result (λ copy. copy ≡ self.now) }
    {
        let nodes = copy_nodes(alloc, self.nodes.as_slice())?;
        let members = copy_items(alloc, self.members.as_slice())?;
        let dealing = self.dealing.copy(alloc)?;
        Ok(Genesis {
            state: self.state,
            identity: self.identity,
            nodes,
            members,
            dealing,
        })
    }
}

impl Recovery {
    /// The request once more.
    pub fn copy(&self, alloc: Global) -> Result<Self, AllocError>
        ensures { IfOk result (λ copy. copy ≡ self.now) }
    {
        let nodes = copy_nodes(alloc, self.nodes.as_slice())?;
        Ok(Recovery {
            identity: self.identity,
            nodes,
        })
    }
}

impl Action {
    /// The action once more.
    pub fn copy(&self, alloc: Global) -> Result<Self, AllocError>
        ensures { IfOk result (λ copy. copy ≡ self.now) }
    {
        match self {
            Action::SetMember(member) => Ok(Action::SetMember(*member)),
            Action::RemoveMember(number) => Ok(Action::RemoveMember(*number)),
            Action::SetRecoveryThreshold(dealing) => {
                Ok(Action::SetRecoveryThreshold(dealing.copy(alloc)?))
            }
            Action::TransitionNodeToTrusted(id) => Ok(Action::TransitionNodeToTrusted(*id)),
            Action::RemoveNode(id) => Ok(Action::RemoveNode(*id)),
            Action::TransitionServiceToOpen => Ok(Action::TransitionServiceToOpen),
            Action::SetConstitution(rules) => {
                Ok(Action::SetConstitution(copy_items(alloc, rules.as_slice())?))
            }
        }
    }
}

impl MemberAct {
    /// The same once more.
    pub fn copy(&self, alloc: Global) -> Result<Self, AllocError>
        ensures { IfOk result (λ copy. copy ≡ self.now) }
    {
        match self {
            MemberAct::Ack => Ok(MemberAct::Ack),
            MemberAct::Propose(actions) => {
                Ok(MemberAct::Propose(copy_actions(alloc, actions.as_slice())?))
            }
            MemberAct::Ballot { proposal, agrees } => Ok(MemberAct::Ballot {
                proposal: *proposal,
                agrees: *agrees,
            }),
            MemberAct::Withdraw { proposal } => Ok(MemberAct::Withdraw {
                proposal: *proposal,
            }),
            MemberAct::Share { share } => Ok(MemberAct::Share { share: *share }),
        }
    }
}

impl MemberRequest {
    /// The request once more.
    pub fn copy(&self, alloc: Global) -> Result<Self, AllocError>
        ensures { IfOk result (λ copy. copy ≡ self.now) }
    {
        let act = self.act.copy(alloc)?;
        let signature = copy_items(alloc, self.signature.as_slice())?;
        Ok(MemberRequest {
            member: self.member,
            act,
            signature,
        })
    }
}

impl GovernanceRequest {
    /// The request once more.
    pub fn copy(&self, alloc: Global) -> Result<Self, AllocError>
        ensures { IfOk result (λ copy. copy ≡ self.now) }
    {
        match self {
            GovernanceRequest::Genesis(genesis) => {
                Ok(GovernanceRequest::Genesis(genesis.copy(alloc)?))
            }
            GovernanceRequest::Recover(recovery) => {
                Ok(GovernanceRequest::Recover(recovery.copy(alloc)?))
            }
            GovernanceRequest::Join(node) => Ok(GovernanceRequest::Join(node.copy(alloc)?)),
            GovernanceRequest::Mark(id) => Ok(GovernanceRequest::Mark(*id)),
            GovernanceRequest::Member(request) => {
                Ok(GovernanceRequest::Member(request.copy(alloc)?))
            }
        }
    }
}
