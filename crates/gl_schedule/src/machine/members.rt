//! What members ask of a node in lines of a schedule.

ghost use Rattle.std.specs.Prelude.{◌≡◌, ◌≤◌, true, IfSome, OnOk};
ghost use Rattle.gl_lines.specs.declared.line.Line.TheVariants as lines;
ghost use Rattle.gl_lines.specs.Kept.{AreProposed, IsFit};
ghost use Rattle.gl_requests.specs.Ranges.{is_act};
ghost use Rattle.gl_requests.specs.declared.request.MemberAct.TheVariants as acts;
ghost use Rattle.gl_world.specs.Founding.{id_of};
ghost use Rattle.gl_world.specs.Held.{has_node};
ghost use Rattle.gl_schedule.specs.Play.{Prints, asks};
ghost use Rattle.gl_schedule.specs.Output.{at_member, at_node, effect_of, signs};

use super::Machine;
use crate::numbers::{member_number, node_number};
use crate::text::{put_no_proposal, put_spent, put_unnamed};
use gl_base::{OrNoMemory, Sequence};
use gl_lines::Line;
use gl_requests::{Action, Digest, GovernanceRequest, MemberAct, copy_actions};
use gl_world::WorldNode;
use std::alloc::AllocError;

/// A member's answer to a proposal.
fn ballot_on(proposal: Digest, agrees: bool) -> MemberAct
    ensures act { result ≡ acts.Ballot proposal agrees }
    ensures fits { is_act result ≡ true }
{
    MemberAct::Ballot { proposal, agrees }
}

/// That a member takes its proposal back.
fn withdrawal_of(proposal: Digest) -> MemberAct
    ensures act { result ≡ acts.Withdraw proposal }
    ensures fits { is_act result ≡ true }
{
    MemberAct::Withdraw { proposal }
}

impl<N: WorldNode> Machine<N> {
    /// What a member asks of a node, signed with its next leaf.
    fn ask(
        &mut self,
        number: u64,
        node: u8,
        member: u8,
        act: MemberAct,
        out: &mut Vec<u8>,
    ) -> Result<(), AllocError>
        requires here { has_node self.old.world node ≡ true }
        requires member { 1 ≤ member }
        requires act { is_act act ≡ true }
        ensures prints { OnOk result (Prints number (λ s t. signs s t (id_of s node) member act)
            self.old self.new out.old.items out.new.items) }
    {
        match self.members.sign(member, act) {
            Ok(request) => self.send(number, node, GovernanceRequest::Member(request), out),
            Err(OrNoMemory::Fault(_)) => put_spent(out),
            Err(OrNoMemory::NoMemory) => Err(AllocError),
        }
    }

    /// The same, of a node and a member with these numbers, if there are such.
    fn ask_as(
        &mut self,
        number: u64,
        node: u128,
        member: u128,
        act: MemberAct,
        out: &mut Vec<u8>,
    ) -> Result<(), AllocError>
        requires act { is_act act ≡ true }
        ensures prints { OnOk result (Prints number
            (λ s t. at_node s node (λ x. at_member member (signs s t x member act)))
            self.old self.new out.old.items out.new.items) }
    {
        let node = node_number(node);
        if !self.world.has_node(node) {
            return put_unnamed(out);
        }
        match member_number(member) {
            None => put_unnamed(out),
            Some(member) => self.ask(number, node, member, act, out),
        }
    }

    /// A member proposes actions.
    fn propose(
        &mut self,
        number: u64,
        node: u128,
        member: u128,
        actions: &Option<Sequence<Action>>,
        out: &mut Vec<u8>,
    ) -> Result<(), AllocError>
        requires fit { IfSome actions.now AreProposed }
        ensures prints { OnOk result (Prints number
            (λ s t. effect_of s t (lines.Propose node member actions.now))
            self.old self.new out.old.items out.new.items) }
    {
        match actions {
            None => put_unnamed(out),
            Some(actions) => {
                let actions = copy_actions(self.alloc, actions.as_slice())?;
                self.ask_as(number, node, member, MemberAct::Propose(actions), out)
            }
        }
    }

    /// A member answers the proposal with a number.
    fn ballot(
        &mut self,
        number: u64,
        node: u128,
        member: u128,
        proposal: u128,
        agrees: bool,
        out: &mut Vec<u8>,
    ) -> Result<(), AllocError>
        ensures prints { OnOk result (Prints number
            (λ s t. effect_of s t (lines.Ballot node member proposal agrees))
            self.old self.new out.old.items out.new.items) }
    {
        let node = node_number(node);
        if !self.world.has_node(node) {
            return put_unnamed(out);
        }
        let Some(member) = member_number(member) else {
            return put_unnamed(out);
        };
        match self.proposals.id(proposal) {
            None => put_no_proposal(out),
            Some(proposal) => self.ask(number, node, member, ballot_on(proposal, agrees), out),
        }
    }

    /// A member takes the proposal with a number back.
    fn withdraw(
        &mut self,
        number: u64,
        node: u128,
        member: u128,
        proposal: u128,
        out: &mut Vec<u8>,
    ) -> Result<(), AllocError>
        ensures prints { OnOk result (Prints number
            (λ s t. effect_of s t (lines.Withdraw node member proposal))
            self.old self.new out.old.items out.new.items) }
    {
        let node = node_number(node);
        if !self.world.has_node(node) {
            return put_unnamed(out);
        }
        let Some(member) = member_number(member) else {
            return put_unnamed(out);
        };
        match self.proposals.id(proposal) {
            None => put_no_proposal(out),
            Some(proposal) => self.ask(number, node, member, withdrawal_of(proposal), out),
        }
    }

    /// What a member asks for in a line.
    pub(super) fn ask_for(
        &mut self,
        number: u64,
        line: &Line,
        out: &mut Vec<u8>,
    ) -> Result<(), AllocError>
        requires fit { IsFit line.now }
        requires asks { asks line.now ≡ true }
        ensures prints { OnOk result (Prints number (λ s t. effect_of s t line.now)
            self.old self.new out.old.items out.new.items) }
    {
        match line {
            Line::Ack { node, member } => {
                self.ask_as(number, *node, *member, MemberAct::Ack, out)
            }
            Line::Propose {
                node,
                member,
                actions,
            } => self.propose(number, *node, *member, actions, out),
            Line::Ballot {
                node,
                member,
                proposal,
                agrees,
            } => self.ballot(number, *node, *member, *proposal, *agrees, out),
            Line::Withdraw {
                node,
                member,
                proposal,
            } => self.withdraw(number, *node, *member, *proposal, out),
            _ => unreachable!(),
        }
    }
}
