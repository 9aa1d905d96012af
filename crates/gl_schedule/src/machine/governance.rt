//! Requests of governance that lines of a schedule send to a node.

ghost use Rattle.std.specs.Prelude.{◌≡◌, ◌++◌, true, IfOk, OnOk};
ghost use Rattle.gl_ledger.specs.declared.response.Rejection.{Rejection as Why};
ghost use Rattle.gl_lines.specs.declared.line.Line.TheVariants as lines;
ghost use Rattle.gl_replication.specs.Stands.{seen_outcome};
ghost use Rattle.gl_world.specs.declared.settings.Settings.{Settings as Service};
ghost use Rattle.gl_world.specs.Held.{has_node};
ghost use Rattle.gl_schedule.specs.Governed.{governed_text, numbered_in, proposal_made, proposals_after, status_after};
ghost use Rattle.gl_schedule.specs.Play.{Governs, Prints, Sends};
ghost use Rattle.gl_schedule.specs.Playing.{IsSent};
ghost use Rattle.gl_schedule.specs.Text.{outcome_text};
ghost use Rattle.gl_schedule.specs.Output.{effect_of};

use super::Machine;
use crate::line_request::{LineRequest, request_named};
use crate::numbers::node_number;
use crate::outcome_text::{put_outcome, put_refusal};
use crate::proposals::NumberedProposal;
use crate::text::{put_proposal, put_sent, put_unnamed};
use gl_ledger::Response;
use gl_replication::Outcome;
use gl_requests::{Digest, GovernanceRequest, MemberAct};
use gl_world::{Event, WorldNode, joining_node};
use std::alloc::{AllocError, Global};

/// The identifier of the proposal that a request makes.
fn proposal_made(alloc: Global, request: &GovernanceRequest) -> Result<Option<Digest>, AllocError>
    requires { IsSent request.now }
    ensures { IfOk result (λ id. id ≡ proposal_made request.now) }
{
    match request {
        GovernanceRequest::Member(member) if matches!(member.act, MemberAct::Propose(_)) => {
            Ok(Some(member.proposal_id(alloc)?))
        }
        _ => Ok(None),
    }
}

impl<N: WorldNode> Machine<N> {
    /// Lists the proposal that a request makes which had this outcome.
    fn note_proposal(
        &mut self,
        request: &GovernanceRequest,
        outcome: &Outcome<Response>,
    ) -> Result<(), AllocError>
        requires { IsSent request.now }
        ensures { OnOk result (self.new ≡ record self.old {
          proposals = proposals_after self.old.proposals request.now
              (seen_outcome {F = Why} outcome.now);
        }) }
    {
        match outcome {
            Outcome::Accepted(..) => {
                if let Some(id) = proposal_made(self.alloc, request)? {
                    self.proposals.note(id)?;
                }
                Ok(())
            }
            _ => Ok(()),
        }
    }

    /// The proposal that a request concerns which had this outcome, with its number.
    fn numbered(&self, outcome: &Outcome<Response>) -> Option<NumberedProposal>
        ensures { result ≡ numbered_in self.now.proposals
            (status_after (seen_outcome {F = Why} outcome.now)) }
    {
        match outcome {
            Outcome::Accepted(_, _, Response::Governed(Some(status))) => {
                Some(self.proposals.numbered(status))
            }
            _ => None,
        }
    }

    /// Tells the outcome of a request that isn't refused, and the proposal that it concerns.
    fn print(
        &mut self,
        request: &GovernanceRequest,
        outcome: &Outcome<Response>,
        out: &mut Vec<u8>,
    ) -> Result<(), AllocError>
        requires sent { IsSent request.now }
        ensures becomes { OnOk result (self.new ≡ record self.old {
          proposals = proposals_after self.old.proposals request.now
              (seen_outcome {F = Why} outcome.now);
        }) }
        ensures written { OnOk result ((s : Service) → out.new.items ≡ out.old.items
            ++ (outcome_text s (seen_outcome outcome.now)
            ++ governed_text self.new.proposals (seen_outcome outcome.now))) }
    {
        self.note_proposal(request, outcome)?;
        put_outcome(self.alloc, out, outcome)?;
        put_proposal(out, &self.numbered(outcome))
    }

    /// A request of governance at a node, of which the outcome is reported, and the proposal that
    /// it concerns.
    fn govern(
        &mut self,
        node: u8,
        request: &GovernanceRequest,
        out: &mut Vec<u8>,
    ) -> Result<(), AllocError>
        requires here { has_node self.old.world node ≡ true }
        requires sent { IsSent request.now }
        ensures { OnOk result
            (Governs self.old node request.now self.new out.old.items out.new.items) }
    {
        let event = Event::Govern {
            node,
            request: request.copy(self.alloc)?,
        };
        match self.world.step(event) {
            Ok(outcome) => self.print(request, &outcome, out),
            Err(why) => put_refusal(self.alloc, out, &self.ids, &why),
        }
    }

    /// Sends a request to a node, and notes it under the number of its line.
    pub(super) fn send(
        &mut self,
        number: u64,
        node: u8,
        request: GovernanceRequest,
        out: &mut Vec<u8>,
    ) -> Result<(), AllocError>
        requires here { has_node self.old.world node ≡ true }
        requires sent { IsSent request }
        ensures { OnOk result
            (Sends self.old number node request self.new out.old.items out.new.items) }
    {
        let before = self.sent();
        self.govern(node, &request, out)?;
        put_sent(out, before, self.sent())?;
        self.requests.push(LineRequest {
            line: number,
            request,
        })?;
        Ok(())
    }

    /// A node records another one, which joins.
    pub(super) fn join(
        &mut self,
        number: u64,
        node: u128,
        joiner: u128,
        out: &mut Vec<u8>,
    ) -> Result<(), AllocError>
        ensures prints { OnOk result (Prints number (λ s t. effect_of s t (lines.Join node joiner))
            self.old self.new out.old.items out.new.items) }
    {
        let node = node_number(node);
        if !self.world.has_node(node) {
            return put_unnamed(out);
        }
        let joiner = node_number(joiner);
        if !self.world.has_node(joiner) {
            return put_unnamed(out);
        }
        let joining = joining_node(self.alloc, &self.settings, &self.service, joiner)?;
        self.send(number, node, GovernanceRequest::Join(joining), out)
    }

    /// A node marks another one, which has retired.
    pub(super) fn mark(
        &mut self,
        number: u64,
        node: u128,
        marked: u128,
        out: &mut Vec<u8>,
    ) -> Result<(), AllocError>
        ensures prints { OnOk result (Prints number (λ s t. effect_of s t (lines.Mark node marked))
            self.old self.new out.old.items out.new.items) }
    {
        let node = node_number(node);
        if !self.world.has_node(node) {
            return put_unnamed(out);
        }
        let marked = node_number(marked);
        if !self.world.has_node(marked) {
            return put_unnamed(out);
        }
        let id = self.world.id(marked);
        self.send(number, node, GovernanceRequest::Mark(id), out)
    }

    /// Sends the request of an earlier line once more.
    pub(super) fn repeat(
        &mut self,
        number: u64,
        node: u128,
        line: u128,
        out: &mut Vec<u8>,
    ) -> Result<(), AllocError>
        ensures prints { OnOk result (Prints number (λ s t. effect_of s t (lines.Again node line))
            self.old self.new out.old.items out.new.items) }
    {
        let node = node_number(node);
        if !self.world.has_node(node) {
            return put_unnamed(out);
        }
        match request_named(&self.requests, line) {
            None => put_unnamed(out),
            Some(earlier) => {
                let request = earlier.request.copy(self.alloc)?;
                self.send(number, node, request, out)
            }
        }
    }
}
