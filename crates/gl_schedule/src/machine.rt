//! The service of a schedule, and what its lines come to.

ghost use Rattle.std.specs.Prelude.{◌≡◌, ◌∷◌, ◌++◌, [], None, true, length, IfOk, OnOk};
ghost use Rattle.gl_world.specs.AtStart.{AreAtStart};
ghost use Rattle.gl_world.specs.Founding.{node_ids};
ghost use Rattle.gl_world.specs.Group.{IsGroup};
ghost use Rattle.gl_world.specs.Happened.{answer_to, with_event};
ghost use Rattle.gl_world.specs.Held.{may_happen, world_now};
ghost use Rattle.gl_world.specs.Keys.{private_key, service_seed};
ghost use Rattle.gl_lines.specs.Kept.{IsFit};
ghost use Rattle.gl_schedule.specs.Play.{IsIn, Prints, PrintsAnywhere, event_effect, event_in};
ghost use Rattle.gl_schedule.specs.Text.{outcome_text};
ghost use Rattle.gl_schedule.specs.Output.{delivers, effect_of, printed_at_start};

use crate::event_line::event_in;
use crate::line_request::LineRequest;
use crate::outcome_text::{put_outcome, put_refusal};
use crate::proposals::Proposals;
use crate::text::{put_sent, put_unnamed};
use gl_entry::NodeId;
use gl_hss::{HssPublic, Levels, LmsKey};
use gl_lines::Line;
use gl_world::{Event, Members, Settings, World, WorldNode};
use std::alloc::{AllocError, Global};
use std::marker::Model;

mod governance;
mod members;
mod questions;

/// The service of a schedule: its world, the members who sign for it, and what its lines may name.
#[derive(Drop)]
pub struct Machine<N: WorldNode> {
    settings: Settings,
    world: World<N>,
    /// The identifiers of the nodes, in the order of their numbers.
    ids: Vec<NodeId>,
    /// The service's key, which endorses the nodes that join.
    service: LmsKey,
    members: Members,
    /// The requests of governance that lines made.
    requests: Vec<LineRequest>,
    proposals: Proposals,
    alloc: Global,
}

impl<N: WorldNode> Model for Machine<N> {
    ghost use Rattle.gl_schedule.specs.Playing.{AreOfOne, Playing};

    ghost Value = { Playing };

    ghost view = { λ m. record {
      world = m.world;
      requests = m.requests.items;
      proposals = m.proposals;
      signed = m.members.signed;
    } };

    ghost invariant = { λ m.
        AreOfOne m.settings m.world m.ids.items m.service m.members m.requests.items };
}

/// The identifiers of all nodes of a world, in the order of their numbers.
fn ids_in<N: WorldNode>(
    alloc: Global,
    world: &World<N>,
    settings: &Settings,
) -> Result<Vec<NodeId>, AllocError>
    requires group { IsGroup settings.now }
    requires settings { world.now.settings ≡ settings.now }
    ensures { IfOk result (λ ids. ids.items ≡ node_ids settings.now) }
{
    let mut ids = Vec::new(alloc);
    for i in 0..settings.starting + settings.joiners {
        ids.push(world.id(i + 1))?;
    }
    Ok(ids)
}

impl<N: WorldNode> Machine<N> {
    /// The service as it begins, with its key and its nodes.
    pub fn begin(
        alloc: Global,
        settings: Settings,
        service: LmsKey,
        nodes: Vec<N>,
    ) -> Result<Self, AllocError>
        requires group { IsGroup settings }
        requires service { service ≡ private_key (service_seed settings) }
        requires nodes { AreAtStart N.stands settings nodes.items }
        ensures settings { IfOk result (λ machine. machine.world.settings ≡ settings) }
        ensures is_in { IfOk result (λ machine. IsIn (printed_at_start settings) machine) }
    {
        let members = Members::new(alloc, settings, service.hss_public(Levels::Two))?;
        let world = World::new(alloc, settings, nodes)?;
        let ids = ids_in(alloc, &world, &settings)?;
        Ok(Machine {
            settings,
            world,
            ids,
            service,
            members,
            requests: Vec::new(alloc),
            proposals: Proposals::new(alloc),
            alloc,
        })
    }

    /// How many messages were sent.
    fn sent(&self) -> usize
        ensures { result ≡ length (world_now self.now.world).sent }
    {
        self.world.messages().len()
    }

    /// One event, of which the outcome is reported.
    fn step(&mut self, event: Event, out: &mut Vec<u8>) -> Result<(), AllocError>
        requires here { may_happen self.old.world event ≡ true }
        ensures becomes { OnOk result
            (self.new ≡ record self.old { world = with_event self.old.world event }) }
        ensures reported { OnOk result (out.new.items ≡ out.old.items
            ++ outcome_text self.old.world.settings (answer_to self.old.world event)) }
    {
        match self.world.step(event) {
            Ok(outcome) => put_outcome(self.alloc, out, &outcome),
            Err(why) => put_refusal(self.alloc, out, &self.ids, &why),
        }
    }

    /// The same, and the messages that it sent are reported. An event that names a node or a
    /// message that there isn't is refused.
    fn apply_event(&mut self, event: Event, out: &mut Vec<u8>) -> Result<(), AllocError>
        ensures group { IsGroup self.old.world.settings }
        ensures prints { OnOk result (PrintsAnywhere (event_effect event)
            self.old self.new out.old.items out.new.items) }
    {
        if !self.world.may_happen(&event) {
            return put_unnamed(out);
        }
        let before = self.sent();
        self.step(event, out)?;
        put_sent(out, before, self.sent())
    }

    /// The message with a number reaches the node that it is for.
    fn deliver(&mut self, message: u128, out: &mut Vec<u8>) -> Result<(), AllocError>
        ensures prints { OnOk result (PrintsAnywhere (λ s t. delivers s t.world.sent message)
            self.old self.new out.old.items out.new.items) }
    {
        if message == 0 || message > self.sent() as u128 {
            return put_unnamed(out);
        }
        let index = (message - 1) as usize;
        self.apply_event(Event::Deliver { message: index }, out)
    }

    /// What a line comes to that isn't an event between nodes.
    fn answer(&mut self, number: u64, line: &Line, out: &mut Vec<u8>) -> Result<(), AllocError>
        requires fit { IsFit line.now }
        requires other { event_in line.now ≡ None }
        ensures prints { OnOk result (Prints number (λ s t. effect_of s t line.now)
            self.old self.new out.old.items out.new.items) }
    {
        match line {
            Line::Deliver { message } => self.deliver(*message, out),
            Line::Join { node, joiner } => self.join(number, *node, *joiner, out),
            Line::Mark { node, marked } => self.mark(number, *node, *marked, out),
            Line::Again { node, line } => self.repeat(number, *node, *line, out),
            Line::Status { node, id } => self.print_status(*node, *id, out),
            Line::Stage { node, other } => self.print_stage(*node, *other, out),
            Line::Ids { node } => self.print_ids(*node, out),
            Line::Ledger { node } => self.print_ledger(*node, out),
            Line::Ack { .. } | Line::Propose { .. } | Line::Ballot { .. } | Line::Withdraw { .. } =>
                self.ask_for(number, line, out),
            _ => unreachable!(),
        }
    }

    /// Plays the line with a number, and tells what it comes to.
    pub fn play(&mut self, number: u64, line: Line, out: &mut Vec<u8>) -> Result<(), AllocError>
        requires fit { IsFit line }
        ensures prints { OnOk result (Prints number (λ s t. effect_of s t line)
            self.old self.new out.old.items out.new.items) }
    {
        match event_in(line) {
            Ok(event) => self.apply_event(event, out),
            Err(line) => self.answer(number, &line, out),
        }
    }
}
