//! The nodes of a world, and the messages that they sent.

ghost use Rattle.std.specs.Prelude.{◌≡◌, ◌++◌, ◌<◌, ◌≤◌, true, false, map, max, length, vec_capacity, slice_get, Some, IfOk, IfErr, IfSome, OnErr, OnOk};
ghost use Rattle.gl_rules.specs.Identity.{same};
ghost use Rattle.gl_rules.specs.Safety.{committed_ledger};
ghost use Rattle.gl_election.specs.Bridge.{seen_message};
ghost use Rattle.gl_replication.specs.Stands.{Reports};
ghost use Rattle.gl_world.specs.declared.event.Event.TheVariants.{Install};
ghost use Rattle.gl_world.specs.Founding.{id_of};
ghost use Rattle.gl_world.specs.Held.{index_of, is_among, is_number, receiver_in};
ghost use Rattle.gl_world.specs.Rules.{acting_node, is_install, most_sent};
ghost use Rattle.gl_world.specs.Running.{Denies, Keeps, Moves, Of, RunSome};
ghost use Rattle.gl_world.specs.WorldNodes.{is_done};

use crate::event::Event;
use crate::world_node::WorldNode;
use gl_entry::{Entry, NodeId};
use gl_ledger::Response;
use gl_messages::Message;
use gl_replication::{Book, Core, Outcome, Refusal};
use std::alloc::{AllocError, Global};

/// The nodes of a world, what stands below their bases, and the messages that they sent.
#[derive(Drop)]
pub struct Nodes<N: WorldNode> {
    /// The identifiers of the nodes, in the order of their numbers.
    pub ids: Vec<NodeId>,
    pub nodes: Vec<N>,
    /// For each node the entries up to its base.
    pub below: Vec<Vec<Entry>>,
    pub sent: Vec<Message>,
}

#[tactic(auto, unfolding(gl_rules::specs::Identity::same))]
fn is_same(x: &NodeId, y: &NodeId) -> bool
    ensures { result ≡ same x.now y.now }
{
    x == y
}

/// The index of a node among these.
fn index_of(ids: &[NodeId], node: &NodeId) -> Option<usize>
    ensures value { result ≡ index_of ids.now node.now }
    ensures within { IfSome result (λ index. index < length ids.now) }
{
    match ids.split_first() {
        None => None,
        Some((first, rest)) => {
            if is_same(node, first) {
                return Some(0);
            }
            let index = index_of(rest, node)?;
            Some(index + 1)
        }
    }
}

/// How many messages the next event at a node sends at most: one, or one to each node that its log
/// records up to its last signature.
fn most_sent<B: Book>(core: &Core<B>) -> usize
    ensures { Reports B.stands core.now (λ b x n. result ≡ most_sent b n) }
{
    let signed = core.book.last_signature();
    core.book.recorded_nodes(signed.seqno).len().max(1)
}

/// Whether an event was done.
fn is_done(outcome: &Outcome<Response>) -> bool
    ensures { result ≡ is_done outcome.now }
{
    matches!(outcome, Outcome::Done)
}

/// Puts copies of entries after others.
fn put_copies(alloc: Global, all: &mut Vec<Entry>, entries: &[Entry]) -> Result<(), AllocError>
    ensures { OnOk result (all.new.items ≡ all.old.items ++ entries.now) }
{
    for entry in entries {
        all.push(entry.copy(alloc)?)?;
    }
    Ok(())
}

/// Two lists of entries as one, in memory of its own.
fn joined(alloc: Global, first: &[Entry], second: &[Entry]) -> Result<Vec<Entry>, AllocError>
    ensures { IfOk result (λ all. all.items ≡ first.now ++ second.now) }
{
    let mut all = Vec::new(alloc);
    put_copies(alloc, &mut all, first)?;
    put_copies(alloc, &mut all, second)?;
    Ok(all)
}

impl<N: WorldNode> Nodes<N> {
    /// Whether there is a node with this number.
    pub(crate) fn has_node(&self, number: u8) -> bool
        ensures { result ≡ is_number (length self.now.ids.items) number }
    {
        number >= 1 && usize::from(number) <= self.ids.len()
    }

    /// The index of the node for which a message is, if it was sent and is for one of these.
    pub(crate) fn receiver(&self, message: usize) -> Option<usize>
        ensures value { result ≡ receiver_in self.now.ids.items
            (slice_get (map seen_message self.now.sent.items) message) }
        ensures within { IfSome result (λ index. index < length self.now.ids.items) }
    {
        index_of(&self.ids, &self.sent.get(message)?.to)
    }

    /// Whether the nodes that an event names are among these, and the message that it names was
    /// sent to one of them.
    pub(crate) fn may_happen(&self, event: &Event) -> bool
        ensures { result
            ≡ is_among self.now.ids.items (map seen_message self.now.sent.items) event.now }
    {
        match event {
            Event::Deliver { message } => self.receiver(*message).is_some(),
            Event::Replicate { node, to }
            | Event::StepDown { node, to }
            | Event::Install { node, from: to } => self.has_node(*node) && self.has_node(*to),
            Event::Timeout { node }
            | Event::Submit { node, .. }
            | Event::Govern { node, .. }
            | Event::Reserve { node }
            | Event::Sign { node }
            | Event::Evidence { node }
            | Event::Advance { node }
            | Event::Restart { node } => self.has_node(*node),
        }
    }

    /// The index of the node at which an event happens.
    fn index_of(&self, event: &Event) -> usize
        requires { is_among self.now.ids.items (map seen_message self.now.sent.items) event.now
            ≡ true }
        ensures { slice_get self.now.ids.items result ≡ Some (acting_node self.now.ids.items
            (map seen_message self.now.sent.items) event.now) }
    {
        match event {
            Event::Deliver { message } => match self.receiver(*message) {
                Some(index) => index,
                None => unreachable!(),
            },
            Event::Timeout { node }
            | Event::Submit { node, .. }
            | Event::Govern { node, .. }
            | Event::Reserve { node }
            | Event::Sign { node }
            | Event::Evidence { node }
            | Event::Replicate { node, .. }
            | Event::Advance { node }
            | Event::StepDown { node, .. }
            | Event::Restart { node }
            | Event::Install { node, .. } => usize::from(*node) - 1,
        }
    }

    /// What an event other than an Install brings about at its node, whose messages are put after
    /// those that were sent. Room for them is taken first.
    fn act(&mut self, event: &Event) -> Result<Outcome<Response>, Refusal<N::Book>>
        requires running { RunSome N.stands self.old }
        requires among { is_among self.old.ids.items (map seen_message self.old.sent.items)
            event.now ≡ true }
        requires alone { is_install event.now ≡ false }
        ensures moved { IfOk result (λ outcome.
            Moves N.stands event.now self.old outcome self.new) }
        ensures refused { IfErr result (λ why. Denies N.stands event.now self.old why) }
        ensures err { OnErr result (Keeps N.stands self.old self.new) }
    {
        let index = self.index_of(event);
        let most = most_sent(self.nodes[index].core());
        if self.sent.reserve(most).is_err() {
            return Err(Refusal::NoMemory);
        }
        match self.nodes[index].apply_event(&self.ids, &self.sent, event) {
            Err(why) => Err(why),
            Ok(done) => {
                let mut sent = done.sent.into_vec();
                match self.sent.append(&mut sent) {
                    Ok(()) => Ok(done.outcome),
                    Err(_) => unreachable!(),
                }
            }
        }
    }

    /// The committed ledger of a node, whole from seqno 1. Fails only where memory runs out.
    pub(crate) fn committed(&self, number: u8) -> Result<Vec<Entry>, AllocError>
        requires running { RunSome N.stands self.now }
        requires here { is_number (length self.now.ids.items) number ≡ true }
        ensures { IfOk result (λ all. Of N.stands self.now (λ s w.
            all.items ≡ committed_ledger (w.nodes (id_of s number)))) }
    {
        let index = usize::from(number) - 1;
        let core = self.nodes[index].core();
        joined(core.alloc, &self.below[index], core.committed())
    }

    /// A node, where it has no entries, begins from what another one offers. Nothing is sent. What
    /// then stands below its base is copied first, so that nothing changes where memory runs out.
    fn install(&mut self, node: u8, from: u8) -> Result<Outcome<Response>, Refusal<N::Book>>
        requires running { RunSome N.stands self.old }
        requires node { is_number (length self.old.ids.items) node ≡ true }
        requires from { is_number (length self.old.ids.items) from ≡ true }
        ensures moved { IfOk result (λ outcome.
            Moves N.stands (Install node from) self.old outcome self.new) }
        ensures refused { IfErr result (λ why. Denies N.stands (Install node from) self.old why) }
        ensures err { OnErr result (Keeps N.stands self.old self.new) }
    {
        let Ok(offer) = self.nodes[usize::from(from) - 1].core().snapshot() else {
            return Err(Refusal::NoMemory);
        };
        let Ok(mut below) = self.committed(from) else {
            return Err(Refusal::NoMemory);
        };
        let index = usize::from(node) - 1;
        match self.nodes[index].install(offer) {
            Err(why) => Err(why),
            Ok(done) => {
                if !is_done(&done.outcome) {
                    return Ok(done.outcome);
                }
                let base = self.nodes[index].core().book.base();
                below.truncate(base as usize);
                self.below[index] = below;
                Ok(done.outcome)
            }
        }
    }

    /// What an event brings about.
    pub(crate) fn apply_event(
        &mut self,
        event: &Event,
    ) -> Result<Outcome<Response>, Refusal<N::Book>>
        requires running { RunSome N.stands self.old }
        requires among { is_among self.old.ids.items (map seen_message self.old.sent.items)
            event.now ≡ true }
        ensures moved { IfOk result (λ outcome.
            Moves N.stands event.now self.old outcome self.new) }
        ensures refused { IfErr result (λ why. Denies N.stands event.now self.old why) }
        ensures err { OnErr result (Keeps N.stands self.old self.new) }
    {
        match event {
            Event::Install { node, from } => self.install(*node, *from),
            other => self.act(other),
        }
    }
}
