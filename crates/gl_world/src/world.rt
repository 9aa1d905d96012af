//! All nodes of a service, what they sent, and what happened.

ghost use Rattle.std.specs.Prelude.{◌≡◌, ◌≤◌, ◌+◌, ℕ, [], true, false, drop, map, IfOk, IfErr};
ghost use Rattle.std.specs.Option.{option_map};
ghost use Rattle.gl_rules.specs.Retirement.{stage_at};
ghost use Rattle.gl_rules.specs.Safety.{RetiresSafely, committed_ledger, reported_status};
ghost use Rattle.gl_config.specs.Stages.{seen_stage};
ghost use Rattle.gl_election.specs.Bridge.{seen_message};
ghost use Rattle.gl_world.specs.declared.event.Event.TheVariants.{Deliver, Timeout};
ghost use Rattle.gl_world.specs.declared.settings.Settings.{Settings};
ghost use Rattle.gl_world.specs.AtStart.{AreAtStart};
ghost use Rattle.gl_world.specs.Founding.{id_of};
ghost use Rattle.gl_world.specs.Group.{IsGroup, book_of};
ghost use Rattle.gl_world.specs.Happened.{Happened, Refuses, is_no_memory};
ghost use Rattle.gl_world.specs.Headline.{Headline};
ghost use Rattle.gl_world.specs.Held.{has_node, may_happen, node_now, seen_events, world_now};
ghost use Rattle.gl_world.specs.World.{start_of};

mod nodes;
mod start;

use crate::event::Event;
use crate::history::History;
use crate::settings::Settings;
use crate::world::nodes::Nodes;
use crate::world_node::WorldNode;
use gl_base::{Status, TxId};
use gl_config::Stage;
use gl_entry::{Entry, NodeId};
use gl_ledger::Response;
use gl_messages::Message;
use gl_replication::{Book, Outcome, Refusal};
pub use start::core_at_start;
use std::alloc::{AllocError, Global};
use std::marker::Model;

/// All nodes of a service of a schedule. It is seen as the settings of the service and what
/// happened: all the rest is by the rules of consensus.
#[derive(Drop)]
pub struct World<N: WorldNode> {
    settings: Settings,
    nodes: Nodes<N>,
    history: History<Event>,
}

impl<N: WorldNode> Model for World<N> {
    ghost use Rattle.gl_world.specs.Held.{Held, world_now};
    ghost use Rattle.gl_world.specs.Running.{IsRunning};

    ghost Value = { Held };

    ghost view = { λ w. record { settings = w.settings; events = w.history.items } };

    // The nodes run for the world of the rules after all that happened.
    ghost invariant = { λ w. IsRunning N.stands w.settings w.nodes
        (world_now (record { settings = w.settings; events = w.history.items })) };
}

/// Before anything happened each node that starts or joins is there, and nothing was sent, so that
/// a node may time out and no message may be delivered.
pub fn law_of_worlds()
    ensures nodes { (s : Settings) (number : ℕ) → 1 ≤ number → number ≤ s.starting + s.joiners →
        has_node (record { settings = s; events = [] }) number ≡ true }
    ensures silent { (s : Settings) → (world_now (record { settings = s; events = [] })).sent ≡ [] }
    ensures timeout { (s : Settings) → IsGroup s →
        may_happen (record { settings = s; events = [] }) (Timeout 1) ≡ true }
    ensures delivery { (s : Settings) (message : ℕ) →
        may_happen (record { settings = s; events = [] }) (Deliver message) ≡ false }
{}

/// Whether memory ran out.
fn is_no_memory<B: Book>(why: &Refusal<B>) -> bool
    ensures { result ≡ is_no_memory why.now }
{
    matches!(why, Refusal::NoMemory)
}

impl<N: WorldNode> World<N> {
    /// The world of these settings before anything happened, with each node that starts or joins.
    pub fn new(alloc: Global, settings: Settings, nodes: Vec<N>) -> Result<Self, AllocError>
        requires group { IsGroup settings }
        requires nodes { AreAtStart N.stands settings nodes.items }
        ensures { IfOk result (λ world. world ≡ record { settings = settings; events = [] }) }
    {
        let nodes = Nodes::start(alloc, &settings, nodes)?;
        Ok(World {
            settings,
            nodes,
            history: History::new(),
        })
    }

    /// What one event brings about, which is put down.
    fn settle(&mut self, event: &Event) -> Result<Outcome<Response>, Refusal<N::Book>>
        requires here { may_happen self.old event.now ≡ true }
        ensures happened { IfOk result (λ outcome. Happened self.old event.now self.new outcome) }
        ensures refused { IfErr result (λ why. Refuses self.old event.now self.new why) }
        ensures group { IsGroup self.new.settings }
    {
        match self.nodes.apply_event(event) {
            Ok(outcome) => {
                self.history = self.history.then(event);
                Ok(outcome)
            }
            Err(why) => {
                if is_no_memory(&why) {
                    return Err(why);
                }
                self.history = self.history.then(event);
                Err(why)
            }
        }
    }

    /// One event happens. Running out of memory leaves all as it was. Whatever happened, of any two
    /// committed ledgers, at whatever nodes and moments, one is a prefix of the other, no
    /// identifier is Committed and Invalid, and each committed ledger is sound. A node whose
    /// retirement is committed may be switched off: whoever says so never again counts it in an
    /// active configuration, nor does a leader of a later view than that of a leader who says so.
    pub fn step(&mut self, event: Event) -> Result<Outcome<Response>, Refusal<N::Book>>
        requires here { may_happen self.old event ≡ true }
        ensures happened { IfOk result (λ outcome. Happened self.old event self.new outcome) }
        ensures refused { IfErr result (λ why. Refuses self.old event self.new why) }
        ensures headline { Headline self.new.settings (seen_events self.new) }
        ensures retirement { RetiresSafely (book_of self.new.settings)
            (start_of self.new.settings) (seen_events self.new) }
    {
        self.settle(&event)
    }

    /// Whether the nodes that an event names are of this world, and the message that it names was
    /// sent, to one of them.
    pub fn may_happen(&self, event: &Event) -> bool
        ensures { result ≡ may_happen self.now event.now }
    {
        self.nodes.may_happen(event)
    }

    /// Whether there is a node with this number.
    pub fn has_node(&self, number: u8) -> bool
        ensures { result ≡ has_node self.now number }
    {
        self.nodes.has_node(number)
    }

    /// What was sent, in order.
    pub fn messages(&self) -> &[Message]
        ensures { map seen_message result.now ≡ (world_now self.now).sent }
    {
        &self.nodes.sent
    }

    /// The identifier of a node.
    pub fn id(&self, node: u8) -> NodeId
        requires here { has_node self.now node ≡ true }
        ensures { result ≡ id_of self.now.settings node }
    {
        self.nodes.ids[usize::from(node) - 1]
    }

    /// The status of a transaction by what a node holds (CCF documentation, "Transaction status").
    /// Only Committed and Invalid are final.
    pub fn status(&self, node: u8, id: TxId) -> Status
        requires here { has_node self.now node ≡ true }
        ensures { result
            ≡ reported_status (book_of self.now.settings) (node_now self.now node) id }
    {
        self.nodes.nodes[usize::from(node) - 1].core().status(id)
    }

    /// How far the retirement of a node has come, as another one sees it. A node that wasn't
    /// removed is at no stage.
    pub fn stage(&self, node: u8, other: u8) -> Option<Stage>
        requires here { has_node self.now node ≡ true }
        requires other { has_node self.now other ≡ true }
        ensures { option_map seen_stage result ≡ stage_at (book_of self.now.settings)
            (node_now self.now node) (id_of self.now.settings other) }
    {
        let id = self.id(other);
        self.nodes.nodes[usize::from(node) - 1].core().stage(&id)
    }

    /// The committed ledger of a node, whole from seqno 1, in memory of its own. Fails only where
    /// memory runs out.
    pub fn committed(&self, node: u8) -> Result<Vec<Entry>, AllocError>
        requires here { has_node self.now node ≡ true }
        ensures { IfOk result (λ entries.
            entries.items ≡ committed_ledger (node_now self.now node)) }
    {
        self.nodes.committed(node)
    }

    /// The committed entries of a node above its base, in order.
    pub fn committed_entries(&self, node: u8) -> &[Entry]
        requires here { has_node self.now node ≡ true }
        ensures { result.now
            ≡ drop (node_now self.now node).base (committed_ledger (node_now self.now node)) }
    {
        self.nodes.nodes[usize::from(node) - 1].core().committed()
    }

    /// All entries of a node above its base, in order.
    pub fn entries(&self, node: u8) -> &[Entry]
        requires here { has_node self.now node ≡ true }
        ensures { result.now ≡ drop (node_now self.now node).base (node_now self.now node).log }
    {
        self.nodes.nodes[usize::from(node) - 1]
            .core()
            .book
            .entries()
    }
}
