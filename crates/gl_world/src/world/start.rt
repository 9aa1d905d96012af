//! The nodes of a service at the start.

ghost use Rattle.std.specs.Prelude.{◌≡◌, ◌≤◌, ◌+◌, IfOk};
ghost use Rattle.gl_rules.specs.World.{begin, node_at_start};
ghost use Rattle.gl_replication.specs.Stands.{StandsFor};
ghost use Rattle.gl_world.specs.AtStart.{AreAtStart, held_at_start};
ghost use Rattle.gl_world.specs.Founding.{id_of};
ghost use Rattle.gl_world.specs.Group.{IsGroup, book_of};
ghost use Rattle.gl_world.specs.Running.{IsRunning};
ghost use Rattle.gl_world.specs.World.{start_of};

use crate::settings::Settings;
use crate::world::nodes::Nodes;
use crate::world_node::WorldNode;
use gl_entry::NodeId;
use gl_ledger::{Reads, Rejection, Response};
use gl_replication::{Book, Core};
use gl_requests::GovernanceRequest;
use gl_tx::Request;
use std::alloc::{AllocError, Global};

/// Node 1, which leads at the start: its key has leaves.
fn leader_at_start<
    B: Book<
        Request = Request,
        Gov = GovernanceRequest,
        Reads = Reads,
        Response = Response,
        Refused = Rejection,
    >,
>(alloc: Global, settings: &Settings, book: B) -> Core<B>
    requires group { IsGroup settings.now }
    requires book { B.stands book (book_of settings.now) (held_at_start settings.now 1) }
    ensures { StandsFor B.stands result (book_of settings.now) (id_of settings.now 1)
        (node_at_start (start_of settings.now) (id_of settings.now 1)) }
{
    if book.leaves() == 0 {
        unreachable!()
    }
    Core::leader(alloc, book, 1)
}

/// The node with a number at the start, over its store. Takes no memory.
pub fn core_at_start<
    B: Book<
        Request = Request,
        Gov = GovernanceRequest,
        Reads = Reads,
        Response = Response,
        Refused = Rejection,
    >,
>(alloc: Global, settings: &Settings, first: NodeId, number: u8, book: B) -> Core<B>
    requires group { IsGroup settings.now }
    requires first { first ≡ id_of settings.now 1 }
    requires low { 1 ≤ number }
    requires high { number ≤ settings.now.starting + settings.now.joiners }
    requires book { B.stands book (book_of settings.now) (held_at_start settings.now number) }
    ensures { StandsFor B.stands result (book_of settings.now) (id_of settings.now number)
        (node_at_start (start_of settings.now) (id_of settings.now number)) }
{
    if number == 1 {
        leader_at_start(alloc, settings, book)
    } else if number <= settings.starting {
        Core::starter(alloc, book, first, 0)
    } else {
        Core::joiner(alloc, book, 0)
    }
}

impl<N: WorldNode> Nodes<N> {
    /// All nodes at the start.
    pub(crate) fn start(
        alloc: Global,
        settings: &Settings,
        nodes: Vec<N>,
    ) -> Result<Self, AllocError>
        requires group { IsGroup settings.now }
        requires nodes { AreAtStart N.stands settings.now nodes.items }
        ensures { IfOk result (λ all.
            IsRunning N.stands settings.now all (begin (start_of settings.now))) }
    {
        let mut ids = Vec::new(alloc);
        let mut below = Vec::new(alloc);
        for node in &nodes {
            ids.push(node.core().book.me())?;
            below.push(Vec::new(alloc))?;
        }
        Ok(Nodes {
            ids,
            nodes,
            below,
            sent: Vec::new(alloc),
        })
    }
}
