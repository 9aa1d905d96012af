//! A node of a world that serves from a file on a disk in memory.

ghost use Rattle.std.specs.Prelude.{◌≡◌, ◌≢◌, true, None, Ok, IfOk, IfErr, OnErr};
ghost use Rattle.gl_base.specs.declared.or_no_memory.OrNoMemory.{OrNoMemory};
ghost use Rattle.gl_journal.specs.Durable.{Durable as State};
ghost use Rattle.gl_rules.specs.Replication.{restart};
ghost use Rattle.gl_replication.specs.Events.{has_few_entries, rule_of};
ghost use Rattle.gl_world.specs.WorldNodes.{KeepsAll, Refuses, Steps};
ghost use Rattle.gl_store_book.specs.AtOpening.{restarted_node};
ghost use Rattle.ccfg.specs.FileNodes.{OpensToNode, StandsOverFile};
ghost use Rattle.gl_store_book.specs.NodeFile.{opened};
ghost use Rattle.gl_store_book.specs.Replicas.{StandsForFile};

use crate::schedule_nodes::disk::BytesDisk;
use crate::schedule_nodes::event::node_event;
use gl_base::{OrNoMemory, Sequence};
use gl_config::NodeId;
use gl_messages::Message;
use gl_node::{NodeFault, Replica};
use gl_replication::{Core, Done, Event as NodeEvent, Offer, Outcome, Refusal};
use gl_store_book::{NodeFile, StoreBook, a_stop_forgets_nothing};
use gl_world::{Event, WorldNode};
use std::alloc::{AllocError, Global};
use std::marker::Model;

mod copies;
mod disk;
mod event;
mod opening_stores;
mod start;

pub use start::nodes;

/// Running out of memory, which is the one error that there can be.
fn only_memory<F: Copy>(error: OrNoMemory<F>) -> AllocError
    requires { (fault : F) → error ≢ OrNoMemory.Fault fault }
{
    match error {
        OrNoMemory::NoMemory => AllocError,
        OrNoMemory::Fault(_) => unreachable!(),
    }
}

/// A node's file with these bytes, opened on a disk of its own. Fails only where memory runs out.
fn open_file(alloc: Global, bytes: &[u8]) -> Result<NodeFile<BytesDisk>, AllocError>
    requires { (state : State) × OpensToNode bytes.now state }
    ensures { IfOk result (λ file. OpensToNode bytes.now file.state
        × OpensToNode file.disk.bytes file.state) }
{
    match NodeFile::open(alloc, BytesDisk::holding(alloc, bytes)?) {
        Ok(file) => Ok(file),
        Err((error, _)) => Err(only_memory(error)),
    }
}

/// The node of such a file, as a restart leaves it.
fn open_node(alloc: Global, bytes: &[u8]) -> Result<Replica<BytesDisk, StoreBook>, AllocError>
    requires { (state : State) × OpensToNode bytes.now state }
    ensures opens { IfOk result (λ replica. (state : State) × OpensToNode bytes.now state
        × OpensToNode replica.disk.bytes state
        × StandsForFile state replica.core (λ b below. restarted_node b below state)
        × (replica.core.book.ledger.snapshot ≡ state.snapshot)) }
    ensures serves { IfOk result (λ replica. replica.stopped ≡ None) }
{
    match open_file(alloc, bytes)?.reopen() {
        Ok(replica) => Ok(replica),
        Err((error, _)) => Err(error),
    }
}

/// A node of a world that serves from a file on a disk in memory, which never fails.
#[derive(Drop)]
pub struct FileNode {
    replica: Replica<BytesDisk, StoreBook>,
}

impl Model for FileNode {
    ghost use Rattle.ccfg.specs.FileNodes.{IsFileNode, SeenFileNode};

    ghost Value = { SeenFileNode };

    ghost view = { λ f. f.replica };

    ghost invariant = { λ f. IsFileNode f.replica };
}

impl FileNode {
    /// An event of the node. The disk never fails, so the node never stops.
    fn dispatch(
        &mut self,
        event: NodeEvent<StoreBook>,
    ) -> Result<Done<StoreBook>, Refusal<StoreBook>>
        requires { has_few_entries event ≡ true }
        ensures steps { IfOk result (λ done.
            Steps StandsOverFile (rule_of event) self.old done self.new) }
        ensures refused { IfErr result
            (λ why. Refuses StandsOverFile (rule_of event) self.old why) }
        ensures err { OnErr result (KeepsAll StandsOverFile self.old self.new) }
    {
        let _core = self.replica.core();
        match self.replica.event(event) {
            Ok(done) => Ok(done),
            Err(NodeFault::Refused(why)) => Err(why),
            Err(NodeFault::DiskFault) => unreachable!(),
            Err(NodeFault::Stopped { .. }) => unreachable!(),
        }
    }

    /// The node stops, and what its file holds is opened again.
    fn restart(&mut self) -> Result<Done<StoreBook>, Refusal<StoreBook>>
        // It is the node that the file gives.
        ensures again { IfOk result (λ done. (state : State) →
            opened self.old.disk.bytes ≡ Ok state →
            StandsForFile state self.new.core (λ b below. restarted_node b below state)) }
        ensures steps { IfOk result (λ done.
            Steps StandsOverFile (λ b x n. restart b n) self.old done self.new) }
        ensures refused { IfErr result (λ why.
            Refuses StandsOverFile (λ b x n. restart b n) self.old why) }
        ensures err { OnErr result (KeepsAll StandsOverFile self.old self.new) }
    {
        a_stop_forgets_nothing(&self.replica, &NodeEvent::Advance);
        let alloc = self.replica.core().alloc;
        let replica = match open_node(alloc, self.replica.disk().bytes()) {
            Ok(replica) => replica,
            Err(_) => return Err(Refusal::NoMemory),
        };
        self.replica = replica;
        Ok(Done {
            outcome: Outcome::Done,
            sent: Sequence::from(Vec::new(alloc)),
        })
    }
}

impl WorldNode for FileNode {
    ghost use Rattle.ccfg.specs.FileNodes.{StandsOverFile};

    type Book = StoreBook;

    ghost stands = { StandsOverFile };

    fn core(&self) -> &Core<StoreBook> {
        self.replica.core()
    }

    fn apply_event(
        &mut self,
        ids: &[NodeId],
        sent: &[Message],
        event: &Event,
    ) -> Result<Done<StoreBook>, Refusal<StoreBook>> {
        let alloc = self.replica.core().alloc;
        match node_event(alloc, ids, sent, event) {
            Err(_) => Err(Refusal::NoMemory),
            Ok(None) => self.restart(),
            Ok(Some(event)) => self.dispatch(event),
        }
    }

    /// The disk never fails, so the node never stops.
    fn install(&mut self, offer: Offer) -> Result<Done<StoreBook>, Refusal<StoreBook>> {
        match self.replica.install(offer) {
            Ok(done) => Ok(done),
            Err(NodeFault::Refused(why)) => Err(why),
            Err(NodeFault::DiskFault) => unreachable!(),
            Err(NodeFault::Stopped { .. }) => unreachable!(),
        }
    }
}
