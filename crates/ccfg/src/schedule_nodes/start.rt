//! The nodes with which a service begins, each over a file that keeps it.

ghost use Rattle.std.specs.Prelude.{◌≡◌, ◌+◌, ◌<◌, ◌≤◌, ℕ, suc, [], None, Some, length, map, slice_get, true, IfOk, OnOk};
ghost use Rattle.std.specs.List.{AllByRecursion, flat_map};
ghost use Rattle.gl_entry.specs.Entry.{frame_bytes, is_entry};
ghost use Rattle.gl_journal.specs.Durable.{Durable as State, key_alone, leaf_count};
ghost use Rattle.gl_journal.specs.Records.{records_bytes};
ghost use Rattle.gl_replication.specs.Stands.{StandsFor};
ghost use Rattle.gl_rules.specs.World.{node_at_start};
ghost use Rattle.gl_world.specs.AtStart.{AreAtStart, held_at_start};
ghost use Rattle.gl_world.specs.Founding.{id_of};
ghost use Rattle.gl_world.specs.Group.{IsGroup, book_of};
ghost use Rattle.gl_world.specs.Keyed.{HasKeysOf};
ghost use Rattle.gl_world.specs.Keys.{private_key, service_seed};
ghost use Rattle.gl_world.specs.World.{start_of};
ghost use Rattle.ccfg.specs.FileNodes.{IsMemoryFile, SeenFileNode, StandsOverFile};
ghost use Rattle.gl_store_book.specs.BasedLedgers.{IsAudited};
ghost use Rattle.gl_store_book.specs.Stands.{Stands};
ghost use Rattle.gl_store_book.specs.ViewVotes.{view_vote_records};

use crate::schedule_nodes::disk::BytesDisk;
use crate::schedule_nodes::opening_stores::books;
use crate::schedule_nodes::{FileNode, only_memory};
use gl_config::NodeId;
use gl_entry::Entry;
use gl_hss::{LmsKey, Types};
use gl_journal::{Journal, Key, KeyKind, Record};
use gl_node::Replica;
use gl_replication::{Book, Core};
use gl_store_book::{StoreBook, ViewVote, keep_opening};
use gl_world::{ServiceKeys, Settings, core_at_start, node_seed};
use std::alloc::{AllocError, Global};

/// The frames of entries, one after the other.
fn frames_of(alloc: Global, entries: &[Entry]) -> Result<Vec<u8>, AllocError>
    requires { AllByRecursion (λ e. is_entry e ≡ true) entries.now }
    ensures { IfOk result (λ bytes. bytes.items ≡ flat_map frame_bytes entries.now) }
{
    let mut bytes = Vec::new(alloc);
    for entry in entries {
        bytes.extend_from_slice(&entry.encode(alloc)?)?;
    }
    Ok(bytes)
}

/// A file in memory with this key. Fails only where memory runs out.
fn create(alloc: Global, key: Key) -> Result<Journal<BytesDisk>, AllocError>
    ensures { IfOk result (λ journal. IsMemoryFile journal (key_alone key)) }
{
    match Journal::create(alloc, BytesDisk::new(alloc), key) {
        Ok(journal) => Ok(journal),
        Err((error, _)) => Err(only_memory(error)),
    }
}

/// The file keeps how many leaves are reserved. Fails only where memory runs out.
#[tactic(auto, unfolding(gl_base::specs::LittleEndian::little_endian))]
fn keep_leaves(journal: &mut Journal<BytesDisk>, reserved: u32) -> Result<(), AllocError>
    requires { (state : State) × IsMemoryFile journal.old state }
    ensures { (state : State) → IsMemoryFile journal.old state → state.reserved ≤ reserved →
        reserved ≤ leaf_count state →
        OnOk result (IsMemoryFile journal.new (record state { reserved = reserved })) }
{
    match journal.keep(&[Record::Signer { reserved }], 9) {
        Ok(()) => Ok(()),
        Err(error) => Err(only_memory(error)),
    }
}

/// A view, and a vote for a node in it.
#[tactic(auto, unfolding(gl_base::specs::LittleEndian::little_endian))]
fn turn_for(view: u32, node: &NodeId) -> ViewVote
    ensures turn { result ≡ record { view = view; vote = Some node.now; is_new = true } }
    ensures small { length (records_bytes (view_vote_records result)) ≤ 42 }
{
    ViewVote {
        view,
        vote: Some(*node),
        is_new: true,
    }
}

/// A view, and the vote in it.
#[tactic(auto, unfolding(gl_base::specs::LittleEndian::little_endian))]
fn turn_of(view: u32, vote: &Option<NodeId>) -> ViewVote
    ensures turn { result ≡ record { view = view; vote = vote.now; is_new = true } }
    ensures small { length (records_bytes (view_vote_records result)) ≤ 42 }
{
    match vote {
        None => ViewVote {
            view,
            vote: None,
            is_new: true,
        },
        Some(node) => turn_for(view, node),
    }
}

/// The entries of a node's ledger above its base, which break no rule of the audit.
fn entries_of(book: &StoreBook) -> &[Entry]
    ensures entries { result.now ≡ book.now.ledger.entries }
    ensures fit { AllByRecursion (λ e. is_entry e ≡ true) result.now }
    ensures valid { IsAudited book.now.ledger }
{
    book.ledger.tail().entries()
}

/// The file keeps the view and the vote of a node, and its ledger. Fails only where memory runs
/// out.
fn keep_node(
    alloc: Global,
    journal: &mut Journal<BytesDisk>,
    core: &Core<StoreBook>,
) -> Result<(), AllocError>
    requires open { (state : State) × IsMemoryFile journal.old state }
    requires whole { core.now.book.ledger.snapshot ≡ None }
    requires few { length core.now.book.ledger.entries ≤ 2 }
    ensures { (state : State) → IsMemoryFile journal.old state → state.log ≡ [] →
        state.snapshot ≡ None → state.view ≤ core.now.peer.view →
        OnOk result (IsMemoryFile journal.new (record state {
          view = core.now.peer.view;
          vote = core.now.peer.vote;
          has_vote_record = true;
          log = map frame_bytes core.now.book.ledger.entries;
        })) }
{
    let turn = turn_of(core.peer.view, &core.peer.vote);
    let entries = entries_of(&core.book);
    let bytes = frames_of(alloc, entries)?;
    match keep_opening(alloc, journal, &turn, entries, &bytes) {
        Ok(()) => Ok(()),
        Err(error) => Err(only_memory(error)),
    }
}

impl FileNode {
    /// The node with a number at the start of a service, whose file keeps it. Fails only where
    /// memory runs out.
    fn begin(
        alloc: Global,
        settings: &Settings,
        number: u8,
        core: Core<StoreBook>,
    ) -> Result<FileNode, AllocError>
        requires group { IsGroup settings.now }
        requires low { 1 ≤ number }
        requires high { number ≤ settings.now.starting + settings.now.joiners }
        requires core { StandsFor Stands core (book_of settings.now) (id_of settings.now number)
            (node_at_start (start_of settings.now) (id_of settings.now number)) }
        ensures { IfOk result (λ node. StandsOverFile node (book_of settings.now)
            (id_of settings.now number)
            (node_at_start (start_of settings.now) (id_of settings.now number))) }
    {
        let key = Key {
            kind: KeyKind::Node,
            types: Types::H5W4,
            seed: node_seed(settings, number),
        };
        let mut journal = create(alloc, key)?;
        keep_leaves(&mut journal, core.leaves.reserved as u32)?;
        keep_node(alloc, &mut journal, &core)?;
        Ok(FileNode {
            replica: Replica::new(core, journal),
        })
    }
}

/// Adds the next node, over its store and a file that keeps it. Fails only where memory runs out.
fn add_node(
    alloc: Global,
    settings: &Settings,
    first: NodeId,
    nodes: &mut Vec<FileNode>,
    book: StoreBook,
) -> Result<(), AllocError>
    requires group { IsGroup settings.now }
    requires first { first ≡ id_of settings.now 1 }
    requires few { length nodes.old.items < settings.now.starting + settings.now.joiners }
    requires book { Stands book (book_of settings.now)
        (held_at_start settings.now (suc (length nodes.old.items))) }
    requires begun { (i : ℕ) (node : SeenFileNode) → slice_get nodes.old.items i ≡ Some node →
        StandsOverFile node (book_of settings.now) (id_of settings.now (suc i))
        (node_at_start (start_of settings.now) (id_of settings.now (suc i))) }
    ensures begun { OnOk result ((i : ℕ) (node : SeenFileNode) →
        slice_get nodes.new.items i ≡ Some node →
        StandsOverFile node (book_of settings.now) (id_of settings.now (suc i))
        (node_at_start (start_of settings.now) (id_of settings.now (suc i)))) }
    ensures count { OnOk result (length nodes.new.items ≡ suc (length nodes.old.items)) }
{
    let number = nodes.len() as u8 + 1;
    let core = core_at_start(alloc, settings, first, number, book);
    let node = FileNode::begin(alloc, settings, number, core)?;
    nodes.push(node)?;
    Ok(())
}

/// The nodes with which a service begins, in the order of their numbers, each over a file that
/// keeps it: those that start have the opening ledger, and those that join have no entry. Gives the
/// service's key back. It grows the key of each member. Fails only where memory runs out.
pub fn nodes(
    alloc: Global,
    settings: &Settings,
    keys: ServiceKeys,
) -> Result<(Vec<FileNode>, LmsKey), AllocError>
    requires group { IsGroup settings.now }
    requires keys { HasKeysOf settings.now keys }
    ensures nodes { IfOk result (λ made. AreAtStart StandsOverFile settings.now made.0.items) }
    ensures service { IfOk result (λ made. made.1 ≡ private_key (service_seed settings.now)) }
{
    let (books, service) = books(alloc, settings, keys)?;
    let first = books[0].me();
    let mut nodes = Vec::new(alloc);
    for book in books {
        add_node(alloc, settings, first, &mut nodes, book)?;
    }
    Ok((nodes, service))
}
