//! The node of a load, and what happens at it.

ghost use Rattle.std.specs.Prelude.{◌≡◌, suc, ◌<◌, ◌≤◌, [], None, true, IfOk, OnOk};
ghost use Rattle.gl_replication.specs.Events.{has_few_entries, rule_of};
ghost use Rattle.gl_replication.specs.Stands.{IsNoMemory, Reports, StandsFor};
ghost use Rattle.gl_load.specs.Events.{events_up_to, signs_after};
ghost use Rattle.gl_load.specs.Founding.{load_book, load_holding};
ghost use Rattle.gl_load.specs.Node.{HasLeaf, HasSigned, IsAfter, IsAfterRequests, IsLed, IsUnsigned, Takes};
ghost use Rattle.gl_load.specs.Requests.{words_after};

use crate::founding::key_seed;
use crate::memory_disk::MemoryDisk;
use crate::requests::next_request;
use gl_answers::ClientBook;
use gl_hss::Types;
use gl_journal::{Journal, Key, KeyKind};
use gl_node::{KeptBook, NodeFault, Replica};
use gl_replication::{Core, Event, Refusal};
use rand_chacha::ChaCha8Rng;
use std::alloc::{AllocError, Global};

/// The node, which leads: its key has leaves.
fn leader<B: KeptBook + ClientBook>(alloc: Global, seed: &[u8; 32], book: B) -> Core<B>
    requires { B.stands book (load_book seed.now) (load_holding seed.now) }
    ensures { IsLed B.stands seed.now result }
{
    if book.leaves() == 0 {
        unreachable!()
    }
    Core::leader(alloc, book, 1)
}

/// The node of the service as that begins, over its store and a disk in memory.
pub(crate) fn node_at_start<B: KeptBook + ClientBook>(
    alloc: Global,
    seed: &[u8; 32],
    book: B,
) -> Result<Replica<MemoryDisk, B>, AllocError>
    requires { B.stands book (load_book seed.now) (load_holding seed.now) }
    ensures { IfOk result (λ node. IsAfter B.stands seed.now [] node) }
{
    let core = leader(alloc, seed, book);
    let _entries = KeptBook::ledger(&core.book);
    let key = Key {
        kind: KeyKind::Node,
        types: Types::H10W4,
        seed: key_seed(seed),
    };
    match Journal::create(alloc, MemoryDisk::new(alloc), key) {
        Ok(journal) => Ok(Replica::new(core, journal)),
        // The disk never fails and holds nothing, so it is memory that lacks.
        Err(_) => Err(AllocError),
    }
}

/// Why an event didn't happen that no rule refuses.
fn out_of_memory<B: KeptBook + ClientBook>(why: Refusal<B>) -> AllocError
    requires { IsNoMemory why }
{
    match why {
        Refusal::NoMemory => AllocError,
        _ => unreachable!(),
    }
}

/// An event happens at the node, which its rule doesn't refuse. Fails only where memory runs out.
fn apply_event<B: KeptBook + ClientBook>(
    node: &mut Replica<MemoryDisk, B>,
    event: Event<B>,
) -> Result<(), AllocError>
    requires few { has_few_entries event ≡ true }
    requires going { node.old.stopped ≡ None }
    requires taken { Takes B.stands event node.old.core }
    ensures steps { OnOk result (Reports B.stands node.old.core (λ b x n.
        StandsFor B.stands node.new.core b x (rule_of event b x n).node)) }
    ensures going { node.new.stopped ≡ None }
{
    match node.event(event) {
        Ok(_) => Ok(()),
        Err(NodeFault::Refused(why)) => Err(out_of_memory(why)),
        Err(NodeFault::DiskFault | NodeFault::Stopped { .. }) => unreachable!(),
    }
}

/// The node takes the next request.
fn submit<B: KeptBook + ClientBook>(
    alloc: Global,
    seed: &[u8; 32],
    node: &mut Replica<MemoryDisk, B>,
    words: &mut ChaCha8Rng,
    count: u32,
    done: u32,
) -> Result<(), AllocError>
    requires few { count ≤ 100000 }
    requires more { done < count }
    requires after { IsAfterRequests B.stands seed.now count done node.old words.old }
    ensures unsigned { OnOk result (IsUnsigned B.stands seed.now count done node.new) }
    ensures words { OnOk result (words.new ≡ words_after seed.now (suc done)) }
{
    let request = next_request(alloc, words)?;
    apply_event(node, Event::Submit(request))
}

/// The node reserves a leaf of its key.
fn reserve<B: KeptBook + ClientBook>(
    seed: &[u8; 32],
    node: &mut Replica<MemoryDisk, B>,
    count: u32,
    done: u32,
) -> Result<(), AllocError>
    requires few { count ≤ 100000 }
    requires more { done < count }
    requires unsigned { IsUnsigned B.stands seed.now count done node.old }
    ensures { OnOk result (HasLeaf B.stands seed.now count done node.new) }
{
    apply_event(node, Event::Reserve)
}

/// The node signs its ledger.
fn sign_ledger<B: KeptBook + ClientBook>(
    seed: &[u8; 32],
    node: &mut Replica<MemoryDisk, B>,
    count: u32,
    done: u32,
) -> Result<(), AllocError>
    requires few { count ≤ 100000 }
    requires more { done < count }
    requires leaf { HasLeaf B.stands seed.now count done node.old }
    ensures { OnOk result (HasSigned B.stands seed.now count done node.new) }
{
    apply_event(node, Event::Sign)
}

/// The node commits what it signed.
fn commit<B: KeptBook + ClientBook>(
    seed: &[u8; 32],
    node: &mut Replica<MemoryDisk, B>,
    count: u32,
    done: u32,
) -> Result<(), AllocError>
    requires few { count ≤ 100000 }
    requires more { done < count }
    requires signs { signs_after count (suc done) ≡ true }
    requires signed { HasSigned B.stands seed.now count done node.old }
    ensures { OnOk result
        (IsAfter B.stands seed.now (events_up_to seed.now count (suc done)) node.new) }
{
    apply_event(node, Event::Advance)
}

/// The node signs its ledger with one more leaf, and commits what it signed.
fn sign<B: KeptBook + ClientBook>(
    seed: &[u8; 32],
    node: &mut Replica<MemoryDisk, B>,
    count: u32,
    done: u32,
) -> Result<(), AllocError>
    requires few { count ≤ 100000 }
    requires more { done < count }
    requires signs { signs_after count (suc done) ≡ true }
    requires unsigned { IsUnsigned B.stands seed.now count done node.old }
    ensures { OnOk result
        (IsAfter B.stands seed.now (events_up_to seed.now count (suc done)) node.new) }
{
    reserve(seed, node, count, done)?;
    sign_ledger(seed, node, count, done)?;
    commit(seed, node, count, done)
}

/// Whether the node of a load of so many requests signs after the first so many of them.
fn is_due(count: u32, done: u32) -> bool
    ensures { result ≡ signs_after count done }
{
    done % 100 == 0 || done == count
}

/// The node signs after each hundred requests, and after the last one.
fn sign_if_due<B: KeptBook + ClientBook>(
    seed: &[u8; 32],
    node: &mut Replica<MemoryDisk, B>,
    count: u32,
    done: u32,
) -> Result<(), AllocError>
    requires few { count ≤ 100000 }
    requires more { done < count }
    requires unsigned { IsUnsigned B.stands seed.now count done node.old }
    ensures { OnOk result
        (IsAfter B.stands seed.now (events_up_to seed.now count (suc done)) node.new) }
{
    let due = is_due(count, done + 1);
    if due {
        sign(seed, node, count, done)
    } else {
        Ok(())
    }
}

/// One request more, and what follows it. Fails only where memory runs out.
pub(crate) fn take_request<B: KeptBook + ClientBook>(
    alloc: Global,
    seed: &[u8; 32],
    node: &mut Replica<MemoryDisk, B>,
    words: &mut ChaCha8Rng,
    count: u32,
    done: u32,
) -> Result<(), AllocError>
    requires few { count ≤ 100000 }
    requires more { done < count }
    requires after { IsAfterRequests B.stands seed.now count done node.old words.old }
    ensures { OnOk result (IsAfterRequests B.stands seed.now count (suc done) node.new words.new) }
{
    submit(alloc, seed, node, words, count, done)?;
    sign_if_due(seed, node, count, done)
}
