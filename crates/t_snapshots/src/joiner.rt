//! A node that begins from a snapshot of another one's ledger.

ghost use Rattle.std.specs.Prelude.{IfSome};
ghost use Rattle.gl_node.specs.Persistence.{StandsForSome};
ghost use Rattle.gl_replication.specs.Offers.{IsShown};
ghost use Rattle.gl_store_book.specs.Stands.{Shows, Stands};

use crate::file::receipt_text;
use crate::ledger::{bytes_at, bytes_of, entries_up_to, is_same, whole};
use gl_answers::ClientBook;
use gl_base::{OrNoMemory, TxId};
use gl_entry::Entry;
use gl_hss::{LmsKey, Types};
use gl_receipt::{MakeFault, Receipt, write_receipt};
use gl_replication::{Book, Core, Offer};
use gl_snapshot_body::Body;
use gl_store::LedgerTail;
use gl_store_book::StoreBook;
use std::alloc::Global;
use std::test::*;

/// A node with no entry, which no ledger records.
pub fn joiner(alloc: Global) -> Option<Core<StoreBook>>
    ensures { IfSome result (λ core. StandsForSome Stands core) }
{
    let key = LmsKey::make(alloc, [7; 32], Types::H5W4).ok()?;
    match StoreBook::joining(alloc, [8; 32], key) {
        Ok(book) => Some(Core::joiner(alloc, book, 0)),
        Err(_) => None,
    }
}

/// Whether it takes entries after a transaction of a leader that committed so many.
fn takes(core: &mut Core<StoreBook>, prev: TxId, entries: &[Entry], commit: u64) -> bool
    requires { StandsForSome Stands core.old }
    ensures { StandsForSome Stands core.new }
{
    core.on_append([1; 32], 3, prev, entries, commit).is_ok()
}

/// The body of the snapshot that it offers.
fn offered(core: &Core<StoreBook>) -> Option<Body>
    requires { StandsForSome Stands core.now }
    ensures { IfSome result (λ body. IsShown Shows body) }
{
    match core.snapshot() {
        Ok(Offer::Snapshot(body)) => Some(body),
        _ => None,
    }
}

/// Whether it begins from this body.
fn installs(core: &mut Core<StoreBook>, body: Body) -> bool
    requires { IsShown Shows body }
{
    core.install(Offer::Snapshot(body)).is_ok()
}

/// A node with the whole ledger, of which the first 7 entries are committed.
pub fn follower(alloc: Global, entries: &[Entry]) -> Option<Core<StoreBook>>
    ensures { IfSome result (λ core. StandsForSome Stands core) }
{
    let mut core = joiner(alloc)?;
    let start = TxId { view: 0, seqno: 0 };
    if takes(&mut core, start, entries, 7) {
        Some(core)
    } else {
        None
    }
}

/// A node that begins from the snapshot that another one offers.
pub fn begun(alloc: Global, from: &Core<StoreBook>) -> Option<Core<StoreBook>>
    requires { StandsForSome Stands from.now }
{
    let body = offered(from)?;
    let mut core = joiner(alloc)?;
    if installs(&mut core, body) {
        Some(core)
    } else {
        None
    }
}

/// Its base, its last seqno, its commit and its view.
pub fn place(core: &Core<StoreBook>) -> (u64, u64, u64, u32) {
    (
        core.book.base(),
        core.book.ledger_len(),
        core.commit,
        core.peer.view,
    )
}

/// Whether it offers the snapshot with these bytes.
fn offers(alloc: Global, core: &Core<StoreBook>, owed: Option<Vec<u8>>) -> bool {
    match core.snapshot() {
        Ok(Offer::Snapshot(body)) => is_same(bytes_of(alloc, &body), owed),
        _ => false,
    }
}

/// Its receipt of a transaction, of 7 committed entries.
fn receipt_of(core: &Core<StoreBook>, view: u32, seqno: u64) -> Result<Receipt, Option<MakeFault>> {
    match core.book.receipt(7, TxId { view, seqno }) {
        Ok(receipt) => Ok(receipt),
        Err(OrNoMemory::Fault(fault)) => Err(Some(fault)),
        Err(OrNoMemory::NoMemory) => Err(None),
    }
}

/// The text of its receipt of a transaction.
fn text_of(alloc: Global, core: &Core<StoreBook>, view: u32, seqno: u64) -> Option<Vec<u8>> {
    match receipt_of(core, view, seqno) {
        Ok(receipt) => write_receipt(alloc, &receipt).ok(),
        Err(_) => None,
    }
}

/// Whether it gives the receipt of the evidence at 2.5 that is owed.
pub fn shows_evidence(alloc: Global, core: &Core<StoreBook>, tail: &LedgerTail) -> bool {
    is_same(text_of(alloc, core, 2, 5), receipt_text(alloc, tail))
}

pub fn refuses(core: &Core<StoreBook>, view: u32, seqno: u64, fault: MakeFault) -> bool {
    match receipt_of(core, view, seqno) {
        Err(Some(why)) => why == fault,
        _ => false,
    }
}

/// Whether it follows from the base 4 to the end of the ledger.
pub fn follows(core: &mut Core<StoreBook>, tail: &LedgerTail) -> bool {
    let prev = TxId { view: 2, seqno: 4 };
    core.on_append([1; 32], 3, prev, entries_up_to(tail, 4, 9), 7)
        .is_ok()
}

/// Whether it is there, and gives the snapshot and the receipt that are owed.
fn gives_what_is_owed(alloc: Global, core: &Core<StoreBook>, tail: &LedgerTail) -> bool {
    place(core) == (4, 9, 7, 3)
        && offers(alloc, core, bytes_at(alloc, tail, 4))
        && shows_evidence(alloc, core, tail)
        && refuses(core, 2, 3, MakeFault::BelowBase { base: 4 })
}

/// Whether a node begins from the snapshot that another one offers, and follows.
fn begins(alloc: Global, from: &Core<StoreBook>, tail: &LedgerTail) -> bool
    requires { StandsForSome Stands from.now }
{
    match begun(alloc, from) {
        Some(mut node) => {
            place(&node) == (4, 4, 4, 2)
                && follows(&mut node, tail)
                && gives_what_is_owed(alloc, &node, tail)
        }
        None => false,
    }
}

/// Whether a node with the whole ledger offers the snapshot at 2.4, from which another one begins.
fn is_begun_from(alloc: Global, tail: &LedgerTail) -> bool {
    match follower(alloc, tail.entries()) {
        Some(from) => {
            place(&from) == (0, 9, 7, 3)
                && offers(alloc, &from, bytes_at(alloc, tail, 4))
                && begins(alloc, &from, tail)
        }
        None => false,
    }
}

// The evidence of the snapshot at 2.4 stands at 2.5, and the signature 3.7 above it is committed;
// that of the snapshot at 3.7 has none above it.
#[test]
fn a_node_begins_from_the_snapshot_of_another_one(rt: HostRuntime) -> Result<(), Fail> {
    let tail = whole(rt.alloc()).ok_or("no ledger")?;
    assert!(rt; is_begun_from(rt.alloc(), &tail));
    Ok(())
}
