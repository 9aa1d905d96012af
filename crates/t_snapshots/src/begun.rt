//! A node whose file begins from a snapshot that comes from outside.

use crate::file::{changed, file};
use crate::joiner::place;
use crate::ledger::frames;
use gl_base::OrNoMemory;
use gl_hss::Types;
use gl_journal::{Journal, Key, KeyKind};
use gl_node::Replica;
use gl_outside::SureDisk;
use gl_snapshot::SnapshotFault;
use gl_store_book::{NodeFile, SnapshotOpening, SourceKind, StoreBook, source_of};
use std::alloc::Global;
use std::test::*;

/// A node's file that keeps a key alone.
fn new_file(alloc: Global) -> Option<NodeFile<SureDisk>> {
    let key = Key {
        kind: KeyKind::Node,
        types: Types::H5W4,
        seed: [7; 32],
    };
    match Journal::create(alloc, SureDisk::new(alloc), key) {
        Ok(journal) => NodeFile::open(alloc, journal.gated.disk).ok(),
        Err(_) => None,
    }
}

/// The number by which the program says why such a file doesn't begin from bytes, or its node.
fn begun(alloc: Global, bytes: &[u8]) -> Result<Replica<SureDisk, StoreBook>, u8> {
    let Some(file) = new_file(alloc) else {
        return Err(255);
    };
    if file.has_ledger() {
        return Err(0);
    }
    match file.begin_from_snapshot(bytes) {
        Ok(node) => Ok(node),
        Err((OrNoMemory::Fault(SnapshotOpening::Snapshot(fault)), _)) => Err(number_of(&fault)),
        Err(_) => Err(255),
    }
}

fn number_of(fault: &SnapshotFault) -> u8 {
    match fault {
        SnapshotFault::Shape { .. } => 92,
        SnapshotFault::Receipt(_) => 91,
        SnapshotFault::Digest { .. } => 90,
    }
}

/// Why it doesn't begin, or 0.
fn refusal(alloc: Global, bytes: &[u8]) -> u8 {
    match begun(alloc, bytes) {
        Ok(_) => 0,
        Err(number) => number,
    }
}

/// The node of a file, opened again.
fn opened_again(alloc: Global, disk: SureDisk) -> Option<Replica<SureDisk, StoreBook>> {
    NodeFile::open(alloc, disk).ok()?.reopen().ok()
}

/// Whether the node stands at the snapshot's base, also once its file is opened again.
fn is_begun(alloc: Global, bytes: &[u8]) -> Option<bool> {
    let node = begun(alloc, bytes).ok()?;
    let first = place(node.core());
    let again = opened_again(alloc, node.into_disk())?;
    Some(first == (4, 4, 4, 2) && place(again.core()) == first)
}

#[test]
fn a_file_begins_from_a_snapshot(rt: HostRuntime) -> Result<(), Fail> {
    let bytes = file(rt.alloc()).ok_or("no file")?;
    assert!(rt; is_begun(rt.alloc(), &bytes) == Some(true));
    Ok(())
}

#[test]
fn no_file_begins_from_a_wrong_snapshot(rt: HostRuntime) -> Result<(), Fail> {
    let bytes = file(rt.alloc()).ok_or("no file")?;
    let cut = &bytes[..bytes.len().saturating_sub(1)];
    assert!(rt; refusal(rt.alloc(), cut) == 92);
    for (at, number) in [(0, 92), (12, 90), (32, 92), (44, 90), (3131, 90)] {
        let changed = changed(rt.alloc(), &bytes, at).ok_or("no byte")?;
        assert!(rt; refusal(rt.alloc(), &changed) == number, "{at}");
    }
    Ok(())
}

#[test]
fn bytes_are_told_by_their_first_frame(rt: HostRuntime) -> Result<(), Fail> {
    let snapshot = file(rt.alloc()).ok_or("no file")?;
    let ledger = frames(rt.alloc()).ok_or("no ledger")?;
    assert!(rt; source_of(rt.alloc(), &[]) == Ok(SourceKind::Nothing));
    assert!(rt; source_of(rt.alloc(), &ledger) == Ok(SourceKind::Ledger));
    assert!(rt; source_of(rt.alloc(), &snapshot) == Ok(SourceKind::Snapshot));
    Ok(())
}
