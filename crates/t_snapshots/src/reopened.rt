//! A node whose file begins with a snapshot.

ghost use Rattle.std.specs.Prelude.{List, ℕ};
ghost use Rattle.gl_journal.specs.Kept.{IsKept};
ghost use Rattle.gl_outside.specs.SureDisk.{disk_past};

use crate::joiner::{place, refuses, shows_evidence};
use crate::ledger::{bytes_at, entries_up_to, whole};
use gl_base::OrNoMemory;
use gl_entry::Entry;
use gl_hss::Types;
use gl_journal::{Journal, JournalFault, Key, KeyKind, Record, batch_len};
use gl_node::Replica;
use gl_outside::SureDisk;
use gl_receipt::MakeFault;
use gl_replication::{Core, Offer};
use gl_store::LedgerTail;
use gl_store_book::{NodeFile, OpeningFault, StoreBook};
use std::alloc::Global;
use std::test::*;

/// The frames of entries.
fn frames_of(alloc: Global, entries: &[Entry]) -> Option<Vec<Vec<u8>>> {
    let mut frames = Vec::new(alloc);
    for entry in entries {
        if !entry.fits() {
            return None;
        }
        frames.push(entry.encode(alloc).ok()?).ok()?;
    }
    Some(frames)
}

/// Whether a journal keeps these records, as one batch.
fn keeps(journal: &mut Journal<SureDisk>, records: &[Record<'_>]) -> bool
    requires { IsKept (λ d. d.bytes.items) disk_past journal.old }
{
    match batch_len(records) {
        Some(len) => len <= u64::from(u32::MAX) && journal.keep(records, len).is_ok(),
        None => false,
    }
}

/// A node's file with these records.
fn file_of(alloc: Global, records: &[Record<'_>]) -> Option<SureDisk> {
    let key = Key {
        kind: KeyKind::Node,
        types: Types::H5W4,
        seed: [7; 32],
    };
    let Ok(mut journal) = Journal::create(alloc, SureDisk::new(alloc), key) else {
        return None;
    };
    if keeps(&mut journal, records) {
        Some(journal.gated.disk)
    } else {
        None
    }
}

/// A node's file with a snapshot, and frames of entries behind it.
fn based_file(alloc: Global, body: &[u8], frames: &[Vec<u8>]) -> Option<SureDisk> {
    let mut records = Vec::new(alloc);
    records.push(Record::Install { body }).ok()?;
    for frame in frames {
        records.push(Record::Append { frame }).ok()?;
    }
    file_of(alloc, &records)
}

/// The node of a file.
fn node_of(alloc: Global, disk: SureDisk) -> Option<Replica<SureDisk, StoreBook>> {
    let file = NodeFile::open(alloc, disk).ok()?;
    file.reopen().ok()
}

/// Whether it is there, with the commit that its signatures record, and gives what is owed.
fn goes_on(alloc: Global, core: &Core<StoreBook>, tail: &LedgerTail) -> bool {
    place(core) == (4, 9, 4, 2)
        && matches!(core.snapshot(), Ok(Offer::NoLaterSignature(4)))
        && shows_evidence(alloc, core, tail)
        && refuses(core, 2, 3, MakeFault::BelowBase { base: 4 })
}

/// Whether the node of a file that begins with the snapshot at 2.4 goes on behind it.
fn is_reopened(alloc: Global, tail: &LedgerTail) -> Option<bool> {
    let body = bytes_at(alloc, tail, 4)?;
    let frames = frames_of(alloc, entries_up_to(tail, 4, 9))?;
    let disk = based_file(alloc, &body, &frames)?;
    let node = node_of(alloc, disk)?;
    Some(goes_on(alloc, node.core(), tail))
}

#[test]
fn a_file_with_a_snapshot_is_opened(rt: HostRuntime) -> Result<(), Fail> {
    let tail = whole(rt.alloc()).ok_or("no ledger")?;
    assert!(rt; is_reopened(rt.alloc(), &tail) == Some(true));
    Ok(())
}

/// Whether a file with these records is refused for one that doesn't follow.
fn is_refused(alloc: Global, records: &[Record<'_>]) -> bool {
    match file_of(alloc, records) {
        Some(disk) => matches!(
            NodeFile::open(alloc, disk),
            Err((
                OrNoMemory::Fault(OpeningFault::Journal(JournalFault::BadRecord { .. })),
                _
            ))
        ),
        None => false,
    }
}

/// Whether each file is refused: one with a snapshot behind an entry, with two snapshots, with one
/// whose last byte lacks, and with entries of another base behind it.
fn are_refused(alloc: Global, tail: &LedgerTail) -> Option<bool> {
    let body = bytes_at(alloc, tail, 4)?;
    let frames = frames_of(alloc, entries_up_to(tail, 0, 9))?;
    let install = Record::Install { body: &body };
    let first = Record::Append {
        frame: frames.get(0)?,
    };
    let seventh = Record::Append {
        frame: frames.get(6)?,
    };
    let cut = Record::Install {
        body: body.get(..body.len().saturating_sub(1))?,
    };
    Some(
        is_refused(alloc, &[first, install])
            && is_refused(alloc, &[install, install])
            && is_refused(alloc, &[cut])
            && is_refused(alloc, &[install, first])
            && is_refused(alloc, &[install, seventh]),
    )
}

#[test]
fn a_snapshot_that_does_not_follow_is_refused(rt: HostRuntime) -> Result<(), Fail> {
    let tail = whole(rt.alloc()).ok_or("no ledger")?;
    assert!(rt; are_refused(rt.alloc(), &tail) == Some(true));
    Ok(())
}
