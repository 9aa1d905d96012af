//! Frames of entries, and the memory for a batch of them.

ghost use Rattle.std.specs.Prelude.{◌≡◌, ◌≤◌, ◌<◌, ◌+◌, ◌^◌, IsTrue, IfOk, OnOk, drop, length, map, take};
ghost use Rattle.gl_entry.specs.Entry.{frame_bytes};
ghost use Rattle.gl_journal.specs.Kept.{IsKept, HasBatchRoom};
ghost use Rattle.gl_journal.specs.Parts.{items_of};
ghost use Rattle.gl_node.specs.Batches.{IsRoom};
ghost use Rattle.gl_node.specs.Frames.{appends_size, frame_if_fits};

use crate::kept_book::KeptBook;
use gl_entry::Entry;
use gl_journal::{Journal, Record};
use gl_outside::Disk;
use std::alloc::{AllocError, Global};

/// The frame of an entry that a ledger may hold, no bytes for any other.
fn frame_of(alloc: Global, entry: &Entry) -> Result<Vec<u8>, AllocError>
    ensures { IfOk result (λ frame. frame.items ≡ frame_if_fits entry.now) }
{
    if !entry.fits() {
        return Ok(Vec::new(alloc));
    }
    entry.encode(alloc)
}

/// The frames of entries.
pub(crate) fn frames_of(alloc: Global, entries: &[Entry]) -> Result<Vec<Vec<u8>>, AllocError>
    ensures { IfOk result (λ frames. items_of frames.items ≡ map frame_if_fits entries.now) }
{
    let mut frames = Vec::new(alloc);
    for entry in entries {
        frames.push(frame_of(alloc, entry)?)?;
    }
    Ok(frames)
}

/// The frame of the first entry above a ledger's base after so many of them, if there is one.
pub(crate) fn next_frame<B: KeptBook>(
    alloc: Global,
    book: &B,
    count: u64,
) -> Result<Vec<Vec<u8>>, AllocError>
    ensures frames { IfOk result (λ frames. items_of frames.items
        ≡ map frame_bytes (take 1 (drop count (B.held book.now).entries))) }
    ensures small { IfOk result (λ frames.
        64 + appends_size (items_of frames.items) < 2 ^ 32) }
{
    let entries = book.ledger();
    let new = &entries[entries.len().min(count as usize)..];
    frames_of(alloc, &new[..new.len().min(1)])
}

/// How many bytes the records of frames have.
fn appends_size(frames: &[Vec<u8>]) -> u64
    requires { appends_size (items_of frames.now) < 2 ^ 32 }
    ensures { result ≡ appends_size (items_of frames.now) }
{
    let mut size: u64 = 0;
    for frame in frames {
        size += 5 + frame.len() as u64;
    }
    size
}

/// Takes the memory for a batch of what an event may change, which brings these frames.
pub(crate) fn room<'a, D: Disk>(
    alloc: Global,
    journal: &mut Journal<D>,
    frames: &[Vec<u8>],
) -> Result<Vec<Record<'a>>, AllocError>
    requires { 64 + appends_size (items_of frames.now) < 2 ^ 32 }
    ensures records { IfOk result (λ records. IsRoom records (length frames.now)) }
    ensures room { OnOk result (HasBatchRoom D.room_end D.room_calls journal.new
        (64 + appends_size (items_of frames.now))) }
    ensures open { IsTrue D.honest → IsKept D.bytes D.past journal.old →
        IsKept D.bytes D.past journal.new }
    ensures bytes { IsTrue D.honest →
        D.bytes journal.new.gated.disk ≡ D.bytes journal.old.gated.disk }
    ensures past { IsTrue D.honest → D.past journal.new.gated.disk ≡ D.past journal.old.gated.disk }
    ensures faults { D.faults journal.new.gated.disk ≡ D.faults journal.old.gated.disk }
{
    let mut records = Vec::new(alloc);
    records.reserve(frames.len() + 3)?;
    journal.room(64 + appends_size(frames))?;
    Ok(records)
}
