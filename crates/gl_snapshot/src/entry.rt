//! The evidence entry of a snapshot, read from its frame.

ghost use Rattle.std.specs.Prelude.{◌≡◌, ◌+◌, ◌^◌, ◌<◌, ◌≤◌, IfOk, length};
ghost use Rattle.gl_base.specs.Answers.{Answers};
ghost use Rattle.gl_entry.specs.Parsing.{entry_at};
ghost use Rattle.gl_snapshot.specs.Snapshot.{is_evidence_of};
ghost use Rattle.gl_snapshot.specs.Parsing.{fault_place, by_frame, evidence_in};

use crate::body::fault_at;
use gl_base::OrNoMemory;
use gl_entry::{Content, Entry, EntryFault};
use gl_snapshot_body::ShapeFault;
use std::alloc::Global;

/// The place of a fault of a frame whose length stands at this place.
fn fault_place(place: usize, fault: &EntryFault) -> usize
    ensures { result ≡ fault_place place fault.now }
{
    match fault {
        EntryFault::Code(fault) => ShapeFault::from(*fault).at,
        EntryFault::Version
        | EntryFault::Flags
        | EntryFault::Kind
        | EntryFault::Size { .. }
        | EntryFault::Writes { .. } => place,
    }
}

/// The entry whose frame the bytes begin with, and how many bytes the frame has.
fn first_entry(
    alloc: Global,
    place: usize,
    bytes: &[u8],
) -> Result<(Entry, usize), OrNoMemory<ShapeFault>>
    requires { place + 4 + length bytes.now < 2 ^ 64 }
    ensures exact { Answers (λ read. read) result
        (by_frame place (entry_at (place + 4) bytes.now)) }
    ensures within { IfOk result (λ read. read.1 ≤ length bytes.now) }
{
    match Entry::decode_at(alloc, place + 4, bytes) {
        Ok(read) => Ok(read),
        Err(OrNoMemory::NoMemory) => Err(OrNoMemory::NoMemory),
        Err(OrNoMemory::Fault(fault)) => Err(fault_at(fault_place(place, &fault))),
    }
}

fn is_evidence_of(base: u64, entry: &Entry) -> bool
    ensures { result ≡ is_evidence_of base entry.now }
{
    match &entry.content {
        Content::Evidence(_) => entry.seqno > base && entry.seqno - base == 1,
        _ => false,
    }
}

/// The evidence of a snapshot with this base, of which these bytes are the frame. Their length
/// stands at this place.
#[tactic(auto, unfolding(crate::specs::Parsing::evidence_in))]
pub(crate) fn read_evidence(
    alloc: Global,
    base: u64,
    place: usize,
    bytes: &[u8],
) -> Result<Entry, OrNoMemory<ShapeFault>>
    requires { place + 4 + length bytes.now < 2 ^ 64 }
    ensures { Answers (λ entry. entry) result (evidence_in base place bytes.now) }
{
    let (entry, size) = first_entry(alloc, place, bytes)?;
    if !is_evidence_of(base, &entry) {
        return Err(fault_at(place));
    }
    if bytes.len() != size {
        return Err(fault_at(place + 4 + size));
    }
    Ok(entry)
}
