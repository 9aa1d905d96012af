//! The payloads of a file, read from its bytes.

ghost use Rattle.std.specs.Prelude.{◌≡◌, ℕ, ◌+◌, ◌^◌, ◌<◌, ◌≤◌, List, ◌∷◌, ◌++◌, length, IsTrue, IsOk, OnOk, OnErr, IfOk, IfSome, IfNone, Ok, Err};
ghost use Rattle.gl_outside.specs.Disk.{Kept, IsImage, LeavesOnly, Leaves};
ghost use Rattle.gl_base.specs.declared.or_no_memory.OrNoMemory.{OrNoMemory};
ghost use Rattle.gl_journal.specs.declared.fault.JournalFault.{JournalFault};
ghost use Rattle.gl_journal.specs.Gates.{body_of, payloads_from, mismatch, payloads_of};
ghost use Rattle.gl_journal.specs.Parts.{FileParts, Parts, IsClosed};
ghost use Rattle.gl_journal.specs.Stops.{HasCause};

use crate::fault::JournalFault;
use gl_base::{Cut, OrNoMemory};
use gl_outside::Disk;
use std::alloc::Global;

/// A batch after its gate: the payload, what stands after it, and the place of that.
#[derive(Clone, Copy, Debug)]
pub(crate) struct Batch<'a> {
    pub(crate) payload: &'a [u8],
    pub(crate) rest: &'a [u8],
    pub(crate) next: usize,
}

/// The most bytes of a payload, and of a record's body.
pub(crate) const LENGTH_LIMIT: u64 = 0xffff_ffff;

/// The bytes after a gate that is open.
pub(crate) fn after_open_gate(bytes: &[u8]) -> Option<&[u8]>
    ensures open { IfSome result (λ suffix. bytes.now ≡ 1 ∷ suffix.now) }
    ensures closed { IfNone result (IsClosed bytes.now) }
{
    match bytes.split_first() {
        Some((1, suffix)) => Some(suffix),
        _ => None,
    }
}

/// The batch whose gate stands at a place and is open, from the bytes after the gate.
pub(crate) fn batch_after(suffix: &[u8], at: usize) -> Result<Batch<'_>, JournalFault>
    requires { at + 1 + length suffix.now < 2 ^ 64 }
    ensures encoded { IfOk result (λ batch.
        suffix.now ≡ body_of batch.payload.now ++ batch.rest.now) }
    ensures small { IfOk result (λ batch. length batch.payload.now < 2 ^ 32) }
    ensures next { IfOk result (λ batch. batch.next ≡ at + 5 + length batch.payload.now) }
    ensures fault { (fault : JournalFault) → result ≡ Err fault →
        (fault ≡ JournalFault.BadRecord (at + 1))
        × (payloads_from at (1 ∷ suffix.now) ≡ Err (at + 1)) }
{
    let mut cut = Cut::new_at(suffix, at + 1);
    let Ok(payload) = cut.bytes(32, LENGTH_LIMIT) else {
        let at = at as u64 + 1;
        return Err(JournalFault::BadRecord { at });
    };
    Ok(Batch {
        payload,
        rest: cut.rest(),
        next: cut.at(),
    })
}

/// The place after the batches from the gate at a place on, where no gate is open.
fn end_of_batches(bytes: &[u8], at: usize) -> Result<usize, JournalFault>
    requires { at + length bytes.now < 2 ^ 64 }
    ensures parts { IfOk result (λ place. (payloads : List (List ℕ)) × (rest : List ℕ)
        × Parts at bytes.now payloads place rest × IsClosed rest) }
    ensures fault { (fault : JournalFault) → result ≡ Err fault →
        (place : ℕ) × (fault ≡ JournalFault.BadRecord place)
        × (payloads_from at bytes.now ≡ Err place) }
{
    let mut place = at;
    let mut rest = bytes;
    while let Some(suffix) = after_open_gate(rest) {
        let batch = batch_after(suffix, place)?;
        place = batch.next;
        rest = batch.rest;
    }
    Ok(place)
}

/// The first byte of the header that differs, or that the file doesn't have.
fn first_mismatch(header: &[u8], bytes: &[u8]) -> Option<usize>
    ensures { result ≡ mismatch header.now bytes.now }
{
    for i in 0..header.len() {
        if i >= bytes.len() || bytes[i] != header[i] {
            return Some(i);
        }
    }
    None
}

/// The place of the closed gate after the payloads of a file under a header.
pub(crate) fn end_of_payloads(header: &[u8], bytes: &[u8]) -> Result<usize, JournalFault>
    ensures parts { IfOk result (λ place. (payloads : List (List ℕ)) × (rest : List ℕ)
        × FileParts header.now bytes.now payloads place rest) }
    ensures opens { OnOk result (IsOk (payloads_of header.now bytes.now)) }
    ensures within { IfOk result (λ place. place ≤ length bytes.now) }
    ensures fault { (fault : JournalFault) → result ≡ Err fault →
        payloads_of header.now bytes.now ≡ Err fault }
    ensures no_disk { result ≡ Err JournalFault.DiskFault → ⊥ }
{
    if let Some(at) = first_mismatch(header, bytes) {
        let at = at as u64;
        return Err(JournalFault::NotJournal { at });
    }
    let (_, rest) = bytes.split_at(header.len());
    end_of_batches(rest, header.len())
}

/// Keeps what reads give.
pub(crate) fn keep<D: Disk>(disk: &mut D) -> Result<(), OrNoMemory<JournalFault>>
    ensures kept { IsTrue D.honest →
        OnOk result (D.past disk.new ≡ Kept (D.bytes disk.old) ∷ D.past disk.old) }
    ensures failed { IsTrue D.honest → OnErr result (D.past disk.new ≡ D.past disk.old) }
    ensures same { IsTrue D.honest → OnOk result (D.bytes disk.new ≡ D.bytes disk.old) }
    ensures no_memory { IsTrue D.honest → result ≡ Err OrNoMemory.NoMemory →
        D.bytes disk.new ≡ D.bytes disk.old }
    ensures cause { HasCause (D.faults disk.old) (D.faults disk.new) result }
    ensures only { (fault : JournalFault) → result ≡ Err (OrNoMemory.Fault fault) →
        fault ≡ JournalFault.DiskFault }
{
    disk.room(0, 1)?;
    disk.sync().map_err(JournalFault::from)?;
    Ok(())
}

/// All bytes of a disk, once they are kept. They are asked for first, so that they are among those
/// that a stop might have left.
pub(crate) fn read_all<D: Disk>(
    alloc: Global,
    disk: &mut D,
) -> Result<Vec<u8>, OrNoMemory<JournalFault>>
    ensures bytes { IsTrue D.honest → IfOk result (λ all. all.items ≡ D.bytes disk.old) }
    ensures same { IsTrue D.honest → OnOk result (D.bytes disk.new ≡ D.bytes disk.old) }
    ensures no_memory { IsTrue D.honest → result ≡ Err OrNoMemory.NoMemory →
        D.bytes disk.new ≡ D.bytes disk.old }
    ensures kept { IsTrue D.honest →
        OnOk result (LeavesOnly (D.past disk.new) (D.bytes disk.old)) }
    // A stop leaves what it might have left before.
    ensures images { IsTrue D.honest →
        Leaves (IsImage (D.past disk.old)) (D.past disk.old) (D.past disk.new) }
    ensures cause { HasCause (D.faults disk.old) (D.faults disk.new) result }
    ensures only { (fault : JournalFault) → result ≡ Err (OrNoMemory.Fault fault) →
        fault ≡ JournalFault.DiskFault }
{
    let len = disk.len().map_err(JournalFault::from)?;
    let mut bytes = vec![in alloc; 0u8; len as usize]?;
    keep(disk)?;
    disk.read_at(0, &mut bytes).map_err(JournalFault::from)?;
    Ok(bytes)
}
