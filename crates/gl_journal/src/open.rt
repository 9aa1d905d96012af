//! How a file of payloads begins, and how its end is closed when it is opened again.

ghost use Rattle.std.specs.Prelude.{◌≡◌, ◌⊎◌, ℕ, ◌+◌, ◌<◌, ◌≤◌, List, [], ◌∷◌, ◌++◌, length, IsTrue, OnOk, IfOk, IfErr, IsOk, Ok, Err};
ghost use Rattle.gl_base.specs.declared.or_no_memory.OrNoMemory.{OrNoMemory};
ghost use Rattle.gl_outside.specs.Fault.{Rose};
ghost use Rattle.gl_outside.specs.Disk.{Torn, LeavesOnly, Leaves, written};
ghost use Rattle.gl_journal.specs.declared.fault.JournalFault.{JournalFault};
ghost use Rattle.gl_journal.specs.Gates.{payloads_of};
ghost use Rattle.gl_journal.specs.Parts.{FileParts};
ghost use Rattle.gl_journal.specs.Stops.{IsSettled, IsOpen, IsBegun, HasCause};

use crate::fault::JournalFault;
use crate::gated::{Gated, write_kept};
use crate::reader::keep;
use gl_base::OrNoMemory;
use gl_outside::Disk;

/// Writes a closed gate at a place, and keeps it.
fn close_gate<D: Disk>(disk: &mut D, at: u64) -> Result<(), OrNoMemory<JournalFault>>
    requires joined { IsTrue D.honest → at ≤ length (D.bytes disk.old) }
    ensures written { IsTrue D.honest → OnOk result
        (D.bytes disk.new ≡ written (D.bytes disk.old) at (0 ∷ [])) }
    ensures kept { IsTrue D.honest →
        OnOk result (LeavesOnly (D.past disk.new) (D.bytes disk.new)) }
    ensures torn { IsTrue D.honest → LeavesOnly (D.past disk.old) (D.bytes disk.old) →
        Leaves (Torn at 1 (D.bytes disk.old)) (D.past disk.old) (D.past disk.new) }
    ensures cause { HasCause (D.faults disk.old) (D.faults disk.new) result }
    ensures only { (fault : JournalFault) → result ≡ Err (OrNoMemory.Fault fault) →
        fault ≡ JournalFault.DiskFault }
{
    let Some(end) = at.checked_add(1) else {
        return Err(OrNoMemory::NoMemory);
    };
    disk.room(end, 1)?;
    disk.write_at(at, &[0]).map_err(JournalFault::from)?;
    keep(disk)
}

/// Sees that a file of so many bytes has the closed gate that belongs at a place.
pub(crate) fn close_end<D: Disk>(
    disk: &mut D,
    place: u64,
    len: u64,
) -> Result<(), OrNoMemory<JournalFault>>
    requires size { IsTrue D.honest → len ≡ length (D.bytes disk.old) }
    requires within { place ≤ len }
    requires kept { IsTrue D.honest → LeavesOnly (D.past disk.old) (D.bytes disk.old) }

    ensures settled { IsTrue D.honest →
        (header : List ℕ) (payloads : List (List ℕ)) (rest : List ℕ) →
        FileParts header (D.bytes disk.old) payloads place rest →
        OnOk result (IsSettled header place (D.bytes disk.new) (D.past disk.new)
        × (payloads_of header (D.bytes disk.new) ≡ Ok payloads)) }
    ensures torn { IsTrue D.honest →
        Leaves (Torn len 1 (D.bytes disk.old)) (D.past disk.old) (D.past disk.new) }
    ensures cause { HasCause (D.faults disk.old) (D.faults disk.new) result }
    ensures only { (fault : JournalFault) → result ≡ Err (OrNoMemory.Fault fault) →
        fault ≡ JournalFault.DiskFault }
{
    if place < len {
        return Ok(());
    }
    close_gate(disk, place)
}

/// The header of a file, and a closed gate.
fn header_and_gate(header: &[u8; 8]) -> [u8; 9]
    ensures { result ≡ header.now ++ 0 ∷ [] }
{
    let mut start = [0; 9];
    let (prefix, _) = start.split_at_mut(8);
    prefix.copy_from_slice(header);
    start
}

/// Writes the header and a closed gate to a disk that holds nothing, once that is kept, and keeps
/// them.
fn write_header<D: Disk>(disk: &mut D, header: &[u8; 8]) -> Result<(), OrNoMemory<JournalFault>>
    requires empty { IsTrue D.honest → D.bytes disk.old ≡ [] }
    ensures settled { IsTrue D.honest → OnOk result
        (IsSettled header.now 8 (D.bytes disk.new) (D.past disk.new)
        × (payloads_of header.now (D.bytes disk.new) ≡ Ok [])) }
    ensures any_moment { IsTrue D.honest →
        Leaves (IsBegun (D.past disk.old)) (D.past disk.old) (D.past disk.new) }
    ensures cause { HasCause (D.faults disk.old) (D.faults disk.new) result }
    ensures only { (fault : JournalFault) → result ≡ Err (OrNoMemory.Fault fault) →
        fault ≡ JournalFault.DiskFault }
{
    keep(disk)?;
    disk.room(9, 2)?;
    write_kept(disk, 0, &header_and_gate(header)).map_err(JournalFault::from)?;
    Ok(())
}

impl<D: Disk> Gated<D> {
    /// Begins a file on a disk that holds nothing. Once it answers Ok, the file keeps that it has
    /// no payload. An error gives the disk back.
    pub fn create(disk: D, header: [u8; 8]) -> Result<Gated<D>, (OrNoMemory<JournalFault>, D)>
        ensures open { IsTrue D.honest → IfOk result (λ gated. IsOpen D.bytes D.past gated
            × (payloads_of header (D.bytes gated.disk) ≡ Ok [])) }
        // At every moment each image that a stop may leave is one that it might have left before,
        // or has at most the bytes of a header and a gate.
        ensures any_moment { IsTrue D.honest → IfOk result (λ gated.
            Leaves (IsBegun (D.past disk)) (D.past disk) (D.past gated.disk)) }
        ensures any_moment_err { IsTrue D.honest → IfErr result (λ e.
            Leaves (IsBegun (D.past disk)) (D.past disk) (D.past e.1)) }
        ensures header { IfOk result (λ gated. gated.header ≡ header) }
        ensures empty { IsTrue D.honest → IsOk result → D.bytes disk ≡ [] }
        ensures quiet { IfOk result (λ gated. D.faults gated.disk ≡ D.faults disk) }
        ensures not_empty { IsTrue D.honest → (len : ℕ) (back : D) →
            result ≡ Err (OrNoMemory.Fault (JournalFault.NotEmpty len), back) →
            (len ≡ length (D.bytes disk)) × (0 < len) }
        ensures not_empty_stays { IsTrue D.honest → (len : ℕ) (back : D) →
            result ≡ Err (OrNoMemory.Fault (JournalFault.NotEmpty len), back) →
            (D.bytes back ≡ D.bytes disk) × (D.past back ≡ D.past disk) }
        ensures disk_fault { (back : D) →
            result ≡ Err (OrNoMemory.Fault JournalFault.DiskFault, back) →
            Rose (D.faults disk) (D.faults back) }
        ensures no_disk_fault { (error : OrNoMemory JournalFault) (back : D) →
            result ≡ Err (error, back) →
            (error ≡ OrNoMemory.Fault JournalFault.DiskFault → ⊥) →
            D.faults back ≡ D.faults disk }
        ensures only { (fault : JournalFault) (back : D) →
            result ≡ Err (OrNoMemory.Fault fault, back) →
            (fault ≡ JournalFault.DiskFault) ⊎ ((len : ℕ) × (fault ≡ JournalFault.NotEmpty len)) }
    {
        let mut disk = disk;
        let len = match disk.len() {
            Ok(len) => len,
            Err(_) => return Err((OrNoMemory::Fault(JournalFault::DiskFault), disk)),
        };
        if len > 0 {
            return Err((OrNoMemory::Fault(JournalFault::NotEmpty { len }), disk));
        }
        match write_header(&mut disk, &header) {
            Ok(()) => {}
            Err(error) => return Err((error, disk)),
        }
        let place = 8;
        Ok(Gated {
            disk,
            header,
            place,
        })
    }
}
