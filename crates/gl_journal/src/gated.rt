//! A file of payloads after gates. A payload is written and kept after a closed gate, in one write
//! with its length and the next closed gate, and then its gate is opened by a write of its own.

ghost use Rattle.std.specs.Prelude.{◌≡◌, ◌+◌, ◌^◌, ◌<◌, ◌≤◌, [], ◌∷◌, ◌++◌, length, vec_len, vec_capacity, IsTrue, OnOk};
ghost use Rattle.gl_outside.specs.Fault.{Counts};
ghost use Rattle.gl_outside.specs.Disk.{Torn, LeavesOnly, Leaves, written};
ghost use Rattle.gl_journal.specs.Gates.{body_of, payload_in, payloads_of, with_last};
ghost use Rattle.gl_journal.specs.Stops.{IsOpen, OpensTo, HasPayloadRoom};

use gl_outside::{Disk, DiskFailed};
use std::alloc::AllocError;

/// A file of payloads after gates, on a disk. The first gate stands after the header.
#[derive(Debug, Drop)]
pub struct Gated<D> {
    pub disk: D,
    /// What the file begins with.
    pub header: [u8; 8],
    /// The place of the closed gate after the last payload.
    pub place: u64,
}

/// Puts the length of a payload over the four bytes before it, and a closed gate after it.
#[tactic(auto, unfolding(gl_base::specs::LittleEndian::little_endian))]
fn seal(batch: &mut Vec<u8>)
    requires prefix { 4 ≤ vec_len batch.old }
    requires small { length (payload_in batch.old) < 2 ^ 32 }
    requires gate { vec_len batch.old < vec_capacity batch.old }
    ensures { batch.new.items ≡ body_of (payload_in batch.old) ++ 0 ∷ [] }
{
    let len = (batch.len() - 4) as u32;
    let (prefix, _) = batch.split_at_mut(4);
    prefix.copy_from_slice(&len.to_le_bytes());
    batch.push_reserved(0);
}

/// Writes a piece and keeps it.
pub(crate) fn write_kept<D: Disk>(disk: &mut D, at: u64, piece: &[u8]) -> Result<(), DiskFailed>
    requires joined { IsTrue D.honest → at ≤ length (D.bytes disk.old) }
    requires kept { IsTrue D.honest → LeavesOnly (D.past disk.old) (D.bytes disk.old) }
    requires room { at + length piece.now ≤ D.room_end disk.old }
    requires calls { 2 ≤ D.room_calls disk.old }

    ensures written { IsTrue D.honest →
        OnOk result (D.bytes disk.new ≡ written (D.bytes disk.old) at piece.now) }
    ensures kept { IsTrue D.honest →
        OnOk result (LeavesOnly (D.past disk.new) (D.bytes disk.new)) }
    // Until it is kept, a stop leaves what stood there but for the range that is written.
    ensures torn { IsTrue D.honest →
        Leaves (Torn at (length piece.now) (D.bytes disk.old))
        (D.past disk.old) (D.past disk.new) }
    ensures room { (D.room_end disk.new ≡ D.room_end disk.old)
        × (D.room_calls disk.old ≤ D.room_calls disk.new + 2) }
    ensures faults { Counts (D.faults disk.old) (D.faults disk.new) result }
{
    disk.write_at(at, piece)?;
    disk.sync()
}

impl<D: Disk> Gated<D> {
    /// Takes the memory for one more payload of so many bytes.
    pub fn room(&mut self, len: u64) -> Result<(), AllocError>
        ensures room { OnOk result (HasPayloadRoom D.room_end D.room_calls self.new len) }
        ensures bytes { IsTrue D.honest → D.bytes self.new.disk ≡ D.bytes self.old.disk }
        ensures past { IsTrue D.honest → D.past self.new.disk ≡ D.past self.old.disk }
        ensures same { (self.new.header ≡ self.old.header) × (self.new.place ≡ self.old.place) }
        ensures faults { D.faults self.new.disk ≡ D.faults self.old.disk }
    {
        let Some(end) = self.place.checked_add(6) else {
            return Err(AllocError);
        };
        let Some(end) = end.checked_add(len) else {
            return Err(AllocError);
        };
        self.disk.room(end, 4)
    }

    /// Adds a payload, which stands after four bytes for its length, in memory that was taken
    /// before. Once it answers Ok, the file keeps it whatever comes. After a failure the file isn't
    /// to be used again: what a stop leaves opens with this payload or without it.
    pub fn append(&mut self, batch: &mut Vec<u8>) -> Result<(), DiskFailed>
        requires open { IsTrue D.honest → IsOpen D.bytes D.past self.old }
        requires prefix { 4 ≤ vec_len batch.old }
        requires small { length (payload_in batch.old) < 2 ^ 32 }
        requires gate { vec_len batch.old < vec_capacity batch.old }
        requires room { HasPayloadRoom D.room_end D.room_calls self.old
            (length (payload_in batch.old)) }

        ensures open { IsTrue D.honest → OnOk result (IsOpen D.bytes D.past self.new) }
        ensures kept { IsTrue D.honest → OnOk result
            (payloads_of self.new.header (D.bytes self.new.disk) ≡ with_last
            (payload_in batch.old) (payloads_of self.old.header (D.bytes self.old.disk))) }
        // At every moment each image that a stop may leave opens to the payloads before, or to
        // those with this one.
        ensures any_moment { IsTrue D.honest →
            Leaves (OpensTo self.old.header (D.bytes self.old.disk) (payload_in batch.old))
            (D.past self.old.disk) (D.past self.new.disk) }
        ensures header { self.new.header ≡ self.old.header }
        ensures faults { Counts (D.faults self.old.disk) (D.faults self.new.disk) result }
    {
        seal(batch);
        write_kept(&mut self.disk, self.place + 1, batch)?;
        write_kept(&mut self.disk, self.place, &[1])?;
        self.place += batch.len() as u64;
        Ok(())
    }
}
