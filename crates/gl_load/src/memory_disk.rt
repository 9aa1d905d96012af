//! A disk in memory that keeps nothing but its bytes.

ghost use Rattle.std.specs.Prelude.{◌≡◌, ◌+◌, ◌-◌, ◌≤◌, ◌^◌, [], false, length, max, vec_len, vec_capacity};

use gl_outside::{Disk, DiskFailed};
use std::alloc::{AllocError, Global};

/// A disk in memory that never fails, and keeps nothing but its bytes. As it has no record of what
/// was done to them, it tells nothing of them in contracts: it isn't an honest one.
#[derive(Debug, Drop)]
pub struct MemoryDisk {
    /// The bytes that reads give.
    pub bytes: Vec<u8>,
    /// The place up to which writes take no memory.
    pub room_end: usize,
    ghost within: { vec_len bytes ≤ room_end },
    ghost fits: { room_end ≤ vec_capacity bytes },
}

impl MemoryDisk {
    /// A disk with nothing on it.
    pub fn new(alloc: Global) -> Self
        ensures { result.bytes.items ≡ [] }
    {
        MemoryDisk {
            bytes: Vec::new(alloc),
            room_end: 0,
        }
    }
}

/// Writes a piece over what stands at a place, and past the end, in memory that is there.
fn overwrite(bytes: &mut Vec<u8>, at: usize, piece: &[u8])
    requires joined { at ≤ vec_len bytes.old }
    requires room { at + length piece.now ≤ vec_capacity bytes.old }
    ensures capacity { vec_capacity bytes.old ≤ vec_capacity bytes.new }
    ensures len { vec_len bytes.new ≡ max (vec_len bytes.old) (at + length piece.now) }
{
    let over = piece.len().min(bytes.len() - at);
    let (prefix, suffix) = piece.split_at(over);
    bytes[at..at + over].copy_from_slice(prefix);
    match bytes.extend_from_slice(suffix) {
        Ok(()) => {}
        Err(_) => {}
    }
}

impl Disk for MemoryDisk {
    ghost honest = { false };

    ghost bytes = { λ _. [] };

    ghost past = { λ _. [] };

    ghost faults = { λ _. 0 };

    ghost room_end = { λ d. d.room_end };

    ghost room_calls = { λ _. 2 ^ 64 - 1 };

    fn faults(&self) -> u64 {
        0
    }

    fn len(&mut self) -> Result<u64, DiskFailed> {
        Ok(self.bytes.len() as u64)
    }

    /// Past the end there is nothing to read: the rest of the buffer stays as it was.
    fn read_at(&mut self, at: u64, buf: &mut [u8]) -> Result<(), DiskFailed> {
        let at = (at as usize).min(self.bytes.len());
        let count = buf.len().min(self.bytes.len() - at);
        let (prefix, _) = buf.split_at_mut(count);
        prefix.copy_from_slice(&self.bytes[at..at + count]);
        Ok(())
    }

    /// A piece for a place past the end is put at the end.
    fn write_at(&mut self, at: u64, piece: &[u8]) -> Result<(), DiskFailed> {
        let at = (at as usize).min(self.bytes.len());
        overwrite(&mut self.bytes, at, piece);
        Ok(())
    }

    fn sync(&mut self) -> Result<(), DiskFailed> {
        Ok(())
    }

    /// Where it takes memory, it takes as much again as there is, so that what is written one piece
    /// after the other costs no more than the pieces.
    fn room(&mut self, end: u64, _calls: u64) -> Result<(), AllocError> {
        let end = end as usize;
        if end > self.room_end {
            let end = end.max(self.bytes.len().saturating_mul(2));
            self.bytes.reserve(end - self.bytes.len())?;
            self.room_end = end;
        }
        Ok(())
    }
}
