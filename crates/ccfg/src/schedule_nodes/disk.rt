//! A disk in memory that keeps nothing but its bytes.

ghost use Rattle.std.specs.Prelude.{◌≡◌, ◌+◌, ◌-◌, ◌≤◌, ◌^◌, ◌∷◌, ◌++◌, [], length, true, vec_len, vec_capacity, IfOk};
ghost use Rattle.gl_outside.specs.Disk.{Kept, written};
ghost use Rattle.ccfg.specs.Disk.{past_of};

use gl_outside::{Disk, DiskFailed};
use gl_world::History;
use std::alloc::{AllocError, Global};
use std::marker::Model;
use std::snapshot::Snapshot;

/// What was done to a disk.
#[derive(Drop)]
pub enum Deed {
    /// A piece of so many bytes was written at a place.
    Wrote { at: usize, count: usize },
    /// All was synced, where reads gave these bytes.
    Synced { bytes: Snapshot<Vec<u8>> },
}

/// A disk in memory that never fails. At run time it keeps nothing but its bytes: what was done to
/// them only clauses see.
#[derive(Drop)]
pub struct BytesDisk {
    bytes: Vec<u8>,
    // The place up to which writes take no memory.
    room_end: usize,
    deeds: History<Deed>,
}

impl Model for BytesDisk {
    ghost use Rattle.std.specs.Prelude.{vec_capacity};
    ghost use Rattle.ccfg.specs.Disk.{HeldDisk, IsHeld, past_of};

    ghost Value = { HeldDisk };

    ghost view = { λ d. record {
      bytes = d.bytes.items;
      past = past_of d.deeds.items;
      room_end = d.room_end;
    } };

    ghost invariant = { λ d.
        IsHeld d.bytes.items (vec_capacity d.bytes) d.room_end (past_of d.deeds.items) };
}

/// Writes a piece over what stands at a place, and past the end, in memory that is there.
fn overwrite(bytes: &mut Vec<u8>, at: usize, piece: &[u8])
    requires joined { at ≤ vec_len bytes.old }
    requires room { at + length piece.now ≤ vec_capacity bytes.old }
    ensures written { bytes.new.items ≡ written bytes.old.items at piece.now }
    ensures capacity { vec_capacity bytes.old ≤ vec_capacity bytes.new }
{
    let over = piece.len().min(bytes.len() - at);
    let (prefix, suffix) = piece.split_at(over);
    bytes[at..at + over].copy_from_slice(prefix);
    match bytes.extend_from_slice(suffix) {
        Ok(()) => {}
        Err(_) => {}
    }
}

/// The deeds of a disk that holds these bytes at first, which a stop leaves.
fn begun(bytes: &Vec<u8>) -> History<Deed>
    ensures { past_of result.items ≡ Kept bytes.now.items ∷ [] }
{
    History::new().then(&Deed::Synced {
        bytes: Snapshot::of(bytes),
    })
}

impl BytesDisk {
    /// A disk with nothing on it.
    pub fn new(alloc: Global) -> Self
        ensures bytes { result.bytes ≡ [] }
        ensures past { result.past ≡ Kept [] ∷ [] }
    {
        let bytes = Vec::new(alloc);
        let deeds = begun(&bytes);
        BytesDisk {
            bytes,
            room_end: 0,
            deeds,
        }
    }

    /// A disk that holds these bytes.
    pub fn holding(alloc: Global, bytes: &[u8]) -> Result<Self, AllocError>
        ensures bytes { IfOk result (λ d. d.bytes ≡ bytes.now) }
        ensures past { IfOk result (λ d. d.past ≡ Kept bytes.now ∷ []) }
    {
        let bytes = bytes.to_vec(alloc)?;
        let deeds = begun(&bytes);
        let room_end = bytes.len();
        Ok(BytesDisk {
            bytes,
            room_end,
            deeds,
        })
    }

    /// The bytes that reads give.
    pub fn bytes(&self) -> &[u8]
        ensures { result.now ≡ self.now.bytes }
    {
        &self.bytes
    }
}

impl Disk for BytesDisk {
    ghost honest = { true };

    ghost bytes = { λ d. d.bytes };

    ghost past = { λ d. d.past };

    ghost faults = { λ _. 0 };

    ghost room_end = { λ d. d.room_end };

    ghost room_calls = { λ _. 2 ^ 64 - 1 };

    fn faults(&self) -> u64 {
        0
    }

    fn len(&mut self) -> Result<u64, DiskFailed> {
        Ok(self.bytes.len() as u64)
    }

    fn read_at(&mut self, at: u64, buf: &mut [u8]) -> Result<(), DiskFailed> {
        let at = at as usize;
        buf.copy_from_slice(&self.bytes[at..at + buf.len()]);
        Ok(())
    }

    fn write_at(&mut self, at: u64, piece: &[u8]) -> Result<(), DiskFailed> {
        let at = at as usize;
        overwrite(&mut self.bytes, at, piece);
        let count = piece.len();
        self.deeds = self.deeds.then(&Deed::Wrote { at, count });
        Ok(())
    }

    fn sync(&mut self) -> Result<(), DiskFailed> {
        let bytes = Snapshot::of(&self.bytes);
        self.deeds = self.deeds.then(&Deed::Synced { bytes });
        Ok(())
    }

    /// Where it takes memory, it takes as much again as there is, so that what is written one piece
    /// after the other costs no more than the pieces.
    fn room(&mut self, end: u64, _calls: u64) -> Result<(), AllocError> {
        let end = end as usize;
        if end > self.room_end {
            let end = end.max(self.bytes.len().saturating_mul(2));
            self.bytes.reserve(end - self.bytes.len())?;
            self.room_end = end;
        }
        Ok(())
    }
}
