//! A disk in memory that never fails. It keeps a record of its writes and syncs, so it can tell
//! what a stop may have left at any moment.

ghost use Rattle.std.specs.Prelude.{◌≡◌, ◌+◌, ◌*◌, ◌<◌, ◌≤◌, [], ◌∷◌, ◌++◌, length, true, vec_len, vec_capacity, take, IfOk, OnOk};
ghost use Rattle.gl_outside.specs.Disk.{Kept, Touched, IsImage, written};
ghost use Rattle.gl_outside.specs.Tear.{left_by, left_after};
ghost use Rattle.gl_outside.specs.Record.{reads_after, past_of, gaps_of, pieces_end, piece_end, done_by};

use crate::disk::{Disk, DiskFailed};
use crate::tear::{Tear, tear_write};
use std::alloc::{AllocError, Global};

/// A call on record. The piece of a write is those bytes of all pieces that begin at `start`.
#[derive(Clone, Copy, Debug, PartialEq, Eq)]
pub enum Call {
    Wrote {
        at: usize,
        start: usize,
        count: usize,
    },
    /// A write that failed. Reads give what they gave.
    Lost {
        at: usize,
        start: usize,
        count: usize,
    },
    Synced,
}

/// A disk in memory that never fails.
#[derive(Debug, Drop)]
pub struct SureDisk {
    /// The bytes that reads give.
    pub bytes: Vec<u8>,
    /// What they were at first.
    pub first: Vec<u8>,
    /// The writes and syncs, the oldest first.
    pub calls: Vec<Call>,
    /// The pieces of all writes, one after the other.
    pub pieces: Vec<u8>,
    /// The place up to which writes take no memory.
    pub room_end: usize,
    /// How many writes and syncs take none.
    pub room_calls: usize,
    ghost reads: { bytes.items ≡ reads_after pieces.items first.items calls.items },
    // So the bytes as they read are among those that a stop may leave.
    ghost joined: { gaps_of pieces.items first.items calls.items ≡ 0 },
    ghost pieces_there: { pieces_end calls.items ≤ vec_len pieces },
    ghost bytes_within: { vec_len bytes ≤ room_end },
    ghost bytes_fit: { room_end ≤ vec_capacity bytes },
    ghost calls_fit: { vec_len calls + room_calls ≤ vec_capacity calls },
    ghost pieces_fit: { vec_len pieces + room_calls * room_end ≤ vec_capacity pieces },
}

impl SureDisk {
    /// A disk with nothing on it.
    pub fn new(alloc: Global) -> Self
        ensures bytes { result.bytes.items ≡ [] }
        ensures past { past_of result.first.items result.pieces.items result.calls.items
            ≡ Kept [] ∷ [] }
        ensures calls { result.calls.items ≡ [] }
    {
        SureDisk {
            bytes: Vec::new(alloc),
            first: Vec::new(alloc),
            calls: Vec::new(alloc),
            pieces: Vec::new(alloc),
            room_end: 0,
            room_calls: 0,
        }
    }

    /// A disk that holds these bytes.
    pub fn holding(alloc: Global, bytes: &[u8]) -> Result<Self, AllocError>
        ensures bytes { IfOk result (λ d. d.bytes.items ≡ bytes.now) }
        ensures past { IfOk result (λ d. past_of d.first.items d.pieces.items d.calls.items
            ≡ Kept bytes.now ∷ []) }
        ensures calls { IfOk result (λ d. d.calls.items ≡ []) }
    {
        Ok(SureDisk {
            bytes: bytes.to_vec(alloc)?,
            first: bytes.to_vec(alloc)?,
            calls: Vec::new(alloc),
            pieces: Vec::new(alloc),
            room_end: bytes.len(),
            room_calls: 0,
        })
    }

    /// What a stop may leave once so many of the calls were done. All writes after the last sync
    /// are torn in the same way.
    pub fn image(&self, alloc: Global, calls: usize, tear: Tear) -> Result<Vec<u8>, AllocError>
        requires { calls ≤ vec_len self.now.calls }
        ensures image { IfOk result (λ image. IsImage
            (past_of self.now.first.items self.now.pieces.items (take calls self.now.calls.items))
            image.items) }
        ensures left { IfOk result (λ image. image.items
            ≡ left_after self.now.pieces.items tear self.now.first.items self.now.first.items
            (take calls self.now.calls.items)) }
    {
        let mut bytes = self.first.to_vec(alloc)?;
        let mut image = self.first.to_vec(alloc)?;
        let (done, _) = self.calls.split_at(calls);
        for call in done {
            replay(alloc, &self.pieces, *call, tear, &mut bytes, &mut image)?;
        }
        Ok(image)
    }

    /// A write that fails and does nothing.
    pub(crate) fn lose(&mut self, at: u64, piece: &[u8])
        requires room { at + length piece.now ≤ self.old.room_end }
        requires calls { 0 < self.old.room_calls }
        ensures past { past_of self.new.first.items self.new.pieces.items self.new.calls.items
            ≡ Touched at (length piece.now)
            ∷ past_of self.old.first.items self.old.pieces.items self.old.calls.items }
        ensures bytes { self.new.bytes.items ≡ self.old.bytes.items }
        ensures room { (self.new.room_end ≡ self.old.room_end)
            × (self.old.room_calls ≡ self.new.room_calls + 1) }
    {
        let start = self.pieces.len();
        append(&mut self.pieces, piece);
        note(
            &mut self.calls,
            Call::Lost {
                at: at as usize,
                start,
                count: piece.len(),
            },
        );
        self.room_calls -= 1;
    }
}

/// Puts bytes after others, in memory that is there.
fn append(list: &mut Vec<u8>, piece: &[u8])
    requires { vec_len list.old + length piece.now ≤ vec_capacity list.old }
    ensures items { list.new.items ≡ list.old.items ++ piece.now }
    ensures capacity { vec_capacity list.old ≤ vec_capacity list.new }
{
    match list.extend_from_slice(piece) {
        Ok(()) => {}
        Err(_) => {}
    }
}

/// Puts a call on record, in memory that is there.
fn note(calls: &mut Vec<Call>, call: Call)
    requires { vec_len calls.old < vec_capacity calls.old }
    ensures items { calls.new.items ≡ calls.old.items ++ call ∷ [] }
    ensures capacity { vec_capacity calls.old ≤ vec_capacity calls.new }
{
    match calls.push(call) {
        Ok(()) => {}
        Err(_) => {}
    }
}

/// Writes a piece over what stands at a place, and past the end, in memory that is there.
pub(crate) fn overwrite(bytes: &mut Vec<u8>, at: usize, piece: &[u8])
    requires joined { at ≤ vec_len bytes.old }
    requires room { at + length piece.now ≤ vec_capacity bytes.old }
    ensures written { bytes.new.items ≡ written bytes.old.items at piece.now }
    ensures capacity { vec_capacity bytes.old ≤ vec_capacity bytes.new }
{
    let over = piece.len().min(bytes.len() - at);
    let (prefix, suffix) = piece.split_at(over);
    bytes[at..at + over].copy_from_slice(prefix);
    append(bytes, suffix);
}

/// Does a call on record again: to the bytes that reads give, and to what a stop leaves.
fn replay(
    alloc: Global,
    pieces: &[u8],
    call: Call,
    tear: Tear,
    bytes: &mut Vec<u8>,
    image: &mut Vec<u8>,
) -> Result<(), AllocError>
    requires { piece_end call ≤ length pieces.now }
    ensures bytes { OnOk result (bytes.new.items ≡ done_by pieces.now bytes.old.items call) }
    ensures left { OnOk result
        (image.new.items ≡ left_by pieces.now tear bytes.old.items image.old.items call) }
{
    match call {
        Call::Wrote { at, start, count } => {
            let piece = &pieces[start..start + count];
            bytes.reserve(piece.len())?;
            let at_most = at.min(bytes.len());
            overwrite(bytes, at_most, piece);
            tear_write(alloc, image, at, piece, tear)
        }
        Call::Lost { at, start, count } => {
            tear_write(alloc, image, at, &pieces[start..start + count], tear)
        }
        Call::Synced => {
            *image = bytes.to_vec(alloc)?;
            Ok(())
        }
    }
}

impl Disk for SureDisk {
    ghost honest = { true };

    ghost bytes = { λ d. d.bytes.items };

    ghost past = { λ d. past_of d.first.items d.pieces.items d.calls.items };

    ghost faults = { λ _. 0 };

    ghost room_end = { λ d. d.room_end };

    ghost room_calls = { λ d. d.room_calls };

    fn faults(&self) -> u64 {
        0
    }

    fn len(&mut self) -> Result<u64, DiskFailed> {
        Ok(self.bytes.len() as u64)
    }

    fn read_at(&mut self, at: u64, buf: &mut [u8]) -> Result<(), DiskFailed> {
        let at = at as usize;
        buf.copy_from_slice(&self.bytes[at..at + buf.len()]);
        Ok(())
    }

    fn write_at(&mut self, at: u64, piece: &[u8]) -> Result<(), DiskFailed> {
        let start = self.pieces.len();
        append(&mut self.pieces, piece);
        let at = at as usize;
        let count = piece.len();
        note(&mut self.calls, Call::Wrote { at, start, count });
        overwrite(&mut self.bytes, at, piece);
        self.room_calls -= 1;
        Ok(())
    }

    fn sync(&mut self) -> Result<(), DiskFailed> {
        note(&mut self.calls, Call::Synced);
        self.room_calls -= 1;
        Ok(())
    }

    fn room(&mut self, end: u64, calls: u64) -> Result<(), AllocError> {
        let end = (end as usize).max(self.room_end);
        let calls = (calls as usize).max(self.room_calls);
        let Some(pieces) = calls.checked_mul(end) else {
            return Err(AllocError);
        };
        self.bytes.reserve(end - self.bytes.len())?;
        self.calls.reserve(calls)?;
        self.pieces.reserve(pieces)?;
        self.room_end = end;
        self.room_calls = calls;
        Ok(())
    }
}
