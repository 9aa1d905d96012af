//! Bytes that were read from a source and not yet taken.

ghost use Rattle.std.specs.Prelude.{◌≡◌, ◌+◌, ◌*◌, ◌<◌, ◌≤◌, ◌^◌, ◌++◌, [], true, length, drop, IsTrue, IfOk, OnErr, Ok};
ghost use Rattle.std.specs.Io.KnownBytes.{IsAtEnd, Keeps};
ghost use Rattle.gl_outside.specs.Fault.{Rose};
ghost use Rattle.gl_outside.specs.Source.{given_count, gave_end};
ghost use Rattle.gl_entry.specs.Stream.{to_read};

use gl_outside::{Got, Source};
use std::alloc::{AllocError, Global};
use std::marker::Model;

/// The most bytes that one read gives.
const PIECE: usize = 65536;

/// Bytes that were read, of which the front was taken.
#[derive(Debug, Drop)]
pub struct ReadBuffer {
    buffer: Vec<u8>,
    /// How many bytes were taken.
    start: usize,
}

impl Model for ReadBuffer {
    ghost use Rattle.std.specs.Prelude.{ℕ, List, drop, length, ◌≤◌};

    ghost Value = { List ℕ };

    ghost view = { λ k. drop k.start k.buffer.items };

    ghost invariant = { λ k. k.start ≤ length k.buffer.items };
}

/// Moves what stands after the first bytes to the start, in their place.
fn drop_prefix(buffer: &mut Vec<u8>, count: usize)
    requires { count ≤ length buffer.old.items }
    ensures { buffer.new.items ≡ drop count buffer.old.items }
{
    if count == 0 {
        return;
    }
    let rest = buffer.len() - count;
    buffer.copy_within(count.., 0);
    buffer.truncate(rest);
}

/// Reads one piece to the end of the buffer. Where memory runs out nothing was read.
fn read_piece<S: Source>(source: &mut S, buffer: &mut Vec<u8>) -> Result<Got, AllocError>
    ensures kept { Keeps (to_read buffer.old.items (S.left source.old))
        (to_read buffer.new.items (S.left source.new)) }
    ensures more { IfOk result (λ got.
        length buffer.new.items ≡ length buffer.old.items + given_count got) }
    ensures end { IfOk result (λ got. IsTrue (gave_end got 65536) →
        IsAtEnd (S.left source.new) × (S.ended source.new ≡ true)) }
    ensures failed { result ≡ Ok Got.Failed → Rose (S.faults source.old) (S.faults source.new) }
    ensures quiet { (result ≡ Ok Got.Failed → ⊥) → S.faults source.new ≡ S.faults source.old }
    ensures never_falls { S.faults source.old ≤ S.faults source.new }
{
    buffer.reserve(PIECE)?;
    let mut piece = [0; PIECE];
    let got = source.read(&mut piece);
    if let Got::Bytes(count) = got {
        let (prefix, _) = piece.split_at(count);
        buffer.extend_from_slice(prefix)?;
    }
    Ok(got)
}

impl ReadBuffer {
    /// No bytes.
    pub fn new(alloc: Global) -> Self
        ensures { result ≡ [] }
    {
        ReadBuffer {
            buffer: Vec::new(alloc),
            start: 0,
        }
    }

    /// The bytes that were not yet taken.
    pub(crate) fn as_slice(&self) -> &[u8]
        ensures { result.now ≡ self.now }
    {
        let (_, rest) = self.buffer.split_at(self.start);
        rest
    }

    /// Takes bytes from the start. Moves none.
    pub(crate) fn take(&mut self, count: usize)
        requires { count ≤ length self.old }
        ensures { self.new ≡ drop count self.old }
    {
        self.start += count;
    }

    /// Reads one piece after the others. Where memory runs out nothing was read. The bytes move to
    /// the start of the buffer, if any were taken since the last read.
    pub(crate) fn read_from<S: Source>(&mut self, source: &mut S) -> Result<Got, AllocError>
        ensures kept { Keeps (to_read self.old (S.left source.old))
            (to_read self.new (S.left source.new)) }
        ensures more { IfOk result (λ got. length self.new ≡ length self.old + given_count got) }
        ensures end { IfOk result (λ got. IsTrue (gave_end got 65536) →
            IsAtEnd (S.left source.new) × (S.ended source.new ≡ true)) }
        ensures failed { result ≡ Ok Got.Failed → Rose (S.faults source.old) (S.faults source.new) }
        ensures quiet { (result ≡ Ok Got.Failed → ⊥) → S.faults source.new ≡ S.faults source.old }
        ensures never_falls { S.faults source.old ≤ S.faults source.new }
    {
        drop_prefix(&mut self.buffer, self.start);
        self.start = 0;
        read_piece(source, &mut self.buffer)
    }
}
