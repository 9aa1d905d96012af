//! The entries of a ledger, read from a source.

ghost use Rattle.std.specs.Prelude.{◌≡◌, ◌⊎◌, ◌+◌, ◌≤◌, [], true, None, Some, Ok, Err, length, drop, IsTrue, IfOk, IfSome, OnOk, OnErr};
ghost use Rattle.std.specs.Io.KnownBytes.{Keeps};
ghost use Rattle.gl_outside.specs.Fault.{Rose};
ghost use Rattle.gl_entry.specs.Entry.{body_limit, is_entry};
ghost use Rattle.gl_entry.specs.Stream.{next_entry, to_read, GivesNext, wanted, IsSettled, TakesNext};
ghost use Rattle.gl_entry.specs.declared.fault.EntryFault.{EntryFault as Fault};

use crate::buffer::ReadBuffer;
use crate::entry::Entry;
use crate::fault::{EntryFault, LedgerFault};
use crate::frame::read_size;
use gl_base::{Cut, OrNoMemory};
use gl_outside::{Got, Source};
use std::alloc::Global;

/// How many bytes a frame has before its body.
const HEAD_LEN: usize = 8;

/// How many bytes it takes to know the next entry.
fn wanted(bytes: &[u8]) -> usize
    ensures exact { result ≡ wanted bytes.now }
    ensures limit { result ≤ 8 + body_limit }
{
    match read_size(&mut Cut::new(bytes)) {
        Ok(size) => HEAD_LEN + size as usize,
        Err(_) => HEAD_LEN,
    }
}

/// Reads on until the next entry is known.
fn fill<S: Source>(source: &mut S, kept: &mut ReadBuffer) -> Result<(), OrNoMemory<LedgerFault>>
    ensures kept { Keeps (to_read kept.old (S.left source.old))
        (to_read kept.new (S.left source.new)) }
    ensures settled { OnOk result (IsSettled kept.new (S.left source.new) (S.ended source.new)) }
    ensures no_fault { (f : Fault) → result ≡ Err (OrNoMemory.Fault (LedgerFault.Entry f)) → ⊥ }
    ensures failed { result ≡ Err (OrNoMemory.Fault LedgerFault.Read) →
        Rose (S.faults source.old) (S.faults source.new) }
    ensures quiet { (result ≡ Err (OrNoMemory.Fault LedgerFault.Read) → ⊥) →
        S.faults source.new ≡ S.faults source.old }
    ensures never_falls { S.faults source.old ≤ S.faults source.new }
{
    while kept.as_slice().len() < wanted(kept.as_slice()) {
        match kept.read_from(source)? {
            Got::Bytes(0) | Got::End => return Ok(()),
            Got::Bytes(_) => {}
            Got::Failed => return Err(OrNoMemory::Fault(LedgerFault::Read)),
        }
    }
    Ok(())
}

/// The first entry of the bytes, and how many bytes its frame has.
fn first_entry(alloc: Global, bytes: &[u8]) -> Result<(Entry, usize), OrNoMemory<EntryFault>>
    requires { 1 ≤ length bytes.now }
    ensures found { IfOk result (λ read.
        next_entry bytes.now ≡ Ok (Some (read.0, drop read.1 bytes.now))) }
    ensures within { IfOk result (λ read. read.1 ≤ length bytes.now) }
    ensures valid { IfOk result (λ read. IsTrue (is_entry read.0)) }
    ensures fault { (f : Fault) → result ≡ Err (OrNoMemory.Fault f) → next_entry bytes.now ≡ Err f }
{
    Entry::decode(alloc, bytes)
}

/// Takes the next entry from the bytes, if there are any.
fn take_next(alloc: Global, kept: &mut ReadBuffer) -> Result<Option<Entry>, OrNoMemory<EntryFault>>
    ensures taken { IfOk result (λ read. TakesNext kept.old read kept.new) }
    ensures valid { IfOk result (λ read. IfSome read (λ e. IsTrue (is_entry e))) }
    ensures fault { (f : Fault) → result ≡ Err (OrNoMemory.Fault f) → next_entry kept.old ≡ Err f }
    ensures err { OnErr result (kept.new ≡ kept.old) }
{
    if kept.as_slice().is_empty() {
        return Ok(None);
    }
    let (entry, size) = first_entry(alloc, kept.as_slice())?;
    kept.take(size);
    Ok(Some(entry))
}

/// The next entry of a source whose bytes were read as far as they are kept, or `None` where the
/// source gave its end and no byte is left. A fault takes nothing: the next call gives it again. A
/// source that failed counted that, and has lost nothing of what it told; nor is anything lost
/// where memory runs out.
pub fn read_entry<S: Source>(
    alloc: Global,
    source: &mut S,
    kept: &mut ReadBuffer,
) -> Result<Option<Entry>, OrNoMemory<LedgerFault>>
    // Where the source tells what it has left, the entries are those of these bytes, however they
    // come.
    ensures entry { IfOk result (λ read.
        IfSome (to_read kept.old (S.left source.old)) (λ bytes.
        GivesNext bytes read (to_read kept.new (S.left source.new)))) }
    ensures valid { IfOk result (λ read. IfSome read (λ e. IsTrue (is_entry e))) }
    ensures none { result ≡ Ok None → (S.ended source.new ≡ true) × (kept.new ≡ []) }
    ensures fault { (f : Fault) → result ≡ Err (OrNoMemory.Fault (LedgerFault.Entry f)) →
        IfSome (to_read kept.old (S.left source.old)) (λ bytes.
        (next_entry bytes ≡ Err f)
        × (to_read kept.new (S.left source.new) ≡ Some bytes)) }
    // A fault is that of the bytes that are kept, also where the source doesn't tell what it has
    // left.
    ensures refused { (f : Fault) → result ≡ Err (OrNoMemory.Fault (LedgerFault.Entry f)) →
        next_entry kept.new ≡ Err f }
    ensures err { OnErr result (Keeps (to_read kept.old (S.left source.old))
        (to_read kept.new (S.left source.new))) }
    ensures failed { result ≡ Err (OrNoMemory.Fault LedgerFault.Read) →
        Rose (S.faults source.old) (S.faults source.new) }
    ensures quiet { (result ≡ Err (OrNoMemory.Fault LedgerFault.Read) → ⊥) →
        S.faults source.new ≡ S.faults source.old }
    ensures never_falls { S.faults source.old ≤ S.faults source.new }
{
    fill(source, kept)?;
    match take_next(alloc, kept) {
        Ok(read) => Ok(read),
        Err(error) => Err(error.widen()),
    }
}

/// Reads the entries of a ledger from a source, one frame after the other, whatever pieces the
/// source gives. It keeps the bytes that it has read and not yet taken.
#[derive(Debug, Drop)]
pub struct LedgerReader<S> {
    pub source: S,
    pub kept: ReadBuffer,
    alloc: Global,
}

impl<S: Source> LedgerReader<S> {
    /// A reader that has read nothing yet.
    pub fn new(alloc: Global, source: S) -> Self
        ensures source { result.source ≡ source }
        ensures kept { result.kept ≡ [] }
    {
        LedgerReader {
            source,
            kept: ReadBuffer::new(alloc),
            alloc,
        }
    }

    /// The next entry, or `None` where the source gave its end and no byte is left, as `read_entry`
    /// reads it.
    pub fn next(&mut self) -> Result<Option<Entry>, OrNoMemory<LedgerFault>>
        // Where the source tells what it has left, the entries are those of these bytes, however
        // they come.
        ensures entry { IfOk result (λ read.
            IfSome (to_read self.old.kept (S.left self.old.source)) (λ bytes.
            GivesNext bytes read (to_read self.new.kept (S.left self.new.source)))) }
        ensures valid { IfOk result (λ read. IfSome read (λ e. IsTrue (is_entry e))) }
        ensures none { result ≡ Ok None → (S.ended self.new.source ≡ true) × (self.new.kept ≡ []) }
        ensures fault { (f : Fault) → result ≡ Err (OrNoMemory.Fault (LedgerFault.Entry f)) →
            IfSome (to_read self.old.kept (S.left self.old.source)) (λ bytes.
            (next_entry bytes ≡ Err f)
            × (to_read self.new.kept (S.left self.new.source) ≡ Some bytes)) }
        // A fault is that of the bytes that are kept, also where the source doesn't tell what it
        // has left.
        ensures refused { (f : Fault) → result ≡ Err (OrNoMemory.Fault (LedgerFault.Entry f)) →
            next_entry self.new.kept ≡ Err f }
        ensures err { OnErr result (Keeps (to_read self.old.kept (S.left self.old.source))
            (to_read self.new.kept (S.left self.new.source))) }
        ensures failed { result ≡ Err (OrNoMemory.Fault LedgerFault.Read) →
            Rose (S.faults self.old.source) (S.faults self.new.source) }
        ensures quiet { (result ≡ Err (OrNoMemory.Fault LedgerFault.Read) → ⊥) →
            S.faults self.new.source ≡ S.faults self.old.source }
        ensures never_falls { S.faults self.old.source ≤ S.faults self.new.source }
    {
        read_entry(self.alloc, &mut self.source, &mut self.kept)
    }
}
