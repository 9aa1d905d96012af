//! A ledger file, read entry by entry.

ghost use Rattle.std.specs.Prelude.{◌≡◌, ◌≢◌, ◌≤◌, true, Err, Ok, IfOk, OnErr};
ghost use Rattle.std.specs.Io.KnownBytes.{Keeps};
ghost use Rattle.gl_base.specs.declared.or_no_memory.OrNoMemory.TheVariants.{Fault};
ghost use Rattle.gl_outside.specs.Fault.{Rose};
ghost use Rattle.gl_entry.specs.Stream.{to_read};
ghost use Rattle.gl_entry.specs.declared.next.ReadFault.{ReadFault as ReadFaults};
ghost use Rattle.gl_entry.specs.FileReading.{IsNext};

use crate::{Entry, LedgerFault, ReadBuffer, read_entry};
use gl_base::OrNoMemory;
use gl_outside::Source;
use std::alloc::Global;
use thiserror::Error;

/// The source failed.
#[derive(Clone, Copy, Debug, PartialEq, Eq, Error)]
#[error("the source failed")]
pub struct ReadFault;

/// What a file goes on with.
#[derive(Debug, Drop)]
pub enum Next {
    Entry(Entry),
    /// Its end.
    End,
    /// Bytes that are no frame.
    Unread,
}

/// What the file goes on with that a source gives, after the bytes that were read and are kept: its
/// next entry, its end, or bytes that are no frame. It ends where the source gave its end and no
/// byte is left. Bytes that are no frame stay where they are: the next call tells them again. A
/// source that failed counted that, and has lost nothing of what it told; nor is anything lost
/// where memory runs out.
pub fn read_next<S: Source>(
    alloc: Global,
    source: &mut S,
    kept: &mut ReadBuffer,
) -> Result<Next, OrNoMemory<ReadFault>>
    ensures next { IfOk result (λ next. IsNext (to_read kept.old (S.left source.old)) next
        (to_read kept.new (S.left source.new))) }
    ensures ended { result ≡ Ok Next.End → S.ended source.new ≡ true }
    ensures unread { result ≡ Ok Next.Unread → Keeps (to_read kept.old (S.left source.old))
        (to_read kept.new (S.left source.new)) }
    ensures err { OnErr result (Keeps (to_read kept.old (S.left source.old))
        (to_read kept.new (S.left source.new))) }
    ensures failed { (fault : ReadFaults) → result ≡ Err (Fault fault) →
        Rose (S.faults source.old) (S.faults source.new) }
    ensures quiet { ((fault : ReadFaults) → result ≢ Err (Fault fault)) →
        S.faults source.new ≡ S.faults source.old }
    ensures never_falls { S.faults source.old ≤ S.faults source.new }
{
    match read_entry(alloc, source, kept) {
        Ok(Some(entry)) => Ok(Next::Entry(entry)),
        Ok(None) => Ok(Next::End),
        Err(OrNoMemory::Fault(LedgerFault::Entry(_))) => Ok(Next::Unread),
        Err(OrNoMemory::Fault(LedgerFault::Read)) => Err(OrNoMemory::Fault(ReadFault)),
        Err(OrNoMemory::NoMemory) => Err(OrNoMemory::NoMemory),
    }
}
