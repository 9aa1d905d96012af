//! Why bytes are not the frame of an entry.

ghost use Rattle.std.specs.Prelude.{◌≡◌};
ghost use Rattle.gl_base.specs.declared.fault.CodeFault.TheVariants.{Cut};
ghost use Rattle.gl_base.specs.declared.or_no_memory.OrNoMemory.TheVariants.{Fault};
ghost use Rattle.gl_entry.specs.declared.fault.EntryFault.TheVariants as entries;
ghost use Rattle.gl_entry.specs.declared.fault.LedgerFault.TheVariants as ledgers;

use gl_base::{CodeFault, CutFault, OrNoMemory};
use thiserror::Error;

/// Why bytes are not the frame of an entry: the first fault from the left. Places are counted from
/// the first byte of the frame, from 0, or on from the place at which the frame begins.
#[derive(Clone, Copy, Debug, PartialEq, Eq, Error)]
pub enum EntryFault {
    /// A field is cut short, too long, or holds what is not allowed there, or bytes are left over.
    /// A field inside the body is short where the body ends, and one inside what the entry records
    /// where that ends.
    #[error("the frame has a bad field")]
    Code(CodeFault),
    /// The version is not 1.
    #[error("the version is not 1")]
    Version,
    /// The flags are not 0.
    #[error("the flags are not 0")]
    Flags,
    /// The kind is none of 1 to 4.
    #[error("the kind is none of an entry")]
    Kind,
    /// The body's size is above 1 MiB.
    #[error("the body of {size} bytes is too large")]
    Size { size: u64 },
    /// The write with this number, counted from 1, does not stand after the one before it.
    #[error("the write {index} is out of order")]
    Writes { index: u32 },
}

/// Why a ledger's reader gave no entry.
#[derive(Clone, Copy, Debug, PartialEq, Eq, Error)]
pub enum LedgerFault {
    /// The source failed.
    #[error("the source failed")]
    Read,
    /// The bytes are not the frame of an entry.
    #[error("the bytes are not the frame of an entry")]
    Entry(EntryFault),
}

impl From<CutFault> for EntryFault {
    ghost from_gives = { λ fault e. e ≡ entries.Code (Cut fault) };

    fn from(fault: CutFault) -> EntryFault {
        EntryFault::Code(CodeFault::Cut(fault))
    }
}

impl From<CodeFault> for EntryFault {
    ghost from_gives = { λ fault e. e ≡ entries.Code fault };

    fn from(fault: CodeFault) -> EntryFault {
        EntryFault::Code(fault)
    }
}

impl From<EntryFault> for OrNoMemory<EntryFault> {
    ghost from_gives = { λ fault e. e ≡ Fault fault };

    fn from(fault: EntryFault) -> OrNoMemory<EntryFault> {
        OrNoMemory::Fault(fault)
    }
}

impl From<EntryFault> for LedgerFault {
    ghost from_gives = { λ fault e. e ≡ ledgers.Entry fault };

    fn from(fault: EntryFault) -> LedgerFault {
        LedgerFault::Entry(fault)
    }
}
