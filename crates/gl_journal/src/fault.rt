//! Why a file is no journal, or can't be kept.

ghost use Rattle.std.specs.Prelude.{◌≡◌};
ghost use Rattle.gl_base.specs.declared.or_no_memory.OrNoMemory.TheVariants.{Fault};
ghost use Rattle.gl_journal.specs.declared.fault.JournalFault.TheVariants as faults;

use gl_base::OrNoMemory;
use gl_outside::DiskFailed;
use thiserror::Error;

/// Why a file is no journal, or can't be kept. Places are counted in bytes from the file's first,
/// from 0.
#[derive(Clone, Copy, Debug, PartialEq, Eq, Error)]
pub enum JournalFault {
    /// At `at` the file lacks a byte of its header, or has another there. At 8: its first batch
    /// doesn't begin with a key.
    #[error("the file is no journal from {at} on")]
    NotJournal { at: u64 },
    /// The batch whose length stands at `at` is cut; or the record whose kind stands there isn't
    /// encoded as its kind asks, or doesn't follow from those before it.
    #[error("the file has a bad record at {at}")]
    BadRecord { at: u64 },
    /// The disk failed, and counted it.
    #[error("the disk failed")]
    DiskFault,
    /// The disk on which a file is to begin has `len` bytes.
    #[error("the disk holds {len} bytes")]
    NotEmpty { len: u64 },
}

impl From<DiskFailed> for JournalFault {
    ghost from_gives = { λ _ fault. fault ≡ faults.DiskFault };

    fn from(_failed: DiskFailed) -> JournalFault {
        JournalFault::DiskFault
    }
}

impl From<JournalFault> for OrNoMemory<JournalFault> {
    ghost from_gives = { λ fault e. e ≡ Fault fault };

    fn from(fault: JournalFault) -> OrNoMemory<JournalFault> {
        OrNoMemory::Fault(fault)
    }
}
