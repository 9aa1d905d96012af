//! Why a node's file can't be opened.

ghost use Rattle.std.specs.Prelude.{◌≡◌};
ghost use Rattle.gl_base.specs.declared.or_no_memory.OrNoMemory.TheVariants.{Fault};
ghost use Rattle.gl_store_book.specs.declared.node_file.fault.OpeningFault.TheVariants as faults;
ghost use Rattle.gl_store_book.specs.declared.node_file.fault.SnapshotOpening.TheVariants as from_snapshot;

use gl_base::OrNoMemory;
use gl_journal::{JournalFault, KeyKind};
use gl_snapshot::SnapshotFault;
use thiserror::Error;

/// Why a node's file can't be opened, or can't begin with an opening ledger.
#[derive(Clone, Copy, Debug, PartialEq, Eq, Error)]
pub enum OpeningFault {
    /// The file is no journal, or can't be kept.
    #[error("{0}")]
    Journal(JournalFault),
    /// The file has a key of another kind than a node's.
    #[error("the key is of the kind {got:?}, not {want:?}")]
    KeyKind { want: KeyKind, got: KeyKind },
    /// The ledger opens no service. The entry with this seqno is the first that breaks a rule;
    /// bytes that are no frame break one, too. Or none does, and it is the last one, which is no
    /// opening signature.
    #[error("the ledger opens no service: {seqno}")]
    NotOpening { seqno: u64 },
    /// The batch that keeps the opening ledger would have `size` bytes, more than a length has room
    /// for.
    #[error("the opening ledger takes {size} bytes of the file")]
    TooLarge { size: u64 },
}

impl From<JournalFault> for OpeningFault {
    ghost from_gives = { λ fault wider. wider ≡ faults.Journal fault };

    fn from(fault: JournalFault) -> OpeningFault {
        OpeningFault::Journal(fault)
    }
}

impl From<OpeningFault> for OrNoMemory<OpeningFault> {
    ghost from_gives = { λ fault e. e ≡ Fault fault };

    fn from(fault: OpeningFault) -> OrNoMemory<OpeningFault> {
        OrNoMemory::Fault(fault)
    }
}

/// Why a node's file can't begin from a snapshot.
#[derive(Clone, Copy, Debug, PartialEq, Eq, Error)]
pub enum SnapshotOpening {
    /// The bytes are no snapshot, or none of the service that its own rows of governance name.
    #[error("{0}")]
    Snapshot(SnapshotFault),
    /// The disk failed, and counted it.
    #[error("the disk failed")]
    DiskFault,
}

impl From<SnapshotFault> for SnapshotOpening {
    ghost from_gives = { λ fault wider. wider ≡ from_snapshot.Snapshot fault };

    fn from(fault: SnapshotFault) -> SnapshotOpening {
        SnapshotOpening::Snapshot(fault)
    }
}
