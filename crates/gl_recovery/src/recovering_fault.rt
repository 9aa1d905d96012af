//! Why no service is recovered from a source and a key file.

ghost use Rattle.std.specs.Prelude.{◌≡◌};
ghost use Rattle.gl_base.specs.declared.or_no_memory.OrNoMemory.TheVariants.{Fault};
ghost use Rattle.gl_recovery.specs.RecoveryOutput.{widened};
ghost use Rattle.gl_recovery.specs.declared.recovering_fault.RecoveringFault.TheVariants as faults;

use crate::fault::RecoveryFault;
use gl_base::{FormsFault, OrNoMemory};
use gl_requests::NodeId;
use thiserror::Error;

/// Why no service is recovered from a source and a key file.
#[derive(Debug, Drop, PartialEq, Eq, Error)]
pub enum RecoveringFault {
    /// The source failed, and counted it.
    #[error("the source failed")]
    SourceFailed,
    /// The settings are to have more than 1 MiB.
    #[error("the settings have more than 1 MiB")]
    TooMuchJson,
    /// There are so many bytes, which end within the settings or within their length.
    #[error("the settings end at {at}")]
    Short { at: u64 },
    /// The settings have another form.
    #[error("{0}")]
    Form(FormsFault),
    /// The file's key is another than that of the first node of the settings: the identifiers of
    /// both. Where the settings name no node, 32 zero bytes are wanted.
    #[error("the key is not that of the first node")]
    NotFirstNode { want: NodeId, got: NodeId },
    /// All leaves of the key are spent, so many as `reserved`: 2^h of RFC 8554, section 5.1.
    #[error("all {reserved} leaves of the key are spent")]
    KeyExhausted { reserved: u32 },
    /// The service can't be recovered after the old ledger. The source doesn't fail so: that is
    /// `SourceFailed`.
    #[error("{0}")]
    Recovery(RecoveryFault),
    /// The disk failed while the leaf was kept, and counted it.
    #[error("the disk failed")]
    DiskFailed,
}

impl From<FormsFault> for RecoveringFault {
    ghost from_gives = { λ fault wider. wider ≡ faults.Form fault };

    fn from(fault: FormsFault) -> RecoveringFault {
        RecoveringFault::Form(fault)
    }
}

impl From<RecoveryFault> for RecoveringFault {
    ghost from_gives = { λ fault wider. wider ≡ widened fault };

    fn from(fault: RecoveryFault) -> RecoveringFault {
        match fault {
            RecoveryFault::SourceFailed => RecoveringFault::SourceFailed,
            fault => RecoveringFault::Recovery(fault),
        }
    }
}

impl From<RecoveringFault> for OrNoMemory<RecoveringFault> {
    ghost from_gives = { λ fault e. e ≡ Fault fault };

    fn from(fault: RecoveringFault) -> OrNoMemory<RecoveringFault> {
        OrNoMemory::Fault(fault)
    }
}
