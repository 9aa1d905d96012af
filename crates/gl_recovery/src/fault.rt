//! Why no service is recovered.

ghost use Rattle.std.specs.Prelude.{◌≡◌};
ghost use Rattle.gl_base.specs.declared.or_no_memory.OrNoMemory.TheVariants.{Fault};

use gl_base::OrNoMemory;
use gl_gov_rules::Cause;
use thiserror::Error;

/// Why no service is recovered after an old ledger.
#[derive(Clone, Copy, Debug, PartialEq, Eq, Error)]
pub enum RecoveryFault {
    /// The old ledger isn't valid: the entry with this seqno is the first that breaks a rule of the
    /// audit, and this is the first that it breaks, from 1 to 12.
    #[error("the entry {seqno} of the old ledger breaks rule {rule}")]
    Audit { seqno: u64, rule: u8 },
    /// The old ledger has no signature.
    #[error("the old ledger has no signature")]
    NothingSigned,
    /// The last signature of the old ledger is of the last view.
    #[error("no view is left")]
    ViewLimit,
    /// After the last signature of the old ledger fewer than two seqnos are left.
    #[error("no two seqnos are left")]
    SeqnoLimit,
    /// The recovery can't recover the service by its nodes. The index is 0, that of a founding.
    #[error("the action {index} is bad: {cause}")]
    BadAction { index: u64, cause: Cause },
    /// A node of the recovery has no valid endorsement by its key.
    #[error("the signature is not valid")]
    Signature,
    /// The body of the recovery's entry has so many bytes, which is more than 1 MiB.
    #[error("{size} bytes are more than 1 MiB")]
    TooLarge { size: u64 },
    /// The source of the old ledger failed, and counted it.
    #[error("the source failed")]
    SourceFailed,
}

impl From<RecoveryFault> for OrNoMemory<RecoveryFault> {
    ghost from_gives = { λ fault e. e ≡ Fault fault };

    fn from(fault: RecoveryFault) -> OrNoMemory<RecoveryFault> {
        OrNoMemory::Fault(fault)
    }
}
