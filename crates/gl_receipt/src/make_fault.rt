//! Why a ledger gives no receipt.

ghost use Rattle.std.specs.Prelude.{◌≡◌};
ghost use Rattle.gl_base.specs.declared.or_no_memory.OrNoMemory.TheVariants.{Fault};

use gl_base::{OrNoMemory, Status};
use thiserror::Error;

/// Why a ledger gives no receipt of a transaction.
#[derive(Clone, Copy, Debug, PartialEq, Eq, Error)]
pub enum MakeFault {
    /// By this ledger the transaction isn't committed.
    #[error("the transaction is not committed")]
    NotCommitted { status: Status },
    /// The transaction is committed, and its entry isn't above the base up to which the ledger's
    /// entries were let go.
    #[error("the transaction is at or below the base {base}")]
    BelowBase { base: u64 },
    /// No signature above the transaction is committed, or the first one is under another key of
    /// the service: the service was recovered between them.
    #[error("no signature under the same key is committed above the transaction, up to {commit}")]
    NoLaterSignature { commit: u64 },
}

impl From<MakeFault> for OrNoMemory<MakeFault> {
    ghost from_gives = { λ fault e. e ≡ Fault fault };

    fn from(fault: MakeFault) -> OrNoMemory<MakeFault> {
        OrNoMemory::Fault(fault)
    }
}
