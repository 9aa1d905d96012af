//! Why entries are no opening ledger.

ghost use Rattle.std.specs.Prelude.{◌≡◌};
ghost use Rattle.gl_base.specs.declared.or_no_memory.OrNoMemory.TheVariants.{Fault};

use gl_base::OrNoMemory;
use thiserror::Error;

/// The entries are no opening ledger: the one with this seqno breaks a rule of the audit, or it is
/// the last and not the signature that opens the service; 0 where there are none.
#[derive(Clone, Copy, Debug, PartialEq, Eq, Error)]
#[error("no opening ledger: entry {seqno}")]
pub struct NotOpening {
    pub seqno: u64,
}

impl From<NotOpening> for OrNoMemory<NotOpening> {
    ghost from_gives = { λ fault e. e ≡ Fault fault };

    fn from(fault: NotOpening) -> OrNoMemory<NotOpening> {
        OrNoMemory::Fault(fault)
    }
}
