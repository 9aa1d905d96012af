//! Why no entry is made.

ghost use Rattle.std.specs.Prelude.{◌≡◌};
ghost use Rattle.gl_base.specs.declared.or_no_memory.OrNoMemory.TheVariants.{Fault};
ghost use Rattle.gl_ledger.specs.declared.refusal.Refusal.TheVariants.{Aborted};

use gl_base::OrNoMemory;
use gl_gov_rules::GovernanceRefusal;
use gl_requests::ServiceState;
use gl_tx::Abort;
use thiserror::Error;

/// Why no entry is made after a ledger.
#[derive(Clone, Copy, Debug, PartialEq, Eq, Error)]
pub enum Refusal {
    /// The service is in this state, and takes requests of applications only when it is open.
    #[error("the service is not open")]
    ServiceState(ServiceState),
    /// An operation of the request failed.
    #[error("the request is aborted: {0}")]
    Aborted(Abort),
    /// The request of governance isn't accepted.
    #[error("the request of governance is refused: {0}")]
    Governance(GovernanceRefusal),
    /// The entry's body, or else its reply, has so many bytes, which is more than 1 MiB; or so many
    /// are those of a snapshot's body, which is more than 4,000,000,000.
    #[error("{size} bytes are too many")]
    TooLarge { size: u64 },
    /// No seqno is left that an identifier can name.
    #[error("no seqno is left")]
    SeqnoLimit,
}

impl From<Abort> for Refusal {
    ghost from_gives = { λ abort refusal. refusal ≡ Aborted abort };

    fn from(abort: Abort) -> Refusal {
        Refusal::Aborted(abort)
    }
}

impl From<Refusal> for OrNoMemory<Refusal> {
    ghost from_gives = { λ refusal e. e ≡ Fault refusal };

    fn from(refusal: Refusal) -> OrNoMemory<Refusal> {
        OrNoMemory::Fault(refusal)
    }
}
