//! Why an entry may not follow in a ledger.

ghost use Rattle.std.specs.Prelude.{◌≡◌};
ghost use Rattle.gl_base.specs.declared.or_no_memory.OrNoMemory.TheVariants.{Fault};

use gl_base::OrNoMemory;
use gl_entry::Digest;
use gl_gov_rules::GovernanceRefusal;
use gl_hss::HssFault;
use gl_requests::ServiceState;
use gl_tx::Abort;
use thiserror::Error;

/// What an entry is refused for that breaks a rule of the audit.
#[derive(Clone, Copy, Debug, PartialEq, Eq, Error)]
pub enum EntryRefusal {
    /// The service is in this state, and takes requests of applications only when it is open.
    #[error("the service is not open")]
    ServiceState(ServiceState),
    /// An operation of the request fails.
    #[error("the request is aborted: {0}")]
    Aborted(Abort),
    /// The request of governance isn't accepted.
    #[error("the request of governance is refused: {0}")]
    Governance(GovernanceRefusal),
    /// The entry at this seqno isn't the one that follows: the digest that is wanted, and the one
    /// that is found.
    #[error("the entry at {seqno} doesn't follow")]
    Replay {
        seqno: u64,
        wanted: Digest,
        found: Digest,
    },
    /// The signature of the entry at this seqno isn't valid.
    #[error("the signature at {seqno} isn't valid: {fault}")]
    BadSignature {
        seqno: u64,
        fault: HssFault,
    },
}

/// The first rule of the audit that an entry breaks after a ledger.
#[derive(Clone, Copy, Debug, PartialEq, Eq, Error)]
#[error("rule {rule}: {refusal}")]
pub struct Broken {
    /// The rule's number, from 1 to 12. The README of this crate tells the rules.
    pub rule: u8,
    /// What the entry is refused for.
    pub refusal: EntryRefusal,
}

impl From<Broken> for OrNoMemory<Broken> {
    ghost from_gives = { λ broken e. e ≡ Fault broken };

    fn from(broken: Broken) -> OrNoMemory<Broken> {
        OrNoMemory::Fault(broken)
    }
}
