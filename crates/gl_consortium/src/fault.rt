//! Why nothing is signed.

ghost use Rattle.std.specs.Prelude.{◌≡◌};
ghost use Rattle.gl_base.specs.declared.or_no_memory.OrNoMemory.TheVariants.{Fault};
ghost use Rattle.gl_consortium.specs.declared.fault.SigningFault.TheVariants as faults;

use gl_base::{FormsFault, OrNoMemory};
use gl_gov_rules::Cause;
use gl_requests::NodeId;
use thiserror::Error;

/// Why nothing is signed.
#[derive(Debug, Drop, PartialEq, Eq, Error)]
pub enum SigningFault {
    /// The text has another form.
    #[error("{0}")]
    Form(FormsFault),
    /// The file's key has another identifier than the first node of the settings. Where these name
    /// no node, 32 zero bytes are wanted.
    #[error("the key is not that of the first node")]
    NotFirstNode { want: NodeId, got: NodeId },
    /// All leaves of the key are spent, so many as `reserved`: 2^h of RFC 8554, section 5.1.
    #[error("all {reserved} leaves of the key are spent")]
    KeyExhausted { reserved: u32 },
    /// The settings can't found a service. The index is 0, that of a founding.
    #[error("the action {index} is bad: {cause}")]
    BadAction { index: u64, cause: Cause },
    /// A node of the settings has no valid endorsement by the service's key.
    #[error("the signature is not valid")]
    Signature,
    /// The disk failed while the leaf was kept, and counted it.
    #[error("the disk failed")]
    DiskFailed,
}

impl From<FormsFault> for SigningFault {
    ghost from_gives = { λ fault wider. wider ≡ faults.Form fault };

    fn from(fault: FormsFault) -> SigningFault {
        SigningFault::Form(fault)
    }
}

impl From<SigningFault> for OrNoMemory<SigningFault> {
    ghost from_gives = { λ fault e. e ≡ Fault fault };

    fn from(fault: SigningFault) -> OrNoMemory<SigningFault> {
        OrNoMemory::Fault(fault)
    }
}
