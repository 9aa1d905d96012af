//! Why a receipt is not valid.

ghost use Rattle.std.specs.Prelude.{◌≡◌};
ghost use Rattle.gl_receipt.specs.declared.fault.ReceiptFault.TheVariants.{Hss};

use gl_hss::HssFault;
use thiserror::Error;

/// Why a receipt is not valid under a service's key.
#[derive(Clone, Copy, Debug, PartialEq, Eq, Error)]
pub enum ReceiptFault {
    /// The commit evidence is that of no transaction of this service.
    #[error("the commit evidence is not of this service")]
    Evidence,
    /// The signature is not valid, or the components and the path lead to another root than the
    /// signed one.
    #[error("the signature is not valid")]
    Hss(HssFault),
}

impl From<HssFault> for ReceiptFault {
    ghost from_gives = { λ fault e. e ≡ Hss fault };

    fn from(fault: HssFault) -> ReceiptFault {
        ReceiptFault::Hss(fault)
    }
}
