//! Why a snapshot is not one of a service.

ghost use Rattle.std.specs.Prelude.{◌≡◌};
ghost use Rattle.gl_snapshot.specs.declared.fault.SnapshotFault.TheVariants.{Shape, Receipt};

use gl_entry::Digest;
use gl_receipt::ReceiptFault;
use gl_snapshot_body::ShapeFault;
use thiserror::Error;

/// Why bytes are no snapshot, or why a snapshot is none of the service with a key.
#[derive(Clone, Copy, Debug, PartialEq, Eq, Error)]
pub enum SnapshotFault {
    /// The bytes are no snapshot: the first fault from the left stands at `at`.
    #[error("the snapshot has a fault at {at}")]
    Shape { at: usize },
    /// The receipt is not valid, or is that of another transaction than the entry's.
    #[error("the receipt is not valid: {0}")]
    Receipt(ReceiptFault),
    /// A part has another digest than the one that is recorded of it: the entry's body than the
    /// receipt says, or the snapshot's body than the entry says.
    #[error("a part has another digest than the recorded one")]
    Digest { want: Digest, got: Digest },
}

impl From<ShapeFault> for SnapshotFault {
    ghost from_gives = { λ fault e. e ≡ Shape fault.at };

    fn from(fault: ShapeFault) -> SnapshotFault {
        SnapshotFault::Shape { at: fault.at }
    }
}

impl From<ReceiptFault> for SnapshotFault {
    ghost from_gives = { λ fault e. e ≡ Receipt fault };

    fn from(fault: ReceiptFault) -> SnapshotFault {
        SnapshotFault::Receipt(fault)
    }
}
