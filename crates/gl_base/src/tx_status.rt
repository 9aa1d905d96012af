ghost use Rattle.std.specs.Prelude.{◌≡◌};
ghost use Rattle.gl_base.specs.Status.{status_of};

use crate::tx_id::{Status, TxId};

/// The status of a transaction at a node: `local` is the view of the entry that the node holds at
/// the asked place, if it holds one, and `committed` the last transaction that it knows committed.
pub fn status(asked: TxId, local: Option<u32>, committed: Option<TxId>) -> Status
    ensures { result ≡ status_of asked local committed }
{
    let held = local == Some(asked.view);
    let (view, seqno) = committed.map_or((0, 0), |commit| (commit.view, commit.seqno));
    if asked.seqno <= seqno {
        if held {
            Status::Committed
        } else {
            Status::Invalid
        }
    } else if held {
        Status::Pending
    } else if view > asked.view {
        Status::Invalid
    } else {
        Status::Unknown
    }
}
