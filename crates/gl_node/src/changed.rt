//! What was there before an event.

ghost use Rattle.std.specs.Prelude.{◌≡◌, ◌<◌, ◌^◌, All, IsTrue, length, map};
ghost use Rattle.gl_entry.specs.Entry.{frame_bytes, is_entry};
ghost use Rattle.gl_rules.specs.Log.{view_at};
ghost use Rattle.gl_replication.specs.Standing.{At};
ghost use Rattle.gl_node.specs.Frames.{EachGoesOn};
ghost use Rattle.gl_node.specs.Offered.{IsTakenIn};
ghost use Rattle.gl_node.specs.Persistence.{HoldsAbove};

use crate::kept_book::KeptBook;
use gl_config::NodeId;
use gl_replication::{Core, Leaves};

/// What a file keeps of a node but its entries, with the length of the ledger and the number of
/// entries above its base.
#[derive(Clone, Copy, Debug)]
pub(crate) struct Before {
    pub(crate) view: u32,
    pub(crate) vote: Option<NodeId>,
    pub(crate) len: u64,
    pub(crate) count: u64,
    pub(crate) leaves: Leaves,
}

/// How many entries are held above the base.
pub(crate) fn held_count<B: KeptBook>(book: &B) -> u64
    ensures count { result ≡ length (B.held book.now).entries }
    ensures fit { All (λ e. IsTrue (is_entry e)) (B.held book.now).entries }
    ensures follow { EachGoesOn B.goes_on (B.held book.now).snapshot
        (map frame_bytes (B.held book.now).entries) }
    ensures snapshot { (B.held book.now).snapshot ≡ B.base_snapshot book.now }
    ensures above { HoldsAbove B.stands B.held B.snapshot_of book.now }
    ensures some { At B.stands book.now (λ b h. B.has_ledger (B.base_snapshot book.now)) }
    ensures leaves { At B.stands book.now (λ b h. b.leaves h.me < 2 ^ 32) }
    ensures taken_in { At B.stands book.now (λ b h. IsTakenIn B.goes_on h.base
        (view_at b h.log h.base) (B.base_snapshot book.now)) }
{
    book.ledger().len() as u64
}

impl Before {
    /// What is there now.
    pub(crate) fn of<B: KeptBook>(core: &Core<B>) -> Before
        ensures view { result.view ≡ core.now.peer.view }
        ensures vote { result.vote ≡ core.now.peer.vote }
        ensures len { At B.stands core.now.book (λ b h. result.len ≡ length h.log) }
        ensures count { result.count ≡ length (B.held core.now.book).entries }
        ensures leaves { result.leaves ≡ core.now.leaves }
    {
        Before {
            view: core.peer.view,
            vote: core.peer.vote,
            len: core.book.ledger_len(),
            count: held_count(&core.book),
            leaves: core.leaves,
        }
    }
}
