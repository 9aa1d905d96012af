//! What is promised of a node that serves from its file, through a stop: laws, and no code.

ghost use Rattle.std.specs.Prelude.{◌≡◌, None, Ok, IsTrue, take};
ghost use Rattle.gl_journal.specs.Durable.{Durable as State};
ghost use Rattle.gl_node.specs.Kept.{kept_after};
ghost use Rattle.gl_replication.specs.Events.{rule_of};
ghost use Rattle.gl_replication.specs.Stands.{Reports};
ghost use Rattle.gl_store_book.specs.BasedLedgers.{IsAudited};
ghost use Rattle.gl_store_book.specs.NodeFile.{opened};
ghost use Rattle.gl_store_book.specs.Replicas.{IsBelow};
ghost use Rattle.gl_store_book.specs.Restarts.{GivesRestart, HoldsBase};
ghost use Rattle.gl_store_book.specs.Stands.{Stands};

use crate::store_book::StoreBook;
use gl_node::Replica;
use gl_outside::Disk;
use gl_replication::Event;

/// No entry of a node above its base breaks a rule of the audit.
fn is_audited(book: &StoreBook)
    ensures { IsAudited book.now.ledger }
{
    let _len = book.ledger.len();
}

/// A stop forgets nothing. What the file of a node holds between events gives, once it is opened
/// again, the node's restart: it holds the node's base, and the snapshot behind which the entries
/// above stand, and those up to the base are ones for which that snapshot stands. And whatever
/// event comes next, what is to be kept of it gives the restart of the node that its rule makes;
/// base and snapshot stay.
pub fn a_stop_forgets_nothing<D: Disk + Drop>(
    replica: &Replica<D, StoreBook>,
    event: &Event<StoreBook>,
)
    ensures before { IsTrue D.honest → replica.now.stopped ≡ None →
        Reports Stands replica.now.core (λ b x n. (d : State) →
        opened (D.bytes replica.now.disk) ≡ Ok d → GivesRestart b n d) }
    ensures holds { IsTrue D.honest → replica.now.stopped ≡ None →
        Reports Stands replica.now.core (λ b x n. (d : State) →
        opened (D.bytes replica.now.disk) ≡ Ok d → HoldsBase n d) }
    ensures below { Reports Stands replica.now.core (λ b x n. (d : State) → HoldsBase n d →
        IsBelow d (take n.base n.log)) }
    ensures after { Reports Stands replica.now.core (λ b x n. (d : State) →
        let next = (rule_of event.now b x n).node in
        GivesRestart b next (kept_after d next)) }
    ensures base { Reports Stands replica.now.core (λ b x n. (d : State) → HoldsBase n d →
        let next = (rule_of event.now b x n).node in HoldsBase next (kept_after d next)) }
{
    let _disk = replica.disk();
    is_audited(&replica.core().book);
}
