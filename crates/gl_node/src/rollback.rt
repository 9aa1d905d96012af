//! An entry taken back where memory runs out.

ghost use Rattle.std.specs.Prelude.{◌≡◌, ◌≤◌, length};
ghost use Rattle.gl_entry.specs.declared.entry.Entry.{Entry as Item};
ghost use Rattle.gl_rules.specs.Book.{Book as Rules};
ghost use Rattle.gl_rules.specs.Identity.{NodeId as Id};
ghost use Rattle.gl_rules.specs.Node.{Node};
ghost use Rattle.gl_replication.specs.Stands.{StandsFor};
ghost use Rattle.gl_node.specs.Changes.{IsExtended};
ghost use Rattle.gl_node.specs.Persistence.{HoldsAbove};

use crate::changed::{Before, held_count};
use crate::kept_book::KeptBook;
use gl_replication::Core;

/// Takes back the last entry and the leaf that it was signed with, if it was. Takes no memory.
pub(crate) fn take_back<B: KeptBook>(core: &mut Core<B>, before: &Before)
    ensures back { (b : Rules Item B.Request B.Gov B.Reads B.Response B.Refused) (x : Id)
        (n m : Node Item) → StandsFor B.stands core.old b x m → IsExtended n m →
        n.base ≤ length n.log →
        before.now.len ≡ length n.log → before.now.leaves.used ≡ n.used →
        before.now.leaves.reserved ≡ n.reserved → StandsFor B.stands core.new b x n }
    ensures above { HoldsAbove B.stands B.held B.snapshot_of core.new.book }
    ensures snapshot { B.base_snapshot core.new.book ≡ B.base_snapshot core.old.book }
{
    let base = core.book.base();
    core.book.cut(before.len.max(base));
    core.leaves = before.leaves;
    let _count = held_count(&core.book);
}
