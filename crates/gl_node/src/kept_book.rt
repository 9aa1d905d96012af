//! What a file can keep of a store's ledger.

ghost use Rattle.std.specs.Prelude.{◌≡◌, ◌<◌, ◌^◌, ℕ, All, IsTrue, List, Option, map};
ghost use Rattle.gl_entry.specs.Entry.{frame_bytes, is_entry};
ghost use Rattle.gl_journal.specs.Durable.{LogRules};
ghost use Rattle.gl_rules.specs.Log.{view_at};
ghost use Rattle.gl_replication.specs.Standing.{At};
ghost use Rattle.gl_node.specs.Frames.{EachGoesOn};
ghost use Rattle.gl_node.specs.Kept.{Kept};
ghost use Rattle.gl_node.specs.Offered.{IsTakenIn};
ghost use Rattle.gl_node.specs.Persistence.{HoldsAbove, SnapshotOf};

use gl_entry::Entry;
use gl_replication::Book;

/// A store of what stands above a base, which a file can keep: the snapshot up to the base, and the
/// frames of the entries above, each of which goes on those before it.
pub trait KeptBook: Book {
    // What is held of the ledger.
    ghost held: { Self → Kept };

    // The snapshot that stands for the entries of a ledger up to a base.
    ghost snapshot_of: { SnapshotOf };

    // There is a ledger whose entries up to its base this snapshot stands for; without one the base
    // is 0. Whoever opens a file can't tell.
    ghost has_ledger: { Option (List ℕ) → Type 0 };

    // What a file of it lets in.
    ghost goes_on: { LogRules };

    /// All entries above the base, in order.
    fn ledger(&self) -> &[Entry]
        ensures entries { result.now ≡ (held self.now).entries }
        // Each is one that a ledger may hold, so that its frame can be written.
        ensures fit { All (λ e. IsTrue (is_entry e)) result.now }
        ensures follow { EachGoesOn goes_on (held self.now).snapshot (map frame_bytes result.now) }
        ensures snapshot { (held self.now).snapshot ≡ Self.base_snapshot self.now }
        // Of each ledger for which it stands, that is held, and there is such a ledger.
        ensures above { HoldsAbove Self.stands held snapshot_of self.now }
        ensures some { At Self.stands self.now (λ b h. has_ledger (Self.base_snapshot self.now)) }
        ensures leaves { At Self.stands self.now (λ b h. b.leaves h.me < 2 ^ 32) }
        // A file takes in its snapshot, if it has one, and reads there the base and its view.
        ensures taken_in { At Self.stands self.now (λ b h. IsTakenIn goes_on h.base
            (view_at b h.log h.base) (Self.base_snapshot self.now)) };
}
