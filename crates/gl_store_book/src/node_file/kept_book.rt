//! The store of a node, as its file keeps it.

use crate::store_book::StoreBook;
use gl_entry::Entry;
use gl_node::KeptBook;

impl KeptBook for StoreBook {
    ghost use Rattle.gl_store_book.specs.Frames.{goes_on_ledger};
    ghost use Rattle.gl_store_book.specs.Stands.{HasLedger, held_of, snapshot_below};

    ghost held = { λ b. held_of b.ledger };

    ghost snapshot_of = { snapshot_below };

    ghost has_ledger = { HasLedger };

    ghost goes_on = { goes_on_ledger };

    fn ledger(&self) -> &[Entry] {
        self.ledger.tail().entries()
    }
}
