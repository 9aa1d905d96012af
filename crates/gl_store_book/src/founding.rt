//! The store of a node that founds a service of its own.

ghost use Rattle.std.specs.Prelude.{◌≡◌, [], IfOk, OnOk};
ghost use Rattle.gl_ledger.specs.LedgerBook.{ledger_book};
ghost use Rattle.gl_ledger.specs.Makers.{opening_of};
ghost use Rattle.gl_ledger.specs.NodeKeys.{NodeKeys, service_layers};
ghost use Rattle.gl_ledger.specs.OpeningLedger.{Founds};
ghost use Rattle.gl_store_book.specs.Founding.{id_of_key, key_alone};
ghost use Rattle.gl_store_book.specs.Stands.{HasKey, Stands, whole, whole_store};
ghost use Rattle.gl_store_book.specs.BasedLedgers.{whole_ledger};

use crate::store_book::StoreBook;
use crate::whole_ledger::WholeLedger;
use gl_base::{FIRST_VIEW, OrNoMemory};
use gl_hss::LmsKey;
use gl_requests::Genesis;
use sha2::{Digest, Sha256};
use std::alloc::{AllocError, Global};

impl StoreBook {
    /// Founds the service of a genesis that names the node: the genesis, and the signature that
    /// opens the service, with the first leaf of the node's key.
    pub fn open(&mut self, genesis: Genesis) -> Result<(), AllocError>
        requires empty { self.old.ledger ≡ whole_ledger [] }
        requires founds { (keys : NodeKeys) × HasKey keys self.old
            × Founds service_layers keys genesis self.old.me }
        ensures { OnOk result ((keys : NodeKeys) → HasKey keys self.old → self.new
            ≡ whole_store self.old.me self.old.key (opening_of keys genesis self.old.me)) }
    {
        self.at_hand = None;
        self.ledger = WholeLedger::founded(self.alloc, genesis)?.into_ledger();
        let entry = self.signature_entry(0, FIRST_VIEW, 2)?;
        match self.ledger.apply(entry) {
            Ok(()) => {}
            Err(OrNoMemory::NoMemory) => return Err(AllocError),
            Err(OrNoMemory::Fault(_)) => unreachable!(),
        }
        Ok(())
    }

    /// That of the node with this key as a service of its own begins: the service's genesis, which
    /// names the node, and the signature that opens it, with the key's first leaf. Fails only where
    /// memory runs out.
    pub fn founded(alloc: Global, key: LmsKey, genesis: Genesis) -> Result<Self, AllocError>
        requires { Founds service_layers (key_alone key) genesis (id_of_key key) }
        ensures holds { IfOk result (λ book. book ≡ whole_store (id_of_key key) key
            (opening_of (key_alone key) genesis (id_of_key key))) }
        ensures stands { IfOk result (λ book. Stands book
            (ledger_book service_layers (key_alone key))
            (whole (id_of_key key) (opening_of (key_alone key) genesis (id_of_key key)))) }
    {
        let me = Sha256::digest(&key.public());
        let mut book = StoreBook::joining(alloc, me, key)?;
        book.open(genesis)?;
        Ok(book)
    }
}
