//! A whole valid ledger, as files are read into it.

ghost use Rattle.std.specs.Prelude.{◌≡◌, ◌<◌, ◌^◌, ◌∷◌, ◌++◌, [], None, true, take, length, IfOk, IfErr, OnOk, OnErr};
ghost use Rattle.std.specs.List.{AllByRecursion};
ghost use Rattle.gl_audit.specs.Kept.{Breaks};
ghost use Rattle.gl_entry.specs.Entry.{is_entry};
ghost use Rattle.gl_gov_rules.specs.History.{no_history};
ghost use Rattle.gl_gov_rules.specs.Refusals.{genesis_refusal};
ghost use Rattle.gl_ledger.specs.Broken.{broken};
ghost use Rattle.gl_ledger.specs.Ledger.{genesis_entry};
ghost use Rattle.gl_ledger.specs.NodeKeys.{service_layers};
ghost use Rattle.gl_requests.specs.Ranges.{is_genesis};
ghost use Rattle.gl_store_book.specs.BasedLedgers.{whole_ledger};

use crate::book_ledger::BookLedger;
use gl_base::OrNoMemory;
use gl_entry::Entry;
use gl_gov_rules::History;
use gl_ledger::Broken;
use gl_requests::Genesis;
use gl_store::Store;
use std::alloc::{AllocError, Global};
use std::marker::Model;

/// A valid ledger that is whole from seqno 1 on.
#[derive(Drop)]
pub(crate) struct WholeLedger {
    ledger: BookLedger,
}

impl Model for WholeLedger {
    ghost use Rattle.std.specs.Prelude.{◌≡◌, List, None};
    ghost use Rattle.gl_entry.specs.declared.entry.Entry.{Entry};

    ghost Value = { List Entry };

    ghost view = { λ l. l.ledger.entries };

    ghost invariant = { λ l. l.ledger.snapshot ≡ None };
}

/// The entry of a genesis.
fn entry_of_genesis(alloc: Global, genesis: Genesis) -> Result<Entry, AllocError>
    requires accepted { genesis_refusal no_history genesis ≡ None }
    requires fits { is_genesis genesis ≡ true }
    ensures made { IfOk result (λ entry. entry ≡ genesis_entry genesis) }
    ensures unbroken { IfOk result (λ entry. broken service_layers [] entry ≡ None) }
{
    let mut store = Store::new(alloc)?;
    store.found(genesis)?;
    prove!(store.ledger_len() == 1);
    store.entries()[0].copy(alloc)
}

impl WholeLedger {
    ghost use Rattle.gl_ledger.specs.Audit.{audited};
    ghost use Rattle.gl_ledger.specs.Past.{is_unopened};
    ghost use Rattle.gl_gov_rules.specs.Changes.{history};
    ghost use Rattle.gl_ledger.specs.Recordings.{last_entry, requests_of};

    /// Of no entries.
    pub fn new(alloc: Global) -> Result<Self, AllocError>
        ensures { IfOk result (λ ledger. ledger ≡ []) }
    {
        let ledger = BookLedger::new(alloc)?;
        Ok(WholeLedger { ledger })
    }

    /// That of a genesis alone. Fails only where memory runs out.
    pub fn founded(alloc: Global, genesis: Genesis) -> Result<Self, AllocError>
        requires accepted { genesis_refusal no_history genesis ≡ None }
        requires fits { is_genesis genesis ≡ true }
        ensures { IfOk result (λ ledger. ledger ≡ genesis_entry genesis ∷ []) }
    {
        let entry = entry_of_genesis(alloc, genesis)?;
        let mut ledger = WholeLedger::new(alloc)?;
        match ledger.apply(entry) {
            Ok(()) => Ok(ledger),
            Err(OrNoMemory::NoMemory) => Err(AllocError),
            Err(OrNoMemory::Fault(_)) => unreachable!(),
        }
    }

    /// The number of entries.
    pub fn len(&self) -> u64
        ensures len { result ≡ length self.now }
        ensures within { result < 2 ^ 40 }
        ensures valid { audited service_layers self.now ≡ None }
    {
        self.ledger.len()
    }

    /// All entries, in order.
    pub fn entries(&self) -> &[Entry]
        ensures entries { result.now ≡ self.now }
        ensures fit { AllByRecursion (λ e. is_entry e ≡ true) self.now }
    {
        self.ledger.tail().entries()
    }

    /// What the requests of governance come to that the ledger records.
    pub fn history(&self) -> &History
        ensures { result.now ≡ history (requests_of self.now) }
    {
        self.ledger.tail().state().gov.history()
    }

    /// Whether a service begins with the last entry, so that the next one has to be the signature
    /// that opens it.
    pub fn is_unopened(&self) -> bool
        ensures { result ≡ is_unopened (last_entry self.now) }
    {
        self.ledger.tail().state().end().is_unopened
    }

    /// Adds an entry. Refused for the first rule of the audit that it breaks after the ledger, if
    /// it breaks one. Running out of memory, too, leaves all as it was.
    pub fn apply(&mut self, entry: Entry) -> Result<(), OrNoMemory<Broken>>
        ensures unbroken { OnOk result (broken service_layers self.old entry ≡ None) }
        ensures grown { OnOk result (self.new ≡ self.old ++ entry ∷ []) }
        ensures refused { IfErr result (Breaks (broken service_layers self.old entry)) }
        ensures err { OnErr result (self.new ≡ self.old) }
    {
        self.ledger.apply(entry)
    }

    /// Cuts the ledger to a seqno. Takes no memory.
    pub fn cut(&mut self, to: u64)
        ensures { self.new ≡ take to self.old }
    {
        self.ledger.cut(to);
    }

    /// The same ledger, as one with a base: that is 0.
    pub(crate) fn into_ledger(self) -> BookLedger
        ensures ledger { result ≡ whole_ledger self }
    {
        self.ledger
    }
}
