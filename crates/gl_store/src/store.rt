//! The store of one node: a valid ledger, and up to which seqno it is committed.

ghost use Rattle.std.specs.Prelude.{◌≡◌, ◌+◌, ◌-◌, ◌≤◌, ◌<◌, [], ◌∷◌, ◌++◌, true, length, take, None, Ok, Some, IfOk, IfErr, IfSome, OnErr, OnOk};
ghost use Rattle.std.specs.List.{AllByRecursion};
ghost use Rattle.std.specs.Option.{option_copied};
ghost use Rattle.gl_base.specs.Answers.{Fails};
ghost use Rattle.gl_rules.specs.Log.{entry_at};
ghost use Rattle.gl_vmaps.specs.Standing.{StandsFor};
ghost use Rattle.gl_entry.specs.Entry.{is_entry};
ghost use Rattle.gl_requests.specs.Ranges.{is_genesis};
ghost use Rattle.gl_ledger.specs.Ledger.{genesis_entry};

use crate::ledger_tail::LedgerTail;
use crate::not_opening::NotOpening;
use gl_audit::{GovState, is_unopened};
use gl_base::{OrNoMemory, Status, TxId, status};
use gl_entry::{Digest, Entry};
use gl_ledger::{Broken, Rejection};
use gl_requests::Genesis;
use gl_vmaps::Tables;
use std::alloc::{AllocError, Global};
use std::marker::Model;

mod governance;
mod receipts;
mod recovery;
mod requests;

/// A ledger of one node, and up to which seqno it is committed. Seqnos count from 1. At every
/// moment the ledger is valid: no entry of it breaks a rule of the audit after those before it. So
/// it is one serial run of its requests, its governance tables are the effect of the governance
/// requests that it records, and each signature is the valid one of a recorded node, over the root
/// of the tree over all earlier entries. Commit is the seqno of a signature, or 0, and never falls.
#[derive(Drop)]
pub struct Store {
    tail: LedgerTail,
    commit: u64,
}

impl Model for Store {
    ghost use Rattle.gl_audit.specs.Committed.{Held};
    ghost use Rattle.gl_store.specs.Kept.{IsKept};

    ghost Value = { Held };

    ghost view = { λ s. record { ledger = s.tail.entries; commit = s.commit } };

    ghost invariant = { λ s. IsKept s.tail s.commit };
}

impl Store {
    ghost use Rattle.gl_rules.specs.Node.{Node};
    ghost use Rattle.gl_rules.specs.Safety.{reported_status, view_of};
    ghost use Rattle.gl_gov_rules.specs.History.{no_history};
    ghost use Rattle.gl_gov_rules.specs.Refusals.{genesis_refusal};
    ghost use Rattle.gl_merkle.specs.Tree.{root_of};
    ghost use Rattle.gl_ledger.specs.Tree.{writes_of, leaves_of};
    ghost use Rattle.gl_ledger.specs.Recordings.{last_entry, requests_of};
    ghost use Rattle.gl_ledger.specs.Makers.{evidence_result};
    ghost use Rattle.gl_ledger.specs.Past.{is_unopened, last_commit, last_signed, past_of};
    ghost use Rattle.gl_ledger.specs.Broken.{broken};
    ghost use Rattle.gl_ledger.specs.Sound.{IsSound};
    ghost use Rattle.gl_ledger.specs.Audit.{audited, fault_from};
    ghost use Rattle.gl_ledger.specs.Layers.{Layers};
    ghost use Rattle.gl_ledger.specs.NodeKeys.{NodeKeys, service_layers};
    ghost use Rattle.gl_ledger.specs.LedgerBook.{ledger_book};
    ghost use Rattle.gl_ledger.specs.Signed.{IsSignedUpTo};
    ghost use Rattle.gl_audit.specs.Kept.{Breaks};
    ghost use Rattle.gl_store.specs.Calls.{IsNodeOf, StopsAt, Opens, IsNotOpened};

    /// Of no entries.
    pub fn new(alloc: Global) -> Result<Self, AllocError>
        ensures { IfOk result (λ store. store ≡ record { ledger = []; commit = 0 }) }
    {
        Ok(Store {
            tail: LedgerTail::new(alloc)?,
            commit: 0,
        })
    }

    /// Adds the entry of a genesis to a store of no entries. Fails only where memory runs out, and
    /// then leaves the store as it was.
    pub fn found(&mut self, genesis: Genesis) -> Result<(), AllocError>
        requires first { self.old.ledger ≡ [] }
        requires accepted { genesis_refusal no_history genesis ≡ None }
        requires fits { is_genesis genesis ≡ true }
        ensures founded { OnOk result (self.new ≡ record self.old {
          ledger = genesis_entry genesis ∷ [];
        }) }
        ensures err { OnErr result (self.new ≡ self.old) }
    {
        let founding = self.genesis_entry(genesis)?;
        self.push(founding)
    }

    /// The store of an opening ledger, all of it committed: one that ends with the entry that
    /// founds the service, or recovers it, and the signature that opens it. Refused where an entry
    /// breaks a rule of the audit, with the seqno of the first that does, or else where the last
    /// entry isn't that signature, with its seqno, 0 for no entries.
    pub fn opening(alloc: Global, entries: Vec<Entry>) -> Result<Self, OrNoMemory<NotOpening>>
        ensures opened { IfOk result (λ store. Opens entries.items store) }
        ensures refused { IfErr result (IsNotOpened entries.items) }
    {
        let mut store = Store::new(alloc)?;
        match store.apply_all(entries) {
            Ok(()) => store.into_opened(),
            Err(OrNoMemory::NoMemory) => Err(OrNoMemory::NoMemory),
            Err(OrNoMemory::Fault(_)) => Err(OrNoMemory::Fault(NotOpening {
                seqno: store.ledger_len() + 1,
            })),
        }
    }

    /// The same, all of it committed, where the ledger ends with the signature that opens the
    /// service.
    fn into_opened(mut self) -> Result<Self, OrNoMemory<NotOpening>>
        ensures opened { IfOk result (λ store. Opens self.ledger store) }
        ensures refused { IfErr result (IsNotOpened self.ledger) }
    {
        let len = self.ledger_len();
        if !self.ends_with_opening() {
            return Err(OrNoMemory::Fault(NotOpening { seqno: len }));
        }
        self.commit = len;
        Ok(self)
    }

    /// Whether a service begins with the entry before the last, so that the last one opens it.
    fn ends_with_opening(&self) -> bool
        ensures { result ≡ is_unopened (last_entry
            (take (length self.now.ledger - 1) self.now.ledger)) }
    {
        let before = self.ledger_len().saturating_sub(1);
        is_unopened(self.entry(before))
    }

    /// The number of entries, which is the seqno of the last one.
    pub fn ledger_len(&self) -> u64
        ensures len { result ≡ length self.now.ledger }
        ensures valid { audited service_layers self.now.ledger ≡ None }
        ensures sound { IsSound service_layers self.now.ledger }
    {
        self.tail.ledger_len()
    }

    /// The entry with a seqno. `None` at 0 and above the last.
    pub fn entry(&self, seqno: u64) -> Option<&Entry>
        ensures entry { option_copied result ≡ entry_at self.now.ledger seqno }
        ensures fits { IfSome result (λ e. is_entry e.now ≡ true) }
        ensures numbered { IfSome result (λ e. e.now.seqno ≡ seqno) }
    {
        self.tail.entry(seqno)
    }

    /// All entries, in order.
    pub fn entries(&self) -> &[Entry]
        ensures entries { result.now ≡ self.now.ledger }
        ensures fit { AllByRecursion (λ e. is_entry e ≡ true) self.now.ledger }
    {
        self.tail.entries()
    }

    /// The view of the entry with a seqno. `None` at 0 and above the last.
    pub fn view_at(&self, seqno: u64) -> Option<u32>
        ensures { (layers : Layers) (keys : NodeKeys) →
            result ≡ view_of (ledger_book layers keys) (entry_at self.now.ledger seqno) }
    {
        match self.entry(seqno) {
            None => None,
            Some(entry) => Some(entry.view),
        }
    }

    /// The tables that the ledger's write sets make: what they answer is what those make.
    pub fn tables(&self) -> &Tables
        ensures stands { StandsFor result.now (writes_of self.now.ledger) }
        ensures base { result.now.base ≡ 0 }
    {
        &self.tail.state().tables
    }

    /// The state of governance: the requests that the ledger records.
    pub fn gov(&self) -> &GovState
        ensures gov { result.now
            ≡ record { base = None; requests = requests_of self.now.ledger } }
    {
        &self.tail.state().gov
    }

    /// The seqno of the last signature, committed or not; 0 where there is none.
    pub fn last_signature(&self) -> u64
        ensures { result ≡ last_signed self.now.ledger }
    {
        self.tail.state().last_signed()
    }

    /// The seqno of the last signature up to a seqno, 0 where there is none.
    pub fn signature_upto(&self, seqno: u64) -> u64
        ensures { result ≡ last_signed (take seqno self.now.ledger) }
    {
        self.tail.state().last_signed_up_to(seqno)
    }

    /// The commit that the last signature records, 0 where there is none.
    pub fn last_recorded_commit(&self) -> u64
        ensures { result ≡ last_commit self.now.ledger }
    {
        self.tail.state().end().commit
    }

    /// The root of the Merkle tree over all entries.
    pub fn root(&self) -> Digest
        requires some { 0 < length self.now.ledger }
        ensures root { result ≡ root_of (leaves_of self.now.ledger) }
    {
        self.tail.state().root()
    }

    /// Whether a service begins with the last entry, so that the next one has to be the signature
    /// that opens it.
    pub fn is_unopened(&self) -> bool
        ensures { result ≡ is_unopened (last_entry self.now.ledger) }
    {
        self.tail.state().end().is_unopened
    }

    /// The seqno of the entry that follows.
    fn next_seqno(&self) -> u64
        ensures { result ≡ length self.now.ledger + 1 }
    {
        self.tail.next_seqno()
    }

    /// The status of a transaction by what this store holds (CCF documentation, "Transaction
    /// status"). Only Committed and Invalid are final.
    pub fn status(&self, id: TxId) -> Status
        ensures { (layers : Layers) (keys : NodeKeys) (n : Node Entry) → IsNodeOf self.now n →
            result ≡ reported_status (ledger_book layers keys) n id }
    {
        let committed = match self.view_at(self.commit) {
            None => None,
            Some(view) => Some(TxId {
                view,
                seqno: self.commit,
            }),
        };
        status(id, self.view_at(id.seqno), committed)
    }

    /// Commits the ledger up to the signature with this seqno, or up to 0. Commit never falls.
    pub fn commit_to(&mut self, seqno: u64)
        requires signed { IsSignedUpTo self.old.ledger seqno }
        requires above { self.old.commit ≤ seqno }
        ensures { self.new ≡ record self.old { commit = seqno } }
    {
        self.commit = seqno;
    }

    /// Adds an entry of which it is known that it breaks no rule. Running out of memory leaves the
    /// store as it was.
    pub fn push(&mut self, entry: Entry) -> Result<(), AllocError>
        requires { broken service_layers self.old.ledger entry ≡ None }
        ensures grown { OnOk result (self.new ≡ record self.old {
          ledger = self.old.ledger ++ entry ∷ [];
        }) }
        ensures err { OnErr result (self.new ≡ self.old) }
    {
        self.tail.push(entry)
    }

    /// Adds an entry that another node made. Refused for the first rule of the audit that it breaks
    /// after this ledger, if it breaks one. Running out of memory, too, leaves the store as it was.
    pub fn apply_entry(&mut self, entry: Entry) -> Result<(), OrNoMemory<Broken>>
        ensures unbroken { OnOk result (broken service_layers self.old.ledger entry ≡ None) }
        ensures grown { OnOk result (self.new ≡ record self.old {
          ledger = self.old.ledger ++ entry ∷ [];
        }) }
        ensures refused { IfErr result (Breaks (broken service_layers self.old.ledger entry)) }
        ensures err { OnErr result (self.new ≡ self.old) }
    {
        self.tail.apply(entry)
    }

    /// Adds entries one after another, up to the first that breaks a rule.
    fn apply_all(&mut self, entries: Vec<Entry>) -> Result<(), OrNoMemory<Broken>>
        ensures unbroken { OnOk result
            (fault_from service_layers self.old.ledger entries.items ≡ None) }
        ensures grown { OnOk result (self.new ≡ record self.old {
          ledger = self.old.ledger ++ entries.items;
        }) }
        ensures refused { IfErr result (λ e. StopsAt (length self.new.ledger + 1)
            (fault_from service_layers self.old.ledger entries.items) e) }
    {
        for entry in entries {
            self.apply_entry(entry)?;
        }
        Ok(())
    }

    /// Takes back the entries above a seqno that isn't below commit. Takes no memory.
    pub fn cut(&mut self, to: u64)
        requires committed { self.old.commit ≤ to }
        requires within { to ≤ length self.old.ledger }
        ensures { self.new ≡ record self.old { ledger = take to self.old.ledger } }
    {
        self.tail.cut(to);
    }

    /// A store of its own that holds the same. Fails only where memory runs out.
    pub fn copy(&self) -> Result<Self, AllocError>
        ensures { IfOk result (λ store. store ≡ self.now) }
    {
        Ok(Store {
            tail: self.tail.copy()?,
            commit: self.commit,
        })
    }

    /// The entry of an evidence after the ledger in a view: the digest of the body of a snapshot of
    /// all entries. The ledger stays without it. Refused, in this order, where the last entry is no
    /// signature, where the body has more than 4,000,000,000 bytes, and where no seqno is left.
    /// Reads each row twice, and copies none.
    pub fn evidence_entry(&self, view: u32) -> Result<Entry, OrNoMemory<Rejection>>
        ensures made { IfOk result (λ entry.
            evidence_result (past_of self.now.ledger) view ≡ Ok entry) }
        ensures refused { IfErr result (λ e.
            Fails e (evidence_result (past_of self.now.ledger) view)) }
    {
        self.tail.evidence_entry(view)
    }
}
