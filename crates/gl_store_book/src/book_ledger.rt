//! A ledger with a base, and beside it what the rules of consensus ask of its nodes.

ghost use Rattle.std.specs.Prelude.{◌≡◌, ◌<◌, ◌≤◌, ◌+◌, ◌^◌, ◌-◌, ◌∷◌, ◌++◌, [], ℕ, suc, true, false, None, Some, Ok, take, length, option_map, List, AllPairs, IfOk, IfErr, OnOk, OnErr};
ghost use Rattle.std.specs.Arc.{arc_slice_items};
ghost use Rattle.std.specs.Borrow.{Bor};
ghost use Rattle.gl_snapshot_body.specs.Body.{body_bytes, is_counted};
ghost use Rattle.gl_snapshot_body.specs.declared.body.Body as bodies;
ghost use Rattle.gl_config.specs.Active as configurations;
ghost use Rattle.gl_gov_rules.specs.GovernedRows as rows;
ghost use Rattle.gl_audit.specs.Kept.{Breaks};
ghost use Rattle.gl_audit.specs.GovState.{governed_up_to};
ghost use Rattle.gl_ledger.specs.Behind.{IsBaseBody};
ghost use Rattle.gl_store.specs.Tail.{Becomes, StandsBehind};
ghost use Rattle.gl_store_book.specs.BasedLedgers.{IsAudited, IsEncoded, base_of, body_of, broken_after, cut_to, governed_of, len_of, whole_ledger, past_of, with_entries};
ghost use Rattle.gl_store_book.specs.Lists.{AreListsOf, configurations_behind, nodes_of};

use crate::node_lists::NodeLists;
use crate::refusals::by_rule;
use gl_audit::GovernanceEffect;
use gl_base::OrNoMemory;
use gl_config::{Configuration, NodeId};
use gl_entry::{Content, Entry};
use gl_gov_rows::governed_rows;
use gl_gov_rules::GovernedRows;
use gl_ledger::{Broken, Refusal, Rejection};
use gl_requests::GovernanceRequest;
use gl_snapshot_body::{Body, put_body};
use gl_store::LedgerTail;
use std::alloc::{AllocError, Global};
use std::marker::Model;
use std::sync::{Arc, ArcSlice};

/// A valid ledger, which can be cut anywhere from its base on: of its entries up to the base a
/// snapshot tells what is left of them, and there is none where the base is 0. Beside it are the
/// lists of its configurations and of the nodes that it records.
#[derive(Drop)]
pub struct BookLedger {
    pub(crate) alloc: Global,
    snapshot: Option<ArcSlice<u8>>,
    tail: LedgerTail,
    lists: NodeLists,
}

impl Model for BookLedger {
    ghost use Rattle.std.specs.Prelude.{option_map};
    ghost use Rattle.std.specs.Arc.{arc_slice_items};
    ghost use Rattle.gl_store_book.specs.BasedLedgers.{BasedLedger};
    ghost use Rattle.gl_store_book.specs.Lists.{IsBookLedger};

    ghost Value = { BasedLedger };

    ghost view = { λ l.
        record { snapshot = option_map arc_slice_items l.snapshot; entries = l.tail.entries } };

    ghost invariant = { λ l.
        IsBookLedger (option_map arc_slice_items l.snapshot) l.tail l.lists };
}

impl BookLedger {
    /// Of no entries, from the start of a ledger on.
    pub fn new(alloc: Global) -> Result<Self, AllocError>
        ensures { IfOk result (λ ledger. ledger ≡ whole_ledger []) }
    {
        let tail = LedgerTail::new(alloc)?;
        let lists = NodeLists::new(alloc);
        Ok(BookLedger {
            alloc,
            snapshot: None,
            tail,
            lists,
        })
    }

    /// Of no entries behind a base, of which the body of a snapshot tells. Fails only where memory
    /// runs out.
    pub(crate) fn from_body(alloc: Global, body: Body) -> Result<Self, AllocError>
        requires read { IsBaseBody body }
        ensures begun { IfOk result (λ ledger.
            ledger ≡ record { snapshot = Some (body_bytes body); entries = [] }) }
    {
        let snapshot = spelled(alloc, &body)?;
        let base = body.base;
        let rows = read_rows(alloc, &body)?;
        let governed = Arc::new(alloc, rows)?;
        let tail = LedgerTail::at_base(alloc, body, governed)?;
        let lists = NodeLists::at_base(alloc, &tail.state().gov, base)?;
        Ok(BookLedger {
            alloc,
            snapshot: Some(snapshot),
            tail,
            lists,
        })
    }

    /// The entries above the base, and what they come to.
    pub fn tail(&self) -> &LedgerTail
        ensures entries { result.now.entries ≡ self.now.entries }
        ensures stands { StandsBehind (body_of self.now.snapshot) result.now }
        ensures valid { IsAudited self.now }
        ensures within { len_of self.now < 2 ^ 40 }
    {
        prove!(self.tail.ledger_len() < 1 << 40);
        &self.tail
    }

    /// The bytes of the body of the snapshot up to the base, if there is one.
    pub fn snapshot(&self) -> Option<&[u8]>
        ensures { option_map (λ (bytes : Bor (List ℕ)). bytes.now) result ≡ self.now.snapshot }
    {
        match &self.snapshot {
            None => None,
            Some(bytes) => Some(bytes.as_slice()),
        }
    }

    /// The seqno of the last entry; that of the base where there is none above it.
    pub fn len(&self) -> u64
        ensures len { result ≡ len_of self.now }
        ensures within { result < 2 ^ 40 }
        ensures valid { IsAudited self.now }
        ensures spelled { IsEncoded self.now.snapshot }
    {
        prove!(self.tail.ledger_len() < 1 << 40);
        self.tail.ledger_len()
    }

    /// The configurations of the ledger cut to a seqno, which is not below the base: the one in
    /// force at a base above 0, and those that begin behind the base, in the order of their seqnos.
    pub fn configurations(&self, upto: u64) -> &[Configuration]
        ensures ascending { AllPairs (λ c d. c.seqno < d.seqno) result.now }
        ensures prefix { base_of self.now ≤ upto →
            result.now ≡ configurations.upto upto (configurations_behind
            (base_of self.now) (governed_of self.now) (length self.now.entries)) }
    {
        self.lists.configurations(upto)
    }

    /// The nodes that the ledger cut to a seqno, which is not below the base, records.
    pub fn recorded_nodes(&self, upto: u64) -> &[NodeId]
        ensures { base_of self.now ≤ upto →
            result.now ≡ nodes_of (governed_up_to upto (governed_of self.now)) }
    {
        let last = self.tail.ledger_len();
        self.lists
            .recorded_nodes(&self.tail.state().gov, last, upto)
    }

    /// Adds an entry. Refused for the first rule of the audit that it breaks after the ledger, if
    /// it breaks one. Running out of memory, too, leaves all as it was.
    pub fn apply(&mut self, entry: Entry) -> Result<(), OrNoMemory<Broken>>
        ensures unbroken { OnOk result (broken_after self.old entry ≡ None) }
        ensures grown { OnOk result
            (self.new ≡ with_entries self.old (self.old.entries ++ entry ∷ [])) }
        ensures refused { IfErr result (Breaks (broken_after self.old entry)) }
        ensures err { OnErr result (self.new ≡ self.old) }
    {
        match entry.content {
            Content::Governance(_) => self.apply_governance(entry),
            _ => self.apply_quiet(entry),
        }
    }
}

impl BookLedger {
    ghost use Rattle.gl_base.specs.Answers.{Fails};
    ghost use Rattle.gl_requests.specs.Ranges.{is_request};
    ghost use Rattle.gl_gov_rules.specs.Governed.{is_founding, is_recovery};
    ghost use Rattle.gl_ledger.specs.Makers.{govern_after};
    ghost use Rattle.gl_ledger.specs.declared.response.Response.TheVariants.{Governed};
    ghost use Rattle.gl_store.specs.Calls.{Refuses};
    ghost use Rattle.gl_store_book.specs.Taken.{IsNoGovernance, appended};

    /// The same of an entry that records no request of governance.
    fn apply_quiet(&mut self, entry: Entry) -> Result<(), OrNoMemory<Broken>>
        requires quiet { IsNoGovernance entry.content }
        ensures unbroken { OnOk result (broken_after self.old entry ≡ None) }
        ensures grown { OnOk result
            (self.new ≡ with_entries self.old (self.old.entries ++ entry ∷ [])) }
        ensures refused { IfErr result (Breaks (broken_after self.old entry)) }
        ensures err { OnErr result (self.new ≡ self.old) }
    {
        self.tail.apply(entry)
    }

    /// The same of an entry that may change which nodes are recorded or trusted.
    fn apply_governance(&mut self, entry: Entry) -> Result<(), OrNoMemory<Broken>>
        ensures unbroken { OnOk result (broken_after self.old entry ≡ None) }
        ensures grown { OnOk result
            (self.new ≡ with_entries self.old (self.old.entries ++ entry ∷ [])) }
        ensures refused { IfErr result (Breaks (broken_after self.old entry)) }
        ensures err { OnErr result (self.new ≡ self.old) }
    {
        self.tail.apply(entry)?;
        list_last(self.alloc, &mut self.lists, &mut self.tail)?;
        Ok(())
    }

    /// Adds an entry of which it is known that it breaks no rule, and that records no request of
    /// governance. Running out of memory leaves all as it was.
    pub(crate) fn push_quiet(&mut self, entry: Entry) -> Result<(), AllocError>
        requires quiet { IsNoGovernance entry.content }
        requires unbroken { broken_after self.old entry ≡ None }
        ensures grown { OnOk result
            (self.new ≡ with_entries self.old (self.old.entries ++ entry ∷ [])) }
        ensures err { OnErr result (self.new ≡ self.old) }
    {
        self.tail.push(entry)
    }

    /// The same of an entry that may change which nodes are recorded or trusted.
    pub(crate) fn push_governance(&mut self, entry: Entry) -> Result<(), AllocError>
        requires unbroken { broken_after self.old entry ≡ None }
        ensures grown { OnOk result
            (self.new ≡ with_entries self.old (self.old.entries ++ entry ∷ [])) }
        ensures err { OnErr result (self.new ≡ self.old) }
    {
        self.tail.push(entry)?;
        list_last(self.alloc, &mut self.lists, &mut self.tail)?;
        Ok(())
    }

    /// The entry that a request of governance makes after the ledger in a view, and what the
    /// request does. Nothing is added.
    pub(crate) fn entry_of_governance(
        &mut self,
        view: u32,
        request: &GovernanceRequest,
    ) -> Result<(Entry, GovernanceEffect), OrNoMemory<Refusal>>
        requires some { 0 < len_of self.old }
        requires fits { is_request request.now ≡ true }
        requires founding { is_founding request.now ≡ false }
        requires recovery { is_recovery request.now ≡ false }
        ensures made { IfOk result (λ made.
            govern_after (past_of self.old) view request.now
            ≡ Ok (made.0, Governed made.1.proposal)) }
        ensures refused { IfErr result (λ e.
            Refuses (govern_after (past_of self.old) view request.now) e) }
        ensures kept { self.new ≡ self.old }
    {
        self.tail.entry_of_governance(view, request)
    }

    /// Cuts the ledger to a seqno that isn't below the base. Takes no memory.
    pub fn cut(&mut self, to: u64)
        requires from_base { base_of self.old ≤ to }
        ensures { self.new
            ≡ with_entries self.old (take (to - base_of self.old) self.old.entries) }
    {
        if to >= self.tail.ledger_len() {
            return;
        }
        self.lists.cut(&self.tail.state().gov, to);
        self.tail.cut(to);
    }

    /// The same in memory of its own.
    pub fn copy(&self) -> Result<Self, AllocError>
        ensures { IfOk result (λ ledger. ledger ≡ self.now) }
    {
        let snapshot = shared(&self.snapshot)?;
        let tail = self.tail.copy()?;
        let lists = self.lists.copy(self.alloc)?;
        Ok(BookLedger {
            alloc: self.alloc,
            snapshot,
            tail,
            lists,
        })
    }

    /// Adds copies of entries one after another, up to the first that breaks a rule.
    fn append_each(&mut self, entries: &[Entry]) -> Result<(), OrNoMemory<Rejection>>
        ensures appended { OnOk result
            (appended self.old entries.now ≡ Ok self.new) }
        ensures refused { IfErr result (λ e. Fails e (appended self.old entries.now)) }
        ensures prefix { OnErr result (take (length self.old.entries) self.new.entries
            ≡ self.old.entries) }
        ensures base { self.new.snapshot ≡ self.old.snapshot }
    {
        for entry in entries {
            let copy = entry.copy(self.alloc)?;
            if let Err(error) = self.apply(copy) {
                return Err(by_rule(error));
            }
        }
        Ok(())
    }

    /// Adds copies of entries, each of which has to follow: all or nothing.
    fn append(&mut self, entries: &[Entry]) -> Result<(), OrNoMemory<Rejection>>
        ensures appended { OnOk result (appended self.old entries.now ≡ Ok self.new) }
        ensures refused { IfErr result (λ e. Fails e (appended self.old entries.now)) }
        ensures err { OnErr result (self.new ≡ self.old) }
    {
        let len = self.len();
        if let Err(error) = self.append_each(entries) {
            self.cut(len);
            return Err(error);
        }
        Ok(())
    }

    /// Cuts the ledger to a seqno from the base on and adds copies of entries, each of which has to
    /// follow: all or nothing, on a copy that takes the ledger's place.
    fn append_to_copy(&mut self, seqno: u64, entries: &[Entry]) -> Result<(), OrNoMemory<Rejection>>
        requires from_base { base_of self.old ≤ seqno }
        ensures replaced { OnOk result
            (appended (cut_to seqno self.old) entries.now ≡ Ok self.new) }
        ensures refused { IfErr result (λ e.
            Fails e (appended (cut_to seqno self.old) entries.now)) }
        ensures err { OnErr result (self.new ≡ self.old) }
    {
        let mut copy = self.copy()?;
        copy.cut(seqno);
        if let Err(error) = copy.append_each(entries) {
            return Err(error);
        }
        *self = copy;
        Ok(())
    }

    /// Cuts the ledger to a seqno that isn't below the base and adds copies of entries, each of
    /// which has to follow: all or nothing. A ledger that isn't cut by it isn't copied.
    pub fn replace_tail(
        &mut self,
        seqno: u64,
        entries: &[Entry],
    ) -> Result<(), OrNoMemory<Rejection>>
        requires from_base { base_of self.old ≤ seqno }
        ensures replaced { OnOk result
            (appended (cut_to seqno self.old) entries.now ≡ Ok self.new) }
        ensures refused { IfErr result (λ e.
            Fails e (appended (cut_to seqno self.old) entries.now)) }
        ensures err { OnErr result (self.new ≡ self.old) }
    {
        if seqno < self.len() {
            self.append_to_copy(seqno, entries)
        } else {
            self.append(entries)
        }
    }
}

/// The bytes of a body, to be shared.
fn spelled(alloc: Global, body: &Body) -> Result<ArcSlice<u8>, AllocError>
    requires { is_counted body.now ≡ true }
    ensures { IfOk result (λ bytes. arc_slice_items bytes ≡ body_bytes body.now) }
{
    let mut bytes = Vec::new(alloc);
    put_body(&mut bytes, body)?;
    ArcSlice::from_vec(bytes)
}

/// The rows of governance of a body that can be read.
fn read_rows(alloc: Global, body: &Body) -> Result<GovernedRows, AllocError>
    requires { IsBaseBody body.now }
    ensures { IfOk result (λ governed.
        rows.governed_rows body.now.base body.now.rows ≡ Ok governed) }
{
    match governed_rows(alloc, body.base, body.rows.as_slice()) {
        Ok(rows) => Ok(rows),
        Err(OrNoMemory::NoMemory) => Err(AllocError),
        Err(OrNoMemory::Fault(_)) => unreachable!(),
    }
}

/// The same bytes once more, if there are some.
fn shared(bytes: &Option<ArcSlice<u8>>) -> Result<Option<ArcSlice<u8>>, AllocError>
    ensures { IfOk result (λ shared.
        option_map arc_slice_items shared ≡ option_map arc_slice_items bytes.now) }
{
    match bytes {
        None => Ok(None),
        Some(bytes) => Ok(Some(bytes.clone()?)),
    }
}

/// Takes in what the last entry of a tail changes of its nodes. Where memory runs out, the entry is
/// taken back.
fn list_last(alloc: Global, lists: &mut NodeLists, tail: &mut LedgerTail) -> Result<(), AllocError>
    requires listed { (body : bodies.Body) × StandsBehind body tail.old × (n : ℕ)
        × (length tail.old.entries ≡ suc n)
        × AreListsOf body.base (governed_up_to (body.base + n) tail.old.state.gov) n lists.old }
    ensures listed { OnOk result (AreListsOf tail.new.base_end.len tail.new.state.gov
        (length tail.new.entries) lists.new) }
    ensures kept { OnOk result (tail.new ≡ tail.old) }
    ensures configurations { OnErr result
        (lists.new.configurations.items ≡ lists.old.configurations.items) }
    ensures recorded { OnErr result (lists.new.recorded.items ≡ lists.old.recorded.items) }
    ensures taken_back { OnErr result (Becomes tail.old
        (take (length tail.old.entries - 1) tail.old.entries) tail.new) }
{
    let seqno = tail.ledger_len();
    if let Err(error) = lists.push_last(alloc, &tail.state().gov, seqno) {
        tail.cut(seqno - 1);
        return Err(error);
    }
    Ok(())
}
