//! The entries of a ledger above a base: of those up to it the body of a snapshot tells what is
//! left of them.

ghost use Rattle.std.specs.Prelude.{◌≡◌, ◌+◌, ◌-◌, ◌≤◌, ◌<◌, [], ◌∷◌, ◌++◌, true, Ok, length, take, None, IfOk, IfErr, IfSome, OnErr, OnOk};
ghost use Rattle.std.specs.Arc.{arc_value};
ghost use Rattle.std.specs.List.{AllByRecursion};
ghost use Rattle.std.specs.Option.{option_copied};
ghost use Rattle.gl_base.specs.TxId.{last_seqno};
ghost use Rattle.gl_rules.specs.Log.{entry_at};
ghost use Rattle.gl_entry.specs.Entry.{is_entry};
ghost use Rattle.gl_gov_rules.specs.GovernedRows.{governed_rows};
ghost use Rattle.gl_snapshot_body.specs.Body.{is_body, no_body};
ghost use Rattle.gl_snapshot_body.specs.declared.body.Body as bodies;

use gl_audit::{LedgerEnd, LedgerState, entry_at};
use gl_base::OrNoMemory;
use gl_entry::Entry;
use gl_gov_rules::GovernedRows;
use gl_ledger::Broken;
use gl_requests::HssPublicKey;
use gl_snapshot_body::Body;
use std::alloc::{AllocError, Global};
use std::marker::Model;
use std::sync::Arc;

mod evidence;
mod governance;
mod receipts;
mod requests;

/// The entries of a ledger above a base, and what they come to. Where the base is 0 they are the
/// whole ledger. Up to a base above 0 they are let go: the body of a snapshot tells what is left of
/// them, and its base is the seqno of a signature. At every moment no entry breaks a rule of the
/// audit after those before it.
#[derive(Drop)]
pub struct LedgerTail {
    base_end: LedgerEnd,
    base_identity: Option<HssPublicKey>,
    entries: Vec<Entry>,
    state: LedgerState,
    alloc: Global,
}

impl Model for LedgerTail {
    ghost use Rattle.std.specs.Coded.{codes};
    ghost use Rattle.gl_vmaps.specs.Kept.{kept_code};
    ghost use Rattle.gl_store.specs.Tail.{IsTail, Tail};

    ghost Value = { Tail };

    ghost coded = { Prim.hlevel (codes, kept_code) };

    ghost view = { λ t. record {
      base_end = t.base_end;
      base_identity = t.base_identity;
      entries = t.entries.items;
      state = t.state;
    } };

    ghost invariant = { λ t. IsTail (record {
      base_end = t.base_end;
      base_identity = t.base_identity;
      entries = t.entries.items;
      state = t.state;
    }) };
}

impl LedgerTail {
    ghost use Rattle.gl_ledger.specs.Audit.{audited_over};
    ghost use Rattle.gl_ledger.specs.Broken.{broken_over};
    ghost use Rattle.gl_ledger.specs.NodeKeys.{service_layers};
    ghost use Rattle.gl_ledger.specs.Snapshot.{snapshot_over, view_at};
    ghost use Rattle.gl_audit.specs.Kept.{Breaks, IsState, IsStateOver, IsWhole};
    ghost use Rattle.gl_store.specs.Tail.{Becomes, ForBodies, IsTail, StandsBehind};

    /// Of no entries, from the start of a ledger on.
    pub fn new(alloc: Global) -> Result<Self, AllocError>
        ensures empty { IfOk result (λ tail. tail.entries ≡ []) }
        ensures stands { IfOk result (λ tail. StandsBehind no_body tail) }
    {
        let state = LedgerState::new(alloc)?;
        Ok(LedgerTail::of_state(alloc, state))
    }

    /// Of no entries behind a base, of which the body of a snapshot tells, with its rows of
    /// governance as they were read. Fails only where memory runs out.
    pub fn at_base(
        alloc: Global,
        body: Body,
        governed: Arc<GovernedRows>,
    ) -> Result<Self, AllocError>
        requires fits { is_body body ≡ true }
        requires some { 0 < body.base }
        requires read { governed_rows body.base body.rows ≡ Ok (arc_value governed) }
        ensures empty { IfOk result (λ tail. tail.entries ≡ []) }
        ensures stands { IfOk result (λ tail. StandsBehind body tail) }
    {
        let state = LedgerState::at_base(alloc, body, governed)?;
        Ok(LedgerTail::of_state(alloc, state))
    }

    /// Of no entries, whose state this is.
    fn of_state(alloc: Global, state: LedgerState) -> Self
        requires { (body : bodies.Body) × IsStateOver body [] state × IsWhole state }
        ensures empty { result.entries ≡ [] }
        ensures stands { (body : bodies.Body) → IsStateOver body [] state → IsWhole state →
            StandsBehind body result }
    {
        LedgerTail {
            base_end: state.end(),
            base_identity: state.identity,
            entries: Vec::new(alloc),
            state,
            alloc,
        }
    }

    /// The seqno of the base, 0 where the entries are a whole ledger.
    pub fn base(&self) -> u64
        ensures base { ForBodies self.now (λ body. result ≡ body.base) }
    {
        self.base_end.len
    }

    /// The seqno of the last entry; that of the base where there is none above it.
    pub fn ledger_len(&self) -> u64
        ensures len { ForBodies self.now (λ body.
            result ≡ body.base + length self.now.entries) }
        ensures named { result ≤ last_seqno }
        ensures valid { ForBodies self.now (λ body.
            audited_over service_layers body self.now.entries ≡ None) }
        ensures tail { IsTail self.now }
    {
        self.state.end().len
    }

    /// The entries above the base, in order.
    pub fn entries(&self) -> &[Entry]
        ensures entries { result.now ≡ self.now.entries }
        ensures fit { AllByRecursion (λ e. is_entry e ≡ true) self.now.entries }
    {
        &self.entries
    }

    /// The entry with a seqno. `None` up to the base and above the last.
    pub fn entry(&self, seqno: u64) -> Option<&Entry>
        ensures entry { ForBodies self.now (λ body.
            option_copied result ≡ entry_at self.now.entries (seqno - body.base)) }
        ensures fits { IfSome result (λ e. is_entry e.now ≡ true) }
        ensures numbered { IfSome result (λ e. e.now.seqno ≡ seqno) }
    {
        entry_at(&self.entries, seqno.saturating_sub(self.base_end.len))
    }

    /// The view of the entry with a seqno, one up to the base too. `None` at 0 and above the last.
    pub fn view_at(&self, seqno: u64) -> Option<u32>
        ensures view { ForBodies self.now (λ body. 0 < seqno →
            result ≡ view_at body self.now.entries seqno) }
        ensures zero { seqno ≡ 0 → result ≡ None }
    {
        self.state.view_at(seqno)
    }

    /// What the entries come to.
    pub fn state(&self) -> &LedgerState
        ensures state { result.now ≡ self.now.state }
        ensures stands { IsState self.now.state }
    {
        &self.state
    }

    /// The seqno of the entry that follows.
    pub(crate) fn next_seqno(&self) -> u64
        ensures { ForBodies self.now (λ body.
            result ≡ body.base + length self.now.entries + 1) }
    {
        self.ledger_len() + 1
    }

    /// Adds an entry of which it is known that it breaks no rule. Running out of memory leaves all
    /// as it was.
    pub fn push(&mut self, entry: Entry) -> Result<(), AllocError>
        requires unbroken { (body : bodies.Body) × StandsBehind body self.old
            × (broken_over service_layers body self.old.entries entry ≡ None) }
        ensures grown { OnOk result (self.new.entries ≡ self.old.entries ++ entry ∷ []) }
        ensures stands { OnOk result (ForBodies self.old (λ body.
            broken_over service_layers body self.old.entries entry ≡ None →
            StandsBehind body self.new)) }
        ensures err { OnErr result (Becomes self.old self.old.entries self.new) }
    {
        self.entries.reserve(1)?;
        self.state.push(&entry)?;
        self.entries.push_reserved(entry);
        Ok(())
    }

    /// Adds an entry that another node made. Refused for the first rule of the audit that it breaks
    /// after those before it, if it breaks one. Running out of memory, too, leaves all as it was.
    pub fn apply(&mut self, entry: Entry) -> Result<(), OrNoMemory<Broken>>
        ensures unbroken { OnOk result (ForBodies self.old (λ body.
            broken_over service_layers body self.old.entries entry ≡ None)) }
        ensures grown { OnOk result
            (Becomes self.old (self.old.entries ++ entry ∷ []) self.new) }
        ensures refused { IfErr result (λ e. ForBodies self.old (λ body.
            Breaks (broken_over service_layers body self.old.entries entry) e)) }
        ensures err { OnErr result (Becomes self.old self.old.entries self.new) }
    {
        self.entries.reserve(1)?;
        self.state.apply(&entry)?;
        self.entries.push_reserved(entry);
        Ok(())
    }

    /// Takes back the entries above a seqno that isn't below the base. Takes no memory.
    pub fn cut(&mut self, to: u64)
        requires from_base { ForBodies self.old (λ body. body.base ≤ to) }
        requires within { ForBodies self.old (λ body.
            to ≤ body.base + length self.old.entries) }
        ensures entries { ForBodies self.old (λ body.
            self.new.entries ≡ take (to - body.base) self.old.entries) }
        ensures stands { ForBodies self.old (λ body. StandsBehind body self.new) }
    {
        let signed = self.state.last_signed_up_to(to);
        self.entries.truncate((to - self.base_end.len) as usize);
        let end = LedgerEnd::over(self.base_end, &self.entries, signed);
        self.state.cut(to, end);
    }

    /// The same in memory of its own. Fails only where memory runs out.
    pub fn copy(&self) -> Result<Self, AllocError>
        ensures entries { IfOk result (λ tail. tail.entries ≡ self.now.entries) }
        ensures stands { IfOk result (λ tail. ForBodies self.now (λ body.
            StandsBehind body tail)) }
    {
        Ok(LedgerTail {
            base_end: self.base_end,
            base_identity: self.base_identity,
            entries: copy_entries(self.alloc, &self.entries)?,
            state: self.state.copy(self.alloc)?,
            alloc: self.alloc,
        })
    }

    /// The body of a snapshot of the ledger up to a seqno that isn't below the base. Fails only
    /// where memory runs out.
    pub fn snapshot(&self, to: u64) -> Result<Body, AllocError>
        requires from_base { ForBodies self.now (λ body. body.base ≤ to) }
        requires within { ForBodies self.now (λ body.
            to ≤ body.base + length self.now.entries) }
        ensures body { IfOk result (λ body. ForBodies self.now (λ before.
            body ≡ snapshot_over before (take (to - before.base) self.now.entries))) }
    {
        let signed = self.state.last_signed_up_to(to);
        let (kept, _) = self.entries.split_at((to - self.base_end.len) as usize);
        let end = LedgerEnd::over(self.base_end, kept, signed);
        self.state.snapshot_up_to(to, end)
    }
}

fn copy_entries(alloc: Global, entries: &[Entry]) -> Result<Vec<Entry>, AllocError>
    ensures { IfOk result (λ copies. copies.items ≡ entries.now) }
{
    let mut copies = Vec::with_capacity(alloc, entries.len())?;
    for entry in entries {
        copies.push(entry.copy(alloc)?)?;
    }
    Ok(copies)
}
