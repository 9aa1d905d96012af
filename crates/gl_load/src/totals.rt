//! The audit of a ledger, and what is counted of it on the way.

ghost use Rattle.std.specs.Prelude.{◌≡◌, ◌+◌, ◌^◌, ◌∷◌, ◌++◌, ◌<◌, ◌≤◌, List, [], None, true, length, All, IsTrue, IfOk, OnOk, if◌then◌else◌};
ghost use Rattle.gl_entry.specs.Entry.{frame_bytes, is_entry, is_signature};
ghost use Rattle.gl_entry.specs.declared.entry.Entry.{Entry as Item};
ghost use Rattle.gl_ledger.specs.Audit.{audited};
ghost use Rattle.gl_ledger.specs.Broken.{broken};
ghost use Rattle.gl_ledger.specs.NodeKeys.{service_layers};
ghost use Rattle.gl_audit.specs.Kept.{ForLedgers, IsStateOf};
ghost use Rattle.gl_load.specs.Report.{id_or_none, report_of};
ghost use Rattle.gl_load.specs.Totals.{AreTotalsOf};

use crate::report::Report;
use crate::requests::LOAD_MAP;
use gl_audit::LedgerState;
use gl_base::{OrNoMemory, TxId};
use gl_entry::{Content, Entry};
use std::alloc::{AllocError, Global};

/// What is counted of a ledger that is audited entry by entry: its signatures, and the bytes of its
/// frames.
#[derive(Drop)]
struct Totals {
    state: LedgerState,
    signatures: u64,
    bytes: u64,
}

/// Tries an entry by the rules of the audit, after those before it. After a signature the state
/// lets go of what later entries don't ask for.
fn audit(state: &mut LedgerState, entry: &Entry) -> Result<(), AllocError>
    requires { (ledger : List Item) × IsStateOf ledger state.old
        × (broken service_layers ledger entry.now ≡ None) }
    ensures { OnOk result (ForLedgers state.old (λ ledger.
        IsStateOf (ledger ++ entry.now ∷ []) state.new)) }
{
    match state.apply(entry) {
        Ok(()) => {}
        Err(OrNoMemory::NoMemory) => return Err(AllocError),
        Err(OrNoMemory::Fault(_)) => unreachable!(),
    }
    if matches!(entry.content, Content::Signature(_)) {
        state.settle()
    } else {
        Ok(())
    }
}

/// How many bytes the frame of an entry has.
#[tactic(auto, using(crate::proofs::Auditing::frame_lengths))]
fn frame_len(entry: &Entry) -> u64
    requires { is_entry entry.now ≡ true }
    ensures exact { result ≡ length (frame_bytes entry.now) }
    ensures small { result ≤ 2 ^ 21 }
{
    entry.frame_len()
}

/// 1 for a signature, 0 for any other entry.
fn signature_count(entry: &Entry) -> u64
    ensures { result ≡ (if is_signature entry.now.content then 1 else 0) }
{
    match entry.content {
        Content::Signature(_) => 1,
        _ => 0,
    }
}

/// A transaction, 0.0 where there is none.
fn id_or_none(id: Option<TxId>) -> TxId
    ensures { result ≡ id_or_none id }
{
    match id {
        None => TxId { view: 0, seqno: 0 },
        Some(id) => id,
    }
}

impl Totals {
    /// Those of no entries.
    fn new(alloc: Global) -> Result<Self, AllocError>
        ensures { IfOk result (λ totals. AreTotalsOf [] totals) }
    {
        Ok(Totals {
            state: LedgerState::new(alloc)?,
            signatures: 0,
            bytes: 0,
        })
    }

    /// Audits an entry that breaks no rule, and counts it.
    fn add(&mut self, entry: &Entry) -> Result<(), AllocError>
        requires next { (ledger : List Item) × AreTotalsOf ledger self.old
            × (broken service_layers ledger entry.now ≡ None) }
        requires fits { is_entry entry.now ≡ true }
        ensures { OnOk result ((ledger : List Item) → AreTotalsOf ledger self.old →
            AreTotalsOf (ledger ++ entry.now ∷ []) self.new) }
    {
        audit(&mut self.state, entry)?;
        self.bytes += frame_len(entry);
        self.signatures += signature_count(entry);
        Ok(())
    }

    /// What they come to.
    fn report(&self) -> Report
        requires { (ledger : List Item) × AreTotalsOf ledger self.now × (0 < length ledger) }
        ensures { (ledger : List Item) → AreTotalsOf ledger self.now → result ≡ report_of ledger }
    {
        let end = self.state.end();
        Report {
            entries: end.len,
            signatures: self.signatures,
            bytes: self.bytes,
            keys: self.state.tables().size(LOAD_MAP),
            last: id_or_none(end.last),
            root: self.state.root(),
        }
    }
}

/// Audits entries, none of which breaks a rule after those before it, and counts them.
fn totals_of(alloc: Global, entries: &[Entry]) -> Result<Totals, AllocError>
    requires valid { audited service_layers entries.now ≡ None }
    requires fit { All (λ e. IsTrue (is_entry e)) entries.now }
    ensures { IfOk result (λ totals. AreTotalsOf entries.now totals) }
{
    let mut totals = Totals::new(alloc)?;
    for entry in entries {
        totals.add(entry)?;
    }
    Ok(totals)
}

/// What is told of a ledger, none of whose entries breaks a rule: each is audited once more, after
/// those before it. Fails only where memory runs out.
pub(crate) fn report(alloc: Global, entries: &[Entry]) -> Result<Report, AllocError>
    requires some { 0 < length entries.now }
    requires valid { audited service_layers entries.now ≡ None }
    requires fit { All (λ e. IsTrue (is_entry e)) entries.now }
    ensures { IfOk result (λ report. report ≡ report_of entries.now) }
{
    let totals = totals_of(alloc, entries)?;
    Ok(totals.report())
}
