//! Records, kept in a node's file as one batch.

ghost use Rattle.std.specs.Prelude.{ℕ, ◌≡◌, ◌⊎◌, ◌++◌, ◌<◌, ◌≤◌, ◌≢◌, ◌^◌, Some, Ok, Err, false, true, length, IsTrue, IsOk, IfOk, OnOk};
ghost use Rattle.std.specs.List.{AllByRecursion, flat_map};
ghost use Rattle.gl_base.specs.declared.or_no_memory.OrNoMemory.{OrNoMemory};
ghost use Rattle.gl_entry.specs.Entry.{frame_bytes, is_entry};
ghost use Rattle.gl_entry.specs.declared.entry.Entry.{Entry as Item};
ghost use Rattle.gl_rules.specs.World.{Start};
ghost use Rattle.gl_outside.specs.Disk.{Leaves};
ghost use Rattle.gl_outside.specs.Fault.{Rose};
ghost use Rattle.gl_journal.specs.Durable.{Durable as State, fold_records, OpensToOneOf};
ghost use Rattle.gl_journal.specs.Kept.{IsKept};
ghost use Rattle.gl_journal.specs.Records.{records_bytes};
ghost use Rattle.gl_journal.specs.declared.fault.JournalFault.{JournalFault};
ghost use Rattle.gl_store_book.specs.AtOpening.{append_records, opened_state, opening_size};
ghost use Rattle.gl_store_book.specs.Frames.{goes_on_ledger};
ghost use Rattle.gl_store_book.specs.NodeFile.{IsOpened, has_ledger, node_of, opened, OpensOnlyTo, seen_state};
ghost use Rattle.gl_store_book.specs.ServiceStart.{service_start, start_in};
ghost use Rattle.gl_store_book.specs.ViewVotes.{IsOfOpening, IsTooLarge, IsViewVoteOf, view_vote_records};
ghost use Rattle.gl_store_book.specs.declared.node_file.fault.OpeningFault.{OpeningFault};

use crate::node_file::fault::OpeningFault;
use crate::node_file::ledger_log::LedgerLog;
use crate::node_file::opening_batch::{ViewVote, appends_len, opening_records};
use crate::node_file::opening_ledger::{OpeningLedger, read_opening};
use gl_base::OrNoMemory;
use gl_config::NodeId;
use gl_entry::Entry;
use gl_journal::{Durable, Journal, JournalFault};
use gl_outside::Disk;
use std::alloc::Global;

/// The most bytes that a batch has.
const BATCH_LIMIT: u64 = 0xffff_ffff;

/// Keeps a view and a vote, where one of them is new, and entries whose frames the bytes are, one
/// after the other. Only a fault of the disk leaves another file than before.
pub fn keep_opening<D: Disk>(
    alloc: Global,
    journal: &mut Journal<D>,
    turn: &ViewVote,
    entries: &[Entry],
    bytes: &[u8],
) -> Result<(), OrNoMemory<OpeningFault>>
    requires open { IsTrue D.honest → IsKept D.bytes D.past journal.old }
    requires fit { AllByRecursion (λ e. is_entry e ≡ true) entries.now }
    requires few { length entries.now < 2 ^ 40 }
    requires frames { bytes.now ≡ flat_map frame_bytes entries.now }

    ensures open { IsTrue D.honest → OnOk result (IsKept D.bytes D.past journal.new) }
    ensures kept { IsTrue D.honest → (state next : State) →
        opened (D.bytes journal.old.gated.disk) ≡ Ok state →
        fold_records goes_on_ledger state (view_vote_records turn.now ++ append_records entries.now)
        ≡ Some next → OnOk result (opened (D.bytes journal.new.gated.disk) ≡ Ok next) }
    ensures after { IsTrue D.honest → (state next : State) →
        opened (D.bytes journal.old.gated.disk) ≡ Ok state →
        fold_records goes_on_ledger state (view_vote_records turn.now ++ append_records entries.now)
        ≡ Some next → OnOk result (OpensOnlyTo (D.past journal.new.gated.disk) next) }
    ensures any_moment { IsTrue D.honest → (state next : State) →
        opened (D.bytes journal.old.gated.disk) ≡ Ok state →
        fold_records goes_on_ledger state (view_vote_records turn.now ++ append_records entries.now)
        ≡ Some next → Leaves (OpensToOneOf goes_on_ledger state next)
        (D.past journal.old.gated.disk) (D.past journal.new.gated.disk) }
    ensures fits { OnOk result
        (length (records_bytes (view_vote_records turn.now ++ append_records entries.now))
        < 2 ^ 32) }
    ensures too_large { (size : ℕ) →
        result ≡ Err (OrNoMemory.Fault (OpeningFault.TooLarge size)) →
        (size ≡ length (records_bytes (view_vote_records turn.now ++ append_records entries.now)))
        × (2 ^ 32 ≤ size) }
    ensures stays { IsTrue D.honest → (error : OrNoMemory OpeningFault) → result ≡ Err error →
        error ≢ OrNoMemory.Fault (OpeningFault.Journal JournalFault.DiskFault) →
        (D.bytes journal.new.gated.disk ≡ D.bytes journal.old.gated.disk)
        × (D.past journal.new.gated.disk ≡ D.past journal.old.gated.disk) }
    ensures disk_fault { result ≡
        Err (OrNoMemory.Fault (OpeningFault.Journal JournalFault.DiskFault)) →
        Rose (D.faults journal.old.gated.disk) (D.faults journal.new.gated.disk) }
    ensures no_disk_fault { result ≢
        Err (OrNoMemory.Fault (OpeningFault.Journal JournalFault.DiskFault)) →
        D.faults journal.new.gated.disk ≡ D.faults journal.old.gated.disk }
    ensures only { (fault : OpeningFault) → result ≡ Err (OrNoMemory.Fault fault) →
        (fault ≡ OpeningFault.Journal JournalFault.DiskFault)
        ⊎ ((size : ℕ) × (fault ≡ OpeningFault.TooLarge size)) }
{
    let size = turn.record_len() + appends_len(entries);
    if size > BATCH_LIMIT {
        return Err(OrNoMemory::Fault(OpeningFault::TooLarge { size }));
    }
    let records = opening_records(alloc, turn, entries, bytes)?;
    match journal.keep(&records, size) {
        Ok(()) => Ok(()),
        Err(error) => Err(error.widen()),
    }
}

/// Keeps the opening ledger whose frames the bytes are, one after the other, in a node's file that
/// has no ledger, with the view and the vote of the node once its service opens.
pub(crate) fn keep_start<D: Disk>(
    alloc: Global,
    journal: &mut Journal<D>,
    state: &Durable<LedgerLog>,
    me: &NodeId,
    bytes: &[u8],
) -> Result<(OpeningLedger, ViewVote), OrNoMemory<OpeningFault>>
    requires file { IsOpened D.honest D.bytes D.past journal.old (seen_state state.now) }
    requires me { me.now ≡ node_of (seen_state state.now) }
    requires none { has_ledger (seen_state state.now) ≡ false }

    ensures start { IfOk result (λ r.
        start_in bytes.now ≡ Ok (service_start r.0.ledger r.0.first)) }
    ensures turn { IfOk result (λ r.
        IsViewVoteOf (service_start r.0.ledger r.0.first) (seen_state state.now) r.1) }
    ensures open { (s : Start Item) → start_in bytes.now ≡ Ok s → OnOk result
        (IsOpened D.honest D.bytes D.past journal.new (opened_state s (seen_state state.now))) }
    ensures any_moment { IsTrue D.honest → (s : Start Item) → start_in bytes.now ≡ Ok s →
        Leaves (OpensToOneOf goes_on_ledger (seen_state state.now)
        (opened_state s (seen_state state.now)))
        (D.past journal.old.gated.disk) (D.past journal.new.gated.disk) }
    ensures fits { (s : Start Item) → start_in bytes.now ≡ Ok s →
        OnOk result (opening_size s (seen_state state.now) < 2 ^ 32) }
    ensures not_opening { (seqno : ℕ) →
        result ≡ Err (OrNoMemory.Fault (OpeningFault.NotOpening seqno)) →
        start_in bytes.now ≡ Err seqno }
    ensures too_large { (size : ℕ) →
        result ≡ Err (OrNoMemory.Fault (OpeningFault.TooLarge size)) →
        IsTooLarge (start_in bytes.now) (seen_state state.now) size }
    ensures stays { IsTrue D.honest → (error : OrNoMemory OpeningFault) → result ≡ Err error →
        error ≢ OrNoMemory.Fault (OpeningFault.Journal JournalFault.DiskFault) →
        (D.bytes journal.new.gated.disk ≡ D.bytes journal.old.gated.disk)
        × (D.past journal.new.gated.disk ≡ D.past journal.old.gated.disk) }
    ensures disk_fault { result ≡
        Err (OrNoMemory.Fault (OpeningFault.Journal JournalFault.DiskFault)) →
        Rose (D.faults journal.old.gated.disk) (D.faults journal.new.gated.disk) }
    ensures no_disk_fault { result ≢
        Err (OrNoMemory.Fault (OpeningFault.Journal JournalFault.DiskFault)) →
        D.faults journal.new.gated.disk ≡ D.faults journal.old.gated.disk }
    ensures opening_first { result ≡
        Err (OrNoMemory.Fault (OpeningFault.Journal JournalFault.DiskFault)) →
        IsOk (start_in bytes.now) }
    ensures only { (fault : OpeningFault) → result ≡ Err (OrNoMemory.Fault fault) →
        IsOfOpening fault }
{
    let opening = match read_opening(alloc, bytes) {
        Ok(opening) => opening,
        Err(OrNoMemory::NoMemory) => return Err(OrNoMemory::NoMemory),
        Err(OrNoMemory::Fault(fault)) => {
            let seqno = fault.seqno;
            return Err(OrNoMemory::Fault(OpeningFault::NotOpening { seqno }));
        }
    };
    let turn = ViewVote::at_opening(state, me, &opening);
    prove!(opening.ledger.len() < 1 << 40);
    match keep_opening(alloc, journal, &turn, opening.ledger.entries(), bytes) {
        Ok(()) => Ok((opening, turn)),
        Err(error) => Err(error),
    }
}
