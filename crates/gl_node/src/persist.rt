//! What an event changed, kept as one batch in memory that was taken before.

ghost use Rattle.std.specs.Prelude.{map, Some, ◌≡◌, ◌==◌, ◌&&◌, ◌≤◌, ◌<◌, ◌+◌, ◌-◌, ◌^◌, ◌++◌, ℕ, List, Ok, [], IsTrue, OnOk, IfOk, length, take, vec_len, vec_capacity};
ghost use Rattle.gl_outside.specs.Disk.{IsImage, Leaves as LeavesOf};
ghost use Rattle.gl_outside.specs.Fault.{Counts};
ghost use Rattle.gl_journal.specs.Durable.{LogRules, Durable as State, durable, leaf_count, OpensToOneOf};
ghost use Rattle.gl_journal.specs.Kept.{IsKept, HasBatchRoom};
ghost use Rattle.gl_journal.specs.Parts.{items_of};
ghost use Rattle.gl_journal.specs.Records.{record_body};
ghost use Rattle.gl_journal.specs.RecordView.{record_value};
ghost use Rattle.gl_journal.specs.declared.record.Record.TheVariants.{Vote};
ghost use Rattle.gl_node.specs.Frames.{EachGoesOn, appends_size};
ghost use Rattle.gl_node.specs.Kept.{is_same_vote, with_vote};
ghost use Rattle.gl_node.specs.Persistence.{kept_of};
ghost use Rattle.gl_node.specs.Batches.{Folds, IsChange, IsRoom, records_size};

use crate::changed::Before;
use crate::kept_book::KeptBook;
use gl_config::NodeId;
use gl_journal::{Journal, Record};
use gl_outside::{Disk, DiskFailed};
use gl_replication::Core;
use std::alloc::{AllocError, Global};

/// Whether two votes are one.
#[tactic(auto, unfolding(gl_rules::specs::Identity::same))]
fn is_same_vote(x: &Option<NodeId>, y: &Option<NodeId>) -> bool
    ensures { result ≡ is_same_vote x.now y.now }
{
    match (x, y) {
        (None, None) => true,
        (Some(x), Some(y)) => x == y,
        _ => false,
    }
}

/// Whether the view and the vote are those before.
fn is_same_view_vote(before: &Before, view: u32, vote: &Option<NodeId>) -> bool
    ensures { result ≡ (before.now.view == view && is_same_vote before.now.vote vote.now) }
{
    before.view == view && is_same_vote(&before.vote, vote)
}

/// A view and the vote for a node in it, as a record.
fn record_of_vote(view: u32, node: &NodeId) -> Record<'static>
    ensures value { result ≡ Vote view (Some node.now) }
    ensures size { length (record_body (record_value result)) ≤ 37 }
{
    Record::Vote {
        view,
        vote: Some(*node),
    }
}

/// A view and the vote in it, as a record.
fn record_of_turn(view: u32, vote: &Option<NodeId>) -> Record<'static>
    ensures value { result ≡ Vote view vote.now }
    ensures size { length (record_body (record_value result)) ≤ 37 }
{
    match vote {
        None => Record::Vote { view, vote: None },
        Some(node) => record_of_vote(view, node),
    }
}

/// The view and the vote, where one of them is another.
fn put_vote(records: &mut Vec<Record<'_>>, before: &Before, view: u32, vote: &Option<NodeId>)
    requires { vec_len records.old < vec_capacity records.old }
    ensures folds { (goes_on : LogRules) (d m : State) → Folds goes_on records.old.items d m →
        m.view ≡ before.now.view → m.vote ≡ before.now.vote → before.now.view ≤ view →
        Folds goes_on records.new.items d (with_vote view vote.now m) }
    ensures size { records_size records.new.items ≤ records_size records.old.items + 42 }
    ensures len { vec_len records.new ≤ vec_len records.old + 1 }
    ensures capacity { vec_capacity records.new ≡ vec_capacity records.old }
{
    if is_same_view_vote(before, view, vote) {
        return;
    }
    records.push_reserved(record_of_turn(view, vote));
}

/// The seqno that the ledger is cut to, where entries are taken away.
fn put_cut(records: &mut Vec<Record<'_>>, len: u64, kept: u64)
    requires { vec_len records.old < vec_capacity records.old }
    ensures folds { (goes_on : LogRules) (d m : State) → Folds goes_on records.old.items d m →
        m.base + length m.log ≡ len → m.base ≤ kept → kept ≤ len →
        Folds goes_on records.new.items d (record m { log = take (kept - m.base) m.log }) }
    ensures size { records_size records.new.items ≤ records_size records.old.items + 13 }
    ensures len { vec_len records.new ≤ vec_len records.old + 1 }
    ensures capacity { vec_capacity records.new ≡ vec_capacity records.old }
{
    if kept < len {
        records.push_reserved(Record::Cut { to: kept });
    }
}

/// The entries that are new.
fn put_appends<'a>(records: &mut Vec<Record<'a>>, frames: &'a [Vec<u8>])
    requires { vec_len records.old + length frames.now ≤ vec_capacity records.old }
    ensures folds { (goes_on : LogRules) (d m : State) → Folds goes_on records.old.items d m →
        EachGoesOn goes_on m.snapshot (m.log ++ items_of frames.now) →
        Folds goes_on records.new.items d (record m { log = m.log ++ items_of frames.now }) }
    ensures size { records_size records.new.items
        ≤ records_size records.old.items + appends_size (items_of frames.now) }
    ensures len { vec_len records.new ≤ vec_len records.old + length frames.now }
    ensures capacity { vec_capacity records.new ≡ vec_capacity records.old }
{
    for frame in frames {
        records.push_reserved(Record::Append { frame });
    }
}

/// How many leaves are reserved, where one more is.
fn put_signer(records: &mut Vec<Record<'_>>, before: u64, reserved: u64)
    requires { vec_len records.old < vec_capacity records.old }
    ensures folds { (goes_on : LogRules) (d m : State) → Folds goes_on records.old.items d m →
        m.reserved ≡ before → before ≤ reserved → reserved ≤ leaf_count m → reserved < 2 ^ 32 →
        Folds goes_on records.new.items d (record m { reserved = reserved }) }
    ensures size { records_size records.new.items ≤ records_size records.old.items + 9 }
{
    if reserved != before {
        records.push_reserved(Record::Signer {
            reserved: reserved.min(u64::from(u32::MAX)) as u32,
        });
    }
}

/// Keeps records as one batch, if there are any.
fn commit<D: Disk>(journal: &mut Journal<D>, records: &[Record<'_>]) -> Result<(), DiskFailed>
    requires open { IsTrue D.honest → IsKept D.bytes D.past journal.old }
    requires small { records_size records.now < 2 ^ 32 }
    requires room { HasBatchRoom D.room_end D.room_calls journal.old (records_size records.now) }
    ensures open { IsTrue D.honest → OnOk result (IsKept D.bytes D.past journal.new) }
    ensures kept { IsTrue D.honest → (goes_on : LogRules) (state next : State) →
        durable goes_on (D.bytes journal.old.gated.disk) ≡ Ok state →
        Folds goes_on records.now state next →
        OnOk result (durable goes_on (D.bytes journal.new.gated.disk) ≡ Ok next) }
    ensures after { IsTrue D.honest → (goes_on : LogRules) (state next : State) →
        durable goes_on (D.bytes journal.old.gated.disk) ≡ Ok state →
        Folds goes_on records.now state next →
        OnOk result ((image : List ℕ) → IsImage (D.past journal.new.gated.disk) image →
        durable goes_on image ≡ Ok next) }
    ensures any_moment { IsTrue D.honest → (goes_on : LogRules) (state next : State) →
        durable goes_on (D.bytes journal.old.gated.disk) ≡ Ok state →
        Folds goes_on records.now state next →
        LeavesOf (OpensToOneOf goes_on state next)
        (D.past journal.old.gated.disk) (D.past journal.new.gated.disk) }
    ensures faults { Counts (D.faults journal.old.gated.disk)
        (D.faults journal.new.gated.disk) result }
{
    if records.is_empty() {
        return Ok(());
    }
    journal.commit_batch(records)
}

/// Keeps what is another than before as one batch: with the ledger cut to a seqno, and these frames
/// after it.
pub(crate) fn keep<'a, D: Disk, B: KeptBook>(
    core: &Core<B>,
    journal: &mut Journal<D>,
    before: &Before,
    kept: u64,
    frames: &'a [Vec<u8>],
    records: Vec<Record<'a>>,
) -> Result<(), DiskFailed>
    requires open { IsTrue D.honest → IsKept D.bytes D.past journal.old }
    requires small { 64 + appends_size (items_of frames.now) < 2 ^ 32 }
    requires room { HasBatchRoom D.room_end D.room_calls journal.old
        (64 + appends_size (items_of frames.now)) }
    requires records { IsRoom records (length frames.now) }
    ensures open { IsTrue D.honest → OnOk result (IsKept D.bytes D.past journal.new) }
    ensures kept { IsTrue D.honest → (d : State) →
        durable B.goes_on (D.bytes journal.old.gated.disk) ≡ Ok d →
        IsChange B.held B.goes_on d before.now kept (items_of frames.now) core.now →
        OnOk result (durable B.goes_on (D.bytes journal.new.gated.disk)
        ≡ Ok (kept_of B.held d core.now)) }
    ensures after { IsTrue D.honest → (d : State) →
        durable B.goes_on (D.bytes journal.old.gated.disk) ≡ Ok d →
        IsChange B.held B.goes_on d before.now kept (items_of frames.now) core.now →
        OnOk result ((image : List ℕ) → IsImage (D.past journal.new.gated.disk) image →
        durable B.goes_on image ≡ Ok (kept_of B.held d core.now)) }
    ensures any_moment { IsTrue D.honest → (d : State) →
        durable B.goes_on (D.bytes journal.old.gated.disk) ≡ Ok d →
        IsChange B.held B.goes_on d before.now kept (items_of frames.now) core.now →
        LeavesOf (OpensToOneOf B.goes_on d (kept_of B.held d core.now))
        (D.past journal.old.gated.disk) (D.past journal.new.gated.disk) }
    ensures faults { Counts (D.faults journal.old.gated.disk)
        (D.faults journal.new.gated.disk) result }
{
    let mut records = records;
    put_vote(&mut records, before, core.peer.view, &core.peer.vote);
    put_cut(&mut records, before.len, kept);
    put_appends(&mut records, frames);
    put_signer(&mut records, before.leaves.reserved, core.leaves.reserved);
    commit(journal, &records)
}
