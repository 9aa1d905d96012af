//! What an event makes of a node and of its file.

ghost use Rattle.std.specs.Prelude.{◌≡◌, ◌≤◌, ℕ, IfOk, IsTrue, length, true};
ghost use Rattle.gl_entry.specs.declared.entry.Entry.{Entry as Item};
ghost use Rattle.gl_journal.specs.Kept.{IsKept};
ghost use Rattle.gl_messages.specs.Message.{most_entries};
ghost use Rattle.gl_replication.specs.Events.{AreFit, IsAccepted, has_few_entries, is_request, rule_of};
ghost use Rattle.gl_replication.specs.Stands.{Reports};
ghost use Rattle.gl_node.specs.Changes.{Extends, IsAsKept, IsTurned, TakesEntries};
ghost use Rattle.gl_node.specs.Comes.{Comes, EndsWith};
ghost use Rattle.gl_node.specs.Persistence.{IsServing};

use crate::change::{Change, change_of};
use crate::changed::Before;
use crate::fault::NodeFault;
use crate::frames::{frames_of, next_frame, room};
use crate::kept_book::KeptBook;
use crate::persist::keep;
use crate::rollback::take_back;
use crate::rule::{kept_upto, step_core};
use gl_base::TxId;
use gl_entry::Entry;
use gl_journal::Journal;
use gl_outside::Disk;
use gl_replication::{Core, Done, Event, Refusal};

/// An event that changes nothing of what the file keeps. It takes no memory but what the node does.
fn pass<D: Disk, B: KeptBook>(
    core: &mut Core<B>,
    journal: &Journal<D>,
    event: &Event<B>,
) -> Result<Done<B>, NodeFault<B>>
    requires settled { IsTrue D.honest → IsKept D.bytes D.past journal.now }
    requires kept { Reports B.stands core.old (λ b x n. IsAsKept n (rule_of event.now b x n).node) }
    ensures comes { IsServing B.stands B.held B.snapshot_of B.goes_on D.honest D.bytes D.past
        core.old journal.now → Comes B.stands B.held B.snapshot_of B.goes_on D.honest D.bytes D.past
        D.faults (rule_of event.now) core.old journal.now result core.new journal.now }
    ensures file { EndsWith D.honest D.bytes D.past D.faults journal.now result journal.now }
    ensures snapshot { B.base_snapshot core.new.book ≡ B.base_snapshot core.old.book }
    ensures sent { IfOk result (λ done. AreFit done.sent) }
    ensures accepted { IfOk result (λ done.
        is_request event.now ≡ true → IsAccepted B.fits done.outcome) }
{
    match step_core(core, event) {
        Err(why) => Err(NodeFault::Refused(why)),
        Ok(done) => Ok(done),
    }
}

/// An event that adds no entry. Memory for what is kept of it is taken first.
fn turn<D: Disk, B: KeptBook>(
    core: &mut Core<B>,
    journal: &mut Journal<D>,
    event: &Event<B>,
) -> Result<Done<B>, NodeFault<B>>
    requires settled { IsTrue D.honest → IsKept D.bytes D.past journal.old }
    requires turned { Reports B.stands core.old
        (λ b x n. IsTurned n (rule_of event.now b x n).node) }
    ensures comes { IsServing B.stands B.held B.snapshot_of B.goes_on D.honest D.bytes D.past
        core.old journal.old → Comes B.stands B.held B.snapshot_of B.goes_on D.honest D.bytes D.past
        D.faults (rule_of event.now) core.old journal.old result core.new journal.new }
    ensures file { EndsWith D.honest D.bytes D.past D.faults journal.old result journal.new }
    ensures snapshot { B.base_snapshot core.new.book ≡ B.base_snapshot core.old.book }
    ensures sent { IfOk result (λ done. AreFit done.sent) }
    ensures accepted { IfOk result (λ done.
        is_request event.now ≡ true → IsAccepted B.fits done.outcome) }
{
    let before = Before::of(core);
    let records = match room(core.alloc, journal, &[]) {
        Err(_) => return Err(NodeFault::Refused(Refusal::NoMemory)),
        Ok(records) => records,
    };
    match step_core(core, event) {
        Err(why) => Err(NodeFault::Refused(why)),
        Ok(done) => {
            let kept = core.book.ledger_len();
            match keep(core, journal, &before, kept, &[], records) {
                Ok(()) => Ok(done),
                Err(_) => Err(NodeFault::DiskFault),
            }
        }
    }
}

/// A leader's entries. Their frames are made first, and memory for what is kept is taken.
fn take<D: Disk, B: KeptBook>(
    core: &mut Core<B>,
    journal: &mut Journal<D>,
    event: &Event<B>,
    view: u32,
    prev: TxId,
    entries: &[Entry],
) -> Result<Done<B>, NodeFault<B>>
    requires few { length entries.now ≤ most_entries }
    requires settled { IsTrue D.honest → IsKept D.bytes D.past journal.old }
    requires takes { Reports B.stands core.old (λ b x n.
        TakesEntries b x n view prev entries.now (rule_of event.now b x n)) }
    ensures comes { IsServing B.stands B.held B.snapshot_of B.goes_on D.honest D.bytes D.past
        core.old journal.old → Comes B.stands B.held B.snapshot_of B.goes_on D.honest D.bytes D.past
        D.faults (rule_of event.now) core.old journal.old result core.new journal.new }
    ensures file { EndsWith D.honest D.bytes D.past D.faults journal.old result journal.new }
    ensures snapshot { B.base_snapshot core.new.book ≡ B.base_snapshot core.old.book }
    ensures sent { IfOk result (λ done. AreFit done.sent) }
    ensures accepted { IfOk result (λ done.
        is_request event.now ≡ true → IsAccepted B.fits done.outcome) }
{
    let before = Before::of(core);
    let frames = match frames_of(core.alloc, entries) {
        Err(_) => return Err(NodeFault::Refused(Refusal::NoMemory)),
        Ok(frames) => frames,
    };
    let records = match room(core.alloc, journal, &frames) {
        Err(_) => return Err(NodeFault::Refused(Refusal::NoMemory)),
        Ok(records) => records,
    };
    let kept = kept_upto(core, view, prev, entries);
    match step_core(core, event) {
        Err(why) => Err(NodeFault::Refused(why)),
        Ok(done) => {
            let count = core.book.ledger_len().saturating_sub(kept);
            let new = &frames[frames.len().saturating_sub(count as usize)..];
            match keep(core, journal, &before, kept, new, records) {
                Ok(()) => Ok(done),
                Err(_) => Err(NodeFault::DiskFault),
            }
        }
    }
}

/// An event that adds one entry. Its frame is made, and memory for what is kept is taken; where
/// there is none, the entry is taken back.
fn make<D: Disk, B: KeptBook>(
    core: &mut Core<B>,
    journal: &mut Journal<D>,
    event: &Event<B>,
) -> Result<Done<B>, NodeFault<B>>
    requires settled { IsTrue D.honest → IsKept D.bytes D.past journal.old }
    requires extends { Reports B.stands core.old (λ b x n. Extends n (rule_of event.now b x n)) }
    ensures comes { IsServing B.stands B.held B.snapshot_of B.goes_on D.honest D.bytes D.past
        core.old journal.old → Comes B.stands B.held B.snapshot_of B.goes_on D.honest D.bytes D.past
        D.faults (rule_of event.now) core.old journal.old result core.new journal.new }
    ensures file { EndsWith D.honest D.bytes D.past D.faults journal.old result journal.new }
    ensures snapshot { B.base_snapshot core.new.book ≡ B.base_snapshot core.old.book }
    ensures sent { IfOk result (λ done. AreFit done.sent) }
    ensures accepted { IfOk result (λ done.
        is_request event.now ≡ true → IsAccepted B.fits done.outcome) }
{
    let before = Before::of(core);
    let done = match step_core(core, event) {
        Err(why) => return Err(NodeFault::Refused(why)),
        Ok(done) => done,
    };
    let frames = match next_frame(core.alloc, &core.book, before.count) {
        Err(_) => {
            take_back(core, &before);
            return Err(NodeFault::Refused(Refusal::NoMemory));
        }
        Ok(frames) => frames,
    };
    let records = match room(core.alloc, journal, &frames) {
        Err(_) => {
            take_back(core, &before);
            return Err(NodeFault::Refused(Refusal::NoMemory));
        }
        Ok(records) => records,
    };
    match keep(core, journal, &before, before.len, &frames, records) {
        Ok(()) => Ok(done),
        Err(_) => Err(NodeFault::DiskFault),
    }
}

/// What an event makes of a node and of its file.
pub(crate) fn dispatch<D: Disk, B: KeptBook>(
    core: &mut Core<B>,
    journal: &mut Journal<D>,
    event: &Event<B>,
) -> Result<Done<B>, NodeFault<B>>
    requires few { has_few_entries event.now ≡ true }
    requires settled { IsTrue D.honest → IsKept D.bytes D.past journal.old }
    ensures comes { IsServing B.stands B.held B.snapshot_of B.goes_on D.honest D.bytes D.past
        core.old journal.old → Comes B.stands B.held B.snapshot_of B.goes_on D.honest D.bytes D.past
        D.faults (rule_of event.now) core.old journal.old result core.new journal.new }
    ensures file { EndsWith D.honest D.bytes D.past D.faults journal.old result journal.new }
    ensures snapshot { B.base_snapshot core.new.book ≡ B.base_snapshot core.old.book }
    ensures sent { IfOk result (λ done. AreFit done.sent) }
    ensures accepted { IfOk result (λ done.
        is_request event.now ≡ true → IsAccepted B.fits done.outcome) }
{
    let me = core.book.me();
    match change_of(event, &me) {
        Change::Nothing => pass(core, journal, event),
        Change::ElectionStep => turn(core, journal, event),
        Change::Entries {
            view,
            prev,
            entries,
        } => take(core, journal, event, view, prev, entries),
        Change::Entry => make(core, journal, event),
    }
}
