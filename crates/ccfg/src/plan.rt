//! What there is to do with the bytes of a source.

ghost use Rattle.std.specs.Prelude.{◌≡◌, ◌≢◌, ℕ, ◌<◌, ◌≤◌, Err, IfErr, IfOk, IsTrue, Some, false, length};
ghost use Rattle.gl_outside.specs.Disk.{IsImage, Leaves};
ghost use Rattle.gl_outside.specs.Fault.{Rose};
ghost use Rattle.gl_entry.specs.SourceBytes.{OfBytes};
ghost use Rattle.gl_journal.specs.Durable.{journal_header};
ghost use Rattle.gl_journal.specs.Parts.{HasGate};
ghost use Rattle.gl_journal.specs.declared.key.KeyKind.{KeyKind};
ghost use Rattle.gl_store_book.specs.NodeFile.{opened};
ghost use Rattle.gl_keyfile.specs.declared.leaf.LeafUse.{LeafUse};
ghost use Rattle.gl_hss.specs.declared.types.Types.{Types};
ghost use Rattle.ccfg.specs.Commands.{key_kind, leaf_use, output_of, uses_disk};
ghost use Rattle.ccfg.specs.ExpectedOutput.{EndsSource, OfDue, bytes_limit, ending_of_stop, output_of_schedule};
ghost use Rattle.ccfg.specs.Plans.{IsUntouched, MovesByLeaf, MovesToKey, OpensAsBefore, PlansPlayable, PrintsFault, PrintsSpent, ShowsAccepted, ShowsKept, output_of_plan};
ghost use Rattle.ccfg.specs.SignCommand.{HasNoKey, IsForeign};
ghost use Rattle.gl_commands.specs.declared.task.Task.TheVariants.{Keygen};

use crate::ending::Ending;
use crate::fault::Fault;
use crate::plan::deal::read_dealing_plan;
use crate::plan::keygen::keygen_plan;
use crate::plan::ledger::read_ledger_plan;
use crate::plan::recovery::recovering_plan;
use crate::plan::signature::signing_plan;
use crate::plan::verify::read_receipt_plan;
use crate::source_bytes::{ReadError, read_whole};
use gl_base::{OrNoMemory, TxId};
use gl_commands::Task;
use gl_lines::{ScheduleFault, line_count};
use gl_outside::{Disk, Source};
use gl_schedule::{KeyedSchedule, read};
use std::alloc::{AllocError, Global};

mod deal;
mod keygen;
mod ledger;
mod recovery;
mod signature;
mod verify;

pub use ledger::ledger_line;
pub use verify::valid_line;

/// The most bytes that a schedule has.
const BYTES_LIMIT: usize = 16_777_216;

/// The most lines that a schedule has.
const LINES_LIMIT: usize = 100_000;

/// What there is to do.
#[derive(Drop)]
pub enum Plan {
    /// To play a schedule.
    Play(KeyedSchedule),
    /// To tell the transaction that a valid receipt shows.
    Show(TxId),
    /// To tell the last transaction of a valid ledger, and that of its last signature.
    ShowLedger(TxId, Option<TxId>),
    /// To tell what is made already: a dealing, the public form of a key that is kept, or what is
    /// signed with a leaf that is spent.
    Print(Vec<u8>),
    /// To report a fault.
    Refuse(Fault),
}

/// Why there is no plan.
#[derive(Clone, Copy, Debug, PartialEq, Eq)]
pub enum PlanError {
    Memory,
    SourceFailed,
    DiskFailed,
}

impl PlanError {
    /// How a run ends that has no plan.
    pub fn ending(self) -> Ending
        ensures { result ≡ ending_of_stop self }
    {
        match self {
            PlanError::Memory => Ending::Memory,
            PlanError::SourceFailed => Ending::SourceFailed,
            PlanError::DiskFailed => Ending::DiskFailed,
        }
    }
}

/// What there is to do with a schedule's text within the limit on bytes.
#[tactic(auto, unfolding(crate::specs::ExpectedOutput::output_of_schedule))]
fn schedule_plan(alloc: Global, text: &[u8]) -> Result<Plan, AllocError>
    requires { length text.now ≤ bytes_limit }
    ensures output { IfOk result (λ plan. output_of_schedule text.now ≡ output_of_plan plan) }
    ensures playable { IfOk result (λ plan. PlansPlayable plan) }
{
    if line_count(text) > LINES_LIMIT {
        return Ok(Plan::Refuse(Fault::TooManyLines));
    }
    match read(alloc, text) {
        Ok(schedule) => Ok(Plan::Play(schedule)),
        Err(OrNoMemory::Fault(ScheduleFault::BadLine(number))) => {
            Ok(Plan::Refuse(Fault::BadLine(number)))
        }
        Err(OrNoMemory::NoMemory) => Err(AllocError),
    }
}

/// What there is to do with what a source gives, which is to be a schedule.
fn read_schedule_plan<S: Source>(alloc: Global, source: &mut S) -> Result<Plan, PlanError>
    ensures output { IfOk result (λ plan.
        OfBytes (S.left source.old) (λ given. output_of_schedule given ≡ output_of_plan plan)) }
    ensures ended { IfOk result (λ plan. EndsSource (output_of_plan plan) (S.ended source.new)) }
    ensures playable { IfOk result (λ plan. PlansPlayable plan) }
    ensures failed { result ≡ Err PlanError.SourceFailed →
        Rose (S.faults source.old) (S.faults source.new) }
    ensures quiet { result ≢ Err PlanError.SourceFailed →
        S.faults source.new ≡ S.faults source.old }
    ensures no_disk { result ≢ Err PlanError.DiskFailed }
{
    match read_whole(alloc, BYTES_LIMIT, source) {
        Ok(text) => match schedule_plan(alloc, &text) {
            Ok(plan) => Ok(plan),
            Err(_) => Err(PlanError::Memory),
        },
        Err(ReadError::TooLong) => Ok(Plan::Refuse(Fault::TooManyBytes)),
        Err(ReadError::Memory) => Err(PlanError::Memory),
        Err(ReadError::Failed) => Err(PlanError::SourceFailed),
    }
}

/// What there is to do with what a source gives, and the disk, which the tasks with a key use.
pub fn read_plan<S: Source, D: Disk>(
    alloc: Global,
    task: &Task,
    source: &mut S,
    disk: D,
) -> (Result<Plan, PlanError>, D)
    ensures output { IfOk result.0 (λ plan. OfDue (output_of task.now) D.honest (D.bytes disk)
        (S.left source.old) (λ output. output ≡ output_of_plan plan)) }
    ensures sound { IfOk result.0 (λ plan.
        OfBytes (S.left source.old) (λ given. ShowsAccepted task.now given plan)) }
    ensures ended { IfOk result.0 (λ plan. EndsSource (output_of_plan plan) (S.ended source.new)) }
    ensures playable { IfOk result.0 (λ plan. PlansPlayable plan) }
    ensures failed { result.0 ≡ Err PlanError.SourceFailed →
        Rose (S.faults source.old) (S.faults source.new) }
    ensures quiet { result.0 ≢ Err PlanError.SourceFailed →
        S.faults source.new ≡ S.faults source.old }
    ensures disk_failed { result.0 ≡ Err PlanError.DiskFailed →
        Rose (D.faults disk) (D.faults result.1) }
    ensures disk { uses_disk task.now ≡ false →
        (result.1 ≡ disk) × (result.0 ≢ Err PlanError.DiskFailed) }

    // A key that is to begin.
    ensures kept { IsTrue D.honest → (kind : KeyKind) (types : Types) →
        task.now ≡ Keygen kind types → IfOk result.0 (λ plan. OfBytes (S.left source.old) (λ given.
        ShowsKept kind types (D.past result.1) given plan)) }
    ensures not_empty { IsTrue D.honest → 0 < length (D.bytes disk) → (kind : KeyKind)
        (types : Types) → task.now ≡ Keygen kind types →
        IsUntouched D.bytes D.past disk result.1 }
    ensures unread { IsTrue D.honest → 0 < length (D.bytes disk) → (kind : KeyKind)
        (types : Types) → task.now ≡ Keygen kind types → source.new ≡ source.old }
    ensures refused { IsTrue D.honest → (kind : KeyKind) (types : Types) →
        task.now ≡ Keygen kind types → IfOk result.0 (λ plan. PrintsFault plan →
        IsUntouched D.bytes D.past disk result.1) }
    ensures stopped { IsTrue D.honest → (kind : KeyKind) (types : Types) →
        task.now ≡ Keygen kind types → result.0 ≡ Err PlanError.SourceFailed →
        IsUntouched D.bytes D.past disk result.1 }
    ensures moves_to_key { IsTrue D.honest → (kind : KeyKind) (types : Types) →
        task.now ≡ Keygen kind types → OfBytes (S.left source.old)
        (MovesToKey kind types (D.past disk) (D.past result.1)) }

    // Something that is to be signed with a leaf of the file's key.
    ensures unread_key { IsTrue D.honest → (kind : KeyKind) → key_kind task.now ≡ Some kind →
        HasNoKey kind (opened (D.bytes disk)) → source.new ≡ source.old }
    ensures spent { IsTrue D.honest → (leaf : LeafUse) → leaf_use task.now ≡ Some leaf →
        IfOk result.0 (λ plan. PrintsSpent leaf (D.bytes disk) (D.past result.1) plan) }
    ensures unspent { IsTrue D.honest → (leaf : LeafUse) → leaf_use task.now ≡ Some leaf →
        IfOk result.0 (λ plan. PrintsFault plan →
        OpensAsBefore (D.bytes disk) (D.bytes result.1)) }
    ensures unspent_stopped { IsTrue D.honest → (leaf : LeafUse) →
        leaf_use task.now ≡ Some leaf → result.0 ≡ Err PlanError.SourceFailed →
        OpensAsBefore (D.bytes disk) (D.bytes result.1) }
    ensures foreign { IsTrue D.honest → (leaf : LeafUse) → leaf_use task.now ≡ Some leaf →
        IsForeign (opened (D.bytes disk)) →
        Leaves (IsImage (D.past disk)) (D.past disk) (D.past result.1) }
    ensures foreign_bytes { IsTrue D.honest → (leaf : LeafUse) → leaf_use task.now ≡ Some leaf →
        IsForeign (opened (D.bytes disk)) → result.0 ≢ Err PlanError.DiskFailed →
        D.bytes result.1 ≡ D.bytes disk }
    ensures any_moment { IsTrue D.honest → HasGate journal_header (D.bytes disk) →
        (leaf : LeafUse) → leaf_use task.now ≡ Some leaf →
        MovesByLeaf leaf (D.bytes disk) (D.past disk) (D.past result.1) }
{
    match task {
        Task::Replay => (read_schedule_plan(alloc, source), disk),
        Task::Verify { identity } => (read_receipt_plan(alloc, identity, source), disk),
        Task::Audit { identity } => (read_ledger_plan(alloc, identity, source), disk),
        Task::Keygen { kind, types } => keygen_plan(alloc, *kind, *types, source, disk),
        Task::Deal { threshold, members } => (
            read_dealing_plan(alloc, *threshold, members.as_slice(), source),
            disk,
        ),
        Task::Sign { signing } => signing_plan(alloc, signing, source, disk),
        Task::Recover => recovering_plan(alloc, source, disk),
    }
}
