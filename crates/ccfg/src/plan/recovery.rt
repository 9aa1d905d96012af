//! What there is to do where a service is to be recovered: the key file of its first node is
//! opened, and the ledger that opens the service made with the next leaf of the key, which the file
//! then keeps as spent.

ghost use Rattle.std.specs.Prelude.{◌≡◌, ◌≢◌, Err, IfOk, IsTrue, false};
ghost use Rattle.gl_entry.specs.SourceBytes.{OfBytes};
ghost use Rattle.gl_journal.specs.Durable.{OpensToOneOf, journal_header};
ghost use Rattle.gl_journal.specs.Parts.{HasGate};
ghost use Rattle.gl_journal.specs.declared.key.KeyKind.TheVariants.{Node};
ghost use Rattle.gl_keyfile.specs.KeyFile.{disk_of};
ghost use Rattle.ccfg.specs.KeyFiles.{IsOpened, held};
ghost use Rattle.gl_store_book.specs.NodeFile.{opened};
ghost use Rattle.gl_store_book.specs.Frames.{goes_on_ledger};
ghost use Rattle.gl_keyfile.specs.Leaf.{after_leaf};
ghost use Rattle.gl_keyfile.specs.declared.leaf.LeafUse.TheVariants.{Start};
ghost use Rattle.gl_outside.specs.Disk.{IsImage, Leaves};
ghost use Rattle.gl_outside.specs.Fault.{Rose};
ghost use Rattle.gl_recovery.specs.RecoveryOutput.{is_of_outside, is_source_read};
ghost use Rattle.gl_recovery.specs.declared.recovering_fault.RecoveringFault.TheVariants.{DiskFailed, SourceFailed};
ghost use Rattle.ccfg.specs.ExpectedOutput.{EndsSource, OfShown, output_of_old, output_of_recovered, output_of_recovering};
ghost use Rattle.ccfg.specs.Plans.{MovesByLeaf, OpensAsBefore, PlansPlayable, PrintsFault, PrintsSpent, output_of_plan};
ghost use Rattle.ccfg.specs.SignCommand.{HasNoKey, IsForeign};

use crate::fault::Fault;
use crate::plan::signature::open_stop;
use crate::plan::{Plan, PlanError};
use gl_base::OrNoMemory;
use gl_journal::KeyKind;
use gl_keyfile::KeyFile;
use gl_outside::{Disk, Source};
use gl_recovery::{RecoveringFault, recover};
use gl_store_book::LedgerLog;
use std::alloc::Global;

/// What there is to do where no service is recovered.
fn unfounded_plan(fault: RecoveringFault) -> Result<Plan, PlanError>
    ensures output { IfOk result (λ plan. output_of_recovered (Err fault) ≡ output_of_plan plan) }
    ensures reported { IfOk result (λ plan. PrintsFault plan × (is_of_outside fault ≡ false)) }
    ensures read { IfOk result (λ plan. (output_of_plan plan).whole ≡ is_source_read fault) }
    ensures playable { IfOk result (λ plan. PlansPlayable plan) }
    ensures disk_failed { result ≡ Err PlanError.DiskFailed → fault ≡ DiskFailed }
    ensures source_failed { result ≡ Err PlanError.SourceFailed → fault ≡ SourceFailed }
    ensures source { fault ≡ SourceFailed → result ≡ Err PlanError.SourceFailed }
{
    match fault {
        RecoveringFault::SourceFailed => Err(PlanError::SourceFailed),
        RecoveringFault::DiskFailed => Err(PlanError::DiskFailed),
        fault => Ok(Plan::Refuse(Fault::Recovering(fault))),
    }
}

/// What there is to do with what a source gives, by which a service is to be recovered with the key
/// of a node's file.
fn plan_with_node_key<S: Source, D: Disk>(
    alloc: Global,
    source: &mut S,
    file: KeyFile<D, LedgerLog>,
) -> (Result<Plan, PlanError>, D)
    requires open { IsTrue D.honest → IsOpened D.bytes D.past file }
    requires kind { (held file).key.kind ≡ Node }
    ensures output { IfOk result.0 (λ plan. OfBytes (S.left source.old) (λ given.
        output_of_old (held file) given ≡ output_of_plan plan)) }
    ensures ended { IfOk result.0 (λ plan. EndsSource (output_of_plan plan) (S.ended source.new)) }
    ensures playable { IfOk result.0 (λ plan. PlansPlayable plan) }
    ensures failed { result.0 ≡ Err PlanError.SourceFailed →
        Rose (S.faults source.old) (S.faults source.new) }
    ensures quiet { result.0 ≢ Err PlanError.SourceFailed →
        S.faults source.new ≡ S.faults source.old }
    ensures disk_failed { result.0 ≡ Err PlanError.DiskFailed →
        Rose (D.faults (disk_of file)) (D.faults result.1) }
    ensures spent { IsTrue D.honest → IfOk result.0 (λ plan.
        PrintsSpent Start (D.bytes (disk_of file)) (D.past result.1) plan) }
    ensures refused { IfOk result.0 (λ plan. PrintsFault plan → result.1 ≡ disk_of file) }
    ensures stopped { result.0 ≡ Err PlanError.SourceFailed → result.1 ≡ disk_of file }
    ensures any_moment { IsTrue D.honest →
        Leaves (OpensToOneOf goes_on_ledger (held file) (after_leaf Start (held file)))
        (D.past (disk_of file)) (D.past result.1) }
{
    let (reported, disk) = recover(alloc, source, file);
    match reported {
        Ok(reported) => (Ok(Plan::Print(reported)), disk),
        Err(OrNoMemory::Fault(fault)) => (unfounded_plan(fault), disk),
        Err(OrNoMemory::NoMemory) => (Err(PlanError::Memory), disk),
    }
}

/// What there is to do with what a source gives, by which a service is to be recovered with the key
/// of the disk's file. Where the disk has no key file of a node, the source isn't read. Where the
/// plan is to tell something, the file keeps that its leaf is spent; where it is to report a fault,
/// or the source failed, the file opens to what it opened to.
pub fn recovering_plan<S: Source, D: Disk>(
    alloc: Global,
    source: &mut S,
    disk: D,
) -> (Result<Plan, PlanError>, D)
    ensures output { IfOk result.0 (λ plan. OfShown D.honest (D.bytes disk) (λ shown.
        OfBytes (S.left source.old) (λ given.
        output_of_recovering shown.opens given ≡ output_of_plan plan))) }
    ensures ended { IfOk result.0 (λ plan. EndsSource (output_of_plan plan) (S.ended source.new)) }
    ensures playable { IfOk result.0 (λ plan. PlansPlayable plan) }
    ensures failed { result.0 ≡ Err PlanError.SourceFailed →
        Rose (S.faults source.old) (S.faults source.new) }
    ensures quiet { result.0 ≢ Err PlanError.SourceFailed →
        S.faults source.new ≡ S.faults source.old }
    ensures disk_failed { result.0 ≡ Err PlanError.DiskFailed →
        Rose (D.faults disk) (D.faults result.1) }
    ensures foreign { IsTrue D.honest → IsForeign (opened (D.bytes disk)) →
        Leaves (IsImage (D.past disk)) (D.past disk) (D.past result.1) }
    ensures foreign_bytes { IsTrue D.honest → IsForeign (opened (D.bytes disk)) →
        result.0 ≢ Err PlanError.DiskFailed → D.bytes result.1 ≡ D.bytes disk }
    ensures unread { IsTrue D.honest → HasNoKey Node (opened (D.bytes disk)) →
        source.new ≡ source.old }
    ensures spent { IsTrue D.honest → IfOk result.0 (λ plan.
        PrintsSpent Start (D.bytes disk) (D.past result.1) plan) }
    ensures refused { IsTrue D.honest → IfOk result.0 (λ plan. PrintsFault plan →
        OpensAsBefore (D.bytes disk) (D.bytes result.1)) }
    ensures stopped { IsTrue D.honest → result.0 ≡ Err PlanError.SourceFailed →
        OpensAsBefore (D.bytes disk) (D.bytes result.1) }
    ensures any_moment { IsTrue D.honest → HasGate journal_header (D.bytes disk) →
        MovesByLeaf Start (D.bytes disk) (D.past disk) (D.past result.1) }
{
    match KeyFile::<D, LedgerLog>::open(alloc, disk, KeyKind::Node) {
        Ok(file) => plan_with_node_key(alloc, source, file),
        Err((error, disk)) => (open_stop(error), disk),
    }
}
