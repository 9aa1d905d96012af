//! What there is to do where something is signed: the key file is opened, the source read, and what
//! is reported made with the next leaf of the key, which the file then keeps as spent.

ghost use Rattle.std.specs.Prelude.{◌≡◌, ◌≢◌, ◌≤◌, ℕ, Err, IfOk, IsTrue, length};
ghost use Rattle.gl_entry.specs.SourceBytes.{OfBytes};
ghost use Rattle.gl_base.specs.declared.or_no_memory.OrNoMemory.{OrNoMemory};
ghost use Rattle.gl_consortium.specs.declared.fault.SigningFault.{SigningFault};
ghost use Rattle.gl_journal.specs.declared.fault.JournalFault.{JournalFault};
ghost use Rattle.gl_keyfile.specs.KeyFile.{disk_of};
ghost use Rattle.ccfg.specs.KeyFiles.{IsOpened, held};
ghost use Rattle.gl_store_book.specs.NodeFile.{opened};
ghost use Rattle.gl_store_book.specs.Frames.{goes_on_ledger};
ghost use Rattle.gl_keyfile.specs.Leaf.{after_leaf};
ghost use Rattle.gl_keyfile.specs.SigningRequest.{kind_of, use_of};
ghost use Rattle.gl_journal.specs.Durable.{OpensToOneOf, journal_header};
ghost use Rattle.gl_journal.specs.Parts.{HasGate};
ghost use Rattle.gl_outside.specs.Disk.{IsImage, Leaves};
ghost use Rattle.gl_keyfile.specs.declared.fault.KeyFileFault.{KeyFileFault};
ghost use Rattle.gl_outside.specs.Fault.{Rose};
ghost use Rattle.ccfg.specs.ExpectedOutput.{EndsSource, OfShown, json_limit, output_of_signed, output_of_signing, output_of_text};
ghost use Rattle.ccfg.specs.Plans.{MovesByLeaf, OpensAsBefore, PlansPlayable, PrintsFault, PrintsSpent, PrintsUnopened, output_of_plan};
ghost use Rattle.ccfg.specs.SignCommand.{HasNoKey, IsForeign};

use crate::fault::Fault;
use crate::plan::{Plan, PlanError};
use crate::source_bytes::{JSON_LIMIT, ReadError, read_whole};
use gl_base::OrNoMemory;
use gl_consortium::{SigningFault, sign};
use gl_journal::JournalFault;
use gl_keyfile::{KeyFile, KeyFileFault, Signing};
use gl_outside::{Disk, Source};
use gl_store_book::LedgerLog;
use std::alloc::Global;

/// What there is to do where no key file could be opened.
pub(crate) fn open_stop(error: OrNoMemory<KeyFileFault>) -> Result<Plan, PlanError>
    requires { (reserved : ℕ) → error ≢ OrNoMemory.Fault (KeyFileFault.KeyExhausted reserved) }
    ensures reported { IfOk result (PrintsUnopened error) }
    ensures disk_failed { result ≡ Err PlanError.DiskFailed →
        error ≡ OrNoMemory.Fault (KeyFileFault.Journal JournalFault.DiskFault) }
    ensures disk { error ≡ OrNoMemory.Fault (KeyFileFault.Journal JournalFault.DiskFault) →
        result ≡ Err PlanError.DiskFailed }
    ensures no_source { result ≢ Err PlanError.SourceFailed }
{
    match error {
        OrNoMemory::NoMemory => Err(PlanError::Memory),
        OrNoMemory::Fault(KeyFileFault::Journal(JournalFault::DiskFault)) => {
            Err(PlanError::DiskFailed)
        }
        OrNoMemory::Fault(KeyFileFault::Journal(fault)) => Ok(Plan::Refuse(Fault::Journal(fault))),
        OrNoMemory::Fault(KeyFileFault::KeyKind { want, got }) => {
            Ok(Plan::Refuse(Fault::KeyKind { want, got }))
        }
        OrNoMemory::Fault(KeyFileFault::KeyExhausted { .. }) => unreachable!(),
    }
}

/// What there is to do where nothing was signed.
fn unsigned_plan(fault: SigningFault) -> Result<Plan, PlanError>
    ensures output { IfOk result (λ plan. output_of_signed (Err fault) ≡ output_of_plan plan) }
    ensures reported { IfOk result (λ plan. PrintsFault plan × (fault ≢ SigningFault.DiskFailed)) }
    ensures disk_failed { result ≡ Err PlanError.DiskFailed → fault ≡ SigningFault.DiskFailed }
    ensures no_source { result ≢ Err PlanError.SourceFailed }
{
    match fault {
        SigningFault::DiskFailed => Err(PlanError::DiskFailed),
        SigningFault::Form(fault) => Ok(Plan::Refuse(Fault::Form(fault))),
        fault => Ok(Plan::Refuse(Fault::Signing(fault))),
    }
}

/// What there is to do with a text within the limit on JSON that is to be signed with the key of a
/// file. Where the plan is to tell something, the file keeps that its leaf is spent.
fn sign_text<D: Disk>(
    alloc: Global,
    signing: &Signing,
    text: &[u8],
    file: KeyFile<D, LedgerLog>,
) -> (Result<Plan, PlanError>, D)
    requires open { IsTrue D.honest → IsOpened D.bytes D.past file }
    requires kind { (held file).key.kind ≡ kind_of signing.now }
    requires within { length text.now ≤ json_limit }
    ensures output { IfOk result.0 (λ plan.
        output_of_text signing.now (held file) text.now ≡ output_of_plan plan) }
    ensures playable { IfOk result.0 (λ plan. PlansPlayable plan) }
    ensures disk_failed { result.0 ≡ Err PlanError.DiskFailed →
        Rose (D.faults (disk_of file)) (D.faults result.1) }
    ensures no_source { result.0 ≢ Err PlanError.SourceFailed }
    ensures spent { IsTrue D.honest → IfOk result.0 (λ plan.
        PrintsSpent (use_of signing.now) (D.bytes (disk_of file)) (D.past result.1) plan) }
    ensures refused { IfOk result.0 (λ plan. PrintsFault plan → result.1 ≡ disk_of file) }
    ensures any_moment { IsTrue D.honest → Leaves (OpensToOneOf goes_on_ledger (held file)
        (after_leaf (use_of signing.now) (held file)))
        (D.past (disk_of file)) (D.past result.1) }
{
    let (signed, disk) = sign(alloc, signing, text, file);
    match signed {
        Ok(reported) => (Ok(Plan::Print(reported)), disk),
        Err(OrNoMemory::Fault(fault)) => (unsigned_plan(fault), disk),
        Err(OrNoMemory::NoMemory) => (Err(PlanError::Memory), disk),
    }
}

/// What there is to do with what a source gives, which is to be signed with the key of a file.
fn plan_with_key<S: Source, D: Disk>(
    alloc: Global,
    signing: &Signing,
    source: &mut S,
    file: KeyFile<D, LedgerLog>,
) -> (Result<Plan, PlanError>, D)
    requires open { IsTrue D.honest → IsOpened D.bytes D.past file }
    requires kind { (held file).key.kind ≡ kind_of signing.now }
    ensures output { IfOk result.0 (λ plan. OfBytes (S.left source.old) (λ given.
        output_of_text signing.now (held file) given ≡ output_of_plan plan)) }
    ensures ended { IfOk result.0 (λ plan. EndsSource (output_of_plan plan) (S.ended source.new)) }
    ensures playable { IfOk result.0 (λ plan. PlansPlayable plan) }
    ensures failed { result.0 ≡ Err PlanError.SourceFailed →
        Rose (S.faults source.old) (S.faults source.new) }
    ensures quiet { result.0 ≢ Err PlanError.SourceFailed →
        S.faults source.new ≡ S.faults source.old }
    ensures disk_failed { result.0 ≡ Err PlanError.DiskFailed →
        Rose (D.faults (disk_of file)) (D.faults result.1) }
    ensures spent { IsTrue D.honest → IfOk result.0 (λ plan.
        PrintsSpent (use_of signing.now) (D.bytes (disk_of file)) (D.past result.1) plan) }
    ensures refused { IfOk result.0 (λ plan. PrintsFault plan → result.1 ≡ disk_of file) }
    ensures any_moment { IsTrue D.honest → Leaves (OpensToOneOf goes_on_ledger (held file)
        (after_leaf (use_of signing.now) (held file)))
        (D.past (disk_of file)) (D.past result.1) }
    ensures stopped { result.0 ≡ Err PlanError.SourceFailed → result.1 ≡ disk_of file }
{
    match read_whole(alloc, JSON_LIMIT, source) {
        Ok(text) => sign_text(alloc, signing, &text, file),
        Err(ReadError::TooLong) => (Ok(Plan::Refuse(Fault::TooMuchJson)), file.into_disk()),
        Err(ReadError::Memory) => (Err(PlanError::Memory), file.into_disk()),
        Err(ReadError::Failed) => (Err(PlanError::SourceFailed), file.into_disk()),
    }
}

/// What there is to do with what a source gives, which is to be signed with the key of the disk's
/// file. Where the disk has no key file of the kind that signs this, the source isn't read. Where
/// the plan is to tell something, the file keeps that its leaf is spent; where it is to report a
/// fault, or the source failed, the file opens to what it opened to.
pub fn signing_plan<S: Source, D: Disk>(
    alloc: Global,
    signing: &Signing,
    source: &mut S,
    disk: D,
) -> (Result<Plan, PlanError>, D)
    ensures output { IfOk result.0 (λ plan. OfShown D.honest (D.bytes disk) (λ shown.
        OfBytes (S.left source.old) (λ given.
        output_of_signing signing.now shown.opens given ≡ output_of_plan plan))) }
    ensures ended { IfOk result.0 (λ plan. EndsSource (output_of_plan plan) (S.ended source.new)) }
    ensures playable { IfOk result.0 (λ plan. PlansPlayable plan) }
    ensures failed { result.0 ≡ Err PlanError.SourceFailed →
        Rose (S.faults source.old) (S.faults source.new) }
    ensures quiet { result.0 ≢ Err PlanError.SourceFailed →
        S.faults source.new ≡ S.faults source.old }
    ensures disk_failed { result.0 ≡ Err PlanError.DiskFailed →
        Rose (D.faults disk) (D.faults result.1) }
    ensures foreign { IsTrue D.honest → IsForeign (opened (D.bytes disk)) →
        Leaves (IsImage (D.past disk)) (D.past disk) (D.past result.1) }
    ensures foreign_bytes { IsTrue D.honest → IsForeign (opened (D.bytes disk)) →
        result.0 ≢ Err PlanError.DiskFailed → D.bytes result.1 ≡ D.bytes disk }
    ensures unread { IsTrue D.honest → HasNoKey (kind_of signing.now) (opened (D.bytes disk)) →
        source.new ≡ source.old }
    ensures spent { IsTrue D.honest → IfOk result.0 (λ plan.
        PrintsSpent (use_of signing.now) (D.bytes disk) (D.past result.1) plan) }
    ensures refused { IsTrue D.honest → IfOk result.0 (λ plan. PrintsFault plan →
        OpensAsBefore (D.bytes disk) (D.bytes result.1)) }
    ensures stopped { IsTrue D.honest → result.0 ≡ Err PlanError.SourceFailed →
        OpensAsBefore (D.bytes disk) (D.bytes result.1) }
    ensures any_moment { IsTrue D.honest → HasGate journal_header (D.bytes disk) →
        MovesByLeaf (use_of signing.now) (D.bytes disk) (D.past disk) (D.past result.1) }
{
    match KeyFile::<D, LedgerLog>::open(alloc, disk, signing.kind()) {
        Ok(file) => plan_with_key(alloc, signing, source, file),
        Err((error, disk)) => (open_stop(error), disk),
    }
}
