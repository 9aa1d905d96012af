//! What there is to do where a key is to begin: its file is begun, and its public form told.

ghost use Rattle.std.specs.Prelude.{◌≡◌, ◌≢◌, ℕ, ◌<◌, ◌≤◌, [], Err, IfErr, IfOk, IsTrue, length};
ghost use Rattle.gl_entry.specs.SourceBytes.{OfBytes};
ghost use Rattle.gl_journal.specs.Durable.{OpensToKeyAlone};
ghost use Rattle.gl_store_book.specs.Frames.{goes_on_ledger};
ghost use Rattle.gl_outside.specs.Disk.{Leaves};
ghost use Rattle.gl_outside.specs.Fault.{Rose};
ghost use Rattle.ccfg.specs.ExpectedOutput.{EndsSource, OfShown, key_line, on_empty, output_of_answer, output_of_seed, seed_len};
ghost use Rattle.ccfg.specs.Plans.{IsUntouched, MovesToKey, PlansPlayable, PrintsFault, ShowsKept, output_of_plan};
ghost use Rattle.ccfg.specs.declared.fault.Fault.TheVariants.{NotEmpty, Short};
ghost use Rattle.ccfg.specs.declared.plan.Plan.TheVariants.{Refuse};
ghost use Rattle.gl_base.specs.declared.or_no_memory.OrNoMemory.{OrNoMemory};
ghost use Rattle.gl_journal.specs.declared.fault.JournalFault.{JournalFault};
ghost use Rattle.gl_keyfile.specs.declared.fault.KeyFileFault.{KeyFileFault};

use crate::fault::Fault;
use crate::plan::{Plan, PlanError};
use crate::source_bytes::{ReadError, read_whole};
use gl_base::OrNoMemory;
use gl_forms::write_key;
use gl_hss::Types;
use gl_journal::{JournalFault, Key, KeyKind};
use gl_keyfile::{KeyFile, KeyFileFault, key_form};
use gl_outside::{Disk, Source};
use gl_store_book::LedgerLog;
use std::alloc::{AllocError, Global};

/// How many bytes the seed of a key has.
const SEED_LEN: usize = 32;

/// The line of a key's public form, as JSON.
fn key_line(alloc: Global, key: &Key) -> Result<Vec<u8>, AllocError>
    ensures { IfOk result (λ line. line.items ≡ key_line key.now) }
{
    let mut line = write_key(alloc, &key_form(alloc, key)?)?;
    line.push(b'\n')?;
    Ok(line)
}

/// The seed that these bytes are, which are not more than a seed has.
fn seed_in(text: &[u8]) -> Result<[u8; SEED_LEN], Fault>
    requires { length text.now ≤ seed_len }
    ensures seed { IfOk result (λ seed. seed ≡ text.now) }
    ensures sized { IfOk result (λ seed. length text.now ≡ seed_len) }
    ensures short { IfErr result (λ fault.
        (fault ≡ Short (length text.now)) × (length text.now < seed_len)) }
{
    match text.first_chunk::<SEED_LEN>() {
        Some(seed) => Ok(*seed),
        None => Err(Fault::Short {
            at: text.len() as u64,
        }),
    }
}

/// What there is to do where no key file could be begun. A disk that tells bytes now told before
/// that it holds none; so it is taken to hold one at least.
fn begin_stop(error: OrNoMemory<KeyFileFault>) -> Result<Plan, PlanError>
    ensures not_empty { IfOk result (λ plan. (len reported : ℕ)
        × (error ≡ OrNoMemory.Fault (KeyFileFault.Journal (JournalFault.NotEmpty len)))
        × (0 < reported) × (plan ≡ Refuse (NotEmpty reported))) }
    ensures disk_failed { result ≡ Err PlanError.DiskFailed → (fault : KeyFileFault)
        × (error ≡ OrNoMemory.Fault fault)
        × ((len : ℕ) → fault ≢ KeyFileFault.Journal (JournalFault.NotEmpty len)) }
    ensures no_source { result ≢ Err PlanError.SourceFailed }
{
    match error {
        OrNoMemory::NoMemory => Err(PlanError::Memory),
        OrNoMemory::Fault(KeyFileFault::Journal(JournalFault::NotEmpty { len })) => {
            Ok(Plan::Refuse(Fault::NotEmpty { len: len.max(1) }))
        }
        OrNoMemory::Fault(_) => Err(PlanError::DiskFailed),
    }
}

/// Begins the file of a key on an empty disk. The line that is to be reported then is made before,
/// so that no memory is wanted after it.
fn begin_file<D: Disk>(alloc: Global, key: Key, disk: D) -> (Result<Plan, PlanError>, D)
    requires empty { IsTrue D.honest → D.bytes disk ≡ [] }
    ensures output { IfOk result.0 (λ plan. OfShown D.honest (D.bytes disk) (λ shown.
        on_empty shown.len (output_of_answer (key_line key)) ≡ output_of_plan plan)) }
    ensures playable { IfOk result.0 (λ plan. PlansPlayable plan) }
    ensures disk_failed { result.0 ≡ Err PlanError.DiskFailed →
        Rose (D.faults disk) (D.faults result.1) }
    ensures no_source { result.0 ≢ Err PlanError.SourceFailed }
    ensures kept { IsTrue D.honest → IfOk result.0 (λ plan.
        ShowsKept key.kind key.types (D.past result.1) key.seed plan) }
    ensures begun { IsTrue D.honest → IfOk result.0 (λ plan. PrintsFault plan → ⊥) }
    ensures any_moment { IsTrue D.honest →
        Leaves (OpensToKeyAlone goes_on_ledger key (D.past disk)) (D.past disk) (D.past result.1) }
{
    let Ok(line) = key_line(alloc, &key) else {
        return (Err(PlanError::Memory), disk);
    };
    match KeyFile::<D, LedgerLog>::create(alloc, disk, key) {
        Ok(file) => (Ok(Plan::Print(line)), file.into_disk()),
        Err((error, disk)) => (begin_stop(error), disk),
    }
}

/// What there is to do with what a source gives, which is to be the seed of a key, on an empty
/// disk.
fn plan_on_empty<S: Source, D: Disk>(
    alloc: Global,
    kind: KeyKind,
    types: Types,
    source: &mut S,
    disk: D,
) -> (Result<Plan, PlanError>, D)
    requires empty { IsTrue D.honest → D.bytes disk ≡ [] }
    ensures output { IfOk result.0 (λ plan. OfShown D.honest (D.bytes disk) (λ shown.
        OfBytes (S.left source.old) (λ given.
        on_empty shown.len (output_of_seed kind types given) ≡ output_of_plan plan))) }
    ensures ended { IfOk result.0 (λ plan. EndsSource (output_of_plan plan) (S.ended source.new)) }
    ensures playable { IfOk result.0 (λ plan. PlansPlayable plan) }
    ensures failed { result.0 ≡ Err PlanError.SourceFailed →
        Rose (S.faults source.old) (S.faults source.new) }
    ensures quiet { result.0 ≢ Err PlanError.SourceFailed →
        S.faults source.new ≡ S.faults source.old }
    ensures disk_failed { result.0 ≡ Err PlanError.DiskFailed →
        Rose (D.faults disk) (D.faults result.1) }
    ensures kept { IsTrue D.honest → IfOk result.0 (λ plan. OfBytes (S.left source.old) (λ given.
        ShowsKept kind types (D.past result.1) given plan)) }
    ensures refused { IsTrue D.honest →
        IfOk result.0 (λ plan. PrintsFault plan → IsUntouched D.bytes D.past disk result.1) }
    ensures stopped { IsTrue D.honest → result.0 ≡ Err PlanError.SourceFailed →
        IsUntouched D.bytes D.past disk result.1 }
    ensures any_moment { IsTrue D.honest → OfBytes (S.left source.old)
        (MovesToKey kind types (D.past disk) (D.past result.1)) }
{
    match read_whole(alloc, SEED_LEN, source) {
        Ok(text) => match seed_in(&text) {
            Ok(seed) => begin_file(alloc, Key { kind, types, seed }, disk),
            Err(fault) => (Ok(Plan::Refuse(fault)), disk),
        },
        Err(ReadError::TooLong) => {
            let at = SEED_LEN as u64;
            (Ok(Plan::Refuse(Fault::Trailing { at })), disk)
        }
        Err(ReadError::Memory) => (Err(PlanError::Memory), disk),
        Err(ReadError::Failed) => (Err(PlanError::SourceFailed), disk),
    }
}

/// What there is to do where a key of this kind and these types is to begin on a disk, with what a
/// source gives, which is to be its seed. Where the disk isn't empty the source isn't read. Where
/// the plan is to show a key its file is kept.
pub fn keygen_plan<S: Source, D: Disk>(
    alloc: Global,
    kind: KeyKind,
    types: Types,
    source: &mut S,
    disk: D,
) -> (Result<Plan, PlanError>, D)
    ensures output { IfOk result.0 (λ plan. OfShown D.honest (D.bytes disk) (λ shown.
        OfBytes (S.left source.old) (λ given.
        on_empty shown.len (output_of_seed kind types given) ≡ output_of_plan plan))) }
    ensures ended { IfOk result.0 (λ plan. EndsSource (output_of_plan plan) (S.ended source.new)) }
    ensures playable { IfOk result.0 (λ plan. PlansPlayable plan) }
    ensures failed { result.0 ≡ Err PlanError.SourceFailed →
        Rose (S.faults source.old) (S.faults source.new) }
    ensures quiet { result.0 ≢ Err PlanError.SourceFailed →
        S.faults source.new ≡ S.faults source.old }
    ensures disk_failed { result.0 ≡ Err PlanError.DiskFailed →
        Rose (D.faults disk) (D.faults result.1) }
    ensures kept { IsTrue D.honest → IfOk result.0 (λ plan. OfBytes (S.left source.old) (λ given.
        ShowsKept kind types (D.past result.1) given plan)) }
    ensures not_empty { IsTrue D.honest → 0 < length (D.bytes disk) →
        IsUntouched D.bytes D.past disk result.1 }
    ensures unread { IsTrue D.honest → 0 < length (D.bytes disk) → source.new ≡ source.old }
    ensures refused { IsTrue D.honest →
        IfOk result.0 (λ plan. PrintsFault plan → IsUntouched D.bytes D.past disk result.1) }
    ensures stopped { IsTrue D.honest → result.0 ≡ Err PlanError.SourceFailed →
        IsUntouched D.bytes D.past disk result.1 }
    ensures any_moment { IsTrue D.honest → OfBytes (S.left source.old)
        (MovesToKey kind types (D.past disk) (D.past result.1)) }
{
    let mut disk = disk;
    match disk.len() {
        Ok(0) => plan_on_empty(alloc, kind, types, source, disk),
        Ok(len) => (Ok(Plan::Refuse(Fault::NotEmpty { len })), disk),
        Err(_) => (Err(PlanError::DiskFailed), disk),
    }
}
