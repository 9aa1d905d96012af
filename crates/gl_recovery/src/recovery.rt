//! A service recovered from a source and a key file: what is reported is made with the next leaf of
//! the file, and handed out once the file keeps that the leaf is spent.

ghost use Rattle.std.specs.Prelude.{◌≡◌, ◌≢◌, ◌≤◌, ◌<◌, ◌^◌, true, false, Ok, Err, IfOk, IsTrue, OnOk};
ghost use Rattle.gl_base.specs.declared.or_no_memory.OrNoMemory.TheVariants.{Fault, NoMemory};
ghost use Rattle.gl_outside.specs.Fault.{Rose};
ghost use Rattle.gl_outside.specs.Disk.{Leaves};
ghost use Rattle.gl_hss.specs.Types.{height};
ghost use Rattle.gl_requests.specs.Ranges.{is_recovery};
ghost use Rattle.gl_journal.specs.Durable.{OpensToOneOf};
ghost use Rattle.gl_journal.specs.declared.key.KeyKind.TheVariants.{Node};
ghost use Rattle.gl_keyfile.specs.KeyFile.{IsOpened, OpensOnlyTo, disk_of, held, opened};
ghost use Rattle.gl_keyfile.specs.Leaf.{after_leaf};
ghost use Rattle.gl_keyfile.specs.declared.leaf.LeafUse.TheVariants.{Start};
ghost use Rattle.gl_entry.specs.SourceBytes.{OfBytes};
ghost use Rattle.gl_recovery.specs.RecoveryOutput.{expected_after, expected_by, expected_recover, is_of_outside, is_source_read};
ghost use Rattle.gl_recovery.specs.declared.recovering_fault.RecoveringFault.TheVariants.{DiskFailed, SourceFailed};
ghost use Rattle.gl_recovery.specs.declared.recovering_fault.RecoveringFault.{RecoveringFault};

use crate::recovering_fault::RecoveringFault;
use crate::settings_prefix::read_settings;
use crate::signer::{check_first_node, check_leaf, private_key};
use crate::start_ledger::start;
use gl_base::OrNoMemory;
use gl_forms::read_recovery;
use gl_journal::{EntryLog, Key};
use gl_keyfile::{KeyFile, LeafUse};
use gl_outside::{Disk, Source};
use gl_requests::Recovery;
use std::alloc::Global;

/// Recovers a service by a recovery, after the old ledger that a source gives, with a key of which
/// so many leaves are spent.
#[tactic(auto, unfolding(crate::specs::RecoveryOutput::expected_after))]
fn start_with_key<S: Source>(
    alloc: Global,
    source: &mut S,
    key: &Key,
    leaf: u32,
    recovery: Recovery,
) -> Result<Vec<u8>, OrNoMemory<RecoveringFault>>
    requires { is_recovery recovery ≡ true }
    ensures reported { IfOk result (λ reported. OfBytes (S.left source.old) (λ ledger.
        expected_after key.now leaf recovery ledger ≡ Ok reported.items)) }
    ensures refused { (fault : RecoveringFault) → result ≡ Err (Fault fault) →
        is_of_outside fault ≡ false → OfBytes (S.left source.old) (λ ledger.
        expected_after key.now leaf recovery ledger ≡ Err fault) }
    ensures below { OnOk result (leaf < 2 ^ height key.now.types) }
    ensures ended { OnOk result (S.ended source.new ≡ true) }
    ensures read { (fault : RecoveringFault) → result ≡ Err (Fault fault) →
        is_source_read fault ≡ true → S.ended source.new ≡ true }
    ensures no_disk { result ≢ Err (Fault DiskFailed) }
    ensures failed { result ≡ Err (Fault SourceFailed) →
        Rose (S.faults source.old) (S.faults source.new) }
    ensures quiet { result ≢ Err (Fault SourceFailed) →
        S.faults source.new ≡ S.faults source.old }
    ensures never_falls { S.faults source.old ≤ S.faults source.new }
{
    let by = private_key(alloc, key)?;
    check_first_node(&by, recovery.nodes.as_slice())?;
    check_leaf(key.types, leaf)?;
    match start(alloc, source, recovery, by, leaf) {
        Ok(reported) => Ok(reported),
        Err(error) => Err(error.widen()),
    }
}

/// Recovers a service by the settings and after the old ledger that a source gives, with a key of
/// which so many leaves are spent.
fn start_from_source<S: Source>(
    alloc: Global,
    source: &mut S,
    key: &Key,
    leaf: u32,
) -> Result<Vec<u8>, OrNoMemory<RecoveringFault>>
    ensures reported { IfOk result (λ reported. OfBytes (S.left source.old) (λ given.
        expected_by key.now leaf given ≡ Ok reported.items)) }
    ensures refused { (fault : RecoveringFault) → result ≡ Err (Fault fault) →
        is_of_outside fault ≡ false → OfBytes (S.left source.old) (λ given.
        expected_by key.now leaf given ≡ Err fault) }
    ensures below { OnOk result (leaf < 2 ^ height key.now.types) }
    ensures ended { OnOk result (S.ended source.new ≡ true) }
    ensures read { (fault : RecoveringFault) → result ≡ Err (Fault fault) →
        is_source_read fault ≡ true → S.ended source.new ≡ true }
    ensures no_disk { result ≢ Err (Fault DiskFailed) }
    ensures failed { result ≡ Err (Fault SourceFailed) →
        Rose (S.faults source.old) (S.faults source.new) }
    ensures quiet { result ≢ Err (Fault SourceFailed) →
        S.faults source.new ≡ S.faults source.old }
    ensures never_falls { S.faults source.old ≤ S.faults source.new }
{
    let text = read_settings(alloc, source)?;
    match read_recovery(alloc, &text) {
        Ok(recovery) => start_with_key(alloc, source, key, leaf, recovery),
        Err(error) => Err(error.widen()),
    }
}

/// Recovers a service from a source, with the next leaf of the key of its first new node, and gives
/// the frames of the new ledger, as `start` does. The source gives the length of the settings, in
/// four bytes, the least significant first; so many bytes of settings, as the JSON text that
/// `gl_forms::read_recovery` reads; and then the old ledger, to its end.
///
/// The frames are made before the leaf is taken, and handed out only once the file keeps that the
/// leaf is spent, and that it started a service, whatever comes. A refusal, a failure of the source
/// or running out of memory leaves the disk as it was. Where the disk failed, a stop leaves the
/// file as it was, or with the leaf spent unused.
///
/// Refused, in this order, where the settings would have more than 1 MiB, where they end too early,
/// where they have another form, where the key isn't that of their first node, where it has no leaf
/// left, and then as `start` refuses. The source is blamed only where it failed, and counted that.
pub fn recover<S: Source, D: Disk, L: EntryLog>(
    alloc: Global,
    source: &mut S,
    file: KeyFile<D, L>,
) -> (Result<Vec<u8>, OrNoMemory<RecoveringFault>>, D)
    requires open { IsTrue D.honest → IsOpened L.goes_on L.frames D.bytes D.past file }
    requires kind { (held L.frames file).key.kind ≡ Node }

    ensures reported { IfOk result.0 (λ reported. OfBytes (S.left source.old) (λ given.
        expected_recover (held L.frames file) given ≡ Ok reported.items)) }
    ensures refused { (fault : RecoveringFault) → result.0 ≡ Err (Fault fault) →
        is_of_outside fault ≡ false → OfBytes (S.left source.old) (λ given.
        expected_recover (held L.frames file) given ≡ Err fault) }

    // Before anything is told the file keeps that the leaf is spent, and started a service,
    // whatever comes.
    ensures kept { IsTrue D.honest → OnOk result.0
        (opened L.goes_on (D.bytes result.1) ≡ Ok (after_leaf Start (held L.frames file))) }
    ensures after { IsTrue D.honest → OnOk result.0
        (OpensOnlyTo L.goes_on (D.past result.1) (after_leaf Start (held L.frames file))) }

    // A refusal leaves the disk as it was, and so does a failure of the source.
    ensures untouched { (fault : RecoveringFault) → result.0 ≡ Err (Fault fault) →
        fault ≢ DiskFailed → result.1 ≡ disk_of file }
    ensures no_memory { IsTrue D.honest → result.0 ≡ Err NoMemory →
        (D.bytes result.1 ≡ D.bytes (disk_of file)) × (D.past result.1 ≡ D.past (disk_of file)) }

    // At every moment each image that a stop may leave opens to the state before, or to that after
    // the leaf.
    ensures any_moment { IsTrue D.honest →
        Leaves (OpensToOneOf L.goes_on (held L.frames file) (after_leaf Start (held L.frames file)))
        (D.past (disk_of file)) (D.past result.1) }

    ensures disk_fault { result.0 ≡ Err (Fault DiskFailed) →
        Rose (D.faults (disk_of file)) (D.faults result.1) }
    ensures no_disk_fault { result.0 ≢ Err (Fault DiskFailed) →
        D.faults result.1 ≡ D.faults (disk_of file) }

    // Where something is told the source gave its end, and where a fault is reported for which it
    // has to be read so far.
    ensures ended { OnOk result.0 (S.ended source.new ≡ true) }
    ensures read { (fault : RecoveringFault) → result.0 ≡ Err (Fault fault) →
        is_source_read fault ≡ true → S.ended source.new ≡ true }
    ensures source_failed { result.0 ≡ Err (Fault SourceFailed) →
        Rose (S.faults source.old) (S.faults source.new) }
    ensures quiet { result.0 ≢ Err (Fault SourceFailed) →
        S.faults source.new ≡ S.faults source.old }
    ensures never_falls { S.faults source.old ≤ S.faults source.new }
{
    let reported = match start_from_source(alloc, source, file.key(), file.reserved()) {
        Ok(reported) => reported,
        Err(error) => return (Err(error), file.into_disk()),
    };
    match file.take_leaf(LeafUse::Start) {
        Ok(taken) => (Ok(reported), taken.disk),
        Err((OrNoMemory::NoMemory, disk)) => (Err(OrNoMemory::NoMemory), disk),
        // The key has the leaf that signed, so the disk failed.
        Err((OrNoMemory::Fault(_), disk)) => {
            (Err(OrNoMemory::Fault(RecoveringFault::DiskFailed)), disk)
        }
    }
}
