//! Signing: what is reported is made with the next leaf of the file, and handed out once the file
//! keeps that the leaf is spent.

ghost use Rattle.std.specs.Prelude.{◌≡◌, List, IsTrue, IfOk, Ok, Err, true};
ghost use Rattle.gl_base.specs.Answers.{Answers};
ghost use Rattle.gl_base.specs.declared.or_no_memory.OrNoMemory.{OrNoMemory};
ghost use Rattle.gl_outside.specs.Fault.{Rose};
ghost use Rattle.gl_outside.specs.Disk.{Leaves};
ghost use Rattle.gl_journal.specs.Durable.{Durable as State, OpensToOneOf};
ghost use Rattle.gl_keyfile.specs.KeyFile.{opened, OpensOnlyTo, disk_of, held, IsOpened};
ghost use Rattle.gl_keyfile.specs.Leaf.{after_leaf};
ghost use Rattle.gl_keyfile.specs.SigningRequest.{kind_of, use_of};
ghost use Rattle.gl_consortium.specs.Texts.{fits};
ghost use Rattle.gl_consortium.specs.ExpectedOutput.{expected_for, expected_opening, expected_output};
ghost use Rattle.gl_consortium.specs.Faults.{IsOfKeeping, IsReportedAs};
ghost use Rattle.gl_consortium.specs.declared.fault.SigningFault.{SigningFault};

use crate::document::{Document, read_document};
use crate::endorsement::endorsement_line;
use crate::fault::SigningFault;
use crate::leaf::{check_leaf, private_key};
use crate::opening_ledger::{check_accepted, check_first_node, opening_bytes};
use crate::request::request_bytes;
use gl_base::OrNoMemory;
use gl_journal::{EntryLog, JournalFault, Key};
use gl_keyfile::{KeyFile, KeyFileFault, Signing};
use gl_outside::Disk;
use gl_requests::Genesis;
use std::alloc::Global;

/// The expected output for the opening of a service.
#[tactic(auto, unfolding(crate::specs::ExpectedOutput::expected_opening))]
fn expected_opening(
    alloc: Global,
    key: &Key,
    leaf: u32,
    genesis: Genesis,
) -> Result<Vec<u8>, OrNoMemory<SigningFault>>
    requires { fits (Document.Settings genesis) ≡ true }
    ensures { Answers (λ reported. reported.items) result (expected_opening key.now leaf genesis) }
{
    let by = private_key(alloc, key)?;
    check_first_node(&by, genesis.nodes.as_slice())?;
    check_leaf(key.types, leaf)?;
    check_accepted(alloc, &genesis)?;
    let reported = opening_bytes(alloc, by, leaf, genesis)?;
    Ok(reported)
}

/// The expected output for what was read, by a key of which so many leaves are spent.
#[tactic(auto, unfolding(crate::specs::ExpectedOutput::expected_for))]
fn expected_for(
    alloc: Global,
    key: &Key,
    leaf: u32,
    document: Document,
) -> Result<Vec<u8>, OrNoMemory<SigningFault>>
    requires { fits document ≡ true }
    ensures { Answers (λ reported. reported.items) result (expected_for key.now leaf document) }
{
    match document {
        Document::NodeKey {
            key: node_key,
            node,
        } => {
            check_leaf(key.types, leaf)?;
            let by = private_key(alloc, key)?;
            let reported = endorsement_line(alloc, &by, leaf, node_key, node)?;
            Ok(reported)
        }
        Document::Settings(genesis) => expected_opening(alloc, key, leaf, genesis),
        Document::Act {
            identity,
            member,
            act,
        } => {
            check_leaf(key.types, leaf)?;
            let by = private_key(alloc, key)?;
            let reported = request_bytes(alloc, by, leaf, &identity, member, act)?;
            Ok(reported)
        }
    }
}

/// The expected output for a text by a key of which so many leaves are spent.
fn expected_output(
    alloc: Global,
    signing: &Signing,
    text: &[u8],
    key: &Key,
    leaf: u32,
) -> Result<Vec<u8>, OrNoMemory<SigningFault>>
    ensures { (state : State) → state.key ≡ key.now → state.reserved ≡ leaf →
        Answers (λ reported. reported.items) result (expected_output signing.now state text.now) }
{
    match read_document(alloc, signing, text) {
        Ok(document) => expected_for(alloc, key, leaf, document),
        Err(error) => Err(error.widen()),
    }
}

/// Why a leaf that the key has was not kept.
fn keeping_fault(error: OrNoMemory<KeyFileFault>) -> OrNoMemory<SigningFault>
    requires { IsOfKeeping error }
    ensures { IsReportedAs error result }
{
    match error {
        OrNoMemory::NoMemory => OrNoMemory::NoMemory,
        OrNoMemory::Fault(KeyFileFault::Journal(JournalFault::DiskFault)) => {
            OrNoMemory::Fault(SigningFault::DiskFailed)
        }
        OrNoMemory::Fault(_) => unreachable!(),
    }
}

/// Signs what a text asks for with the next leaf of a key file, and gives what is reported. It is
/// made before the leaf is taken, and handed out only once the file keeps that the leaf is spent,
/// whatever comes. A refusal, or running out of memory, leaves the disk as it was. Where the disk
/// failed, a stop leaves the file as it was, or with the leaf spent unused.
pub fn sign<D: Disk, L: EntryLog>(
    alloc: Global,
    signing: &Signing,
    text: &[u8],
    file: KeyFile<D, L>,
) -> (Result<Vec<u8>, OrNoMemory<SigningFault>>, D)
    requires open { IsTrue D.honest → IsOpened L.goes_on L.frames D.bytes D.past file }
    requires kind { (held L.frames file).key.kind ≡ kind_of signing.now }

    ensures reported { IfOk result.0 (λ reported.
        expected_output signing.now (held L.frames file) text.now ≡ Ok reported.items) }
    ensures refused { (fault : SigningFault) → result.0 ≡ Err (OrNoMemory.Fault fault) →
        (fault ≡ SigningFault.DiskFailed → ⊥) →
        expected_output signing.now (held L.frames file) text.now ≡ Err fault }

    // Before anything is told the file keeps that the leaf is spent, whatever comes.
    ensures kept { IsTrue D.honest → IfOk result.0 (λ reported.
        opened L.goes_on (D.bytes result.1)
        ≡ Ok (after_leaf (use_of signing.now) (held L.frames file))) }
    ensures after { IsTrue D.honest → IfOk result.0 (λ reported.
        OpensOnlyTo L.goes_on (D.past result.1)
        (after_leaf (use_of signing.now) (held L.frames file))) }

    // A refusal leaves the disk as it was.
    ensures untouched { (fault : SigningFault) → result.0 ≡ Err (OrNoMemory.Fault fault) →
        (fault ≡ SigningFault.DiskFailed → ⊥) → result.1 ≡ disk_of file }
    ensures no_memory { IsTrue D.honest → result.0 ≡ Err OrNoMemory.NoMemory →
        (D.bytes result.1 ≡ D.bytes (disk_of file)) × (D.past result.1 ≡ D.past (disk_of file)) }

    // At every moment each image that a stop may leave opens to the state before, or to that after
    // the leaf.
    ensures any_moment { IsTrue D.honest →
        Leaves (OpensToOneOf L.goes_on (held L.frames file)
        (after_leaf (use_of signing.now) (held L.frames file)))
        (D.past (disk_of file)) (D.past result.1) }

    ensures disk_fault { result.0 ≡ Err (OrNoMemory.Fault SigningFault.DiskFailed) →
        Rose (D.faults (disk_of file)) (D.faults result.1) }
    ensures no_disk_fault { (result.0 ≡ Err (OrNoMemory.Fault SigningFault.DiskFailed) → ⊥) →
        D.faults result.1 ≡ D.faults (disk_of file) }
{
    let reported = match expected_output(alloc, signing, text, file.key(), file.reserved()) {
        Ok(reported) => reported,
        Err(error) => return (Err(error), file.into_disk()),
    };
    match file.take_leaf(signing.leaf_use()) {
        Ok(taken) => (Ok(reported), taken.disk),
        Err((error, disk)) => (Err(keeping_fault(error)), disk),
    }
}
