//! A node's file that begins from a snapshot that comes from outside.

ghost use Rattle.std.specs.Prelude.{◌≡◌, ◌≢◌, ◌≤◌, [], None, Some, Ok, Err, false, length, IsTrue, IsOk, IfOk, IfErr, OnOk};
ghost use Rattle.gl_base.specs.Answers.{Answers};
ghost use Rattle.gl_base.specs.declared.or_no_memory.OrNoMemory.{OrNoMemory};
ghost use Rattle.gl_outside.specs.Disk.{Leaves};
ghost use Rattle.gl_outside.specs.Fault.{Rose};
ghost use Rattle.gl_journal.specs.Durable.{Durable as State, OpensToOneOf, fold_record};
ghost use Rattle.gl_journal.specs.Kept.{IsAtRest, IsKept};
ghost use Rattle.gl_journal.specs.Records.{Install};
ghost use Rattle.gl_ledger.specs.Behind.{IsBaseBody};
ghost use Rattle.gl_snapshot.specs.declared.fault.SnapshotFault.{SnapshotFault};
ghost use Rattle.gl_snapshot.specs.declared.snapshot.Snapshot.{Snapshot as SnapshotValue};
ghost use Rattle.gl_snapshot_body.specs.Body.{body_bytes, snapshot_limit};
ghost use Rattle.gl_snapshot_body.specs.declared.body.Body.{Body as BodyValue};
ghost use Rattle.gl_store_book.specs.AtOpening.{restarted_node};
ghost use Rattle.gl_store_book.specs.Frames.{goes_on_ledger};
ghost use Rattle.gl_store_book.specs.FromSnapshot.{IsBehind, IsReadBehind, installed_state, source_of, verified_snapshot};
ghost use Rattle.gl_store_book.specs.NodeFile.{IsOpened, StandsOnSnapshot, has_ledger, opened, seen_state};
ghost use Rattle.gl_store_book.specs.Replicas.{StandsForFile};
ghost use Rattle.gl_store_book.specs.declared.node_file.fault.SnapshotOpening.{SnapshotOpening};

use crate::node_file::NodeFile;
use crate::node_file::fault::SnapshotOpening;
use crate::node_file::ledger_log::LedgerLog;
use crate::store_book::StoreBook;
use gl_base::OrNoMemory;
use gl_entry::Entry;
use gl_journal::{Durable, Installed, Journal, Record};
use gl_node::Replica;
use gl_outside::Disk;
use gl_snapshot::{GovernedSnapshot, Snapshot, SnapshotFault};
use gl_snapshot_body::{Body, put_body};
use std::alloc::{AllocError, Global};

/// What the bytes are from which a node's file may begin.
#[derive(Clone, Copy, Debug, PartialEq, Eq)]
pub enum SourceKind {
    /// There are none.
    Nothing,
    /// The frames of a ledger's entries: at least the first one reads.
    Ledger,
    /// Else they can be a snapshot alone.
    Snapshot,
}

/// What bytes from outside are, by their first frame, which takes memory to read.
pub fn source_of(alloc: Global, bytes: &[u8]) -> Result<SourceKind, AllocError>
    ensures { IfOk result (λ kind. kind ≡ source_of bytes.now) }
{
    if bytes.is_empty() {
        return Ok(SourceKind::Nothing);
    }
    match Entry::decode(alloc, bytes) {
        Ok(_) => Ok(SourceKind::Ledger),
        Err(OrNoMemory::Fault(_)) => Ok(SourceKind::Snapshot),
        Err(OrNoMemory::NoMemory) => Err(AllocError),
    }
}

/// The snapshot that is all of the bytes, verified under the key of the service in its own rows of
/// governance. Else the first thing that is wrong.
#[tactic(auto, unfolding(crate::specs::FromSnapshot::verified_snapshot))]
fn read_snapshot(alloc: Global, bytes: &[u8]) -> Result<Snapshot, OrNoMemory<SnapshotFault>>
    ensures exact { Answers (λ s. s) result (verified_snapshot bytes.now) }
    ensures read { IfOk result (λ s. IsBaseBody s.body) }
    ensures within { IfOk result (λ s. length (body_bytes s.body) ≤ snapshot_limit) }
{
    let read = match Snapshot::decode(alloc, bytes) {
        Ok(read) => read,
        Err(error) => return Err(error.widen()),
    };
    let GovernedSnapshot { snapshot, governed } = read;
    let Some(service) = governed.service else {
        unreachable!();
    };
    match snapshot.verify(&service.identity) {
        Ok(_) => Ok(snapshot),
        Err(fault) => Err(OrNoMemory::Fault(fault)),
    }
}

/// The bytes of a body that can be encoded.
fn spelled(alloc: Global, body: &Body) -> Result<Vec<u8>, AllocError>
    requires { IsBaseBody body.now }
    ensures { IfOk result (λ bytes. bytes.items ≡ body_bytes body.now) }
{
    let mut bytes = Vec::new(alloc);
    put_body(&mut bytes, body)?;
    Ok(bytes)
}

/// The body of a snapshot, alone.
fn body_in(snapshot: Snapshot) -> Body
    ensures { result ≡ snapshot.body }
{
    snapshot.body
}

/// What a node's file is to hold of a snapshot: what its record tells, the bytes of its body, and a
/// ledger of no entries behind it.
#[derive(Drop)]
struct Behind {
    at: Installed,
    body: Vec<u8>,
    log: LedgerLog,
}

/// The same of this body.
fn behind_body(alloc: Global, body: Body) -> Result<Behind, AllocError>
    requires { IsBaseBody body }
    ensures { IfOk result (λ b. IsBehind body b) }
{
    let at = Installed {
        base: body.base,
        view: body.view,
    };
    let encoded = spelled(alloc, &body)?;
    let log = LedgerLog::from_body(alloc, body)?;
    Ok(Behind {
        at,
        body: encoded,
        log,
    })
}

/// The same of the snapshot that is all of the bytes.
fn read_behind(alloc: Global, bytes: &[u8]) -> Result<Behind, OrNoMemory<SnapshotFault>>
    ensures behind { IfOk result (λ b. IsReadBehind bytes.now b) }
    ensures refused { (fault : SnapshotFault) → result ≡ Err (OrNoMemory.Fault fault) →
        verified_snapshot bytes.now ≡ Err fault }
{
    let snapshot = match read_snapshot(alloc, bytes) {
        Ok(snapshot) => snapshot,
        Err(error) => return Err(error),
    };
    match behind_body(alloc, body_in(snapshot)) {
        Ok(behind) => Ok(behind),
        Err(_) => Err(OrNoMemory::NoMemory),
    }
}

/// What a file without a ledger holds with a snapshot. Takes no memory.
fn installed(state: Durable<LedgerLog>, behind: Behind) -> Durable<LedgerLog>
    ensures state { (body : BodyValue) → IsBehind body behind → (seen_state state).log ≡ [] →
        seen_state result ≡ installed_state body (seen_state state) }
    ensures stands { (body : BodyValue) → IsBehind body behind → StandsOnSnapshot result }
{
    let mut state = state;
    if state.view < behind.at.view {
        state.view = behind.at.view;
        state.vote = None;
    }
    state.base = behind.at.base;
    state.snapshot = Some(behind.body);
    state.log = behind.log;
    state
}

/// Keeps the body of a snapshot in a node's file. Only a fault of the disk leaves another file than
/// before.
#[tactic(auto, unfolding(gl_base::specs::LittleEndian::little_endian))]
fn keep_body<D: Disk>(
    journal: &mut Journal<D>,
    body: &[u8],
) -> Result<(), OrNoMemory<SnapshotOpening>>
    requires open { IsTrue D.honest → IsKept D.bytes D.past journal.old }
    requires within { length body.now ≤ snapshot_limit }

    ensures open { IsTrue D.honest → OnOk result (IsKept D.bytes D.past journal.new) }
    ensures kept { IsTrue D.honest → (state next : State) →
        opened (D.bytes journal.old.gated.disk) ≡ Ok state →
        fold_record goes_on_ledger state (Install body.now) ≡ Some next →
        OnOk result (opened (D.bytes journal.new.gated.disk) ≡ Ok next) }
    ensures any_moment { IsTrue D.honest → (state next : State) →
        opened (D.bytes journal.old.gated.disk) ≡ Ok state →
        fold_record goes_on_ledger state (Install body.now) ≡ Some next →
        Leaves (OpensToOneOf goes_on_ledger state next)
        (D.past journal.old.gated.disk) (D.past journal.new.gated.disk) }
    ensures stays { IsTrue D.honest → (error : OrNoMemory SnapshotOpening) → result ≡ Err error →
        error ≢ OrNoMemory.Fault SnapshotOpening.DiskFault →
        (D.bytes journal.new.gated.disk ≡ D.bytes journal.old.gated.disk)
        × (D.past journal.new.gated.disk ≡ D.past journal.old.gated.disk) }
    ensures disk_fault { result ≡ Err (OrNoMemory.Fault SnapshotOpening.DiskFault) →
        Rose (D.faults journal.old.gated.disk) (D.faults journal.new.gated.disk) }
    ensures no_disk_fault { result ≢ Err (OrNoMemory.Fault SnapshotOpening.DiskFault) →
        D.faults journal.new.gated.disk ≡ D.faults journal.old.gated.disk }
    ensures only { (fault : SnapshotOpening) → result ≡ Err (OrNoMemory.Fault fault) →
        fault ≡ SnapshotOpening.DiskFault }
{
    let len = 5 + body.len() as u64;
    match journal.keep(&[Record::Install { body }], len) {
        Ok(()) => Ok(()),
        Err(OrNoMemory::NoMemory) => Err(OrNoMemory::NoMemory),
        Err(OrNoMemory::Fault(_)) => Err(OrNoMemory::Fault(SnapshotOpening::DiskFault)),
    }
}

/// Keeps the snapshot that is all of the bytes in a node's file that has no ledger.
fn keep_snapshot<D: Disk>(
    alloc: Global,
    journal: &mut Journal<D>,
    state: &Durable<LedgerLog>,
    bytes: &[u8],
) -> Result<Behind, OrNoMemory<SnapshotOpening>>
    requires file { IsOpened D.honest D.bytes D.past journal.old (seen_state state.now) }
    requires none { has_ledger (seen_state state.now) ≡ false }

    ensures behind { IfOk result (λ b. IsReadBehind bytes.now b) }
    ensures open { (s : SnapshotValue) → verified_snapshot bytes.now ≡ Ok s → OnOk result
        (IsOpened D.honest D.bytes D.past journal.new
        (installed_state s.body (seen_state state.now))) }
    ensures any_moment { IsTrue D.honest → (s : SnapshotValue) →
        verified_snapshot bytes.now ≡ Ok s →
        Leaves (OpensToOneOf goes_on_ledger (seen_state state.now)
        (installed_state s.body (seen_state state.now)))
        (D.past journal.old.gated.disk) (D.past journal.new.gated.disk) }
    ensures refused { (fault : SnapshotFault) →
        result ≡ Err (OrNoMemory.Fault (SnapshotOpening.Snapshot fault)) →
        verified_snapshot bytes.now ≡ Err fault }
    ensures stays { IsTrue D.honest → (error : OrNoMemory SnapshotOpening) → result ≡ Err error →
        error ≢ OrNoMemory.Fault SnapshotOpening.DiskFault →
        (D.bytes journal.new.gated.disk ≡ D.bytes journal.old.gated.disk)
        × (D.past journal.new.gated.disk ≡ D.past journal.old.gated.disk) }
    ensures disk_fault { result ≡ Err (OrNoMemory.Fault SnapshotOpening.DiskFault) →
        Rose (D.faults journal.old.gated.disk) (D.faults journal.new.gated.disk) }
    ensures no_disk_fault { result ≢ Err (OrNoMemory.Fault SnapshotOpening.DiskFault) →
        D.faults journal.new.gated.disk ≡ D.faults journal.old.gated.disk }
    ensures snapshot_first { result ≡ Err (OrNoMemory.Fault SnapshotOpening.DiskFault) →
        IsOk (verified_snapshot bytes.now) }
{
    let behind = match read_behind(alloc, bytes) {
        Ok(behind) => behind,
        Err(OrNoMemory::NoMemory) => return Err(OrNoMemory::NoMemory),
        Err(OrNoMemory::Fault(fault)) => {
            return Err(OrNoMemory::Fault(SnapshotOpening::Snapshot(fault)));
        }
    };
    match keep_body(journal, &behind.body) {
        Ok(()) => Ok(behind),
        Err(error) => Err(error),
    }
}

impl<D: Disk + Drop> NodeFile<D> {
    /// The node of the file, which has no ledger and begins behind the snapshot that is all of the
    /// bytes. The snapshot is verified under the key of the service in its own rows of governance:
    /// whether it is the service that is meant, whoever gives the bytes has to know. The file keeps
    /// it as one batch, and the node is the one that a restart leaves of the file then. An error
    /// gives the disk back.
    pub fn begin_from_snapshot(
        self,
        bytes: &[u8],
    ) -> Result<Replica<D, StoreBook>, (OrNoMemory<SnapshotOpening>, D)>
        requires { has_ledger self.state ≡ false }

        ensures read { IfOk result (λ replica. IsOk (verified_snapshot bytes.now)) }
        ensures stands { (s : SnapshotValue) → verified_snapshot bytes.now ≡ Ok s →
            IfOk result (λ replica.
            StandsForFile (installed_state s.body self.state) replica.core
            (λ b below. restarted_node b below (installed_state s.body self.state))) }
        ensures snapshot { (s : SnapshotValue) → verified_snapshot bytes.now ≡ Ok s →
            IfOk result (λ replica.
            replica.core.book.ledger.snapshot ≡ Some (body_bytes s.body)) }
        ensures serves { IfOk result (λ replica. replica.stopped ≡ None) }

        // The file keeps it then, whatever comes.
        ensures kept { IsTrue D.honest → (s : SnapshotValue) →
            verified_snapshot bytes.now ≡ Ok s → IfOk result (λ replica.
            opened (D.bytes replica.disk) ≡ Ok (installed_state s.body self.state)) }
        ensures at_rest { IsTrue D.honest → IfOk result (λ replica.
            IsAtRest (D.bytes replica.disk) (D.past replica.disk)) }
        // At every moment each image that a stop may leave opens to the state before, or to this.
        ensures any_moment { IsTrue D.honest → (s : SnapshotValue) →
            verified_snapshot bytes.now ≡ Ok s → IfOk result (λ replica.
            Leaves (OpensToOneOf goes_on_ledger self.state (installed_state s.body self.state))
            (D.past self.disk) (D.past replica.disk)) }
        ensures any_moment_err { IsTrue D.honest → (s : SnapshotValue) →
            verified_snapshot bytes.now ≡ Ok s → IfErr result (λ e.
            Leaves (OpensToOneOf goes_on_ledger self.state (installed_state s.body self.state))
            (D.past self.disk) (D.past e.1)) }

        // It is refused for the first thing that is wrong with the bytes as a snapshot.
        ensures refused { (fault : SnapshotFault) (back : D) →
            result ≡ Err (OrNoMemory.Fault (SnapshotOpening.Snapshot fault), back) →
            verified_snapshot bytes.now ≡ Err fault }
        ensures stays { IsTrue D.honest → (error : OrNoMemory SnapshotOpening) (back : D) →
            result ≡ Err (error, back) →
            error ≢ OrNoMemory.Fault SnapshotOpening.DiskFault →
            (D.bytes back ≡ D.bytes self.disk) × (D.past back ≡ D.past self.disk) }

        ensures quiet { IfOk result (λ replica. D.faults replica.disk ≡ D.faults self.disk) }
        ensures disk_fault { (back : D) →
            result ≡ Err (OrNoMemory.Fault SnapshotOpening.DiskFault, back) →
            Rose (D.faults self.disk) (D.faults back) }
        // The disk is asked only once the bytes are read, and are such a snapshot.
        ensures snapshot_first { (back : D) →
            result ≡ Err (OrNoMemory.Fault SnapshotOpening.DiskFault, back) →
            IsOk (verified_snapshot bytes.now) }
        ensures no_disk_fault { (error : OrNoMemory SnapshotOpening) (back : D) →
            result ≡ Err (error, back) →
            error ≢ OrNoMemory.Fault SnapshotOpening.DiskFault →
            D.faults back ≡ D.faults self.disk }
    {
        let NodeFile {
            alloc,
            journal,
            state,
            key,
            me,
        } = self;
        let mut journal = journal;
        let behind = match keep_snapshot(alloc, &mut journal, &state, bytes) {
            Ok(behind) => behind,
            Err(error) => return Err((error, journal.gated.disk)),
        };
        let file = NodeFile {
            alloc,
            journal,
            state: installed(state, behind),
            key,
            me,
        };
        match file.reopen() {
            Ok(replica) => Ok(replica),
            Err(_) => unreachable!(),
        }
    }
}
