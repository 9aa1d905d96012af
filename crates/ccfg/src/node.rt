//! A node that serves from the disk's file over a link: its file is opened, it begins by what the
//! file keeps or by the opening ledger or the snapshot that its source gives, and it serves until
//! the link ends.

ghost use Rattle.std.specs.Prelude.{◌≡◌, ◌≢◌, ◌⊎◌, ◌++◌, ◌≤◌, ℕ, false, true, Err, IfOk, IsTrue, None, Ok, codes, decimal};
ghost use Rattle.gl_base.specs.declared.or_no_memory.OrNoMemory.{OrNoMemory};
ghost use Rattle.gl_entry.specs.SourceBytes.{OfBytes};
ghost use Rattle.gl_outside.specs.Disk.{IsImage, Leaves};
ghost use Rattle.gl_outside.specs.Fault.{Rose};
ghost use Rattle.gl_journal.specs.Durable.{Durable, journal_header};
ghost use Rattle.gl_journal.specs.Kept.{IsAtRest};
ghost use Rattle.gl_journal.specs.Parts.{HasGate};
ghost use Rattle.gl_journal.specs.declared.fault.JournalFault.{JournalFault};
ghost use Rattle.gl_snapshot.specs.declared.fault.SnapshotFault.{SnapshotFault};
ghost use Rattle.gl_store_book.specs.Frames.{goes_on_ledger};
ghost use Rattle.gl_store_book.specs.FromSnapshot.{source_of};
ghost use Rattle.gl_store_book.specs.NodeFile.{has_ledger, opened};
ghost use Rattle.gl_store_book.specs.declared.node_file.fault.OpeningFault.{OpeningFault};
ghost use Rattle.gl_store_book.specs.declared.node_file.fault.SnapshotOpening.{SnapshotOpening};
ghost use Rattle.gl_store_book.specs.declared.node_file.from_snapshot.SourceKind.{SourceKind};
ghost use Rattle.ccfg.specs.ExpectedOutput.{WritesOutput, output_of_answer, output_of_fault};
ghost use Rattle.ccfg.specs.declared.fault.BeginFault.{BeginFault};
ghost use Rattle.ccfg.specs.declared.fault.Fault.TheVariants as reported;
ghost use Rattle.gl_serve.specs.OverLink.{KeepsLeaves};
ghost use Rattle.ccfg.specs.NodeCommand.{NeedsNoSource};
ghost use Rattle.ccfg.specs.SignCommand.{IsForeign};
ghost use Rattle.ccfg.specs.Plans.{OpensAsBefore};
ghost use Rattle.ccfg.specs.Run.{disk_run, link_run, sink_run, source_run};
ghost use Rattle.ccfg.specs.Nodes.{BeginsAs, BeginsBy, Beginning, HasLedger, IsUnserved, KeepsOpening, MovesNode, NodeRuns, OfLedger, OfOpened, beginning, beginning_of, disk_after, reopened, served_line};

use crate::ending::Ending;
use crate::fault::{BeginFault, Fault};
use crate::output::{refuse, write_out};
use crate::source_bytes::{ReadError, read_to_end};
use gl_base::OrNoMemory;
use gl_commands::{NodeTask, put_number};
use gl_journal::JournalFault;
use gl_node::Replica;
use gl_outside::{Disk, Link, Sink, Source};
use gl_serve::{Observer, ServeEnd, Serving, serve_replica};
use gl_store_book::{NodeFile, OpeningFault, SnapshotOpening, SourceKind, StoreBook, source_of};
use std::alloc::{AllocError, Global};

/// Why no node begins.
#[derive(Clone, Copy, Debug, PartialEq, Eq)]
pub enum NodeError {
    /// The file is no node's, or the source gives nothing with which one begins.
    Refused(BeginFault),
    SourceFailed,
    DiskFailed,
    Memory,
}

/// Why no node begins whose file can't be opened, or can't begin with an opening ledger.
fn stop_of(error: OrNoMemory<OpeningFault>) -> NodeError
    ensures refused { (fault : BeginFault) → result ≡ NodeError.Refused fault →
        (why : OpeningFault) × (fault ≡ BeginFault.Opening why) × (error ≡ OrNoMemory.Fault why)
        × (why ≢ OpeningFault.Journal JournalFault.DiskFault) }
    ensures disk_failed { result ≡ NodeError.DiskFailed →
        error ≡ OrNoMemory.Fault (OpeningFault.Journal JournalFault.DiskFault) }
    ensures disk { error ≡ OrNoMemory.Fault (OpeningFault.Journal JournalFault.DiskFault) →
        result ≡ NodeError.DiskFailed }
    ensures no_source { result ≢ NodeError.SourceFailed }
{
    match error {
        OrNoMemory::NoMemory => NodeError::Memory,
        OrNoMemory::Fault(OpeningFault::Journal(JournalFault::DiskFault)) => NodeError::DiskFailed,
        OrNoMemory::Fault(fault) => NodeError::Refused(BeginFault::Opening(fault)),
    }
}

/// Why no node begins that can't begin from a snapshot.
fn snapshot_stop_of(error: OrNoMemory<SnapshotOpening>) -> NodeError
    ensures refused { (fault : BeginFault) → result ≡ NodeError.Refused fault →
        (why : SnapshotFault) × (fault ≡ BeginFault.Snapshot why)
        × (error ≡ OrNoMemory.Fault (SnapshotOpening.Snapshot why)) }
    ensures disk_failed { result ≡ NodeError.DiskFailed →
        error ≡ OrNoMemory.Fault SnapshotOpening.DiskFault }
    ensures disk { error ≡ OrNoMemory.Fault SnapshotOpening.DiskFault →
        result ≡ NodeError.DiskFailed }
    ensures no_source { result ≢ NodeError.SourceFailed }
{
    match error {
        OrNoMemory::NoMemory => NodeError::Memory,
        OrNoMemory::Fault(SnapshotOpening::DiskFault) => NodeError::DiskFailed,
        OrNoMemory::Fault(SnapshotOpening::Snapshot(fault)) => {
            NodeError::Refused(BeginFault::Snapshot(fault))
        }
    }
}

/// The node of a file goes on from what the file keeps.
fn reopen<D: Disk + Drop>(file: NodeFile<D>) -> Result<Replica<D, StoreBook>, (NodeError, D)>
    requires kept { IsTrue D.honest → opened (D.bytes file.disk) ≡ Ok file.state }
    requires at_rest { IsTrue D.honest → IsAtRest (D.bytes file.disk) (D.past file.disk) }
    ensures begins { IfOk result (λ replica. BeginsAs D.honest D.bytes D.past D.faults
        (reopened file.state) replica) }
    ensures same { IfOk result (λ replica. replica.disk ≡ file.disk) }
    ensures going { IfOk result (λ replica. replica.stopped ≡ None) }
    ensures err { (why : NodeError) (back : D) → result ≡ Err (why, back) →
        (why ≡ NodeError.Memory) × (back ≡ file.disk) }
{
    match file.reopen() {
        Ok(replica) => Ok(replica),
        Err((_, disk)) => Err((NodeError::Memory, disk)),
    }
}

/// The node of a file that has no ledger begins with the frames of a ledger that a source gave.
fn begin_opening<D: Disk + Drop>(
    file: NodeFile<D>,
    given: &[u8],
) -> Result<Replica<D, StoreBook>, (NodeError, D)>
    requires kept { IsTrue D.honest → opened (D.bytes file.disk) ≡ Ok file.state }
    requires at_rest { IsTrue D.honest → IsAtRest (D.bytes file.disk) (D.past file.disk) }
    requires none { has_ledger file.state ≡ false }
    requires ledger { source_of given.now ≡ SourceKind.Ledger }
    ensures begins { IfOk result (λ replica. (b : Beginning)
        × (beginning file.state given.now ≡ Ok b)
        × BeginsAs D.honest D.bytes D.past D.faults b replica) }
    ensures refused { (fault : BeginFault) (back : D) →
        result ≡ Err (NodeError.Refused fault, back) → beginning file.state given.now ≡ Err fault }
    ensures no_source { (back : D) → result ≢ Err (NodeError.SourceFailed, back) }
    ensures going { IfOk result (λ replica. replica.stopped ≡ None) }
    ensures quiet { IfOk result (λ replica. D.faults replica.disk ≡ D.faults file.disk) }
    ensures untouched { IsTrue D.honest → (why : NodeError) (back : D) → result ≡ Err (why, back) →
        why ≢ NodeError.DiskFailed → (D.bytes back ≡ D.bytes file.disk)
        × (D.past back ≡ D.past file.disk) }
    ensures disk_failed { (back : D) → result ≡ Err (NodeError.DiskFailed, back) →
        Rose (D.faults file.disk) (D.faults back) }
    ensures spent { IsTrue D.honest → IfOk result (λ replica.
        KeepsLeaves goes_on_ledger file.state (D.bytes replica.disk)) }
    ensures any_moment { IsTrue D.honest → Leaves (KeepsOpening file.state)
        (D.past file.disk) (D.past (disk_after result)) }
{
    match file.begin(given) {
        Ok(replica) => Ok(replica),
        Err((error, disk)) => Err((stop_of(error), disk)),
    }
}

/// The node of a file that has no ledger begins behind the snapshot that a source gave.
fn begin_behind<D: Disk + Drop>(
    file: NodeFile<D>,
    given: &[u8],
) -> Result<Replica<D, StoreBook>, (NodeError, D)>
    requires kept { IsTrue D.honest → opened (D.bytes file.disk) ≡ Ok file.state }
    requires at_rest { IsTrue D.honest → IsAtRest (D.bytes file.disk) (D.past file.disk) }
    requires none { has_ledger file.state ≡ false }
    requires snapshot { source_of given.now ≡ SourceKind.Snapshot }
    ensures begins { IfOk result (λ replica. (b : Beginning)
        × (beginning file.state given.now ≡ Ok b)
        × BeginsAs D.honest D.bytes D.past D.faults b replica) }
    ensures refused { (fault : BeginFault) (back : D) →
        result ≡ Err (NodeError.Refused fault, back) → beginning file.state given.now ≡ Err fault }
    ensures no_source { (back : D) → result ≢ Err (NodeError.SourceFailed, back) }
    ensures going { IfOk result (λ replica. replica.stopped ≡ None) }
    ensures quiet { IfOk result (λ replica. D.faults replica.disk ≡ D.faults file.disk) }
    ensures untouched { IsTrue D.honest → (why : NodeError) (back : D) → result ≡ Err (why, back) →
        why ≢ NodeError.DiskFailed → (D.bytes back ≡ D.bytes file.disk)
        × (D.past back ≡ D.past file.disk) }
    ensures disk_failed { (back : D) → result ≡ Err (NodeError.DiskFailed, back) →
        Rose (D.faults file.disk) (D.faults back) }
    ensures spent { IsTrue D.honest → IfOk result (λ replica.
        KeepsLeaves goes_on_ledger file.state (D.bytes replica.disk)) }
    ensures any_moment { IsTrue D.honest → Leaves (KeepsOpening file.state)
        (D.past file.disk) (D.past (disk_after result)) }
{
    match file.begin_from_snapshot(given) {
        Ok(replica) => Ok(replica),
        Err((error, disk)) => Err((snapshot_stop_of(error), disk)),
    }
}

/// The node of a file that has no ledger begins with what a source gave, an opening ledger or a
/// snapshot, or joins where that was nothing.
fn begin_with<D: Disk + Drop>(
    alloc: Global,
    file: NodeFile<D>,
    given: &[u8],
) -> Result<Replica<D, StoreBook>, (NodeError, D)>
    requires kept { IsTrue D.honest → opened (D.bytes file.disk) ≡ Ok file.state }
    requires at_rest { IsTrue D.honest → IsAtRest (D.bytes file.disk) (D.past file.disk) }
    requires none { has_ledger file.state ≡ false }
    ensures begins { IfOk result (λ replica. (b : Beginning)
        × (beginning file.state given.now ≡ Ok b)
        × BeginsAs D.honest D.bytes D.past D.faults b replica) }
    ensures refused { (fault : BeginFault) (back : D) →
        result ≡ Err (NodeError.Refused fault, back) → beginning file.state given.now ≡ Err fault }
    ensures no_source { (back : D) → result ≢ Err (NodeError.SourceFailed, back) }
    ensures going { IfOk result (λ replica. replica.stopped ≡ None) }
    ensures quiet { IfOk result (λ replica. D.faults replica.disk ≡ D.faults file.disk) }
    ensures untouched { IsTrue D.honest → (why : NodeError) (back : D) → result ≡ Err (why, back) →
        why ≢ NodeError.DiskFailed → (D.bytes back ≡ D.bytes file.disk)
        × (D.past back ≡ D.past file.disk) }
    ensures disk_failed { (back : D) → result ≡ Err (NodeError.DiskFailed, back) →
        Rose (D.faults file.disk) (D.faults back) }
    ensures spent { IsTrue D.honest → IfOk result (λ replica.
        KeepsLeaves goes_on_ledger file.state (D.bytes replica.disk)) }
    ensures any_moment { IsTrue D.honest → Leaves (KeepsOpening file.state)
        (D.past file.disk) (D.past (disk_after result)) }
{
    match source_of(alloc, given) {
        Ok(SourceKind::Nothing) => reopen(file),
        Ok(SourceKind::Ledger) => begin_opening(file, given),
        Ok(SourceKind::Snapshot) => begin_behind(file, given),
        Err(_) => Err((NodeError::Memory, file.into_disk())),
    }
}

/// The node of a file begins: where the file has a ledger, with that, and the source is left
/// unread; else with what the source gives.
fn begin<S: Source, D: Disk + Drop>(
    alloc: Global,
    source: &mut S,
    file: NodeFile<D>,
) -> Result<Replica<D, StoreBook>, (NodeError, D)>
    requires kept { IsTrue D.honest → opened (D.bytes file.disk) ≡ Ok file.state }
    requires at_rest { IsTrue D.honest → IsAtRest (D.bytes file.disk) (D.past file.disk) }
    ensures begins { IfOk result (λ replica. OfBytes (S.left source.old) (λ given. (b : Beginning)
        × (beginning file.state given ≡ Ok b)
        × BeginsAs D.honest D.bytes D.past D.faults b replica)) }
    ensures refused { (fault : BeginFault) (back : D) →
        result ≡ Err (NodeError.Refused fault, back) → OfBytes (S.left source.old) (λ given.
        beginning file.state given ≡ Err fault) }
    ensures untouched { IsTrue D.honest → (why : NodeError) (back : D) → result ≡ Err (why, back) →
        why ≢ NodeError.DiskFailed → (D.bytes back ≡ D.bytes file.disk)
        × (D.past back ≡ D.past file.disk) }
    ensures going { IfOk result (λ replica. replica.stopped ≡ None) }
    ensures quiet { IfOk result (λ replica. D.faults replica.disk ≡ D.faults file.disk) }
    ensures unread { has_ledger file.state ≡ true → source.new ≡ source.old }
    ensures source_quiet { ((back : D) → result ≢ Err (NodeError.SourceFailed, back)) →
        S.faults source.new ≡ S.faults source.old }
    ensures ended { has_ledger file.state ≡ false →
        IfOk result (λ replica. S.ended source.new ≡ true) }
    ensures ended_refused { (fault : BeginFault) (back : D) →
        result ≡ Err (NodeError.Refused fault, back) → S.ended source.new ≡ true }
    ensures source_failed { (back : D) → result ≡ Err (NodeError.SourceFailed, back) →
        Rose (S.faults source.old) (S.faults source.new) }
    ensures disk_failed { (back : D) → result ≡ Err (NodeError.DiskFailed, back) →
        Rose (D.faults file.disk) (D.faults back) }
    ensures spent { IsTrue D.honest → IfOk result (λ replica.
        KeepsLeaves goes_on_ledger file.state (D.bytes replica.disk)) }
    ensures any_moment { IsTrue D.honest → Leaves (KeepsOpening file.state)
        (D.past file.disk) (D.past (disk_after result)) }
{
    if file.has_ledger() {
        return reopen(file);
    }
    match read_to_end(alloc, source) {
        Ok(given) => begin_with(alloc, file, &given),
        Err(ReadError::Failed) => Err((NodeError::SourceFailed, file.into_disk())),
        Err(ReadError::Memory) => Err((NodeError::Memory, file.into_disk())),
        Err(ReadError::TooLong) => unreachable!(),
    }
}

/// Opens the file of a node, which begins.
fn open<S: Source, D: Disk + Drop>(
    alloc: Global,
    source: &mut S,
    disk: D,
) -> Result<Replica<D, StoreBook>, (NodeError, D)>
    ensures begins { IfOk result (λ replica. OfOpened D.honest (D.bytes disk) (λ opens.
        OfBytes (S.left source.old) (λ given.
        BeginsBy D.honest D.bytes D.past D.faults opens given replica
        × (HasLedger opens ⊎ (S.ended source.new ≡ true))))) }
    ensures refused { (fault : BeginFault) (back : D) →
        result ≡ Err (NodeError.Refused fault, back) →
        OfOpened D.honest (D.bytes disk) (λ opens. OfBytes (S.left source.old) (λ given.
        beginning_of opens given ≡ Err fault)) }
    ensures unbegun { IsTrue D.honest → (why : NodeError) (back : D) → result ≡ Err (why, back) →
        why ≢ NodeError.DiskFailed → why ≢ NodeError.Memory →
        OpensAsBefore (D.bytes disk) (D.bytes back) }
    ensures going { IfOk result (λ replica. replica.stopped ≡ None) }
    ensures foreign { IsTrue D.honest → IsForeign (opened (D.bytes disk)) →
        Leaves (IsImage (D.past disk)) (D.past disk) (D.past (disk_after result)) }
    ensures foreign_bytes { IsTrue D.honest → IsForeign (opened (D.bytes disk)) →
        (why : NodeError) (back : D) → result ≡ Err (why, back) → why ≢ NodeError.DiskFailed →
        D.bytes back ≡ D.bytes disk }
    ensures unread { IsTrue D.honest → NeedsNoSource (opened (D.bytes disk)) →
        source.new ≡ source.old }
    ensures source_quiet { ((back : D) → result ≢ Err (NodeError.SourceFailed, back)) →
        S.faults source.new ≡ S.faults source.old }
    ensures source_failed { (back : D) → result ≡ Err (NodeError.SourceFailed, back) →
        Rose (S.faults source.old) (S.faults source.new) }
    ensures disk_failed { (back : D) → result ≡ Err (NodeError.DiskFailed, back) →
        Rose (D.faults disk) (D.faults back) }
    ensures quiet { IfOk result (λ replica. D.faults replica.disk ≡ D.faults disk) }
    ensures spent { IsTrue D.honest → IfOk result (λ replica. (d : Durable)
        × (opened (D.bytes disk) ≡ Ok d)
        × KeepsLeaves goes_on_ledger d (D.bytes replica.disk)) }
    ensures any_moment { IsTrue D.honest → HasGate journal_header (D.bytes disk) →
        Leaves (IsUnserved (D.bytes disk) (D.past disk)) (D.past disk)
        (D.past (disk_after result)) }
{
    match NodeFile::open(alloc, disk) {
        Ok(file) => begin(alloc, source, file),
        Err((error, disk)) => Err((stop_of(error), disk)),
    }
}

/// Tells why no node begins, where that is reported.
fn print_stop<K: Sink>(alloc: Global, stop: NodeError, sink: &mut K) -> Ending
    ensures refused { (fault : BeginFault) → stop ≡ NodeError.Refused fault →
        WritesOutput result (record {
          held = K.holds sink.old;
          holds = K.holds sink.new;
          faults = K.faults sink.old;
          faults_now = K.faults sink.new;
        }) (output_of_fault (reported.Opening fault)) }
    ensures source_failed { stop ≡ NodeError.SourceFailed →
        (result ≡ Ending.SourceFailed) × (sink.new ≡ sink.old) }
    ensures disk_failed { stop ≡ NodeError.DiskFailed →
        (result ≡ Ending.DiskFailed) × (sink.new ≡ sink.old) }
    ensures memory { stop ≡ NodeError.Memory →
        (result ≡ Ending.Memory) × (sink.new ≡ sink.old) }
{
    match stop {
        NodeError::Refused(fault) => refuse(alloc, &Fault::Opening(fault), sink),
        NodeError::SourceFailed => Ending::SourceFailed,
        NodeError::DiskFailed => Ending::DiskFailed,
        NodeError::Memory => Ending::Memory,
    }
}

/// The line that reports how many payloads were in the grammar, and how many frames were lost.
fn served_line(alloc: Global, counts: (u64, u64)) -> Result<Vec<u8>, AllocError>
    ensures { IfOk result (λ line. line.items ≡ served_line counts) }
{
    let mut line = Vec::from_slice(alloc, b"served ")?;
    put_number(&mut line, counts.0)?;
    line.extend_from_slice(b" lost ")?;
    put_number(&mut line, counts.1)?;
    line.extend_from_slice(b"\n")?;
    Ok(line)
}

fn print_counts<K: Sink>(alloc: Global, counts: (u64, u64), sink: &mut K) -> Ending
    ensures { WritesOutput result (record {
      held = K.holds sink.old;
      holds = K.holds sink.new;
      faults = K.faults sink.old;
      faults_now = K.faults sink.new;
    }) (output_of_answer (served_line counts)) }
{
    match served_line(alloc, counts) {
        Ok(line) => write_out(&line, sink),
        Err(_) => Ending::Memory,
    }
}

/// Tells how a serve ended, where that is reported.
fn print_end<K: Sink>(
    alloc: Global,
    turns: u64,
    end: Result<(u64, u64), ServeEnd>,
    sink: &mut K,
) -> Ending
    ensures counts { (counts : ℕ × ℕ) → end ≡ Ok counts →
        WritesOutput result (record {
          held = K.holds sink.old;
          holds = K.holds sink.new;
          faults = K.faults sink.old;
          faults_now = K.faults sink.new;
        }) (output_of_answer (served_line counts)) }
    ensures turns { end ≡ Err ServeEnd.Turns →
        WritesOutput result (record {
          held = K.holds sink.old;
          holds = K.holds sink.new;
          faults = K.faults sink.old;
          faults_now = K.faults sink.new;
        }) (output_of_fault (reported.Turns turns)) }
    ensures link_failed { end ≡ Err ServeEnd.LinkFailed →
        (result ≡ Ending.LinkFailed) × (sink.new ≡ sink.old) }
    ensures stopped { end ≡ Err ServeEnd.Stopped →
        (result ≡ Ending.DiskFailed) × (sink.new ≡ sink.old) }
    ensures memory { end ≡ Err ServeEnd.NoMemory →
        (result ≡ Ending.Memory) × (sink.new ≡ sink.old) }
{
    match end {
        Ok(counts) => print_counts(alloc, counts, sink),
        Err(ServeEnd::Turns) => refuse(alloc, &Fault::Turns { turns }, sink),
        Err(ServeEnd::LinkFailed) => Ending::LinkFailed,
        Err(ServeEnd::Stopped) => Ending::DiskFailed,
        Err(ServeEnd::NoMemory) => Ending::Memory,
    }
}

/// Serves as the node of the disk's file over the link until that ends, and reports how many
/// payloads were in the grammar and how many frames were lost. After each event of the node the
/// observer is told where it stands.
pub fn run_node<S: Source, K: Sink, D: Disk + Drop, L: Link, O: Observer>(
    alloc: Global,
    task: &NodeTask,
    source: &mut S,
    sink: &mut K,
    disk: D,
    link: &mut L,
    observer: O,
) -> (Ending, D)
    requires ticks { 1 ≤ task.now.ticks }
    ensures runs { NodeRuns task.now (record {
      source = source_run S.left S.ended S.faults source.old source.new;
      sink = sink_run K.holds K.faults sink.old sink.new;
      disk = disk_run D.honest D.bytes D.past D.faults disk result.1;
    }) (link_run L.honest L.past L.inward link.old link.new) result.0 }
    ensures quiet { result.0 ≢ Ending.SourceFailed → S.faults source.new ≡ S.faults source.old }
    ensures link_quiet { result.0 ≢ Ending.LinkFailed →
        (L.inward link.new).faults ≡ (L.inward link.old).faults }
    ensures foreign { IsTrue D.honest → IsForeign (opened (D.bytes disk)) →
        Leaves (IsImage (D.past disk)) (D.past disk) (D.past result.1) }
    ensures foreign_bytes { IsTrue D.honest → IsForeign (opened (D.bytes disk)) →
        result.0 ≢ Ending.DiskFailed → D.bytes result.1 ≡ D.bytes disk }
    ensures unread { IsTrue D.honest → NeedsNoSource (opened (D.bytes disk)) →
        source.new ≡ source.old }
    ensures any_moment { IsTrue D.honest → HasGate journal_header (D.bytes disk) →
        OfLedger (D.bytes disk) (S.left source.old) →
        MovesNode (D.bytes disk) (D.past disk) (D.past result.1) }
{
    match open(alloc, source, disk) {
        Ok(replica) => {
            let settings = Serving {
                peers: task.peers.as_slice(),
                ticks: task.ticks,
                turns: task.turns,
            };
            let (end, disk) = serve_replica(alloc, link, replica, observer, &settings);
            (print_end(alloc, task.turns, end, sink), disk)
        }
        Err((stop, disk)) => (print_stop(alloc, stop, sink), disk),
    }
}
