//! The whole program, over the objects that are handed in.

ghost use Rattle.std.specs.Prelude.{◌≡◌, ◌≢◌, ◌⊎◌, false, ℕ, ◌<◌, List, Err, IsTrue, Ok, Some, length, map};
ghost use Rattle.std.specs.String.{string_bytes};
ghost use Rattle.clap.specs.Kinds.{Kinds};
ghost use Rattle.gl_journal.specs.Durable.{journal_header};
ghost use Rattle.gl_journal.specs.Parts.{HasGate};
ghost use Rattle.gl_journal.specs.declared.key.KeyKind.{KeyKind};
ghost use Rattle.gl_store_book.specs.NodeFile.{opened};
ghost use Rattle.gl_keyfile.specs.declared.leaf.LeafUse.{LeafUse};
ghost use Rattle.gl_hss.specs.declared.types.Types.{Types};
ghost use Rattle.gl_outside.specs.Disk.{IsImage, Leaves};
ghost use Rattle.ccfg.specs.declared.ending.Ending.{Ending as Endings};
ghost use Rattle.ccfg.specs.declared.ending.Ending.TheVariants.{DiskFailed, Done, Memory, NoReading, NotValid, PastLimit, SinkFailed, SourceFailed};
ghost use Rattle.gl_commands.specs.declared.task.Task.TheVariants.{Keygen, Verify};
ghost use Rattle.gl_commands.specs.declared.task.Asked.{Asked as Commands};
ghost use Rattle.gl_schedule.specs.Moments.{KeepsHeadline, PrintsMoments};
ghost use Rattle.gl_entry.specs.SourceBytes.{OfBytes};
ghost use Rattle.ccfg.specs.Commands.{Does, ReportsFault, key_kind, leaf_use, output_of, uses_disk};
ghost use Rattle.ccfg.specs.Exits.{ExitsAsDue};
ghost use Rattle.ccfg.specs.ExpectedOutput.{PrintsFaultPrefix, exit_status};
ghost use Rattle.ccfg.specs.Plans.{IsUntouched, KeepsKey, MovesByLeaf, MovesToKey, OpensAsBefore, SpendsLeaf};
ghost use Rattle.ccfg.specs.Run.{disk_run, link_run, sink_run, source_run};
ghost use Rattle.ccfg.specs.SignCommand.{HasNoKey, IsForeign};
ghost use Rattle.ccfg.specs.VerifyCommand.{PrintsAccepted};
ghost use Rattle.gl_schedule.specs.Schedules.{reads};
ghost use Rattle.gl_commands.specs.Words.{asked};

use crate::ending::Ending;
use crate::fault::Fault;
use crate::load::run_load;
use crate::node::run_node;
use crate::output::{carry_out, refuse};
use crate::plan::read_plan;
use gl_commands::{Asked, Task, WordsFault, read_words};
use gl_load::LoadObserver;
use gl_outside::{Disk, Gate, Link, Sink, Source};
use gl_serve::Observer;
use std::alloc::Global;

/// Does what the words ask for with the bytes of the source, and gives the disk back.
fn execute<S: Source, K: Sink, D: Disk>(
    alloc: Global,
    task: &Task,
    source: &mut S,
    sink: &mut K,
    disk: D,
) -> (Ending, D)
    ensures disk { uses_disk task.now ≡ false → (result.1 ≡ disk) × (result.0 ≢ DiskFailed) }
    ensures accepted { result.0 ≡ Done → (identity : List ℕ)
        → task.now ≡ Verify identity → OfBytes (S.left source.old) (λ given.
        PrintsAccepted identity given (K.holds sink.old) (K.holds sink.new)) }
    ensures kept { result.0 ≡ Done → IsTrue D.honest → (kind : KeyKind) (types : Types)
        → task.now ≡ Keygen kind types → OfBytes (S.left source.old)
        (KeepsKey kind types (D.past result.1)) }
    ensures shown { IsTrue D.honest → (result.0 ≡ SinkFailed) ⊎ (result.0 ≡ Memory)
        → (kind : KeyKind) (types : Types) → task.now ≡ Keygen kind types
        → OfBytes (S.left source.old) (KeepsKey kind types (D.past result.1))
        ⊎ PrintsFaultPrefix (K.holds sink.old) (K.holds sink.new) }
    ensures not_empty { IsTrue D.honest → 0 < length (D.bytes disk) → (kind : KeyKind)
        (types : Types) → task.now ≡ Keygen kind types
        → IsUntouched D.bytes D.past disk result.1 }
    ensures unread { IsTrue D.honest → 0 < length (D.bytes disk) → (kind : KeyKind)
        (types : Types) → task.now ≡ Keygen kind types → source.new ≡ source.old }
    ensures untouched { IsTrue D.honest
        → (result.0 ≡ NotValid) ⊎ (result.0 ≡ SourceFailed) ⊎ (result.0 ≡ NoReading)
        → (kind : KeyKind) (types : Types) → task.now ≡ Keygen kind types
        → IsUntouched D.bytes D.past disk result.1 }
    ensures moves_to_key { IsTrue D.honest → (kind : KeyKind) (types : Types)
        → task.now ≡ Keygen kind types → OfBytes (S.left source.old)
        (MovesToKey kind types (D.past disk) (D.past result.1)) }
    ensures signed { result.0 ≡ Done → IsTrue D.honest → (leaf : LeafUse)
        → leaf_use task.now ≡ Some leaf → SpendsLeaf leaf (D.bytes disk) (D.past result.1) }
    ensures spent { IsTrue D.honest
        → (result.0 ≡ Done) ⊎ (result.0 ≡ SinkFailed) ⊎ (result.0 ≡ Memory) → (leaf : LeafUse)
        → leaf_use task.now ≡ Some leaf → SpendsLeaf leaf (D.bytes disk) (D.past result.1)
        ⊎ PrintsFaultPrefix (K.holds sink.old) (K.holds sink.new) }
    ensures any_moment { IsTrue D.honest → HasGate journal_header (D.bytes disk)
        → (leaf : LeafUse) → leaf_use task.now ≡ Some leaf
        → MovesByLeaf leaf (D.bytes disk) (D.past disk) (D.past result.1) }
    ensures unspent { IsTrue D.honest → (result.0 ≡ NotValid) ⊎ (result.0 ≡ SourceFailed)
        ⊎ (result.0 ≡ PastLimit) ⊎ (result.0 ≡ NoReading) → (leaf : LeafUse)
        → leaf_use task.now ≡ Some leaf → OpensAsBefore (D.bytes disk) (D.bytes result.1) }
    ensures foreign { IsTrue D.honest → (leaf : LeafUse) → leaf_use task.now ≡ Some leaf
        → IsForeign (opened (D.bytes disk))
        → Leaves (IsImage (D.past disk)) (D.past disk) (D.past result.1) }
    ensures foreign_bytes { IsTrue D.honest → (leaf : LeafUse) → leaf_use task.now ≡ Some leaf
        → IsForeign (opened (D.bytes disk)) → result.0 ≢ DiskFailed
        → D.bytes result.1 ≡ D.bytes disk }
    ensures unread_key { IsTrue D.honest → (kind : KeyKind) → key_kind task.now ≡ Some kind
        → HasNoKey kind (opened (D.bytes disk)) → source.new ≡ source.old }
    ensures quiet { result.0 ≢ SourceFailed → S.faults source.new ≡ S.faults source.old }
    ensures runs { ExitsAsDue (record {
      source = source_run S.left S.ended S.faults source.old source.new;
      sink = sink_run K.holds K.faults sink.old sink.new;
      disk = disk_run D.honest D.bytes D.past D.faults disk result.1;
    }) result.0 (output_of task.now) }
{
    let (plan, disk) = read_plan(alloc, task, source, disk);
    match plan {
        Ok(plan) => (carry_out(alloc, plan, sink), disk),
        Err(stop) => (stop.ending(), disk),
    }
}

fn run<S: Source, K: Sink, D: Disk + Drop, L: Link, O: Observer + LoadObserver>(
    alloc: Global,
    words: &[String],
    source: &mut S,
    sink: &mut K,
    disk: D,
    link: &mut L,
    mut observer: O,
) -> (Ending, D)
    ensures words { (kinds : Kinds) → asked (map string_bytes words.now) ≡ Err kinds
        → ReportsFault kinds (record {
          source = source_run S.left S.ended S.faults source.old source.new;
          sink = sink_run K.holds K.faults sink.old sink.new;
          disk = disk_run D.honest D.bytes D.past D.faults disk result.1;
        }) (link_run L.honest L.past L.inward link.old link.new) result.0 }
    ensures command { (command : Commands) → asked (map string_bytes words.now) ≡ Ok command
        → Does command (record {
          source = source_run S.left S.ended S.faults source.old source.new;
          sink = sink_run K.holds K.faults sink.old sink.new;
          disk = disk_run D.honest D.bytes D.past D.faults disk result.1;
        }) (link_run L.honest L.past L.inward link.old link.new) result.0 }
{
    match read_words(alloc, words) {
        Ok(Asked::Task(task)) => execute(alloc, &task, source, sink, disk),
        Ok(Asked::Node(node)) => run_node(alloc, &node, source, sink, disk, link, observer),
        Ok(Asked::Load(load)) => (run_load(alloc, &load, sink, &mut observer), disk),
        Err(WordsFault::Refused(kind)) => (refuse(alloc, &Fault::Words(kind), sink), disk),
        Err(WordsFault::NoMemory) => (Ending::Memory, disk),
    }
}

/// The whole program. The word `replay` replays the schedule that the source gives, and prints what
/// came of each of its lines; `verify --identity HEX` verifies the receipt that the source gives,
/// under the service's key HEX, and prints which transaction it shows; `audit --identity HEX`
/// audits the ledger that the source gives, under the service's key HEX, and prints its last
/// transaction and that of its last signature; `keygen --kind KIND --types TYPES` begins a key file
/// on the disk, with the 32 bytes that the source gives as the key's seed, and prints the key's
/// public form; `deal --threshold K N..` deals the secret that the source gives with the seed of
/// its dealing, 64 bytes, among the members N.., and prints the action that sets this dealing, and
/// each member's share; `endorse`, `genesis` and `sign --identity HEX --member N` sign what the
/// source gives with the key of the disk's file, and print a node's endorsed key, the ledger that
/// opens a service, or the request of member N to the service with the key HEX; `recover` recovers
/// a service by the settings that the source gives and after the ledger that stands there after
/// them, with the key of the disk's file, and prints the ledger that opens it; `node --ticks N
/// --workers 0 --turns N ID..` serves as the node of the disk's file over the link, with the peers
/// ID.., until the link ends, and prints how many payloads it served and how many frames were lost;
/// `load --count N --seed HEX` makes a ledger of N requests on one node over a disk in memory,
/// audits it, and prints what it comes to. After each event of the node the observer is told where
/// it stands, and after each request of a load how many were taken. The answer is the exit status,
/// and the disk: 0 done, 1 the receipt or the ledger is not valid, the disk is not empty, a secret
/// can't be dealt so, nothing is signed or no service is recovered, 2 other words, 3 the source
/// failed, 4 the sink failed, 5 the disk failed, 6 the link failed, 7 out of memory, 8 a limit is
/// passed, 9 no schedule, no receipt, no seed, no secret with its seed, nothing to sign or no
/// settings. No command uses the gate yet.
pub fn top<
    S: Source,
    K: Sink,
    D: Disk + Drop + Send,
    L: Link,
    O: Observer + LoadObserver,
    G: Gate + Sync,
>(
    alloc: Global,
    words: &[String],
    source: &mut S,
    sink: &mut K,
    disk: D,
    link: &mut L,
    observer: O,
    gate: &G,
) -> (u8, D)
    // Words that ask for nothing: the line of a kind of their fault is written, or a prefix of it.
    ensures words { (kinds : Kinds) → asked (map string_bytes words.now) ≡ Err kinds
        → (e : Endings) × (result.0 ≡ exit_status e)
        × ReportsFault kinds (record {
          source = source_run S.left S.ended S.faults source.old source.new;
          sink = sink_run K.holds K.faults sink.old sink.new;
          disk = disk_run D.honest D.bytes D.past D.faults disk result.1;
        }) (link_run L.honest L.past L.inward link.old link.new) e }
    // Words that ask for a command: what is promised of it, in a file of its own, holds of the run.
    ensures command { (command : Commands) → asked (map string_bytes words.now) ≡ Ok command
        → (e : Endings) × (result.0 ≡ exit_status e)
        × Does command (record {
          source = source_run S.left S.ended S.faults source.old source.new;
          sink = sink_run K.holds K.faults sink.old sink.new;
          disk = disk_run D.honest D.bytes D.past D.faults disk result.1;
        }) (link_run L.honest L.past L.inward link.old link.new) e }
    // Whatever bytes are read: each line of their schedule, if they are one, is told in a moment of
    // the events of which the headline speaks.
    ensures moments { (given : List ℕ) → PrintsMoments (reads given) }
    // Whatever bytes are read: of the service of their schedule, if they are one, the headline
    // holds.
    ensures headline { (given : List ℕ) → KeepsHeadline (reads given) }
{
    let (ending, disk) = run(alloc, words, source, sink, disk, link, observer);
    (ending.status(), disk)
}
