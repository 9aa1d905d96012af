//! The file of a node: its key, its view and vote, its ledger and its spent leaves.

ghost use Rattle.std.specs.Prelude.{◌≡◌, ◌≢◌, ◌⊎◌, ◌≤◌, IsTrue, IfOk, IfErr, Ok, Err};
ghost use Rattle.gl_base.specs.declared.or_no_memory.OrNoMemory.{OrNoMemory};
ghost use Rattle.gl_outside.specs.Fault.{Rose};
ghost use Rattle.gl_outside.specs.Disk.{IsImage, Leaves};
ghost use Rattle.gl_journal.specs.Parts.{HasGate};
ghost use Rattle.gl_journal.specs.Durable.{Durable as State, journal_header, leaf_count, OpensToTheSame};
ghost use Rattle.gl_journal.specs.Kept.{IsAtRest};
ghost use Rattle.gl_journal.specs.declared.fault.JournalFault.{JournalFault};
ghost use Rattle.gl_journal.specs.declared.key.KeyKind.{KeyKind};
ghost use Rattle.gl_store_book.specs.Frames.{goes_on_ledger};
ghost use Rattle.gl_store_book.specs.NodeFile.{IsOpened, StandsOnSnapshot, has_ledger, opened, seen_state};

use gl_base::OrNoMemory;
use gl_config::NodeId;
use gl_hss::LmsKey;
use gl_journal::{Durable, EntryLog, Journal, JournalFault, KeyKind};
use gl_outside::Disk;
use sha2::{Digest, Sha256};
use std::alloc::Global;
use std::marker::Model;

mod fault;
mod from_snapshot;
mod kept_book;
mod ledger_log;
pub(crate) mod opening_batch;
mod opening_ledger;
pub(crate) mod persist;
mod replica;

pub use fault::{OpeningFault, SnapshotOpening};
pub use from_snapshot::{SourceKind, source_of};
pub use ledger_log::LedgerLog;

/// No more leaves are reserved than the key has. A journal takes no greater number.
fn within_leaves(mut state: Durable<LedgerLog>) -> Durable<LedgerLog>
    ensures within { (seen_state result).reserved ≤ leaf_count (seen_state result) }
    ensures same { (seen_state state).reserved ≤ leaf_count (seen_state state) →
        seen_state result ≡ seen_state state }
    ensures key { (seen_state result).key ≡ (seen_state state).key }
    ensures stands { StandsOnSnapshot state → StandsOnSnapshot result }
{
    state.reserved = state.reserved.min(state.key.types.leaf_count());
    state
}

/// Opens the journal of a node's file.
fn open_journal<D: Disk>(
    alloc: Global,
    disk: D,
) -> Result<(Journal<D>, Durable<LedgerLog>), (OrNoMemory<JournalFault>, D)>
    ensures durable { IsTrue D.honest → IfOk result (λ found.
        opened (D.bytes disk) ≡ Ok (seen_state found.1)) }
    ensures open { IfOk result (λ found.
        IsOpened D.honest D.bytes D.past found.0 (seen_state found.1)) }
    ensures within { IfOk result (λ found.
        (seen_state found.1).reserved ≤ leaf_count (seen_state found.1)) }
    ensures stands { IfOk result (λ found. StandsOnSnapshot found.1) }
    ensures any_moment { IsTrue D.honest → HasGate journal_header (D.bytes disk) →
        IfOk result (λ found. Leaves (OpensToTheSame goes_on_ledger (D.bytes disk) (D.past disk))
        (D.past disk) (D.past found.0.gated.disk)) }
    ensures any_moment_err { IsTrue D.honest → HasGate journal_header (D.bytes disk) →
        IfErr result (λ e. Leaves (OpensToTheSame goes_on_ledger (D.bytes disk) (D.past disk))
        (D.past disk) (D.past e.1)) }
    // Where the bytes open to no state, a stop leaves what it might have left before, and they stay
    // as they are, but after a failure of the disk.
    ensures unopened { IsTrue D.honest → (fault : JournalFault) →
        opened (D.bytes disk) ≡ Err fault →
        IfErr result (λ e. Leaves (IsImage (D.past disk)) (D.past disk) (D.past e.1)) }
    ensures unopened_bytes { IsTrue D.honest → (fault : JournalFault) →
        opened (D.bytes disk) ≡ Err fault →
        (error : OrNoMemory JournalFault) (back : D) → result ≡ Err (error, back) →
        error ≢ OrNoMemory.Fault JournalFault.DiskFault →
        D.bytes back ≡ D.bytes disk }
    ensures quiet { IfOk result (λ found. D.faults found.0.gated.disk ≡ D.faults disk) }
    ensures disk_fault { (back : D) →
        result ≡ Err (OrNoMemory.Fault JournalFault.DiskFault, back) →
        Rose (D.faults disk) (D.faults back) }
    ensures no_disk_fault { (error : OrNoMemory JournalFault) (back : D) →
        result ≡ Err (error, back) → error ≢ OrNoMemory.Fault JournalFault.DiskFault →
        D.faults back ≡ D.faults disk }
    ensures damaged { IsTrue D.honest → (fault : JournalFault) (back : D) →
        result ≡ Err (OrNoMemory.Fault fault, back) →
        fault ≢ JournalFault.DiskFault → opened (D.bytes disk) ≡ Err fault }
{
    match Journal::open::<LedgerLog>(alloc, disk) {
        Ok((journal, state)) => Ok((journal, within_leaves(state))),
        Err(error) => Err(error),
    }
}

/// A node's file that was opened, on a disk, and the node's key, which was grown from its seed.
#[derive(Drop)]
pub struct NodeFile<D: Disk + Drop> {
    alloc: Global,
    journal: Journal<D>,
    state: Durable<LedgerLog>,
    key: LmsKey,
    me: NodeId,
}

impl<D: Disk + Drop> Model for NodeFile<D> {
    ghost use Rattle.gl_store_book.specs.NodeFile.{IsFileOfNode, OpenFile, seen_state};

    ghost Value = { OpenFile D };

    ghost view = { λ f. record { disk = f.journal.gated.disk; state = seen_state f.state } };

    ghost invariant = { λ f. IsFileOfNode D.honest D.bytes D.past f.journal f.state f.key f.me };
}

impl<D: Disk + Drop> NodeFile<D> {
    ghost use Rattle.gl_store_book.specs.NodeFile.{node_of};
    ghost use Rattle.gl_store_book.specs.declared.node_file.fault.OpeningFault.{OpeningFault};

    /// Opens a node's file that a stop may have left, and grows the node's key. An error gives the
    /// disk back.
    pub fn open(alloc: Global, disk: D) -> Result<NodeFile<D>, (OrNoMemory<OpeningFault>, D)>
        ensures durable { IsTrue D.honest → IfOk result (λ file.
            opened (D.bytes disk) ≡ Ok file.state) }
        ensures kept { IsTrue D.honest → IfOk result (λ file.
            opened (D.bytes file.disk) ≡ Ok file.state) }
        ensures at_rest { IsTrue D.honest → IfOk result (λ file.
            IsAtRest (D.bytes file.disk) (D.past file.disk)) }
        ensures kind { IfOk result (λ file. file.state.key.kind ≡ KeyKind.Node) }

        // A key of another kind is refused, and the file then opens as before.
        ensures key_kind { IsTrue D.honest → (asked got : KeyKind) (back : D) →
            result ≡ Err (OrNoMemory.Fault (OpeningFault.KeyKind asked got), back) →
            (state : State) × (opened (D.bytes disk) ≡ Ok state) × (state.key.kind ≡ got)
            × (opened (D.bytes back) ≡ Ok state) }
        ensures kinds { (asked got : KeyKind) (back : D) →
            result ≡ Err (OrNoMemory.Fault (OpeningFault.KeyKind asked got), back) →
            (asked ≡ KeyKind.Node) × (got ≢ KeyKind.Node) }
        ensures damaged { IsTrue D.honest → (fault : JournalFault) (back : D) →
            result ≡ Err (OrNoMemory.Fault (OpeningFault.Journal fault), back) →
            fault ≢ JournalFault.DiskFault → opened (D.bytes disk) ≡ Err fault }

        // At every moment each image that a stop may leave is one that it might have left before,
        // or opens to the same state.
        ensures any_moment { IsTrue D.honest → HasGate journal_header (D.bytes disk) →
            IfOk result (λ file.
            Leaves (OpensToTheSame goes_on_ledger (D.bytes disk) (D.past disk))
            (D.past disk) (D.past file.disk)) }
        ensures any_moment_err { IsTrue D.honest → HasGate journal_header (D.bytes disk) →
            IfErr result (λ e. Leaves (OpensToTheSame goes_on_ledger (D.bytes disk) (D.past disk))
            (D.past disk) (D.past e.1)) }

        // Where the bytes open to no state, a stop leaves what it might have left before, and they
        // stay as they are, but after a failure of the disk.
        ensures unopened { IsTrue D.honest → (fault : JournalFault) →
            opened (D.bytes disk) ≡ Err fault →
            IfErr result (λ e. Leaves (IsImage (D.past disk)) (D.past disk) (D.past e.1)) }
        ensures unopened_bytes { IsTrue D.honest → (fault : JournalFault) →
            opened (D.bytes disk) ≡ Err fault →
            (error : OrNoMemory OpeningFault) (back : D) → result ≡ Err (error, back) →
            error ≢ OrNoMemory.Fault (OpeningFault.Journal JournalFault.DiskFault) →
            D.bytes back ≡ D.bytes disk }

        ensures quiet { IfOk result (λ file. D.faults file.disk ≡ D.faults disk) }
        ensures disk_fault { (back : D) → result
            ≡ Err (OrNoMemory.Fault (OpeningFault.Journal JournalFault.DiskFault), back) →
            Rose (D.faults disk) (D.faults back) }
        ensures no_disk_fault { (error : OrNoMemory OpeningFault) (back : D) →
            result ≡ Err (error, back) →
            error ≢ OrNoMemory.Fault (OpeningFault.Journal JournalFault.DiskFault) →
            D.faults back ≡ D.faults disk }
        ensures only { (fault : OpeningFault) (back : D) →
            result ≡ Err (OrNoMemory.Fault fault, back) →
            ((why : JournalFault) × (fault ≡ OpeningFault.Journal why))
            ⊎ ((got : KeyKind) × (fault ≡ OpeningFault.KeyKind KeyKind.Node got)) }
    {
        let (journal, state) = match open_journal(alloc, disk) {
            Ok(found) => found,
            Err((error, disk)) => return Err((error.widen(), disk)),
        };
        let got = state.key.kind;
        if got != KeyKind::Node {
            let fault = OpeningFault::KeyKind {
                want: KeyKind::Node,
                got,
            };
            return Err((OrNoMemory::Fault(fault), journal.gated.disk));
        }
        let key = match LmsKey::make(alloc, state.key.seed, state.key.types) {
            Ok(key) => key,
            Err(_) => return Err((OrNoMemory::NoMemory, journal.gated.disk)),
        };
        let me = Sha256::digest(&key.public());
        Ok(NodeFile {
            alloc,
            journal,
            state,
            key,
            me,
        })
    }

    /// The node, by the digest of its public key.
    pub fn me(&self) -> NodeId
        ensures { result ≡ node_of self.now.state }
    {
        self.me
    }

    /// Whether the file has a ledger, or at least the snapshot behind which one begins.
    pub fn has_ledger(&self) -> bool
        ensures { result ≡ has_ledger self.now.state }
    {
        self.state.base > 0 || self.state.log.len() > 0
    }

    /// The disk, with the file on it.
    pub fn into_disk(self) -> D
        ensures { result ≡ self.disk }
    {
        self.journal.gated.disk
    }
}
