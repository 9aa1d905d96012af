//! A key file: it is begun with a key, or opened for a key of one kind.

ghost use Rattle.std.specs.Prelude.{◌≡◌, ◌⊎◌, ℕ, ◌<◌, [], List, length, IsTrue, IfOk, IfErr, IsOk, Ok, Err};
ghost use Rattle.gl_base.specs.declared.or_no_memory.OrNoMemory.{OrNoMemory};
ghost use Rattle.gl_outside.specs.Fault.{Rose};
ghost use Rattle.gl_outside.specs.Disk.{IsImage, Leaves};
ghost use Rattle.gl_journal.specs.Parts.{HasGate};
ghost use Rattle.gl_journal.specs.Durable.{Durable as State, key_alone, journal_header, OpensToKeyAlone, OpensToTheSame};
ghost use Rattle.gl_journal.specs.RecordView.{state_of};
ghost use Rattle.gl_journal.specs.declared.fault.JournalFault.{JournalFault};
ghost use Rattle.gl_journal.specs.declared.key.KeyKind.{KeyKind};
ghost use Rattle.gl_keyfile.specs.KeyFile.{opened, OpensOnlyTo, disk_of, held, IsOpened};
ghost use Rattle.gl_keyfile.specs.declared.fault.KeyFileFault.{KeyFileFault};

use crate::fault::KeyFileFault;
use gl_base::{FIRST_VIEW, OrNoMemory};
use gl_journal::{Durable, EntryLog, Journal, JournalFault, Key, KeyKind};
use gl_outside::Disk;
use std::alloc::Global;

/// A key file that was begun or opened, on a disk. The log `L` says which frames go on it, where a
/// node's file has a ledger.
#[derive(Drop)]
pub struct KeyFile<D, L> {
    pub journal: Journal<D>,
    /// What the file opened to.
    pub state: Durable<L>,
}

/// What a file with a key alone opens to.
fn key_alone<L: EntryLog>(alloc: Global, key: Key) -> Durable<L>
    ensures { state_of L.frames result ≡ key_alone key }
{
    Durable {
        key,
        view: FIRST_VIEW,
        vote: None,
        has_vote_record: false,
        base: 0,
        snapshot: None,
        log: L::new(alloc),
        reserved: 0,
        start: None,
    }
}

impl<D: Disk, L: EntryLog> KeyFile<D, L> {
    /// Begins a key file, on a disk that holds nothing. Once it answers Ok, the file keeps the key
    /// whatever comes. An error gives the disk back.
    pub fn create(
        alloc: Global,
        disk: D,
        key: Key,
    ) -> Result<KeyFile<D, L>, (OrNoMemory<KeyFileFault>, D)>
        ensures open { IsTrue D.honest → IfOk result (λ file.
            IsOpened L.goes_on L.frames D.bytes D.past file) }
        ensures state { IfOk result (λ file. held L.frames file ≡ key_alone key) }
        ensures kept { IsTrue D.honest → IfOk result (λ file.
            opened L.goes_on (D.bytes (disk_of file)) ≡ Ok (key_alone key)) }
        ensures after { IsTrue D.honest → IfOk result (λ file.
            OpensOnlyTo L.goes_on (D.past (disk_of file)) (key_alone key)) }

        // At every moment each image that a stop may leave is one that it might have left before,
        // or opens to no key file, or to the key alone.
        ensures any_moment { IsTrue D.honest → IfOk result (λ file.
            Leaves (OpensToKeyAlone L.goes_on key (D.past disk))
            (D.past disk) (D.past (disk_of file))) }
        ensures any_moment_err { IsTrue D.honest → IfErr result (λ e.
            Leaves (OpensToKeyAlone L.goes_on key (D.past disk)) (D.past disk) (D.past e.1)) }

        ensures quiet { IfOk result (λ file. D.faults (disk_of file) ≡ D.faults disk) }
        ensures empty { IsTrue D.honest → IsOk result → D.bytes disk ≡ [] }
        ensures not_empty { IsTrue D.honest → (len : ℕ) (back : D) → result
            ≡ Err (OrNoMemory.Fault (KeyFileFault.Journal (JournalFault.NotEmpty len)), back) →
            (len ≡ length (D.bytes disk)) × (0 < len) }
        ensures not_empty_stays { IsTrue D.honest → (len : ℕ) (back : D) → result
            ≡ Err (OrNoMemory.Fault (KeyFileFault.Journal (JournalFault.NotEmpty len)), back) →
            (D.bytes back ≡ D.bytes disk) × (D.past back ≡ D.past disk) }
        ensures disk_fault { (back : D) → result
            ≡ Err (OrNoMemory.Fault (KeyFileFault.Journal JournalFault.DiskFault), back) →
            Rose (D.faults disk) (D.faults back) }
        ensures no_disk_fault { (error : OrNoMemory KeyFileFault) (back : D) →
            result ≡ Err (error, back) →
            (error ≡ OrNoMemory.Fault (KeyFileFault.Journal JournalFault.DiskFault) → ⊥) →
            D.faults back ≡ D.faults disk }
        ensures only { (fault : KeyFileFault) (back : D) →
            result ≡ Err (OrNoMemory.Fault fault, back) →
            (fault ≡ KeyFileFault.Journal JournalFault.DiskFault)
            ⊎ ((len : ℕ) × (fault ≡ KeyFileFault.Journal (JournalFault.NotEmpty len))) }
    {
        let state = key_alone(alloc, key);
        match Journal::create(alloc, disk, key) {
            Ok(journal) => Ok(KeyFile { journal, state }),
            Err((error, disk)) => Err((error.widen(), disk)),
        }
    }

    /// Opens a key file that a stop may have left, for a key of this kind. An error gives the disk
    /// back.
    pub fn open(
        alloc: Global,
        disk: D,
        want: KeyKind,
    ) -> Result<KeyFile<D, L>, (OrNoMemory<KeyFileFault>, D)>
        ensures open { IsTrue D.honest → IfOk result (λ file.
            IsOpened L.goes_on L.frames D.bytes D.past file) }
        ensures durable { IsTrue D.honest → IfOk result (λ file.
            opened L.goes_on (D.bytes disk) ≡ Ok (held L.frames file)) }
        ensures after { IsTrue D.honest → IfOk result (λ file.
            OpensOnlyTo L.goes_on (D.past (disk_of file)) (held L.frames file)) }
        ensures kind { IfOk result (λ file. (held L.frames file).key.kind ≡ want) }

        // A key of another kind is refused, and the file then opens as before.
        ensures key_kind { IsTrue D.honest → (asked got : KeyKind) (back : D) →
            result ≡ Err (OrNoMemory.Fault (KeyFileFault.KeyKind asked got), back) →
            (state : State) × (opened L.goes_on (D.bytes disk) ≡ Ok state) × (state.key.kind ≡ got)
            × (opened L.goes_on (D.bytes back) ≡ Ok state) }
        ensures kinds { (asked got : KeyKind) (back : D) →
            result ≡ Err (OrNoMemory.Fault (KeyFileFault.KeyKind asked got), back) →
            (asked ≡ want) × (got ≡ want → ⊥) }
        ensures damaged { IsTrue D.honest → (fault : JournalFault) (back : D) →
            result ≡ Err (OrNoMemory.Fault (KeyFileFault.Journal fault), back) →
            (fault ≡ JournalFault.DiskFault → ⊥) → opened L.goes_on (D.bytes disk) ≡ Err fault }

        // At every moment each image that a stop may leave is one that it might have left before,
        // or opens to the same state.
        ensures any_moment { IsTrue D.honest → HasGate journal_header (D.bytes disk) →
            IfOk result (λ file. Leaves (OpensToTheSame L.goes_on (D.bytes disk) (D.past disk))
            (D.past disk) (D.past (disk_of file))) }
        ensures any_moment_err { IsTrue D.honest → HasGate journal_header (D.bytes disk) →
            IfErr result (λ e. Leaves (OpensToTheSame L.goes_on (D.bytes disk) (D.past disk))
            (D.past disk) (D.past e.1)) }

        // Where the bytes are no key file, a stop leaves what it might have left before, and they
        // stay as they are, but after a failure of the disk.
        ensures unopened { IsTrue D.honest → (fault : JournalFault) →
            opened L.goes_on (D.bytes disk) ≡ Err fault →
            IfErr result (λ e. Leaves (IsImage (D.past disk)) (D.past disk) (D.past e.1)) }
        ensures unopened_bytes { IsTrue D.honest → (fault : JournalFault) →
            opened L.goes_on (D.bytes disk) ≡ Err fault →
            (error : OrNoMemory KeyFileFault) (back : D) → result ≡ Err (error, back) →
            (error ≡ OrNoMemory.Fault (KeyFileFault.Journal JournalFault.DiskFault) → ⊥) →
            D.bytes back ≡ D.bytes disk }

        ensures quiet { IfOk result (λ file. D.faults (disk_of file) ≡ D.faults disk) }
        ensures disk_fault { (back : D) → result
            ≡ Err (OrNoMemory.Fault (KeyFileFault.Journal JournalFault.DiskFault), back) →
            Rose (D.faults disk) (D.faults back) }
        ensures no_disk_fault { (error : OrNoMemory KeyFileFault) (back : D) →
            result ≡ Err (error, back) →
            (error ≡ OrNoMemory.Fault (KeyFileFault.Journal JournalFault.DiskFault) → ⊥) →
            D.faults back ≡ D.faults disk }
        ensures never_exhausted { (reserved : ℕ) (back : D) →
            result ≡ Err (OrNoMemory.Fault (KeyFileFault.KeyExhausted reserved), back) → ⊥ }
    {
        let (journal, state) = match Journal::open::<L>(alloc, disk) {
            Ok(found) => found,
            Err((error, disk)) => return Err((error.widen(), disk)),
        };
        let got = state.key.kind;
        if got != want {
            let fault = KeyFileFault::KeyKind { want, got };
            return Err((OrNoMemory::Fault(fault), journal.gated.disk));
        }
        Ok(KeyFile { journal, state })
    }

    /// The file's key.
    pub fn key(&self) -> &Key
        ensures { result.now ≡ (held L.frames self.now).key }
    {
        &self.state.key
    }

    /// How many leaves of the key are spent: the number of the next one.
    pub fn reserved(&self) -> u32
        ensures { result ≡ (held L.frames self.now).reserved }
    {
        self.state.reserved
    }

    /// How many leaves were spent when the service started, if this key started one.
    pub fn start(&self) -> Option<u32>
        ensures { result ≡ (held L.frames self.now).start }
    {
        self.state.start
    }

    /// The disk, with the file on it.
    pub fn into_disk(self) -> D
        ensures { result ≡ disk_of self }
    {
        self.journal.gated.disk
    }
}
