//! A journal: a key, and batches of records that fold into what a node keeps.

ghost use Rattle.std.specs.Prelude.{◌≡◌, ◌⊎◌, ℕ, ◌^◌, ◌<◌, [], List, length, IsTrue, IfOk, IfErr, IsOk, OnOk, Some, Ok, Err};
ghost use Rattle.gl_base.specs.declared.or_no_memory.OrNoMemory.{OrNoMemory};
ghost use Rattle.gl_outside.specs.Fault.{Rose, Counts};
ghost use Rattle.gl_outside.specs.Disk.{IsImage, Leaves};
ghost use Rattle.gl_journal.specs.Gates.{payloads_of};
ghost use Rattle.gl_journal.specs.Parts.{HasGate};
ghost use Rattle.gl_journal.specs.Records.{Key as KeyOf, record_bytes, records_bytes};
ghost use Rattle.gl_journal.specs.Durable.{LogRules, Durable as State, durable, key_alone, fold_records, journal_header, OpensToOneOf, OpensToTheSame, OpensToKeyOrNone, OpensToKeyAlone};
ghost use Rattle.gl_journal.specs.RecordView.{record_values, state_of, StandsOn};
ghost use Rattle.gl_journal.specs.Kept.{IsKept, HasBatchRoom};
ghost use Rattle.gl_journal.specs.Stops.{HasCause};
ghost use Rattle.gl_journal.specs.declared.fault.JournalFault.{JournalFault};

use crate::durable::Durable;
use crate::entry_log::EntryLog;
use crate::fault::JournalFault;
use crate::folding::{HEADER, open_file};
use crate::gated::Gated;
use crate::key::Key;
use crate::open::close_end;
use crate::reader::read_all;
use crate::record::{Record, begin_batch, put_key, put_records};
use gl_base::OrNoMemory;
use gl_outside::{Disk, DiskFailed};
use std::alloc::{AllocError, Global};

/// A journal on a disk.
#[derive(Debug, Drop)]
pub struct Journal<D> {
    pub gated: Gated<D>,
    /// Memory for the next batch, with its length in front and a gate behind.
    buffer: Vec<u8>,
}

impl<D: Disk> Journal<D> {
    /// Takes the memory for a batch of so many bytes.
    pub fn room(&mut self, len: u64) -> Result<(), AllocError>
        ensures room { OnOk result (HasBatchRoom D.room_end D.room_calls self.new len) }
        ensures open { IsTrue D.honest → IsKept D.bytes D.past self.old →
            IsKept D.bytes D.past self.new }
        ensures bytes { IsTrue D.honest →
            D.bytes self.new.gated.disk ≡ D.bytes self.old.gated.disk }
        ensures past { IsTrue D.honest → D.past self.new.gated.disk ≡ D.past self.old.gated.disk }
        ensures faults { D.faults self.new.gated.disk ≡ D.faults self.old.gated.disk }
    {
        let Some(size) = len.checked_add(5) else {
            return Err(AllocError);
        };
        self.buffer.clear();
        self.buffer.reserve(size as usize)?;
        self.gated.room(len)
    }

    /// Keeps records as one batch, in memory that was taken before. Once it answers Ok, the file
    /// keeps them whatever comes. After a failure the journal isn't to be used again.
    pub fn commit_batch(&mut self, records: &[Record<'_>]) -> Result<(), DiskFailed>
        requires open { IsTrue D.honest → IsKept D.bytes D.past self.old }
        requires small { length (records_bytes (record_values records.now)) < 2 ^ 32 }
        requires room { HasBatchRoom D.room_end D.room_calls self.old
            (length (records_bytes (record_values records.now))) }

        ensures open { IsTrue D.honest → OnOk result (IsKept D.bytes D.past self.new) }
        // Where the records fold on the durable state of the file, each image that a stop may leave
        // afterwards opens to their fold, and so does the file.
        ensures kept { IsTrue D.honest → (goes_on : LogRules) (state next : State) →
            durable goes_on (D.bytes self.old.gated.disk) ≡ Ok state →
            fold_records goes_on state (record_values records.now) ≡ Some next →
            OnOk result (durable goes_on (D.bytes self.new.gated.disk) ≡ Ok next) }
        ensures after { IsTrue D.honest → (goes_on : LogRules) (state next : State) →
            durable goes_on (D.bytes self.old.gated.disk) ≡ Ok state →
            fold_records goes_on state (record_values records.now) ≡ Some next →
            OnOk result ((image : List ℕ) → IsImage (D.past self.new.gated.disk) image →
            durable goes_on image ≡ Ok next) }
        // At every moment in between each image opens to the state before, or to their fold.
        ensures any_moment { IsTrue D.honest → (goes_on : LogRules) (state next : State) →
            durable goes_on (D.bytes self.old.gated.disk) ≡ Ok state →
            fold_records goes_on state (record_values records.now) ≡ Some next →
            Leaves (OpensToOneOf goes_on state next)
            (D.past self.old.gated.disk) (D.past self.new.gated.disk) }
        ensures faults { Counts (D.faults self.old.gated.disk)
            (D.faults self.new.gated.disk) result }
    {
        begin_batch(&mut self.buffer);
        put_records(&mut self.buffer, records);
        self.gated.append(&mut self.buffer)
    }

    /// Keeps records as one batch of so many bytes, once there is memory for it. Once it answers
    /// Ok, the file keeps them whatever comes; out of memory, all is as before. After a failure of
    /// the disk the journal isn't to be used again.
    pub fn keep(&mut self, records: &[Record<'_>], len: u64) -> Result<(), OrNoMemory<JournalFault>>
        requires open { IsTrue D.honest → IsKept D.bytes D.past self.old }
        requires len { len ≡ length (records_bytes (record_values records.now)) }
        requires small { len < 2 ^ 32 }

        ensures open { IsTrue D.honest → OnOk result (IsKept D.bytes D.past self.new) }
        ensures kept { IsTrue D.honest → (goes_on : LogRules) (state next : State) →
            durable goes_on (D.bytes self.old.gated.disk) ≡ Ok state →
            fold_records goes_on state (record_values records.now) ≡ Some next →
            OnOk result (durable goes_on (D.bytes self.new.gated.disk) ≡ Ok next) }
        ensures after { IsTrue D.honest → (goes_on : LogRules) (state next : State) →
            durable goes_on (D.bytes self.old.gated.disk) ≡ Ok state →
            fold_records goes_on state (record_values records.now) ≡ Some next →
            OnOk result ((image : List ℕ) → IsImage (D.past self.new.gated.disk) image →
            durable goes_on image ≡ Ok next) }
        ensures any_moment { IsTrue D.honest → (goes_on : LogRules) (state next : State) →
            durable goes_on (D.bytes self.old.gated.disk) ≡ Ok state →
            fold_records goes_on state (record_values records.now) ≡ Some next →
            Leaves (OpensToOneOf goes_on state next)
            (D.past self.old.gated.disk) (D.past self.new.gated.disk) }
        ensures no_memory { IsTrue D.honest → result ≡ Err OrNoMemory.NoMemory →
            (D.bytes self.new.gated.disk ≡ D.bytes self.old.gated.disk)
            × (D.past self.new.gated.disk ≡ D.past self.old.gated.disk) }
        ensures cause { HasCause (D.faults self.old.gated.disk)
            (D.faults self.new.gated.disk) result }
        ensures only { (fault : JournalFault) → result ≡ Err (OrNoMemory.Fault fault) →
            fault ≡ JournalFault.DiskFault }
    {
        self.room(len)?;
        self.commit_batch(records).map_err(JournalFault::from)?;
        Ok(())
    }

    /// Keeps the key as the first batch.
    fn keep_key(&mut self, key: &Key) -> Result<(), DiskFailed>
        requires open { IsTrue D.honest → IsKept D.bytes D.past self.old }
        requires none { IsTrue D.honest →
            payloads_of journal_header (D.bytes self.old.gated.disk) ≡ Ok [] }
        requires small { length (record_bytes (KeyOf key.now)) < 2 ^ 32 }
        requires room { HasBatchRoom D.room_end D.room_calls self.old
            (length (record_bytes (KeyOf key.now))) }

        ensures open { IsTrue D.honest → OnOk result (IsKept D.bytes D.past self.new) }
        ensures kept { IsTrue D.honest → (goes_on : LogRules) →
            OnOk result (durable goes_on (D.bytes self.new.gated.disk) ≡ Ok (key_alone key.now)) }
        ensures any_moment { IsTrue D.honest → (goes_on : LogRules) →
            Leaves (OpensToKeyOrNone goes_on key.now)
            (D.past self.old.gated.disk) (D.past self.new.gated.disk) }
        ensures faults { Counts (D.faults self.old.gated.disk)
            (D.faults self.new.gated.disk) result }
    {
        begin_batch(&mut self.buffer);
        put_key(&mut self.buffer, key);
        self.gated.append(&mut self.buffer)
    }

    /// Begins a journal with its key, on a disk that holds nothing. Once it answers Ok, the file
    /// keeps it. An error gives the disk back.
    pub fn create(
        alloc: Global,
        disk: D,
        key: Key,
    ) -> Result<Journal<D>, (OrNoMemory<JournalFault>, D)>
        ensures open { IsTrue D.honest → IfOk result (λ journal. IsKept D.bytes D.past journal) }
        ensures kept { IsTrue D.honest → (goes_on : LogRules) → IfOk result (λ journal.
            durable goes_on (D.bytes journal.gated.disk) ≡ Ok (key_alone key)) }

        // At every moment each image that a stop may leave is one that it might have left before,
        // or opens to no state, or to the key alone.
        ensures any_moment { IsTrue D.honest → (goes_on : LogRules) → IfOk result (λ journal.
            Leaves (OpensToKeyAlone goes_on key (D.past disk))
            (D.past disk) (D.past journal.gated.disk)) }
        ensures any_moment_err { IsTrue D.honest → (goes_on : LogRules) → IfErr result (λ e.
            Leaves (OpensToKeyAlone goes_on key (D.past disk)) (D.past disk) (D.past e.1)) }

        ensures quiet { IfOk result (λ journal. D.faults journal.gated.disk ≡ D.faults disk) }
        ensures empty { IsTrue D.honest → IsOk result → D.bytes disk ≡ [] }
        ensures not_empty { IsTrue D.honest → (len : ℕ) (back : D) →
            result ≡ Err (OrNoMemory.Fault (JournalFault.NotEmpty len), back) →
            (len ≡ length (D.bytes disk)) × (0 < len) }
        ensures not_empty_stays { IsTrue D.honest → (len : ℕ) (back : D) →
            result ≡ Err (OrNoMemory.Fault (JournalFault.NotEmpty len), back) →
            (D.bytes back ≡ D.bytes disk) × (D.past back ≡ D.past disk) }
        ensures disk_fault { (back : D) →
            result ≡ Err (OrNoMemory.Fault JournalFault.DiskFault, back) →
            Rose (D.faults disk) (D.faults back) }
        ensures no_disk_fault { (error : OrNoMemory JournalFault) (back : D) →
            result ≡ Err (error, back) →
            (error ≡ OrNoMemory.Fault JournalFault.DiskFault → ⊥) →
            D.faults back ≡ D.faults disk }
        ensures only { (fault : JournalFault) (back : D) →
            result ≡ Err (OrNoMemory.Fault fault, back) →
            (fault ≡ JournalFault.DiskFault) ⊎ ((len : ℕ) × (fault ≡ JournalFault.NotEmpty len)) }
    {
        let gated = match Gated::create(disk, HEADER) {
            Ok(gated) => gated,
            Err(error) => return Err(error),
        };
        let buffer = Vec::new(alloc);
        let mut journal = Journal { gated, buffer };
        if journal.room(key.record_len()).is_err() {
            return Err((OrNoMemory::NoMemory, journal.gated.disk));
        }
        match journal.keep_key(&key) {
            Ok(()) => Ok(journal),
            Err(_) => Err((
                OrNoMemory::Fault(JournalFault::DiskFault),
                journal.gated.disk,
            )),
        }
    }

    /// Opens a journal that a stop may have left, and gives what it holds. The log `L` says which
    /// frames go on it. An error gives the disk back.
    pub fn open<L: EntryLog>(
        alloc: Global,
        disk: D,
    ) -> Result<(Journal<D>, Durable<L>), (OrNoMemory<JournalFault>, D)>
        ensures durable { IsTrue D.honest → IfOk result (λ found.
            durable L.goes_on (D.bytes disk) ≡ Ok (state_of L.frames found.1)) }
        ensures open { IsTrue D.honest → IfOk result (λ found. IsKept D.bytes D.past found.0
            × (durable L.goes_on (D.bytes found.0.gated.disk) ≡ durable L.goes_on (D.bytes disk))) }
        ensures stands { IfOk result (λ found. StandsOn L.snapshot found.1) }

        // At every moment each image that a stop may leave is one that it might have left before,
        // or opens to the same state.
        ensures any_moment { IsTrue D.honest → HasGate journal_header (D.bytes disk) →
            IfOk result (λ found. Leaves (OpensToTheSame L.goes_on (D.bytes disk) (D.past disk))
            (D.past disk) (D.past found.0.gated.disk)) }
        ensures any_moment_err { IsTrue D.honest → HasGate journal_header (D.bytes disk) →
            IfErr result (λ e. Leaves (OpensToTheSame L.goes_on (D.bytes disk) (D.past disk))
            (D.past disk) (D.past e.1)) }

        // Where the bytes open to no state, a stop leaves what it might have left before, and they
        // stay as they are, but after a failure of the disk.
        ensures unopened { IsTrue D.honest → (fault : JournalFault) →
            durable L.goes_on (D.bytes disk) ≡ Err fault →
            IfErr result (λ e. Leaves (IsImage (D.past disk)) (D.past disk) (D.past e.1)) }
        ensures unopened_bytes { IsTrue D.honest → (fault : JournalFault) →
            durable L.goes_on (D.bytes disk) ≡ Err fault →
            (error : OrNoMemory JournalFault) (back : D) → result ≡ Err (error, back) →
            (error ≡ OrNoMemory.Fault JournalFault.DiskFault → ⊥) →
            D.bytes back ≡ D.bytes disk }

        ensures quiet { IfOk result (λ found. D.faults found.0.gated.disk ≡ D.faults disk) }
        ensures disk_fault { (back : D) →
            result ≡ Err (OrNoMemory.Fault JournalFault.DiskFault, back) →
            Rose (D.faults disk) (D.faults back) }
        ensures no_disk_fault { (error : OrNoMemory JournalFault) (back : D) →
            result ≡ Err (error, back) →
            (error ≡ OrNoMemory.Fault JournalFault.DiskFault → ⊥) →
            D.faults back ≡ D.faults disk }
        ensures damaged { IsTrue D.honest → (fault : JournalFault) (back : D) →
            result ≡ Err (OrNoMemory.Fault fault, back) →
            (fault ≡ JournalFault.DiskFault → ⊥) →
            durable L.goes_on (D.bytes disk) ≡ Err fault }
    {
        let mut disk = disk;
        let file = match read_all(alloc, &mut disk) {
            Ok(file) => file,
            Err(error) => return Err((error, disk)),
        };
        let (place, state) = match open_file(alloc, &file) {
            Ok(found) => found,
            Err(error) => return Err((error, disk)),
        };
        match close_end(&mut disk, place, file.len() as u64) {
            Ok(()) => {}
            Err(error) => return Err((error, disk)),
        }
        let header = HEADER;
        let gated = Gated {
            disk,
            header,
            place,
        };
        let buffer = Vec::new(alloc);
        Ok((Journal { gated, buffer }, state))
    }
}
