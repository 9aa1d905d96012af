//! The one-time leaves of a key file.

ghost use Rattle.std.specs.Prelude.{◌≡◌, ◌⊎◌, ℕ, ◌+◌, ◌<◌, ◌≤◌, IsTrue, IfOk, IfErr, OnOk, Ok, Err};
ghost use Rattle.gl_base.specs.declared.or_no_memory.OrNoMemory.{OrNoMemory};
ghost use Rattle.gl_outside.specs.Fault.{Rose};
ghost use Rattle.gl_outside.specs.Disk.{Leaves};
ghost use Rattle.gl_journal.specs.Stops.{HasCause};
ghost use Rattle.gl_journal.specs.Kept.{IsKept};
ghost use Rattle.gl_journal.specs.Durable.{Durable as State, LogRules, leaf_count, OpensToOneOf};
ghost use Rattle.gl_journal.specs.declared.fault.JournalFault.{JournalFault};
ghost use Rattle.gl_keyfile.specs.KeyFile.{opened, OpensOnlyTo, disk_of, held, IsOpened};
ghost use Rattle.gl_keyfile.specs.Leaf.{after_leaf};
ghost use Rattle.gl_keyfile.specs.declared.fault.KeyFileFault.{KeyFileFault};

use crate::fault::KeyFileFault;
use crate::key_file::KeyFile;
use gl_base::OrNoMemory;
use gl_journal::{EntryLog, Journal, JournalFault, Record};
use gl_outside::Disk;

/// What a leaf is taken for.
#[derive(Clone, Copy, Debug, PartialEq, Eq)]
pub enum LeafUse {
    /// A signature.
    Signature,
    /// The start of a service, which the file tells besides.
    Start,
}

/// A leaf that no other signature has, and the disk whose file keeps that it is spent.
#[derive(Debug, Drop)]
pub struct TakenLeaf<D> {
    pub disk: D,
    /// The number of the leaf, from 0: q of RFC 8554, section 5.1.
    pub leaf: u32,
}

/// The bytes of a record of a number of leaves.
const COUNT_LEN: u64 = 9;

/// Keeps how many leaves are spent, and for a start that it spent so many, in one batch.
#[tactic(auto, unfolding(gl_base::specs::LittleEndian::little_endian))]
fn keep_count<D: Disk>(
    journal: &mut Journal<D>,
    reserved: u32,
    leaf_use: LeafUse,
) -> Result<(), OrNoMemory<JournalFault>>
    requires open { IsTrue D.honest → IsKept D.bytes D.past journal.old }

    ensures kept { IsTrue D.honest → (goes_on : LogRules) (state : State) →
        opened goes_on (D.bytes journal.old.gated.disk) ≡ Ok state →
        reserved ≡ state.reserved + 1 → state.reserved < leaf_count state →
        OnOk result
        (opened goes_on (D.bytes journal.new.gated.disk) ≡ Ok (after_leaf leaf_use state)) }
    ensures after { IsTrue D.honest → (goes_on : LogRules) (state : State) →
        opened goes_on (D.bytes journal.old.gated.disk) ≡ Ok state →
        reserved ≡ state.reserved + 1 → state.reserved < leaf_count state →
        OnOk result
        (OpensOnlyTo goes_on (D.past journal.new.gated.disk) (after_leaf leaf_use state)) }
    ensures any_moment { IsTrue D.honest → (goes_on : LogRules) (state : State) →
        opened goes_on (D.bytes journal.old.gated.disk) ≡ Ok state →
        reserved ≡ state.reserved + 1 → state.reserved < leaf_count state →
        Leaves (OpensToOneOf goes_on state (after_leaf leaf_use state))
        (D.past journal.old.gated.disk) (D.past journal.new.gated.disk) }
    ensures no_memory { IsTrue D.honest → result ≡ Err OrNoMemory.NoMemory →
        (D.bytes journal.new.gated.disk ≡ D.bytes journal.old.gated.disk)
        × (D.past journal.new.gated.disk ≡ D.past journal.old.gated.disk) }
    ensures cause { HasCause (D.faults journal.old.gated.disk)
        (D.faults journal.new.gated.disk) result }
    ensures only { (fault : JournalFault) → result ≡ Err (OrNoMemory.Fault fault) →
        fault ≡ JournalFault.DiskFault }
{
    let signer = Record::Signer { reserved };
    let start = Record::Start { leaves: reserved };
    match leaf_use {
        LeafUse::Signature => journal.keep(&[signer], COUNT_LEN),
        LeafUse::Start => journal.keep(&[signer, start], 2 * COUNT_LEN),
    }
}

impl<D: Disk, L: EntryLog> KeyFile<D, L> {
    /// Takes the next leaf of the key. Before it answers Ok, the file keeps that the leaf is spent,
    /// whatever comes. An error gives the disk back: with the state before where memory ran out or
    /// the key has no leaf left; where the disk failed, a stop leaves that state, or the one in
    /// which the leaf is spent unused.
    pub fn take_leaf(self, leaf_use: LeafUse) -> Result<TakenLeaf<D>, (OrNoMemory<KeyFileFault>, D)>
        requires open { IsTrue D.honest → IsOpened L.goes_on L.frames D.bytes D.past self }

        ensures leaf { IfOk result (λ taken. taken.leaf ≡ (held L.frames self).reserved) }
        ensures below { IfOk result (λ taken. taken.leaf < leaf_count (held L.frames self)) }
        ensures kept { IsTrue D.honest → IfOk result (λ taken.
            opened L.goes_on (D.bytes taken.disk) ≡ Ok (after_leaf leaf_use (held L.frames self))) }
        ensures after { IsTrue D.honest → IfOk result (λ taken.
            OpensOnlyTo L.goes_on (D.past taken.disk) (after_leaf leaf_use (held L.frames self))) }

        // At every moment each image that a stop may leave opens to the state before, or to that
        // after the leaf.
        ensures any_moment { IsTrue D.honest → IfOk result (λ taken.
            Leaves (OpensToOneOf L.goes_on (held L.frames self)
            (after_leaf leaf_use (held L.frames self)))
            (D.past (disk_of self)) (D.past taken.disk)) }
        ensures any_moment_err { IsTrue D.honest → IfErr result (λ e.
            Leaves (OpensToOneOf L.goes_on (held L.frames self)
            (after_leaf leaf_use (held L.frames self)))
            (D.past (disk_of self)) (D.past e.1)) }

        // A key gives no leaf exactly where all of them are spent, and nothing is done to the disk.
        ensures exhausted { leaf_count (held L.frames self) ≤ (held L.frames self).reserved → result
            ≡ Err (
              OrNoMemory.Fault (KeyFileFault.KeyExhausted (held L.frames self).reserved),
              disk_of self,
            ) }
        ensures exhausted_only { (reserved : ℕ) (back : D) →
            result ≡ Err (OrNoMemory.Fault (KeyFileFault.KeyExhausted reserved), back) →
            leaf_count (held L.frames self) ≤ (held L.frames self).reserved }
        // A file of an honest disk never tells more than all.
        ensures within { IsTrue D.honest →
            (held L.frames self).reserved ≤ leaf_count (held L.frames self) }

        ensures no_memory { IsTrue D.honest → (back : D) →
            result ≡ Err (OrNoMemory.NoMemory, back) →
            (D.bytes back ≡ D.bytes (disk_of self)) × (D.past back ≡ D.past (disk_of self)) }
        ensures quiet { IfOk result (λ taken. D.faults taken.disk ≡ D.faults (disk_of self)) }
        ensures disk_fault { (back : D) → result
            ≡ Err (OrNoMemory.Fault (KeyFileFault.Journal JournalFault.DiskFault), back) →
            Rose (D.faults (disk_of self)) (D.faults back) }
        ensures no_disk_fault { (error : OrNoMemory KeyFileFault) (back : D) →
            result ≡ Err (error, back) →
            (error ≡ OrNoMemory.Fault (KeyFileFault.Journal JournalFault.DiskFault) → ⊥) →
            D.faults back ≡ D.faults (disk_of self) }
        ensures only { (fault : KeyFileFault) (back : D) →
            result ≡ Err (OrNoMemory.Fault fault, back) →
            (fault ≡ KeyFileFault.Journal JournalFault.DiskFault)
            ⊎ (fault ≡ KeyFileFault.KeyExhausted (held L.frames self).reserved) }
    {
        let leaf = self.state.reserved;
        let mut journal = self.journal;
        if leaf >= self.state.key.types.leaf_count() {
            let fault = KeyFileFault::KeyExhausted { reserved: leaf };
            return Err((OrNoMemory::Fault(fault), journal.gated.disk));
        }
        match keep_count(&mut journal, leaf + 1, leaf_use) {
            Ok(()) => Ok(TakenLeaf {
                disk: journal.gated.disk,
                leaf,
            }),
            Err(error) => Err((error.widen(), journal.gated.disk)),
        }
    }
}
