//! A node that serves from a file.

ghost use Rattle.std.specs.Prelude.{◌≡◌, ◌↔◌, [], ℕ, List, true, None, Some, Ok, Err, IsTrue, IsSome, IfOk, OnOk};
ghost use Rattle.gl_outside.specs.Disk.{IsImage, Leaves};
ghost use Rattle.gl_outside.specs.Fault.{Rose};
ghost use Rattle.gl_journal.specs.Durable.{Durable as State, durable, OpensToOneOf};
ghost use Rattle.gl_journal.specs.Kept.{IsAtRest, IsKept};
ghost use Rattle.gl_replication.specs.Events.{AreFit, IsAccepted, has_few_entries, is_request, rule_of};
ghost use Rattle.gl_rules.specs.Replication.{install};
ghost use Rattle.gl_replication.specs.Offers.{kept_after_offer};
ghost use Rattle.gl_replication.specs.Stands.{Answers, KeepsAll, Refuses, Reports, Stepped, Steps};
ghost use Rattle.gl_node.specs.Answers.{OnRefusal, stopped_by, stopped_count};
ghost use Rattle.gl_node.specs.Kept.{kept_after};
ghost use Rattle.gl_node.specs.Offered.{IsOffered, ReportsOffered, kept_from_base};
ghost use Rattle.gl_node.specs.Persistence.{IsServing, OpensToCore, StandsForSome};

use crate::changed::held_count;
use crate::dispatch::dispatch;
use crate::fault::NodeFault;
use crate::install::install_at;
use crate::kept_book::KeptBook;
use gl_journal::Journal;
use gl_outside::Disk;
use gl_replication::{Core, Done, Event, Offer, Snapshots};
use std::alloc::AllocError;
use std::marker::Model;

/// A node that serves from a file. It is seen as the node, the disk with the file on it, and
/// whether the disk failed. Where there is a ledger with its snapshot the node stands for one of
/// the rules, and until the disk fails its file keeps it.
#[derive(Drop)]
pub struct Replica<D: Disk, B: KeptBook> {
    core: Core<B>,
    journal: Journal<D>,
    stopped: Option<u64>,
}

impl<D: Disk, B: KeptBook> Model for Replica<D, B> {
    ghost use Rattle.gl_node.specs.Seen.{Seen};
    ghost use Rattle.gl_node.specs.Persistence.{IsReplica};

    ghost Value = { Seen D B B.Request B.Gov B.Reads B.Response B.Refused };

    ghost view = { λ r. record {
      core = r.core;
      disk = r.journal.gated.disk;
      stopped = r.stopped;
    } };

    ghost invariant = { λ r. IsReplica B.stands B.held B.snapshot_of B.goes_on D.honest D.bytes
        D.past B.has_ledger B.base_snapshot r.core r.journal r.stopped };
}

/// When a node has stopped, by what an event came to and by how often the disk has failed.
fn stopped_by<B: KeptBook>(came: &Result<Done<B>, NodeFault<B>>, faults: u64) -> Option<u64>
    ensures { result ≡ stopped_by came.now faults }
{
    match came {
        Err(NodeFault::DiskFault) => Some(faults),
        _ => None,
    }
}

impl<D: Disk, B: KeptBook> Replica<D, B> {
    /// A node whose file keeps it, where there is a ledger with its snapshot.
    pub fn new(core: Core<B>, journal: Journal<D>) -> Self
        requires settled { IsTrue D.honest → IsKept D.bytes D.past journal }
        requires serving { B.has_ledger (B.base_snapshot core.book) →
            IsServing B.stands B.held B.snapshot_of B.goes_on D.honest D.bytes D.past
            core journal }
        ensures { result
            ≡ record { core = core; disk = journal.gated.disk; stopped = None } }
    {
        Replica {
            core,
            journal,
            stopped: None,
        }
    }

    /// An event happens: the node does what the rule says, and once that is kept it is answered,
    /// with what the node sends.
    pub fn event(&mut self, event: Event<B>) -> Result<Done<B>, NodeFault<B>>
        requires { has_few_entries event ≡ true }

        // Of every node that it stands for the event is the rule's step.
        ensures steps { IfOk result (λ done.
            Steps B.stands (rule_of event) self.old.core done self.new.core) }
        // A refusal is that of the rule, running out of memory aside, and leaves all as it was.
        ensures refused { OnRefusal result (λ why.
            Refuses B.stands (rule_of event) self.old.core why) }
        ensures stays { OnRefusal result (λ why. KeepsAll B.stands self.old.core self.new.core) }
        ensures same { IsTrue D.honest → OnRefusal result (λ why.
            (D.bytes self.new.disk ≡ D.bytes self.old.disk)
            × (D.past self.new.disk ≡ D.past self.old.disk)) }

        // Once it is answered the file keeps it, and so does whatever a stop leaves.
        ensures kept { IsTrue D.honest → OnOk result (Reports B.stands self.old.core (λ b x n.
            (d : State) → durable B.goes_on (D.bytes self.old.disk) ≡ Ok d →
            durable B.goes_on (D.bytes self.new.disk)
            ≡ Ok (kept_after d (rule_of event b x n).node))) }
        ensures after { IsTrue D.honest → OnOk result (Reports B.stands self.old.core (λ b x n.
            (d : State) → durable B.goes_on (D.bytes self.old.disk) ≡ Ok d →
            (image : List ℕ) → IsImage (D.past self.new.disk) image →
            durable B.goes_on image ≡ Ok (kept_after d (rule_of event b x n).node))) }
        // At every moment, also where the disk fails, a stop leaves a file that keeps the node as
        // it was or as the rule makes it.
        ensures any_moment { IsTrue D.honest → self.old.stopped ≡ None →
            Reports B.stands self.old.core (λ b x n.
            (d : State) → durable B.goes_on (D.bytes self.old.disk) ≡ Ok d →
            Leaves (OpensToOneOf B.goes_on d (kept_after d (rule_of event b x n).node))
            (D.past self.old.disk) (D.past self.new.disk)) }

        // A fault of the disk stops the node, and then each event is answered so.
        ensures disk_fault { result ≡ Err NodeFault.DiskFault →
            Rose (D.faults self.old.disk) (D.faults self.new.disk)
            × (self.new.stopped ≡ Some (D.faults self.new.disk)) }
        ensures no_disk_fault { (result ≡ Err NodeFault.DiskFault → ⊥) →
            (D.faults self.new.disk ≡ D.faults self.old.disk)
            × (self.new.stopped ≡ self.old.stopped) }
        // Whatever it stands for, what is sent and answered keeps the limits of the formats, and
        // the snapshot at its base stays.
        ensures sent { IfOk result (λ done. AreFit done.sent) }
        ensures accepted { IfOk result (λ done.
            is_request event ≡ true → IsAccepted B.fits done.outcome) }
        ensures snapshot { B.base_snapshot self.new.core.book ≡ B.base_snapshot self.old.core.book }
        ensures stopped { stopped_count result ≡ self.old.stopped }
        ensures still { IsSome self.old.stopped → self.new ≡ self.old }
    {
        if let Some(count) = self.stopped {
            return Err(NodeFault::Stopped { count });
        }
        let _count = held_count(&self.core.book);
        let came = dispatch(&mut self.core, &mut self.journal, &event);
        self.stopped = stopped_by(&came, self.journal.gated.disk.faults());
        came
    }

    /// The node, to be asked what it knows.
    pub fn core(&self) -> &Core<B>
        ensures core { result.now ≡ self.now.core }
        // It stands for a node of some rules, where there is a ledger with its snapshot.
        ensures some { B.has_ledger (B.base_snapshot self.now.core.book) →
            StandsForSome B.stands self.now.core }
    {
        &self.core
    }

    /// The disk with the file on it, which keeps the node until the disk fails.
    pub fn disk(&self) -> &D
        ensures disk { result.now ≡ self.now.disk }
        ensures keeps { IsTrue D.honest → self.now.stopped ≡ None →
            B.has_ledger (B.base_snapshot self.now.core.book) →
            OpensToCore B.held B.goes_on (D.bytes self.now.disk) self.now.core }
        ensures at_rest { IsTrue D.honest → self.now.stopped ≡ None →
            IsAtRest (D.bytes self.now.disk) (D.past self.now.disk) }
    {
        &self.journal.gated.disk
    }

    /// Since the disk failed: how often it had failed then.
    pub fn stopped(&self) -> Option<u64>
        ensures { result ≡ self.now.stopped }
    {
        self.stopped
    }

    /// The disk, with the file on it.
    pub fn into_disk(self) -> D
        ensures { result ≡ self.disk }
    {
        let journal = self.journal;
        journal.gated.disk
    }
}

impl<D: Disk, B: KeptBook + Snapshots> Replica<D, B> {
    /// A node without entries begins from what another one offers, and once its file keeps the
    /// snapshot that is answered. A node with entries keeps them.
    pub fn install(&mut self, offer: Offer) -> Result<Done<B>, NodeFault<B>>
        requires offered { IsOffered B.stands B.shows offer self.old.core }

        // Of every node that it stands for it is the step of the rules by which it begins from that
        // one's ledger.
        ensures steps { IfOk result (λ done. ReportsOffered B.stands B.shows offer self.old.core
            (λ b x n m. Stepped B.stands b x (install b m n) done self.new.core)) }
        // A refusal is that of the rule, running out of memory aside, and leaves all as it was.
        ensures refused { OnRefusal result (λ why. ReportsOffered B.stands B.shows offer
            self.old.core (λ b x n m. Answers why (install b m n).outcome)) }
        ensures stays { OnRefusal result (λ why. KeepsAll B.stands self.old.core self.new.core) }
        ensures same { IsTrue D.honest → OnRefusal result (λ why.
            (D.bytes self.new.disk ≡ D.bytes self.old.disk)
            × (D.past self.new.disk ≡ D.past self.old.disk)) }

        // Once it is answered the file keeps it, and so does whatever a stop leaves.
        ensures kept { IsTrue D.honest → OnOk result (ReportsOffered B.stands B.shows offer
            self.old.core (λ b x n m. (d : State) →
            durable B.goes_on (D.bytes self.old.disk) ≡ Ok d →
            durable B.goes_on (D.bytes self.new.disk)
            ≡ Ok (kept_from_base B.snapshot_of d (install b m n).node))) }
        ensures after { IsTrue D.honest → OnOk result (ReportsOffered B.stands B.shows offer
            self.old.core (λ b x n m. (d : State) →
            durable B.goes_on (D.bytes self.old.disk) ≡ Ok d →
            (image : List ℕ) → IsImage (D.past self.new.disk) image →
            durable B.goes_on image ≡ Ok (kept_from_base B.snapshot_of d (install b m n).node))) }
        // At every moment, also where the disk fails, a stop leaves a file that keeps the node as
        // it was or as the rule makes it.
        ensures any_moment { IsTrue D.honest → self.old.stopped ≡ None →
            ReportsOffered B.stands B.shows offer self.old.core (λ b x n m. (d : State) →
            durable B.goes_on (D.bytes self.old.disk) ≡ Ok d →
            Leaves (OpensToOneOf B.goes_on d (kept_from_base B.snapshot_of d (install b m n).node))
            (D.past self.old.disk) (D.past self.new.disk)) }

        ensures disk_fault { result ≡ Err NodeFault.DiskFault →
            Rose (D.faults self.old.disk) (D.faults self.new.disk)
            × (self.new.stopped ≡ Some (D.faults self.new.disk)) }
        ensures no_disk_fault { (result ≡ Err NodeFault.DiskFault → ⊥) →
            (D.faults self.new.disk ≡ D.faults self.old.disk)
            × (self.new.stopped ≡ self.old.stopped) }
        ensures quiet { IfOk result (λ done. done.sent ≡ []) }
        // Its store keeps another body only where it begins from that.
        ensures body { IfOk result (λ done. B.base_snapshot self.new.core.book
            ≡ kept_after_offer offer done.outcome (B.base_snapshot self.old.core.book)) }
        ensures stopped { stopped_count result ≡ self.old.stopped }
        ensures still { IsSome self.old.stopped → self.new ≡ self.old }
    {
        if let Some(count) = self.stopped {
            return Err(NodeFault::Stopped { count });
        }
        let _count = held_count(&self.core.book);
        let came = install_at(&mut self.core, &mut self.journal, offer);
        self.stopped = stopped_by(&came, self.journal.gated.disk.faults());
        came
    }

    /// Has its store keep the bytes of the snapshot that it offers at hand. What is seen of the
    /// node, its disk and its file stays.
    pub fn keep_at_hand(&mut self) -> Result<(), AllocError>
        ensures same { self.new ≡ self.old }
    {
        self.core.keep_at_hand()
    }
}
