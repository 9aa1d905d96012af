//! A node that begins from a snapshot of another one's ledger, and its file that keeps it.

ghost use Rattle.std.specs.Prelude.{◌≡◌, [], ℕ, List, Ok, IsTrue, IfErr, IfOk, OnErr, OnOk};
ghost use Rattle.gl_outside.specs.Disk.{IsImage, Leaves};
ghost use Rattle.gl_outside.specs.Fault.{Counts};
ghost use Rattle.gl_journal.specs.Durable.{Durable as State, LogRules, OpensToOneOf, durable};
ghost use Rattle.gl_journal.specs.Kept.{IsKept};
ghost use Rattle.gl_journal.specs.RecordView.{snapshot_of as bytes_in};
ghost use Rattle.gl_rules.specs.Log.{view_at};
ghost use Rattle.gl_rules.specs.Replication.{install};
ghost use Rattle.gl_snapshot_body.specs.Body.{is_counted};
ghost use Rattle.gl_replication.specs.Offers.{IsWritable, kept_after_offer, kept_body};
ghost use Rattle.gl_replication.specs.Standing.{At};
ghost use Rattle.gl_replication.specs.Stands.{Answers, KeepsAll, Stepped};
ghost use Rattle.gl_node.specs.Begins.{Begins, HasBodyRoom, HasOneKey, TakesIn};
ghost use Rattle.gl_node.specs.Offered.{IsOffered, IsTakenIn, ReportsOffered};
ghost use Rattle.gl_node.specs.Persistence.{HoldsAbove, IsServing};

use crate::changed::held_count;
use crate::fault::NodeFault;
use crate::kept_book::KeptBook;
use gl_journal::{Journal, Record};
use gl_outside::{Disk, DiskFailed};
use gl_replication::{Core, Done, Offer, Refusal, Snapshots};
use gl_snapshot_body::{Body, put_body};
use std::alloc::{AllocError, Global};

/// The bytes of a snapshot that a store keeps: none where it is one of no entries.
fn kept_bytes(alloc: Global, body: &Body) -> Result<Option<Vec<u8>>, AllocError>
    requires { IsTrue (is_counted body.now) }
    ensures { IfOk result (λ kept. bytes_in kept ≡ kept_body body.now) }
{
    if body.base == 0 {
        return Ok(None);
    }
    let mut bytes = Vec::new(alloc);
    put_body(&mut bytes, body)?;
    Ok(Some(bytes))
}

/// The bytes of a snapshot that a store keeps, with memory for a batch of their record.
fn room<D: Disk>(
    alloc: Global,
    journal: &mut Journal<D>,
    body: &Body,
) -> Result<Option<Vec<u8>>, AllocError>
    requires { IsWritable body.now }
    ensures kept { IfOk result (λ kept. bytes_in kept ≡ kept_body body.now) }
    ensures room { OnOk result
        (HasBodyRoom D.room_end D.room_calls journal.new (kept_body body.now)) }
    ensures open { IsTrue D.honest → IsKept D.bytes D.past journal.old →
        IsKept D.bytes D.past journal.new }
    ensures bytes { IsTrue D.honest →
        D.bytes journal.new.gated.disk ≡ D.bytes journal.old.gated.disk }
    ensures past { IsTrue D.honest → D.past journal.new.gated.disk ≡ D.past journal.old.gated.disk }
    ensures faults { D.faults journal.new.gated.disk ≡ D.faults journal.old.gated.disk }
{
    match kept_bytes(alloc, body)? {
        None => Ok(None),
        Some(bytes) => {
            journal.room(5 + bytes.len() as u64)?;
            Ok(Some(bytes))
        }
    }
}

/// Keeps the snapshot with these bytes, if there are any, as one batch.
fn keep_body<D: Disk>(journal: &mut Journal<D>, kept: &Option<Vec<u8>>) -> Result<(), DiskFailed>
    requires open { IsTrue D.honest → IsKept D.bytes D.past journal.old }
    requires room { HasBodyRoom D.room_end D.room_calls journal.old (bytes_in kept.now) }
    ensures open { IsTrue D.honest → OnOk result (IsKept D.bytes D.past journal.new) }
    ensures kept { IsTrue D.honest → (goes_on : LogRules) (state next : State) →
        durable goes_on (D.bytes journal.old.gated.disk) ≡ Ok state →
        TakesIn goes_on (bytes_in kept.now) state next →
        OnOk result (durable goes_on (D.bytes journal.new.gated.disk) ≡ Ok next) }
    ensures after { IsTrue D.honest → (goes_on : LogRules) (state next : State) →
        durable goes_on (D.bytes journal.old.gated.disk) ≡ Ok state →
        TakesIn goes_on (bytes_in kept.now) state next →
        OnOk result ((image : List ℕ) → IsImage (D.past journal.new.gated.disk) image →
        durable goes_on image ≡ Ok next) }
    ensures any_moment { IsTrue D.honest → (goes_on : LogRules) (state next : State) →
        durable goes_on (D.bytes journal.old.gated.disk) ≡ Ok state →
        TakesIn goes_on (bytes_in kept.now) state next →
        Leaves (OpensToOneOf goes_on state next)
        (D.past journal.old.gated.disk) (D.past journal.new.gated.disk) }
    ensures faults { Counts (D.faults journal.old.gated.disk)
        (D.faults journal.new.gated.disk) result }
{
    match kept {
        None => Ok(()),
        Some(bytes) => journal.commit_batch(&[Record::Install { body: bytes }]),
    }
}

/// What an offer makes of a node whose ledger a file can keep, with what that ledger is then.
fn install_core<B: KeptBook + Snapshots>(
    core: &mut Core<B>,
    offer: Offer,
) -> Result<Done<B>, Refusal<B>>
    requires offered { IsOffered B.stands B.shows offer core.old }
    ensures steps { IfOk result (λ done. ReportsOffered B.stands B.shows offer core.old
        (λ b x n m. Stepped B.stands b x (install b m n) done core.new)) }
    ensures refused { IfErr result (λ why. ReportsOffered B.stands B.shows offer core.old
        (λ b x n m. Answers why (install b m n).outcome)) }
    ensures err { OnErr result (KeepsAll B.stands core.old core.new) }
    ensures quiet { IfOk result (λ done. done.sent ≡ []) }
    ensures body { IfOk result (λ done. B.base_snapshot core.new.book
        ≡ kept_after_offer offer done.outcome (B.base_snapshot core.old.book)) }
    ensures above { HoldsAbove B.stands B.held B.snapshot_of core.new.book }
    ensures held { (B.held core.new.book).snapshot ≡ B.base_snapshot core.new.book }
    ensures taken_in { At B.stands core.new.book (λ b h. IsTakenIn B.goes_on h.base
        (view_at b h.log h.base) (B.base_snapshot core.new.book)) }
    ensures key { HasOneKey B.stands core.old.book }
{
    let _leaves = core.book.leaves();
    let came = core.install(offer);
    let _count = held_count(&core.book);
    came
}

/// An offer that leaves a node as it is. Nothing is kept.
fn pass<D: Disk, B: KeptBook + Snapshots>(
    core: &mut Core<B>,
    journal: &Journal<D>,
    offer: Offer,
) -> Result<Done<B>, NodeFault<B>>
    requires offered { IsOffered B.stands B.shows offer core.old }
    requires serving { IsServing B.stands B.held B.snapshot_of B.goes_on D.honest D.bytes D.past
        core.old journal.now }
    requires stays { ReportsOffered B.stands B.shows offer core.old
        (λ b x n m. (install b m n).node ≡ n) }
    ensures begins { Begins B.stands B.held B.snapshot_of B.goes_on D.honest D.bytes D.past D.faults
        B.shows offer core.old journal.now result core.new journal.now }
    ensures quiet { IfOk result (λ done. done.sent ≡ []) }
    ensures body { IfOk result (λ done. B.base_snapshot core.new.book
        ≡ kept_after_offer offer done.outcome (B.base_snapshot core.old.book)) }
{
    match install_core(core, offer) {
        Err(why) => Err(NodeFault::Refused(why)),
        Ok(done) => Ok(done),
    }
}

/// A node without entries begins from a snapshot. Memory for what is kept of it is taken first.
fn begin_from<D: Disk, B: KeptBook + Snapshots>(
    core: &mut Core<B>,
    journal: &mut Journal<D>,
    body: Body,
) -> Result<Done<B>, NodeFault<B>>
    requires offered { IsOffered B.stands B.shows (Offer.Snapshot body) core.old }
    requires serving { IsServing B.stands B.held B.snapshot_of B.goes_on D.honest D.bytes D.past
        core.old journal.old }
    requires empty { At B.stands core.old.book (λ b h. h.log ≡ []) }
    ensures begins { Begins B.stands B.held B.snapshot_of B.goes_on D.honest D.bytes D.past D.faults
        B.shows (Offer.Snapshot body) core.old journal.old result core.new journal.new }
    ensures quiet { IfOk result (λ done. done.sent ≡ []) }
    ensures body { IfOk result (λ done. B.base_snapshot core.new.book
        ≡ kept_after_offer (Offer.Snapshot body) done.outcome (B.base_snapshot core.old.book)) }
{
    let kept = match room(core.alloc, journal, &body) {
        Err(_) => return Err(NodeFault::Refused(Refusal::NoMemory)),
        Ok(kept) => kept,
    };
    match install_core(core, Offer::Snapshot(body)) {
        Err(why) => Err(NodeFault::Refused(why)),
        Ok(done) => match keep_body(journal, &kept) {
            Ok(()) => Ok(done),
            Err(_) => Err(NodeFault::DiskFault),
        },
    }
}

/// What an offer makes of a node and of its file.
pub(crate) fn install_at<D: Disk, B: KeptBook + Snapshots>(
    core: &mut Core<B>,
    journal: &mut Journal<D>,
    offer: Offer,
) -> Result<Done<B>, NodeFault<B>>
    requires offered { IsOffered B.stands B.shows offer core.old }
    requires serving { IsServing B.stands B.held B.snapshot_of B.goes_on D.honest D.bytes D.past
        core.old journal.old }
    ensures begins { Begins B.stands B.held B.snapshot_of B.goes_on D.honest D.bytes D.past D.faults
        B.shows offer core.old journal.old result core.new journal.new }
    ensures quiet { IfOk result (λ done. done.sent ≡ []) }
    ensures body { IfOk result (λ done. B.base_snapshot core.new.book
        ≡ kept_after_offer offer done.outcome (B.base_snapshot core.old.book)) }
{
    if core.book.ledger_len() > 0 {
        return pass(core, journal, offer);
    }
    match offer {
        Offer::NoLaterSignature(commit) => pass(core, journal, Offer::NoLaterSignature(commit)),
        Offer::Snapshot(body) => begin_from(core, journal, body),
    }
}
