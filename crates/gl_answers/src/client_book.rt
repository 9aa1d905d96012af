//! What a store gives to a node that serves clients.

ghost use Rattle.std.specs.Prelude.{◌≡◌, ◌≤◌, Some, IfOk, IfSome, length};
ghost use Rattle.gl_base.specs.Answers.{Answers};
ghost use Rattle.gl_base.specs.Bytes.{mebibyte};
ghost use Rattle.gl_answers.specs.Limits.{FitsGiven};
ghost use Rattle.gl_ledger.specs.declared.response.Response.{Response};
ghost use Rattle.gl_answers.specs.Receipts.{receipts_of};
ghost use Rattle.gl_receipt.specs.Made.{receipt_of};
ghost use Rattle.gl_replication.specs.Standing.{At};
ghost use Rattle.gl_snapshot.specs.Snapshot.{file_bytes};
ghost use Rattle.gl_snapshot.specs.declared.snapshot.Snapshot.{Snapshot as SnapshotValue};
ghost use Rattle.gl_answers.specs.Snapshots.{IsSnapshotWith, evidence_below, part_of};

use crate::part::Part;
use gl_base::{OrNoMemory, TxId};
use gl_ledger::{Reads, Rejection, Response};
use gl_receipt::{MakeFault, Receipt};
use gl_replication::Snapshots;
use gl_requests::GovernanceRequest;
use gl_tx::Request;
use std::alloc::AllocError;

/// The store of a service, which can answer clients: it takes the requests of applications and of
/// governance, and gives receipts and snapshots.
pub trait ClientBook: Snapshots<
    Request = Request,
    Gov = GovernanceRequest,
    Reads = Reads,
    Response = Response,
    Refused = Rejection,
> {
    /// The receipt of a transaction, where the ledger is committed up to a seqno (CCF
    /// documentation, "Receipts").
    fn receipt(&self, commit: u64, id: TxId) -> Result<Receipt, OrNoMemory<MakeFault>>
        ensures { At Self.stands self.now (λ b h.
            Answers (λ r. r) result (receipt_of (receipts_of h.base h.log commit) id)) };

    /// A part of the bytes of the snapshot with the evidence at a seqno, where the ledger is
    /// committed up to another one: 1 MiB from an offset in bytes on, or all that are left, none
    /// from the end on. There is none only at a book that stands for no ledger. Fails only where
    /// memory runs out.
    fn snapshot_part(
        &self,
        commit: u64,
        evidence: u64,
        offset: u64,
    ) -> Result<Option<Part>, AllocError>
        requires within { At Self.stands self.now (λ b h. commit ≤ length h.log) }
        requires evidence { At Self.stands self.now (λ b h.
            evidence_below b h commit ≡ Some evidence) }
        ensures part { IfOk result (λ part. At Self.stands self.now (λ b h. (s : SnapshotValue)
            × IsSnapshotWith h.base h.log commit evidence s
            × (part ≡ Some (part_of (file_bytes s) offset)))) }
        // Whatever the book stands for.
        ensures sized { IfOk result (λ part. IfSome part (λ p. length p.bytes ≤ mebibyte)) };

    /// What it gives to requests keeps the limit of answers: a law of the store, of which nothing
    /// runs.
    fn keeps_limits(&self)
        ensures { (given : Response) → Self.fits given → FitsGiven given };
}
