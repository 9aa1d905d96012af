//! The bytes of a snapshot of a node's ledger, as it is handed on.

ghost use Rattle.std.specs.Prelude.{◌≡◌, ◌-◌, ◌<◌, ◌≤◌, List, Some, IfOk, IfSome, IsSome, length, take};
ghost use Rattle.std.specs.Result.{result_ok};
ghost use Rattle.gl_answers.specs.Receipts.{receipts_of};
ghost use Rattle.gl_answers.specs.Snapshots.{IsSnapshotWith, part_of};
ghost use Rattle.gl_base.specs.Bytes.{mebibyte};
ghost use Rattle.gl_entry.specs.Leaf.{id_of};
ghost use Rattle.gl_entry.specs.declared.entry.Entry.{Entry as Item};
ghost use Rattle.gl_ledger.specs.NodeKeys.{service_layers};
ghost use Rattle.gl_ledger.specs.Snapshot.{snapshot_over};
ghost use Rattle.gl_ledger_base.specs.Ledgers.{HoldsLedger};
ghost use Rattle.gl_receipt.specs.Made.{receipt_of};
ghost use Rattle.gl_snapshot.specs.declared.snapshot.Snapshot.{Snapshot as SnapshotValue};
ghost use Rattle.gl_store_book.specs.AtHand.{IsAtHand, IsFileWith, received_in};
ghost use Rattle.gl_store_book.specs.BasedLedgers.{base_of, body_of, len_of};

use crate::book_ledger::BookLedger;
use crate::client_book::{CommittedBook, receipt_by};
use crate::snapshots::within;
use gl_answers::Part;
use gl_base::{Bytes, MEBIBYTE, OrNoMemory, TxId};
use gl_entry::Entry;
use gl_receipt::Receipt;
use gl_snapshot::Snapshot;
use gl_snapshot_body::Body;
use std::alloc::{AllocError, Global};

/// The bytes of the snapshot with an evidence.
#[derive(Drop)]
pub(crate) struct SnapshotFile {
    /// The seqno of the evidence.
    pub(crate) evidence: u64,
    /// Up to which seqno the ledger was committed as they were made.
    pub(crate) commit: u64,
    pub(crate) bytes: Vec<u8>,
}

/// The receipt of an entry, if a ledger that is committed up to a seqno gives it.
fn receipt(
    alloc: Global,
    ledger: &BookLedger,
    commit: u64,
    entry: &Entry,
) -> Result<Option<Receipt>, AllocError>
    ensures { IfOk result (λ receipt. (log : List Item) → HoldsLedger service_layers
        (body_of ledger.now.snapshot) ledger.now.entries log →
        receipt ≡ result_ok (receipt_of (receipts_of (base_of ledger.now) log commit)
        (id_of entry.now))) }
{
    let id = TxId {
        view: entry.view,
        seqno: entry.seqno,
    };
    match receipt_by(alloc, &CommittedBook { ledger, commit }, id) {
        Ok(receipt) => Ok(Some(receipt)),
        Err(OrNoMemory::NoMemory) => Err(AllocError),
        Err(OrNoMemory::Fault(_)) => Ok(None),
    }
}

/// A copy of the entry with a seqno above the base, and its receipt, where there are both.
fn entry_with_receipt(
    alloc: Global,
    ledger: &BookLedger,
    commit: u64,
    seqno: u64,
) -> Result<Option<(Entry, Receipt)>, AllocError>
    ensures { IfOk result (λ found. (log : List Item) → HoldsLedger service_layers
        (body_of ledger.now.snapshot) ledger.now.entries log →
        found ≡ received_in ledger.now log commit seqno) }
{
    let Some(entry) = ledger.tail().entry(seqno) else {
        return Ok(None);
    };
    match receipt(alloc, ledger, commit, entry)? {
        None => Ok(None),
        Some(receipt) => Ok(Some((entry.copy(alloc)?, receipt))),
    }
}

/// The body of a snapshot of the entries before one above the base.
fn body_before(ledger: &BookLedger, seqno: u64) -> Result<Body, AllocError>
    ensures { IfOk result (λ body. base_of ledger.now < seqno → seqno ≤ len_of ledger.now →
        body ≡ snapshot_over (body_of ledger.now.snapshot)
        (take (seqno - 1 - base_of ledger.now) ledger.now.entries)) }
{
    let tail = ledger.tail();
    tail.snapshot(within(tail, seqno.saturating_sub(1)))
}

/// The bytes of the snapshot with the evidence at a seqno, by a ledger that is committed up to
/// another one. There are none where no entry stands there above the base, where that has no
/// receipt, or where they can't be encoded.
pub(crate) fn snapshot_bytes(
    alloc: Global,
    ledger: &BookLedger,
    commit: u64,
    evidence: u64,
) -> Result<Option<Vec<u8>>, AllocError>
    ensures made { IfOk result (λ file. IfSome file (λ bytes. (log : List Item) →
        HoldsLedger service_layers (body_of ledger.now.snapshot) ledger.now.entries log →
        IsFileWith (base_of ledger.now) log commit evidence bytes.items)) }
    ensures some { IfOk result (λ file. (log : List Item) →
        HoldsLedger service_layers (body_of ledger.now.snapshot) ledger.now.entries log →
        base_of ledger.now < evidence → (s : SnapshotValue) →
        IsSnapshotWith (base_of ledger.now) log commit evidence s → IsSome file) }
{
    let Some((entry, receipt)) = entry_with_receipt(alloc, ledger, commit, evidence)? else {
        return Ok(None);
    };
    let body = body_before(ledger, evidence)?;
    let snapshot = Snapshot {
        body,
        receipt,
        entry,
    };
    snapshot.spell(alloc)
}

/// The same, to be kept at hand.
pub(crate) fn made_file(
    alloc: Global,
    ledger: &BookLedger,
    commit: u64,
    evidence: u64,
) -> Result<Option<SnapshotFile>, AllocError>
    ensures { IfOk result (λ file. IsAtHand ledger.now file) }
{
    match snapshot_bytes(alloc, ledger, commit, evidence)? {
        None => Ok(None),
        Some(bytes) => Ok(Some(SnapshotFile {
            evidence,
            commit,
            bytes,
        })),
    }
}

/// Lets what is at hand go, where a ledger that is cut to a seqno loses entries.
pub(crate) fn drop_if_cut(at_hand: &mut Option<SnapshotFile>, ledger: &BookLedger, to: u64)
    ensures { IfSome at_hand.new (λ file. (at_hand.old ≡ Some file) × (len_of ledger.now ≤ to)) }
{
    if to < ledger.len() {
        *at_hand = None;
    }
}

/// The part of bytes from an offset on, which alone is copied.
pub(crate) fn part_from(alloc: Global, bytes: &[u8], offset: u64) -> Result<Part, AllocError>
    ensures part { IfOk result (λ part. part ≡ part_of bytes.now offset) }
    ensures sized { IfOk result (λ part. length part.bytes ≤ mebibyte) }
{
    let total = bytes.len() as u64;
    let rest = &bytes[offset.min(total) as usize..];
    let part = &rest[..rest.len().min(MEBIBYTE as usize)];
    Ok(Part {
        total,
        bytes: Bytes::from(Vec::from_slice(alloc, part)?),
    })
}
