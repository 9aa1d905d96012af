//! The receipts that a ledger gives.

ghost use Rattle.std.specs.Prelude.{◌≡◌, ◌-◌, ◌<◌, ◌≤◌, [], true, Ok, Err, Some, IfOk, IfErr};
ghost use Rattle.gl_base.specs.Answers.{Fails};
ghost use Rattle.gl_entry.specs.Entry.{is_signature};
ghost use Rattle.gl_entry.specs.Leaf.{evidence_text};
ghost use Rattle.gl_receipt.specs.Made.{Ledger, status_in, commit_id, committed_entry, above_base, committed_above, is_under_same_key, later_signature, entry_at, components_of, recorded_signature, signed_in_entry, receipt_of, IsOfService};
ghost use Rattle.gl_receipt.specs.Receipt.{Accepts};

use crate::components::{LeafComponents, Receipt, Signed};
use crate::ledger::CommittedLedger;
use crate::make_fault::MakeFault;
use crate::text::Text;
use gl_base::{Bytes, OrNoMemory, Sequence, Status, TxId, same_bytes, status};
use gl_entry::{Content, Entry, evidence};
use std::alloc::{AllocError, Global};

/// The identifier of the last committed entry.
fn commit_id<L: CommittedLedger>(ledger: &L) -> Option<TxId>
    ensures { (l : Ledger) → L.stands ledger.now l → result ≡ commit_id l }
{
    let seqno = ledger.commit();
    match ledger.view_at(seqno) {
        None => None,
        Some(view) => Some(TxId { view, seqno }),
    }
}

/// The status of a transaction by this ledger.
fn status_in<L: CommittedLedger>(ledger: &L, id: TxId) -> Status
    ensures { (l : Ledger) → L.stands ledger.now l → result ≡ status_in l id }
{
    status(id, ledger.view_at(id.seqno), commit_id(ledger))
}

/// The entry of a committed transaction, which is asked to stand above the base.
fn committed_entry<L: CommittedLedger>(ledger: &L, id: TxId) -> Result<&Entry, MakeFault>
    ensures found { (l : Ledger) → L.stands ledger.now l → IfOk result (λ e.
        committed_entry l id ≡ Ok e.now) }
    ensures above { (l : Ledger) → L.stands ledger.now l → IfOk result (λ e.
        above_base l id.seqno ≡ Ok tt) }
    ensures refused { (l : Ledger) → L.stands ledger.now l → IfErr result (λ fault.
        committed_above l id ≡ Err fault) }
    ensures numbered { IfOk result (λ e. e.now.seqno ≡ id.seqno) }
    ensures above_base { IfOk result (λ e. L.base_of ledger.now < id.seqno) }
    ensures within { IfOk result (λ e. id.seqno ≤ L.last_of ledger.now) }
{
    let status = status_in(ledger, id);
    let base = ledger.base();
    match (status, ledger.entry(id.seqno)) {
        (Status::Committed, _) if id.seqno <= base => Err(MakeFault::BelowBase { base }),
        (Status::Committed, Some(entry)) => Ok(entry),
        _ => Err(MakeFault::NotCommitted { status }),
    }
}

/// Whether the service's key in force at the one seqno is in force at the other.
fn is_under_same_key<L: CommittedLedger>(ledger: &L, seqno: u64, other: u64) -> bool
    requires above_base { L.base_of ledger.now < seqno }
    requires other_above_base { L.base_of ledger.now < other }
    requires within { seqno ≤ L.last_of ledger.now }
    requires other_within { other ≤ L.last_of ledger.now }
    ensures { (l : Ledger) → L.stands ledger.now l → result ≡ is_under_same_key l seqno other }
{
    same_bytes(&ledger.identity(seqno), &ledger.identity(other))
}

/// The first signature above a seqno, where it is committed and under the same key.
fn later_signature<L: CommittedLedger>(ledger: &L, seqno: u64) -> Result<&Entry, MakeFault>
    requires above_base { L.base_of ledger.now < seqno }
    requires within { seqno ≤ L.last_of ledger.now }
    ensures found { (l : Ledger) → L.stands ledger.now l → IfOk result (λ e.
        later_signature l seqno ≡ Ok e.now) }
    ensures refused { (l : Ledger) → L.stands ledger.now l → IfErr result (λ fault.
        later_signature l seqno ≡ Err fault) }
    ensures above { IfOk result (λ e. seqno < e.now.seqno) }
    ensures within { IfOk result (λ e. e.now.seqno ≤ L.last_of ledger.now) }
    ensures numbered { (l : Ledger) → L.stands ledger.now l → IfOk result (λ e.
        entry_at l.entries e.now.seqno ≡ Some e.now) }
    ensures signs { (l : Ledger) → L.stands ledger.now l → IfOk result (λ e.
        is_signature e.now.content ≡ true) }
{
    let commit = ledger.commit();
    match ledger.signature_above(seqno) {
        Some(entry) if entry.seqno <= commit && is_under_same_key(ledger, seqno, entry.seqno) => {
            Ok(entry)
        }
        _ => Err(MakeFault::NoLaterSignature { commit }),
    }
}

/// The commit evidence of a transaction, as a text.
fn evidence_of(alloc: Global, identity: &[u8; 60], id: TxId) -> Result<Text, AllocError>
    ensures { IfOk result (λ text. text ≡ evidence_text identity.now id) }
{
    let bytes = evidence(alloc, identity, id)?;
    Ok(Text::from(String::from_utf8(bytes).unwrap()))
}

/// What the leaf of an entry is made of.
fn components(
    alloc: Global,
    identity: &[u8; 60],
    id: TxId,
    entry: &Entry,
) -> Result<LeafComponents, AllocError>
    ensures { IfOk result (λ c. c ≡ components_of identity.now id entry.now) }
{
    Ok(LeafComponents {
        claims_digest: entry.claims,
        commit_evidence: evidence_of(alloc, identity, id)?,
        write_set_digest: entry.body_digest(),
    })
}

/// The bytes of a signature entry's signature.
fn recorded_signature(content: &Content) -> &[u8]
    ensures { result.now ≡ recorded_signature content.now }
{
    match content {
        Content::Signature(signature) => signature.signature.as_slice(),
        _ => &[],
    }
}

/// What a node signed in a signature entry beside the root.
fn signed_in_entry(entry: &Entry) -> Signed
    ensures { result ≡ signed_in_entry entry.now }
{
    Signed {
        commit: entry.content.recorded_commit(),
        seqno: entry.seqno,
        view: entry.view,
    }
}

/// The receipt of a committed transaction by its ledger (CCF documentation, "Receipts"). The
/// signature is the first one above it, which has to be committed too, and under the key that is in
/// force at the transaction. Refused where the ledger's status of the transaction isn't Committed,
/// then where its entry isn't above the base, and then where no such signature is there.
#[tactic(auto, unfolding(crate::specs::Made::receipt_of))]
pub fn make<L: CommittedLedger>(
    alloc: Global,
    ledger: &L,
    id: TxId,
) -> Result<Receipt, OrNoMemory<MakeFault>>
    ensures made { (l : Ledger) → L.stands ledger.now l → IfOk result (λ r.
        receipt_of l id ≡ Ok r) }
    ensures refused { (l : Ledger) → L.stands ledger.now l → IfErr result (λ e.
        Fails e (receipt_of l id)) }
    // In a ledger of the service the receipt is accepted as that of the transaction, under the key
    // in force at it.
    ensures accepted { (l : Ledger) → L.stands ledger.now l → IsOfService l → IfOk result (λ r.
        Accepts (l.identity id.seqno) r id) }
{
    let entry = committed_entry(ledger, id)?;
    let signature = later_signature(ledger, id.seqno)?;
    let proof = ledger.path(id.seqno, signature.seqno - 1)?;
    let bytes = Vec::from_slice(alloc, recorded_signature(&signature.content))?;
    Ok(Receipt {
        leaf_components: components(alloc, &ledger.identity(id.seqno), id, entry)?,
        proof: Sequence::from(proof),
        signature: Bytes::from(bytes),
        signed: signed_in_entry(signature),
    })
}
