//! Whether a snapshot is one of a service.

ghost use Rattle.std.specs.Prelude.{◌≡◌, ◌↔◌, Ok};
ghost use Rattle.gl_base.specs.declared.tx_id.TxId.{TxId as Id};
ghost use Rattle.gl_receipt.specs.Receipt.{Accepts};
ghost use Rattle.gl_receipt.specs.Verdict.{verdict};
ghost use Rattle.gl_snapshot.specs.Verdict.{Shows, of_receipt, same_id, same_digest, recorded, verified};

use crate::digest::body_digest;
use crate::fault::SnapshotFault;
use crate::snapshot::Snapshot;
use gl_base::TxId;
use gl_entry::{Content, Digest};
use gl_receipt::{Receipt, ReceiptFault, verify};

/// The transaction of the receipt.
fn check_receipt(identity: &[u8; 60], receipt: &Receipt) -> Result<TxId, SnapshotFault>
    ensures accepts { (id : Id) → (verdict identity.now receipt.now ≡ Ok id)
        ↔ Accepts identity.now receipt.now id }
    ensures exact { result ≡ of_receipt (verdict identity.now receipt.now) }
{
    match verify(identity, receipt) {
        Ok(id) => Ok(id),
        Err(fault) => Err(SnapshotFault::Receipt(fault)),
    }
}

fn check_id(id: TxId, entry: TxId) -> Result<TxId, SnapshotFault>
    ensures { result ≡ same_id id entry }
{
    if id.view == entry.view && id.seqno == entry.seqno {
        Ok(id)
    } else {
        Err(SnapshotFault::Receipt(ReceiptFault::Evidence))
    }
}

fn check_digest(want: &Digest, got: &Digest) -> Result<(), SnapshotFault>
    ensures { result ≡ same_digest want.now got.now }
{
    if want == got {
        Ok(())
    } else {
        Err(SnapshotFault::Digest {
            want: *want,
            got: *got,
        })
    }
}

/// Whether an entry records this digest.
fn check_recorded(content: &Content, got: &Digest) -> Result<(), SnapshotFault>
    ensures { result ≡ recorded content.now got.now }
{
    match content {
        Content::Evidence(want) => check_digest(want, got),
        _ => Err(SnapshotFault::Digest {
            want: [0; 32],
            got: *got,
        }),
    }
}

impl Snapshot {
    #[tactic(auto, unfolding(crate::specs::Verdict::verified))]
    fn check(&self, identity: &[u8; 60]) -> Result<TxId, SnapshotFault>
        ensures accepts { (id : Id) → (verdict identity.now self.now.receipt ≡ Ok id)
            ↔ Accepts identity.now self.now.receipt id }
        ensures exact { result ≡ verified identity.now self.now }
    {
        let entry = &self.entry;
        let shown = check_receipt(identity, &self.receipt)?;
        let (view, seqno) = (entry.view, entry.seqno);
        let id = check_id(shown, TxId { view, seqno })?;
        let want = &self.receipt.leaf_components.write_set_digest;
        check_digest(want, &entry.body_digest())?;
        check_recorded(&entry.content, &body_digest(&self.body))?;
        Ok(id)
    }

    /// The transaction of the evidence entry, for which the receipt is accepted under the service's
    /// key, a 60-byte HSS public key (RFC 8554, section 6.1). Else the first thing that is wrong:
    /// the receipt; that it is of another transaction; the digest of the entry's body; the digest
    /// of the snapshot's body. Takes no memory.
    pub fn verify(&self, identity: &[u8; 60]) -> Result<TxId, SnapshotFault>
        ensures shows { (id : Id) → (result ≡ Ok id) ↔ Shows identity.now self.now id }
        ensures exact { result ≡ verified identity.now self.now }
    {
        self.check(identity)
    }
}
