//! Whether a receipt is valid.

ghost use Rattle.std.specs.Prelude.{◌≡◌, ◌↔◌, Ok, IsOk};
ghost use Rattle.gl_base.specs.declared.tx_id.TxId.{TxId as Id};
ghost use Rattle.gl_receipt.specs.Receipt.{leaf_of, message_of, Accepts};
ghost use Rattle.gl_receipt.specs.Verdict.{of_signature, verdict};
ghost use Rattle.gl_hss.specs.Hss.{IsValid};
ghost use Rattle.gl_hss.specs.Order as hss;

use crate::components::{LeafComponents, Receipt};
use crate::evidence::transaction_of;
use crate::fault::ReceiptFault;
use gl_base::TxId;
use gl_entry::{Digest, leaf_of_components, signed_message};
use gl_merkle::climb;
use sha2::{Digest as _, Sha256};

/// The leaf of the entry that has these components.
fn leaf(components: &LeafComponents) -> Digest
    ensures { result ≡ leaf_of components.now }
{
    let evidence = Sha256::digest(components.commit_evidence.as_str().as_bytes());
    leaf_of_components(
        &components.write_set_digest,
        &evidence,
        &components.claims_digest,
    )
}

/// What a node signed, if the receipt is valid.
fn message(receipt: &Receipt) -> [u8; 52]
    ensures { result ≡ message_of receipt.now }
{
    let root = climb(leaf(&receipt.leaf_components), receipt.proof.as_slice());
    let signed = &receipt.signed;
    signed_message(&root, signed.view, signed.seqno, signed.commit)
}

/// Whether the signature is valid.
fn check_signature(identity: &[u8; 60], receipt: &Receipt) -> Result<(), ReceiptFault>
    ensures valid { IsOk result
        ↔ IsValid identity.now (message_of receipt.now) receipt.now.signature }
    ensures exact { result ≡ of_signature
        (hss.verdict identity.now (message_of receipt.now) receipt.now.signature) }
{
    gl_hss::verify(identity, &message(receipt), receipt.signature.as_slice())?;
    Ok(())
}

/// The transaction for which the receipt is accepted under the service's key, a 60-byte HSS
/// public key (RFC 8554, section 6.1). Takes no memory.
#[tactic(auto, unfolding(crate::specs::Verdict::verdict))]
pub fn verify(identity: &[u8; 60], receipt: &Receipt) -> Result<TxId, ReceiptFault>
    ensures accepts { (id : Id) → (result ≡ Ok id) ↔ Accepts identity.now receipt.now id }
    ensures exact { result ≡ verdict identity.now receipt.now }
{
    let evidence = receipt.leaf_components.commit_evidence.as_str();
    let id = transaction_of(identity, evidence.as_bytes())?;
    check_signature(identity, receipt)?;
    Ok(id)
}
