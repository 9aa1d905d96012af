//! The JSON tree of a receipt.

ghost use Rattle.std.specs.Prelude.{◌≡◌, ◌<◌, ◌^◌, IfOk, OnOk, string_bytes};
ghost use Rattle.std.specs.List.{AllByRecursion};
ghost use Rattle.hex.specs.Hex.{encode_lower, IsBytes};
ghost use Rattle.gl_receipt.specs.Ranges.{IsDigest, HasDigest, HaveDigests, IsReceipt};
ghost use Rattle.gl_receipt.specs.Tree.{leaf_components_tree, step_tree, proof_tree, signed_tree, receipt_tree};
ghost use Rattle.serde_json.specs.View.{view};

use crate::components::{LeafComponents, Receipt, Signed};
use gl_entry::Digest;
use gl_merkle::Step;
use serde_json::{Value, json};
use std::alloc::{AllocError, Global};

/// Bytes in lower-case hexadecimal.
fn hex_text(alloc: Global, bytes: &[u8]) -> Result<String, AllocError>
    ensures text { IfOk result (λ text. string_bytes text ≡ encode_lower bytes.now) }
    ensures bytes { IsBytes bytes.now }
{
    hex::encode(alloc, bytes)
}

fn digest_text(alloc: Global, digest: &Digest) -> Result<String, AllocError>
    ensures text { IfOk result (λ text. string_bytes text ≡ encode_lower digest.now) }
    ensures digest { IsDigest digest.now }
{
    hex_text(alloc, digest.as_slice())
}

fn leaf_components_tree(alloc: Global, components: &LeafComponents) -> Result<Value, AllocError>
    ensures tree { IfOk result (λ v. view v ≡ leaf_components_tree components.now) }
    ensures digests { OnOk result (HaveDigests components.now) }
{
    let claims_digest = digest_text(alloc, &components.claims_digest)?;
    let write_set_digest = digest_text(alloc, &components.write_set_digest)?;
    json!(in alloc; {
        "claims_digest": claims_digest,
        "commit_evidence": components.commit_evidence.as_str(),
        "write_set_digest": write_set_digest
    })
}

fn step_tree(alloc: Global, step: &Step) -> Result<Value, AllocError>
    ensures tree { IfOk result (λ v. view v ≡ step_tree step.now) }
    ensures digest { OnOk result (HasDigest step.now) }
{
    match step {
        Step::Left(sibling) => {
            let sibling = digest_text(alloc, sibling)?;
            json!(in alloc; {"left": sibling})
        }
        Step::Right(sibling) => {
            let sibling = digest_text(alloc, sibling)?;
            json!(in alloc; {"right": sibling})
        }
    }
}

fn proof_tree(alloc: Global, steps: &[Step]) -> Result<Value, AllocError>
    ensures tree { IfOk result (λ v. view v ≡ proof_tree steps.now) }
    ensures digests { OnOk result (AllByRecursion HasDigest steps.now) }
{
    let mut items = Vec::new(alloc);
    for step in steps {
        items.push(step_tree(alloc, step)?)?;
    }
    Ok(Value::Array(items))
}

fn signed_tree(alloc: Global, signed: &Signed) -> Result<Value, AllocError>
    ensures tree { IfOk result (λ v. view v ≡ signed_tree signed.now) }
    ensures view { signed.now.view < 2 ^ 32 }
{
    let view = signed.view;
    json!(in alloc; {"commit": signed.commit, "seqno": signed.seqno, "view": view})
}

/// The tree that is written for the receipt.
#[tactic(auto, unfolding(crate::specs::Tree::receipt_tree))]
pub(crate) fn receipt_tree(alloc: Global, receipt: &Receipt) -> Result<Value, AllocError>
    ensures tree { IfOk result (λ v. view v ≡ receipt_tree receipt.now) }
    ensures ranges { OnOk result (IsReceipt receipt.now) }
{
    let leaf_components = leaf_components_tree(alloc, &receipt.leaf_components)?;
    let proof = proof_tree(alloc, receipt.proof.as_slice())?;
    let signature = hex_text(alloc, receipt.signature.as_slice())?;
    let signed = signed_tree(alloc, &receipt.signed)?;
    json!(in alloc; {
        "leaf_components": leaf_components,
        "proof": proof,
        "signature": signature,
        "signed": signed
    })
}
