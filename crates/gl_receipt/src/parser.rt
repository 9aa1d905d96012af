//! A receipt read from its JSON text.

ghost use Rattle.std.specs.Prelude.{◌≡◌, [], ◌∷◌, option_map, codes};
ghost use Rattle.gl_base.specs.Answers.{Answers};
ghost use Rattle.gl_json.specs.Form.{at};
ghost use Rattle.gl_receipt.specs.Form.{leaf_components_in, step_in, sibling_in, steps_from, proof_in, signed_in, bytes_in, receipt_in, receipt_from, path_of};
ghost use Rattle.serde_json.specs.View.{view, items_view};

use crate::components::{LeafComponents, Receipt, Signed};
use crate::form::{array_in, digest_in, fault_at, fault_in_step, u32_in, u64_in};
use crate::text::Text;
use gl_base::{Bytes, FormsFault, OrNoMemory, Sequence};
use gl_entry::Digest;
use gl_json::{FormError, lower_digits, only_members_in, read_tree, text_in, value_in};
use gl_merkle::Step;
use hex::FromHexError;
use serde_json::Value;
use std::alloc::Global;

#[tactic(auto, unfolding(crate::specs::Form::leaf_components_in))]
fn leaf_components_in(
    alloc: Global,
    value: &Value,
) -> Result<LeafComponents, OrNoMemory<FormsFault>>
    ensures { Answers (λ c. c) result (leaf_components_in (view value.now)) }
{
    only_members_in(
        &["claims_digest", "commit_evidence", "write_set_digest"],
        value,
    )
    .map_err(|form_error| fault_at(alloc, &["leaf_components"], form_error))?;
    let claims_digest = digest_in(value.get("claims_digest")).map_err(|form_error| fault_at(
        alloc,
        &["leaf_components", "claims_digest"],
        form_error,
    ))?;
    let commit_evidence = text_in(value.get("commit_evidence")).map_err(|form_error| fault_at(
        alloc,
        &["leaf_components", "commit_evidence"],
        form_error,
    ))?;
    let write_set_digest = digest_in(value.get("write_set_digest")).map_err(|form_error| fault_at(
        alloc,
        &["leaf_components", "write_set_digest"],
        form_error,
    ))?;
    Ok(LeafComponents {
        claims_digest,
        commit_evidence: Text::from(String::from_str(alloc, commit_evidence)?),
        write_set_digest,
    })
}

/// The sibling of an element that has the one member with this name.
#[tactic(auto, unfolding(crate::specs::Form::sibling_in))]
fn sibling_in(
    alloc: Global,
    index: u64,
    side: &str,
    value: &Value,
) -> Result<Digest, OrNoMemory<FormsFault>>
    ensures { Answers (λ s. s) result (sibling_in index side.now (view value.now)) }
{
    only_members_in(&[side], value).map_err(|form_error| fault_in_step(
        alloc,
        index,
        &[],
        form_error,
    ))?;
    digest_in(value.get(side)).map_err(|form_error| fault_in_step(
        alloc,
        index,
        &[side],
        form_error,
    ))
}

#[tactic(auto, unfolding(crate::specs::Form::step_in))]
fn step_in(alloc: Global, index: u64, value: &Value) -> Result<Step, OrNoMemory<FormsFault>>
    ensures { Answers (λ s. s) result (step_in index (view value.now)) }
{
    if value.get("left").is_some() {
        Ok(Step::Left(sibling_in(alloc, index, "left", value)?))
    } else {
        Ok(Step::Right(sibling_in(alloc, index, "right", value)?))
    }
}

fn steps_in(alloc: Global, values: &[Value]) -> Result<Vec<Step>, OrNoMemory<FormsFault>>
    ensures { Answers (λ s. s.items) result (steps_from 0 (items_view values.now)) }
{
    let mut steps = Vec::new(alloc);
    for value in values {
        let step = step_in(alloc, steps.len() as u64, value)?;
        steps.push(step)?;
    }
    Ok(steps)
}

#[tactic(auto, unfolding(crate::specs::Form::proof_in))]
fn proof_in(alloc: Global, value: Option<&Value>) -> Result<Sequence<Step>, OrNoMemory<FormsFault>>
    ensures { Answers (λ s. s) result (proof_in (option_map (λ v. view v.now) value.entry)) }
{
    let values = array_in(value).map_err(|form_error| fault_at(alloc, &["proof"], form_error))?;
    Ok(Sequence::from(steps_in(alloc, values)?))
}

fn signature_in(alloc: Global, value: Option<&Value>) -> Result<Bytes, OrNoMemory<FormsFault>>
    ensures { Answers (λ b. b) result
        (at (path_of (codes "signature" ∷ []))
        (bytes_in (option_map (λ v. view v.now) value.entry))) }
{
    let digits = text_in(value)
        .and_then(|text| lower_digits(text))
        .map_err(|form_error| fault_at(alloc, &["signature"], form_error))?;
    match hex::decode(alloc, digits) {
        Ok(bytes) => Ok(Bytes::from(bytes)),
        Err(FromHexError::OutOfMemory) => Err(OrNoMemory::NoMemory),
        Err(_) => Err(fault_at(alloc, &["signature"], FormError::Hex)),
    }
}

#[tactic(auto, unfolding(crate::specs::Form::signed_in))]
fn signed_in(alloc: Global, value: &Value) -> Result<Signed, OrNoMemory<FormsFault>>
    ensures { Answers (λ s. s) result (signed_in (view value.now)) }
{
    only_members_in(&["commit", "seqno", "view"], value).map_err(|form_error| fault_at(
        alloc,
        &["signed"],
        form_error,
    ))?;
    let commit = u64_in(value.get("commit")).map_err(|form_error| fault_at(
        alloc,
        &["signed", "commit"],
        form_error,
    ))?;
    let seqno = u64_in(value.get("seqno")).map_err(|form_error| fault_at(
        alloc,
        &["signed", "seqno"],
        form_error,
    ))?;
    let view = u32_in(value.get("view")).map_err(|form_error| fault_at(
        alloc,
        &["signed", "view"],
        form_error,
    ))?;
    Ok(Signed {
        commit,
        seqno,
        view,
    })
}

#[tactic(auto, unfolding(crate::specs::Form::receipt_in))]
fn receipt_in(alloc: Global, value: &Value) -> Result<Receipt, OrNoMemory<FormsFault>>
    ensures { Answers (λ r. r) result (receipt_in (view value.now)) }
{
    only_members_in(&["leaf_components", "proof", "signature", "signed"], value).map_err(
        |form_error| fault_at(alloc, &[], form_error),
    )?;
    let components = value_in(value.get("leaf_components")).map_err(|form_error| fault_at(
        alloc,
        &["leaf_components"],
        form_error,
    ))?;
    let leaf_components = leaf_components_in(alloc, components)?;
    let proof = proof_in(alloc, value.get("proof"))?;
    let signature = signature_in(alloc, value.get("signature"))?;
    let statement = value_in(value.get("signed")).map_err(|form_error| fault_at(
        alloc,
        &["signed"],
        form_error,
    ))?;
    let signed = signed_in(alloc, statement)?;
    Ok(Receipt {
        leaf_components,
        proof,
        signature,
        signed,
    })
}

/// The receipt that a JSON text is, all of it, or the first value of it that has another form: an
/// object's members, missing or too many, are reported before its values, and these in the order in
/// which `write_receipt` writes them. Spaces may stand in the text, and its members in any order;
/// of a member that stands twice the last value counts.
#[tactic(auto, unfolding(crate::specs::Form::receipt_from))]
pub fn read_receipt(alloc: Global, text: &[u8]) -> Result<Receipt, OrNoMemory<FormsFault>>
    ensures { Answers (λ r. r) result (receipt_from text.now) }
{
    let tree = read_tree(alloc, text)?;
    receipt_in(alloc, &tree)
}
