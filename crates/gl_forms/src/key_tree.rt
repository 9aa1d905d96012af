//! The JSON tree of a key, and its text.

ghost use Rattle.std.specs.Prelude.{◌≡◌, true, Ok, IfOk, OnOk, string_bytes};
ghost use Rattle.hex.specs.Hex.{encode_lower, IsBytes};
ghost use Rattle.gl_forms.specs.Key.{one_key_tree, node_key_tree, key_tree, key_in};
ghost use Rattle.gl_forms.specs.Ranges.{IsSized, IsNodeKey, IsKey, has_short_endorsement};
ghost use Rattle.gl_forms.specs.Text.{from_text};
ghost use Rattle.serde_json.specs.View.{view};
ghost use Rattle.serde_json.specs.Written.{compact_text};

use crate::key::KeyForm;
use gl_base::Bytes;
use gl_requests::{HssPublicKey, LmsPublicKey, NodeId};
use serde_json::{Value, json};
use std::alloc::{AllocError, Global};

/// Bytes in lower-case hexadecimal.
fn hex_text(alloc: Global, bytes: &[u8]) -> Result<String, AllocError>
    ensures text { IfOk result (λ text. string_bytes text ≡ encode_lower bytes.now) }
    ensures bytes { IsBytes bytes.now }
{
    hex::encode(alloc, bytes)
}

fn array_text<const N: usize>(alloc: Global, bytes: &[u8; N]) -> Result<String, AllocError>
    ensures text { IfOk result (λ text. string_bytes text ≡ encode_lower bytes.now) }
    ensures sized { IsSized N bytes.now }
{
    hex_text(alloc, bytes.as_slice())
}

fn one_key_tree(alloc: Global, kind: &str, key: &HssPublicKey) -> Result<Value, AllocError>
    ensures tree { IfOk result (λ v. view v ≡ one_key_tree kind.now key.now) }
    ensures sized { OnOk result (IsSized 60 key.now) }
{
    let key = array_text(alloc, key)?;
    json!(in alloc; {"key": key, "kind": kind})
}

fn node_key_tree(
    alloc: Global,
    key: &LmsPublicKey,
    node: &NodeId,
    endorsement: &Option<Bytes>,
) -> Result<Value, AllocError>
    ensures tree { IfOk result (λ v. view v ≡ node_key_tree key.now node.now endorsement.now) }
    ensures ranges { OnOk result (IsNodeKey key.now node.now endorsement.now) }
{
    let key = array_text(alloc, key)?;
    let node = array_text(alloc, node)?;
    match endorsement {
        Some(endorsement) => {
            let endorsement = hex_text(alloc, endorsement.as_slice())?;
            json!(in alloc; {"endorsement": endorsement, "key": key, "kind": "node", "node": node})
        }
        None => json!(in alloc; {"key": key, "kind": "node", "node": node}),
    }
}

fn key_tree(alloc: Global, key: &KeyForm) -> Result<Value, AllocError>
    ensures tree { IfOk result (λ v. view v ≡ key_tree key.now) }
    ensures ranges { OnOk result (IsKey key.now) }
{
    match key {
        KeyForm::Service { key } => one_key_tree(alloc, "service", key),
        KeyForm::Member { key } => one_key_tree(alloc, "member", key),
        KeyForm::Node {
            key,
            node,
            endorsement,
        } => node_key_tree(alloc, key, node, endorsement),
    }
}

/// The JSON text of a key, without spaces and with the object's members in the order of their
/// names. No newline stands after it.
pub fn write_key(alloc: Global, key: &KeyForm) -> Result<Vec<u8>, AllocError>
    ensures text { IfOk result (λ t. t.items ≡ compact_text (key_tree key.now)) }

    // An endorsement that is longer than 1 MiB is written, and not read.
    ensures reads_back { has_short_endorsement key.now ≡ true →
        IfOk result (λ t. from_text key_in t.items ≡ Ok key.now) }
{
    key_tree(alloc, key)?.to_vec(alloc)
}
