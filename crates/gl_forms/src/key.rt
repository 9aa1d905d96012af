//! Keys read from their JSON form.

ghost use Rattle.std.specs.Prelude.{◌≡◌, [], true, IfOk};
ghost use Rattle.gl_base.specs.Answers.{Answers};
ghost use Rattle.gl_forms.specs.Form.{object_at};
ghost use Rattle.gl_forms.specs.Key.{has_endorsement, node_key_names, one_key_in, optional_endorsement_in, node_key_in, key_of_kind, key_in};
ghost use Rattle.gl_forms.specs.Text.{from_text};
ghost use Rattle.gl_forms.specs.Ranges.{is_key};
ghost use Rattle.serde_json.specs.View.{view};

use crate::fault::fault_at;
use crate::object::{endorsement_at, object_at, sized_at, word_at};
use crate::place::Place;
use gl_base::{Bytes, FormsFault, OrNoMemory};
use gl_json::{FormError, read_tree};
use gl_requests::{HssPublicKey, LmsPublicKey, NodeId};
use serde_json::Value;
use std::alloc::Global;

/// A key, and whose it is.
#[derive(Debug, Drop)]
pub enum KeyForm {
    /// A service's key, which endorses its nodes.
    Service {
        key: HssPublicKey,
    },
    /// A member's key, which its requests are signed with.
    Member {
        key: HssPublicKey,
    },
    /// A node's key.
    Node {
        key: LmsPublicKey,
        /// The node's identifier, which is the digest of its key. This is not compared.
        node: NodeId,
        /// The service's signature of the key, once it is endorsed.
        endorsement: Option<Bytes>,
    },
}

/// The one key of a service or of a member.
#[tactic(auto, unfolding(crate::specs::Key::one_key_in))]
fn one_key_in(alloc: Global, value: &Value) -> Result<HssPublicKey, OrNoMemory<FormsFault>>
    ensures { Answers (λ k. k) result (one_key_in (view value.now)) }
{
    object_at(alloc, &Place::Whole, &["key", "kind"], value)?;
    sized_at(alloc, &Place::Whole, "key", value)
}

#[tactic(auto, unfolding(crate::specs::Key::optional_endorsement_in))]
fn optional_endorsement_in(
    alloc: Global,
    value: &Value,
) -> Result<Option<Bytes>, OrNoMemory<FormsFault>>
    ensures { Answers (λ e. e) result (optional_endorsement_in (view value.now)) }
{
    if value.get("endorsement").is_some() {
        let endorsement = endorsement_at(alloc, &Place::Whole, "endorsement", value)?;
        Ok(Some(endorsement))
    } else {
        Ok(None)
    }
}

fn node_key_object(alloc: Global, value: &Value) -> Result<(), OrNoMemory<FormsFault>>
    ensures { Answers (λ u. u) result
        (object_at [] (node_key_names (has_endorsement (view value.now))) (view value.now)) }
{
    if value.get("endorsement").is_some() {
        object_at(
            alloc,
            &Place::Whole,
            &["endorsement", "key", "kind", "node"],
            value,
        )
    } else {
        object_at(alloc, &Place::Whole, &["key", "kind", "node"], value)
    }
}

#[tactic(auto, unfolding(crate::specs::Key::node_key_in))]
fn node_key_in(alloc: Global, value: &Value) -> Result<KeyForm, OrNoMemory<FormsFault>>
    ensures { Answers (λ k. k) result (node_key_in (view value.now)) }
{
    node_key_object(alloc, value)?;
    let endorsement = optional_endorsement_in(alloc, value)?;
    let key = sized_at(alloc, &Place::Whole, "key", value)?;
    let node = sized_at(alloc, &Place::Whole, "node", value)?;
    Ok(KeyForm::Node {
        key,
        node,
        endorsement,
    })
}

#[tactic(auto, unfolding(crate::specs::Key::key_of_kind))]
fn key_of_kind(alloc: Global, kind: &str, value: &Value) -> Result<KeyForm, OrNoMemory<FormsFault>>
    ensures { Answers (λ k. k) result (key_of_kind kind.now (view value.now)) }
{
    if kind == "service" {
        let key = one_key_in(alloc, value)?;
        Ok(KeyForm::Service { key })
    } else if kind == "member" {
        let key = one_key_in(alloc, value)?;
        Ok(KeyForm::Member { key })
    } else if kind == "node" {
        node_key_in(alloc, value)
    } else {
        Err(fault_at(
            alloc,
            &Place::Member(&Place::Whole, "kind"),
            FormError::Shape,
        ))
    }
}

#[tactic(auto, unfolding(crate::specs::Key::key_in))]
fn key_in(alloc: Global, value: &Value) -> Result<KeyForm, OrNoMemory<FormsFault>>
    ensures { Answers (λ k. k) result (key_in (view value.now)) }
{
    let kind = word_at(alloc, &Place::Whole, "kind", value)?;
    key_of_kind(alloc, kind, value)
}

/// The key that a JSON text is, all of it, or the first value of it that has another form.
pub fn read_key(alloc: Global, text: &[u8]) -> Result<KeyForm, OrNoMemory<FormsFault>>
    ensures exact { Answers (λ k. k) result (from_text key_in text.now) }
    ensures fits { IfOk result (λ k. is_key k ≡ true) }
{
    let tree = read_tree(alloc, text)?;
    key_in(alloc, &tree)
}
