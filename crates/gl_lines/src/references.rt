//! The nodes that a proposal's JSON names by their numbers.

ghost use Rattle.std.specs.Prelude.{◌≡◌, IfOk, string_bytes};
ghost use Rattle.std.specs.Option.{option_copied};
ghost use Rattle.serde_json.specs.View.{view, items_view, members_view};
ghost use Rattle.gl_lines.specs.References.{reference_in, id_at, id_digits, text_with_id, with_ids, items_with_ids, members_with_ids, is_unknown, names_unknown, items_name_unknown, members_name_unknown};

use crate::numbers::counted_number;
use gl_requests::NodeId;
use serde_json::{Map, Value};
use std::alloc::{AllocError, Global};

/// The number of the node that a text names: a `#` stands before it.
fn reference_in(text: &[u8]) -> Option<u128>
    ensures { result ≡ reference_in text.now }
{
    match text.split_first() {
        Some((mark, digits)) if *mark == b'#' => counted_number(digits).ok(),
        _ => None,
    }
}

/// The identifier of the node with a number, from 1, if there is one.
fn id_at(ids: &[NodeId], number: u128) -> Option<&NodeId>
    ensures { option_copied result ≡ id_at ids.now number }
{
    if 1 <= number && number <= ids.len() as u128 {
        ids.get(number as usize - 1)
    } else {
        None
    }
}

/// An identifier in hexadecimal; 32 bytes of 0 for a node that there isn't.
fn id_digits(alloc: Global, id: Option<&NodeId>) -> Result<String, AllocError>
    ensures { IfOk result (λ text. string_bytes text ≡ id_digits (option_copied id.entry)) }
{
    match id {
        None => hex::encode(alloc, [0; 32]),
        Some(id) => hex::encode(alloc, *id),
    }
}

/// A text, or the identifier of the node that it names.
fn text_with_id(alloc: Global, text: &str, ids: &[NodeId]) -> Result<String, AllocError>
    ensures { IfOk result (λ new. string_bytes new
        ≡ text_with_id ids.now text.now (reference_in text.now)) }
{
    match reference_in(text.as_bytes()) {
        None => String::from_str(alloc, text),
        Some(number) => id_digits(alloc, id_at(ids, number)),
    }
}

/// The tree with the identifiers of these nodes in place of the texts that name them.
#[cycle(with_ids)]
pub(crate) fn with_ids(alloc: Global, value: &Value, ids: &[NodeId]) -> Result<Value, AllocError>
    ensures { IfOk result (λ v. view v ≡ with_ids ids.now (view value.now)) }
{
    match value {
        Value::Null => Ok(Value::Null),
        Value::Bool(b) => Ok(Value::Bool(*b)),
        Value::Number(n) => Ok(Value::Number(*n)),
        Value::String(text) => Ok(Value::String(text_with_id(alloc, text.as_str(), ids)?)),
        Value::Array(values) => Ok(Value::Array(items_with_ids(alloc, values, ids)?)),
        Value::Object(members) => Ok(Value::Object(members_with_ids(alloc, members, ids)?)),
    }
}

#[cycle(with_ids)]
fn items_with_ids(alloc: Global, values: &[Value], ids: &[NodeId]) -> Result<Vec<Value>, AllocError>
    ensures { IfOk result (λ vs.
        items_view vs.items ≡ items_with_ids ids.now (items_view values.now)) }
{
    let mut new = Vec::with_capacity(alloc, values.len())?;
    for value in values {
        new.push(with_ids(alloc, value, ids)?)?;
    }
    Ok(new)
}

/// The names of members stay as they are.
#[cycle(with_ids)]
fn members_with_ids(
    alloc: Global,
    members: &Map<String, Value>,
    ids: &[NodeId],
) -> Result<Map<String, Value>, AllocError>
    ensures { IfOk result (λ m. members_view m.entries
        ≡ members_with_ids ids.now (members_view members.now.entries)) }
{
    let mut new = Map::new(alloc);
    for (name, value) in members.iter() {
        let name = name.clone()?;
        drop(new.insert(name, with_ids(alloc, value, ids)?)?);
    }
    Ok(new)
}

/// The text names a node that there isn't.
fn is_unknown(text: &str, ids: &[NodeId]) -> bool
    ensures { result ≡ is_unknown ids.now (reference_in text.now) }
{
    match reference_in(text.as_bytes()) {
        None => false,
        Some(number) => id_at(ids, number).is_none(),
    }
}

/// The tree names a node that there isn't.
#[cycle(names_unknown)]
pub(crate) fn names_unknown(value: &Value, ids: &[NodeId]) -> bool
    ensures { result ≡ names_unknown ids.now (view value.now) }
{
    match value {
        Value::Null | Value::Bool(_) | Value::Number(_) => false,
        Value::String(text) => is_unknown(text.as_str(), ids),
        Value::Array(values) => items_name_unknown(values, ids),
        Value::Object(members) => members_name_unknown(members, ids),
    }
}

#[cycle(names_unknown)]
fn items_name_unknown(values: &[Value], ids: &[NodeId]) -> bool
    ensures { result ≡ items_name_unknown ids.now (items_view values.now) }
{
    for value in values {
        if names_unknown(value, ids) {
            return true;
        }
    }
    false
}

#[cycle(names_unknown)]
fn members_name_unknown(members: &Map<String, Value>, ids: &[NodeId]) -> bool
    ensures { result ≡ members_name_unknown ids.now (members_view members.now.entries) }
{
    for (_, value) in members.iter() {
        if names_unknown(value, ids) {
            return true;
        }
    }
    false
}
