//! Values of a JSON tree that have the form that is wanted. One that is missing has another shape.

ghost use Rattle.std.specs.Prelude.{◌≡◌, map, option_map, is_some};
ghost use Rattle.std.specs.List.{list_all};
ghost use Rattle.gl_json.specs.Form.{Finds, value_in, text_in, lower_digits, sized_in, has_count, only_members_in, is_lower_digit};
ghost use Rattle.serde_json.specs.Find.{get, as_object};
ghost use Rattle.serde_json.specs.View.{view};

use crate::form_error::FormError;
use hex::FromHex;
use serde_json::Value;

/// The value, whatever it is.
pub fn value_in(value: Option<&Value>) -> Result<&Value, FormError>
    ensures { Finds (λ v. view v.now) result (value_in (option_map (λ v. view v.now) value.entry)) }
{
    value.ok_or(FormError::Shape)
}

/// The text that the value is.
pub fn text_in(value: Option<&Value>) -> Result<&str, FormError>
    ensures { Finds (λ s. s.now) result (text_in (option_map (λ v. view v.now) value.entry)) }
{
    value.and_then(Value::as_str).ok_or(FormError::Shape)
}

fn is_lower_hex(text: &[u8]) -> bool
    ensures { result ≡ list_all is_lower_digit text.now }
{
    text.iter()
        .all(|byte| matches!(*byte, b'0'..=b'9' | b'a'..=b'f'))
}

/// The text, if it has digits of lower-case hexadecimal alone.
pub fn lower_digits(text: &str) -> Result<&str, FormError>
    ensures { Finds (λ s. s.now) result (lower_digits text.now) }
{
    if is_lower_hex(text.as_bytes()) {
        Ok(text)
    } else {
        Err(FormError::Hex)
    }
}

/// The `N` bytes of a text in lower-case hexadecimal.
pub fn sized_in<const N: usize>(value: Option<&Value>) -> Result<[u8; N], FormError>
    ensures { result ≡ sized_in N (option_map (λ v. view v.now) value.entry) }
{
    let digits = lower_digits(text_in(value)?)?;
    <[u8; N] as FromHex>::from_hex(digits).map_err(|_| FormError::Hex)
}

fn has_count(value: &Value, count: usize) -> bool
    ensures { result ≡ has_count count (as_object (view value.now)) }
{
    match value.as_object() {
        Some(members) => members.len() == count,
        None => false,
    }
}

fn has_each(value: &Value, names: &[&str]) -> bool
    ensures { result ≡ list_all (λ name. is_some (get name.now (view value.now))) names.now }
{
    names.iter().all(|name| value.get(*name).is_some())
}

/// Nothing, if the value is an object with exactly the members of these names.
pub fn only_members_in(names: &[&str], value: &Value) -> Result<(), FormError>
    ensures { result ≡ only_members_in (map (λ s. s.now) names.now) (view value.now) }
{
    if has_count(value, names.len()) && has_each(value, names) {
        Ok(())
    } else {
        Err(FormError::Shape)
    }
}
