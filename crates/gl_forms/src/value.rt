//! Values of a JSON tree that have the form that is wanted. One that is missing has another shape.

ghost use Rattle.std.specs.Prelude.{◌≡◌, ◌≤◌, option_map, IfOk};
ghost use Rattle.gl_forms.specs.Form.{flag_in, number_in, has_so_many, list_in, pair_in, some_object_in, not_too_long, long_digits_in};
ghost use Rattle.gl_json.specs.Form.{Finds};
ghost use Rattle.serde_json.specs.View.{view, items_view};

use gl_base::MEBIBYTE;
use gl_json::{FormError, lower_digits, text_in, value_in};
use serde_json::Value;

pub(crate) fn flag_in(value: Option<&Value>) -> Result<bool, FormError>
    ensures { result ≡ flag_in (option_map (λ v. view v.now) value.entry) }
{
    value.and_then(Value::as_bool).ok_or(FormError::Shape)
}

/// A number from `low` to `high`.
pub(crate) fn number_in(value: Option<&Value>, low: u64, high: u64) -> Result<u64, FormError>
    ensures value { result ≡ number_in low high (option_map (λ v. view v.now) value.entry) }
    ensures bound { IfOk result (λ n. n ≤ high) }
{
    let number = value.and_then(Value::as_u64).ok_or(FormError::Shape)?;
    if number < low || high < number {
        return Err(FormError::Shape);
    }
    Ok(number)
}

fn has_so_many(elements: &[Value], low: usize, high: usize) -> bool
    ensures { result ≡ has_so_many low high (items_view elements.now) }
{
    low <= elements.len() && elements.len() <= high
}

/// The elements of a list that has from `low` to `high` of them.
pub(crate) fn list_in(
    value: Option<&Value>,
    low: usize,
    high: usize,
) -> Result<&Vec<Value>, FormError>
    ensures { Finds (λ v. items_view v.now.items) result
        (list_in low high (option_map (λ v. view v.now) value.entry)) }
{
    let elements = value.and_then(Value::as_array).ok_or(FormError::Shape)?;
    if has_so_many(elements, low, high) {
        Ok(elements)
    } else {
        Err(FormError::Shape)
    }
}

/// A list of two elements, as it is.
pub(crate) fn pair_in(value: Option<&Value>) -> Result<&Value, FormError>
    ensures { Finds (λ v. view v.now) result (pair_in (option_map (λ v. view v.now) value.entry)) }
{
    list_in(value, 2, 2)?;
    value_in(value)
}

/// Some object, as it is.
pub(crate) fn some_object_in(value: Option<&Value>) -> Result<&Value, FormError>
    ensures { Finds (λ v. view v.now) result
        (some_object_in (option_map (λ v. view v.now) value.entry)) }
{
    value.and_then(Value::as_object).ok_or(FormError::Shape)?;
    value_in(value)
}

/// The text, if it is not too long for 1 MiB of bytes.
fn not_too_long(text: &str) -> Result<&str, FormError>
    ensures { Finds (λ s. s.now) result (not_too_long text.now) }
{
    if text.len() as u64 <= 2 * MEBIBYTE {
        Ok(text)
    } else {
        Err(FormError::Shape)
    }
}

/// The digits of lower-case hexadecimal, for at most 1 MiB of bytes, that a text is.
pub(crate) fn long_digits_in(value: Option<&Value>) -> Result<&str, FormError>
    ensures { Finds (λ s. s.now) result
        (long_digits_in (option_map (λ v. view v.now) value.entry)) }
{
    lower_digits(not_too_long(text_in(value)?)?)
}
