//! An object at a place of a JSON tree, and its members in their forms.

ghost use Rattle.std.specs.Prelude.{◌≡◌, map};
ghost use Rattle.gl_base.specs.Answers.{Answers};
ghost use Rattle.gl_forms.specs.Form.{flag_in, number_in, endorsement_in, object_at, member_at, half_at, word_at};
ghost use Rattle.gl_forms.specs.Place.{pointer_of};
ghost use Rattle.gl_json.specs.Form.{value_in, text_in, sized_in, decoded, at};
ghost use Rattle.hex.specs.Hex.{decode_of};
ghost use Rattle.serde_json.specs.View.{view};

use crate::fault::fault_at;
use crate::place::Place;
use crate::value::{flag_in, long_digits_in, number_in};
use gl_base::{Bytes, FormsFault, OrNoMemory};
use gl_json::{FormError, only_members_in, sized_in, text_in, value_in};
use hex::FromHexError;
use serde_json::Value;
use std::alloc::Global;

/// What was found in the value at a place, or its fault there.
fn report<T>(
    alloc: Global,
    place: &Place,
    found: Result<T, FormError>,
) -> Result<T, OrNoMemory<FormsFault>>
    ensures { Answers (λ x. x) result (at (pointer_of place.now) found) }
{
    match found {
        Ok(value) => Ok(value),
        Err(form_error) => Err(fault_at(alloc, place, form_error)),
    }
}

/// Nothing, if the value is an object with exactly the members of these names.
pub(crate) fn object_at(
    alloc: Global,
    place: &Place,
    names: &[&str],
    value: &Value,
) -> Result<(), OrNoMemory<FormsFault>>
    ensures { Answers (λ u. u) result
        (object_at (pointer_of place.now) (map (λ s. s.now) names.now) (view value.now)) }
{
    report(alloc, place, only_members_in(names, value))
}

/// A member of the object at a place, whatever it is.
pub(crate) fn value_at<'a>(
    alloc: Global,
    place: &Place,
    name: &str,
    value: &'a Value,
) -> Result<&'a Value, OrNoMemory<FormsFault>>
    ensures { Answers (λ v. view v.now) result
        (member_at value_in (pointer_of place.now) name.now (view value.now)) }
{
    match value_in(value.get(name)) {
        Ok(found) => Ok(found),
        Err(form_error) => Err(fault_at(alloc, &Place::Member(place, name), form_error)),
    }
}

pub(crate) fn text_at<'a>(
    alloc: Global,
    place: &Place,
    name: &str,
    value: &'a Value,
) -> Result<&'a str, OrNoMemory<FormsFault>>
    ensures { Answers (λ s. s.now) result
        (member_at text_in (pointer_of place.now) name.now (view value.now)) }
{
    match text_in(value.get(name)) {
        Ok(text) => Ok(text),
        Err(form_error) => Err(fault_at(alloc, &Place::Member(place, name), form_error)),
    }
}

pub(crate) fn flag_at(
    alloc: Global,
    place: &Place,
    name: &str,
    value: &Value,
) -> Result<bool, OrNoMemory<FormsFault>>
    ensures { Answers (λ b. b) result
        (member_at flag_in (pointer_of place.now) name.now (view value.now)) }
{
    report(alloc, &Place::Member(place, name), flag_in(value.get(name)))
}

/// A number from `low` that a byte holds.
pub(crate) fn byte_at(
    alloc: Global,
    place: &Place,
    name: &str,
    low: u8,
    value: &Value,
) -> Result<u8, OrNoMemory<FormsFault>>
    ensures { Answers (λ n. n) result
        (member_at (number_in low 255) (pointer_of place.now) name.now (view value.now)) }
{
    match number_in(value.get(name), low as u64, 0xff) {
        Ok(number) => Ok(number as u8),
        Err(form_error) => Err(fault_at(alloc, &Place::Member(place, name), form_error)),
    }
}

/// An element of the list at a place: a number of two bytes.
pub(crate) fn half_at(
    alloc: Global,
    place: &Place,
    index: usize,
    value: &Value,
) -> Result<u16, OrNoMemory<FormsFault>>
    ensures { Answers (λ n. n) result (half_at (pointer_of place.now) index (view value.now)) }
{
    match number_in(value.get(index), 0, 0xffff) {
        Ok(number) => Ok(number as u16),
        Err(form_error) => Err(fault_at(alloc, &Place::Item(place, index as u64), form_error)),
    }
}

/// The `N` bytes of a text in lower-case hexadecimal.
pub(crate) fn sized_at<const N: usize>(
    alloc: Global,
    place: &Place,
    name: &str,
    value: &Value,
) -> Result<[u8; N], OrNoMemory<FormsFault>>
    ensures { Answers (λ b. b) result
        (member_at (sized_in N) (pointer_of place.now) name.now (view value.now)) }
{
    report(
        alloc,
        &Place::Member(place, name),
        sized_in(value.get(name)),
    )
}

/// The bytes of these digits, which stand at a place.
fn decoded_at(alloc: Global, place: &Place, digits: &str) -> Result<Bytes, OrNoMemory<FormsFault>>
    ensures { Answers (λ b. b) result
        (at (pointer_of place.now) (decoded (decode_of digits.now))) }
{
    match hex::decode(alloc, digits) {
        Ok(bytes) => Ok(Bytes::from(bytes)),
        Err(FromHexError::OutOfMemory) => Err(OrNoMemory::NoMemory),
        Err(_) => Err(fault_at(alloc, place, FormError::Hex)),
    }
}

/// At most 1 MiB of bytes, of a text in lower-case hexadecimal.
pub(crate) fn endorsement_at(
    alloc: Global,
    place: &Place,
    name: &str,
    value: &Value,
) -> Result<Bytes, OrNoMemory<FormsFault>>
    ensures { Answers (λ b. b) result
        (member_at endorsement_in (pointer_of place.now) name.now (view value.now)) }
{
    match long_digits_in(value.get(name)) {
        Ok(digits) => decoded_at(alloc, &Place::Member(place, name), digits),
        Err(form_error) => Err(fault_at(alloc, &Place::Member(place, name), form_error)),
    }
}

/// The text of a member that decides which others there are. Where it is missing the object is
/// reported.
#[tactic(auto, unfolding(crate::specs::Form::word_at))]
pub(crate) fn word_at<'a>(
    alloc: Global,
    place: &Place,
    name: &str,
    value: &'a Value,
) -> Result<&'a str, OrNoMemory<FormsFault>>
    ensures { Answers (λ s. s.now) result
        (word_at (pointer_of place.now) name.now (view value.now)) }
{
    match value.get(name) {
        Some(_) => text_at(alloc, place, name, value),
        None => Err(fault_at(alloc, place, FormError::Shape)),
    }
}
