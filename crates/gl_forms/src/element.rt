//! Lists of a JSON tree, whose elements are all of one form.

ghost use Rattle.std.specs.Prelude.{◌≡◌, ℕ, List, Result};
ghost use Rattle.gl_base.specs.Answers.{Answers};
ghost use Rattle.gl_base.specs.Json.{item_of};
ghost use Rattle.gl_base.specs.declared.json.FormsFault.{FormsFault};
ghost use Rattle.gl_forms.specs.Form.{elements_from, list_at};
ghost use Rattle.gl_forms.specs.Place.{pointer_of};
ghost use Rattle.serde_json.specs.Data.{Data};
ghost use Rattle.serde_json.specs.View.{view, items_view};

use crate::fault::fault_at;
use crate::place::Place;
use crate::value::list_in;
use gl_base::{FormsFault, OrNoMemory, Sequence};
use serde_json::Value;
use std::alloc::Global;

/// What is the element of a list, read from its value.
pub(crate) trait Element: Sized + Drop {
    // What the value at a place is.
    ghost form: { List ℕ → Data → Result Self FormsFault };

    fn read(alloc: Global, place: &Place, value: &Value) -> Result<Self, OrNoMemory<FormsFault>>
        ensures { Answers (λ x. x) result (form (pointer_of place.now) (view value.now)) };
}

fn element_at<T: Element>(
    alloc: Global,
    list: &Place,
    index: usize,
    value: &Value,
) -> Result<T, OrNoMemory<FormsFault>>
    ensures { Answers (λ x. x) result
        (T.form (item_of (pointer_of list.now) index) (view value.now)) }
{
    T::read(alloc, &Place::Item(list, index as u64), value)
}

fn elements_at<T: Element>(
    alloc: Global,
    place: &Place,
    values: &[Value],
) -> Result<Vec<T>, OrNoMemory<FormsFault>>
    ensures { Answers (λ v. v.items) result
        (elements_from T.form (pointer_of place.now) 0 (items_view values.now)) }
{
    let mut elements = Vec::new(alloc);
    for value in values {
        let element = element_at(alloc, place, elements.len(), value)?;
        elements.push(element)?;
    }
    Ok(elements)
}

/// A member, of the object at a place, that is a list of `low` to `high` elements.
#[tactic(auto, unfolding(crate::specs::Form::list_at))]
pub(crate) fn list_at<T: Element>(
    alloc: Global,
    place: &Place,
    name: &str,
    low: usize,
    high: usize,
    value: &Value,
) -> Result<Sequence<T>, OrNoMemory<FormsFault>>
    ensures { Answers (λ s. s) result
        (list_at T.form low high (pointer_of place.now) name.now (view value.now)) }
{
    let place = Place::Member(place, name);
    match list_in(value.get(name), low, high) {
        Ok(values) => Ok(Sequence::from(elements_at(alloc, &place, values)?)),
        Err(form_error) => Err(fault_at(alloc, &place, form_error)),
    }
}
