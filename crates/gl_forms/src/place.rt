//! Where a value stands in a JSON tree.

ghost use Rattle.std.specs.Prelude.{◌≡◌, IfOk};
ghost use Rattle.gl_forms.specs.Place.{pointer_of};

use gl_base::Pointer;
use std::alloc::{AllocError, Global};

/// The way from the whole tree to one of its values.
#[derive(Clone, Copy)]
pub(crate) enum Place<'a> {
    /// The whole.
    Whole,
    /// The member with this name, of the object at a place.
    Member(&'a Place<'a>, &'a str),
    /// The element with this index, from 0, of the list at a place.
    Item(&'a Place<'a>, u64),
}

/// The JSON pointer of a place.
pub(crate) fn pointer_of(alloc: Global, place: &Place) -> Result<Pointer, AllocError>
    ensures { IfOk result (λ p. p ≡ pointer_of place.now) }
{
    match place {
        Place::Whole => Ok(Pointer::new(alloc)),
        Place::Member(object, name) => {
            let mut pointer = pointer_of(alloc, object)?;
            pointer.push_member(name.as_bytes())?;
            Ok(pointer)
        }
        Place::Item(list, index) => {
            let mut pointer = pointer_of(alloc, list)?;
            pointer.push_item(*index)?;
            Ok(pointer)
        }
    }
}
