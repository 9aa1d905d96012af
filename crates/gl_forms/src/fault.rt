//! What is wrong with the value at a place.

ghost use Rattle.gl_forms.specs.Place.{pointer_of};
ghost use Rattle.gl_json.specs.Form.{IsReportedAs, fault_at};

use crate::place::{Place, pointer_of};
use gl_base::{FormsFault, OrNoMemory};
use gl_json::FormError;
use std::alloc::Global;

/// The fault at a place, or running out of memory.
pub(crate) fn fault_at(
    alloc: Global,
    place: &Place,
    form_error: FormError,
) -> OrNoMemory<FormsFault>
    ensures { IsReportedAs result (fault_at (pointer_of place.now) form_error) }
{
    match pointer_of(alloc, place) {
        Ok(path) => OrNoMemory::Fault(form_error.report(path)),
        Err(_) => OrNoMemory::NoMemory,
    }
}
