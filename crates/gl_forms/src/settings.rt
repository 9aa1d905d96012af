//! What founds a service, and recovers it, read from its JSON form.

ghost use Rattle.std.specs.Prelude.{◌≡◌, [], true, IfOk};
ghost use Rattle.gl_base.specs.Answers.{Answers};
ghost use Rattle.gl_forms.specs.Form.{member_at};
ghost use Rattle.gl_forms.specs.Settings.{state_named, state_in, settings_in, recovery_in};
ghost use Rattle.gl_forms.specs.Text.{from_text};
ghost use Rattle.gl_requests.specs.Ranges.{is_genesis, is_recovery};
ghost use Rattle.serde_json.specs.View.{view};

use crate::element::list_at;
use crate::fault::fault_at;
use crate::object::{object_at, sized_at, text_at};
use crate::part::dealing_at;
use crate::place::Place;
use gl_base::{FormsFault, OrNoMemory};
use gl_json::{FormError, read_tree};
use gl_requests::{Genesis, Recovery, ServiceState};
use serde_json::Value;
use std::alloc::Global;

const SETTINGS_NAMES: [&str; 5] = ["dealing", "identity", "members", "nodes", "state"];

/// The state with this name. A service is founded in no other.
fn state_named(name: &str) -> Result<ServiceState, FormError>
    ensures { result ≡ state_named name.now }
{
    if name == "open" {
        Ok(ServiceState::Open)
    } else if name == "opening" {
        Ok(ServiceState::Opening)
    } else {
        Err(FormError::Shape)
    }
}

fn state_at(
    alloc: Global,
    name: &str,
    value: &Value,
) -> Result<ServiceState, OrNoMemory<FormsFault>>
    ensures { Answers (λ s. s) result (member_at state_in [] name.now (view value.now)) }
{
    let text = text_at(alloc, &Place::Whole, name, value)?;
    match state_named(text) {
        Ok(state) => Ok(state),
        Err(form_error) => Err(fault_at(alloc, &Place::Member(&Place::Whole, name), form_error)),
    }
}

#[tactic(auto, unfolding(crate::specs::Settings::settings_in))]
fn settings_in(alloc: Global, value: &Value) -> Result<Genesis, OrNoMemory<FormsFault>>
    ensures { Answers (λ g. g) result (settings_in (view value.now)) }
{
    object_at(alloc, &Place::Whole, &SETTINGS_NAMES, value)?;
    let dealing = dealing_at(alloc, &Place::Whole, "dealing", value)?;
    let identity = sized_at(alloc, &Place::Whole, "identity", value)?;
    let members = list_at(alloc, &Place::Whole, "members", 0, 255, value)?;
    let nodes = list_at(alloc, &Place::Whole, "nodes", 0, 255, value)?;
    let state = state_at(alloc, "state", value)?;
    Ok(Genesis {
        state,
        identity,
        nodes,
        members,
        dealing,
    })
}

#[tactic(auto, unfolding(crate::specs::Settings::recovery_in))]
fn recovery_in(alloc: Global, value: &Value) -> Result<Recovery, OrNoMemory<FormsFault>>
    ensures { Answers (λ r. r) result (recovery_in (view value.now)) }
{
    object_at(alloc, &Place::Whole, &["identity", "nodes"], value)?;
    let identity = sized_at(alloc, &Place::Whole, "identity", value)?;
    let nodes = list_at(alloc, &Place::Whole, "nodes", 0, 255, value)?;
    Ok(Recovery { identity, nodes })
}

/// The settings of a service that a JSON text is, all of it, or the first value of it that has
/// another form.
pub fn read_settings(alloc: Global, text: &[u8]) -> Result<Genesis, OrNoMemory<FormsFault>>
    ensures exact { Answers (λ g. g) result (from_text settings_in text.now) }
    ensures fits { IfOk result (λ g. is_genesis g ≡ true) }
{
    let tree = read_tree(alloc, text)?;
    settings_in(alloc, &tree)
}

/// The settings of a service that is recovered, of a JSON text, all of it, or the first value of it
/// that has another form.
pub fn read_recovery(alloc: Global, text: &[u8]) -> Result<Recovery, OrNoMemory<FormsFault>>
    ensures exact { Answers (λ r. r) result (from_text recovery_in text.now) }
    ensures fits { IfOk result (λ r. is_recovery r ≡ true) }
{
    let tree = read_tree(alloc, text)?;
    recovery_in(alloc, &tree)
}
