//! The JSON tree of a text.

ghost use Rattle.std.specs.Prelude.{◌≡◌};
ghost use Rattle.gl_base.specs.Answers.{Answers};
ghost use Rattle.gl_json.specs.Text.{tree_from};
ghost use Rattle.serde_json.specs.View.{view};

use gl_base::{FormsFault, OrNoMemory};
use serde_json::Value;
use std::alloc::Global;

/// The JSON tree that a text is, all of it. One that is not UTF-8, or nests deeper than 127, is
/// none.
pub fn read_tree(alloc: Global, text: &[u8]) -> Result<Value, OrNoMemory<FormsFault>>
    ensures exact { Answers view result (tree_from text.now) }
{
    match Value::from_slice(alloc, text) {
        Ok(tree) => Ok(tree),
        Err(e) => {
            if e.is_memory() {
                Err(OrNoMemory::NoMemory)
            } else {
                Err(OrNoMemory::Fault(FormsFault::NotJson))
            }
        }
    }
}
