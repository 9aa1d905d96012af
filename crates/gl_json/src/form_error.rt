//! What is wrong with a value.

ghost use Rattle.std.specs.Prelude.{◌≡◌};
ghost use Rattle.gl_json.specs.Form.{fault_at};

use gl_base::{FormsFault, Pointer};

/// What is wrong with a value, wherever it stands.
#[derive(Clone, Copy, Debug, PartialEq, Eq)]
pub enum FormError {
    /// It is missing, of another type, has a member too few or too many, or is out of its range.
    Shape,
    /// The text is not lower-case hexadecimal of its length.
    Hex,
}

impl FormError {
    /// The fault with the path of the value.
    pub fn report(self, path: Pointer) -> FormsFault
        ensures { result ≡ fault_at path self }
    {
        match self {
            FormError::Shape => FormsFault::Shape { path },
            FormError::Hex => FormsFault::Hex { path },
        }
    }
}
