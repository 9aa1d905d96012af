//! JSON values of known form: strict readers of the values of a JSON tree, for forms and receipts.
//!
//! Begin with `read_tree`, and `only_members_in`.
#![tactic(auto)]

mod form_error;
mod tree;
mod value;

pub use form_error::FormError;
pub use tree::read_tree;
pub use value::{lower_digits, only_members_in, sized_in, text_in, value_in};
