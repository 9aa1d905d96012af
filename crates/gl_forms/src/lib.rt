//! Requests of governance and keys as JSON, read and written.
//!
//! Begin with `read_request`, and `read_key` with `write_key`.
#![tactic(auto)]

mod action;
mod element;
mod fault;
mod key;
mod key_tree;
mod object;
mod part;
mod place;
mod request;
mod settings;
mod value;

pub use gl_json::read_tree;
pub use key::{KeyForm, read_key};
pub use key_tree::write_key;
pub use request::{proposal_in, read_proposal, read_request};
pub use settings::{read_recovery, read_settings};
