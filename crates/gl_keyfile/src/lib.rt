//! The file of a service's, a node's or a member's key, on a disk that may stop at any call: it is
//! begun and opened, and hands out the one-time leaves of its key, none of them twice.
//!
//! Begin with `KeyFile`.
#![tactic(auto)]

mod fault;
mod form;
mod key_file;
mod laws;
mod leaf;
mod signature;

pub use fault::KeyFileFault;
pub use form::key_form;
pub use key_file::KeyFile;
pub use laws::no_leaf_is_taken_twice;
pub use leaf::{LeafUse, TakenLeaf};
pub use signature::Signing;
