//! A node of the service that serves from a file: one event at a time goes through the rules, is
//! kept on the disk, and only then does anything leave.
//!
//! Begin with `Replica::event`.
#![tactic(auto)]

mod change;
mod changed;
mod dispatch;
mod fault;
mod frames;
mod install;
mod kept_book;
mod laws;
mod persist;
mod replica;
mod rollback;
mod rule;

pub use fault::NodeFault;
pub use kept_book::KeptBook;
pub use laws::{a_leaf_is_reserved_before_it_signs, no_leaf_signs_twice};
pub use replica::Replica;
