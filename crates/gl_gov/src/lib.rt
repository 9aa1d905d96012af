//! The rows of the tables of governance, and what a step changes of them.
//!
//! Begin with `selected_rows`, the rows of the tables of governance, and `changes`, what turns some
//! rows into others.
#![tactic(auto)]

mod between;
mod put;
mod rows;
mod touched;

pub use between::changes;
pub use put::selected_rows;
pub use rows::{member_rows, node_rows, proposal_row, service_row, state_of};
pub use touched::{Selection, Touched, proposal_named, touched_by};
