//! The rows of the tables of governance as values, read off a snapshot's rows.
//!
//! Begin with `governed_rows`.
#![tactic(auto)]

mod limits;
mod numbered;
mod read;
mod values;

pub use read::governed_rows;
