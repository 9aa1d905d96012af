//! Turns of threads on one shared state, each in the order of its ticket, with a trail of what the
//! turns made.
//!
//! Begin with `Shared` and `Turn`.
#![tactic(auto)]

mod pass;
mod shared;
mod steps;
#[cfg(test)]
mod tests;
mod turn;
mod view;

pub use pass::Pass;
pub use shared::{Shared, Stands, TurnOut};
pub use turn::Turn;
pub use view::{Stage, View};
