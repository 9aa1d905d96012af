//! Requests of applications that read their rows one at a time, each maybe at another moment, and
//! then run at once.
//!
//! Begin with `Attempt`: `begin`, `fetch`, `finish`.
#![tactic(auto)]

mod asks;
mod attempt;
mod conflict;
mod notes;

pub use attempt::{Attempt, Fetched};
pub use conflict::{Conflict, RolledBack, TxFault};
pub use notes::{Ask, Note, Reads};
