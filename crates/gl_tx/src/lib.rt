//! Requests of applications: their operations, their bytes, and what they come to on tables (CCF
//! documentation, "Key-Value Store").
//!
//! Begin with `Request` and `run`.
#![tactic(auto)]

mod abort;
mod decoding;
mod encoding;
mod lookup;
mod overlay;
mod performed;
mod request;
mod runs;

pub use abort::{Abort, Cause};
pub use lookup::Lookup;
pub use overlay::Overlay;
pub use performed::{Performed, bar_on, perform};
pub use request::{Answer, Operation, Reply, Request};
pub use runs::{Ran, run};
