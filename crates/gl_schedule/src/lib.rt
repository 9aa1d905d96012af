//! Schedules: a service and the lines of what happens to it, read, played at its nodes, and told.
//!
//! Begin with `read`, which makes a `Schedule` of a text, and `play`, which plays it.
#![tactic(auto)]

mod event_line;
mod keyed_schedule;
mod line_request;
mod machine;
mod numbers;
mod outcome_text;
mod player;
mod proposals;
mod schedule;
mod text;

pub use keyed_schedule::KeyedSchedule;
pub use player::play;
pub use schedule::{Schedule, read};
