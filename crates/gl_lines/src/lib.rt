//! The grammar of schedules: what happens to a service, line by line, and what is asked of it.
//!
//! Begin with `read_first_line` and `read_lines`.
#![tactic(auto)]

mod fault;
mod line;
mod members;
mod names;
mod numbers;
mod operations;
mod parser;
mod references;
mod split;
mod world;

pub use fault::ScheduleFault;
pub use line::{Line, Lines};
pub use names::is_lower_hex;
pub use numbers::is_decimal;
pub use parser::{read_first_line, read_lines};
pub use split::line_count;
pub use world::WorldLine;
