//! The tables of a key-value store (CCF documentation, "Key-Value Store"): the names of maps, keys
//! and values within their limits, write sets, and the tables and versions that write sets at their
//! places make.
//!
//! Begin with `Tables`.
#![tactic(auto)]

mod journal;
mod laws;
mod name;
mod row;
mod table;
mod tables;
mod write;

pub use laws::{law_of_base, law_of_rows, law_of_rows_over};
pub use name::{KEY_LIMIT, Key, MAP_NAME_LIMIT, MapName, VALUE_LIMIT, Value};
pub use row::{Row, RowSink, Rows};
pub use table::Version;
pub use tables::Tables;
pub use write::{Write, Writes};
