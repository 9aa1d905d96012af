//! A ledger of any size, made and audited on one machine: a service of one node takes requests that
//! are drawn from a seed, signs after each hundred of them, and tells of the ledger that it has
//! then.
//!
//! Begin with `load`.
#![tactic(auto)]

mod founding;
mod laws;
mod load_ledger;
mod load_observer;
mod memory_disk;
mod node;
mod report;
mod requests;
mod totals;

pub use founding::LoadFounding;
pub use laws::law_of_loads;
pub use load_ledger::{LOAD_LIMIT, load};
pub use load_observer::LoadObserver;
pub use memory_disk::MemoryDisk;
pub use report::Report;
