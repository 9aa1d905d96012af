//! A node of the service over any store: each event is the step of its rule of consensus.
//!
//! Begin with `Core::step`, and the trait `Book`, the node's store.
#![tactic(auto)]

mod appends;
mod book;
mod deliveries;
mod done;
mod elections;
mod event;
mod evidence;
mod govern;
mod holders;
mod leaves;
mod node;
mod progress;
mod readers;
mod replicate;
mod snapshots;
mod start;
mod step;

pub use book::Book;
pub use done::{Done, Outcome, Refusal};
pub use event::Event;
pub use leaves::Leaves;
pub use node::Core;
pub use snapshots::{Offer, Snapshots};
