//! What whoever asks a node is told: the answer to a request that was accepted, the receipt of a
//! transaction, a part of a snapshot, and why an event is refused, by its number and its values in order.
//!
//! Begin with the trait `ClientBook` for what is answered to an accepted request, and `reason_of`
//! for a refusal.
#![tactic(auto)]

mod client_book;
mod encoding;
mod governance;
mod part;
mod reason;
mod reply;
mod value;

pub use client_book::ClientBook;
pub use encoding::values_bytes;
pub use part::{Part, part_of_snapshot};
pub use reason::reason_of;
pub use reply::given_bytes;
pub use value::{Reason, Value};
