//! What is decided on a request of governance: why it is refused, or what it brings about.
//!
//! Begin with `refusal` and `changes_of`.
#![tactic(auto)]

pub use changes::changes_of;
pub use node_refusals::mark_refusal;
pub use refusals::refusal;

mod actions;
mod changes;
mod foundings;
mod limits;
mod node_refusals;
mod proposal_refusals;
mod refusals;
mod share_refusals;
mod signature_refusals;
mod signatures;
mod tally;
mod trial;
