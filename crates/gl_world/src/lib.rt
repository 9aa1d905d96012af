//! A service of one schedule: its keys, its genesis, and its ledger as the book of consensus; all
//! its nodes, what they sent and what happened; and the laws that such a service is safe.
//!
//! Begin with `World::step`, and of laws with `is_safe`.
#![tactic(auto)]

mod dealing;
mod event;
mod founding;
mod history;
mod keys;
mod laws;
mod members;
mod node_key;
mod service_keys;
mod service_laws;
mod settings;
mod world;
mod world_node;

pub use event::Event;
pub use founding::{Founding, has_distinct_keys};
pub use history::History;
pub use keys::{node_seed, service_key};
pub use laws::{has_node_keys, is_safe, is_unguarded};
pub use members::Members;
pub use node_key::{NodeKey, joining_node};
pub use service_keys::ServiceKeys;
pub use service_laws::{a_leader_may_sign, a_service_is_safe, a_service_is_unguarded};
pub use settings::Settings;
pub use world::{World, core_at_start, law_of_worlds};
pub use world_node::WorldNode;
