//! Serving: what a node does with the payloads and the ticks of a link, what it sends over it, and
//! how that ends; for any node, and for a node over a file that serves peers and clients.
//!
//! Begin with `serve_replica`, which serves a node over its file; of any other node, with `serve`.
#![tactic(auto)]

mod answers;
mod heard;
mod laws;
mod node;
mod observer;
mod outbox;
mod over_link;
mod payload;
mod peer_message;
mod progress;
mod served;
mod service;
mod serving_node;
mod session;
mod settings;
mod streams;
mod work;

pub use laws::{
    a_leaf_is_spent_before_it_is_told, a_serve_is_events_of_its_node,
    a_stop_leaves_what_an_event_kept, no_leaf_signs_twice_in_a_serve,
};
pub use node::{Outcome, OwnEvent, ServedNode};
pub use observer::{NodeStatus, Observer};
pub use over_link::serve_replica;
pub use payload::{Ask, Payload};
pub use peer_message::PeerMessage;
pub use service::{law_of_stops, law_of_whole_streams, serve};
pub use serving_node::ServingNode;
pub use settings::{ServeEnd, Serving};
