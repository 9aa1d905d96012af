//! The body of a snapshot: what it says of the entries up to its base, and its bytes both ways.
//!
//! Begin with `Body`.
#![tactic(auto)]

mod body;
mod decode;
mod digest;
mod encode;
mod fault;
mod laws;
mod lengths;

pub use body::{Body, BodyHead, Digest, SNAPSHOT_LIMIT, ViewStart};
pub use decode::read_body;
pub use digest::{digest_of_body, feed_row};
pub use encode::put_body;
pub use fault::ShapeFault;
pub use laws::law_of_bodies;
