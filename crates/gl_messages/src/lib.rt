//! What nodes send to one another, what clients ask and are answered, and the frames in which these
//! stand on a stream.
//!
//! Begin with `Message`, and `Frames`.
#![tactic(auto)]

mod answer;
mod append;
mod client;
mod fault;
mod fields;
mod frames;
mod framing;
mod message;

pub use answer::{Answer, AnswerBody};
pub use client::{Call, Client};
pub use fault::{FrameFault, MessageFault};
pub use frames::Frames;
pub use framing::{FRAME_LIMIT, law_of_streams, put_frame};
pub use message::{Body, Entries, Message};
