//! What the program reaches of the operating system: a file as a disk, TCP sockets and a timer as a
//! link, and a source that shows people how far its reading is. None of them tells what it holds.
//!
//! Begin with `FileDisk`, `TcpLink` and `WatchedSource`.
#![tactic(auto)]

mod connection;
mod file_disk;
mod outgoing;
mod piece;
mod place;
mod sockets;
mod tcp_link;
mod ticker;
mod watched_source;

pub use file_disk::{DiskCall, DiskFailure, FileDisk};
pub use tcp_link::TcpLink;
pub use watched_source::WatchedSource;
