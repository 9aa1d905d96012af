//! Why a node did nothing with an event.

use crate::kept_book::KeptBook;
use gl_replication::Refusal;

/// Why a node did nothing with an event.
#[derive(Drop)]
pub enum NodeFault<B: KeptBook> {
    /// The event is refused. The node and its file are as they were.
    Refused(Refusal<B>),
    /// The disk failed, and counted it. What the event did is told to nobody, and a stop leaves a
    /// file that keeps it or one that doesn't. The node has stopped.
    DiskFault,
    /// The node has stopped, when the disk had failed so often.
    Stopped { count: u64 },
}
