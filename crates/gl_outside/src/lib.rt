//! The outside: where bytes come from and where they go, each with a count of its faults.
//!
//! Begin with the traits `Source`, `Sink`, `Disk` and `Link`.
#![tactic(auto)]

mod disk;
mod fault_plan;
mod gate;
mod link;
mod mem_disk;
mod mem_link;
mod memory;
mod sink;
mod source;
mod stream;
mod sure_disk;
mod tear;

pub use disk::{Disk, DiskFailed};
pub use fault_plan::FaultPlan;
pub use gate::{Gate, OpenGate};
pub use link::{Came, Link};
pub use mem_disk::MemDisk;
pub use mem_link::{Incoming, MemLink, SureLink, Traffic};
pub use memory::{MemSink, MemSource, SureSink, SureSource};
pub use sink::{Put, Sink, SinkFault, write_whole};
pub use source::{Got, Source};
pub use stream::{StreamSink, StreamSource};
pub use sure_disk::{Call, SureDisk};
pub use tear::Tear;
