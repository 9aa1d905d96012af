//! The payloads of a stream that comes in pieces.

ghost use Rattle.std.specs.Prelude.{◌≡◌, ◌+◌, ◌<◌, ◌≤◌, ◌++◌, [], None, Ok, length, IfOk, OnOk, OnErr};

use crate::fault::FrameFault;
use crate::framing::FRAME_LIMIT;
use bytes::BytesMut;
use gl_base::OrNoMemory;
use std::alloc::{AllocError, Global};
use std::marker::Model;

/// The bytes of one connection's stream that came and were not yet given as payloads. Contracts see
/// it as the list of these bytes.
#[derive(Drop)]
pub struct Frames {
    buffer: BytesMut,
    alloc: Global,
}

impl Model for Frames {
    ghost use Rattle.std.specs.Prelude.{ℕ, List};

    ghost Value = { List ℕ };

    ghost view = { λ f. f.buffer.items };
}

impl Frames {
    ghost use Rattle.gl_messages.specs.Frames.{frame_limit, GivesPrefix};

    /// No bytes. Takes no memory.
    pub fn new(alloc: Global) -> Self
        ensures { result ≡ [] }
    {
        Frames {
            buffer: BytesMut::new(alloc),
            alloc,
        }
    }

    /// Keeps bytes that came, after those that are kept. Running out of memory keeps none of them.
    pub fn feed(&mut self, bytes: &[u8]) -> Result<(), AllocError>
        ensures ok { OnOk result (self.new ≡ self.old ++ bytes.now) }
        ensures err { OnErr result (self.new ≡ self.old) }
    {
        self.buffer.extend_from_slice(bytes)
    }

    /// Takes the payload of the frame that the bytes begin with. `None` where they begin with no
    /// whole frame and with no length above 2 MiB. Where memory runs out the frame stays, and the
    /// call may be tried again.
    pub fn next(&mut self) -> Result<Option<Vec<u8>>, OrNoMemory<FrameFault>>
        ensures given { GivesPrefix (λ payload. payload.items) self.old result self.new }
        // At most 2 MiB and the four bytes of a length are kept once there is no payload.
        ensures kept { result ≡ Ok None → length self.new < frame_limit + 4 }
    {
        let Some((head, suffix)) = self.buffer.as_slice().split_first_chunk::<4>() else {
            return Ok(None);
        };
        let len = u32::from_be_bytes(*head);
        if len > FRAME_LIMIT {
            return Err(OrNoMemory::Fault(FrameFault::FrameTooLong { len }));
        }
        if suffix.len() < len as usize {
            return Ok(None);
        }
        let payload = Vec::from_slice(self.alloc, &suffix[..len as usize])?;
        self.buffer.advance(4 + len as usize);
        Ok(Some(payload))
    }
}
